//! The call graph by numbers: each function has its own, and the helpers follow after the functions.

ghost use Rattle.std.specs.Prelude.{◌≡◌, ◌+◌, ◌<◌, ◌≤◌, ◌^◌, ◌++◌, [], map, replicate, length, IfOk};
ghost use Rattle.c_typed.specs.Chains as stated;
ghost use Rattle.c_typed.specs.Views.{program_of, function_of};
ghost use Rattle.call_graph.specs.Copies.{IsOne};
ghost use Rattle.call_graph.specs.Rows.{rows_of};

use crate::calls::put_statements_calls;
use c_typed::{FnId, Function, Helper, Typed};
use std::alloc::{AllocError, Global};

/// How many helpers there are.
pub const HELPERS: u32 = 16;

fn helper_number(helper: Helper) -> u32
    ensures value { result ≡ stated.helper_number helper }
    ensures below { result < 16 }
{
    match helper {
        Helper::Mul2 => 0,
        Helper::Mul4 => 1,
        Helper::Divu2 => 2,
        Helper::Divs2 => 3,
        Helper::Remu2 => 4,
        Helper::Rems2 => 5,
        Helper::Divu4 => 6,
        Helper::Divs4 => 7,
        Helper::Remu4 => 8,
        Helper::Rems4 => 9,
        Helper::Shl2 => 10,
        Helper::Shru2 => 11,
        Helper::Shrs2 => 12,
        Helper::Shl4 => 13,
        Helper::Shru4 => 14,
        Helper::Shrs4 => 15,
    }
}

fn helper_at(number: u32) -> Helper
    ensures { number < 16 → stated.helper_number result ≡ number }
{
    match number {
        0 => Helper::Mul2,
        1 => Helper::Mul4,
        2 => Helper::Divu2,
        3 => Helper::Divs2,
        4 => Helper::Remu2,
        5 => Helper::Rems2,
        6 => Helper::Divu4,
        7 => Helper::Divs4,
        8 => Helper::Remu4,
        9 => Helper::Rems4,
        10 => Helper::Shl2,
        11 => Helper::Shru2,
        12 => Helper::Shrs2,
        13 => Helper::Shl4,
        14 => Helper::Shru4,
        _ => Helper::Shrs4,
    }
}

/// The number of a function or helper of a program with so many functions.
pub fn number_of(functions: u32, id: FnId) -> u32
    requires { functions ≤ 2 ^ 28 }
    ensures { result ≡ stated.number_of functions id }
{
    match id {
        FnId::User(number) => number,
        FnId::Helper(helper) => functions + helper_number(helper),
    }
}

/// What has that number.
pub fn id_of(functions: u32, number: u32) -> FnId
    ensures number { number < functions + 16 → stated.number_of functions result ≡ number }
    ensures one { IsOne functions result }
{
    if number < functions {
        FnId::User(number)
    } else {
        FnId::Helper(helper_at(number - functions))
    }
}

fn numbers_of(alloc: Global, functions: u32, ids: &[FnId]) -> Result<Vec<u32>, AllocError>
    requires { functions ≤ 2 ^ 28 }
    ensures { IfOk result (λ numbers. numbers.items ≡ map (stated.number_of functions) ids.now) }
{
    let mut numbers = Vec::new(alloc);
    for id in ids {
        numbers.push(number_of(functions, *id))?;
    }
    Ok(numbers)
}

fn row_of(alloc: Global, functions: u32, function: &Function) -> Result<Vec<u32>, AllocError>
    requires { functions ≤ 2 ^ 28 }
    ensures { IfOk result (λ row. row.items ≡ stated.row_of functions (function_of function.now)) }
{
    let mut ids = Vec::new(alloc);
    put_statements_calls(&mut ids, &function.body)?;
    numbers_of(alloc, functions, &ids)
}

/// The numbers that each function calls, as often as it calls them, and then those that each helper
/// calls: none.
pub fn graph_of(alloc: Global, p: &Typed) -> Result<Vec<Vec<u32>>, AllocError>
    requires { length p.now.functions.items ≤ 2 ^ 28 }
    ensures { IfOk result (λ rows. rows_of rows.items ≡ stated.graph_of (program_of p.now)) }
{
    let functions = p.functions.len() as u32;
    let mut rows = Vec::new(alloc);
    for function in &p.functions {
        rows.push(row_of(alloc, functions, function)?)?;
    }
    put_helpers(alloc, &mut rows)?;
    Ok(rows)
}

fn put_helpers(alloc: Global, rows: &mut Vec<Vec<u32>>) -> Result<(), AllocError>
    ensures { IfOk result (λ _. rows_of rows.new.items ≡ rows_of rows.old.items ++ replicate 16 []) }
{
    for _helper in 0..HELPERS {
        rows.push(Vec::new(alloc))?;
    }
    Ok(())
}
