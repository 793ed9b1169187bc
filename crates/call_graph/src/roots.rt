//! The roots: main, and the interrupt handler.

ghost use Rattle.std.specs.Prelude.{◌≡◌, ◌<◌, ◌≤◌, ◌^◌, ◌&&◌, length, map, IfNone, IfOk, MatchResult, false, Some, None};
ghost use Rattle.c_typed.specs.Chains.{graph_of};
ghost use Rattle.call_graph.specs.Copies.{root_of};
ghost use Rattle.call_graph.specs.Rows.{rows_of};
ghost use Rattle.c_typed.specs.Roots as stated;
ghost use Rattle.c_typed.specs.Sameness as typing;
ghost use Rattle.c_typed.specs.Views.{function_of, variable_of, program_of};
ghost use Rattle.pic_world.specs.declared.Root.TheVariants as entry;

use c_typed::{Function, RootKind, Ty, Typed, Variable};

/// The numbers of main and of the interrupt handler.
#[derive(Clone, Copy, PartialEq, Eq)]
pub struct Roots {
    pub main: u32,
    pub handler: Option<u32>,
}

fn is_void(ty: Ty) -> bool
    ensures { result ≡ typing.is_void ty }
{
    match ty {
        Ty::Void => true,
        Ty::Int(_) | Ty::Pointer(_) | Ty::Array { .. } | Ty::Struct(_) => false,
    }
}

fn has_none(params: &[Variable]) -> bool
    ensures { result ≡ stated.is_empty (map variable_of params.now) }
{
    match params {
        [] => true,
        [_, ..] => false,
    }
}

// Neither a result nor parameters.
fn is_plain(function: &Function) -> bool
    ensures { result ≡ stated.is_plain (function_of function.now) }
{
    is_void(function.result) && has_none(&function.params)
}

fn same_bytes(a: &[u8], b: &[u8]) -> bool
    ensures { result ≡ stated.same_bytes a.now b.now }
{
    match a {
        [] => match b {
            [] => true,
            [_, ..] => false,
        },
        [first, rest @ ..] => match b {
            [] => false,
            [other, others @ ..] => *first == *other && same_bytes(rest, others),
        },
    }
}

fn is_main(function: &Function) -> bool
    ensures { result ≡ stated.is_main (function_of function.now) }
{
    same_bytes(&function.name, b"main")
}

fn is_bad_main(function: &Function) -> bool
    ensures { result ≡ stated.is_bad_main (function_of function.now) }
{
    is_main(function) && (function.interrupt || !is_plain(function))
}

fn is_bad_handler(function: &Function) -> bool
    ensures { result ≡ stated.is_bad_handler (function_of function.now) }
{
    function.interrupt && !is_plain(function)
}

fn has_main(functions: &[Function]) -> bool
    ensures { result ≡ stated.has stated.is_main (map function_of functions.now) }
{
    for function in functions {
        if is_main(function) {
            return true;
        }
    }
    false
}

fn has_bad_main(functions: &[Function]) -> bool
    ensures { result ≡ stated.has stated.is_bad_main (map function_of functions.now) }
{
    for function in functions {
        if is_bad_main(function) {
            return true;
        }
    }
    false
}

fn has_bad_handler(functions: &[Function]) -> bool
    ensures { result ≡ stated.has stated.is_bad_handler (map function_of functions.now) }
{
    for function in functions {
        if is_bad_handler(function) {
            return true;
        }
    }
    false
}

fn main_of(functions: &[Function]) -> Option<u32>
    requires { length functions.now ≤ 2 ^ 28 }
    ensures first { result ≡ stated.first_from stated.is_main (map function_of functions.now) 0 }
    ensures none { IfNone result (stated.has stated.is_main (map function_of functions.now) ≡ false) }
{
    for (number, function) in functions.iter().enumerate() {
        if is_main(function) {
            return Some(number as u32);
        }
    }
    None
}

fn handler_of(functions: &[Function]) -> Option<u32>
    requires { length functions.now ≤ 2 ^ 28 }
    ensures { result ≡ stated.first_from stated.is_handler (map function_of functions.now) 0 }
{
    for (number, function) in functions.iter().enumerate() {
        if function.interrupt {
            return Some(number as u32);
        }
    }
    None
}

fn handlers(functions: &[Function]) -> usize
    ensures { result ≡ stated.how_many stated.is_handler (map function_of functions.now) }
{
    let mut count = 0;
    for function in functions {
        if function.interrupt {
            count += 1;
        }
    }
    count
}

fn holds(row: &[u32], number: u32) -> bool
    ensures { result ≡ stated.holds row.now number }
{
    let mut left = row;
    while let [first, rest @ ..] = left {
        if *first == number {
            return true;
        }
        left = rest;
    }
    false
}

fn names(rows: &[Vec<u32>], number: u32) -> bool
    ensures { result ≡ stated.is_called (rows_of rows.now) number }
{
    for row in rows {
        if holds(row, number) {
            return true;
        }
    }
    false
}

fn is_called_root(function: &Function, rows: &[Vec<u32>], number: u32) -> bool
    ensures { result ≡ (stated.is_root (function_of function.now) && stated.is_called (rows_of rows.now) number) }
{
    (is_main(function) || function.interrupt) && names(rows, number)
}

fn has_called_root(functions: &[Function], rows: &[Vec<u32>]) -> bool
    requires { length functions.now ≤ 2 ^ 28 }
    ensures { result ≡ stated.is_root_called (rows_of rows.now) (map function_of functions.now) 0 }
{
    for (number, function) in functions.iter().enumerate() {
        if is_called_root(function, rows, number as u32) {
            return true;
        }
    }
    false
}

/// The roots of a program with that call graph, or the first rule on them that it breaks.
pub fn find_roots(p: &Typed, rows: &[Vec<u32>]) -> Result<Roots, RootKind>
    requires small { length p.now.functions.items ≤ 2 ^ 28 }
    requires graph { rows_of rows.now ≡ graph_of (program_of p.now) }
    // A kind is told exactly where it is the first rule that is broken.
    ensures rules { MatchResult result (λ _. stated.broken_root (program_of p.now) ≡ None) (λ kind. stated.broken_root (program_of p.now) ≡ Some kind) }
    ensures main { IfOk result (λ found. root_of (program_of p.now) entry.Main ≡ Some found.main) }
    ensures handler { IfOk result (λ found. root_of (program_of p.now) entry.Isr ≡ found.handler) }
{
    if !has_main(&p.functions) {
        return Err(RootKind::None);
    }
    if has_bad_main(&p.functions) {
        return Err(RootKind::Main);
    }
    if has_bad_handler(&p.functions) {
        return Err(RootKind::Shape);
    }
    if handlers(&p.functions) > 1 {
        return Err(RootKind::Second);
    }
    if has_called_root(&p.functions, rows) {
        return Err(RootKind::Called);
    }
    let Some(main) = main_of(&p.functions) else {
        return Err(RootKind::None);
    };
    Ok(Roots {
        main,
        handler: handler_of(&p.functions),
    })
}
