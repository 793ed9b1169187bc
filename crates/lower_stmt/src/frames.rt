//! Where the variables of a function copy stand, and what its calls call.

ghost use Rattle.std.specs.Prelude.{◌≡◌, ◌≤◌, length, map, replicate, IfOk};
ghost use Rattle.c_typed.specs.Views.{function_of, program_of, size_of, variable_of};
ghost use Rattle.lower_expr.specs.Layout.{layout_of};
ghost use Rattle.lower_stmt.specs.Frames as laws;

use c_typed::{FnId, Function, Structure, Typed, Variable, bytes_of};
use call_graph::FnCopy;
use lower_expr::{Locals, beyond};
use pic_world::Root;
use std::alloc::{AllocError, Global};

// The offsets of variables that stand one behind the other from `start` on.
fn offsets_from(
    alloc: Global,
    structures: &[Structure],
    variables: &[Variable],
    start: u16,
) -> Result<Vec<u16>, AllocError>
    ensures { IfOk result (λ offsets. offsets.items ≡ laws.offsets_from (map size_of structures.now) start (map variable_of variables.now)) }
{
    let mut offsets = Vec::new(alloc);
    let mut at = start;
    for variable in variables {
        offsets.push(at)?;
        at = beyond(at, bytes_of(structures, variable.ty.ty));
    }
    Ok(offsets)
}

// The offset behind them.
fn end_from(structures: &[Structure], variables: &[Variable], start: u16) -> u16
    ensures { result ≡ laws.end_from (map size_of structures.now) start (map variable_of variables.now) }
{
    let mut at = start;
    for variable in variables {
        at = beyond(at, bytes_of(structures, variable.ty.ty));
    }
    at
}

/// The offset of the first temporary byte of a function: its parameters and then its locals stand before it.
pub fn base_of(structures: &[Structure], function: &Function) -> u16
    ensures { result ≡ laws.base_of (map size_of structures.now) (function_of function.now) }
{
    let locals = end_from(structures, &function.params, 0);
    end_from(structures, &function.locals, locals)
}

fn user_number(function: FnId) -> Option<u32>
    ensures { result ≡ laws.user_number function }
{
    match function {
        FnId::User(number) => Some(number),
        FnId::Helper(_) => None,
    }
}

// The function that a copy under this root is one of.
fn function_under(root: Root, copy: FnCopy) -> Option<u32>
    ensures { result ≡ laws.function_under root copy }
{
    match copy.root {
        Root::Main => match root {
            Root::Main => user_number(copy.function),
            Root::Isr => None,
        },
        Root::Isr => match root {
            Root::Main => None,
            Root::Isr => user_number(copy.function),
        },
    }
}

fn nones(alloc: Global, count: usize) -> Result<Vec<Option<u16>>, AllocError>
    ensures { IfOk result (λ numbers. numbers.items ≡ replicate count None) }
{
    let numbers = vec![in alloc; None; count]?;
    Ok(numbers)
}

fn mark(numbers: &mut [Option<u16>], function: Option<u32>, number: u16)
    ensures { numbers.new ≡ laws.marked_at function number numbers.old }
{
    if let Some(function) = function {
        if (function as usize) < numbers.len() {
            numbers[function as usize] = Some(number);
        }
    }
}

// Of each function the number of its copy under this root.
fn copies_under(
    alloc: Global,
    root: Root,
    list: &[FnCopy],
    functions: usize,
) -> Result<Vec<Option<u16>>, AllocError>
    requires { length list.now ≤ 65536 }
    ensures { IfOk result (λ numbers. numbers.items ≡ laws.marked root 0 list.now (replicate functions None)) }
{
    let mut numbers = nones(alloc, functions)?;
    for (number, copy) in list.iter().enumerate() {
        mark(&mut numbers, function_under(root, *copy), number as u16);
    }
    Ok(numbers)
}

/// What the code of a copy of a function under this root stands on.
pub fn places_of<'a>(
    alloc: Global,
    p: &'a Typed,
    list: &[FnCopy],
    root: Root,
    function: &Function,
) -> Result<Locals<'a>, AllocError>
    requires { length list.now ≤ 65536 }
    ensures { IfOk result (λ places. layout_of places ≡ laws.layout_for (program_of p.now) list.now root (function_of function.now)) }
{
    let params = offsets_from(alloc, &p.structures, &function.params, 0)?;
    let start = end_from(&p.structures, &function.params, 0);
    let locals = offsets_from(alloc, &p.structures, &function.locals, start)?;
    let copies = copies_under(alloc, root, list, p.functions.len())?;
    Ok(Locals {
        root,
        params,
        locals,
        copies,
        structures: &p.structures,
    })
}
