//! Which static objects are kept.

ghost use Rattle.std.specs.Prelude.{◌≡◌, ◌<◌, ◌≤◌, ◌^◌, ℕ, false, length, map, get_or, Some, IfOk};
ghost use Rattle.c_typed.specs.Chains as chains;
ghost use Rattle.c_typed.specs.Roots as roots;
ghost use Rattle.c_typed.specs.Views.{function_of, static_of, program_of};
ghost use Rattle.vol_opt.specs.Kept as stated;
ghost use Rattle.vol_opt.specs.Marks.{marked, names_if};

use crate::marking::{mark, mark_statements};
use crate::types::Kept;
use crate::volatile::volatile_statics;
use c_typed::{Function, Initial, InitialByte, Static, Typed};
use call_graph::{graph_of, reached};
use std::alloc::{AllocError, Global};

// The number of the interrupt handler.
fn handler_of(functions: &[Function]) -> Option<u32>
    requires { length functions.now ≤ 2 ^ 28 }
    ensures { result ≡ roots.first_from roots.is_handler (map function_of functions.now) 0 }
{
    for (number, function) in functions.iter().enumerate() {
        if function.interrupt {
            return Some(number as u32);
        }
    }
    None
}

// What chains of calls lead to from a function, and the function itself.
fn under(alloc: Global, p: &Typed, root: u32) -> Result<Vec<bool>, AllocError>
    requires { length p.now.functions.items ≤ 2 ^ 28 }
    ensures { IfOk result (λ marks. (number : ℕ) → number < length (program_of p.now).functions → get_or marks.items number false ≡ stated.is_under (chains.graph_of (program_of p.now)) (Some root) number) }
{
    let rows = graph_of(alloc, p)?;
    let mut marks = reached(alloc, &rows, root)?;
    mark(&mut marks, root as usize);
    Ok(marks)
}

// Which functions are under the handler's root.
fn handlers(alloc: Global, p: &Typed) -> Result<Vec<bool>, AllocError>
    requires { length p.now.functions.items ≤ 2 ^ 28 }
    ensures { IfOk result (λ marks. (number : ℕ) → number < length (program_of p.now).functions → get_or marks.items number false ≡ stated.is_handlers (program_of p.now) number) }
{
    match handler_of(&p.functions) {
        Some(root) => under(alloc, p, root),
        None => Ok(Vec::new(alloc)),
    }
}

fn is_set(marks: &[bool], at: usize) -> bool
    ensures { result ≡ get_or marks.now at false }
{
    match marks.get(at) {
        Some(mark) => *mark,
        None => false,
    }
}

// What a function names, if it is one under the handler's root.
#[tactic(auto, using(crate::proofs::Lists::marked_rules))]
fn mark_names(function: &Function, is_under: bool, marks: &mut Vec<bool>)
    ensures { marks.new.items ≡ marked marks.old.items (names_if is_under (function_of function.now)) }
{
    if is_under {
        mark_statements(&function.body, true, marks);
    }
}

// What the functions under the handler's root name.
fn mark_handlers(p: &Typed, under: &[bool], marks: &mut Vec<bool>)
    requires { (number : ℕ) → number < length (program_of p.now).functions → get_or under.now number false ≡ stated.is_handlers (program_of p.now) number }
    ensures { marks.new.items ≡ marked marks.old.items (stated.handlers_names (program_of p.now) 0 (program_of p.now).functions) }
{
    for (number, function) in p.functions.iter().enumerate() {
        mark_names(function, is_set(under, number), marks);
    }
}

// The addresses that functions take.
fn mark_addresses(functions: &[Function], marks: &mut Vec<bool>)
    ensures { marks.new.items ≡ marked marks.old.items (stated.addresses_in (map function_of functions.now)) }
{
    for function in functions {
        mark_statements(&function.body, false, marks);
    }
}

#[tactic(auto, using(crate::proofs::Lists::marked_rules))]
fn mark_first_byte(first: &Initial, marks: &mut Vec<bool>)
    ensures { marks.new.items ≡ marked marks.old.items (stated.byte_address first.now.byte) }
{
    match first.byte {
        InitialByte::Number(_) => {}
        InitialByte::Address { object, .. } => mark(marks, object),
    }
}

fn mark_first_bytes(bytes: &[Initial], marks: &mut Vec<bool>)
    ensures { marks.new.items ≡ marked marks.old.items (stated.first_addresses bytes.now) }
{
    for first in bytes {
        mark_first_byte(first, marks);
    }
}

// The addresses that static objects begin with.
fn mark_initial(statics: &[Static], marks: &mut Vec<bool>)
    ensures { marks.new.items ≡ marked marks.old.items (stated.initial_addresses (map static_of statics.now)) }
{
    for object in statics {
        mark_first_bytes(&object.initial, marks);
    }
}

/// Of each static object whether it is kept in the trace of the optimising build: one that is volatile or has a volatile member or
/// element at any depth, one that a function under the handler's root names, and one whose address is used anywhere, as that of an array
/// is that is indexed, or one that another object begins with. The only error is that memory runs out.
#[tactic(auto, using(c_typed::proofs::Facts::few_functions))]
pub fn kept(alloc: Global, p: &Typed) -> Result<Kept, AllocError>
    ensures { IfOk result (λ kept. kept.objects.items ≡ stated.kept_of (program_of p.now)) }
{
    let mut objects = volatile_statics(alloc, p)?;
    let under = handlers(alloc, p)?;
    mark_handlers(p, &under, &mut objects);
    mark_addresses(&p.functions, &mut objects);
    mark_initial(&p.statics, &mut objects);
    Ok(Kept { objects })
}
