//! What numbers and names of a program stand for: functions, objects with their sizes, and places.

ghost use Rattle.std.specs.Prelude.{◌≡◌, length, map, slice_get};
ghost use Rattle.c_typed.specs.Roots as roots;
ghost use Rattle.c_typed.specs.Views.{program_of, function_of, variable_of};
ghost use Rattle.src_values.specs.Objects as stated;

use crate::objects::{CopyOf, Object, Spot};
use crate::pointers::behind;
use c_typed::{Function, Object as Name, Typed, Variable};

fn same_bytes(a: &[u8], b: &[u8]) -> bool
    ensures { result ≡ roots.same_bytes a.now b.now }
{
    match a {
        [] => match b {
            [] => true,
            [_, ..] => false,
        },
        [first, rest @ ..] => match b {
            [] => false,
            [other, others @ ..] => *first == *other && same_bytes(rest, others),
        },
    }
}

fn is_main(function: &Function) -> bool
    ensures { result ≡ roots.is_main (function_of function.now) }
{
    same_bytes(&function.name, b"main")
}

fn main_among(functions: &[Function]) -> Option<usize>
    ensures { result ≡ roots.first_from roots.is_main (map function_of functions.now) 0 }
{
    for (number, function) in functions.iter().enumerate() {
        if is_main(function) {
            return Some(number);
        }
    }
    None
}

fn handler_among(functions: &[Function]) -> Option<usize>
    ensures { result ≡ roots.first_from roots.is_handler (map function_of functions.now) 0 }
{
    for (number, function) in functions.iter().enumerate() {
        if function.interrupt {
            return Some(number);
        }
    }
    None
}

/// The number of main.
pub fn main_in(program: &Typed) -> Option<usize>
    ensures { result ≡ stated.main_in (program_of program.now) }
{
    main_among(&program.functions)
}

/// The number of the handler, if there is one.
pub fn handler_in(program: &Typed) -> Option<usize>
    ensures { result ≡ stated.handler_in (program_of program.now) }
{
    handler_among(&program.functions)
}

/// The line of a function's first token.
pub fn line_of(program: &Typed, function: usize) -> u32
    ensures { result ≡ (stated.function_at (program_of program.now) function).line }
{
    match program.functions.get(function) {
        Some(found) => found.line,
        None => 0,
    }
}

// How many parameters a function has.
fn param_count(program: &Typed, function: usize) -> usize
    ensures { result ≡ length (stated.function_at (program_of program.now) function).params }
{
    match program.functions.get(function) {
        Some(found) => found.params.len(),
        None => 0,
    }
}

/// The local of this number of a function copy.
pub fn local_of(program: &Typed, copy: CopyOf, number: usize) -> Object
    ensures { result ≡ stated.local_of (program_of program.now) copy number }
{
    Object::Variable {
        copy,
        number: param_count(program, copy.function) as u128 + number as u128,
    }
}

/// What a name stands for in a function copy.
pub fn spot_of(program: &Typed, copy: CopyOf, name: Name) -> Spot
    ensures { result ≡ stated.spot_of (program_of program.now) copy name }
{
    match name {
        Name::Static(number) => behind(Object::Fixed(number), 0),
        Name::Param(number) => behind(
            Object::Variable {
                copy,
                number: number as u128,
            },
            0,
        ),
        Name::Local(number) => behind(local_of(program, copy, number), 0),
        Name::Register(address) => Spot::Device(address),
    }
}

// How many bytes the variable of a number has, 0 where there is none.
fn bytes_at(program: &Typed, variables: &[Variable], number: u128) -> u64
    ensures { result ≡ stated.bytes_of_variable (program_of program.now).sizes (slice_get (map variable_of variables.now) number) }
{
    if number < variables.len() as u128 {
        program.bytes_of(variables[number as usize].ty.ty)
    } else {
        0
    }
}

// How many bytes a variable of a function has: parameters are counted first, then locals.
fn variable_bytes(program: &Typed, function: &Function, number: u128) -> u64
    ensures { result ≡ stated.bytes_of_variable (program_of program.now).sizes (slice_get (stated.variables_of (function_of function.now)) number) }
{
    let count = function.params.len() as u128;
    if number < count {
        bytes_at(program, &function.params, number)
    } else {
        bytes_at(program, &function.locals, number - count)
    }
}

/// How many bytes an object has.
#[tactic(auto, unfolding(crate::specs::Objects::object_bytes))]
pub fn object_bytes(program: &Typed, object: Object) -> u64
    ensures { result ≡ stated.object_bytes (program_of program.now) object }
{
    match object {
        Object::Fixed(number) => match program.statics.get(number) {
            Some(found) => program.bytes_of(found.ty.ty),
            None => 0,
        },
        Object::Variable { copy, number } => {
            match program.functions.get(copy.function) {
                Some(function) => variable_bytes(program, function, number),
                None => 0,
            }
        }
    }
}
