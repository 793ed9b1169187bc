//! Byte code as texts: an operation that has others in it stands behind them.

use crate::reading::{byte, cut, find, number, small};
use c_ints::{BinOp, IntTy, UnOp};
use core_code::Core;
use std::alloc::{AllocError, Global};

const OPERATORS: [(&str, BinOp); 7] = [
    ("add", BinOp::Add),
    ("shl", BinOp::Shl),
    ("shr", BinOp::Shr),
    ("lt", BinOp::Lt),
    ("eq", BinOp::Eq),
    ("ne", BinOp::Ne),
    ("xor", BinOp::Xor),
];

const TYPES: [(&str, IntTy); 4] = [
    ("uchar", IntTy::UChar),
    ("int", IntTy::Int),
    ("uint", IntTy::UInt),
    ("long", IntTy::Long),
];

pub fn operator(name: &str) -> Option<BinOp> {
    find(&OPERATORS, name)
}

// An int where the name is none of a type.
fn int_type(name: &str) -> IntTy {
    find(&TYPES, name).unwrap_or(IntTy::Int)
}

// An operator on two values, as `add int F0.0 F0.0 F0.2`: to, left and right.
fn binary(op: BinOp, rest: &str) -> Core {
    let (ty, rest) = cut(rest);
    let (to, rest) = cut(rest);
    let (left, right) = cut(rest);
    Core::Binary {
        op,
        ty: int_type(ty),
        to: byte(to),
        left: byte(left),
        right: byte(right),
    }
}

// A load or a conversion: three words.
fn with_three(name: &str, rest: &str) -> Option<Core> {
    let (first, rest) = cut(rest);
    let (second, third) = cut(rest);
    match name {
        "load" => Some(Core::Load {
            to: byte(first),
            pointer: byte(second),
            count: number(third),
        }),
        "convert" => Some(Core::Convert {
            from: int_type(first),
            to: int_type(second),
            at: byte(third),
        }),
        "bitwrite" => Some(Core::BitWrite {
            register: small(first),
            bit: small(second),
            from: byte(third),
        }),
        _ => None,
    }
}

// An operation without others in it.
fn simple(name: &str, rest: &str) -> Option<Core> {
    let (first, second) = cut(rest);
    match name {
        "set" => Some(Core::Set {
            to: byte(first),
            value: small(second),
        }),
        "address" => Some(Core::Address {
            to: byte(first),
            place: byte(second),
        }),
        "copy" => Some(Core::Copy {
            to: byte(first),
            from: byte(second),
        }),
        "bang" => Some(Core::Unary {
            op: UnOp::Bang,
            ty: int_type(first),
            at: byte(second),
        }),
        "call" => Some(Core::Call {
            copy: number(first),
        }),
        "leave" => Some(Core::Leave),
        "exit" => Some(Core::Exit(number(first) as usize)),
        "again" => Some(Core::Again(number(first) as usize)),
        _ => match operator(name) {
            Some(op) => Some(binary(op, rest)),
            None => with_three(name, rest),
        },
    }
}

// The operation that was put last; where there is none, one that ends the body.
fn last(code: &mut Vec<Core>) -> Core {
    code.pop().unwrap_or(Core::Leave)
}

// The last operations, in their order.
fn many(alloc: Global, code: &mut Vec<Core>, count: u16) -> Result<Core, AllocError> {
    let mut parts = Vec::new(alloc);
    for _ in 0..count {
        parts.push(last(code))?;
    }
    parts.reverse();
    Ok(Core::Many(parts))
}

// `if TEST SIZE` behind what is done where it holds, and where it fails.
fn condition(alloc: Global, code: &mut Vec<Core>, rest: &str) -> Result<Core, AllocError> {
    let (test, size) = cut(rest);
    let no = Box::new(alloc, last(code))?;
    let yes = Box::new(alloc, last(code))?;
    Ok(Core::If {
        test: byte(test),
        size: small(size),
        yes,
        no,
    })
}

/// One operation more, which takes those in it off the end. Whether the line is one.
pub fn put_operation(alloc: Global, code: &mut Vec<Core>, line: &str) -> Result<bool, AllocError> {
    let (name, rest) = cut(line);
    let made = match name {
        "many" => many(alloc, code, number(rest))?,
        "if" => condition(alloc, code, rest)?,
        "loop" => Core::Loop(Box::new(alloc, last(code))?),
        _ => match simple(name, rest) {
            Some(made) => made,
            None => return Ok(false),
        },
    };
    code.push(made)?;
    Ok(true)
}
