//! Byte code: a line for each operation, and its parts further to the right.

use crate::listing::{Listing, inside};
use crate::names::{of_binary, of_int, of_root, of_unary};
use core_code::{Body, Byte, Core, CoreProgram, FirstByte};

/// A byte. One of the copy's own frame is told by its offset alone.
pub fn put_byte(out: &mut Listing, byte: Byte) {
    match byte {
        Byte::Static { object, offset } => out.paired("Static", object as u64, offset as u64),
        Byte::Frame { copy, offset } => {
            if out.own == Some(copy) {
                out.numbered("F", offset as u64);
            } else {
                out.paired("Frame", copy as u64, offset as u64);
            }
        }
        Byte::Result { root, k } => {
            out.open("Result");
            out.word(of_root(root));
            out.number(k as u64);
            out.close();
        }
        Byte::Device { address } => out.numbered("Device", address as u64),
    }
}

fn put_bytes(out: &mut Listing, first: Byte, second: Byte) {
    put_byte(out, first);
    put_byte(out, second);
}

fn head_of(operation: &Core) -> &'static str {
    match operation {
        Core::Set { .. } => "Set",
        Core::Address { .. } => "Address",
        Core::Copy { .. } => "Copy",
        Core::Load { .. } => "Load",
        Core::Store { .. } => "Store",
        Core::Unary { .. } => "Unary",
        Core::Binary { .. } => "Binary",
        Core::Convert { .. } => "Convert",
        Core::BitRead { .. } => "BitRead",
        Core::BitWrite { .. } => "BitWrite",
        Core::Call { .. } => "Call",
        Core::Leave => "Leave",
        Core::Many(_) => "Many",
        Core::If { .. } => "If",
        Core::Loop(_) => "Loop",
        Core::Exit(_) => "Exit",
        Core::Again(_) => "Again",
    }
}

/// What an operation has besides the operations in it.
fn put_fields(out: &mut Listing, operation: &Core) {
    match operation {
        Core::Set { to, value } => {
            put_byte(out, *to);
            out.number(*value as u64);
        }
        Core::Address { to, place } => put_bytes(out, *to, *place),
        Core::Copy { to, from } => put_bytes(out, *to, *from),
        Core::Load { to, pointer, count } => {
            put_bytes(out, *to, *pointer);
            out.number(*count as u64);
        }
        Core::Store {
            pointer,
            from,
            count,
        } => {
            put_bytes(out, *pointer, *from);
            out.number(*count as u64);
        }
        Core::Unary { op, ty, at } => {
            out.word(of_unary(*op));
            out.word(of_int(*ty));
            put_byte(out, *at);
        }
        Core::Binary {
            op,
            ty,
            to,
            left,
            right,
        } => {
            out.word(of_binary(*op));
            out.word(of_int(*ty));
            put_byte(out, *to);
            put_bytes(out, *left, *right);
        }
        _ => put_other_fields(out, operation),
    }
}

fn put_other_fields(out: &mut Listing, operation: &Core) {
    match operation {
        Core::Convert { from, to, at } => {
            out.word(of_int(*from));
            out.word(of_int(*to));
            put_byte(out, *at);
        }
        Core::BitRead { to, register, bit } => {
            put_byte(out, *to);
            out.number(*register as u64);
            out.number(*bit as u64);
        }
        Core::BitWrite {
            register,
            bit,
            from,
        } => {
            out.number(*register as u64);
            out.number(*bit as u64);
            put_byte(out, *from);
        }
        Core::Call { copy } => out.number(*copy as u64),
        Core::If { test, size, .. } => {
            put_byte(out, *test);
            out.number(*size as u64);
        }
        Core::Exit(loops) | Core::Again(loops) => out.number(*loops as u64),
        _ => {}
    }
}

#[cycle(operation)]
fn put_operation(out: &mut Listing, operation: &Core, depth: u32) {
    out.begin(depth, head_of(operation));
    put_fields(out, operation);
    out.end();
    match operation {
        Core::Many(operations) => put_operations(out, operations, inside(depth)),
        Core::If { yes, no, .. } => {
            put_operation(out, yes, inside(depth));
            put_operation(out, no, inside(depth));
        }
        Core::Loop(body) => put_operation(out, body, inside(depth)),
        _ => {}
    }
}

#[cycle(operation)]
fn put_operations(out: &mut Listing, operations: &[Core], depth: u32) {
    for operation in operations {
        put_operation(out, operation, depth);
    }
}

fn put_body(out: &mut Listing, body: &Body) {
    out.own = Some(body.copy);
    out.begin(1, "Body");
    out.number(body.copy as u64);
    out.word(of_root(body.root));
    out.end();
    put_operations(out, &body.code, 2);
}

fn put_first_byte(out: &mut Listing, byte: FirstByte) {
    match byte {
        FirstByte::Number(number) => out.number(number as u64),
        FirstByte::Low { object } => out.numbered("Low", object as u64),
        FirstByte::High { object } => out.numbered("High", object as u64),
    }
}

fn put_first(out: &mut Listing, bytes: &[FirstByte]) {
    out.begin(1, "First");
    for byte in bytes {
        put_first_byte(out, *byte);
    }
    out.end();
}

/// The byte code of a program: the first bytes of its static objects, and the bodies of its copies.
pub fn put_core(out: &mut Listing, program: &CoreProgram) {
    out.begin(0, "Core");
    out.end();
    for bytes in &program.statics {
        put_first(out, bytes);
    }
    for body in &program.bodies {
        put_body(out, body);
    }
}
