//! Expressions and places: a line for each node, and its parts further to the right.

use crate::listing::{Listing, inside};
use crate::names::{of_binary, of_logical, of_step, of_unary};
use crate::types::{put_qualified, put_type};
use c_typed::{Object, TExpr, TPlace};

fn head_of(expr: &TExpr) -> &'static str {
    match expr {
        TExpr::Constant { .. } => "Constant",
        TExpr::Read { .. } => "Read",
        TExpr::Address { .. } => "Address",
        TExpr::Convert { .. } => "Convert",
        TExpr::Cast { .. } => "Cast",
        TExpr::Unary { .. } => "Unary",
        TExpr::Binary { .. } => "Binary",
        TExpr::Offset { .. } => "Offset",
        TExpr::Difference { .. } => "Difference",
        TExpr::Logical { .. } => "Logical",
        TExpr::Conditional { .. } => "Conditional",
        TExpr::Comma { .. } => "Comma",
        TExpr::Assign { .. } => "Assign",
        TExpr::StructAssign { .. } => "StructAssign",
        TExpr::Update { .. } => "Update",
        TExpr::Step { .. } => "Step",
        TExpr::Call { .. } => "Call",
    }
}

/// What a node has besides its parts, its type and its line.
fn put_fields(out: &mut Listing, expr: &TExpr) {
    match expr {
        TExpr::Constant { value, .. } => out.signed(value.number()),
        TExpr::Unary { op, .. } => out.word(of_unary(*op)),
        TExpr::Binary { op, .. } => out.word(of_binary(*op)),
        TExpr::Offset { op, size, .. } => {
            out.word(of_binary(*op));
            out.number(*size);
        }
        TExpr::Difference { size, .. } | TExpr::StructAssign { size, .. } => out.number(*size),
        TExpr::Logical { op, .. } => out.word(of_logical(*op)),
        TExpr::Update {
            op,
            operation,
            size,
            ..
        } => {
            out.word(of_binary(*op));
            put_type(out, *operation);
            out.number(*size);
        }
        TExpr::Step {
            op,
            operation,
            size,
            ..
        } => {
            out.word(of_step(*op));
            put_type(out, *operation);
            out.number(*size);
        }
        TExpr::Call { function, .. } => out.number(*function as u64),
        _ => {}
    }
}

fn put_node(out: &mut Listing, expr: &TExpr, depth: u32) {
    out.begin(depth, head_of(expr));
    put_fields(out, expr);
    put_type(out, expr.ty());
    out.number(expr.line() as u64);
    out.end();
}

fn put_object(out: &mut Listing, object: Object) {
    match object {
        Object::Static(number) => out.numbered("Static", number as u64),
        Object::Param(number) => out.numbered("Param", number as u64),
        Object::Local(number) => out.numbered("Local", number as u64),
        Object::Register(address) => out.numbered("Register", address as u64),
    }
}

fn put_place_node(out: &mut Listing, place: &TPlace, depth: u32) {
    match place {
        TPlace::Name { object, ty, .. } => {
            out.begin(depth, "Name");
            put_object(out, *object);
            put_qualified(out, *ty);
        }
        TPlace::Bit { register, bit, .. } => {
            out.begin(depth, "Bit");
            out.number(*register as u64);
            out.number(*bit as u64);
        }
        TPlace::Member {
            member,
            offset,
            ty,
            ..
        } => {
            out.begin(depth, "Member");
            out.number(*member as u64);
            out.number(*offset);
            put_qualified(out, *ty);
        }
        TPlace::Deref { ty, .. } => {
            out.begin(depth, "Deref");
            put_qualified(out, *ty);
        }
    }
    out.number(place.line() as u64);
    out.end();
}

/// An expression, so many steps to the right.
#[cycle(expression)]
pub fn put_expression(out: &mut Listing, expr: &TExpr, depth: u32) {
    put_node(out, expr, depth);
    match expr {
        TExpr::Constant { .. } => {}
        TExpr::Read { place, .. } | TExpr::Address { place, .. } | TExpr::Step { place, .. } => {
            put_place(out, place, inside(depth));
        }
        TExpr::Convert { operand, .. }
        | TExpr::Cast { operand, .. }
        | TExpr::Unary { operand, .. } => put_expression(out, operand, inside(depth)),
        TExpr::Binary { left, right, .. }
        | TExpr::Offset { left, right, .. }
        | TExpr::Difference { left, right, .. }
        | TExpr::Logical { left, right, .. }
        | TExpr::Comma { left, right, .. } => {
            put_expression(out, left, inside(depth));
            put_expression(out, right, inside(depth));
        }
        TExpr::Conditional {
            condition,
            then,
            otherwise,
            ..
        } => {
            put_expression(out, condition, inside(depth));
            put_expression(out, then, inside(depth));
            put_expression(out, otherwise, inside(depth));
        }
        TExpr::Assign { place, value, .. } | TExpr::Update { place, value, .. } => {
            put_place(out, place, inside(depth));
            put_expression(out, value, inside(depth));
        }
        TExpr::StructAssign { place, from, .. } => {
            put_place(out, place, inside(depth));
            put_place(out, from, inside(depth));
        }
        TExpr::Call { arguments, .. } => put_arguments(out, arguments, inside(depth)),
    }
}

/// A place, so many steps to the right.
#[cycle(expression)]
pub fn put_place(out: &mut Listing, place: &TPlace, depth: u32) {
    put_place_node(out, place, depth);
    match place {
        TPlace::Name { .. } | TPlace::Bit { .. } => {}
        TPlace::Member { whole, .. } => put_place(out, whole, inside(depth)),
        TPlace::Deref { pointer, .. } => put_expression(out, pointer, inside(depth)),
    }
}

#[cycle(expression)]
fn put_arguments(out: &mut Listing, arguments: &[TExpr], depth: u32) {
    for argument in arguments {
        put_expression(out, argument, depth);
    }
}

/// An expression that may be missing.
pub fn put_any(out: &mut Listing, expr: &Option<TExpr>, depth: u32) {
    match expr {
        Some(expr) => put_expression(out, expr, depth),
        None => {
            out.begin(depth, "None");
            out.end();
        }
    }
}
