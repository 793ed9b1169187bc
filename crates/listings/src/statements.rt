//! Statements: a line for each node, and its parts further to the right.

use crate::expressions::{put_any, put_expression, put_place};
use crate::listing::{Listing, inside};
use crate::names::of_loop;
use c_typed::{TArm, TCase, TItem, TStmt};

/// A node without fields.
fn put_head(out: &mut Listing, head: &str, line: u32, depth: u32) {
    out.begin(depth, head);
    out.number(line as u64);
    out.end();
}

/// A node with the number of a local.
fn put_local(out: &mut Listing, head: &str, local: usize, line: u32, depth: u32) {
    out.begin(depth, head);
    out.number(local as u64);
    out.number(line as u64);
    out.end();
}

fn put_node(out: &mut Listing, statement: &TStmt, depth: u32) {
    match statement {
        TStmt::Block { line, .. } => put_head(out, "Block", *line, depth),
        TStmt::Empty { line } => put_head(out, "Empty", *line, depth),
        TStmt::Expr { line, .. } => put_head(out, "Expr", *line, depth),
        TStmt::Declare { local, line } => put_local(out, "Declare", *local, *line, depth),
        TStmt::InitScalar { local, line, .. } => put_local(out, "InitScalar", *local, *line, depth),
        TStmt::InitList { local, line, .. } => put_local(out, "InitList", *local, *line, depth),
        TStmt::If { line, .. } => put_head(out, "If", *line, depth),
        TStmt::Loop { form, line, .. } => {
            out.begin(depth, "Loop");
            out.word(of_loop(*form));
            out.number(*line as u64);
            out.end();
        }
        TStmt::Switch { line, .. } => put_head(out, "Switch", *line, depth),
        TStmt::Break { line } => put_head(out, "Break", *line, depth),
        TStmt::Continue { line } => put_head(out, "Continue", *line, depth),
        TStmt::Return { line, .. } => put_head(out, "Return", *line, depth),
    }
}

fn put_text(out: &mut Listing, bytes: &[u8], depth: u32) {
    out.begin(depth, "Bytes");
    for byte in bytes {
        out.number(*byte as u64);
    }
    out.end();
}

fn put_item(out: &mut Listing, item: &TItem, depth: u32) {
    match item {
        TItem::Scalar { offset, value } => {
            out.begin(depth, "Scalar");
            out.number(*offset);
            out.end();
            put_expression(out, value, inside(depth));
        }
        TItem::Struct { offset, from, size } => {
            out.begin(depth, "Struct");
            out.number(*offset);
            out.number(*size);
            out.end();
            put_place(out, from, inside(depth));
        }
        TItem::Text {
            offset,
            bytes,
            size,
        } => {
            out.begin(depth, "Text");
            out.number(*offset);
            out.number(*size);
            out.end();
            put_text(out, bytes, inside(depth));
        }
    }
}

fn put_items(out: &mut Listing, items: &[TItem], depth: u32) {
    for item in items {
        put_item(out, item, depth);
    }
}

fn put_case(out: &mut Listing, case: TCase, depth: u32) {
    out.begin(depth, "Case");
    out.signed(case.value.number());
    out.word(crate::names::of_int(case.value.ty()));
    out.number(case.target as u64);
    out.number(case.line as u64);
    out.end();
}

fn put_cases(out: &mut Listing, cases: &[TCase], default: Option<usize>, depth: u32) {
    for case in cases {
        put_case(out, *case, depth);
    }
    match default {
        Some(target) => {
            out.begin(depth, "Default");
            out.number(target as u64);
            out.end();
        }
        None => {}
    }
}

/// A statement, so many steps to the right.
#[cycle(statement)]
fn put_statement(out: &mut Listing, statement: &TStmt, depth: u32) {
    put_node(out, statement, depth);
    match statement {
        TStmt::Block { statements, .. } => put_statements(out, statements, inside(depth)),
        TStmt::Empty { .. }
        | TStmt::Declare { .. }
        | TStmt::Break { .. }
        | TStmt::Continue { .. } => {}
        TStmt::Expr { value, .. } | TStmt::InitScalar { value, .. } => {
            put_expression(out, value, inside(depth));
        }
        TStmt::InitList { items, .. } => put_items(out, items, inside(depth)),
        TStmt::If {
            arms,
            otherwise,
            ..
        } => {
            put_arms(out, arms, inside(depth));
            match otherwise {
                Some(last) => put_statement(out, last, inside(depth)),
                None => {}
            }
        }
        TStmt::Loop {
            begin,
            condition,
            step,
            body,
            ..
        } => {
            put_any(out, begin, inside(depth));
            put_any(out, condition, inside(depth));
            put_any(out, step, inside(depth));
            put_statement(out, body, inside(depth));
        }
        TStmt::Switch {
            value,
            cases,
            default,
            statements,
            ..
        } => {
            put_expression(out, value, inside(depth));
            put_cases(out, cases, *default, inside(depth));
            put_statements(out, statements, inside(depth));
        }
        TStmt::Return { value, .. } => put_any(out, value, inside(depth)),
    }
}

/// Statements one below the other.
#[cycle(statement)]
pub fn put_statements(out: &mut Listing, statements: &[TStmt], depth: u32) {
    for statement in statements {
        put_statement(out, statement, depth);
    }
}

#[cycle(statement)]
fn put_arms(out: &mut Listing, arms: &[TArm], depth: u32) {
    for arm in arms {
        put_arm(out, arm, depth);
    }
}

#[cycle(statement)]
fn put_arm(out: &mut Listing, arm: &TArm, depth: u32) {
    put_head(out, "Arm", arm.line, depth);
    put_expression(out, &arm.condition, inside(depth));
    put_statement(out, &arm.then, inside(depth));
}
