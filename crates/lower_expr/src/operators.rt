//! Operators and conversions whose operands stand at their places.

ghost use Rattle.std.specs.Prelude.{◌≡◌, OnOk, [], ◌∷◌};
ghost use Rattle.c_typed.specs.Views.{expression_of};
ghost use Rattle.core_code.specs.View.{trees_in};
ghost use Rattle.lower_expr.specs.Lowering.{shifts_by_constant};
ghost use Rattle.core_puts.specs.Puts.{Appends, sets};
ghost use Rattle.lower_expr.specs.Rows as row;

use c_ints::{BinOp, IntTy, UnOp};
use c_typed::{LogicalOp, TExpr, Ty};
use core_code::{Byte, Core};
use core_puts::{
    is_wider, number_type, put_convert, put_if, put_many, put_number, put_operator, put_unary,
};
use std::alloc::{AllocError, Global};

#[tactic(auto, using(crate::proofs::Numbers::append_nothing))]
fn put_wider(out: &mut Vec<Core>, from: IntTy, to: IntTy, at: Byte) -> Result<(), AllocError>
    ensures { OnOk result (Appends out.old.items out.new.items (row.wider from to at)) }
{
    if is_wider(from, to) {
        put_convert(out, from, to, at)
    } else {
        Ok(())
    }
}

/// The value at `at` is converted: where the new type has no more bytes, its bytes stay as they are.
#[inline(never)]
#[tactic(auto, using(crate::proofs::Numbers::append_nothing))]
pub(crate) fn put_widened(out: &mut Vec<Core>, from: Ty, to: Ty, at: Byte) -> Result<(), AllocError>
    ensures { OnOk result (Appends out.old.items out.new.items (row.widened from to at)) }
{
    match number_type(from) {
        Some(from) => match number_type(to) {
            Some(to) => put_wider(out, from, to, at),
            None => Ok(()),
        },
        None => Ok(()),
    }
}

// An int of two bytes that is 0 or 1.
fn put_truth(out: &mut Vec<Core>, at: Byte, truth: u8) -> Result<(), AllocError>
    ensures { OnOk result (Appends out.old.items out.new.items (sets at truth 2)) }
{
    put_number(out, at, truth as u64, 2)
}

/// The int at `at` becomes one of two numbers: `yes` where one of so many bytes that begin there isn't 0.
#[inline(never)]
pub(crate) fn put_tested(
    alloc: Global,
    out: &mut Vec<Core>,
    at: Byte,
    size: u16,
    yes: u8,
    no: u8,
) -> Result<(), AllocError>
    ensures { OnOk result (Appends out.old.items out.new.items (row.tested at size yes no ∷ [])) }
{
    let mut holds = Vec::new(alloc);
    put_truth(&mut holds, at, yes)?;
    let mut fails = Vec::new(alloc);
    put_truth(&mut fails, at, no)?;
    put_if(alloc, out, at, size, holds, fails)
}

/// The unsigned type of as many bytes as a value has.
fn type_of_size(size: u16) -> IntTy
    ensures { result ≡ row.type_of_size size }
{
    if size < 2 {
        IntTy::UChar
    } else if size < 4 {
        IntTy::UInt
    } else {
        IntTy::ULong
    }
}

/// A unary operator on the value of so many bytes at `at`, whose type is that of the operation.
#[inline(never)]
#[tactic(auto, using(crate::proofs::Numbers::append_nothing))]
pub(crate) fn put_unary_of(
    out: &mut Vec<Core>,
    op: UnOp,
    ty: IntTy,
    at: Byte,
    size: u16,
) -> Result<(), AllocError>
    ensures { OnOk result (Appends out.old.items out.new.items (row.unary_row op ty at size)) }
{
    match op {
        UnOp::Plus => Ok(()),
        UnOp::Minus | UnOp::Not => put_unary(out, op, ty, at),
        UnOp::Bang => put_unary(out, op, type_of_size(size), at),
    }
}

/// `&&` or `||`, of which the left operand stands at `at`, and `other` is what the right one comes to.
#[inline(never)]
pub(crate) fn put_logical(
    alloc: Global,
    out: &mut Vec<Core>,
    op: LogicalOp,
    at: Byte,
    size: u16,
    other: Vec<Core>,
) -> Result<(), AllocError>
    ensures { OnOk result (Appends out.old.items out.new.items (row.logical_row op at size (trees_in other.items) ∷ [])) }
{
    let mut decided = Vec::new(alloc);
    match op {
        LogicalOp::And => {
            put_truth(&mut decided, at, 0)?;
            put_if(alloc, out, at, size, other, decided)
        }
        LogicalOp::Or => {
            put_truth(&mut decided, at, 1)?;
            put_if(alloc, out, at, size, decided, other)
        }
    }
}

/// Whether an operator is a shift by an integer constant expression.
pub(crate) fn shifts_by_constant(op: BinOp, count: &TExpr) -> bool
    ensures { result ≡ shifts_by_constant op (expression_of count.now) }
{
    match op {
        BinOp::Shl | BinOp::Shr => count.is_constant(),
        _ => false,
    }
}

/// A shift by a constant, as one operation: the count's bytes, and the operator.
#[inline(never)]
pub(crate) fn put_shift(
    alloc: Global,
    out: &mut Vec<Core>,
    op: BinOp,
    ty: IntTy,
    at: Byte,
    right: Byte,
    count: u32,
    size: u16,
) -> Result<(), AllocError>
    ensures { OnOk result (Appends out.old.items out.new.items (row.shift_row op ty at right count size ∷ [])) }
{
    let mut parts = Vec::new(alloc);
    put_number(&mut parts, right, count as u64, size)?;
    put_operator(&mut parts, op, ty, at, right)?;
    put_many(out, parts)
}
