//! Quotients and remainders.
#![tactic(auto, using(std::proofs::lemmas::List::append_assoc))]

ghost use Rattle.std.specs.Prelude.{◌≡◌, ◌++◌, OnOk};
ghost use Rattle.math_helpers.specs.Layouts.{bytes_of};
ghost use Rattle.math_helpers.specs.Routines.{negate_if_code, take_off_code, divide_code, sign_code, magnitudes_code, part_value, division_code, signed_division_code};

use crate::emit::{CARRY, put_bit, put_flag, put_from_w, put_jump, put_label, put_return, put_w};
use crate::layout::{RoutineLayout, Value};
use crate::product::{put_round_end, put_rounds};
use crate::steps::{Step, put_each};
use std::alloc::AllocError;
use sym_code::{BitOperation, FileOperation, Operand, SymBlock};

/// Which of the two numbers that a division gives is wanted.
#[derive(Clone, Copy, PartialEq, Eq)]
pub enum Part {
    Quotient,
    Remainder,
}

impl Part {
    // Where it stands at the end of a division.
    fn value(self) -> Value
        ensures { result ≡ part_value self }
    {
        match self {
            Part::Quotient => Value::Left,
            Part::Remainder => Value::Remainder,
        }
    }
}

// The value is negated where bit 7 of a byte is 1.
fn put_negate_if(
    block: &mut SymBlock,
    layout: RoutineLayout,
    sign: Operand,
    value: Value,
    label: usize,
) -> Result<(), AllocError>
    ensures code { OnOk result (block.new.list.items ≡ block.old.list.items ++ negate_if_code layout sign value label) }
    ensures name { block.new.name ≡ block.old.name }
{
    put_bit(block, BitOperation::Btfss, sign, 7)?;
    put_jump(block, label)?;
    put_each(block, layout, Step::Invert(value))?;
    put_each(block, layout, Step::Increment(value))?;
    put_label(block, label)?;
    Ok(())
}

// Where the remainder is at least the right operand, that is taken off it, and C becomes 1; otherwise C becomes 0. Where C
// is 1 before, a bit has left the remainder's highest byte, and so the right operand can be taken off.
fn put_take_off(block: &mut SymBlock, layout: RoutineLayout) -> Result<(), AllocError>
    ensures code { OnOk result (block.new.list.items ≡ block.old.list.items ++ take_off_code layout) }
    ensures name { block.new.name ≡ block.old.name }
{
    put_flag(block, BitOperation::Btfsc, CARRY)?;
    put_jump(block, 1)?;
    put_each(block, layout, Step::Compare)?;
    put_flag(block, BitOperation::Btfss, CARRY)?;
    put_jump(block, 2)?;
    put_label(block, 1)?;
    put_each(block, layout, Step::Subtract)?;
    put_flag(block, BitOperation::Bsf, CARRY)?;
    put_label(block, 2)?;
    Ok(())
}

// The left operand becomes the quotient, and the remainder that of the division, both operands without sign. In each
// round the highest bit of the left operand moves into the remainder. The bit of the quotient is 1 where the right operand
// is taken off; it stands in C until the next round shifts it into the left operand.
fn put_divide(block: &mut SymBlock, layout: RoutineLayout) -> Result<(), AllocError>
    ensures code { OnOk result (block.new.list.items ≡ block.old.list.items ++ divide_code layout) }
    ensures name { block.new.name ≡ block.old.name }
{
    put_each(block, layout, Step::Clear(Value::Remainder))?;
    put_rounds(block, layout)?;
    put_label(block, 0)?;
    put_each(block, layout, Step::ShiftLeft(Value::Left))?;
    put_each(block, layout, Step::ShiftLeft(Value::Remainder))?;
    put_take_off(block, layout)?;
    put_round_end(block, layout, Value::Spare, 0)?;
    put_each(block, layout, Step::ShiftLeft(Value::Left))?;
    Ok(())
}

// Bit 7 of the sign becomes that of the answer: a quotient is negative where the operands' signs differ, a remainder
// where the dividend is negative.
fn put_sign(block: &mut SymBlock, layout: RoutineLayout, part: Part) -> Result<(), AllocError>
    ensures code { OnOk result (block.new.list.items ≡ block.old.list.items ++ sign_code layout part) }
    ensures name { block.new.name ≡ block.old.name }
{
    let top = layout.width.bytes() - 1;
    put_w(block, FileOperation::Movf, layout.byte(Value::Left, top))?;
    if let Part::Quotient = part {
        put_w(block, FileOperation::Xorwf, layout.byte(Value::Right, top))?;
    }
    put_from_w(block, layout.byte(Value::Spare, 1))?;
    Ok(())
}

// Both operands become their magnitudes.
fn put_magnitudes(block: &mut SymBlock, layout: RoutineLayout) -> Result<(), AllocError>
    ensures code { OnOk result (block.new.list.items ≡ block.old.list.items ++ magnitudes_code layout) }
    ensures name { block.new.name ≡ block.old.name }
{
    let top = layout.width.bytes() - 1;
    put_negate_if(block, layout, layout.byte(Value::Left, top), Value::Left, 3)?;
    put_negate_if(
        block,
        layout,
        layout.byte(Value::Right, top),
        Value::Right,
        4,
    )?;
    Ok(())
}

/// A division of numbers without sign.
pub fn put_division(
    block: &mut SymBlock,
    layout: RoutineLayout,
    part: Part,
) -> Result<(), AllocError>
    ensures code { OnOk result (block.new.list.items ≡ block.old.list.items ++ division_code layout part) }
    ensures name { block.new.name ≡ block.old.name }
{
    put_divide(block, layout)?;
    put_each(block, layout, Step::Answer(part.value()))?;
    put_return(block)?;
    Ok(())
}

/// A division of signed numbers, the quotient rounded toward zero.
pub fn put_signed_division(
    block: &mut SymBlock,
    layout: RoutineLayout,
    part: Part,
) -> Result<(), AllocError>
    ensures code { OnOk result (block.new.list.items ≡ block.old.list.items ++ signed_division_code layout part) }
    ensures name { block.new.name ≡ block.old.name }
{
    put_sign(block, layout, part)?;
    put_magnitudes(block, layout)?;
    put_divide(block, layout)?;
    put_negate_if(block, layout, layout.byte(Value::Spare, 1), part.value(), 5)?;
    put_each(block, layout, Step::Answer(part.value()))?;
    put_return(block)?;
    Ok(())
}
