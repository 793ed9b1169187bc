//! What a routine does with a value byte by byte.
#![tactic(auto, using(std::proofs::lemmas::List::append_assoc))]

ghost use Rattle.std.specs.Prelude.{◌≡◌, ◌++◌, OnOk, ◌<◌};
ghost use Rattle.math_helpers.specs.Layouts.{bytes_of};
ghost use Rattle.math_helpers.specs.Pieces.{right_byte, step_code, each_byte};

use crate::emit::{CARRY, ZERO, put_clear, put_file, put_flag, put_from_w, put_w};
use crate::layout::{RoutineLayout, Value};
use std::alloc::AllocError;
use sym_code::{BitOperation, FileOperation, SymBlock};

/// What is done with each byte of a value in turn, from the lowest one on unless said otherwise. The flag C, or Z for an
/// increment, goes from one byte to the next.
#[derive(Clone, Copy, PartialEq, Eq)]
pub enum Step {
    /// The value becomes 0.
    Clear(Value),
    /// The answer becomes the value.
    Answer(Value),
    /// One bit to the left, C into the lowest bit and the highest one into C.
    ShiftLeft(Value),
    /// The answer one bit to the right, from the highest byte down, C into the highest bit.
    ShiftRight,
    /// The right operand is added to the answer.
    Add,
    /// C becomes 1 where the remainder is at least the right operand, both without sign.
    Compare,
    /// The right operand is taken off the remainder.
    Subtract,
    /// Each bit becomes the other.
    Invert(Value),
    /// One is added.
    Increment(Value),
}

// W becomes byte `k` of the right operand; behind the lowest byte it becomes one more where the flag says so, and the
// next instruction is skipped where that gives 0 with a carry.
fn put_right_byte(
    block: &mut SymBlock,
    layout: RoutineLayout,
    unless: BitOperation,
    k: u8,
) -> Result<(), AllocError>
    ensures code { OnOk result (block.new.list.items ≡ block.old.list.items ++ right_byte layout unless k) }
    ensures name { block.new.name ≡ block.old.name }
{
    let right = layout.byte(Value::Right, k);
    put_w(block, FileOperation::Movf, right)?;
    if k != 0 {
        put_flag(block, unless, CARRY)?;
        put_w(block, FileOperation::Incfsz, right)?;
    }
    Ok(())
}

// The code of a step at byte `k`.
fn put_step(
    block: &mut SymBlock,
    layout: RoutineLayout,
    step: Step,
    k: u8,
) -> Result<(), AllocError>
    requires { k < bytes_of layout.width }
    ensures code { OnOk result (block.new.list.items ≡ block.old.list.items ++ step_code layout step k) }
    ensures name { block.new.name ≡ block.old.name }
{
    match step {
        Step::Clear(value) => put_clear(block, layout.byte(value, k))?,
        Step::Answer(value) => {
            put_w(block, FileOperation::Movf, layout.byte(value, k))?;
            put_from_w(block, layout.byte(Value::Answer, k))?;
        }
        Step::ShiftLeft(value) => put_file(block, FileOperation::Rlf, layout.byte(value, k))?,
        Step::ShiftRight => {
            let mirrored = layout.width.bytes() - 1 - k;
            put_file(
                block,
                FileOperation::Rrf,
                layout.byte(Value::Answer, mirrored),
            )?;
        }
        Step::Add => {
            put_right_byte(block, layout, BitOperation::Btfsc, k)?;
            put_file(block, FileOperation::Addwf, layout.byte(Value::Answer, k))?;
        }
        Step::Compare => {
            put_right_byte(block, layout, BitOperation::Btfss, k)?;
            put_w(
                block,
                FileOperation::Subwf,
                layout.byte(Value::Remainder, k),
            )?;
        }
        Step::Subtract => {
            put_right_byte(block, layout, BitOperation::Btfss, k)?;
            put_file(
                block,
                FileOperation::Subwf,
                layout.byte(Value::Remainder, k),
            )?;
        }
        Step::Invert(value) => put_file(block, FileOperation::Comf, layout.byte(value, k))?,
        Step::Increment(value) => put_increment(block, layout, value, k)?,
    }
    Ok(())
}

// One is added to byte `k`, behind the lowest one only where the byte before it became 0.
fn put_increment(
    block: &mut SymBlock,
    layout: RoutineLayout,
    value: Value,
    k: u8,
) -> Result<(), AllocError>
    ensures code { OnOk result (block.new.list.items ≡ block.old.list.items ++ step_code layout (Step.Increment value) k) }
    ensures name { block.new.name ≡ block.old.name }
{
    if k != 0 {
        put_flag(block, BitOperation::Btfsc, ZERO)?;
    }
    put_file(block, FileOperation::Incf, layout.byte(value, k))?;
    Ok(())
}

/// The code of a step at all bytes.
#[tactic(auto, using(crate::proofs::Rounds::each_more, std::proofs::lemmas::List::append_assoc))]
pub fn put_each(block: &mut SymBlock, layout: RoutineLayout, step: Step) -> Result<(), AllocError>
    ensures code { OnOk result (block.new.list.items ≡ block.old.list.items ++ each_byte layout step (bytes_of layout.width)) }
    ensures name { block.new.name ≡ block.old.name }
{
    for k in 0..layout.width.bytes() {
        put_step(block, layout, step, k)?;
    }
    Ok(())
}
