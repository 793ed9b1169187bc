//! Shifts by a variable.
#![tactic(auto, using(std::proofs::lemmas::List::append_assoc))]

ghost use Rattle.std.specs.Prelude.{◌≡◌, ◌++◌, OnOk};
ghost use Rattle.math_helpers.specs.Routines.{one_bit_code, shift_code};

use crate::emit::{CARRY, ZERO, put_file, put_flag, put_label, put_return, put_w};
use crate::layout::{RoutineLayout, Value};
use crate::product::put_round_end;
use crate::steps::{Step, put_each};
use std::alloc::AllocError;
use sym_code::{BitOperation, FileOperation, SymBlock};

/// Which way bits go, and what comes in after them.
#[derive(Clone, Copy, PartialEq, Eq)]
pub enum Direction {
    /// Zeros come in.
    Left,
    /// Zeros come in.
    Right,
    /// Copies of the highest bit come in.
    SignedRight,
}

// The answer goes by one bit.
fn put_one_bit(
    block: &mut SymBlock,
    layout: RoutineLayout,
    direction: Direction,
) -> Result<(), AllocError>
    ensures code { OnOk result (block.new.list.items ≡ block.old.list.items ++ one_bit_code layout direction) }
    ensures name { block.new.name ≡ block.old.name }
{
    match direction {
        Direction::Left => {
            put_flag(block, BitOperation::Bcf, CARRY)?;
            put_each(block, layout, Step::ShiftLeft(Value::Answer))
        }
        Direction::Right => {
            put_flag(block, BitOperation::Bcf, CARRY)?;
            put_each(block, layout, Step::ShiftRight)
        }
        Direction::SignedRight => {
            let top = layout.width.bytes() - 1;
            put_w(block, FileOperation::Rlf, layout.byte(Value::Answer, top))?;
            put_each(block, layout, Step::ShiftRight)
        }
    }
}

/// The left operand goes by as many bits as the lowest byte of the right operand says.
pub fn put_shift(
    block: &mut SymBlock,
    layout: RoutineLayout,
    direction: Direction,
) -> Result<(), AllocError>
    ensures code { OnOk result (block.new.list.items ≡ block.old.list.items ++ shift_code layout direction) }
    ensures name { block.new.name ≡ block.old.name }
{
    put_each(block, layout, Step::Answer(Value::Left))?;
    put_file(block, FileOperation::Movf, layout.byte(Value::Right, 0))?;
    put_flag(block, BitOperation::Btfsc, ZERO)?;
    put_return(block)?;
    put_label(block, 0)?;
    put_one_bit(block, layout, direction)?;
    put_round_end(block, layout, Value::Right, 0)?;
    put_return(block)?;
    Ok(())
}
