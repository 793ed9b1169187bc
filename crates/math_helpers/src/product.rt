//! Products.
#![tactic(auto, using(std::proofs::lemmas::List::append_assoc))]

ghost use Rattle.std.specs.Prelude.{◌≡◌, ◌++◌, OnOk};
ghost use Rattle.math_helpers.specs.Routines.{rounds_code, round_end_code, product_code};

use crate::emit::{
    CARRY, put_file, put_flag, put_from_w, put_jump, put_label, put_number, put_return,
};
use crate::layout::{RoutineLayout, Value};
use crate::steps::{Step, put_each};
use std::alloc::AllocError;
use sym_code::{BitOperation, FileOperation, SymBlock};

/// The counter becomes the number of bits of an operand.
pub fn put_rounds(block: &mut SymBlock, layout: RoutineLayout) -> Result<(), AllocError>
    ensures code { OnOk result (block.new.list.items ≡ block.old.list.items ++ rounds_code layout) }
    ensures name { block.new.name ≡ block.old.name }
{
    put_number(block, layout.width.bits())?;
    put_from_w(block, layout.byte(Value::Spare, 0))?;
    Ok(())
}

/// One round less is left, and where another one is left, it begins at the label.
pub fn put_round_end(
    block: &mut SymBlock,
    layout: RoutineLayout,
    counter: Value,
    label: usize,
) -> Result<(), AllocError>
    ensures code { OnOk result (block.new.list.items ≡ block.old.list.items ++ round_end_code layout counter label) }
    ensures name { block.new.name ≡ block.old.name }
{
    put_file(block, FileOperation::Decfsz, layout.byte(counter, 0))?;
    put_jump(block, label)?;
    Ok(())
}

/// For each bit of the left operand, from the highest one: the answer is doubled, and the right operand added to it where
/// the bit is 1.
pub fn put_product(block: &mut SymBlock, layout: RoutineLayout) -> Result<(), AllocError>
    ensures code { OnOk result (block.new.list.items ≡ block.old.list.items ++ product_code layout) }
    ensures name { block.new.name ≡ block.old.name }
{
    put_each(block, layout, Step::Clear(Value::Answer))?;
    put_rounds(block, layout)?;
    put_label(block, 0)?;
    put_flag(block, BitOperation::Bcf, CARRY)?;
    put_each(block, layout, Step::ShiftLeft(Value::Answer))?;
    put_each(block, layout, Step::ShiftLeft(Value::Left))?;
    put_flag(block, BitOperation::Btfss, CARRY)?;
    put_jump(block, 1)?;
    put_each(block, layout, Step::Add)?;
    put_label(block, 1)?;
    put_round_end(block, layout, Value::Spare, 0)?;
    put_return(block)?;
    Ok(())
}
