//! Comparisons, which give two bytes: 1 where they hold, and 0 otherwise (ISO/IEC 9899:1990, 6.3.8 and 6.3.9).

ghost use Rattle.std.specs.Prelude.{◌≡◌, ◌++◌, ◌≤◌, OnOk};
ghost use Rattle.select_wide.specs.Comparisons.{difference_bits_code, differences_code, equality_code, turn_code, signs_code, links_code, order_code};

use crate::operands::{Chain, Operands};
use crate::pieces::{put_choice, put_if_bit, put_literal, put_pair, put_truth};
use crate::sums::put_link;
use core_code::Byte;
use select_code::{Flag, behind, put_file, put_store};
use std::alloc::AllocError;
use sym_code::{BitOperation, FileOperation, Into, Literal, LiteralOperation, SymBlock};

// The bits in which the bytes `k` of the operands differ, together with those of the bytes before.
fn put_difference_bits(
    to: Byte,
    left: Byte,
    right: Byte,
    k: u8,
    out: &mut SymBlock,
) -> Result<(), AllocError>
    ensures put { OnOk result (out.new.list.items ≡ out.old.list.items ++ difference_bits_code to left right k) }
    ensures name { out.new.name ≡ out.old.name }
{
    put_pair(
        FileOperation::Xorwf,
        behind(left, k),
        behind(right, k),
        Into::W,
        out,
    )?;
    if k == 0 {
        put_store(to, out)
    } else {
        put_file(FileOperation::Iorwf, to, Into::File, out)
    }
}

fn put_differences(o: Operands, out: &mut SymBlock) -> Result<(), AllocError>
    ensures put { OnOk result (out.new.list.items ≡ out.old.list.items ++ differences_code o.to o.left o.right o.width) }
    ensures name { out.new.name ≡ out.old.name }
{
    for k in 0..o.width {
        put_difference_bits(o.to, o.left, o.right, k, out)?;
    }
    Ok(())
}

/// Whether the operands are equal, or where `usual` is 1, whether they differ.
pub fn put_equality(usual: u8, o: Operands, out: &mut SymBlock) -> Result<(), AllocError>
    requires { usual ≤ 1 }
    ensures put { OnOk result (out.new.list.items ≡ out.old.list.items ++ equality_code usual o.to o.left o.right o.width) }
    ensures name { out.new.name ≡ out.old.name }
{
    put_differences(o, out)?;
    put_choice(usual, BitOperation::Btfsc, Flag::Zero, 1 - usual, out)?;
    put_truth(o.to, out)
}

// The answer in W is turned round where the byte's highest bit is 1.
fn put_turn(top: Byte, out: &mut SymBlock) -> Result<(), AllocError>
    ensures put { OnOk result (out.new.list.items ≡ out.old.list.items ++ turn_code top) }
    ensures name { out.new.name ≡ out.old.name }
{
    put_if_bit(top, 7, out)?;
    put_literal(LiteralOperation::Xorlw, Literal::Number(1), out)
}

// Among signed numbers, operands of one sign compare as their bytes do, and others the other way round.
fn put_signs(signed: bool, left: Byte, right: Byte, out: &mut SymBlock) -> Result<(), AllocError>
    ensures put { OnOk result (out.new.list.items ≡ out.old.list.items ++ signs_code signed left right) }
    ensures name { out.new.name ≡ out.old.name }
{
    if signed {
        put_turn(left, out)?;
        put_turn(right, out)
    } else {
        Ok(())
    }
}

// The carries of a difference, whose bytes go nowhere.
fn put_links(left: Byte, right: Byte, width: u8, out: &mut SymBlock) -> Result<(), AllocError>
    ensures put { OnOk result (out.new.list.items ≡ out.old.list.items ++ links_code left right width) }
    ensures name { out.new.name ≡ out.old.name }
{
    for k in 0..width {
        put_link(Chain::Difference, left, right, Into::W, k, out)?;
    }
    Ok(())
}

/// Whether the left operand is below the right one, or where `usual` is 1, whether it is not. A difference leaves C at 0
/// exactly where it borrows, which is where the left operand is below the right one as an unsigned number.
pub fn put_order(signed: bool, usual: u8, o: Operands, out: &mut SymBlock) -> Result<(), AllocError>
    requires { usual ≤ 1 }
    ensures put { OnOk result (out.new.list.items ≡ out.old.list.items ++ order_code signed usual o.to o.left o.right o.width) }
    ensures name { out.new.name ≡ out.old.name }
{
    put_links(o.left, o.right, o.width, out)?;
    put_choice(usual, BitOperation::Btfss, Flag::Carry, 1 - usual, out)?;
    let top = o.width.saturating_sub(1);
    put_signs(signed, behind(o.left, top), behind(o.right, top), out)?;
    put_truth(o.to, out)
}
