//! Sums, differences and bit operations, byte by byte from the lowest.

ghost use Rattle.std.specs.Prelude.{◌≡◌, ◌++◌, OnOk};
ghost use Rattle.select_wide.specs.declared.operands.Chain.TheVariants.{Difference};
ghost use Rattle.select_wide.specs.Sums.{chain_operation, unless_carried, further_code, link_code, apart_code, chain_byte_code, chain_code, sum_code, bits_byte_code, bits_at_code, bits_code};

use crate::moves::is_same;
use crate::operands::{Chain, Operands};
use crate::pieces::put_pair;
use core_code::Byte;
use select_code::{Flag, behind, put_copy, put_file, put_flag, put_store};
use std::alloc::AllocError;
use sym_code::{BitOperation, FileOperation, Into, SymBlock};

fn chain_operation(chain: Chain) -> FileOperation
    ensures { result ≡ chain_operation chain }
{
    match chain {
        Chain::Sum => FileOperation::Addwf,
        Chain::Difference => FileOperation::Subwf,
    }
}

// A sum has carried where C is 1, a difference has borrowed where C is 0.
fn unless_carried(chain: Chain) -> BitOperation
    ensures { result ≡ unless_carried chain }
{
    match chain {
        Chain::Sum => BitOperation::Btfsc,
        Chain::Difference => BitOperation::Btfss,
    }
}

// One more byte of a sum or difference. Where it takes a carry and the right byte is FFh, the sum with 100h leaves the
// left byte and C as they are: both instructions behind the test are passed over.
fn put_further(
    chain: Chain,
    left: Byte,
    right: Byte,
    into: Into,
    out: &mut SymBlock,
) -> Result<(), AllocError>
    ensures put { OnOk result (out.new.list.items ≡ out.old.list.items ++ further_code chain left right into) }
    ensures name { out.new.name ≡ out.old.name }
{
    put_file(FileOperation::Movf, right, Into::W, out)?;
    put_flag(unless_carried(chain), Flag::Carry, out)?;
    put_file(FileOperation::Incfsz, right, Into::W, out)?;
    put_file(chain_operation(chain), left, into, out)
}

/// Byte `k` of a sum or difference whose bytes go to W or take the left operand's place.
pub fn put_link(
    chain: Chain,
    left: Byte,
    right: Byte,
    into: Into,
    k: u8,
    out: &mut SymBlock,
) -> Result<(), AllocError>
    ensures put { OnOk result (out.new.list.items ≡ out.old.list.items ++ link_code chain left right into k) }
    ensures name { out.new.name ≡ out.old.name }
{
    if k == 0 {
        put_pair(chain_operation(chain), left, right, into, out)
    } else {
        put_further(chain, behind(left, k), behind(right, k), into, out)
    }
}

// Byte `k` of a sum or difference that takes another place than its left operand.
fn put_apart(
    chain: Chain,
    to: Byte,
    left: Byte,
    right: Byte,
    k: u8,
    out: &mut SymBlock,
) -> Result<(), AllocError>
    ensures put { OnOk result (out.new.list.items ≡ out.old.list.items ++ apart_code chain to left right k) }
    ensures name { out.new.name ≡ out.old.name }
{
    if k == 0 {
        put_pair(chain_operation(chain), left, right, Into::W, out)?;
        put_store(to, out)
    } else {
        put_copy(behind(to, k), behind(left, k), out)?;
        put_further(chain, behind(to, k), behind(right, k), Into::File, out)
    }
}

fn put_chain_byte(
    chain: Chain,
    to: Byte,
    left: Byte,
    right: Byte,
    k: u8,
    out: &mut SymBlock,
) -> Result<(), AllocError>
    ensures put { OnOk result (out.new.list.items ≡ out.old.list.items ++ chain_byte_code chain to left right k) }
    ensures name { out.new.name ≡ out.old.name }
{
    if is_same(to, left) {
        put_link(chain, left, right, Into::File, k, out)
    } else {
        put_apart(chain, to, left, right, k, out)
    }
}

fn put_chain(
    chain: Chain,
    to: Byte,
    left: Byte,
    right: Byte,
    width: u8,
    out: &mut SymBlock,
) -> Result<(), AllocError>
    ensures put { OnOk result (out.new.list.items ≡ out.old.list.items ++ chain_code chain to left right width) }
    ensures name { out.new.name ≡ out.old.name }
{
    for k in 0..width {
        put_chain_byte(chain, to, left, right, k, out)?;
    }
    Ok(())
}

/// A sum, whose operands may change places.
pub fn put_sum(o: Operands, out: &mut SymBlock) -> Result<(), AllocError>
    ensures put { OnOk result (out.new.list.items ≡ out.old.list.items ++ sum_code o.to o.left o.right o.width) }
    ensures name { out.new.name ≡ out.old.name }
{
    if is_same(o.to, o.right) {
        put_chain(Chain::Sum, o.to, o.right, o.left, o.width, out)
    } else {
        put_chain(Chain::Sum, o.to, o.left, o.right, o.width, out)
    }
}

/// A difference, whose value doesn't take the right operand's place.
pub fn put_difference(o: Operands, out: &mut SymBlock) -> Result<(), AllocError>
    ensures put { OnOk result (out.new.list.items ≡ out.old.list.items ++ chain_code Difference o.to o.left o.right o.width) }
    ensures name { out.new.name ≡ out.old.name }
{
    put_chain(Chain::Difference, o.to, o.left, o.right, o.width, out)
}

fn put_bits_byte(
    op: FileOperation,
    to: Byte,
    left: Byte,
    right: Byte,
    out: &mut SymBlock,
) -> Result<(), AllocError>
    ensures put { OnOk result (out.new.list.items ≡ out.old.list.items ++ bits_byte_code op to left right) }
    ensures name { out.new.name ≡ out.old.name }
{
    if is_same(to, left) {
        put_pair(op, left, right, Into::File, out)
    } else {
        put_pair(op, left, right, Into::W, out)?;
        put_store(to, out)
    }
}

fn put_bits_at(
    op: FileOperation,
    to: Byte,
    left: Byte,
    right: Byte,
    k: u8,
    out: &mut SymBlock,
) -> Result<(), AllocError>
    ensures put { OnOk result (out.new.list.items ≡ out.old.list.items ++ bits_at_code op to left right k) }
    ensures name { out.new.name ≡ out.old.name }
{
    put_bits_byte(op, behind(to, k), behind(left, k), behind(right, k), out)
}

/// A bit operation, each byte by itself.
pub fn put_bits(op: FileOperation, o: Operands, out: &mut SymBlock) -> Result<(), AllocError>
    ensures put { OnOk result (out.new.list.items ≡ out.old.list.items ++ bits_code op o.to o.left o.right o.width) }
    ensures name { out.new.name ≡ out.old.name }
{
    for k in 0..o.width {
        put_bits_at(op, o.to, o.left, o.right, k, out)?;
    }
    Ok(())
}
