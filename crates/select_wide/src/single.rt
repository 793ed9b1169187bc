//! Operators on one value, and conversions to wider types (ISO/IEC 9899:1990, 6.2.1 and 6.3.3.3).

ghost use Rattle.std.specs.Prelude.{◌≡◌, ◌++◌, OnOk};
ghost use Rattle.select_wide.specs.Single.{is_signed, complement_code, increment_byte_code, increment_code, bang_code, unary_code, widening_code};

use crate::moves::{put_clears, put_stores};
use crate::pieces::{put_choice, put_nonzero, put_sign, put_truth};
use c_ints::{IntTy, UnOp, size};
use core_code::Byte;
use select_code::{Flag, behind, put_file, put_flag, put_test};
use std::alloc::AllocError;
use sym_code::{BitOperation, FileOperation, Into, SymBlock};

/// Whether the type has negative numbers. Plain char has none.
pub fn is_signed(ty: IntTy) -> bool
    ensures { result ≡ is_signed ty }
{
    match ty {
        IntTy::SChar | IntTy::Short | IntTy::Int | IntTy::Long => true,
        IntTy::Char | IntTy::UChar | IntTy::UShort | IntTy::UInt | IntTy::ULong => false,
    }
}

fn put_complement(at: Byte, width: u8, out: &mut SymBlock) -> Result<(), AllocError>
    ensures put { OnOk result (out.new.list.items ≡ out.old.list.items ++ complement_code at width) }
    ensures name { out.new.name ≡ out.old.name }
{
    for k in 0..width {
        put_file(FileOperation::Comf, behind(at, k), Into::File, out)?;
    }
    Ok(())
}

// A byte counts up by one where the bytes before have all come to 0: Z stays 0 once a byte has not.
fn put_increment_byte(at: Byte, k: u8, out: &mut SymBlock) -> Result<(), AllocError>
    ensures put { OnOk result (out.new.list.items ≡ out.old.list.items ++ increment_byte_code at k) }
    ensures name { out.new.name ≡ out.old.name }
{
    if k > 0 {
        put_flag(BitOperation::Btfsc, Flag::Zero, out)?;
    }
    put_file(FileOperation::Incf, behind(at, k), Into::File, out)
}

fn put_increment(at: Byte, width: u8, out: &mut SymBlock) -> Result<(), AllocError>
    ensures put { OnOk result (out.new.list.items ≡ out.old.list.items ++ increment_code at width) }
    ensures name { out.new.name ≡ out.old.name }
{
    for k in 0..width {
        put_increment_byte(at, k, out)?;
    }
    Ok(())
}

// Two bytes become 1 where all bytes are 0, and 0 otherwise. The choice is by C, as Z isn't needed behind the test.
fn put_bang(at: Byte, width: u8, out: &mut SymBlock) -> Result<(), AllocError>
    ensures put { OnOk result (out.new.list.items ≡ out.old.list.items ++ bang_code at width) }
    ensures name { out.new.name ≡ out.old.name }
{
    put_test(at, width, out)?;
    put_nonzero(out)?;
    put_choice(0, BitOperation::Btfss, Flag::Carry, 1, out)?;
    put_truth(at, out)
}

/// An operator on one value.
pub fn put_unary(op: UnOp, ty: IntTy, at: Byte, out: &mut SymBlock) -> Result<(), AllocError>
    ensures put { OnOk result (out.new.list.items ≡ out.old.list.items ++ unary_code op ty at) }
    ensures name { out.new.name ≡ out.old.name }
{
    match op {
        UnOp::Plus => Ok(()),
        UnOp::Not => put_complement(at, size(ty), out),
        UnOp::Minus => {
            put_complement(at, size(ty), out)?;
            put_increment(at, size(ty), out)
        }
        UnOp::Bang => put_bang(at, size(ty), out),
    }
}

/// The bytes that a wider type has more become 0, or copies of the sign.
pub fn put_widening(from: IntTy, to: IntTy, at: Byte, out: &mut SymBlock) -> Result<(), AllocError>
    ensures put { OnOk result (out.new.list.items ≡ out.old.list.items ++ widening_code from to at) }
    ensures name { out.new.name ≡ out.old.name }
{
    let narrow = size(from);
    let more = size(to).saturating_sub(narrow);
    if is_signed(from) {
        put_sign(behind(at, narrow - 1), out)?;
        put_stores(behind(at, narrow), more, out)
    } else {
        put_clears(behind(at, narrow), more, out)
    }
}
