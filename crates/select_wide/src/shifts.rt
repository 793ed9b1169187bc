//! Shifts by a constant: first whole bytes, then bit by bit what is left (ISO/IEC 9899:1990, 6.3.7).

ghost use Rattle.std.specs.Prelude.{◌≡◌, ◌++◌, ◌<◌, ◌/◌, OnOk};
ghost use Rattle.select_wide.specs.Shifts.{raised_code, bytes_up_code, bytes_down_code, bytes_code, bit_up_code, bit_down_code, bit_shift_code, bit_shifts_code, in_place_code, moved_code, shift_code};

use crate::moves::{is_same, put_clears, put_copies, put_stores};
use crate::operands::{Operands, Way};
use crate::pieces::put_sign;
use core_code::Byte;
use select_code::{Flag, behind, put_copy, put_file, put_flag};
use std::alloc::AllocError;
use sym_code::{BitOperation, FileOperation, Into, SymBlock};

// The lowest bytes take the places of the highest, the highest of them first.
fn put_raised(at: Byte, width: u8, bytes: u8, out: &mut SymBlock) -> Result<(), AllocError>
    requires { bytes < width }
    ensures put { OnOk result (out.new.list.items ≡ out.old.list.items ++ raised_code at width bytes) }
    ensures name { out.new.name ≡ out.old.name }
{
    for k in 0..width - bytes {
        let to = behind(at, width - 1 - k);
        put_copy(to, behind(at, width - 1 - k - bytes), out)?;
    }
    Ok(())
}

// Bytes go up by whole bytes, and zeros come in.
fn put_bytes_up(at: Byte, width: u8, bytes: u8, out: &mut SymBlock) -> Result<(), AllocError>
    requires { bytes < width }
    ensures put { OnOk result (out.new.list.items ≡ out.old.list.items ++ bytes_up_code at width bytes) }
    ensures name { out.new.name ≡ out.old.name }
{
    put_raised(at, width, bytes, out)?;
    put_clears(at, bytes, out)
}

// Bytes go down by whole bytes, the lowest first, and zeros or copies of the sign come in.
fn put_bytes_down(
    signed: bool,
    at: Byte,
    width: u8,
    bytes: u8,
    out: &mut SymBlock,
) -> Result<(), AllocError>
    requires { bytes < width }
    ensures put { OnOk result (out.new.list.items ≡ out.old.list.items ++ bytes_down_code signed at width bytes) }
    ensures name { out.new.name ≡ out.old.name }
{
    let kept = width - bytes;
    put_copies(at, behind(at, bytes), kept, out)?;
    if signed {
        put_sign(behind(at, kept - 1), out)?;
        put_stores(behind(at, kept), bytes, out)
    } else {
        put_clears(behind(at, kept), bytes, out)
    }
}

fn put_bytes(way: Way, at: Byte, width: u8, bytes: u8, out: &mut SymBlock) -> Result<(), AllocError>
    requires { bytes < width }
    ensures put { OnOk result (out.new.list.items ≡ out.old.list.items ++ bytes_code way at width bytes) }
    ensures name { out.new.name ≡ out.old.name }
{
    if bytes == 0 {
        return Ok(());
    }
    match way {
        Way::Left => put_bytes_up(at, width, bytes, out),
        Way::Right => put_bytes_down(false, at, width, bytes, out),
        Way::SignedRight => put_bytes_down(true, at, width, bytes, out),
    }
}

// So many bytes, from the lowest on, take a bit from C and give one to it.
fn put_bit_up(at: Byte, count: u8, out: &mut SymBlock) -> Result<(), AllocError>
    ensures put { OnOk result (out.new.list.items ≡ out.old.list.items ++ bit_up_code at count) }
    ensures name { out.new.name ≡ out.old.name }
{
    for k in 0..count {
        put_file(FileOperation::Rlf, behind(at, k), Into::File, out)?;
    }
    Ok(())
}

// The same from the highest on.
fn put_bit_down(at: Byte, count: u8, out: &mut SymBlock) -> Result<(), AllocError>
    ensures put { OnOk result (out.new.list.items ≡ out.old.list.items ++ bit_down_code at count) }
    ensures name { out.new.name ≡ out.old.name }
{
    for k in 0..count {
        put_file(
            FileOperation::Rrf,
            behind(at, count - 1 - k),
            Into::File,
            out,
        )?;
    }
    Ok(())
}

// One bit further. The bytes that the shift by whole bytes has filled stay as they are.
fn put_bit_shift(
    way: Way,
    at: Byte,
    width: u8,
    bytes: u8,
    out: &mut SymBlock,
) -> Result<(), AllocError>
    requires { bytes < width }
    ensures put { OnOk result (out.new.list.items ≡ out.old.list.items ++ bit_shift_code way at width bytes) }
    ensures name { out.new.name ≡ out.old.name }
{
    let kept = width - bytes;
    match way {
        Way::Left => {
            put_flag(BitOperation::Bcf, Flag::Carry, out)?;
            put_bit_up(behind(at, bytes), kept, out)
        }
        Way::Right => {
            put_flag(BitOperation::Bcf, Flag::Carry, out)?;
            put_bit_down(at, kept, out)
        }
        Way::SignedRight => {
            put_file(FileOperation::Rlf, behind(at, kept - 1), Into::W, out)?;
            put_bit_down(at, kept, out)
        }
    }
}

fn put_bit_shifts(
    way: Way,
    at: Byte,
    width: u8,
    bytes: u8,
    count: u8,
    out: &mut SymBlock,
) -> Result<(), AllocError>
    requires { bytes < width }
    ensures put { OnOk result (out.new.list.items ≡ out.old.list.items ++ bit_shifts_code way at width bytes count) }
    ensures name { out.new.name ≡ out.old.name }
{
    for bit in 0..count {
        put_bit_shift(way, at, width, bytes, out)?;
    }
    Ok(())
}

fn put_in_place(
    way: Way,
    at: Byte,
    width: u8,
    count: u8,
    out: &mut SymBlock,
) -> Result<(), AllocError>
    requires { count / 8 < width }
    ensures put { OnOk result (out.new.list.items ≡ out.old.list.items ++ in_place_code way at width count) }
    ensures name { out.new.name ≡ out.old.name }
{
    put_bytes(way, at, width, count / 8, out)?;
    put_bit_shifts(way, at, width, count / 8, count % 8, out)
}

// The value goes to where the left operand isn't already.
fn put_moved(to: Byte, left: Byte, width: u8, out: &mut SymBlock) -> Result<(), AllocError>
    ensures put { OnOk result (out.new.list.items ≡ out.old.list.items ++ moved_code to left width) }
    ensures name { out.new.name ≡ out.old.name }
{
    if is_same(to, left) {
        Ok(())
    } else {
        put_copies(to, left, width, out)
    }
}

/// A shift by a constant. One by the width or more has no value, and leaves the left operand's.
pub fn put_shift(way: Way, o: Operands, count: u8, out: &mut SymBlock) -> Result<(), AllocError>
    ensures put { OnOk result (out.new.list.items ≡ out.old.list.items ++ shift_code way o.to o.left o.width count) }
    ensures name { out.new.name ≡ out.old.name }
{
    put_moved(o.to, o.left, o.width, out)?;
    if count / 8 < o.width {
        put_in_place(way, o.to, o.width, count, out)
    } else {
        Ok(())
    }
}
