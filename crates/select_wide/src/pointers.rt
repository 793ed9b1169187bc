//! Addresses, and what pointers point to, through FSR and IRP (Microchip data sheet DS39582, indirect addressing).

ghost use Rattle.std.specs.Prelude.{◌≡◌, ◌++◌, OnOk};
ghost use Rattle.select_wide.specs.Pointers.{address_code, pointer_code, advance_code, load_byte_code, load_code, store_byte_code, store_all_code};

use crate::moves::behind_far;
use crate::pieces::{put_if_bit, put_literal, put_register, put_register_store};
use core_code::Byte;
use select_code::{Flag, behind, put_file, put_flag, put_store};
use std::alloc::AllocError;
use sym_code::{BitOperation, FileOperation, Into, Literal, LiteralOperation, Register, SymBlock};

/// Two bytes become the address of a byte.
pub fn put_address(to: Byte, place: Byte, out: &mut SymBlock) -> Result<(), AllocError>
    ensures put { OnOk result (out.new.list.items ≡ out.old.list.items ++ address_code to place) }
    ensures name { out.new.name ≡ out.old.name }
{
    put_literal(LiteralOperation::Movlw, Literal::Low(place), out)?;
    put_store(to, out)?;
    put_literal(LiteralOperation::Movlw, Literal::High(place), out)?;
    put_store(behind(to, 1), out)
}

// FSR becomes the low byte of a pointer, and IRP the lowest bit of its high byte.
fn put_pointer(pointer: Byte, out: &mut SymBlock) -> Result<(), AllocError>
    ensures put { OnOk result (out.new.list.items ≡ out.old.list.items ++ pointer_code pointer) }
    ensures name { out.new.name ≡ out.old.name }
{
    put_file(FileOperation::Movf, pointer, Into::W, out)?;
    put_register_store(Register::Fsr, out)?;
    put_flag(BitOperation::Bcf, Flag::Irp, out)?;
    put_if_bit(behind(pointer, 1), 0, out)?;
    put_flag(BitOperation::Bsf, Flag::Irp, out)
}

// FSR goes on to the next byte. An object lies in one half of data memory, so IRP stays.
fn put_advance(k: u16, out: &mut SymBlock) -> Result<(), AllocError>
    ensures put { OnOk result (out.new.list.items ≡ out.old.list.items ++ advance_code k) }
    ensures name { out.new.name ≡ out.old.name }
{
    if k == 0 {
        Ok(())
    } else {
        put_register(FileOperation::Incf, Register::Fsr, Into::File, out)
    }
}

fn put_load_byte(to: Byte, k: u16, out: &mut SymBlock) -> Result<(), AllocError>
    ensures put { OnOk result (out.new.list.items ≡ out.old.list.items ++ load_byte_code to k) }
    ensures name { out.new.name ≡ out.old.name }
{
    put_advance(k, out)?;
    put_register(FileOperation::Movf, Register::Indf, Into::W, out)?;
    put_store(behind_far(to, k), out)
}

/// Some bytes become those that a pointer points to.
pub fn put_load(to: Byte, pointer: Byte, count: u16, out: &mut SymBlock) -> Result<(), AllocError>
    ensures put { OnOk result (out.new.list.items ≡ out.old.list.items ++ load_code to pointer count) }
    ensures name { out.new.name ≡ out.old.name }
{
    put_pointer(pointer, out)?;
    for k in 0..count {
        put_load_byte(to, k, out)?;
    }
    Ok(())
}

fn put_store_byte(from: Byte, k: u16, out: &mut SymBlock) -> Result<(), AllocError>
    ensures put { OnOk result (out.new.list.items ≡ out.old.list.items ++ store_byte_code from k) }
    ensures name { out.new.name ≡ out.old.name }
{
    put_advance(k, out)?;
    put_file(FileOperation::Movf, behind_far(from, k), Into::W, out)?;
    put_register_store(Register::Indf, out)
}

/// What a pointer points to becomes some bytes.
pub fn put_store_all(
    pointer: Byte,
    from: Byte,
    count: u16,
    out: &mut SymBlock,
) -> Result<(), AllocError>
    ensures put { OnOk result (out.new.list.items ≡ out.old.list.items ++ store_all_code pointer from count) }
    ensures name { out.new.name ≡ out.old.name }
{
    put_pointer(pointer, out)?;
    for k in 0..count {
        put_store_byte(from, k, out)?;
    }
    Ok(())
}
