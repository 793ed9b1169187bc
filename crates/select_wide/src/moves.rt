//! Names of bytes, and several bytes that become others, W, or 0.

ghost use Rattle.std.specs.Prelude.{◌≡◌, ◌++◌, OnOk, min};
ghost use Rattle.core_code.specs.Bytes.{same_byte};
ghost use Rattle.pic_world.specs.Roots.{same_root};
ghost use Rattle.select_code.specs.Pieces.{byte_behind};
ghost use Rattle.select_wide.specs.Moves.{copies_code, stores_code, clears_code};

use core_code::Byte;
use pic_world::Root;
use select_code::{behind, put_copy, put_set, put_store};
use std::alloc::AllocError;
use sym_code::SymBlock;

/// Whether two roots are one.
pub fn is_same_root(root: Root, other: Root) -> bool
    ensures { result ≡ same_root root other }
{
    match root {
        Root::Main => match other {
            Root::Main => true,
            Root::Isr => false,
        },
        Root::Isr => match other {
            Root::Main => false,
            Root::Isr => true,
        },
    }
}

/// Whether two names are those of one byte.
pub fn is_same(byte: Byte, other: Byte) -> bool
    ensures { result ≡ same_byte byte other }
{
    match byte {
        Byte::Static { object, offset } => match other {
            Byte::Static {
                object: other,
                offset: place,
            } => object == other && offset == place,
            _ => false,
        },
        Byte::Frame { copy, offset } => match other {
            Byte::Frame {
                copy: other,
                offset: place,
            } => copy == other && offset == place,
            _ => false,
        },
        Byte::Result { root, k } => match other {
            Byte::Result { root: other, k: n } => is_same_root(root, other) && k == n,
            _ => false,
        },
        Byte::Device { address } => match other {
            Byte::Device { address: other } => address == other,
            _ => false,
        },
    }
}

/// The byte so many offsets after another one, for counts of two bytes. Offsets end at their type's largest number.
pub fn behind_far(byte: Byte, count: u16) -> Byte
    ensures { result ≡ byte_behind byte count }
{
    match byte {
        Byte::Static { object, offset } => Byte::Static {
            object,
            offset: offset.saturating_add(count),
        },
        Byte::Frame { copy, offset } => Byte::Frame {
            copy,
            offset: offset.saturating_add(count),
        },
        Byte::Result { root, k } => Byte::Result {
            root,
            k: cap(u16::from(k).saturating_add(count)),
        },
        Byte::Device { address } => Byte::Device {
            address: cap(u16::from(address).saturating_add(count)),
        },
    }
}

// A number of one byte, FFh for larger ones.
fn cap(n: u16) -> u8
    ensures { result ≡ min n 255 }
{
    if n < 255 { n as u8 } else { 255 }
}

/// Some bytes become others, from the lowest on.
pub fn put_copies(to: Byte, from: Byte, count: u8, out: &mut SymBlock) -> Result<(), AllocError>
    ensures put { OnOk result (out.new.list.items ≡ out.old.list.items ++ copies_code to from count) }
    ensures name { out.new.name ≡ out.old.name }
{
    for k in 0..count {
        put_copy(behind(to, k), behind(from, k), out)?;
    }
    Ok(())
}

/// Some bytes become W.
pub fn put_stores(to: Byte, count: u8, out: &mut SymBlock) -> Result<(), AllocError>
    ensures put { OnOk result (out.new.list.items ≡ out.old.list.items ++ stores_code to count) }
    ensures name { out.new.name ≡ out.old.name }
{
    for k in 0..count {
        put_store(behind(to, k), out)?;
    }
    Ok(())
}

/// Some bytes become 0.
pub fn put_clears(to: Byte, count: u8, out: &mut SymBlock) -> Result<(), AllocError>
    ensures put { OnOk result (out.new.list.items ≡ out.old.list.items ++ clears_code to count) }
    ensures name { out.new.name ≡ out.old.name }
{
    for k in 0..count {
        put_set(behind(to, k), 0, out)?;
    }
    Ok(())
}
