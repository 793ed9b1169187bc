//! Offsets in frames and objects, the bytes of numbers, and the types that operations have.

ghost use Rattle.std.specs.Prelude.{◌≡◌};
ghost use Rattle.core_code.specs.declared.code.Byte.TheVariants.{Frame};
ghost use Rattle.core_puts.specs.Bytes as stated;

use c_ints::{IntTy, size};
use c_typed::Ty;
use core_code::Byte;

/// The offset that is so many bytes after another one, and 65,535 where there is none.
#[tactic(auto, using(crate::proofs::Numbers::beyond_is))]
pub fn beyond(base: u16, bytes: u64) -> u16
    ensures { result ≡ stated.beyond base bytes }
{
    let left = 0xffff - base;
    if bytes < left as u64 {
        base + bytes as u16
    } else {
        0xffff
    }
}

#[tactic(auto, using(crate::proofs::Numbers::little_beyond_is))]
fn result_behind(k: u8, bytes: u64) -> u8
    ensures { result ≡ stated.little_beyond k bytes }
{
    let left = 0xff - k;
    if bytes < left as u64 {
        k + bytes as u8
    } else {
        0xff
    }
}

/// The byte that is so many bytes after another one.
pub fn behind(byte: Byte, bytes: u64) -> Byte
    ensures { result ≡ stated.behind byte bytes }
{
    match byte {
        Byte::Static { object, offset } => Byte::Static {
            object,
            offset: beyond(offset, bytes),
        },
        Byte::Frame { copy, offset } => Byte::Frame {
            copy,
            offset: beyond(offset, bytes),
        },
        Byte::Result { root, k } => Byte::Result {
            root,
            k: result_behind(k, bytes),
        },
        Byte::Device { address } => Byte::Device {
            address: result_behind(address, bytes),
        },
    }
}

/// The byte of this offset of the frame of a function copy.
pub fn frame_byte(copy: u16, offset: u16) -> Byte
    ensures { result ≡ Frame copy offset }
{
    Byte::Frame { copy, offset }
}

/// A byte of a number, 0 for the lowest one, of which four count.
#[tactic(auto, using(crate::proofs::Numbers::byte_at_is))]
pub fn byte_at(number: u64, place: u16) -> u8
    ensures { result ≡ stated.byte_at number place }
{
    match place {
        0 => (number % 0x100) as u8,
        1 => (number / 0x100 % 0x100) as u8,
        2 => (number / 0x1_0000 % 0x100) as u8,
        3 => (number / 0x100_0000 % 0x100) as u8,
        _ => 0,
    }
}

/// The integer type that a value's bytes are those of, if it has bytes: a pointer is an unsigned int.
pub fn number_type(ty: Ty) -> Option<IntTy>
    ensures { result ≡ stated.number_type ty }
{
    match ty {
        Ty::Int(ty) => Some(ty),
        Ty::Pointer(_) => Some(IntTy::UInt),
        Ty::Void | Ty::Array { .. } | Ty::Struct(_) => None,
    }
}

/// The type of an operation on values of the type: that of an integer, and unsigned int for a pointer.
pub fn operation_type(ty: Ty) -> IntTy
    ensures { result ≡ stated.operation_type ty }
{
    match ty {
        Ty::Int(ty) => ty,
        Ty::Void | Ty::Pointer(_) | Ty::Array { .. } | Ty::Struct(_) => IntTy::UInt,
    }
}

/// Whether values of the second type have more bytes.
pub fn is_wider(from: IntTy, to: IntTy) -> bool
    ensures { result ≡ stated.is_wider from to }
{
    size(from) < size(to)
}
