//! What operations make of numbers that are known, and which way skips go by them.

ghost use Rattle.std.specs.Prelude.{ℕ, ◌≡◌, ◌+◌, ◌%◌, ◌<◌, nat_eq, bit_and, bit_or, bit_xor};
ghost use Rattle.pic_chip.specs.Instructions as instructions;
ghost use Rattle.pic_world.specs.Bits as bits;
ghost use Rattle.lean_code.specs.Changes as changes;
ghost use Rattle.lean_code.specs.Checked as listed;
ghost use Rattle.lean_code.specs.Computed as computed;

use crate::behind::is_number;
use sym_code::{BitOperation, FileOperation, LiteralOperation};

// ---- of two numbers

fn sum(w: u8, byte: u8) -> u8
    ensures { result ≡ instructions.sum w byte }
{
    ((byte as u16 + w as u16) % 256) as u8
}

fn difference(w: u8, byte: u8) -> u8
    ensures { result ≡ instructions.difference w byte }
{
    ((byte as u16 + 256 - w as u16) % 256) as u8
}

fn complement(byte: u8) -> u8
    ensures { result ≡ instructions.complement byte }
{
    255 - byte
}

fn increment(byte: u8) -> u8
    ensures { result ≡ instructions.increment byte }
{
    ((byte as u16 + 1) % 256) as u8
}

fn decrement(byte: u8) -> u8
    ensures { result ≡ instructions.decrement byte }
{
    ((byte as u16 + 255) % 256) as u8
}

// ---- of what is known

fn added(w: Option<u8>, byte: Option<u8>) -> Option<u8>
    ensures { result ≡ computed.both instructions.sum w byte }
{
    Some(sum(w?, byte?))
}

fn subtracted(w: Option<u8>, byte: Option<u8>) -> Option<u8>
    ensures { result ≡ computed.both instructions.difference w byte }
{
    Some(difference(w?, byte?))
}

fn both_and(w: Option<u8>, byte: Option<u8>) -> Option<u8>
    ensures { result ≡ computed.both bit_and w byte }
{
    Some(w? & byte?)
}

fn both_or(w: Option<u8>, byte: Option<u8>) -> Option<u8>
    ensures { result ≡ computed.both bit_or w byte }
{
    Some(w? | byte?)
}

fn both_xor(w: Option<u8>, byte: Option<u8>) -> Option<u8>
    ensures { result ≡ computed.both bit_xor w byte }
{
    Some(w? ^ byte?)
}

fn is_none_left(number: Option<u8>) -> bool
    ensures { result ≡ computed.is_none_left number }
{
    match number {
        None => false,
        Some(number) => number == 0,
    }
}

fn masked(w: Option<u8>, byte: Option<u8>) -> Option<u8>
    ensures { result ≡ computed.masked w byte }
{
    if is_none_left(w) || is_none_left(byte) {
        Some(0)
    } else {
        both_and(w, byte)
    }
}

/// The result of an operation, of what is known of W and of the byte.
pub fn computed(op: FileOperation, w: Option<u8>, byte: Option<u8>) -> Option<u8>
    ensures { result ≡ computed.computed op w byte }
{
    match op {
        FileOperation::Addwf => added(w, byte),
        FileOperation::Andwf => masked(w, byte),
        FileOperation::Comf => Some(complement(byte?)),
        FileOperation::Decf => Some(decrement(byte?)),
        FileOperation::Decfsz => Some(decrement(byte?)),
        FileOperation::Incf => Some(increment(byte?)),
        FileOperation::Incfsz => Some(increment(byte?)),
        FileOperation::Iorwf => both_or(w, byte),
        FileOperation::Movf => byte,
        FileOperation::Subwf => subtracted(w, byte),
        FileOperation::Xorwf => both_xor(w, byte),
        FileOperation::Rlf => None,
        FileOperation::Rrf => None,
        FileOperation::Swapf => None,
    }
}

/// The operation on W and a byte that does what one on W and a number does.
pub fn file_for(op: LiteralOperation) -> Option<FileOperation>
    ensures { result ≡ computed.file_for op }
{
    match op {
        LiteralOperation::Addlw => Some(FileOperation::Addwf),
        LiteralOperation::Andlw => Some(FileOperation::Andwf),
        LiteralOperation::Iorlw => Some(FileOperation::Iorwf),
        LiteralOperation::Sublw => Some(FileOperation::Subwf),
        LiteralOperation::Xorlw => Some(FileOperation::Xorwf),
        LiteralOperation::Movlw => None,
        LiteralOperation::Retlw => None,
    }
}

/// 0 leaves W as it is.
pub fn leaves_w(op: FileOperation, byte: Option<u8>) -> bool
    ensures { result ≡ changes.leaves_w op byte }
{
    match op {
        FileOperation::Iorwf => is_number(byte, 0),
        FileOperation::Xorwf => is_number(byte, 0),
        _ => false,
    }
}

/// Both are known, and the same.
pub fn same_known(one: Option<u8>, other: Option<u8>) -> bool
    ensures { result ≡ changes.same_known one other }
{
    match one {
        None => false,
        Some(number) => is_number(other, number),
    }
}

// ---- ways

/// Whether an operation skips, as far as its byte is known.
pub fn way_of(op: FileOperation, byte: Option<u8>) -> Option<bool>
    ensures { result ≡ computed.way_of op byte }
{
    match op {
        FileOperation::Decfsz => Some(decrement(byte?) == 0),
        FileOperation::Incfsz => Some(increment(byte?) == 0),
        _ => Some(false),
    }
}

// Whether a bit has this value.
fn is_bit(byte: u8, bit: u8, value: u8) -> bool
    requires { bit < 8 }
    ensures { result ≡ nat_eq (bits.bit byte bit) value }
{
    byte >> bit & 1 == value
}

// Whether a test skips that does so where the bit has this value.
fn way_of_test(value: u8, byte: Option<u8>, bit: u8) -> Option<bool>
    ensures { result ≡ computed.way_of_test value byte bit }
{
    if bit < 8 {
        Some(is_bit(byte?, bit, value))
    } else {
        None
    }
}

/// Whether a test of a bit skips, as far as its byte is known.
pub fn way_of_bit(op: BitOperation, byte: Option<u8>, bit: u8) -> Option<bool>
    ensures { result ≡ computed.way_of_bit op byte bit }
{
    match op {
        BitOperation::Btfsc => way_of_test(0, byte, bit),
        BitOperation::Btfss => way_of_test(1, byte, bit),
        BitOperation::Bcf => Some(false),
        BitOperation::Bsf => Some(false),
    }
}

/// It is known not to skip.
pub fn runs_on(way: Option<bool>) -> bool
    ensures { result ≡ listed.runs_on way }
{
    match way {
        None => false,
        Some(skips) => !skips,
    }
}
