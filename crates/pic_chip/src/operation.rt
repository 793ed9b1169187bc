//! The results and flags of instructions, on bytes.

ghost use Rattle.std.specs.Prelude.{◌≡◌, ◌<◌, ◌+◌, ◌%◌, ℕ, if◌then◌else◌, false, nat_eq, nat_le};
ghost use Rattle.pic_chip.specs.declared.processor.Flags.TheVariants.{Keep, OnlyZ, OnlyC, Sums};
ghost use Rattle.pic_chip.specs.State.{State};
ghost use Rattle.pic_chip.specs.Act.{Derived, value_in, apply};
ghost use Rattle.pic_chip.specs.Instructions.{sum, difference, is_empty};
ghost use Rattle.pic_chip.specs.Changes.{flagged, keeps_flags};
ghost use Rattle.pic_chip.specs.Operations.{IsOperation, result_of, flags_of, next_of};

use crate::bits::{clear_bit, set_bit};
use crate::processor::Flags;

/// What an instruction makes of a byte, W and the carry.
#[derive(Clone, Copy)]
pub enum Operation {
    Add,
    And,
    Complement,
    Decrement,
    DecrementSkip,
    Increment,
    IncrementSkip,
    Or,
    Move,
    RotateLeft,
    RotateRight,
    Subtract,
    Swap,
    Xor,
    /// Clears the bit of this number.
    Clear(u8),
    /// Sets the bit of this number.
    Set(u8),
}

/// A result with its flags, and whether the next instruction is skipped.
#[derive(Clone, Copy)]
pub struct Outcome {
    pub value: u8,
    pub flags: Flags,
    pub skips: bool,
}

/// The outcome of an operation on a byte.
pub fn computed(operation: Operation, byte: u8, w: u8, carry: u8) -> Outcome
    requires operation { IsOperation operation }
    requires carry { carry < 2 }
    ensures value { (s : State) (v : Derived) → value_in s v ≡ byte → s.w ≡ w → s.c ≡ carry → value_in s (result_of operation v) ≡ result.value }
    ensures flags { (s : State) (v : Derived) (t : State) → value_in s v ≡ byte → s.w ≡ w → apply (flags_of operation v) s t ≡ flagged result.flags result.value t }
    ensures keeps { (v : Derived) → is_empty (flags_of operation v) ≡ keeps_flags result.flags }
    ensures next { (s : State) (v : Derived) → value_in s v ≡ byte → value_in s (next_of s.pc operation v) ≡ (s.pc + (if result.skips then 2 else 1)) % 8192 }
{
    match operation {
        Operation::Add => add(byte, w),
        Operation::And => zero_flag(w & byte),
        Operation::Complement => zero_flag(255 - byte),
        Operation::Decrement => zero_flag(decremented(byte)),
        Operation::DecrementSkip => skipping_zero(decremented(byte)),
        Operation::Increment => zero_flag(incremented(byte)),
        Operation::IncrementSkip => skipping_zero(incremented(byte)),
        Operation::Or => zero_flag(w | byte),
        Operation::Move => zero_flag(byte),
        Operation::RotateLeft => carried(
            ((2 * byte as u16 + carry as u16) % 256) as u8,
            byte / 128 == 1,
        ),
        Operation::RotateRight => carried(128 * carry + byte / 2, byte % 2 == 1),
        Operation::Subtract => subtract(byte, w),
        Operation::Swap => unflagged(byte % 16 * 16 + byte / 16),
        Operation::Xor => zero_flag(w ^ byte),
        Operation::Clear(b) => unflagged(clear_bit(b, byte)),
        Operation::Set(b) => unflagged(set_bit(b, byte)),
    }
}

fn incremented(byte: u8) -> u8
    ensures { result ≡ (byte + 1) % 256 }
{
    ((byte as u16 + 1) % 256) as u8
}

fn decremented(byte: u8) -> u8
    ensures { result ≡ (byte + 255) % 256 }
{
    ((byte as u16 + 255) % 256) as u8
}

fn zero_flag(value: u8) -> Outcome
    ensures { result ≡ record { value = value; flags = OnlyZ; skips = false } }
{
    Outcome {
        value,
        flags: Flags::OnlyZ,
        skips: false,
    }
}

fn unflagged(value: u8) -> Outcome
    ensures { result ≡ record { value = value; flags = Keep; skips = false } }
{
    Outcome {
        value,
        flags: Flags::Keep,
        skips: false,
    }
}

fn skipping_zero(value: u8) -> Outcome
    ensures { result ≡ record { value = value; flags = Keep; skips = nat_eq value 0 } }
{
    Outcome {
        value,
        flags: Flags::Keep,
        skips: value == 0,
    }
}

fn carried(value: u8, c: bool) -> Outcome
    ensures { result ≡ record { value = value; flags = OnlyC c; skips = false } }
{
    Outcome {
        value,
        flags: Flags::OnlyC(c),
        skips: false,
    }
}

fn add(byte: u8, w: u8) -> Outcome
    ensures { result ≡ record { value = sum w byte; flags = Sums (nat_le 256 (byte + w)) (nat_le 16 (byte % 16 + w % 16)); skips = false } }
{
    let s = byte as u16 + w as u16;
    Outcome {
        value: (s % 256) as u8,
        flags: Flags::Sums {
            c: s >= 256,
            dc: byte % 16 + w % 16 >= 16,
        },
        skips: false,
    }
}

fn subtract(byte: u8, w: u8) -> Outcome
    ensures { result ≡ record { value = difference w byte; flags = Sums (nat_le w byte) (nat_le (w % 16) (byte % 16)); skips = false } }
{
    Outcome {
        value: ((byte as u16 + 256 - w as u16) % 256) as u8,
        flags: Flags::Sums {
            c: w <= byte,
            dc: w % 16 <= byte % 16,
        },
        skips: false,
    }
}
