//! Instructions by what they are for. Each call appends them and changes nothing else.

ghost use Rattle.std.specs.Prelude.{◌≡◌, ◌++◌, ◌<◌, ◌%◌, ◌^◌, length, OnOk};
ghost use Rattle.select_code.specs.Pieces.{byte_behind, clear_code, copy_code, file_code, flag_bit, flag_code, number_code, ors_code, set_code, store_code, test_code, is_clearable, label_code, goto_code, jump_code, unless_code, bit_code, bit_read_code, bit_write_code, first_label, second_label};
ghost use Rattle.core_code.specs.declared.code.Byte.TheVariants.{Device};

use core_code::Byte;
use std::alloc::AllocError;
use sym_code::{
    BitOperation, FileOperation, Into, Label, Literal, LiteralOperation, Operand, PlainOperation,
    Register, Sym, SymBlock, Target,
};

/// A bit of STATUS (Microchip data sheet DS39582, STATUS register). `Irp` is the ninth bit of the address that FSR names.
#[derive(Clone, Copy, PartialEq, Eq)]
pub enum Flag {
    Carry,
    Zero,
    Irp,
}

// The number of the flag's bit.
fn bit_of_flag(flag: Flag) -> u8
    ensures value { result ≡ flag_bit flag }
    ensures small { result < 8 }
{
    match flag {
        Flag::Carry => 0,
        Flag::Zero => 2,
        Flag::Irp => 7,
    }
}

/// The byte so many offsets after another one. Offsets end at their type's largest number.
pub fn behind(byte: Byte, count: u8) -> Byte
    ensures { result ≡ byte_behind byte count }
{
    match byte {
        Byte::Static { object, offset } => Byte::Static {
            object,
            offset: offset.saturating_add(u16::from(count)),
        },
        Byte::Frame { copy, offset } => Byte::Frame {
            copy,
            offset: offset.saturating_add(u16::from(count)),
        },
        Byte::Result { root, k } => Byte::Result {
            root,
            k: k.saturating_add(count),
        },
        Byte::Device { address } => Byte::Device {
            address: address.saturating_add(count),
        },
    }
}

/// An operation of the instruction table on a byte.
pub fn put_file(
    op: FileOperation,
    byte: Byte,
    into: Into,
    out: &mut SymBlock,
) -> Result<(), AllocError>
    ensures put { OnOk result (out.new.list.items ≡ out.old.list.items ++ file_code op byte into) }
    ensures name { out.new.name ≡ out.old.name }
{
    out.put(Sym::File {
        op,
        file: Operand::Byte(byte),
        into,
    })
}

/// The byte becomes W. It is written once and not read.
pub fn put_store(to: Byte, out: &mut SymBlock) -> Result<(), AllocError>
    ensures put { OnOk result (out.new.list.items ≡ out.old.list.items ++ store_code to) }
    ensures name { out.new.name ≡ out.old.name }
{
    out.put(Sym::Movwf(Operand::Byte(to)))
}

/// The byte becomes 0. Only for bytes of frames and results.
pub fn put_clear(to: Byte, out: &mut SymBlock) -> Result<(), AllocError>
    ensures put { OnOk result (out.new.list.items ≡ out.old.list.items ++ clear_code to) }
    ensures name { out.new.name ≡ out.old.name }
{
    out.put(Sym::Clrf(Operand::Byte(to)))
}

/// W becomes a number.
pub fn put_number(value: u8, out: &mut SymBlock) -> Result<(), AllocError>
    ensures put { OnOk result (out.new.list.items ≡ out.old.list.items ++ number_code value) }
    ensures name { out.new.name ≡ out.old.name }
{
    out.put(Sym::Literal {
        op: LiteralOperation::Movlw,
        value: Literal::Number(value),
    })
}

/// An operation of the instruction table on a bit of STATUS.
pub fn put_flag(op: BitOperation, flag: Flag, out: &mut SymBlock) -> Result<(), AllocError>
    ensures put { OnOk result (out.new.list.items ≡ out.old.list.items ++ flag_code op flag) }
    ensures name { out.new.name ≡ out.old.name }
{
    out.put(Sym::Bit {
        op,
        file: Operand::Register(Register::Status),
        bit: bit_of_flag(flag),
    })
}

// Whether a byte is one that may be cleared in one instruction: no access of it is an event.
fn may_clear(byte: Byte) -> bool
    ensures { result ≡ is_clearable byte }
{
    match byte {
        Byte::Frame { .. } | Byte::Result { .. } => true,
        Byte::Static { .. } | Byte::Device { .. } => false,
    }
}

/// The byte becomes a number.
pub fn put_set(to: Byte, value: u8, out: &mut SymBlock) -> Result<(), AllocError>
    ensures put { OnOk result (out.new.list.items ≡ out.old.list.items ++ set_code to value) }
    ensures name { out.new.name ≡ out.old.name }
{
    if value == 0 && may_clear(to) {
        put_clear(to, out)
    } else {
        put_number(value, out)?;
        put_store(to, out)
    }
}

/// The byte becomes another one, which is read once.
pub fn put_copy(to: Byte, from: Byte, out: &mut SymBlock) -> Result<(), AllocError>
    ensures put { OnOk result (out.new.list.items ≡ out.old.list.items ++ copy_code to from) }
    ensures name { out.new.name ≡ out.old.name }
{
    put_file(FileOperation::Movf, from, Into::W, out)?;
    put_store(to, out)
}

// W becomes its union with each of so many bytes behind one.
fn put_ors(first: Byte, count: u8, out: &mut SymBlock) -> Result<(), AllocError>
    ensures put { OnOk result (out.new.list.items ≡ out.old.list.items ++ ors_code first count) }
    ensures name { out.new.name ≡ out.old.name }
{
    for k in 0..count {
        let byte = behind(first, k + 1);
        put_file(FileOperation::Iorwf, byte, Into::W, out)?;
    }
    Ok(())
}

/// Z becomes 1 exactly where each of so many bytes, of which this is the lowest, is 0.
pub fn put_test(test: Byte, size: u8, out: &mut SymBlock) -> Result<(), AllocError>
    ensures put { OnOk result (out.new.list.items ≡ out.old.list.items ++ test_code test size) }
    ensures name { out.new.name ≡ out.old.name }
{
    if size == 0 {
        return out.put(Sym::Plain(PlainOperation::Clrw));
    }
    put_file(FileOperation::Movf, test, Into::W, out)?;
    put_ors(test, size - 1, out)
}

// The first of the two labels of the construct that begins behind so many instructions.
pub(crate) fn make_first_label(at: usize) -> Label
    requires { at < 2 ^ 63 }
    ensures { result ≡ first_label at }
{
    Label::Inner(2 * at)
}

// The second of them.
pub(crate) fn make_second_label(at: usize) -> Label
    requires { at < 2 ^ 63 }
    ensures { result ≡ second_label at }
{
    Label::Inner(2 * at + 1)
}

pub(crate) fn put_label(label: Label, out: &mut SymBlock) -> Result<(), AllocError>
    ensures put { OnOk result (out.new.list.items ≡ out.old.list.items ++ label_code label) }
    ensures name { out.new.name ≡ out.old.name }
{
    out.put(Sym::Label(label))
}

pub(crate) fn put_goto(label: Label, out: &mut SymBlock) -> Result<(), AllocError>
    ensures put { OnOk result (out.new.list.items ≡ out.old.list.items ++ goto_code label) }
    ensures name { out.new.name ≡ out.old.name }
{
    out.put(Sym::Goto(Target::Label(label)))
}

// A jump where Z is 1.
pub(crate) fn put_jump_if_zero(label: Label, out: &mut SymBlock) -> Result<(), AllocError>
    ensures put { OnOk result (out.new.list.items ≡ out.old.list.items ++ jump_code label) }
    ensures name { out.new.name ≡ out.old.name }
{
    put_flag(BitOperation::Btfsc, Flag::Zero, out)?;
    put_goto(label, out)
}

// A jump where Z is 0.
pub(crate) fn put_jump_unless_zero(label: Label, out: &mut SymBlock) -> Result<(), AllocError>
    ensures put { OnOk result (out.new.list.items ≡ out.old.list.items ++ unless_code label) }
    ensures name { out.new.name ≡ out.old.name }
{
    put_flag(BitOperation::Btfss, Flag::Zero, out)?;
    put_goto(label, out)
}

// An operation on a bit of a device register. A register has eight bits, and numbers of bits go round.
fn put_bit(op: BitOperation, register: u8, bit: u8, out: &mut SymBlock) -> Result<(), AllocError>
    ensures put { OnOk result (out.new.list.items ≡ out.old.list.items ++ bit_code op (Device register) (bit % 8)) }
    ensures name { out.new.name ≡ out.old.name }
{
    out.put(Sym::Bit {
        op,
        file: Operand::Byte(Byte::Device { address: register }),
        bit: bit % 8,
    })
}

// The byte becomes the bit of a device register, which is read once.
pub(crate) fn put_bit_read(
    to: Byte,
    register: u8,
    bit: u8,
    out: &mut SymBlock,
) -> Result<(), AllocError>
    ensures put { OnOk result (out.new.list.items ≡ out.old.list.items ++ bit_read_code to register bit) }
    ensures name { out.new.name ≡ out.old.name }
{
    put_number(0, out)?;
    put_bit(BitOperation::Btfsc, register, bit, out)?;
    put_number(1, out)?;
    put_store(to, out)
}

// The bit of a device register becomes the lowest bit of the byte: one of two instructions runs, each of which reads and
// writes the register once.
pub(crate) fn put_bit_write(
    register: u8,
    bit: u8,
    from: Byte,
    out: &mut SymBlock,
) -> Result<(), AllocError>
    ensures put { OnOk result (out.new.list.items ≡ out.old.list.items ++ bit_write_code (length out.old.list.items) register bit from) }
    ensures name { out.new.name ≡ out.old.name }
{
    let at = out.list.len();
    let clear = make_second_label(at);
    let end = make_first_label(at);
    out.put(Sym::Bit {
        op: BitOperation::Btfss,
        file: Operand::Byte(from),
        bit: 0,
    })?;
    put_goto(clear, out)?;
    put_bit(BitOperation::Bsf, register, bit, out)?;
    put_goto(end, out)?;
    put_label(clear, out)?;
    put_bit(BitOperation::Bcf, register, bit, out)?;
    put_label(end, out)
}
