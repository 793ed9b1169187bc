//! Instructions by their form, put after a block, and the few that operations share.

ghost use Rattle.std.specs.Prelude.{◌≡◌, ◌++◌, ◌<◌, OnOk};
ghost use Rattle.select_wide.specs.Pieces.{register_code, register_store_code, literal_code, nonzero_code, if_bit_code, pair_code, choice_code, truth_code, sign_code};

use core_code::Byte;
use select_code::{Flag, behind, put_file, put_flag, put_number, put_set, put_store};
use std::alloc::AllocError;
use sym_code::{
    BitOperation, FileOperation, Into, Literal, LiteralOperation, Operand, Register, Sym, SymBlock,
};

/// An instruction on a register of the core.
pub fn put_register(
    op: FileOperation,
    register: Register,
    into: Into,
    out: &mut SymBlock,
) -> Result<(), AllocError>
    ensures put { OnOk result (out.new.list.items ≡ out.old.list.items ++ register_code op register into) }
    ensures name { out.new.name ≡ out.old.name }
{
    out.put(Sym::File {
        op,
        file: Operand::Register(register),
        into,
    })
}

/// A register of the core becomes W.
pub fn put_register_store(register: Register, out: &mut SymBlock) -> Result<(), AllocError>
    ensures put { OnOk result (out.new.list.items ≡ out.old.list.items ++ register_store_code register) }
    ensures name { out.new.name ≡ out.old.name }
{
    out.put(Sym::Movwf(Operand::Register(register)))
}

/// An instruction on W and a literal.
pub fn put_literal(
    op: LiteralOperation,
    value: Literal,
    out: &mut SymBlock,
) -> Result<(), AllocError>
    ensures put { OnOk result (out.new.list.items ≡ out.old.list.items ++ literal_code op value) }
    ensures name { out.new.name ≡ out.old.name }
{
    out.put(Sym::Literal { op, value })
}

/// C becomes 1 where W isn't 0, and 0 where it is: W + 255 comes to 256 from 1 on.
pub fn put_nonzero(out: &mut SymBlock) -> Result<(), AllocError>
    ensures put { OnOk result (out.new.list.items ≡ out.old.list.items ++ nonzero_code) }
    ensures name { out.new.name ≡ out.old.name }
{
    put_literal(LiteralOperation::Addlw, Literal::Number(255), out)
}

/// The next instruction counts where the bit of the byte is 1.
pub fn put_if_bit(byte: Byte, bit: u8, out: &mut SymBlock) -> Result<(), AllocError>
    requires { bit < 8 }
    ensures put { OnOk result (out.new.list.items ≡ out.old.list.items ++ if_bit_code byte bit) }
    ensures name { out.new.name ≡ out.old.name }
{
    out.put(Sym::Bit {
        op: BitOperation::Btfsc,
        file: Operand::Byte(byte),
        bit,
    })
}

/// W becomes the byte at `right`, and an operation with W is done at `left`.
pub fn put_pair(
    op: FileOperation,
    left: Byte,
    right: Byte,
    into: Into,
    out: &mut SymBlock,
) -> Result<(), AllocError>
    ensures put { OnOk result (out.new.list.items ≡ out.old.list.items ++ pair_code op left right into) }
    ensures name { out.new.name ≡ out.old.name }
{
    put_file(FileOperation::Movf, right, Into::W, out)?;
    put_file(op, left, into, out)
}

/// W becomes one number, and another one where the test of the flag skips nothing.
pub fn put_choice(
    usual: u8,
    test: BitOperation,
    flag: Flag,
    other: u8,
    out: &mut SymBlock,
) -> Result<(), AllocError>
    ensures put { OnOk result (out.new.list.items ≡ out.old.list.items ++ choice_code usual test flag other) }
    ensures name { out.new.name ≡ out.old.name }
{
    put_number(usual, out)?;
    put_flag(test, flag, out)?;
    put_number(other, out)
}

/// Two bytes become the number in W.
pub fn put_truth(to: Byte, out: &mut SymBlock) -> Result<(), AllocError>
    ensures put { OnOk result (out.new.list.items ≡ out.old.list.items ++ truth_code to) }
    ensures name { out.new.name ≡ out.old.name }
{
    put_store(to, out)?;
    put_set(behind(to, 1), 0, out)
}

/// W becomes FFh where the highest bit of the byte is 1, and 0 otherwise.
pub fn put_sign(top: Byte, out: &mut SymBlock) -> Result<(), AllocError>
    ensures put { OnOk result (out.new.list.items ≡ out.old.list.items ++ sign_code top) }
    ensures name { out.new.name ≡ out.old.name }
{
    put_number(0, out)?;
    put_if_bit(top, 7, out)?;
    put_number(255, out)
}
