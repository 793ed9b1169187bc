//! Single instructions at the end of a block.

ghost use Rattle.std.specs.Prelude.{◌≡◌, ◌∷◌, [], ◌++◌, OnOk, ◌<◌};
ghost use Rattle.math_helpers.specs.Pieces.{to_file, to_w, from_w, clear, on_bit, on_flag, number, jump, mark, back};

use std::alloc::AllocError;
use sym_code::{
    BitOperation, FileOperation, Into, Label, Literal, LiteralOperation, Operand, PlainOperation,
    Register, Sym, SymBlock, Target,
};

/// The number of the carry flag in STATUS (Microchip data sheet DS39582, STATUS register).
pub const CARRY: u8 = 0;
/// The number of the zero flag in STATUS.
pub const ZERO: u8 = 2;

/// An instruction whose result goes to the byte that it reads.
pub fn put_file(block: &mut SymBlock, op: FileOperation, file: Operand) -> Result<(), AllocError>
    ensures code { OnOk result (block.new.list.items ≡ block.old.list.items ++ to_file op file ∷ []) }
    ensures name { block.new.name ≡ block.old.name }
{
    block.put(Sym::File {
        op,
        file,
        into: Into::File,
    })
}

/// An instruction that reads a byte, and whose result goes to W.
pub fn put_w(block: &mut SymBlock, op: FileOperation, file: Operand) -> Result<(), AllocError>
    ensures code { OnOk result (block.new.list.items ≡ block.old.list.items ++ to_w op file ∷ []) }
    ensures name { block.new.name ≡ block.old.name }
{
    block.put(Sym::File {
        op,
        file,
        into: Into::W,
    })
}

/// The byte becomes W.
pub fn put_from_w(block: &mut SymBlock, file: Operand) -> Result<(), AllocError>
    ensures code { OnOk result (block.new.list.items ≡ block.old.list.items ++ from_w file ∷ []) }
    ensures name { block.new.name ≡ block.old.name }
{
    block.put(Sym::Movwf(file))
}

/// The byte becomes 0.
pub fn put_clear(block: &mut SymBlock, file: Operand) -> Result<(), AllocError>
    ensures code { OnOk result (block.new.list.items ≡ block.old.list.items ++ clear file ∷ []) }
    ensures name { block.new.name ≡ block.old.name }
{
    block.put(Sym::Clrf(file))
}

/// An instruction on one bit of a byte.
pub fn put_bit(
    block: &mut SymBlock,
    op: BitOperation,
    file: Operand,
    bit: u8,
) -> Result<(), AllocError>
    requires { bit < 8 }
    ensures code { OnOk result (block.new.list.items ≡ block.old.list.items ++ on_bit op file bit ∷ []) }
    ensures name { block.new.name ≡ block.old.name }
{
    block.put(Sym::Bit { op, file, bit })
}

/// An instruction on a flag, by its number in STATUS.
pub fn put_flag(block: &mut SymBlock, op: BitOperation, flag: u8) -> Result<(), AllocError>
    requires { flag < 8 }
    ensures code { OnOk result (block.new.list.items ≡ block.old.list.items ++ on_flag op flag ∷ []) }
    ensures name { block.new.name ≡ block.old.name }
{
    put_bit(block, op, Operand::Register(Register::Status), flag)
}

/// W becomes a number.
pub fn put_number(block: &mut SymBlock, value: u8) -> Result<(), AllocError>
    ensures code { OnOk result (block.new.list.items ≡ block.old.list.items ++ number value ∷ []) }
    ensures name { block.new.name ≡ block.old.name }
{
    block.put(Sym::Literal {
        op: LiteralOperation::Movlw,
        value: Literal::Number(value),
    })
}

/// A jump to a label of the block.
pub fn put_jump(block: &mut SymBlock, label: usize) -> Result<(), AllocError>
    ensures code { OnOk result (block.new.list.items ≡ block.old.list.items ++ jump label ∷ []) }
    ensures name { block.new.name ≡ block.old.name }
{
    block.put(Sym::Goto(Target::Label(Label::Inner(label))))
}

/// A label of the block.
pub fn put_label(block: &mut SymBlock, label: usize) -> Result<(), AllocError>
    ensures code { OnOk result (block.new.list.items ≡ block.old.list.items ++ mark label ∷ []) }
    ensures name { block.new.name ≡ block.old.name }
{
    block.put(Sym::Label(Label::Inner(label)))
}

/// Back to the caller.
pub fn put_return(block: &mut SymBlock) -> Result<(), AllocError>
    ensures code { OnOk result (block.new.list.items ≡ block.old.list.items ++ back ∷ []) }
    ensures name { block.new.name ≡ block.old.name }
{
    block.put(Sym::Plain(PlainOperation::Return))
}
