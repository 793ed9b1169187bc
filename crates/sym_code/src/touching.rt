//! The file operand of an instruction.

ghost use Rattle.std.specs.Prelude.{◌≡◌};
ghost use Rattle.sym_code.specs.Touching as stated;

use crate::code::{BitOperation, Into, Operand, Sym};

/// Whether the result goes to the file register.
pub fn is_file(into: Into) -> bool
    ensures { result ≡ stated.is_file into }
{
    match into {
        Into::File => true,
        Into::W => false,
    }
}

/// Whether the instruction on a bit writes it.
pub fn is_bit_write(op: BitOperation) -> bool
    ensures { result ≡ stated.is_bit_write op }
{
    match op {
        BitOperation::Bcf => true,
        BitOperation::Bsf => true,
        BitOperation::Btfsc => false,
        BitOperation::Btfss => false,
    }
}

/// The file operand that an instruction names, and whether the instruction writes it. A select and a read of a table name none.
pub fn touches(sym: Sym) -> Option<(Operand, bool)>
    ensures { result ≡ stated.touches sym }
{
    match sym {
        Sym::File { file, into, .. } => Some((file, is_file(into))),
        Sym::Movwf(file) => Some((file, true)),
        Sym::Clrf(file) => Some((file, true)),
        Sym::Bit { op, file, .. } => Some((file, is_bit_write(op))),
        Sym::Literal { .. } => None,
        Sym::Plain(_) => None,
        Sym::Call(_) => None,
        Sym::Goto(_) => None,
        Sym::Label(_) => None,
        Sym::SelectBank(_, _) => None,
        Sym::SelectPage(_, _) => None,
        Sym::Table { .. } => None,
    }
}
