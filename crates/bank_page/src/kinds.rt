//! Kinds of instructions: which select, skip or end, and which are none.

ghost use Rattle.std.specs.Prelude.{◌≡◌};
ghost use Rattle.sym_code.specs.Selects.{is_rp, is_select};
ghost use Rattle.bank_page.specs.Kinds as kinds;
ghost use Rattle.bank_page.specs.Known as stated;

use sym_code::{BankBit, BitOperation, FileOperation, LiteralOperation, PlainOperation, Sym};

fn is_rp(bit: BankBit) -> bool
    ensures { result ≡ is_rp bit }
{
    match bit {
        BankBit::Rp0 => true,
        BankBit::Rp1 => true,
        BankBit::Irp => false,
    }
}

/// Whether the instruction selects a bank or a page. One that sets IRP is an instruction like any other.
pub fn is_select(sym: Sym) -> bool
    ensures { result ≡ is_select sym }
{
    match sym {
        Sym::SelectBank(bit, _) => is_rp(bit),
        Sym::SelectPage(_, _) => true,
        _ => false,
    }
}

/// Whether it is a label, which takes no word of program memory.
pub fn is_label(sym: Sym) -> bool
    ensures { result ≡ kinds.is_label sym }
{
    match sym {
        Sym::Label(_) => true,
        _ => false,
    }
}

fn skips_by_file(op: FileOperation) -> bool
    ensures { result ≡ kinds.skips_by_file op }
{
    match op {
        FileOperation::Decfsz => true,
        FileOperation::Incfsz => true,
        _ => false,
    }
}

fn skips_by_bit(op: BitOperation) -> bool
    ensures { result ≡ kinds.skips_by_bit op }
{
    match op {
        BitOperation::Btfsc => true,
        BitOperation::Btfss => true,
        BitOperation::Bcf => false,
        BitOperation::Bsf => false,
    }
}

/// Whether the instruction may skip the one after it.
pub fn is_skip(sym: Sym) -> bool
    ensures { result ≡ kinds.is_skip sym }
{
    match sym {
        Sym::File { op, .. } => skips_by_file(op),
        Sym::Bit { op, .. } => skips_by_bit(op),
        _ => false,
    }
}

/// Whether it comes back from a call or an interrupt.
pub fn is_return(op: PlainOperation) -> bool
    ensures { result ≡ stated.is_return op }
{
    match op {
        PlainOperation::Return => true,
        PlainOperation::Retfie => true,
        PlainOperation::Clrw => false,
        PlainOperation::Nop => false,
    }
}

/// Whether it comes back with a literal.
pub fn is_retlw(op: LiteralOperation) -> bool
    ensures { result ≡ stated.is_retlw op }
{
    match op {
        LiteralOperation::Retlw => true,
        _ => false,
    }
}

/// Whether nothing runs behind the instruction but what is reached by a label.
pub fn ends(sym: Sym) -> bool
    ensures { result ≡ stated.ends sym }
{
    match sym {
        Sym::Goto(_) => true,
        Sym::Plain(op) => is_return(op),
        Sym::Literal { op, .. } => is_retlw(op),
        _ => false,
    }
}
