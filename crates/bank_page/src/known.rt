//! What is known at a place of a block of the bits that selects set.

ghost use Rattle.std.specs.Prelude.{◌≡◌, ◌&&◌};
ghost use Rattle.bank_page.specs.Known as stated;
ghost use Rattle.sym_code.specs.Programs.{same_name, block_of};

use crate::kinds::ends;
use core_code::Byte;
use sym_code::{BankBit, BlockName, Label, Operand, PageBit, Register, Sym, Target, touches};

/// RP0 and RP1, where they are known, and the blocks whose page bits 3 and 4 of PCLATH name.
#[derive(Clone, Copy, PartialEq, Eq)]
pub struct Known {
    pub rp0: Option<bool>,
    pub rp1: Option<bool>,
    pub low: Option<BlockName>,
    pub high: Option<BlockName>,
}

/// The block in which a target lies that a block names.
pub fn block_of(own: BlockName, target: Target) -> BlockName
    ensures { result ≡ block_of own target }
{
    match target {
        Target::Block(name) => name,
        Target::Label(label) => match label {
            Label::Inner(_) => own,
            Label::Halt => BlockName::Start,
            Label::Restore => BlockName::Start,
        },
    }
}

fn is_status(file: Operand) -> bool
    ensures { result ≡ stated.is_status file }
{
    match file {
        Operand::Register(register) => match register {
            Register::Status => true,
            Register::Indf => false,
            Register::Fsr => false,
            Register::Pclath => false,
        },
        Operand::Byte(byte) => match byte {
            Byte::Device { address } => address == 0x03,
            Byte::Static { .. } => false,
            Byte::Frame { .. } => false,
            Byte::Result { .. } => false,
        },
        Operand::Saved(_) => false,
    }
}

fn is_pclath(file: Operand) -> bool
    ensures { result ≡ stated.is_pclath file }
{
    match file {
        Operand::Register(register) => match register {
            Register::Pclath => true,
            Register::Indf => false,
            Register::Status => false,
            Register::Fsr => false,
        },
        Operand::Byte(byte) => match byte {
            Byte::Device { address } => address == 0x0a,
            Byte::Static { .. } => false,
            Byte::Frame { .. } => false,
            Byte::Result { .. } => false,
        },
        Operand::Saved(_) => false,
    }
}

/// Whether an instruction writes STATUS.
pub fn writes_status(sym: Sym) -> bool
    ensures { result ≡ stated.writes_status sym }
{
    match touches(sym) {
        None => false,
        Some((file, written)) => written && is_status(file),
    }
}

fn reads_table(sym: Sym) -> bool
    ensures { result ≡ stated.reads_table sym }
{
    match sym {
        Sym::Table { .. } => true,
        _ => false,
    }
}

fn names_pclath(sym: Sym) -> bool
    ensures { result ≡ stated.names_pclath sym }
{
    match touches(sym) {
        None => false,
        Some((file, written)) => written && is_pclath(file),
    }
}

/// Whether an instruction writes PCLATH: the words that read a table do.
pub fn writes_pclath(sym: Sym) -> bool
    ensures { result ≡ stated.writes_pclath sym }
{
    reads_table(sym) || names_pclath(sym)
}

// Whether an instruction may change this bit of the register that it writes.
fn is_of_bit(sym: Sym, bit: u8) -> bool
    ensures { result ≡ stated.is_of_bit sym bit }
{
    match sym {
        Sym::Bit { bit: number, .. } => number == bit,
        _ => true,
    }
}

fn changes(written: bool, sym: Sym, bit: u8) -> bool
    ensures { result ≡ (written && stated.is_of_bit sym bit) }
{
    written && is_of_bit(sym, bit)
}

fn kept_bit(changed: bool, known: Option<bool>) -> Option<bool>
    ensures { result ≡ stated.kept changed known }
{
    if changed { None } else { known }
}

fn kept_page(changed: bool, known: Option<BlockName>) -> Option<BlockName>
    ensures { result ≡ stated.kept changed known }
{
    if changed { None } else { known }
}

// Whether anything may be selected behind the instruction: a label is reached from elsewhere, and a call comes back with what
// it left.
fn forgets(sym: Sym) -> bool
    ensures { result ≡ stated.forgets sym }
{
    match sym {
        Sym::Label(_) => true,
        Sym::Call(_) => true,
        _ => false,
    }
}

fn same_bit(a: bool, b: bool) -> bool
    ensures { result ≡ stated.same_bit a b }
{
    if b { a } else { !a }
}

/// Whether a bit is known to be so.
pub fn is_bit(known: Option<bool>, on: bool) -> bool
    ensures { result ≡ stated.is_bit known on }
{
    match known {
        None => false,
        Some(known) => same_bit(known, on),
    }
}

/// Whether two names are one.
pub fn same_block(a: BlockName, b: BlockName) -> bool
    ensures { result ≡ same_name a b }
{
    match a {
        BlockName::Start => match b {
            BlockName::Start => true,
            BlockName::Copy(_) => false,
        },
        BlockName::Copy(a) => match b {
            BlockName::Start => false,
            BlockName::Copy(b) => a == b,
        },
    }
}

/// Whether a bit is known to be that of the page of this block.
pub fn is_page(known: Option<BlockName>, block: BlockName) -> bool
    ensures { result ≡ stated.is_page known block }
{
    match known {
        None => false,
        Some(known) => same_block(known, block),
    }
}

impl Known {
    /// Where anything may be selected: at the front of a block and at a label.
    pub fn nothing() -> Known
        ensures { result ≡ stated.nothing }
    {
        Known {
            rp0: None,
            rp1: None,
            low: None,
            high: None,
        }
    }

    /// What is left of it after an instruction that is no select.
    pub fn left(self, sym: Sym) -> Known
        ensures { result ≡ stated.left self sym (stated.writes_status sym) (stated.writes_pclath sym) }
    {
        let status = writes_status(sym);
        let pclath = writes_pclath(sym);
        Known {
            rp0: kept_bit(changes(status, sym, 5), self.rp0),
            rp1: kept_bit(changes(status, sym, 6), self.rp1),
            low: kept_page(changes(pclath, sym, 3), self.low),
            high: kept_page(changes(pclath, sym, 4), self.high),
        }
    }

    /// What is known after an instruction; it may be one that is skipped.
    pub fn after(self, sym: Sym, may_be_skipped: bool) -> Known
        ensures { result ≡ stated.after self sym may_be_skipped }
    {
        if forgets(sym) || (ends(sym) && !may_be_skipped) {
            return Known::nothing();
        }
        self.left(sym)
    }

    /// Whether what a select in a block sets is known to be so already.
    pub fn knows(self, own: BlockName, sym: Sym) -> bool
        ensures { result ≡ stated.knows own self sym }
    {
        match sym {
            Sym::SelectBank(bit, on) => match bit {
                BankBit::Rp0 => is_bit(self.rp0, on),
                BankBit::Rp1 => is_bit(self.rp1, on),
                BankBit::Irp => false,
            },
            Sym::SelectPage(bit, target) => match bit {
                PageBit::Low => is_page(self.low, block_of(own, target)),
                PageBit::High => is_page(self.high, block_of(own, target)),
            },
            _ => false,
        }
    }

    /// What is known after a select in a block.
    pub fn learned(self, own: BlockName, sym: Sym) -> Known
        ensures { result ≡ stated.learned own self sym }
    {
        match sym {
            Sym::SelectBank(bit, on) => match bit {
                BankBit::Rp0 => Known {
                    rp0: Some(on),
                    ..self
                },
                BankBit::Rp1 => Known {
                    rp1: Some(on),
                    ..self
                },
                BankBit::Irp => self,
            },
            Sym::SelectPage(bit, target) => match bit {
                PageBit::Low => Known {
                    low: Some(block_of(own, target)),
                    ..self
                },
                PageBit::High => Known {
                    high: Some(block_of(own, target)),
                    ..self
                },
            },
            _ => self,
        }
    }
}
