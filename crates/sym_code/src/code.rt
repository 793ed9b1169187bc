//! Symbolic instructions, and the blocks and programs that they make.

ghost use Rattle.std.specs.Prelude.{◌≡◌, ◌∷◌, [], ◌++◌, true, OnErr, OnOk};
ghost use Rattle.sym_code.specs.WellFormed.{is_well_formed, are_well_formed};

use core_code::Byte;
use pic_world::Root;
use std::alloc::{AllocError, Global};

/// A register of the chip's core (Microchip data sheet DS39582, special function registers). Each stands in every bank.
/// `Indf` is the byte that FSR and IRP name.
#[derive(Clone, Copy, PartialEq, Eq)]
pub enum Register {
    Indf,
    Status,
    Fsr,
    Pclath,
}

/// Where the context of main is kept while the handler runs. Each stands in every bank.
#[derive(Clone, Copy, PartialEq, Eq)]
pub enum Saved {
    W,
    Status,
    Fsr,
    Pclath,
}

/// A file operand by name.
#[derive(Clone, Copy, PartialEq, Eq)]
pub enum Operand {
    Byte(Byte),
    Register(Register),
    Saved(Saved),
}

/// Where a result goes.
#[derive(Clone, Copy, PartialEq, Eq)]
pub enum Into {
    W,
    File,
}

/// A row of the instruction table that reads a file register, and whose result goes to W or to that register.
#[derive(Clone, Copy, PartialEq, Eq)]
pub enum FileOperation {
    Addwf,
    Andwf,
    Comf,
    Decf,
    Decfsz,
    Incf,
    Incfsz,
    Iorwf,
    Movf,
    Rlf,
    Rrf,
    Subwf,
    Swapf,
    Xorwf,
}

/// A row of the instruction table on one bit of a file register.
#[derive(Clone, Copy, PartialEq, Eq)]
pub enum BitOperation {
    Bcf,
    Bsf,
    Btfsc,
    Btfss,
}

/// A row of the instruction table on W and a literal.
#[derive(Clone, Copy, PartialEq, Eq)]
pub enum LiteralOperation {
    Addlw,
    Andlw,
    Iorlw,
    Movlw,
    Retlw,
    Sublw,
    Xorlw,
}

/// A row of the instruction table without an operand.
#[derive(Clone, Copy, PartialEq, Eq)]
pub enum PlainOperation {
    Clrw,
    Nop,
    Retfie,
    Return,
}

/// A literal: a number, or the low 8 bits or the ninth bit of the address of a byte.
#[derive(Clone, Copy, PartialEq, Eq)]
pub enum Literal {
    Number(u8),
    Low(Byte),
    High(Byte),
}

/// A block of code: the start block, or the block of a function copy or helper, by the copy's number.
#[derive(Clone, Copy, PartialEq, Eq)]
pub enum BlockName {
    Start,
    Copy(u16),
}

/// A place in the code: one within its own block, by a number; in the start block, the place where main has ended, and
/// the one where the handler goes to when it ends.
#[derive(Clone, Copy, PartialEq, Eq)]
pub enum Label {
    Inner(usize),
    Halt,
    Restore,
}

/// What a jump or call goes to: the front of a block, or a label. An inner label is one of the block that the jump
/// stands in.
#[derive(Clone, Copy, PartialEq, Eq)]
pub enum Target {
    Block(BlockName),
    Label(Label),
}

/// A bit of STATUS that selects banks: RP0 and RP1, bits 5 and 6, by the 7 low bits of an address in an instruction, and
/// IRP, bit 7, by an address in FSR.
#[derive(Clone, Copy, PartialEq, Eq)]
pub enum BankBit {
    Rp0,
    Rp1,
    Irp,
}

/// A bit of PCLATH that selects pages of program memory: bit 3 and bit 4.
#[derive(Clone, Copy, PartialEq, Eq)]
pub enum PageBit {
    Low,
    High,
}

/// A symbolic instruction: one of the chip, whose operands have names; a label, which is no instruction; a select of
/// one bit, which is a BCF or BSF; or a read of a table, which is a call of the words that read it.
#[derive(Clone, Copy, PartialEq, Eq)]
pub enum Sym {
    File {
        op: FileOperation,
        file: Operand,
        into: Into,
    },
    Movwf(Operand),
    Clrf(Operand),
    Bit {
        op: BitOperation,
        file: Operand,
        bit: u8,
    },
    Literal {
        op: LiteralOperation,
        value: Literal,
    },
    Plain(PlainOperation),
    Call(Target),
    Goto(Target),
    Label(Label),
    /// A bit of STATUS gets a value.
    SelectBank(BankBit, bool),
    /// A bit of PCLATH becomes that of the page of the block that a target lies in.
    SelectPage(PageBit, Target),
    /// W becomes a byte of the table of this number in program memory: the one whose number stands in the first two
    /// result bytes of this root. The words that read it lie in the page of the instruction's own block.
    Table {
        table: u16,
        root: Root,
    },
}

/// The instructions of a block in order.
#[derive(Drop)]
pub struct SymBlock {
    pub name: BlockName,
    pub list: Vec<Sym>,
    pub ghost fits: { are_well_formed list.items ≡ true },
}

/// The blocks of a program, in the order in which they stand in program memory.
#[derive(Drop)]
pub struct SymProgram {
    pub blocks: Vec<SymBlock>,
}

impl SymBlock {
    /// A block without instructions.
    pub fn new(alloc: Global, name: BlockName) -> SymBlock
        ensures name { result.name ≡ name }
        ensures empty { result.list.items ≡ [] }
    {
        SymBlock {
            name,
            list: Vec::new(alloc),
        }
    }

    /// One more instruction. The number of a bit is below 8. After a refusal the block is as before.
    #[tactic(auto, using(crate::proofs::Lists::well_formed_more))]
    pub fn put(&mut self, sym: Sym) -> Result<(), AllocError>
        requires { is_well_formed sym ≡ true }
        ensures put { OnOk result (self.new.list.items ≡ self.old.list.items ++ (sym ∷ [])) }
        ensures kept { OnErr result (self.new.list.items ≡ self.old.list.items) }
        ensures name { self.new.name ≡ self.old.name }
    {
        self.list.push(sym)?;
        Ok(())
    }
}
