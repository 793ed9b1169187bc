//! Symbolic code: a line for each instruction.

use crate::listing::Listing;
use crate::names::of_root;
use crate::operations::put_byte;
use sym_code::{
    BankBit, BitOperation, BlockName, FileOperation, Into, Label, Literal, LiteralOperation,
    Operand, PageBit, PlainOperation, Register, Saved, Sym, SymBlock, SymProgram, Target,
};

fn of_file(op: FileOperation) -> &'static str {
    match op {
        FileOperation::Addwf => "Addwf",
        FileOperation::Andwf => "Andwf",
        FileOperation::Comf => "Comf",
        FileOperation::Decf => "Decf",
        FileOperation::Decfsz => "Decfsz",
        FileOperation::Incf => "Incf",
        FileOperation::Incfsz => "Incfsz",
        FileOperation::Iorwf => "Iorwf",
        FileOperation::Movf => "Movf",
        FileOperation::Rlf => "Rlf",
        FileOperation::Rrf => "Rrf",
        FileOperation::Subwf => "Subwf",
        FileOperation::Swapf => "Swapf",
        FileOperation::Xorwf => "Xorwf",
    }
}

fn of_bit(op: BitOperation) -> &'static str {
    match op {
        BitOperation::Bcf => "Bcf",
        BitOperation::Bsf => "Bsf",
        BitOperation::Btfsc => "Btfsc",
        BitOperation::Btfss => "Btfss",
    }
}

fn of_literal(op: LiteralOperation) -> &'static str {
    match op {
        LiteralOperation::Addlw => "Addlw",
        LiteralOperation::Andlw => "Andlw",
        LiteralOperation::Iorlw => "Iorlw",
        LiteralOperation::Movlw => "Movlw",
        LiteralOperation::Retlw => "Retlw",
        LiteralOperation::Sublw => "Sublw",
        LiteralOperation::Xorlw => "Xorlw",
    }
}

fn of_plain(op: PlainOperation) -> &'static str {
    match op {
        PlainOperation::Clrw => "Clrw",
        PlainOperation::Nop => "Nop",
        PlainOperation::Retfie => "Retfie",
        PlainOperation::Return => "Return",
    }
}

fn of_register(register: Register) -> &'static str {
    match register {
        Register::Indf => "Indf",
        Register::Status => "Status",
        Register::Fsr => "Fsr",
        Register::Pclath => "Pclath",
    }
}

fn of_saved(saved: Saved) -> &'static str {
    match saved {
        Saved::W => "SavedW",
        Saved::Status => "SavedStatus",
        Saved::Fsr => "SavedFsr",
        Saved::Pclath => "SavedPclath",
    }
}

fn of_into(into: Into) -> &'static str {
    match into {
        Into::W => "W",
        Into::File => "File",
    }
}

fn of_bank(bit: BankBit) -> &'static str {
    match bit {
        BankBit::Rp0 => "Rp0",
        BankBit::Rp1 => "Rp1",
        BankBit::Irp => "Irp",
    }
}

fn of_page(bit: PageBit) -> &'static str {
    match bit {
        PageBit::Low => "Low",
        PageBit::High => "High",
    }
}

fn put_operand(out: &mut Listing, operand: Operand) {
    match operand {
        Operand::Byte(byte) => put_byte(out, byte),
        Operand::Register(register) => out.word(of_register(register)),
        Operand::Saved(saved) => out.word(of_saved(saved)),
    }
}

fn put_literal(out: &mut Listing, value: Literal) {
    match value {
        Literal::Number(number) => out.number(number as u64),
        Literal::Low(byte) => {
            out.open("Low");
            put_byte(out, byte);
            out.close();
        }
        Literal::High(byte) => {
            out.open("High");
            put_byte(out, byte);
            out.close();
        }
    }
}

fn put_name(out: &mut Listing, name: BlockName) {
    match name {
        BlockName::Start => out.word("Start"),
        BlockName::Copy(copy) => out.numbered("Copy", copy as u64),
    }
}

fn put_label(out: &mut Listing, label: Label) {
    match label {
        Label::Inner(number) => out.numbered("Inner", number as u64),
        Label::Halt => out.word("Halt"),
        Label::Restore => out.word("Restore"),
    }
}

/// The front of a block is told by its name, and a label as itself.
fn put_target(out: &mut Listing, target: Target) {
    match target {
        Target::Block(name) => put_name(out, name),
        Target::Label(label) => put_label(out, label),
    }
}

fn head_of(sym: Sym) -> &'static str {
    match sym {
        Sym::File { .. } => "File",
        Sym::Movwf(_) => "Movwf",
        Sym::Clrf(_) => "Clrf",
        Sym::Bit { .. } => "Bit",
        Sym::Literal { .. } => "Literal",
        Sym::Plain(_) => "Plain",
        Sym::Call(_) => "Call",
        Sym::Goto(_) => "Goto",
        Sym::Label(_) => "Label",
        Sym::SelectBank(..) => "SelectBank",
        Sym::SelectPage(..) => "SelectPage",
        Sym::Table { .. } => "Table",
    }
}

fn put_fields(out: &mut Listing, sym: Sym) {
    match sym {
        Sym::File { op, file, into } => {
            out.word(of_file(op));
            put_operand(out, file);
            out.word(of_into(into));
        }
        Sym::Movwf(file) | Sym::Clrf(file) => put_operand(out, file),
        Sym::Bit { op, file, bit } => {
            out.word(of_bit(op));
            put_operand(out, file);
            out.number(bit as u64);
        }
        Sym::Literal { op, value } => {
            out.word(of_literal(op));
            put_literal(out, value);
        }
        Sym::Plain(op) => out.word(of_plain(op)),
        Sym::Call(target) | Sym::Goto(target) => put_target(out, target),
        Sym::Label(label) => put_label(out, label),
        Sym::SelectBank(bit, value) => {
            out.word(of_bank(bit));
            out.number(value as u64);
        }
        Sym::SelectPage(bit, target) => {
            out.word(of_page(bit));
            put_target(out, target);
        }
        Sym::Table { table, root } => {
            out.number(table as u64);
            out.word(of_root(root));
        }
    }
}

fn put_instruction(out: &mut Listing, sym: Sym) {
    out.begin(2, head_of(sym));
    put_fields(out, sym);
    out.end();
}

fn own_copy(name: BlockName) -> Option<u16> {
    match name {
        BlockName::Start => None,
        BlockName::Copy(copy) => Some(copy),
    }
}

fn put_block(out: &mut Listing, block: &SymBlock, at: u16) {
    out.own = own_copy(block.name);
    out.begin(1, "Block");
    put_name(out, block.name);
    out.numbered("at", at as u64);
    out.end();
    for sym in &block.list {
        put_instruction(out, *sym);
    }
}

/// The blocks of a program under a head, with the addresses at which they stand.
pub fn put_symbolic(out: &mut Listing, head: &str, program: &SymProgram, at: &[u16]) {
    out.begin(0, head);
    out.end();
    for (block, at) in program.blocks.iter().zip(at) {
        put_block(out, block, *at);
    }
}
