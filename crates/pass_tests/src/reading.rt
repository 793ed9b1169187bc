//! Instructions and bytes as texts.
//!
//! A byte is `S0.1` of a static object, `F0.1` of the frame of a copy, `M1` and `I1` of the result under main and under the handler,
//! and `D86h` a device register; the core's registers have their names, and those that are saved stand behind `saved.`. A label
//! is `L0`, `halt` or `restore`, and a block `start` or `copy.1`.

use core_code::Byte;
use pic_world::Root;
use sym_code::{
    BankBit, BitOperation, BlockName, FileOperation, Into, Label, Literal, LiteralOperation,
    Operand, PageBit, PlainOperation, Register, Saved, Sym, Target,
};

const FILES: [(&str, FileOperation); 14] = [
    ("addwf", FileOperation::Addwf),
    ("andwf", FileOperation::Andwf),
    ("comf", FileOperation::Comf),
    ("decf", FileOperation::Decf),
    ("decfsz", FileOperation::Decfsz),
    ("incf", FileOperation::Incf),
    ("incfsz", FileOperation::Incfsz),
    ("iorwf", FileOperation::Iorwf),
    ("movf", FileOperation::Movf),
    ("rlf", FileOperation::Rlf),
    ("rrf", FileOperation::Rrf),
    ("subwf", FileOperation::Subwf),
    ("swapf", FileOperation::Swapf),
    ("xorwf", FileOperation::Xorwf),
];

const BITS: [(&str, BitOperation); 4] = [
    ("bcf", BitOperation::Bcf),
    ("bsf", BitOperation::Bsf),
    ("btfsc", BitOperation::Btfsc),
    ("btfss", BitOperation::Btfss),
];

const LITERALS: [(&str, LiteralOperation); 7] = [
    ("addlw", LiteralOperation::Addlw),
    ("andlw", LiteralOperation::Andlw),
    ("iorlw", LiteralOperation::Iorlw),
    ("movlw", LiteralOperation::Movlw),
    ("retlw", LiteralOperation::Retlw),
    ("sublw", LiteralOperation::Sublw),
    ("xorlw", LiteralOperation::Xorlw),
];

const PLAINS: [(&str, PlainOperation); 4] = [
    ("clrw", PlainOperation::Clrw),
    ("nop", PlainOperation::Nop),
    ("retfie", PlainOperation::Retfie),
    ("return", PlainOperation::Return),
];

const REGISTERS: [(&str, Operand); 8] = [
    ("INDF", Operand::Register(Register::Indf)),
    ("STATUS", Operand::Register(Register::Status)),
    ("FSR", Operand::Register(Register::Fsr)),
    ("PCLATH", Operand::Register(Register::Pclath)),
    ("saved.w", Operand::Saved(Saved::W)),
    ("saved.status", Operand::Saved(Saved::Status)),
    ("saved.fsr", Operand::Saved(Saved::Fsr)),
    ("saved.pclath", Operand::Saved(Saved::Pclath)),
];

const BANKS: [(&str, BankBit); 3] = [
    ("rp0", BankBit::Rp0),
    ("rp1", BankBit::Rp1),
    ("irp", BankBit::Irp),
];

/// What stands beside a name.
pub fn find<T: Copy>(rows: &[(&str, T)], name: &str) -> Option<T> {
    for (key, value) in rows {
        if *key == name {
            return Some(*value);
        }
    }
    None
}

/// The front of a text up to a space, and what is behind that.
pub fn cut(text: &str) -> (&str, &str) {
    text.split_once(' ').unwrap_or((text, ""))
}

/// A decimal number, or with an `h` behind it a hexadecimal one.
pub fn number(text: &str) -> u16 {
    match text.split_once('h') {
        Some((digits, _)) => u16::from_str_radix(digits, 16).unwrap_or(u16::MAX),
        None => u16::from_str_radix(text, 10).unwrap_or(u16::MAX),
    }
}

pub fn small(text: &str) -> u8 {
    (number(text) % 256) as u8
}

pub fn byte(text: &str) -> Byte {
    let (front, offset) = text.split_once('.').unwrap_or((text, "0"));
    let offset = number(offset);
    if let Some(copy) = front.strip_prefix('F') {
        let copy = number(copy);
        return Byte::Frame { copy, offset };
    }
    if let Some(object) = front.strip_prefix('S') {
        let object = number(object);
        return Byte::Static { object, offset };
    }
    if let Some(address) = front.strip_prefix('D') {
        let address = small(address);
        return Byte::Device { address };
    }
    let (root, k) = match front.strip_prefix('I') {
        Some(k) => (Root::Isr, k),
        None => (Root::Main, front.strip_prefix('M').unwrap_or("")),
    };
    Byte::Result { root, k: small(k) }
}

fn operand(text: &str) -> Operand {
    match find(&REGISTERS, text) {
        Some(register) => register,
        None => Operand::Byte(byte(text)),
    }
}

/// A block's name.
pub fn block(text: &str) -> BlockName {
    match text.strip_prefix("copy.") {
        Some(copy) => BlockName::Copy(number(copy)),
        None => BlockName::Start,
    }
}

fn label(text: &str) -> Option<Label> {
    match text.strip_prefix('L') {
        Some(inner) => Some(Label::Inner(number(inner) as usize)),
        None => match text {
            "halt" => Some(Label::Halt),
            "restore" => Some(Label::Restore),
            _ => None,
        },
    }
}

fn target(text: &str) -> Target {
    match label(text) {
        Some(label) => Target::Label(label),
        None => Target::Block(block(text)),
    }
}

fn literal(text: &str) -> Literal {
    match cut(text) {
        ("low", of) => Literal::Low(byte(of)),
        ("high", of) => Literal::High(byte(of)),
        _ => Literal::Number(small(text)),
    }
}

// An instruction on no file register by its name, or one of those without a row of its own.
fn other(name: &str, rest: &str) -> Option<Sym> {
    let (first, second) = cut(rest);
    match name {
        "movwf" => Some(Sym::Movwf(operand(rest))),
        "clrf" => Some(Sym::Clrf(operand(rest))),
        "call" => Some(Sym::Call(target(rest))),
        "goto" => Some(Sym::Goto(target(rest))),
        "label" => Some(Sym::Label(label(rest)?)),
        "bank" => Some(Sym::SelectBank(find(&BANKS, first)?, second == "1")),
        "page" => {
            let bit = if first == "low" {
                PageBit::Low
            } else {
                PageBit::High
            };
            Some(Sym::SelectPage(bit, target(second)))
        }
        "table" => {
            let root = if second == "isr" {
                Root::Isr
            } else {
                Root::Main
            };
            Some(Sym::Table {
                table: number(first),
                root,
            })
        }
        _ => None,
    }
}

/// An instruction by its line, as an assembler has it.
pub fn instruction(line: &str) -> Option<Sym> {
    let (name, rest) = cut(line);
    let (first, second) = cut(rest);
    if let Some(op) = find(&FILES, name) {
        let into = if second == "f" { Into::File } else { Into::W };
        let file = operand(first);
        return Some(Sym::File { op, file, into });
    }
    if let Some(op) = find(&BITS, name) {
        let file = operand(first);
        let bit = small(second);
        return Some(Sym::Bit { op, file, bit });
    }
    if let Some(op) = find(&LITERALS, name) {
        let value = literal(rest);
        return Some(Sym::Literal { op, value });
    }
    match find(&PLAINS, name) {
        Some(op) => Some(Sym::Plain(op)),
        None => other(name, rest),
    }
}
