//! The words of a block, each with its address, its instruction and what that names.

use crate::html::Html;
use crate::shown::{Shown, class_of};
use c_typed::{FnId, Typed, Variable};
use code_place::{address_of, real_words};
use core_code::Byte;
use pic_world::register_name;
use sym_code::{Label, Operand, Register, Saved, Sym, SymBlock, Target, touches};

/// The instructions on a whole register, by bits 8 to 11 of the word (Microchip data sheet DS39582, instruction set, as the other tables).
const BYTE_NAMES: [&str; 16] = [
    "movwf", "clrf", "subwf", "decf", "iorwf", "andwf", "xorwf", "addwf", "movf", "comf", "incf",
    "decfsz", "rrf", "rlf", "swapf", "incfsz",
];

/// The instructions on a bit, by bits 10 and 11.
const BIT_NAMES: [&str; 4] = ["bcf", "bsf", "btfsc", "btfss"];

/// The instructions on a literal, by bits 8 to 11.
const LITERAL_NAMES: [&str; 16] = [
    "movlw", "movlw", "movlw", "movlw", "retlw", "retlw", "retlw", "retlw", "iorlw", "andlw",
    "xorlw", "", "sublw", "sublw", "addlw", "addlw",
];

fn control_name(word: u16) -> &'static str {
    match word {
        0x08 => "return",
        0x09 => "retfie",
        0x63 => "sleep",
        0x64 => "clrwdt",
        _ => "nop",
    }
}

fn byte_name(word: u16) -> &'static str {
    match word / 128 {
        0 => control_name(word),
        2 => "clrw",
        _ => BYTE_NAMES[(word / 256 % 16) as usize],
    }
}

fn instruction_name(word: u16) -> &'static str {
    match word / 4096 % 4 {
        0 => byte_name(word),
        1 => BIT_NAMES[(word / 1024 % 4) as usize],
        2 => if word / 2048 % 2 == 0 { "call" } else { "goto" },
        _ => LITERAL_NAMES[(word / 256 % 16) as usize],
    }
}

fn register_text(register: Register) -> &'static str {
    match register {
        Register::Indf => "INDF",
        Register::Status => "STATUS",
        Register::Fsr => "FSR",
        Register::Pclath => "PCLATH",
    }
}

fn saved_text(saved: Saved) -> &'static str {
    match saved {
        Saved::W => "saved W",
        Saved::Status => "saved STATUS",
        Saved::Fsr => "saved FSR",
        Saved::Pclath => "saved PCLATH",
    }
}

// A byte of what has so many, by its offset.
fn put_offset(out: &mut Html, name: &[u8], size: u64, offset: u64) {
    out.name(name);
    if size != 1 {
        out.counted("+", offset);
    }
}

fn bytes_in(typed: &Typed, variables: &[Variable]) -> u64 {
    let mut bytes: u64 = 0;
    for variable in variables {
        bytes = bytes.saturating_add(typed.bytes_of(variable.ty.ty));
    }
    bytes
}

// The variable that has the byte at an offset, where the first of them begins at `start`, and its own offset.
fn variable_in<'a>(
    typed: &Typed,
    variables: &'a [Variable],
    start: u64,
    offset: u64,
) -> Option<(&'a Variable, u64)> {
    let mut at = start;
    for variable in variables {
        let end = at.saturating_add(typed.bytes_of(variable.ty.ty));
        if at <= offset && offset < end {
            return Some((variable, offset - at));
        }
        at = end;
    }
    None
}

// The parameter or local that has the byte at an offset of a frame. Parameters come first.
fn variable_at(typed: &Typed, id: FnId, offset: u64) -> Option<(&Variable, u64)> {
    let FnId::User(number) = id else {
        return None;
    };
    let Some(function) = typed.functions.get(number as usize) else {
        return None;
    };
    match variable_in(typed, &function.params, 0, offset) {
        Some(found) => Some(found),
        None => variable_in(
            typed,
            &function.locals,
            bytes_in(typed, &function.params),
            offset,
        ),
    }
}

// A byte of a frame: that of a variable, or a temporary one.
fn put_frame_byte(out: &mut Html, shown: &Shown<'_>, copy: usize, offset: u64) {
    let Some((copy, frame)) = shown.copy(copy) else {
        return;
    };
    match variable_at(shown.typed, copy.function, offset) {
        Some((variable, rest)) => {
            out.name(&frame.name);
            out.put(".");
            put_offset(
                out,
                &variable.name,
                shown.typed.bytes_of(variable.ty.ty),
                rest,
            );
        }
        None => put_offset(out, &frame.name, 0, offset),
    }
}

fn put_device(out: &mut Html, address: u8) {
    match register_name(address) {
        Some(name) => out.put(name),
        None => out.at("", address as u16),
    }
}

fn put_byte(out: &mut Html, shown: &Shown<'_>, byte: Byte) {
    match byte {
        Byte::Static { object, offset } => {
            if let Some(line) = shown.placed.objects.get(object as usize) {
                put_offset(out, &line.name, line.size as u64, offset as u64);
            }
        }
        Byte::Frame { copy, offset } => put_frame_byte(out, shown, copy as usize, offset as u64),
        Byte::Result { root, k } => {
            out.put("result of ");
            put_offset(out, class_of(root).as_bytes(), 4, k as u64);
        }
        Byte::Device { address } => put_device(out, address),
    }
}

fn put_named(out: &mut Html, shown: &Shown<'_>, byte: Byte) {
    let Some(address) = address_of(shown.placed, byte) else {
        return;
    };
    out.at("<s title=\"at ", address);
    out.put("\">");
    put_byte(out, shown, byte);
    out.put("</s>");
}

fn put_operand(out: &mut Html, shown: &Shown<'_>, operand: Operand) {
    match operand {
        Operand::Byte(byte) => put_named(out, shown, byte),
        Operand::Register(register) => out.put(register_text(register)),
        Operand::Saved(saved) => out.put(saved_text(saved)),
    }
}

// Where the result goes, or which bit it is.
fn put_way(out: &mut Html, word: u16) {
    if word >= 0x1000 {
        out.counted(",", (word / 128 % 8) as u64);
    } else if word >= 0x0200 {
        out.put(if word / 128 % 2 == 1 { ",f" } else { ",w" });
    }
}

// A label is one of the block's own page, or of the start block, which is in page 0.
fn put_target(out: &mut Html, shown: &Shown<'_>, target: Target, at: u16, word: u16) {
    match target {
        Target::Block(name) => out.name(shown.block_name(name)),
        Target::Label(Label::Inner(_)) => out.at("", at / 2048 % 4 * 2048 + word % 2048),
        Target::Label(_) => out.at("", word % 2048),
    }
}

fn put_select(out: &mut Html, word: u16) {
    out.put(if word % 128 == 3 { "STATUS" } else { "PCLATH" });
    put_way(out, word);
}

fn put_others(out: &mut Html, shown: &Shown<'_>, sym: Sym, at: u16, word: u16) {
    match sym {
        Sym::Literal { .. } => {
            out.byte(word);
            out.put("h");
        }
        Sym::Call(target) | Sym::Goto(target) => put_target(out, shown, target, at, word),
        Sym::SelectBank(..) | Sym::SelectPage(..) => put_select(out, word),
        Sym::Table { .. } => out.put("table"),
        _ => {}
    }
}

fn put_instruction(out: &mut Html, shown: &Shown<'_>, sym: Sym, at: u16) {
    let word = shown.image.word(at % 8192);
    out.word(at);
    out.put(" <em>");
    out.word(word);
    out.put("</em> ");
    out.put(instruction_name(word));
    out.put(" ");
    match touches(sym) {
        Some((operand, _)) => {
            put_operand(out, shown, operand);
            put_way(out, word);
        }
        None => put_others(out, shown, sym, at, word),
    }
    out.put("\n");
}

fn put_list(out: &mut Html, shown: &Shown<'_>, list: &[Sym], start: u16) {
    let mut at = start;
    for sym in list {
        if !matches!(sym, Sym::Label(_)) {
            put_instruction(out, shown, *sym, at);
            at = at.saturating_add(1);
        }
    }
}

/// A block's name and size, and its words.
pub fn put_words(out: &mut Html, shown: &Shown<'_>, block: &SymBlock, at: u16) {
    let class = shown.block_class(block.name);
    out.put("<h4 class=\"");
    out.put(class);
    out.put("\">");
    out.name(shown.block_name(block.name));
    out.put(if class == "handler" { ", handler" } else { "" });
    out.at(" <small>from ", at);
    out.counted(", ", real_words(block));
    out.put(" words</small></h4>\n<pre>");
    put_list(out, shown, &block.list, at);
    out.put("</pre>\n");
}
