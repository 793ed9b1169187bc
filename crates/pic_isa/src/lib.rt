//! The instructions of the PIC16F877A and their words (Microchip data sheet DS39582).
//!
//! In: a word of program memory, or an instruction. Out: the instruction, or the word.
//! The promise: `decode` gives exactly the row of the data sheet's table that has the word, and
//! `None` exactly where no row has it; `encode` gives the row's word with every free bit 0.
#![tactic(auto)]

ghost use Rattle.std.specs.Prelude.{◌≡◌, ◌≤◌, ◌↔◌, ◌+◌, ◌*◌, ◌/◌, ◌%◌, ◌<◌, Option, Some, None, IfSome, IfNone, if◌then◌else◌, slice_index_or};
ghost use Rattle.pic_isa.specs.Table.{word_of, HasWord, IsWellFormed, IsRowOf};
ghost use Rattle.pic_isa.specs.Lookup.{row_of, control_row, byte_rows, bit_rows, jump_rows, literal_rows, no_row};

/// An instruction: a row of the table, with its fields. `f` is a register's low seven address
/// bits, `d` says that the result goes to the register and not to W, `b` is a bit below 8, and
/// `k` is a literal below 256, or a target below 2,048 in `Call` and `Goto`.
#[derive(Clone, Copy, PartialEq, Eq, Debug)]
pub enum Ins {
    Addwf { f: u8, d: bool },
    Andwf { f: u8, d: bool },
    Clrf { f: u8 },
    Clrw,
    Comf { f: u8, d: bool },
    Decf { f: u8, d: bool },
    Decfsz { f: u8, d: bool },
    Incf { f: u8, d: bool },
    Incfsz { f: u8, d: bool },
    Iorwf { f: u8, d: bool },
    Movf { f: u8, d: bool },
    Movwf { f: u8 },
    Nop,
    Rlf { f: u8, d: bool },
    Rrf { f: u8, d: bool },
    Subwf { f: u8, d: bool },
    Swapf { f: u8, d: bool },
    Xorwf { f: u8, d: bool },
    Bcf { f: u8, b: u8 },
    Bsf { f: u8, b: u8 },
    Btfsc { f: u8, b: u8 },
    Btfss { f: u8, b: u8 },
    Addlw { k: u16 },
    Andlw { k: u16 },
    Call { k: u16 },
    Clrwdt,
    Goto { k: u16 },
    Iorlw { k: u16 },
    Movlw { k: u16 },
    Retfie,
    Retlw { k: u16 },
    Return,
    Sleep,
    Sublw { k: u16 },
    Xorlw { k: u16 },
}

fn byte_word(base: u16, f: u8, d: bool) -> u16
    requires base { base < 0x1000 }
    requires f { f < 128 }
    ensures { result ≡ base + (if d then 128 else 0) + f }
{
    base + if d { 0x80 } else { 0 } + f as u16
}

fn bit_word(base: u16, f: u8, b: u8) -> u16
    requires base { base < 0x2000 }
    requires f { f < 128 }
    requires b { b < 8 }
    ensures { result ≡ base + 128 * b + f }
{
    base + (b as u16) * 0x80 + f as u16
}

/// The row's word, with every free bit 0; each field must fit its bits. Decoding it gives the
/// instruction again.
pub fn encode(i: Ins) -> u16
    requires { IsWellFormed i }
    ensures word { result ≡ word_of i }
    ensures range { result < 0x4000 }
    ensures row { HasWord i result }
    ensures again { row_of result ≡ Some i }
{
    own_word(i)
}

fn own_word(i: Ins) -> u16
    requires { IsWellFormed i }
    ensures word { result ≡ word_of i }
    ensures range { result < 0x4000 }
{
    match i {
        Ins::Addwf { f, d } => byte_word(0x0700, f, d),
        Ins::Andwf { f, d } => byte_word(0x0500, f, d),
        Ins::Clrf { f } => byte_word(0x0100, f, true),
        Ins::Clrw => 0x0100,
        Ins::Comf { f, d } => byte_word(0x0900, f, d),
        Ins::Decf { f, d } => byte_word(0x0300, f, d),
        Ins::Decfsz { f, d } => byte_word(0x0b00, f, d),
        Ins::Incf { f, d } => byte_word(0x0a00, f, d),
        Ins::Incfsz { f, d } => byte_word(0x0f00, f, d),
        Ins::Iorwf { f, d } => byte_word(0x0400, f, d),
        Ins::Movf { f, d } => byte_word(0x0800, f, d),
        Ins::Movwf { f } => byte_word(0, f, true),
        Ins::Nop => 0,
        Ins::Rlf { f, d } => byte_word(0x0d00, f, d),
        Ins::Rrf { f, d } => byte_word(0x0c00, f, d),
        Ins::Subwf { f, d } => byte_word(0x0200, f, d),
        Ins::Swapf { f, d } => byte_word(0x0e00, f, d),
        Ins::Xorwf { f, d } => byte_word(0x0600, f, d),
        Ins::Bcf { f, b } => bit_word(0x1000, f, b),
        Ins::Bsf { f, b } => bit_word(0x1400, f, b),
        Ins::Btfsc { f, b } => bit_word(0x1800, f, b),
        Ins::Btfss { f, b } => bit_word(0x1c00, f, b),
        Ins::Addlw { k } => 0x3e00 + k,
        Ins::Andlw { k } => 0x3900 + k,
        Ins::Call { k } => 0x2000 + k,
        Ins::Clrwdt => 0x0064,
        Ins::Goto { k } => 0x2800 + k,
        Ins::Iorlw { k } => 0x3800 + k,
        Ins::Movlw { k } => 0x3000 + k,
        Ins::Retfie => 0x0009,
        Ins::Retlw { k } => 0x3400 + k,
        Ins::Return => 0x0008,
        Ins::Sleep => 0x0063,
        Ins::Sublw { k } => 0x3c00 + k,
        Ins::Xorlw { k } => 0x3a00 + k,
    }
}

/// The instruction of a word below 4000h, or `None` exactly where no row of the table has it.
pub fn decode(word: u16) -> Option<Ins>
    requires { word < 0x4000 }
    ensures row { (i : Ins) → (result ≡ Some i) ↔ (IsWellFormed i × HasWord i word) }
    ensures none { IfNone result ((i : Ins) → IsWellFormed i → HasWord i word → ⊥) }
    ensures same { result ≡ row_of word }
{
    decode_word(word)
}

fn decode_word(word: u16) -> Option<Ins>
    requires { word < 0x4000 }
    ensures same { result ≡ row_of word }
    ensures row { IfSome result (IsRowOf word) }
{
    match word / 4096 {
        0 => byte_ins(word),
        1 => bit_ins(word),
        2 => jump_ins(word),
        _ => literal_ins(word),
    }
}

fn byte_ins(word: u16) -> Option<Ins>
    requires { word < 0x1000 }
    ensures same { result ≡ slice_index_or byte_rows (word / 256) no_row word }
    ensures row { IfSome result (IsRowOf word) }
{
    let f = (word % 128) as u8;
    let d = word / 128 % 2 == 1;
    match word / 256 {
        0 => control_ins(word),
        1 => if d {
            Some(Ins::Clrf { f })
        } else {
            Some(Ins::Clrw)
        },
        2 => Some(Ins::Subwf { f, d }),
        3 => Some(Ins::Decf { f, d }),
        4 => Some(Ins::Iorwf { f, d }),
        5 => Some(Ins::Andwf { f, d }),
        6 => Some(Ins::Xorwf { f, d }),
        7 => Some(Ins::Addwf { f, d }),
        8 => Some(Ins::Movf { f, d }),
        9 => Some(Ins::Comf { f, d }),
        10 => Some(Ins::Incf { f, d }),
        11 => Some(Ins::Decfsz { f, d }),
        12 => Some(Ins::Rrf { f, d }),
        13 => Some(Ins::Rlf { f, d }),
        14 => Some(Ins::Swapf { f, d }),
        _ => Some(Ins::Incfsz { f, d }),
    }
}

fn control_ins(word: u16) -> Option<Ins>
    requires { word < 0x100 }
    ensures same { result ≡ control_row word }
    ensures row { IfSome result (IsRowOf word) }
{
    if word > 127 {
        return Some(Ins::Movwf {
            f: (word % 128) as u8,
        });
    }
    match word {
        0x08 => Some(Ins::Return),
        0x09 => Some(Ins::Retfie),
        0x63 => Some(Ins::Sleep),
        0x64 => Some(Ins::Clrwdt),
        _ => if word % 32 == 0 { Some(Ins::Nop) } else { None },
    }
}

fn bit_ins(word: u16) -> Option<Ins>
    requires low { 0x1000 ≤ word }
    requires high { word < 0x2000 }
    ensures same { result ≡ slice_index_or bit_rows (word / 1024 % 4) no_row word }
    ensures row { IfSome result (IsRowOf word) }
{
    let f = (word % 128) as u8;
    let b = (word / 128 % 8) as u8;
    match word / 1024 % 4 {
        0 => Some(Ins::Bcf { f, b }),
        1 => Some(Ins::Bsf { f, b }),
        2 => Some(Ins::Btfsc { f, b }),
        _ => Some(Ins::Btfss { f, b }),
    }
}

fn jump_ins(word: u16) -> Option<Ins>
    requires low { 0x2000 ≤ word }
    requires high { word < 0x3000 }
    ensures same { result ≡ slice_index_or jump_rows (word / 2048 % 2) no_row word }
    ensures row { IfSome result (IsRowOf word) }
{
    let k = word % 2048;
    match word / 2048 % 2 {
        0 => Some(Ins::Call { k }),
        _ => Some(Ins::Goto { k }),
    }
}

fn literal_ins(word: u16) -> Option<Ins>
    requires low { 0x3000 ≤ word }
    requires high { word < 0x4000 }
    ensures same { result ≡ slice_index_or literal_rows (word / 256 % 16) no_row word }
    ensures row { IfSome result (IsRowOf word) }
{
    let k = word % 256;
    match word / 256 % 16 {
        0 | 1 | 2 | 3 => Some(Ins::Movlw { k }),
        4 | 5 | 6 | 7 => Some(Ins::Retlw { k }),
        8 => Some(Ins::Iorlw { k }),
        9 => Some(Ins::Andlw { k }),
        10 => Some(Ins::Xorlw { k }),
        11 => None,
        12 | 13 => Some(Ins::Sublw { k }),
        _ => Some(Ins::Addlw { k }),
    }
}
