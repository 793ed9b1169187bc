//! Images of the first chip for the second one.

ghost use Rattle.std.specs.Prelude.{◌≡◌, ◌<◌, ◌≤◌, ◌%◌, ℕ, Option, Some, map, slice_index, true, IfOk};
ghost use Rattle.pic_isa.specs.Lookup.{row_of};
ghost use Rattle.chip_84a.specs.Port.{file_operand as file_operand_of, port_word as port_word_of, IsPorted};

use pic_chip::Image;
use pic_chip::image::WORDS;
use pic_isa::{Ins, decode};
use std::alloc::{AllocError, Global};

/// The image for the second chip: each instruction with a file operand from 70h to 7Fh has the
/// operand that is 64h less, and each other word is the same.
pub fn port(alloc: Global, image: &Image) -> Result<Image, AllocError>
    ensures words { IfOk result (λ ported. ported ≡ map port_word_of image.now) }
    ensures rows { IfOk result (λ ported. IsPorted image.now ported) }
{
    let mut ported = Image::blank(alloc)?;
    for at in 0..WORDS {
        ported.set(at, port_word(image.word(at)));
    }
    Ok(ported)
}

// A word for the second chip.
fn port_word(word: u16) -> u16
    requires { word < 0x4000 }
    ensures value { result ≡ port_word_of word }
    ensures small { result < 0x4000 }
{
    match file_operand(decode(word)) {
        Some(f) if f >= 0x70 => word - 0x64,
        Some(_) | None => word,
    }
}

// The operand of an instruction that has a file register.
fn file_operand(row: Option<Ins>) -> Option<u8>
    ensures { result ≡ file_operand_of row }
{
    match row? {
        Ins::Addwf { f, d }
        | Ins::Andwf { f, d }
        | Ins::Comf { f, d }
        | Ins::Decf { f, d }
        | Ins::Decfsz { f, d } => Some(f),
        Ins::Incf { f, d } | Ins::Incfsz { f, d } | Ins::Iorwf { f, d } | Ins::Movf { f, d } => {
            Some(f)
        }
        Ins::Rlf { f, d }
        | Ins::Rrf { f, d }
        | Ins::Subwf { f, d }
        | Ins::Swapf { f, d }
        | Ins::Xorwf { f, d } => Some(f),
        Ins::Bcf { f, b } | Ins::Bsf { f, b } | Ins::Btfsc { f, b } | Ins::Btfss { f, b } => {
            Some(f)
        }
        Ins::Clrf { f } | Ins::Movwf { f } => Some(f),
        Ins::Clrw | Ins::Clrwdt | Ins::Nop | Ins::Retfie | Ins::Return | Ins::Sleep => None,
        Ins::Addlw { k }
        | Ins::Andlw { k }
        | Ins::Iorlw { k }
        | Ins::Movlw { k }
        | Ins::Retlw { k }
        | Ins::Sublw { k }
        | Ins::Xorlw { k } => None,
        Ins::Call { k } | Ins::Goto { k } => None,
    }
}
