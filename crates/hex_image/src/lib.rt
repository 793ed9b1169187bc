//! Intel HEX files of program memory.
//!
//! In: an image, or the text of a HEX file. Out: the text of the image's HEX file; the image of the file, or where the text
//! first breaks the format, and what is printed of that.
//! The promise: what is written is the one fixed form of that image, and by the rules of the format it is a file of that
//! image and of no other. A text is read exactly where it is a HEX file, and what is read is its image.
#![tactic(auto)]

ghost use Rattle.std.specs.Prelude.{◌≡◌, ◌<◌, ◌↔◌, ◌++◌, ◌∷◌, [], ℕ, List, OnOk, IfOk, length};
ghost use Rattle.hex_image.specs.HexFile.{IsHexFile};
ghost use Rattle.hex_image.specs.Answers.{IsReadAs};
ghost use Rattle.hex_image.specs.HexText as spec;
ghost use Rattle.text_lines.specs.Text.{hex_pairs};
ghost use Rattle.pic_chip.specs.Words.{AreWords};

mod fault;
mod given;
mod read;

pub use fault::{fault_line, fault_text};
use pic_chip::Image;
use pic_chip::image::BLANK;
pub use read::{HexError, read_hex};
use std::alloc::{AllocError, Global};

/// How many words a record holds.
const BLOCK: u16 = 8;

/// How many data bytes a record holds.
const DATA_BYTES: u8 = 16;

/// How many blocks program memory has.
const BLOCKS: u16 = 1024;

/// The HEX text of an image: one record of kind 04, then for each eight words from a multiple of
/// 8 that aren't all erased one record of 16 bytes, then the end record. Digits are upper case,
/// and lines end at LF (Intel, Hexadecimal Object File Format Specification).
#[tactic(auto, using(crate::proofs::Written::blocks_on, crate::proofs::Written::whole))]
pub fn write_hex(alloc: Global, image: &Image) -> Result<Vec<u8>, AllocError>
    ensures text { IfOk result (λ text. text.items ≡ spec.hex_text image.now) }
    ensures file { IfOk result (λ text. IsHexFile text.items image.now) }
{
    let mut text = Vec::new(alloc);
    text.extend_from_slice(b":020000040000FA\n")?;
    for k in 0..BLOCKS {
        push_block(alloc, &mut text, &block(image, k), k)?;
    }
    text.extend_from_slice(b":00000001FF\n")?;
    Ok(text)
}

/// By the rules of the format each text has one content at most.
pub fn one_content()
    ensures { (text : List ℕ) (a b : List ℕ) → IsHexFile text a → IsHexFile text b → a ≡ b }
{}

/// The reading by whose errors a text is refused finds exactly the HEX files, and the image of each. So it reads what is
/// written as the image that was written.
#[tactic(auto, using(crate::proofs::Found::is_file, crate::proofs::Found::is_read, crate::proofs::Found::written_read))]
pub fn exact_reading()
    ensures files { (text image : List ℕ) → (IsReadAs text image) ↔ (IsHexFile text image) }
    ensures written { (image : List ℕ) → AreWords image → IsReadAs (spec.hex_text image) image }
{}

fn block(image: &Image, k: u16) -> [u16; 8]
    requires { k < 1024 }
    ensures words { AreWords image.now }
    ensures value { result ≡ spec.block image.now k }
{
    let at = BLOCK * k;
    [
        image.word(at),
        image.word(at + 1),
        image.word(at + 2),
        image.word(at + 3),
        image.word(at + 4),
        image.word(at + 5),
        image.word(at + 6),
        image.word(at + 7),
    ]
}

#[tactic(auto, using(crate::proofs::Written::nothing_behind), unfolding(crate::specs::HexText::block_text))]
fn push_block(alloc: Global, text: &mut Vec<u8>, words: &[u16], k: u16) -> Result<(), AllocError>
    requires { k < 1024 }
    ensures { OnOk result (text.new.items ≡ text.old.items ++ spec.block_text words.now k) }
{
    if is_erased(words) {
        return Ok(());
    }
    let bytes = block_bytes(alloc, words, k)?;
    push_record(alloc, text, &bytes)
}

fn is_erased(words: &[u16]) -> bool
    ensures { result ≡ spec.is_erased words.now }
{
    words.iter().all(|w| *w == BLANK)
}

#[tactic(auto, using(crate::proofs::Bytes::words_on), unfolding(crate::specs::HexText::word_bytes))]
fn block_bytes(alloc: Global, words: &[u16], k: u16) -> Result<Vec<u8>, AllocError>
    requires { k < 1024 }
    ensures { IfOk result (λ bytes. bytes.items ≡ spec.block_bytes words.now k) }
{
    let address = 2 * BLOCK * k;
    let mut bytes = Vec::new(alloc);
    bytes.extend_from_slice(&[DATA_BYTES, (address / 256) as u8, (address % 256) as u8, 0])?;
    for word in words {
        bytes.extend_from_slice(&[(*word % 256) as u8, (*word / 256) as u8])?;
    }
    Ok(bytes)
}

#[tactic(auto, using(crate::proofs::Written::record_parts))]
fn push_record(alloc: Global, text: &mut Vec<u8>, bytes: &[u8]) -> Result<(), AllocError>
    ensures { OnOk result (text.new.items ≡ text.old.items ++ spec.record_line bytes.now) }
{
    text.push(b':')?;
    push_pairs(alloc, text, bytes)?;
    push_pairs(alloc, text, &[checksum(bytes)])?;
    text.push(b'\n')?;
    Ok(())
}

#[tactic(auto, using(crate::proofs::Digits::pairs_upper))]
fn push_pairs(alloc: Global, text: &mut Vec<u8>, bytes: &[u8]) -> Result<(), AllocError>
    ensures { OnOk result (text.new.items ≡ text.old.items ++ hex_pairs bytes.now) }
{
    let digits = hex::encode_upper(alloc, bytes)?;
    text.extend_from_slice(digits.as_bytes())
}

fn checksum(bytes: &[u8]) -> u8
    ensures { result ≡ spec.checksum bytes.now }
{
    let mut sum = 0u8;
    for byte in bytes {
        sum = sum.wrapping_add(*byte);
    }
    0u8.wrapping_sub(sum)
}
