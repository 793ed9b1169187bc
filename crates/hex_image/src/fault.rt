//! What is printed of the check that a HEX file fails.

ghost use Rattle.std.specs.Prelude.{◌≡◌, ◌++◌, ◌∷◌, [], codes, IfOk};
ghost use Rattle.text_lines.specs.Text.{hex_pairs};
ghost use Rattle.hex_image.specs.Faults as stated;

use crate::push_pairs;
use crate::read::HexError;
use std::alloc::{AllocError, Global};

/// The line at which the check fails, counted from 1, or 0 where the file has no end.
pub fn fault_line(error: &HexError) -> u32
    ensures { result ≡ stated.fault_line error.now }
{
    match error {
        HexError::NoMemory | HexError::NoEnd => 0,
        HexError::BadRecord { line } => *line,
        HexError::Checksum { line, .. } => *line,
        HexError::UnknownType { line, .. } => *line,
        HexError::Outside { line, .. } => *line,
        HexError::Twice { line, .. } => *line,
    }
}

/// What is said of the check, with numbers in upper case digits of base 16: `bad record`, `checksum HH, wanted HH`, `type HH`,
/// `outside HHHHHHHH`, `twice HHHHHHHH` or `no end`. Of want of memory nothing is said.
pub fn fault_text(alloc: Global, error: &HexError) -> Result<Vec<u8>, AllocError>
    ensures { IfOk result (λ text. text.items ≡ stated.fault_text error.now) }
{
    match error {
        HexError::NoMemory => Ok(Vec::new(alloc)),
        HexError::BadRecord { .. } => Vec::from_slice(alloc, b"bad record"),
        HexError::Checksum { found, wanted, .. } => checksum_text(alloc, *found, *wanted),
        HexError::UnknownType { kind, .. } => kind_text(alloc, *kind),
        HexError::Outside { address, .. } => address_text(alloc, b"outside ", *address),
        HexError::Twice { address, .. } => address_text(alloc, b"twice ", *address),
        HexError::NoEnd => Vec::from_slice(alloc, b"no end"),
    }
}

fn checksum_text(alloc: Global, found: u8, wanted: u8) -> Result<Vec<u8>, AllocError>
    ensures { IfOk result (λ text. text.items ≡ stated.checksum_text found wanted) }
{
    let mut text = Vec::from_slice(alloc, b"checksum ")?;
    push_pairs(alloc, &mut text, &[found])?;
    text.extend_from_slice(b", wanted ")?;
    push_pairs(alloc, &mut text, &[wanted])?;
    Ok(text)
}

fn kind_text(alloc: Global, kind: u8) -> Result<Vec<u8>, AllocError>
    ensures { IfOk result (λ text. text.items ≡ codes "type " ++ hex_pairs (kind ∷ [])) }
{
    let mut text = Vec::from_slice(alloc, b"type ")?;
    push_pairs(alloc, &mut text, &[kind])?;
    Ok(text)
}

fn address_text(alloc: Global, word: &[u8], address: u32) -> Result<Vec<u8>, AllocError>
    ensures { IfOk result (λ text. text.items ≡ stated.address_text word.now address) }
{
    let mut text = Vec::from_slice(alloc, word)?;
    let bytes = [
        (address / 16_777_216) as u8,
        (address / 65_536 % 256) as u8,
        (address / 256 % 256) as u8,
        (address % 256) as u8,
    ];
    push_pairs(alloc, &mut text, &bytes)?;
    Ok(text)
}
