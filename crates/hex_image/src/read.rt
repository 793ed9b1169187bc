//! The image of a HEX file.

ghost use Rattle.std.specs.Prelude.{◌≡◌, ◌<◌, ◌≤◌, ◌^◌, ◌+◌, ◌*◌, ℕ, List, length, Ok, IfOk, IfErr};
ghost use Rattle.hex_image.specs.declared.read.HexError.TheVariants.{NoMemory};
ghost use Rattle.hex_image.specs.HexFile.{IsHexFile, times};
ghost use Rattle.hex_image.specs.Reading as reading;
ghost use Rattle.hex_image.specs.Answers.{Refuses, Gives, GivesImage, IsFilled, told_by, undecoded};
ghost use Rattle.hex_image.specs.Filling.{with_byte};
ghost use Rattle.pic_chip.specs.Words.{AreWords};

use crate::checksum;
use crate::given::{Given, LIMIT};
use hex::FromHexError;
use pic_chip::Image;
use std::alloc::{AllocError, Global};
use text_lines::next_line;
use thiserror::Error;

/// Where the addresses of program memory end: it has 8,192 words, each at two addresses.
const MEMORY_BYTES: u16 = 0x4000;

/// Why a text gives no image. Lines are counted from 1, empty ones too.
#[derive(Clone, Copy, Debug, PartialEq, Eq, Error)]
pub enum HexError {
    /// Out of memory.
    #[error("no memory")]
    NoMemory,
    /// No colon with pairs of digits after it, or not as many bytes as the record counts; or a number of
    /// data bytes that its kind doesn't have.
    #[error("line {line}: bad record")]
    BadRecord { line: u32 },
    /// A record whose sum isn't 0 modulo 256: the checksum that stands there, and the one that makes it 0.
    #[error("line {line}: checksum {found}, wanted {wanted}")]
    Checksum { line: u32, found: u8, wanted: u8 },
    /// A record of a kind other than 00, 01 and 04.
    #[error("line {line}: type {kind}")]
    UnknownType { line: u32, kind: u8 },
    /// A byte at an address from 4400h on.
    #[error("line {line}: outside {address}")]
    Outside { line: u32, address: u32 },
    /// A second byte at one address.
    #[error("line {line}: twice {address}")]
    Twice { line: u32, address: u32 },
    /// No record of kind 01.
    #[error("no end")]
    NoEnd,
}

impl From<AllocError> for HexError {
    ghost from_gives = { λ _ r. r ≡ NoMemory };

    fn from(_error: AllocError) -> HexError {
        HexError::NoMemory
    }
}

/// What a record tells.
enum Record<'a> {
    /// Bytes, and the lower 16 bits of the first one's address.
    Data { address: u16, bytes: &'a [u8] },
    /// The file ends.
    End,
    /// The upper 16 bits of the addresses that follow.
    Upper(u16),
}

/// The image of a HEX file (Intel, Hexadecimal Object File Format Specification; kinds 00, 01 and 04).
/// Digits may be of either case, and a CR before a line's end is no part of the line. Bytes from 4000h on,
/// which aren't program memory, are dropped.
#[tactic(auto, using(crate::proofs::Found::found, crate::proofs::Found::only, crate::proofs::Found::refused))]
pub fn read_hex(alloc: Global, bytes: &[u8]) -> Result<Image, HexError>
    requires { length bytes.now < 2 ^ 32 }
    // What is read is a HEX file of the image.
    ensures found { IfOk result (λ image. IsHexFile bytes.now image) }
    // What is a HEX file is read, unless memory runs out.
    ensures only { (image : List ℕ) → IsHexFile bytes.now image → Gives (λ i. i) result (Ok image) }
    // An error tells the first record that breaks a check, and the first check that it breaks.
    ensures refused { IfErr result (λ error. Refuses error (reading.reading_of bytes.now)) }
{
    read_image(alloc, bytes)
}

fn read_image(alloc: Global, bytes: &[u8]) -> Result<Image, HexError>
    requires { length bytes.now < 2 ^ 32 }
    ensures exact { GivesImage result bytes.now }
{
    let given = read_lines(alloc, bytes)?;
    Ok(filled(alloc, given.bytes())?)
}

fn read_lines(alloc: Global, bytes: &[u8]) -> Result<Given, HexError>
    requires { length bytes.now < 2 ^ 32 }
    ensures exact { Gives (λ given. given) result (reading.reading_of bytes.now) }
{
    let mut given = Given::nothing(alloc)?;
    let mut upper = 0u16;
    let mut before = 0u32;
    let mut rest = bytes;
    while let Some((line, behind)) = next_line(rest) {
        match take_line(alloc, &mut given, upper, before + 1, line)? {
            Some(next) => upper = next,
            None => return Ok(given),
        }
        before += 1;
        rest = behind;
    }
    Err(HexError::NoEnd)
}

/// Reads a line. Answers the upper 16 bits of the addresses after it, or `None` where it ends the file.
fn take_line(
    alloc: Global,
    given: &mut Given,
    upper: u16,
    number: u32,
    line: &[u8],
) -> Result<Option<u16>, HexError>
    ensures { Gives (λ next. (next, given.new)) result (reading.after_line number upper given.old line.now) }
{
    let [first, digits @ ..] = line else {
        return Ok(Some(upper));
    };
    let bytes = line_bytes(alloc, number, *first, digits)?;
    match record_of(number, &bytes)? {
        Record::End => Ok(None),
        Record::Upper(upper) => Ok(Some(upper)),
        Record::Data { address, bytes } => {
            place(given, number, 65536 * upper as u32 + address as u32, bytes)?;
            Ok(Some(upper))
        }
    }
}

/// The bytes of a line: a colon, and pairs of digits.
fn line_bytes(alloc: Global, number: u32, first: u8, digits: &[u8]) -> Result<Vec<u8>, HexError>
    ensures { Gives (λ bytes. bytes.items) result (reading.line_bytes number first digits.now) }
{
    if first != b':' {
        return Err(HexError::BadRecord { line: number });
    }
    match hex::decode(alloc, digits) {
        Ok(bytes) => Ok(bytes),
        Err(error) => Err(undecoded(number, error)),
    }
}

fn undecoded(number: u32, error: FromHexError) -> HexError
    ensures { result ≡ undecoded number error }
{
    match error {
        FromHexError::OutOfMemory => HexError::NoMemory,
        _ => HexError::BadRecord { line: number },
    }
}

/// What the bytes of a record tell, or the first check that they fail.
#[tactic(auto, using(crate::proofs::Pairs::short))]
fn record_of(number: u32, bytes: &[u8]) -> Result<Record, HexError>
    ensures { Gives told_by result (reading.record_of number bytes.now) }
{
    let [count, high, low, kind, rest @ ..] = bytes else {
        return Err(HexError::BadRecord { line: number });
    };
    if rest.len() != *count as usize + 1 {
        return Err(HexError::BadRecord { line: number });
    }
    if checksum(bytes) != 0 {
        return Err(wrong_sum(number, bytes));
    }
    let address = 256 * *high as u16 + *low as u16;
    told(number, *kind, address, &rest[..*count as usize])
}

fn wrong_sum(number: u32, bytes: &[u8]) -> HexError
    requires { 0 < length bytes.now }
    ensures { result ≡ reading.wrong_sum number bytes.now }
{
    let last = bytes.len() - 1;
    HexError::Checksum {
        line: number,
        found: bytes[last],
        wanted: checksum(&bytes[..last]),
    }
}

/// What a kind with its address and data tells.
fn told(number: u32, kind: u8, address: u16, bytes: &[u8]) -> Result<Record, HexError>
    ensures { Gives told_by result (reading.told number kind address bytes.now) }
{
    match kind {
        0 => Ok(Record::Data { address, bytes }),
        1 => match bytes {
            [] => Ok(Record::End),
            _ => Err(HexError::BadRecord { line: number }),
        },
        4 => match bytes {
            [high, low] => Ok(Record::Upper(256 * *high as u16 + *low as u16)),
            _ => Err(HexError::BadRecord { line: number }),
        },
        _ => Err(HexError::UnknownType { line: number, kind }),
    }
}

/// Gives bytes from an address on, each below 4400h and where none was given.
#[tactic(auto, unfolding(crate::specs::Reading::placed))]
fn place(given: &mut Given, number: u32, address: u32, bytes: &[u8]) -> Result<(), HexError>
    ensures { Gives (λ _. given.new) result (reading.placed number given.old address bytes.now) }
{
    let mut at = address;
    let mut left = bytes;
    while let [byte, rest @ ..] = left {
        if at >= LIMIT as u32 {
            return Err(HexError::Outside {
                line: number,
                address: at,
            });
        }
        if given.holds(at as u16) {
            return Err(HexError::Twice {
                line: number,
                address: at,
            });
        }
        given.put(at as u16, *byte)?;
        at += 1;
        left = rest;
    }
    Ok(())
}

/// The image of which each byte below 4000h is the given one, or erased.
#[tactic(auto, using(crate::proofs::Filled::blank_filled))]
fn filled(alloc: Global, given: &[(u16, u8)]) -> Result<Image, AllocError>
    requires once { (a : ℕ) → times given.now a ≤ 1 }
    ensures { IfOk result (λ image. IsFilled given.now image) }
{
    let mut image = Image::blank(alloc)?;
    for (address, byte) in given {
        if *address < MEMORY_BYTES {
            put_byte(&mut image, *address, *byte);
        }
    }
    Ok(image)
}

/// Puts the low byte of a word at an even address, and what it has of the high byte, six bits, at an odd one.
fn put_byte(image: &mut Image, address: u16, byte: u8)
    requires { address < 0x4000 }
    ensures value { image.new ≡ with_byte image.old address byte }
    ensures words { AreWords image.new }
{
    let at = address / 2;
    let word = image.word(at);
    if address % 2 == 0 {
        image.set(at, 256 * (word / 256) + byte as u16);
    } else {
        image.set(at, 256 * (byte as u16 % 64) + word % 256);
    }
}
