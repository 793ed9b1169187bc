//! The map of a text.

ghost use Rattle.std.specs.Prelude.{◌≡◌, ◌<◌, ◌≤◌, ◌++◌, ◌+◌, ◌^◌, ◌∷◌, [], ℕ, length, map, Some, None, Ok, IfOk, IfSome, IfNone, IsSome, MatchOption};
ghost use Rattle.std.specs.Option.{option_map};
ghost use Rattle.pic_map.specs.MapView.{content_of, object_of, frame_of};
ghost use Rattle.pic_map.specs.Reading as reading;
ghost use Rattle.pic_map.specs.MapFile.{IsMapFile, is_name_byte};
ghost use Rattle.pic_map.specs.Answers.{GivesMap, TellsBadLine, reading_of};
ghost use Rattle.pic_map.specs.MapContent.{MapContent};
ghost use Rattle.pic_map.specs.MapText.{AreInRange};
ghost use Rattle.text_lines.specs.Text.{lines_of, digit_value as value_of, bytes_of, without_cr};

use crate::{FrameLine, Map, ObjLine};
use pic_world::Root;
use std::alloc::{AllocError, Global};
use text_lines::{digit_value, next_line};
use thiserror::Error;

/// Which line a map file may have next. The object lines come before the frame lines, and `end` after
/// them.
#[derive(Clone, Copy, PartialEq, Eq)]
pub enum Stage {
    Heading,
    MainPoint,
    HaltPoint,
    Objects,
    Frames,
    Ended,
}

/// A name with an address of data memory and a size.
#[derive(Clone, Copy)]
struct NameAndPlace<'a> {
    name: &'a [u8],
    address: u16,
    size: u16,
}

/// Why a text gives no map.
#[derive(Debug, Drop, Error)]
pub enum MapError {
    /// Out of memory.
    #[error("no memory")]
    NoMemory,
    /// The first line that no map file has there, counted from 1. A missing line has the number after
    /// the last.
    #[error("line {line}: bad line")]
    BadLine { line: u32 },
}

/// The map of a map file. Digits may be of either case, a CR before a line's end is no part of the line,
/// and the last line may end at the end of the text.
#[tactic(auto, using(crate::proofs::Given::found, crate::proofs::Given::only, crate::proofs::Given::ranges, crate::proofs::BadLine::bad_line))]
pub fn read_map(alloc: Global, bytes: &[u8]) -> Result<Map, MapError>
    requires { length bytes.now < 2 ^ 32 }
    // What is read is a map file of what is told.
    ensures found { IfOk result (λ map. IsMapFile bytes.now (content_of map)) }
    // What is a map file is read, unless memory runs out.
    ensures only { (content : MapContent) → IsMapFile bytes.now content → GivesMap result (Ok content) }
    // What is read can be written.
    ensures ranges { IfOk result (λ map. AreInRange (content_of map)) }
    // A line that is told is the first that is wrong.
    ensures bad_line { TellsBadLine result bytes.now }
{
    read_lines(alloc, bytes)
}

#[tactic(auto, using(crate::proofs::Going::step_some, crate::proofs::Going::step_none, crate::proofs::Going::counted))]
fn read_lines(alloc: Global, bytes: &[u8]) -> Result<Map, MapError>
    requires { length bytes.now < 2 ^ 32 }
    ensures exact { GivesMap result (reading_of bytes.now) }
{
    let mut map = Map {
        main: 0,
        halt: 0,
        objects: Vec::new(alloc),
        frames: Vec::new(alloc),
    };
    let mut stage = Stage::Heading;
    let mut number = 1u32;
    let mut rest = bytes;
    while let Some((line, behind)) = next_line(rest) {
        let Ok(next) = take_line(alloc, &mut map, stage, line) else {
            return Err(MapError::NoMemory);
        };
        let Some(next) = next else {
            return Err(MapError::BadLine { line: number });
        };
        stage = next;
        number += 1;
        rest = behind;
    }
    match stage {
        Stage::Ended => Ok(map),
        _ => Err(MapError::BadLine { line: number }),
    }
}

/// Reads a line into the map, and answers which stage comes after it.
#[tactic(auto, unfolding(crate::specs::Reading::after_line))]
pub fn take_line(
    alloc: Global,
    map: &mut Map,
    stage: Stage,
    line: &[u8],
) -> Result<Option<Stage>, AllocError>
    ensures { IfOk result (λ next. reading.after_line stage (content_of map.old) line.now ≡ option_map (λ s. (s, content_of map.new)) next) }
{
    match stage {
        Stage::Heading => Ok(if line == b"picc map 1".as_slice() {
            Some(Stage::MainPoint)
        } else {
            None
        }),
        Stage::MainPoint => {
            let Some(main) = point(b"main ", line) else {
                return Ok(None);
            };
            map.main = main;
            Ok(Some(Stage::HaltPoint))
        }
        Stage::HaltPoint => {
            let Some(halt) = point(b"halt ", line) else {
                return Ok(None);
            };
            map.halt = halt;
            Ok(Some(Stage::Objects))
        }
        Stage::Objects => take_object(alloc, map, line),
        Stage::Frames => take_frame(alloc, map, line),
        Stage::Ended => Ok(None),
    }
}

fn take_object(alloc: Global, map: &mut Map, line: &[u8]) -> Result<Option<Stage>, AllocError>
    ensures { IfOk result (λ next. reading.object_next (reading.object_of line.now) (content_of map.old) line.now ≡ option_map (λ s. (s, content_of map.new)) next) }
{
    let Some(object) = object_line(alloc, line)? else {
        return take_frame(alloc, map, line);
    };
    map.objects.push(object)?;
    Ok(Some(Stage::Objects))
}

fn take_frame(alloc: Global, map: &mut Map, line: &[u8]) -> Result<Option<Stage>, AllocError>
    ensures { IfOk result (λ next. reading.frame_next (reading.frame_of line.now) (content_of map.old) line.now ≡ option_map (λ s. (s, content_of map.new)) next) }
{
    let Some(frame) = frame_line(alloc, line)? else {
        return Ok(if line == b"end".as_slice() {
            Some(Stage::Ended)
        } else {
            None
        });
    };
    map.frames.push(frame)?;
    Ok(Some(Stage::Frames))
}

#[tactic(auto, unfolding(crate::specs::Reading::object_of, text_lines::specs::Front::after))]
fn object_line(alloc: Global, line: &[u8]) -> Result<Option<ObjLine>, AllocError>
    ensures { IfOk result (λ object. reading.object_of line.now ≡ option_map object_of object) }
{
    if let Some(text) = line.strip_prefix(b"static ") {
        return object(alloc, false, text);
    }
    if let Some(text) = line.strip_prefix(b"const ") {
        return object(alloc, true, text);
    }
    Ok(None)
}

fn object(alloc: Global, fixed: bool, text: &[u8]) -> Result<Option<ObjLine>, AllocError>
    ensures { IfOk result (λ object. reading.object_with fixed (reading.placed_of text.now) ≡ option_map object_of object) }
{
    let Some(
        NameAndPlace {
            name,
            address,
            size,
        },
    ) = name_and_place(text)
    else {
        return Ok(None);
    };
    Ok(Some(ObjLine {
        fixed,
        name: Vec::from_slice(alloc, name)?,
        address,
        size,
    }))
}

#[tactic(auto, unfolding(crate::specs::Reading::frame_of, text_lines::specs::Front::after))]
fn frame_line(alloc: Global, line: &[u8]) -> Result<Option<FrameLine>, AllocError>
    ensures { IfOk result (λ frame. reading.frame_of line.now ≡ option_map frame_of frame) }
{
    if let Some(text) = line.strip_prefix(b"frame main ") {
        return frame(alloc, Root::Main, text);
    }
    if let Some(text) = line.strip_prefix(b"frame isr ") {
        return frame(alloc, Root::Isr, text);
    }
    Ok(None)
}

fn frame(alloc: Global, root: Root, text: &[u8]) -> Result<Option<FrameLine>, AllocError>
    ensures { IfOk result (λ frame. reading.frame_with root (reading.placed_of text.now) ≡ option_map frame_of frame) }
{
    let Some(
        NameAndPlace {
            name,
            address,
            size,
        },
    ) = name_and_place(text)
    else {
        return Ok(None);
    };
    Ok(Some(FrameLine {
        root,
        name: Vec::from_slice(alloc, name)?,
        address,
        size,
    }))
}

/// The address after a word, below 2000h.
#[tactic(auto, unfolding(crate::specs::Reading::point_of, text_lines::specs::Front::after))]
fn point(word: &[u8], line: &[u8]) -> Option<u16>
    ensures { result ≡ reading.point_of word.now line.now }
{
    let [a, b, c, d] = line.strip_prefix(word)? else {
        return None;
    };
    address(0x2000, *a, *b, *c, *d)
}

#[tactic(auto, unfolding(crate::specs::Reading::placed_of))]
fn name_and_place(text: &[u8]) -> Option<NameAndPlace>
    ensures { reading.placed_of text.now ≡ option_map (λ p. record { name = p.name.now; address = p.address; size = p.size }) result }
{
    let length = name_length(text);
    if length == 0 {
        return None;
    }
    let (name, tail) = text.split_at(length);
    let (address, size) = place(tail)?;
    Some(NameAndPlace {
        name,
        address,
        size,
    })
}

/// How many bytes at the front are letters, digits, `_`, `.` or `$`.
#[tactic(auto, unfolding(crate::specs::Reading::name_length))]
fn name_length(text: &[u8]) -> usize
    ensures value { result ≡ reading.name_length text.now }
    ensures within { result ≤ length text.now }
{
    let mut count = 0;
    let mut left = text;
    while let [first, rest @ ..] = left {
        if !is_name_byte(*first) {
            return count;
        }
        count += 1;
        left = rest;
    }
    count
}

fn is_name_byte(byte: u8) -> bool
    ensures { result ≡ is_name_byte byte }
{
    byte.is_ascii_alphanumeric() || byte == b'_' || byte == b'.' || byte == b'$'
}

/// After a name: a space, an address below 200h, a space and a size.
#[tactic(auto, unfolding(crate::specs::Reading::place_of))]
fn place(tail: &[u8]) -> Option<(u16, u16)>
    ensures { result ≡ reading.place_of tail.now }
{
    let [first, a, b, c, d, second, digits @ ..] = tail else {
        return None;
    };
    if *first != b' ' || *second != b' ' {
        return None;
    }
    Some((address(0x200, *a, *b, *c, *d)?, size(digits)?))
}

/// The number of four hexadecimal digits of either case, below a limit.
#[tactic(auto, unfolding(text_lines::specs::Text::bytes_of))]
fn address(limit: u16, a: u8, b: u8, c: u8, d: u8) -> Option<u16>
    ensures { result ≡ reading.address_of limit (a ∷ b ∷ c ∷ d ∷ []) }
{
    let high = 16 * digit_value(a)? + digit_value(b)?;
    let low = 16 * digit_value(c)? + digit_value(d)?;
    let number = 256 * high + low;
    if number < limit { Some(number) } else { None }
}

/// A number of one to three digits without leading zeros, 0 to 352.
#[tactic(auto, unfolding(crate::specs::Reading::size_of))]
fn size(digits: &[u8]) -> Option<u16>
    ensures { result ≡ reading.size_of digits.now }
{
    match digits {
        [a] if a.is_ascii_digit() => Some((*a - b'0') as u16),
        [a, b] if *a > b'0' && a.is_ascii_digit() && b.is_ascii_digit() => {
            Some(10 * (*a - b'0') as u16 + (*b - b'0') as u16)
        }
        [a, b, c] if *a > b'0' && a.is_ascii_digit() && b.is_ascii_digit() && c.is_ascii_digit() =>
            {
                let size = 100 * (*a - b'0') as u16 + 10 * (*b - b'0') as u16 + (*c - b'0') as u16;
                if size <= 352 { Some(size) } else { None }
            }
        _ => None,
    }
}
