//! The text of a map file.

ghost use Rattle.std.specs.Prelude.{◌≡◌, ◌<◌, ◌≤◌, ◌++◌, ◌∷◌, [], map, IfOk, OnOk};
ghost use Rattle.pic_map.specs.MapView.{content_of, object_of, frame_of};
ghost use Rattle.pic_map.specs.MapText as spec;
ghost use Rattle.pic_map.specs.MapFile.{IsMapFile, object_word, root_word};
ghost use Rattle.text_lines.specs.Text.{hex_digit as digit_of};

use crate::{FrameLine, Map, ObjLine};
use itoa::Buffer;
use pic_world::Root;
use std::alloc::{AllocError, Global};

/// The digits, by the number that each stands for.
const DIGITS: [u8; 16] = *b"0123456789ABCDEF";

/// The text of the map's file. Digits are upper case, and each line ends at LF. The condition is that
/// addresses, sizes and names are such as a map file can have.
pub fn write_map(alloc: Global, map: &Map) -> Result<Vec<u8>, AllocError>
    requires { spec.AreInRange (content_of map.now) }
    ensures text { IfOk result (λ text. text.items ≡ spec.map_text (content_of map.now)) }
    ensures file { IfOk result (λ text. IsMapFile text.items (content_of map.now)) }
{
    let mut text = Vec::new(alloc);
    text.extend_from_slice(b"picc map 1\nmain ")?;
    push_address(&mut text, map.main)?;
    text.extend_from_slice(b"\nhalt ")?;
    push_address(&mut text, map.halt)?;
    text.push(b'\n')?;
    push_objects(&mut text, &map.objects)?;
    push_frames(&mut text, &map.frames)?;
    text.extend_from_slice(b"end\n")?;
    Ok(text)
}

#[tactic(auto, unfolding(crate::specs::MapText::objects_text))]
fn push_objects(text: &mut Vec<u8>, objects: &[ObjLine]) -> Result<(), AllocError>
    requires { spec.AreObjects (map object_of objects.now) }
    ensures { OnOk result (text.new.items ≡ text.old.items ++ spec.objects_text (map object_of objects.now)) }
{
    let mut left = objects;
    while let [object, rest @ ..] = left {
        push_object(text, object)?;
        left = rest;
    }
    Ok(())
}

#[tactic(auto, unfolding(crate::specs::MapText::frames_text))]
fn push_frames(text: &mut Vec<u8>, frames: &[FrameLine]) -> Result<(), AllocError>
    requires { spec.AreFrames (map frame_of frames.now) }
    ensures { OnOk result (text.new.items ≡ text.old.items ++ spec.frames_text (map frame_of frames.now)) }
{
    let mut left = frames;
    while let [frame, rest @ ..] = left {
        push_frame(text, frame)?;
        left = rest;
    }
    Ok(())
}

fn push_object(text: &mut Vec<u8>, object: &ObjLine) -> Result<(), AllocError>
    requires { object.now.size < 1000 }
    ensures { OnOk result (text.new.items ≡ text.old.items ++ spec.line (spec.object_text (object_of object.now))) }
{
    text.extend_from_slice(object_word(object.fixed))?;
    text.extend_from_slice(&object.name)?;
    push_place(text, object.address, object.size)
}

fn push_frame(text: &mut Vec<u8>, frame: &FrameLine) -> Result<(), AllocError>
    requires { frame.now.size < 1000 }
    ensures { OnOk result (text.new.items ≡ text.old.items ++ spec.line (spec.frame_text (frame_of frame.now))) }
{
    text.extend_from_slice(root_word(frame.root))?;
    text.extend_from_slice(&frame.name)?;
    push_place(text, frame.address, frame.size)
}

fn object_word(fixed: bool) -> &'static [u8]
    ensures { result.now ≡ object_word fixed }
{
    if fixed { b"const " } else { b"static " }
}

fn root_word(root: Root) -> &'static [u8]
    ensures { result.now ≡ root_word root }
{
    match root {
        Root::Main => b"frame main ",
        Root::Isr => b"frame isr ",
    }
}

/// The rest of a line after the name, with its LF.
#[tactic(auto, using(crate::proofs::Decimals::number_is_decimal, crate::proofs::Written::place_parts))]
fn push_place(text: &mut Vec<u8>, address: u16, size: u16) -> Result<(), AllocError>
    requires { size < 1000 }
    ensures { OnOk result (text.new.items ≡ text.old.items ++ spec.line (spec.place_text address size)) }
{
    text.push(b' ')?;
    push_address(text, address)?;
    text.push(b' ')?;
    let mut buffer = Buffer::new();
    text.extend_from_slice(buffer.format(size).as_bytes())?;
    text.push(b'\n')?;
    Ok(())
}

/// Four hexadecimal digits.
#[tactic(auto, unfolding(text_lines::specs::Text::hex_pairs))]
fn push_address(text: &mut Vec<u8>, address: u16) -> Result<(), AllocError>
    ensures { OnOk result (text.new.items ≡ text.old.items ++ spec.address_text address) }
{
    text.extend_from_slice(&[
        hex_digit(address / 256 / 16),
        hex_digit(address / 256 % 16),
        hex_digit(address % 256 / 16),
        hex_digit(address % 256 % 16),
    ])
}

/// The ASCII code of a hexadecimal digit, in upper case. The condition is that the value is below 16.
pub fn hex_digit(value: u16) -> u8
    requires { value < 16 }
    ensures { result ≡ digit_of value }
{
    DIGITS[value as usize]
}
