//! The printed lines of events.

ghost use Rattle.std.specs.Prelude.{◌≡◌, ◌<◌, ◌++◌, ◌∷◌, [], IfOk, OnOk, codes, decimal};
ghost use Rattle.std.specs.List.{slice_get};
ghost use Rattle.pic_world.specs.Registers.{name_at};
ghost use Rattle.text_lines.specs.Text.{hex_pairs};
ghost use Rattle.pic_map.specs.EventText.{event_text, access_text, cell_text, name_or_none, object_name, CanBeShown};
ghost use Rattle.pic_map.specs.MapText.{line as line_of};
ghost use Rattle.pic_map.specs.MapView.{content_of};

use crate::Map;
use crate::write::hex_digit;
use itoa::Buffer;
use pic_world::{Cell, Event, register_name};
use std::alloc::{AllocError, Global};

/// The line of an event, with its LF: `R CELL VV`, `W CELL VV` or `End`, where VV is the byte in two upper
/// case hexadecimal digits. CELL is the name of a device register (Microchip data sheet DS39582), or the
/// name that the map has for a static object, a full stop and the byte's offset in decimal. The form is the
/// project's own.
pub fn event_line(alloc: Global, map: &Map, e: Event) -> Result<Vec<u8>, AllocError>
    requires { CanBeShown (content_of map.now) e }
    ensures text { IfOk result (λ text. text.items ≡ event_text (content_of map.now) e) }
{
    let mut text = Vec::new(alloc);
    match e {
        Event::Read { cell, value } => push_access(&mut text, b"R ", map, cell, value)?,
        Event::Write { cell, value } => push_access(&mut text, b"W ", map, cell, value)?,
        Event::End => text.extend_from_slice(b"End\n")?,
    }
    Ok(text)
}

fn push_access(
    text: &mut Vec<u8>,
    word: &[u8],
    map: &Map,
    cell: Cell,
    value: u8,
) -> Result<(), AllocError>
    ensures { OnOk result (text.new.items ≡ text.old.items ++ line_of (access_text word.now (content_of map.now) cell value)) }
{
    text.extend_from_slice(word)?;
    push_cell(text, map, cell)?;
    push_value(text, value)
}

fn push_cell(text: &mut Vec<u8>, map: &Map, cell: Cell) -> Result<(), AllocError>
    ensures { OnOk result (text.new.items ≡ text.old.items ++ cell_text (content_of map.now) cell) }
{
    match cell {
        Cell::Device { address } => push_register(text, address),
        Cell::Static { object, offset } => push_byte(text, map, object, offset),
    }
}

fn push_register(text: &mut Vec<u8>, address: u8) -> Result<(), AllocError>
    ensures { OnOk result (text.new.items ≡ text.old.items ++ name_or_none (name_at address)) }
{
    match register_name(address) {
        Some(name) => text.extend_from_slice(name.as_bytes()),
        None => Ok(()),
    }
}

/// A byte of an object.
fn push_byte(text: &mut Vec<u8>, map: &Map, object: u16, offset: u16) -> Result<(), AllocError>
    ensures { OnOk result (text.new.items ≡ text.old.items ++ object_name (slice_get (content_of map.now).objects object) ++ codes "." ++ decimal offset) }
{
    if let Some(object) = map.objects.get(object as usize) {
        text.extend_from_slice(&object.name)?;
    }
    text.push(b'.')?;
    let mut buffer = Buffer::new();
    text.extend_from_slice(buffer.format(offset).as_bytes())
}

/// A space, two digits and LF.
#[tactic(auto, unfolding(text_lines::specs::Text::hex_pairs))]
fn push_value(text: &mut Vec<u8>, value: u8) -> Result<(), AllocError>
    ensures { OnOk result (text.new.items ≡ text.old.items ++ line_of (codes " " ++ hex_pairs (value ∷ []))) }
{
    text.extend_from_slice(&[
        b' ',
        hex_digit(value as u16 / 16),
        hex_digit(value as u16 % 16),
        b'\n',
    ])
}
