//! Texts worked out by hand: what is read, what is written, and where reading stops.

ghost use Rattle.std.specs.Prelude.{◌<◌, ◌^◌, length, IsTrue};
ghost use Rattle.pic_map.specs.EventText.{CanBeShown, HasName};
ghost use Rattle.pic_map.specs.MapView.{content_of};

use hex_image::{exact_reading, read_hex, write_hex};
use pic_chip::Image;
use pic_map::{Map, event_line, read_map, write_map};
use pic_world::{Cell, Event, Root, Script, register_name};
use schedule::read_script;
use std::alloc::{AllocError, Global};
use std::test::Fail;

/// Kinds of files, their texts, and what is read: of an image the words that aren't erased, of a script its bytes and its
/// arrivals; or why it is none. `/` stands for the end of a line, and `~` for a CR.
///
/// The first images have no words: the end alone; the end between empty lines and lines that aren't read; a configuration word
/// at 400Eh; a byte at the last address of all; no data at an address that is too high. The last one has GOTO 5 at 0, of the word
/// at 1 its low byte, and of the word at 2 its high byte, whose two upper bits are dropped. The first script that is read has input
/// over two lines, an empty line, CR, leading zeros, equal times, and no last LF.
const TEXTS: &str = "\
hex|:00000001FF|
hex|/~/:00000001ff~/nothing of this is read/:00000001FE/|
hex|:02400E00F23F7F/:00000001FF/|
hex|:0143FF00F0CD/:00000001FF/|
hex|:020000040001F9/:0000000000/:00000001FF/|
hex||NoEnd
hex|:020000040000FA/:020000000528D1/|NoEnd
hex|:|BadRecord { line: 1 }
hex|/:00000000/|BadRecord { line: 2 }
hex|:0100000000/|BadRecord { line: 1 }
hex|:000000000000/|BadRecord { line: 1 }
hex|:00000001FF0/|BadRecord { line: 1 }
hex|:0000000G00/|BadRecord { line: 1 }
hex|00000001FF/|BadRecord { line: 1 }
hex| :00000001FF/|BadRecord { line: 1 }
hex|:00000001FF /|BadRecord { line: 1 }
hex|:00000001FF~~/|BadRecord { line: 1 }
hex|:0100000100FE/|BadRecord { line: 1 }
hex|:00000004FC/|BadRecord { line: 1 }
hex|:0100000400FB/|BadRecord { line: 1 }
hex|:03000004000000F9/|BadRecord { line: 1 }
hex|:00000001FE|Checksum { line: 1, found: 254, wanted: 255 }
hex|:020000040000FA/:020000000528D2/:00000001FF/|Checksum { line: 2, found: 210, wanted: 209 }
hex|:0100000300FE/|Checksum { line: 1, found: 254, wanted: 252 }
hex|:00000002FE|UnknownType { line: 1, kind: 2 }
hex|:000000FF01|UnknownType { line: 1, kind: 255 }
hex|:020000040001F9/:0100000000FF/|Outside { line: 2, address: 65536 }
hex|:0243FF000000BC/|Outside { line: 1, address: 17408 }
hex|:02000004FFFFFC/:02FFFF000000/:02FFFF00000000/|BadRecord { line: 2 }
hex|:02000004FFFFFC/:02FFFF00000000/|Outside { line: 2, address: 4294967295 }
hex|:0100000000FF/:0100000000FF/|Twice { line: 2, address: 0 }
hex|:02400E00F23F7F//:02400D000000B1/|Twice { line: 3, address: 16398 }
hex|:020000040000FA/:0100000000FF/:020000040000FA/:0100000000FF/|Twice { line: 4, address: 0 }
map||BadLine { line: 1 }
map|picc map 2/|BadLine { line: 1 }
map|picc map 1/|BadLine { line: 2 }
map|picc map 1/main 2000/halt 0006/end/|BadLine { line: 2 }
map|picc map 1/main 0005/halt 006/end/|BadLine { line: 3 }
map|picc map 1/main 0005/halt 0006/|BadLine { line: 4 }
map|picc map 1/main 0005/halt 0006/static x 0200 1/end/|BadLine { line: 4 }
map|picc map 1/main 0005/halt 0006/static x 0020 353/end/|BadLine { line: 4 }
map|picc map 1/main 0005/halt 0006/const x 0020 01/end/|BadLine { line: 4 }
map|picc map 1/main 0005/halt 0006/const  0020 1/end/|BadLine { line: 4 }
map|picc map 1/main 0005/halt 0006/frame irq x 0020 1/end/|BadLine { line: 4 }
map|picc map 1/main 0005/halt 0006/end /|BadLine { line: 4 }
map|picc map 1/main 0005/halt 0006/frame main f 0020 3/static x 0030 1/end/|BadLine { line: 5 }
map|picc map 1/main 0005/halt 0006/end//|BadLine { line: 5 }
map|picc map 1/main 0005/halt 0006/end/end/|BadLine { line: 5 }
script|at 5 INTF/at 4 INTF/|BadLine { line: 2 }
script|at 4294967296 INTF/|BadLine { line: 1 }
script|at 00000000001 INTF/|BadLine { line: 1 }
script|at  1 INTF/|BadLine { line: 1 }
script|at 1  INTF/|BadLine { line: 1 }
script|at INTF/|BadLine { line: 1 }
script|at -1 INTF/|BadLine { line: 1 }
script|at 1 GIE/|BadLine { line: 1 }
script|at 1 TMR1IE/|BadLine { line: 1 }
script|at 1 T0IF/|BadLine { line: 1 }
script|at 1 intf/|BadLine { line: 1 }
script|at 1 INTF /|BadLine { line: 1 }
script|input 5/|BadLine { line: 1 }
script|input 5A5B/|BadLine { line: 1 }
script|input 5G/|BadLine { line: 1 }
script|input 5A /|BadLine { line: 1 }
script|//input 00/ Input 00/|BadLine { line: 4 }
script|input 00/at 1 INTF/end|BadLine { line: 3 }
hex|:020000040000fa~/:020000000528d1~/~/:01000200639A/:01000500C139/:00000001FF/|0=2805 1=3F63 2=1FF
script|input 5A 0f~//at 0000000005 INTF/input/input ff/at 5 RBIF/at 4294967295 TMR0IF/at 4294967295 PSPIF|90 15 255 5=Intf 5=Rbif 4294967295=Tmr0if 4294967295=Pspif
script|input|
script|at 0 RBIF|0=Rbif
script|at 0 INTF|0=Intf
script|at 0 TMR0IF|0=Tmr0if
script|at 0 TMR1IF|0=Tmr1if
script|at 0 TMR2IF|0=Tmr2if
script|at 0 CCP1IF|0=Ccp1if
script|at 0 SSPIF|0=Sspif
script|at 0 TXIF|0=Txif
script|at 0 RCIF|0=Rcif
script|at 0 ADIF|0=Adif
script|at 0 PSPIF|0=Pspif
";

/// Words of images, and how they are written. Erased blocks are left out.
const IMAGES: &str = "\
0=2805 7=30A5 800=8 1FFF=0|:020000040000FA/:100000000528FF3FFF3FFF3FFF3FFF3FFF3FA5307A/:101000000800FF3FFF3FFF3FFF3FFF3FFF3FFF3F26/:103FF000FF3FFF3FFF3FFF3FFF3FFF3FFF3F00000F/:00000001FF/
0=2805 7=30A5 8=63 800=8 1FFF=0|:020000040000FA/:100000000528FF3FFF3FFF3FFF3FFF3FFF3FA5307A/:100010006300FF3FFF3FFF3FFF3FFF3FFF3FFF3FCB/:101000000800FF3FFF3FFF3FFF3FFF3FFF3FFF3F26/:103FF000FF3FFF3FFF3FFF3FFF3FFF3FFF3F00000F/:00000001FF/
|:020000040000FA/:00000001FF/
";

/// The texts here are short.
const LONGEST: usize = 65_536;

/// The bytes of a text of which `/` and `~` stand for LF and CR.
pub fn unpacked(alloc: Global, text: &str) -> Result<Vec<u8>, AllocError> {
    let mut bytes = Vec::new(alloc);
    for byte in text.bytes() {
        bytes.push(match byte {
            b'/' => b'\n',
            b'~' => b'\r',
            byte => byte,
        })?;
    }
    Ok(bytes)
}

/// The words of an image that aren't erased, with their addresses.
fn shown_image(alloc: Global, image: &Image) -> Result<String, AllocError> {
    let mut shown = String::new(alloc);
    for at in 0..8192u16 {
        let word = image.word(at);
        if word != 0x3fff {
            let gap = if shown.is_empty() { "" } else { " " };
            shown.push_str(&format!(in alloc; "{gap}{at:X}={word:X}")?)?;
        }
    }
    Ok(shown)
}

fn shown_script(alloc: Global, script: &Script) -> Result<String, AllocError> {
    let mut shown = String::new(alloc);
    for byte in script.input.iter() {
        let gap = if shown.is_empty() { "" } else { " " };
        shown.push_str(&format!(in alloc; "{gap}{byte}")?)?;
    }
    for arrival in script.arrivals.iter() {
        let gap = if shown.is_empty() { "" } else { " " };
        shown.push_str(&format!(in alloc; "{gap}{}={:?}", arrival.t, arrival.flag)?)?;
    }
    Ok(shown)
}

fn said_of_image(alloc: Global, text: &[u8]) -> Result<String, AllocError>
    requires { length text.now < 2 ^ 32 }
{
    match read_hex(alloc, text) {
        Ok(image) => shown_image(alloc, &image),
        Err(error) => format!(in alloc; "{error:?}"),
    }
}

fn said_of_map(alloc: Global, text: &[u8]) -> Result<String, AllocError>
    requires { length text.now < 2 ^ 32 }
{
    match read_map(alloc, text) {
        Ok(_) => String::from_str(alloc, "a map"),
        Err(error) => format!(in alloc; "{error:?}"),
    }
}

fn said_of_script(alloc: Global, text: &[u8]) -> Result<String, AllocError>
    requires { length text.now < 2 ^ 32 }
{
    match read_script(alloc, text) {
        Ok(script) => shown_script(alloc, &script),
        Err(error) => format!(in alloc; "{error:?}"),
    }
}

/// What is read of a text, or why nothing is.
fn answer(alloc: Global, kind: &str, text: &[u8]) -> Result<String, AllocError> {
    if text.len() > LONGEST {
        return String::from_str(alloc, "too long");
    }
    match kind {
        "hex" => said_of_image(alloc, text),
        "map" => said_of_map(alloc, text),
        _ => said_of_script(alloc, text),
    }
}

// Whether what is read of a line's text is what the line says.
fn is_answered(alloc: Global, line: &str) -> Result<bool, AllocError> {
    let (kind, rest) = line.split_once('|').unwrap_or((line, ""));
    let (text, wanted) = rest.split_once('|').unwrap_or((rest, ""));
    let text = unpacked(alloc, text)?;
    Ok(answer(alloc, kind, &text)?.as_str() == wanted)
}

#[test]
fn texts_are_read_or_told_where_they_are_wrong(rt: HostRuntime) -> Result<(), Fail> {
    let mut count: u32 = 0;
    for line in TEXTS.lines() {
        assert!(rt; is_answered(rt.alloc(), line)?, "{line}");
        count = count.saturating_add(1);
    }
    assert!(rt; count == 80);
    schedule::one_content();
    schedule::worked_example();
    Ok(())
}

/// A number in hexadecimal digits.
pub fn number(text: &str) -> u16 {
    u16::from_str_radix(text, 16).unwrap_or(u16::MAX)
}

/// The image with these words at their addresses.
pub fn image_of(alloc: Global, words: &str) -> Result<Image, AllocError> {
    let mut image = Image::blank(alloc)?;
    for part in words.split(' ') {
        let (at, word) = part.split_once('=').unwrap_or((part, ""));
        let (at, word) = (number(at), number(word));
        if at < 0x2000 && word < 0x4000 {
            image.set(at, word);
        }
    }
    Ok(image)
}

// Whether the image of a line is written as the line says, and read as it was.
fn is_written(alloc: Global, line: &str) -> Result<bool, AllocError> {
    let (words, wanted) = line.split_once('|').unwrap_or((line, ""));
    let image = image_of(alloc, words)?;
    let text = write_hex(alloc, &image)?;
    let wanted = unpacked(alloc, wanted)?;
    let again = answer(alloc, "hex", &text)?;
    Ok(text.as_slice() == wanted.as_slice() && again.as_str() == words)
}

#[test]
fn what_is_written_is_read(rt: HostRuntime) -> Result<(), Fail> {
    let mut count: u32 = 0;
    for line in IMAGES.lines() {
        assert!(rt; is_written(rt.alloc(), line)?, "{line}");
        count = count.saturating_add(1);
    }
    assert!(rt; count == 3);
    exact_reading();
    hex_image::one_content();
    Ok(())
}

/// Two objects and three frames, as they are written.
pub const WRITTEN: &str = "picc map 1/main 0005/halt 1FFF/static t.0.lo 0020 2/const k 01F0 12/\
    frame main main 002A 0/frame isr h 0070 10/frame main $mul2 00A0 352/end/";

/// The same in lower case, with CR, and without the last LF.
const OTHER: &str = "picc map 1~/main 0005~/halt 1fff/static t.0.lo 0020 2/const k 01f0 12/\
    frame main main 002a 0/frame isr h 0070 10/frame main $mul2 00a0 352/end";

// Whether the second object is that one.
fn has_k(map: &Map) -> bool {
    match map.objects.get(1) {
        Some(k) => k.fixed
            && k.name.as_slice() == b"k".as_slice()
            && k.address == 0x1f0
            && k.size == 12,
        None => false,
    }
}

// Whether the second frame is that one.
fn has_h(map: &Map) -> bool {
    match map.frames.get(1) {
        Some(h) => h.root == Root::Isr
            && h.name.as_slice() == b"h".as_slice()
            && h.address == 0x70
            && h.size == 10,
        None => false,
    }
}

fn has_parts(map: &Map) -> bool {
    map.main == 5
        && map.halt == 0x1fff
        && map.objects.len() == 2
        && map.frames.len() == 3
        && has_k(map)
        && has_h(map)
}

// The map of a text, which is a short one.
fn map_read(alloc: Global, text: &str) -> Result<Map, Fail> {
    let text = unpacked(alloc, text)?;
    if text.len() > LONGEST {
        return Err(Fail::new("too long"));
    }
    Ok(read_map(alloc, &text)?)
}

// Whether that map is read of a text, and written as this one.
fn is_that_map(alloc: Global, given: &str, wanted: &[u8]) -> Result<bool, Fail> {
    let given = unpacked(alloc, given)?;
    if given.len() > LONGEST {
        return Ok(false);
    }
    let map = read_map(alloc, &given)?;
    let written = write_map(alloc, &map)?;
    Ok(has_parts(&map) && written.as_slice() == wanted)
}

#[test]
fn a_map_is_read_as_it_was_written(rt: HostRuntime) -> Result<(), Fail> {
    let alloc = rt.alloc();
    let text = unpacked(alloc, WRITTEN)?;
    for given in [WRITTEN, OTHER] {
        assert!(rt; is_that_map(alloc, given, &text)?);
    }
    pic_map::worked_example();
    pic_map::one_content();
    Ok(())
}

/// Events by the names of the map above, and their lines.
const EVENTS: [(Event, &str); 5] = [
    (
        Event::Read {
            cell: Cell::Device { address: 0x05 },
            value: 0x5a,
        },
        "R PORTA 5A\n",
    ),
    (
        Event::Write {
            cell: Cell::Device { address: 0x81 },
            value: 0x07,
        },
        "W OPTION_REG 07\n",
    ),
    (
        Event::Read {
            cell: Cell::Static {
                object: 0,
                offset: 1,
            },
            value: 0xf0,
        },
        "R t.0.lo.1 F0\n",
    ),
    (
        Event::Write {
            cell: Cell::Static {
                object: 1,
                offset: 351,
            },
            value: 0,
        },
        "W k.351 00\n",
    ),
    (Event::End, "End\n"),
];

// Whether an event has a name, and is shown so.
fn is_shown(alloc: Global, map: &Map, event: Event, wanted: &str) -> Result<bool, AllocError> {
    if !is_named(map, event) {
        return Ok(false);
    }
    Ok(event_line(alloc, map, event)?.as_slice() == wanted.as_bytes())
}

#[test]
fn events_are_shown_by_name(rt: HostRuntime) -> Result<(), Fail> {
    let alloc = rt.alloc();
    let map = map_read(alloc, WRITTEN)?;
    for (event, wanted) in EVENTS {
        assert!(rt; is_shown(alloc, &map, event, wanted)?);
    }
    Ok(())
}

/// Whether the event's cell has a name, by which it can be shown.
fn is_named(map: &Map, event: Event) -> bool
    ensures { IsTrue result → CanBeShown (content_of map.now) event }
{
    match event {
        Event::Read { cell, .. } | Event::Write { cell, .. } => has_name(map, cell),
        Event::End => true,
    }
}

fn has_name(map: &Map, cell: Cell) -> bool
    ensures { IsTrue result → HasName (content_of map.now) cell }
{
    match cell {
        Cell::Device { address } => register_name(address).is_some(),
        Cell::Static { object, .. } => (object as usize) < map.objects.len(),
    }
}
