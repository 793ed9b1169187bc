//! Data memory, as a strip of each bank, of which a byte is as wide as any other.

use crate::html::Html;
use crate::shown::{Shown, class_of};
use pic_map::Placed;

/// The free bytes of each bank: the first address, and the one after the last (Microchip data sheet DS39582, register file map).
const REGIONS: [(u16, u16); 4] = [(0x20, 0x70), (0xa0, 0xf0), (0x110, 0x170), (0x190, 0x1f0)];

/// What stands at some addresses.
#[derive(Clone, Copy)]
struct Item<'a> {
    class: &'static str,
    kind: &'static str,
    name: &'a [u8],
    address: u16,
    size: u16,
}

/// Whether a byte of data memory is one of those that begin at an address.
pub fn is_in(at: u16, address: u16, size: u16) -> bool {
    address <= at && at - address < size
}

/// The class of an object in the page's style, which is its word in the map too.
pub fn object_class(fixed: bool) -> &'static str {
    if fixed { "const" } else { "static" }
}

fn is_covered(placed: &Placed, at: u16) -> bool {
    for object in &placed.objects {
        if is_in(at, object.address, object.size) {
            return true;
        }
    }
    for frame in &placed.frames {
        if is_in(at, frame.address, frame.size) {
            return true;
        }
    }
    false
}

fn covered(placed: &Placed, first: u16, end: u16) -> u64 {
    let mut count: u64 = 0;
    for at in first..end {
        if is_covered(placed, at) {
            count = count.saturating_add(1);
        }
    }
    count
}

/// `A to B`, where bytes stand.
pub fn put_range(out: &mut Html, address: u16, size: u16) {
    out.at("", address);
    if size > 1 {
        out.at(" to ", address.saturating_add(size - 1));
    }
}

/// A number of bytes with its unit.
pub fn put_bytes(out: &mut Html, size: u64) {
    out.number(size);
    out.put(if size == 1 { " byte" } else { " bytes" });
}

// The column of an address within its bank, of which the first 16 bytes aren't shown.
fn column(address: u16) -> u64 {
    (address % 128).saturating_sub(15) as u64
}

fn put_item(out: &mut Html, item: &Item<'_>) {
    out.put("<i class=\"");
    out.put(item.class);
    out.counted("\" style=\"grid-column:", column(item.address));
    out.counted("/span ", item.size as u64);
    out.put("\" title=\"");
    out.name(item.name);
    out.put(", ");
    out.put(item.kind);
    out.put(": ");
    put_range(out, item.address, item.size);
    out.put(", ");
    put_bytes(out, item.size as u64);
    out.put("\">");
    out.name(item.name);
    out.put("</i>\n");
}

fn put_in_bank(out: &mut Html, bank: u16, item: &Item<'_>) {
    if item.address / 128 == bank && item.size > 0 {
        put_item(out, item);
    }
}

fn put_objects(out: &mut Html, placed: &Placed, bank: u16) {
    for object in &placed.objects {
        let class = object_class(object.fixed);
        let item = Item {
            class,
            kind: class,
            name: &object.name,
            address: object.address,
            size: object.size,
        };
        put_in_bank(out, bank, &item);
    }
}

fn put_frames(out: &mut Html, placed: &Placed, bank: u16) {
    for frame in &placed.frames {
        let class = class_of(frame.root);
        let item = Item {
            class,
            kind: "frame",
            name: &frame.name,
            address: frame.address,
            size: frame.size,
        };
        put_in_bank(out, bank, &item);
    }
}

fn put_axis(out: &mut Html, bank: u16) {
    for step in 1..8u16 {
        let address = (bank % 4) * 128 + 16 * step;
        out.counted("<b style=\"grid-column:", column(address));
        out.at("/span 16\">", address);
        out.put("</b>");
    }
    out.put("\n");
}

// The bytes that hold registers, and those that each bank shows.
fn put_others(out: &mut Html, bank: u16) {
    if bank < 2 {
        out.put(
            "<i class=\"common\" style=\"grid-column:1/span 16\" title=\"registers of the chip\">registers</i>\n",
        );
    }
    out.put(
        "<i class=\"common\" style=\"grid-column:97/span 16\" title=\"70h to 7Fh, the same in each bank: what functions of main return, ",
    );
    out.put("what those of the handler return, and what the handler saves\">results, saved</i>\n");
}

fn put_bank(out: &mut Html, placed: &Placed, bank: u16, region: (u16, u16)) {
    let (first, end) = region;
    let used = covered(placed, first, end);
    out.counted("<h3>Bank ", bank as u64);
    out.put("</h3><p class=\"quiet\">");
    out.at("", first);
    out.at(" to ", end.saturating_sub(1));
    out.put(": ");
    if used == 0 {
        out.put("empty, ");
    } else {
        out.number(used);
        out.put(" of ");
    }
    put_bytes(out, end.saturating_sub(first) as u64);
    out.put("</p>\n<div class=\"bank\">\n");
    put_axis(out, bank);
    put_objects(out, placed, bank);
    put_frames(out, placed, bank);
    put_others(out, bank);
    out.put("</div>\n");
}

/// The four banks with their objects and frames.
pub fn put_memory(out: &mut Html, shown: &Shown<'_>) {
    out.put(
        "<section><h2>Data memory</h2>\n<p>Each object and each frame is as wide as its bytes are many; what shares an address is in one column. ",
    );
    out.put(
        "Two frames share an address only where both are of one root and neither function calls the other, directly or through others: ",
    );
    out.put("such frames are never live together.</p>\n");
    for (bank, region) in REGIONS.iter().enumerate() {
        put_bank(out, shown.placed, bank as u16, *region);
    }
    out.put("</section>\n");
}
