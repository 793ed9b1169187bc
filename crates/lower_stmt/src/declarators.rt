//! Declarators of locals that are given values (ISO/IEC 9899:1990, 6.5.7).

ghost use Rattle.std.specs.Prelude.{◌≡◌, map, slice_index, OnOk};
ghost use Rattle.c_typed.specs.Views.{expression_of, item_of};
ghost use Rattle.core_puts.specs.Puts.{Appends};
ghost use Rattle.lower_stmt.specs.Declarators as code;
ghost use Rattle.lower_stmt.specs.Ground.{ground_of};

use crate::site::{
    Site, first, item_size, local_byte, local_bytes, put_struct, put_value, value_bytes,
};
use c_typed::{TExpr, TItem};
use core_code::{Byte, Core};
use lower_expr::{behind, put_copies, put_set};
use std::alloc::AllocError;

/// Adds the code of an integer or a pointer from the byte `to` on, and its value.
#[inline(never)]
#[tactic(auto, using(std::proofs::lemmas::List::append_assoc))]
pub fn put_scalar(
    site: &Site,
    to: Byte,
    value: &TExpr,
    out: &mut Vec<Core>,
) -> Result<(), AllocError>
    ensures { OnOk result (Appends out.old.items out.new.items (code.scalar_code (ground_of site.now) to (expression_of value.now))) }
{
    put_value(site, value, out)?;
    put_copies(out, to, first(site), value_bytes(site, value))
}

fn character(bytes: &[u8], place: u64) -> u8
    ensures { result ≡ slice_index bytes.now place }
{
    match bytes.get(place as usize) {
        Some(byte) => *byte,
        None => 0,
    }
}

// A string for an array of so many bytes, with zeros behind its characters.
#[inline(never)]
#[tactic(auto, using(crate::proofs::Lists::texts, std::proofs::lemmas::List::append_assoc))]
fn put_text(to: Byte, bytes: &[u8], size: u64, out: &mut Vec<Core>) -> Result<(), AllocError>
    ensures { OnOk result (Appends out.old.items out.new.items (code.text_code to bytes.now size)) }
{
    for place in 0..size {
        put_set(out, behind(to, place), character(bytes, place))?;
    }
    Ok(())
}

#[inline(never)]
fn put_item(site: &Site, to: Byte, item: &TItem, out: &mut Vec<Core>) -> Result<(), AllocError>
    ensures { OnOk result (Appends out.old.items out.new.items (code.item_code (ground_of site.now) to (item_of item.now))) }
{
    match item {
        TItem::Scalar { offset, value } => put_scalar(site, behind(to, *offset), value, out),
        TItem::Struct { offset, from, size } => put_struct(
            site,
            behind(to, *offset),
            from,
            *size,
            out,
        ),
        TItem::Text {
            offset,
            bytes,
            size,
        } => put_text(behind(to, *offset), bytes, *size, out),
    }
}

fn offset_of(item: &TItem) -> u64
    ensures { result ≡ code.offset_of (item_of item.now) }
{
    match item {
        TItem::Scalar { offset, .. } | TItem::Struct { offset, .. } | TItem::Text { offset, .. } =>
            *offset,
    }
}

// Whether `place` is one of so many bytes from `offset` on.
fn is_within(offset: u64, size: u64, place: u64) -> bool
    ensures { result ≡ code.is_within offset size place }
{
    offset <= place && place - offset < size
}

fn covers(site: &Site, place: u64, item: &TItem) -> bool
    ensures { result ≡ code.covers (ground_of site.now) place (item_of item.now) }
{
    is_within(offset_of(item), item_size(site, item), place)
}

fn is_covered(site: &Site, items: &[TItem], place: u64) -> bool
    ensures { result ≡ code.is_covered (ground_of site.now) (map item_of items.now) place }
{
    for item in items {
        if covers(site, place, item) {
            return true;
        }
    }
    false
}

// The bytes that no item gives a value become 0.
#[inline(never)]
#[tactic(auto, using(crate::proofs::Lists::rests, std::proofs::lemmas::List::append_assoc))]
fn put_rest(
    site: &Site,
    to: Byte,
    items: &[TItem],
    size: u64,
    out: &mut Vec<Core>,
) -> Result<(), AllocError>
    ensures { OnOk result (Appends out.old.items out.new.items (code.rest_code (ground_of site.now) to (map item_of items.now) size)) }
{
    for place in 0..size {
        if !is_covered(site, items, place) {
            put_set(out, behind(to, place), 0)?;
        }
    }
    Ok(())
}

#[inline(never)]
fn put_items(site: &Site, to: Byte, items: &[TItem], out: &mut Vec<Core>) -> Result<(), AllocError>
    ensures { OnOk result (Appends out.old.items out.new.items (code.items_code (ground_of site.now) to (map item_of items.now))) }
{
    for item in items {
        put_item(site, to, item, out)?;
    }
    Ok(())
}

/// Adds the code of a local with a list or a string: its items in order, and then zeros for its other bytes.
#[inline(never)]
#[tactic(auto, using(std::proofs::lemmas::List::append_assoc))]
pub fn put_list(
    site: &Site,
    local: usize,
    items: &[TItem],
    out: &mut Vec<Core>,
) -> Result<(), AllocError>
    ensures { OnOk result (Appends out.old.items out.new.items (code.list_code (ground_of site.now) local (map item_of items.now))) }
{
    let to = local_byte(site, local);
    put_items(site, to, items, out)?;
    put_rest(site, to, items, local_bytes(site, local), out)
}
