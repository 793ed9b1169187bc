//! What the code of all statements of a body stands on.

ghost use Rattle.std.specs.Prelude.{◌≡◌, map, slice_index, OnOk};
ghost use Rattle.std.specs.Option.{option_map};
ghost use Rattle.c_typed.specs.Views.{expression_of, place_of, item_of, size_of, variable_of};
ghost use Rattle.c_typed.specs.Words.{item_bytes, variable_bytes};
ghost use Rattle.core_puts.specs.Puts.{Appends};
ghost use Rattle.lower_stmt.specs.Declarators as declarators;
ghost use Rattle.lower_stmt.specs.Ground as ground;
ghost use Rattle.lower_stmt.specs.Ground.{ground_of};
ghost use Rattle.lower_stmt.specs.Statements as code;

use c_typed::{Structure, TExpr, TItem, TPlace, Variable, bytes_of};
use core_code::{Byte, Core};
use lower_expr::{Locals, behind, bytes_of_value, lower_expr, lower_struct_to};
use std::alloc::{AllocError, Global};

/// A body of a function copy: where its variables stand, the function's locals, the copy's number, and the offset in the
/// frame of the first temporary byte.
#[derive(Clone, Copy)]
pub struct Site<'a> {
    pub alloc: Global,
    pub places: &'a Locals<'a>,
    pub locals: &'a [Variable],
    pub copy: u16,
    pub base: u16,
}

/// The first temporary byte.
#[tactic(auto, unfolding(crate::specs::Ground::ground_of))]
pub fn first(site: &Site) -> Byte
    ensures { result ≡ ground.first (ground_of site.now) }
{
    Byte::Frame {
        copy: site.copy,
        offset: site.base,
    }
}

/// The temporary byte of this offset.
pub fn temporary(site: &Site, offset: u64) -> Byte
    ensures { result ≡ ground.temporary (ground_of site.now) offset }
{
    behind(first(site), offset)
}

/// How many bytes the value of an expression has.
#[tactic(auto, unfolding(crate::specs::Ground::ground_of))]
pub fn value_bytes(site: &Site, value: &TExpr) -> u16
    ensures { result ≡ ground.width (ground_of site.now) (expression_of value.now) }
{
    bytes_of_value(site.places, value)
}

/// Adds code that leaves the value of an expression in the first temporary bytes.
#[inline(never)]
#[tactic(auto, unfolding(crate::specs::Ground::ground_of))]
pub fn put_value(site: &Site, value: &TExpr, out: &mut Vec<Core>) -> Result<(), AllocError>
    ensures { OnOk result (Appends out.old.items out.new.items (ground.value_code (ground_of site.now) (expression_of value.now))) }
{
    lower_expr(
        site.alloc,
        value,
        site.copy,
        site.base,
        true,
        site.places,
        out,
    )
}

/// Adds code of an expression whose value isn't wanted.
#[inline(never)]
#[tactic(auto, unfolding(crate::specs::Ground::ground_of))]
pub fn put_effect(site: &Site, value: &TExpr, out: &mut Vec<Core>) -> Result<(), AllocError>
    ensures { OnOk result (Appends out.old.items out.new.items (ground.effect_code (ground_of site.now) (expression_of value.now))) }
{
    lower_expr(
        site.alloc,
        value,
        site.copy,
        site.base,
        false,
        site.places,
        out,
    )
}

/// The same of an expression that may be left out.
#[inline(never)]
pub fn put_any(site: &Site, value: &Option<TExpr>, out: &mut Vec<Core>) -> Result<(), AllocError>
    ensures { OnOk result (Appends out.old.items out.new.items (code.any_code (ground_of site.now) (option_map expression_of value.now))) }
{
    match value {
        Some(value) => put_effect(site, value, out),
        None => Ok(()),
    }
}

fn offset_at(offsets: &[u16], number: usize) -> u16
    ensures { result ≡ slice_index offsets.now number }
{
    match offsets.get(number) {
        Some(offset) => *offset,
        None => 0,
    }
}

/// The first byte of a local.
#[tactic(auto, unfolding(crate::specs::Ground::ground_of))]
pub fn local_byte(site: &Site, local: usize) -> Byte
    ensures { result ≡ ground.local_byte (ground_of site.now) local }
{
    Byte::Frame {
        copy: site.copy,
        offset: offset_at(&site.places.locals, local),
    }
}

fn size_at(structures: &[Structure], locals: &[Variable], local: usize) -> u64
    ensures { result ≡ slice_index (map (variable_bytes (map size_of structures.now)) (map variable_of locals.now)) local }
{
    match locals.get(local) {
        Some(variable) => bytes_of(structures, variable.ty.ty),
        None => 0,
    }
}

/// How many bytes a local has.
#[tactic(auto, unfolding(crate::specs::Ground::ground_of))]
pub fn local_bytes(site: &Site, local: usize) -> u64
    ensures { result ≡ ground.local_bytes (ground_of site.now) local }
{
    size_at(site.places.structures, site.locals, local)
}

/// The lowest byte of the result under the copy's root.
#[tactic(auto, unfolding(crate::specs::Ground::ground_of))]
pub fn result_byte(site: &Site) -> Byte
    ensures { result ≡ ground.result_byte (ground_of site.now) }
{
    Byte::Result {
        root: site.places.root,
        k: 0,
    }
}

/// How many bytes of a local an item of its list gives a value.
#[tactic(auto, unfolding(crate::specs::Ground::ground_of))]
pub fn item_size(site: &Site, item: &TItem) -> u64
    ensures { result ≡ item_bytes (ground_of site.now).layout.sizes (item_of item.now) }
{
    match item {
        TItem::Scalar { value, .. } => bytes_of(site.places.structures, value.ty()),
        TItem::Struct { size, .. } | TItem::Text { size, .. } => *size,
    }
}

/// Adds code that gives the structure of so many bytes from the byte `to` on the value of another one.
#[inline(never)]
#[tactic(auto, unfolding(crate::specs::Ground::ground_of))]
pub fn put_struct(
    site: &Site,
    to: Byte,
    from: &TPlace,
    size: u64,
    out: &mut Vec<Core>,
) -> Result<(), AllocError>
    ensures { OnOk result (Appends out.old.items out.new.items (declarators.struct_code (ground_of site.now) to (place_of from.now) size)) }
{
    lower_struct_to(
        site.alloc,
        to,
        from,
        size,
        site.copy,
        site.base,
        site.places,
        out,
    )
}
