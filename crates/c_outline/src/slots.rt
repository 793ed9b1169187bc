//! What an initializer initializes, part by part (ISO/IEC 9899:1990, 6.5.7).

ghost use Rattle.std.specs.Prelude.{◌≡◌, ◌+◌, ◌*◌, ◌<◌, ◌^◌, ◌&&◌, not, nat_le, if◌then◌else◌, nat_eq, slice_get, Some, None};
ghost use Rattle.c_typed.specs.Types as stated;
ghost use Rattle.type_rules.specs.Initializers as lists;
ghost use Rattle.type_rules.specs.Known.{Known};
ghost use Rattle.type_rules.specs.Rows.{fields_of, like, target_of};
ghost use Rattle.type_rules.specs.Slots as rule;
ghost use Rattle.c_tables.specs.Tables.{types_in};
ghost use Rattle.c_outline.specs.Slots.{any_slot, begun_of, slot_of};

use crate::slot::Slot;
use c_tables::types::{Types, kept, like};
use c_typed::{Initial, TItem, Ty};
use std::alloc::Global;

/// What the initializer of an object gives so far: bytes of a static object, or items of a local.
/// `length` is that of an array without one, and `line` is that of the declarator.
#[derive(Drop)]
pub struct Sink {
    pub fixed: bool,
    pub initial: Vec<Initial>,
    pub items: Vec<TItem>,
    pub length: Option<usize>,
    pub line: u32,
}

impl Sink {
    /// A sink to which nothing has been given; `line` is that of the declarator.
    pub fn new(alloc: Global, fixed: bool, line: u32) -> Sink
        ensures { begun_of result ≡ rule.nothing_begun fixed line }
    {
        Sink {
            fixed,
            initial: Vec::new(alloc),
            items: Vec::new(alloc),
            length: None,
            line,
        }
    }
}

// How many bytes stand before what has so many elements of this size before it.
#[tactic(auto, using(crate::proofs::Parting::kept_near))]
fn behind(start: u64, bytes: u64, count: usize) -> u64
    ensures kept { result ≡ stated.kept (start + bytes * count) }
    ensures near { result < 2 ^ 63 }
{
    kept(start as u128 + bytes as u128 * count as u128)
}

fn element(types: &Types, slot: Slot, row: usize, number: usize) -> Slot
    ensures { (known : Known) → slot_of result ≡ rule.element_slot (types_in types.now known) (slot_of slot) (like slot.ty (target_of (types_in types.now known) row).ty) number }
{
    let ty = like(slot.ty, types.target(row).ty);
    Slot {
        ty,
        offset: behind(slot.offset, types.bytes_of(ty.ty), number),
    }
}

fn member(types: &Types, slot: Slot, structure: usize, number: usize) -> Option<Slot>
    ensures { (known : Known) → any_slot result ≡ rule.member_slot slot.offset (slice_get (fields_of (types_in types.now known) structure) number) }
{
    match types.member_at(structure, number) {
        Some(field) => Some(Slot {
            ty: field.ty,
            offset: behind(slot.offset, field.offset, 1),
        }),
        None => None,
    }
}

fn part_of(types: &Types, slot: Slot, number: usize) -> Option<Slot>
    ensures { (known : Known) → any_slot result ≡ rule.part_by (types_in types.now known) (slot_of slot) slot.ty.ty number }
{
    match slot.ty.ty {
        Ty::Array {
            element: row,
            length,
            ..
        } => {
            if is_past(length, number) {
                None
            } else {
                Some(element(types, slot, row, number))
            }
        }
        Ty::Struct(structure) => member(types, slot, structure, number),
        Ty::Void | Ty::Int(_) | Ty::Pointer(_) => scalar_part(slot, number),
    }
}

// Whether an array of this length, 0 where it isn't known, has no element of the number.
fn is_past(length: u32, number: usize) -> bool
    ensures { result ≡ (not (nat_eq length 0) && nat_le length number) }
{
    length != 0 && length as usize <= number
}

// A scalar is its own first part.
fn scalar_part(slot: Slot, number: usize) -> Option<Slot>
    ensures { any_slot result ≡ (if nat_eq number 0 then Some (slot_of slot) else None) }
{
    if number == 0 { Some(slot) } else { None }
}

/// The part of this number, from 0. An array without a length has any.
pub fn part(types: &Types, slot: Option<Slot>, number: usize) -> Option<Slot>
    ensures { (known : Known) → any_slot result ≡ rule.part (types_in types.now known) (any_slot slot) number }
{
    match slot {
        Some(slot) => part_of(types, slot, number),
        None => None,
    }
}

/// Whether a list of so many items has one more than there are parts.
pub fn has_more(types: &Types, slot: Option<Slot>, count: usize) -> bool
    ensures { (known : Known) → result ≡ lists.has_more (types_in types.now known) (any_slot slot) count }
{
    let last = part(types, slot, count.saturating_sub(1));
    slot.is_some() && !last.is_some()
}

fn is_unsized(ty: Ty) -> bool
    ensures { result ≡ lists.is_unsized ty }
{
    match ty {
        Ty::Array { length, .. } => length == 0,
        Ty::Void | Ty::Int(_) | Ty::Pointer(_) | Ty::Struct(_) => false,
    }
}

/// An array without a length takes it from the number of items.
pub fn count_items(slot: Option<Slot>, count: usize, sink: &mut Sink)
    ensures { begun_of sink.new ≡ lists.with_items (any_slot slot) count (begun_of sink.old) }
{
    if let Some(slot) = slot {
        if is_unsized(slot.ty.ty) {
            sink.length = Some(count);
        }
    }
}
