//! Assignments of structures.

ghost use Rattle.std.specs.Prelude.{◌≡◌, OnOk, [], ◌∷◌, ◌++◌};
ghost use Rattle.c_typed.specs.Views.{place_of};
ghost use Rattle.core_code.specs.declared.code.Byte.TheVariants.{Frame};
ghost use Rattle.lower_expr.specs.Layout.{layout_of};
ghost use Rattle.lower_expr.specs.Lowering.{address_code, pointer_code};
ghost use Rattle.core_puts.specs.Puts.{Appends};
ghost use Rattle.lower_expr.specs.Rows as row;
ghost use Rattle.lower_expr.specs.Spots.{spot_of};
ghost use Rattle.lower_expr.specs.declared.places.Spot.TheVariants.{Fixed};

use crate::expression::lower_pointer;
use crate::places::{Locals, Spot, pointer_bytes, spot_of};
use c_ints::{BinOp, IntTy};
use c_typed::TPlace;
use core_code::{Byte, Core};
use core_puts::{behind, beyond, put_copies, put_copy, put_load, put_operator, put_set, put_store};
use pic_world::Root;
use std::alloc::{AllocError, Global};

/// Where a structure is: from this byte on, or where the pointer in two bytes points to.
#[derive(Clone, Copy, PartialEq, Eq)]
pub(crate) enum Side {
    Here(Byte),
    Pointed(Byte),
}

// The side of an assignment that a place is, whose address is at `pointer` if it had to be computed.
fn side_of(spot: Spot, pointer: Byte) -> Side
    ensures { result ≡ row.side_of spot pointer }
{
    match spot {
        Spot::Fixed(byte) => Side::Here(byte),
        Spot::Bit { .. } | Spot::Computed => Side::Pointed(pointer),
    }
}

// Byte `i` of the structure, to which its pointer points by now.
#[inline(never)]
fn put_taken(out: &mut Vec<Core>, to: Byte, from: Side, i: u64) -> Result<(), AllocError>
    ensures { OnOk result (Appends out.old.items out.new.items (row.taken to from i ∷ [])) }
{
    match from {
        Side::Here(byte) => put_copy(out, to, behind(byte, i)),
        Side::Pointed(pointer) => put_load(out, to, pointer, 1),
    }
}

#[inline(never)]
fn put_given(out: &mut Vec<Core>, to: Side, from: Byte, i: u64) -> Result<(), AllocError>
    ensures { OnOk result (Appends out.old.items out.new.items (row.given to from i ∷ [])) }
{
    match to {
        Side::Here(byte) => put_copy(out, behind(byte, i), from),
        Side::Pointed(pointer) => put_store(out, pointer, from, 1),
    }
}

// The pointer points to the next byte, by the 1 in the result bytes.
#[inline(never)]
#[tactic(auto, using(crate::proofs::Numbers::append_nothing))]
fn put_advance(out: &mut Vec<Core>, side: Side, one: Byte) -> Result<(), AllocError>
    ensures { OnOk result (Appends out.old.items out.new.items (row.advance side one)) }
{
    match side {
        Side::Here(_) => Ok(()),
        Side::Pointed(pointer) => put_operator(out, BinOp::Add, IntTy::UInt, pointer, one),
    }
}

#[inline(never)]
#[tactic(auto, using(crate::proofs::Numbers::append_nothing, std::proofs::lemmas::List::append_assoc))]
fn put_advances(
    out: &mut Vec<Core>,
    to: Side,
    from: Side,
    one: Byte,
    i: u64,
) -> Result<(), AllocError>
    ensures { OnOk result (Appends out.old.items out.new.items (row.advances to from one i)) }
{
    if i == 0 {
        return Ok(());
    }
    put_advance(out, to, one)?;
    put_advance(out, from, one)
}

// The bytes of the structure, each through `temporary`; `one` are two bytes with the number 1.
#[tactic(auto, using(crate::proofs::Numbers::structure_none, crate::proofs::Numbers::structure_more, crate::proofs::Numbers::append_nothing, std::proofs::lemmas::List::append_assoc))]
fn put_bytes(
    out: &mut Vec<Core>,
    to: Side,
    from: Side,
    one: Byte,
    temporary: Byte,
    size: u64,
) -> Result<(), AllocError>
    ensures { OnOk result (Appends out.old.items out.new.items (row.structure_bytes to from one temporary size)) }
{
    for i in 0..size {
        put_advances(out, to, from, one, i)?;
        put_taken(out, temporary, from, i)?;
        put_given(out, to, temporary, i)?;
    }
    Ok(())
}

// A structure of so many bytes, a byte at a time through `temporary`.
#[inline(never)]
#[tactic(auto, using(std::proofs::lemmas::List::append_assoc))]
fn put_structure(
    out: &mut Vec<Core>,
    root: Root,
    to: Side,
    from: Side,
    temporary: Byte,
    size: u64,
) -> Result<(), AllocError>
    ensures { OnOk result (Appends out.old.items out.new.items (row.structure_row root to from temporary size)) }
{
    let one = Byte::Result { root, k: 0 };
    put_set(out, one, 1)?;
    put_set(out, Byte::Result { root, k: 1 }, 0)?;
    put_bytes(out, to, from, one, temporary, size)
}

// A structure whose place isn't fixed, or that comes from one that isn't.
#[inline(never)]
fn put_through(
    out: &mut Vec<Core>,
    root: Root,
    place: Spot,
    from: Spot,
    at: Byte,
    size: u64,
) -> Result<(), AllocError>
    ensures { OnOk result (Appends out.old.items out.new.items (row.through_row root place from at size)) }
{
    let second = behind(at, pointer_bytes(place));
    put_structure(
        out,
        root,
        side_of(place, at),
        side_of(from, second),
        behind(second, pointer_bytes(from)),
        size,
    )
}

/// A structure of so many bytes from one place to another; the addresses of those that are computed stand at `at`, one
/// after the other.
#[inline(never)]
pub(crate) fn put_struct(
    out: &mut Vec<Core>,
    root: Root,
    place: Spot,
    from: Spot,
    at: Byte,
    size: u64,
) -> Result<(), AllocError>
    ensures { OnOk result (Appends out.old.items out.new.items (row.struct_row root place from at size)) }
{
    match place {
        Spot::Fixed(to) => match from {
            Spot::Fixed(byte) => put_copies(out, to, byte, beyond(0, size)),
            Spot::Bit { .. } | Spot::Computed => put_through(out, root, place, from, at, size),
        },
        Spot::Bit { .. } | Spot::Computed => put_through(out, root, place, from, at, size),
    }
}

/// `PLACE = FROM` of structures, whose addresses stand at `base` where they are computed.
#[inline(never)]
pub(crate) fn put_struct_assign(
    out: &mut Vec<Core>,
    place: &TPlace,
    from: &TPlace,
    size: u64,
    copy: u16,
    base: u16,
    places: &Locals,
) -> Result<(), AllocError>
    ensures { OnOk result (Appends out.old.items out.new.items (row.struct_row (layout_of places.now).root (spot_of (layout_of places.now) copy (place_of place.now)) (spot_of (layout_of places.now) copy (place_of from.now)) (Frame copy base) size)) }
{
    put_struct(
        out,
        places.root,
        spot_of(place, copy, places),
        spot_of(from, copy, places),
        Byte::Frame { copy, offset: base },
        size,
    )
}

/// Code that gives the structure at a fixed place, from the byte `to` on, the value of one of the same `size`: what an
/// initial value does.
#[tactic(auto, using(std::proofs::lemmas::List::append_assoc))]
pub fn lower_struct_to(
    alloc: Global,
    to: Byte,
    from: &TPlace,
    size: u64,
    copy: u16,
    base: u16,
    places: &Locals,
    out: &mut Vec<Core>,
) -> Result<(), AllocError>
    ensures { OnOk result (Appends out.old.items out.new.items (pointer_code (spot_of (layout_of places.now) copy (place_of from.now)) (address_code (layout_of places.now) copy base (place_of from.now)) ++ row.struct_row (layout_of places.now).root (Fixed to) (spot_of (layout_of places.now) copy (place_of from.now)) (Frame copy base) size)) }
{
    lower_pointer(alloc, from, copy, base, places, out)?;
    put_struct(
        out,
        places.root,
        Spot::Fixed(to),
        spot_of(from, copy, places),
        Byte::Frame { copy, offset: base },
        size,
    )
}
