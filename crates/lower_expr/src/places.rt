//! Where variables stand, and what the bytes of a place are.

ghost use Rattle.std.specs.Prelude.{◌≡◌, slice_index};
ghost use Rattle.c_typed.specs.Views.{expression_of, place_of};
ghost use Rattle.lower_expr.specs.Layout as stated;
ghost use Rattle.lower_expr.specs.Layout.{layout_of};
ghost use Rattle.lower_expr.specs.Spots as spots;

use c_typed::{Object, Structure, TExpr, TPlace, Ty, bytes_of};
use core_code::Byte;
use core_puts::{behind, beyond};
use pic_world::Root;

/// What a function copy's code stands on: its root, the offset in its frame of each parameter and local, of each
/// function of the program the number of that function's copy under this root (if the root reaches it), and the
/// structures of the program.
#[derive(Drop)]
pub struct Locals<'a> {
    pub root: Root,
    pub params: Vec<u16>,
    pub locals: Vec<u16>,
    pub copies: Vec<Option<u16>>,
    pub structures: &'a [Structure],
}

/// Where a place is: its first byte where it is fixed, a bit of a device register, or where a pointer points to that
/// has to be computed.
#[derive(Clone, Copy, PartialEq, Eq)]
pub enum Spot {
    Fixed(Byte),
    Bit { register: u8, bit: u8 },
    Computed,
}

/// How many bytes a value or an object of the type has, at most 65,535.
pub fn width(places: &Locals, ty: Ty) -> u16
    ensures { result ≡ stated.width (layout_of places.now) ty }
{
    beyond(0, bytes_of(places.structures, ty))
}

/// How many bytes the value of an expression has, at most 65,535.
pub fn bytes_of_value(places: &Locals, e: &TExpr) -> u16
    ensures { result ≡ stated.value_width (layout_of places.now) (expression_of e.now) }
{
    width(places, e.ty())
}

/// How many bytes a place has, at most 65,535.
pub fn bytes_of_place(places: &Locals, place: &TPlace) -> u16
    ensures { result ≡ stated.place_width (layout_of places.now) (place_of place.now) }
{
    width(places, place.ty().ty)
}

fn offset_at(offsets: &[u16], number: usize) -> u16
    ensures { result ≡ slice_index offsets.now number }
{
    match offsets.get(number) {
        Some(offset) => *offset,
        None => 0,
    }
}

#[tactic(auto, using(crate::proofs::Numbers::static_number_is))]
fn static_number(number: usize) -> u16
    ensures { result ≡ stated.static_number number }
{
    if number < 0xffff {
        number as u16
    } else {
        0xffff
    }
}

/// The first byte of what a name stands for.
pub fn object_byte(object: Object, copy: u16, places: &Locals) -> Byte
    ensures { result ≡ stated.object_byte (layout_of places.now) copy object }
{
    match object {
        Object::Static(number) => Byte::Static {
            object: static_number(number),
            offset: 0,
        },
        Object::Param(number) => Byte::Frame {
            copy,
            offset: offset_at(&places.params, number),
        },
        Object::Local(number) => Byte::Frame {
            copy,
            offset: offset_at(&places.locals, number),
        },
        Object::Register(address) => Byte::Device { address },
    }
}

fn member_spot(whole: Spot, offset: u64) -> Spot
    ensures { result ≡ spots.member_spot whole offset }
{
    match whole {
        Spot::Fixed(byte) => Spot::Fixed(behind(byte, offset)),
        Spot::Bit { .. } | Spot::Computed => Spot::Computed,
    }
}

/// Where a place is.
#[tactic(auto, using(crate::proofs::Sights::all_spots))]
pub fn spot_of(place: &TPlace, copy: u16, places: &Locals) -> Spot
    ensures { result ≡ spots.spot_of (layout_of places.now) copy (place_of place.now) }
{
    match place {
        TPlace::Name { object, .. } => Spot::Fixed(object_byte(*object, copy, places)),
        TPlace::Bit { register, bit, .. } => Spot::Bit {
            register: *register,
            bit: *bit,
        },
        TPlace::Member { whole, offset, .. } => {
            member_spot(spot_of(whole, copy, places), *offset)
        }
        TPlace::Deref { .. } => Spot::Computed,
    }
}

/// The first byte of a place, if it is fixed.
pub fn fixed_byte(place: &TPlace, copy: u16, places: &Locals) -> Option<Byte>
    ensures { result ≡ spots.fixed_of (spots.spot_of (layout_of places.now) copy (place_of place.now)) }
{
    match spot_of(place, copy, places) {
        Spot::Fixed(byte) => Some(byte),
        Spot::Bit { .. } | Spot::Computed => None,
    }
}

/// The number of the copy of a function under the root, and 0 where the root doesn't reach it.
pub fn copy_of(places: &Locals, function: u32) -> u16
    ensures { result ≡ stated.copy_of (layout_of places.now) function }
{
    match places.copies.get(function as usize) {
        Some(copy) => known_copy(*copy),
        None => 0,
    }
}

fn known_copy(copy: Option<u16>) -> u16
    ensures { result ≡ stated.known_copy copy }
{
    match copy {
        Some(copy) => copy,
        None => 0,
    }
}

/// How many bytes a pointer to the place takes before what is done with it: 2 where it has to be computed.
pub fn pointer_bytes(spot: Spot) -> u64
    ensures { result ≡ spots.pointer_bytes spot }
{
    match spot {
        Spot::Fixed(_) | Spot::Bit { .. } => 0,
        Spot::Computed => 2,
    }
}
