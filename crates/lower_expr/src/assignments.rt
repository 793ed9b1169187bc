//! Reads of places, and what gives them values.

ghost use Rattle.std.specs.Prelude.{◌≡◌, OnOk};
ghost use Rattle.c_typed.specs.Views.{expression_of, place_of};
ghost use Rattle.c_typed.specs.Folding.{constant_bits};
ghost use Rattle.lower_expr.specs.Layout.{layout_of};
ghost use Rattle.lower_expr.specs.Lowering as lowering;
ghost use Rattle.lower_expr.specs.Lowering.{shifts_by_constant, behind_pointer};
ghost use Rattle.core_puts.specs.Puts.{Appends};
ghost use Rattle.lower_expr.specs.Rows as row;

use crate::offsets::put_moved;
use crate::operators::{put_shift, put_widened, shifts_by_constant};
use crate::places::{Locals, Spot, bytes_of_value, pointer_bytes, spot_of, width};
use c_ints::{BinOp, IntTy};
use c_typed::{StepOp, TExpr, TPlace, Ty};
use core_code::{Byte, Core};
use core_puts::{
    behind, beyond, operation_type, put_address, put_bit_read, put_bit_write, put_copies,
    put_copies_if, put_load, put_number, put_operator, put_set, put_store,
};
use pic_world::Root;
use std::alloc::{AllocError, Global};

/// The offset at which what follows the address of a place begins.
#[inline(never)]
pub(crate) fn behind_pointer(place: &TPlace, copy: u16, base: u16, places: &Locals) -> u16
    ensures { result ≡ behind_pointer (layout_of places.now) copy base (place_of place.now) }
{
    beyond(base, pointer_bytes(spot_of(place, copy, places)))
}

/// The address of a place at `at`, where code has left it if it had to be computed.
#[inline(never)]
#[tactic(auto, using(crate::proofs::Numbers::append_nothing))]
pub(crate) fn put_address_of(out: &mut Vec<Core>, spot: Spot, at: Byte) -> Result<(), AllocError>
    ensures { OnOk result (Appends out.old.items out.new.items (row.address_row spot at)) }
{
    match spot {
        Spot::Fixed(byte) => put_address(out, at, byte),
        Spot::Bit { .. } | Spot::Computed => Ok(()),
    }
}

/// So many bytes at `to` become those of a place, to which `pointer` points if it is computed.
#[inline(never)]
pub(crate) fn put_read(
    out: &mut Vec<Core>,
    spot: Spot,
    pointer: Byte,
    to: Byte,
    count: u16,
) -> Result<(), AllocError>
    ensures { OnOk result (Appends out.old.items out.new.items (row.read_row spot pointer to count)) }
{
    match spot {
        Spot::Fixed(from) => put_copies(out, to, from, count),
        Spot::Bit { register, bit } => put_bit_read(out, to, register, bit),
        Spot::Computed => put_load(out, to, pointer, count),
    }
}

// The bit becomes the lowest bit of the byte, and the byte what the bit is.
#[tactic(auto, using(std::proofs::lemmas::List::append_assoc))]
fn put_bit(
    out: &mut Vec<Core>,
    root: Root,
    register: u8,
    bit: u8,
    from: Byte,
) -> Result<(), AllocError>
    ensures { OnOk result (Appends out.old.items out.new.items (row.bit_row root register bit from)) }
{
    let one = Byte::Result { root, k: 0 };
    put_set(out, one, 1)?;
    put_operator(out, BinOp::And, IntTy::UChar, from, one)?;
    put_bit_write(out, register, bit, from)
}

/// A place, to which `pointer` points if it is computed, becomes so many bytes at `from`.
#[inline(never)]
pub(crate) fn put_written(
    out: &mut Vec<Core>,
    spot: Spot,
    root: Root,
    pointer: Byte,
    from: Byte,
    count: u16,
) -> Result<(), AllocError>
    ensures { OnOk result (Appends out.old.items out.new.items (row.written_row spot root pointer from count)) }
{
    match spot {
        Spot::Fixed(to) => put_copies(out, to, from, count),
        Spot::Bit { register, bit } => put_bit(out, root, register, bit, from),
        Spot::Computed => put_store(out, pointer, from, count),
    }
}

// The value of a place whose address is at `at` comes to stand there.
#[inline(never)]
#[tactic(auto, using(std::proofs::lemmas::List::append_assoc))]
fn put_pointed(out: &mut Vec<Core>, at: Byte, count: u16) -> Result<(), AllocError>
    ensures { OnOk result (Appends out.old.items out.new.items (row.pointed_row at count)) }
{
    let value = behind(at, 2);
    put_load(out, value, at, count)?;
    put_copies(out, at, value, count)
}

/// The value of a place at `at`, where its address stands if it had to be computed.
#[inline(never)]
pub(crate) fn put_value(
    out: &mut Vec<Core>,
    spot: Spot,
    at: Byte,
    count: u16,
) -> Result<(), AllocError>
    ensures { OnOk result (Appends out.old.items out.new.items (row.value_row spot at count)) }
{
    match spot {
        Spot::Fixed(from) => put_copies(out, at, from, count),
        Spot::Bit { register, bit } => put_bit_read(out, at, register, bit),
        Spot::Computed => put_pointed(out, at, count),
    }
}

/// The value behind a pointer at `at`, if there is one, goes to the place, and comes to stand at `at` if it is wanted.
#[inline(never)]
#[tactic(auto, using(std::proofs::lemmas::List::append_assoc))]
pub(crate) fn put_assigned(
    out: &mut Vec<Core>,
    wanted: bool,
    spot: Spot,
    root: Root,
    at: Byte,
    count: u16,
) -> Result<(), AllocError>
    ensures { OnOk result (Appends out.old.items out.new.items (row.assigned_row wanted spot root at count)) }
{
    let value = behind(at, pointer_bytes(spot));
    put_written(out, spot, root, at, value, count)?;
    put_kept(out, wanted, spot, at, value, count)
}

#[inline(never)]
#[tactic(auto, using(crate::proofs::Numbers::append_nothing))]
fn put_kept(
    out: &mut Vec<Core>,
    wanted: bool,
    spot: Spot,
    at: Byte,
    value: Byte,
    count: u16,
) -> Result<(), AllocError>
    ensures { OnOk result (Appends out.old.items out.new.items (row.kept_row wanted spot at value count)) }
{
    match spot {
        Spot::Fixed(_) | Spot::Bit { .. } => Ok(()),
        Spot::Computed => put_copies_if(out, wanted, at, value, count),
    }
}

/// How the operator of an update takes its right operand: as it stands there, as a number of elements of so many bytes
/// by which a pointer moves, or as the number by which a value is shifted.
#[derive(Clone, Copy, PartialEq, Eq)]
pub(crate) enum Change {
    Plain,
    Elements(u64),
    By(u32),
}

/// An update of a place: the operator and the type of the operation, the bytes of its right operand, whether the old
/// value is what the whole gives, and whether that is wanted.
#[derive(Clone, Copy, PartialEq, Eq)]
pub(crate) struct Update {
    pub op: BinOp,
    pub change: Change,
    pub operation: Ty,
    pub count: u16,
    pub keeps_old: bool,
    pub is_wanted: bool,
}

fn change_of(op: BinOp, value: &TExpr, operation: Ty, size: u64) -> Change
    ensures { result ≡ row.change_of (shifts_by_constant op (expression_of value.now)) operation size (constant_bits (expression_of value.now)) }
{
    if shifts_by_constant(op, value) {
        Change::By(value.constant_bits())
    } else {
        match operation {
            Ty::Pointer(_) => Change::Elements(size),
            Ty::Void | Ty::Int(_) | Ty::Array { .. } | Ty::Struct(_) => Change::Plain,
        }
    }
}

/// An update by the value of an expression, of a pointer to elements of so many bytes or of an integer.
#[inline(never)]
pub(crate) fn update_of(
    wanted: bool,
    places: &Locals,
    op: BinOp,
    place: &TPlace,
    value: &TExpr,
    operation: Ty,
    size: u64,
) -> Update
    ensures { result ≡ lowering.update_of wanted (layout_of places.now) op (place_of place.now) (expression_of value.now) operation size }
{
    Update {
        op,
        change: change_of(op, value, operation, size),
        operation,
        count: bytes_of_value(places, value),
        keeps_old: false,
        is_wanted: wanted,
    }
}

fn keeps_old(op: StepOp) -> bool
    ensures { result ≡ row.keeps_old op }
{
    match op {
        StepOp::PreIncrement | StepOp::PreDecrement => false,
        StepOp::PostIncrement | StepOp::PostDecrement => true,
    }
}

/// A step, which is an update by a constant.
#[inline(never)]
pub(crate) fn step_of(wanted: bool, places: &Locals, op: StepOp, operation: Ty) -> Update
    ensures { result ≡ lowering.step_of wanted (layout_of places.now) op operation }
{
    Update {
        op: op.operator(),
        change: Change::Plain,
        operation,
        count: width(places, operation),
        keeps_old: keeps_old(op),
        is_wanted: wanted,
    }
}

// The operator of an update, whose right operand of so many bytes is at `right`, and whose left one at `at`.
#[inline(never)]
fn put_change(
    alloc: Global,
    out: &mut Vec<Core>,
    change: Change,
    op: BinOp,
    ty: IntTy,
    at: Byte,
    right: Byte,
    count: u16,
) -> Result<(), AllocError>
    ensures { OnOk result (Appends out.old.items out.new.items (row.change_row change op ty at right count)) }
{
    match change {
        Change::Plain => put_operator(out, op, ty, at, right),
        Change::Elements(size) => put_moved(out, op, at, right, behind(at, 2), size),
        Change::By(number) => put_shift(alloc, out, op, ty, at, right, number, count),
    }
}

fn given_byte(keeps: bool, old: Byte, new: Byte) -> Byte
    ensures { result ≡ row.given_byte keeps old new }
{
    if keeps { old } else { new }
}

/// An update of the place at `spot`, of so many bytes and this type, to which the pointer at `at` points if it is
/// computed. Its right operand stands after that.
#[inline(never)]
#[tactic(auto, using(std::proofs::lemmas::List::append_assoc))]
pub(crate) fn put_update(
    alloc: Global,
    out: &mut Vec<Core>,
    update: Update,
    spot: Spot,
    root: Root,
    at: Byte,
    bytes: u16,
    from: Ty,
) -> Result<(), AllocError>
    ensures { OnOk result (Appends out.old.items out.new.items (row.update_row update spot root at bytes from)) }
{
    let right = behind(at, pointer_bytes(spot));
    let left = behind(right, update.count as u64);
    let old = behind(left, update.count as u64);
    let ty = operation_type(update.operation);
    let keeps = update.is_wanted && update.keeps_old;
    put_read(out, spot, at, left, bytes)?;
    put_widened(out, from, update.operation, left)?;
    put_copies_if(out, keeps, old, left, bytes)?;
    put_change(
        alloc,
        out,
        update.change,
        update.op,
        ty,
        left,
        right,
        update.count,
    )?;
    put_written(out, spot, root, at, left, bytes)?;
    let given = given_byte(update.keeps_old, old, left);
    put_copies_if(out, update.is_wanted, at, given, bytes)
}

/// The number that a step adds or takes away: 1, or of a pointer the bytes of an element.
pub(crate) fn step_number(operation: Ty, size: u64) -> u64
    ensures { result ≡ row.step_number operation size }
{
    match operation {
        Ty::Pointer(_) => size,
        Ty::Void | Ty::Int(_) | Ty::Array { .. } | Ty::Struct(_) => 1,
    }
}

/// A step by this number of such a place.
#[inline(never)]
#[tactic(auto, using(std::proofs::lemmas::List::append_assoc))]
pub(crate) fn put_step(
    alloc: Global,
    out: &mut Vec<Core>,
    step: Update,
    number: u64,
    spot: Spot,
    root: Root,
    at: Byte,
    bytes: u16,
    from: Ty,
) -> Result<(), AllocError>
    ensures { OnOk result (Appends out.old.items out.new.items (row.step_row step number spot root at bytes from)) }
{
    put_number(out, behind(at, pointer_bytes(spot)), number, step.count)?;
    put_update(alloc, out, step, spot, root, at, bytes, from)
}
