//! Expressions and places, from the tree's root down (ISO/IEC 9899:1990, 6.3).
//!
//! Each function of the recursion has a small frame of its own, and each operation is made in a function that has
//! returned before the recursion goes on, hence `inline(never)`: a tree of thousands of levels stays within the call
//! stack.

ghost use Rattle.std.specs.Prelude.{◌≡◌, true, OnOk, OnErr, IfOk, [], ◌∷◌, ◌++◌, map};
ghost use Rattle.c_ints.specs.Range.{bytes_of};
ghost use Rattle.c_typed.specs.Types.{type_of, place_type};
ghost use Rattle.c_typed.specs.Views.{expression_of, place_of, arguments_of};
ghost use Rattle.core_code.specs.Tree as code;
ghost use Rattle.core_code.specs.View.{trees_in};
ghost use Rattle.core_code.specs.declared.code.Byte.TheVariants.{Frame};
ghost use Rattle.core_puts.specs.Bytes.{beyond, operation_type};
ghost use Rattle.c_typed.specs.Folding.{bits, constant_bits};
ghost use Rattle.lower_expr.specs.Layout.{layout_of, value_width, place_width, object_byte};
ghost use Rattle.lower_expr.specs.Lowering.{expr_code, address_code, pointer_code, change_code, shifts_by_constant, is_pointer, arguments_code, arguments_width};
ghost use Rattle.core_puts.specs.Puts.{Appends, sets};
ghost use Rattle.lower_expr.specs.Rows as row;
ghost use Rattle.lower_expr.specs.Spots.{spot_of};

use crate::assignments::{
    Update, behind_pointer, put_address_of, put_assigned, put_step, put_update, put_value,
    step_number, step_of, update_of,
};
use crate::offsets::{put_difference, put_member, put_offset};
use crate::operators::{
    put_logical, put_shift, put_tested, put_unary_of, put_widened, shifts_by_constant,
};
use crate::places::{
    Locals, Spot, bytes_of_place, bytes_of_value, copy_of, object_byte, spot_of, width,
};
use crate::structures::put_struct_assign;
use c_ints::{BinOp, Value, size};
use c_typed::{LogicalOp, Object, TExpr, TPlace, Ty};
use core_code::{Byte, Core};
use core_puts::{
    beyond, frame_byte, operation_type, put_address, put_call, put_copies, put_copies_if, put_if,
    put_number, put_operator,
};
use pic_world::Root;
use std::alloc::{AllocError, Global};

/// Appends code that evaluates an expression, and where its value is wanted leaves it at the offset `base` of the frame
/// of a function copy, lowest byte first. Without memory for it the code stays as it was.
pub fn lower_expr(
    alloc: Global,
    e: &TExpr,
    copy: u16,
    base: u16,
    wanted: bool,
    places: &Locals,
    out: &mut Vec<Core>,
) -> Result<(), AllocError>
    ensures code { OnOk result (Appends out.old.items out.new.items (expr_code (layout_of places.now) copy base wanted (expression_of e.now))) }
    ensures refused { OnErr result (out.new.items ≡ out.old.items) }
{
    let mut code = Vec::new(alloc);
    expression(alloc, e, copy, base, wanted, places, &mut code)?;
    out.append(&mut code)
}

#[inline(never)]
#[tactic(auto, using(crate::proofs::Numbers::bits_is))]
fn put_constant(out: &mut Vec<Core>, at: Byte, value: &Value) -> Result<(), AllocError>
    ensures { OnOk result (Appends out.old.items out.new.items (sets at (bits value.now) (bytes_of value.now.ty))) }
{
    put_number(out, at, value.bits() as u64, size(value.ty()) as u16)
}

// A binary operator whose operands stand one behind the other; a constant count of a shift stands nowhere yet.
#[inline(never)]
fn put_binary_of(
    alloc: Global,
    out: &mut Vec<Core>,
    op: BinOp,
    ty: Ty,
    right: &TExpr,
    at: Byte,
    next: Byte,
    size: u16,
) -> Result<(), AllocError>
    ensures { OnOk result (Appends out.old.items out.new.items (row.binary_row (shifts_by_constant op (expression_of right.now)) op (operation_type ty) at next (constant_bits (expression_of right.now)) size)) }
{
    if shifts_by_constant(op, right) {
        put_shift(
            alloc,
            out,
            op,
            operation_type(ty),
            at,
            next,
            right.constant_bits(),
            size,
        )
    } else {
        put_operator(out, op, operation_type(ty), at, next)
    }
}

fn is_pointer(ty: Ty) -> bool
    ensures { result ≡ is_pointer ty }
{
    match ty {
        Ty::Pointer(_) => true,
        Ty::Void | Ty::Int(_) | Ty::Array { .. } | Ty::Struct(_) => false,
    }
}

// `&&` or `||` of the int at `at`, whose right operand, of `right_size` bytes, `right` leaves there.
#[inline(never)]
fn put_connected(
    alloc: Global,
    out: &mut Vec<Core>,
    op: LogicalOp,
    at: Byte,
    left_size: u16,
    right: Vec<Core>,
    right_size: u16,
) -> Result<(), AllocError>
    ensures { OnOk result (Appends out.old.items out.new.items (row.logical_row op at left_size (trees_in right.items ++ row.tested at right_size 1 0 ∷ []) ∷ [])) }
{
    let mut other = right;
    put_tested(alloc, &mut other, at, right_size, 1, 0)?;
    put_logical(alloc, out, op, at, left_size, other)
}

// A call whose arguments stand at `at`: the parameters are the front of the called copy's frame.
#[inline(never)]
#[tactic(auto, using(std::proofs::lemmas::List::append_assoc))]
fn put_called(
    out: &mut Vec<Core>,
    wanted: bool,
    root: Root,
    callee: u16,
    at: Byte,
    arguments: u16,
    count: u16,
) -> Result<(), AllocError>
    ensures { OnOk result (Appends out.old.items out.new.items (row.called_row wanted root callee at arguments count)) }
{
    put_copies(out, frame_byte(callee, 0), at, arguments)?;
    put_call(out, callee)?;
    put_copies_if(out, wanted, at, Byte::Result { root, k: 0 }, count)
}

#[inline(never)]
fn put_updated(
    alloc: Global,
    out: &mut Vec<Core>,
    update: Update,
    place: &TPlace,
    copy: u16,
    base: u16,
    places: &Locals,
) -> Result<(), AllocError>
    ensures { OnOk result (Appends out.old.items out.new.items (row.update_row update (spot_of (layout_of places.now) copy (place_of place.now)) (layout_of places.now).root (Frame copy base) (place_width (layout_of places.now) (place_of place.now)) (place_type (place_of place.now)).ty)) }
{
    put_update(
        alloc,
        out,
        update,
        spot_of(place, copy, places),
        places.root,
        frame_byte(copy, base),
        bytes_of_place(places, place),
        place.ty().ty,
    )
}

#[inline(never)]
fn put_stepped(
    alloc: Global,
    out: &mut Vec<Core>,
    step: Update,
    number: u64,
    place: &TPlace,
    copy: u16,
    base: u16,
    places: &Locals,
) -> Result<(), AllocError>
    ensures { OnOk result (Appends out.old.items out.new.items (row.step_row step number (spot_of (layout_of places.now) copy (place_of place.now)) (layout_of places.now).root (Frame copy base) (place_width (layout_of places.now) (place_of place.now)) (place_type (place_of place.now)).ty)) }
{
    put_step(
        alloc,
        out,
        step,
        number,
        spot_of(place, copy, places),
        places.root,
        frame_byte(copy, base),
        bytes_of_place(places, place),
        place.ty().ty,
    )
}

/// An expression, with its value at `base` if it is wanted.
#[cycle(expression)]
#[inline(never)]
#[tactic(auto, using(crate::proofs::Sights::all_codes, std::proofs::lemmas::List::append_assoc))]
pub(crate) fn expression(
    alloc: Global,
    e: &TExpr,
    copy: u16,
    base: u16,
    wanted: bool,
    places: &Locals,
    out: &mut Vec<Core>,
) -> Result<(), AllocError>
    ensures { OnOk result (Appends out.old.items out.new.items (expr_code (layout_of places.now) copy base wanted (expression_of e.now))) }
{
    match e {
        TExpr::Constant { value, .. } => put_constant(out, frame_byte(copy, base), value),
        TExpr::Read { place, ty, .. } => {
            lower_pointer(alloc, place, copy, base, places, out)?;
            let spot = spot_of(place, copy, places);
            put_value(out, spot, frame_byte(copy, base), width(places, *ty))
        }
        TExpr::Address { place, .. } => {
            lower_pointer(alloc, place, copy, base, places, out)?;
            put_address_of(out, spot_of(place, copy, places), frame_byte(copy, base))
        }
        TExpr::Convert { operand, ty, .. } | TExpr::Cast { operand, ty, .. } => {
            expression(alloc, operand, copy, base, true, places, out)?;
            put_widened(out, operand.ty(), *ty, frame_byte(copy, base))
        }
        TExpr::Unary {
            op,
            operand,
            ty,
            ..
        } => {
            expression(alloc, operand, copy, base, true, places, out)?;
            let size = bytes_of_value(places, operand);
            put_unary_of(out, *op, operation_type(*ty), frame_byte(copy, base), size)
        }
        TExpr::Binary {
            op,
            left,
            right,
            ..
        } => {
            expression(alloc, left, copy, base, true, places, out)?;
            let next = beyond(base, bytes_of_value(places, left) as u64);
            lower_change(alloc, *op, right, copy, next, places, out)?;
            put_binary_of(
                alloc,
                out,
                *op,
                left.ty(),
                right,
                frame_byte(copy, base),
                frame_byte(copy, next),
                bytes_of_value(places, right),
            )
        }
        TExpr::Offset {
            op,
            left,
            right,
            size,
            ..
        } => {
            expression(alloc, left, copy, base, true, places, out)?;
            expression(alloc, right, copy, beyond(base, 2), true, places, out)?;
            put_offset(
                out,
                *op,
                frame_byte(copy, base),
                is_pointer(left.ty()),
                *size,
            )
        }
        TExpr::Difference {
            left,
            right,
            size,
            ..
        } => {
            expression(alloc, left, copy, base, true, places, out)?;
            expression(alloc, right, copy, beyond(base, 2), true, places, out)?;
            put_difference(out, frame_byte(copy, base), *size)
        }
        TExpr::Logical {
            op,
            left,
            right,
            ..
        } => {
            expression(alloc, left, copy, base, true, places, out)?;
            let other = branch(alloc, right, copy, base, true, places)?;
            put_connected(
                alloc,
                out,
                *op,
                frame_byte(copy, base),
                bytes_of_value(places, left),
                other,
                bytes_of_value(places, right),
            )
        }
        TExpr::Conditional {
            condition,
            then,
            otherwise,
            ..
        } => {
            expression(alloc, condition, copy, base, true, places, out)?;
            let yes = branch(alloc, then, copy, base, wanted, places)?;
            let no = branch(alloc, otherwise, copy, base, wanted, places)?;
            let size = bytes_of_value(places, condition);
            put_if(alloc, out, frame_byte(copy, base), size, yes, no)
        }
        TExpr::Comma { left, right, .. } => {
            expression(alloc, left, copy, base, false, places, out)?;
            expression(alloc, right, copy, base, wanted, places, out)
        }
        TExpr::Assign {
            place,
            value,
            ty,
            ..
        } => {
            lower_pointer(alloc, place, copy, base, places, out)?;
            let next = behind_pointer(place, copy, base, places);
            expression(alloc, value, copy, next, true, places, out)?;
            let spot = spot_of(place, copy, places);
            put_assigned(
                out,
                wanted,
                spot,
                places.root,
                frame_byte(copy, base),
                width(places, *ty),
            )
        }
        TExpr::StructAssign {
            place,
            from,
            size,
            ..
        } => {
            lower_pointer(alloc, place, copy, base, places, out)?;
            let next = behind_pointer(place, copy, base, places);
            lower_pointer(alloc, from, copy, next, places, out)?;
            put_struct_assign(out, place, from, *size, copy, base, places)
        }
        TExpr::Update {
            op,
            place,
            value,
            operation,
            size,
            ..
        } => {
            lower_pointer(alloc, place, copy, base, places, out)?;
            let next = behind_pointer(place, copy, base, places);
            lower_change(alloc, *op, value, copy, next, places, out)?;
            let update = update_of(wanted, places, *op, place, value, *operation, *size);
            put_updated(alloc, out, update, place, copy, base, places)
        }
        TExpr::Step {
            op,
            place,
            operation,
            size,
            ..
        } => {
            lower_pointer(alloc, place, copy, base, places, out)?;
            let step = step_of(wanted, places, *op, *operation);
            let number = step_number(*operation, *size);
            put_stepped(alloc, out, step, number, place, copy, base, places)
        }
        TExpr::Call {
            function,
            arguments,
            ty,
            ..
        } => {
            let bytes = lower_arguments(alloc, arguments, copy, base, places, out)?;
            let callee = copy_of(places, *function);
            let at = frame_byte(copy, base);
            put_called(
                out,
                wanted,
                places.root,
                callee,
                at,
                bytes,
                width(places, *ty),
            )
        }
    }
}

// The code of an expression by itself.
#[cycle(expression)]
#[inline(never)]
fn branch(
    alloc: Global,
    e: &TExpr,
    copy: u16,
    base: u16,
    wanted: bool,
    places: &Locals,
) -> Result<Vec<Core>, AllocError>
    ensures { IfOk result (λ code. trees_in code.items ≡ expr_code (layout_of places.now) copy base wanted (expression_of e.now)) }
{
    let mut part = Vec::new(alloc);
    expression(alloc, e, copy, base, wanted, places, &mut part)?;
    Ok(part)
}

// The right operand of an operator; a constant count of a shift is no code of its own.
#[cycle(expression)]
#[inline(never)]
#[tactic(auto, using(crate::proofs::Numbers::append_nothing))]
fn lower_change(
    alloc: Global,
    op: BinOp,
    value: &TExpr,
    copy: u16,
    base: u16,
    places: &Locals,
    out: &mut Vec<Core>,
) -> Result<(), AllocError>
    ensures { OnOk result (Appends out.old.items out.new.items (change_code (shifts_by_constant op (expression_of value.now)) (expr_code (layout_of places.now) copy base true (expression_of value.now)))) }
{
    if shifts_by_constant(op, value) {
        Ok(())
    } else {
        expression(alloc, value, copy, base, true, places, out)
    }
}

/// The address of a place at `base`, where it has to be computed.
#[cycle(expression)]
#[inline(never)]
#[tactic(auto, using(crate::proofs::Numbers::append_nothing))]
pub(crate) fn lower_pointer(
    alloc: Global,
    place: &TPlace,
    copy: u16,
    base: u16,
    places: &Locals,
    out: &mut Vec<Core>,
) -> Result<(), AllocError>
    ensures { OnOk result (Appends out.old.items out.new.items (pointer_code (spot_of (layout_of places.now) copy (place_of place.now)) (address_code (layout_of places.now) copy base (place_of place.now)))) }
{
    match spot_of(place, copy, places) {
        Spot::Fixed(_) | Spot::Bit { .. } => Ok(()),
        Spot::Computed => lower_address(alloc, place, copy, base, places, out),
    }
}

/// The address of a place at `base`. A bit has none.
#[cycle(expression)]
#[inline(never)]
#[tactic(auto, using(crate::proofs::Sights::all_addresses, crate::proofs::Numbers::append_nothing, std::proofs::lemmas::List::append_assoc))]
pub fn lower_address(
    alloc: Global,
    place: &TPlace,
    copy: u16,
    base: u16,
    places: &Locals,
    out: &mut Vec<Core>,
) -> Result<(), AllocError>
    ensures { OnOk result (Appends out.old.items out.new.items (address_code (layout_of places.now) copy base (place_of place.now))) }
{
    match place {
        TPlace::Name { object, .. } => put_name_address(out, *object, copy, base, places),
        TPlace::Bit { .. } => Ok(()),
        TPlace::Member { whole, offset, .. } => {
            lower_address(alloc, whole, copy, base, places, out)?;
            put_member(
                out,
                frame_byte(copy, base),
                *offset,
                Byte::Result {
                    root: places.root,
                    k: 0,
                },
            )
        }
        TPlace::Deref { pointer, .. } => expression(alloc, pointer, copy, base, true, places, out),
    }
}

#[inline(never)]
fn put_name_address(
    out: &mut Vec<Core>,
    object: Object,
    copy: u16,
    base: u16,
    places: &Locals,
) -> Result<(), AllocError>
    ensures { OnOk result (Appends out.old.items out.new.items (code.Address (Frame copy base) (object_byte (layout_of places.now) copy object) ∷ [])) }
{
    put_address(
        out,
        frame_byte(copy, base),
        object_byte(object, copy, places),
    )
}

// The arguments of a call, one behind the other; the answer is how many bytes they have.
#[cycle(expression)]
#[inline(never)]
fn lower_arguments(
    alloc: Global,
    arguments: &[TExpr],
    copy: u16,
    base: u16,
    places: &Locals,
    out: &mut Vec<Core>,
) -> Result<u16, AllocError>
    ensures code { OnOk result (Appends out.old.items out.new.items (arguments_code (layout_of places.now) copy base 0 (arguments_of (map expression_of arguments.now)))) }
    ensures bytes { IfOk result (λ bytes. bytes ≡ arguments_width (layout_of places.now) 0 (arguments_of (map expression_of arguments.now))) }
{
    let mut before = 0;
    for argument in arguments {
        expression(
            alloc,
            argument,
            copy,
            beyond(base, before as u64),
            true,
            places,
            out,
        )?;
        before = beyond(before, bytes_of_value(places, argument) as u64);
    }
    Ok(before)
}
