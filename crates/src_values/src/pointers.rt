//! Pointers: where they lead, and operators on them and on values of any kind.

ghost use Rattle.std.specs.Prelude.{◌≡◌, ℕ, ◌<◌, ◌^◌, ◌-◌, ◌&&◌, pos, negsuc, ◌≤ℤ◌, ◌<ℤ◌, ◌-ℤ◌, ◌*ℤ◌, int_div, unsigned_abs, List};
ghost use Rattle.c_ints.specs.Operators.{cut_to};
ghost use Rattle.c_typed.specs.Views.{program_of};
ghost use Rattle.src_values.specs.Data as values;
ghost use Rattle.src_values.specs.Objects as objects;
ghost use Rattle.src_values.specs.Seen.{quantity_of, datum_of, answer_in, are_alive, has_next, signed};
ghost use Rattle.src_values.specs.Values as stated;
ghost use Rattle.src_values.specs.declared.objects.CopyOf.{CopyOf};

use crate::arithmetic::{cut, wide};
use crate::names::object_bytes;
use crate::objects::{Datum, Number, Object, Pointer, Spot, Undef, as_number, same_object};
use crate::values::{Answer, astray, bad_right, compared, converted, on_numbers, truth_value};
use c_ints::{BinOp, IntTy, Value, convert};
use c_typed::{Ty, Typed};

fn is_minus(op: BinOp) -> bool
    ensures { result ≡ stated.is_minus op }
{
    match op {
        BinOp::Sub => true,
        _ => false,
    }
}

// So many elements, down for `-`: how many bytes they have.
fn distance(op: BinOp, size: u64, count: Number) -> i128
    ensures value { result ≡ stated.distance op size (quantity_of count).number }
    ensures least { negsuc (2 ^ 100) ≤ℤ result }
    ensures greatest { result <ℤ pos (2 ^ 100) }
{
    let bytes = times(count.value(), size);
    if is_minus(op) { -bytes } else { bytes }
}

fn times(count: Value, size: u64) -> i128
    ensures value { result ≡ count.number *ℤ pos size }
    ensures least { negsuc (2 ^ 100 - 1) ≤ℤ result }
    ensures greatest { result <ℤ pos (2 ^ 100) }
{
    wide(count) * size as i128
}

// The elements between two places of an object, cut to an int.
fn elements_between(f: u64, g: u64, size: u64) -> Datum
    ensures { datum_of result ≡ values.Number (cut_to IntTy.Int (int_div (pos f -ℤ pos g) (pos size))) }
{
    let bytes = f as i128 - g as i128;
    Datum::Number(as_number(cut(IntTy::Int, divided(bytes, size))))
}

// So many bytes in elements of a size.
fn divided(bytes: i128, size: u64) -> i128
    requires { unsigned_abs bytes < 2 ^ 64 }
    ensures { result ≡ int_div bytes (pos size) }
{
    if size == 0 { 0 } else { bytes / size as i128 }
}

/// The byte so many after the start of an object.
pub fn behind(object: Object, offset: u64) -> Spot
    ensures { result ≡ objects.behind object offset }
{
    Spot::Memory(Pointer::Into { object, offset })
}

/// The following byte, which need not be there.
pub fn next_byte(spot: Spot) -> Spot
    ensures { has_next spot → result ≡ objects.next_byte spot }
{
    match spot {
        Spot::Memory(Pointer::Into { object, offset }) => Spot::Memory(Pointer::Into {
            object,
            offset: offset.saturating_add(1),
        }),
        other => other,
    }
}

// A place moved by so many bytes in an object, or just past it.
fn in_range(object: Object, size: u64, at: i128) -> Option<Pointer>
    ensures { result ≡ objects.in_range object size at }
{
    if at < 0 || (size as i128) < at {
        None
    } else {
        let offset = at as u64;
        Some(Pointer::Into { object, offset })
    }
}

// A pointer moved by so many bytes.
#[tactic(auto, unfolding(crate::specs::Objects::moved))]
fn moved_by(program: &Typed, pointer: Pointer, by: i128) -> Option<Pointer>
    requires least { negsuc (2 ^ 100) ≤ℤ by }
    requires greatest { by <ℤ pos (2 ^ 100) }
    ensures { result ≡ objects.moved (program_of program.now) pointer by }
{
    match pointer {
        Pointer::Null => { if by == 0 { Some(pointer) } else { None } }
        Pointer::Into { object, offset } => {
            in_range(object, object_bytes(program, object), offset as i128 + by)
        }
    }
}

/// A pointer moved up or down by so many bytes; none where it comes out of its object and isn't the
/// byte just past the end. Null moves by 0 alone.
pub fn moved(program: &Typed, pointer: Pointer, down: bool, by: u64) -> Option<Pointer>
    ensures { result ≡ objects.moved (program_of program.now) pointer (signed down by) }
{
    let by = by as i128;
    moved_by(program, pointer, if down { -by } else { by })
}

// == on pointers to two objects, which are alive or not.
fn apart(program: &Typed, alive: bool, a: Object, f: u64, b: Object, g: u64) -> Option<Undef>
    ensures { (active : List CopyOf) → alive ≡ (objects.is_alive active a && objects.is_alive active b) → result ≡ stated.apart (program_of program.now) active a f b g }
{
    if !alive {
        return Some(Undef::Inactive);
    }
    let m = object_bytes(program, a);
    let n = object_bytes(program, b);
    if (f == m && g < n) || (f < m && g == n) {
        Some(Undef::Past)
    } else {
        None
    }
}

// Whether two pointers are equal; `turned` for !=.
fn equality(program: &Typed, alive: bool, turned: bool, x: Pointer, y: Pointer) -> Answer
    ensures { (active : List CopyOf) → alive ≡ are_alive active (values.Pointer x) (values.Pointer y) → answer_in result ≡ stated.equality (program_of program.now) active turned x y }
{
    match x {
        Pointer::Null => match y {
            Pointer::Null => Answer::Gives(truth_value(!turned)),
            Pointer::Into { .. } => Answer::Gives(truth_value(turned)),
        },
        Pointer::Into {
            object: a,
            offset: f,
        } => match y {
            Pointer::Null => Answer::Gives(truth_value(turned)),
            Pointer::Into {
                object: b,
                offset: g,
            } => {
                if same_object(a, b) {
                    return Answer::Gives(truth_value((f == g) != turned));
                }
                match apart(program, alive, a, f, b, g) {
                    Some(kind) => Answer::Fails(kind),
                    None => Answer::Gives(truth_value(turned)),
                }
            }
        },
    }
}

fn on_pointers(program: &Typed, alive: bool, op: BinOp, x: Pointer, y: Pointer) -> Answer
    ensures { (active : List CopyOf) → alive ≡ are_alive active (values.Pointer x) (values.Pointer y) → answer_in result ≡ stated.on_pointers (program_of program.now) active op x y }
{
    match op {
        BinOp::Eq => equality(program, alive, false, x, y),
        BinOp::Ne => equality(program, alive, true, x, y),
        _ => ordered(op, x, y),
    }
}

fn on_values(program: &Typed, alive: bool, op: BinOp, left: Datum, right: Datum) -> Answer
    ensures { (active : List CopyOf) → alive ≡ are_alive active (datum_of left) (datum_of right) → answer_in result ≡ stated.on_values (program_of program.now) active op (datum_of left) (datum_of right) }
{
    match left {
        Datum::Number(a) => match right {
            Datum::Number(b) => on_numbers(op, a, b),
            _ => astray(right),
        },
        Datum::Pointer(x) => match right {
            Datum::Pointer(y) => on_pointers(program, alive, op, x, y),
            _ => astray(right),
        },
        Datum::Missing => Answer::Fails(Undef::Unset),
    }
}

/// What a binary operator gives. `ty` is the type of the operation. Where both operands are pointers,
/// `alive` says whether what they point to is alive.
#[tactic(auto, unfolding(crate::specs::Values::binary_answer))]
pub fn binary_answer(
    program: &Typed,
    alive: bool,
    op: BinOp,
    ty: Ty,
    left: Datum,
    right: Datum,
) -> Answer
    ensures { (active : List CopyOf) → alive ≡ are_alive active (datum_of left) (datum_of right) → answer_in result ≡ stated.binary_answer (program_of program.now) active op ty (datum_of left) (datum_of right) }
{
    match bad_right(op, ty, right) {
        Some(kind) => Answer::Fails(kind),
        None => on_values(program, alive, op, left, right),
    }
}

// A pointer moved by so many elements.
fn stepped(program: &Typed, op: BinOp, size: u64, pointer: Pointer, count: Number) -> Answer
    ensures { answer_in result ≡ stated.pointer_or_outside (objects.moved (program_of program.now) pointer (stated.distance op size (quantity_of count).number)) }
{
    match moved_by(program, pointer, distance(op, size, count)) {
        Some(pointer) => Answer::Gives(Datum::Pointer(pointer)),
        None => Answer::Fails(Undef::Outside),
    }
}

/// A pointer moved by an integer's number of elements; the integer may stand first.
#[tactic(auto, unfolding(crate::specs::Values::offset_answer))]
pub fn offset_answer(program: &Typed, op: BinOp, size: u64, left: Datum, right: Datum) -> Answer
    ensures { answer_in result ≡ stated.offset_answer (program_of program.now) op size (datum_of left) (datum_of right) }
{
    match left {
        Datum::Pointer(pointer) => match right {
            Datum::Number(count) => stepped(program, op, size, pointer, count),
            _ => astray(right),
        },
        Datum::Number(count) => match right {
            Datum::Pointer(pointer) => stepped(program, op, size, pointer, count),
            _ => astray(right),
        },
        Datum::Missing => Answer::Fails(Undef::Unset),
    }
}

// What the operator of an assignment gives in an integer type: the old value, converted to it, is the left operand.
fn changed_in(program: &Typed, op: BinOp, ty: IntTy, old: Datum, right: Datum) -> Answer
    ensures { (active : List CopyOf) → answer_in result ≡ stated.operated (program_of program.now) active op (Ty.Int ty) (stated.as_integer ty (datum_of old)) (datum_of right) }
{
    match old {
        Datum::Number(number) => {
            let left = Datum::Number(as_number(convert(number.value(), ty)));
            binary_answer(program, true, op, Ty::Int(ty), left, right)
        }
        Datum::Pointer(_) => Answer::Strays,
        Datum::Missing => Answer::Fails(Undef::Unset),
    }
}

#[tactic(auto, unfolding(crate::specs::Values::converted))]
fn changed_by(
    program: &Typed,
    op: BinOp,
    size: u64,
    operation: Ty,
    old: Datum,
    right: Datum,
) -> Answer
    ensures { (active : List CopyOf) → answer_in result ≡ stated.changed_by (program_of program.now) active op size operation (datum_of old) (datum_of right) }
{
    match operation {
        Ty::Pointer(_) => offset_answer(program, op, size, old, right),
        Ty::Int(ty) => changed_in(program, op, ty, old, right),
        Ty::Void => binary_answer(program, true, op, operation, Datum::Missing, right),
        Ty::Array { .. } | Ty::Struct(_) => Answer::Strays,
    }
}

fn then_converted(ty: Ty, answer: Answer) -> Answer
    ensures { answer_in result ≡ stated.then_converted ty (answer_in answer) }
{
    match answer {
        Answer::Gives(value) => converted(ty, value),
        Answer::Fails(_) | Answer::Strays => answer,
    }
}

/// The new value of a place of type `ty`: the old one, converted to the type of the operation, is the left
/// operand. An element has `size` bytes where that is a pointer.
#[tactic(auto, unfolding(crate::specs::Values::change_answer))]
pub fn change_answer(
    program: &Typed,
    op: BinOp,
    operation: Ty,
    size: u64,
    ty: Ty,
    old: Datum,
    right: Datum,
) -> Answer
    ensures { (active : List CopyOf) → answer_in result ≡ stated.change_answer (program_of program.now) active op operation size ty (datum_of old) (datum_of right) }
{
    then_converted(ty, changed_by(program, op, size, operation, old, right))
}

// < and its like on pointers, by their places in one object.
fn ordered(op: BinOp, x: Pointer, y: Pointer) -> Answer
    ensures { answer_in result ≡ stated.order op x y }
{
    match x {
        Pointer::Into {
            object: a,
            offset: f,
        } => match y {
            Pointer::Into {
                object: b,
                offset: g,
            } if same_object(a, b) => Answer::Gives(truth_value(compared(op, f, g))),
            _ => Answer::Fails(Undef::Order),
        },
        Pointer::Null => Answer::Fails(Undef::Order),
    }
}

/// How many elements lie between two pointers.
#[tactic(auto, unfolding(crate::specs::Values::difference_answer))]
pub fn difference_answer(size: u64, left: Datum, right: Datum) -> Answer
    ensures { answer_in result ≡ stated.difference_answer size (datum_of left) (datum_of right) }
{
    match left {
        Datum::Pointer(x) => match right {
            Datum::Pointer(y) => between(size, x, y),
            _ => astray(right),
        },
        Datum::Number(_) => astray(right),
        Datum::Missing => Answer::Fails(Undef::Unset),
    }
}

#[tactic(auto, unfolding(crate::specs::Values::difference_answer))]
fn between(size: u64, x: Pointer, y: Pointer) -> Answer
    ensures { answer_in result ≡ stated.difference_answer size (values.Pointer x) (values.Pointer y) }
{
    match x {
        Pointer::Into {
            object: a,
            offset: f,
        } => match y {
            Pointer::Into {
                object: b,
                offset: g,
            } if same_object(a, b) => Answer::Gives(elements_between(f, g, size)),
            _ => Answer::Fails(Undef::Order),
        },
        Pointer::Null => Answer::Fails(Undef::Order),
    }
}
