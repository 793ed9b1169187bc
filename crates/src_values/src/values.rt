//! Values of expressions: their bytes, conversions, and what operators on integers give.

ghost use Rattle.std.specs.Prelude.{◌≡◌, ◌<◌, ◌+◌, ◌*◌, ◌/◌, ◌%◌, ◌^◌, pos};
ghost use Rattle.c_ints.specs.Operators.{outcome, comparison};
ghost use Rattle.c_typed.specs.Views.{expression_of};
ghost use Rattle.src_values.specs.Seen.{quantity_of, datum_of, read_of, answer_in, unset_or_strays};
ghost use Rattle.src_values.specs.Values as stated;

use crate::arithmetic::outcome;
use crate::objects::{
    Byte, Datum, Number, Object, Pointer, ReadBytes, Spot, Undef, as_number, same_object,
};
use c_ints::{BinOp, IntTy, UnOp, Value, convert, size, unary};
use c_typed::{LogicalOp, StepOp, TCase, TExpr, Ty};

/// What an operator gives; or why it is undefined; or no rule is there for operands of this sort, which those of
/// a typed program never are.
#[derive(Clone, Copy)]
pub enum Answer {
    Gives(Datum),
    Fails(Undef),
    Strays,
}

/// The number of a type with these bits, cut to its width.
pub fn number(ty: IntTy, bits: u32) -> Datum
    ensures { datum_of result ≡ stated.number_of ty bits }
{
    Datum::Number(as_number(Value::new(ty, bits)))
}

/// An int, 1 where it holds and 0 where it doesn't.
pub fn truth_value(holds: bool) -> Datum
    ensures { datum_of result ≡ stated.truth_value holds }
{
    number(IntTy::Int, if holds { 1 } else { 0 })
}

/// How many bytes the value has.
pub fn byte_count(value: Datum) -> u8
    ensures { result ≡ stated.byte_count (datum_of value) }
{
    match value {
        Datum::Number(number) => size(number.ty),
        Datum::Pointer(_) => 2,
        Datum::Missing => 0,
    }
}

// The byte of this number of some bits, the lowest first.
fn byte_in(bits: u32, k: u8) -> u8
    ensures { result ≡ bits / 256 ^ k % 256 }
{
    match k {
        0 => (bits % 256) as u8,
        1 => (bits / 256 % 256) as u8,
        2 => (bits / 0x1_0000 % 256) as u8,
        3 => (bits / 0x100_0000) as u8,
        _ => 0,
    }
}

/// The byte of this number, the lowest first. Those of null are the number 0.
pub fn byte_of(value: Datum, k: u8) -> Byte
    ensures { result ≡ stated.byte_of (datum_of value) k }
{
    match value {
        Datum::Number(number) => Byte::Number(byte_in(number.value().bits(), k)),
        Datum::Pointer(Pointer::Null) => Byte::Number(0),
        Datum::Pointer(Pointer::Into { object, offset }) => Byte::Part {
            object,
            offset,
            high: k == 1,
        },
        Datum::Missing => Byte::Unset,
    }
}

/// The number that a byte holds.
pub fn number_in(byte: Byte) -> u8
    ensures { result ≡ stated.number_in byte }
{
    match byte {
        Byte::Number(number) => number,
        Byte::Unset | Byte::Part { .. } => 0,
    }
}

// A byte below a number that the bytes behind it make.
fn with_low(byte: Byte, more: u32) -> u32
    requires { more < 2 ^ 24 }
    ensures value { result ≡ stated.number_in byte + 256 * more }
    ensures bound { result < 256 * more + 256 }
{
    number_in(byte) as u32 + 256 * more
}

// The number that the bytes make.
#[tactic(auto, unfolding(crate::specs::Values::number_from))]
fn number_from(read: ReadBytes) -> u32
    ensures { result ≡ stated.number_from (read_of read) }
{
    match read {
        ReadBytes::Nothing => 0,
        ReadBytes::One(a) => with_low(a, 0),
        ReadBytes::Two(a, b) => with_low(a, with_low(b, 0)),
        ReadBytes::Three(a, b, c) => with_low(a, with_low(b, with_low(c, 0))),
        ReadBytes::Four(a, b, c, d) => with_low(a, with_low(b, with_low(c, with_low(d, 0)))),
    }
}

fn same_part(a: Object, f: u64, b: Object, g: u64) -> Option<Pointer>
    ensures { result ≡ stated.same_part a f b g }
{
    if same_object(a, b) && f == g {
        Some(Pointer::Into {
            object: a,
            offset: f,
        })
    } else {
        None
    }
}

/// The pointer that two bytes make: two numbers 0 make null, and the bytes of one pointer that pointer.
pub fn joined(low: Byte, high: Byte) -> Option<Pointer>
    ensures { result ≡ stated.joined low high }
{
    match low {
        Byte::Number(a) => match high {
            Byte::Number(b) if a == 0 && b == 0 => Some(Pointer::Null),
            _ => None,
        },
        Byte::Part {
            object: a,
            offset: f,
            high: false,
        } => match high {
            Byte::Part {
                object: b,
                offset: g,
                high: true,
            } => same_part(a, f, b, g),
            _ => None,
        },
        _ => None,
    }
}

// The pointer that two bytes make.
fn pointer_from(read: ReadBytes) -> Datum
    ensures { datum_of result ≡ stated.pointer_from (read_of read) }
{
    match read {
        ReadBytes::Two(low, high) => match joined(low, high) {
            Some(pointer) => Datum::Pointer(pointer),
            None => Datum::Missing,
        },
        _ => Datum::Missing,
    }
}

/// The value that bytes make as a type. That of a structure is none.
#[tactic(auto, unfolding(crate::specs::Values::value_from))]
pub fn value_from(ty: Ty, read: ReadBytes) -> Datum
    ensures { datum_of result ≡ stated.value_from ty (read_of read) }
{
    match ty {
        Ty::Int(ty) => number(ty, number_from(read)),
        Ty::Pointer(_) => pointer_from(read),
        Ty::Void | Ty::Array { .. } | Ty::Struct(_) => Datum::Missing,
    }
}

fn is_number(byte: Byte) -> bool
    ensures { result ≡ stated.is_number byte }
{
    match byte {
        Byte::Number(_) => true,
        Byte::Unset | Byte::Part { .. } => false,
    }
}

fn follows_in_pointer(read: ReadBytes, byte: Byte) -> bool
    ensures { result ≡ stated.follows_in_pointer (read_of read) byte }
{
    match read {
        ReadBytes::Nothing => true,
        ReadBytes::One(low)
        | ReadBytes::Two(low, _)
        | ReadBytes::Three(low, _, _)
        | ReadBytes::Four(low, _, _, _) => joined(low, byte).is_some(),
    }
}

/// Whether a byte may follow those that were read as a type: a number's are numbers, and the second one of
/// a pointer completes the first.
#[tactic(auto, unfolding(crate::specs::Values::fits_behind))]
pub fn fits_behind(ty: Ty, read: ReadBytes, byte: Byte) -> bool
    ensures { result ≡ stated.fits_behind ty (read_of read) byte }
{
    match ty {
        Ty::Int(_) => is_number(byte),
        Ty::Pointer(_) => follows_in_pointer(read, byte),
        Ty::Void | Ty::Array { .. } | Ty::Struct(_) => true,
    }
}

fn as_integer(ty: IntTy, value: Datum) -> Answer
    ensures { answer_in result ≡ stated.as_integer ty (datum_of value) }
{
    match value {
        Datum::Number(number) => {
            Answer::Gives(Datum::Number(as_number(convert(number.value(), ty))))
        }
        Datum::Pointer(_) => Answer::Strays,
        Datum::Missing => Answer::Fails(Undef::Unset),
    }
}

// The only integer that becomes a pointer is the constant 0.
fn as_pointer(value: Datum) -> Answer
    ensures { answer_in result ≡ stated.as_pointer (datum_of value) }
{
    match value {
        Datum::Number(_) => Answer::Gives(Datum::Pointer(Pointer::Null)),
        Datum::Pointer(pointer) => Answer::Gives(Datum::Pointer(pointer)),
        Datum::Missing => Answer::Fails(Undef::Unset),
    }
}

/// The value in this type. A missing value has no other type than void.
#[tactic(auto, unfolding(crate::specs::Values::converted))]
pub fn converted(ty: Ty, value: Datum) -> Answer
    ensures { answer_in result ≡ stated.converted ty (datum_of value) }
{
    match ty {
        Ty::Void => Answer::Gives(Datum::Missing),
        Ty::Int(ty) => as_integer(ty, value),
        Ty::Pointer(_) => as_pointer(value),
        Ty::Array { .. } | Ty::Struct(_) => Answer::Strays,
    }
}

fn is_null(pointer: Pointer) -> bool
    ensures { result ≡ stated.is_null pointer }
{
    match pointer {
        Pointer::Null => true,
        Pointer::Into { .. } => false,
    }
}

/// Whether the value is one that isn't 0; `None` for a missing one.
#[tactic(auto, unfolding(crate::specs::Values::truth_of))]
pub fn truth_of(value: Datum) -> Option<bool>
    ensures { result ≡ stated.truth_of (datum_of value) }
{
    match value {
        Datum::Number(number) => Some(number.value().number() != 0),
        Datum::Pointer(pointer) => Some(!is_null(pointer)),
        Datum::Missing => None,
    }
}

/// Whether the left operand of `&&` or `||` decides.
pub fn decides(op: LogicalOp, holds: bool) -> bool
    ensures { result ≡ stated.decides op holds }
{
    match op {
        LogicalOp::And => !holds,
        LogicalOp::Or => holds,
    }
}

/// Whether a label of a switch is that of its value.
pub fn is_case(value: Datum, case: &TCase) -> bool
    ensures { result ≡ stated.is_case (datum_of value) case.now }
{
    match value {
        Datum::Number(number) => number.value().number() == case.value.number(),
        Datum::Pointer(_) | Datum::Missing => false,
    }
}

/// What a unary operator gives.
#[tactic(auto, unfolding(crate::specs::Values::unary_answer))]
pub fn unary_answer(op: UnOp, value: Datum) -> Answer
    ensures { answer_in result ≡ stated.unary_answer op (datum_of value) }
{
    match value {
        Datum::Number(number) => {
            Answer::Gives(Datum::Number(as_number(unary(op, number.value()))))
        }
        Datum::Pointer(pointer) => Answer::Gives(truth_value(is_null(pointer))),
        Datum::Missing => Answer::Fails(Undef::Unset),
    }
}

fn bad_divisor(value: Datum) -> Option<Undef>
    ensures { result ≡ stated.bad_divisor (datum_of value) }
{
    match value {
        Datum::Number(number) if number.value().number() == 0 => Some(Undef::Division),
        _ => None,
    }
}

fn bad_count(ty: Ty, value: Datum) -> Option<Undef>
    ensures { result ≡ stated.bad_count ty (datum_of value) }
{
    let Ty::Int(ty) = ty else {
        return None;
    };
    match value {
        Datum::Number(count) => {
            let count = count.value().number();
            if count < 0 || size(ty) as i64 * 8 <= count {
                Some(Undef::Shift)
            } else {
                None
            }
        }
        Datum::Pointer(_) | Datum::Missing => None,
    }
}

/// What the right operand alone makes undefined.
pub fn bad_right(op: BinOp, ty: Ty, right: Datum) -> Option<Undef>
    ensures { result ≡ stated.bad_right op ty (datum_of right) }
{
    match op {
        BinOp::Div | BinOp::Rem => bad_divisor(right),
        BinOp::Shl | BinOp::Shr => bad_count(ty, right),
        _ => None,
    }
}

/// What an operator gives on integers, where the divisor isn't 0 and the count fits.
pub fn on_numbers(op: BinOp, a: Number, b: Number) -> Answer
    ensures { answer_in result ≡ stated.number_or_overflow (outcome op (quantity_of a) (quantity_of b)) }
{
    match outcome(op, a.value(), b.value()) {
        Some(value) => Answer::Gives(Datum::Number(as_number(value))),
        None => Answer::Fails(Undef::Overflow),
    }
}

/// What an operator answers of an operand that isn't of its sort: a missing one is unset.
pub fn astray(value: Datum) -> Answer
    ensures { answer_in result ≡ unset_or_strays (datum_of value) }
{
    match value {
        Datum::Missing => Answer::Fails(Undef::Unset),
        Datum::Number(_) | Datum::Pointer(_) => Answer::Strays,
    }
}

/// What a comparison says of two places in one object.
pub fn compared(op: BinOp, a: u64, b: u64) -> bool
    ensures { result ≡ comparison op (pos a) (pos b) }
{
    match op {
        BinOp::Lt => a < b,
        BinOp::Gt => a > b,
        BinOp::Le => a <= b,
        BinOp::Ge => a >= b,
        BinOp::Eq => a == b,
        BinOp::Ne => a != b,
        _ => false,
    }
}

/// What `++` and `--` count by: 1 in the type of the operation, or the int 1 where a pointer is moved.
pub fn one_in(operation: Ty) -> Datum
    ensures { datum_of result ≡ stated.one_in operation }
{
    match operation {
        Ty::Int(ty) => number(ty, 1),
        _ => number(IntTy::Int, 1),
    }
}

/// The lowest bit of a value.
pub fn lowest_bit(value: Datum) -> u8
    ensures { result ≡ stated.lowest_bit (datum_of value) }
{
    match value {
        Datum::Number(number) => (number.value().bits() % 2) as u8,
        Datum::Pointer(_) | Datum::Missing => 0,
    }
}

/// What a place holds after an assignment: a bit has the lowest bit alone.
#[tactic(auto, unfolding(crate::specs::Values::kept_in))]
pub fn kept_in(spot: Spot, value: Datum) -> Datum
    ensures { datum_of result ≡ stated.kept_in spot (datum_of value) }
{
    match spot {
        Spot::Bit { .. } => number(IntTy::UChar, lowest_bit(value) as u32),
        Spot::Device(_) | Spot::Memory(_) => value,
    }
}

/// How many bytes a write of a value has: one where a bit is written.
pub fn written_bytes(spot: Spot, value: Datum) -> u8
    ensures { result ≡ stated.written_bytes spot (datum_of value) }
{
    match spot {
        Spot::Bit { .. } => 1,
        Spot::Device(_) | Spot::Memory(_) => byte_count(value),
    }
}

/// Whether the value of `++` or `--` is the old one.
pub fn is_postfix(op: StepOp) -> bool
    ensures { result ≡ stated.is_postfix op }
{
    match op {
        StepOp::PostIncrement | StepOp::PostDecrement => true,
        StepOp::PreIncrement | StepOp::PreDecrement => false,
    }
}

/// The value of an expression after the write of its place: what the place holds afterwards, or the old value.
#[tactic(auto, using(crate::proofs::Sights::answers))]
pub fn answer_of(expr: &TExpr, spot: Spot, value: Datum) -> Datum
    ensures { datum_of result ≡ stated.answer_of (expression_of expr.now) spot (datum_of value) }
{
    match expr {
        TExpr::Step { op, .. } => {
            if is_postfix(*op) {
                value
            } else {
                kept_in(spot, value)
            }
        }
        _ => kept_in(spot, value),
    }
}
