//! The operators and conversions on integer values.

ghost use Rattle.std.specs.Prelude.{◌≡◌, ◌<◌, ◌≤◌, ◌^◌, ◌-◌, ℤ, pos, negsuc, ◌≤ℤ◌, ◌<ℤ◌, ◌+ℤ◌, ◌-ℤ◌, ◌*ℤ◌, neg_ℤ, bit_and, bit_or, bit_xor, int_div, int_rem, unsigned_abs, ◌≢◌, Option, IsTrue, IsFalse, ◌⊎◌, ◌↔◌};
ghost use Rattle.std.specs.Int.{int_shr};
ghost use Rattle.c_ints.specs.Range.{IsInRange, cut, pattern};
ghost use Rattle.c_ints.specs.Quantity.{Quantity};
ghost use Rattle.c_ints.specs.Conversions.{promoted};
ghost use Rattle.c_ints.specs.Operators.{cut_to, shifts, divides_badly, shifts_badly, has_no_value, value_of, outcome, comparison, unary_type, exact_unary, truth};

use crate::types::{IntTy, least_of, promote, size};
use crate::value::Value;

/// The binary operators whose operands are both evaluated (ISO/IEC 9899:1990, 6.3.5 to 6.3.12):
/// `* / % + - << >> < > <= >= == != & ^ |`.
#[derive(Clone, Copy, PartialEq, Eq)]
pub enum BinOp {
    Mul,
    Div,
    Rem,
    Add,
    Sub,
    Shl,
    Shr,
    Lt,
    Gt,
    Le,
    Ge,
    Eq,
    Ne,
    And,
    Xor,
    Or,
}

/// The unary operators on values (ISO/IEC 9899:1990, 6.3.3.3): `+ - ~ !`.
#[derive(Clone, Copy, PartialEq, Eq)]
pub enum UnOp {
    Plus,
    Minus,
    Not,
    Bang,
}

/// The value cut to the width of the type; a value that the type holds keeps its number.
pub fn convert(v: Value, ty: IntTy) -> Value
    ensures value { result ≡ record { ty = ty; number = cut ty v.number } }
    ensures same { IsInRange ty v.number → result ≡ record { ty = ty; number = v.number } }
{
    Value::cut(ty, v.wide())
}

/// What a binary operator gives: its value on whole numbers without bound, cut to the width of the
/// type of the result, which is int for a comparison and that of the left operand otherwise.
/// `None` exactly where the divisor is 0, where the most negative int or long is divided by -1,
/// and where a shift's count is below 0 or not below the width of the left operand.
pub fn apply(op: BinOp, a: Value, b: Value) -> Option<Value>
    requires left { promoted a.ty ≡ a.ty }
    requires right { promoted b.ty ≡ b.ty }
    requires types { IsFalse (shifts op) → a.ty ≡ b.ty }
    ensures { result ≡ outcome op a b }
{
    if is_undefined(op, a, b) {
        None
    } else {
        Some(defined(op, a, b))
    }
}

fn is_undefined(op: BinOp, a: Value, b: Value) -> bool
    ensures { result ≡ has_no_value op a.ty a.number b.number }
{
    match op {
        BinOp::Div | BinOp::Rem => {
            b.number() == 0 || (a.number() == least_of(a.ty()) && b.number() == -1)
        }
        BinOp::Shl | BinOp::Shr => b.number() < 0 || size(a.ty()) as i64 * 8 <= b.number(),
        _ => false,
    }
}

fn defined(op: BinOp, a: Value, b: Value) -> Value
    requires value { IsFalse (has_no_value op a.ty a.number b.number) }
    requires types { IsFalse (shifts op) → a.ty ≡ b.ty }
    ensures { result ≡ value_of op a b }
{
    match op {
        BinOp::Mul => product(a, b),
        BinOp::Div => quotient(a, b),
        BinOp::Rem => remainder(a, b),
        BinOp::Add => sum(a, b),
        BinOp::Sub => difference(a, b),
        BinOp::Shl => shifted_left(a, b),
        BinOp::Shr => shifted_right(a, b),
        BinOp::And => common_bits(a, b),
        BinOp::Xor => differing_bits(a, b),
        BinOp::Or => bits_of_either(a, b),
        BinOp::Lt | BinOp::Gt | BinOp::Le | BinOp::Ge | BinOp::Eq | BinOp::Ne => {
            truth_value(compared(op, a.number(), b.number()))
        }
    }
}

fn truth_value(holds: bool) -> Value
    ensures { result ≡ cut_to IntTy.Int (truth holds) }
{
    Value::cut(IntTy::Int, if holds { 1 } else { 0 })
}

fn compared(op: BinOp, x: i64, y: i64) -> bool
    ensures { result ≡ comparison op x y }
{
    match op {
        BinOp::Lt => x < y,
        BinOp::Gt => x > y,
        BinOp::Le => x <= y,
        BinOp::Ge => x >= y,
        BinOp::Eq => x == y,
        BinOp::Ne => x != y,
        _ => false,
    }
}

fn sum(a: Value, b: Value) -> Value
    ensures { result ≡ cut_to a.ty (a.number +ℤ b.number) }
{
    Value::cut(a.ty(), a.wide() + b.wide())
}

fn difference(a: Value, b: Value) -> Value
    ensures { result ≡ cut_to a.ty (a.number -ℤ b.number) }
{
    Value::cut(a.ty(), a.wide() - b.wide())
}

fn product(a: Value, b: Value) -> Value
    ensures { result ≡ cut_to a.ty (a.number *ℤ b.number) }
{
    Value::cut(a.ty(), a.wide() * b.wide())
}

fn quotient(a: Value, b: Value) -> Value
    requires { b.number ≢ pos 0 }
    ensures { result ≡ cut_to a.ty (int_div a.number b.number) }
{
    Value::cut(a.ty(), a.wide() / b.wide())
}

fn remainder(a: Value, b: Value) -> Value
    requires { b.number ≢ pos 0 }
    ensures { result ≡ cut_to a.ty (int_rem a.number b.number) }
{
    Value::cut(a.ty(), a.wide() % b.wide())
}

fn shifted_left(a: Value, b: Value) -> Value
    requires least { pos 0 ≤ℤ b.number }
    requires greatest { b.number <ℤ pos 32 }
    ensures { result ≡ cut_to a.ty (a.number *ℤ pos (2 ^ unsigned_abs b.number)) }
{
    Value::cut(a.ty(), a.wide() * power_of_two(b.number() as u32))
}

fn power_of_two(exponent: u32) -> i128
    requires { exponent < 32 }
    ensures value { result ≡ pos (2 ^ exponent) }
    ensures size { unsigned_abs result < 2 ^ 32 }
{
    (1u64 << exponent) as i128
}

fn shifted_right(a: Value, b: Value) -> Value
    requires least { pos 0 ≤ℤ b.number }
    requires greatest { b.number <ℤ pos 32 }
    ensures { result ≡ cut_to a.ty (int_shr a.number (unsigned_abs b.number)) }
{
    Value::cut(a.ty(), a.wide() >> b.number() as u32)
}

fn common_bits(a: Value, b: Value) -> Value
    requires { a.ty ≡ b.ty }
    ensures { result ≡ cut_to a.ty (pos (bit_and (pattern a.ty a.number) (pattern a.ty b.number))) }
{
    Value::new(a.ty(), a.bits() & b.bits())
}

fn differing_bits(a: Value, b: Value) -> Value
    requires { a.ty ≡ b.ty }
    ensures { result ≡ cut_to a.ty (pos (bit_xor (pattern a.ty a.number) (pattern a.ty b.number))) }
{
    Value::new(a.ty(), a.bits() ^ b.bits())
}

fn bits_of_either(a: Value, b: Value) -> Value
    requires { a.ty ≡ b.ty }
    ensures { result ≡ cut_to a.ty (pos (bit_or (pattern a.ty a.number) (pattern a.ty b.number))) }
{
    Value::new(a.ty(), a.bits() | b.bits())
}

/// What a unary operator gives: its value on the number without bound, cut to the width of the
/// type of the result, which is int for `!` and the promoted type otherwise.
pub fn unary(op: UnOp, a: Value) -> Value
    ensures { result ≡ cut_to (unary_type op a.ty) (exact_unary op a.number) }
{
    match op {
        UnOp::Plus => Value::cut(promote(a.ty()), a.wide()),
        UnOp::Minus => negated(promote(a.ty()), a),
        UnOp::Not => complemented(promote(a.ty()), a),
        UnOp::Bang => truth_value(a.number() == 0),
    }
}

fn negated(ty: IntTy, a: Value) -> Value
    ensures { result ≡ cut_to ty (neg_ℤ a.number) }
{
    Value::cut(ty, -a.wide())
}

fn complemented(ty: IntTy, a: Value) -> Value
    ensures { result ≡ cut_to ty (neg_ℤ a.number -ℤ pos 1) }
{
    Value::cut(ty, -a.wide() - 1)
}
