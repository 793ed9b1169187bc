//! Operators on integers: each on whole numbers without bound, cut to the width of its type. The operands may have any
//! types, as those of a run may that no typed program has.

ghost use Rattle.std.specs.Prelude.{◌≡◌, ◌<◌, ◌≤◌, ◌^◌, ◌-◌, ℤ, pos, negsuc, ◌≤ℤ◌, ◌<ℤ◌, ◌+ℤ◌, ◌-ℤ◌, ◌*ℤ◌, bit_and, bit_or, bit_xor, int_div, int_rem, unsigned_abs, ◌≢◌, IsFalse};
ghost use Rattle.std.specs.Int.{int_shr};
ghost use Rattle.c_ints.specs.Range.{pattern, span, least};
ghost use Rattle.c_ints.specs.Operators as stated;
ghost use Rattle.c_ints.specs.Operators.{cut_to, truth};

use c_ints::{BinOp, IntTy, Value, size};

/// The number cut to the width of a type.
pub(crate) fn cut(ty: IntTy, number: i128) -> Value
    ensures { result ≡ cut_to ty number }
{
    Value::new(ty, number.rem_euclid(0x1_0000_0000) as u32)
}

// The number, where sums and products of two have room.
pub(crate) fn wide(a: Value) -> i128
    ensures value { result ≡ a.number }
    ensures least { negsuc (2 ^ 31 - 1) ≤ℤ result }
    ensures greatest { result <ℤ pos (2 ^ 32) }
    ensures size { unsigned_abs result < 2 ^ 32 }
{
    a.number() as i128
}

// How many numbers the type holds.
fn span_of(ty: IntTy) -> i64
    ensures value { result ≡ pos (span ty) }
    ensures least { pos 256 ≤ℤ result }
    ensures greatest { result ≤ℤ pos (2 ^ 32) }
{
    match size(ty) {
        1 => 0x100,
        2 => 0x1_0000,
        _ => 0x1_0000_0000,
    }
}

// The least number that the type holds.
fn least_of(ty: IntTy) -> i64
    ensures { result ≡ least ty }
{
    match ty {
        IntTy::SChar => -0x80,
        IntTy::Short | IntTy::Int => -0x8000,
        IntTy::Long => -0x8000_0000,
        IntTy::Char | IntTy::UChar | IntTy::UShort | IntTy::UInt | IntTy::ULong => 0,
    }
}

// The bits of a number in a type.
fn bits_in(ty: IntTy, a: Value) -> u32
    ensures { result ≡ pattern ty a.number }
{
    a.number().rem_euclid(span_of(ty)) as u32
}

fn truth_of(holds: bool) -> Value
    ensures { result ≡ cut_to IntTy.Int (truth holds) }
{
    cut(IntTy::Int, if holds { 1 } else { 0 })
}

fn compared(op: BinOp, x: i64, y: i64) -> bool
    ensures { result ≡ stated.comparison op x y }
{
    match op {
        BinOp::Lt => x < y,
        BinOp::Gt => x > y,
        BinOp::Le => x <= y,
        BinOp::Ge => x >= y,
        BinOp::Eq => x == y,
        BinOp::Ne => x != y,
        _ => false,
    }
}

fn sum(a: Value, b: Value) -> Value
    ensures { result ≡ cut_to a.ty (a.number +ℤ b.number) }
{
    cut(a.ty(), wide(a) + wide(b))
}

fn difference(a: Value, b: Value) -> Value
    ensures { result ≡ cut_to a.ty (a.number -ℤ b.number) }
{
    cut(a.ty(), wide(a) - wide(b))
}

fn product(a: Value, b: Value) -> Value
    ensures { result ≡ cut_to a.ty (a.number *ℤ b.number) }
{
    cut(a.ty(), wide(a) * wide(b))
}

fn quotient(a: Value, b: Value) -> Value
    requires { b.number ≢ pos 0 }
    ensures { result ≡ cut_to a.ty (int_div a.number b.number) }
{
    cut(a.ty(), wide(a) / wide(b))
}

fn remainder(a: Value, b: Value) -> Value
    requires { b.number ≢ pos 0 }
    ensures { result ≡ cut_to a.ty (int_rem a.number b.number) }
{
    cut(a.ty(), wide(a) % wide(b))
}

fn power_of_two(exponent: u32) -> i128
    requires { exponent < 32 }
    ensures value { result ≡ pos (2 ^ exponent) }
    ensures size { unsigned_abs result < 2 ^ 32 }
{
    (1u64 << exponent) as i128
}

fn shifted_left(a: Value, b: Value) -> Value
    requires least { pos 0 ≤ℤ b.number }
    requires greatest { b.number <ℤ pos 32 }
    ensures { result ≡ cut_to a.ty (a.number *ℤ pos (2 ^ unsigned_abs b.number)) }
{
    cut(a.ty(), wide(a) * power_of_two(b.number() as u32))
}

fn shifted_right(a: Value, b: Value) -> Value
    requires least { pos 0 ≤ℤ b.number }
    requires greatest { b.number <ℤ pos 32 }
    ensures { result ≡ cut_to a.ty (int_shr a.number (unsigned_abs b.number)) }
{
    cut(a.ty(), wide(a) >> b.number() as u32)
}

fn common_bits(a: Value, b: Value) -> Value
    ensures { result ≡ cut_to a.ty (pos (bit_and (pattern a.ty a.number) (pattern a.ty b.number))) }
{
    Value::new(a.ty(), bits_in(a.ty(), a) & bits_in(a.ty(), b))
}

fn differing_bits(a: Value, b: Value) -> Value
    ensures { result ≡ cut_to a.ty (pos (bit_xor (pattern a.ty a.number) (pattern a.ty b.number))) }
{
    Value::new(a.ty(), bits_in(a.ty(), a) ^ bits_in(a.ty(), b))
}

fn bits_of_either(a: Value, b: Value) -> Value
    ensures { result ≡ cut_to a.ty (pos (bit_or (pattern a.ty a.number) (pattern a.ty b.number))) }
{
    Value::new(a.ty(), bits_in(a.ty(), a) | bits_in(a.ty(), b))
}

fn has_no_value(op: BinOp, a: Value, b: Value) -> bool
    ensures { result ≡ stated.has_no_value op a.ty a.number b.number }
{
    match op {
        BinOp::Div | BinOp::Rem => {
            b.number() == 0 || (a.number() == least_of(a.ty()) && b.number() == -1)
        }
        BinOp::Shl | BinOp::Shr => b.number() < 0 || size(a.ty()) as i64 * 8 <= b.number(),
        _ => false,
    }
}

fn value_of(op: BinOp, a: Value, b: Value) -> Value
    requires { IsFalse (stated.has_no_value op a.ty a.number b.number) }
    ensures { result ≡ stated.value_of op a b }
{
    match op {
        BinOp::Mul => product(a, b),
        BinOp::Div => quotient(a, b),
        BinOp::Rem => remainder(a, b),
        BinOp::Add => sum(a, b),
        BinOp::Sub => difference(a, b),
        BinOp::Shl => shifted_left(a, b),
        BinOp::Shr => shifted_right(a, b),
        BinOp::And => common_bits(a, b),
        BinOp::Xor => differing_bits(a, b),
        BinOp::Or => bits_of_either(a, b),
        BinOp::Lt | BinOp::Gt | BinOp::Le | BinOp::Ge | BinOp::Eq | BinOp::Ne => {
            truth_of(compared(op, a.number(), b.number()))
        }
    }
}

/// What a binary operator gives: none where the divisor is 0, where the least number of a signed type is divided by -1,
/// and where a shift's count is below 0 or not below the width of the left operand.
pub(crate) fn outcome(op: BinOp, a: Value, b: Value) -> Option<Value>
    ensures { result ≡ stated.outcome op a b }
{
    if has_no_value(op, a, b) {
        None
    } else {
        Some(value_of(op, a, b))
    }
}
