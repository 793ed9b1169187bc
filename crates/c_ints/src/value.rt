//! Integer values: a type, and a number that it holds.

ghost use Rattle.std.specs.Prelude.{◌≡◌, ◌<◌, ◌≤◌, ◌^◌, ◌-◌, ◌%◌, ℤ, pos, negsuc, ◌≤ℤ◌, ◌<ℤ◌, unsigned_abs};

use crate::types::{IntTy, least_of, span_of};
use std::marker::Model;

/// A value of an integer type: the type, and a number that the type holds.
#[derive(Clone, Copy, PartialEq, Eq)]
pub struct Value {
    ty: IntTy,
    number: i64,
}

impl Model for Value {
    ghost use Rattle.c_ints.specs.Quantity.{Quantity};

    ghost Value = { Quantity };

    ghost use Rattle.c_ints.specs.Range.{IsInRange};

    ghost view = { λ v. record { ty = v.ty; number = v.number } };

    ghost inverse = { λ q. record { ty = q.ty; number = q.number } };

    ghost invariant = { λ v. IsInRange v.ty v.number };
}

impl Value {
    ghost use Rattle.c_ints.specs.Range.{IsInRange, cut, pattern, span};

    /// The value of the type with these bits, cut to the type's width.
    pub fn new(ty: IntTy, bits: u32) -> Value
        ensures value { result ≡ record { ty = ty; number = cut ty (pos bits) } }
        ensures range { IsInRange ty result.number }
        ensures bits { pattern ty result.number ≡ bits % span ty }
    {
        Value::cut(ty, bits as i128)
    }

    /// The number cut to the type's width: the one of its range that differs by a multiple of its
    /// span.
    pub(crate) fn cut(ty: IntTy, number: i128) -> Value
        requires least { negsuc (2 ^ 100) ≤ℤ number }
        requires greatest { number <ℤ pos (2 ^ 100) }
        ensures { result ≡ record { ty = ty; number = cut ty number } }
    {
        let least = least_of(ty) as i128;
        let number = least + (number - least).rem_euclid(span_of(ty) as i128);
        Value {
            ty,
            number: number as i64,
        }
    }

    /// The type.
    pub fn ty(self) -> IntTy
        ensures { result ≡ self.ty }
    {
        self.ty
    }

    /// The number, which the type holds.
    pub fn number(self) -> i64
        ensures value { result ≡ self.number }
        ensures range { IsInRange self.ty result }
        ensures least { negsuc (2 ^ 31 - 1) ≤ℤ result }
        ensures greatest { result <ℤ pos (2 ^ 32) }
    {
        self.number
    }

    /// The number, where sums and products of two have room.
    pub(crate) fn wide(self) -> i128
        ensures value { result ≡ self.number }
        ensures least { negsuc (2 ^ 31 - 1) ≤ℤ result }
        ensures greatest { result <ℤ pos (2 ^ 32) }
        ensures size { unsigned_abs result < 2 ^ 32 }
    {
        self.number() as i128
    }

    /// The bits, as a number below 2 to the type's width. `Value::new` of them is the value again.
    pub fn bits(self) -> u32
        ensures value { result ≡ pattern self.ty self.number }
        ensures range { result < span self.ty }
        ensures again { cut self.ty (pos result) ≡ self.number }
    {
        self.number.rem_euclid(span_of(self.ty)) as u32
    }
}
