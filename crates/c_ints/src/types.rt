//! The integer types, their sizes and ranges.

ghost use Rattle.std.specs.Prelude.{◌≡◌, ◌<◌, ◌≤◌, nat_eq, ◌-◌, ◌*◌, ◌^◌, ℤ, pos, negsuc, ◌≤ℤ◌, ◌<ℤ◌};
ghost use Rattle.c_ints.specs.Range.{IsInRange, bytes_of, span, least};
ghost use Rattle.c_ints.specs.Conversions.{promoted, common, candidates, first_holding};

/// The integer types (ISO/IEC 9899:1990, 6.1.2.5). `Char` is plain char: a type of its own, which is
/// unsigned as in HI-TECH PICC. A char has 8 bits, short and int have 16, long has 32.
#[derive(Clone, Copy, PartialEq, Eq, Hash, Debug)]
pub enum IntTy {
    Char,
    SChar,
    UChar,
    Short,
    UShort,
    Int,
    UInt,
    Long,
    ULong,
}

/// How many bytes a value of the type has: 1, 2 or 4.
pub fn size(ty: IntTy) -> u8
    ensures value { result ≡ bytes_of ty }
    ensures least { 1 ≤ result }
    ensures greatest { result ≤ 4 }
{
    match ty {
        IntTy::Char | IntTy::SChar | IntTy::UChar => 1,
        IntTy::Short | IntTy::UShort | IntTy::Int | IntTy::UInt => 2,
        IntTy::Long | IntTy::ULong => 4,
    }
}

/// How many numbers the type holds.
pub(crate) fn span_of(ty: IntTy) -> i64
    ensures value { result ≡ pos (span ty) }
    ensures least { pos 256 ≤ℤ result }
    ensures greatest { result ≤ℤ pos (2 ^ 32) }
{
    match size(ty) {
        1 => 0x100,
        2 => 0x1_0000,
        _ => 0x1_0000_0000,
    }
}

/// The least number that the type holds.
pub(crate) fn least_of(ty: IntTy) -> i64
    ensures value { result ≡ least ty }
    ensures least { negsuc (2 ^ 31 - 1) ≤ℤ result }
    ensures greatest { result ≤ℤ pos 0 }
{
    match ty {
        IntTy::SChar => -0x80,
        IntTy::Short | IntTy::Int => -0x8000,
        IntTy::Long => -0x8000_0000,
        _ => 0,
    }
}

/// The type that a value of the type has in an expression: int where int holds every number of
/// the type, otherwise unsigned int where that does, otherwise the type itself (ISO/IEC 9899:1990,
/// 6.2.1.1).
pub fn promote(ty: IntTy) -> IntTy
    ensures value { result ≡ promoted ty }
    ensures again { promoted result ≡ result }
    ensures holds { (z : ℤ) → IsInRange ty z → IsInRange result z }
{
    match ty {
        IntTy::Char | IntTy::SChar | IntTy::UChar | IntTy::Short | IntTy::Int => IntTy::Int,
        IntTy::UShort | IntTy::UInt => IntTy::UInt,
        IntTy::Long => IntTy::Long,
        IntTy::ULong => IntTy::ULong,
    }
}

/// The type to which the usual arithmetic conversions bring two operands: the first of unsigned
/// long, long, unsigned int and int that one of them is promoted to (ISO/IEC 9899:1990, 6.2.1.5).
pub fn usual(a: IntTy, b: IntTy) -> IntTy
    ensures value { result ≡ common a b }
    ensures promoted { promoted result ≡ result }
{
    match (promote(a), promote(b)) {
        (IntTy::ULong, _) | (_, IntTy::ULong) => IntTy::ULong,
        (IntTy::Long, _) | (_, IntTy::Long) => IntTy::Long,
        (IntTy::UInt, _) | (_, IntTy::UInt) => IntTy::UInt,
        _ => IntTy::Int,
    }
}

/// The type of an integer constant: the first that holds its value, of int, long and unsigned long
/// for a decimal one; of int, unsigned int, long and unsigned long in another base; of the unsigned
/// ones with `u`, the long ones with `l` (ISO/IEC 9899:1990, 6.1.3.2).
pub fn constant(value: u32, base: u8, unsigned_suffix: bool, long_suffix: bool) -> IntTy
    ensures { result ≡ first_holding value (candidates (nat_eq base 10) unsigned_suffix long_suffix) }
{
    let plain = !unsigned_suffix && !long_suffix;
    if plain && value <= 0x7fff {
        IntTy::Int
    } else if !long_suffix && (unsigned_suffix || base != 10) && value <= 0xffff {
        IntTy::UInt
    } else if !unsigned_suffix && value <= 0x7fff_ffff {
        IntTy::Long
    } else {
        IntTy::ULong
    }
}
