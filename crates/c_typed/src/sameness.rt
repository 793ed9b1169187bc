//! When types are the same, and what a type is.

ghost use Rattle.std.specs.Prelude.{◌≡◌};
ghost use Rattle.c_typed.specs.Sameness as stated;
ghost use Rattle.c_typed.specs.declared.types.Ty.TheVariants.{Array};

use crate::types::Ty;
use c_ints::IntTy;

fn int_number(ty: IntTy) -> u8
    ensures { result ≡ stated.int_number ty }
{
    match ty {
        IntTy::Char => 0,
        IntTy::SChar => 1,
        IntTy::UChar => 2,
        IntTy::Short => 3,
        IntTy::UShort => 4,
        IntTy::Int => 5,
        IntTy::UInt => 6,
        IntTy::Long => 7,
        IntTy::ULong => 8,
    }
}

fn same_int(a: IntTy, b: IntTy) -> bool
    ensures { result ≡ stated.same_int a b }
{
    int_number(a) == int_number(b)
}

/// Whether two types are the same.
pub fn same_type(a: Ty, b: Ty) -> bool
    ensures { result ≡ stated.same_type a b }
{
    match a {
        Ty::Void => is_void(b),
        Ty::Int(a) => match b {
            Ty::Int(b) => same_int(a, b),
            Ty::Void | Ty::Pointer(_) | Ty::Array { .. } | Ty::Struct(_) => false,
        },
        Ty::Pointer(a) => match b {
            Ty::Pointer(b) => a == b,
            Ty::Void | Ty::Int(_) | Ty::Array { .. } | Ty::Struct(_) => false,
        },
        Ty::Array {
            element,
            length,
            size,
        } => same_array(element, length, size, b),
        Ty::Struct(a) => match b {
            Ty::Struct(b) => a == b,
            Ty::Void | Ty::Int(_) | Ty::Pointer(_) | Ty::Array { .. } => false,
        },
    }
}

fn same_array(first: usize, count: u32, bytes: u64, other: Ty) -> bool
    ensures { result ≡ stated.same_type (Array first count bytes) other }
{
    match other {
        Ty::Array {
            element,
            length,
            size,
        } => first == element && count == length && bytes == size,
        Ty::Void | Ty::Int(_) | Ty::Pointer(_) | Ty::Struct(_) => false,
    }
}

/// Whether the type is void.
pub fn is_void(ty: Ty) -> bool
    ensures { result ≡ stated.is_void ty }
{
    match ty {
        Ty::Void => true,
        Ty::Int(_) | Ty::Pointer(_) | Ty::Array { .. } | Ty::Struct(_) => false,
    }
}

/// Whether the type is an integer type.
pub fn is_int(ty: Ty) -> bool
    ensures { result ≡ stated.is_int ty }
{
    match ty {
        Ty::Int(_) => true,
        Ty::Void | Ty::Pointer(_) | Ty::Array { .. } | Ty::Struct(_) => false,
    }
}

/// Whether the type is a pointer.
pub fn is_pointer(ty: Ty) -> bool
    ensures { result ≡ stated.is_pointer ty }
{
    match ty {
        Ty::Pointer(_) => true,
        Ty::Void | Ty::Int(_) | Ty::Array { .. } | Ty::Struct(_) => false,
    }
}

/// Whether the type is an array.
pub fn is_array(ty: Ty) -> bool
    ensures { result ≡ stated.is_array ty }
{
    match ty {
        Ty::Array { .. } => true,
        Ty::Void | Ty::Int(_) | Ty::Pointer(_) | Ty::Struct(_) => false,
    }
}

/// Whether the type is an integer or a pointer (ISO/IEC 9899:1990, 6.1.2.5: a scalar).
pub fn is_scalar(ty: Ty) -> bool
    ensures { result ≡ stated.is_scalar ty }
{
    is_int(ty) || is_pointer(ty)
}
