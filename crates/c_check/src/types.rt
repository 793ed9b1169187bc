//! Questions on types that the rules of objects ask.

ghost use Rattle.std.specs.Prelude.{◌≡◌, ◌&&◌, ◌||◌};
ghost use Rattle.type_rules.specs.Slots.{is_char};

use c_ints::IntTy;
use c_typed::{Ty, same_type};

/// Whether it is one of the three types of characters.
pub(crate) fn is_char(ty: Ty) -> bool
    ensures { result ≡ is_char ty }
{
    same_type(ty, Ty::Int(IntTy::Char))
        || (same_type(ty, Ty::Int(IntTy::SChar)) || same_type(ty, Ty::Int(IntTy::UChar)))
}

/// Whether both hold.
pub(crate) fn both(a: bool, b: bool) -> bool
    ensures { result ≡ (a && b) }
{
    a && b
}

/// Whether one of them holds.
pub(crate) fn either(a: bool, b: bool) -> bool
    ensures { result ≡ (a || b) }
{
    a || b
}
