//! The names that functions and helpers have in a map.

ghost use Rattle.std.specs.Prelude.{◌≡◌, IfOk};
ghost use Rattle.c_typed.specs.Views.{program_of};
ghost use Rattle.ram_place.specs.Helpers as helpers;
ghost use Rattle.ram_place.specs.Sizes as sizes;

use c_typed::{FnId, Helper, Typed};
use std::alloc::{AllocError, Global};

fn helper_name(helper: Helper) -> &'static [u8]
    ensures { result.now ≡ helpers.name helper }
{
    match helper {
        Helper::Mul2 => b"$mul2",
        Helper::Mul4 => b"$mul4",
        Helper::Divu2 => b"$divu2",
        Helper::Divs2 => b"$divs2",
        Helper::Remu2 => b"$remu2",
        Helper::Rems2 => b"$rems2",
        Helper::Divu4 => b"$divu4",
        Helper::Divs4 => b"$divs4",
        Helper::Remu4 => b"$remu4",
        Helper::Rems4 => b"$rems4",
        Helper::Shl2 => b"$shl2",
        Helper::Shru2 => b"$shru2",
        Helper::Shrs2 => b"$shrs2",
        Helper::Shl4 => b"$shl4",
        Helper::Shru4 => b"$shru4",
        Helper::Shrs4 => b"$shrs4",
    }
}

/// A copy of some bytes.
pub fn copied(alloc: Global, bytes: &[u8]) -> Result<Vec<u8>, AllocError>
    ensures { IfOk result (λ copy. copy.items ≡ bytes.now) }
{
    bytes.iter().copied().collect(alloc)
}

/// The name that a function or helper has in the map.
pub fn name_of(alloc: Global, p: &Typed, function: FnId) -> Result<Vec<u8>, AllocError>
    ensures { IfOk result (λ name. name.items ≡ sizes.name_of (program_of p.now) function) }
{
    match function {
        FnId::Helper(helper) => copied(alloc, helper_name(helper)),
        FnId::User(number) => match p.functions.get(number as usize) {
            Some(function) => copied(alloc, &function.name),
            None => Ok(Vec::new(alloc)),
        },
    }
}
