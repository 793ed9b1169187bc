//! Which operations are byte-sized.

ghost use Rattle.std.specs.Prelude.{◌≡◌};
ghost use Rattle.core_code.specs.Tree.{trees_of};
ghost use Rattle.core_code.specs.View.{tree_of, trees_in};
ghost use Rattle.select_code.specs.Sized.{is_cut, deeper, is_byte_sized, are_byte_sized};

use c_ints::{IntTy, size};
use core_code::Core;

// A conversion to a type of no more bytes keeps the lowest bytes, and is no work.
pub(crate) fn is_cut(from: IntTy, to: IntTy) -> bool
    ensures { result ≡ is_cut from to }
{
    size(to) <= size(from)
}

// In one loop more, as far as a number of 64 bits counts.
fn deeper(loops: usize) -> usize
    ensures { result ≡ deeper loops }
{
    if loops < usize::MAX {
        loops + 1
    } else {
        usize::MAX
    }
}

// Whether an operation that stands in so many loops is byte-sized: it acts on single bytes, or is control whose parts are
// byte-sized. What leaves or repeats a loop counts only where that loop is there.
#[cycle(sized)]
#[tactic(auto, using(core_code::proofs::Views::tree_set, core_code::proofs::Views::tree_address, core_code::proofs::Views::tree_copy, core_code::proofs::Views::tree_load, core_code::proofs::Views::tree_store, core_code::proofs::Views::tree_unary, core_code::proofs::Views::tree_binary, core_code::proofs::Views::tree_convert, core_code::proofs::Views::tree_bit_read, core_code::proofs::Views::tree_bit_write, core_code::proofs::Views::tree_call, core_code::proofs::Views::tree_leave, core_code::proofs::Views::tree_many, core_code::proofs::Views::tree_if, core_code::proofs::Views::tree_loop, core_code::proofs::Views::tree_exit, core_code::proofs::Views::tree_again))]
pub(crate) fn is_byte_sized(c: &Core, loops: usize) -> bool
    ensures { result ≡ is_byte_sized loops (tree_of c.now) }
{
    match c {
        Core::Set { .. }
        | Core::Copy { .. }
        | Core::BitRead { .. }
        | Core::BitWrite { .. }
        | Core::Call { .. }
        | Core::Leave => true,
        Core::Convert { from, to, .. } => is_cut(*from, *to),
        Core::Many(parts) => are_byte_sized(parts, loops),
        Core::If { yes, no, .. } => is_byte_sized(yes, loops) && is_byte_sized(no, loops),
        Core::Loop(body) => is_byte_sized(body, deeper(loops)),
        Core::Exit(out) | Core::Again(out) => *out < loops,
        Core::Address { .. }
        | Core::Load { .. }
        | Core::Store { .. }
        | Core::Unary { .. }
        | Core::Binary { .. } => false,
    }
}

#[cycle(sized)]
fn are_byte_sized(parts: &[Core], loops: usize) -> bool
    ensures { result ≡ are_byte_sized loops (trees_of (trees_in parts.now)) }
{
    let mut all = true;
    for part in parts {
        all = all && is_byte_sized(part, loops);
    }
    all
}
