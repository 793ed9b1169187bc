//! Which code selects can be put into.

ghost use Rattle.std.specs.Prelude.{◌≡◌, true};
ghost use Rattle.std.specs.List.{All};
ghost use Rattle.bank_page.specs.Ready.{are_ready, CanSelect};

use crate::kinds::{is_label, is_select};
use crate::needs::needs_in;
use pic_map::Placed;
use sym_code::{Sym, SymBlock};

// What each instruction of a list needs can be selected before it.
fn is_ready(placed: &Placed, list: &[Sym]) -> bool
    ensures { result ≡ are_ready placed.now list.now }
{
    let mut rest = list;
    while let [first, tail @ ..] = rest {
        if !is_select(*first) && !is_label(*first) && needs_in(placed, rest).is_none() {
            return false;
        }
        rest = tail;
    }
    true
}

/// Whether selects can be put into each of these blocks, as `selects` asks for it.
pub fn can_select(placed: &Placed, blocks: &[SymBlock]) -> bool
    // `true` only where it is so,
    ensures ready { result ≡ true → All (CanSelect placed.now) blocks.now }
    // and wherever it is.
    ensures exactly { All (CanSelect placed.now) blocks.now → result ≡ true }
{
    for block in blocks {
        if !is_ready(placed, &block.list) {
            return false;
        }
    }
    true
}
