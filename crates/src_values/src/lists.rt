//! The bytes of a local that the items of its list have.

ghost use Rattle.std.specs.Prelude.{◌≡◌, ◌+◌, ◌-◌, ◌≤◌, not, ◌&&◌, nat_lt, map};
ghost use Rattle.c_typed.specs.Views.{program_of, item_of};
ghost use Rattle.src_values.specs.Lists as stated;

use c_typed::{TItem, Typed};

fn has_byte(start: u64, size: u64, at: u64) -> bool
    ensures { result ≡ (not (nat_lt at start) && nat_lt at (start + size)) }
{
    start <= at && at - start < size
}

// Whether an item of a list has the byte.
fn covers(program: &Typed, item: &TItem, at: u64) -> bool
    ensures { result ≡ stated.covers (program_of program.now).sizes (item_of item.now) at }
{
    match item {
        TItem::Scalar { offset, value } => has_byte(*offset, program.bytes_of(value.ty()), at),
        TItem::Struct { offset, size, .. } | TItem::Text { offset, size, .. } => {
            has_byte(*offset, *size, at)
        }
    }
}

// Whether some item of a list has the byte.
fn is_covered(program: &Typed, items: &[TItem], at: u64) -> bool
    ensures { result ≡ stated.is_covered (program_of program.now).sizes (map item_of items.now) at }
{
    for item in items {
        if covers(program, item, at) {
            return true;
        }
    }
    false
}

/// How many bytes from this one on and before that one have an item of the list.
pub fn covered_from(program: &Typed, items: &[TItem], at: u64, end: u64) -> u64
    ensures value { result ≡ stated.covered_from (program_of program.now).sizes (map item_of items.now) at (end - at) }
    ensures bound { result ≤ end - at }
{
    let left = end.saturating_sub(at);
    for count in 0..left {
        if !is_covered(program, items, at + count) {
            return count;
        }
    }
    left
}
