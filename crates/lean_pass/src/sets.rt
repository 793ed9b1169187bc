//! Sets of general bytes, and tables of what bytes hold.

ghost use Rattle.std.specs.Prelude.{◌≡◌, ◌+◌, ◌<◌, ◌^◌, ◌&&◌, ℕ, length, slice_get};
ghost use Rattle.lean_code.specs.Checked as listed;
ghost use Rattle.lean_pass.specs.Views.{trues, set_of, knowns, entry, known_entry};

use crate::rows::ByteSet;

// Whether an entry is there and true.
fn is_true(list: &[bool], byte: usize) -> bool
    ensures { result ≡ entry (slice_get list.now byte) }
{
    match list.get(byte) {
        Some(has) => *has,
        None => false,
    }
}

impl ByteSet {
    /// Whether a byte is among these.
    #[tactic(auto, using(crate::proofs::Entries::among_set))]
    pub fn contains(&self, byte: usize) -> bool
        ensures { result ≡ listed.among byte (set_of self.now) }
    {
        is_true(&self.has, byte)
    }
}

fn known_in(known: &[Option<u8>], byte: usize) -> Option<u8>
    ensures { result ≡ known_entry (slice_get known.now byte) }
{
    match known.get(byte) {
        Some(number) => *number,
        None => None,
    }
}

/// What a byte holds, where that is known.
#[tactic(auto, using(crate::proofs::Entries::number_known))]
pub fn number_at(known: &[Option<u8>], byte: usize) -> Option<u8>
    ensures { result ≡ listed.number_in byte (knowns 0 known.now) }
{
    known_in(known, byte)
}

fn origin_in(twins: &[Option<u16>], byte: usize) -> Option<u16>
    ensures { result ≡ known_entry (slice_get twins.now byte) }
{
    match twins.get(byte) {
        Some(origin) => *origin,
        None => None,
    }
}

/// The byte of which one is a copy, where that is known.
#[tactic(auto, using(crate::proofs::Entries::number_known))]
pub fn origin_at(twins: &[Option<u16>], byte: usize) -> Option<u16>
    ensures { result ≡ listed.number_in byte (knowns 0 twins.now) }
{
    origin_in(twins, byte)
}

/// Whether the bytes of a list, which begins with this one, are all in a set.
pub fn are_in(list: &[bool], first: usize, set: &ByteSet) -> bool
    requires { first + length list.now < 2 ^ 64 }
    ensures { result ≡ listed.all_of (λ a. listed.among a (set_of set.now)) (trues first list.now) }
{
    match list {
        [] => true,
        [has, rest @ ..] => {
            if *has && !set.contains(first) {
                false
            } else {
                are_in(rest, first + 1, set)
            }
        }
    }
}

/// Whether a set is within another one.
pub fn is_within(part: &ByteSet, whole: &ByteSet) -> bool
    ensures { result ≡ listed.all_of (λ a. listed.among a (set_of whole.now)) (set_of part.now) }
{
    are_in(&part.has, 0, whole)
}
