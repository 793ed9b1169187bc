//! The test of the bytes that no access through FSR reaches: no static object stands there, and no frame that is lent.

ghost use Rattle.std.specs.Prelude.{◌≡◌, ◌+◌, map, true};
ghost use Rattle.sym_code.specs.Layout as layouts;
ghost use Rattle.code_place.specs.Layouts.{layout_of, range_of, frame_of};
ghost use Rattle.lean_code.specs.Clear.{IsClear, IsClearRange, AreClearObjects, AreClearFrames};
ghost use Rattle.lean_code.specs.Links as links;
ghost use Rattle.lean_pass.specs.Views.{hidden_by, lent_by};
ghost use Rattle.narrow_code.specs.Links as lending;

use crate::owners::general_at;
use crate::rows::ByteSet;
use pic_map::{FrameLine, ObjLine, Placed};

// The byte at an address isn't hidden.
fn is_clear(hidden: &ByteSet, address: u32) -> bool
    ensures { result ≡ links.is_clear (hidden_by hidden.now) (layouts.general_at address) }
{
    match general_at(address) {
        None => true,
        Some(number) => !hidden.contains(number),
    }
}

// So it is with so many bytes.
#[tactic(auto, using(crate::proofs::Hiding::range_none, crate::proofs::Hiding::range_more, crate::proofs::Hiding::range_all))]
fn is_clear_range(hidden: &ByteSet, address: u16, size: u16) -> bool
    ensures { result ≡ true → IsClearRange (hidden_by hidden.now) address size }
{
    for offset in 0..size {
        if !is_clear(hidden, address as u32 + offset as u32) {
            return false;
        }
    }
    true
}

// All of them count as lent.
fn are_clear_objects(hidden: &ByteSet, lines: &[ObjLine]) -> bool
    ensures { result ≡ true → AreClearObjects (hidden_by hidden.now) (λ n. true) (map range_of lines.now) }
{
    match lines {
        [] => true,
        [line, rest @ ..] => {
            is_clear_range(hidden, line.address, line.size) && are_clear_objects(hidden, rest)
        }
    }
}

// So it is with a frame that is lent.
fn is_clear_frame(hidden: &ByteSet, is_lent: bool, line: &FrameLine) -> bool
    ensures { result ≡ true → is_lent ≡ true → IsClearRange (hidden_by hidden.now) line.now.address line.now.size }
{
    if is_lent {
        is_clear_range(hidden, line.address, line.size)
    } else {
        true
    }
}

// The frames of the copies from this one on, where they are lent.
#[tactic(auto, using(crate::proofs::Hiding::frames_none, crate::proofs::Hiding::frames_kept, crate::proofs::Hiding::frames_more))]
fn are_clear_frames(hidden: &ByteSet, lent: &[bool], lines: &[FrameLine]) -> bool
    ensures { result ≡ true → AreClearFrames (hidden_by hidden.now) (lent_by lent.now) (map frame_of lines.now) }
{
    match lines {
        [] => true,
        [line, rest @ ..] => match lent {
            [] => true,
            [is_lent, others @ ..] => {
                is_clear_frame(hidden, *is_lent, line) && are_clear_frames(hidden, others, rest)
            }
        },
    }
}

/// Whether no byte of a static object or of the frame of a copy that is lent is hidden.
pub fn are_clear(hidden: &ByteSet, placed: &Placed, lent: &[bool]) -> bool
    ensures { result ≡ true → IsClear (hidden_by hidden.now) (layout_of placed.now) (lending.is_lent (lent_by lent.now)) }
{
    are_clear_objects(hidden, &placed.objects) && are_clear_frames(hidden, lent, &placed.frames)
}
