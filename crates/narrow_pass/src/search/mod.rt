//! Which operators may be done on the low bytes: two walks along a body, one forwards for what is known, and one backwards for the
//! bytes that are asked for. What is found here is a proposal, and a test decides on it.

mod flat;
mod known;
mod wanted;

use crate::hints::Hints;
use crate::turns::Turn;
pub use flat::{Flat, flat_of, is_small, mark_lent, size_of};
use known::known_in;
use std::alloc::{AllocError, Global};
use wanted::cuts_in;

fn is_any(cuts: &[bool]) -> bool {
    for cut in cuts {
        if *cut {
            return true;
        }
    }
    false
}

// The last one first.
fn turned(alloc: Global, mut turns: Vec<Turn>) -> Result<Vec<Turn>, AllocError> {
    let mut back = Vec::new(alloc);
    for _ in 0..turns.len() {
        if let Some(turn) = turns.pop() {
            back.push(turn)?;
        }
    }
    Ok(back)
}

/// A proposal for a body with a frame of so many bytes, or none where no operator is to change. Where types alone are to change, no
/// operator becomes another one, and conditions ask for all bytes of what they test.
pub fn search(
    alloc: Global,
    alone: bool,
    flat: &Flat,
    lent: &[bool],
    copy: u16,
    size: usize,
) -> Result<Option<Hints>, AllocError> {
    let none = Vec::new(alloc);
    let before = known_in(alloc, alone, flat, lent, copy, size, &none)?;
    let cuts = cuts_in(alloc, flat, copy, size, &before.able)?;
    if !is_any(&cuts) {
        return Ok(None);
    }
    let behind = known_in(alloc, alone, flat, lent, copy, size, &cuts)?;
    Ok(Some(Hints::new(cuts, turned(alloc, behind.turns)?)))
}
