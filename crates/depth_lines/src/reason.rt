//! Why no certificate is valid for an image.

use crate::calls::{Call, all_depths, recursion};
use crate::lines::Lines;
use crate::walk::{HANDLER, Walk, walked};
use crate::why::{What, put_what};
use crate::words::word_at;
use pic_chip::Image;
use pic_chip::image::BLANK;
use std::alloc::{AllocError, Global};

/// The first byte in which the handler may keep PCLATH, and the one behind the last.
const FIRST_CELL: u8 = 0x70;

const CELLS_END: u8 = 0x80;

/// The greatest depth that the return stack has room for.
const MOST: u16 = 8;

/// The first reason that is found.
#[derive(Clone, Copy)]
pub enum Reason {
    At { at: u16, what: What },
    /// The calls of the routine with this entry lead to itself.
    Recursion(u16),
    Depth(u16),
}

/// What a walk comes to: whether the handler puts PCLATH into the cell, how far the walk went, and its reason.
#[derive(Clone, Copy)]
struct Verdict {
    keeps: bool,
    looks: u32,
    reason: Option<Reason>,
}

fn put_found(out: &mut Lines, reason: Reason) {
    match reason {
        Reason::At { at, what } => put_what(out, at, what),
        Reason::Recursion(entry) => {
            out.put(b"recursion ");
            out.address(entry);
        }
        Reason::Depth(depth) => {
            out.put(b"depth ");
            out.number(depth as u64);
        }
    }
    out.end();
}

/// That there is no certificate, and why.
pub fn put_reason(out: &mut Lines, reason: Option<Reason>) {
    out.put(b"no certificate\n");
    if let Some(reason) = reason {
        put_found(out, reason);
    }
}

fn calls_in(alloc: Global, walk: &Walk) -> Result<Vec<Call>, AllocError> {
    let mut calls = Vec::new(alloc);
    for at in 0..8192u16 {
        if let (Some(s), Some(callee)) = (walk.spot_at(at), walk.call_at(at)) {
            calls.push(Call {
                caller: s.entry,
                callee,
            })?;
        }
    }
    Ok(calls)
}

// The depth of main and, where interrupts come, that of the handler with the return to what it interrupted.
fn together(main: u16, handler: Option<u16>) -> u16 {
    match handler {
        None => main,
        Some(handler) => main.saturating_add(handler).saturating_add(1),
    }
}

fn too_deep(depth: u16) -> Option<Reason> {
    if depth > MOST {
        Some(Reason::Depth(depth))
    } else {
        None
    }
}

// What is wrong with the calls, where each word is allowed.
fn in_calls(alloc: Global, walk: &Walk, interrupts: bool) -> Result<Option<Reason>, AllocError> {
    let calls = calls_in(alloc, walk)?;
    let known = all_depths(alloc, &calls)?;
    let Some(main) = known.of(0) else {
        return Ok(Some(Reason::Recursion(recursion(&calls, &known, 0))));
    };
    if !interrupts {
        return Ok(too_deep(main));
    }
    match known.of(HANDLER) {
        None => Ok(Some(Reason::Recursion(recursion(&calls, &known, HANDLER)))),
        handler => Ok(too_deep(together(main, handler))),
    }
}

fn judged(alloc: Global, walk: &Walk, interrupts: bool) -> Result<Verdict, AllocError> {
    match walk.first {
        Some(first) => Ok(Verdict {
            keeps: walk.keeps,
            looks: first.looks,
            reason: Some(Reason::At {
                at: first.at,
                what: first.what,
            }),
        }),
        None => Ok(Verdict {
            keeps: walk.keeps,
            looks: u32::MAX,
            reason: in_calls(alloc, walk, interrupts)?,
        }),
    }
}

fn with_cell(alloc: Global, image: &Image, cell: u8) -> Result<Verdict, AllocError> {
    let walk = walked(alloc, image, true, cell)?;
    judged(alloc, &walk, true)
}

// A cell that the handler puts PCLATH into tells more than another one, and else the longer walk.
fn tells_more(a: Verdict, b: Verdict) -> bool {
    if a.keeps == b.keeps {
        a.looks > b.looks
    } else {
        a.keeps
    }
}

// Of all cells the one that tells most.
fn with_handler(alloc: Global, image: &Image) -> Result<Option<Reason>, AllocError> {
    let mut best = with_cell(alloc, image, FIRST_CELL)?;
    for cell in FIRST_CELL + 1..CELLS_END {
        let other = with_cell(alloc, image, cell)?;
        if tells_more(other, best) {
            best = other;
        }
    }
    Ok(best.reason)
}

// Nothing stands at 0004, or main's own code does.
fn has_handler(image: &Image, main: &Walk) -> bool {
    word_at(image, HANDLER) != BLANK && main.spot_at(HANDLER).is_none()
}

/// The first reason, or None where nothing speaks against a certificate. Interrupts may come where a word of main writes INTCON and there
/// is a handler.
pub fn reason_in(alloc: Global, image: &Image) -> Result<Option<Reason>, AllocError> {
    let main = walked(alloc, image, false, FIRST_CELL)?;
    if main.opens && has_handler(image, &main) {
        return with_handler(alloc, image);
    }
    Ok(judged(alloc, &main, false)?.reason)
}
