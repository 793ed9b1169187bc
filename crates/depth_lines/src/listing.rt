//! The lines of a certificate.

ghost use Rattle.std.specs.Prelude.{◌≡◌, ◌<◌, true, length};

use crate::calls::{Call, Depths, deepest_callee, next_callee};
use crate::known::target;
use crate::lines::Lines;
use crate::walk::HANDLER;
use crate::words::{is_call, word_at};
use depth_check::{Heights, Routine, Row, total};
use pic_chip::Image;
use pic_chip::image::BLANK;
use std::alloc::{AllocError, Global};

fn routine_of(h: &Heights, row: Row) -> Option<Routine> {
    if (row.routine as usize) < h.routines.len() {
        Some(h.routines[row.routine as usize])
    } else {
        None
    }
}

// The entry that a row calls.
fn callee_of(image: &Image, row: Row) -> Option<u16> {
    let word = word_at(image, row.at);
    if is_call(word) {
        target(row.facts, word)
    } else {
        None
    }
}

fn call_of(image: &Image, h: &Heights, row: Row) -> Option<Call> {
    let Some(routine) = routine_of(h, row) else {
        return None;
    };
    match callee_of(image, row) {
        None => None,
        Some(callee) => Some(Call {
            caller: routine.entry,
            callee,
        }),
    }
}

fn calls_in(alloc: Global, image: &Image, h: &Heights) -> Result<Vec<Call>, AllocError> {
    let mut calls = Vec::new(alloc);
    for row in &h.rows {
        if let Some(call) = call_of(image, h, *row) {
            calls.push(call)?;
        }
    }
    Ok(calls)
}

fn bounds_in(alloc: Global, h: &Heights) -> Result<Depths, AllocError> {
    let mut bounds = Depths::new(alloc)?;
    for routine in &h.routines {
        bounds.set(routine.entry, routine.bound as u16);
    }
    Ok(bounds)
}

fn put_address(out: &mut Lines, at: u16) {
    out.put(b" ");
    out.address(at);
}

fn put_callees(out: &mut Lines, calls: &[Call], caller: u16) {
    let mut low = 0;
    for _callee in 0..8192u16 {
        let Some(callee) = next_callee(calls, caller, low) else {
            return;
        };
        if low == 0 {
            out.put(b" calls");
        }
        put_address(out, callee);
        low = callee.saturating_add(1);
    }
}

fn put_routine(out: &mut Lines, calls: &[Call], routine: Routine) {
    out.address(routine.entry);
    if routine.isr {
        out.put(b" isr bound ");
    } else {
        out.put(b" main bound ");
    }
    out.number(routine.bound as u64);
    put_callees(out, calls, routine.entry);
    out.end();
}

// The row at a routine's entry stands for the routine.
fn put_routines(out: &mut Lines, h: &Heights, calls: &[Call]) {
    for row in &h.rows {
        if let Some(routine) = routine_of(h, *row) {
            if routine.entry == row.at {
                put_routine(out, calls, routine);
            }
        }
    }
}

fn put_chain(out: &mut Lines, calls: &[Call], bounds: &Depths, from: u16) {
    let mut at = from;
    put_address(out, at);
    for _call in 0..8192u16 {
        let Some(callee) = deepest_callee(calls, bounds, at) else {
            break;
        };
        put_address(out, callee);
        at = callee;
    }
    out.end();
}

fn put_chains(out: &mut Lines, h: &Heights, calls: &[Call], bounds: &Depths) {
    out.put(b"deepest");
    put_chain(out, calls, bounds, 0);
    if h.interrupts {
        out.put(b"deepest isr");
        put_chain(out, calls, bounds, HANDLER);
        out.put(b"cell ");
        out.byte(h.cell);
        out.end();
    }
}

fn is_written(image: &Image, at: u16) -> bool {
    word_at(image, at) != BLANK
}

// How many words aren't erased.
fn written_in(image: &Image) -> u32 {
    let mut count: u32 = 0;
    for at in 0..8192u16 {
        if is_written(image, at) {
            count = count.saturating_add(1);
        }
    }
    count
}

// How many of the words with a row aren't erased.
fn written_rows(image: &Image, h: &Heights) -> u32 {
    let mut count: u32 = 0;
    for row in &h.rows {
        if is_written(image, row.at) {
            count = count.saturating_add(1);
        }
    }
    count
}

fn put_counts(out: &mut Lines, image: &Image, h: &Heights) {
    let others = written_in(image).saturating_sub(written_rows(image, h));
    out.put(b"reached ");
    out.number(h.rows.len() as u64);
    out.put(b" words, not reached ");
    out.number(others as u64);
    out.end();
}

// Whether there is routine 0, and routine 1 where interrupts come, as in each certificate that is valid.
fn has_vectors(h: &Heights) -> bool
    ensures main { result ≡ true → 0 < length h.now.routines.items }
    ensures handler { result ≡ true → h.now.interrupts ≡ true → 1 < length h.now.routines.items }
{
    if h.interrupts {
        h.routines.len() > 1
    } else {
        h.routines.len() > 0
    }
}

fn put_depth(out: &mut Lines, h: &Heights) {
    if has_vectors(h) {
        out.put(b"depth ");
        out.number(total(h));
        out.end();
    }
}

/// The lines of a certificate of the image.
pub fn put_certificate(
    alloc: Global,
    out: &mut Lines,
    image: &Image,
    h: &Heights,
) -> Result<(), AllocError> {
    let calls = calls_in(alloc, image, h)?;
    let bounds = bounds_in(alloc, h)?;
    put_depth(out, h);
    put_routines(out, h, &calls);
    put_chains(out, h, &calls, &bounds);
    put_counts(out, image, h);
    Ok(())
}
