//! Who calls whom, how deep that goes, and chains of calls.

use std::alloc::{AllocError, Global};

/// A call, by the entries of two routines.
#[derive(Clone, Copy)]
pub struct Call {
    pub caller: u16,
    pub callee: u16,
}

/// How deep the calls of each routine go, by its entry, as far as that is known.
#[derive(Drop)]
pub struct Depths {
    depths: Vec<Option<u16>>,
}

impl Depths {
    /// None is known.
    pub fn new(alloc: Global) -> Result<Depths, AllocError> {
        Ok(Depths {
            depths: vec![in alloc; None; 8192]?,
        })
    }

    /// How deep the calls of the routine with this entry go.
    pub fn of(&self, entry: u16) -> Option<u16> {
        if (entry as usize) < self.depths.len() {
            self.depths[entry as usize]
        } else {
            None
        }
    }

    /// The calls of the routine with this entry go so deep.
    pub fn set(&mut self, entry: u16, depth: u16) {
        if (entry as usize) < self.depths.len() {
            self.depths[entry as usize] = Some(depth);
        }
    }
}

fn mark(marks: &mut [bool; 8192], at: u16) {
    if (at as usize) < 8192 {
        marks[at as usize] = true;
    }
}

fn is_marked(marks: &[bool; 8192], at: u16) -> bool {
    (at as usize) < 8192 && marks[at as usize]
}

// The routines that call one whose depth isn't known.
fn blocked(calls: &[Call], known: &Depths) -> [bool; 8192] {
    let mut marks = [false; 8192];
    for call in calls {
        if known.of(call.callee).is_none() {
            mark(&mut marks, call.caller);
        }
    }
    marks
}

// The routines that call only those whose depth is known go one deeper, if that wasn't known before. Whether there is one.
fn deepen(calls: &[Call], known: &mut Depths, depth: u16) -> bool {
    let marks = blocked(calls, known);
    let mut changed = false;
    for at in 0..8192u16 {
        if !is_marked(&marks, at) && known.of(at).is_none() {
            known.set(at, depth);
            changed = true;
        }
    }
    changed
}

/// The depth of each routine that no calls lead from to a recursion.
pub fn all_depths(alloc: Global, calls: &[Call]) -> Result<Depths, AllocError> {
    let mut known = Depths::new(alloc)?;
    for depth in 0..8192u16 {
        if !deepen(calls, &mut known, depth) {
            break;
        }
    }
    Ok(known)
}

fn unknown_callee(calls: &[Call], known: &Depths, caller: u16) -> Option<u16> {
    for call in calls {
        if call.caller == caller && known.of(call.callee).is_none() {
            return Some(call.callee);
        }
    }
    None
}

/// A routine whose calls lead to itself, on the way from this one, whose depth isn't known.
pub fn recursion(calls: &[Call], known: &Depths, from: u16) -> u16 {
    let mut marks = [false; 8192];
    let mut at = from;
    for _step in 0..8192u16 {
        if is_marked(&marks, at) {
            return at;
        }
        mark(&mut marks, at);
        let Some(callee) = unknown_callee(calls, known, at) else {
            return at;
        };
        at = callee;
    }
    at
}

/// The least entry from `low` on that a routine calls.
pub fn next_callee(calls: &[Call], caller: u16, low: u16) -> Option<u16> {
    let mut best = None;
    for call in calls {
        if call.caller == caller && low <= call.callee {
            best = least(best, call.callee);
        }
    }
    best
}

fn least(best: Option<u16>, entry: u16) -> Option<u16> {
    match best {
        None => Some(entry),
        Some(old) => Some(old.min(entry)),
    }
}

/// The first callee of a routine that goes one less deep.
pub fn deepest_callee(calls: &[Call], known: &Depths, caller: u16) -> Option<u16> {
    let Some(depth) = known.of(caller) else {
        return None;
    };
    for call in calls {
        if call.caller == caller && is_one_less(known.of(call.callee), depth) {
            return Some(call.callee);
        }
    }
    None
}

fn is_one_less(of_callee: Option<u16>, depth: u16) -> bool {
    match of_callee {
        None => false,
        Some(less) => less < depth && less == depth - 1,
    }
}
