//! What is known at each place of all blocks. Calls and returns take it along.

use crate::search::bodies::{Body, Place, Way};
use crate::search::known::Knowledge;
use crate::search::reach::Reach;
use std::alloc::{AllocError, Global};
use sym_code::BlockName;

/// How often all blocks are gone through, at most.
const ROUNDS: u32 = 1000;

// What is known where the called block returns; nothing comes back where that isn't reached.
fn ends_at(ends: &[Knowledge], callee: Option<usize>) -> Knowledge {
    match callee {
        Some(callee) => match ends.get(callee) {
            Some(known) => *known,
            None => Knowledge::nothing(),
        },
        None => Knowledge::nothing(),
    }
}

impl Body {
    /// One more way comes to a place. Answers whether less is known there than before.
    fn come(&mut self, at: usize, known: &Knowledge) -> bool {
        if at < self.known.len() {
            self.known[at].come(known)
        } else {
            false
        }
    }

    fn go_next(&mut self, at: usize, place: &Place, known: &Knowledge, way: Option<bool>) -> bool {
        let next = at.saturating_add(1);
        let on = way != Some(true) && self.come(next, known);
        if place.effect.skips && way != Some(false) {
            let past = self.word_from(next).saturating_add(1);
            self.come(past, known) || on
        } else {
            on
        }
    }

    fn go_behind(
        &mut self,
        at: usize,
        place: &Place,
        known: &Knowledge,
        way: Option<bool>,
        ends: &[Knowledge],
    ) -> bool {
        match place.way {
            Way::Goto(target) => match target {
                Some(target) => self.come(target, known),
                None => false,
            },
            Way::Call(callee) => self.go_next(at, place, &ends_at(ends, callee), Some(false)),
            Way::Return => self.ends.come(known),
            Way::Stop => false,
            Way::Restore => false,
            _ => self.go_next(at, place, known, way),
        }
    }

    // What is known at a place goes on to those behind it.
    fn go_on(&mut self, reach: &Reach, at: usize, place: &Place, ends: &[Knowledge]) -> bool {
        let mut known = match self.known.get(at) {
            Some(known) => *known,
            None => return false,
        };
        if !known.reached {
            return false;
        }
        let way = known.way(place.sym, place.effect.reads);
        known.pass(reach, self.inside, place);
        self.go_behind(at, place, &known, way, ends)
    }

    fn go_through(&mut self, reach: &Reach, ends: &[Knowledge]) -> bool {
        let mut changed = false;
        for at in 0..self.places.len() {
            if let Some(place) = self.place(at) {
                changed = self.go_on(reach, at, &place, ends) || changed;
            }
        }
        changed
    }

    fn begin(&mut self) -> bool {
        self.begins = true;
        self.come(0, &Knowledge::nothing())
    }

    // The block that is called at a place, and what is known there.
    fn called_at(&self, at: usize) -> Option<(usize, Knowledge)> {
        let place = self.place(at)?;
        let known = self.known.get(at)?;
        match place.way {
            Way::Call(Some(callee)) => if known.reached {
                Some((callee, *known))
            } else {
                None
            },
            _ => None,
        }
    }
}

// Main and the handler begin where nothing is known.
fn begins(name: BlockName, handler: Option<u16>) -> bool {
    match name {
        BlockName::Start => false,
        BlockName::Copy(copy) => copy == 0 || Some(copy) == handler,
    }
}

fn is_start(name: BlockName) -> bool {
    match name {
        BlockName::Start => true,
        BlockName::Copy(_) => false,
    }
}

fn places_in(bodies: &[Body], own: usize) -> usize {
    match bodies.get(own) {
        Some(body) => body.places.len(),
        None => 0,
    }
}

fn call_in(bodies: &[Body], own: usize, at: usize) -> Option<(usize, Knowledge)> {
    match bodies.get(own) {
        Some(body) => body.called_at(at),
        None => None,
    }
}

// What is known at the calls of a block goes to the fronts of those that are called.
fn enter(bodies: &mut [Body], own: usize) -> bool {
    let mut changed = false;
    for at in 0..places_in(bodies, own) {
        if let Some((callee, known)) = call_in(bodies, own, at) {
            if callee < bodies.len() {
                changed = bodies[callee].come(0, &known) || changed;
            }
        }
    }
    changed
}

fn learn_round(bodies: &mut [Body], reach: &Reach, ends: &mut [Knowledge]) -> bool {
    let mut changed = false;
    for own in 0..bodies.len() {
        changed = bodies[own].go_through(reach, ends) || changed;
        changed = enter(bodies, own) || changed;
        if own < ends.len() {
            ends[own] = bodies[own].ends;
        }
    }
    changed
}

// Where a block isn't called, or doesn't return, nothing is known. Answers whether there was such a block.
fn open(bodies: &mut [Body], ends: &mut [Knowledge]) -> bool {
    let mut changed = false;
    for own in 0..bodies.len() {
        if !is_start(bodies[own].name) && !bodies[own].comes_to(0) {
            changed = bodies[own].begin() || changed;
        }
        if !bodies[own].ends.reached {
            bodies[own].ends = Knowledge::nothing();
            changed = true;
        }
        if own < ends.len() {
            ends[own] = bodies[own].ends;
        }
    }
    changed
}

/// Finds what is known before each place of all blocks but the start block. Answers whether that was found.
pub fn learn_all(
    alloc: Global,
    bodies: &mut [Body],
    reach: &Reach,
    handler: Option<u16>,
) -> Result<bool, AllocError> {
    let mut ends = vec![in alloc; Knowledge::unreached(); bodies.len()]?;
    for body in bodies.iter_mut() {
        if begins(body.name, handler) {
            body.begin();
        }
    }
    for _round in 0..ROUNDS {
        if !learn_round(bodies, reach, &mut ends) && !open(bodies, &mut ends) {
            return Ok(true);
        }
    }
    Ok(false)
}
