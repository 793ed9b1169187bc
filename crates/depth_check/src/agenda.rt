//! The addresses that a search has still to look at.

use std::alloc::{AllocError, Global};

// As many addresses as an image has.
const ADDRESSES: usize = 8192;

/// A stack of addresses, and of each routine the calls that were seen. What a search finds doesn't rest on it, since a pass over all addresses follows.
#[derive(Drop)]
pub struct Agenda {
    // So many of these wait, and the one that came last is looked at next.
    count: usize,
    places: Vec<u16>,
    // Whether an address waits.
    waits: Vec<bool>,
    // By a routine's entry the call of it that was seen last, and by a call's address the call of the same routine that was seen before it.
    last_call: Vec<Option<u16>>,
    call_before: Vec<Option<u16>>,
    // Whether the call at an address was seen.
    was_seen: Vec<bool>,
}

impl Agenda {
    /// Nothing waits, and no call was seen.
    pub fn new(alloc: Global) -> Result<Agenda, AllocError> {
        Ok(Agenda {
            count: 0,
            places: vec![in alloc; 0; ADDRESSES]?,
            waits: vec![in alloc; false; ADDRESSES]?,
            last_call: vec![in alloc; None; ADDRESSES]?,
            call_before: vec![in alloc; None; ADDRESSES]?,
            was_seen: vec![in alloc; false; ADDRESSES]?,
        })
    }

    /// The address is to be looked at.
    pub fn add(&mut self, at: u16) {
        let place = at as usize;
        if place < self.waits.len() && self.count < self.places.len() && !self.waits[place] {
            self.waits[place] = true;
            self.places[self.count] = at;
            self.count += 1;
        }
    }

    /// An address that waits; it waits no longer.
    pub fn take(&mut self) -> Option<u16> {
        if self.count == 0 || self.count > self.places.len() {
            return None;
        }
        self.count -= 1;
        let at = self.places[self.count];
        if (at as usize) < self.waits.len() {
            self.waits[at as usize] = false;
        }
        Some(at)
    }

    /// A call of a routine was seen.
    pub fn called(&mut self, at: u16, entry: u16) {
        let call = at as usize;
        let routine = entry as usize;
        if call < self.was_seen.len()
            && call < self.call_before.len()
            && routine < self.last_call.len()
            && !self.was_seen[call]
        {
            self.was_seen[call] = true;
            self.call_before[call] = self.last_call[routine];
            self.last_call[routine] = Some(at);
        }
    }

    /// Each call of the routine that was seen is to be looked at.
    pub fn left(&mut self, entry: u16) {
        let mut call = place_in(&self.last_call, entry);
        for _turn in 0..ADDRESSES {
            match call {
                None => return,
                Some(at) => {
                    self.add(at);
                    call = place_in(&self.call_before, at);
                }
            }
        }
    }
}

fn place_in(places: &[Option<u16>], at: u16) -> Option<u16> {
    if (at as usize) < places.len() {
        places[at as usize]
    } else {
        None
    }
}
