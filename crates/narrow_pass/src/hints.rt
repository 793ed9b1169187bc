//! What a search proposes of a body, in the order in which a walk along it comes to it.

use crate::marks::all_equal;
use crate::turns::Turn;
use std::alloc::{AllocError, Global};

/// Which operators on two values are done on their low bytes, and what is known at the front of each loop and behind it.
#[derive(Drop)]
pub struct Hints {
    cuts: Vec<bool>,
    next: usize,
    // the last one first
    turns: Vec<Turn>,
}

impl Hints {
    pub fn new(cuts: Vec<bool>, turns: Vec<Turn>) -> Hints {
        Hints {
            cuts,
            next: 0,
            turns,
        }
    }

    /// No operator is done on low bytes, and all is the same everywhere.
    pub fn none(alloc: Global) -> Hints {
        Hints {
            cuts: Vec::new(alloc),
            next: 0,
            turns: Vec::new(alloc),
        }
    }

    /// Whether the next operator is one that is done on low bytes.
    pub fn next_cut(&mut self) -> bool {
        let at = self.next;
        if at < self.cuts.len() {
            self.next = at + 1;
            self.cuts[at]
        } else {
            false
        }
    }

    /// What is known of so many bytes at the front of the next loop, and behind it.
    pub fn next_turn(&mut self, alloc: Global, count: usize) -> Result<Turn, AllocError> {
        match self.turns.pop() {
            Some(turn) => Ok(turn),
            None => Ok(Turn {
                front: all_equal(alloc, count)?,
                behind: all_equal(alloc, count)?,
            }),
        }
    }
}
