//! The walk over an image that looks for what no certificate allows. It goes the way of the program: straight on, into what is called and
//! behind that once it returns, and then the ways that it left out at skips. Where it finds something that isn't allowed it remembers the
//! first of these, and goes on.

use crate::known::{
    Pages, after, are_known_in, common_facts, common_pages, is_within, pages_of, target, two_bits,
};
use crate::why::{Clash, What, Why};
use crate::words::{
    INDF, INTCON, PCL, bit, is_bcf, is_bsf, is_call, is_goto, is_instruction, is_retfie, is_return,
    is_sleep, may_skip, next, word_at, writes,
};
use depth_check::{AT_INTERRUPT, AT_RESET, Facts};
use pic_chip::Image;
use std::alloc::{AllocError, Global};

/// How many words are looked at. Each of 8,192 can lose what is known there five times after it was found, and is looked at again at most
/// three times because a routine that it calls returns.
const LOOKS: u32 = 100_000;

/// Where the handler begins.
pub const HANDLER: u16 = 4;

/// A word that was found: the entry of its routine, whether that belongs to the handler, and what is known there.
#[derive(Clone, Copy)]
pub struct Spot {
    pub entry: u16,
    pub isr: bool,
    pub facts: Facts,
}

/// What isn't allowed: where, why, and how many words were looked at before.
#[derive(Clone, Copy)]
pub struct Refusal {
    pub at: u16,
    pub what: What,
    pub looks: u32,
}

/// What a walk has found so far. `interrupts` is whether they may come, and `cell` the byte in which the handler keeps PCLATH.
#[derive(Drop)]
pub struct Walk {
    interrupts: bool,
    cell: u8,
    spots: Vec<Option<Spot>>,
    // By the entry of a routine what is known wherever it returns; None where it doesn't.
    outs: Vec<Option<Pages>>,
    // By the address of a CALL the entry that it calls.
    calls: Vec<Option<u16>>,
    // The addresses that are to be looked at, the next one last.
    waiting: Vec<u16>,
    looks: u32,
    failed: bool,
    /// Whether a word of main writes INTCON.
    pub opens: bool,
    /// Whether the handler puts the PCLATH of what it interrupts into the cell.
    pub keeps: bool,
    /// The first thing that isn't allowed.
    pub first: Option<Refusal>,
}

// A word of the same routine.
fn beside(s: Spot, facts: Facts) -> Spot {
    Spot {
        entry: s.entry,
        isr: s.isr,
        facts,
    }
}

// BCF, or BSF of another bit than GIE.
fn spares_gie(word: u16) -> bool {
    is_bcf(word) || is_bsf(word) && bit(word) != 7
}

impl Walk {
    fn new(alloc: Global, interrupts: bool, cell: u8) -> Result<Walk, AllocError> {
        Ok(Walk {
            interrupts,
            cell,
            spots: vec![in alloc; None; 8192]?,
            outs: vec![in alloc; None; 8192]?,
            calls: vec![in alloc; None; 8192]?,
            waiting: Vec::new(alloc),
            looks: 0,
            failed: false,
            opens: false,
            keeps: false,
            first: None,
        })
    }

    /// What was found at an address.
    pub fn spot_at(&self, at: u16) -> Option<Spot> {
        if (at as usize) < self.spots.len() {
            self.spots[at as usize]
        } else {
            None
        }
    }

    /// The entry that the CALL at an address calls.
    pub fn call_at(&self, at: u16) -> Option<u16> {
        if (at as usize) < self.calls.len() {
            self.calls[at as usize]
        } else {
            None
        }
    }

    fn out_at(&self, entry: u16) -> Option<Pages> {
        if (entry as usize) < self.outs.len() {
            self.outs[entry as usize]
        } else {
            None
        }
    }

    fn note(&mut self, at: u16, what: What) {
        if self.first.is_none() {
            self.first = Some(Refusal {
                at,
                what,
                looks: self.looks,
            });
        }
    }

    fn refuse(&mut self, at: u16, why: Why) {
        self.note(at, What::Word(why));
    }

    fn refuse_routine(&mut self, at: u16, clash: Clash, entry: u16) {
        self.note(at, What::Routine { clash, entry });
    }

    fn wait(&mut self, at: u16) {
        if self.waiting.push(at).is_err() {
            self.failed = true;
        }
    }

    fn place(&mut self, at: u16, s: Spot) {
        if (at as usize) < self.spots.len() {
            self.spots[at as usize] = Some(s);
            self.wait(at);
        }
    }

    // There is a word of a routine at this address already.
    fn meet(&mut self, from: u16, at: u16, s: Spot, old: Spot) {
        if old.entry != s.entry {
            self.refuse_routine(from, Clash::RunsInto, old.entry);
        } else if !is_within(old.facts, s.facts) {
            self.place(at, beside(old, common_facts(old.facts, s.facts)));
        }
    }

    // The word at `from` leads to this one.
    fn put(&mut self, from: u16, at: u16, s: Spot) {
        match self.spot_at(at) {
            None => self.place(at, s),
            Some(old) => self.meet(from, at, s, old),
        }
    }

    fn is_vector(&self, entry: u16) -> bool {
        entry == 0 || self.interrupts && entry == HANDLER
    }

    // Whether a routine may be called that has a word there already.
    fn may_enter(&mut self, at: u16, s: Spot, entry: u16, old: Spot) -> bool {
        if old.entry != entry {
            self.refuse_routine(at, Clash::CallsInside, old.entry);
            return false;
        }
        if old.isr != s.isr {
            self.refuse_routine(at, Clash::CalledByBoth, entry);
            return false;
        }
        true
    }

    fn may_call(&mut self, at: u16, s: Spot, entry: u16) -> bool {
        if self.is_vector(entry) {
            self.refuse_routine(at, Clash::CallsVector, entry);
            return false;
        }
        match self.spot_at(entry) {
            None => true,
            Some(old) => self.may_enter(at, s, entry, old),
        }
    }

    // The word behind a call, if what is called was seen to return.
    fn come_back(&mut self, at: u16, s: Spot, entry: u16) {
        if let Some(out) = self.out_at(entry) {
            self.put(at, next(at), beside(s, two_bits(out, s.facts.saved)));
        }
    }

    fn enter(&mut self, at: u16, s: Spot, entry: u16) {
        if (at as usize) < self.calls.len() {
            self.calls[at as usize] = Some(entry);
        }
        let callee = Spot {
            entry,
            isr: s.isr,
            facts: two_bits(pages_of(s.facts), false),
        };
        self.come_back(at, s, entry);
        self.put(at, entry, callee);
    }

    fn call(&mut self, at: u16, s: Spot, word: u16) {
        match target(s.facts, word) {
            Some(entry) => if self.may_call(at, s, entry) {
                self.enter(at, s, entry);
            },
            None => self.refuse(at, Why::UnknownCall),
        }
    }

    fn jump(&mut self, at: u16, s: Spot, word: u16) {
        match target(s.facts, word) {
            Some(to) => self.put(at, to, s),
            None => self.refuse(at, Why::UnknownGoto),
        }
    }

    // The calls of a routine are looked at again.
    fn wake(&mut self, entry: u16) {
        for at in 0..8192u16 {
            if self.call_at(at) == Some(entry) {
                self.wait(at);
            }
        }
    }

    fn set_out(&mut self, entry: u16, out: Pages) {
        if (entry as usize) < self.outs.len() {
            self.outs[entry as usize] = Some(out);
            self.wake(entry);
        }
    }

    fn leave(&mut self, at: u16, s: Spot) {
        if self.is_vector(s.entry) {
            self.refuse(at, Why::Returns);
            return;
        }
        let here = pages_of(s.facts);
        match self.out_at(s.entry) {
            None => self.set_out(s.entry, here),
            Some(out) => if !are_known_in(out, here) {
                self.set_out(s.entry, common_pages(out, here));
            },
        }
    }

    fn end_handler(&mut self, at: u16, s: Spot) {
        if !s.isr || s.entry != HANDLER {
            self.refuse(at, Why::RetfieOutside);
        } else if !s.facts.orig {
            self.refuse(at, Why::NotRestored);
        }
    }

    fn look_at_intcon(&mut self, at: u16, isr: bool, word: u16) {
        self.opens = self.opens || !isr;
        if !self.interrupts {
            self.refuse(at, Why::NoHandler);
        } else if isr && !spares_gie(word) {
            self.refuse(at, Why::SetsGie);
        }
    }

    fn look_at_writes(&mut self, at: u16, s: Spot, word: u16) {
        if writes(PCL, word) {
            self.refuse(at, Why::WritesPcl);
        }
        if writes(INDF, word) {
            self.refuse(at, Why::WritesIndf);
        }
        if writes(INTCON, word) {
            self.look_at_intcon(at, s.isr, word);
        }
        if s.isr && s.entry != HANDLER && writes(self.cell as u16, word) {
            self.refuse(at, Why::WritesCell);
        }
    }

    fn pass(&mut self, at: u16, s: Spot, word: u16) {
        self.look_at_writes(at, s, word);
        let behind = beside(s, after(self.cell, word, s.facts));
        self.keeps = self.keeps || behind.facts.saved;
        if may_skip(word) {
            self.put(at, next(next(at)), behind);
        }
        self.put(at, next(at), behind);
    }

    fn look(&mut self, at: u16, s: Spot, word: u16) {
        if is_goto(word) {
            self.jump(at, s, word);
        } else if is_call(word) {
            self.call(at, s, word);
        } else if is_return(word) {
            self.leave(at, s);
        } else if is_retfie(word) {
            self.end_handler(at, s);
        } else if !is_sleep(word) && is_instruction(word) {
            self.pass(at, s, word);
        }
    }

    fn begin(&mut self) {
        if self.interrupts {
            self.place(
                HANDLER,
                Spot {
                    entry: HANDLER,
                    isr: true,
                    facts: AT_INTERRUPT,
                },
            );
        }
        self.place(
            0,
            Spot {
                entry: 0,
                isr: false,
                facts: AT_RESET,
            },
        );
    }

    fn go(&mut self, image: &Image) {
        for looks in 0..LOOKS {
            let Some(at) = self.waiting.pop() else {
                return;
            };
            self.looks = looks;
            if let Some(s) = self.spot_at(at) {
                self.look(at, s, word_at(image, at));
            }
        }
    }
}

/// The walk over an image from reset, and from the handler's beginning where interrupts come.
pub fn walked(
    alloc: Global,
    image: &Image,
    interrupts: bool,
    cell: u8,
) -> Result<Walk, AllocError> {
    let mut walk = Walk::new(alloc, interrupts, cell)?;
    walk.begin();
    walk.go(image);
    if walk.failed {
        return Err(AllocError);
    }
    Ok(walk)
}
