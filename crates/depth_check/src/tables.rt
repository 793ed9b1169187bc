//! What the search for a certificate has found so far, by address.

ghost use Rattle.std.specs.Prelude.{◌≡◌};
ghost use Rattle.pic_isa.specs.Table.{IsWellFormed};
ghost use Rattle.depth_check.specs.Facts.{at_reset, at_interrupt};
ghost use Rattle.depth_check.specs.Search.{tables, common as common_of, meet as meet_of, spot_at as spot_at_of, out_at as out_at_of, put as put_of, with_spot as with_spot_of, placed as placed_of, beside as beside_of, with_out as with_out_of, knows as knows_of, leave as leave_of, gone as gone_of, come_back as come_back_of, with_callee as with_callee_of, called as called_of, skipped as skipped_of, passed as passed_of, done as done_of, step as step_of, with_handler as with_handler_of, with_roots as with_roots_of};

use crate::Facts;
use crate::agenda::Agenda;
use crate::check::{AT_INTERRUPT, AT_RESET, instruction, next, next_but_one, two_bits};
use crate::known::{after, fits, known_in, may_skip, target};
use pic_chip::Image;
use pic_isa::Ins;

/// A row that was found: the entry of its routine, whether that belongs to the handler, and what is known there.
#[derive(Clone, Copy)]
pub struct Spot {
    pub entry: u16,
    pub isr: bool,
    pub facts: Facts,
}

/// What is known at each RETURN and RETLW of a routine that was found.
#[derive(Clone, Copy)]
pub struct Out {
    pub p3: Option<bool>,
    pub p4: Option<bool>,
}

/// The tables of one search, for one cell, with or without interrupts.
#[derive(Drop)]
pub struct Search {
    pub interrupts: bool,
    pub cell: u8,
    /// The rows by address.
    pub spots: Vec<Option<Spot>>,
    /// By a routine's entry what is known where it is left; None where no way out was found.
    pub outs: Vec<Option<Out>>,
    /// Whether something was found since this was last set to false.
    pub changed: bool,
    /// Where what was found is still to be looked at.
    pub agenda: Agenda,
}

// What is known both here and there.
fn common(a: Option<bool>, b: Option<bool>) -> Option<bool>
    ensures { result ≡ common_of a b }
{
    match a {
        None => None,
        Some(x) => match b {
            None => None,
            Some(y) => if x == y { Some(x) } else { None },
        },
    }
}

fn meet(a: Facts, b: Facts) -> Facts
    ensures { result ≡ meet_of a b }
{
    Facts {
        p3: common(a.p3, b.p3),
        p4: common(a.p4, b.p4),
        orig: a.orig && b.orig,
        w_orig: a.w_orig && b.w_orig,
        saved: a.saved && b.saved,
    }
}

fn knows(x: Facts, o: Out) -> bool
    ensures { result ≡ knows_of x o }
{
    known_in(o.p3, x.p3) && known_in(o.p4, x.p4)
}

// A row of the same routine.
fn beside(s: Spot, facts: Facts) -> Spot
    ensures { result ≡ beside_of s facts }
{
    Spot {
        entry: s.entry,
        isr: s.isr,
        facts,
    }
}

impl Search {
    pub fn spot_at(&self, at: u16) -> Option<Spot>
        ensures { result ≡ spot_at_of (tables self.now) at }
    {
        if (at as usize) < self.spots.len() {
            self.spots[at as usize]
        } else {
            None
        }
    }

    pub fn out_at(&self, entry: u16) -> Option<Out>
        ensures { result ≡ out_at_of (tables self.now) entry }
    {
        if (entry as usize) < self.outs.len() {
            self.outs[entry as usize]
        } else {
            None
        }
    }

    // A row is asked for: it is new, or knows no more than what is known on each way to it.
    fn put(&mut self, at: u16, s: Spot)
        ensures { tables self.new ≡ put_of (tables self.old) at s }
    {
        if (at as usize) < self.spots.len() {
            match self.spots[at as usize] {
                None => {
                    self.spots[at as usize] = Some(s);
                    self.changed = true;
                    self.agenda.add(at);
                }
                Some(old) => {
                    if !fits(s.facts, old.facts) {
                        self.spots[at as usize] = Some(beside(old, meet(old.facts, s.facts)));
                        self.changed = true;
                        self.agenda.add(at);
                    }
                }
            }
        }
    }

    // A routine is left here.
    fn leave(&mut self, entry: u16, x: Facts)
        ensures { tables self.new ≡ leave_of (tables self.old) entry x }
    {
        if (entry as usize) < self.outs.len() {
            match self.outs[entry as usize] {
                None => {
                    self.outs[entry as usize] = Some(Out { p3: x.p3, p4: x.p4 });
                    self.changed = true;
                    self.agenda.left(entry);
                }
                Some(o) => {
                    if !knows(x, o) {
                        self.outs[entry as usize] = Some(Out {
                            p3: common(o.p3, x.p3),
                            p4: common(o.p4, x.p4),
                        });
                        self.changed = true;
                        self.agenda.left(entry);
                    }
                }
            }
        }
    }

    fn gone(&mut self, s: Spot, to: Option<u16>)
        ensures { tables self.new ≡ gone_of (tables self.old) s to }
    {
        match to {
            None => {}
            Some(to) => self.put(to, s),
        }
    }

    // Behind a call, where the callee was seen to return.
    fn come_back(&mut self, at: u16, s: Spot, out: Option<Out>)
        ensures { tables self.new ≡ come_back_of (tables self.old) at s out }
    {
        match out {
            None => {}
            Some(o) => self.put(next(at), beside(s, two_bits(o.p3, o.p4, s.facts.saved))),
        }
    }

    fn called(&mut self, at: u16, s: Spot, entry: Option<u16>)
        ensures { tables self.new ≡ called_of (tables self.old) at s entry }
    {
        match entry {
            None => {}
            Some(entry) => {
                self.agenda.called(at, entry);
                self.put(
                    entry,
                    Spot {
                        entry,
                        isr: s.isr,
                        facts: two_bits(s.facts.p3, s.facts.p4, false),
                    },
                );
                let out = self.out_at(entry);
                self.come_back(at, s, out);
            }
        }
    }

    fn skipped(&mut self, at: u16, s: Spot, skips: bool)
        ensures { tables self.new ≡ skipped_of (tables self.old) at s skips }
    {
        if skips {
            self.put(next_but_one(at), s);
        }
    }

    fn passed(&mut self, at: u16, s: Spot, i: Ins)
        ensures { tables self.new ≡ passed_of (tables self.old) at s i }
    {
        let behind = beside(s, after(self.cell, i, s.facts));
        self.put(next(at), behind);
        self.skipped(at, behind, may_skip(i));
    }

    fn done(&mut self, at: u16, s: Spot, i: Ins)
        requires { IsWellFormed i }
        ensures { tables self.new ≡ done_of (tables self.old) at s i }
    {
        match i {
            Ins::Goto { k } => self.gone(s, target(s.facts.p3, s.facts.p4, k)),
            Ins::Call { k } => self.called(at, s, target(s.facts.p3, s.facts.p4, k)),
            Ins::Return | Ins::Retlw { k: _ } => self.leave(s.entry, s.facts),
            Ins::Retfie | Ins::Sleep => {}
            _ => self.passed(at, s, i),
        }
    }

    /// What the row at an address asks for is found.
    #[tactic(auto, unfolding(crate::specs::Search::step))]
    pub fn step(&mut self, image: &Image, at: u16)
        ensures { tables self.new ≡ step_of image.now (tables self.old) at }
    {
        match self.spot_at(at) {
            None => {}
            Some(s) => match instruction(image, at) {
                None => {}
                Some(i) => self.done(at, s, i),
            },
        }
    }

    fn with_handler(&mut self, interrupts: bool)
        ensures { tables self.new ≡ with_handler_of (tables self.old) interrupts }
    {
        if interrupts {
            self.put(
                4,
                Spot {
                    entry: 4,
                    isr: true,
                    facts: AT_INTERRUPT,
                },
            );
        }
    }

    /// The rows that each certificate begins with are found.
    #[tactic(auto, unfolding(crate::specs::Search::with_roots))]
    pub fn with_roots(&mut self)
        ensures { tables self.new ≡ with_roots_of (tables self.old) }
    {
        self.put(
            0,
            Spot {
                entry: 0,
                isr: false,
                facts: AT_RESET,
            },
        );
        let interrupts = self.interrupts;
        self.with_handler(interrupts);
    }
}
