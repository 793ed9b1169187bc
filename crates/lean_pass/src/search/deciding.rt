//! Branches that a comparison decides: the flag that it leaves is tested, and no number is made of it.

use crate::keeping::is_status;
use crate::rows::{Act, FlagName, Shown};
use crate::search::bodies::{Body, Live, Place, Summary, Way};
use crate::search::known::Knowledge;
use crate::shown::{leaves_carry, skips_at};
use sym_code::{BitOperation, FileOperation, Into, Literal, LiteralOperation, PlainOperation, Sym};

fn flag_named(bit: u8) -> Option<FlagName> {
    match bit {
        0 => Some(FlagName::Carry),
        2 => Some(FlagName::Zero),
        _ => None,
    }
}

// A test of a flag, and what that is where the test skips.
fn flag_test(sym: Sym) -> Option<(FlagName, bool)> {
    match sym {
        Sym::Bit { op, file, bit } => {
            let tests = op == BitOperation::Btfsc || op == BitOperation::Btfss;
            if tests && is_status(file) {
                Some((flag_named(bit)?, skips_at(op)))
            } else {
                None
            }
        }
        _ => None,
    }
}

fn tests_zero(sym: Sym) -> bool {
    match flag_test(sym) {
        Some((FlagName::Zero, _)) => true,
        _ => false,
    }
}

fn number_moved(sym: Sym) -> Option<u8> {
    match sym {
        Sym::Literal {
            op: LiteralOperation::Movlw,
            value: Literal::Number(number),
        } => Some(number),
        _ => None,
    }
}

// The number that a place makes of W, whatever that was.
fn number_made(place: &Place) -> Option<u8> {
    match place.act {
        Act::Keeps => number_moved(place.sym),
        Act::Puts {
            op: LiteralOperation::Movlw,
            value,
        } => Some(value),
        _ => None,
    }
}

// W stays what it is behind an instruction that is left out.
fn leaves_w(place: &Place, known: &Knowledge) -> bool {
    match place.sym {
        Sym::Movwf(_) => true,
        Sym::Clrf(_) => true,
        Sym::File { op, into, .. } => match into {
            Into::File => !place.effect.skips,
            Into::W => match place.effect.reads {
                Some(byte) => {
                    !place.effect.skips
                        && if op == FileOperation::Movf {
                            known.held.has(byte)
                        } else {
                            known.stays(op, known.value(byte))
                        }
                }
                None => false,
            },
        },
        Sym::Bit { file, .. } => !is_status(file) && !place.effect.skips,
        Sym::Plain(PlainOperation::Nop) => true,
        _ => false,
    }
}

// What the flag decides of Z: that it is the flag, or the opposite.
fn turned_by(set: u8, clear: u8) -> Option<bool> {
    if set == 0 && clear != 0 {
        Some(false)
    } else if set != 0 && clear == 0 {
        Some(true)
    } else {
        None
    }
}

impl Body {
    fn knowledge(&self, at: usize) -> Knowledge {
        match self.known.get(at) {
            Some(known) => *known,
            None => Knowledge::unreached(),
        }
    }

    // It may be left out, and nothing that it writes is live behind the test.
    fn may_fall(&self, place: &Place, after: Live) -> bool {
        let byte = match place.effect.writes {
            Some(byte) => after.bytes.has(byte),
            None => false,
        };
        let sets = place.effect.sets;
        place.way == Way::On
            && (!place.fixed || place.is_dropped())
            && place.effect.silent
            && !place.carried
            && !byte
            && !sets.c
            && !sets.dc
    }

    // A skip that is gone already, and is known to skip or not.
    fn is_gone_skip(&self, at: usize, place: &Place) -> bool {
        place.effect.skips
            && place.is_dropped()
            && place.effect.writes.is_none()
            && !place.effect.to_w
            && self.way_at(at, place).is_some()
    }

    // The choice of a number by a flag that stands at a place: the flag, and W where it is set and where it isn't.
    fn chosen_at(&self, at: usize) -> Option<Shown> {
        let test = self.place(at)?;
        let (flag, skips) = flag_test(test.sym)?;
        let next = self.place(at.saturating_add(1))?;
        let other = number_made(&next)?;
        let known = self.knowledge(at);
        let number = known.number?;
        let bits = match flag {
            FlagName::Carry => known.carry_bit,
            FlagName::Zero => known.zero_bit,
        };
        let stands = test.act == Act::Keeps && test.group == at;
        if !bits || !stands || test.fixed || next.fixed {
            return None;
        }
        Some(Shown::Chooses {
            flag,
            set: if skips { number } else { other },
            clear: if skips { other } else { number },
        })
    }

    // Whether W is still what was chosen behind the choice, up to the test.
    fn is_chosen(&self, choice: usize, at: usize, after: Live) -> bool {
        for between in choice..at {
            let Some(place) = self.place(between) else {
                return false;
            };
            if self.comes_to(between) && !self.passes(choice, between, &place, after) {
                return false;
            }
            if place.is_label() {
                return false;
            }
        }
        true
    }

    fn passes(&self, choice: usize, at: usize, place: &Place, after: Live) -> bool {
        let first = at <= choice.saturating_add(1);
        self.may_fall(place, after)
            && (first || self.is_gone_skip(at, place) || leaves_w(place, &self.knowledge(at)))
    }

    // The choice that a test of Z goes by.
    fn choice_before(&self, at: usize, after: Live) -> Option<(usize, Shown)> {
        for before in (0..at).rev() {
            let place = self.place(before)?;
            if place.is_label() || place.way != Way::On {
                return None;
            }
            if let Some(shown) = self.chosen_at(before) {
                if self.is_chosen(before, at, after) {
                    return Some((before, shown));
                }
                return None;
            }
        }
        None
    }

    fn fall(&mut self, at: usize, shown: Shown) {
        if at < self.places.len() {
            self.places[at].act = Act::Drops;
            self.places[at].needless = false;
            self.places[at].shown = shown;
        }
    }

    // The choice and what stands between it and a place fall.
    fn fall_behind(&mut self, choice: usize, at: usize, shown: Shown) {
        let Shown::Chooses { flag, .. } = shown else {
            return;
        };
        let Some((_, skips)) = self.test_at(choice) else {
            return;
        };
        let behind = choice.saturating_add(1);
        self.fall(choice, Shown::Unshown);
        self.fall(behind, Shown::Sees { flag, set: !skips });
        for between in behind.saturating_add(1)..at {
            self.fall(between, shown);
        }
    }

    fn decide_by(&mut self, at: usize, choice: usize, shown: Shown) -> bool {
        let Shown::Chooses { flag, set, clear } = shown else {
            return false;
        };
        let Some(turned) = turned_by(set, clear) else {
            return false;
        };
        self.fall_behind(choice, at, shown);
        if at < self.places.len() {
            self.places[at].act = Act::Tests { flag, turned };
            self.places[at].shown = shown;
        }
        true
    }

    // A number that the carry chose is taken away from one that leaves the same carry, and nothing else of it is wanted.
    fn leaves_carry_at(&self, at: usize, place: &Place, after: Live) -> bool {
        let stands = match place.act {
            Act::Keeps => true,
            Act::Puts { .. } => true,
            _ => false,
        };
        stands
            && self.comes_to(at)
            && place.way == Way::On
            && !place.fixed
            && place.effect.silent
            && place.effect.to_w
            && !after.w
            && !after.z
            && !after.dc
    }

    fn chain_at(&mut self, at: usize, own: usize, summaries: &[Summary]) -> bool {
        let Some(place) = self.place(at) else {
            return false;
        };
        let Sym::File { op, .. } = place.sym else {
            return false;
        };
        let Some(byte) = place.effect.reads else {
            return false;
        };
        let after = self.live_after(at, &place, own, summaries);
        if op != FileOperation::Subwf || !self.leaves_carry_at(at, &place, after) {
            return false;
        }
        let Some((choice, shown)) = self.choice_before(at, after) else {
            return false;
        };
        if !leaves_carry(op, self.knowledge(at).value(byte), shown) {
            return false;
        }
        self.fall_behind(choice, at, shown);
        self.fall(at, shown);
        true
    }

    fn test_at(&self, at: usize) -> Option<(FlagName, bool)> {
        flag_test(self.place(at)?.sym)
    }

    fn decide_at(&mut self, at: usize, own: usize, summaries: &[Summary]) -> bool {
        let Some(place) = self.place(at) else {
            return false;
        };
        let is_test = place.act == Act::Keeps && place.group == at && tests_zero(place.sym);
        if !is_test || !self.comes_to(at) || !self.knowledge(at).zero {
            return false;
        }
        let after = self.live_after(at, &place, own, summaries);
        if after.w || after.z {
            return false;
        }
        match self.choice_before(at, after) {
            Some((choice, shown)) => self.decide_by(at, choice, shown),
            None => false,
        }
    }

    /// Lets branches go by the flags of comparisons. Answers whether any does now.
    pub fn decide(&mut self, own: usize, summaries: &[Summary]) -> bool {
        let mut changed = false;
        for at in 0..self.places.len() {
            changed = self.chain_at(at, own, summaries) || changed;
            changed = self.decide_at(at, own, summaries) || changed;
        }
        changed
    }
}
