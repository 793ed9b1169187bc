//! What may differ between the machine that runs the given code and the one that runs what is made of it, by what is left out so far.

use crate::rows::Act;
use crate::search::bits::Bits;
use crate::search::bodies::{Body, Live, Place, Summary, Way};
use crate::search::effects::Effect;
use sym_code::{BlockName, LiteralOperation};

// Both write this.
fn both(effect: Effect, before: Live) -> Live {
    let mut after = Live {
        bytes: before.bytes,
        w: before.w && !effect.to_w,
        z: before.z && !effect.sets.z,
        dc: before.dc && !effect.sets.dc,
        c: before.c && !effect.sets.c,
    };
    if let Some(byte) = effect.writes {
        after.bytes.take(byte);
    }
    after
}

// Only one of them writes this.
fn one(effect: Effect, before: Live) -> Live {
    let mut after = Live {
        bytes: before.bytes,
        w: before.w || effect.to_w,
        z: before.z || effect.sets.z,
        dc: before.dc || effect.sets.dc,
        c: before.c || effect.sets.c,
    };
    if let Some(byte) = effect.writes {
        after.bytes.put(byte);
    }
    after
}

fn dropped(place: &Place, before: Live) -> Live {
    if place.carried {
        return Live {
            w: false,
            z: !place.reports,
            ..before
        };
    }
    if place.needless {
        return Live {
            z: before.z || place.effect.sets.z,
            dc: before.dc || place.effect.sets.dc,
            c: before.c || place.effect.sets.c,
            ..before
        };
    }
    one(place.effect, before)
}

fn put(place: &Place, op: LiteralOperation, before: Live) -> Live {
    if op == LiteralOperation::Movlw {
        let sets = place.effect.sets;
        Live {
            w: false,
            z: before.z || sets.z,
            dc: before.dc || sets.dc,
            c: before.c || sets.c,
            ..before
        }
    } else {
        both(place.effect, before)
    }
}

fn narrowed(place: &Place, before: Live) -> Live {
    let mut after = both(place.effect, before);
    after.w = true;
    if let Some(byte) = place.effect.writes {
        after.bytes.put(byte);
    }
    after
}

// Only one of them sets Z.
fn cleared(place: &Place, before: Live) -> Live {
    Live {
        z: true,
        ..both(place.effect, before)
    }
}

// Another byte is read, and the result goes to W.
fn read(place: &Place, before: Live) -> Live {
    match place.effect.writes {
        Some(_) => narrowed(place, before),
        None => both(place.effect, before),
    }
}

// Behind a call nothing differs but what did before, and what may where the called block returns of the bytes that it names.
fn behind_call(callee: Option<usize>, before: Live, summaries: &[Summary]) -> Live {
    let Some(callee) = callee else {
        return Live::all();
    };
    match summaries.get(callee) {
        Some(summary) => Live {
            bytes: before
                .bytes
                .join(summary.returned.bytes.meet(summary.named)),
            ..summary.returned
        },
        None => Live::all(),
    }
}

fn behind(place: &Place, before: Live, summaries: &[Summary]) -> Live {
    if let Way::Call(callee) = place.way {
        return behind_call(callee, before, summaries);
    }
    match place.act {
        Act::Keeps => both(place.effect, before),
        Act::Tests { .. } => both(place.effect, before),
        Act::Drops => dropped(place, before),
        Act::Puts { op, .. } => put(place, op, before),
        Act::Narrows => narrowed(place, before),
        Act::Clears => cleared(place, before),
        Act::Reads { .. } => read(place, before),
    }
}

// More may differ. Answers whether that is new.
fn more(live: &mut Live, other: Live) -> bool {
    let all = live.join(other);
    let changed = all != *live;
    *live = all;
    changed
}

// Nothing differs yet where main begins.
fn is_main(name: BlockName) -> bool {
    match name {
        BlockName::Start => false,
        BlockName::Copy(copy) => copy == 0,
    }
}

impl Body {
    pub fn differs_at(&self, at: usize) -> Live {
        match self.differs.get(at) {
            Some(live) => *live,
            None => Live::all(),
        }
    }

    fn differ(&mut self, at: usize, other: Live) -> bool {
        if at < self.differs.len() {
            more(&mut self.differs[at], other)
        } else {
            false
        }
    }

    fn differ_next(&mut self, at: usize, place: &Place, after: Live) -> bool {
        let next = at.saturating_add(1);
        let way = self.way_at(at, place);
        let on = way != Some(true) && self.differ(next, after);
        if place.effect.skips && way != Some(false) {
            let past = self.word_from(next).saturating_add(1);
            self.differ(past, after) || on
        } else {
            on
        }
    }

    fn differ_on(&mut self, at: usize, own: usize, summaries: &mut [Summary]) -> bool {
        let Some(place) = self.place(at) else {
            return false;
        };
        if !self.comes_to(at) {
            return false;
        }
        let before = self.differs_at(at);
        let after = behind(&place, before, summaries);
        match place.way {
            Way::Goto(target) => match target {
                Some(target) => self.differ(target, after),
                None => false,
            },
            Way::Call(callee) => {
                let entered = enter(callee, before, summaries);
                self.differ_next(at, &place, after) || entered
            }
            Way::Return => own < summaries.len() && more(&mut summaries[own].returned, after),
            Way::Stop => false,
            Way::Restore => false,
            _ => self.differ_next(at, &place, after),
        }
    }

    fn differ_round(&mut self, own: usize, summaries: &mut [Summary]) -> bool {
        let mut changed = false;
        if own < summaries.len() {
            changed = self.differ(0, summaries[own].entered);
        }
        for at in 0..self.places.len() {
            changed = self.differ_on(at, own, summaries) || changed;
        }
        changed
    }

    fn forget_differing(&mut self) {
        for live in self.differs.iter_mut() {
            *live = Live::nothing();
        }
        if self.begins {
            let first = if is_main(self.name) {
                Bits::none()
            } else {
                Bits::all()
            };
            self.differ(
                0,
                Live {
                    bytes: first,
                    ..Live::all()
                },
            );
        }
    }
}

fn enter(callee: Option<usize>, before: Live, summaries: &mut [Summary]) -> bool {
    match callee {
        Some(callee) => { callee < summaries.len() && more(&mut summaries[callee].entered, before) }
        None => false,
    }
}

/// How often all blocks are gone through, at most.
const ROUNDS: u32 = 1000;

/// Finds what may differ at each place of all blocks. Answers whether that was found.
pub fn find_differing(bodies: &mut [Body], summaries: &mut [Summary]) -> bool {
    for body in bodies.iter_mut() {
        body.forget_differing();
    }
    for summary in summaries.iter_mut() {
        summary.entered = Live::nothing();
        summary.returned = Live::nothing();
    }
    for _round in 0..ROUNDS {
        let mut changed = false;
        for own in 0..bodies.len() {
            changed = bodies[own].differ_round(own, summaries) || changed;
        }
        if !changed {
            return true;
        }
    }
    false
}
