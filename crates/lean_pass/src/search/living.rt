//! What is live: read further on before it is written.

use crate::search::bits::Bits;
use crate::search::bodies::{Body, Live, Place, Summary, Way};
use crate::search::effects::Effect;

fn summary_at(summaries: &[Summary], at: usize) -> Summary {
    match summaries.get(at) {
        Some(summary) => *summary,
        None => Summary::nothing(),
    }
}

// Before an instruction with this effect.
fn before(effect: Effect, after: Live) -> Live {
    let mut live = Live {
        bytes: after.bytes,
        w: (after.w && !effect.to_w) || effect.uses_w,
        z: (after.z && !effect.sets.z) || effect.uses.z,
        dc: (after.dc && !effect.sets.dc) || effect.uses.dc,
        c: (after.c && !effect.sets.c) || effect.uses.c,
    };
    if let Some(byte) = effect.writes {
        live.bytes.take(byte);
    }
    if let Some(byte) = effect.reads {
        live.bytes.put(byte);
    }
    live.bytes = live.bytes.join(effect.reaches);
    live
}

// Before a call, behind which this is live.
fn before_call(callee: Summary, after: Live) -> Live {
    Live {
        bytes: after.bytes.join(callee.reads),
        ..callee.front
    }
}

impl Body {
    /// What is live behind a place.
    pub fn live_after(&self, at: usize, place: &Place, own: usize, summaries: &[Summary]) -> Live {
        let next = at.saturating_add(1);
        match place.way {
            Way::Goto(target) => match target {
                Some(target) => self.live_at(target),
                None => Live::nothing(),
            },
            Way::Return => summary_at(summaries, own).back,
            Way::Stop => Live::nothing(),
            Way::Restore => summary_at(summaries, own).front,
            _ => {
                let past = self.word_from(next).saturating_add(1);
                let way = self.way_at(at, place);
                if !place.effect.skips || way == Some(false) {
                    self.live_at(next)
                } else if way == Some(true) {
                    self.live_at(past)
                } else {
                    self.live_at(next).join(self.live_at(past))
                }
            }
        }
    }

    fn live_before(&self, at: usize, place: &Place, own: usize, summaries: &[Summary]) -> Live {
        let after = self.live_after(at, place, own, summaries);
        match place.way {
            Way::Call(callee) => match callee {
                Some(callee) => before_call(summary_at(summaries, callee), after),
                None => after,
            },
            _ => before(place.made(), after),
        }
    }

    /// Finds anew what is live before a place. Answers whether that changed.
    pub fn renew(&mut self, at: usize, own: usize, summaries: &[Summary]) -> bool {
        let Some(place) = self.place(at) else {
            return false;
        };
        let live = self.live_before(at, &place, own, summaries);
        if at >= self.live.len() || self.live[at] == live {
            return false;
        }
        self.live[at] = live;
        true
    }

    // A call comes back to this place.
    fn comes_back(&self, at: usize, own: usize, summaries: &mut [Summary]) -> bool {
        let Some(place) = self.place(at) else {
            return false;
        };
        let Way::Call(Some(callee)) = place.way else {
            return false;
        };
        let mut after = self.live_after(at, &place, own, summaries);
        if callee >= summaries.len() {
            return false;
        }
        after.bytes = after.bytes.meet(summaries[callee].named);
        let back = summaries[callee].back.join(after);
        let changed = back != summaries[callee].back;
        summaries[callee].back = back;
        changed
    }

    fn live_round(&mut self, own: usize, summaries: &mut [Summary]) -> bool {
        let mut changed = false;
        for at in (0..self.places.len()).rev() {
            changed = self.renew(at, own, summaries) || changed;
            changed = self.comes_back(at, own, summaries) || changed;
        }
        let front = self.live_at(0);
        if own < summaries.len() && summaries[own].front != front {
            summaries[own].front = front;
            changed = true;
        }
        changed
    }

    // The bytes that it names and reads, with those of the blocks that it calls.
    fn named_round(&self, own: usize, summaries: &mut [Summary]) -> bool {
        if own >= summaries.len() {
            return false;
        }
        let mut named = summaries[own].named;
        let mut reads = summaries[own].reads;
        for place in &self.places {
            let effect = place.made();
            if let Some(byte) = place.effect.reads {
                named.put(byte);
            }
            if let Some(byte) = place.effect.writes {
                named.put(byte);
            }
            if let Some(byte) = effect.reads {
                reads.put(byte);
            }
            reads = reads.join(effect.reaches);
            if let Way::Call(Some(callee)) = place.way {
                let other = summary_at(summaries, callee);
                named = named.join(other.named);
                reads = reads.join(other.reads);
            }
        }
        let changed = named != summaries[own].named || reads != summaries[own].reads;
        summaries[own].named = named;
        summaries[own].reads = reads;
        changed
    }

    fn outer_round(&self, own: usize, inside: Bits, summaries: &mut [Summary]) -> bool {
        let mut changed = false;
        for at in 0..self.places.len() {
            if let Some(place) = self.place(at) {
                if let Way::Call(Some(callee)) = place.way {
                    let apart = self.apart(at, summary_at(summaries, own).named, inside);
                    let outer = apart.join(summary_at(summaries, own).outer);
                    if callee < summaries.len() {
                        let all = summaries[callee].outer.join(outer);
                        changed = changed || all != summaries[callee].outer;
                        summaries[callee].outer = all;
                    }
                }
            }
        }
        changed
    }

    /// What may differ at a place: own bytes that are named and not live.
    pub fn apart(&self, at: usize, named: Bits, own: Bits) -> Bits {
        named.meet(own).without(self.live_at(at).bytes)
    }
}

/// How often all blocks are gone through, at most.
const ROUNDS: u32 = 200;

/// Finds what is live at each place of all blocks. Answers whether that was found.
pub fn find_live(bodies: &mut [Body], summaries: &mut [Summary]) -> bool {
    for summary in summaries.iter_mut() {
        *summary = Summary::nothing();
    }
    for body in bodies.iter_mut() {
        for live in body.live.iter_mut() {
            *live = Live::nothing();
        }
    }
    find_named(bodies, summaries) && find_living(bodies, summaries)
}

fn find_named(bodies: &[Body], summaries: &mut [Summary]) -> bool {
    for _round in 0..ROUNDS {
        let mut changed = false;
        for own in 0..bodies.len() {
            changed = bodies[own].named_round(own, summaries) || changed;
        }
        if !changed {
            return true;
        }
    }
    false
}

fn find_living(bodies: &mut [Body], summaries: &mut [Summary]) -> bool {
    for _round in 0..ROUNDS {
        let mut changed = false;
        for own in 0..bodies.len() {
            changed = bodies[own].live_round(own, summaries) || changed;
        }
        if !changed {
            return true;
        }
    }
    false
}

/// Finds what may differ in functions that wait for others; `main` and `isr` are the bytes of each thread. Answers whether that was found.
pub fn find_outer(bodies: &[Body], main: Bits, isr: Bits, summaries: &mut [Summary]) -> bool {
    for _round in 0..ROUNDS {
        let mut changed = false;
        for own in 0..bodies.len() {
            let bytes = if bodies[own].inside { isr } else { main };
            changed = bodies[own].outer_round(own, bytes, summaries) || changed;
        }
        if !changed {
            return true;
        }
    }
    false
}
