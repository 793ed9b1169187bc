//! Which instructions are left out, and which become others.

use crate::behind::is_number;
use crate::clearing::may_clear;
use crate::computing::{file_for, same_known};
use crate::operations::literal_for;
use crate::rows::Act;
use crate::search::bodies::{Body, Live, Place, Summary, Way};
use crate::search::effects::Effect;
use crate::search::known::{BYTES, Knowledge};
use crate::steady::leads_on;
use sym_code::{FileOperation, Into, Literal, LiteralOperation, Operand, Sym};

// Nothing that it writes is live behind it.
fn is_dead(effect: Effect, after: Live) -> bool {
    let byte = match effect.writes {
        Some(byte) => after.bytes.has(byte),
        None => false,
    };
    !byte
        && !(effect.to_w && after.w)
        && !(effect.sets.z && after.z)
        && !(effect.sets.dc && after.dc)
        && !(effect.sets.c && after.c)
}

/// What is looked for, one at a time: what is said of one kind rests on what the others did before.
#[derive(Clone, Copy, PartialEq, Eq)]
pub enum Aims {
    /// What writes nothing that is live.
    Dead,
    /// What writes what is so already, and operations on numbers.
    Same,
    /// Moves that say of Z what it says already.
    SameZero,
}

// An operation on a byte that leaves W as it is.
fn leaves_w(op: FileOperation, byte: usize, known: &Knowledge) -> bool {
    match op {
        FileOperation::Movf => {
            known.held.has(byte) || same_known(known.number, known.value(byte))
        }
        _ => known.stays(op, known.value(byte)),
    }
}

// An operation that leaves the byte as it is.
fn leaves_byte(op: FileOperation, byte: usize, known: &Knowledge) -> bool {
    let value = known.value(byte);
    same_known(known.result(op, value), value)
}

fn is_number_in_w(op: LiteralOperation, value: Literal, known: &Knowledge) -> bool {
    let Literal::Number(number) = value else {
        return false;
    };
    match file_for(op) {
        Some(file) => known.stays(file, Some(number)),
        None => op == LiteralOperation::Movlw && is_number(known.number, number),
    }
}

fn is_needless_file(
    place: &Place,
    op: FileOperation,
    into: Into,
    known: &Knowledge,
    differs: Live,
) -> bool {
    let Some(byte) = place.effect.reads else {
        return false;
    };
    match into {
        Into::W => !differs.w && leaves_w(op, byte, known),
        Into::File => !differs.bytes.has(byte) && leaves_byte(op, byte, known),
    }
}

// What it writes is so already on both machines.
fn is_needless(place: &Place, known: &Knowledge, differs: Live) -> bool {
    match place.sym {
        Sym::File { op, into, .. } => is_needless_file(place, op, into, known, differs),
        Sym::Literal { op, value } => !differs.w && is_number_in_w(op, value, known),
        Sym::Movwf(_) => match place.effect.writes {
            Some(byte) => !differs.bytes.has(byte) && known.held.has(byte),
            None => false,
        },
        Sym::Clrf(_) => match place.effect.writes {
            Some(byte) => !differs.bytes.has(byte) && is_number(known.value(byte), 0),
            None => false,
        },
        _ => false,
    }
}

// No flag that it writes is live behind it, but for Z, of which is asked apart.
fn leaves_carries(effect: Effect, after: Live) -> bool {
    !(effect.sets.dc && after.dc) && !(effect.sets.c && after.c)
}

fn leaves_flags(effect: Effect, after: Live) -> bool {
    !(effect.sets.z && after.z) && leaves_carries(effect, after)
}

// The number that an operation makes, which may stand in its place.
fn number_for(place: &Place, op: FileOperation, known: &Knowledge, after: Live) -> Option<Act> {
    let byte = known.value(place.effect.reads?);
    let value = known.result(op, byte)?;
    if op == FileOperation::Movf || !leaves_flags(place.effect, after) {
        return None;
    }
    Some(Act::Puts {
        op: LiteralOperation::Movlw,
        value,
    })
}

// The operation on a number that may stand in its place.
fn put_for(op: FileOperation, byte: usize, known: &Knowledge, after: Live) -> Option<Act> {
    let value = known.value(byte)?;
    let new = literal_for(op)?;
    if op == FileOperation::Movf && after.z {
        return None;
    }
    Some(Act::Puts { op: new, value })
}

// What W holds already may be moved to it without the byte, for Z.
fn test_for(byte: usize, known: &Knowledge, differs: Live, after: Live) -> Option<Act> {
    if known.held.has(byte) && !differs.w && after.z && !after.bytes.has(byte) {
        Some(Act::Puts {
            op: LiteralOperation::Iorlw,
            value: 0,
        })
    } else {
        None
    }
}

// The byte may be cleared where 0 is stored.
fn clear_for(file: Operand, known: &Knowledge, after: Live) -> Option<Act> {
    if may_clear(file) && is_number(known.number, 0) && !after.z {
        Some(Act::Clears)
    } else {
        None
    }
}

fn put_at(place: &Place, known: &Knowledge, differs: Live, after: Live) -> Option<Act> {
    match place.sym {
        Sym::File { op, into, .. } => match into {
            Into::File => None,
            Into::W => {
                let byte = place.effect.reads?;
                if op == FileOperation::Movf && !place.fixed {
                    if let Some(act) = test_for(byte, known, differs, after) {
                        return Some(act);
                    }
                }
                match number_for(place, op, known, after) {
                    Some(act) => Some(act),
                    None => put_for(op, byte, known, after),
                }
            }
        },
        Sym::Movwf(file) => clear_for(file, known, after),
        _ => None,
    }
}

// The byte that may be read in the place of its copy.
fn read_for(byte: usize, known: &Knowledge, differs: Live) -> Option<Act> {
    let origin = known.origin(byte)?;
    if differs.bytes.has(origin) || byte <= origin || byte >= BYTES {
        return None;
    }
    Some(Act::Reads {
        before: (byte - origin) as u16,
    })
}

fn read_at(place: &Place, known: &Knowledge, differs: Live) -> Option<Act> {
    match place.sym {
        Sym::File { .. } => if place.effect.writes.is_none() {
            read_for(place.effect.reads?, known, differs)
        } else {
            None
        },
        Sym::Bit { .. } => if place.effect.writes.is_none() {
            read_for(place.effect.reads?, known, differs)
        } else {
            None
        },
        _ => None,
    }
}

impl Body {
    fn known_at(&self, at: usize) -> Knowledge {
        match self.known.get(at) {
            Some(known) => *known,
            None => Knowledge::unreached(),
        }
    }

    fn act(&mut self, at: usize, act: Act) {
        if at < self.places.len() {
            self.places[at].act = act;
        }
    }

    fn is_last(&self, at: usize, group: usize) -> bool {
        match self.place(at.saturating_add(1)) {
            Some(next) => next.group != group,
            None => true,
        }
    }

    // The last place of a run of skips with the instruction behind them.
    fn group_end(&self, at: usize, group: usize) -> usize {
        for next in at..self.places.len() {
            if self.is_last(next, group) {
                return next;
            }
        }
        at
    }

    // Whether a run of skips with the instruction behind them can go as a whole.
    fn is_group_dead(&self, group: usize, last: usize, after: Live) -> bool {
        for at in group..last.saturating_add(1) {
            if let Some(place) = self.place(at) {
                if place.fixed || !place.effect.silent || !is_dead(place.effect, after) {
                    return false;
                }
            }
        }
        true
    }

    fn drop_group(&mut self, group: usize, last: usize) {
        for at in group..last.saturating_add(1) {
            self.act(at, Act::Drops);
        }
    }

    fn is_needless_at(&self, at: usize, place: &Place, aims: Aims, after: Live) -> bool {
        let known = self.known_at(at);
        let differs = self.differs_at(at);
        match aims {
            Aims::Dead => false,
            Aims::Same => leaves_flags(place.effect, after) && is_needless(place, &known, differs),
            Aims::SameZero => {
                place.effect.to_w
                    && known.zero
                    && !differs.z
                    && leaves_carries(place.effect, after)
                    && is_needless(place, &known, differs)
            }
        }
    }

    fn may_go(&self, at: usize, place: &Place, aims: Aims, after: Live) -> bool {
        if place.fixed || place.way != Way::On {
            return false;
        }
        let goes = match aims {
            Aims::Dead => is_dead(place.effect, after),
            _ => self.is_needless_at(at, place, aims, after),
        };
        place.effect.silent && goes
    }

    fn choose_alone(&mut self, at: usize, place: &Place, aims: Aims, after: Live) -> bool {
        let alone = !place.effect.skips || self.runs_on(at, place);
        if alone && place.group == at && self.may_go(at, place, aims, after) {
            self.leave_out(at, aims != Aims::Dead);
            self.part(at, place.group);
            return true;
        }
        place.act == Act::Keeps
            && aims == Aims::Same
            && (alone && self.put(at, place, after) || self.read_another(at, place))
    }

    // Another operation stands in its place.
    fn put(&mut self, at: usize, place: &Place, after: Live) -> bool {
        match put_at(place, &self.known_at(at), self.differs_at(at), after) {
            Some(act) => {
                self.act(at, act);
                self.part(at, place.group);
                true
            }
            None => false,
        }
    }

    // Another byte is read in its place.
    fn read_another(&mut self, at: usize, place: &Place) -> bool {
        match read_at(place, &self.known_at(at), self.differs_at(at)) {
            Some(act) => {
                self.act(at, act);
                true
            }
            None => false,
        }
    }

    fn leave_out(&mut self, at: usize, needless: bool) {
        if at < self.places.len() {
            self.places[at].act = Act::Drops;
            self.places[at].needless = needless;
        }
    }

    // Where nothing comes, a run of skips with the instruction behind them goes as a whole, too: what counts and what doesn't. The last
    // word of the block waits for `shorten`.
    fn leave_unreached(&mut self, at: usize, group: usize) -> bool {
        let last = self.group_end(at, group);
        let ends = match self.place(last) {
            Some(end) => end.last,
            None => true,
        };
        if ends {
            return false;
        }
        if !self.comes_to(group) {
            self.act(at, Act::Drops);
            return true;
        }
        // A skip that is always gone goes with what stands behind it.
        let pair = last == at && at == group.saturating_add(1) && self.is_decided(group);
        if pair {
            self.drop_group(group, at);
        }
        pair
    }

    // The instruction surely doesn't skip, and the one behind it leads on.
    fn runs_on(&self, at: usize, place: &Place) -> bool {
        let leads = match self.place(at.saturating_add(1)) {
            Some(next) => leads_on(next.sym),
            None => false,
        };
        leads && self.way_at(at, place) == Some(false)
    }

    // What stands behind a skip that doesn't stay is a run of its own.
    fn part(&mut self, at: usize, group: usize) {
        let next = at.saturating_add(1);
        for later in next..self.places.len() {
            if self.places[later].group != group {
                return;
            }
            self.places[later].group = next;
        }
    }

    // The instruction is a test that surely skips.
    fn is_decided(&self, at: usize) -> bool {
        match self.place(at) {
            Some(place) => {
                let way = self.way_at(at, &place);
                !place.fixed
                    && place.effect.silent
                    && place.effect.skips
                    && place.effect.writes.is_none()
                    && !place.effect.to_w
                    && way == Some(true)
            }
            None => false,
        }
    }

    fn choose(&mut self, at: usize, place: &Place, aims: Aims, after: Live) -> bool {
        let reached = self.comes_to(at);
        if !reached && self.leave_unreached(at, place.group) {
            return true;
        }
        let ends_group = !place.stays_skip() && self.is_last(at, place.group);
        if aims == Aims::Dead
            && place.group < at
            && ends_group
            && self.is_group_dead(place.group, at, after)
        {
            self.drop_group(place.group, at);
            return true;
        }
        reached && self.choose_alone(at, place, aims, after)
    }

    fn is_open(place: &Place) -> bool {
        match place.act {
            Act::Keeps => !place.is_label(),
            Act::Puts { .. } => true,
            Act::Clears => true,
            Act::Reads { .. } => place.effect.writes.is_none(),
            _ => false,
        }
    }

    /// Leaves out what can go. Answers whether anything did.
    pub fn improve(&mut self, own: usize, aims: Aims, summaries: &[Summary]) -> bool {
        let mut changed = false;
        for at in (0..self.places.len()).rev() {
            if let Some(place) = self.place(at) {
                if Body::is_open(&place) {
                    let after = self.live_after(at, &place, own, summaries);
                    changed = self.choose(at, &place, aims, after) || changed;
                }
            }
            self.renew(at, own, summaries);
        }
        changed
    }

    // Whether no word of the code that is made stands from a place up to another one.
    fn is_empty_between(&self, from: usize, to: usize) -> bool {
        for between in from..to {
            match self.place(between) {
                Some(place) => {
                    if !place.is_label() && !place.is_dropped() {
                        return false;
                    }
                }
                None => return false,
            }
        }
        from <= to
    }

    // Leaves out a jump to the next word of the code that is made, with a test in front of it.
    fn hop_at(&mut self, at: usize) -> bool {
        let Some(place) = self.place(at) else {
            return false;
        };
        let Way::Goto(Some(target)) = place.way else {
            return false;
        };
        let open = place.act == Act::Keeps && !place.fixed && self.comes_to(at);
        if !open || !self.is_empty_between(at.saturating_add(1), target) {
            return false;
        }
        if place.group == at {
            self.act(at, Act::Drops);
            return true;
        }
        let pair = at == place.group.saturating_add(1) && self.is_plain_test(place.group);
        if pair {
            self.drop_group(place.group, at);
        }
        pair
    }

    // A test that may go, whichever way it leads.
    fn is_plain_test(&self, at: usize) -> bool {
        match self.place(at) {
            Some(place) => {
                !place.fixed
                    && place.act == Act::Keeps
                    && place.effect.silent
                    && place.effect.skips
                    && place.effect.writes.is_none()
                    && !place.effect.to_w
            }
            None => false,
        }
    }

    /// Leaves out jumps to the next word. Answers whether any went.
    pub fn hop(&mut self) -> bool {
        let mut changed = false;
        for at in (0..self.places.len()).rev() {
            changed = self.hop_at(at) || changed;
        }
        changed
    }

    // Whether a word of the code that is made stands right in front of a place, and no label.
    fn follows_word(&self, at: usize) -> bool {
        for before in (0..at).rev() {
            if let Some(place) = self.place(before) {
                if !place.is_dropped() {
                    return !place.is_label();
                }
            }
        }
        false
    }

    /// Leaves out the last word, with the skips in front of it, where nothing comes and the block ends by a word all the same.
    pub fn shorten(&mut self) {
        for at in 0..self.places.len() {
            if let Some(place) = self.place(at) {
                if place.last && !self.comes_to(at) && self.follows_word(place.group) {
                    self.drop_group(place.group, at);
                }
            }
        }
    }

    // The place of the move to W of a byte behind which the byte isn't wanted, nor Z, if the result doesn't tell it.
    fn move_behind(
        &self,
        at: usize,
        byte: usize,
        tells: bool,
        own: usize,
        summaries: &[Summary],
    ) -> Option<usize> {
        for next in at.saturating_add(1)..self.places.len() {
            let place = self.place(next)?;
            if place.is_label() {
                return None;
            }
            if !place.is_dropped() {
                return self.ends_narrow(next, &place, byte, tells, own, summaries);
            }
            if place.effect.writes == Some(byte) || place.carried {
                return None;
            }
        }
        None
    }

    fn ends_narrow(
        &self,
        at: usize,
        place: &Place,
        byte: usize,
        tells: bool,
        own: usize,
        summaries: &[Summary],
    ) -> Option<usize> {
        let after = self.live_after(at, place, own, summaries);
        let is_move = match place.sym {
            Sym::File { op, into, .. } => op == FileOperation::Movf && into == Into::W,
            _ => false,
        };
        let fits = is_move
            && !place.fixed
            && place.act == Act::Keeps
            && place.group == at
            && place.effect.reads == Some(byte)
            && (tells || !after.z)
            && !after.bytes.has(byte);
        if fits { Some(at) } else { None }
    }

    fn narrow_at(&mut self, at: usize, own: usize, summaries: &[Summary], copies: bool) -> bool {
        let Some(place) = self.place(at) else {
            return false;
        };
        let is_file = match place.sym {
            Sym::File { into, .. } => into == Into::File,
            _ => false,
        };
        if !is_file || place.act != Act::Keeps || place.group != at || place.effect.skips {
            return false;
        }
        let Some(byte) = place.effect.writes else {
            return false;
        };
        if place.effect.reads != Some(byte) || !self.known_at(at).reached {
            return false;
        }
        let Some(act) = self.narrowed_at(at, byte, copies) else {
            return false;
        };
        let tells = place.effect.sets.z;
        match self.move_behind(at, byte, tells, own, summaries) {
            Some(moved) => {
                self.act(at, act);
                self.act(moved, Act::Drops);
                if moved < self.places.len() {
                    self.places[moved].carried = true;
                    self.places[moved].reports = tells;
                }
                true
            }
            None => false,
        }
    }

    // How the result of a place goes to W: of the byte of which the operand is a copy, or else of the operand itself.
    fn narrowed_at(&self, at: usize, byte: usize, copies: bool) -> Option<Act> {
        if copies {
            read_for(byte, &self.known_at(at), self.differs_at(at))
        } else {
            Some(Act::Narrows)
        }
    }

    /// Lets results go to W whose bytes aren't wanted, of copies or of others. Answers whether any did.
    pub fn narrow(&mut self, own: usize, summaries: &[Summary], copies: bool) -> bool {
        let mut changed = false;
        for at in 0..self.places.len() {
            changed = self.narrow_at(at, own, summaries, copies) || changed;
        }
        changed
    }
}
