//! What is known along a body, found by going along it until nothing changes.

use crate::marks::{Mark, both_say, copied, own_at};
use crate::operations::{are_low_alone, may_change, may_cut, put_cut, write};
use crate::search::flat::{Flat, Step};
use crate::turns::Turn;
use core_code::Core;
use std::alloc::{AllocError, Global};

// The most walks along a body; where they aren't enough, the test refuses.
const ROUNDS: usize = 16;

/// Whether an operator on two values may be done on the low bytes.
#[derive(Clone, Copy, PartialEq, Eq)]
pub enum Able {
    Never,
    /// Where types alone are to change, and no more of the result is asked for.
    Low,
    /// Where comparisons and conditions are, and the low bytes stand for the operands.
    Small,
}

/// What is known at loops, and of each operator on two values whether it may be done on the low bytes.
#[derive(Drop)]
pub struct Known {
    pub turns: Vec<Turn>,
    pub able: Vec<Able>,
}

#[derive(Drop)]
struct Round {
    // whether types alone are to change
    alone: bool,
    here: Vec<Mark>,
    // what is known of the other part of a condition
    saved: Vec<Vec<Mark>>,
    // the numbers of the loops round this place, innermost last
    loops: Vec<usize>,
    able: Vec<Able>,
    changed: bool,
}

// Without what the second marks don't say; true where that changes something.
fn lower(marks: &mut Vec<Mark>, by: &[Mark]) -> bool {
    let mut changed = false;
    for k in 0..marks.len() {
        let old = own_at(marks, k);
        let both = both_say(old, own_at(by, k));
        if both != old {
            changed = true;
        }
        if k < marks.len() {
            marks[k] = both;
        }
    }
    changed
}

fn lower_front(turns: &mut Vec<Turn>, number: usize, by: &[Mark]) -> bool {
    match turns.get_mut(number) {
        Some(turn) => lower(&mut turn.front, by),
        None => false,
    }
}

fn lower_behind(turns: &mut Vec<Turn>, number: usize, by: &[Mark]) -> bool {
    match turns.get_mut(number) {
        Some(turn) => lower(&mut turn.behind, by),
        None => false,
    }
}

/// The loop that is so many loops out.
pub fn loop_out(loops: &[usize], count: usize) -> Option<usize> {
    let held = loops.len();
    if count < held {
        Some(loops[held - 1 - count])
    } else {
        None
    }
}

fn is_cut(cuts: &[bool], at: usize) -> bool {
    match cuts.get(at) {
        Some(cut) => *cut,
        None => false,
    }
}

fn able_of(alone: bool, may: bool, small: bool) -> Able {
    if !may {
        Able::Never
    } else if alone {
        Able::Low
    } else if small {
        Able::Small
    } else {
        Able::Never
    }
}

impl Round {
    fn leave(&mut self, turns: &mut Vec<Turn>, count: usize) {
        if let Some(number) = loop_out(&self.loops, count) {
            if lower_behind(turns, number, &self.here) {
                self.changed = true;
            }
        }
    }

    fn repeat(&mut self, turns: &mut Vec<Turn>, count: usize) {
        if let Some(number) = loop_out(&self.loops, count) {
            if lower_front(turns, number, &self.here) {
                self.changed = true;
            }
        }
    }

    // Whether an operator is done on the low bytes.
    fn cut(
        &mut self,
        lent: &[bool],
        copy: u16,
        c: &Core,
        cuts: &[bool],
    ) -> Result<bool, AllocError> {
        match c {
            Core::Binary {
                op,
                ty,
                to,
                left,
                right,
            } => {
                let at = self.able.len();
                let may = may_change(self.alone, *op)
                    && may_cut(lent, copy, &self.here, *op, *ty, *to, *left, *right);
                let small = are_low_alone(lent, copy, &self.here, *ty, *left, *right);
                self.able.push(able_of(self.alone, may, small))?;
                if may && is_cut(cuts, at) {
                    put_cut(lent, copy, &mut self.here, *op, *ty, *to, *left, *right);
                    return Ok(true);
                }
                Ok(false)
            }
            _ => Ok(false),
        }
    }

    fn single(
        &mut self,
        lent: &[bool],
        copy: u16,
        c: &Core,
        cuts: &[bool],
        turns: &mut Vec<Turn>,
    ) -> Result<(), AllocError> {
        match c {
            Core::Exit(count) => self.leave(turns, *count),
            Core::Again(count) => self.repeat(turns, *count),
            _ => {}
        }
        if !self.cut(lent, copy, c, cuts)? {
            write(lent, copy, &mut self.here, c);
        }
        Ok(())
    }

    fn enter(&mut self, turns: &mut Vec<Turn>, number: usize) -> Result<(), AllocError> {
        if lower_front(turns, number, &self.here) {
            self.changed = true;
        }
        if let Some(turn) = turns.get(number) {
            self.here = copied(&turn.front)?;
        }
        self.loops.push(number)?;
        Ok(())
    }

    fn turn(&mut self, turns: &mut Vec<Turn>, number: usize) -> Result<(), AllocError> {
        if lower_front(turns, number, &self.here) {
            self.changed = true;
        }
        if let Some(turn) = turns.get(number) {
            self.here = copied(&turn.behind)?;
        }
        let _ = self.loops.pop();
        Ok(())
    }

    // From the `yes` part to the `no` part.
    fn other(&mut self) -> Result<(), AllocError> {
        if let Some(before) = self.saved.pop() {
            let behind = copied(&self.here)?;
            self.here = before;
            self.saved.push(behind)?;
        }
        Ok(())
    }

    fn join(&mut self) {
        if let Some(behind) = self.saved.pop() {
            let _ = lower(&mut self.here, &behind);
        }
    }

    fn step(
        &mut self,
        lent: &[bool],
        copy: u16,
        step: &Step,
        cuts: &[bool],
        turns: &mut Vec<Turn>,
    ) -> Result<(), AllocError> {
        match step {
            Step::Single(c) => self.single(lent, copy, c, cuts, turns),
            Step::If { .. } => {
                let before = copied(&self.here)?;
                self.saved.push(before)?;
                Ok(())
            }
            Step::Else => self.other(),
            Step::End => {
                self.join();
                Ok(())
            }
            Step::Loop(number) => self.enter(turns, *number),
            Step::Turn(number) => self.turn(turns, *number),
        }
    }
}

fn filled(alloc: Global, size: usize, mark: Mark) -> Result<Vec<Mark>, AllocError> {
    vec![in alloc; mark; size]
}

fn first_turns(alloc: Global, loops: usize, size: usize) -> Result<Vec<Turn>, AllocError> {
    let mut turns = Vec::new(alloc);
    for _ in 0..loops {
        let front = filled(alloc, size, Mark::Zero)?;
        let behind = filled(alloc, size, Mark::Zero)?;
        turns.push(Turn { front, behind })?;
    }
    Ok(turns)
}

fn known_round(
    alloc: Global,
    alone: bool,
    flat: &Flat,
    lent: &[bool],
    copy: u16,
    size: usize,
    cuts: &[bool],
    turns: &mut Vec<Turn>,
) -> Result<Round, AllocError> {
    let mut round = Round {
        alone,
        here: filled(alloc, size, Mark::Same)?,
        saved: Vec::new(alloc),
        loops: Vec::new(alloc),
        able: Vec::new(alloc),
        changed: false,
    };
    for step in &flat.steps {
        round.step(lent, copy, step, cuts, turns)?;
    }
    Ok(round)
}

/// What is known along a body where these operators are done on the low bytes.
pub fn known_in(
    alloc: Global,
    alone: bool,
    flat: &Flat,
    lent: &[bool],
    copy: u16,
    size: usize,
    cuts: &[bool],
) -> Result<Known, AllocError> {
    let mut turns = first_turns(alloc, flat.loops, size)?;
    let mut able = Vec::new(alloc);
    for _ in 0..ROUNDS {
        let last = known_round(alloc, alone, flat, lent, copy, size, cuts, &mut turns)?;
        able = last.able;
        if !last.changed {
            return Ok(Known { turns, able });
        }
    }
    Ok(Known { turns, able })
}
