//! What is asked of the bytes of a frame, found by going back along a body until nothing changes; and the operators of which no more
//! is asked than what the low bytes give.

use crate::marks::{Run, own_place};
use crate::operations::{first_read, second_read, write_of};
use crate::search::flat::{Flat, Step};
use crate::search::known::{Able, loop_out};
use c_ints::BinOp;
use core_code::Core;
use std::alloc::{AllocError, Global};

// The most walks along a body. Where they aren't enough nothing is proposed.
const ROUNDS: usize = 16;

// How much is asked of a byte.
#[derive(Clone, Copy, PartialEq, Eq)]
enum Asked {
    Nothing,
    // A condition tests the value that it is a byte of, or it is above the low byte of an operand that this stands for.
    Test,
    Value,
}

#[derive(Drop)]
struct Wanted {
    here: Vec<Asked>,
    saved: Vec<Vec<Asked>>,
    loops: Vec<usize>,
    behind: Vec<Vec<Asked>>,
    // the last operator first
    cuts: Vec<bool>,
    changed: bool,
}

fn none_of(alloc: Global, size: usize) -> Result<Vec<Asked>, AllocError> {
    vec![in alloc; Asked::Nothing; size]
}

fn asked_at(wanted: &[Asked], at: usize) -> Asked {
    match wanted.get(at) {
        Some(asked) => *asked,
        None => Asked::Nothing,
    }
}

fn put_at(wanted: &mut Vec<Asked>, at: usize, asked: Asked) {
    if at < wanted.len() {
        wanted[at] = asked;
    }
}

fn more(first: Asked, second: Asked) -> Asked {
    match first {
        Asked::Nothing => second,
        Asked::Test => match second {
            Asked::Value => Asked::Value,
            Asked::Nothing | Asked::Test => Asked::Test,
        },
        Asked::Value => Asked::Value,
    }
}

// With what is asked elsewhere, too; true where that changes something.
fn join(wanted: &mut Vec<Asked>, others: &[Asked]) -> bool {
    let mut changed = false;
    for k in 0..wanted.len() {
        let old = asked_at(wanted, k);
        let both = more(old, asked_at(others, k));
        if both != old {
            changed = true;
            put_at(wanted, k, both);
        }
    }
    changed
}

// Where ways meet, what a test tells may have come about in more than one way, so the values are asked for.
fn ask_values(wanted: &mut Vec<Asked>) {
    for k in 0..wanted.len() {
        if asked_at(wanted, k) == Asked::Test {
            put_at(wanted, k, Asked::Value);
        }
    }
}

fn forget(copy: u16, wanted: &mut Vec<Asked>, run: Run) {
    if let Some(at) = own_place(copy, run.byte) {
        for k in 0..run.count {
            put_at(wanted, at + k as usize, Asked::Nothing);
        }
    }
}

// This is asked of some bytes, from so many behind the first one on.
fn ask(copy: u16, wanted: &mut Vec<Asked>, run: Run, from: u16, asked: Asked) {
    if let Some(at) = own_place(copy, run.byte) {
        for k in from..run.count {
            let place = at + k as usize;
            let both = more(asked_at(wanted, place), asked);
            put_at(wanted, place, both);
        }
    }
}

// What is asked of the first one of these, and of the others.
fn asked_low(copy: u16, wanted: &[Asked], run: Run) -> Asked {
    match own_place(copy, run.byte) {
        Some(at) => asked_at(wanted, at),
        None => Asked::Value,
    }
}

fn asked_high(copy: u16, wanted: &[Asked], run: Run) -> Asked {
    match own_place(copy, run.byte) {
        Some(at) => {
            let mut most = Asked::Nothing;
            for k in 1..run.count {
                most = more(most, asked_at(wanted, at + k as usize));
            }
            most
        }
        None => Asked::Value,
    }
}

// Whether an operator is done on the low bytes: then it gives what is asked for.
fn is_cut(copy: u16, wanted: &[Asked], c: &Core, able: Able) -> bool {
    let low = asked_low(copy, wanted, write_of(c));
    let high = asked_high(copy, wanted, write_of(c));
    let small = able == Able::Small;
    match c {
        Core::Binary { op, .. } => match op {
            BinOp::Lt | BinOp::Gt | BinOp::Le | BinOp::Ge => small,
            BinOp::Eq | BinOp::Ne => small && low != Asked::Value && high != Asked::Value,
            BinOp::And | BinOp::Or | BinOp::Xor => {
                small && high == Asked::Test || able == Able::Low && high == Asked::Nothing
            }
            _ => able == Able::Low && high == Asked::Nothing,
        },
        _ => false,
    }
}

fn low_of(run: Run) -> Run {
    Run {
        byte: run.byte,
        count: 1,
    }
}

fn is_binary(c: &Core) -> bool {
    match c {
        Core::Binary { .. } => true,
        _ => false,
    }
}

impl Wanted {
    // Whether the last operator that wasn't met yet may be done on the low bytes.
    fn next_able(&self, all: &[Able]) -> Able {
        let seen = self.cuts.len();
        if seen < all.len() {
            all[all.len() - 1 - seen]
        } else {
            Able::Never
        }
    }

    fn go(&mut self, c: &Core, fronts: &[Vec<Asked>]) -> Result<(), AllocError> {
        match c {
            Core::Exit(count) => {
                let held = self.behind.len();
                if *count < held {
                    self.here = self.behind[held - 1 - *count].clone()?;
                }
                ask_values(&mut self.here);
            }
            Core::Again(count) => {
                if let Some(number) = loop_out(&self.loops, *count) {
                    if let Some(front) = fronts.get(number) {
                        self.here = front.clone()?;
                    }
                }
                ask_values(&mut self.here);
            }
            Core::Leave => {
                for k in 0..self.here.len() {
                    put_at(&mut self.here, k, Asked::Nothing);
                }
            }
            _ => {}
        }
        Ok(())
    }

    // An operator that is done on the low bytes.
    fn cut(&mut self, copy: u16, c: &Core, able: Able) {
        forget(copy, &mut self.here, write_of(c));
        let first = first_read(c);
        let second = second_read(c);
        ask(copy, &mut self.here, low_of(first), 0, Asked::Value);
        ask(copy, &mut self.here, low_of(second), 0, Asked::Value);
        if able == Able::Small {
            ask(copy, &mut self.here, first, 1, Asked::Test);
            ask(copy, &mut self.here, second, 1, Asked::Test);
        }
    }

    fn single(
        &mut self,
        copy: u16,
        c: &Core,
        able: &[Able],
        fronts: &[Vec<Asked>],
    ) -> Result<(), AllocError> {
        self.go(c, fronts)?;
        if is_binary(c) {
            let found = self.next_able(able);
            let is = is_cut(copy, &self.here, c, found);
            self.cuts.push(is)?;
            if is {
                self.cut(copy, c, found);
                return Ok(());
            }
        }
        forget(copy, &mut self.here, write_of(c));
        ask(copy, &mut self.here, first_read(c), 0, Asked::Value);
        ask(copy, &mut self.here, second_read(c), 0, Asked::Value);
        Ok(())
    }

    // At the end of a loop's body.
    fn enter(&mut self, number: usize, fronts: &[Vec<Asked>]) -> Result<(), AllocError> {
        let behind = self.here.clone()?;
        self.behind.push(behind)?;
        self.loops.push(number)?;
        if let Some(front) = fronts.get(number) {
            self.here = front.clone()?;
        }
        ask_values(&mut self.here);
        Ok(())
    }

    // At its front.
    fn leave(&mut self, number: usize, fronts: &mut Vec<Vec<Asked>>) {
        ask_values(&mut self.here);
        if let Some(front) = fronts.get_mut(number) {
            if join(front, &self.here) {
                self.changed = true;
            }
            let _ = join(&mut self.here, front);
        }
        let _ = self.loops.pop();
        let _ = self.behind.pop();
    }

    // At the end of a condition.
    fn end(&mut self) -> Result<(), AllocError> {
        ask_values(&mut self.here);
        let behind = self.here.clone()?;
        self.saved.push(behind)?;
        Ok(())
    }

    // From the `no` part to the `yes` part.
    fn other(&mut self) -> Result<(), AllocError> {
        if let Some(behind) = self.saved.pop() {
            let front = self.here.clone()?;
            self.here = behind;
            self.saved.push(front)?;
        }
        Ok(())
    }

    fn test(&mut self, copy: u16, run: Run) {
        if let Some(front) = self.saved.pop() {
            let _ = join(&mut self.here, &front);
        }
        ask(copy, &mut self.here, run, 0, Asked::Test);
    }

    fn step(
        &mut self,
        copy: u16,
        step: &Step,
        able: &[Able],
        fronts: &mut Vec<Vec<Asked>>,
    ) -> Result<(), AllocError> {
        match step {
            Step::Single(c) => self.single(copy, c, able, fronts),
            Step::End => self.end(),
            Step::Else => self.other(),
            Step::If { test, size } => {
                self.test(
                    copy,
                    Run {
                        byte: *test,
                        count: *size as u16,
                    },
                );
                Ok(())
            }
            Step::Turn(number) => self.enter(*number, fronts),
            Step::Loop(number) => {
                self.leave(*number, fronts);
                Ok(())
            }
        }
    }
}

fn wanted_round(
    alloc: Global,
    flat: &Flat,
    copy: u16,
    size: usize,
    able: &[Able],
    fronts: &mut Vec<Vec<Asked>>,
) -> Result<Wanted, AllocError> {
    let mut wanted = Wanted {
        here: none_of(alloc, size)?,
        saved: Vec::new(alloc),
        loops: Vec::new(alloc),
        behind: Vec::new(alloc),
        cuts: Vec::new(alloc),
        changed: false,
    };
    let count = flat.steps.len();
    for k in 0..count {
        wanted.step(copy, &flat.steps[count - 1 - k], able, fronts)?;
    }
    Ok(wanted)
}

fn first_fronts(alloc: Global, loops: usize, size: usize) -> Result<Vec<Vec<Asked>>, AllocError> {
    let mut fronts = Vec::new(alloc);
    for _ in 0..loops {
        fronts.push(none_of(alloc, size)?)?;
    }
    Ok(fronts)
}

fn turned(alloc: Global, list: &[bool]) -> Result<Vec<bool>, AllocError> {
    let mut back = Vec::new(alloc);
    let count = list.len();
    for k in 0..count {
        back.push(list[count - 1 - k])?;
    }
    Ok(back)
}

/// Of each operator on two values whether it is done on the low bytes. Given is which of them may be.
pub fn cuts_in(
    alloc: Global,
    flat: &Flat,
    copy: u16,
    size: usize,
    able: &[Able],
) -> Result<Vec<bool>, AllocError> {
    let mut fronts = first_fronts(alloc, flat.loops, size)?;
    for _ in 0..ROUNDS {
        let last = wanted_round(alloc, flat, copy, size, able, &mut fronts)?;
        if !last.changed {
            return turned(alloc, &last.cuts);
        }
    }
    Ok(Vec::new(alloc))
}
