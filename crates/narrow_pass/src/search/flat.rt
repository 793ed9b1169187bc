//! A body as a list.

use crate::marks::{Run, own_place};
use crate::operations::{first_read, same_operation, second_read, write_of};
use core_code::{Byte, Core};
use std::alloc::{AllocError, Global};

/// An operation without parts, or where a condition or a loop begins, goes on or ends.
#[derive(Drop)]
pub enum Step {
    Single(Core),
    /// A test; behind it stand the `yes` part, `Else`, the `no` part and `End`.
    If { test: Byte, size: u8 },
    Else,
    End,
    /// The front of a loop, by the loop's number.
    Loop(usize),
    /// The end of its body.
    Turn(usize),
}

/// The steps of a body, and how many loops it has.
#[derive(Drop)]
pub struct Flat {
    pub steps: Vec<Step>,
    pub loops: usize,
}

#[cycle(flatten)]
fn put_steps(c: &Core, out: &mut Flat) -> Result<(), AllocError> {
    match c {
        Core::Many(parts) => put_parts(parts, out),
        Core::If {
            test,
            size,
            yes,
            no,
        } => {
            out.steps.push(Step::If {
                test: *test,
                size: *size,
            })?;
            put_steps(yes, out)?;
            out.steps.push(Step::Else)?;
            put_steps(no, out)?;
            out.steps.push(Step::End)?;
            Ok(())
        }
        Core::Loop(body) => {
            let number = out.loops;
            if number < usize::MAX {
                out.loops = number + 1;
            }
            out.steps.push(Step::Loop(number))?;
            put_steps(body, out)?;
            out.steps.push(Step::Turn(number))?;
            Ok(())
        }
        _ => put_single(c, out),
    }
}

fn put_single(c: &Core, out: &mut Flat) -> Result<(), AllocError> {
    match same_operation(c) {
        Some(single) => {
            out.steps.push(Step::Single(single))?;
            Ok(())
        }
        None => Ok(()),
    }
}

#[cycle(flatten)]
fn put_parts(parts: &[Core], out: &mut Flat) -> Result<(), AllocError> {
    for part in parts {
        put_steps(part, out)?;
    }
    Ok(())
}

/// A body as a list.
pub fn flat_of(alloc: Global, code: &[Core]) -> Result<Flat, AllocError> {
    let mut out = Flat {
        steps: Vec::new(alloc),
        loops: 0,
    };
    put_parts(code, &mut out)?;
    Ok(out)
}

// ---- the frame

fn end_of(copy: u16, run: Run) -> usize {
    match own_place(copy, run.byte) {
        Some(at) => at + run.count as usize,
        None => 0,
    }
}

fn larger(a: usize, b: usize) -> usize {
    if a < b { b } else { a }
}

fn end_in(copy: u16, step: &Step) -> usize {
    match step {
        Step::Single(c) => larger(
            end_of(copy, write_of(c)),
            larger(end_of(copy, first_read(c)), end_of(copy, second_read(c))),
        ),
        Step::If { test, size } => end_of(
            copy,
            Run {
                byte: *test,
                count: *size as u16,
            },
        ),
        Step::Else | Step::End | Step::Loop(_) | Step::Turn(_) => 0,
    }
}

/// How many bytes of its own frame a body names.
pub fn size_of(copy: u16, flat: &Flat) -> usize {
    let mut size = 0;
    for step in &flat.steps {
        size = larger(size, end_in(copy, step));
    }
    size
}

/// No frame of the chip has more bytes.
pub fn is_small(size: usize) -> bool {
    size <= 512
}

// ---- addresses

fn lend(lent: &mut Vec<bool>, copy: u16) -> Result<(), AllocError> {
    let at = copy as usize;
    for _ in 0..at + 1 {
        if lent.len() <= at {
            lent.push(false)?;
        }
    }
    if at < lent.len() {
        lent[at] = true;
    }
    Ok(())
}

fn lend_taken(lent: &mut Vec<bool>, c: &Core) -> Result<(), AllocError> {
    match c {
        Core::Address { place, .. } => match place {
            Byte::Frame { copy, .. } => lend(lent, *copy),
            _ => Ok(()),
        },
        _ => Ok(()),
    }
}

/// Marks the copies of whose frames a body takes addresses.
pub fn mark_lent(lent: &mut Vec<bool>, flat: &Flat) -> Result<(), AllocError> {
    for step in &flat.steps {
        match step {
            Step::Single(c) => lend_taken(lent, c)?,
            _ => {}
        }
    }
    Ok(())
}
