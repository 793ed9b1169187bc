//! Programs with operators on low bytes.

use crate::bench::program;
use c_ints::IntTy;
use core_code::{Core, CoreProgram};
use narrow_pass::{narrow, test_low_bytes};
use std::alloc::{AllocError, Global};

/// What becomes of main's body.
pub fn narrowed(alloc: Global, code: Vec<Core>) -> Result<Vec<Core>, AllocError> {
    let given = program(alloc, code)?;
    Ok(main_in(alloc, narrow(alloc, &given)?))
}

/// The same of comparisons and conditions.
pub fn tested(alloc: Global, code: Vec<Core>) -> Result<Vec<Core>, AllocError> {
    let given = program(alloc, code)?;
    Ok(main_in(alloc, test_low_bytes(alloc, &given)?))
}

fn main_in(alloc: Global, mut made: CoreProgram) -> Vec<Core> {
    match made.bodies.pop() {
        Some(body) => body.code,
        None => Vec::new(alloc),
    }
}

fn is_operator_on_bytes(c: Option<&Core>) -> bool {
    match c {
        Some(Core::Binary { ty, .. }) => *ty == IntTy::UChar,
        _ => false,
    }
}

/// Whether an operator on bytes is at a place, or a loop of five operations whose last one is such an operator.
pub fn is_low(code: &[Core], at: usize) -> bool {
    match code.get(at) {
        Some(Core::Loop(body)) => match &**body {
            Core::Many(parts) => parts.len() == 5 && is_operator_on_bytes(parts.get(4)),
            _ => false,
        },
        other => is_operator_on_bytes(other),
    }
}

/// How many operators on bytes there are, but for those in loops and conditions.
pub fn operators_on_bytes(code: &[Core]) -> u32 {
    let mut count: u32 = 0;
    for c in code {
        if is_operator_on_bytes(Some(c)) {
            count = count.saturating_add(1);
        }
    }
    count
}

fn is_empty(c: &Core) -> bool {
    match c {
        Core::Many(parts) => parts.is_empty(),
        _ => false,
    }
}

/// Whether a condition on one byte is there, and whether it has something to do only where it fails.
pub fn tests_byte(code: &[Core], at: usize, turned: bool) -> bool {
    match code.get(at) {
        Some(Core::If { size, yes, no, .. }) => {
            *size == 1 && is_empty(yes) == turned && is_empty(no) != turned
        }
        _ => false,
    }
}
