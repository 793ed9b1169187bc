//! Who calls whom, by the call graph, and which frames are never live together.

ghost use Rattle.std.specs.Prelude.{◌≤◌, ◌^◌, length};

use crate::shown::same_root;
use c_typed::{FnId, Typed};
use call_graph::{Copies, graph_of, number_of, reached};
use std::alloc::{AllocError, Global};

/// The most functions of a program: helpers have numbers from here on.
const MOST_FUNCTIONS: usize = 0x1000_0000;

/// The graph's number of each copy's function, what each function calls, and what each copy's function reaches.
#[derive(Drop)]
pub struct Calls {
    numbers: Vec<u32>,
    rows: Vec<Vec<u32>>,
    reach: Vec<Vec<bool>>,
}

fn number_in(typed: &Typed, function: FnId) -> u32 {
    let functions = typed.functions.len();
    if functions > MOST_FUNCTIONS {
        return 0;
    }
    number_of(functions as u32, function)
}

fn rows_in(alloc: Global, typed: &Typed) -> Result<Vec<Vec<u32>>, AllocError> {
    if typed.functions.len() > MOST_FUNCTIONS {
        return Ok(Vec::new(alloc));
    }
    graph_of(alloc, typed)
}

fn numbers_in(alloc: Global, typed: &Typed, copies: &Copies) -> Result<Vec<u32>, AllocError> {
    let mut numbers = Vec::new(alloc);
    for copy in &copies.list {
        numbers.push(number_in(typed, copy.function))?;
    }
    Ok(numbers)
}

fn reach_in(
    alloc: Global,
    rows: &[Vec<u32>],
    numbers: &[u32],
) -> Result<Vec<Vec<bool>>, AllocError> {
    let mut reach = Vec::new(alloc);
    for number in numbers {
        reach.push(reached(alloc, rows, *number)?)?;
    }
    Ok(reach)
}

fn count_in(row: &[u32], number: u32) -> u32 {
    let mut count: u32 = 0;
    for callee in row {
        if *callee == number {
            count = count.saturating_add(1);
        }
    }
    count
}

impl Calls {
    /// The calls of a program.
    pub fn of(alloc: Global, typed: &Typed, copies: &Copies) -> Result<Calls, AllocError> {
        let rows = rows_in(alloc, typed)?;
        let numbers = numbers_in(alloc, typed, copies)?;
        let reach = reach_in(alloc, &rows, &numbers)?;
        Ok(Calls {
            numbers,
            rows,
            reach,
        })
    }

    fn number(&self, copy: usize) -> Option<u32> {
        self.numbers.get(copy).copied()
    }

    /// At how many places the function of one copy calls that of another.
    pub fn count(&self, caller: usize, callee: usize) -> u32 {
        let (Some(from), Some(to)) = (self.number(caller), self.number(callee)) else {
            return 0;
        };
        match self.rows.get(from as usize) {
            Some(row) => count_in(row, to),
            None => 0,
        }
    }

    // Whether the function of one copy reaches that of another.
    fn reaches(&self, from: usize, to: usize) -> bool {
        let Some(number) = self.number(to) else {
            return true;
        };
        let Some(marks) = self.reach.get(from) else {
            return true;
        };
        match marks.get(number as usize) {
            Some(mark) => *mark,
            None => true,
        }
    }

    /// Whether two copies are never live together: they are of one root, and neither reaches the other.
    pub fn are_apart(&self, copies: &Copies, a: usize, b: usize) -> bool {
        let (Some(first), Some(second)) = (copies.list.get(a), copies.list.get(b)) else {
            return false;
        };
        same_root(first.root, second.root) && !self.reaches(a, b) && !self.reaches(b, a)
    }
}
