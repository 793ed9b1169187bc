//! Recursion, and how deep the calls of a root go: over a graph by numbers.

ghost use Rattle.std.specs.Prelude.{◌≡◌, ◌+◌, ◌<◌, ◌≤◌, ◌^◌, ◌∷◌, [], None, Some, set, replicate, length, get_or, IfOk, MatchOption, MatchBool};
ghost use Rattle.call_graph.specs.Adding as stated;
ghost use Rattle.call_graph.specs.Adding.{Measures, has_level};
ghost use Rattle.call_graph.specs.Levels.{IsAcyclic, IsFirstRecursive};
ghost use Rattle.call_graph.specs.Rows.{rows_of};
ghost use Rattle.call_graph.specs.Waves.{AreAtLevel, Raised, callees};

use crate::reach::{reached, row_at};
use std::alloc::{AllocError, Global};

/// For each number the calls of the longest chain that leads to it from a root, or nothing where none
/// does; and the calls of the longest chain of all.
#[derive(Drop)]
pub struct Levels {
    pub levels: Vec<Option<u32>>,
    pub longest: u32,
}

/// The first number that one call or more lead back to.
pub fn recursive(alloc: Global, rows: &[Vec<u32>]) -> Result<Option<u32>, AllocError>
    requires { length rows.now < 2 ^ 32 }
    ensures { IfOk result (λ found. MatchOption found (IsAcyclic (rows_of rows.now)) (λ number. IsFirstRecursive (rows_of rows.now) number)) }
{
    for number in 0..rows.len() {
        let marks = reached(alloc, rows, number as u32)?;
        if marks[number] {
            return Ok(Some(number as u32));
        }
    }
    Ok(None)
}

fn no_levels(alloc: Global, count: usize) -> Result<Vec<Option<u32>>, AllocError>
    ensures { IfOk result (λ levels. levels.items ≡ replicate count None) }
{
    let levels = vec![in alloc; None; count]?;
    Ok(levels)
}

/// Whether a level was found, and is this one.
pub fn is_level(found: Option<u32>, level: u32) -> bool
    ensures value { result ≡ has_level found level }
    ensures told { MatchBool result (found ≡ Some level) (found ≡ Some level → ⊥) }
{
    match found {
        Some(found) => found == level,
        None => false,
    }
}

fn level_at(levels: &[Option<u32>], number: u32) -> Option<u32>
    ensures { result ≡ get_or levels.now number None }
{
    match levels.get(number as usize) {
        Some(found) => *found,
        None => None,
    }
}

// Whether one of some functions has that level.
fn is_at_level(functions: &[u32], levels: &[Option<u32>], level: u32) -> bool
    ensures { result ≡ stated.is_at_level functions.now levels.now level }
{
    for function in functions {
        if is_level(level_at(levels, *function), level) {
            return true;
        }
    }
    false
}

/// The calls of the longest chain, where each of the functions `deeper` calls one more leaf.
pub fn longest_by(found: &Levels, deeper: &[u32]) -> u32
    requires { found.now.longest < 2 ^ 30 }
    ensures { result ≡ stated.longest_by deeper.now found.now }
{
    if is_at_level(deeper, &found.levels, found.longest) {
        found.longest + 1
    } else {
        found.longest
    }
}

// The numbers that have this level.
fn numbers_at(alloc: Global, levels: &[Option<u32>], level: u32) -> Result<Vec<u32>, AllocError>
    requires { length levels.now < 2 ^ 32 }
    ensures { IfOk result (λ numbers. AreAtLevel levels.now level numbers.items) }
{
    let mut numbers = Vec::new(alloc);
    for (number, found) in levels.iter().enumerate() {
        if is_level(*found, level) {
            numbers.push(number as u32)?;
        }
    }
    Ok(numbers)
}

fn raise(levels: &mut [Option<u32>], level: u32, number: u32)
    ensures { Raised level (number ∷ []) levels.old levels.new }
{
    let at = number as usize;
    if at < levels.len() {
        levels[at] = Some(level);
    }
}

// Raises what a row names to that level.
fn raise_row(levels: &mut [Option<u32>], level: u32, row: &[u32])
    ensures { Raised level row.now levels.old levels.new }
{
    for number in row {
        raise(levels, level, *number);
    }
}

// Raises what some numbers call to that level.
fn raise_callees(levels: &mut [Option<u32>], level: u32, rows: &[Vec<u32>], numbers: &[u32])
    ensures { Raised level (callees (rows_of rows.now) numbers.now) levels.old levels.new }
{
    for number in numbers {
        raise_row(levels, level, row_at(rows, *number));
    }
}

/// The levels under a root, where nothing reaches itself. Chains of one call more are looked at in each
/// turn, until there are none.
pub fn levels_from(alloc: Global, rows: &[Vec<u32>], root: u32) -> Result<Levels, AllocError>
    requires small { length rows.now < 2 ^ 31 }
    requires acyclic { IsAcyclic (rows_of rows.now) }
    requires within { root < length rows.now }
    ensures { IfOk result (λ found. Measures (rows_of rows.now) root found) }
{
    let mut levels = no_levels(alloc, rows.len())?;
    raise(&mut levels, 0, root);
    let mut longest = 0;
    let mut wave = numbers_at(alloc, &levels, 0)?;
    'waves: loop {
        let next = longest + 1;
        raise_callees(&mut levels, next, rows, &wave);
        wave = numbers_at(alloc, &levels, next)?;
        if wave.is_empty() {
            return Ok(Levels { levels, longest });
        }
        longest = next;
    }
}
