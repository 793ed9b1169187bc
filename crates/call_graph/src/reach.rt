//! What is reached from where: over a graph by numbers.

ghost use Rattle.std.specs.Prelude.{◌≡◌, ◌<◌, ◌^◌, ◌∷◌, [], false, length, replicate, get_or, IfOk, OnOk};
ghost use Rattle.call_graph.specs.Reach.{AreReached, AreCallers};
ghost use Rattle.call_graph.specs.Rows.{rows_of};
ghost use Rattle.call_graph.specs.Search.{Found, CalledBy};

use std::alloc::{AllocError, Global};

fn no_marks(alloc: Global, count: usize) -> Result<Vec<bool>, AllocError>
    ensures { IfOk result (λ marks. marks.items ≡ replicate count false) }
{
    let marks = vec![in alloc; false; count]?;
    Ok(marks)
}

/// The numbers that a number calls. One that is none of the graph's calls none.
pub fn row_at(rows: &[Vec<u32>], number: u32) -> &[u32]
    ensures { result.now ≡ get_or (rows_of rows.now) number [] }
{
    match rows.get(number as usize) {
        Some(row) => row,
        None => &[],
    }
}

// Marks a number that is not marked yet, and puts it on the stack.
fn mark(marks: &mut [bool], stack: &mut Vec<u32>, number: u32) -> Result<(), AllocError>
    ensures { OnOk result (Found (number ∷ []) marks.old stack.old.items marks.new stack.new.items) }
{
    let at = number as usize;
    if at >= marks.len() {
        return Ok(());
    }
    if marks[at] {
        return Ok(());
    }
    marks[at] = true;
    stack.push(number)?;
    Ok(())
}

// Marks what a row names and is not marked yet, and puts it on the stack.
fn mark_row(marks: &mut [bool], stack: &mut Vec<u32>, row: &[u32]) -> Result<(), AllocError>
    ensures { OnOk result (Found row.now marks.old stack.old.items marks.new stack.new.items) }
{
    for number in row {
        mark(marks, stack, *number)?;
    }
    Ok(())
}

/// For each number whether a chain of one call or more leads to it from `from`.
pub fn reached(alloc: Global, rows: &[Vec<u32>], from: u32) -> Result<Vec<bool>, AllocError>
    ensures length { IfOk result (λ marks. length marks.items ≡ length rows.now) }
    ensures exact { IfOk result (λ marks. AreReached (rows_of rows.now) from marks.items) }
{
    let mut marks = no_marks(alloc, rows.len())?;
    let mut stack = Vec::new(alloc);
    mark_row(&mut marks, &mut stack, row_at(rows, from))?;
    while let Some(number) = stack.pop() {
        mark_row(&mut marks, &mut stack, row_at(rows, number))?;
    }
    Ok(marks)
}

fn no_rows(alloc: Global, count: usize) -> Result<Vec<Vec<u32>>, AllocError>
    ensures { IfOk result (λ rows. rows_of rows.items ≡ replicate count []) }
{
    let mut rows = Vec::new(alloc);
    for _row in 0..count {
        rows.push(Vec::new(alloc))?;
    }
    Ok(rows)
}

fn put_caller(callers: &mut [Vec<u32>], callee: u32, number: u32) -> Result<(), AllocError>
    ensures { OnOk result (CalledBy number (callee ∷ []) (rows_of callers.old) (rows_of callers.new)) }
{
    let at = callee as usize;
    if at >= callers.len() {
        return Ok(());
    }
    callers[at].push(number)?;
    Ok(())
}

// Puts a number into each row that its own names.
fn put_row(callers: &mut [Vec<u32>], number: u32, row: &[u32]) -> Result<(), AllocError>
    ensures { OnOk result (CalledBy number row.now (rows_of callers.old) (rows_of callers.new)) }
{
    for callee in row {
        put_caller(callers, *callee, number)?;
    }
    Ok(())
}

/// The numbers that call each number.
pub fn reversed(alloc: Global, rows: &[Vec<u32>]) -> Result<Vec<Vec<u32>>, AllocError>
    requires { length rows.now < 2 ^ 32 }
    ensures length { IfOk result (λ callers. length callers.items ≡ length rows.now) }
    ensures exact { IfOk result (λ callers. AreCallers (rows_of rows.now) (rows_of callers.items)) }
{
    let mut callers = no_rows(alloc, rows.len())?;
    for (number, row) in rows.iter().enumerate() {
        put_row(&mut callers, number as u32, row)?;
    }
    Ok(callers)
}
