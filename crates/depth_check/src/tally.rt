//! What the rows of each routine come to, for all routines in one pass over the rows.

ghost use Rattle.std.specs.Prelude.{◌≡◌, ◌<◌, ◌||◌, ◌&&◌, ℕ, true, false, nat_eq, slice_index_or};
ghost use Rattle.pic_isa.specs.Lookup.{row_of};
ghost use Rattle.depth_check.specs.Certificate.{seen};
ghost use Rattle.depth_check.specs.Marks.{TellsReturns, TellsHeights};
ghost use Rattle.depth_check.specs.Valid.{instruction as instruction_of, is_return as is_return_of, returns_in as returns_in_of, greater as greater_of, height_in as height_in_of, height as height_of_rows, is_rising as is_rising_of};

use crate::check::{call_height, greater, instruction, is_return};
use crate::{Heights, Row};
use pic_chip::Image;

// A routine with a row that is RETURN or RETLW is marked.
fn note_return(image: &Image, row: Row, marks: &mut [bool; 8192])
    ensures { (n : ℕ) → n < 8192 → slice_index_or marks.new n false ≡ (slice_index_or marks.old n false || (nat_eq row.routine n && is_return_of (instruction_of image.now row))) }
{
    let n = row.routine as usize;
    if n < 8192 && is_return(instruction(image, row.at)) {
        marks[n] = true;
    }
}

/// By the number of a routine whether some row of it is RETURN or RETLW.
pub fn ways_out(image: &Image, rows: &[Row]) -> [bool; 8192]
    ensures { TellsReturns image.now rows.now result }
{
    let mut marks = [false; 8192];
    for row in rows {
        note_return(image, *row, &mut marks);
    }
    marks
}

/// Whether some row of the routine is RETURN or RETLW. Only a number that no valid certificate has is looked for in the rows.
pub fn returns(image: &Image, rows: &[Row], ways_out: &[bool; 8192], n: usize) -> bool
    requires tells { TellsReturns image.now rows.now ways_out.now }
    ensures { result ≡ returns_in_of image.now rows.now n }
{
    if n < 8192 {
        ways_out[n]
    } else {
        returns_by_rows(image, rows, n)
    }
}

fn returns_by_rows(image: &Image, rows: &[Row], n: usize) -> bool
    ensures { result ≡ returns_in_of image.now rows.now n }
{
    for row in rows {
        if row.routine as usize == n && is_return(instruction(image, row.at)) {
            return true;
        }
    }
    false
}

// The row's routine is at least as high as what the row calls.
fn note_height(image: &Image, h: &Heights, row: Row, heights: &mut [u16; 8192])
    requires rising { is_rising_of 0 h.now.rows.items ≡ true }
    ensures { (n : ℕ) → n < 8192 → slice_index_or heights.new n 0 ≡ greater_of (slice_index_or heights.old n 0) (height_in_of n (seen h.now) row (instruction_of image.now row)) }
{
    let n = row.routine as usize;
    if n < 8192 {
        heights[n] = greater(heights[n], call_height(h, row, instruction(image, row.at)));
    }
}

/// By the number of a routine 1 more than the greatest bound of a routine that it calls, or 0.
pub fn heights(image: &Image, h: &Heights) -> [u16; 8192]
    requires rising { is_rising_of 0 h.now.rows.items ≡ true }
    ensures { TellsHeights image.now (seen h.now) result }
{
    let mut found = [0; 8192];
    for row in &h.rows {
        note_height(image, h, *row, &mut found);
    }
    found
}

/// 1 more than the greatest bound of a routine that this one calls, or 0.
pub fn height(image: &Image, h: &Heights, heights: &[u16; 8192], n: usize) -> u16
    requires rising { is_rising_of 0 h.now.rows.items ≡ true }
    requires tells { TellsHeights image.now (seen h.now) heights.now }
    ensures { result ≡ height_of_rows image.now (seen h.now) n 0 h.now.rows.items }
{
    if n < 8192 {
        heights[n]
    } else {
        height_by_rows(image, h, n, &h.rows)
    }
}

fn height_by_rows(image: &Image, h: &Heights, n: usize, rows: &[Row]) -> u16
    requires rising { is_rising_of 0 h.now.rows.items ≡ true }
    ensures { result ≡ height_of_rows image.now (seen h.now) n 0 rows.now }
{
    let mut best = 0;
    for row in rows {
        let own = if row.routine as usize == n {
            call_height(h, *row, instruction(image, row.at))
        } else {
            0
        };
        best = greater(best, own);
    }
    best
}
