//! The tests of what those need that stand before and behind: what counts stays where something comes, the start block stays as it is,
//! numbers are bytes, and each block ends by a word.

ghost use Rattle.std.specs.Prelude.{◌≡◌, ◌&&◌, true};
ghost use Rattle.lean_code.specs.Checked as listed;
ghost use Rattle.lean_code.specs.Admissible as stated;
ghost use Rattle.lean_code.specs.Rows as certified;
ghost use Rattle.lean_code.specs.Rows.{puts};
ghost use Rattle.lean_pass.specs.Tests as tests;
ghost use Rattle.lean_pass.specs.Views.{act_of, row_of, rows_of, block_of, blocks_of, variables_of};

use crate::marks::is_marked;
use crate::rows::{Act, LeanBlock, Row};
use crate::walk::{first_row, is_dropped, is_label, same_name};
use sym_code::BlockName;

// Whether something may come to a row.
fn is_reached(row: &Row) -> bool
    ensures { result ≡ certified.is_reached (listed.row_in (row_of row.now)) }
{
    match &row.note {
        Some(_) => true,
        None => false,
    }
}

fn loses_mark(variables: &[u64], row: &Row) -> bool
    ensures { result ≡ stated.loses_mark (variables_of variables.now) (listed.row_in (row_of row.now)) }
{
    is_reached(row) && (is_dropped(row) && is_marked(variables, row.sym))
}

fn is_byte_act(act: Act) -> bool
    ensures { result ≡ stated.is_byte_act (act_of act) }
{
    match act {
        Act::Puts { value, .. } => (value as u16) < 256,
        Act::Keeps => true,
        Act::Drops => true,
        Act::Narrows => true,
        Act::Clears => true,
        Act::Reads { .. } => true,
        Act::Tests { .. } => true,
    }
}

fn is_keep(act: Act) -> bool
    ensures { result ≡ stated.is_keep (act_of act) }
{
    match act {
        Act::Keeps => true,
        Act::Drops => false,
        Act::Puts { .. } => false,
        Act::Narrows => false,
        Act::Clears => false,
        Act::Reads { .. } => false,
        Act::Tests { .. } => false,
    }
}

fn is_admissible_row(variables: &[u64], whole: bool, row: &Row) -> bool
    ensures { result ≡ stated.is_admissible_row (variables_of variables.now) whole (listed.row_in (row_of row.now)) }
{
    !loses_mark(variables, row) && (is_byte_act(row.act) && (!whole || is_keep(row.act)))
}

#[tactic(auto, using(crate::proofs::Admitting::admissible_on, crate::proofs::Admitting::admissible_off, crate::proofs::Admitting::admissible_end))]
fn are_admissible_rows(variables: &[u64], whole: bool, rows: &[Row]) -> bool
    ensures { result ≡ stated.are_admissible_rows (variables_of variables.now) whole (listed.rows_in (rows_of rows.now)) }
{
    let mut left = rows;
    while let Some((row, rest)) = first_row(left) {
        if !is_admissible_row(variables, whole, row) {
            return false;
        }
        left = rest;
    }
    true
}

// Whether the code that is made up to here ends by a word, where it did before this row.
fn ends_behind(last: bool, row: &Row) -> bool
    ensures { result ≡ tests.ends_behind last (row_of row.now) }
{
    if is_dropped(row) {
        last
    } else {
        !is_label(row.sym)
    }
}

#[tactic(auto, using(crate::proofs::Admitting::ends_on, crate::proofs::Admitting::ends_end))]
fn ends_by_word(rows: &[Row]) -> bool
    ensures { result ≡ stated.ends_by_word true (puts (listed.rows_in (rows_of rows.now))) }
{
    let mut last = true;
    let mut left = rows;
    while let Some((row, rest)) = first_row(left) {
        last = ends_behind(last, row);
        left = rest;
    }
    last
}

fn is_admissible_block(variables: &[u64], block: &LeanBlock) -> bool
    ensures { result ≡ stated.is_admissible_block (variables_of variables.now) (block_of block.now) }
{
    are_admissible_rows(
        variables,
        same_name(block.name, BlockName::Start),
        &block.rows,
    ) && ends_by_word(&block.rows)
}

/// Whether each block passes.
pub fn are_admissible(variables: &[u64], blocks: &[LeanBlock]) -> bool
    ensures { result ≡ stated.are_admissible (variables_of variables.now) (blocks_of blocks.now) }
{
    match blocks {
        [] => true,
        [block, rest @ ..] => {
            if is_admissible_block(variables, block) {
                are_admissible(variables, rest)
            } else {
                false
            }
        }
    }
}
