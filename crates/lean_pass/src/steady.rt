//! The test of skips: with one that stays the instruction behind it stays, and one that doesn't stands before one that goes too, or leads on.

ghost use Rattle.std.specs.Prelude.{◌≡◌};
ghost use Rattle.lean_code.specs.Checked as listed;
ghost use Rattle.lean_code.specs.Steady as stated;
ghost use Rattle.lean_pass.specs.Views.{act_of, rows_of, blocks_of};

use crate::operations::{is_retlw, may_skip};
use crate::rows::{Act, LeanBlock, Row};
use crate::walk::{first_row, is_dropped, is_label};
use sym_code::{BitOperation, Sym};

fn tests_bit(op: BitOperation) -> bool
    ensures { result ≡ stated.tests_bit op }
{
    match op {
        BitOperation::Btfsc => true,
        BitOperation::Btfss => true,
        BitOperation::Bcf => false,
        BitOperation::Bsf => false,
    }
}

// Whether the instruction may skip the one behind it.
fn skips(sym: Sym) -> bool
    ensures { result ≡ stated.skips sym }
{
    match sym {
        Sym::File { op, .. } => may_skip(op),
        Sym::Bit { op, .. } => tests_bit(op),
        _ => false,
    }
}

fn next_stays(rows: &[Row]) -> bool
    ensures { result ≡ stated.next_stays (listed.rows_in (rows_of rows.now)) }
{
    match rows {
        [] => true,
        [row, _rest @ ..] => !is_dropped(row),
    }
}

fn next_goes(rows: &[Row]) -> bool
    ensures { result ≡ stated.next_goes (listed.rows_in (rows_of rows.now)) }
{
    match rows {
        [] => true,
        [row, _rest @ ..] => is_label(row.sym) || is_dropped(row),
    }
}

/// Whether the instruction leads to the one behind it.
pub fn leads_on(sym: Sym) -> bool
    ensures { result ≡ stated.leads_on sym }
{
    match sym {
        Sym::Goto(_) => false,
        Sym::Plain(_) => false,
        Sym::Literal { op, .. } => !is_retlw(op),
        _ => true,
    }
}

fn next_leads_on(rows: &[Row]) -> bool
    ensures { result ≡ stated.next_leads_on (listed.rows_in (rows_of rows.now)) }
{
    match rows {
        [] => true,
        [row, _rest @ ..] => leads_on(row.sym),
    }
}

fn is_steady_skip(act: Act, rest: &[Row]) -> bool
    ensures { result ≡ stated.is_steady_skip (act_of act) (listed.rows_in (rows_of rest.now)) }
{
    match act {
        Act::Keeps => next_stays(rest),
        Act::Drops => next_goes(rest) || next_leads_on(rest),
        Act::Puts { op, .. } => !is_retlw(op) && next_leads_on(rest),
        Act::Narrows => false,
        Act::Clears => false,
        Act::Reads { .. } => next_stays(rest),
        Act::Tests { .. } => next_stays(rest),
    }
}

fn puts_return(act: Act) -> bool
    ensures { result ≡ stated.puts_return (act_of act) }
{
    match act {
        Act::Puts { op, .. } => is_retlw(op),
        Act::Keeps => false,
        Act::Drops => false,
        Act::Narrows => false,
        Act::Clears => false,
        Act::Reads { .. } => false,
        Act::Tests { .. } => false,
    }
}

fn is_steady_row(row: &Row, rest: &[Row]) -> bool
    ensures { result ≡ stated.is_steady_row row.now.sym (act_of row.now.act) (listed.rows_in (rows_of rest.now)) }
{
    if skips(row.sym) {
        is_steady_skip(row.act, rest)
    } else {
        !puts_return(row.act)
    }
}

#[tactic(auto, using(crate::proofs::Joins::steady_on, crate::proofs::Joins::steady_off, crate::proofs::Joins::steady_end))]
fn is_steady(rows: &[Row]) -> bool
    ensures { result ≡ stated.is_steady (listed.rows_in (rows_of rows.now)) }
{
    let mut left = rows;
    while let Some((row, rest)) = first_row(left) {
        if !is_steady_row(row, rest) {
            return false;
        }
        left = rest;
    }
    true
}

/// Whether in each block the skips, and the instructions behind them, are such.
pub fn are_steady(blocks: &[LeanBlock]) -> bool
    ensures { result ≡ stated.are_steady (blocks_of blocks.now) }
{
    match blocks {
        [] => true,
        [block, rest @ ..] => {
            if is_steady(&block.rows) {
                are_steady(rest)
            } else {
                false
            }
        }
    }
}
