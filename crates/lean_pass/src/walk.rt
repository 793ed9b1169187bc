//! Ways along the rows of a block.

ghost use Rattle.std.specs.Prelude.{ℕ, ◌≡◌, ◌+◌, ◌≤◌, ◌<◌, ◌^◌, None, Some, MatchOption, option_map, length, drop, [], ◌∷◌};
ghost use Rattle.sym_code.specs.Programs as programs;
ghost use Rattle.lean_code.specs.Rows as certified;
ghost use Rattle.lean_code.specs.Checked as listed;
ghost use Rattle.lean_pass.specs.Views.{row_of, rows_of, note_of, block_of, blocks_of};
ghost use Rattle.lean_pass.specs.Ways as stated;

use crate::rows::{Act, LeanBlock, Row};
use sym_code::{BlockName, Label, Sym};

/// Whether it is a label, which is no instruction.
pub fn is_label(sym: Sym) -> bool
    ensures { result ≡ certified.is_label sym }
{
    match sym {
        Sym::Label(_) => true,
        _ => false,
    }
}

/// Whether the instruction of a row is left out.
pub fn is_dropped(row: &Row) -> bool
    ensures { result ≡ certified.is_dropped (listed.row_in (row_of row.now)) }
{
    stays_out(row.sym, row.act)
}

#[tactic(auto, using(crate::proofs::Along::out_is))]
/// Whether an instruction that becomes this is left out. A label always stays.
pub fn stays_out(sym: Sym, act: Act) -> bool
    ensures { result ≡ stated.stays_out sym act }
{
    match act {
        Act::Drops => !is_label(sym),
        Act::Keeps => false,
        Act::Puts { .. } => false,
        Act::Narrows => false,
        Act::Clears => false,
        Act::Reads { .. } => false,
        Act::Tests { .. } => false,
    }
}

/// The first instruction of a list, behind the labels there.
pub fn first_word(rows: &[Row]) -> Option<&Row>
    ensures { MatchOption result (listed.ahead (rows_of rows.now) ≡ None) (λ row. listed.ahead (rows_of rows.now) ≡ Some (option_map note_of row.now.note)) }
{
    match rows {
        [] => None,
        [row, rest @ ..] => if is_label(row.sym) {
            first_word(rest)
        } else {
            Some(row)
        },
    }
}

/// The list behind its first instruction.
pub fn past(rows: &[Row]) -> &[Row]
    ensures { rows_of result.now ≡ listed.past (rows_of rows.now) }
{
    match rows {
        [] => rows,
        [row, rest @ ..] => if is_label(row.sym) { past(rest) } else { rest },
    }
}

/// Whether an instruction stands in the list and the first is left out.
pub fn drops_first(rows: &[Row]) -> bool
    ensures { result ≡ certified.drops_first (listed.rows_in (rows_of rows.now)) }
{
    match rows {
        [] => false,
        [row, rest @ ..] => if is_label(row.sym) {
            drops_first(rest)
        } else {
            is_dropped(row)
        },
    }
}

/// Whether an instruction stands in the list and the first stays.
pub fn keeps_first(rows: &[Row]) -> bool
    ensures { result ≡ certified.keeps_first (listed.rows_in (rows_of rows.now)) }
{
    match rows {
        [] => false,
        [row, rest @ ..] => if is_label(row.sym) {
            keeps_first(rest)
        } else {
            !is_dropped(row)
        },
    }
}

/// Whether an instruction of the list stays.
pub fn goes_on(rows: &[Row]) -> bool
    ensures { result ≡ certified.goes_on (listed.rows_in (rows_of rows.now)) }
{
    match rows {
        [] => false,
        [row, rest @ ..] => {
            if is_label(row.sym) {
                goes_on(rest)
            } else if is_dropped(row) {
                goes_on(rest)
            } else {
                true
            }
        }
    }
}

/// The first row of a list and the others.
pub fn first_row(rows: &[Row]) -> Option<(&Row, &[Row])>
    ensures { MatchOption result (rows.now ≡ []) (λ x. rows.now ≡ x.0.now ∷ x.1.now) }
{
    match rows {
        [] => None,
        [row, rest @ ..] => Some((row, rest)),
    }
}

/// Whether two labels are one.
pub fn same_label(a: Label, b: Label) -> bool
    ensures { result ≡ programs.same_label a b }
{
    match a {
        Label::Inner(n) => match b {
            Label::Inner(m) => n == m,
            Label::Halt => false,
            Label::Restore => false,
        },
        Label::Halt => match b {
            Label::Inner(_) => false,
            Label::Halt => true,
            Label::Restore => false,
        },
        Label::Restore => match b {
            Label::Inner(_) => false,
            Label::Halt => false,
            Label::Restore => true,
        },
    }
}

fn is_the_label(sym: Sym, label: Label) -> bool
    ensures { result ≡ stated.is_the_label sym label }
{
    match sym {
        Sym::Label(other) => same_label(other, label),
        _ => false,
    }
}

/// The index of a label in a list.
#[tactic(auto, using(crate::proofs::Along::label_here, crate::proofs::Along::label_on, crate::proofs::Along::label_end))]
pub fn label_at(rows: &[Row], label: Label) -> Option<usize>
    ensures { result ≡ stated.label_in rows.now label 0 }
{
    let mut at = 0;
    let mut left = rows;
    while let Some((row, rest)) = first_row(left) {
        if is_the_label(row.sym, label) {
            return Some(at);
        }
        at += 1;
        left = rest;
    }
    None
}

/// The list from an index on.
#[tactic(auto, using(crate::proofs::Along::rows_slice, crate::proofs::Along::rows_beyond))]
pub fn rows_from(rows: &[Row], at: usize) -> &[Row]
    ensures { rows_of result.now ≡ drop at (rows_of rows.now) }
{
    if at < rows.len() {
        &rows[at..]
    } else {
        &rows[rows.len()..]
    }
}

// How many labels stand in front of the code that is made of a list.
fn labels_in_front(rows: &[Row]) -> usize
    ensures value { result ≡ programs.labels_in_front (certified.puts (listed.rows_in (rows_of rows.now))) }
    ensures small { result ≤ length rows.now }
{
    match rows {
        [] => 0,
        [row, rest @ ..] => {
            if is_label(row.sym) {
                labels_in_front(rest) + 1
            } else if is_dropped(row) {
                labels_in_front(rest)
            } else {
                0
            }
        }
    }
}

fn counted(row: &Row) -> usize
    ensures value { result ≡ stated.counted (certified.is_dropped (listed.row_in (row_of row.now))) }
    ensures small { result ≤ 1 }
{
    if is_dropped(row) { 0 } else { 1 }
}

/// The number, in the code that is made, of the first instruction that comes from an index or from behind it.
#[tactic(auto, using(crate::proofs::Along::place_end, crate::proofs::Along::place_front, crate::proofs::Along::place_on))]
pub fn place_of(rows: &[Row], at: usize) -> usize
    ensures { result ≡ certified.place_in (listed.rows_in (rows_of rows.now)) at }
{
    let mut place = 0;
    let mut more = at;
    let mut left = rows;
    while more > 0 {
        let Some((row, rest)) = first_row(left) else {
            return place + more;
        };
        place += counted(row);
        more -= 1;
        left = rest;
    }
    place + labels_in_front(left)
}

/// The block of a name, or one that isn't there.
pub fn block_named<'a>(
    blocks: &'a [LeanBlock],
    none: &'a LeanBlock,
    name: BlockName,
) -> &'a LeanBlock
    requires { block_of none.now ≡ listed.no_block }
    ensures { block_of result.now ≡ listed.block_in (blocks_of blocks.now) name }
{
    match blocks {
        [] => none,
        [block, rest @ ..] => {
            if same_name(block.name, name) {
                block
            } else {
                block_named(rest, none, name)
            }
        }
    }
}

/// Whether two names are one.
pub fn same_name(a: BlockName, b: BlockName) -> bool
    ensures { result ≡ programs.same_name a b }
{
    match a {
        BlockName::Start => match b {
            BlockName::Start => true,
            BlockName::Copy(_) => false,
        },
        BlockName::Copy(c) => match b {
            BlockName::Start => false,
            BlockName::Copy(d) => c == d,
        },
    }
}
