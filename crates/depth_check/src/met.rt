//! Which rows of a certificate are met from the rows that it begins with.

ghost use Rattle.std.specs.Prelude.{◌≡◌, ◌<◌, ◌+◌, ◌||◌, ℕ, true, false, List, Option, Some, None, slice_index_or, IfSome};
ghost use Rattle.std.specs.List.{list_all};
ghost use Rattle.pic_isa.specs.Table.{IsWellFormed};
ghost use Rattle.depth_check.specs.Certificate.{seen};
ghost use Rattle.depth_check.specs.Marks.{TellsReturns, IsRound, is_marked as is_marked_of, place as place_of, IsOrder, Meets, IsUnderway, handler_place as handler_place_of};
ghost use Rattle.depth_check.specs.Valid.{is_rising as is_rising_of, is_place as is_place_of, call_returns as call_returns_of, asks as asks_of, all_met as all_met_of};

use crate::check::{instruction, next, next_but_one, row_at};
use crate::known::{may_skip, target};
use crate::tally::returns;
use crate::{Heights, Row};
use pic_chip::Image;
use pic_isa::Ins;

/// The addresses that are met, in the order in which they were.
#[derive(Drop)]
pub struct Met {
    // Whether an address is met.
    marks: [bool; 8192],
    // The first of these are the addresses.
    places: [u16; 8192],
    count: usize,
}

impl Met {
    fn is_marked(&self, at: u16) -> bool
        ensures { result ≡ is_marked_of self.now at }
    {
        (at as usize) < 8192 && self.marks[at as usize]
    }

    fn place(&self, i: usize) -> u16
        ensures { result ≡ place_of self.now i }
    {
        if i < 8192 { self.places[i] } else { 0 }
    }

    // An address is met for the first time.
    fn add(&mut self, at: u16)
        requires order { IsOrder self.old }
        requires below { at < 8192 }
        requires new { is_marked_of self.old at ≡ false }
        ensures { Meets self.old self.new (Some at) }
    {
        self.marks[at as usize] = true;
        self.places[self.count] = at;
        self.count += 1;
    }

    // An address is met, if there is one.
    fn meet(&mut self, at: Option<u16>)
        requires order { IsOrder self.old }
        ensures { Meets self.old self.new at }
    {
        if let Some(at) = at {
            if at < 8192 && !self.is_marked(at) {
                self.add(at);
            }
        }
    }

    // What the row at a place asks for is met.
    fn look(&mut self, image: &Image, h: &Heights, ways_out: &[bool; 8192], turn: usize)
        requires rising { is_rising_of 0 h.now.rows.items ≡ true }
        requires tells { TellsReturns image.now h.now.rows.items ways_out.now }
        requires turn { turn < self.old.count }
        requires underway { IsUnderway image.now (seen h.now) self.old turn }
        ensures { IsUnderway image.now (seen h.now) self.new (turn + 1) }
    {
        let at = self.place(turn);
        match row_at(&h.rows, at) {
            None => {}
            Some(row) => {
                let (first, second) = asked(image, h, ways_out, row, instruction(image, row.at));
                self.meet(first);
                self.meet(second);
            }
        }
    }
}

fn call_returns(image: &Image, h: &Heights, ways_out: &[bool; 8192], at: Option<u16>) -> bool
    requires rising { is_rising_of 0 h.now.rows.items ≡ true }
    requires tells { TellsReturns image.now h.now.rows.items ways_out.now }
    ensures { result ≡ call_returns_of image.now (seen h.now) at }
{
    match at {
        None => false,
        Some(at) => match row_at(&h.rows, at) {
            None => false,
            Some(e) => returns(image, &h.rows, ways_out, e.routine as usize),
        },
    }
}

// The addresses that a row asks for.
fn asked(
    image: &Image,
    h: &Heights,
    ways_out: &[bool; 8192],
    row: Row,
    i: Option<Ins>,
) -> (Option<u16>, Option<u16>)
    requires rising { is_rising_of 0 h.now.rows.items ≡ true }
    requires tells { TellsReturns image.now h.now.rows.items ways_out.now }
    requires formed { IfSome i IsWellFormed }
    ensures { (at : ℕ) → asks_of image.now (seen h.now) row i at ≡ (is_place_of at result.0 || is_place_of at result.1) }
{
    match i {
        None => (None, None),
        Some(Ins::Goto { k }) => (target(row.facts.p3, row.facts.p4, k), None),
        Some(Ins::Call { k }) => {
            let entry = target(row.facts.p3, row.facts.p4, k);
            if call_returns(image, h, ways_out, entry) {
                (entry, Some(next(row.at)))
            } else {
                (entry, None)
            }
        }
        Some(Ins::Return) | Some(Ins::Retlw { k: _ }) | Some(Ins::Retfie) | Some(Ins::Sleep) => (
            None, None,
        ),
        Some(i) => if may_skip(i) {
            (Some(next(row.at)), Some(next_but_one(row.at)))
        } else {
            (Some(next(row.at)), None)
        },
    }
}

fn handler_place(interrupts: bool) -> Option<u16>
    ensures { result ≡ handler_place_of interrupts }
{
    if interrupts { Some(4) } else { None }
}

// Nothing is met yet.
fn nothing() -> Met
    ensures order { IsOrder result }
    ensures none { (k : ℕ) → is_marked_of result k ≡ false }
{
    Met {
        marks: [false; 8192],
        places: [0; 8192],
        count: 0,
    }
}

// The rows that each certificate begins with.
fn at_first(h: &Heights) -> Met
    ensures { (image : List ℕ) → IsUnderway image (seen h.now) result 0 }
{
    let mut met = nothing();
    met.meet(Some(0));
    met.meet(handler_place(h.interrupts));
    met
}

// Each row that is met is looked at once.
fn reach(image: &Image, h: &Heights, ways_out: &[bool; 8192], met: &mut Met)
    requires rising { is_rising_of 0 h.now.rows.items ≡ true }
    requires tells { TellsReturns image.now h.now.rows.items ways_out.now }
    requires from { IsUnderway image.now (seen h.now) met.old 0 }
    ensures { IsRound image.now (seen h.now) 8192 met.new.marks }
{
    let mut turn = 0;
    while turn < met.count {
        met.look(image, h, ways_out, turn);
        turn += 1;
    }
}

fn all_marked(rows: &[Row], met: &Met) -> bool
    ensures { result ≡ list_all (λ r. is_marked_of met.now r.at) rows.now }
{
    for row in rows {
        if !met.is_marked(row.at) {
            return false;
        }
    }
    true
}

/// Whether all rows are met.
pub fn all_met(image: &Image, h: &Heights, ways_out: &[bool; 8192]) -> bool
    requires rising { is_rising_of 0 h.now.rows.items ≡ true }
    requires tells { TellsReturns image.now h.now.rows.items ways_out.now }
    ensures { result ≡ all_met_of image.now (seen h.now) }
{
    let mut met = at_first(h);
    reach(image, h, ways_out, &mut met);
    all_marked(&h.rows, &met)
}
