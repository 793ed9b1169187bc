//! Whether a certificate is valid.

ghost use Rattle.std.specs.Prelude.{◌≡◌, ◌<◌, ◌≤◌, ◌+◌, ◌%◌, ◌&&◌, ◌||◌, nat_eq, nat_le, not, Bool, true, ℕ, List, Option, Some, None, length, slice_index, slice_index_or, IfSome, false};
ghost use Rattle.std.specs.List.{list_any, list_all, slice_get};
ghost use Rattle.pic_isa.specs.declared.Ins.{Ins as AnyIns};
ghost use Rattle.pic_isa.specs.Table.{IsWellFormed};
ghost use Rattle.pic_isa.specs.Lookup.{row_of};
ghost use Rattle.depth_check.specs.Certificate.{Certificate, seen};
ghost use Rattle.depth_check.specs.Facts.{at_reset, at_interrupt, bits};
ghost use Rattle.depth_check.specs.Depth.{StaysWithin};
ghost use Rattle.depth_check.specs.Marks.{TellsReturns, TellsHeights};
ghost use Rattle.depth_check.specs.Ordered.{is_row_before as is_row_before_of, rows_before as rows_before_of, row_if as row_if_of};
ghost use Rattle.depth_check.specs.Valid.{routine as routine_of, routine_in as routine_in_of, row_at as row_of_rows, has_row as has_row_of, instruction as instruction_of, next as next_of, next_but_one as next_but_one_of, is_return as is_return_of, returns as returns_of, returns_in as returns_in_of, greater as greater_of, is_plain_allowed as is_plain_allowed_of, goes_straight as goes_straight_of, is_root as is_root_of, spares_gie as spares_gie_of, is_allowed as is_allowed_of, leads as leads_of, comes_back as comes_back_of, is_callee as is_callee_of, calls as calls_of, leaves as leaves_of, goes_on as goes_on_of, instruction_holds as instruction_holds_of, is_bare as is_bare_of, row_holds as row_holds_of, height_at as height_at_of, call_height as call_height_of, height as height_of_rows, is_row_of as is_row_of_routine, routine_holds as routine_holds_of, routines_hold as routines_hold_of, lets_in as lets_in_of, total_of, is_rising as is_rising_of, is_entry as is_entry_of, is_place as is_place_of, call_returns as call_returns_of, asks as asks_of, is_met, all_met as all_met_of, roots_hold as roots_hold_of, writes_intcon as writes_intcon_of, is_valid};

use crate::known::{INDF, INTCON, PCL, after, fits, known_in, may_skip, target, writes};
use crate::met::all_met;
use crate::tally::{height, heights, returns, ways_out};
use crate::{Facts, Heights, Routine, Row};
use pic_chip::Image;
use pic_isa::{Ins, decode};

// A number that names no routine names this one.
fn routine(routines: &[Routine], n: u16) -> Routine
    ensures { result ≡ routine_in_of routines.now n }
{
    if (n as usize) < routines.len() {
        routines[n as usize]
    } else {
        Routine {
            entry: 0,
            isr: false,
            bound: 0,
            out3: None,
            out4: None,
        }
    }
}

fn row(rows: &[Row], i: usize) -> Option<Row>
    ensures { result ≡ slice_get rows.now i }
{
    if i < rows.len() { Some(rows[i]) } else { None }
}

fn is_row_before(at: u16, row: Option<Row>) -> bool
    ensures { result ≡ is_row_before_of at row }
{
    match row {
        None => false,
        Some(row) => row.at < at,
    }
}

// How many rows stand before the first that isn't below the address.
fn rows_before(rows: &[Row], at: u16) -> usize
    requires rising { is_rising_of 0 rows.now ≡ true }
    ensures { result ≡ rows_before_of rows.now at }
{
    let mut low = 0;
    let mut high = rows.len();
    while low < high {
        let middle = low + (high - low) / 2;
        if is_row_before(at, row(rows, middle)) {
            low = middle + 1;
        } else {
            high = middle;
        }
    }
    low
}

fn row_if(at: u16, row: Option<Row>) -> Option<Row>
    ensures { result ≡ row_if_of at row }
{
    match row {
        None => None,
        Some(row) => if row.at == at { Some(row) } else { None },
    }
}

// The row at an address.
pub fn row_at(rows: &[Row], at: u16) -> Option<Row>
    requires rising { is_rising_of 0 rows.now ≡ true }
    ensures { result ≡ row_of_rows rows.now at }
{
    row_if(at, row(rows, rows_before(rows, at)))
}

// Whether the row at an address is of this routine, and the facts fit it.
fn has_row(h: &Heights, at: u16, n: u16, x: Facts) -> bool
    requires rising { is_rising_of 0 h.now.rows.items ≡ true }
    ensures { result ≡ has_row_of (seen h.now) at n x }
{
    match row_at(&h.rows, at) {
        None => false,
        Some(row) => row.routine == n && fits(x, row.facts),
    }
}

// The instruction at an address; there is no other behind the last one than NOP.
pub fn instruction(image: &Image, at: u16) -> Option<Ins>
    ensures same { result ≡ row_of (slice_index image.now at) }
    ensures fields { IfSome result IsWellFormed }
{
    let _ = image.word(0);
    if at < 8192 {
        decode(image.word(at))
    } else {
        Some(Ins::Nop)
    }
}

pub fn next(at: u16) -> u16
    ensures { result ≡ next_of at }
{
    (at % 8192 + 1) % 8192
}

pub fn next_but_one(at: u16) -> u16
    ensures { result ≡ next_but_one_of at }
{
    (at % 8192 + 2) % 8192
}

pub fn is_return(i: Option<Ins>) -> bool
    ensures { result ≡ is_return_of i }
{
    match i {
        Some(Ins::Retlw { k: _ }) => true,
        Some(Ins::Return) => true,
        _ => false,
    }
}

fn is_root(h: &Heights, n: u16) -> bool
    ensures { result ≡ is_root_of (seen h.now) n }
{
    n == 0 || h.interrupts && n == 1
}

fn spares_gie(i: Ins) -> bool
    ensures { result ≡ spares_gie_of i }
{
    match i {
        Ins::Bcf { f: _, b: _ } => true,
        Ins::Bsf { f: _, b } => b != 7,
        _ => false,
    }
}

fn is_plain_allowed(h: &Heights, n: u16, isr: bool, i: Ins) -> bool
    ensures { result ≡ is_plain_allowed_of (seen h.now) n isr i }
{
    !writes(PCL, i)
        && !writes(INDF, i)
        && (!writes(INTCON, i) || h.interrupts && (!isr || spares_gie(i)))
        && !(isr && n != 1 && writes(h.cell, i))
}

// Whether the instruction may stand in this routine.
fn is_allowed(h: &Heights, n: u16, i: Ins) -> bool
    ensures { result ≡ is_allowed_of (seen h.now) n i }
{
    match i {
        Ins::Retfie => h.interrupts && n == 1,
        Ins::Retlw { k: _ } | Ins::Return => !is_root(h, n),
        _ => is_plain_allowed(h, n, routine(&h.routines, n).isr, i),
    }
}

fn leads(h: &Heights, row: Row, at: Option<u16>) -> bool
    requires rising { is_rising_of 0 h.now.rows.items ≡ true }
    ensures { result ≡ leads_of (seen h.now) row at }
{
    match at {
        None => false,
        Some(at) => has_row(h, at, row.routine, row.facts),
    }
}

pub fn two_bits(p3: Option<bool>, p4: Option<bool>, saved: bool) -> Facts
    ensures { result ≡ bits p3 p4 saved }
{
    Facts {
        p3,
        p4,
        orig: false,
        w_orig: false,
        saved,
    }
}

// Where the callee has a RETURN or RETLW, the caller goes on behind the call.
fn comes_back(image: &Image, h: &Heights, ways_out: &[bool; 8192], row: Row, n: u16) -> bool
    requires rising { is_rising_of 0 h.now.rows.items ≡ true }
    requires tells { TellsReturns image.now h.now.rows.items ways_out.now }
    ensures { result ≡ comes_back_of image.now (seen h.now) row n }
{
    let callee = routine(&h.routines, n);
    !returns(image, &h.rows, ways_out, n as usize)
        || has_row(
            h,
            next(row.at),
            row.routine,
            two_bits(callee.out3, callee.out4, row.facts.saved),
        )
}

fn is_callee(
    image: &Image,
    h: &Heights,
    ways_out: &[bool; 8192],
    row: Row,
    at: u16,
    entry: Option<Row>,
) -> bool
    requires rising { is_rising_of 0 h.now.rows.items ≡ true }
    requires tells { TellsReturns image.now h.now.rows.items ways_out.now }
    ensures { result ≡ is_callee_of image.now (seen h.now) row at entry }
{
    match entry {
        None => false,
        Some(e) => {
            let callee = routine(&h.routines, e.routine);
            callee.entry == at
                && fits(two_bits(row.facts.p3, row.facts.p4, false), e.facts)
                && !is_root(h, e.routine)
                && callee.isr == routine(&h.routines, row.routine).isr
                && comes_back(image, h, ways_out, row, e.routine)
        }
    }
}

fn calls(image: &Image, h: &Heights, ways_out: &[bool; 8192], row: Row, at: Option<u16>) -> bool
    requires rising { is_rising_of 0 h.now.rows.items ≡ true }
    requires tells { TellsReturns image.now h.now.rows.items ways_out.now }
    ensures { result ≡ calls_of image.now (seen h.now) row at }
{
    match at {
        None => false,
        Some(at) => is_callee(image, h, ways_out, row, at, row_at(&h.rows, at)),
    }
}

fn leaves(q: Routine, x: Facts) -> bool
    ensures { result ≡ leaves_of q x }
{
    known_in(q.out3, x.p3) && known_in(q.out4, x.p4)
}

fn goes_straight(h: &Heights, row: Row, i: Ins) -> bool
    requires rising { is_rising_of 0 h.now.rows.items ≡ true }
    ensures { result ≡ goes_straight_of (seen h.now) row i }
{
    let x = after(h.cell, i, row.facts);
    has_row(h, next(row.at), row.routine, x)
        && (!may_skip(i) || has_row(h, next_but_one(row.at), row.routine, x))
}

// Whether what the instruction asks for is there.
fn goes_on(image: &Image, h: &Heights, ways_out: &[bool; 8192], row: Row, i: Ins) -> bool
    requires rising { is_rising_of 0 h.now.rows.items ≡ true }
    requires tells { TellsReturns image.now h.now.rows.items ways_out.now }
    requires formed { IsWellFormed i }
    ensures { result ≡ goes_on_of image.now (seen h.now) row i }
{
    match i {
        Ins::Goto { k } => leads(h, row, target(row.facts.p3, row.facts.p4, k)),
        Ins::Call { k } => calls(
            image,
            h,
            ways_out,
            row,
            target(row.facts.p3, row.facts.p4, k),
        ),
        Ins::Return | Ins::Retlw { k: _ } => leaves(routine(&h.routines, row.routine), row.facts),
        Ins::Retfie => row.facts.orig,
        Ins::Sleep => true,
        _ => goes_straight(h, row, i),
    }
}

fn is_bare(x: Facts) -> bool
    ensures { result ≡ is_bare_of x }
{
    !x.orig && !x.w_orig && !x.saved
}

fn row_holds(image: &Image, h: &Heights, ways_out: &[bool; 8192], row: Row) -> bool
    requires rising { is_rising_of 0 h.now.rows.items ≡ true }
    requires tells { TellsReturns image.now h.now.rows.items ways_out.now }
    ensures { result ≡ row_holds_of image.now (seen h.now) row }
{
    (row.routine as usize) < h.routines.len()
        && (row.routine == 1 || is_bare(row.facts))
        && match instruction(image, row.at) {
            None => true,
            Some(i) => is_allowed(h, row.routine, i) && goes_on(image, h, ways_out, row, i),
        }
}

fn rows_hold(image: &Image, h: &Heights, ways_out: &[bool; 8192], rows: &[Row]) -> bool
    requires rising { is_rising_of 0 h.now.rows.items ≡ true }
    requires tells { TellsReturns image.now h.now.rows.items ways_out.now }
    ensures { result ≡ list_all (row_holds_of image.now (seen h.now)) rows.now }
{
    for row in rows {
        if !row_holds(image, h, ways_out, *row) {
            return false;
        }
    }
    true
}

// ---- bounds
fn height_at(h: &Heights, at: Option<u16>) -> u16
    requires rising { is_rising_of 0 h.now.rows.items ≡ true }
    ensures { result ≡ height_at_of (seen h.now) at }
{
    match at {
        None => 0,
        Some(at) => match row_at(&h.rows, at) {
            None => 0,
            Some(e) => 1 + routine(&h.routines, e.routine).bound as u16,
        },
    }
}

pub fn call_height(h: &Heights, row: Row, i: Option<Ins>) -> u16
    requires rising { is_rising_of 0 h.now.rows.items ≡ true }
    requires formed { IfSome i IsWellFormed }
    ensures { result ≡ call_height_of (seen h.now) row i }
{
    match i {
        Some(Ins::Call { k }) => height_at(h, target(row.facts.p3, row.facts.p4, k)),
        _ => 0,
    }
}

pub fn greater(a: u16, b: u16) -> u16
    ensures { result ≡ greater_of a b }
{
    if a < b { b } else { a }
}

fn is_row_of(n: usize, row: Option<Row>) -> bool
    ensures { result ≡ is_row_of_routine n row }
{
    match row {
        None => false,
        Some(row) => row.routine as usize == n,
    }
}

fn routine_holds(
    image: &Image,
    h: &Heights,
    ways_out: &[bool; 8192],
    heights: &[u16; 8192],
    n: usize,
    q: Routine,
) -> bool
    requires rising { is_rising_of 0 h.now.rows.items ≡ true }
    requires tells { TellsReturns image.now h.now.rows.items ways_out.now }
    requires heights { TellsHeights image.now (seen h.now) heights.now }
    ensures { result ≡ routine_holds_of image.now (seen h.now) n q }
{
    is_row_of(n, row_at(&h.rows, q.entry))
        && (h.interrupts || !q.isr)
        && (returns(image, &h.rows, ways_out, n) || q.out3.is_none() && q.out4.is_none())
        && q.bound as u16 == height(image, h, heights, n)
}

fn routines_hold(image: &Image, h: &Heights, ways_out: &[bool; 8192], routines: &[Routine]) -> bool
    requires rising { is_rising_of 0 h.now.rows.items ≡ true }
    requires tells { TellsReturns image.now h.now.rows.items ways_out.now }
    ensures { result ≡ routines_hold_of image.now (seen h.now) 0 routines.now }
{
    let heights = heights(image, h);
    for n in 0..routines.len() {
        if !routine_holds(image, h, ways_out, &heights, n, routines[n]) {
            return false;
        }
    }
    true
}

fn writes_intcon(i: Option<Ins>) -> bool
    ensures { result ≡ writes_intcon_of i }
{
    match i {
        None => false,
        Some(i) => writes(INTCON, i),
    }
}

// Whether a row of main's routines writes INTCON.
fn lets_in(image: &Image, h: &Heights, rows: &[Row]) -> bool
    ensures { result ≡ lets_in_of image.now (seen h.now) rows.now }
{
    for row in rows {
        if !routine(&h.routines, row.routine).isr && writes_intcon(instruction(image, row.at)) {
            return true;
        }
    }
    false
}

fn is_rising(rows: &[Row]) -> bool
    ensures { result ≡ is_rising_of 0 rows.now }
{
    let mut low = 0;
    for row in rows {
        if row.at < low || row.at >= 8192 {
            return false;
        }
        low = row.at + 1;
    }
    true
}

fn is_entry(isr: bool, at: u16, routines: &[Routine], n: usize) -> bool
    ensures { result ≡ is_entry_of isr at (slice_get routines.now n) }
{
    n < routines.len() && routines[n].entry == at && routines[n].isr == isr
}

/// After a reset bits 3 and 4 of PCLATH are 0 (data sheet DS39582, "Initialization conditions").
pub const AT_RESET: Facts = Facts {
    p3: Some(false),
    p4: Some(false),
    orig: false,
    w_orig: false,
    saved: false,
};

/// At the first word of the handler PCLATH is as it was when the interrupt was taken.
pub const AT_INTERRUPT: Facts = Facts {
    p3: None,
    p4: None,
    orig: true,
    w_orig: false,
    saved: false,
};

fn roots_hold(h: &Heights) -> bool
    requires rising { is_rising_of 0 h.now.rows.items ≡ true }
    ensures { result ≡ roots_hold_of (seen h.now) }
{
    is_entry(false, 0, &h.routines, 0)
        && has_row(h, 0, 0, AT_RESET)
        && (!h.interrupts || is_entry(true, 4, &h.routines, 1) && has_row(h, 4, 1, AT_INTERRUPT))
}

// The bound of main's routine and, where interrupts come, 1 and that of the handler's.
fn sum(h: &Heights) -> u64
    ensures { result ≡ total_of (seen h.now) }
{
    routine(&h.routines, 0).bound as u64
        + if h.interrupts {
            1 + routine(&h.routines, 1).bound as u64
        } else {
            0
        }
}

fn is_too_deep(h: &Heights) -> bool
    ensures { result ≡ not (nat_le (total_of (seen h.now)) 8) }
{
    sum(h) > 8
}

fn all_holds(image: &Image, h: &Heights) -> bool
    ensures { result ≡ is_valid image.now (seen h.now) }
{
    let ways_out = ways_out(image, &h.rows);
    is_rising(&h.rows)
        && h.cell >= 0x70
        && h.cell < 0x80
        && roots_hold(h)
        && rows_hold(image, h, &ways_out, &h.rows)
        && routines_hold(image, h, &ways_out, &h.routines)
        && (!h.interrupts || lets_in(image, h, &h.rows))
        && sum(h) <= 8
        && all_met(image, h, &ways_out)
}

// Most images without a certificate go too deep, and this is soon seen.
fn holds(image: &Image, h: &Heights) -> bool
    ensures { result ≡ is_valid image.now (seen h.now) }
{
    if is_too_deep(h) {
        return false;
    }
    all_holds(image, h)
}

/// Whether the certificate is valid for the image. It takes no memory.
pub fn verify(image: &Image, h: &Heights) -> bool
    ensures exact { result ≡ is_valid image.now (seen h.now) }
    ensures depth { result ≡ true → StaysWithin image.now (total_of (seen h.now)) }
{
    holds(image, h)
}

/// The greatest depth that the certificate allows. It has routine 0, and routine 1 where interrupts come.
pub fn total(h: &Heights) -> u64
    requires main { 0 < length h.now.routines.items }
    requires handler { h.now.interrupts ≡ true → 1 < length h.now.routines.items }
    ensures { result ≡ total_of (seen h.now) }
{
    sum(h)
}
