//! From what a search has found to a certificate with its bounds.

ghost use Rattle.std.specs.Prelude.{◌≡◌, true, ◌<◌, ◌≤◌, ◌+◌, ◌++◌, [], ◌∷◌, length, slice_index_or, slice_set, IfOk, IfSome, Option, Some, None};
ghost use Rattle.pic_isa.specs.Table.{IsWellFormed};
ghost use Rattle.depth_check.specs.Certificate.{seen};
ghost use Rattle.depth_check.specs.Valid.{is_rising};
ghost use Rattle.depth_check.specs.Search.{tables, IsNumbered, first_entries as first_entries_of, spot_at as spot_at_of, is_first as is_first_of, position as position_of, with_entry as with_entry_of, entries_of, row_for as row_for_of, rows_from, routine_for as routine_for_of, routines_for, certificate_of, raised_to, raised_by, raised_from, raised};

use crate::check::{call_height, instruction};
use crate::tables::{Search, Spot};
use crate::{Heights, Routine, Row};
use pic_chip::Image;
use std::alloc::{AllocError, Global};

// The place of a number in a list, and the list's length if it isn't there.
fn position(n: u16, numbers: &[u16]) -> usize
    ensures place { result ≡ position_of n numbers.now }
    ensures within { result ≤ length numbers.now }
{
    for i in 0..numbers.len() {
        if numbers[i] == n {
            return i;
        }
    }
    numbers.len()
}

// The entries of the routines that were found.
#[derive(Drop)]
struct Numbering {
    // By the number of a routine.
    list: Vec<u16>,
    // The numbers, by address.
    numbers: [Option<u16>; 8192],
}

impl Numbering {
    // The number of the routine that begins at an address, if one does.
    fn number(&self, at: u16) -> Option<u16>
        ensures number { result ≡ slice_index_or self.now.numbers at None }
        ensures below { IfSome result (λ number. at < 8192) }
    {
        if (at as usize) < 8192 {
            self.numbers[at as usize]
        } else {
            None
        }
    }

    // The number of the routine with this entry, and the number of all routines where there is none.
    fn place(&self, entry: u16) -> u16
        requires few { length self.now.list.items ≤ 8194 }
        requires numbered { IsNumbered self.now.numbers self.now.list.items }
        ensures { result ≡ position_of entry self.now.list.items }
    {
        match self.number(entry) {
            None => position(entry, &self.list) as u16,
            Some(number) => number,
        }
    }

    // The next number is the routine's that begins at this address.
    fn append(&mut self, at: u16) -> Result<(), AllocError>
        requires few { length self.old.list.items ≤ 8193 }
        requires below { at < 8192 }
        ensures list { IfOk result (λ nothing. self.new.list.items ≡ self.old.list.items ++ at ∷ []) }
        ensures numbers { IfOk result (λ nothing. self.new.numbers ≡ slice_set self.old.numbers at (Some (length self.old.list.items))) }
    {
        let number = self.list.len() as u16;
        self.list.push(at)?;
        self.numbers[at as usize] = Some(number);
        Ok(())
    }

    // The routine that begins at this address has a number.
    fn add(&mut self, at: u16) -> Result<(), AllocError>
        requires few { length self.old.list.items ≤ 8193 }
        requires below { at < 8192 }
        requires numbered { IsNumbered self.old.numbers self.old.list.items }
        ensures list { IfOk result (λ nothing. self.new.list.items ≡ with_entry_of self.old.list.items at) }
        ensures few { IfOk result (λ nothing. length self.new.list.items ≤ length self.old.list.items + 1) }
        ensures numbered { IfOk result (λ nothing. IsNumbered self.new.numbers self.new.list.items) }
    {
        match self.number(at) {
            None => {
                self.append(at)?;
                Ok(())
            }
            Some(_) => Ok(()),
        }
    }
}

fn is_first(s: &Search, at: u16) -> bool
    ensures { result ≡ is_first_of at (spot_at_of (tables s.now) at) }
{
    match s.spot_at(at) {
        None => false,
        Some(spot) => spot.entry == at,
    }
}

// Main's entry, and the handler's where interrupts come.
fn first_entries(alloc: Global, interrupts: bool) -> Result<Numbering, AllocError>
    ensures list { IfOk result (λ found. found.list.items ≡ first_entries_of interrupts) }
    ensures numbered { IfOk result (λ found. IsNumbered found.numbers found.list.items) }
{
    let mut found = Numbering {
        list: Vec::new(alloc),
        numbers: [None; 8192],
    };
    found.add(0)?;
    if interrupts {
        found.add(4)?;
    }
    Ok(found)
}

// The entries of all routines: main's, the handler's where interrupts come, and the others in order of address.
fn entries(alloc: Global, s: &Search) -> Result<Numbering, AllocError>
    requires spots { length s.now.spots.items ≡ 8192 }
    ensures all { IfOk result (λ found. found.list.items ≡ entries_of (tables s.now)) }
    ensures few { IfOk result (λ found. length found.list.items ≤ 8194) }
    ensures numbered { IfOk result (λ found. IsNumbered found.numbers found.list.items) }
{
    let mut found = first_entries(alloc, s.interrupts)?;
    for at in 0..8192u16 {
        if is_first(s, at) {
            found.add(at)?;
        }
    }
    Ok(found)
}

fn row_for(entries: &Numbering, at: u16, spot: Spot) -> Row
    requires few { length entries.now.list.items ≤ 8194 }
    requires numbered { IsNumbered entries.now.numbers entries.now.list.items }
    ensures { result ≡ row_for_of entries.now.list.items at spot }
{
    Row {
        at,
        routine: entries.place(spot.entry),
        facts: spot.facts,
    }
}

fn rows(alloc: Global, s: &Search, entries: &Numbering) -> Result<Vec<Row>, AllocError>
    requires spots { length s.now.spots.items ≡ 8192 }
    requires few { length entries.now.list.items ≤ 8194 }
    requires numbered { IsNumbered entries.now.numbers entries.now.list.items }
    ensures { IfOk result (λ rows. rows.items ≡ rows_from entries.now.list.items 0 s.now.spots.items) }
{
    let mut rows = Vec::new(alloc);
    for at in 0..8192u16 {
        if let Some(spot) = s.spot_at(at) {
            rows.push(row_for(entries, at, spot))?;
        }
    }
    Ok(rows)
}

fn routine_for(s: &Search, entry: u16) -> Routine
    ensures { result ≡ routine_for_of (tables s.now) entry }
{
    let isr = match s.spot_at(entry) {
        None => false,
        Some(spot) => spot.isr,
    };
    let (out3, out4) = match s.out_at(entry) {
        None => (None, None),
        Some(o) => (o.p3, o.p4),
    };
    Routine {
        entry,
        isr,
        bound: 0,
        out3,
        out4,
    }
}

fn routines(alloc: Global, s: &Search, entries: &[u16]) -> Result<Vec<Routine>, AllocError>
    ensures { IfOk result (λ found. found.items ≡ routines_for (tables s.now) entries.now) }
{
    let mut found = Vec::new(alloc);
    for i in 0..entries.len() {
        found.push(routine_for(s, entries[i]))?;
    }
    Ok(found)
}

/// What was found as a certificate, with all bounds 0.
pub fn certificate(alloc: Global, s: &Search) -> Result<Heights, AllocError>
    requires spots { length s.now.spots.items ≡ 8192 }
    ensures same { IfOk result (λ h. seen h ≡ certificate_of (tables s.now)) }
    ensures rising { IfOk result (λ h. is_rising 0 h.rows.items ≡ true) }
{
    let entries = entries(alloc, s)?;
    let rows = rows(alloc, s, &entries)?;
    let routines = routines(alloc, s, &entries.list)?;
    Ok(Heights {
        interrupts: s.interrupts,
        cell: s.cell,
        rows,
        routines,
    })
}

// No bound that counts is as large as 100.
fn raise_to(h: &mut Heights, n: u16, bound: u16)
    ensures { seen h.new ≡ raised_to (seen h.old) n bound }
{
    if (n as usize) < h.routines.len() {
        let old = h.routines[n as usize];
        if (old.bound as u16) < bound && bound < 100 {
            h.routines[n as usize] = Routine {
                entry: old.entry,
                isr: old.isr,
                bound: bound as u8,
                out3: old.out3,
                out4: old.out4,
            };
        }
    }
}

fn raise_by(image: &Image, h: &mut Heights, row: Row)
    requires rising { is_rising 0 h.old.rows.items ≡ true }
    ensures { seen h.new ≡ raised_by image.now (seen h.old) row }
{
    let bound = call_height(h, row, instruction(image, row.at));
    raise_to(h, row.routine, bound);
}

// Each row once: its routine's bound is above that of the routine that it calls.
fn raise(image: &Image, h: &mut Heights)
    requires rising { is_rising 0 h.old.rows.items ≡ true }
    ensures all { seen h.new ≡ raised_from image.now (seen h.old) h.old.rows.items }
    ensures rows { h.new.rows.items ≡ h.old.rows.items }
{
    for i in 0..h.rows.len() {
        let row = h.rows[i];
        raise_by(image, h, row);
    }
}

/// All bounds, where none is above 8.
#[tactic(auto, unfolding(crate::specs::Search::raised))]
pub fn raise_all(image: &Image, h: &mut Heights)
    requires rising { is_rising 0 h.old.rows.items ≡ true }
    ensures { seen h.new ≡ raised image.now 9 (seen h.old) }
{
    for round in 0..9u16 {
        raise(image, h);
    }
}
