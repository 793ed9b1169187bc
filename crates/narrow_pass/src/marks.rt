//! What is known of the bytes of a frame, where a body and what is made of it run side by side.

ghost use Rattle.std.specs.Prelude.{◌≡◌, true, ◌&&◌, replicate, set, get_or, slice_get, ◌<◌, IfOk, IfSome};
ghost use Rattle.narrow_code.specs.Marks as stated;
ghost use Rattle.narrow_code.specs.Checked as tested;
ghost use Rattle.narrow_code.specs.Right as rules;
ghost use Rattle.narrow_code.specs.Drafts.{marks_in};
ghost use Rattle.narrow_pass.specs.Narrowed.{lent_by};
ghost use Rattle.narrow_pass.specs.Ways.{mark_of, marks_of, entry_mark, entry_flag, own_place, is_steady, set_bytes, all_same, all_cleared};

use core_code::Byte;
use std::alloc::{AllocError, Global};

/// What is known of a byte, in the given program and in the one that is made.
#[derive(Clone, Copy, PartialEq, Eq)]
pub enum Mark {
    /// Both hold 0.
    Zero,
    /// Both hold the same number.
    Numbers,
    /// Both hold the same.
    Same,
    /// Both hold numbers, which are 0 together or not at all.
    Tells,
    /// Both hold numbers, of which just one is 0.
    Denies,
    /// The given program holds 0.
    Cleared,
    /// Nothing.
    Differs,
}

/// So many bytes from one on.
#[derive(Clone, Copy)]
pub struct Run {
    pub byte: Byte,
    pub count: u16,
}

pub fn is_same(mark: Mark) -> bool
    ensures { result ≡ stated.is_same (mark_of mark) }
{
    match mark {
        Mark::Zero | Mark::Numbers | Mark::Same => true,
        Mark::Tells | Mark::Denies | Mark::Cleared | Mark::Differs => false,
    }
}

pub fn is_number(mark: Mark) -> bool
    ensures { result ≡ stated.is_number (mark_of mark) }
{
    match mark {
        Mark::Zero | Mark::Numbers => true,
        Mark::Same | Mark::Tells | Mark::Denies | Mark::Cleared | Mark::Differs => false,
    }
}

fn is_zero(mark: Mark) -> bool
    ensures { result ≡ stated.is_zero (mark_of mark) }
{
    match mark {
        Mark::Zero => true,
        Mark::Numbers | Mark::Same | Mark::Tells | Mark::Denies | Mark::Cleared | Mark::Differs =>
            false,
    }
}

fn is_cleared(mark: Mark) -> bool
    ensures { result ≡ stated.is_cleared (mark_of mark) }
{
    match mark {
        Mark::Zero | Mark::Cleared => true,
        Mark::Numbers | Mark::Same | Mark::Tells | Mark::Denies | Mark::Differs => false,
    }
}

/// Whether a test of the byte comes to the same in both.
pub fn tells(mark: Mark) -> bool
    ensures { result ≡ stated.tells (mark_of mark) }
{
    match mark {
        Mark::Zero | Mark::Numbers | Mark::Tells => true,
        Mark::Same | Mark::Denies | Mark::Cleared | Mark::Differs => false,
    }
}

/// Whether it comes to the opposite.
pub fn denies(mark: Mark) -> bool
    ensures { result ≡ stated.denies (mark_of mark) }
{
    match mark {
        Mark::Denies => true,
        Mark::Zero | Mark::Numbers | Mark::Same | Mark::Tells | Mark::Cleared | Mark::Differs =>
            false,
    }
}

// ---- single bytes

fn entry_at(here: &[Mark], at: usize) -> Mark
    ensures { mark_of result ≡ entry_mark (slice_get here.now at) }
{
    match here.get(at) {
        Some(mark) => *mark,
        None => Mark::Differs,
    }
}

// The mark at a place; beyond the end nothing is known.
#[tactic(auto, using(crate::proofs::Lists::mark_entry))]
pub fn own_at(here: &[Mark], at: usize) -> Mark
    ensures { mark_of result ≡ get_or (marks_of here.now) at stated.Differs }
{
    entry_at(here, at)
}

fn flag_at(flags: &[bool], at: usize) -> bool
    ensures { result ≡ entry_flag (slice_get flags.now at) }
{
    match flags.get(at) {
        Some(flag) => *flag,
        None => false,
    }
}

/// Whether an address of a copy's frame is taken.
#[tactic(auto, using(crate::proofs::Lists::flag_entry))]
pub fn is_lent(lent: &[bool], copy: u16) -> bool
    ensures { result ≡ lent_by lent.now copy }
{
    flag_at(lent, copy as usize)
}

/// What is known of a byte that is this copy's business.
pub fn mark_at(lent: &[bool], copy: u16, here: &[Mark], byte: Byte) -> Mark
    ensures { mark_of result ≡ stated.own_mark (lent_by lent.now) copy (marks_in (marks_of here.now)) byte }
{
    match byte {
        Byte::Static { .. } | Byte::Result { .. } | Byte::Device { .. } => Mark::Same,
        Byte::Frame {
            copy: owner,
            offset,
        } => {
            if owner != copy {
                Mark::Differs
            } else if is_lent(lent, owner) {
                Mark::Same
            } else {
                own_at(here, offset as usize)
            }
        }
    }
}

/// Whether a byte may come to differ: one of the own frame, to which no pointer leads.
pub fn may_differ(lent: &[bool], copy: u16, byte: Byte) -> bool
    ensures { result ≡ stated.may_differ (lent_by lent.now) copy byte }
{
    match byte {
        Byte::Static { .. } | Byte::Result { .. } | Byte::Device { .. } => false,
        Byte::Frame { copy: owner, .. } => owner == copy && !is_lent(lent, owner),
    }
}

// ---- runs of bytes

/// The place of a byte in the own frame.
pub fn own_place(copy: u16, byte: Byte) -> Option<usize>
    ensures place { result ≡ own_place copy byte }
    ensures small { IfSome result (λ at. at < 65536) }
{
    match byte {
        Byte::Static { .. } | Byte::Result { .. } | Byte::Device { .. } => None,
        Byte::Frame {
            copy: owner,
            offset,
        } => {
            if owner == copy {
                Some(offset as usize)
            } else {
                None
            }
        }
    }
}

// Whether no operator on low bytes may write it.
fn is_steady(lent: &[bool], copy: u16, byte: Byte) -> bool
    ensures { result ≡ is_steady (lent_by lent.now) copy byte }
{
    match byte {
        Byte::Static { .. } | Byte::Result { .. } | Byte::Device { .. } => true,
        Byte::Frame { copy: owner, .. } => owner == copy && is_lent(lent, owner),
    }
}

#[tactic(auto, using(crate::proofs::Runs::same_more))]
fn own_same(here: &[Mark], at: usize, count: u16) -> bool
    requires { at < 65536 }
    ensures same { result ≡ true → all_same (marks_of here.now) at count ≡ true }
{
    for k in 0..count {
        if !is_same(own_at(here, at + k as usize)) {
            return false;
        }
    }
    true
}

/// Whether so many bytes are known to be the same.
#[tactic(auto, using(crate::proofs::Runs::agree_none))]
pub fn same_from(lent: &[bool], copy: u16, here: &[Mark], run: Run) -> bool
    ensures same { result ≡ true → tested.same_from (lent_by lent.now) copy (marks_of here.now) run.byte run.count ≡ true }
{
    if run.count == 0 {
        return true;
    }
    if is_steady(lent, copy, run.byte) {
        return true;
    }
    match own_place(copy, run.byte) {
        Some(at) => own_same(here, at, run.count),
        None => false,
    }
}

/// Whether both hold.
pub fn both(first: bool, second: bool) -> bool
    ensures { result ≡ (first && second) }
{
    first && second
}

#[tactic(auto, using(crate::proofs::Runs::cleared_more))]
fn own_cleared(here: &[Mark], at: usize, count: u16) -> bool
    requires { at < 65537 }
    ensures { result ≡ all_cleared (marks_of here.now) at count }
{
    let mut all = true;
    for k in 0..count {
        all = both(all, is_cleared(own_at(here, at + k as usize)));
    }
    all
}

/// Whether all of these bytes but the first one are 0 in the given program.
#[tactic(auto, using(crate::proofs::Runs::alone_one, crate::proofs::Runs::alone_own, crate::proofs::Runs::alone_off))]
pub fn is_low_alone(lent: &[bool], copy: u16, here: &[Mark], run: Run) -> bool
    ensures { result ≡ rules.is_low_alone (lent_by lent.now) copy (marks_in (marks_of here.now)) run.byte run.count }
{
    if run.count <= 1 {
        return true;
    }
    match own_place(copy, run.byte) {
        Some(at) => both(
            !is_lent(lent, copy),
            own_cleared(here, at + 1, run.count - 1),
        ),
        None => false,
    }
}

// ---- writes

#[tactic(auto, using(crate::proofs::Lists::set_marks, crate::proofs::Lists::set_beyond))]
fn set_at(here: &mut Vec<Mark>, at: usize, mark: Mark)
    ensures { marks_of here.new.items ≡ set (marks_of here.old.items) at (mark_of mark) }
{
    if at < here.len() {
        here[at] = mark;
    }
}

fn set_all(here: &mut Vec<Mark>, at: usize, count: u16, mark: Mark)
    requires { at < 65536 }
    ensures { marks_of here.new.items ≡ set_bytes (marks_of here.old.items) at count (λ k. mark_of mark) }
{
    for k in 0..count {
        set_at(here, at + k as usize, mark);
    }
}

// One of the lowest, and another one of all above it.
fn stacked(low: Mark, high: Mark, k: u16) -> Mark
    ensures { mark_of result ≡ stated.stacked (mark_of low) (mark_of high) k }
{
    if k == 0 { low } else { high }
}

fn set_stacked(here: &mut Vec<Mark>, at: usize, count: u16, low: Mark, high: Mark)
    requires { at < 65536 }
    ensures { marks_of here.new.items ≡ set_bytes (marks_of here.old.items) at count (stated.stacked (mark_of low) (mark_of high)) }
{
    for k in 0..count {
        set_at(here, at + k as usize, stacked(low, high, k));
    }
}

/// What is known behind a write of one byte.
#[tactic(auto, using(crate::proofs::Runs::put_own, crate::proofs::Runs::put_off))]
pub fn put_one(copy: u16, here: &mut Vec<Mark>, byte: Byte, mark: Mark)
    ensures { marks_of here.new.items ≡ tested.put copy (marks_of here.old.items) byte (mark_of mark) }
{
    match own_place(copy, byte) {
        Some(at) => set_at(here, at, mark),
        None => {}
    }
}

/// What is known behind a write of so many bytes, of each of which the same is known.
#[tactic(auto, using(crate::proofs::Runs::bytes_own, crate::proofs::Runs::bytes_off))]
pub fn put_all(copy: u16, here: &mut Vec<Mark>, byte: Byte, count: u16, mark: Mark)
    ensures { marks_of here.new.items ≡ tested.put_bytes copy (marks_of here.old.items) byte count (λ k. mark_of mark) }
{
    match own_place(copy, byte) {
        Some(at) => set_all(here, at, count, mark),
        None => {}
    }
}

/// The same of bytes that are written one behind the other.
#[tactic(auto, using(crate::proofs::Runs::on_bytes))]
pub fn put_on(copy: u16, here: &mut Vec<Mark>, byte: Byte, count: u16)
    ensures { marks_of here.new.items ≡ tested.put_on copy (marks_of here.old.items) byte count }
{
    put_all(copy, here, byte, count, Mark::Same);
}

/// The same, where of the lowest one something else is known than of the others.
#[tactic(auto, using(crate::proofs::Runs::bytes_own, crate::proofs::Runs::bytes_off))]
pub fn put_stacked(copy: u16, here: &mut Vec<Mark>, byte: Byte, count: u16, low: Mark, high: Mark)
    ensures { marks_of here.new.items ≡ tested.put_bytes copy (marks_of here.old.items) byte count (stated.stacked (mark_of low) (mark_of high)) }
{
    match own_place(copy, byte) {
        Some(at) => set_stacked(here, at, count, low, high),
        None => {}
    }
}

// ---- whole lists

/// Where no way leads any mark will do.
#[tactic(auto, using(crate::proofs::Lists::none_passed, crate::proofs::Lists::one_passed, crate::proofs::Lists::all_passed))]
pub fn put_nowhere(here: &mut Vec<Mark>)
    ensures { marks_of here.new.items ≡ tested.nowhere (marks_of here.old.items) }
{
    for k in 0..here.len() {
        set_at(here, k, Mark::Zero);
    }
}

/// As many marks as this, all of which say that bytes are the same.
pub fn all_equal(alloc: Global, count: usize) -> Result<Vec<Mark>, AllocError>
    ensures { IfOk result (λ made. made.items ≡ replicate count Mark.Same) }
{
    vec![in alloc; Mark::Same; count]
}

/// The same marks.
pub fn copied(marks: &Vec<Mark>) -> Result<Vec<Mark>, AllocError>
    ensures { IfOk result (λ made. made.items ≡ marks.now.items) }
{
    marks.clone()
}

fn is_below(said: Mark, known: Mark) -> bool
    ensures { result ≡ stated.is_below (mark_of said) (mark_of known) }
{
    match said {
        Mark::Zero => is_zero(known),
        Mark::Numbers => is_number(known),
        Mark::Same => is_same(known),
        Mark::Tells => tells(known),
        Mark::Denies => denies(known),
        Mark::Cleared => is_cleared(known),
        Mark::Differs => true,
    }
}

/// Whether the first marks say no more than the second ones.
#[tactic(auto, using(crate::proofs::Lists::none_below, crate::proofs::Lists::one_below))]
pub fn all_below(said: &[Mark], known: &[Mark]) -> bool
    ensures below { result ≡ true → tested.all_below (marks_of said.now) (marks_of known.now) ≡ true }
{
    for k in 0..said.len() {
        if !is_below(own_at(said, k), own_at(known, k)) {
            return false;
        }
    }
    true
}

pub fn both_say(first: Mark, second: Mark) -> Mark
    ensures { mark_of result ≡ tested.both_say (mark_of first) (mark_of second) }
{
    if is_below(first, second) {
        first
    } else if is_below(second, first) {
        second
    } else {
        Mark::Differs
    }
}

/// What both say, where the second marks are no fewer than the first ones.
#[tactic(auto, using(crate::proofs::Lists::one_met))]
pub fn met(alloc: Global, said: &[Mark], known: &[Mark]) -> Result<Option<Vec<Mark>>, AllocError>
    ensures { IfOk result (λ found. IfSome found (λ made. marks_of made.items ≡ tested.met (marks_of said.now) (marks_of known.now))) }
{
    if known.len() < said.len() {
        return Ok(None);
    }
    let mut made = Vec::new(alloc);
    for k in 0..said.len() {
        made.push(both_say(own_at(said, k), own_at(known, k)))?;
    }
    Ok(Some(made))
}
