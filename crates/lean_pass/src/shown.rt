//! What a flag of the machine that runs the code that is made tells: of itself, of W of the other machine, and so of Z there.

ghost use Rattle.std.specs.Prelude.{ℕ, ◌≡◌, ◌&&◌, not, true, false, nat_eq, Some, None, Option, if◌then◌else◌};
ghost use Rattle.lean_code.specs.Rows as certified;
ghost use Rattle.lean_code.specs.Changes as changes;
ghost use Rattle.lean_code.specs.Checked as listed;
ghost use Rattle.lean_code.specs.Right as right;
ghost use Rattle.lean_pass.specs.Behind.{sketch_at, block_at, note_at, facts_at, apart_at};
ghost use Rattle.lean_pass.specs.Rules as rules;
ghost use Rattle.lean_pass.specs.Views.{name_of, note_of, rows_of, shown_of, ties_of};

use crate::behind::{Here, flags_in, is_number};
use crate::keeping::is_status;
use crate::reading::same_number;
use crate::rows::{FlagName, Note, Row, Shown, Ties};
use sym_code::{BitOperation, FileOperation, Operand, Sym};

/// The number of the flag's bit of STATUS.
pub fn bit_of(flag: FlagName) -> u8
    ensures { result ≡ certified.bit_of (name_of flag) }
{
    match flag {
        FlagName::Carry => 0,
        FlagName::Zero => 2,
    }
}

fn same_flag(one: FlagName, other: FlagName) -> bool
    ensures { result ≡ changes.same_flag (name_of one) (name_of other) }
{
    match one {
        FlagName::Carry => match other {
            FlagName::Carry => true,
            FlagName::Zero => false,
        },
        FlagName::Zero => match other {
            FlagName::Carry => false,
            FlagName::Zero => true,
        },
    }
}

fn same_truth(one: bool, other: bool) -> bool
    ensures { result ≡ changes.same_truth one other }
{
    if one { other } else { !other }
}

/// Where a test skips, the bit is this.
pub fn skips_at(op: BitOperation) -> bool
    ensures { result ≡ right.skips_at op }
{
    match op {
        BitOperation::Btfss => true,
        BitOperation::Btfsc => false,
        BitOperation::Bcf => false,
        BitOperation::Bsf => false,
    }
}

// Whether no more is said to be seen than is.
fn shows_seen(flag: FlagName, set: bool, has: Shown) -> bool
    ensures { result ≡ changes.shows (certified.Sees (name_of flag) set) None (shown_of has) }
{
    match has {
        Shown::Unshown => false,
        Shown::Sees {
            flag: other,
            set: value,
        } => same_flag(flag, other) && same_truth(set, value),
        Shown::Reports => false,
        Shown::Chooses { .. } => false,
    }
}

// Whether W is chosen so, where this is known of it.
fn shows_chosen(flag: FlagName, set: u8, clear: u8, number: Option<u8>, has: Shown) -> bool
    ensures { result ≡ changes.shows (certified.Chooses (name_of flag) set clear) number (shown_of has) }
{
    match has {
        Shown::Unshown => false,
        Shown::Sees {
            flag: other,
            set: value,
        } => same_flag(flag, other) && is_number(number, if value { set } else { clear }),
        Shown::Reports => false,
        Shown::Chooses {
            flag: other,
            set: first,
            clear: second,
        } => same_flag(flag, other) && (set == first && clear == second),
    }
}

/// Whether Z says whether W of that machine is 0.
pub fn reports(shown: Shown) -> bool
    ensures { result ≡ changes.reports (shown_of shown) }
{
    match shown {
        Shown::Unshown => false,
        Shown::Sees { .. } => false,
        Shown::Reports => true,
        Shown::Chooses { .. } => false,
    }
}

/// Whether no more is said to be shown than is, where this is known of W.
pub fn shows(said: Shown, number: Option<u8>, has: Shown) -> bool
    ensures { result ≡ changes.shows (shown_of said) number (shown_of has) }
{
    match said {
        Shown::Unshown => true,
        Shown::Sees { flag, set } => shows_seen(flag, set, has),
        Shown::Reports => reports(has),
        Shown::Chooses { flag, set, clear } => shows_chosen(flag, set, clear, number, has),
    }
}

/// Whether no more is said to be carried and shown than is.
pub fn claims(note: &Note, number: Option<u8>, ties: Ties) -> bool
    ensures { result ≡ listed.claims (note_of note.now) number (ties_of ties) }
{
    same_number(note.carry, ties.carry) && shows(note.shown, number, ties.shown)
}

/// Nothing is tied.
pub fn no_ties() -> Ties
    ensures { ties_of result ≡ changes.no_ties }
{
    Ties {
        carry: None,
        shown: Shown::Unshown,
    }
}

/// Behind an operation whose result went to W in place of a byte, W of the machine that runs the code that is made is what the byte holds.
pub fn carries(op: FileOperation, byte: usize) -> Ties
    ensures { ties_of result ≡ changes.carries op byte }
{
    Ties {
        carry: Some(byte),
        shown: if flags_in(op).z {
            Shown::Reports
        } else {
            Shown::Unshown
        },
    }
}

// What is carried behind a write of a byte on one machine.
fn carry_but(byte: usize, carry: Option<usize>) -> Option<usize>
    ensures { result ≡ right.carry_but byte carry }
{
    match carry {
        None => None,
        Some(other) => if other == byte { None } else { Some(other) },
    }
}

/// What is shown where W stays, or not.
pub fn left(kept: bool, shown: Shown) -> Shown
    ensures { shown_of result ≡ changes.left kept (shown_of shown) }
{
    if kept {
        shown
    } else {
        match shown {
            Shown::Unshown => Shown::Unshown,
            Shown::Sees { flag, set } => Shown::Sees { flag, set },
            Shown::Reports => Shown::Reports,
            Shown::Chooses { .. } => Shown::Unshown,
        }
    }
}

// A number that a carry chose is taken away from one that leaves the same carry.
fn leaves_chosen(shown: Shown, from: u8) -> bool
    ensures { result ≡ changes.leaves_carry FileOperation.Subwf (Some from) (shown_of shown) }
{
    match shown {
        Shown::Unshown => false,
        Shown::Sees { .. } => false,
        Shown::Reports => false,
        Shown::Chooses { flag, set, clear } => match flag {
            FlagName::Carry => set <= from && clear > from,
            FlagName::Zero => false,
        },
    }
}

/// Whether an operation on W, which a carry chose, and a byte leaves the same carry.
pub fn leaves_carry(op: FileOperation, byte: Option<u8>, shown: Shown) -> bool
    ensures { result ≡ changes.leaves_carry op byte (shown_of shown) }
{
    match op {
        FileOperation::Subwf => match byte {
            Some(from) => leaves_chosen(shown, from),
            None => false,
        },
        _ => false,
    }
}

// Which flag Z, which says whether W is 0, is; or of which it is the opposite.
fn shows_zero(shown: Shown, flag: FlagName, turned: bool) -> bool
    ensures { result ≡ changes.shows_zero (shown_of shown) (name_of flag) turned }
{
    match shown {
        Shown::Unshown => false,
        Shown::Sees { .. } => false,
        Shown::Reports => false,
        Shown::Chooses {
            flag: other,
            set,
            clear,
        } => {
            same_flag(other, flag)
                && if turned {
                    set != 0 && clear == 0
                } else {
                    set == 0 && clear != 0
                }
        }
    }
}

impl<'a> Here<'a> {
    /// What is tied before the instruction.
    pub fn ties(&self) -> Ties
        ensures { ties_of result ≡ listed.ties (sketch_at self.now) (block_at self.now) (note_at self.now) }
    {
        Ties {
            carry: self.note.carry,
            shown: self.note.shown,
        }
    }

    /// Behind a write of a byte on one machine.
    pub fn ties_but(&self, byte: usize) -> Ties
        ensures { ties_of result ≡ listed.ties_but (sketch_at self.now) (block_at self.now) (note_at self.now) byte }
    {
        Ties {
            carry: carry_but(byte, self.note.carry),
            shown: self.note.shown,
        }
    }

    /// Where W stays on one machine, or not.
    pub fn ties_left(&self, carry: Option<usize>, kept: bool) -> Ties
        ensures { ties_of result ≡ listed.ties_left (sketch_at self.now) (block_at self.now) (note_at self.now) carry kept }
    {
        Ties {
            carry,
            shown: left(kept, self.note.shown),
        }
    }

    fn sees(&self, bit: u8, set: bool) -> Shown
        ensures { shown_of result ≡ changes.sees (facts_at self.now) (apart_at self.now) bit set (note_at self.now).shown }
    {
        let facts = &self.note.facts;
        let apart = &self.note.apart;
        if bit == 0 {
            if facts.carry_bit && !apart.c {
                Shown::Sees {
                    flag: FlagName::Carry,
                    set,
                }
            } else {
                self.note.shown
            }
        } else if bit == 2 {
            if facts.zero_bit && !apart.z {
                Shown::Sees {
                    flag: FlagName::Zero,
                    set,
                }
            } else {
                self.note.shown
            }
        } else {
            self.note.shown
        }
    }

    /// Where a flag is seen to be this.
    pub fn ties_seen(&self, bit: u8, set: bool) -> Ties
        ensures { ties_of result ≡ listed.ties_seen (sketch_at self.now) (block_at self.now) (note_at self.now) bit set }
    {
        Ties {
            carry: self.note.carry,
            shown: self.sees(bit, set),
        }
    }

    fn tests_zero(&self, rest: &[Row], flag: FlagName, turned: bool, bit: u8) -> bool
        ensures { result ≡ listed.tests_zero (sketch_at self.now) (block_at self.now) (note_at self.now) (rows_of rest.now) (name_of flag) turned bit }
    {
        bit == 2
            && (self.note.facts.zero
                && (shows_zero(self.note.shown, flag, turned)
                    && self.leads(
                        rest,
                        None,
                        self.unchanged(self.note.facts.zero),
                        self.differing(self.marks()),
                    )))
    }

    fn tests_bit(
        &self,
        rest: &[Row],
        flag: FlagName,
        turned: bool,
        op: BitOperation,
        operand: Operand,
        bit: u8,
    ) -> bool
        ensures { result ≡ rules.tests_bit (sketch_at self.now) (block_at self.now) (note_at self.now) (rows_of rest.now) (name_of flag) turned op operand bit }
    {
        match op {
            BitOperation::Btfsc => is_status(operand) && self.tests_zero(rest, flag, turned, bit),
            BitOperation::Btfss => is_status(operand) && self.tests_zero(rest, flag, turned, bit),
            BitOperation::Bcf => false,
            BitOperation::Bsf => false,
        }
    }

    /// Whether a flag may be tested in the place of Z.
    #[tactic(auto, using(crate::proofs::Cuts::tested_is))]
    pub fn is_tested(&self, rest: &[Row], flag: FlagName, turned: bool, sym: Sym) -> bool
        ensures { result ≡ listed.is_tested (sketch_at self.now) (block_at self.now) (note_at self.now) (rows_of rest.now) (name_of flag) turned sym }
    {
        match sym {
            Sym::Bit { op, file, bit } => self.tests_bit(rest, flag, turned, op, file, bit),
            Sym::Label(_) => true,
            _ => false,
        }
    }
}
