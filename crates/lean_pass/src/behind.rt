//! What is so behind an instruction: what was so before it, with what changes.

ghost use Rattle.std.specs.Prelude.{ℕ, ◌≡◌, ◌&&◌, ◌||◌, not, true, false, nat_eq, Some, None, if◌then◌else◌};
ghost use Rattle.sym_code.specs.Programs as programs;
ghost use Rattle.lean_code.specs.Changes as changes;
ghost use Rattle.lean_code.specs.Computed as numbers;
ghost use Rattle.lean_code.specs.Checked as listed;
ghost use Rattle.lean_code.specs.Right as right;
ghost use Rattle.lean_pass.specs.Behind as stated;
ghost use Rattle.lean_pass.specs.Behind.{facts_at, apart_at, hidden_at, marks_at, flags_of, facts_by, apart_by};
ghost use Rattle.lean_pass.specs.Owners.{aim_of};

use crate::computing::{computed, file_for, leaves_w, same_known};
use crate::owners::{Aim, Ground};
use crate::rows::{LeanBlock, Note, Sketch};
use crate::sets::{number_at, origin_at};
use sym_code::{FileOperation, Literal, LiteralOperation};

/// Which bytes W is what they hold, behind an instruction.
#[derive(Clone, Copy, PartialEq, Eq)]
pub enum Held {
    /// As before.
    Same,
    /// As before, but for one.
    Less(usize),
    /// As before, of those that aren't reached through FSR.
    Hidden,
    Nothing,
    /// This one, and those of which it is a copy.
    Only(usize),
    /// Those that are known to hold this number.
    Like(u8),
    /// As before, and one more.
    More(usize),
}

/// What bytes hold, behind an instruction.
#[derive(Clone, Copy, PartialEq, Eq)]
pub enum Known {
    /// As before.
    Same,
    /// As before, but for one.
    Put(usize, Option<u8>),
    /// As before, of those that aren't reached through FSR.
    Hidden,
    Nothing,
}

/// Which bytes are copies of others, behind an instruction.
#[derive(Clone, Copy, PartialEq, Eq)]
pub enum Twins {
    /// As before.
    Same,
    /// As before, but for one, which is neither.
    Less(usize),
    /// As before, of those that aren't reached through FSR.
    Hidden,
    Nothing,
    /// As before, but that this one is now a copy of those that hold W.
    Stored(usize),
}

/// What is known behind an instruction.
#[derive(Clone, Copy, PartialEq, Eq)]
pub struct Behind {
    pub number: Option<u8>,
    pub held: Held,
    pub zero: bool,
    pub known: Known,
    pub twins: Twins,
    pub carry_bit: bool,
    pub zero_bit: bool,
}

/// The flags that an instruction writes.
#[derive(Clone, Copy, PartialEq, Eq)]
pub struct Flags {
    pub z: bool,
    pub dc: bool,
    pub c: bool,
}

/// Whether W and the flags may differ.
#[derive(Clone, Copy, PartialEq, Eq)]
pub struct Marks {
    pub w: bool,
    pub z: bool,
    pub dc: bool,
    pub c: bool,
}

/// Which bytes may differ behind an instruction.
#[derive(Clone, Copy, PartialEq, Eq)]
pub enum Bytes {
    /// As before.
    Same,
    /// As before, but for one.
    Less(usize),
    /// As before, and one more.
    More(usize),
}

/// What may differ behind an instruction.
#[derive(Clone, Copy, PartialEq, Eq)]
pub struct Differs {
    pub marks: Marks,
    pub bytes: Bytes,
}

/// A row that is tested: its block, and what is said before it.
#[derive(Clone, Copy)]
pub struct Here<'a> {
    pub sketch: &'a Sketch,
    pub ground: &'a Ground<'a>,
    pub block: &'a LeanBlock,
    pub note: &'a Note,
}

// ---- operations

pub fn flags_in(op: FileOperation) -> Flags
    ensures { flags_of result ≡ changes.flags_in op }
{
    let all = Flags {
        z: true,
        dc: true,
        c: true,
    };
    let zero = Flags {
        z: true,
        dc: false,
        c: false,
    };
    let carry = Flags {
        z: false,
        dc: false,
        c: true,
    };
    let none = Flags {
        z: false,
        dc: false,
        c: false,
    };
    match op {
        FileOperation::Addwf => all,
        FileOperation::Subwf => all,
        FileOperation::Decfsz => none,
        FileOperation::Incfsz => none,
        FileOperation::Swapf => none,
        FileOperation::Rlf => carry,
        FileOperation::Rrf => carry,
        FileOperation::Andwf => zero,
        FileOperation::Comf => zero,
        FileOperation::Decf => zero,
        FileOperation::Incf => zero,
        FileOperation::Iorwf => zero,
        FileOperation::Movf => zero,
        FileOperation::Xorwf => zero,
    }
}

pub fn literal_flags(op: LiteralOperation) -> Flags
    ensures { flags_of result ≡ changes.literal_flags op }
{
    let all = Flags {
        z: true,
        dc: true,
        c: true,
    };
    let zero = Flags {
        z: true,
        dc: false,
        c: false,
    };
    let none = Flags {
        z: false,
        dc: false,
        c: false,
    };
    match op {
        LiteralOperation::Addlw => all,
        LiteralOperation::Sublw => all,
        LiteralOperation::Movlw => none,
        LiteralOperation::Retlw => none,
        LiteralOperation::Andlw => zero,
        LiteralOperation::Iorlw => zero,
        LiteralOperation::Xorlw => zero,
    }
}

pub fn is_number(known: Option<u8>, number: u8) -> bool
    ensures { result ≡ changes.is_number known number }
{
    match known {
        None => false,
        Some(other) => other == number,
    }
}

pub fn is_byte(known: Option<usize>, byte: usize) -> bool
    ensures { result ≡ changes.is_number known byte }
{
    match known {
        None => false,
        Some(other) => other == byte,
    }
}

// ---- what may differ

/// Both write these flags alike.
pub fn both_set(flags: Flags, marks: Marks) -> Marks
    ensures { result ≡ stated.both_marks (flags_of flags) marks }
{
    Marks {
        w: marks.w,
        z: !flags.z && marks.z,
        dc: !flags.dc && marks.dc,
        c: !flags.c && marks.c,
    }
}

/// Only one of them writes these.
pub fn one_sets(flags: Flags, marks: Marks) -> Marks
    ensures { result ≡ stated.one_marks (flags_of flags) marks }
{
    Marks {
        w: marks.w,
        z: flags.z || marks.z,
        dc: flags.dc || marks.dc,
        c: flags.c || marks.c,
    }
}

pub fn with_w(w: bool, marks: Marks) -> Marks
    ensures { result ≡ record marks { w = w } }
{
    Marks { w, ..marks }
}

/// The flags are bits that an instruction writes.
pub fn with_bits(flags: Flags, facts: Behind) -> Behind
    ensures { result ≡ stated.with_bits (flags_of flags) facts }
{
    Behind {
        carry_bit: flags.c || facts.carry_bit,
        zero_bit: flags.z || facts.zero_bit,
        ..facts
    }
}

impl<'a> Here<'a> {
    pub fn marks(&self) -> Marks
        ensures { result ≡ marks_at self.now }
    {
        let apart = &self.note.apart;
        Marks {
            w: apart.w,
            z: apart.z,
            dc: apart.dc,
            c: apart.c,
        }
    }

    /// Bytes differ as before.
    pub fn differing(&self, marks: Marks) -> Differs
        ensures { result ≡ stated.with_marks marks }
    {
        Differs {
            marks,
            bytes: Bytes::Same,
        }
    }

    /// Both write where this leads.
    pub fn both_write(&self, aim: Aim, marks: Marks) -> Differs
        ensures { apart_by (apart_at self.now) result ≡ changes.same_byte (aim_of aim) (apart_by (apart_at self.now) (stated.with_marks marks)) }
    {
        match aim {
            Aim::ToByte(byte) => Differs {
                marks,
                bytes: Bytes::Less(byte),
            },
            Aim::ToFsr => self.differing(marks),
            Aim::ToEvent => self.differing(marks),
            Aim::Through => self.differing(marks),
            Aim::Nowhere => self.differing(marks),
        }
    }

    /// Only one of them writes a byte.
    pub fn one_writes(&self, byte: usize, marks: Marks) -> Differs
        ensures { apart_by (apart_at self.now) result ≡ changes.other_byte byte (apart_by (apart_at self.now) (stated.with_marks marks)) }
    {
        Differs {
            marks,
            bytes: Bytes::More(byte),
        }
    }

    pub fn is_held(&self, byte: usize) -> bool
        ensures { result ≡ (facts_at self.now).held byte }
    {
        self.note.facts.held.contains(byte)
    }

    pub fn number_of(&self, byte: usize) -> Option<u8>
        ensures { result ≡ (facts_at self.now).known byte }
    {
        number_at(&self.note.facts.known, byte)
    }

    /// Whether a byte is a copy of another one.
    pub fn is_twin(&self, copy: usize, origin: usize) -> bool
        ensures { result ≡ (facts_at self.now).twin copy origin }
    {
        match origin_at(&self.note.facts.twins, copy) {
            None => false,
            Some(other) => (other as usize) == origin,
        }
    }

    /// Whether W is known to be what a byte holds.
    fn is_in_w(&self, byte: usize) -> bool
        ensures { result ≡ changes.is_in_w (facts_at self.now) byte }
    {
        self.is_held(byte) || same_known(self.note.facts.number, self.number_of(byte))
    }

    /// Only one of them reads a byte to W.
    pub fn one_moves(&self, byte: usize) -> Differs
        ensures { apart_by (apart_at self.now) result ≡ changes.one_moves (facts_at self.now) byte (apart_at self.now) }
    {
        let is_in_w = self.is_in_w(byte);
        let marks = self.marks();
        self.differing(Marks {
            w: if is_in_w { marks.w } else { true },
            z: if is_in_w && self.note.facts.zero {
                marks.z
            } else {
                true
            },
            dc: marks.dc,
            c: marks.c,
        })
    }

    /// Only one of them stores W in a byte.
    pub fn one_stores(&self, byte: usize) -> Differs
        ensures { apart_by (apart_at self.now) result ≡ changes.one_stores (facts_at self.now) byte (apart_at self.now) }
    {
        if self.is_held(byte) {
            self.differing(self.marks())
        } else {
            self.one_writes(byte, self.marks())
        }
    }

    /// W stays what it is behind an operation on a byte of which this is known.
    pub fn stays(&self, op: FileOperation, byte: Option<u8>) -> bool
        ensures { result ≡ changes.stays op byte (facts_at self.now) }
    {
        let number = self.note.facts.number;
        leaves_w(op, byte) || same_known(computed(op, number, byte), number)
    }

    /// Only one of them does an operation on W and a byte of which this is known.
    pub fn one_works(&self, op: FileOperation, byte: Option<u8>) -> Differs
        ensures { apart_by (apart_at self.now) result ≡ changes.one_works op byte (facts_at self.now) (apart_at self.now) }
    {
        let flags = flags_in(op);
        let before = self.marks();
        let marks = one_sets(flags, before);
        if self.stays(op, byte) {
            self.differing(Marks {
                z: flags.z && !self.note.facts.zero || before.z,
                ..marks
            })
        } else {
            self.differing(with_w(true, marks))
        }
    }

    /// Only one of them writes the result of an operation to a byte.
    pub fn one_result(&self, op: FileOperation, byte: usize) -> Differs
        ensures { apart_by (apart_at self.now) result ≡ changes.one_writes op byte (facts_at self.now) (apart_at self.now) }
    {
        let marks = one_sets(flags_in(op), self.marks());
        let known = self.number_of(byte);
        if same_known(computed(op, self.note.facts.number, known), known) {
            self.differing(marks)
        } else {
            self.one_writes(byte, marks)
        }
    }

    /// Only one of them clears a byte.
    pub fn one_clears(&self, byte: usize) -> Differs
        ensures { apart_by (apart_at self.now) result ≡ changes.one_clears (facts_at self.now) byte (apart_at self.now) }
    {
        let marks = self.marks();
        let cleared = Marks {
            w: marks.w,
            z: true,
            dc: marks.dc,
            c: marks.c,
        };
        if is_number(self.number_of(byte), 0) {
            self.differing(cleared)
        } else {
            self.one_writes(byte, cleared)
        }
    }

    /// A flag by the number of its bit becomes one that may differ or not.
    pub fn with_flag(&self, bit: u8, differs: bool) -> Differs
        ensures { apart_by (apart_at self.now) result ≡ right.with_flag bit differs (apart_at self.now) }
    {
        let marks = self.marks();
        if bit == 0 {
            self.differing(Marks {
                c: differs,
                ..marks
            })
        } else if bit == 1 {
            self.differing(Marks {
                dc: differs,
                ..marks
            })
        } else if bit == 2 {
            self.differing(Marks {
                z: differs,
                ..marks
            })
        } else {
            self.differing(marks)
        }
    }

    /// Whether a flag may differ, by the number of its bit.
    pub fn flag_apart(&self, bit: u8) -> bool
        ensures { result ≡ right.flag_apart bit (apart_at self.now) }
    {
        if bit == 0 {
            self.note.apart.c
        } else if bit == 1 {
            self.note.apart.dc
        } else if bit == 2 {
            self.note.apart.z
        } else {
            false
        }
    }

    fn dropped_number(&self, op: LiteralOperation, number: u8) -> Differs
        ensures { apart_by (apart_at self.now) result ≡ right.dropped_number (facts_at self.now) (apart_at self.now) op (numbers.file_for op) number }
    {
        match file_for(op) {
            None => self.differing(with_w(true, one_sets(literal_flags(op), self.marks()))),
            Some(file) => self.one_works(file, Some(number)),
        }
    }

    fn dropped_move(&self, number: u8) -> Differs
        ensures { apart_by (apart_at self.now) result ≡ right.dropped_literal (facts_at self.now) (apart_at self.now) LiteralOperation.Movlw (Literal.Number number) }
    {
        let marks = self.marks();
        if is_number(self.note.facts.number, number) {
            self.differing(marks)
        } else {
            self.differing(with_w(true, marks))
        }
    }

    /// What may differ behind an operation on W and a number that only one of them does.
    pub fn dropped_literal(&self, op: LiteralOperation, value: Literal) -> Differs
        ensures { apart_by (apart_at self.now) result ≡ right.dropped_literal (facts_at self.now) (apart_at self.now) op value }
    {
        let other = self.differing(with_w(true, one_sets(literal_flags(op), self.marks())));
        match value {
            Literal::Low(_) => other,
            Literal::High(_) => other,
            Literal::Number(number) => match op {
                LiteralOperation::Movlw => self.dropped_move(number),
                LiteralOperation::Addlw => self.dropped_number(op, number),
                LiteralOperation::Andlw => self.dropped_number(op, number),
                LiteralOperation::Iorlw => self.dropped_number(op, number),
                LiteralOperation::Retlw => self.dropped_number(op, number),
                LiteralOperation::Sublw => self.dropped_number(op, number),
                LiteralOperation::Xorlw => self.dropped_number(op, number),
            },
        }
    }

    fn moved_literal(&self, byte: usize) -> Differs
        ensures { apart_by (apart_at self.now) result ≡ right.literal_apart (facts_at self.now) (apart_at self.now) FileOperation.Movf byte }
    {
        let marks = self.marks();
        self.differing(Marks {
            w: false,
            z: if self.is_held(byte) && self.note.facts.zero {
                marks.z
            } else {
                true
            },
            dc: marks.dc,
            c: marks.c,
        })
    }

    /// What may differ behind an operation on W and a number that stands in place of one on a byte.
    pub fn literal_apart(&self, op: FileOperation, byte: usize) -> Differs
        ensures { apart_by (apart_at self.now) result ≡ right.literal_apart (facts_at self.now) (apart_at self.now) op byte }
    {
        let other = self.differing(with_w(false, both_set(flags_in(op), self.marks())));
        match op {
            FileOperation::Movf => self.moved_literal(byte),
            FileOperation::Addwf => other,
            FileOperation::Andwf => other,
            FileOperation::Comf => other,
            FileOperation::Decf => other,
            FileOperation::Decfsz => other,
            FileOperation::Incf => other,
            FileOperation::Incfsz => other,
            FileOperation::Iorwf => other,
            FileOperation::Rlf => other,
            FileOperation::Rrf => other,
            FileOperation::Subwf => other,
            FileOperation::Swapf => other,
            FileOperation::Xorwf => other,
        }
    }

    // ---- facts

    /// As before, but for what is said of Z.
    pub fn unchanged(&self, zero: bool) -> Behind
        ensures { facts_by (hidden_at self.now) (facts_at self.now) result ≡ record (facts_at self.now) { zero = zero } }
    {
        Behind {
            number: self.note.facts.number,
            held: Held::Same,
            zero,
            known: Known::Same,
            twins: Twins::Same,
            carry_bit: self.note.facts.carry_bit,
            zero_bit: self.note.facts.zero_bit,
        }
    }

    /// What is lost where an operand is written.
    pub fn lost(&self, aim: Aim, zero: bool) -> Behind
        ensures { facts_by (hidden_at self.now) (facts_at self.now) result ≡ changes.lost (hidden_at self.now) (aim_of aim) (record (facts_at self.now) { zero = zero }) }
    {
        match aim {
            Aim::ToByte(byte) => Behind {
                number: self.note.facts.number,
                held: Held::Less(byte),
                zero,
                known: Known::Put(byte, None),
                twins: Twins::Less(byte),
                carry_bit: self.note.facts.carry_bit,
                zero_bit: self.note.facts.zero_bit,
            },
            Aim::Through => Behind {
                number: self.note.facts.number,
                held: Held::Hidden,
                zero,
                known: Known::Hidden,
                twins: Twins::Hidden,
                carry_bit: self.note.facts.carry_bit,
                zero_bit: self.note.facts.zero_bit,
            },
            Aim::ToFsr => self.unchanged(zero),
            Aim::ToEvent => self.unchanged(zero),
            Aim::Nowhere => self.unchanged(zero),
        }
    }

    /// W may have changed.
    pub fn without_w(&self) -> Behind
        ensures { facts_by (hidden_at self.now) (facts_at self.now) result ≡ changes.without_w (facts_at self.now) }
    {
        Behind {
            number: None,
            held: Held::Nothing,
            zero: false,
            known: Known::Same,
            twins: Twins::Same,
            carry_bit: self.note.facts.carry_bit,
            zero_bit: self.note.facts.zero_bit,
        }
    }

    /// An operand is read to W.
    pub fn moved(&self, aim: Aim) -> Behind
        ensures { facts_by (hidden_at self.now) (facts_at self.now) result ≡ changes.moved (aim_of aim) (facts_at self.now) }
    {
        let unknown = Behind {
            number: None,
            held: Held::Nothing,
            zero: true,
            known: Known::Same,
            twins: Twins::Same,
            carry_bit: self.note.facts.carry_bit,
            zero_bit: true,
        };
        match aim {
            Aim::ToByte(byte) => Behind {
                number: self.number_of(byte),
                held: Held::Only(byte),
                zero: true,
                known: Known::Same,
                twins: Twins::Same,
                carry_bit: self.note.facts.carry_bit,
                zero_bit: true,
            },
            Aim::ToFsr => unknown,
            Aim::ToEvent => unknown,
            Aim::Through => unknown,
            Aim::Nowhere => unknown,
        }
    }

    // A result is in W, with what Z says of it.
    fn with_number(&self, number: Option<u8>, zero: bool) -> Behind
        ensures { facts_by (hidden_at self.now) (facts_at self.now) result ≡ changes.with_number number zero (facts_at self.now) }
    {
        Behind {
            number,
            held: match number {
                None => Held::Nothing,
                Some(number) => Held::Like(number),
            },
            zero,
            known: Known::Same,
            twins: Twins::Same,
            carry_bit: self.note.facts.carry_bit,
            zero_bit: self.note.facts.zero_bit,
        }
    }

    fn worked_by(&self, op: FileOperation, byte: Option<u8>) -> Behind
        ensures { facts_by (hidden_at self.now) (facts_at self.now) result ≡ changes.worked_by op byte (facts_at self.now) }
    {
        if leaves_w(op, byte) {
            self.unchanged(true)
        } else {
            self.with_number(computed(op, self.note.facts.number, byte), flags_in(op).z)
        }
    }

    // An operation on W and a byte of which this is known.
    fn worked(&self, op: FileOperation, byte: Option<u8>) -> Behind
        ensures { facts_by (hidden_at self.now) (facts_at self.now) result ≡ changes.worked op byte (facts_at self.now) }
    {
        with_bits(flags_in(op), self.worked_by(op, byte))
    }

    /// What is known of the byte that is read.
    pub fn number_at(&self, aim: Aim) -> Option<u8>
        ensures { result ≡ changes.number_at (aim_of aim) (facts_at self.now) }
    {
        match aim {
            Aim::ToByte(byte) => self.number_of(byte),
            Aim::ToFsr => None,
            Aim::ToEvent => None,
            Aim::Through => None,
            Aim::Nowhere => None,
        }
    }

    /// Behind an operation whose result goes to W.
    pub fn after_to_w(&self, op: FileOperation, aim: Aim) -> Behind
        ensures { facts_by (hidden_at self.now) (facts_at self.now) result ≡ changes.after_to_w op (aim_of aim) (facts_at self.now) }
    {
        let byte = self.number_at(aim);
        match op {
            FileOperation::Movf => self.moved(aim),
            FileOperation::Addwf => self.worked(op, byte),
            FileOperation::Andwf => self.worked(op, byte),
            FileOperation::Comf => self.worked(op, byte),
            FileOperation::Decf => self.worked(op, byte),
            FileOperation::Decfsz => self.worked(op, byte),
            FileOperation::Incf => self.worked(op, byte),
            FileOperation::Incfsz => self.worked(op, byte),
            FileOperation::Iorwf => self.worked(op, byte),
            FileOperation::Rlf => self.worked(op, byte),
            FileOperation::Rrf => self.worked(op, byte),
            FileOperation::Subwf => self.worked(op, byte),
            FileOperation::Swapf => self.worked(op, byte),
            FileOperation::Xorwf => self.worked(op, byte),
        }
    }

    // A number that may be known is written.
    fn learned(&self, aim: Aim, number: Option<u8>) -> Behind
        ensures { facts_by (hidden_at self.now) (facts_at self.now) result ≡ changes.learned (hidden_at self.now) (aim_of aim) number (changes.without_zero (facts_at self.now)) }
    {
        match aim {
            Aim::ToByte(byte) => Behind {
                number: self.note.facts.number,
                held: Held::Less(byte),
                zero: false,
                known: Known::Put(byte, number),
                twins: Twins::Less(byte),
                carry_bit: self.note.facts.carry_bit,
                zero_bit: self.note.facts.zero_bit,
            },
            Aim::ToFsr => self.lost(aim, false),
            Aim::ToEvent => self.lost(aim, false),
            Aim::Through => self.lost(aim, false),
            Aim::Nowhere => self.lost(aim, false),
        }
    }

    /// Behind an operation whose result is written.
    pub fn after_to_file(&self, op: FileOperation, aim: Aim) -> Behind
        ensures { facts_by (hidden_at self.now) (facts_at self.now) result ≡ changes.after_to_file (hidden_at self.now) op (aim_of aim) (facts_at self.now) }
    {
        let number = computed(op, self.note.facts.number, self.number_at(aim));
        with_bits(flags_in(op), self.learned(aim, number))
    }

    /// W is stored.
    pub fn stored(&self, aim: Aim) -> Behind
        ensures { facts_by (hidden_at self.now) (facts_at self.now) result ≡ changes.stored (hidden_at self.now) (aim_of aim) (facts_at self.now) }
    {
        match aim {
            Aim::ToByte(byte) => Behind {
                number: self.note.facts.number,
                held: Held::More(byte),
                zero: self.note.facts.zero,
                known: Known::Put(byte, self.note.facts.number),
                twins: Twins::Stored(byte),
                carry_bit: self.note.facts.carry_bit,
                zero_bit: self.note.facts.zero_bit,
            },
            Aim::ToFsr => self.lost(aim, self.note.facts.zero),
            Aim::ToEvent => self.lost(aim, self.note.facts.zero),
            Aim::Through => self.lost(aim, self.note.facts.zero),
            Aim::Nowhere => self.lost(aim, self.note.facts.zero),
        }
    }

    /// An operand is cleared.
    pub fn cleared(&self, aim: Aim) -> Behind
        ensures { facts_by (hidden_at self.now) (facts_at self.now) result ≡ changes.learned (hidden_at self.now) (aim_of aim) (Some 0) (changes.without_zero (facts_at self.now)) }
    {
        self.learned(aim, Some(0))
    }

    /// W is cleared.
    pub fn cleared_w(&self) -> Behind
        ensures { facts_by (hidden_at self.now) (facts_at self.now) result ≡ stated.cleared_w (facts_at self.now) }
    {
        Behind {
            number: Some(0),
            held: Held::Nothing,
            zero: true,
            known: Known::Same,
            twins: Twins::Same,
            carry_bit: self.note.facts.carry_bit,
            zero_bit: self.note.facts.zero_bit,
        }
    }

    fn after_number(&self, op: LiteralOperation, number: u8) -> Behind
        ensures { facts_by (hidden_at self.now) (facts_at self.now) result ≡ right.after_number (facts_at self.now) (numbers.file_for op) number }
    {
        match file_for(op) {
            None => self.without_w(),
            Some(file) => self.worked(file, Some(number)),
        }
    }

    /// Behind an operation on W and a number.
    pub fn after_literal(&self, op: LiteralOperation, value: Literal) -> Behind
        ensures { facts_by (hidden_at self.now) (facts_at self.now) result ≡ right.after_literal (facts_at self.now) op value }
    {
        match value {
            Literal::Low(_) => self.without_w(),
            Literal::High(_) => self.without_w(),
            Literal::Number(number) => match op {
                LiteralOperation::Movlw => self.with_number(Some(number), false),
                LiteralOperation::Addlw => self.after_number(op, number),
                LiteralOperation::Andlw => self.after_number(op, number),
                LiteralOperation::Iorlw => self.after_number(op, number),
                LiteralOperation::Retlw => self.after_number(op, number),
                LiteralOperation::Sublw => self.after_number(op, number),
                LiteralOperation::Xorlw => self.after_number(op, number),
            },
        }
    }
}
