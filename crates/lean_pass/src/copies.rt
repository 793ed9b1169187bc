//! Bytes that are copies of others, and what is read in their place.

ghost use Rattle.std.specs.Prelude.{ℕ, ◌≡◌, ◌+◌, ◌<◌, ◌^◌, ◌-◌, ◌&&◌, not, true, false, length, nat_eq, Some, None, if◌then◌else◌};
ghost use Rattle.sym_code.specs.Layout as layouts;
ghost use Rattle.lean_code.specs.Rows as certified;
ghost use Rattle.lean_code.specs.Changes as changes;
ghost use Rattle.lean_code.specs.Checked as listed;
ghost use Rattle.code_place.specs.Layouts.{layout_of};
ghost use Rattle.lean_pass.specs.Behind.{sketch_at, block_at, note_at, facts_at, apart_at, hidden_at, apart_by, twins_by};
ghost use Rattle.lean_pass.specs.Owners.{aim_of};
ghost use Rattle.lean_pass.specs.Rules as rules;
ghost use Rattle.lean_pass.specs.Views.{knowns, rows_of};

use crate::behind::{Here, Twins, both_set, flags_in, with_bits, with_w};
use crate::computing::{way_of, way_of_bit};
use crate::dropping::aim_byte;
use crate::operations::may_skip;
use crate::owners::{Aim, Ground};
use crate::rows::Row;
use crate::shown::carries;
use core_code::Byte;
use sym_code::{BitOperation, FileOperation, Into, Operand, Sym};

// The byte so many bytes before it in its frame.
fn byte_before(before: u16, byte: Byte) -> Byte
    ensures { result ≡ certified.byte_before before byte }
{
    match byte {
        Byte::Frame { copy, offset } => Byte::Frame {
            copy,
            offset: offset.saturating_sub(before),
        },
        Byte::Static { .. } => byte,
        Byte::Result { .. } => byte,
        Byte::Device { .. } => byte,
    }
}

/// The operand so many bytes before it in its frame.
pub fn operand_before(before: u16, operand: Operand) -> Operand
    ensures { result ≡ certified.operand_before before operand }
{
    match operand {
        Operand::Byte(byte) => Operand::Byte(byte_before(before, byte)),
        Operand::Register(_) => operand,
        Operand::Saved(_) => operand,
    }
}

impl<'a> Ground<'a> {
    fn are_both_near(&self, inside: bool, one: usize, other: usize) -> bool
        ensures { result ≡ (changes.is_near inside (layouts.owner (layout_of self.now.placed.now) one) && changes.is_near inside (layouts.owner (layout_of self.now.placed.now) other)) }
    {
        self.is_near(inside, one) && self.is_near(inside, other)
    }

    /// Whether the other thread can change no copy, and no byte of which one is.
    pub fn are_twins_near(&self, inside: bool, list: &[Option<u16>], first: usize) -> bool
        requires { first + length list.now < 2 ^ 64 }
        ensures { result ≡ listed.all_twins (λ a. changes.is_near inside (layouts.owner (layout_of self.now.placed.now) a)) (knowns first list.now) }
    {
        match list {
            [] => true,
            [twin, rest @ ..] => match *twin {
                None => self.are_twins_near(inside, rest, first + 1),
                Some(origin) => {
                    if self.are_both_near(inside, first, origin as usize) {
                        self.are_twins_near(inside, rest, first + 1)
                    } else {
                        false
                    }
                }
            },
        }
    }
}

impl<'a> Here<'a> {
    // Whether a byte is a copy of another one, behind an instruction.
    fn is_copy(&self, twins: Twins, copy: usize, origin: usize) -> bool
        ensures { result ≡ twins_by (hidden_at self.now) (facts_at self.now) twins copy origin }
    {
        match twins {
            Twins::Same => self.is_twin(copy, origin),
            Twins::Less(byte) => if copy == byte {
                false
            } else {
                if origin == byte {
                    false
                } else {
                    self.is_twin(copy, origin)
                }
            },
            Twins::Hidden => {
                if self.sketch.hidden.contains(copy) {
                    if self.sketch.hidden.contains(origin) {
                        self.is_twin(copy, origin)
                    } else {
                        false
                    }
                } else {
                    false
                }
            }
            Twins::Nothing => false,
            Twins::Stored(byte) => if origin == byte {
                false
            } else {
                if copy == byte {
                    self.is_held(origin)
                } else {
                    self.is_twin(copy, origin)
                }
            },
        }
    }

    /// Whether bytes are copies that are said to be, behind an instruction.
    pub fn are_copies(&self, twins: Twins, list: &[Option<u16>], first: usize) -> bool
        requires { first + length list.now < 2 ^ 64 }
        ensures { result ≡ listed.gives_twins (twins_by (hidden_at self.now) (facts_at self.now) twins) (knowns first list.now) }
    {
        match list {
            [] => true,
            [wanted, rest @ ..] => match *wanted {
                None => self.are_copies(twins, rest, first + 1),
                Some(origin) => {
                    if self.is_copy(twins, first, origin as usize) {
                        self.are_copies(twins, rest, first + 1)
                    } else {
                        false
                    }
                }
            },
        }
    }

    // ---- another byte in an operand's place

    fn reads_byte(&self, rest: &[Row], op: FileOperation, copy: usize, origin: usize) -> bool
        ensures { result ≡ listed.reads_for (sketch_at self.now) (block_at self.now) (note_at self.now) (rows_of rest.now) op (changes.ToByte copy) (changes.ToByte origin) }
    {
        let apart = self.differing(with_w(false, both_set(flags_in(op), self.marks())));
        self.uses(op)
            && (self.is_twin(copy, origin)
                && (self.is_same(Aim::ToByte(origin))
                    && self.leads(
                        rest,
                        way_of(op, self.number_of(copy)),
                        self.after_to_w(op, Aim::ToByte(copy)),
                        apart,
                    )))
    }

    #[tactic(auto, using(crate::proofs::Copying::reads_is))]
    fn reads_for(&self, rest: &[Row], op: FileOperation, copy: Aim, origin: Aim) -> bool
        ensures { result ≡ listed.reads_for (sketch_at self.now) (block_at self.now) (note_at self.now) (rows_of rest.now) op (aim_of copy) (aim_of origin) }
    {
        match aim_byte(copy) {
            Some(byte) => match aim_byte(origin) {
                Some(other) => self.reads_byte(rest, op, byte, other),
                None => false,
            },
            None => false,
        }
    }

    fn narrows_copy(
        &self,
        rest: &[Row],
        op: FileOperation,
        copy: usize,
        read: usize,
        origin: usize,
    ) -> bool
        ensures { result ≡ listed.reads_to (sketch_at self.now) (block_at self.now) (note_at self.now) (rows_of rest.now) op (changes.ToByte copy) (changes.ToByte read) (changes.ToByte origin) }
    {
        self.uses(op)
            && (self.is_twin(copy, origin)
                && (self.is_same(Aim::ToByte(origin))
                    && (!may_skip(op)
                        && (read == copy
                            && self.expects_by(
                                carries(op, copy),
                                rest,
                                with_bits(flags_in(op), self.lost(Aim::ToByte(copy), false)),
                                self.narrowed(op, copy),
                                Some(copy),
                            )))))
    }

    fn narrows_read(
        &self,
        rest: &[Row],
        op: FileOperation,
        copy: usize,
        read: Aim,
        origin: Aim,
    ) -> bool
        ensures { result ≡ rules.on_two (listed.reads_to (sketch_at self.now) (block_at self.now) (note_at self.now) (rows_of rest.now) op) copy (rules.aim_byte (aim_of read)) (rules.aim_byte (aim_of origin)) }
    {
        match aim_byte(read) {
            Some(byte) => match aim_byte(origin) {
                Some(other) => self.narrows_copy(rest, op, copy, byte, other),
                None => false,
            },
            None => false,
        }
    }

    #[tactic(auto, using(crate::proofs::Copying::reads_to_is))]
    fn reads_to(&self, rest: &[Row], op: FileOperation, copy: Aim, read: Aim, origin: Aim) -> bool
        ensures { result ≡ listed.reads_to (sketch_at self.now) (block_at self.now) (note_at self.now) (rows_of rest.now) op (aim_of copy) (aim_of read) (aim_of origin) }
    {
        match aim_byte(copy) {
            Some(byte) => self.narrows_read(rest, op, byte, read, origin),
            None => false,
        }
    }

    fn tests_byte(
        &self,
        rest: &[Row],
        op: BitOperation,
        bit: u8,
        copy: usize,
        origin: usize,
    ) -> bool
        ensures { result ≡ listed.tests_for (sketch_at self.now) (block_at self.now) (note_at self.now) (rows_of rest.now) op bit (changes.ToByte copy) (changes.ToByte origin) }
    {
        self.is_twin(copy, origin)
            && (self.is_same(Aim::ToByte(origin))
                && self.leads(
                    rest,
                    way_of_bit(op, self.number_of(copy), bit),
                    self.unchanged(self.note.facts.zero),
                    self.differing(self.marks()),
                ))
    }

    #[tactic(auto, using(crate::proofs::Copying::tests_is))]
    fn tests_for(&self, rest: &[Row], op: BitOperation, bit: u8, copy: Aim, origin: Aim) -> bool
        ensures { result ≡ listed.tests_for (sketch_at self.now) (block_at self.now) (note_at self.now) (rows_of rest.now) op bit (aim_of copy) (aim_of origin) }
    {
        match aim_byte(copy) {
            Some(byte) => match aim_byte(origin) {
                Some(other) => self.tests_byte(rest, op, bit, byte, other),
                None => false,
            },
            None => false,
        }
    }

    fn reads_bit(&self, rest: &[Row], op: BitOperation, bit: u8, copy: Aim, origin: Aim) -> bool
        ensures { result ≡ listed.reads_bit (sketch_at self.now) (block_at self.now) (note_at self.now) (rows_of rest.now) op bit (aim_of copy) (aim_of origin) }
    {
        match op {
            BitOperation::Btfsc => self.tests_for(rest, op, bit, copy, origin),
            BitOperation::Btfss => self.tests_for(rest, op, bit, copy, origin),
            BitOperation::Bcf => false,
            BitOperation::Bsf => false,
        }
    }

    fn reads_file(
        &self,
        rest: &[Row],
        op: FileOperation,
        operand: Operand,
        into: Into,
        origin: Aim,
    ) -> bool
        ensures { result ≡ rules.reads_file (sketch_at self.now) (block_at self.now) (note_at self.now) (rows_of rest.now) op operand into (aim_of origin) }
    {
        match into {
            Into::W => self.reads_for(rest, op, self.read(operand), origin),
            Into::File => self.reads_to(rest, op, self.write(operand), self.read(operand), origin),
        }
    }

    /// Whether a byte so many bytes before its own may be read in an instruction's place.
    #[tactic(auto, using(crate::proofs::Copying::file_is))]
    pub fn is_read(&self, rest: &[Row], before: u16, sym: Sym) -> bool
        ensures { result ≡ listed.is_read (sketch_at self.now) (block_at self.now) (note_at self.now) (rows_of rest.now) before sym }
    {
        match sym {
            Sym::File { op, file, into } => {
                let origin = self.read(operand_before(before, file));
                self.reads_file(rest, op, file, into, origin)
            }
            Sym::Bit { op, file, bit } => {
                let origin = self.read(operand_before(before, file));
                self.reads_bit(rest, op, bit, self.read(file), origin)
            }
            Sym::Label(_) => true,
            _ => false,
        }
    }
}
