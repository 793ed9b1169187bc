//! Instructions that are left out, or become others.

ghost use Rattle.std.specs.Prelude.{ℕ, ◌≡◌, ◌&&◌, ◌||◌, not, true, false, nat_eq, nat_lt, Some, None, option_map, if◌then◌else◌};
ghost use Rattle.sym_code.specs.Programs as programs;
ghost use Rattle.lean_code.specs.Rows as certified;
ghost use Rattle.lean_code.specs.Changes as changes;
ghost use Rattle.lean_code.specs.Checked as listed;
ghost use Rattle.lean_code.specs.Right as right;
ghost use Rattle.lean_pass.specs.Behind.{sketch_at, block_at, note_at, facts_at, apart_at, apart_by};
ghost use Rattle.lean_pass.specs.Owners.{aim_of};
ghost use Rattle.lean_pass.specs.Rules as rules;
ghost use Rattle.lean_pass.specs.Views.{act_of, apart_of, block_of, note_of, rows_of, set_of};

use crate::behind::{
    Differs, Here, Marks, both_set, flags_in, is_number, one_sets, with_bits, with_w,
};
use crate::computing::{computed, runs_on, way_of, way_of_bit};
use crate::keeping::is_status;
use crate::operations::{is_retlw, literal_for, may_skip, uses_w};
use crate::owners::Aim;
use crate::rows::{Act, Row};
use crate::shown::{carries, leaves_carry, reports, skips_at};
use crate::walk::{label_at, place_of};
use sym_code::{
    BitOperation, FileOperation, Into, Label, Literal, LiteralOperation, Operand, PlainOperation,
    Sym, Target,
};

/// The general byte where an operand leads.
pub fn aim_byte(aim: Aim) -> Option<usize>
    ensures { result ≡ rules.aim_byte (aim_of aim) }
{
    match aim {
        Aim::ToByte(byte) => Some(byte),
        Aim::ToFsr => None,
        Aim::ToEvent => None,
        Aim::Through => None,
        Aim::Nowhere => None,
    }
}

fn is_addlw(op: LiteralOperation) -> bool
    ensures { result ≡ listed.same_operation LiteralOperation.Addlw op }
{
    match op {
        LiteralOperation::Addlw => true,
        _ => false,
    }
}

fn is_andlw(op: LiteralOperation) -> bool
    ensures { result ≡ listed.same_operation LiteralOperation.Andlw op }
{
    match op {
        LiteralOperation::Andlw => true,
        _ => false,
    }
}

fn is_iorlw(op: LiteralOperation) -> bool
    ensures { result ≡ listed.same_operation LiteralOperation.Iorlw op }
{
    match op {
        LiteralOperation::Iorlw => true,
        _ => false,
    }
}

fn is_movlw(op: LiteralOperation) -> bool
    ensures { result ≡ listed.same_operation LiteralOperation.Movlw op }
{
    match op {
        LiteralOperation::Movlw => true,
        _ => false,
    }
}

fn is_move(op: FileOperation) -> bool
    ensures { result ≡ rules.is_move op }
{
    match op {
        FileOperation::Movf => true,
        _ => false,
    }
}

fn is_sublw(op: LiteralOperation) -> bool
    ensures { result ≡ listed.same_operation LiteralOperation.Sublw op }
{
    match op {
        LiteralOperation::Sublw => true,
        _ => false,
    }
}

fn is_xorlw(op: LiteralOperation) -> bool
    ensures { result ≡ listed.same_operation LiteralOperation.Xorlw op }
{
    match op {
        LiteralOperation::Xorlw => true,
        _ => false,
    }
}

fn is_the_operation(one: LiteralOperation, other: LiteralOperation) -> bool
    ensures { result ≡ listed.same_operation one other }
{
    match one {
        LiteralOperation::Addlw => is_addlw(other),
        LiteralOperation::Andlw => is_andlw(other),
        LiteralOperation::Iorlw => is_iorlw(other),
        LiteralOperation::Movlw => is_movlw(other),
        LiteralOperation::Sublw => is_sublw(other),
        LiteralOperation::Xorlw => is_xorlw(other),
        LiteralOperation::Retlw => false,
    }
}

fn is_operation(wanted: Option<LiteralOperation>, new: LiteralOperation) -> bool
    ensures { result ≡ listed.is_operation wanted new }
{
    match wanted {
        None => false,
        Some(op) => is_the_operation(op, new),
    }
}

impl<'a> Here<'a> {
    /// What may differ behind an operation on a byte whose result goes to W on one machine.
    pub fn narrowed(&self, op: FileOperation, byte: usize) -> Differs
        ensures { apart_by (apart_at self.now) result ≡ changes.other_w (changes.other_byte byte (changes.both_set (changes.flags_in op) (apart_at self.now))) }
    {
        self.one_writes(byte, with_w(true, both_set(flags_in(op), self.marks())))
    }

    fn drops_carried(&self, rest: &[Row], byte: usize, carry: usize) -> bool
        ensures { result ≡ listed.drops_carried (sketch_at self.now) (block_at self.now) (note_at self.now) (rows_of rest.now) byte carry (nat_eq carry byte) }
    {
        let facts = self.moved(Aim::ToByte(byte));
        if carry == byte {
            let marks = self.marks();
            let apart = self.differing(Marks {
                w: false,
                z: !reports(self.note.shown),
                dc: marks.dc,
                c: marks.c,
            });
            let ties = self.ties_left(None, self.is_held(byte));
            self.expects_by(ties, rest, facts, apart, None)
        } else {
            let ties = self.ties_left(Some(carry), self.is_held(byte));
            self.expects_by(ties, rest, facts, self.one_moves(byte), None)
        }
    }

    fn drops_uncarried(&self, rest: &[Row], byte: usize) -> bool
        ensures { result ≡ listed.drops_move (sketch_at self.now) (block_at self.now) (note_at self.now) (rows_of rest.now) byte None }
    {
        let ties = self.ties_left(None, self.is_held(byte));
        let facts = self.moved(Aim::ToByte(byte));
        self.expects_by(ties, rest, facts, self.one_moves(byte), None)
    }

    fn drops_move(&self, rest: &[Row], byte: usize) -> bool
        ensures { result ≡ listed.drops_move (sketch_at self.now) (block_at self.now) (note_at self.now) (rows_of rest.now) byte (note_at self.now).carry }
    {
        match self.note.carry {
            None => self.drops_uncarried(rest, byte),
            Some(carry) => self.drops_carried(rest, byte, carry),
        }
    }

    // What may differ behind an operation that only one of them does, and that may leave the carry.
    fn works_apart(&self, op: FileOperation, byte: Option<u8>) -> Differs
        ensures { apart_by (apart_at self.now) result ≡ changes.same_carry (changes.leaves_carry op byte (note_at self.now).shown) (changes.one_works op byte (facts_at self.now) (apart_at self.now)) }
    {
        let apart = self.one_works(op, byte);
        if leaves_carry(op, byte, self.note.shown) {
            Differs {
                marks: Marks {
                    c: false,
                    ..apart.marks
                },
                bytes: apart.bytes,
            }
        } else {
            apart
        }
    }

    fn drops_result(&self, rest: &[Row], op: FileOperation, byte: usize) -> bool
        ensures { result ≡ rules.drops_result (sketch_at self.now) (block_at self.now) (note_at self.now) (rows_of rest.now) op byte }
    {
        let known = self.number_of(byte);
        let ties = self.ties_left(self.note.carry, self.stays(op, known));
        self.passes(
            ties,
            rest,
            way_of(op, known),
            self.after_to_w(op, Aim::ToByte(byte)),
            self.works_apart(op, known),
            None,
        )
    }

    fn drops_byte_to_w(&self, rest: &[Row], op: FileOperation, byte: usize) -> bool
        ensures { result ≡ listed.drops_to_w (sketch_at self.now) (block_at self.now) (note_at self.now) (rows_of rest.now) op (changes.ToByte byte) }
    {
        match op {
            FileOperation::Movf => self.drops_move(rest, byte),
            FileOperation::Addwf => self.drops_result(rest, op, byte),
            FileOperation::Andwf => self.drops_result(rest, op, byte),
            FileOperation::Comf => self.drops_result(rest, op, byte),
            FileOperation::Decf => self.drops_result(rest, op, byte),
            FileOperation::Decfsz => self.drops_result(rest, op, byte),
            FileOperation::Incf => self.drops_result(rest, op, byte),
            FileOperation::Incfsz => self.drops_result(rest, op, byte),
            FileOperation::Iorwf => self.drops_result(rest, op, byte),
            FileOperation::Rlf => self.drops_result(rest, op, byte),
            FileOperation::Rrf => self.drops_result(rest, op, byte),
            FileOperation::Subwf => self.drops_result(rest, op, byte),
            FileOperation::Swapf => self.drops_result(rest, op, byte),
            FileOperation::Xorwf => self.drops_result(rest, op, byte),
        }
    }

    #[tactic(auto, using(crate::proofs::Cuts::drops_to_w_is))]
    fn drops_to_w(&self, rest: &[Row], op: FileOperation, aim: Aim) -> bool
        ensures { result ≡ listed.drops_to_w (sketch_at self.now) (block_at self.now) (note_at self.now) (rows_of rest.now) op (aim_of aim) }
    {
        match aim_byte(aim) {
            Some(byte) => self.drops_byte_to_w(rest, op, byte),
            None => false,
        }
    }

    fn drops_to_file(&self, rest: &[Row], op: FileOperation, aim: Aim) -> bool
        ensures { result ≡ listed.drops_to_file (sketch_at self.now) (block_at self.now) (note_at self.now) (rows_of rest.now) op (aim_of aim) }
    {
        match aim {
            Aim::ToByte(byte) => {
                self.passes(
                    self.ties_but(byte),
                    rest,
                    way_of(op, self.number_of(byte)),
                    self.after_to_file(op, aim),
                    self.one_result(op, byte),
                    Some(byte),
                )
            }
            Aim::ToFsr => false,
            Aim::ToEvent => false,
            Aim::Through => false,
            Aim::Nowhere => false,
        }
    }

    fn drops_store(&self, rest: &[Row], aim: Aim) -> bool
        ensures { result ≡ listed.drops_store (sketch_at self.now) (block_at self.now) (note_at self.now) (rows_of rest.now) (aim_of aim) }
    {
        match aim {
            Aim::ToByte(byte) => {
                self.expects_by(
                    self.ties_but(byte),
                    rest,
                    self.stored(aim),
                    self.one_stores(byte),
                    Some(byte),
                )
            }
            Aim::ToFsr => false,
            Aim::ToEvent => false,
            Aim::Through => false,
            Aim::Nowhere => false,
        }
    }

    fn drops_clear(&self, rest: &[Row], aim: Aim) -> bool
        ensures { result ≡ listed.drops_clear (sketch_at self.now) (block_at self.now) (note_at self.now) (rows_of rest.now) (aim_of aim) }
    {
        match aim {
            Aim::ToByte(byte) => {
                self.expects_by(
                    self.ties_but(byte),
                    rest,
                    self.cleared(aim),
                    self.one_clears(byte),
                    Some(byte),
                )
            }
            Aim::ToFsr => false,
            Aim::ToEvent => false,
            Aim::Through => false,
            Aim::Nowhere => false,
        }
    }

    fn drops_change(&self, rest: &[Row], aim: Aim) -> bool
        ensures { result ≡ listed.drops_change (sketch_at self.now) (block_at self.now) (note_at self.now) (rows_of rest.now) (aim_of aim) }
    {
        match aim {
            Aim::ToByte(byte) => {
                let facts = self.lost(aim, self.note.facts.zero);
                self.expects_by(
                    self.ties_but(byte),
                    rest,
                    facts,
                    self.one_writes(byte, self.marks()),
                    Some(byte),
                )
            }
            Aim::ToFsr => false,
            Aim::ToEvent => false,
            Aim::Through => false,
            Aim::Nowhere => false,
        }
    }

    fn drops_skip(&self, rest: &[Row], way: Option<bool>) -> bool
        ensures { result ≡ rules.drops_skip (sketch_at self.now) (block_at self.now) (note_at self.now) (rows_of rest.now) way }
    {
        let facts = self.unchanged(self.note.facts.zero);
        self.passes(
            self.ties(),
            rest,
            way,
            facts,
            self.differing(self.marks()),
            None,
        )
    }

    // A test of a flag tells what that is, each way.
    fn drops_seen(&self, rest: &[Row], op: BitOperation, bit: u8) -> bool
        ensures { result ≡ rules.drops_seen (sketch_at self.now) (block_at self.now) (note_at self.now) (rows_of rest.now) op bit }
    {
        let facts = self.unchanged(self.note.facts.zero);
        let skips = skips_at(op);
        self.passes_both(
            self.ties_seen(bit, !skips),
            self.ties_seen(bit, skips),
            rest,
            facts,
            self.differing(self.marks()),
            None,
        )
    }

    fn drops_test(&self, rest: &[Row], op: BitOperation, aim: Aim, bit: u8) -> bool
        ensures { result ≡ listed.drops_test (sketch_at self.now) (block_at self.now) (note_at self.now) (rows_of rest.now) op (aim_of aim) bit }
    {
        match aim {
            Aim::ToByte(byte) => self.drops_skip(rest, way_of_bit(op, self.number_of(byte), bit)),
            Aim::ToFsr => false,
            Aim::ToEvent => false,
            Aim::Through => false,
            Aim::Nowhere => false,
        }
    }

    fn drops_flag(&self, rest: &[Row], bit: u8) -> bool
        ensures { result ≡ rules.drops_flag (sketch_at self.now) (block_at self.now) (note_at self.now) (rows_of rest.now) bit }
    {
        bit < 3
            && self.expects_by(
                self.ties(),
                rest,
                self.unchanged(false),
                self.with_flag(bit, true),
                None,
            )
    }

    #[tactic(auto, using(crate::proofs::Cuts::drops_bit_is))]
    fn drops_bit(&self, rest: &[Row], op: BitOperation, operand: Operand, bit: u8) -> bool
        ensures { result ≡ listed.drops_bit (sketch_at self.now) (block_at self.now) (note_at self.now) (rows_of rest.now) op operand bit }
    {
        let status = is_status(operand);
        match op {
            BitOperation::Bcf => if status {
                self.drops_flag(rest, bit)
            } else {
                self.drops_change(rest, self.write(operand))
            },
            BitOperation::Bsf => if status {
                self.drops_flag(rest, bit)
            } else {
                self.drops_change(rest, self.write(operand))
            },
            BitOperation::Btfsc => if status {
                self.drops_seen(rest, op, bit)
            } else {
                self.drops_test(rest, op, self.read(operand), bit)
            },
            BitOperation::Btfss => if status {
                self.drops_seen(rest, op, bit)
            } else {
                self.drops_test(rest, op, self.read(operand), bit)
            },
        }
    }

    fn drops_clrw(&self, rest: &[Row]) -> bool
        ensures { result ≡ listed.drops_plain (sketch_at self.now) (block_at self.now) (note_at self.now) (rows_of rest.now) PlainOperation.Clrw }
    {
        let marks = self.marks();
        let apart = self.differing(Marks {
            w: true,
            z: true,
            dc: marks.dc,
            c: marks.c,
        });
        let ties = self.ties_left(self.note.carry, false);
        self.expects_by(ties, rest, self.cleared_w(), apart, None)
    }

    fn drops_plain(&self, rest: &[Row], op: PlainOperation) -> bool
        ensures { result ≡ listed.drops_plain (sketch_at self.now) (block_at self.now) (note_at self.now) (rows_of rest.now) op }
    {
        match op {
            PlainOperation::Clrw => self.drops_clrw(rest),
            PlainOperation::Nop => {
                let facts = self.unchanged(self.note.facts.zero);
                self.expects_by(self.ties(), rest, facts, self.differing(self.marks()), None)
            }
            PlainOperation::Retfie => false,
            PlainOperation::Return => false,
        }
    }

    // Whether the code that is made stands at a label already.
    #[tactic(auto, using(crate::proofs::Along::label_is))]
    fn is_here(&self, at: usize, label: Label) -> bool
        ensures { result ≡ listed.is_here (block_at self.now).rows (certified.place_in (listed.rows_in (block_at self.now).rows) at) (programs.label_from (certified.olds (listed.rows_in (block_at self.now).rows)) label 0) }
    {
        match label_at(&self.block.rows, label) {
            None => true,
            Some(target) => place_of(&self.block.rows, target) == place_of(&self.block.rows, at),
        }
    }

    fn drops_goto(&self, at: usize, target: Target) -> bool
        ensures { result ≡ listed.drops_goto (sketch_at self.now) (block_at self.now) (note_at self.now) (certified.place_in (listed.rows_in (block_at self.now).rows) at) target }
    {
        match target {
            Target::Block(_) => false,
            Target::Label(label) => match label {
                Label::Inner(_) => self.expects_label(self.ties(), label)
                    && self.is_here(at, label),
                Label::Halt => false,
                Label::Restore => false,
            },
        }
    }

    fn drops_literal(&self, rest: &[Row], op: LiteralOperation, value: Literal) -> bool
        ensures { result ≡ rules.drops_literal (sketch_at self.now) (block_at self.now) (note_at self.now) (rows_of rest.now) op value }
    {
        !is_retlw(op)
            && self.expects_by(
                self.ties_left(self.note.carry, false),
                rest,
                self.after_literal(op, value),
                self.dropped_literal(op, value),
                None,
            )
    }

    fn drops_file(&self, rest: &[Row], op: FileOperation, operand: Operand, into: Into) -> bool
        ensures { result ≡ rules.drops_file (sketch_at self.now) (block_at self.now) (note_at self.now) (rows_of rest.now) op operand into }
    {
        match into {
            Into::W => self.drops_to_w(rest, op, self.read(operand)),
            Into::File => self.drops_to_file(rest, op, self.write(operand)),
        }
    }

    #[tactic(auto, using(crate::proofs::Cuts::drops_file_is))]
    fn is_left_out(&self, at: usize, rest: &[Row], sym: Sym) -> bool
        ensures { result ≡ listed.is_left_out (sketch_at self.now) (block_at self.now) (note_at self.now) (certified.place_in (listed.rows_in (block_at self.now).rows) at) (rows_of rest.now) sym }
    {
        match sym {
            Sym::File { op, file, into } => self.drops_file(rest, op, file, into),
            Sym::Movwf(file) => self.drops_store(rest, self.write(file)),
            Sym::Clrf(file) => self.drops_clear(rest, self.write(file)),
            Sym::Bit { op, file, bit } => self.drops_bit(rest, op, file, bit),
            Sym::Literal { op, value } => self.drops_literal(rest, op, value),
            Sym::Plain(op) => self.drops_plain(rest, op),
            Sym::Goto(target) => self.drops_goto(at, target),
            Sym::Call(_) => false,
            Sym::Label(_) => false,
            Sym::SelectBank(_, _) => false,
            Sym::SelectPage(_, _) => false,
            Sym::Table { .. } => false,
        }
    }

    fn puts_same(
        &self,
        rest: &[Row],
        op: FileOperation,
        byte: usize,
        new: LiteralOperation,
        value: u8,
    ) -> bool
        ensures { result ≡ listed.puts_same (sketch_at self.now) (block_at self.now) (note_at self.now) (rows_of rest.now) op byte new value }
    {
        is_operation(literal_for(op), new)
            && (is_number(self.number_of(byte), value)
                && (!(uses_w(op) && self.note.apart.w)
                    && self.expects(
                        rest,
                        self.after_to_w(op, Aim::ToByte(byte)),
                        self.literal_apart(op, byte),
                    )))
    }

    // W is what the byte holds, on both machines, and only Z is set by it.
    fn puts_self(&self, rest: &[Row], byte: usize, value: u8) -> bool
        ensures { result ≡ listed.puts_self (sketch_at self.now) (block_at self.now) (note_at self.now) (rows_of rest.now) byte value }
    {
        let marks = self.marks();
        let apart = self.differing(Marks {
            w: false,
            z: false,
            dc: marks.dc,
            c: marks.c,
        });
        value == 0
            && (self.is_held(byte)
                && (!self.note.apart.w && self.expects(rest, self.moved(Aim::ToByte(byte)), apart)))
    }

    // The number that the operation makes, where it is known.
    fn puts_number(&self, rest: &[Row], op: FileOperation, byte: usize, value: u8) -> bool
        ensures { result ≡ listed.puts_number (sketch_at self.now) (block_at self.now) (note_at self.now) (rows_of rest.now) op byte value }
    {
        let known = self.number_of(byte);
        let apart = self.differing(with_w(false, one_sets(flags_in(op), self.marks())));
        runs_on(way_of(op, known))
            && (is_number(computed(op, self.note.facts.number, known), value)
                && self.expects(rest, self.after_to_w(op, Aim::ToByte(byte)), apart))
    }

    #[tactic(auto, using(crate::proofs::Cuts::puts_byte_is))]
    fn puts_byte(
        &self,
        rest: &[Row],
        op: FileOperation,
        byte: usize,
        new: LiteralOperation,
        value: u8,
    ) -> bool
        ensures { result ≡ listed.puts_byte (sketch_at self.now) (block_at self.now) (note_at self.now) (rows_of rest.now) op byte new value }
    {
        if is_move(op) && is_iorlw(new) {
            self.puts_self(rest, byte, value)
        } else if is_movlw(new) && !is_move(op) {
            self.puts_number(rest, op, byte, value)
        } else {
            self.puts_same(rest, op, byte, new, value)
        }
    }

    fn puts_for(
        &self,
        rest: &[Row],
        op: FileOperation,
        aim: Aim,
        new: LiteralOperation,
        value: u8,
    ) -> bool
        ensures { result ≡ listed.puts_for (sketch_at self.now) (block_at self.now) (note_at self.now) (rows_of rest.now) op (aim_of aim) new value }
    {
        match aim {
            Aim::ToByte(byte) => self.puts_byte(rest, op, byte, new, value),
            Aim::ToFsr => false,
            Aim::ToEvent => false,
            Aim::Through => false,
            Aim::Nowhere => false,
        }
    }

    fn is_put(&self, rest: &[Row], new: LiteralOperation, value: u8, sym: Sym) -> bool
        ensures { result ≡ listed.is_put (sketch_at self.now) (block_at self.now) (note_at self.now) (rows_of rest.now) new value sym }
    {
        match sym {
            Sym::File { op, file, into } => match into {
                Into::W => self.puts_for(rest, op, self.read(file), new, value),
                Into::File => false,
            },
            Sym::Label(_) => true,
            _ => false,
        }
    }

    fn narrows_byte(&self, rest: &[Row], op: FileOperation, byte: usize, other: usize) -> bool
        ensures { result ≡ listed.narrows_for (sketch_at self.now) (block_at self.now) (note_at self.now) (rows_of rest.now) op (changes.ToByte byte) (changes.ToByte other) }
    {
        let aim = Aim::ToByte(byte);
        self.uses(op)
            && (self.is_same(aim)
                && (!may_skip(op)
                    && (other == byte
                        && self.expects_by(
                            carries(op, byte),
                            rest,
                            with_bits(flags_in(op), self.lost(aim, false)),
                            self.narrowed(op, byte),
                            Some(byte),
                        ))))
    }

    #[tactic(auto, using(crate::proofs::Cuts::narrows_is))]
    fn narrows_for(&self, rest: &[Row], op: FileOperation, written: Aim, read: Aim) -> bool
        ensures { result ≡ listed.narrows_for (sketch_at self.now) (block_at self.now) (note_at self.now) (rows_of rest.now) op (aim_of written) (aim_of read) }
    {
        match aim_byte(written) {
            Some(byte) => match aim_byte(read) {
                Some(other) => self.narrows_byte(rest, op, byte, other),
                None => false,
            },
            None => false,
        }
    }

    fn is_narrowed(&self, rest: &[Row], sym: Sym) -> bool
        ensures { result ≡ listed.is_narrowed (sketch_at self.now) (block_at self.now) (note_at self.now) (rows_of rest.now) sym }
    {
        match sym {
            Sym::File { op, file, into } => match into {
                Into::W => false,
                Into::File => self.narrows_for(rest, op, self.write(file), self.read(file)),
            },
            Sym::Label(_) => true,
            _ => false,
        }
    }

    /// Whether what is said before an instruction leads to what is said where it goes.
    pub fn is_right_row(&self, at: usize, rest: &[Row], act: Act, sym: Sym) -> bool
        ensures { result ≡ listed.is_right_row (sketch_at self.now) (block_at self.now) (note_at self.now) (certified.place_in (listed.rows_in (block_at self.now).rows) at) (rows_of rest.now) (act_of act) sym }
    {
        match act {
            Act::Keeps => self.is_kept(rest, sym),
            Act::Drops => self.is_left_out(at, rest, sym),
            Act::Puts { op, value } => self.is_put(rest, op, value, sym),
            Act::Narrows => self.is_narrowed(rest, sym),
            Act::Clears => self.is_cleared(rest, sym),
            Act::Reads { before } => self.is_read(rest, before, sym),
            Act::Tests { flag, turned } => self.is_tested(rest, flag, turned, sym),
        }
    }
}
