//! Instructions that stay.

ghost use Rattle.std.specs.Prelude.{ℕ, ◌≡◌, ◌&&◌, ◌||◌, not, true, false, nat_eq, nat_lt, Some, None, option_map, if◌then◌else◌};
ghost use Rattle.sym_code.specs.Programs as programs;
ghost use Rattle.lean_code.specs.Rows as certified;
ghost use Rattle.lean_code.specs.Changes as changes;
ghost use Rattle.lean_code.specs.Checked as listed;
ghost use Rattle.lean_code.specs.Right as right;
ghost use Rattle.lean_pass.specs.Behind.{sketch_at, block_at, note_at, facts_at, apart_at, apart_by};
ghost use Rattle.lean_pass.specs.Owners.{aim_of};
ghost use Rattle.lean_pass.specs.Rules as rules;
ghost use Rattle.lean_pass.specs.Views.{act_of, apart_of, block_of, note_of, rows_of, set_of, ties_of};

use crate::behind::{Here, Marks, both_set, flags_in, literal_flags, with_w};
use crate::computing::{way_of, way_of_bit};
use crate::operations::{is_retlw, literal_uses, uses_c, uses_w};
use crate::owners::Aim;
use crate::rows::{Apart, ByteSet, LeanBlock, Note, Row, Ties};
use crate::sets::is_within;
use crate::shown::{claims, no_ties};
use crate::walk::{block_named, first_word, label_at, rows_from};
use sym_code::{
    BitOperation, BlockName, FileOperation, Into, Label, Literal, LiteralOperation, Operand,
    PlainOperation, Register, Sym, Target,
};

/// Whether it is STATUS.
pub fn is_status(operand: Operand) -> bool
    ensures { result ≡ rules.is_status operand }
{
    match operand {
        Operand::Register(register) => match register {
            Register::Status => true,
            Register::Indf => false,
            Register::Fsr => false,
            Register::Pclath => false,
        },
        Operand::Byte(_) => false,
        Operand::Saved(_) => false,
    }
}

fn same_side(one: bool, other: bool) -> bool
    ensures { result ≡ listed.same_side one other }
{
    if one { other } else { !other }
}

impl<'a> Here<'a> {
    /// Where an operand leads that is read.
    pub fn read(&self, operand: Operand) -> Aim
        ensures { aim_of result ≡ listed.read (sketch_at self.now) (block_at self.now) (note_at self.now) operand }
    {
        self.ground.aim(self.block.inside, false, operand)
    }

    /// Where an operand leads that is written.
    pub fn write(&self, operand: Operand) -> Aim
        ensures { aim_of result ≡ listed.write (sketch_at self.now) (block_at self.now) (note_at self.now) operand }
    {
        self.ground.aim(self.block.inside, true, operand)
    }

    fn block_named(&self, name: BlockName) -> &LeanBlock
        ensures { block_of result.now ≡ listed.block_in (sketch_at self.now).blocks name }
    {
        block_named(&self.sketch.blocks, &self.ground.none, name)
    }

    /// What an operation reads of W and C is the same.
    pub fn uses(&self, op: FileOperation) -> bool
        ensures { result ≡ listed.uses (sketch_at self.now) (block_at self.now) (note_at self.now) op }
    {
        !(uses_w(op) && self.note.apart.w) && !(uses_c(op) && self.note.apart.c)
    }

    fn keeps_to_w(&self, rest: &[Row], op: FileOperation, aim: Aim) -> bool
        ensures { result ≡ rules.keeps_to_w (sketch_at self.now) (block_at self.now) (note_at self.now) (rows_of rest.now) op (aim_of aim) }
    {
        let apart = self.differing(with_w(false, both_set(flags_in(op), self.marks())));
        self.uses(op)
            && (self.is_same(aim)
                && self.leads(
                    rest,
                    way_of(op, self.number_at(aim)),
                    self.after_to_w(op, aim),
                    apart,
                ))
    }

    fn keeps_to_file(&self, rest: &[Row], op: FileOperation, aim: Aim) -> bool
        ensures { result ≡ rules.keeps_to_file (sketch_at self.now) (block_at self.now) (note_at self.now) (rows_of rest.now) op (aim_of aim) }
    {
        let apart = self.both_write(aim, both_set(flags_in(op), self.marks()));
        self.uses(op)
            && (self.is_same(aim)
                && self.leads(
                    rest,
                    way_of(op, self.number_at(aim)),
                    self.after_to_file(op, aim),
                    apart,
                ))
    }

    fn keeps_file(&self, rest: &[Row], op: FileOperation, operand: Operand, into: Into) -> bool
        ensures { result ≡ listed.keeps_file (sketch_at self.now) (block_at self.now) (note_at self.now) (rows_of rest.now) op operand into }
    {
        match into {
            Into::W => self.keeps_to_w(rest, op, self.read(operand)),
            Into::File => self.keeps_to_file(rest, op, self.write(operand)),
        }
    }

    fn keeps_change(&self, rest: &[Row], aim: Aim) -> bool
        ensures { result ≡ rules.keeps_change (sketch_at self.now) (block_at self.now) (note_at self.now) (rows_of rest.now) (aim_of aim) }
    {
        self.is_same(aim)
            && self.expects(
                rest,
                self.lost(aim, self.note.facts.zero),
                self.differing(self.marks()),
            )
    }

    fn keeps_test(&self, rest: &[Row], op: BitOperation, aim: Aim, bit: u8) -> bool
        ensures { result ≡ rules.keeps_test (sketch_at self.now) (block_at self.now) (note_at self.now) (rows_of rest.now) op (aim_of aim) bit }
    {
        self.is_same(aim)
            && self.leads(
                rest,
                way_of_bit(op, self.number_at(aim), bit),
                self.unchanged(self.note.facts.zero),
                self.differing(self.marks()),
            )
    }

    fn keeps_flag(&self, rest: &[Row], bit: u8) -> bool
        ensures { result ≡ rules.keeps_flag (sketch_at self.now) (block_at self.now) (note_at self.now) (rows_of rest.now) bit }
    {
        self.expects(rest, self.unchanged(false), self.with_flag(bit, false))
    }

    fn keeps_flag_test(&self, rest: &[Row], bit: u8) -> bool
        ensures { result ≡ rules.keeps_flag_test (sketch_at self.now) (block_at self.now) (note_at self.now) (rows_of rest.now) bit }
    {
        !self.flag_apart(bit)
            && self.leads(
                rest,
                None,
                self.unchanged(self.note.facts.zero),
                self.differing(self.marks()),
            )
    }

    #[tactic(auto, using(crate::proofs::Cuts::keeps_bit_is))]
    fn keeps_bit(&self, rest: &[Row], op: BitOperation, operand: Operand, bit: u8) -> bool
        ensures { result ≡ listed.keeps_bit (sketch_at self.now) (block_at self.now) (note_at self.now) (rows_of rest.now) op operand bit }
    {
        let status = is_status(operand);
        match op {
            BitOperation::Bcf => if status {
                self.keeps_flag(rest, bit)
            } else {
                self.keeps_change(rest, self.write(operand))
            },
            BitOperation::Bsf => if status {
                self.keeps_flag(rest, bit)
            } else {
                self.keeps_change(rest, self.write(operand))
            },
            BitOperation::Btfsc => if status {
                self.keeps_flag_test(rest, bit)
            } else {
                self.keeps_test(rest, op, self.read(operand), bit)
            },
            BitOperation::Btfss => if status {
                self.keeps_flag_test(rest, bit)
            } else {
                self.keeps_test(rest, op, self.read(operand), bit)
            },
        }
    }

    fn keeps_clrw(&self, rest: &[Row]) -> bool
        ensures { result ≡ listed.keeps_plain (sketch_at self.now) (block_at self.now) (note_at self.now) (rows_of rest.now) PlainOperation.Clrw }
    {
        let marks = self.marks();
        self.expects(
            rest,
            self.cleared_w(),
            self.differing(Marks {
                w: false,
                z: false,
                dc: marks.dc,
                c: marks.c,
            }),
        )
    }

    fn keeps_same(&self, rest: &[Row]) -> bool
        ensures { result ≡ listed.keeps_plain (sketch_at self.now) (block_at self.now) (note_at self.now) (rows_of rest.now) PlainOperation.Nop }
    {
        self.expects(
            rest,
            self.unchanged(self.note.facts.zero),
            self.differing(self.marks()),
        )
    }

    fn keeps_return(&self, rest: &[Row]) -> bool
        ensures { result ≡ listed.keeps_plain (sketch_at self.now) (block_at self.now) (note_at self.now) (rows_of rest.now) PlainOperation.Return }
    {
        let ends = &self.block.ends;
        self.gives(self.unchanged(self.note.facts.zero), &ends.facts)
            && self.covers(&ends.apart, self.differing(self.marks()), None)
    }

    fn keeps_plain(&self, rest: &[Row], op: PlainOperation) -> bool
        ensures { result ≡ listed.keeps_plain (sketch_at self.now) (block_at self.now) (note_at self.now) (rows_of rest.now) op }
    {
        match op {
            PlainOperation::Clrw => self.keeps_clrw(rest),
            PlainOperation::Nop => self.keeps_same(rest),
            PlainOperation::Retfie => true,
            PlainOperation::Return => self.keeps_return(rest),
        }
    }

    /// What is said where a jump goes, if it goes to a label that is there.
    #[tactic(auto, using(crate::proofs::Along::label_is))]
    pub fn expects_label(&self, ties: Ties, label: Label) -> bool
        ensures { result ≡ listed.expects_by (ties_of ties) (listed.at_label (sketch_at self.now) (block_at self.now) (note_at self.now) label) (facts_at self.now) (apart_at self.now) (note_at self.now).apart.bytes }
    {
        match label_at(&self.block.rows, label) {
            None => true,
            Some(at) => self.expects_by(
                ties,
                rows_from(&self.block.rows, at),
                self.unchanged(self.note.facts.zero),
                self.differing(self.marks()),
                None,
            ),
        }
    }

    fn keeps_goto(&self, target: Target) -> bool
        ensures { result ≡ listed.keeps_goto (sketch_at self.now) (block_at self.now) (note_at self.now) target }
    {
        match target {
            Target::Block(_) => false,
            Target::Label(label) => match label {
                Label::Halt => true,
                Label::Restore => self.block.inside
                    && is_within(&self.note.apart.bytes, &self.sketch.rest),
                Label::Inner(_) => self.expects_label(no_ties(), label),
            },
        }
    }

    // Whether no more is said at the front of a list than what is so at a call.
    fn enters(&self, rows: &[Row]) -> bool
        ensures { result ≡ listed.enters (listed.ahead (rows_of rows.now)) (note_at self.now) }
    {
        match first_word(rows) {
            None => true,
            Some(row) => self.enters_at(&row.note),
        }
    }

    fn enters_at(&self, wanted: &Option<Note>) -> bool
        ensures { result ≡ listed.enters (Some (option_map note_of wanted.now)) (note_at self.now) }
    {
        match wanted {
            None => false,
            Some(note) => {
                self.gives(self.unchanged(self.note.facts.zero), &note.facts)
                    && (self.flags_within(&note.apart) && claims(note, None, no_ties()))
            }
        }
    }

    fn flags_within(&self, wanted: &Apart) -> bool
        ensures { result ≡ listed.covers_flags (apart_of wanted.now) (apart_at self.now) }
    {
        self.flags_covered(wanted, self.differing(self.marks()))
    }

    // Whether no more is said at the front of a list than what a call leaves.
    fn comes_at(&self, wanted: &Option<Note>, across: &ByteSet) -> bool
        ensures { result ≡ listed.comes (Some (option_map note_of wanted.now)) (note_at self.now) (set_of across.now) }
    {
        match wanted {
            None => false,
            Some(note) => {
                self.gives(self.unchanged(self.note.facts.zero), &note.facts)
                    && (self.flags_within(&note.apart)
                        && (is_within(&self.note.apart.bytes, &note.apart.bytes)
                            && (is_within(across, &note.apart.bytes)
                                && claims(note, None, no_ties()))))
            }
        }
    }

    fn comes(&self, rows: &[Row], across: &ByteSet) -> bool
        ensures { result ≡ listed.comes (listed.ahead (rows_of rows.now)) (note_at self.now) (set_of across.now) }
    {
        match first_word(rows) {
            None => true,
            Some(row) => self.comes_at(&row.note, across),
        }
    }

    fn calls(&self, rest: &[Row], callee: &LeanBlock) -> bool
        ensures { result ≡ rules.calls (sketch_at self.now) (block_at self.now) (note_at self.now) (rows_of rest.now) (block_of callee.now) }
    {
        let there = Here {
            note: &callee.ends,
            ..*self
        };
        same_side(callee.inside, self.block.inside)
            && (self.enters(&callee.rows)
                && (there.comes(rest, &self.note.apart.bytes)
                    && (is_within(&self.note.apart.bytes, &callee.outer)
                        && is_within(&self.block.outer, &callee.outer))))
    }

    #[tactic(auto, using(crate::proofs::Cuts::call_is))]
    fn keeps_call(&self, rest: &[Row], target: Target) -> bool
        ensures { result ≡ listed.keeps_call (sketch_at self.now) (block_at self.now) (note_at self.now) (rows_of rest.now) target }
    {
        match target {
            Target::Label(_) => false,
            Target::Block(name) => self.calls(rest, self.block_named(name)),
        }
    }

    fn keeps_store(&self, rest: &[Row], aim: Aim) -> bool
        ensures { result ≡ rules.keeps_store (sketch_at self.now) (block_at self.now) (note_at self.now) (rows_of rest.now) (aim_of aim) }
    {
        !self.note.apart.w
            && self.expects(rest, self.stored(aim), self.both_write(aim, self.marks()))
    }

    fn keeps_clear(&self, rest: &[Row], aim: Aim) -> bool
        ensures { result ≡ rules.keeps_clear (sketch_at self.now) (block_at self.now) (note_at self.now) (rows_of rest.now) (aim_of aim) }
    {
        let marks = self.marks();
        let cleared = Marks {
            w: marks.w,
            z: false,
            dc: marks.dc,
            c: marks.c,
        };
        self.expects(rest, self.cleared(aim), self.both_write(aim, cleared))
    }

    fn keeps_literal(&self, rest: &[Row], op: LiteralOperation, value: Literal) -> bool
        ensures { result ≡ rules.keeps_literal (sketch_at self.now) (block_at self.now) (note_at self.now) (rows_of rest.now) op value }
    {
        let apart = self.differing(with_w(false, both_set(literal_flags(op), self.marks())));
        !is_retlw(op)
            && (!(literal_uses(op) && self.note.apart.w)
                && self.expects(rest, self.after_literal(op, value), apart))
    }

    pub fn is_kept(&self, rest: &[Row], sym: Sym) -> bool
        ensures { result ≡ listed.is_kept (sketch_at self.now) (block_at self.now) (note_at self.now) (rows_of rest.now) sym }
    {
        match sym {
            Sym::File { op, file, into } => self.keeps_file(rest, op, file, into),
            Sym::Movwf(file) => self.keeps_store(rest, self.write(file)),
            Sym::Clrf(file) => self.keeps_clear(rest, self.write(file)),
            Sym::Bit { op, file, bit } => self.keeps_bit(rest, op, file, bit),
            Sym::Literal { op, value } => self.keeps_literal(rest, op, value),
            Sym::Plain(op) => self.keeps_plain(rest, op),
            Sym::Call(target) => self.keeps_call(rest, target),
            Sym::Goto(target) => self.keeps_goto(target),
            Sym::Label(_) => true,
            Sym::SelectBank(_, _) => self.keeps_same(rest),
            Sym::SelectPage(_, _) => self.keeps_same(rest),
            Sym::Table { .. } => false,
        }
    }
}
