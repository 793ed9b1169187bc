//! Bytes that are cleared where W, which is 0, would be stored.

ghost use Rattle.std.specs.Prelude.{ℕ, ◌≡◌, ◌&&◌, true, false, Some, None};
ghost use Rattle.lean_code.specs.Rows as certified;
ghost use Rattle.lean_code.specs.Changes as changes;
ghost use Rattle.lean_code.specs.Checked as listed;
ghost use Rattle.lean_pass.specs.Behind.{sketch_at, block_at, note_at, facts_at, apart_at, apart_by};
ghost use Rattle.lean_pass.specs.Owners.{aim_of};
ghost use Rattle.lean_pass.specs.Rules as rules;
ghost use Rattle.lean_pass.specs.Views.{rows_of};

use crate::behind::{Differs, Here, Marks, is_number};
use crate::owners::Aim;
use crate::rows::Row;
use core_code::Byte;
use sym_code::{Operand, Sym};

/// Whether an operand may be cleared: on a device register CLRF could be taken for a read.
pub fn may_clear(operand: Operand) -> bool
    ensures { result ≡ certified.may_clear operand }
{
    match operand {
        Operand::Byte(byte) => match byte {
            Byte::Device { .. } => false,
            Byte::Static { .. } => true,
            Byte::Frame { .. } => true,
            Byte::Result { .. } => true,
        },
        Operand::Register(_) => false,
        Operand::Saved(_) => false,
    }
}

impl<'a> Here<'a> {
    // What may differ where both write 0, and only one of them sets Z.
    fn clearing(&self, aim: Aim) -> Differs
        ensures { apart_by (apart_at self.now) result ≡ changes.same_byte (aim_of aim) (record (apart_at self.now) { z = true }) }
    {
        let marks = self.marks();
        let cleared = Marks {
            w: marks.w,
            z: true,
            dc: marks.dc,
            c: marks.c,
        };
        self.both_write(aim, cleared)
    }

    fn clears_zero(&self, rest: &[Row], aim: Aim) -> bool
        ensures { result ≡ rules.clears_zero (sketch_at self.now) (block_at self.now) (note_at self.now) (rows_of rest.now) (aim_of aim) }
    {
        is_number(self.note.facts.number, 0)
            && self.expects(rest, self.stored(aim), self.clearing(aim))
    }

    fn clears_for(&self, rest: &[Row], operand: Operand) -> bool
        ensures { result ≡ listed.clears_for (sketch_at self.now) (block_at self.now) (note_at self.now) (rows_of rest.now) operand }
    {
        may_clear(operand) && self.clears_zero(rest, self.write(operand))
    }

    /// Whether a byte may be cleared in an instruction's place.
    pub fn is_cleared(&self, rest: &[Row], sym: Sym) -> bool
        ensures { result ≡ listed.is_cleared (sketch_at self.now) (block_at self.now) (note_at self.now) (rows_of rest.now) sym }
    {
        match sym {
            Sym::Movwf(file) => self.clears_for(rest, file),
            Sym::Label(_) => true,
            _ => false,
        }
    }
}
