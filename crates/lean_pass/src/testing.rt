//! The test of a certificate.

ghost use Rattle.std.specs.Prelude.{ℕ, ◌≡◌, ◌+◌, ◌<◌, ◌^◌, ◌&&◌, Bool, true, not, length, None, Some, IfOk, option_map, [], ◌∷◌, MatchOption};
ghost use Rattle.sym_code.specs.Layout as layouts;
ghost use Rattle.lean_code.specs.Rows as certified;
ghost use Rattle.lean_code.specs.Changes as changes;
ghost use Rattle.lean_code.specs.Checked as listed;
ghost use Rattle.code_place.specs.Layouts.{layout_of};
ghost use Rattle.lean_pass.specs.Tests as stated;
ghost use Rattle.lean_pass.specs.Views.{act_of, trues, knowns, set_of, note_of, row_of, rows_of, block_of, blocks_of, sketch_of};

use crate::behind::{Behind, Held, Here, Known, Twins};
use crate::owners::{Ground, grounded};
use crate::rows::{ByteSet, LeanBlock, Note, Row, Sketch};
use crate::sets::is_within;
use crate::shown::{claims, no_ties};
use crate::walk::{block_named, first_row, first_word, goes_on, is_label, stays_out};
use pic_map::Placed;
use std::alloc::{AllocError, Global};
use sym_code::BlockName;

impl<'a> Ground<'a> {
    fn are_near(&self, inside: bool, list: &[bool], first: usize) -> bool
        requires { first + length list.now < 2 ^ 64 }
        ensures { result ≡ listed.all_of (λ a. changes.is_near inside (layouts.owner (layout_of self.now.placed.now) a)) (trues first list.now) }
    {
        match list {
            [] => true,
            [has, rest @ ..] => {
                if *has && !self.is_near(inside, first) {
                    false
                } else {
                    self.are_near(inside, rest, first + 1)
                }
            }
        }
    }

    fn are_own(&self, inside: bool, list: &[bool], first: usize) -> bool
        requires { first + length list.now < 2 ^ 64 }
        ensures { result ≡ listed.all_of (λ a. changes.is_own inside (layouts.owner (layout_of self.now.placed.now) a)) (trues first list.now) }
    {
        match list {
            [] => true,
            [has, rest @ ..] => {
                if *has && !self.is_own(inside, first) {
                    false
                } else {
                    self.are_own(inside, rest, first + 1)
                }
            }
        }
    }

    fn are_known_near(&self, inside: bool, list: &[Option<u8>], first: usize) -> bool
        requires { first + length list.now < 2 ^ 64 }
        ensures { result ≡ listed.all_known (λ a. changes.is_near inside (layouts.owner (layout_of self.now.placed.now) a)) (knowns first list.now) }
    {
        match list {
            [] => true,
            [known, rest @ ..] => match *known {
                None => self.are_known_near(inside, rest, first + 1),
                Some(_) => {
                    if self.is_near(inside, first) {
                        self.are_known_near(inside, rest, first + 1)
                    } else {
                        false
                    }
                }
            },
        }
    }

    fn carries_near(&self, inside: bool, carry: Option<usize>) -> bool
        ensures { result ≡ listed.carries_near (layout_of self.now.placed.now) inside carry }
    {
        match carry {
            None => true,
            Some(byte) => self.is_near(inside, byte),
        }
    }

    // Facts are of bytes that the other thread can't change, and what may differ is the thread's own.
    fn is_note(&self, inside: bool, note: &Note) -> bool
        ensures { result ≡ listed.is_note (layout_of self.now.placed.now) inside (note_of note.now) }
    {
        self.are_near(inside, &note.facts.held.has, 0)
            && (self.are_known_near(inside, &note.facts.known, 0)
                && (self.are_twins_near(inside, &note.facts.twins, 0)
                    && (self.are_own(inside, &note.apart.bytes.has, 0)
                        && self.carries_near(inside, note.carry))))
    }

    fn noted_right(
        &self,
        sketch: &Sketch,
        block: &LeanBlock,
        at: usize,
        row: &Row,
        note: &Note,
        rest: &[Row],
    ) -> bool
        ensures { result ≡ listed.is_right_at (sketch_of (layout_of self.now.placed.now) sketch.now) (block_of block.now) at (listed.Listed row.now.sym (act_of row.now.act) (Some (note_of note.now))) (rows_of rest.now) }
    {
        let here = Here {
            sketch,
            ground: self,
            block,
            note,
        };
        self.is_note(block.inside, note)
            && (goes_on_from(row, rest) && here.is_right_row(at, rest, row.act, row.sym))
    }

    fn is_right_at(
        &self,
        sketch: &Sketch,
        block: &LeanBlock,
        at: usize,
        row: &Row,
        rest: &[Row],
    ) -> bool
        ensures { result ≡ listed.is_right_at (sketch_of (layout_of self.now.placed.now) sketch.now) (block_of block.now) at (row_of row.now) (rows_of rest.now) }
    {
        match &row.note {
            None => true,
            Some(note) => self.noted_right(sketch, block, at, row, note, rest),
        }
    }

    #[tactic(auto, using(crate::proofs::Whole::right_on, crate::proofs::Whole::right_off, crate::proofs::Whole::right_end))]
    fn are_right(&self, sketch: &Sketch, block: &LeanBlock) -> bool
        ensures { result ≡ listed.are_right (sketch_of (layout_of self.now.placed.now) sketch.now) (block_of block.now) 0 (block_of block.now).rows }
    {
        let mut at = 0;
        let mut left = block.rows.as_slice();
        while let Some((row, rest)) = first_row(left) {
            if !self.is_right_at(sketch, block, at, row, rest) {
                return false;
            }
            at += 1;
            left = rest;
        }
        true
    }

    fn is_right_block(&self, sketch: &Sketch, block: &LeanBlock) -> bool
        ensures { result ≡ listed.is_right_block (sketch_of (layout_of self.now.placed.now) sketch.now) (block_of block.now) }
    {
        self.are_right(sketch, block) && self.are_own(block.inside, &block.ends.apart.bytes.has, 0)
    }

    #[tactic(auto, using(crate::proofs::Whole::named_right))]
    fn is_right_named(&self, sketch: &Sketch, name: BlockName) -> bool
        ensures { result ≡ listed.is_right_block (sketch_of (layout_of self.now.placed.now) sketch.now) (listed.block_in (blocks_of sketch.now.blocks.items) name) }
    {
        self.is_right_block(sketch, block_named(&sketch.blocks, &self.none, name))
    }

    fn are_right_blocks(&self, sketch: &Sketch, blocks: &[LeanBlock]) -> bool
        ensures { result ≡ listed.are_right_blocks (sketch_of (layout_of self.now.placed.now) sketch.now) (blocks_of blocks.now) }
    {
        match blocks {
            [] => true,
            [block, rest @ ..] => {
                if self.is_right_named(sketch, block.name) {
                    self.are_right_blocks(sketch, rest)
                } else {
                    false
                }
            }
        }
    }

    fn begins_with(&self, sketch: &Sketch, block: &LeanBlock, note: &Note, rest: &ByteSet) -> bool
        ensures { result ≡ listed.begins (set_of rest.now) (Some (Some (note_of note.now))) }
    {
        let here = Here {
            sketch,
            ground: self,
            block,
            note,
        };
        let nothing = Behind {
            number: None,
            held: Held::Nothing,
            zero: false,
            known: Known::Nothing,
            twins: Twins::Nothing,
            carry_bit: false,
            zero_bit: false,
        };
        here.gives(nothing, &note.facts)
            && (is_within(rest, &note.apart.bytes) && claims(note, None, no_ties()))
    }

    fn begins_noted(
        &self,
        sketch: &Sketch,
        block: &LeanBlock,
        note: &Option<Note>,
        rest: &ByteSet,
    ) -> bool
        ensures { result ≡ listed.begins (set_of rest.now) (Some (option_map note_of note.now)) }
    {
        match note {
            None => false,
            Some(note) => self.begins_with(sketch, block, note, rest),
        }
    }

    // Where a thread begins nothing is known, and only these bytes may differ.
    fn begins(&self, sketch: &Sketch, block: &LeanBlock, rest: &ByteSet) -> bool
        ensures { result ≡ listed.begins (set_of rest.now) (listed.ahead (block_of block.now).rows) }
    {
        match first_word(&block.rows) {
            None => true,
            Some(row) => self.begins_noted(sketch, block, &row.note, rest),
        }
    }

    fn handler_begins(&self, sketch: &Sketch, block: &LeanBlock) -> bool
        ensures { result ≡ ((block_of block.now).inside && listed.begins (set_of sketch.now.rest) (listed.ahead (block_of block.now).rows)) }
    {
        block.inside && self.begins(sketch, block, &sketch.rest)
    }

    #[tactic(auto, using(crate::proofs::Whole::handler_is))]
    fn begins_at(&self, sketch: &Sketch, handler: Option<u16>) -> bool
        ensures { result ≡ listed.begins_at (sketch_of (layout_of self.now.placed.now) sketch.now) handler }
    {
        match handler {
            None => true,
            Some(copy) => self.handler_begins(
                sketch,
                block_named(&sketch.blocks, &self.none, BlockName::Copy(copy)),
            ),
        }
    }

    #[tactic(auto, using(crate::proofs::Whole::begin_none))]
    fn begins_whole(&self, sketch: &Sketch, block: &LeanBlock) -> bool
        ensures { result ≡ listed.begins [] (listed.ahead (block_of block.now).rows) }
    {
        self.begins(sketch, block, &self.none.outer)
    }

    fn is_main(&self, sketch: &Sketch, block: &LeanBlock) -> bool
        ensures { result ≡ stated.is_main (block_of block.now) }
    {
        !block.inside && self.begins_whole(sketch, block)
    }

    #[tactic(auto, using(crate::proofs::Whole::main_is))]
    fn main_begins(&self, sketch: &Sketch) -> bool
        ensures { result ≡ stated.main_begins (sketch_of (layout_of self.now.placed.now) sketch.now) }
    {
        self.is_main(
            sketch,
            block_named(&sketch.blocks, &self.none, BlockName::Copy(0)),
        )
    }

    #[tactic(auto, using(crate::proofs::Whole::main_lands_is))]
    fn main_lands(&self, sketch: &Sketch) -> bool
        ensures { result ≡ stated.main_lands (sketch_of (layout_of self.now.placed.now) sketch.now) }
    {
        let main = block_named(&sketch.blocks, &self.none, BlockName::Copy(0));
        finds_word(&main.rows)
    }

    /// Whether a certificate is right.
    fn is_lean(&self, sketch: &Sketch) -> bool
        ensures { result ≡ listed.is_lean (sketch_of (layout_of self.now.placed.now) sketch.now) }
    {
        self.are_right_blocks(sketch, &sketch.blocks)
            && (self.main_begins(sketch)
                && (self.main_lands(sketch)
                    && (self.begins_at(sketch, sketch.handler)
                        && self.are_own(true, &sketch.rest.has, 0))))
    }
}

// Whether an instruction of the row or behind it stays.
fn goes_on_from(row: &Row, rest: &[Row]) -> bool
    ensures { result ≡ stated.goes_on_from (row_of row.now) (rows_of rest.now) }
{
    if is_label(row.sym) {
        goes_on(rest)
    } else if stays_out(row.sym, row.act) {
        goes_on(rest)
    } else {
        true
    }
}

fn finds_word(rows: &[Row]) -> bool
    ensures { result ≡ stated.finds_word (rows_of rows.now) }
{
    match rows {
        [] => false,
        [row, rest @ ..] => if is_label(row.sym) {
            finds_word(rest)
        } else {
            true
        },
    }
}

/// The test of a certificate for a program whose objects and frames stand so: it says 'yes' where the certificate's definition does.
pub fn is_lean(alloc: Global, sketch: &Sketch, placed: &Placed) -> Result<bool, AllocError>
    ensures { IfOk result (λ lean. lean ≡ listed.is_lean (sketch_of (layout_of placed.now) sketch.now)) }
{
    let ground = grounded(alloc, placed)?;
    Ok(ground.is_lean(sketch))
}
