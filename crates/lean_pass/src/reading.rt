//! Whether what is so behind an instruction is enough for what is said where the code goes on.

ghost use Rattle.std.specs.Prelude.{ℕ, ◌≡◌, ◌+◌, ◌<◌, ◌^◌, ◌&&◌, ◌||◌, not, true, Bool, length, None, Some, option_map, if◌then◌else◌};
ghost use Rattle.lean_code.specs.Rows as certified;
ghost use Rattle.lean_code.specs.Changes as changes;
ghost use Rattle.lean_code.specs.Checked as listed;
ghost use Rattle.lean_pass.specs.Behind as stated;
ghost use Rattle.lean_pass.specs.Behind.{facts_at, apart_at, hidden_at, note_at, block_at, sketch_at, facts_by, apart_by, held_by, known_by, bytes_by, candidates};
ghost use Rattle.lean_pass.specs.Owners.{aim_of};
ghost use Rattle.lean_pass.specs.Views.{trues, knowns, set_of, facts_of, apart_of, note_of, rows_of, ties_of};

use crate::behind::{Behind, Bytes, Differs, Held, Here, Known, is_byte, is_number};
use crate::owners::Aim;
use crate::rows::{Apart, ByteSet, Facts, Note, Row, Ties};
use crate::sets::is_within;
use crate::shown::{claims, no_ties};
use crate::walk::{drops_first, first_word, keeps_first, past};

fn gives_number(has: Option<u8>, wanted: Option<u8>) -> bool
    ensures { result ≡ listed.gives_number has wanted }
{
    match wanted {
        None => true,
        Some(number) => is_number(has, number),
    }
}

/// Whether no more is said to be carried than is.
pub fn same_number(said: Option<usize>, carry: Option<usize>) -> bool
    ensures { result ≡ listed.same_number said carry }
{
    match said {
        None => true,
        Some(byte) => is_byte(carry, byte),
    }
}

impl<'a> Here<'a> {
    // Whether W is what a byte holds, behind an instruction.
    fn holds(&self, held: Held, byte: usize) -> bool
        ensures { result ≡ held_by (hidden_at self.now) (facts_at self.now) held byte }
    {
        match held {
            Held::Same => self.is_held(byte),
            Held::Less(other) => if byte == other {
                false
            } else {
                self.is_held(byte)
            },
            Held::Hidden => {
                if self.sketch.hidden.contains(byte) {
                    self.is_held(byte)
                } else {
                    false
                }
            }
            Held::Nothing => false,
            Held::Only(other) => if byte == other {
                true
            } else {
                self.is_twin(other, byte)
            },
            Held::Like(number) => is_number(self.number_of(byte), number),
            Held::More(other) => if byte == other {
                true
            } else {
                self.is_held(byte)
            },
        }
    }

    // What a byte holds, behind an instruction.
    fn knows(&self, known: Known, byte: usize) -> Option<u8>
        ensures { result ≡ known_by (hidden_at self.now) (facts_at self.now) known byte }
    {
        match known {
            Known::Same => self.number_of(byte),
            Known::Put(other, number) => if byte == other {
                number
            } else {
                self.number_of(byte)
            },
            Known::Hidden => {
                if self.sketch.hidden.contains(byte) {
                    self.number_of(byte)
                } else {
                    None
                }
            }
            Known::Nothing => None,
        }
    }

    // Whether a byte may differ, behind an instruction.
    fn differs(&self, bytes: Bytes, byte: usize) -> bool
        ensures { result ≡ bytes_by (apart_at self.now).bytes bytes byte }
    {
        match bytes {
            Bytes::Same => self.note.apart.bytes.contains(byte),
            Bytes::Less(other) => if byte == other {
                false
            } else {
                self.note.apart.bytes.contains(byte)
            },
            Bytes::More(other) => if byte == other {
                true
            } else {
                self.note.apart.bytes.contains(byte)
            },
        }
    }

    fn are_held(&self, held: Held, list: &[bool], first: usize) -> bool
        requires { first + length list.now < 2 ^ 64 }
        ensures { result ≡ listed.all_of (held_by (hidden_at self.now) (facts_at self.now) held) (trues first list.now) }
    {
        match list {
            [] => true,
            [has, rest @ ..] => {
                if *has && !self.holds(held, first) {
                    false
                } else {
                    self.are_held(held, rest, first + 1)
                }
            }
        }
    }

    fn gives_entry(&self, known: Known, byte: usize, wanted: Option<u8>) -> bool
        ensures { result ≡ listed.gives_number (known_by (hidden_at self.now) (facts_at self.now) known byte) wanted }
    {
        gives_number(self.knows(known, byte), wanted)
    }

    #[tactic(auto, using(crate::proofs::Entries::known_on, crate::proofs::Entries::known_off))]
    fn are_known(&self, known: Known, list: &[Option<u8>], first: usize) -> bool
        requires { first + length list.now < 2 ^ 64 }
        ensures { result ≡ listed.gives_known (known_by (hidden_at self.now) (facts_at self.now) known) (knowns first list.now) }
    {
        match list {
            [] => true,
            [wanted, rest @ ..] => {
                if self.gives_entry(known, first, *wanted) {
                    self.are_known(known, rest, first + 1)
                } else {
                    false
                }
            }
        }
    }

    /// Whether what is known is enough.
    pub fn gives(&self, facts: Behind, wanted: &Facts) -> bool
        ensures { result ≡ listed.gives (facts_by (hidden_at self.now) (facts_at self.now) facts) (facts_of wanted.now) }
    {
        gives_number(facts.number, wanted.number)
            && (self.are_held(facts.held, &wanted.held.has, 0)
                && ((!wanted.zero || facts.zero)
                    && (self.are_known(facts.known, &wanted.known, 0)
                        && (self.are_copies(facts.twins, &wanted.twins, 0)
                            && self.gives_bits(facts, wanted)))))
    }

    fn gives_bits(&self, facts: Behind, wanted: &Facts) -> bool
        ensures { result ≡ listed.gives_bits (facts_by (hidden_at self.now) (facts_at self.now) facts) (facts_of wanted.now) }
    {
        (!wanted.carry_bit || facts.carry_bit) && (!wanted.zero_bit || facts.zero_bit)
    }

    fn is_covered(&self, wanted: &ByteSet, bytes: Bytes, byte: usize) -> bool
        ensures { result ≡ (not (bytes_by (apart_at self.now).bytes bytes byte) || listed.among byte (set_of wanted.now)) }
    {
        !self.differs(bytes, byte) || wanted.contains(byte)
    }

    fn are_covered(&self, wanted: &ByteSet, bytes: Bytes, list: &[bool], first: usize) -> bool
        requires { first + length list.now < 2 ^ 64 }
        ensures { result ≡ listed.covers_bytes (set_of wanted.now) (bytes_by (apart_at self.now).bytes bytes) (trues first list.now) }
    {
        match list {
            [] => true,
            [has, rest @ ..] => {
                if *has && !self.is_covered(wanted, bytes, first) {
                    false
                } else {
                    self.are_covered(wanted, bytes, rest, first + 1)
                }
            }
        }
    }

    // Each byte that may differ is among those that are said to.
    fn covers_bytes(&self, wanted: &ByteSet, bytes: Bytes, more: Option<usize>) -> bool
        ensures { result ≡ listed.covers_bytes (set_of wanted.now) (bytes_by (apart_at self.now).bytes bytes) (candidates self.now more) }
    {
        match more {
            None => self.are_covered(wanted, bytes, &self.note.apart.bytes.has, 0),
            Some(byte) => self.is_covered(wanted, bytes, byte)
                && self.are_covered(wanted, bytes, &self.note.apart.bytes.has, 0),
        }
    }

    /// Whether W and the flags differ no more than they may.
    pub fn flags_covered(&self, wanted: &Apart, apart: Differs) -> bool
        ensures { result ≡ listed.covers_flags (apart_of wanted.now) (apart_by (apart_at self.now) apart) }
    {
        let marks = apart.marks;
        (wanted.w || !marks.w)
            && ((wanted.z || !marks.z) && ((wanted.dc || !marks.dc) && (wanted.c || !marks.c)))
    }

    /// Whether no more differs than what may.
    pub fn covers(&self, wanted: &Apart, apart: Differs, more: Option<usize>) -> bool
        ensures { result ≡ (listed.covers_flags (apart_of wanted.now) (apart_by (apart_at self.now) apart) && listed.covers_bytes (set_of wanted.now.bytes) (bytes_by (apart_at self.now).bytes apart.bytes) (candidates self.now more)) }
    {
        self.flags_covered(wanted, apart) && self.covers_bytes(&wanted.bytes, apart.bytes, more)
    }

    #[tactic(auto, using(crate::proofs::Entries::and_three))]
    fn is_enough(
        &self,
        ties: Ties,
        wanted: &Note,
        facts: Behind,
        apart: Differs,
        more: Option<usize>,
    ) -> bool
        ensures { result ≡ listed.expects_by (ties_of ties) (Some (Some (note_of wanted.now))) (facts_by (hidden_at self.now) (facts_at self.now) facts) (apart_by (apart_at self.now) apart) (candidates self.now more) }
    {
        self.gives(facts, &wanted.facts)
            && (self.covers(&wanted.apart, apart, more) && claims(wanted, facts.number, ties))
    }

    fn is_enough_at(
        &self,
        ties: Ties,
        wanted: &Option<Note>,
        facts: Behind,
        apart: Differs,
        more: Option<usize>,
    ) -> bool
        ensures { result ≡ listed.expects_by (ties_of ties) (Some (option_map note_of wanted.now)) (facts_by (hidden_at self.now) (facts_at self.now) facts) (apart_by (apart_at self.now) apart) (candidates self.now more) }
    {
        match wanted {
            None => false,
            Some(note) => self.is_enough(ties, note, facts, apart, more),
        }
    }

    /// Whether what is so behind an instruction is enough at the front of a list.
    pub fn expects_by(
        &self,
        ties: Ties,
        rows: &[Row],
        facts: Behind,
        apart: Differs,
        more: Option<usize>,
    ) -> bool
        ensures { result ≡ listed.expects_by (ties_of ties) (listed.ahead (rows_of rows.now)) (facts_by (hidden_at self.now) (facts_at self.now) facts) (apart_by (apart_at self.now) apart) (candidates self.now more) }
    {
        match first_word(rows) {
            None => true,
            Some(row) => self.is_enough_at(ties, &row.note, facts, apart, more),
        }
    }

    pub fn expects(&self, rows: &[Row], facts: Behind, apart: Differs) -> bool
        ensures { result ≡ listed.expects (listed.ahead (rows_of rows.now)) (facts_by (hidden_at self.now) (facts_at self.now) facts) (apart_by (apart_at self.now) apart) (note_at self.now).apart.bytes }
    {
        self.expects_by(no_ties(), rows, facts, apart, None)
    }

    /// Behind an instruction that both execute, and that skips, runs on, or may do both.
    pub fn leads(&self, rest: &[Row], way: Option<bool>, facts: Behind, apart: Differs) -> bool
        ensures { result ≡ listed.leads (rows_of rest.now) way (facts_by (hidden_at self.now) (facts_at self.now) facts) (apart_by (apart_at self.now) apart) (note_at self.now).apart.bytes }
    {
        match way {
            None => self.expects(rest, facts, apart) && self.leads_past(rest, facts, apart),
            Some(true) => self.leads_past(rest, facts, apart),
            Some(false) => self.expects(rest, facts, apart),
        }
    }

    fn leads_past(&self, rest: &[Row], facts: Behind, apart: Differs) -> bool
        ensures { result ≡ listed.leads (rows_of rest.now) (Some true) (facts_by (hidden_at self.now) (facts_at self.now) facts) (apart_by (apart_at self.now) apart) (note_at self.now).apart.bytes }
    {
        self.expects(past(rest), facts, apart) && keeps_first(rest)
    }

    /// Behind one that is left out.
    pub fn passes(
        &self,
        ties: Ties,
        rest: &[Row],
        way: Option<bool>,
        facts: Behind,
        apart: Differs,
        more: Option<usize>,
    ) -> bool
        ensures { result ≡ listed.passes (ties_of ties) (rows_of rest.now) way (facts_by (hidden_at self.now) (facts_at self.now) facts) (apart_by (apart_at self.now) apart) (candidates self.now more) }
    {
        match way {
            None => self.passes_both(ties, ties, rest, facts, apart, more),
            Some(true) => self.passes_past(ties, rest, facts, apart, more),
            Some(false) => self.expects_by(ties, rest, facts, apart, more),
        }
    }

    /// With these ties where it runs on, and with those where it skips.
    pub fn passes_both(
        &self,
        on: Ties,
        over: Ties,
        rest: &[Row],
        facts: Behind,
        apart: Differs,
        more: Option<usize>,
    ) -> bool
        ensures { result ≡ listed.passes_both (ties_of on) (ties_of over) (rows_of rest.now) (facts_by (hidden_at self.now) (facts_at self.now) facts) (apart_by (apart_at self.now) apart) (candidates self.now more) }
    {
        self.expects_by(on, rest, facts, apart, more)
            && self.passes_past(over, rest, facts, apart, more)
    }

    fn passes_past(
        &self,
        ties: Ties,
        rest: &[Row],
        facts: Behind,
        apart: Differs,
        more: Option<usize>,
    ) -> bool
        ensures { result ≡ listed.passes (ties_of ties) (rows_of rest.now) (Some true) (facts_by (hidden_at self.now) (facts_at self.now) facts) (apart_by (apart_at self.now) apart) (candidates self.now more) }
    {
        self.expects_by(ties, past(rest), facts, apart, more) && drops_first(rest)
    }

    /// Whether what is read doesn't differ.
    pub fn is_same(&self, aim: Aim) -> bool
        ensures { result ≡ listed.is_same (sketch_at self.now) (block_at self.now) (note_at self.now) (aim_of aim) }
    {
        let differs = &self.note.apart.bytes;
        let outer = &self.block.outer;
        match aim {
            Aim::ToByte(byte) => !differs.contains(byte) && !outer.contains(byte),
            Aim::Through => is_within(differs, &self.sketch.hidden)
                && is_within(outer, &self.sketch.hidden),
            Aim::ToFsr => true,
            Aim::ToEvent => true,
            Aim::Nowhere => true,
        }
    }
}
