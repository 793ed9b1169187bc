//! Symbolic code without the instructions that what is known makes needless: what a certificate of it says, the test of one, and what
//! code keeps that passes it.
//!
//! In: nothing; the crate has definitions and their proofs. Out: nothing.
//! The promise: code that is made by a certificate that passes the test follows the given code, under every schedule, costs no more
//! and no less than the instructions that stay, has no more words, and names no byte but those that the given code names and bytes before
//! these in their frames.
#![tactic(auto)]

ghost use Rattle.lean_code.specs.Checked.{TestIsRight};
ghost use Rattle.lean_code.specs.Admissible.{TestedIsAdmissible, KeptIsSame, BytesKeep};
ghost use Rattle.lean_code.specs.Links.{CarriedIsCheaper, LeanKeeps};
ghost use Rattle.lean_code.specs.Sample.{SamplePasses};
ghost use Rattle.lean_code.specs.Shrinks.{RowsShrink, RowsKeep};
ghost use Rattle.lean_code.specs.Weighed.{LeanWeighed};

/// Code that is made by a certificate that is right follows the given code, at any prices by which no instruction that stays costs more
/// than before; so at those that the made code's own prices carry back.
pub fn lean_keeps()
    ensures follows { LeanKeeps }
    ensures carried { CarriedIsCheaper }
{}

/// So it does where only what surely stays counts.
pub fn lean_weighed()
    ensures { LeanWeighed }
{}

/// A certificate that passes the tests of what a pass needs besides is admissible, and what stays as it is is the given code.
pub fn tested_is_admissible()
    ensures admissible { TestedIsAdmissible }
    ensures same { KeptIsSame }
{}

/// A certificate that passes the test is right.
pub fn test_is_right()
    ensures { TestIsRight }
{}

/// The code that is made has no more words, and names nothing that the given code doesn't name but bytes before others in their frames.
pub fn rows_shrink()
    ensures shorter { RowsShrink }
    ensures kept { RowsKeep }
    ensures bytes { BytesKeep }
{}

/// A certificate of a program of fifteen instructions, of which six are left, passes the test.
pub fn sample_passes()
    ensures { SamplePasses }
{}
