//! Byte code whose operators are done on the low bytes alone, where nothing asks for the others, or where the low bytes stand for the
//! values, and whose conditions go by these: when a plan of it is right, a test of drafts of such plans, and what code keeps that is made
//! by one.
//!
//! In: nothing; the crate has definitions and their proofs. Out: nothing.
//! The promise: code that is made by a plan that is right follows the given code, step by step, under every schedule, and costs no more.
#![tactic(auto)]

ghost use Rattle.narrow_code.specs.Checked.{TestIsRight};
ghost use Rattle.narrow_code.specs.Drafts.{PlansAreOfCode};
ghost use Rattle.narrow_code.specs.InStep.{NarrowingGoesInStep};
ghost use Rattle.narrow_code.specs.Lending.{AlwaysOpen, LeadsOnly};
ghost use Rattle.narrow_code.specs.Links.{NarrowingKeeps};

/// Code that is made by a plan that is right follows the given code, and goes in step with it; the premise on pointers holds where
/// addresses are taken only of static objects and of frames that the plan has as lent.
pub fn narrowing_keeps()
    ensures follows { NarrowingKeeps }
    ensures in_step { NarrowingGoesInStep }
    ensures lending { AlwaysOpen }
{}

/// A program that takes addresses of objects that are lent alone, static ones and frames, accesses no other ones by pointers.
pub fn leads_only()
    ensures { LeadsOnly }
{}

/// A draft that passes the test makes a plan that is right, and whatever the draft, the plan is one of the given code.
pub fn test_is_right()
    ensures fits { TestIsRight }
    ensures given { PlansAreOfCode }
{}
