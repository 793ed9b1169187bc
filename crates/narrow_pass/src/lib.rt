//! Byte code whose operators are done on the low bytes alone, where nothing asks for the others; and behind that, whose comparisons and
//! conditions go by low bytes.
//!
//! In: the byte code of a program. Out of `narrow`: byte code in which sums and their like of two and four bytes are done with one, where
//! only the low byte of the result is used. All else is as it was. Out of `test_low_bytes`: comparisons of values for which their low
//! bytes stand are done on these, for equality by the bits that differ; and conditions test the low byte, with their parts changed over
//! where that tells the opposite. Where the test of narrow_code refuses, each call answers the given program once more.
//! The promise: under every schedule what is made goes in step with what is given, makes its events and costs no more, and it uses no
//! other bytes; of `narrow` that the operations are the same in the same places, but for types. Each body is made by the plan of a draft
//! that passes that test, and no pointer leads to another frame than those that the test takes for lent. What is searched for, and how
//! much of it, isn't promised.
#![tactic(auto)]

mod copying;
mod hints;
mod lending;
mod marks;
mod operations;
mod pass;
mod search;
mod turns;
mod walk;

pub use lending::lent_in;
pub use pass::{narrow, test_low_bytes};
