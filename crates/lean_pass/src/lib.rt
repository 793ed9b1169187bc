//! Symbolic code without the instructions that what is known makes needless.
//!
//! In: the blocks of a program without selects, where its objects and frames stand, which copy is the handler, how many bytes the
//! variables of each copy have, and to which copies' frames pointers may lead. Out: the same blocks without instructions whose results
//! nobody reads or that change nothing, and with operations on numbers, or on W, in place of some, and variables in place of their
//! copies. What counts as a step of the source stays where something comes.
//! The promise: the blocks are those that a certificate makes that passes the test of lean_code, or the given ones; so what lean_code
//! promises of such code holds of them. How a certificate is searched for is nobody's concern, and how much is left out isn't promised.
#![tactic(auto)]

mod admissible;
mod behind;
mod clearing;
mod computing;
mod copies;
mod dropping;
mod hidden;
mod keeping;
mod making;
mod marks;
mod operations;
mod owners;
mod pass;
mod reading;
mod rows;
mod search;
mod sets;
mod shown;
mod steady;
mod testing;
mod walk;

pub use pass::lean;
pub use rows::{Act, Apart, ByteSet, Facts, FlagName, LeanBlock, Note, Row, Shown, Sketch};
pub use testing::is_lean;
