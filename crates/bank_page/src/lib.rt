//! Selects: the bank of each access, and the page of each jump, call and read of a table.
//!
//! In: symbolic code without selects, and where objects and frames stand. Out: the same code with the selects that it needs.
//! The promise: taken out, the selects leave the code as it was; every access, jump and call finds what it needs; and no select
//! sets what straight code tells to be so. What is known, and kinds of instructions, serve the passes behind it too.
#![tactic(auto)]

pub mod kinds;
pub mod known;
mod needs;
mod ready;
mod selecting;

pub use ready::can_select;
pub use selecting::{put_made, selects_plain};
