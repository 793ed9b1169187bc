//! The run of a program on the chip beside that of its source.
//!
//! In: a typed program, its image and its map, a script, and a number of instructions. Out: how many events the chip has made, or an
//! undefined step of the source.
//! The promise: an undefined step is told exactly where one is met that counts by the definition (specs/Agreement.antt), and of several
//! the first. Otherwise the number is the length of the chip's trace, which stands at the front of the source's.
#![tactic(auto)]

mod comparing;
mod searching;
mod source_run;

pub use comparing::{Agreed, agree};
