//! Selection keeps the trace: symbolic code, on the chip's own bytes with frames that overlay one another, follows byte code.
//!
//! In: nothing; the crate has definitions, and laws about them. Out: nothing.
//! The promise: symbolic code that was selected for byte code, with the routines, follows it under every schedule of the handler, and costs no
//! more than byte code says. Each routine, called with its operands in its frame, returns without an event, with the bits of the value that C
//! defines in the results, and has changed nothing but these, its frame, W and the flags. The code of each operator that calls none
//! runs to its end without an event, each instruction once at most, and leaves the value's bytes where they are to go, and all else
//! but W and the flags as it was.
#![tactic(auto)]

mod helpers;
mod selection;

pub use helpers::{operators_run, routines_answer};
pub use selection::selection_keeps;
