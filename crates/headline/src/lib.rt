//! The headline: what an image does on the chip, whatever power-on leaves, whatever comes in and wherever interrupts arrive, is a run
//! of the source program that calls the handler whole.
//!
//! In: nothing; the crate has definitions alone. Out: nothing.
//! The promise: none by itself. The headline speaks of a source, by its runs, and of a map and an image; and there is the source of each
//! typed program, as the definitions of src_rules have it. picc_core's and picc_cli's clauses cite both, and so does headline_trace. How far
//! an image's code goes on the chip, and what it touches, is defined beside it, for a chip that has no more than that.
#![tactic(auto)]
