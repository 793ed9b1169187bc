//! The start block: what the chip runs from reset to main, and how it enters and leaves the interrupt handler.
//!
//! In: the first bytes of the static objects, and which copy is the handler. Out: the block, without selects.
#![tactic(auto)]

mod start;

pub use start::start_block;
