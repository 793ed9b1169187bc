//! What rows of the instruction table make of terms: the fourteen operations on a file byte, the seven with a literal, CLRW, a bit that is tested,
//! cleared or set, and W behind a read of a table.
//!
//! In: the terms of W, the flags, and the byte or the literal of a row. Out: the terms of its result and of the flags behind it.
//! The promise: where the terms before have the values of the registers, those behind have the values that the row computes.
#![tactic(auto)]

pub mod laws;
pub mod rows;
