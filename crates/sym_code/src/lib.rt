//! Symbolic code: instructions of the chip whose operands are bytes by name and whose targets are labels.
//!
//! In: the instructions that selection makes. Out: the same as plain data, and what they do: specs/ defines the steps,
//! events and cost of a run, with a handler that is entered whole directly after an event.
//! No call of this crate runs code. A block keeps that the number of each bit in it is below 8.
#![tactic(auto)]

mod code;
mod touching;

pub use code::{
    BankBit, BitOperation, BlockName, FileOperation, Into, Label, Literal, LiteralOperation,
    Operand, PageBit, PlainOperation, Register, Saved, Sym, SymBlock, SymProgram, Target,
};
pub use touching::{is_bit_write, is_file, touches};
