//! Structured byte code: what a program does, byte by byte, before a chip's instructions are chosen.
//!
//! In: the operations and bodies that the lowering makes. Out: the same as plain data, and what they do: specs/ defines
//! the steps, events and cost of a run, with a handler that is entered whole directly after an event. A run is stuck at
//! every access that a body may not make, and where operands lie so that no code can be selected.
//! No call of this crate runs code. An access to a device register or to a static object is an event. What a run does where
//! a copy reads a table in the place of a body is defined; no body is lowered to that yet.
#![tactic(auto)]

mod code;

pub use code::{Body, Byte, Core, CoreProgram, FirstByte};
