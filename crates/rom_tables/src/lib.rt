//! Const arrays of characters in program memory: each read of one becomes a call.
//!
//! In: a typed program. Out: the program in which each read of a table is a call of its reader, the numbers of the tables
//! among the static objects, and of each table the number of its reader.
//! The promise: the program is the one that specs/Outlined.antt defines, and it is sound as the given one is. Static
//! objects, functions and types keep their numbers; readers stand behind all functions, and a type that a reader points to behind all types.
#![tactic(auto)]

mod expression;
mod laws;
mod pass;
mod program;
mod readers;
mod statement;
mod tables;

pub use laws::outlined_laws;
pub use pass::{Outlined, outline};
