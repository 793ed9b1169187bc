//! From a typed program to the code of its copies: statements, first bytes of static objects, and bodies.
//!
//! In: a typed program and its copies. Out: for each copy that is no helper the code of its body, and for each static object
//! what its bytes begin as.
//! No call of this crate runs code. Out of memory is the only refusal.
#![tactic(auto)]

mod declarators;
mod emitting;
mod frames;
mod initials;
mod jumps;
mod labels;
mod program;
mod site;
mod statements;
mod switches;

pub use program::lower;
