//! Data memory, and which frames of function copies may be live together.
//!
//! In: the call graph of a program, its function copies, and the frames of the first of them. Out: the bytes that a copy's frame may not have;
//! and the lowest free run of so many bytes.
//! The promise: taken are just the bytes of the frames of copies that may be live together with the given one: those of the other root, and those of
//! which one reaches the other. A run that is found lies whole in one region, has no byte that is taken, and is the lowest such run.
#![tactic(auto)]

mod live;
mod memory;

pub use live::Graph;
pub use memory::{Span, Taken};
