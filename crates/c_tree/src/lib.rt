//! The concrete trees of a C translation unit, and their spelling.
//!
//! In: a tree, made by the parser. Out: the list of the kinds of its tokens, in order.
//! The promise: the list is the spelling of the tree, as c_nodes defines it by recursion on the tree.
//! The types of the trees are those of c_nodes, on which all that reads trees stands: no step of the compiler spells one.
#![tactic(auto)]

mod marks;
mod printing;
mod spelling;

pub use c_nodes::{expression, statement, word};
pub use printing::spell;
