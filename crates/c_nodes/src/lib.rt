//! The concrete trees of a C translation unit.
//!
//! In: nothing. Out: the types of the trees, one for each line of the grammar; specs/ has what each is as pure data, how that
//! is spelled, and when it is a tree of the grammar.
//! The promise: each tree of the code is one of the pure data, and whoever makes one shows of which parts it is made.
#![tactic(auto)]

pub mod expression;
pub mod statement;
pub mod word;
