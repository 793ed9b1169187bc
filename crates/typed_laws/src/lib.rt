//! What the rules on names and types imply of whatever they give.
//!
//! In: nothing; the crate has laws alone. Out: nothing.
//! The promise: the typed program that the rules give a tree is sound, and at most three times as large as the tree's spelling; and a rule
//! that is told as broken is the first one in the order of the text. What the rules say of a tree is judged_unit of type_rules, the tokens of a
//! tree are spelled_unit of c_nodes, and what a sound program keeps is is_sound of c_typed, which speaks of the typed program alone and of no tree.
#![tactic(auto)]

mod faults;
mod sizes;
mod soundness;

pub use faults::first_fault;
pub use sizes::judged_small;
pub use soundness::judged_sound;
