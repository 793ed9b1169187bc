//! What a unit has declared so far: names, types, functions, static objects and the body that is checked; and why a unit has no
//! typed tree.
//!
//! In: names, types and values of declarations, in the order of the text. Out: what a name, a tag or a number stands for at
//! that place.
//! The promise: a call answers what the rules on names and types (type_rules) say at that place, and leaves in the tables what is
//! known behind it, or is refused with the first rule that is broken and its line, unless memory runs out. specs/ has the tables as
//! the rules speak of them.
#![tactic(auto)]

pub mod body;
pub mod checker;
pub mod error;
pub mod functions;
pub mod scope;
pub mod statics;
pub mod types;
