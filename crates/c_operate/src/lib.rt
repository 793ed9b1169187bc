//! Operators on operands that are checked already.
//!
//! In: an operator's sign, and its operands as terms: typed values, places, or names of functions. Out: the term that they make, with
//! each conversion explicit, or the rule that they break.
//! The promise: a call answers what the rules on names and types (type_rules) say at that place, and leaves in the tables what is
//! known behind it, or is refused with the first rule that is broken and its line, unless memory runs out.
#![tactic(auto)]

pub mod calls;
pub mod operators;
pub mod places;
pub mod primary;
pub mod writes;
