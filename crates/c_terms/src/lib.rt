//! Expressions that are checked already, which are terms: their values, conversions between types, and the types that binary
//! operators take and give.
//!
//! In: terms and types, with what the unit has declared so far. Out: the value of a term, or that in another type; the types of an
//! operator's operands and of its result; or the rule that is broken.
//! The promise: a call answers what the rules on names and types (type_rules) say, and leaves in the tables what is known behind
//! it, or is refused with the first rule that is broken and its line, unless memory runs out. specs/ has terms as the rules speak of
//! them.
#![tactic(auto)]

pub mod conversion;
pub mod nodes;
pub mod operation;
pub mod term;
