//! Expressions, specifiers and declarators, from the root of their tree down.
//!
//! In: their trees, and what the unit has declared so far. Out: the term that an expression is, the value
//! of a constant one, and what a declarator declares, or the first node that breaks a rule.
//! The promise: each call answers what the rules (type_rules) say of its tree at that place, with what is known behind it, or is
//! refused with the first rule that is broken and its line, unless memory runs out.
#![tactic(auto)]

pub mod constants;
pub mod declarator;
mod enumerators;
pub mod expression;
pub mod lines;
mod prefixes;
mod type_name;
