//! What declarations, initializers and jumps say, but for the expressions and bodies in them.
//!
//! In: words of specifiers, suffixes of declarators from the innermost on, parts of objects by their numbers, and places of `break` and
//! `continue`, with what the unit has declared so far. Out: the type that specifiers name, what a declarator declares, the
//! part of an object, the jump; or the rule that is broken.
//! The promise: a call answers what the rules on names and types (type_rules) say at that place, and leaves in the tables what is
//! known behind it, or is refused with the first rule that is broken and its line, unless memory runs out. specs/ has outlines as the
//! rules speak of them.
#![tactic(auto)]

pub mod flow;
pub mod outline;
pub mod slot;
pub mod slots;
pub mod specifiers;
