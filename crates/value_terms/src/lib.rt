//! Terms of what bytes and bits hold, over what stood in places before.
//!
//! In: terms and numbers. Out: terms in normal form, whose parts are shared. A builder looks at all of a term, so whoever builds keeps
//! terms small: `size` counts nodes, and where these are many what stands in a new place may take the term's place.
//! The promise: each builder's term is the one of the definition, and has the value of the operation on the values of its parts, whatever
//! stood in the places; terms of one form have one value; and with other terms in the place of atoms a term has the value that it has
//! where these terms' values stand there.
#![tactic(auto)]

pub mod bits;
pub mod carries;
pub mod laws;
pub mod masks;
pub mod putting;
pub mod sums;
pub mod term;

pub use putting::Claim;
pub use term::{Binary, Node, Ternary, Unary};
