//! The parser of C expressions, and of the declarators and type names in them.
//!
//! In: the bytes of a text, and its tokens after directives and replacement. Out: the concrete tree
//! in front of these tokens and the tokens after it, or the place where no tree goes on.
//! The promise: what is read is what specs/ reads, which is each tree of the grammar from its
//! spelling, and nothing else.
#![tactic(auto)]

mod build;
pub mod declarator;
mod enumeration;
mod error;
pub mod expression;
pub mod front;
pub mod kind;
mod operand;
mod operator;
mod pointer;
pub mod specifier;
pub mod take;

pub use error::ParseError;
