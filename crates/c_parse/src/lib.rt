//! The parser of C.
//!
//! In: the bytes of a text, and its tokens after directives and replacement. Out: the concrete tree
//! of the grammar that these tokens spell, or why there is none, with its line.
//! The promise: the first token that passes a limit is reported. Where none does, the answer is the one
//! tree of the grammar that the tokens spell, or that they spell none. It may be out of memory in
//! place of either.
//! The call stack is bounded: at most 64 brackets and 256 statements are entered in one another, and
//! everything else that may be long is read by loops, choices in one another too, at any depth. So memory
//! runs out only where an allocation is refused.
#![tactic(auto)]

mod build;
mod declaration;
mod entry;
mod initial;
mod limits;
mod marks;
mod part;
mod statement;
mod unit;

pub use entry::{let_go, parse};
pub use limits::over;
pub use marks::{mark, marks_are_types};
pub use parse_expr::ParseError;
