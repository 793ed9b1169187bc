//! The tokens of a C program: what directives and the replacement of names leave.
//!
//! In: a text and its tokens. Out: the tokens outside directive lines, each defined name replaced by
//! its list, or the first refusal.
//! The promise: the result is the replacement that the definitions before each place say, and an
//! error stands where the first excluded word, the first bad directive or the 262,145th step is.
//! Time: each name of the text is looked up once, in as many comparisons as the logarithm of the number
//! of definitions, and each of the 262,144 steps takes constant time. Both hold for any text.
#![tactic(auto)]

mod directive;
mod names;
mod program;
mod replace;
mod words;

pub use program::tokens;
pub use words::word_of;

/// Why a text's tokens are no program's.
#[derive(Clone, Copy, PartialEq, Eq, Debug)]
pub enum PreError {
    /// Memory ran out.
    NoMemory,
    /// An excluded word stands on this line.
    Word { line: u32 },
    /// A line that begins with `#` is no directive of the language.
    Directive { line: u32 },
    /// On this line the tokens left and the names replaced come to be over 262,144.
    Tokens { line: u32 },
}
