//! The tokens of a C source text.
//!
//! In: the bytes of the text. Out: the list of its tokens, each with its kind, its span and its
//! line, or the first place where no token stands.
//! The promise: at each place the longest token of the language stands, spans are in order, and an
//! error names the line of the first place that has no token.
#![tactic(auto)]

ghost use Rattle.std.specs.Prelude.{◌≡◌, ℕ, List, Some, None, Ok, All};
ghost use Rattle.c_token.specs.Gaps.{IsCut};
ghost use Rattle.c_token.specs.Longest.{IsLongest, IsLongestIn, StandsNone};
ghost use Rattle.c_token.specs.Text.{tokens_of};
ghost use Rattle.c_token.specs.Token.{token_at};
ghost use Rattle.c_token.specs.declared.token.Tok.{Tok};
ghost use Rattle.c_token.specs.declared.token.TokKind.{TokKind};

mod bytes;
mod constant;
mod piece;
mod scan;
pub mod spelling;
pub mod token;

pub use scan::raw;
pub use token::{Keyword, LexError, Punct, Tok, TokKind};

/// The token that is read at the front of a text, neither white space nor a comment, is the longest
/// that stands there (ISO/IEC 9899:1990, 6.1), and where none is read, none stands.
/// So each token of a text is the longest at its place, and what stands before, between and behind its tokens is white space and
/// comments (6.1.9; those with `//` too).
pub fn longest_token()
    ensures found { (text : List ℕ) (k : TokKind) (n : ℕ) → token_at text ≡ Some (k, n) → IsLongest text k n }
    ensures none { (text : List ℕ) → token_at text ≡ None → StandsNone text }
    ensures each { (text : List ℕ) (tokens : List Tok) → tokens_of text ≡ Ok tokens → All (IsLongestIn text) tokens }
    ensures gaps { (text : List ℕ) (tokens : List Tok) → tokens_of text ≡ Ok tokens → IsCut text 0 tokens }
{}
