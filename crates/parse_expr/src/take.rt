//! The token in front of a list.

ghost use Rattle.std.specs.Prelude.{◌≡◌, ◌+◌, ℕ, suc, List, Some, None, true, IfOk};
ghost use Rattle.c_nodes.specs.Words.{named, type_named};
ghost use Rattle.c_nodes.specs.Kinds.{is_punct, is_name, is_type_name, is_key, is_spec};
ghost use Rattle.parse_expr.specs.Reader.{Fails, Gives, Shows, symbol_in, symbols_in, front_is, symbol_at, punct_at, key_at, comma_at, specs_come, type_opens};

use crate::error::ParseError;
use crate::kind::{is_keyword, is_name, is_punct, is_spec};
use c_nodes::word::Name;
use c_pre::word_of;
use c_token::{Keyword, Punct, Tok};
use std::alloc::{AllocError, Global};

/// What a reader gives: a part of a tree, and the tokens after it.
pub type Read<'s, T> = Result<(T, &'s [Tok]), ParseError>;

/// What the reader of a part that may be missing gives: None where it is.
pub type Step<'s, T> = Result<Option<(T, &'s [Tok])>, ParseError>;

/// The line of the token in front, or of the last token where none is left.
fn line_at(last: u32, toks: &[Tok]) -> u32 {
    match toks {
        [first, ..] => first.line,
        [] => last,
    }
}

/// The error of a reader that stopped before these tokens; `last` is the line of the last token.
pub fn stopped(last: u32, toks: &[Tok]) -> ParseError
    ensures { Fails {Y = ℕ} result None }
{
    ParseError::Syntax {
        line: line_at(last, toks),
    }
}

/// The line of a punctuator that has to come, and what is after it.
#[tactic(auto, unfolding(crate::specs::Reader::punct_at))]
pub fn punct<'s>(last: u32, wanted: Punct, toks: &'s [Tok]) -> Read<'s, u32>
    ensures { (text : List ℕ) → Gives (λ x. (x.0, symbols_in text x.1.now)) result (punct_at wanted (symbols_in text toks.now)) }
{
    match toks {
        [first, rest @ ..] => {
            if is_punct(wanted, first.kind) {
                Ok((first.line, rest))
            } else {
                Err(stopped(last, toks))
            }
        }
        [] => Err(stopped(last, toks)),
    }
}

/// The same of a punctuator that may be missing.
#[tactic(auto, unfolding(crate::specs::Reader::punct_at))]
pub fn behind_punct<'s>(wanted: Punct, toks: &'s [Tok]) -> Option<(u32, &'s [Tok])>
    ensures { (text : List ℕ) → Shows (λ x. (x.0, symbols_in text x.1.now)) result (punct_at wanted (symbols_in text toks.now)) }
{
    match toks {
        [first, rest @ ..] => {
            if is_punct(wanted, first.kind) {
                Some((first.line, rest))
            } else {
                None
            }
        }
        [] => None,
    }
}

/// The line of a comma, where one comes, and what is after it.
#[tactic(auto, unfolding(crate::specs::Reader::comma_at))]
pub fn behind_comma<'s>(toks: &'s [Tok]) -> (Option<u32>, &'s [Tok])
    ensures { (text : List ℕ) → (result.0, symbols_in text result.1.now) ≡ comma_at (symbols_in text toks.now) }
{
    match behind_punct(Punct::Comma, toks) {
        Some((comma, rest)) => (Some(comma), rest),
        None => (None, toks),
    }
}

/// The line of a keyword that has to come, and what is after it.
#[tactic(auto, unfolding(crate::specs::Reader::key_at))]
pub fn keyword<'s>(last: u32, wanted: Keyword, toks: &'s [Tok]) -> Read<'s, u32>
    ensures { (text : List ℕ) → Gives (λ x. (x.0, symbols_in text x.1.now)) result (key_at wanted (symbols_in text toks.now)) }
{
    match toks {
        [first, rest @ ..] => {
            if is_keyword(wanted, first.kind) {
                Ok((first.line, rest))
            } else {
                Err(stopped(last, toks))
            }
        }
        [] => Err(stopped(last, toks)),
    }
}

/// The same of a keyword that may be missing.
#[tactic(auto, unfolding(crate::specs::Reader::key_at))]
pub fn behind_keyword<'s>(wanted: Keyword, toks: &'s [Tok]) -> Option<(u32, &'s [Tok])>
    ensures { (text : List ℕ) → Shows (λ x. (x.0, symbols_in text x.1.now)) result (key_at wanted (symbols_in text toks.now)) }
{
    match toks {
        [first, rest @ ..] => {
            if is_keyword(wanted, first.kind) {
                Some((first.line, rest))
            } else {
                None
            }
        }
        [] => None,
    }
}

/// A name with a copy of its bytes.
#[tactic(auto, using(crate::proofs::Names::name_is))]
pub fn named(alloc: Global, text: &[u8], tok: &Tok) -> Result<Name, AllocError>
    requires { is_name tok.now.kind ≡ true }
    ensures { IfOk result (λ n. named n ≡ symbol_in text.now tok.now) }
{
    let bytes = word_of(text, *tok).to_vec(alloc)?;
    Ok(Name {
        bytes,
        line: tok.line,
    })
}

/// A marked name with a copy of its bytes.
#[tactic(auto, using(crate::proofs::Names::type_name_is))]
pub fn type_named(alloc: Global, text: &[u8], tok: &Tok) -> Result<Name, AllocError>
    requires { is_type_name tok.now.kind ≡ true }
    ensures { IfOk result (λ n. type_named n ≡ symbol_in text.now tok.now) }
{
    let bytes = word_of(text, *tok).to_vec(alloc)?;
    Ok(Name {
        bytes,
        line: tok.line,
    })
}

/// A name that has to come, and what is after it.
#[tactic(auto, unfolding(crate::specs::Reader::symbol_at))]
pub fn name<'s>(alloc: Global, text: &[u8], last: u32, toks: &'s [Tok]) -> Read<'s, Name>
    ensures { Gives (λ x. (named x.0, symbols_in text.now x.1.now)) result (symbol_at is_name (symbols_in text.now toks.now)) }
{
    match toks {
        [first, rest @ ..] => {
            if is_name(first.kind) {
                Ok((named(alloc, text, first)?, rest))
            } else {
                Err(stopped(last, toks))
            }
        }
        [] => Err(stopped(last, toks)),
    }
}

/// Whether this punctuator comes.
pub fn punct_comes(wanted: Punct, toks: &[Tok]) -> bool
    ensures { (text : List ℕ) → result ≡ front_is (is_punct wanted) (symbols_in text toks.now) }
{
    match toks {
        [first, ..] => is_punct(wanted, first.kind),
        [] => false,
    }
}

/// Whether a name comes.
pub fn name_comes(toks: &[Tok]) -> bool
    ensures { (text : List ℕ) → result ≡ front_is is_name (symbols_in text toks.now) }
{
    match toks {
        [first, ..] => is_name(first.kind),
        [] => false,
    }
}

/// Whether specifiers come.
pub fn specs_come(toks: &[Tok]) -> bool
    ensures { (text : List ℕ) → result ≡ specs_come (symbols_in text toks.now) }
{
    match toks {
        [first, ..] => is_spec(first.kind),
        [] => false,
    }
}

/// Whether `(` comes and specifiers after it.
#[tactic(auto, unfolding(crate::specs::Reader::type_opens))]
pub fn type_opens(toks: &[Tok]) -> bool
    ensures { (text : List ℕ) → result ≡ type_opens (symbols_in text toks.now) }
{
    match toks {
        [first, rest @ ..] => is_punct(Punct::LeftParenthesis, first.kind) && specs_come(rest),
        [] => false,
    }
}

/// A name in front, and what is after it.
#[tactic(auto, unfolding(crate::specs::Reader::symbol_at))]
pub fn behind_name<'s>(
    alloc: Global,
    text: &[u8],
    toks: &'s [Tok],
) -> Result<Option<(Name, &'s [Tok])>, AllocError>
    ensures { IfOk result (λ r. Shows (λ x. (named x.0, symbols_in text.now x.1.now)) r (symbol_at is_name (symbols_in text.now toks.now))) }
{
    match toks {
        [first, rest @ ..] => {
            if is_name(first.kind) {
                Ok(Some((named(alloc, text, first)?, rest)))
            } else {
                Ok(None)
            }
        }
        [] => Ok(None),
    }
}
