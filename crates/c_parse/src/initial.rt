//! The parser of initializers.

ghost use Rattle.std.specs.Prelude.{◌≡◌, true, IfOk, map};
ghost use Rattle.c_nodes.specs.Words.{quoted};
ghost use Rattle.c_nodes.specs.Kinds.{is_text};
ghost use Rattle.c_nodes.specs.ProgramViews.{init_of, next_init_of};
ghost use Rattle.parse_expr.specs.Reader.{Gives, over, symbol_in, symbols_in, all_that};
ghost use Rattle.c_parse.specs.Reading.{next_init_by, list_by, value_by, init_by, init_inside, init_at};

use crate::build;
use c_nodes::statement::{Init, NextInit};
use c_nodes::word::Text;
use c_pre::word_of;
use c_token::{Punct, Tok, TokKind};
use parse_expr::expression::assign;
use parse_expr::kind::is_punct;
use parse_expr::take::{Read, Step, behind_comma, punct, punct_comes, stopped};
use std::alloc::{AllocError, Global};

/// Whether it is a string literal.
fn is_text(kind: TokKind) -> bool
    ensures { result ≡ is_text kind }
{
    matches!(kind, TokKind::Text)
}

/// A string with a copy of its bytes.
#[tactic(auto, using(crate::proofs::Strings::text_is))]
fn quoted(alloc: Global, text: &[u8], tok: &Tok) -> Result<Text, AllocError>
    requires { is_text tok.now.kind ≡ true }
    ensures { IfOk result (λ t. quoted t ≡ symbol_in text.now tok.now) }
{
    let bytes = word_of(text, *tok).to_vec(alloc)?;
    Ok(Text {
        bytes,
        line: tok.line,
    })
}

/// An assignment.
#[tactic(auto, unfolding(crate::specs::Reading::value_by))]
fn value<'s>(alloc: Global, text: &[u8], last: u32, fuel: usize, toks: &'s [Tok]) -> Read<'s, Init>
    ensures { Gives (λ x. (init_of x.0, symbols_in text.now x.1.now)) result (value_by fuel (symbols_in text.now toks.now)) }
{
    let (assign, rest) = assign(alloc, text, last, fuel, toks)?;
    Ok((build::value(assign), rest))
}

/// `assign | string | "{" init { "," init } [ "," ] "}"`
#[cycle(init)]
#[tactic(auto, unfolding(crate::specs::Reading::init_by))]
pub fn init<'s>(
    alloc: Global,
    text: &[u8],
    last: u32,
    fuel: usize,
    toks: &'s [Tok],
) -> Read<'s, Init>
    ensures { Gives (λ x. (init_of x.0, symbols_in text.now x.1.now)) result (init_at fuel (symbols_in text.now toks.now)) }
{
    match toks {
        [first, rest @ ..] => {
            if is_punct(Punct::LeftBrace, first.kind) {
                list(alloc, text, last, fuel, first.line, rest)
            } else if is_text(first.kind) {
                Ok((build::text(quoted(alloc, text, first)?), rest))
            } else {
                value(alloc, text, last, fuel, toks)
            }
        }
        [] => Err(stopped(last, toks)),
    }
}

/// An initializer in braces.
#[cycle(init)]
#[tactic(auto, unfolding(crate::specs::Reading::init_inside))]
fn inner_init<'s>(
    alloc: Global,
    text: &[u8],
    last: u32,
    fuel: usize,
    toks: &'s [Tok],
) -> Read<'s, Init>
    ensures { Gives (λ x. (init_of x.0, symbols_in text.now x.1.now)) result (init_inside fuel (symbols_in text.now toks.now)) }
{
    if fuel == 0 {
        return Err(stopped(last, toks));
    }
    init(alloc, text, last, fuel - 1, toks)
}

/// `init { "," init } [ "," ] "}"`, after the brace
#[cycle(init)]
#[tactic(auto, unfolding(crate::specs::Reading::list_by))]
fn list<'s>(
    alloc: Global,
    text: &[u8],
    last: u32,
    fuel: usize,
    opening: u32,
    toks: &'s [Tok],
) -> Read<'s, Init>
    ensures { Gives (λ x. (init_of x.0, symbols_in text.now x.1.now)) result (list_by (init_inside fuel) opening (symbols_in text.now toks.now)) }
{
    let (first, rest) = inner_init(alloc, text, last, fuel, toks)?;
    let (others, rest) = next_inits(alloc, text, last, fuel, rest)?;
    let (last_comma, rest) = behind_comma(rest);
    let (closing, rest) = punct(last, Punct::RightBrace, rest)?;
    Ok((
        build::list(alloc, opening, first, others, last_comma, closing)?,
        rest,
    ))
}

/// A comma that an initializer follows, and not the end of the list.
#[cycle(init)]
#[tactic(auto, unfolding(crate::specs::Reading::next_init_by))]
fn next_init<'s>(
    alloc: Global,
    text: &[u8],
    last: u32,
    fuel: usize,
    toks: &'s [Tok],
) -> Step<'s, NextInit>
    ensures { Gives (over (λ x. (next_init_of x.0, symbols_in text.now x.1.now))) result (next_init_by (init_inside fuel) (symbols_in text.now toks.now)) }
{
    match toks {
        [first, rest @ ..] => {
            if !is_punct(Punct::Comma, first.kind) {
                return Ok(None);
            }
            if punct_comes(Punct::RightBrace, rest) {
                return Ok(None);
            }
            let (init, rest) = inner_init(alloc, text, last, fuel, rest)?;
            Ok(Some((build::next_init(first.line, init), rest)))
        }
        [] => Ok(None),
    }
}

/// `{ "," init }`
#[cycle(init)]
fn next_inits<'s>(
    alloc: Global,
    text: &[u8],
    last: u32,
    fuel: usize,
    toks: &'s [Tok],
) -> Read<'s, Vec<NextInit>>
    ensures { Gives (λ x. (map next_init_of x.0.items, symbols_in text.now x.1.now)) result (all_that (next_init_by (init_inside fuel)) (symbols_in text.now toks.now)) }
{
    let mut found = Vec::new(alloc);
    let mut rest = toks;
    for _ in 0..toks.len() {
        match next_init(alloc, text, last, fuel, rest)? {
            Some((item, after)) => {
                found.push(item)?;
                rest = after;
            }
            None => return Ok((found, rest)),
        }
    }
    Ok((found, rest))
}
