//! The reader of enumerations.

ghost use Rattle.std.specs.Prelude.{◌≡◌, map};
ghost use Rattle.c_nodes.specs.Words.{named, spell_tag};
ghost use Rattle.c_nodes.specs.Views.{spec_of, enumerator_of, next_enumerator_of};
ghost use Rattle.parse_expr.specs.Reader.{Gives, over, symbols_in, all_that};
ghost use Rattle.parse_expr.specs.Reading.{at, enum_by, enum_body_by, enumerator_by, valued_by, next_enumerator_by, enumerators_by};

use crate::build;
use crate::expression::cond;
use crate::kind::is_punct;
use crate::take::{
    Read, Step, behind_comma, behind_name, behind_punct, name, punct, punct_comes, stopped,
};
use c_nodes::expression::{Enumerator, NextEnumerator, Spec};
use c_nodes::word::Name;
use c_token::{Punct, Tok};
use std::alloc::Global;

/// `name | [ name ] "{" enumerator { "," enumerator } [ "," ] "}"`, after `enum`
#[cycle(parse)]
#[tactic(auto, unfolding(crate::specs::Reading::enum_by))]
pub fn enumeration<'s>(
    alloc: Global,
    text: &[u8],
    last: u32,
    fuel: usize,
    keyword: u32,
    toks: &'s [Tok],
) -> Read<'s, Spec>
    ensures { Gives (λ x. (spec_of x.0, symbols_in text.now x.1.now)) result (enum_by (at fuel) keyword (symbols_in text.now toks.now)) }
{
    match behind_name(alloc, text, toks)? {
        Some((tag, rest)) => {
            if punct_comes(Punct::LeftBrace, rest) {
                body(alloc, text, last, fuel, keyword, Some(tag), rest)
            } else {
                Ok((build::enum_reference(keyword, tag), rest))
            }
        }
        None => body(alloc, text, last, fuel, keyword, None, toks),
    }
}

/// `"{" enumerator { "," enumerator } [ "," ] "}"`
#[cycle(parse)]
#[tactic(auto, unfolding(crate::specs::Reading::enum_body_by))]
fn body<'s>(
    alloc: Global,
    text: &[u8],
    last: u32,
    fuel: usize,
    keyword: u32,
    tag: Option<Name>,
    toks: &'s [Tok],
) -> Read<'s, Spec>
    ensures { Gives (λ x. (spec_of x.0, symbols_in text.now x.1.now)) result (enum_body_by (at fuel) keyword (spell_tag tag) (symbols_in text.now toks.now)) }
{
    let (opening, rest) = punct(last, Punct::LeftBrace, toks)?;
    let (enumerators, rest) = inner_enumerators(alloc, text, last, fuel, rest)?;
    let (last_comma, rest) = behind_comma(rest);
    let (closing, rest) = punct(last, Punct::RightBrace, rest)?;
    let braces = (opening, closing);
    let body = build::enum_body(alloc, keyword, tag, braces, enumerators, last_comma)?;
    Ok((body, rest))
}

/// Enumerators where one bracket less may be entered.
#[cycle(parse)]
fn inner_enumerators<'s>(
    alloc: Global,
    text: &[u8],
    last: u32,
    fuel: usize,
    toks: &'s [Tok],
) -> Read<'s, (Enumerator, Vec<NextEnumerator>)>
    ensures { Gives (λ x. ((enumerator_of x.0.0, map next_enumerator_of x.0.1.items), symbols_in text.now x.1.now)) result ((at fuel).enumerators (symbols_in text.now toks.now)) }
{
    if fuel == 0 {
        return Err(stopped(last, toks));
    }
    enumerators(alloc, text, last, fuel - 1, toks)
}

/// `enumerator { "," enumerator }`
#[cycle(parse)]
#[tactic(auto, unfolding(crate::specs::Reading::enumerators_by))]
fn enumerators<'s>(
    alloc: Global,
    text: &[u8],
    last: u32,
    fuel: usize,
    toks: &'s [Tok],
) -> Read<'s, (Enumerator, Vec<NextEnumerator>)>
    ensures { Gives (λ x. ((enumerator_of x.0.0, map next_enumerator_of x.0.1.items), symbols_in text.now x.1.now)) result (enumerators_by (at fuel) (symbols_in text.now toks.now)) }
{
    let (first, rest) = enumerator(alloc, text, last, fuel, toks)?;
    let (others, rest) = more_enumerators(alloc, text, last, fuel, rest)?;
    Ok(((first, others), rest))
}

/// `{ "," enumerator }`
#[cycle(parse)]
fn more_enumerators<'s>(
    alloc: Global,
    text: &[u8],
    last: u32,
    fuel: usize,
    toks: &'s [Tok],
) -> Read<'s, Vec<NextEnumerator>>
    ensures { Gives (λ x. (map next_enumerator_of x.0.items, symbols_in text.now x.1.now)) result (all_that (next_enumerator_by (at fuel)) (symbols_in text.now toks.now)) }
{
    let mut found = Vec::new(alloc);
    let mut rest = toks;
    for _ in 0..toks.len() {
        match next_enumerator(alloc, text, last, fuel, rest)? {
            Some((next, after)) => {
                found.push(next)?;
                rest = after;
            }
            None => return Ok((found, rest)),
        }
    }
    Ok((found, rest))
}

/// A comma that an enumerator follows, and not the end of the list.
#[cycle(parse)]
#[tactic(auto, unfolding(crate::specs::Reading::next_enumerator_by))]
fn next_enumerator<'s>(
    alloc: Global,
    text: &[u8],
    last: u32,
    fuel: usize,
    toks: &'s [Tok],
) -> Step<'s, NextEnumerator>
    ensures { Gives (over (λ x. (next_enumerator_of x.0, symbols_in text.now x.1.now))) result (next_enumerator_by (at fuel) (symbols_in text.now toks.now)) }
{
    match toks {
        [first, rest @ ..] => {
            if !is_punct(Punct::Comma, first.kind) {
                return Ok(None);
            }
            if punct_comes(Punct::RightBrace, rest) {
                return Ok(None);
            }
            let (enumerator, rest) = enumerator(alloc, text, last, fuel, rest)?;
            Ok(Some((build::next_enumerator(first.line, enumerator), rest)))
        }
        [] => Ok(None),
    }
}

/// `name [ "=" cond ]`
#[cycle(parse)]
#[tactic(auto, unfolding(crate::specs::Reading::enumerator_by))]
fn enumerator<'s>(
    alloc: Global,
    text: &[u8],
    last: u32,
    fuel: usize,
    toks: &'s [Tok],
) -> Read<'s, Enumerator>
    ensures { Gives (λ x. (enumerator_of x.0, symbols_in text.now x.1.now)) result (enumerator_by (at fuel) (symbols_in text.now toks.now)) }
{
    let (name, rest) = name(alloc, text, last, toks)?;
    valued(alloc, text, last, fuel, name, rest)
}

/// `[ "=" cond ]`, after the name of an enumerator
#[cycle(parse)]
#[tactic(auto, unfolding(crate::specs::Reading::valued_by))]
fn valued<'s>(
    alloc: Global,
    text: &[u8],
    last: u32,
    fuel: usize,
    name: Name,
    toks: &'s [Tok],
) -> Read<'s, Enumerator>
    ensures { Gives (λ x. (enumerator_of x.0, symbols_in text.now x.1.now)) result (valued_by (at fuel) (named name) (symbols_in text.now toks.now)) }
{
    match behind_punct(Punct::Assign, toks) {
        Some((equals, rest)) => {
            let (value, rest) = cond(alloc, text, last, fuel, rest)?;
            Ok((build::valued(alloc, name, equals, value)?, rest))
        }
        None => Ok((build::bare(name), toks)),
    }
}
