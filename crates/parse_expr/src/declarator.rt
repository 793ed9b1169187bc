//! The reader of declarators.

ghost use Rattle.std.specs.Prelude.{◌≡◌, map};
ghost use Rattle.c_nodes.specs.Words.{spell_pointers};
ghost use Rattle.c_nodes.specs.Views.{declarator_of, suffix_of, specs_of, param_of, next_param_of};
ghost use Rattle.parse_expr.specs.Reader.{Gives, over, symbols_in, all_that};
ghost use Rattle.parse_expr.specs.Reading.{at, declarator_by, named_by, suffix_by, array_by, length_by, function_by, list_by, params_by, next_param_by, param_by, param_behind, named_param_by, unnamed_by};

use crate::build;
use crate::expression::inner_size;
use crate::kind::is_punct;
use crate::pointer::{behind_void, is_bare_void, pointers};
use crate::specifier::specs;
use crate::take::{Read, Step, behind_punct, name, name_comes, punct, stopped};
use c_nodes::expression::{Declarator, NextParam, Param, Specs, Suffix};
use c_nodes::word::Pointer;
use c_token::{Punct, Tok};
use std::alloc::Global;

/// `{ pointer } name { suffix }`
#[cycle(parse)]
#[tactic(auto, unfolding(crate::specs::Reading::declarator_by))]
pub fn declarator<'s>(
    alloc: Global,
    text: &[u8],
    last: u32,
    fuel: usize,
    toks: &'s [Tok],
) -> Read<'s, Declarator>
    ensures { Gives (λ x. (declarator_of x.0, symbols_in text.now x.1.now)) result (declarator_by (at fuel) (symbols_in text.now toks.now)) }
{
    let (pointers, rest) = pointers(alloc, toks)?;
    named(alloc, text, last, fuel, pointers, rest)
}

/// `name { suffix }`, after the pointers of a declarator
#[cycle(parse)]
#[tactic(auto, unfolding(crate::specs::Reading::named_by))]
fn named<'s>(
    alloc: Global,
    text: &[u8],
    last: u32,
    fuel: usize,
    pointers: Vec<Pointer>,
    toks: &'s [Tok],
) -> Read<'s, Declarator>
    ensures { Gives (λ x. (declarator_of x.0, symbols_in text.now x.1.now)) result (named_by (at fuel) (spell_pointers pointers.items) (symbols_in text.now toks.now)) }
{
    let (name, rest) = name(alloc, text, last, toks)?;
    let (suffixes, rest) = suffixes(alloc, text, last, fuel, rest)?;
    Ok((build::declarator(pointers, name, suffixes), rest))
}

/// The suffixes in front.
#[cycle(parse)]
fn suffixes<'s>(
    alloc: Global,
    text: &[u8],
    last: u32,
    fuel: usize,
    toks: &'s [Tok],
) -> Read<'s, Vec<Suffix>>
    ensures { Gives (λ x. (map suffix_of x.0.items, symbols_in text.now x.1.now)) result (all_that (suffix_by (at fuel)) (symbols_in text.now toks.now)) }
{
    let mut found = Vec::new(alloc);
    let mut rest = toks;
    for _ in 0..toks.len() {
        match suffix(alloc, text, last, fuel, rest)? {
            Some((next, after)) => {
                found.push(next)?;
                rest = after;
            }
            None => return Ok((found, rest)),
        }
    }
    Ok((found, rest))
}

/// The suffix in front, where one comes.
#[cycle(parse)]
#[tactic(auto, unfolding(crate::specs::Reading::suffix_by))]
fn suffix<'s>(
    alloc: Global,
    text: &[u8],
    last: u32,
    fuel: usize,
    toks: &'s [Tok],
) -> Step<'s, Suffix>
    ensures { Gives (over (λ x. (suffix_of x.0, symbols_in text.now x.1.now))) result (suffix_by (at fuel) (symbols_in text.now toks.now)) }
{
    match toks {
        [first, rest @ ..] => {
            if is_punct(Punct::LeftBracket, first.kind) {
                return Ok(Some(array(alloc, text, last, fuel, first.line, rest)?));
            }
            if is_punct(Punct::LeftParenthesis, first.kind) {
                return Ok(Some(function(alloc, text, last, fuel, first.line, rest)?));
            }
            Ok(None)
        }
        [] => Ok(None),
    }
}

/// `[ cond ] "]"`, after the bracket of an array
#[cycle(parse)]
#[tactic(auto, unfolding(crate::specs::Reading::array_by))]
fn array<'s>(
    alloc: Global,
    text: &[u8],
    last: u32,
    fuel: usize,
    opening: u32,
    toks: &'s [Tok],
) -> Read<'s, Suffix>
    ensures { Gives (λ x. (suffix_of x.0, symbols_in text.now x.1.now)) result (array_by (at fuel) opening (symbols_in text.now toks.now)) }
{
    match behind_punct(Punct::RightBracket, toks) {
        Some((closing, rest)) => Ok((build::unsized_array(opening, closing), rest)),
        None => length(alloc, text, last, fuel, opening, toks),
    }
}

/// `cond "]"`
#[cycle(parse)]
#[tactic(auto, unfolding(crate::specs::Reading::length_by))]
fn length<'s>(
    alloc: Global,
    text: &[u8],
    last: u32,
    fuel: usize,
    opening: u32,
    toks: &'s [Tok],
) -> Read<'s, Suffix>
    ensures { Gives (λ x. (suffix_of x.0, symbols_in text.now x.1.now)) result (length_by (at fuel) opening (symbols_in text.now toks.now)) }
{
    let (length, rest) = inner_size(alloc, text, last, fuel, toks)?;
    let (closing, rest) = punct(last, Punct::RightBracket, rest)?;
    Ok((build::array(alloc, opening, length, closing)?, rest))
}

/// `")" | "void" ")" | param { "," param } ")"`, after the bracket of a function
#[cycle(parse)]
#[tactic(auto, unfolding(crate::specs::Reading::function_by))]
fn function<'s>(
    alloc: Global,
    text: &[u8],
    last: u32,
    fuel: usize,
    opening: u32,
    toks: &'s [Tok],
) -> Read<'s, Suffix>
    ensures { Gives (λ x. (suffix_of x.0, symbols_in text.now x.1.now)) result (function_by (at fuel) opening (symbols_in text.now toks.now)) }
{
    if let Some((closing, rest)) = behind_punct(Punct::RightParenthesis, toks) {
        return Ok((build::no_params(opening, closing), rest));
    }
    match behind_void(toks) {
        Some(((void, closing), rest)) => Ok((build::void_params(opening, void, closing), rest)),
        None => list(alloc, text, last, fuel, opening, toks),
    }
}

/// `param { "," param } ")"`
#[cycle(parse)]
#[tactic(auto, unfolding(crate::specs::Reading::list_by))]
fn list<'s>(
    alloc: Global,
    text: &[u8],
    last: u32,
    fuel: usize,
    opening: u32,
    toks: &'s [Tok],
) -> Read<'s, Suffix>
    ensures { Gives (λ x. (suffix_of x.0, symbols_in text.now x.1.now)) result (list_by (at fuel) opening (symbols_in text.now toks.now)) }
{
    let (params, rest) = inner_params(alloc, text, last, fuel, toks)?;
    let (closing, rest) = punct(last, Punct::RightParenthesis, rest)?;
    Ok((build::params(alloc, opening, params, closing)?, rest))
}

/// Parameters where one bracket less may be entered.
#[cycle(parse)]
fn inner_params<'s>(
    alloc: Global,
    text: &[u8],
    last: u32,
    fuel: usize,
    toks: &'s [Tok],
) -> Read<'s, (Param, Vec<NextParam>)>
    ensures { Gives (λ x. ((param_of x.0.0, map next_param_of x.0.1.items), symbols_in text.now x.1.now)) result ((at fuel).params (symbols_in text.now toks.now)) }
{
    if fuel == 0 {
        return Err(stopped(last, toks));
    }
    params(alloc, text, last, fuel - 1, toks)
}

/// `param { "," param }`
#[cycle(parse)]
#[tactic(auto, unfolding(crate::specs::Reading::params_by))]
fn params<'s>(
    alloc: Global,
    text: &[u8],
    last: u32,
    fuel: usize,
    toks: &'s [Tok],
) -> Read<'s, (Param, Vec<NextParam>)>
    ensures { Gives (λ x. ((param_of x.0.0, map next_param_of x.0.1.items), symbols_in text.now x.1.now)) result (params_by (at fuel) (symbols_in text.now toks.now)) }
{
    let (first, rest) = param(alloc, text, last, fuel, toks)?;
    let (others, rest) = more_params(alloc, text, last, fuel, rest)?;
    Ok(((first, others), rest))
}

/// `{ "," param }`
#[cycle(parse)]
fn more_params<'s>(
    alloc: Global,
    text: &[u8],
    last: u32,
    fuel: usize,
    toks: &'s [Tok],
) -> Read<'s, Vec<NextParam>>
    ensures { Gives (λ x. (map next_param_of x.0.items, symbols_in text.now x.1.now)) result (all_that (next_param_by (at fuel)) (symbols_in text.now toks.now)) }
{
    let mut found = Vec::new(alloc);
    let mut rest = toks;
    for _ in 0..toks.len() {
        match next_param(alloc, text, last, fuel, rest)? {
            Some((next, after)) => {
                found.push(next)?;
                rest = after;
            }
            None => return Ok((found, rest)),
        }
    }
    Ok((found, rest))
}

/// A comma and a parameter.
#[cycle(parse)]
#[tactic(auto, unfolding(crate::specs::Reading::next_param_by))]
fn next_param<'s>(
    alloc: Global,
    text: &[u8],
    last: u32,
    fuel: usize,
    toks: &'s [Tok],
) -> Step<'s, NextParam>
    ensures { Gives (over (λ x. (next_param_of x.0, symbols_in text.now x.1.now))) result (next_param_by (at fuel) (symbols_in text.now toks.now)) }
{
    match toks {
        [first, rest @ ..] => {
            if !is_punct(Punct::Comma, first.kind) {
                return Ok(None);
            }
            let (param, rest) = param(alloc, text, last, fuel, rest)?;
            Ok(Some((build::next_param(first.line, param), rest)))
        }
        [] => Ok(None),
    }
}

/// `specs declarator | specs { pointer } { suffix }`
#[cycle(parse)]
#[tactic(auto, unfolding(crate::specs::Reading::param_by, crate::specs::Reading::param_behind))]
fn param<'s>(alloc: Global, text: &[u8], last: u32, fuel: usize, toks: &'s [Tok]) -> Read<'s, Param>
    ensures { Gives (λ x. (param_of x.0, symbols_in text.now x.1.now)) result (param_by (at fuel) (symbols_in text.now toks.now)) }
{
    let (specs, rest) = specs(alloc, text, last, fuel, toks)?;
    let (pointers, rest) = pointers(alloc, rest)?;
    if name_comes(rest) {
        named_param(alloc, text, last, fuel, specs, pointers, rest)
    } else {
        unnamed_param(alloc, text, last, fuel, specs, pointers, rest)
    }
}

/// `name { suffix }`, after the specifiers and the pointers of a parameter
#[cycle(parse)]
#[tactic(auto, unfolding(crate::specs::Reading::named_param_by))]
fn named_param<'s>(
    alloc: Global,
    text: &[u8],
    last: u32,
    fuel: usize,
    specs: Specs,
    pointers: Vec<Pointer>,
    toks: &'s [Tok],
) -> Read<'s, Param>
    ensures { Gives (λ x. (param_of x.0, symbols_in text.now x.1.now)) result (named_param_by (at fuel) (specs_of specs) (spell_pointers pointers.items) (symbols_in text.now toks.now)) }
{
    let (declarator, rest) = named(alloc, text, last, fuel, pointers, toks)?;
    Ok((build::named_param(specs, declarator), rest))
}

/// `{ suffix }`, after the specifiers and the pointers of a parameter
#[cycle(parse)]
#[tactic(auto, unfolding(crate::specs::Reading::unnamed_by))]
fn unnamed_param<'s>(
    alloc: Global,
    text: &[u8],
    last: u32,
    fuel: usize,
    specs: Specs,
    pointers: Vec<Pointer>,
    toks: &'s [Tok],
) -> Read<'s, Param>
    ensures { Gives (λ x. (param_of x.0, symbols_in text.now x.1.now)) result (unnamed_by (at fuel) (specs_of specs) (spell_pointers pointers.items) (symbols_in text.now toks.now)) }
{
    let (suffixes, rest) = suffixes(alloc, text, last, fuel, toks)?;
    if is_bare_void(&specs, &pointers, &suffixes) {
        return Err(stopped(last, rest));
    }
    Ok((build::unnamed_param(specs, pointers, suffixes), rest))
}
