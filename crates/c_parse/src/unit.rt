//! The parser of a whole unit.

ghost use Rattle.std.specs.Prelude.{◌≡◌, map};
ghost use Rattle.c_nodes.specs.Views.{specs_of, declarator_of, suffix_of};
ghost use Rattle.c_nodes.specs.Programs.{is_bracketed, is_function};
ghost use Rattle.c_nodes.specs.ProgramViews.{item_of, unit_of};
ghost use Rattle.parse_expr.specs.Reader.{Gives, over, symbols_in, all_that};
ghost use Rattle.c_parse.specs.Reading.{function_by, variables_by, declared_item_by, item_behind, item_by, next_item_by, unit_by};

use crate::build;
use crate::declaration::{begun_behind, declared_behind};
use crate::statement::block;
use c_nodes::expression::{Declarator, Specs, Suffix};
use c_nodes::statement::{Item, Unit};
use c_token::{Punct, Tok};
use parse_expr::ParseError;
use parse_expr::declarator::declarator;
use parse_expr::specifier::specs;
use parse_expr::take::{Read, Step, behind_punct, punct_comes, stopped};
use std::alloc::Global;

/// How many statements may stand in one another.
const STATEMENTS: u16 = 256;

/// Whether it is a list of parameters.
#[tactic(auto, using(crate::proofs::LastSuffix::array_is, crate::proofs::LastSuffix::empty_is, crate::proofs::LastSuffix::void_is, crate::proofs::LastSuffix::params_is))]
fn is_bracketed(suffix: &Suffix) -> bool
    ensures { result ≡ is_bracketed (suffix_of suffix.now) }
{
    match suffix {
        Suffix::Array { .. } => false,
        Suffix::Empty { .. } => true,
        Suffix::Void { .. } => true,
        Suffix::Params { .. } => true,
    }
}

/// Whether a declarator ends in a list of parameters.
fn is_function(declarator: &Declarator) -> bool
    ensures { result ≡ is_function (declarator_of declarator.now) }
{
    match declarator.suffixes.last() {
        Some(suffix) => is_bracketed(suffix),
        None => false,
    }
}

/// The body of a function, after its declarator.
#[tactic(auto, unfolding(crate::specs::Reading::function_by))]
fn function<'s>(
    alloc: Global,
    text: &[u8],
    last: u32,
    fuel: usize,
    specs: Specs,
    declarator: Declarator,
    toks: &'s [Tok],
) -> Read<'s, Item>
    ensures { Gives (λ x. (item_of x.0, symbols_in text.now x.1.now)) result (function_by fuel (specs_of specs) (declarator_of declarator) (symbols_in text.now toks.now)) }
{
    let (body, rest) = block(alloc, text, last, fuel, STATEMENTS, toks)?;
    Ok((build::function(specs, declarator, body), rest))
}

/// A declaration outside functions, after its first declarator.
#[tactic(auto, unfolding(crate::specs::Reading::variables_by))]
fn variables<'s>(
    alloc: Global,
    text: &[u8],
    last: u32,
    fuel: usize,
    specs: Specs,
    declarator: Declarator,
    toks: &'s [Tok],
) -> Read<'s, Item>
    ensures { Gives (λ x. (item_of x.0, symbols_in text.now x.1.now)) result (variables_by fuel (specs_of specs) (declarator_of declarator) (symbols_in text.now toks.now)) }
{
    let (first, rest) = begun_behind(alloc, text, last, fuel, declarator, toks)?;
    let (declaration, rest) = declared_behind(alloc, text, last, fuel, specs, first, rest)?;
    Ok((build::declared_item(declaration), rest))
}

/// What follows the specifiers and the first declarator.
#[tactic(auto, unfolding(crate::specs::Reading::declared_item_by))]
fn declared_item<'s>(
    alloc: Global,
    text: &[u8],
    last: u32,
    fuel: usize,
    specs: Specs,
    declarator: Declarator,
    toks: &'s [Tok],
) -> Read<'s, Item>
    ensures { Gives (λ x. (item_of x.0, symbols_in text.now x.1.now)) result (declared_item_by fuel (specs_of specs) (declarator_of declarator) (symbols_in text.now toks.now)) }
{
    if is_function(&declarator) && punct_comes(Punct::LeftBrace, toks) {
        return function(alloc, text, last, fuel, specs, declarator, toks);
    }
    variables(alloc, text, last, fuel, specs, declarator, toks)
}

/// What follows the specifiers.
#[tactic(auto, unfolding(crate::specs::Reading::item_behind))]
fn item_behind<'s>(
    alloc: Global,
    text: &[u8],
    last: u32,
    fuel: usize,
    specs: Specs,
    toks: &'s [Tok],
) -> Read<'s, Item>
    ensures { Gives (λ x. (item_of x.0, symbols_in text.now x.1.now)) result (item_behind fuel (specs_of specs) (symbols_in text.now toks.now)) }
{
    if let Some((semicolon, rest)) = behind_punct(Punct::Semicolon, toks) {
        let declaration = build::bare_declaration(specs, semicolon);
        return Ok((build::declared_item(declaration), rest));
    }
    let (declarator, rest) = declarator(alloc, text, last, fuel, toks)?;
    declared_item(alloc, text, last, fuel, specs, declarator, rest)
}

/// `function | declaration`
#[tactic(auto, unfolding(crate::specs::Reading::item_by))]
fn item<'s>(alloc: Global, text: &[u8], last: u32, fuel: usize, toks: &'s [Tok]) -> Read<'s, Item>
    ensures { Gives (λ x. (item_of x.0, symbols_in text.now x.1.now)) result (item_by fuel (symbols_in text.now toks.now)) }
{
    let (specs, rest) = specs(alloc, text, last, fuel, toks)?;
    item_behind(alloc, text, last, fuel, specs, rest)
}

/// `function | declaration`, where a token comes
#[tactic(auto, unfolding(crate::specs::Reading::next_item_by))]
fn next_item<'s>(
    alloc: Global,
    text: &[u8],
    last: u32,
    fuel: usize,
    toks: &'s [Tok],
) -> Step<'s, Item>
    ensures { Gives (over (λ x. (item_of x.0, symbols_in text.now x.1.now))) result (next_item_by fuel (symbols_in text.now toks.now)) }
{
    match toks {
        [_, ..] => {
            let (item, rest) = item(alloc, text, last, fuel, toks)?;
            Ok(Some((item, rest)))
        }
        [] => Ok(None),
    }
}

/// `{ function | declaration }`
fn items<'s>(
    alloc: Global,
    text: &[u8],
    last: u32,
    fuel: usize,
    toks: &'s [Tok],
) -> Read<'s, Vec<Item>>
    ensures { Gives (λ x. (map item_of x.0.items, symbols_in text.now x.1.now)) result (all_that (next_item_by fuel) (symbols_in text.now toks.now)) }
{
    let mut found = Vec::new(alloc);
    let mut rest = toks;
    for _ in 0..toks.len() {
        match next_item(alloc, text, last, fuel, rest)? {
            Some((item, after)) => {
                found.push(item)?;
                rest = after;
            }
            None => return Ok((found, rest)),
        }
    }
    Ok((found, rest))
}

/// The unit that all of the tokens spell.
#[tactic(auto, unfolding(crate::specs::Reading::unit_by))]
pub fn unit(alloc: Global, text: &[u8], last: u32, toks: &[Tok]) -> Result<Unit, ParseError>
    ensures { Gives unit_of result (unit_by (symbols_in text.now toks.now)) }
{
    let (items, rest) = items(alloc, text, last, toks.len(), toks)?;
    match rest {
        [] => Ok(Unit { items }),
        [_, ..] => Err(stopped(last, rest)),
    }
}
