//! The parser of declarations.

ghost use Rattle.std.specs.Prelude.{◌≡◌, map};
ghost use Rattle.c_nodes.specs.Views.{specs_of, declarator_of};
ghost use Rattle.c_nodes.specs.ProgramViews.{begun_of, next_begun_of, declaration_of};
ghost use Rattle.parse_expr.specs.Reader.{Gives, over, symbols_in, all_that};
ghost use Rattle.c_parse.specs.Reading.{begun_behind, begun_by, next_begun_by, declared_behind, declaration_behind, declaration_by, next_declaration_by};

use crate::build;
use crate::initial::init;
use c_nodes::expression::{Declarator, Specs};
use c_nodes::statement::{Declaration, InitDeclarator, NextInitDeclarator};
use c_token::{Punct, Tok};
use parse_expr::declarator::declarator;
use parse_expr::kind::is_punct;
use parse_expr::specifier::specs;
use parse_expr::take::{Read, Step, behind_punct, punct, specs_come};
use std::alloc::Global;

/// `[ "=" init ]`, after the declarator
#[tactic(auto, unfolding(crate::specs::Reading::begun_behind))]
pub fn begun_behind<'s>(
    alloc: Global,
    text: &[u8],
    last: u32,
    fuel: usize,
    declarator: Declarator,
    toks: &'s [Tok],
) -> Read<'s, InitDeclarator>
    ensures { Gives (λ x. (begun_of x.0, symbols_in text.now x.1.now)) result (begun_behind fuel (declarator_of declarator) (symbols_in text.now toks.now)) }
{
    match behind_punct(Punct::Assign, toks) {
        Some((equals, rest)) => {
            let (init, rest) = init(alloc, text, last, fuel, rest)?;
            Ok((build::begun_as(declarator, equals, init), rest))
        }
        None => Ok((build::begun(declarator), toks)),
    }
}

/// `declarator [ "=" init ]`
#[tactic(auto, unfolding(crate::specs::Reading::begun_by))]
fn begun<'s>(
    alloc: Global,
    text: &[u8],
    last: u32,
    fuel: usize,
    toks: &'s [Tok],
) -> Read<'s, InitDeclarator>
    ensures { Gives (λ x. (begun_of x.0, symbols_in text.now x.1.now)) result (begun_by fuel (symbols_in text.now toks.now)) }
{
    let (declarator, rest) = declarator(alloc, text, last, fuel, toks)?;
    begun_behind(alloc, text, last, fuel, declarator, rest)
}

/// A comma, and what it separates.
#[tactic(auto, unfolding(crate::specs::Reading::next_begun_by))]
fn next_begun<'s>(
    alloc: Global,
    text: &[u8],
    last: u32,
    fuel: usize,
    toks: &'s [Tok],
) -> Step<'s, NextInitDeclarator>
    ensures { Gives (over (λ x. (next_begun_of x.0, symbols_in text.now x.1.now))) result (next_begun_by fuel (symbols_in text.now toks.now)) }
{
    match toks {
        [first, rest @ ..] => {
            if !is_punct(Punct::Comma, first.kind) {
                return Ok(None);
            }
            let (declarator, rest) = begun(alloc, text, last, fuel, rest)?;
            Ok(Some((build::next_begun(first.line, declarator), rest)))
        }
        [] => Ok(None),
    }
}

/// `{ "," declarator [ "=" init ] }`
fn next_begins<'s>(
    alloc: Global,
    text: &[u8],
    last: u32,
    fuel: usize,
    toks: &'s [Tok],
) -> Read<'s, Vec<NextInitDeclarator>>
    ensures { Gives (λ x. (map next_begun_of x.0.items, symbols_in text.now x.1.now)) result (all_that (next_begun_by fuel) (symbols_in text.now toks.now)) }
{
    let mut found = Vec::new(alloc);
    let mut rest = toks;
    for _ in 0..toks.len() {
        match next_begun(alloc, text, last, fuel, rest)? {
            Some((item, after)) => {
                found.push(item)?;
                rest = after;
            }
            None => return Ok((found, rest)),
        }
    }
    Ok((found, rest))
}

/// `{ "," declarator [ "=" init ] } ";"`, after the first declarator
#[tactic(auto, unfolding(crate::specs::Reading::declared_behind))]
pub fn declared_behind<'s>(
    alloc: Global,
    text: &[u8],
    last: u32,
    fuel: usize,
    specs: Specs,
    first: InitDeclarator,
    toks: &'s [Tok],
) -> Read<'s, Declaration>
    ensures { Gives (λ x. (declaration_of x.0, symbols_in text.now x.1.now)) result (declared_behind fuel (specs_of specs) (begun_of first) (symbols_in text.now toks.now)) }
{
    let (others, rest) = next_begins(alloc, text, last, fuel, toks)?;
    let (semicolon, rest) = punct(last, Punct::Semicolon, rest)?;
    Ok((build::declaration(specs, first, others, semicolon), rest))
}

/// `[ declarator [ "=" init ] { "," declarator [ "=" init ] } ] ";"`, after the specifiers
#[tactic(auto, unfolding(crate::specs::Reading::declaration_behind))]
fn declaration_behind<'s>(
    alloc: Global,
    text: &[u8],
    last: u32,
    fuel: usize,
    specs: Specs,
    toks: &'s [Tok],
) -> Read<'s, Declaration>
    ensures { Gives (λ x. (declaration_of x.0, symbols_in text.now x.1.now)) result (declaration_behind fuel (specs_of specs) (symbols_in text.now toks.now)) }
{
    if let Some((semicolon, rest)) = behind_punct(Punct::Semicolon, toks) {
        return Ok((build::bare_declaration(specs, semicolon), rest));
    }
    let (first, rest) = begun(alloc, text, last, fuel, toks)?;
    declared_behind(alloc, text, last, fuel, specs, first, rest)
}

/// A declaration.
#[tactic(auto, unfolding(crate::specs::Reading::declaration_by))]
fn declaration<'s>(
    alloc: Global,
    text: &[u8],
    last: u32,
    fuel: usize,
    toks: &'s [Tok],
) -> Read<'s, Declaration>
    ensures { Gives (λ x. (declaration_of x.0, symbols_in text.now x.1.now)) result (declaration_by fuel (symbols_in text.now toks.now)) }
{
    let (specs, rest) = specs(alloc, text, last, fuel, toks)?;
    declaration_behind(alloc, text, last, fuel, specs, rest)
}

/// A declaration, where specifiers come.
#[tactic(auto, unfolding(crate::specs::Reading::next_declaration_by))]
fn next_declaration<'s>(
    alloc: Global,
    text: &[u8],
    last: u32,
    fuel: usize,
    toks: &'s [Tok],
) -> Step<'s, Declaration>
    ensures { Gives (over (λ x. (declaration_of x.0, symbols_in text.now x.1.now))) result (next_declaration_by fuel (symbols_in text.now toks.now)) }
{
    if !specs_come(toks) {
        return Ok(None);
    }
    let (declaration, rest) = declaration(alloc, text, last, fuel, toks)?;
    Ok(Some((declaration, rest)))
}

/// The declarations at the beginning of a block.
pub fn declarations<'s>(
    alloc: Global,
    text: &[u8],
    last: u32,
    fuel: usize,
    toks: &'s [Tok],
) -> Read<'s, Vec<Declaration>>
    ensures { Gives (λ x. (map declaration_of x.0.items, symbols_in text.now x.1.now)) result (all_that (next_declaration_by fuel) (symbols_in text.now toks.now)) }
{
    let mut found = Vec::new(alloc);
    let mut rest = toks;
    for _ in 0..toks.len() {
        match next_declaration(alloc, text, last, fuel, rest)? {
            Some((item, after)) => {
                found.push(item)?;
                rest = after;
            }
            None => return Ok((found, rest)),
        }
    }
    Ok((found, rest))
}
