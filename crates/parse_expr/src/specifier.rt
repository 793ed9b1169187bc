//! The reader of specifiers, of type names and of structures.

ghost use Rattle.std.specs.Prelude.{◌≡◌, map};
ghost use Rattle.c_nodes.specs.Words.{spell_tag};
ghost use Rattle.c_nodes.specs.Views.{spec_of, specs_of, member_of, type_name_of, next_declarator_of};
ghost use Rattle.parse_expr.specs.Reader.{Gives, over, symbols_in, all_that};
ghost use Rattle.parse_expr.specs.Reading.{at, type_name_by, specs_by, next_spec_by, spec_by, struct_by, body_by, members_by, member_by, next_member_by, next_declarator_by};

use crate::build;
use crate::declarator::declarator;
use crate::enumeration::enumeration;
use crate::kind::{is_keyword, is_punct, is_specifying};
use crate::pointer::pointers;
use crate::take::{Read, Step, behind_name, punct, punct_comes, specs_come, stopped, type_named};
use c_nodes::expression::{Member, NextDeclarator, Spec, Specs, TypeName};
use c_nodes::word::{Name, Word};
use c_token::{Keyword, Punct, Tok, TokKind};
use std::alloc::Global;

/// The name of a type where one bracket less may be entered.
#[cycle(parse)]
pub fn inner_type_name<'s>(
    alloc: Global,
    text: &[u8],
    last: u32,
    fuel: usize,
    toks: &'s [Tok],
) -> Read<'s, TypeName>
    ensures { Gives (λ x. (type_name_of x.0, symbols_in text.now x.1.now)) result ((at fuel).type_name (symbols_in text.now toks.now)) }
{
    if fuel == 0 {
        return Err(stopped(last, toks));
    }
    type_name(alloc, text, last, fuel - 1, toks)
}

/// `specs { pointer }`
#[cycle(parse)]
#[tactic(auto, unfolding(crate::specs::Reading::type_name_by))]
fn type_name<'s>(
    alloc: Global,
    text: &[u8],
    last: u32,
    fuel: usize,
    toks: &'s [Tok],
) -> Read<'s, TypeName>
    ensures { Gives (λ x. (type_name_of x.0, symbols_in text.now x.1.now)) result (type_name_by (at fuel) (symbols_in text.now toks.now)) }
{
    let (specs, rest) = specs(alloc, text, last, fuel, toks)?;
    let (pointers, rest) = pointers(alloc, rest)?;
    Ok((build::type_name(specs, pointers), rest))
}

/// `spec { spec }`
#[cycle(parse)]
#[tactic(auto, unfolding(crate::specs::Reading::specs_by))]
pub fn specs<'s>(
    alloc: Global,
    text: &[u8],
    last: u32,
    fuel: usize,
    toks: &'s [Tok],
) -> Read<'s, Specs>
    ensures { Gives (λ x. (specs_of x.0, symbols_in text.now x.1.now)) result (specs_by (at fuel) (symbols_in text.now toks.now)) }
{
    let (first, rest) = spec(alloc, text, last, fuel, toks)?;
    let (others, rest) = more_specs(alloc, text, last, fuel, rest)?;
    Ok((build::specs(first, others), rest))
}

/// The further specifiers in front.
#[cycle(parse)]
fn more_specs<'s>(
    alloc: Global,
    text: &[u8],
    last: u32,
    fuel: usize,
    toks: &'s [Tok],
) -> Read<'s, Vec<Spec>>
    ensures { Gives (λ x. (map spec_of x.0.items, symbols_in text.now x.1.now)) result (all_that (next_spec_by (at fuel)) (symbols_in text.now toks.now)) }
{
    let mut found = Vec::new(alloc);
    let mut rest = toks;
    for _ in 0..toks.len() {
        match next_spec(alloc, text, last, fuel, rest)? {
            Some((next, after)) => {
                found.push(next)?;
                rest = after;
            }
            None => return Ok((found, rest)),
        }
    }
    Ok((found, rest))
}

/// The specifier in front, where one comes.
#[cycle(parse)]
#[tactic(auto, unfolding(crate::specs::Reading::next_spec_by))]
fn next_spec<'s>(
    alloc: Global,
    text: &[u8],
    last: u32,
    fuel: usize,
    toks: &'s [Tok],
) -> Step<'s, Spec>
    ensures { Gives (over (λ x. (spec_of x.0, symbols_in text.now x.1.now))) result (next_spec_by (at fuel) (symbols_in text.now toks.now)) }
{
    if specs_come(toks) {
        Ok(Some(spec(alloc, text, last, fuel, toks)?))
    } else {
        Ok(None)
    }
}

/// A word, a marked name, a structure or an enumeration.
#[cycle(parse)]
#[tactic(auto, unfolding(crate::specs::Reading::spec_by))]
fn spec<'s>(alloc: Global, text: &[u8], last: u32, fuel: usize, toks: &'s [Tok]) -> Read<'s, Spec>
    ensures { Gives (λ x. (spec_of x.0, symbols_in text.now x.1.now)) result (spec_by (at fuel) (symbols_in text.now toks.now)) }
{
    match toks {
        [first, rest @ ..] => match first.kind {
            TokKind::Keyword(keyword) => {
                let line = first.line;
                if is_specifying(keyword) {
                    Ok((build::word_spec(Word { keyword, line }), rest))
                } else if is_keyword(Keyword::Struct, first.kind) {
                    structure(alloc, text, last, fuel, line, rest)
                } else if is_keyword(Keyword::Enum, first.kind) {
                    enumeration(alloc, text, last, fuel, line, rest)
                } else {
                    Err(stopped(last, toks))
                }
            }
            TokKind::TypeName => Ok((build::named_type(type_named(alloc, text, first)?), rest)),
            _ => Err(stopped(last, toks)),
        },
        [] => Err(stopped(last, toks)),
    }
}

/// `name | [ name ] "{" member { member } "}"`, after `struct`
#[cycle(parse)]
#[tactic(auto, unfolding(crate::specs::Reading::struct_by))]
fn structure<'s>(
    alloc: Global,
    text: &[u8],
    last: u32,
    fuel: usize,
    keyword: u32,
    toks: &'s [Tok],
) -> Read<'s, Spec>
    ensures { Gives (λ x. (spec_of x.0, symbols_in text.now x.1.now)) result (struct_by (at fuel) keyword (symbols_in text.now toks.now)) }
{
    match behind_name(alloc, text, toks)? {
        Some((tag, rest)) => {
            if punct_comes(Punct::LeftBrace, rest) {
                body(alloc, text, last, fuel, keyword, Some(tag), rest)
            } else {
                Ok((build::reference(keyword, tag), rest))
            }
        }
        None => body(alloc, text, last, fuel, keyword, None, toks),
    }
}

/// `"{" member { member } "}"`
#[cycle(parse)]
#[tactic(auto, unfolding(crate::specs::Reading::body_by))]
fn body<'s>(
    alloc: Global,
    text: &[u8],
    last: u32,
    fuel: usize,
    keyword: u32,
    tag: Option<Name>,
    toks: &'s [Tok],
) -> Read<'s, Spec>
    ensures { Gives (λ x. (spec_of x.0, symbols_in text.now x.1.now)) result (body_by (at fuel) keyword (spell_tag tag) (symbols_in text.now toks.now)) }
{
    let (opening, rest) = punct(last, Punct::LeftBrace, toks)?;
    let (members, rest) = inner_members(alloc, text, last, fuel, rest)?;
    let (closing, rest) = punct(last, Punct::RightBrace, rest)?;
    let body = build::body(alloc, keyword, tag, (opening, closing), members)?;
    Ok((body, rest))
}

/// Members where one bracket less may be entered.
#[cycle(parse)]
fn inner_members<'s>(
    alloc: Global,
    text: &[u8],
    last: u32,
    fuel: usize,
    toks: &'s [Tok],
) -> Read<'s, (Member, Vec<Member>)>
    ensures { Gives (λ x. ((member_of x.0.0, map member_of x.0.1.items), symbols_in text.now x.1.now)) result ((at fuel).members (symbols_in text.now toks.now)) }
{
    if fuel == 0 {
        return Err(stopped(last, toks));
    }
    members(alloc, text, last, fuel - 1, toks)
}

/// `member { member }`
#[cycle(parse)]
#[tactic(auto, unfolding(crate::specs::Reading::members_by))]
fn members<'s>(
    alloc: Global,
    text: &[u8],
    last: u32,
    fuel: usize,
    toks: &'s [Tok],
) -> Read<'s, (Member, Vec<Member>)>
    ensures { Gives (λ x. ((member_of x.0.0, map member_of x.0.1.items), symbols_in text.now x.1.now)) result (members_by (at fuel) (symbols_in text.now toks.now)) }
{
    let (first, rest) = member(alloc, text, last, fuel, toks)?;
    let (others, rest) = more_members(alloc, text, last, fuel, rest)?;
    Ok(((first, others), rest))
}

/// The further members in front.
#[cycle(parse)]
fn more_members<'s>(
    alloc: Global,
    text: &[u8],
    last: u32,
    fuel: usize,
    toks: &'s [Tok],
) -> Read<'s, Vec<Member>>
    ensures { Gives (λ x. (map member_of x.0.items, symbols_in text.now x.1.now)) result (all_that (next_member_by (at fuel)) (symbols_in text.now toks.now)) }
{
    let mut found = Vec::new(alloc);
    let mut rest = toks;
    for _ in 0..toks.len() {
        match next_member(alloc, text, last, fuel, rest)? {
            Some((next, after)) => {
                found.push(next)?;
                rest = after;
            }
            None => return Ok((found, rest)),
        }
    }
    Ok((found, rest))
}

/// The members in front, where they come.
#[cycle(parse)]
#[tactic(auto, unfolding(crate::specs::Reading::next_member_by))]
fn next_member<'s>(
    alloc: Global,
    text: &[u8],
    last: u32,
    fuel: usize,
    toks: &'s [Tok],
) -> Step<'s, Member>
    ensures { Gives (over (λ x. (member_of x.0, symbols_in text.now x.1.now))) result (next_member_by (at fuel) (symbols_in text.now toks.now)) }
{
    if specs_come(toks) {
        Ok(Some(member(alloc, text, last, fuel, toks)?))
    } else {
        Ok(None)
    }
}

/// `specs declarator { "," declarator } ";"`
#[cycle(parse)]
#[tactic(auto, unfolding(crate::specs::Reading::member_by))]
fn member<'s>(
    alloc: Global,
    text: &[u8],
    last: u32,
    fuel: usize,
    toks: &'s [Tok],
) -> Read<'s, Member>
    ensures { Gives (λ x. (member_of x.0, symbols_in text.now x.1.now)) result (member_by (at fuel) (symbols_in text.now toks.now)) }
{
    let (specs, rest) = specs(alloc, text, last, fuel, toks)?;
    let (first, rest) = declarator(alloc, text, last, fuel, rest)?;
    let (others, rest) = more_declarators(alloc, text, last, fuel, rest)?;
    let (semicolon, rest) = punct(last, Punct::Semicolon, rest)?;
    Ok((build::member(specs, first, others, semicolon), rest))
}

/// `{ "," declarator }`
#[cycle(parse)]
fn more_declarators<'s>(
    alloc: Global,
    text: &[u8],
    last: u32,
    fuel: usize,
    toks: &'s [Tok],
) -> Read<'s, Vec<NextDeclarator>>
    ensures { Gives (λ x. (map next_declarator_of x.0.items, symbols_in text.now x.1.now)) result (all_that (next_declarator_by (at fuel)) (symbols_in text.now toks.now)) }
{
    let mut found = Vec::new(alloc);
    let mut rest = toks;
    for _ in 0..toks.len() {
        match next_declarator(alloc, text, last, fuel, rest)? {
            Some((next, after)) => {
                found.push(next)?;
                rest = after;
            }
            None => return Ok((found, rest)),
        }
    }
    Ok((found, rest))
}

/// A comma and a declarator.
#[cycle(parse)]
#[tactic(auto, unfolding(crate::specs::Reading::next_declarator_by))]
fn next_declarator<'s>(
    alloc: Global,
    text: &[u8],
    last: u32,
    fuel: usize,
    toks: &'s [Tok],
) -> Step<'s, NextDeclarator>
    ensures { Gives (over (λ x. (next_declarator_of x.0, symbols_in text.now x.1.now))) result (next_declarator_by (at fuel) (symbols_in text.now toks.now)) }
{
    match toks {
        [first, rest @ ..] => {
            if !is_punct(Punct::Comma, first.kind) {
                return Ok(None);
            }
            let (declarator, rest) = declarator(alloc, text, last, fuel, rest)?;
            Ok(Some((build::next_declarator(first.line, declarator), rest)))
        }
        [] => Ok(None),
    }
}
