//! The reader of operands.

ghost use Rattle.std.specs.Prelude.{◌≡◌, map};
ghost use Rattle.c_nodes.specs.Views.{operand_of, postfix_suffix_of, prefix_of, primary_of, cast_of, expr_of, postfix_of, type_name_of};
ghost use Rattle.parse_expr.specs.Reader.{Gives, over, symbols_in, all_that};
ghost use Rattle.parse_expr.specs.Reading.{at, unary_by, prefix_by, operand_by, postfix_by, post_by, primary_by, group_by, index_by, call_by, bracketed_by, cast_by};

use crate::build;
use crate::expression::inner_expr;
use crate::kind::is_punct;
use crate::operator::{leaf, plain_post, plain_prefix};
use crate::specifier::inner_type_name;
use crate::take::{Read, Step, behind_keyword, behind_punct, punct, stopped, type_opens};
use c_nodes::expression::{Cast, Operand, Postfix, PostfixSuffix, Prefix, Primary, TypeName};
use c_token::{Keyword, Punct, Tok};
use std::alloc::Global;

/// `{ prefix } operand`
#[cycle(parse)]
#[tactic(auto, unfolding(crate::specs::Reading::unary_by))]
pub fn unary<'s>(
    alloc: Global,
    text: &[u8],
    last: u32,
    fuel: usize,
    toks: &'s [Tok],
) -> Read<'s, Cast>
    ensures { Gives (λ x. (cast_of x.0, symbols_in text.now x.1.now)) result (unary_by (at fuel) (symbols_in text.now toks.now)) }
{
    let (prefixes, rest) = prefixes(alloc, text, last, fuel, toks)?;
    let (operand, rest) = operand(alloc, text, last, fuel, rest)?;
    Ok((build::cast(prefixes, operand), rest))
}

/// The prefixes in front.
#[cycle(parse)]
fn prefixes<'s>(
    alloc: Global,
    text: &[u8],
    last: u32,
    fuel: usize,
    toks: &'s [Tok],
) -> Read<'s, Vec<Prefix>>
    ensures { Gives (λ x. (map prefix_of x.0.items, symbols_in text.now x.1.now)) result (all_that (prefix_by (at fuel)) (symbols_in text.now toks.now)) }
{
    let mut found = Vec::new(alloc);
    let mut rest = toks;
    for _ in 0..toks.len() {
        match prefix(alloc, text, last, fuel, rest)? {
            Some((next, after)) => {
                found.push(next)?;
                rest = after;
            }
            None => return Ok((found, rest)),
        }
    }
    Ok((found, rest))
}

/// The prefix in front.
#[cycle(parse)]
#[tactic(auto, using(crate::proofs::Parts::prefix_parts))]
fn prefix<'s>(
    alloc: Global,
    text: &[u8],
    last: u32,
    fuel: usize,
    toks: &'s [Tok],
) -> Step<'s, Prefix>
    ensures { Gives (over (λ x. (prefix_of x.0, symbols_in text.now x.1.now))) result (prefix_by (at fuel) (symbols_in text.now toks.now)) }
{
    if type_opens(toks) {
        Ok(Some(cast(alloc, text, last, fuel, toks)?))
    } else {
        plain_prefix(last, toks)
    }
}

/// `"(" typename ")"`, as a prefix
#[cycle(parse)]
#[tactic(auto, unfolding(crate::specs::Reading::cast_by))]
fn cast<'s>(alloc: Global, text: &[u8], last: u32, fuel: usize, toks: &'s [Tok]) -> Read<'s, Prefix>
    ensures { Gives (λ x. (prefix_of x.0, symbols_in text.now x.1.now)) result (cast_by (at fuel) (symbols_in text.now toks.now)) }
{
    let ((opening, type_name, closing), rest) = bracketed(alloc, text, last, fuel, toks)?;
    let prefix = build::cast_prefix(alloc, opening, type_name, closing)?;
    Ok((prefix, rest))
}

/// `"(" typename ")"`
#[cycle(parse)]
#[tactic(auto, unfolding(crate::specs::Reading::bracketed_by))]
fn bracketed<'s>(
    alloc: Global,
    text: &[u8],
    last: u32,
    fuel: usize,
    toks: &'s [Tok],
) -> Read<'s, (u32, TypeName, u32)>
    ensures { Gives (λ x. ((x.0.0, type_name_of x.0.1, x.0.2), symbols_in text.now x.1.now)) result (bracketed_by (at fuel) (symbols_in text.now toks.now)) }
{
    let (opening, rest) = punct(last, Punct::LeftParenthesis, toks)?;
    let (type_name, rest) = inner_type_name(alloc, text, last, fuel, rest)?;
    let (closing, rest) = punct(last, Punct::RightParenthesis, rest)?;
    Ok(((opening, type_name, closing), rest))
}

/// `postfix | "sizeof" "(" typename ")"`
#[cycle(parse)]
#[tactic(auto, unfolding(crate::specs::Reading::operand_by))]
fn operand<'s>(
    alloc: Global,
    text: &[u8],
    last: u32,
    fuel: usize,
    toks: &'s [Tok],
) -> Read<'s, Operand>
    ensures { Gives (λ x. (operand_of x.0, symbols_in text.now x.1.now)) result (operand_by (at fuel) (symbols_in text.now toks.now)) }
{
    if let Some((keyword, rest)) = behind_keyword(Keyword::Sizeof, toks) {
        let ((opening, type_name, closing), rest) = bracketed(alloc, text, last, fuel, rest)?;
        let operand = build::measure(alloc, keyword, opening, type_name, closing)?;
        return Ok((operand, rest));
    }
    let (postfix, rest) = postfix(alloc, text, last, fuel, toks)?;
    Ok((build::postfix_operand(postfix), rest))
}

/// A primary expression and its postfixes.
#[cycle(parse)]
#[tactic(auto, unfolding(crate::specs::Reading::postfix_by))]
fn postfix<'s>(
    alloc: Global,
    text: &[u8],
    last: u32,
    fuel: usize,
    toks: &'s [Tok],
) -> Read<'s, Postfix>
    ensures { Gives (λ x. (postfix_of x.0, symbols_in text.now x.1.now)) result (postfix_by (at fuel) (symbols_in text.now toks.now)) }
{
    let (primary, rest) = primary(alloc, text, last, fuel, toks)?;
    let (suffixes, rest) = posts(alloc, text, last, fuel, rest)?;
    Ok((build::postfix(primary, suffixes), rest))
}

/// The postfixes in front.
#[cycle(parse)]
fn posts<'s>(
    alloc: Global,
    text: &[u8],
    last: u32,
    fuel: usize,
    toks: &'s [Tok],
) -> Read<'s, Vec<PostfixSuffix>>
    ensures { Gives (λ x. (map postfix_suffix_of x.0.items, symbols_in text.now x.1.now)) result (all_that (post_by (at fuel)) (symbols_in text.now toks.now)) }
{
    let mut found = Vec::new(alloc);
    let mut rest = toks;
    for _ in 0..toks.len() {
        match post(alloc, text, last, fuel, rest)? {
            Some((next, after)) => {
                found.push(next)?;
                rest = after;
            }
            None => return Ok((found, rest)),
        }
    }
    Ok((found, rest))
}

/// The postfix in front.
#[cycle(parse)]
#[tactic(auto, unfolding(crate::specs::Reading::post_by, crate::specs::Parts::plain_post_at))]
fn post<'s>(
    alloc: Global,
    text: &[u8],
    last: u32,
    fuel: usize,
    toks: &'s [Tok],
) -> Step<'s, PostfixSuffix>
    ensures { Gives (over (λ x. (postfix_suffix_of x.0, symbols_in text.now x.1.now))) result (post_by (at fuel) (symbols_in text.now toks.now)) }
{
    match toks {
        [first, rest @ ..] => {
            if is_punct(Punct::LeftBracket, first.kind) {
                return Ok(Some(index(alloc, text, last, fuel, first.line, rest)?));
            }
            if is_punct(Punct::LeftParenthesis, first.kind) {
                return Ok(Some(call(alloc, text, last, fuel, first.line, rest)?));
            }
            plain_post(alloc, text, last, toks)
        }
        [] => Ok(None),
    }
}

/// `expr "]"`, after the bracket of an index
#[cycle(parse)]
#[tactic(auto, unfolding(crate::specs::Reading::index_by))]
fn index<'s>(
    alloc: Global,
    text: &[u8],
    last: u32,
    fuel: usize,
    opening: u32,
    toks: &'s [Tok],
) -> Read<'s, PostfixSuffix>
    ensures { Gives (λ x. (postfix_suffix_of x.0, symbols_in text.now x.1.now)) result (index_by (at fuel) opening (symbols_in text.now toks.now)) }
{
    let (index, rest) = inner_expr(alloc, text, last, fuel, toks)?;
    let (closing, rest) = punct(last, Punct::RightBracket, rest)?;
    Ok((build::index(alloc, opening, index, closing)?, rest))
}

/// `[ expr ] ")"`, after the bracket of a call
#[cycle(parse)]
#[tactic(auto, unfolding(crate::specs::Reading::call_by))]
fn call<'s>(
    alloc: Global,
    text: &[u8],
    last: u32,
    fuel: usize,
    opening: u32,
    toks: &'s [Tok],
) -> Read<'s, PostfixSuffix>
    ensures { Gives (λ x. (postfix_suffix_of x.0, symbols_in text.now x.1.now)) result (call_by (at fuel) opening (symbols_in text.now toks.now)) }
{
    if let Some((closing, rest)) = behind_punct(Punct::RightParenthesis, toks) {
        return Ok((build::bare_call(opening, closing), rest));
    }
    let (arguments, rest) = inner_expr(alloc, text, last, fuel, toks)?;
    let (closing, rest) = punct(last, Punct::RightParenthesis, rest)?;
    Ok((build::call(alloc, opening, arguments, closing)?, rest))
}

/// `name | constant | "(" expr ")"`
#[cycle(parse)]
#[tactic(auto, unfolding(crate::specs::Reading::primary_by))]
fn primary<'s>(
    alloc: Global,
    text: &[u8],
    last: u32,
    fuel: usize,
    toks: &'s [Tok],
) -> Read<'s, Primary>
    ensures { Gives (λ x. (primary_of x.0, symbols_in text.now x.1.now)) result (primary_by (at fuel) (symbols_in text.now toks.now)) }
{
    match toks {
        [first, rest @ ..] => match leaf(alloc, text, first)? {
            Some(primary) => Ok((primary, rest)),
            None => group(alloc, text, last, fuel, toks),
        },
        [] => Err(stopped(last, toks)),
    }
}

/// `"(" expr ")"`
#[cycle(parse)]
#[tactic(auto, unfolding(crate::specs::Reading::group_by))]
fn group<'s>(
    alloc: Global,
    text: &[u8],
    last: u32,
    fuel: usize,
    toks: &'s [Tok],
) -> Read<'s, Primary>
    ensures { Gives (λ x. (primary_of x.0, symbols_in text.now x.1.now)) result (group_by (at fuel) (symbols_in text.now toks.now)) }
{
    let (opening, rest) = punct(last, Punct::LeftParenthesis, toks)?;
    let (inner, rest) = inner_expr(alloc, text, last, fuel, rest)?;
    let (closing, rest) = punct(last, Punct::RightParenthesis, rest)?;
    Ok((build::group(alloc, opening, inner, closing)?, rest))
}
