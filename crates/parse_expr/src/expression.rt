//! The reader of expressions.
//!
//! Each function reads one part of the grammar in front of a list. `last` is the line of the last
//! token of all, and `fuel` bounds how many brackets, and how many `?`, may still be entered.

ghost use Rattle.std.specs.Prelude.{◌≡◌, ◌≤◌, ◌<◌, ◌+◌, suc, map};
ghost use Rattle.c_nodes.specs.Views.{binary_of, assign_of, cast_of, choice_of, cond_of, expr_of, next_assign_of, next_operand_of};
ghost use Rattle.parse_expr.specs.Reader.{Gives, over, symbols_in, all_that};
ghost use Rattle.parse_expr.specs.Reading.{at, expr_by, assign_by, cond_by, tier_by, right_by, comma_by, unary_by};
ghost use Rattle.parse_expr.specs.Parts.{choice_by};

use crate::build;
use crate::front::{Waiting, behind_value, no_front, with_choice};
use crate::kind::is_punct;
use crate::operand::unary;
use crate::operator::{behind_operator, behind_target};
use crate::take::{Read, Step, behind_punct, punct, stopped};
use c_nodes::expression::{Assign, Binary, Choice, Cond, Expr, NextAssign, NextOperand};
use c_token::{Punct, Tok};
use std::alloc::Global;

/// The number of levels of binary operators.
const LEVELS: usize = 10;

/// An expression where one bracket, or one `?`, less may be entered.
#[cycle(parse)]
pub fn inner_expr<'s>(
    alloc: Global,
    text: &[u8],
    last: u32,
    fuel: usize,
    toks: &'s [Tok],
) -> Read<'s, Expr>
    ensures { Gives (λ x. (expr_of x.0, symbols_in text.now x.1.now)) result ((at fuel).expr (symbols_in text.now toks.now)) }
{
    if fuel == 0 {
        return Err(stopped(last, toks));
    }
    expr(alloc, text, last, fuel - 1, toks)
}

/// `assign { "," assign }`
#[cycle(parse)]
#[tactic(auto, unfolding(crate::specs::Reading::expr_by))]
pub fn expr<'s>(
    alloc: Global,
    text: &[u8],
    last: u32,
    fuel: usize,
    toks: &'s [Tok],
) -> Read<'s, Expr>
    ensures { Gives (λ x. (expr_of x.0, symbols_in text.now x.1.now)) result (expr_by (at fuel) (symbols_in text.now toks.now)) }
{
    let (first, rest) = assign(alloc, text, last, fuel, toks)?;
    let (others, rest) = commas(alloc, text, last, fuel, rest)?;
    Ok((build::expr(first, others), rest))
}

/// `{ "," assign }`
#[cycle(parse)]
fn commas<'s>(
    alloc: Global,
    text: &[u8],
    last: u32,
    fuel: usize,
    toks: &'s [Tok],
) -> Read<'s, Vec<NextAssign>>
    ensures { Gives (λ x. (map next_assign_of x.0.items, symbols_in text.now x.1.now)) result (all_that (comma_by (at fuel)) (symbols_in text.now toks.now)) }
{
    let mut found = Vec::new(alloc);
    let mut rest = toks;
    for _ in 0..toks.len() {
        match comma(alloc, text, last, fuel, rest)? {
            Some((next, after)) => {
                found.push(next)?;
                rest = after;
            }
            None => return Ok((found, rest)),
        }
    }
    Ok((found, rest))
}

/// A comma and an assignment.
#[cycle(parse)]
#[tactic(auto, unfolding(crate::specs::Reading::comma_by))]
fn comma<'s>(
    alloc: Global,
    text: &[u8],
    last: u32,
    fuel: usize,
    toks: &'s [Tok],
) -> Step<'s, NextAssign>
    ensures { Gives (over (λ x. (next_assign_of x.0, symbols_in text.now x.1.now))) result (comma_by (at fuel) (symbols_in text.now toks.now)) }
{
    match toks {
        [first, rest @ ..] => {
            if !is_punct(Punct::Comma, first.kind) {
                return Ok(None);
            }
            let (assign, rest) = assign(alloc, text, last, fuel, rest)?;
            Ok(Some((build::next_assign(first.line, assign), rest)))
        }
        [] => Ok(None),
    }
}

/// `{ unary operator } cond`
#[cycle(parse)]
pub fn assign<'s>(
    alloc: Global,
    text: &[u8],
    last: u32,
    fuel: usize,
    toks: &'s [Tok],
) -> Read<'s, Assign>
    ensures { Gives (λ x. (assign_of x.0, symbols_in text.now x.1.now)) result (assign_by (at fuel) (symbols_in text.now toks.now)) }
{
    let mut targets = Vec::new(alloc);
    let mut rest = toks;
    for _ in 0..toks.len() {
        let (value, after) = cond(alloc, text, last, fuel, rest)?;
        match behind_target(value, after) {
            Ok((target, behind)) => {
                targets.push(target)?;
                rest = behind;
            }
            Err(value) => return Ok((build::assign(targets, value), after)),
        }
    }
    Err(stopped(last, rest))
}

/// `{ oror "?" expr ":" } oror`
#[cycle(parse)]
pub fn cond<'s>(
    alloc: Global,
    text: &[u8],
    last: u32,
    fuel: usize,
    toks: &'s [Tok],
) -> Read<'s, Cond>
    ensures { Gives (λ x. (cond_of x.0, symbols_in text.now x.1.now)) result (cond_by (at fuel) (symbols_in text.now toks.now)) }
{
    let mut choices = Vec::new(alloc);
    let mut rest = toks;
    for _ in 0..toks.len() {
        let (condition, after) = tier(alloc, text, last, fuel, LEVELS, rest)?;
        match behind_punct(Punct::Question, after) {
            Some((question, behind)) => {
                let (choice, behind) = choice(
                    alloc, text, last, fuel, condition, question, behind,
                )?;
                choices.push(choice)?;
                rest = behind;
            }
            None => return Ok((build::cond(choices, condition), after)),
        }
    }
    Err(stopped(last, rest))
}

/// `expr ":"`, after a condition and `?`
#[cycle(parse)]
#[tactic(auto, unfolding(crate::specs::Parts::choice_by))]
fn choice<'s>(
    alloc: Global,
    text: &[u8],
    last: u32,
    fuel: usize,
    condition: Binary,
    question: u32,
    toks: &'s [Tok],
) -> Read<'s, Choice>
    ensures { Gives (λ x. (choice_of x.0, symbols_in text.now x.1.now)) result (choice_by (at fuel) (binary_of condition) question (symbols_in text.now toks.now)) }
{
    let (then, rest) = inner_choice(alloc, text, last, fuel, toks)?;
    let (colon, rest) = punct(last, Punct::Colon, rest)?;
    let choice = build::choice(alloc, condition, question, then, colon)?;
    Ok((choice, rest))
}

/// An expression between `?` and `:`, where one bracket, or one `?`, less may be entered.
///
/// What waits for its `:` lies in a list, so the call stack doesn't grow with the `?` that stand in one another.
#[cycle(parse)]
fn inner_choice<'s>(
    alloc: Global,
    text: &[u8],
    last: u32,
    fuel: usize,
    toks: &'s [Tok],
) -> Read<'s, Expr>
    ensures { Gives (λ x. (expr_of x.0, symbols_in text.now x.1.now)) result ((at fuel).expr (symbols_in text.now toks.now)) }
{
    if fuel == 0 {
        return Err(stopped(last, toks));
    }
    let mut waiting = Vec::new(alloc);
    let mut front = no_front(alloc);
    let mut left = fuel - 1;
    let mut rest = toks;
    loop {
        let (operand, after) = tier(alloc, text, last, left, LEVELS, rest)?;
        if let Some((question, behind)) = behind_punct(Punct::Question, after) {
            if left == 0 {
                return Err(stopped(last, behind));
            }
            let condition = operand;
            waiting.push(Waiting {
                front,
                condition,
                question,
            })?;
            front = no_front(alloc);
            left -= 1;
            rest = behind;
            continue;
        }
        match behind_value(alloc, front, operand, after)? {
            Ok((more, behind)) => {
                front = more;
                rest = behind;
            }
            Err(expr) => {
                let Some(top) = waiting.pop() else {
                    return Ok((expr, after));
                };
                let (colon, behind) = punct(last, Punct::Colon, after)?;
                front = with_choice(alloc, top, expr, colon)?;
                left += 1;
                rest = behind;
            }
        }
    }
}

/// Operands between operators of levels up to `level`; level 0 is an operand alone.
#[cycle(parse)]
#[tactic(auto, unfolding(crate::specs::Reading::tier_by))]
fn tier<'s>(
    alloc: Global,
    text: &[u8],
    last: u32,
    fuel: usize,
    level: usize,
    toks: &'s [Tok],
) -> Read<'s, Binary>
    requires { level ≤ 10 }
    ensures { Gives (λ x. (binary_of x.0, symbols_in text.now x.1.now)) result (tier_by (at fuel) level (symbols_in text.now toks.now)) }
{
    if level == 0 {
        let (cast, rest) = unary(alloc, text, last, fuel, toks)?;
        return Ok((build::single(cast), rest));
    }
    let (first, rest) = tier(alloc, text, last, fuel, level - 1, toks)?;
    let (others, rest) = operands(alloc, text, last, fuel, level - 1, rest)?;
    Ok((build::chain(alloc, first, others)?, rest))
}

/// Operators of the level over `below`, each with its right operand.
#[cycle(parse)]
fn operands<'s>(
    alloc: Global,
    text: &[u8],
    last: u32,
    fuel: usize,
    below: usize,
    toks: &'s [Tok],
) -> Read<'s, Vec<NextOperand>>
    requires { below < 10 }
    ensures { Gives (λ x. (map next_operand_of x.0.items, symbols_in text.now x.1.now)) result (all_that (right_by (suc below) (tier_by (at fuel) below)) (symbols_in text.now toks.now)) }
{
    let mut found = Vec::new(alloc);
    let mut rest = toks;
    for _ in 0..toks.len() {
        match operand_behind(alloc, text, last, fuel, below, rest)? {
            Some((next, after)) => {
                found.push(next)?;
                rest = after;
            }
            None => return Ok((found, rest)),
        }
    }
    Ok((found, rest))
}

/// An operator of the level over `below`, with its right operand.
#[cycle(parse)]
#[tactic(auto, using(crate::proofs::Parts::right_parts))]
fn operand_behind<'s>(
    alloc: Global,
    text: &[u8],
    last: u32,
    fuel: usize,
    below: usize,
    toks: &'s [Tok],
) -> Step<'s, NextOperand>
    requires { below < 10 }
    ensures { Gives (over (λ x. (next_operand_of x.0, symbols_in text.now x.1.now))) result (right_by (suc below) (tier_by (at fuel) below) (symbols_in text.now toks.now)) }
{
    match behind_operator(below + 1, toks) {
        Some((operator, rest)) => {
            let (operand, rest) = tier(alloc, text, last, fuel, below, rest)?;
            Ok(Some((build::next_operand(operator, operand), rest)))
        }
        None => Ok(None),
    }
}

/// A choice or an operand of one where one bracket less may be entered.
#[cycle(parse)]
pub fn inner_size<'s>(
    alloc: Global,
    text: &[u8],
    last: u32,
    fuel: usize,
    toks: &'s [Tok],
) -> Read<'s, Cond>
    ensures { Gives (λ x. (cond_of x.0, symbols_in text.now x.1.now)) result ((at fuel).size (symbols_in text.now toks.now)) }
{
    if fuel == 0 {
        return Err(stopped(last, toks));
    }
    cond(alloc, text, last, fuel - 1, toks)
}
