//! The parser of statements.
//!
//! `last` is the line of the last token of all, `fuel` says how many brackets of expressions may
//! still be entered, and `room` how many statements.

ghost use Rattle.std.specs.Prelude.{◌≡◌, Some, map};
ghost use Rattle.c_nodes.specs.ProgramViews.{statement_of, switch_item_of, arm_of, block_of, else_arm_of, otherwise_in, statements_of};
ghost use Rattle.parse_expr.specs.Reader.{Gives, over, symbols_in, all_that};
ghost use Rattle.c_parse.specs.Reading.{arm_by, next_arm_by, last_by, chain_by, while_by, do_by, for_by, inner_by, switch_by, next_statement_by, block_by, braced_by, statement_by, statement_at};

use crate::build;
use crate::declaration::declarations;
use crate::part::{
    break_jump, case_label, condition, continue_jump, default_label, head, if_comes, plain,
    return_jump,
};
use c_nodes::statement::{Arm, Block, ElseArm, Otherwise, Statement, SwitchItem};
use c_token::{Keyword, Punct, Tok};
use parse_expr::kind::{is_keyword, is_punct};
use parse_expr::take::{Read, Step, behind_keyword, keyword, punct, stopped};
use std::alloc::Global;

/// A statement, where one may still be entered.
#[cycle(statement)]
#[tactic(auto, unfolding(crate::specs::Reading::statement_at))]
pub fn statement<'s>(
    alloc: Global,
    text: &[u8],
    last: u32,
    fuel: usize,
    room: u16,
    toks: &'s [Tok],
) -> Read<'s, Statement>
    ensures { Gives (λ x. (statement_of x.0, symbols_in text.now x.1.now)) result (statement_at fuel room (symbols_in text.now toks.now)) }
{
    if room == 0 {
        return Err(stopped(last, toks));
    }
    entered(alloc, text, last, fuel, room - 1, toks)
}

/// A statement, by what it begins with.
#[cycle(statement)]
#[tactic(auto, unfolding(crate::specs::Reading::statement_by))]
fn entered<'s>(
    alloc: Global,
    text: &[u8],
    last: u32,
    fuel: usize,
    room: u16,
    toks: &'s [Tok],
) -> Read<'s, Statement>
    ensures { Gives (λ x. (statement_of x.0, symbols_in text.now x.1.now)) result (statement_by fuel (statement_at fuel room) (symbols_in text.now toks.now)) }
{
    match toks {
        [first, rest @ ..] => {
            let line = first.line;
            if is_punct(Punct::LeftBrace, first.kind) {
                braced(alloc, text, last, fuel, room, toks)
            } else if is_keyword(Keyword::If, first.kind) {
                chain(alloc, text, last, fuel, room, toks)
            } else if is_keyword(Keyword::While, first.kind) {
                while_loop(alloc, text, last, fuel, room, line, rest)
            } else if is_keyword(Keyword::Do, first.kind) {
                do_loop(alloc, text, last, fuel, room, line, rest)
            } else if is_keyword(Keyword::For, first.kind) {
                for_loop(alloc, text, last, fuel, room, line, rest)
            } else if is_keyword(Keyword::Switch, first.kind) {
                switch(alloc, text, last, fuel, room, line, rest)
            } else if is_keyword(Keyword::Break, first.kind) {
                break_jump(text, last, line, rest)
            } else if is_keyword(Keyword::Continue, first.kind) {
                continue_jump(text, last, line, rest)
            } else if is_keyword(Keyword::Return, first.kind) {
                return_jump(alloc, text, last, fuel, line, rest)
            } else {
                plain(alloc, text, last, fuel, toks)
            }
        }
        [] => Err(stopped(last, toks)),
    }
}

/// A block that is a statement.
#[cycle(statement)]
#[tactic(auto, unfolding(crate::specs::Reading::braced_by))]
fn braced<'s>(
    alloc: Global,
    text: &[u8],
    last: u32,
    fuel: usize,
    room: u16,
    toks: &'s [Tok],
) -> Read<'s, Statement>
    ensures { Gives (λ x. (statement_of x.0, symbols_in text.now x.1.now)) result (braced_by fuel (statement_at fuel room) (symbols_in text.now toks.now)) }
{
    let (block, rest) = block(alloc, text, last, fuel, room, toks)?;
    Ok((build::braced(block), rest))
}

/// `"{" { declaration } { statement } "}"`
#[cycle(statement)]
#[tactic(auto, unfolding(crate::specs::Reading::block_by))]
pub fn block<'s>(
    alloc: Global,
    text: &[u8],
    last: u32,
    fuel: usize,
    room: u16,
    toks: &'s [Tok],
) -> Read<'s, Block>
    ensures { Gives (λ x. (block_of x.0, symbols_in text.now x.1.now)) result (block_by fuel (statement_at fuel room) (symbols_in text.now toks.now)) }
{
    let (opening, rest) = punct(last, Punct::LeftBrace, toks)?;
    let (declarations, rest) = declarations(alloc, text, last, fuel, rest)?;
    let (statements, rest) = statements(alloc, text, last, fuel, room, rest)?;
    let (closing, rest) = punct(last, Punct::RightBrace, rest)?;
    Ok((
        build::block(opening, declarations, statements, closing),
        rest,
    ))
}

/// A statement of a block, where the block doesn't end.
#[cycle(statement)]
#[tactic(auto, unfolding(crate::specs::Reading::next_statement_by))]
fn next_statement<'s>(
    alloc: Global,
    text: &[u8],
    last: u32,
    fuel: usize,
    room: u16,
    toks: &'s [Tok],
) -> Step<'s, Statement>
    ensures { Gives (over (λ x. (statement_of x.0, symbols_in text.now x.1.now))) result (next_statement_by (statement_at fuel room) (symbols_in text.now toks.now)) }
{
    match toks {
        [first, ..] => {
            if is_punct(Punct::RightBrace, first.kind) {
                return Ok(None);
            }
            let (statement, rest) = statement(alloc, text, last, fuel, room, toks)?;
            Ok(Some((statement, rest)))
        }
        [] => Ok(None),
    }
}

/// `{ statement }`
#[cycle(statement)]
fn statements<'s>(
    alloc: Global,
    text: &[u8],
    last: u32,
    fuel: usize,
    room: u16,
    toks: &'s [Tok],
) -> Read<'s, Vec<Statement>>
    ensures { Gives (λ x. (map statement_of x.0.items, symbols_in text.now x.1.now)) result (all_that (next_statement_by (statement_at fuel room)) (symbols_in text.now toks.now)) }
{
    let mut found = Vec::new(alloc);
    let mut rest = toks;
    for _ in 0..toks.len() {
        match next_statement(alloc, text, last, fuel, room, rest)? {
            Some((item, after)) => {
                found.push(item)?;
                rest = after;
            }
            None => return Ok((found, rest)),
        }
    }
    Ok((found, rest))
}

/// An `if` with its `else if` and `else`.
#[cycle(statement)]
#[tactic(auto, unfolding(crate::specs::Reading::chain_by))]
fn chain<'s>(
    alloc: Global,
    text: &[u8],
    last: u32,
    fuel: usize,
    room: u16,
    toks: &'s [Tok],
) -> Read<'s, Statement>
    ensures { Gives (λ x. (statement_of x.0, symbols_in text.now x.1.now)) result (chain_by fuel (statement_at fuel room) (symbols_in text.now toks.now)) }
{
    let (first, rest) = arm(alloc, text, last, fuel, room, toks)?;
    let (others, rest) = next_arms(alloc, text, last, fuel, room, rest)?;
    let (otherwise, rest) = last_arm(alloc, text, last, fuel, room, rest)?;
    Ok((build::chain(alloc, first, others, otherwise)?, rest))
}

/// `"if" "(" expr ")" statement`
#[cycle(statement)]
#[tactic(auto, unfolding(crate::specs::Reading::arm_by))]
fn arm<'s>(
    alloc: Global,
    text: &[u8],
    last: u32,
    fuel: usize,
    room: u16,
    toks: &'s [Tok],
) -> Read<'s, Arm>
    ensures { Gives (λ x. (arm_of x.0, symbols_in text.now x.1.now)) result (arm_by fuel (statement_at fuel room) (symbols_in text.now toks.now)) }
{
    let (keyword, rest) = keyword(last, Keyword::If, toks)?;
    let (condition, rest) = condition(alloc, text, last, fuel, rest)?;
    let (then, rest) = statement(alloc, text, last, fuel, room, rest)?;
    Ok((build::arm(keyword, condition, then), rest))
}

/// `"else" "if" "(" expr ")" statement`
#[cycle(statement)]
#[tactic(auto, unfolding(crate::specs::Reading::next_arm_by))]
fn next_arm<'s>(
    alloc: Global,
    text: &[u8],
    last: u32,
    fuel: usize,
    room: u16,
    toks: &'s [Tok],
) -> Step<'s, ElseArm>
    ensures { Gives (over (λ x. (else_arm_of x.0, symbols_in text.now x.1.now))) result (next_arm_by fuel (statement_at fuel room) (symbols_in text.now toks.now)) }
{
    match toks {
        [first, rest @ ..] => {
            if !is_keyword(Keyword::Else, first.kind) {
                return Ok(None);
            }
            if !if_comes(rest) {
                return Ok(None);
            }
            let (arm, rest) = arm(alloc, text, last, fuel, room, rest)?;
            Ok(Some((build::else_arm(first.line, arm), rest)))
        }
        [] => Ok(None),
    }
}

/// `{ "else" "if" "(" expr ")" statement }`
#[cycle(statement)]
fn next_arms<'s>(
    alloc: Global,
    text: &[u8],
    last: u32,
    fuel: usize,
    room: u16,
    toks: &'s [Tok],
) -> Read<'s, Vec<ElseArm>>
    ensures { Gives (λ x. (map else_arm_of x.0.items, symbols_in text.now x.1.now)) result (all_that (next_arm_by fuel (statement_at fuel room)) (symbols_in text.now toks.now)) }
{
    let mut found = Vec::new(alloc);
    let mut rest = toks;
    for _ in 0..toks.len() {
        match next_arm(alloc, text, last, fuel, room, rest)? {
            Some((item, after)) => {
                found.push(item)?;
                rest = after;
            }
            None => return Ok((found, rest)),
        }
    }
    Ok((found, rest))
}

/// `[ "else" statement ]`
#[cycle(statement)]
#[tactic(auto, unfolding(crate::specs::Reading::last_by))]
fn last_arm<'s>(
    alloc: Global,
    text: &[u8],
    last: u32,
    fuel: usize,
    room: u16,
    toks: &'s [Tok],
) -> Read<'s, Option<Box<Otherwise>>>
    ensures { Gives (λ x. (otherwise_in x.0, symbols_in text.now x.1.now)) result (last_by (statement_at fuel room) (symbols_in text.now toks.now)) }
{
    match behind_keyword(Keyword::Else, toks) {
        Some((keyword, rest)) => {
            let (statement, rest) = statement(alloc, text, last, fuel, room, rest)?;
            Ok((Some(build::otherwise(alloc, keyword, statement)?), rest))
        }
        None => Ok((None, toks)),
    }
}

/// `"(" expr ")" statement`, after `while`
#[cycle(statement)]
#[tactic(auto, unfolding(crate::specs::Reading::while_by))]
fn while_loop<'s>(
    alloc: Global,
    text: &[u8],
    last: u32,
    fuel: usize,
    room: u16,
    keyword: u32,
    toks: &'s [Tok],
) -> Read<'s, Statement>
    ensures { Gives (λ x. (statement_of x.0, symbols_in text.now x.1.now)) result (while_by fuel (statement_at fuel room) keyword (symbols_in text.now toks.now)) }
{
    let (condition, rest) = condition(alloc, text, last, fuel, toks)?;
    let (body, rest) = statement(alloc, text, last, fuel, room, rest)?;
    Ok((build::while_loop(alloc, keyword, condition, body)?, rest))
}

/// `statement "while" "(" expr ")" ";"`, after `do`
#[cycle(statement)]
#[tactic(auto, unfolding(crate::specs::Reading::do_by))]
fn do_loop<'s>(
    alloc: Global,
    text: &[u8],
    last: u32,
    fuel: usize,
    room: u16,
    line: u32,
    toks: &'s [Tok],
) -> Read<'s, Statement>
    ensures { Gives (λ x. (statement_of x.0, symbols_in text.now x.1.now)) result (do_by fuel (statement_at fuel room) line (symbols_in text.now toks.now)) }
{
    let (body, rest) = statement(alloc, text, last, fuel, room, toks)?;
    let (while_keyword, rest) = keyword(last, Keyword::While, rest)?;
    let (condition, rest) = condition(alloc, text, last, fuel, rest)?;
    let (semicolon, rest) = punct(last, Punct::Semicolon, rest)?;
    let statement = build::do_loop(alloc, line, body, while_keyword, condition, semicolon)?;
    Ok((statement, rest))
}

/// `"(" [ expr ] ";" [ expr ] ";" [ expr ] ")" statement`, after `for`
#[cycle(statement)]
#[tactic(auto, unfolding(crate::specs::Reading::for_by))]
fn for_loop<'s>(
    alloc: Global,
    text: &[u8],
    last: u32,
    fuel: usize,
    room: u16,
    keyword: u32,
    toks: &'s [Tok],
) -> Read<'s, Statement>
    ensures { Gives (λ x. (statement_of x.0, symbols_in text.now x.1.now)) result (for_by fuel (statement_at fuel room) keyword (symbols_in text.now toks.now)) }
{
    let (head, rest) = head(alloc, text, last, fuel, toks)?;
    let (body, rest) = statement(alloc, text, last, fuel, room, rest)?;
    Ok((build::for_loop(alloc, keyword, head, body)?, rest))
}

/// `"(" expr ")" "{" { label | statement } "}"`, after `switch`
#[cycle(statement)]
#[tactic(auto, unfolding(crate::specs::Reading::switch_by))]
fn switch<'s>(
    alloc: Global,
    text: &[u8],
    last: u32,
    fuel: usize,
    room: u16,
    keyword: u32,
    toks: &'s [Tok],
) -> Read<'s, Statement>
    ensures { Gives (λ x. (statement_of x.0, symbols_in text.now x.1.now)) result (switch_by fuel (statement_at fuel room) keyword (symbols_in text.now toks.now)) }
{
    let (value, rest) = condition(alloc, text, last, fuel, toks)?;
    let (opening, rest) = punct(last, Punct::LeftBrace, rest)?;
    let (items, rest) = inners(alloc, text, last, fuel, room, rest)?;
    let (closing, rest) = punct(last, Punct::RightBrace, rest)?;
    Ok((build::switch(keyword, value, opening, items, closing), rest))
}

/// `label | statement`, where the body of the `switch` doesn't end
#[cycle(statement)]
#[tactic(auto, unfolding(crate::specs::Reading::inner_by))]
fn inner<'s>(
    alloc: Global,
    text: &[u8],
    last: u32,
    fuel: usize,
    room: u16,
    toks: &'s [Tok],
) -> Step<'s, SwitchItem>
    ensures { Gives (over (λ x. (switch_item_of x.0, symbols_in text.now x.1.now))) result (inner_by fuel (statement_at fuel room) (symbols_in text.now toks.now)) }
{
    match toks {
        [first, rest @ ..] => {
            if is_punct(Punct::RightBrace, first.kind) {
                return Ok(None);
            }
            if is_keyword(Keyword::Case, first.kind) {
                let (label, rest) = case_label(alloc, text, last, fuel, first.line, rest)?;
                return Ok(Some((build::inner_label(label), rest)));
            }
            if is_keyword(Keyword::Default, first.kind) {
                let (label, rest) = default_label(text, last, first.line, rest)?;
                return Ok(Some((build::inner_label(label), rest)));
            }
            let (statement, rest) = statement(alloc, text, last, fuel, room, toks)?;
            Ok(Some((build::inner_statement(statement), rest)))
        }
        [] => Ok(None),
    }
}

/// `{ label | statement }`
#[cycle(statement)]
fn inners<'s>(
    alloc: Global,
    text: &[u8],
    last: u32,
    fuel: usize,
    room: u16,
    toks: &'s [Tok],
) -> Read<'s, Vec<SwitchItem>>
    ensures { Gives (λ x. (map switch_item_of x.0.items, symbols_in text.now x.1.now)) result (all_that (inner_by fuel (statement_at fuel room)) (symbols_in text.now toks.now)) }
{
    let mut found = Vec::new(alloc);
    let mut rest = toks;
    for _ in 0..toks.len() {
        match inner(alloc, text, last, fuel, room, rest)? {
            Some((item, after)) => {
                found.push(item)?;
                rest = after;
            }
            None => return Ok((found, rest)),
        }
    }
    Ok((found, rest))
}
