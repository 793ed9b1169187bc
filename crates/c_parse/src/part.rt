//! The parser of statements in which no other stands, and of the parts of statements.

ghost use Rattle.std.specs.Prelude.{◌≡◌, ℕ, List};
ghost use Rattle.c_token.specs.declared.token.Keyword.TheVariants as words;
ghost use Rattle.c_nodes.specs.Kinds.{is_key};
ghost use Rattle.c_nodes.specs.ProgramViews.{any_of, condition_of, head_of, label_of, statement_of};
ghost use Rattle.parse_expr.specs.Reader.{Gives, front_is, symbols_in};
ghost use Rattle.c_parse.specs.Reading.{condition_by, any_before, head_by, plain_by, break_by, continue_by, return_by, case_by, default_by};

use crate::build;
use c_nodes::expression::Expr;
use c_nodes::statement::{Condition, ForHead, Label, Statement};
use c_token::{Keyword, Punct, Tok};
use parse_expr::ParseError;
use parse_expr::expression::{cond, expr};
use parse_expr::kind::is_keyword;
use parse_expr::take::{Read, behind_punct, punct};
use std::alloc::Global;

/// Whether an `if` comes.
pub fn if_comes(toks: &[Tok]) -> bool
    ensures { (text : List ℕ) → result ≡ front_is (is_key words.If) (symbols_in text toks.now) }
{
    match toks {
        [first, ..] => is_keyword(Keyword::If, first.kind),
        [] => false,
    }
}

/// `"(" expr ")"`
#[tactic(auto, unfolding(crate::specs::Reading::condition_by))]
pub fn condition<'s>(
    alloc: Global,
    text: &[u8],
    last: u32,
    fuel: usize,
    toks: &'s [Tok],
) -> Read<'s, Condition>
    ensures { Gives (λ x. (condition_of x.0, symbols_in text.now x.1.now)) result (condition_by fuel (symbols_in text.now toks.now)) }
{
    let (opening, rest) = punct(last, Punct::LeftParenthesis, toks)?;
    let (expr, rest) = expr(alloc, text, last, fuel, rest)?;
    let (closing, rest) = punct(last, Punct::RightParenthesis, rest)?;
    let condition = Condition {
        opening,
        expr,
        closing,
    };
    Ok((condition, rest))
}

/// `[ expr ]` and the punctuator after it, with its line
#[tactic(auto, unfolding(crate::specs::Reading::any_before))]
fn any_before<'s>(
    alloc: Global,
    text: &[u8],
    last: u32,
    fuel: usize,
    end: Punct,
    toks: &'s [Tok],
) -> Result<(Option<Expr>, u32, &'s [Tok]), ParseError>
    ensures { Gives (λ x. ((any_of x.0, x.1), symbols_in text.now x.2.now)) result (any_before fuel end (symbols_in text.now toks.now)) }
{
    if let Some((line, rest)) = behind_punct(end, toks) {
        return Ok((None, line, rest));
    }
    let (expr, rest) = expr(alloc, text, last, fuel, toks)?;
    let (line, rest) = punct(last, end, rest)?;
    Ok((Some(expr), line, rest))
}

/// `"(" [ expr ] ";" [ expr ] ";" [ expr ] ")"`
#[tactic(auto, unfolding(crate::specs::Reading::head_by))]
pub fn head<'s>(
    alloc: Global,
    text: &[u8],
    last: u32,
    fuel: usize,
    toks: &'s [Tok],
) -> Read<'s, ForHead>
    ensures { Gives (λ x. (head_of x.0, symbols_in text.now x.1.now)) result (head_by fuel (symbols_in text.now toks.now)) }
{
    let (opening, rest) = punct(last, Punct::LeftParenthesis, toks)?;
    let (begin, first_semicolon, rest) = any_before(
        alloc,
        text,
        last,
        fuel,
        Punct::Semicolon,
        rest,
    )?;
    let (condition, second_semicolon, rest) = any_before(
        alloc,
        text,
        last,
        fuel,
        Punct::Semicolon,
        rest,
    )?;
    let (step, closing, rest) = any_before(alloc, text, last, fuel, Punct::RightParenthesis, rest)?;
    let head = ForHead {
        opening,
        begin,
        first_semicolon,
        condition,
        second_semicolon,
        step,
        closing,
    };
    Ok((head, rest))
}

/// `[ expr ] ";"`
#[tactic(auto, unfolding(crate::specs::Reading::plain_by))]
pub fn plain<'s>(
    alloc: Global,
    text: &[u8],
    last: u32,
    fuel: usize,
    toks: &'s [Tok],
) -> Read<'s, Statement>
    ensures { Gives (λ x. (statement_of x.0, symbols_in text.now x.1.now)) result (plain_by fuel (symbols_in text.now toks.now)) }
{
    let (expr, semicolon, rest) = any_before(alloc, text, last, fuel, Punct::Semicolon, toks)?;
    Ok((build::plain(expr, semicolon), rest))
}

/// `";"`, after `break`
#[tactic(auto, unfolding(crate::specs::Reading::break_by))]
pub fn break_jump<'s>(text: &[u8], last: u32, keyword: u32, toks: &'s [Tok]) -> Read<'s, Statement>
    ensures { Gives (λ x. (statement_of x.0, symbols_in text.now x.1.now)) result (break_by keyword (symbols_in text.now toks.now)) }
{
    let (semicolon, rest) = punct(last, Punct::Semicolon, toks)?;
    Ok((build::break_jump(keyword, semicolon), rest))
}

/// `";"`, after `continue`
#[tactic(auto, unfolding(crate::specs::Reading::continue_by))]
pub fn continue_jump<'s>(
    text: &[u8],
    last: u32,
    keyword: u32,
    toks: &'s [Tok],
) -> Read<'s, Statement>
    ensures { Gives (λ x. (statement_of x.0, symbols_in text.now x.1.now)) result (continue_by keyword (symbols_in text.now toks.now)) }
{
    let (semicolon, rest) = punct(last, Punct::Semicolon, toks)?;
    Ok((build::continue_jump(keyword, semicolon), rest))
}

/// `[ expr ] ";"`, after `return`
#[tactic(auto, unfolding(crate::specs::Reading::return_by))]
pub fn return_jump<'s>(
    alloc: Global,
    text: &[u8],
    last: u32,
    fuel: usize,
    keyword: u32,
    toks: &'s [Tok],
) -> Read<'s, Statement>
    ensures { Gives (λ x. (statement_of x.0, symbols_in text.now x.1.now)) result (return_by fuel keyword (symbols_in text.now toks.now)) }
{
    let (value, semicolon, rest) = any_before(alloc, text, last, fuel, Punct::Semicolon, toks)?;
    Ok((build::return_jump(keyword, value, semicolon), rest))
}

/// `cond ":"`, after `case`
#[tactic(auto, unfolding(crate::specs::Reading::case_by))]
pub fn case_label<'s>(
    alloc: Global,
    text: &[u8],
    last: u32,
    fuel: usize,
    keyword: u32,
    toks: &'s [Tok],
) -> Read<'s, Label>
    ensures { Gives (λ x. (label_of x.0, symbols_in text.now x.1.now)) result (case_by fuel keyword (symbols_in text.now toks.now)) }
{
    let (value, rest) = cond(alloc, text, last, fuel, toks)?;
    let (colon, rest) = punct(last, Punct::Colon, rest)?;
    let label = Label::Case {
        keyword,
        value,
        colon,
    };
    Ok((label, rest))
}

/// `":"`, after `default`
#[tactic(auto, unfolding(crate::specs::Reading::default_by))]
pub fn default_label<'s>(text: &[u8], last: u32, keyword: u32, toks: &'s [Tok]) -> Read<'s, Label>
    ensures { Gives (λ x. (label_of x.0, symbols_in text.now x.1.now)) result (default_by keyword (symbols_in text.now toks.now)) }
{
    let (colon, rest) = punct(last, Punct::Colon, toks)?;
    Ok((Label::Default { keyword, colon }, rest))
}
