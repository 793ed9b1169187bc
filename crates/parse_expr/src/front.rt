//! What was read of an expression, up to the operand that comes next.

ghost use Rattle.std.specs.Prelude.{◌≡◌, ◌≤◌, ℕ, List, IfOk, MatchResult, Some, length, map};
ghost use Rattle.c_token.specs.declared.token.Punct.TheVariants as marks;
ghost use Rattle.c_nodes.specs.Words.{punct};
ghost use Rattle.c_nodes.specs.Trees.{Join};
ghost use Rattle.c_nodes.specs.Lists.{chosen};
ghost use Rattle.c_nodes.specs.Views.{assign_of, binary_of, choice_of, expr_of};
ghost use Rattle.parse_expr.specs.Reader.{over, symbols_in};
ghost use Rattle.parse_expr.specs.Reading.{at};
ghost use Rattle.parse_expr.specs.Waiting as parts;
ghost use Rattle.parse_expr.specs.Waiting.{behind_comma, front_by, others_by, value_by};
ghost use Rattle.parse_expr.specs.WaitingViews.{front_of};

use crate::build;
use crate::operator::behind_target;
use crate::take::behind_punct;
use c_nodes::expression::{Assign, Binary, Choice, Expr, Target};
use c_token::{Punct, Tok};
use std::alloc::{AllocError, Global};

/// What was read of an expression, up to an operand.
#[derive(Drop)]
pub struct Front {
    /// The assignments before, and the line of the comma behind them.
    pub before: Option<(Expr, u32)>,
    /// The left sides of the assignment that the operand stands in.
    pub targets: Vec<Target>,
    /// The choices before the operand.
    pub choices: Vec<Choice>,
}

/// The front of a choice that waits for its `:`.
#[derive(Drop)]
pub struct Waiting {
    pub front: Front,
    pub condition: Binary,
    pub question: u32,
}

/// Of an expression that begins nothing was read.
pub fn no_front(alloc: Global) -> Front
    ensures { front_of result ≡ parts.no_front }
{
    Front {
        before: None,
        targets: Vec::new(alloc),
        choices: Vec::new(alloc),
    }
}

/// The front behind a choice whose `:` has come.
pub fn with_choice(
    alloc: Global,
    waiting: Waiting,
    then: Expr,
    colon: u32,
) -> Result<Front, AllocError>
    ensures { IfOk result (λ f. front_of f ≡ parts.with_choice (front_of waiting.front) (binary_of waiting.condition, waiting.question, expr_of then, colon)) }
{
    let Waiting {
        front,
        condition,
        question,
    } = waiting;
    let Front {
        before,
        targets,
        mut choices,
    } = front;
    let choice = build::choice(alloc, condition, question, then, colon)?;
    choices.push(choice)?;
    Ok(Front {
        before,
        targets,
        choices,
    })
}

/// An assignment more, behind a comma.
fn lengthened(expr: Expr, comma: u32, assign: Assign) -> Result<Expr, AllocError>
    ensures { IfOk result (λ e. expr_of e ≡ Join (punct marks.Comma comma) (expr_of expr) (assign_of assign)) }
{
    let Expr { first, mut others } = expr;
    others.push(build::next_assign(comma, assign))?;
    Ok(build::expr(first, others))
}

/// The assignments up to this one.
fn joined(alloc: Global, before: Option<(Expr, u32)>, assign: Assign) -> Result<Expr, AllocError>
    ensures { IfOk result (λ e. expr_of e ≡ behind_comma (over (λ x. (expr_of x.0, x.1)) before) (assign_of assign)) }
{
    match before {
        None => Ok(build::expr(assign, Vec::new(alloc))),
        Some((expr, comma)) => lengthened(expr, comma, assign),
    }
}

/// Goes on behind an assignment: behind a comma, or the expression is whole.
#[tactic(auto, using(crate::proofs::Fronts::comma_front, crate::proofs::Fronts::no_comma))]
fn behind_assign<'s>(
    alloc: Global,
    before: Option<(Expr, u32)>,
    assign: Assign,
    toks: &'s [Tok],
) -> Result<Result<(Front, &'s [Tok]), Expr>, AllocError>
    ensures reads { IfOk result (λ r. (text : List ℕ) (n : ℕ) → let left = others_by (at n) (over (λ x. (expr_of x.0, x.1)) before) (assign_of assign) (symbols_in text toks.now) in MatchResult r (λ x. left ≡ front_by (at n) (front_of x.0) (symbols_in text x.1.now)) (λ e. left ≡ Some (expr_of e, symbols_in text toks.now))) }
    ensures fewer { IfOk result (λ r. IfOk r (λ x. length x.1.now ≤ length toks.now)) }
{
    let expr = joined(alloc, before, assign)?;
    match behind_punct(Punct::Comma, toks) {
        Some((comma, rest)) => {
            let mut front = no_front(alloc);
            front.before = Some((expr, comma));
            Ok(Ok((front, rest)))
        }
        None => Ok(Err(expr)),
    }
}

/// Goes on behind the last operand of a value: behind an assignment operator, behind a comma, or the expression is whole.
pub fn behind_value<'s>(
    alloc: Global,
    front: Front,
    operand: Binary,
    toks: &'s [Tok],
) -> Result<Result<(Front, &'s [Tok]), Expr>, AllocError>
    ensures reads { IfOk result (λ r. (text : List ℕ) (n : ℕ) → let left = value_by (at n) (front_of front) (chosen (map choice_of front.choices.items) (binary_of operand)) (symbols_in text toks.now) in MatchResult r (λ x. left ≡ front_by (at n) (front_of x.0) (symbols_in text x.1.now)) (λ e. left ≡ Some (expr_of e, symbols_in text toks.now))) }
    ensures fewer { IfOk result (λ r. IfOk r (λ x. length x.1.now ≤ length toks.now)) }
{
    let Front {
        before,
        mut targets,
        choices,
    } = front;
    match behind_target(build::cond(choices, operand), toks) {
        Ok((target, rest)) => {
            targets.push(target)?;
            let choices = Vec::new(alloc);
            Ok(Ok((
                Front {
                    before,
                    targets,
                    choices,
                },
                rest,
            )))
        }
        Err(value) => behind_assign(alloc, before, build::assign(targets, value), toks),
    }
}
