//! Expressions, from the tree's root down (ISO/IEC 9899:1990, 6.3).
//!
//! Each function of the recursion has a frame of its own, hence `inline(never)`: a frame holds
//! what one function needs, and a tree of thousands of levels stays within the call stack. A level of
//! choices in one another takes only functions that hold little: where there is no list, they pass
//! on what they are given, and what waits for a choice is kept in memory.

ghost use Rattle.std.specs.Prelude.{◌≡◌, ◌∷◌, [], map};
ghost use Rattle.c_token.specs.declared.token.TokKind.TheVariants as kinds;
ghost use Rattle.c_nodes.specs.Views.{assign_of, binary_of, cast_of, choice_of, cond_of, expr_of, next_assign_of, next_operand_of, operand_of as tree_operand_of, postfix_of, postfix_suffix_of, primary_of, target_of};
ghost use Rattle.type_rules.specs.Expressions as rule;
ghost use Rattle.type_rules.specs.Known.{Known};
ghost use Rattle.type_rules.specs.Operators as operator;
ghost use Rattle.type_rules.specs.Terms as value;
ghost use Rattle.c_tables.specs.Answers.{Answers};
ghost use Rattle.c_tables.specs.Tables.{known_of, types_in};
ghost use Rattle.c_terms.specs.Terms.{operand_of, term_of};
ghost use Rattle.check_expr.specs.Folds as fold;
ghost use Rattle.check_expr.specs.Kept.{applied_list, boxed, choices_in, operands_in, sides_in};
ghost use Rattle.check_expr.specs.Views.{unlisted};

use crate::prefixes::{Applied, apply_prefix, listed};
use crate::type_name::size_of_name;
use c_nodes::expression::{
    Assign, Binary, Cast, Choice, Cond, Expr, NextAssign, NextOperand, Operand as TreeOperand,
    Postfix, PostfixSuffix, Primary, Target as TreeTarget,
};
use c_nodes::word::Sign;
use c_operate::calls::{call, refuse_undefined};
use c_operate::operators::{chosen, combined, sequenced};
use c_operate::places::{element, indexable, member, pointed_member};
use c_operate::primary::{constant_term, grouped, named};
use c_operate::writes::{assignment, stepped};
use c_tables::checker::Checker;
use c_tables::error::CheckError;
use c_tables::types::Types;
use c_terms::term::{Operand, Term, refuse_table, used};
use c_token::Punct;
use c_typed::StepOp;
use std::alloc::Global;

/// Assignments between commas.
#[cycle(expression)]
pub fn expression(expr: &Expr, checker: &mut Checker) -> Result<Term, CheckError>
    ensures { Answers term_of result (known_of checker.new) (unlisted (rule.judged (expr_of expr.now) (known_of checker.old))) }
{
    if expr.others.is_empty() {
        return assigned(&expr.first, checker);
    }
    commas(expr, checker)
}

#[cycle(expression)]
#[inline(never)]
fn commas(expr: &Expr, checker: &mut Checker) -> Result<Term, CheckError>
    ensures { Answers term_of result (known_of checker.new) (unlisted (rule.judged (expr_of expr.now) (known_of checker.old))) }
{
    let first = assigned(&expr.first, checker)?;
    sequence(&expr.others, checker, first)
}

#[cycle(expression)]
#[inline(never)]
fn sequence(others: &[NextAssign], checker: &mut Checker, first: Term) -> Result<Term, CheckError>
    ensures { Answers term_of result (known_of checker.new) (fold.sequenced_from (term_of first) (map next_assign_of others.now) (known_of checker.old)) }
{
    let mut left = first;
    for next in others {
        let dropped = used(left, checker)?;
        let right = assigned(&next.1, checker)?;
        let right = used(right, checker)?;
        left = sequenced(checker.alloc, dropped, right)?;
    }
    Ok(left)
}

// A target of an assignment, and the operator behind it.
#[derive(Drop)]
struct Target {
    term: Term,
    sign: Sign,
}

/// A value, and what it is assigned to.
pub fn assign(assign: &Assign, checker: &mut Checker) -> Result<Term, CheckError>
    ensures { Answers term_of result (known_of checker.new) (unlisted (rule.judged (assign_of assign.now) (known_of checker.old))) }
{
    assigned(assign, checker)
}

#[cycle(expression)]
#[inline(never)]
fn assigned(assign: &Assign, checker: &mut Checker) -> Result<Term, CheckError>
    ensures { Answers term_of result (known_of checker.new) (rule.judged (assign_of assign.now) (known_of checker.old)) }
{
    if assign.targets.is_empty() {
        return conditional(&assign.value, checker);
    }
    assigned_to(assign, checker)
}

#[cycle(expression)]
#[inline(never)]
fn assigned_to(assign: &Assign, checker: &mut Checker) -> Result<Term, CheckError>
    ensures { Answers term_of result (known_of checker.new) (rule.judged (assign_of assign.now) (known_of checker.old)) }
{
    let targets = places(&assign.targets, checker)?;
    let value = conditional(&assign.value, checker)?;
    assign_all(checker, targets, value)
}

#[cycle(expression)]
#[inline(never)]
fn places(targets: &[TreeTarget], checker: &mut Checker) -> Result<Vec<Target>, CheckError>
    ensures { Answers sides_in result (known_of checker.new) (fold.sides_from [] (map target_of targets.now) (known_of checker.old)) }
{
    let mut places = Vec::new(checker.alloc);
    for target in targets {
        let term = cast(&target.0, checker)?;
        refuse_table(&term)?;
        places.push(Target {
            term,
            sign: target.1,
        })?;
    }
    Ok(places)
}

#[inline(never)]
fn assign_all(checker: &mut Checker, targets: Vec<Target>, value: Term) -> Result<Term, CheckError>
    ensures { Answers term_of result (known_of checker.new) (fold.assigned_back (sides_in targets) (term_of value) (known_of checker.old)) }
{
    let mut targets = targets;
    let mut value = value;
    while let Some(target) = targets.pop() {
        let from = used(value, checker)?;
        let Target { term, sign } = target;
        value = assignment(checker.alloc, &checker.types, sign.punct, term, from)?;
    }
    Ok(value)
}

// A condition, and what is chosen where it holds.
#[derive(Drop)]
struct Chosen {
    condition: Box<Operand>,
    then: Box<Operand>,
}

/// Choices, and what is left where no condition holds.
#[cycle(expression)]
#[inline(never)]
pub(crate) fn conditional(cond: &Cond, checker: &mut Checker) -> Result<Term, CheckError>
    ensures { Answers term_of result (known_of checker.new) (rule.judged (cond_of cond.now) (known_of checker.old)) }
{
    if cond.choices.is_empty() {
        return operands(&cond.last, checker);
    }
    let choices = choices(&cond.choices, checker)?;
    choose(&cond.last, checker, choices)
}

#[cycle(expression)]
#[inline(never)]
fn choices(choices: &[Choice], checker: &mut Checker) -> Result<Vec<Chosen>, CheckError>
    ensures { Answers choices_in result (known_of checker.new) (fold.choices_from [] (map choice_of choices.now) (known_of checker.old)) }
{
    let mut chosen = Vec::new(checker.alloc);
    for choice in choices {
        let condition = condition(&choice.condition, checker)?;
        let then = consequence(&choice.then, checker)?;
        chosen.push(Chosen { condition, then })?;
    }
    Ok(chosen)
}

#[cycle(expression)]
#[inline(never)]
fn condition(binary: &Binary, checker: &mut Checker) -> Result<Box<Operand>, CheckError>
    ensures { Answers boxed result (known_of checker.new) (fold.condition_of (binary_of binary.now) (known_of checker.old)) }
{
    let term = operands(binary, checker)?;
    kept(term, checker)
}

#[cycle(expression)]
#[inline(never)]
fn consequence(expr: &Expr, checker: &mut Checker) -> Result<Box<Operand>, CheckError>
    ensures { Answers boxed result (known_of checker.new) (fold.consequence_of (expr_of expr.now) (known_of checker.old)) }
{
    let term = expression(expr, checker)?;
    kept(term, checker)
}

// The value of a term, in memory.
#[inline(never)]
fn kept(term: Term, checker: &mut Checker) -> Result<Box<Operand>, CheckError>
    ensures { Answers boxed result (known_of checker.new) (value.used (term_of term) (known_of checker.old)) }
{
    let operand = used(term, checker)?;
    Ok(Box::new(checker.alloc, operand)?)
}

#[cycle(expression)]
#[inline(never)]
fn choose(last: &Binary, checker: &mut Checker, choices: Vec<Chosen>) -> Result<Term, CheckError>
    ensures { Answers term_of result (known_of checker.new) (fold.chosen_behind (choices_in choices) (binary_of last.now) (known_of checker.old)) }
{
    let last = operands(last, checker)?;
    choose_all(checker, choices, last)
}

#[inline(never)]
fn choose_all(checker: &mut Checker, choices: Vec<Chosen>, last: Term) -> Result<Term, CheckError>
    ensures { Answers term_of result (known_of checker.new) (fold.chosen_back (choices_in choices) (term_of last) (known_of checker.old)) }
{
    let mut choices = choices;
    let mut value = last;
    while let Some(choice) = choices.pop() {
        let otherwise = used(value, checker)?;
        value = decided(checker.alloc, &checker.types, choice, otherwise)?;
    }
    Ok(value)
}

// The choice between what is chosen where the condition holds, and what is chosen otherwise.
fn decided(
    alloc: Global,
    types: &Types,
    choice: Chosen,
    otherwise: Operand,
) -> Result<Term, CheckError>
    ensures { (known : Known) → Answers term_of result (types_in types.now known) (operator.choice (boxed choice.condition) (boxed choice.then) (operand_of otherwise) (types_in types.now known)) }
{
    let condition = Box::into_inner(choice.condition);
    let then = Box::into_inner(choice.then);
    chosen(alloc, types, condition, then, otherwise)
}

#[cycle(expression)]
#[inline(never)]
fn operands(binary: &Binary, checker: &mut Checker) -> Result<Term, CheckError>
    ensures { Answers term_of result (known_of checker.new) (rule.judged (binary_of binary.now) (known_of checker.old)) }
{
    match binary {
        Binary::Operand(operand) => cast(operand, checker),
        Binary::Chain { first, others } => {
            let left = operands(first, checker)?;
            chain(others, checker, left)
        }
    }
}

#[cycle(expression)]
#[inline(never)]
fn chain(others: &[NextOperand], checker: &mut Checker, first: Term) -> Result<Term, CheckError>
    ensures { Answers term_of result (known_of checker.new) (fold.combined_from (term_of first) (map next_operand_of others.now) (known_of checker.old)) }
{
    let mut left = first;
    for next in others {
        let a = used(left, checker)?;
        let b = operands(&next.1, checker)?;
        let b = used(b, checker)?;
        left = combined(checker.alloc, &checker.types, next.0.sign.punct, a, b)?;
    }
    Ok(left)
}

#[cycle(expression)]
#[inline(never)]
fn cast(cast: &Cast, checker: &mut Checker) -> Result<Term, CheckError>
    ensures { Answers term_of result (known_of checker.new) (rule.judged (cast_of cast.now) (known_of checker.old)) }
{
    let prefixes = listed(&cast.prefixes, checker)?;
    let term = operand(&cast.operand, checker)?;
    apply_all(checker, prefixes, term)
}

#[cycle(expression)]
#[inline(never)]
fn operand(operand: &TreeOperand, checker: &mut Checker) -> Result<Term, CheckError>
    ensures { Answers term_of result (known_of checker.new) (rule.judged (tree_operand_of operand.now) (known_of checker.old)) }
{
    match operand {
        TreeOperand::Postfix(postfix) => self::postfix(postfix, checker),
        TreeOperand::SizeofType {
            keyword,
            type_name,
            ..
        } => size_of_name(type_name, checker, *keyword),
    }
}

#[inline(never)]
fn apply_all(
    checker: &mut Checker,
    prefixes: Vec<Applied>,
    operand: Term,
) -> Result<Term, CheckError>
    ensures { Answers term_of result (known_of checker.new) (fold.applied_back (applied_list prefixes) (term_of operand) (known_of checker.old)) }
{
    let mut prefixes = prefixes;
    let mut term = operand;
    while let Some(prefix) = prefixes.pop() {
        term = apply_prefix(checker, prefix, term)?;
    }
    Ok(term)
}

#[cycle(expression)]
#[inline(never)]
fn postfix(postfix: &Postfix, checker: &mut Checker) -> Result<Term, CheckError>
    ensures { Answers term_of result (known_of checker.new) (rule.judged (postfix_of postfix.now) (known_of checker.old)) }
{
    let first = primary(&postfix.primary, checker)?;
    suffixes(&postfix.suffixes, checker, first)
}

#[cycle(expression)]
#[inline(never)]
fn suffixes(
    suffixes: &[PostfixSuffix],
    checker: &mut Checker,
    first: Term,
) -> Result<Term, CheckError>
    ensures { Answers term_of result (known_of checker.new) (fold.posted_from (term_of first) (map postfix_suffix_of suffixes.now) (known_of checker.old)) }
{
    let mut term = first;
    for suffix in suffixes {
        term = self::suffix(suffix, checker, term)?;
    }
    Ok(term)
}

#[cycle(expression)]
#[inline(never)]
fn suffix(suffix: &PostfixSuffix, checker: &mut Checker, term: Term) -> Result<Term, CheckError>
    ensures { Answers term_of result (known_of checker.new) (rule.judged_behind (postfix_suffix_of suffix.now) (term_of term) (known_of checker.old)) }
{
    match suffix {
        PostfixSuffix::Index { index, .. } => {
            let whole = indexable(checker.alloc, &mut checker.types, term)?;
            let index = expression(index, checker)?;
            element(checker.alloc, &mut checker.types, whole, index)
        }
        PostfixSuffix::Call { arguments, .. } => match arguments {
            Some(list) => {
                refuse_undefined(checker, &term)?;
                let list = self::arguments(list, checker)?;
                call(checker, term, list)
            }
            None => {
                refuse_undefined(checker, &term)?;
                call(checker, term, Vec::new(checker.alloc))
            }
        },
        PostfixSuffix::Member { operator, name } => {
            selected(checker, operator.punct, term, &name.bytes)
        }
        PostfixSuffix::Step(sign) => {
            let line = term.start;
            stepped(
                checker.alloc,
                &checker.types,
                step_behind(sign.punct),
                term,
                line,
            )
        }
    }
}

fn step_behind(punct: Punct) -> StepOp
    ensures { result ≡ rule.step_behind (kinds.Punct punct) }
{
    match punct {
        Punct::Increment => StepOp::PostIncrement,
        _ => StepOp::PostDecrement,
    }
}

#[inline(never)]
fn selected(
    checker: &mut Checker,
    punct: Punct,
    term: Term,
    name: &[u8],
) -> Result<Term, CheckError>
    ensures { Answers term_of result (known_of checker.new) (rule.selected (kinds.Punct punct) (term_of term) name.now (known_of checker.old)) }
{
    let line = term.start;
    match punct {
        Punct::Arrow => {
            let pointer = used(term, checker)?;
            pointed_member(checker.alloc, &checker.types, pointer, name, line)
        }
        _ => member(checker.alloc, &checker.types, term, name, line),
    }
}

#[cycle(expression)]
#[inline(never)]
fn arguments(list: &Expr, checker: &mut Checker) -> Result<Vec<Operand>, CheckError>
    ensures { Answers operands_in result (known_of checker.new) (fold.arguments_read (expr_of list.now) (known_of checker.old)) }
{
    let first = assigned(&list.first, checker)?;
    let first = used(first, checker)?;
    further_arguments(&list.others, checker, first)
}

#[cycle(expression)]
#[inline(never)]
fn further_arguments(
    others: &[NextAssign],
    checker: &mut Checker,
    first: Operand,
) -> Result<Vec<Operand>, CheckError>
    ensures { Answers operands_in result (known_of checker.new) (fold.arguments_from (operand_of first ∷ []) (map next_assign_of others.now) (known_of checker.old)) }
{
    let mut arguments = Vec::new(checker.alloc);
    arguments.push(first)?;
    for next in others {
        let argument = assigned(&next.1, checker)?;
        arguments.push(used(argument, checker)?)?;
    }
    Ok(arguments)
}

#[cycle(expression)]
#[inline(never)]
fn primary(primary: &Primary, checker: &mut Checker) -> Result<Term, CheckError>
    ensures { Answers term_of result (known_of checker.new) (rule.judged (primary_of primary.now) (known_of checker.old)) }
{
    match primary {
        Primary::Name(name) => named(&checker.scopes, name),
        Primary::Constant(constant) => Ok(constant_term(*constant)),
        Primary::Group { opening, inner, .. } => {
            let term = expression(inner, checker)?;
            Ok(grouped(term, *opening))
        }
    }
}
