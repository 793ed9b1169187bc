//! Prefixes of operands (ISO/IEC 9899:1990, 6.3.3 and 6.3.4).

ghost use Rattle.std.specs.Prelude.{[], map};
ghost use Rattle.c_token.specs.declared.token.TokKind.TheVariants as kinds;
ghost use Rattle.c_nodes.specs.Views.{prefix_of};
ghost use Rattle.type_rules.specs.Expressions as rule;
ghost use Rattle.c_tables.specs.Answers.{Answers};
ghost use Rattle.c_tables.specs.Tables.{known_of};
ghost use Rattle.c_terms.specs.Terms.{operand_of, term_of};
ghost use Rattle.check_expr.specs.Folds as fold;
ghost use Rattle.check_expr.specs.Kept.{applied_list, applied_of};

use crate::type_name::type_named;
use c_ints::UnOp;
use c_nodes::expression::Prefix;
use c_nodes::word::Sign;
use c_operate::operators::{arithmetic, cast_to, negation};
use c_operate::places::{address, pointed, size_of_term};
use c_operate::writes::stepped;
use c_tables::checker::Checker;
use c_tables::error::CheckError;
use c_terms::term::{Operand, Term, used};
use c_token::Punct;
use c_typed::{Qualified, StepOp};

/// A prefix whose type is known.
#[derive(Clone, Copy)]
pub(crate) enum Applied {
    Operator(Sign),
    Sizeof { line: u32 },
    Cast { ty: Qualified, line: u32 },
}

/// The prefixes of a list, with their types.
pub(crate) fn listed(prefixes: &[Prefix], checker: &mut Checker) -> Result<Vec<Applied>, CheckError>
    ensures { Answers applied_list result (known_of checker.new) (fold.applied_from [] (map prefix_of prefixes.now) (known_of checker.old)) }
{
    let mut applied = Vec::new(checker.alloc);
    for prefix in prefixes {
        applied.push(with_type(prefix, checker)?)?;
    }
    Ok(applied)
}

fn with_type(prefix: &Prefix, checker: &mut Checker) -> Result<Applied, CheckError>
    ensures { Answers applied_of result (known_of checker.new) (fold.type_before (prefix_of prefix.now) (known_of checker.old)) }
{
    match prefix {
        Prefix::Operator(sign) => Ok(Applied::Operator(*sign)),
        Prefix::Sizeof { keyword } => Ok(Applied::Sizeof { line: *keyword }),
        Prefix::Cast {
            opening,
            type_name,
            ..
        } => {
            let ty = type_named(type_name, checker)?;
            Ok(Applied::Cast { ty, line: *opening })
        }
    }
}

/// An operand with a prefix before it.
pub(crate) fn apply_prefix(
    checker: &mut Checker,
    prefix: Applied,
    term: Term,
) -> Result<Term, CheckError>
    ensures { Answers term_of result (known_of checker.new) (fold.applied_by (applied_of prefix) (term_of term) (known_of checker.old)) }
{
    match prefix {
        Applied::Operator(sign) => prefixed(checker, sign, term),
        Applied::Sizeof { line } => size_of_term(&checker.types, term, line),
        Applied::Cast { ty, line } => {
            let operand = used(term, checker)?;
            cast_to(checker.alloc, ty, operand, line)
        }
    }
}

fn prefixed(checker: &mut Checker, sign: Sign, term: Term) -> Result<Term, CheckError>
    ensures { Answers term_of result (known_of checker.new) (rule.signed (kinds.Punct sign.punct) (term_of term) sign.line (known_of checker.old)) }
{
    let alloc = checker.alloc;
    let line = sign.line;
    match sign.punct {
        Punct::Ampersand => address(alloc, &mut checker.types, term, line),
        Punct::Increment => stepped(alloc, &checker.types, StepOp::PreIncrement, term, line),
        Punct::Decrement => stepped(alloc, &checker.types, StepOp::PreDecrement, term, line),
        punct => {
            let operand = used(term, checker)?;
            computed(checker, punct, operand, line)
        }
    }
}

fn computed(
    checker: &Checker,
    punct: Punct,
    operand: Operand,
    line: u32,
) -> Result<Term, CheckError>
    ensures { Answers term_of result (known_of checker.now) (fold.computed punct (operand_of operand) line (known_of checker.now)) }
{
    let alloc = checker.alloc;
    match punct {
        Punct::Star => pointed(alloc, &checker.types, operand, line),
        Punct::Plus => arithmetic(alloc, UnOp::Plus, operand, line),
        Punct::Minus => arithmetic(alloc, UnOp::Minus, operand, line),
        Punct::Tilde => arithmetic(alloc, UnOp::Not, operand, line),
        _ => negation(alloc, operand, line),
    }
}
