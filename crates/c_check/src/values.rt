//! The expressions of statements (ISO/IEC 9899:1990, 6.6.3 to 6.6.6).

ghost use Rattle.std.specs.Prelude.{◌≡◌, not, [], ◌∷◌, Some, None};
ghost use Rattle.std.specs.Option.{option_map};
ghost use Rattle.c_nodes.specs.Views.{expr_of};
ghost use Rattle.c_nodes.specs.ProgramViews.{any_of};
ghost use Rattle.c_typed.specs.Sameness.{is_void};
ghost use Rattle.c_typed.specs.Views.{expression_of, statement_of};
ghost use Rattle.type_rules.specs.Expressions.{value_of};
ghost use Rattle.type_rules.specs.Faults as faults;
ghost use Rattle.type_rules.specs.Known.{Known, tried};
ghost use Rattle.type_rules.specs.Statements as rule;
ghost use Rattle.c_tables.specs.Answers.{Answers, Learns};
ghost use Rattle.c_tables.specs.Tables.{known_of};
ghost use Rattle.c_terms.specs.Terms.{operand_of};
ghost use Rattle.c_check.specs.StatementViews.{switched_rule, valued_return};

use c_ints::{IntTy, promote};
use c_nodes::expression::Expr;
use c_tables::checker::Checker;
use c_tables::error::{CheckError, Kind, refused};
use c_terms::conversion::{assigned, converted};
use c_terms::term::{Operand, used};
use c_typed::{TExpr, TStmt, Ty, is_scalar, is_void};
use check_expr::expression::expression;

#[tactic(auto, using(crate::proofs::Evaluated::value_is, crate::proofs::Evaluated::judged_wrong))]
fn evaluated(expr: &Expr, checker: &mut Checker) -> Result<Operand, CheckError>
    ensures { Answers operand_of result (known_of checker.new) (value_of (expr_of expr.now) (known_of checker.old)) }
{
    let term = expression(expr, checker)?;
    used(term, checker)
}

/// A condition: an integer or a pointer.
pub(crate) fn condition(expr: &Expr, checker: &mut Checker) -> Result<TExpr, CheckError>
    ensures { Answers expression_of result (known_of checker.new) (rule.condition (expr_of expr.now) (known_of checker.old)) }
{
    let operand = evaluated(expr, checker)?;
    if is_scalar(operand.value.ty()) {
        Ok(operand.value)
    } else {
        refused(Kind::Operand, operand.line)
    }
}

// The type of a value, if it is an integer.
fn int_of(ty: Ty) -> Option<IntTy>
    ensures { result ≡ rule.int_of ty }
{
    match ty {
        Ty::Int(ty) => Some(ty),
        Ty::Void | Ty::Pointer(_) | Ty::Array { .. } | Ty::Struct(_) => None,
    }
}

/// What a switch looks at: a promoted integer, and its type.
pub(crate) fn switched(expr: &Expr, checker: &mut Checker) -> Result<(TExpr, IntTy), CheckError>
    ensures { Answers (λ s. (expression_of s.0, s.1)) result (known_of checker.new) (switched_rule (expr_of expr.now) (known_of checker.old)) }
{
    let operand = evaluated(expr, checker)?;
    let Some(ty) = int_of(operand.value.ty()) else {
        return refused(Kind::Operand, operand.line);
    };
    let ty = promote(ty);
    let value = converted(checker.alloc, operand, Ty::Int(ty))?;
    Ok((value, ty))
}

/// The value of an expression that may be missing.
pub(crate) fn evaluated_if_any(
    expr: &Option<Expr>,
    checker: &mut Checker,
) -> Result<Option<TExpr>, CheckError>
    ensures { Answers (option_map expression_of) result (known_of checker.new) (rule.value_if_any (any_of expr.now) (known_of checker.old)) }
{
    match expr {
        Some(expr) => {
            let operand = evaluated(expr, checker)?;
            Ok(Some(operand.value))
        }
        None => Ok(None),
    }
}

/// A condition that may be missing.
pub(crate) fn condition_if_any(
    expr: &Option<Expr>,
    checker: &mut Checker,
) -> Result<Option<TExpr>, CheckError>
    ensures { Answers (option_map expression_of) result (known_of checker.new) (rule.condition_if_any (any_of expr.now) (known_of checker.old)) }
{
    match expr {
        Some(expr) => {
            let value = condition(expr, checker)?;
            Ok(Some(value))
        }
        None => Ok(None),
    }
}

/// The expressions of a loop.
#[derive(Drop)]
pub(crate) struct LoopHead {
    pub begin: Option<TExpr>,
    pub condition: Option<TExpr>,
    pub step: Option<TExpr>,
}

impl LoopHead {
    /// The head of a `while` or `do`.
    pub fn only(condition: TExpr) -> LoopHead
        ensures begin { option_map expression_of result.begin ≡ None }
        ensures condition { option_map expression_of result.condition ≡ Some (expression_of condition) }
        ensures step { option_map expression_of result.step ≡ None }
    {
        LoopHead {
            begin: None,
            condition: Some(condition),
            step: None,
        }
    }
}

/// A statement that is an expression, or nothing but a semicolon on this line.
#[tactic(auto, using(c_typed::proofs::Shapes::show_statement_expr, c_typed::proofs::Shapes::show_statement_empty))]
pub(crate) fn dropped(
    expr: &Option<Expr>,
    checker: &mut Checker,
    semicolon: u32,
) -> Result<TStmt, CheckError>
    ensures { Answers statement_of result (known_of checker.new) (rule.plain_statement (any_of expr.now) semicolon (known_of checker.old)) }
{
    match expr {
        Some(expr) => {
            let operand = evaluated(expr, checker)?;
            Ok(TStmt::Expr {
                value: operand.value,
                line: operand.start,
            })
        }
        None => Ok(TStmt::Empty { line: semicolon }),
    }
}

fn returned_value(expr: &Expr, checker: &mut Checker, line: u32) -> Result<TExpr, CheckError>
    ensures { Answers expression_of result (known_of checker.new) (valued_return (expr_of expr.now) line (known_of checker.old)) }
{
    let operand = evaluated(expr, checker)?;
    let returns = checker.body.result();
    if is_void(returns) {
        refused(Kind::Return, line)
    } else {
        assigned(checker.alloc, &checker.types, operand, returns, line)
    }
}

// Refuses a `return` without a value where the function has one.
fn refuse_without(returns: Ty, line: u32) -> Result<(), CheckError>
    ensures { (known : Known) → Learns result known (tried ((not (is_void returns), faults.Return) ∷ []) line known) }
{
    if is_void(returns) {
        Ok(())
    } else {
        refused(Kind::Return, line)
    }
}

/// A `return`, with a value or without one.
#[tactic(auto, using(c_typed::proofs::Shapes::show_statement_return))]
pub(crate) fn returned(
    expr: &Option<Expr>,
    checker: &mut Checker,
    line: u32,
) -> Result<TStmt, CheckError>
    ensures { Answers statement_of result (known_of checker.new) (rule.return_statement (any_of expr.now) line (known_of checker.old)) }
{
    let value = match expr {
        Some(expr) => Some(returned_value(expr, checker, line)?),
        None => {
            refuse_without(checker.body.result(), line)?;
            None
        }
    };
    Ok(TStmt::Return { value, line })
}
