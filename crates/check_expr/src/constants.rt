//! Integer constant expressions (ISO/IEC 9899:1990, 6.4).

ghost use Rattle.c_nodes.specs.Views.{cond_of};
ghost use Rattle.type_rules.specs.Constants as rule;
ghost use Rattle.type_rules.specs.Known.{Known};
ghost use Rattle.c_tables.specs.Answers.{Answers};
ghost use Rattle.c_tables.specs.Tables.{known_of};
ghost use Rattle.c_terms.specs.Terms.{operand_of};

use crate::expression::conditional;
use c_ints::Value;
use c_nodes::expression::Cond;
use c_tables::checker::Checker;
use c_tables::error::{CheckError, Kind, refused};
use c_terms::term::{Operand, used};
use c_typed::Folded;

// The greatest length of an array.
const MOST_ELEMENTS: i64 = 65_535;

/// The value of an integer constant expression.
pub fn folded(operand: &Operand) -> Result<Value, CheckError>
    ensures { (known : Known) → Answers (λ v. v) result known (rule.number_of (operand_of operand.now) known) }
{
    match operand.value.fold() {
        Folded::Value(number) => Ok(number),
        _ => refused(Kind::Constant, operand.line),
    }
}

/// The value of a constant expression of the tree.
pub fn constant_value(cond: &Cond, checker: &mut Checker) -> Result<Value, CheckError>
    ensures { Answers (λ v. v) result (known_of checker.new) (rule.constant_value (cond_of cond.now) (known_of checker.old)) }
{
    let term = conditional(cond, checker)?;
    let operand = used(term, checker)?;
    folded(&operand)
}

/// The length of an array, 1 to 65,535.
pub(crate) fn array_length(cond: &Cond, checker: &mut Checker) -> Result<u32, CheckError>
    ensures { Answers (λ n. n) result (known_of checker.new) (rule.array_length (cond_of cond.now) (known_of checker.old)) }
{
    let term = conditional(cond, checker)?;
    let operand = used(term, checker)?;
    let length = folded(&operand)?.number();
    if 1 <= length && length <= MOST_ELEMENTS {
        Ok(length as u32)
    } else {
        refused(Kind::Size, operand.line)
    }
}
