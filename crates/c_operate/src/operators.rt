//! Operators whose operands are checked already (ISO/IEC 9899:1990, 6.3.3 to 6.3.17).

ghost use Rattle.std.specs.Prelude.{◌≡◌, Err, IfOk};
ghost use Rattle.std.specs.Option.{option_map};
ghost use Rattle.c_token.specs.declared.token.TokKind.TheVariants as kinds;
ghost use Rattle.c_typed.specs.Trees as typed;
ghost use Rattle.c_typed.specs.Views.{expression_of};
ghost use Rattle.type_rules.specs.Conversions.{converted as rule_converted};
ghost use Rattle.type_rules.specs.Known.{Known, given};
ghost use Rattle.type_rules.specs.Operators as rule;
ghost use Rattle.type_rules.specs.Terms.{value_term};
ghost use Rattle.c_tables.specs.Answers.{Answers};
ghost use Rattle.c_tables.specs.Tables.{types_in};
ghost use Rattle.c_tables.specs.declared.error.CheckError.TheVariants as errors;
ghost use Rattle.c_tables.specs.declared.error.Kind.TheVariants as faults;
ghost use Rattle.c_terms.specs.Terms.{node_of, operation_of, operand_of, reach_moved, reach_of, side_of as shown_side, term_of};

use c_ints::{BinOp, IntTy, UnOp, promote, usual};
use c_tables::error::{CheckError, Kind, refused};
use c_tables::types::Types;
use c_terms::conversion::{in_type, is_assignable, is_castable};
use c_terms::nodes::{
    binary_node, cast_node, comma_node, conditional_node, difference_node, logical_node,
    offset_node, unary_node,
};
use c_terms::operation::{Node, Operation, binary_operator, operation_of};
use c_terms::term::{Form, Operand, Reach, Side, Term, first_reach, value_term};
use c_token::Punct;
use c_typed::{LogicalOp, Qualified, TExpr, Ty, is_pointer, is_scalar, same_type};
use std::alloc::{AllocError, Global};

// The refusals of one, two and three operands, which are let go here, and elsewhere only where a call fails.
pub(crate) fn refused_one(_operand: Operand, kind: Kind, line: u32) -> Result<Term, CheckError>
    ensures { result ≡ Err (errors.Kind kind line) }
{
    refused(kind, line)
}

pub(crate) fn refused_two(_left: Operand, right: Operand, line: u32) -> Result<Term, CheckError>
    ensures { result ≡ Err (errors.Kind faults.Operand line) }
{
    refused_one(right, Kind::Operand, line)
}

fn refused_three(
    _condition: Operand,
    first: Operand,
    second: Operand,
    line: u32,
) -> Result<Term, CheckError>
    ensures { result ≡ Err (errors.Kind faults.Operand line) }
{
    refused_two(first, second, line)
}

// The node of an operator on these two values.
fn binary_value(
    alloc: Global,
    op: BinOp,
    left: TExpr,
    right: TExpr,
    found: Operation,
    line: u32,
) -> Result<TExpr, AllocError>
    ensures { IfOk result (λ e. expression_of e ≡ rule.binary_value (node_of found.node) op (expression_of left) (expression_of right) (operation_of found) line) }
{
    match found.node {
        Node::Binary => binary_node(alloc, op, left, right, found.ty, line),
        Node::Offset => offset_node(alloc, op, left, right, found.size, found.ty, line),
        Node::Difference => difference_node(alloc, left, right, found.size, line),
    }
}

fn binary(
    alloc: Global,
    types: &Types,
    op: BinOp,
    left: Operand,
    right: Operand,
) -> Result<Term, CheckError>
    ensures { (known : Known) → Answers term_of result (types_in types.now known) (rule.binary op (operand_of left) (operand_of right) (types_in types.now known)) }
{
    let line = left.start;
    let Some(found) = operation_of(types, op, left.side(), right.side()) else {
        return refused_two(left, right, line);
    };
    operated(alloc, op, left, right, found)
}

// The term of an operator on two operands, each in the type that the operator has it in.
fn operated(
    alloc: Global,
    op: BinOp,
    left: Operand,
    right: Operand,
    found: Operation,
) -> Result<Term, CheckError>
    ensures { (known : Known) → Answers term_of result known (given (rule.binary_term op (operand_of left) (operand_of right) (operation_of found)) known) }
{
    let line = left.start;
    let reach = reach_behind(found.node, first_reach(left.reach, right.reach));
    let left = in_type(alloc, left, found.left)?;
    let right = in_type(alloc, right, found.right)?;
    let value = binary_value(alloc, op, left, right, found, line)?;
    Ok(Term {
        form: Form::Value(value),
        null: false,
        line,
        start: line,
        reach,
    })
}

// A pointer into an array that is moved still points into that array.
fn reach_behind(node: Node, reach: Option<Reach>) -> Option<Reach>
    ensures { option_map reach_of result ≡ reach_moved (node_of node) (option_map reach_of reach) }
{
    match node {
        Node::Offset => reach,
        Node::Binary | Node::Difference => None,
    }
}

fn logical(alloc: Global, op: LogicalOp, left: Operand, right: Operand) -> Result<Term, CheckError>
    ensures { (known : Known) → Answers term_of result known (rule.logical op (operand_of left) (operand_of right) known) }
{
    let line = left.start;
    if !(is_scalar(left.value.ty()) && is_scalar(right.value.ty())) {
        return refused_two(left, right, line);
    }
    let value = logical_node(alloc, op, left.value, right.value, line)?;
    Ok(value_term(value, line))
}

/// Two operands with an operator between them.
pub fn combined(
    alloc: Global,
    types: &Types,
    sign: Punct,
    left: Operand,
    right: Operand,
) -> Result<Term, CheckError>
    ensures { (known : Known) → Answers term_of result (types_in types.now known) (rule.between (kinds.Punct sign) (operand_of left) (operand_of right) (types_in types.now known)) }
{
    let line = left.start;
    match sign {
        Punct::And => logical(alloc, LogicalOp::And, left, right),
        Punct::Or => logical(alloc, LogicalOp::Or, left, right),
        Punct::Comma => sequenced(alloc, left, right),
        _ => match binary_operator(sign) {
            Some(op) => binary(alloc, types, op, left, right),
            None => refused_two(left, right, line),
        },
    }
}

/// Two operands with a comma between them.
pub fn sequenced(alloc: Global, left: Operand, right: Operand) -> Result<Term, CheckError>
    ensures { (known : Known) → Answers term_of result known (rule.comma (operand_of left) (operand_of right) known) }
{
    let line = left.start;
    let ty = right.value.ty();
    let value = comma_node(alloc, left.value, right.value, ty, line)?;
    Ok(value_term(value, line))
}

// The type of a choice between a pointer and something else behind the colon.
fn pointer_choice(types: &Types, ty: Ty, first: Side, second: Side) -> Option<Ty>
    ensures { (known : Known) → result ≡ rule.pointer_choice (types_in types.now known) ty (shown_side first) (shown_side second) }
{
    if same_type(ty, second.ty) || (second.null && is_assignable(types, second, ty)) {
        Some(ty)
    } else if first.null {
        if_pointer(second.ty)
    } else {
        None
    }
}

fn if_pointer(ty: Ty) -> Option<Ty>
    ensures { result ≡ rule.if_pointer ty }
{
    match ty {
        Ty::Pointer(target) => Some(Ty::Pointer(target)),
        Ty::Void | Ty::Int(_) | Ty::Array { .. } | Ty::Struct(_) => None,
    }
}

// The type of a choice between two operands.
fn chosen_type(types: &Types, first: Side, second: Side) -> Option<Ty>
    ensures { (known : Known) → result ≡ rule.choice_type (types_in types.now known) (shown_side first) (shown_side second) first.ty second.ty }
{
    match first.ty {
        Ty::Int(x) => match second.ty {
            Ty::Int(y) => Some(Ty::Int(usual(x, y))),
            Ty::Pointer(target) => {
                if first.null {
                    Some(Ty::Pointer(target))
                } else {
                    None
                }
            }
            Ty::Void | Ty::Array { .. } | Ty::Struct(_) => None,
        },
        Ty::Pointer(target) => pointer_choice(types, Ty::Pointer(target), first, second),
        Ty::Void => match second.ty {
            Ty::Void => Some(Ty::Void),
            Ty::Int(_) | Ty::Pointer(_) | Ty::Array { .. } | Ty::Struct(_) => None,
        },
        Ty::Array { .. } | Ty::Struct(_) => None,
    }
}

/// A choice between two operands by a condition.
pub fn chosen(
    alloc: Global,
    types: &Types,
    condition: Operand,
    first: Operand,
    second: Operand,
) -> Result<Term, CheckError>
    ensures { (known : Known) → Answers term_of result (types_in types.now known) (rule.choice (operand_of condition) (operand_of first) (operand_of second) (types_in types.now known)) }
{
    let line = condition.start;
    if !is_scalar(condition.value.ty()) {
        return refused_three(condition, first, second, line);
    }
    let Some(ty) = chosen_type(types, first.side(), second.side()) else {
        return refused_three(condition, first, second, line);
    };
    chosen_in(alloc, condition, first, second, ty)
}

// The choice between two operands in this type.
fn chosen_in(
    alloc: Global,
    condition: Operand,
    first: Operand,
    second: Operand,
    ty: Ty,
) -> Result<Term, CheckError>
    ensures { (known : Known) → Answers term_of result known (given (value_term (typed.Conditional (expression_of condition.value) (rule_converted (operand_of first) ty) (rule_converted (operand_of second) ty) ty condition.start) condition.start) known) }
{
    let line = condition.start;
    let first = in_type(alloc, first, ty)?;
    let second = in_type(alloc, second, ty)?;
    let value = conditional_node(alloc, condition.value, first, second, ty, line)?;
    Ok(value_term(value, line))
}

/// A cast to a type; `line` is that of its bracket.
pub fn cast_to(
    alloc: Global,
    ty: Qualified,
    operand: Operand,
    line: u32,
) -> Result<Term, CheckError>
    ensures { (known : Known) → Answers term_of result known (rule.cast ty.ty (operand_of operand) line known) }
{
    let ty = ty.ty;
    if !is_castable(operand.side(), ty) {
        return refused_one(operand, Kind::Operand, line);
    }
    let null = operand.null && is_pointer(ty);
    let value = cast_node(alloc, operand.value, ty, line)?;
    Ok(Term {
        form: Form::Value(value),
        null,
        line,
        start: line,
        reach: None,
    })
}

/// `+ - ~` of an integer.
pub fn arithmetic(alloc: Global, op: UnOp, operand: Operand, line: u32) -> Result<Term, CheckError>
    ensures { (known : Known) → Answers term_of result known (rule.arithmetic op (operand_of operand) line known) }
{
    match operand.value.ty() {
        Ty::Int(ty) => promoted_unary(alloc, op, operand, Ty::Int(promote(ty)), line),
        Ty::Void | Ty::Pointer(_) | Ty::Array { .. } | Ty::Struct(_) => {
            refused_one(operand, Kind::Operand, line)
        }
    }
}

// An operator on the value in this type.
fn promoted_unary(
    alloc: Global,
    op: UnOp,
    operand: Operand,
    ty: Ty,
    line: u32,
) -> Result<Term, CheckError>
    ensures { (known : Known) → Answers term_of result known (given (value_term (typed.Unary op (rule_converted (operand_of operand) ty) ty line) line) known) }
{
    let value = in_type(alloc, operand, ty)?;
    let value = unary_node(alloc, op, value, ty, line)?;
    Ok(value_term(value, line))
}

/// `!` of an integer or a pointer.
pub fn negation(alloc: Global, operand: Operand, line: u32) -> Result<Term, CheckError>
    ensures { (known : Known) → Answers term_of result known (rule.negation (operand_of operand) line known) }
{
    if !is_scalar(operand.value.ty()) {
        return refused_one(operand, Kind::Operand, line);
    }
    let value = unary_node(alloc, UnOp::Bang, operand.value, Ty::Int(IntTy::Int), line)?;
    Ok(value_term(value, line))
}
