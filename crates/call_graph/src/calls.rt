//! The calls of a function: each expression and statement puts its own after those that are there.

ghost use Rattle.std.specs.Prelude.{◌≡◌, ◌++◌, map, IfOk};
ghost use Rattle.std.specs.Option.{option_map};
ghost use Rattle.c_typed.specs.Calls as stated;
ghost use Rattle.c_typed.specs.Views.{expression_of, place_of, item_of, statement_of, arm_of, arguments_of, statements_of, arms_of};

use c_ints::BinOp;
use c_typed::{FnId, Helper, TArm, TExpr, TItem, TPlace, TStmt, Ty, int_helper};
use std::alloc::AllocError;

fn helper_for(op: BinOp, constant: bool, ty: Ty) -> Option<Helper>
    ensures { result ≡ stated.helper_for op constant ty }
{
    match ty {
        Ty::Int(ty) => int_helper(op, constant, ty),
        Ty::Void | Ty::Pointer(_) | Ty::Array { .. } | Ty::Struct(_) => None,
    }
}

fn difference_helper(size: u64) -> Option<Helper>
    ensures { result ≡ stated.difference_helper size }
{
    if size == 1 { None } else { Some(Helper::Divs2) }
}

fn put_helper(out: &mut Vec<FnId>, helper: Option<Helper>) -> Result<(), AllocError>
    ensures { IfOk result (λ _. out.new.items ≡ out.old.items ++ stated.helper_calls helper) }
{
    match helper {
        Some(helper) => {
            out.push(FnId::Helper(helper))?;
            Ok(())
        }
        None => Ok(()),
    }
}

/// The calls of an expression.
#[cycle(calls)]
#[tactic(auto, using(std::proofs::lemmas::List::append_assoc, crate::proofs::Appends::append_none, c_typed::proofs::CallSights::calls_of))]
fn put_calls(out: &mut Vec<FnId>, expr: &TExpr) -> Result<(), AllocError>
    ensures { IfOk result (λ _. out.new.items ≡ out.old.items ++ stated.calls (expression_of expr.now)) }
{
    match expr {
        TExpr::Constant { .. } => Ok(()),
        TExpr::Read { place, .. } | TExpr::Address { place, .. } | TExpr::Step { place, .. } => {
            put_place_calls(out, place)
        }
        TExpr::Convert { operand, .. }
        | TExpr::Cast { operand, .. }
        | TExpr::Unary { operand, .. } => put_calls(out, operand),
        TExpr::Binary {
            op,
            left,
            right,
            ..
        } => {
            put_calls(out, left)?;
            put_calls(out, right)?;
            put_helper(out, helper_for(*op, right.is_constant(), left.ty()))
        }
        TExpr::Difference {
            left,
            right,
            size,
            ..
        } => {
            put_calls(out, left)?;
            put_calls(out, right)?;
            put_helper(out, difference_helper(*size))
        }
        TExpr::Offset { left, right, .. }
        | TExpr::Logical { left, right, .. }
        | TExpr::Comma { left, right, .. } => {
            put_calls(out, left)?;
            put_calls(out, right)
        }
        TExpr::Conditional {
            condition,
            then,
            otherwise,
            ..
        } => {
            put_calls(out, condition)?;
            put_calls(out, then)?;
            put_calls(out, otherwise)
        }
        TExpr::Assign { place, value, .. } => {
            put_place_calls(out, place)?;
            put_calls(out, value)
        }
        TExpr::StructAssign { place, from, .. } => {
            put_place_calls(out, place)?;
            put_place_calls(out, from)
        }
        TExpr::Update {
            op,
            place,
            value,
            operation,
            ..
        } => {
            put_place_calls(out, place)?;
            put_calls(out, value)?;
            put_helper(out, helper_for(*op, value.is_constant(), *operation))
        }
        TExpr::Call {
            function,
            arguments,
            ..
        } => {
            put_argument_calls(out, arguments)?;
            out.push(FnId::User(*function))?;
            Ok(())
        }
    }
}

#[cycle(calls)]
#[tactic(auto, using(crate::proofs::Appends::append_none, c_typed::proofs::CallSights::place_calls_of))]
fn put_place_calls(out: &mut Vec<FnId>, place: &TPlace) -> Result<(), AllocError>
    ensures { IfOk result (λ _. out.new.items ≡ out.old.items ++ stated.place_calls (place_of place.now)) }
{
    match place {
        TPlace::Name { .. } | TPlace::Bit { .. } => Ok(()),
        TPlace::Member { whole, .. } => put_place_calls(out, whole),
        TPlace::Deref { pointer, .. } => put_calls(out, pointer),
    }
}

#[cycle(calls)]
fn put_argument_calls(out: &mut Vec<FnId>, arguments: &[TExpr]) -> Result<(), AllocError>
    ensures { IfOk result (λ _. out.new.items ≡ out.old.items ++ stated.arguments_calls (arguments_of (map expression_of arguments.now))) }
{
    for argument in arguments {
        put_calls(out, argument)?;
    }
    Ok(())
}

fn put_any_calls(out: &mut Vec<FnId>, expr: &Option<TExpr>) -> Result<(), AllocError>
    ensures { IfOk result (λ _. out.new.items ≡ out.old.items ++ stated.any_calls (option_map expression_of expr.now)) }
{
    match expr {
        Some(expr) => put_calls(out, expr),
        None => Ok(()),
    }
}

fn put_item_calls(out: &mut Vec<FnId>, item: &TItem) -> Result<(), AllocError>
    ensures { IfOk result (λ _. out.new.items ≡ out.old.items ++ stated.item_calls (item_of item.now)) }
{
    match item {
        TItem::Scalar { value, .. } => put_calls(out, value),
        TItem::Struct { from, .. } => put_place_calls(out, from),
        TItem::Text { .. } => Ok(()),
    }
}

fn put_items_calls(out: &mut Vec<FnId>, items: &[TItem]) -> Result<(), AllocError>
    ensures { IfOk result (λ _. out.new.items ≡ out.old.items ++ stated.items_calls (map item_of items.now)) }
{
    for item in items {
        put_item_calls(out, item)?;
    }
    Ok(())
}

/// The calls of a statement.
#[cycle(statement_calls)]
#[tactic(auto, using(std::proofs::lemmas::List::append_assoc, crate::proofs::Appends::append_none, c_typed::proofs::CallSights::statement_calls_of))]
fn put_statement_calls(out: &mut Vec<FnId>, statement: &TStmt) -> Result<(), AllocError>
    ensures { IfOk result (λ _. out.new.items ≡ out.old.items ++ stated.statement_calls (statement_of statement.now)) }
{
    match statement {
        TStmt::Block { statements, .. } => put_statements_calls(out, statements),
        TStmt::Empty { .. }
        | TStmt::Declare { .. }
        | TStmt::Break { .. }
        | TStmt::Continue { .. } => Ok(()),
        TStmt::Expr { value, .. } | TStmt::InitScalar { value, .. } => put_calls(out, value),
        TStmt::InitList { items, .. } => put_items_calls(out, items),
        TStmt::If {
            arms,
            otherwise,
            ..
        } => {
            put_arms_calls(out, arms)?;
            match otherwise {
                Some(last) => put_statement_calls(out, last),
                None => Ok(()),
            }
        }
        TStmt::Loop {
            begin,
            condition,
            step,
            body,
            ..
        } => {
            put_any_calls(out, begin)?;
            put_any_calls(out, condition)?;
            put_any_calls(out, step)?;
            put_statement_calls(out, body)
        }
        TStmt::Switch {
            value,
            statements,
            ..
        } => {
            put_calls(out, value)?;
            put_statements_calls(out, statements)
        }
        TStmt::Return { value, .. } => put_any_calls(out, value),
    }
}

/// The calls of some statements.
#[cycle(statement_calls)]
pub fn put_statements_calls(out: &mut Vec<FnId>, statements: &[TStmt]) -> Result<(), AllocError>
    ensures { IfOk result (λ _. out.new.items ≡ out.old.items ++ stated.statements_calls (statements_of (map statement_of statements.now))) }
{
    for statement in statements {
        put_statement_calls(out, statement)?;
    }
    Ok(())
}

#[cycle(statement_calls)]
fn put_arms_calls(out: &mut Vec<FnId>, arms: &[TArm]) -> Result<(), AllocError>
    ensures { IfOk result (λ _. out.new.items ≡ out.old.items ++ stated.arms_calls (arms_of (map arm_of arms.now))) }
{
    for arm in arms {
        put_arm_calls(out, arm)?;
    }
    Ok(())
}

#[cycle(statement_calls)]
#[tactic(auto, using(std::proofs::lemmas::List::append_assoc, crate::proofs::Appends::append_none, c_typed::proofs::CallSights::statement_calls_of))]
fn put_arm_calls(out: &mut Vec<FnId>, arm: &TArm) -> Result<(), AllocError>
    ensures { IfOk result (λ _. out.new.items ≡ out.old.items ++ stated.arm_calls (arm_of arm.now)) }
{
    put_calls(out, &arm.condition)?;
    put_statement_calls(out, &arm.then)
}
