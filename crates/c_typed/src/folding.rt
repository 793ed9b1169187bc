//! The values of integer constant expressions (ISO/IEC 9899:1990, 6.4).

ghost use Rattle.std.specs.Prelude.{◌≡◌, IsFalse};
ghost use Rattle.c_ints.specs.Conversions.{promoted};
ghost use Rattle.c_ints.specs.Operators.{shifts};
ghost use Rattle.c_typed.specs.Folding as stated;
ghost use Rattle.c_typed.specs.Views.{expression_of};

use crate::expression::{LogicalOp, TExpr};
use crate::types::Ty;
use c_ints::{BinOp, IntTy, UnOp, Value, apply, convert, promote, unary};

/// What an expression is as an integer constant expression (ISO/IEC 9899:1990, 6.4).
#[derive(Clone, Copy, PartialEq, Eq)]
pub enum Folded {
    /// It is none.
    Variable,
    /// It is one whose value is undefined, as that of a division by 0.
    Undefined,
    /// It is one, and this is its value.
    Value(Value),
}

fn truth_value(is: bool) -> Value
    ensures { result ≡ stated.truth_value is }
{
    Value::new(IntTy::Int, if is { 1 } else { 0 })
}

#[tactic(auto, unfolding(crate::specs::Folding::bits))]
fn holds(value: Value) -> bool
    ensures { result ≡ stated.holds value }
{
    value.bits() != 0
}

fn converted_to(ty: IntTy, value: Option<Value>) -> Option<Value>
    ensures { result ≡ stated.converted_to ty value }
{
    match value {
        Some(value) => Some(convert(value, ty)),
        None => None,
    }
}

fn converted(ty: Ty, value: Option<Value>) -> Option<Value>
    ensures { result ≡ stated.converted ty value }
{
    match ty {
        Ty::Int(ty) => converted_to(ty, value),
        Ty::Void | Ty::Pointer(_) | Ty::Array { .. } | Ty::Struct(_) => None,
    }
}

fn negated(op: UnOp, value: Option<Value>) -> Option<Value>
    ensures { result ≡ stated.negated op value }
{
    match value {
        Some(value) => Some(unary(op, value)),
        None => None,
    }
}

fn right_type(shifts: bool, left: IntTy, right: IntTy) -> IntTy
    ensures value { result ≡ stated.right_type shifts left right }
    ensures promoted { promoted result ≡ result }
    ensures same { IsFalse shifts → result ≡ promoted left }
{
    if shifts {
        promote(right)
    } else {
        promote(left)
    }
}

fn is_shift(op: BinOp) -> bool
    ensures { result ≡ shifts op }
{
    match op {
        BinOp::Shl | BinOp::Shr => true,
        _ => false,
    }
}

// The operands are promoted, and those of an operator other than a shift have one type.
fn applied(op: BinOp, a: Value, b: Value) -> Option<Value>
    ensures { result ≡ stated.applied op a b }
{
    let right = right_type(is_shift(op), a.ty(), b.ty());
    apply(op, convert(a, promote(a.ty())), convert(b, right))
}

fn combined(op: BinOp, left: Option<Value>, right: Option<Value>) -> Option<Value>
    ensures { result ≡ stated.combined op left right }
{
    let Some(a) = left else {
        return None;
    };
    let Some(b) = right else {
        return None;
    };
    applied(op, a, b)
}

fn truth_of(value: Option<Value>) -> Option<Value>
    ensures { result ≡ stated.truth_of value }
{
    match value {
        Some(value) => Some(truth_value(holds(value))),
        None => None,
    }
}

// The right operand counts only where the left one doesn't decide.
fn decided(op: LogicalOp, left: bool, right: Option<Value>) -> Option<Value>
    ensures { result ≡ stated.decided op left right }
{
    match op {
        LogicalOp::And => {
            if left {
                truth_of(right)
            } else {
                Some(truth_value(false))
            }
        }
        LogicalOp::Or => {
            if left {
                Some(truth_value(true))
            } else {
                truth_of(right)
            }
        }
    }
}

fn connected(op: LogicalOp, left: Option<Value>, right: Option<Value>) -> Option<Value>
    ensures { result ≡ stated.connected op left right }
{
    match left {
        Some(left) => decided(op, holds(left), right),
        None => None,
    }
}

fn chosen(condition: Option<Value>, yes: Option<Value>, no: Option<Value>) -> Option<Value>
    ensures { result ≡ stated.chosen condition yes no }
{
    match condition {
        Some(condition) => { if holds(condition) { yes } else { no } }
        None => None,
    }
}

// The value of an expression that is an integer constant expression, if it has one.
#[tactic(auto, using(crate::proofs::Shapes::expression_shapes), unfolding(crate::specs::Folding::constant_value))]
fn constant_value(e: &TExpr) -> Option<Value>
    ensures { result ≡ stated.constant_value (expression_of e.now) }
{
    match e {
        TExpr::Constant { value, .. } => Some(*value),
        TExpr::Convert { operand, ty, .. } | TExpr::Cast { operand, ty, .. } => {
            converted(*ty, constant_value(operand))
        }
        TExpr::Unary { op, operand, .. } => negated(*op, constant_value(operand)),
        TExpr::Binary {
            op,
            left,
            right,
            ..
        } => combined(*op, constant_value(left), constant_value(right)),
        TExpr::Logical {
            op,
            left,
            right,
            ..
        } => connected(*op, constant_value(left), constant_value(right)),
        TExpr::Conditional {
            condition,
            then,
            otherwise,
            ..
        } => chosen(
            constant_value(condition),
            constant_value(then),
            constant_value(otherwise),
        ),
        TExpr::Read { .. }
        | TExpr::Address { .. }
        | TExpr::Offset { .. }
        | TExpr::Difference { .. }
        | TExpr::Comma { .. }
        | TExpr::Assign { .. }
        | TExpr::StructAssign { .. }
        | TExpr::Update { .. }
        | TExpr::Step { .. }
        | TExpr::Call { .. } => None,
    }
}

#[tactic(auto, unfolding(crate::specs::Folding::bits))]
fn bits_of(value: Option<Value>) -> u32
    ensures { result ≡ stated.bits_of value }
{
    match value {
        Some(value) => value.bits(),
        None => 0,
    }
}

fn with_value(value: Option<Value>) -> Folded
    ensures { result ≡ stated.with_value value }
{
    match value {
        Some(value) => Folded::Value(value),
        None => Folded::Undefined,
    }
}

impl TExpr {
    /// What the expression is as an integer constant expression. An operand that isn't evaluated may be
    /// undefined.
    pub fn fold(&self) -> Folded
        ensures { result ≡ stated.folded (expression_of self.now) }
    {
        if self.is_constant() {
            with_value(constant_value(self))
        } else {
            Folded::Variable
        }
    }

    /// The bits of the value of an integer constant expression, and 0 where that is undefined.
    #[inline(never)]
    pub fn constant_bits(&self) -> u32
        ensures { result ≡ stated.constant_bits (expression_of self.now) }
    {
        bits_of(constant_value(self))
    }
}
