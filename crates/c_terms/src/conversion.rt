//! Conversions between types (ISO/IEC 9899:1990, 6.2 and 6.3.16.1).

ghost use Rattle.std.specs.Prelude.{◌≡◌, IfOk};
ghost use Rattle.c_typed.specs.Views.{expression_of};
ghost use Rattle.type_rules.specs.Conversions as rule;
ghost use Rattle.type_rules.specs.Known.{Known, given};
ghost use Rattle.c_tables.specs.Answers.{Answers};
ghost use Rattle.c_tables.specs.Tables.{types_in};
ghost use Rattle.c_terms.specs.Terms.{operand_of, side_of};

use crate::nodes::convert_node;
use crate::term::{Operand, Side};
use c_tables::error::{CheckError, Kind, refused};
use c_tables::types::Types;
use c_typed::{Qualified, TExpr, Ty, is_int, is_pointer, is_void, same_type};
use std::alloc::{AllocError, Global};

/// The value in this type, by a Convert node where it has another one. The one error is that memory ran out.
pub fn in_type(alloc: Global, operand: Operand, ty: Ty) -> Result<TExpr, AllocError>
    ensures { IfOk result (λ e. expression_of e ≡ rule.converted (operand_of operand) ty) }
{
    if same_type(operand.value.ty(), ty) {
        return Ok(operand.value);
    }
    convert_node(alloc, operand.value, ty, operand.line)
}

/// The value in this type, by a Convert node where it has another one.
pub fn converted(alloc: Global, operand: Operand, ty: Ty) -> Result<TExpr, CheckError>
    ensures { (known : Known) → Answers expression_of result known (given (rule.converted (operand_of operand) ty) known) }
{
    Ok(in_type(alloc, operand, ty)?)
}

// Whether a pointer to the one may become a pointer to the other: they are of one type, or one of them
// is void, and no qualifier is dropped.
fn may_point(from: Qualified, to: Qualified) -> bool
    ensures { result ≡ rule.may_become from to }
{
    let same = same_type(from.ty, to.ty) || (is_void(from.ty) || is_void(to.ty));
    same && ((!from.constant || to.constant) && (!from.volatile || to.volatile))
}

// Whether a value becomes a pointer to this without a cast.
fn becomes_pointer(types: &Types, from: Side, to: Qualified) -> bool
    ensures { (known : Known) → result ≡ rule.becomes_pointer (types_in types.now known) (side_of from) from.ty to }
{
    match from.ty {
        Ty::Pointer(source) => from.null || may_point(types.target(source), to),
        Ty::Void | Ty::Int(_) | Ty::Array { .. } | Ty::Struct(_) => from.null,
    }
}

/// Whether a value may be assigned to an integer or a pointer of the type.
pub fn is_assignable(types: &Types, from: Side, to: Ty) -> bool
    ensures { (known : Known) → result ≡ rule.may_be_assigned (types_in types.now known) (side_of from) to }
{
    match to {
        Ty::Int(_) => is_int(from.ty),
        Ty::Pointer(target) => becomes_pointer(types, from, types.target(target)),
        Ty::Void | Ty::Array { .. } | Ty::Struct(_) => false,
    }
}

/// The value as one that is assigned to an integer or a pointer of the type, at this line.
pub fn assigned(
    alloc: Global,
    types: &Types,
    operand: Operand,
    ty: Ty,
    line: u32,
) -> Result<TExpr, CheckError>
    ensures { (known : Known) → Answers expression_of result (types_in types.now known) (rule.assigned (operand_of operand) ty line (types_in types.now known)) }
{
    if is_assignable(types, operand.side(), ty) {
        converted(alloc, operand, ty)
    } else {
        refused(Kind::Convert, line)
    }
}

/// Whether a cast may turn a value into the type.
pub fn is_castable(from: Side, to: Ty) -> bool
    ensures { result ≡ rule.may_be_cast (side_of from) to }
{
    match to {
        Ty::Void => true,
        Ty::Int(_) => is_int(from.ty),
        Ty::Pointer(_) => from.null || is_pointer(from.ty),
        Ty::Array { .. } | Ty::Struct(_) => false,
    }
}
