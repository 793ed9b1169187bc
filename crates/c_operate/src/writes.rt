//! Assignments, `++` and `--` (ISO/IEC 9899:1990, 6.3.2.4, 6.3.3.1 and 6.3.16).

ghost use Rattle.std.specs.Prelude.{◌≡◌, Err};
ghost use Rattle.std.specs.Option.{option_map};
ghost use Rattle.c_token.specs.declared.token.TokKind.TheVariants as kinds;
ghost use Rattle.c_typed.specs.Sameness as stated;
ghost use Rattle.c_typed.specs.Types.{place_type};
ghost use Rattle.c_typed.specs.Views.{expression_of, place_of};
ghost use Rattle.type_rules.specs.Known.{Known};
ghost use Rattle.type_rules.specs.Terms as terms;
ghost use Rattle.type_rules.specs.Writes as rule;
ghost use Rattle.c_tables.specs.Answers.{Answers};
ghost use Rattle.c_tables.specs.Tables.{types_in};
ghost use Rattle.c_tables.specs.declared.error.CheckError.TheVariants as errors;
ghost use Rattle.c_terms.specs.Terms.{node_of, operand_of, term_of, valued};

use c_ints::{BinOp, IntTy, usual};
use c_tables::error::{CheckError, Kind, refused};
use c_tables::types::Types;
use c_terms::conversion::{assigned, converted};
use c_terms::nodes::{assign_node, copy_node, step_node, update_node};
use c_terms::operation::{Node, compound_operator, operation_of};
use c_terms::term::{Operand, Side, Term, read_from, refuse_table, value_term, written};
use c_token::Punct;
use c_typed::{StepOp, TExpr, TPlace, Ty, is_int, same_type};
use std::alloc::Global;

// The refusal of a write, which lets the place and the value go.
fn refused_write(_place: TPlace, _from: Operand, kind: Kind, line: u32) -> Result<TExpr, CheckError>
    ensures { result ≡ Err (errors.Kind kind line) }
{
    refused(kind, line)
}

// The assignment of a structure to a structure's place.
fn copied(
    alloc: Global,
    types: &Types,
    place: TPlace,
    from: Operand,
    line: u32,
) -> Result<TExpr, CheckError>
    ensures { (known : Known) → Answers (valued line) result (types_in types.now known) (rule.copy (place_of place) (operand_of from) line (types_in types.now known)) }
{
    let ty = place.ty().ty;
    if !same_type(from.value.ty(), ty) {
        return refused_write(place, from, Kind::Convert, line);
    }
    let Some(source) = read_from(from.value) else {
        return refused(Kind::Convert, line);
    };
    let size = types.bytes_of(ty);
    Ok(copy_node(alloc, place, source, size, line)?)
}

fn is_struct(ty: Ty) -> bool
    ensures { result ≡ stated.is_struct ty }
{
    match ty {
        Ty::Struct(_) => true,
        Ty::Void | Ty::Int(_) | Ty::Pointer(_) | Ty::Array { .. } => false,
    }
}

fn simple(
    alloc: Global,
    types: &Types,
    place: TPlace,
    from: Operand,
    line: u32,
) -> Result<TExpr, CheckError>
    ensures { (known : Known) → Answers (valued line) result (types_in types.now known) (rule.simple_assignment (place_type (place_of place)).ty (place_of place) (operand_of from) line (types_in types.now known)) }
{
    let ty = place.ty().ty;
    if is_struct(ty) {
        return copied(alloc, types, place, from, line);
    }
    let value = assigned(alloc, types, from, ty, line)?;
    Ok(assign_node(alloc, place, value, ty, line)?)
}

// Whether an operator's result may become the place's type.
fn keeps_type(node: Node, place: Ty, result_type: Ty) -> bool
    ensures { result ≡ rule.keeps_type (node_of node) place result_type }
{
    match node {
        Node::Binary => is_int(place),
        Node::Offset => same_type(result_type, place),
        Node::Difference => false,
    }
}

fn compound(
    alloc: Global,
    types: &Types,
    op: BinOp,
    place: TPlace,
    from: Operand,
    line: u32,
) -> Result<TExpr, CheckError>
    ensures { (known : Known) → Answers (valued line) result (types_in types.now known) (rule.compound_assignment op (place_of place) (operand_of from) line (types_in types.now known)) }
{
    let ty = place.ty().ty;
    let left = Side { ty, null: false };
    let Some(found) = operation_of(types, op, left, from.side()) else {
        return refused_write(place, from, Kind::Operand, line);
    };
    if !keeps_type(found.node, ty, found.ty) {
        return refused_write(place, from, Kind::Convert, line);
    }
    let value = converted(alloc, from, found.right)?;
    Ok(update_node(alloc, op, place, value, found.left, found.size, ty, line)?)
}

fn assigned_by(
    alloc: Global,
    types: &Types,
    op: Option<BinOp>,
    place: TPlace,
    from: Operand,
    line: u32,
) -> Result<TExpr, CheckError>
    ensures { (known : Known) → Answers (valued line) result (types_in types.now known) (rule.assignment_by op (place_of place) (operand_of from) line (types_in types.now known)) }
{
    match op {
        Some(op) => compound(alloc, types, op, place, from, line),
        None => simple(alloc, types, place, from, line),
    }
}

/// An assignment to a target, by `=` or an operator with `=`.
pub fn assignment(
    alloc: Global,
    types: &Types,
    sign: Punct,
    target: Term,
    from: Operand,
) -> Result<Term, CheckError>
    ensures { (known : Known) → Answers term_of result (types_in types.now known) (rule.assignment (kinds.Punct sign) (term_of target) (operand_of from) (types_in types.now known)) }
{
    let line = target.start;
    let place = written(target, line)?;
    let value = assigned_by(alloc, types, compound_operator(sign), place, from, line)?;
    Ok(value_term(value, line))
}

// The type in which `++` and `--` count, and the bytes of an element.
fn counted(types: &Types, ty: Ty) -> Option<(Ty, u64)>
    ensures { (known : Known) → option_map (λ c. (c.0, c.1)) result ≡ rule.counted (types_in types.now known) ty }
{
    match ty {
        Ty::Int(int) => Some((Ty::Int(usual(int, IntTy::Int)), 0)),
        Ty::Pointer(row) => {
            let target = types.target(row).ty;
            if types.is_complete(target) {
                Some((ty, types.bytes_of(target)))
            } else {
                None
            }
        }
        Ty::Void | Ty::Array { .. } | Ty::Struct(_) => None,
    }
}

/// `++` or `--`; `line` is that of the node's first token.
pub fn stepped(
    alloc: Global,
    types: &Types,
    op: StepOp,
    target: Term,
    line: u32,
) -> Result<Term, CheckError>
    ensures { (known : Known) → Answers term_of result (types_in types.now known) (rule.stepped op (term_of target) line (types_in types.now known)) }
{
    refuse_table(&target)?;
    let place = written(target, line)?;
    let ty = place.ty().ty;
    let Some((operation, size)) = counted(types, ty) else {
        return refused(Kind::Operand, line);
    };
    let value = step_node(alloc, op, place, operation, size, ty, line)?;
    Ok(value_term(value, line))
}
