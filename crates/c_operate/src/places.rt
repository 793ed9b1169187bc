//! Operators on places: `& * [] . ->` and `sizeof` (ISO/IEC 9899:1990, 6.3.2 and 6.3.3).

ghost use Rattle.std.specs.Prelude.{◌≡◌, ◌%◌};
ghost use Rattle.std.specs.Option.{option_map};
ghost use Rattle.c_typed.specs.Views.{place_of};
ghost use Rattle.type_rules.specs.Known.{Known, given};
ghost use Rattle.type_rules.specs.Places as rule;
ghost use Rattle.c_tables.specs.Answers.{Answers};
ghost use Rattle.c_tables.specs.Tables.{field_of, types_in};
ghost use Rattle.c_terms.specs.Terms.{form_of, lvalue_reach, operand_of, operation_of, reach_of, term_of};

use crate::operators::{refused_one, refused_two};
use c_ints::{BinOp, IntTy};
use c_tables::error::{CheckError, Kind, refused};
use c_tables::types::{Field, Types};
use c_terms::conversion::converted;
use c_terms::nodes::{address_node, deref_place, member_place, offset_node};
use c_terms::operation::{Operation, operation_of};
use c_terms::term::{
    Form, Lvalue, Operand, Reach, Term, constant, first_reach, indexed, into_lvalue, lvalue_term,
    refuse_table, used_value, value_term,
};
use c_typed::{Qualified, TPlace, Ty, is_array};
use std::alloc::Global;

// What a pointer of this type points to.
fn pointed_type(types: &Types, ty: Ty) -> Option<Qualified>
    ensures { (known : Known) → result ≡ rule.pointed_type (types_in types.now known) ty }
{
    match ty {
        Ty::Pointer(row) => Some(types.target(row)),
        Ty::Void | Ty::Int(_) | Ty::Array { .. } | Ty::Struct(_) => None,
    }
}

// The same, if an object can have the type that is pointed to.
fn object_pointed(types: &Types, ty: Ty) -> Option<Qualified>
    ensures { (known : Known) → result ≡ rule.object_pointed (types_in types.now known) ty }
{
    match pointed_type(types, ty) {
        Some(target) => {
            if types.is_complete(target.ty) {
                Some(target)
            } else {
                None
            }
        }
        None => None,
    }
}

/// What a pointer points to; `line` is that of the node's first token.
pub fn pointed(
    alloc: Global,
    types: &Types,
    operand: Operand,
    line: u32,
) -> Result<Term, CheckError>
    ensures { (known : Known) → Answers term_of result (types_in types.now known) (rule.dereference (operand_of operand) line (types_in types.now known)) }
{
    let Some(ty) = object_pointed(types, operand.value.ty()) else {
        return refused_one(operand, Kind::Operand, line);
    };
    let reach = operand.reach;
    let place = deref_place(alloc, operand.value, ty, line)?;
    Ok(lvalue_term(behind_pointer(place, reach), line))
}

/// `&` of a term.
pub fn address(alloc: Global, types: &mut Types, term: Term, line: u32) -> Result<Term, CheckError>
    ensures { (known : Known) → Answers term_of result (types_in types.new known) (rule.address (term_of term) line (types_in types.old known)) }
{
    refuse_table(&term)?;
    let Some(place) = into_lvalue(term) else {
        return refused(Kind::Address, line);
    };
    if !place.is_addressable() {
        return refused(Kind::Address, line);
    }
    let ty = types.pointer_to(place.ty())?;
    let value = address_node(alloc, place.place, ty, line)?;
    Ok(value_term(value, line))
}

// The rest of a number modulo that of the unsigned ints.
fn as_unsigned_int(size: u64) -> u32
    ensures { result ≡ size % 65536 }
{
    (size % 65536) as u32
}

/// The size of a type as a constant.
pub fn size_of_type(types: &Types, ty: Ty, line: u32) -> Result<Term, CheckError>
    ensures { (known : Known) → Answers term_of result (types_in types.now known) (rule.size_of_type ty line (types_in types.now known)) }
{
    if !types.is_complete(ty) {
        return refused(Kind::Incomplete, line);
    }
    let value = constant(IntTy::UInt, as_unsigned_int(types.bytes_of(ty)), line);
    Ok(value_term(value, line))
}

#[tactic(auto, using(c_typed::proofs::Shapes::show_place_bit, c_typed::proofs::Shapes::show_place_name, c_typed::proofs::Shapes::show_place_member, c_typed::proofs::Shapes::show_place_deref))]
fn is_bit(place: &TPlace) -> bool
    ensures { result ≡ rule.is_bit (place_of place.now) }
{
    match place {
        TPlace::Bit { .. } => true,
        TPlace::Name { .. } | TPlace::Member { .. } | TPlace::Deref { .. } => false,
    }
}

// The type of what is measured, which is no bit and no function.
fn measured(form: &Form) -> Option<Ty>
    ensures { result ≡ rule.measured (form_of form.now) }
{
    match form {
        Form::Value(value) => Some(value.ty()),
        Form::Lvalue(place) => {
            if is_bit(&place.place) {
                None
            } else {
                Some(place.ty().ty)
            }
        }
        Form::Function { .. } | Form::TypeName => None,
    }
}

/// `sizeof` of a term, which is no bit and no function.
pub fn size_of_term(types: &Types, term: Term, line: u32) -> Result<Term, CheckError>
    ensures { (known : Known) → Answers term_of result (types_in types.now known) (rule.size_of_term (term_of term) line (types_in types.now known)) }
{
    let Some(ty) = measured(&term.form) else {
        return refused(Kind::Operand, line);
    };
    size_of_type(types, ty, line)
}

// Whether what stands before `[` stays a place.
fn keeps_place(form: &Form) -> bool
    ensures { result ≡ rule.keeps_place (form_of form.now) }
{
    match form {
        Form::Lvalue(place) => is_array(place.ty().ty),
        Form::Value(_) | Form::Function { .. } | Form::TypeName => false,
    }
}

/// What stands before `[`: an array stays a place, so that its elements count as parts of it.
pub fn indexable(alloc: Global, types: &mut Types, term: Term) -> Result<Term, CheckError>
    ensures { (known : Known) → Answers term_of result (types_in types.new known) (rule.before_index (term_of term) (types_in types.old known)) }
{
    if keeps_place(&term.form) {
        return Ok(term);
    }
    let found = used_value(alloc, types, term)?;
    Ok(Term {
        form: Form::Value(found.value),
        null: found.null,
        line: found.line,
        start: found.start,
        reach: found.reach,
    })
}

// What a sum of a pointer and an integer leads to.
fn element_at(
    alloc: Global,
    left: Operand,
    right: Operand,
    found: Operation,
    ty: Qualified,
    line: u32,
) -> Result<Term, CheckError>
    ensures { (known : Known) → Answers term_of result known (given (rule.element_at (operand_of left) (operand_of right) (operation_of found) ty line) known) }
{
    let reach = first_reach(left.reach, right.reach);
    let left = converted(alloc, left, found.left)?;
    let right = converted(alloc, right, found.right)?;
    let pointer = offset_node(alloc, BinOp::Add, left, right, found.size, found.ty, line)?;
    let place = deref_place(alloc, pointer, ty, line)?;
    Ok(lvalue_term(behind_pointer(place, reach), line))
}

/// `e[i]`, which is `*(e + i)`. An element of an array that isn't reached through a pointer is a part of
/// that array, in either form.
pub fn element(
    alloc: Global,
    types: &mut Types,
    whole: Term,
    index: Term,
) -> Result<Term, CheckError>
    ensures { (known : Known) → Answers term_of result (types_in types.new known) (rule.element (term_of whole) (term_of index) (types_in types.old known)) }
{
    let line = whole.start;
    let left = indexed(alloc, types, whole)?;
    let right = indexed(alloc, types, index)?;
    let Some(found) = operation_of(types, BinOp::Add, left.side(), right.side()) else {
        return refused_two(left, right, line);
    };
    let Some(ty) = pointed_type(types, found.ty) else {
        return refused_two(left, right, line);
    };
    element_at(alloc, left, right, found, ty, line)
}

// How what a pointer points to is reached: as the array that the pointer names, or through the pointer.
fn reach_behind(reach: Option<Reach>) -> Reach
    ensures { reach_of result ≡ rule.reach_behind (option_map reach_of reach) }
{
    match reach {
        Some(reach) => reach,
        None => Reach {
            through: true,
            fixed: false,
        },
    }
}

// What a pointer points to: a part of the array that the pointer names, or reached through the pointer.
fn behind_pointer(place: TPlace, reach: Option<Reach>) -> Lvalue
    ensures place { place_of result.place ≡ place_of place }
    ensures reach { lvalue_reach result ≡ rule.reach_behind (option_map reach_of reach) }
{
    let reach = reach_behind(reach);
    Lvalue {
        place,
        through: reach.through,
        fixed: reach.fixed,
    }
}

// The member of a name, if the type is that of a structure that has one, and its number.
fn member_in(types: &Types, ty: Ty, name: &[u8]) -> Option<(usize, Field)>
    ensures { (known : Known) → option_map (λ m. (m.0, field_of m.1)) result ≡ rule.member_in (types_in types.now known) ty name.now }
{
    match ty {
        Ty::Struct(structure) => types.member(structure, name),
        Ty::Void | Ty::Int(_) | Ty::Pointer(_) | Ty::Array { .. } => None,
    }
}

// The type of a member: it has its own qualifiers and those of the whole.
fn part_type(whole: Qualified, part: Qualified) -> Qualified
    ensures { result ≡ rule.part_type whole part }
{
    Qualified {
        ty: part.ty,
        constant: part.constant || whole.constant,
        volatile: part.volatile || whole.volatile,
    }
}

/// The member of a name of a structure that is a place; `line` is that of the node's first token.
pub fn member(
    alloc: Global,
    types: &Types,
    whole: Term,
    name: &[u8],
    line: u32,
) -> Result<Term, CheckError>
    ensures { (known : Known) → Answers term_of result (types_in types.now known) (rule.member (term_of whole) name.now line (types_in types.now known)) }
{
    refuse_table(&whole)?;
    let Some(whole) = into_lvalue(whole) else {
        return refused(Kind::Member, line);
    };
    let ty = whole.ty();
    let Some((index, field)) = member_in(types, ty.ty, name) else {
        return refused(Kind::Member, line);
    };
    let ty = part_type(ty, field.ty);
    let place = member_place(alloc, whole.place, index, field.offset, ty, line)?;
    let place = Lvalue {
        place,
        through: whole.through,
        fixed: whole.fixed,
    };
    Ok(lvalue_term(place, line))
}

/// The member of a name of the structure that a pointer points to.
pub fn pointed_member(
    alloc: Global,
    types: &Types,
    pointer: Operand,
    name: &[u8],
    line: u32,
) -> Result<Term, CheckError>
    ensures { (known : Known) → Answers term_of result (types_in types.now known) (rule.pointed_member (operand_of pointer) name.now line (types_in types.now known)) }
{
    let Some(_) = object_pointed(types, pointer.value.ty()) else {
        return refused_one(pointer, Kind::Member, line);
    };
    let whole = pointed(alloc, types, pointer, line)?;
    member(alloc, types, whole, name, line)
}
