//! Expressions that are checked already, and their values.

ghost use Rattle.std.specs.Prelude.{◌≡◌};
ghost use Rattle.std.specs.Option.{option_map};
ghost use Rattle.c_typed.specs.Types.{place_type};
ghost use Rattle.c_typed.specs.Views.{expression_of, place_of};
ghost use Rattle.type_rules.specs.Faults as kind;
ghost use Rattle.type_rules.specs.Known.{Known, wanted};
ghost use Rattle.type_rules.specs.Rows as rows;
ghost use Rattle.type_rules.specs.Terms as rule;
ghost use Rattle.type_rules.specs.Writes.{structure_read, written_place};
ghost use Rattle.c_tables.specs.Answers.{Answers, Learns};
ghost use Rattle.c_tables.specs.Tables.{known_of, types_in};
ghost use Rattle.c_terms.specs.Terms.{form_of, lvalue_reach, operand_of, place_in, reach_of, side_of, term_of};

use crate::nodes::{address_node, read_node};
use c_ints::{IntTy, Value};
use c_tables::checker::Checker;
use c_tables::error::{CheckError, Kind, refused};
use c_tables::types::Types;
use c_typed::{Qualified, TExpr, TPlace, Ty, is_array};
use std::alloc::Global;

/// An lvalue (ISO/IEC 9899:1990, 6.2.2.1). `through` says that it is reached through a pointer; `fixed` that
/// it isn't, and is part of what no address can be taken of: a register or bit of the device, or a
/// `register` object.
#[derive(Drop)]
pub struct Lvalue {
    pub place: TPlace,
    pub through: bool,
    pub fixed: bool,
}

impl Lvalue {
    /// Its type, and whether it is const or volatile.
    pub fn ty(&self) -> Qualified
        ensures { result ≡ place_type (place_of self.now.place) }
    {
        self.place.ty()
    }

    /// Whether `&` may stand before it: it is reached through a pointer, or is part of an object that is
    /// neither const nor declared `register`.
    pub fn is_addressable(&self) -> bool
        ensures { result ≡ rule.is_addressable (place_of self.now.place) (lvalue_reach self.now) }
    {
        self.through || !(self.fixed || self.ty().constant)
    }

    /// Whether it is a const array, which may only be indexed or measured.
    pub fn is_table(&self) -> bool
        ensures { result ≡ rule.is_table (place_of self.now.place) (lvalue_reach self.now) }
    {
        let ty = self.ty();
        is_array(ty.ty) && (ty.constant && !self.through)
    }
}

/// What an expression is.
#[derive(Drop)]
pub enum Form {
    Value(TExpr),
    Lvalue(Lvalue),
    /// The name of the function of this number among those declared; `bare` where no brackets stand
    /// round it.
    Function { number: usize, bare: bool },
    /// The name of a type.
    TypeName,
}

/// How the elements of an array are reached: through a pointer, or as parts of what no address can be taken of.
#[derive(Clone, Copy)]
pub struct Reach {
    pub through: bool,
    pub fixed: bool,
}

/// An expression that is checked: what it is, whether it is a null constant, the line of its first
/// token, and that of its first token with the brackets round it. `reach` is there where it points into
/// an array that it names.
#[derive(Drop)]
pub struct Term {
    pub form: Form,
    pub null: bool,
    pub line: u32,
    pub start: u32,
    pub reach: Option<Reach>,
}

/// An expression whose value is used.
#[derive(Drop)]
pub struct Operand {
    pub value: TExpr,
    pub null: bool,
    pub line: u32,
    pub start: u32,
    pub reach: Option<Reach>,
}

impl Operand {
    /// The type of the value, and whether it is a null constant.
    pub fn side(&self) -> Side
        ensures { side_of result ≡ rule.side_of (operand_of self.now) }
    {
        Side {
            ty: self.value.ty(),
            null: self.null,
        }
    }
}

/// The type of an operand, and whether it is a null constant.
#[derive(Clone, Copy)]
pub struct Side {
    pub ty: Ty,
    pub null: bool,
}

/// A value at this line.
pub fn value_term(value: TExpr, line: u32) -> Term
    ensures { term_of result ≡ rule.value_term (expression_of value) line }
{
    Term {
        form: Form::Value(value),
        null: false,
        line,
        start: line,
        reach: None,
    }
}

/// An lvalue at this line.
pub fn lvalue_term(place: Lvalue, line: u32) -> Term
    ensures { term_of result ≡ rule.place_term (place_of place.place) (lvalue_reach place) line }
{
    Term {
        form: Form::Lvalue(place),
        null: false,
        line,
        start: line,
        reach: None,
    }
}

/// The value of the constant 0 or 1, or of a size.
#[tactic(auto, using(c_typed::proofs::Shapes::show_expression_constant))]
pub fn constant(ty: IntTy, bits: u32, line: u32) -> TExpr
    ensures { expression_of result ≡ rule.number_of_type ty bits line }
{
    TExpr::Constant {
        value: Value::new(ty, bits),
        line,
    }
}

/// The type with the qualifiers of another one.
pub fn like(whole: Qualified, ty: Ty) -> Qualified
    ensures { result ≡ rows.like whole ty }
{
    Qualified {
        ty,
        constant: whole.constant,
        volatile: whole.volatile,
    }
}

/// The pointer to the first element of an array, at this line.
pub fn array_start(
    alloc: Global,
    types: &mut Types,
    place: TPlace,
    element: usize,
    line: u32,
) -> Result<TExpr, CheckError>
    ensures { (known : Known) → Answers expression_of result (types_in types.new known) (rule.array_start (place_of place) element line (types_in types.old known)) }
{
    let target = like(place.ty(), types.target(element).ty);
    let ty = types.pointer_to(target)?;
    Ok(address_node(alloc, place, ty, line)?)
}

/// The value of a place at this line: an array is the pointer to its first element.
pub fn value_at(
    alloc: Global,
    types: &mut Types,
    place: TPlace,
    line: u32,
) -> Result<TExpr, CheckError>
    ensures { (known : Known) → Answers expression_of result (types_in types.new known) (rule.value_at (place_of place) (place_type (place_of place)).ty line (types_in types.old known)) }
{
    let ty = place.ty().ty;
    match ty {
        Ty::Array { element, .. } => array_start(alloc, types, place, element, line),
        Ty::Void | Ty::Int(_) | Ty::Pointer(_) | Ty::Struct(_) => {
            Ok(read_node(alloc, place, ty, line)?)
        }
    }
}

/// How the elements of an lvalue are reached, if it is an array.
pub fn reach_of(place: &Lvalue) -> Option<Reach>
    ensures { option_map reach_of result ≡ rule.in_place (place_of place.now.place) (lvalue_reach place.now) }
{
    match place.ty().ty {
        Ty::Array { .. } => Some(Reach {
            through: place.through,
            fixed: place.fixed,
        }),
        Ty::Void | Ty::Int(_) | Ty::Pointer(_) | Ty::Struct(_) => None,
    }
}

/// The array that a sum of a pointer and an integer points into, if one of them names it.
pub fn first_reach(left: Option<Reach>, right: Option<Reach>) -> Option<Reach>
    ensures { option_map reach_of result ≡ rule.first_into (option_map reach_of left) (option_map reach_of right) }
{
    match left {
        Some(reach) => Some(reach),
        None => right,
    }
}

/// The value of an expression, where a const array may stand too: as what is indexed. A function has none, nor has a type.
pub fn indexed(alloc: Global, types: &mut Types, term: Term) -> Result<Operand, CheckError>
    ensures { (known : Known) → Answers operand_of result (types_in types.new known) (rule.indexed (term_of term) (types_in types.old known)) }
{
    let Term {
        form,
        null,
        line,
        start,
        reach,
    } = term;
    let (value, reach) = match form {
        Form::Value(value) => (value, reach),
        Form::Lvalue(place) => {
            let reach = reach_of(&place);
            (value_at(alloc, types, place.place, line)?, reach)
        }
        Form::Function { .. } | Form::TypeName => return refused(Kind::Operand, line),
    };
    Ok(Operand {
        value,
        null,
        line,
        start,
        reach,
    })
}

/// The value of an expression that is neither a function nor a const array, over the types alone.
pub fn used_value(alloc: Global, types: &mut Types, term: Term) -> Result<Operand, CheckError>
    ensures { (known : Known) → Answers operand_of result (types_in types.new known) (rule.used (term_of term) (types_in types.old known)) }
{
    refuse_table(&term)?;
    indexed(alloc, types, term)
}

/// The value of an expression. A function has none, nor has a const array.
pub fn used(term: Term, checker: &mut Checker) -> Result<Operand, CheckError>
    ensures { Answers operand_of result (known_of checker.new) (rule.used (term_of term) (known_of checker.old)) }
{
    used_value(checker.alloc, &mut checker.types, term)
}

/// Refuses a const array that is neither indexed nor measured.
pub fn refuse_table(term: &Term) -> Result<(), CheckError>
    ensures { (known : Known) → Learns result known (rule.no_table (term_of term.now) known) }
{
    match &term.form {
        Form::Lvalue(place) => {
            if place.is_table() {
                refused(Kind::Address, term.line)
            } else {
                Ok(())
            }
        }
        Form::Value(_) | Form::Function { .. } | Form::TypeName => Ok(()),
    }
}

/// The lvalue that a term is, if it is one.
pub fn into_lvalue(term: Term) -> Option<Lvalue>
    ensures { option_map (λ l. (place_of l.place, lvalue_reach l)) result ≡ place_in (form_of term.form) }
{
    match term.form {
        Form::Lvalue(place) => Some(place),
        Form::Value(_) | Form::Function { .. } | Form::TypeName => None,
    }
}

/// The place whose structure a value is read from.
#[tactic(auto, using(crate::proofs::PlacesRead::is_place_read))]
pub fn read_from(mut value: TExpr) -> Option<TPlace>
    ensures { option_map place_of result ≡ structure_read (expression_of value) }
{
    value.take_read()
}

/// The place that is written by an assignment, `++` or `--` at this line.
pub fn written(term: Term, line: u32) -> Result<TPlace, CheckError>
    ensures { (known : Known) → Answers place_of result known (wanted kind.Assign line (written_place (form_of term.form)) known) }
{
    let Some(place) = into_lvalue(term) else {
        return refused(Kind::Assign, line);
    };
    let ty = place.ty();
    if ty.constant || is_array(ty.ty) {
        refused(Kind::Assign, line)
    } else {
        Ok(place.place)
    }
}
