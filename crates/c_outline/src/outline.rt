//! What a declarator makes of a type (ISO/IEC 9899:1990, 6.5.4).

ghost use Rattle.std.specs.Prelude.{◌≡◌, ◌||◌, true, [], map, IfOk};
ghost use Rattle.c_tables.specs.Answers.{Answers, Learns};
ghost use Rattle.c_tables.specs.Tables.{known_of, scope_of, scopes_in, types_in, waiting_of};
ghost use Rattle.c_typed.specs.Sameness as sameness;
ghost use Rattle.type_rules.specs.Known.{Known, tried};
ghost use Rattle.type_rules.specs.Outlines as rule;
ghost use Rattle.type_rules.specs.Rows.{is_complete};
ghost use Rattle.c_outline.specs.Lists.{Lists, array_of_declared, by_array, outermost, pointer_instead, waiting_element};
ghost use Rattle.c_outline.specs.Views.{declared_of, made_of, outline_of, param_of, specified_of};

use crate::specifiers::{Specified, is_register, waits};
use c_tables::checker::Checker;
use c_tables::error::{CheckError, Kind, copied, refused};
use c_tables::scope::{Binding, Names, Scopes, Waiting, is_waiting};
use c_tables::types::{Types, like, plain};
use c_typed::{Object, Qualified, Ty, is_void};
use std::alloc::Global;

/// A parameter: its name, if it has one, its type, and whether it is declared `register`.
#[derive(Drop)]
pub struct ParamShape {
    pub name: Vec<u8>,
    pub ty: Qualified,
    pub fixed: bool,
    pub line: u32,
}

/// The parameters of a function, and what their list declares.
#[derive(Drop)]
pub struct ParamList {
    pub params: Vec<ParamShape>,
    pub names: Names,
}

/// What a suffix makes: an array of a length, 0 where it isn't known, or a function.
#[derive(Drop)]
pub enum Made {
    Array(u32),
    Function(ParamList),
}

/// What is declared.
#[derive(Drop)]
pub enum Declared {
    Object(Qualified),
    Function {
        result: Qualified,
        params: Vec<ParamShape>,
        names: Names,
    },
}

/// What is declared, and whether no declaration has such a type; of a type that waits for arrays it has the element.
#[derive(Drop)]
pub struct Outline {
    pub declared: Declared,
    pub bad: bool,
    pub waiting: Waiting,
}

impl ParamList {
    /// A list without parameters.
    pub fn new(alloc: Global) -> ParamList
        ensures params { result.params.items ≡ [] }
        ensures names { scope_of result.names ≡ [] }
    {
        ParamList {
            params: Vec::new(alloc),
            names: Names::none(alloc),
        }
    }
}

fn is_structure(ty: Ty) -> bool
    ensures { result ≡ sameness.is_struct ty }
{
    match ty {
        Ty::Struct(_) => true,
        Ty::Void | Ty::Int(_) | Ty::Pointer(_) | Ty::Array { .. } => false,
    }
}

fn has_no_result(ty: Ty) -> bool
    ensures { result ≡ (sameness.is_array ty || sameness.is_struct ty) }
{
    match ty {
        Ty::Array { .. } | Ty::Struct(_) => true,
        Ty::Void | Ty::Int(_) | Ty::Pointer(_) => false,
    }
}

fn either(a: bool, b: bool) -> bool
    ensures { result ≡ (a || b) }
{
    a || b
}

// An object in the place of a function, of which nothing can be made.
fn no_object(ty: Qualified, outline: &Outline) -> Outline
    ensures { outline_of result ≡ record (outline_of outline.now) { declared = rule.ObjectDeclared ty; bad = true } }
{
    Outline {
        declared: Declared::Object(ty),
        bad: true,
        waiting: outline.waiting,
    }
}

// The array of an element. One of what isn't complete waits: it would have the wrong size once its element is complete.
fn array_or_part(
    types: &mut Types,
    length: u32,
    outline: &Outline,
    element: Qualified,
) -> Result<Outline, CheckError>
    ensures { (known : Known) → declared_of outline.now.declared ≡ rule.ObjectDeclared element → Answers outline_of result (types_in types.new known) (rule.array_or_part (is_complete (types_in types.old known) element.ty) length (outline_of outline.now) element (types_in types.old known)) }
{
    let bad = either(outline.bad, is_void(element.ty));
    if types.is_complete(element.ty) {
        let ty = types.array_of(element, length)?;
        Ok(Outline {
            declared: Declared::Object(ty),
            bad,
            waiting: outline.waiting,
        })
    } else {
        Ok(Outline {
            declared: Declared::Object(element),
            bad,
            waiting: waits(length, outline.waiting),
        })
    }
}

fn array_outline(types: &mut Types, length: u32, outline: &Outline) -> Result<Outline, CheckError>
    ensures { (known : Known) → Answers outline_of result (types_in types.new known) (rule.array_behind length (outline_of outline.now) (declared_of outline.now.declared) (types_in types.old known)) }
{
    match &outline.declared {
        Declared::Object(element) => array_or_part(types, length, outline, *element),
        Declared::Function { result, .. } => Ok(no_object(*result, outline)),
    }
}

fn function_outline(list: ParamList, outline: &Outline) -> Outline
    ensures { outline_of result ≡ rule.function_behind (map param_of list.params.items) (scope_of list.names) (outline_of outline.now) (declared_of outline.now.declared) }
{
    let ParamList { params, names } = list;
    match &outline.declared {
        Declared::Object(result) => Outline {
            declared: Declared::Function {
                result: *result,
                params,
                names,
            },
            bad: either(
                outline.bad,
                either(is_waiting(outline.waiting), has_no_result(result.ty)),
            ),
            waiting: outline.waiting,
        },
        Declared::Function { result, .. } => Outline {
            declared: Declared::Function {
                result: *result,
                params,
                names,
            },
            bad: true,
            waiting: outline.waiting,
        },
    }
}

// What is declared with a suffix behind it.
fn behind(types: &mut Types, suffix: Made, outline: &Outline) -> Result<Outline, CheckError>
    ensures { (known : Known) → Answers outline_of result (types_in types.new known) (rule.behind (made_of suffix) (outline_of outline.now) (types_in types.old known)) }
{
    match suffix {
        Made::Array(length) => array_outline(types, length, outline),
        Made::Function(list) => Ok(function_outline(list, outline)),
    }
}

fn lost(waiting: Waiting) -> Waiting
    ensures { waiting_of result ≡ rule.lost (waiting_of waiting) }
{
    match waiting {
        Waiting::Whole => Waiting::Whole,
        Waiting::OneArray(_) | Waiting::TwoArrays(..) | Waiting::Never => Waiting::Never,
    }
}

// The element of what waits isn't complete, so a pointer in its place is one to what waits.
fn waiting_for(ty: Ty, waiting: Waiting) -> Waiting
    ensures { waiting_of result ≡ rule.waiting_for ty (waiting_of waiting) }
{
    match ty {
        Ty::Pointer(_) => lost(waiting),
        Ty::Void | Ty::Int(_) | Ty::Array { .. } | Ty::Struct(_) => waiting,
    }
}

/// An object of a type, with what that waits for.
pub fn object(ty: Qualified, waiting: Waiting) -> Outline
    ensures { outline_of result ≡ rule.object_outline ty (waiting_of waiting) }
{
    Outline {
        declared: Declared::Object(ty),
        bad: false,
        waiting: waiting_for(ty.ty, waiting),
    }
}

/// What suffixes, the first the outermost, make of a type.
pub fn outlined(types: &mut Types, base: Outline, made: Vec<Made>) -> Result<Outline, CheckError>
    ensures { (known : Known) → Answers outline_of result (types_in types.new known) (rule.outlined (map made_of made.items) (outline_of base) (types_in types.old known)) }
{
    let mut left = made;
    let mut outline = base;
    while let Some(suffix) = left.pop() {
        outline = behind(types, suffix, &outline)?;
    }
    Ok(outline)
}

// A parameter that is written as an array of this.
fn pointer_outline(types: &mut Types, element: &Outline) -> Result<Outline, CheckError>
    ensures { (known : Known) → Answers outline_of result (types_in types.new known) (rule.pointer_outline (outline_of element.now) (declared_of element.now.declared) (types_in types.old known)) }
{
    match &element.declared {
        Declared::Object(ty) => {
            let to = types.pointer_to(*ty)?;
            Ok(Outline {
                declared: Declared::Object(plain(to)),
                bad: either(element.bad, is_void(ty.ty)),
                waiting: element.waiting,
            })
        }
        Declared::Function { result, .. } => Ok(no_object(*result, element)),
    }
}

// What the outermost suffix makes of a parameter.
fn outermost_outline(
    types: &mut Types,
    suffix: Made,
    outline: &Outline,
) -> Result<Outline, CheckError>
    ensures { (known : Known) → Answers outline_of result (types_in types.new known) (outermost (made_of suffix) (outline_of outline.now) (types_in types.old known)) }
{
    match suffix {
        Made::Array(_) => pointer_outline(types, outline),
        Made::Function(list) => Ok(function_outline(list, outline)),
    }
}

// What is declared where it is an array, and the row of its elements.
fn array_in(declared: &Declared) -> Option<(Qualified, usize)>
    ensures { result ≡ array_of_declared (declared_of declared.now) }
{
    match declared {
        Declared::Object(whole) => match whole.ty {
            Ty::Array { element, .. } => Some((*whole, element)),
            Ty::Void | Ty::Int(_) | Ty::Pointer(_) | Ty::Struct(_) => None,
        },
        Declared::Function { .. } => None,
    }
}

// The element of what waits for one array.
fn waiting_in(outline: &Outline) -> Option<Qualified>
    ensures { result ≡ waiting_element (outline_of outline.now).waiting (outline_of outline.now).declared }
{
    match outline.waiting {
        Waiting::OneArray(_) => match &outline.declared {
            Declared::Object(element) => Some(*element),
            Declared::Function { .. } => None,
        },
        Waiting::Whole | Waiting::TwoArrays(..) | Waiting::Never => None,
    }
}

// A parameter without suffixes, which may be an array by the name of its type, also one that waits.
fn array_started(types: &mut Types, outline: Outline) -> Result<Outline, CheckError>
    ensures { (known : Known) → Answers outline_of result (types_in types.new known) (rule.array_started (outline_of outline) (outline_of outline).declared (types_in types.old known)) }
{
    match waiting_in(&outline) {
        Some(element) => element_started(types, &outline, element),
        None => whole_started(types, outline),
    }
}

// A pointer to the element of an array that waits.
fn element_started(
    types: &mut Types,
    outline: &Outline,
    element: Qualified,
) -> Result<Outline, CheckError>
    ensures { (known : Known) → Answers outline_of result (types_in types.new known) (pointer_instead (outline_of outline.now) element (types_in types.old known)) }
{
    let to = types.pointer_to(element)?;
    Ok(Outline {
        declared: Declared::Object(plain(to)),
        bad: outline.bad,
        waiting: Waiting::Whole,
    })
}

fn whole_started(types: &mut Types, outline: Outline) -> Result<Outline, CheckError>
    ensures { (known : Known) → Answers outline_of result (types_in types.new known) (by_array (outline_of outline) (array_of_declared (outline_of outline).declared) (types_in types.old known)) }
{
    let Some((whole, element)) = array_in(&outline.declared) else {
        return Ok(outline);
    };
    let target = like(whole, types.target(element).ty);
    let to = types.pointer_to(target)?;
    Ok(Outline {
        declared: Declared::Object(plain(to)),
        bad: outline.bad,
        waiting: outline.waiting,
    })
}

/// What suffixes make of the type of a parameter, where an array is a pointer to its element.
pub fn param_outlined(
    types: &mut Types,
    base: Outline,
    made: Vec<Made>,
) -> Result<Outline, CheckError>
    ensures { (known : Known) → Answers outline_of result (types_in types.new known) (rule.param_outlined (map made_of made.items) (outline_of base) (types_in types.old known)) }
{
    let mut left = made;
    let mut outline = base;
    while let Some(suffix) = left.pop() {
        if left.is_empty() {
            return outermost_outline(types, suffix, &outline);
        }
        outline = behind(types, suffix, &outline)?;
    }
    array_started(types, outline)
}

// Whether a parameter's name is that of another one of its list. An empty name is none.
fn is_again(scopes: &Scopes, name: &[u8]) -> bool
    ensures { (known : Known) → result ≡ rule.is_again (scopes_in scopes.now known) name.now }
{
    !name.is_empty() && scopes.innermost(name).is_some()
}

// The type of a parameter, if it may have it.
fn param_type(
    checker: &Checker,
    outline: &Outline,
    name: &[u8],
    line: u32,
) -> Result<Qualified, CheckError>
    ensures tests { Answers (λ _. known_of checker.now) result (known_of checker.now) (tried (rule.param_tests (known_of checker.now) name.now (outline_of outline.now)) line (known_of checker.now)) }
    ensures ty { IfOk result (λ ty. ty ≡ rule.object_type (declared_of outline.now.declared)) }
{
    if is_again(&checker.scopes, name) {
        return refused(Kind::Again, line);
    }
    let Declared::Object(ty) = &outline.declared else {
        return refused(Kind::Declare, line);
    };
    if either(outline.bad, is_structure(ty.ty)) {
        return refused(Kind::Declare, line);
    }
    if either(
        is_waiting(outline.waiting),
        !checker.types.is_complete(ty.ty),
    ) {
        return refused(Kind::Incomplete, line);
    }
    Ok(*ty)
}

// The parameter of a number is in scope from here on, if it has a name.
fn bind_param(
    scopes: &mut Scopes,
    name: &[u8],
    number: usize,
    ty: Qualified,
    fixed: bool,
) -> Result<(), CheckError>
    ensures { (known : Known) → Learns result (scopes_in scopes.new known) (rule.bind_param name.now number ty fixed (scopes_in scopes.old known)) }
{
    if name.is_empty() {
        return Ok(());
    }
    let object = Object::Param(number);
    scopes.bind(name, Binding::Object { object, ty, fixed })
}

/// Puts a parameter after a list, whose scope is open: it is declared in what follows it. The name is
/// empty where there is none.
pub fn add_param(
    checker: &mut Checker,
    list: &mut ParamList,
    specified: Specified,
    outline: &Outline,
    name: &[u8],
    line: u32,
) -> Result<(), CheckError>
    ensures { Lists result (map param_of list.new.params.items) (known_of checker.new) (rule.param_rule (map param_of list.old.params.items) (specified_of specified) (outline_of outline.now) name.now line (known_of checker.old)) }
{
    let ty = param_type(checker, outline, name, line)?;
    let fixed = is_register(specified.storage);
    let index = list.params.len();
    bind_param(&mut checker.scopes, name, index, ty, fixed)?;
    let name = copied(checker.alloc, name)?;
    list.params.push(ParamShape {
        name,
        ty,
        fixed,
        line,
    })?;
    Ok(())
}

// The type of a member, if it may have it.
fn member_type(
    types: &Types,
    structure: usize,
    outline: &Outline,
    name: &[u8],
    line: u32,
) -> Result<Qualified, CheckError>
    ensures tests { (known : Known) → Answers (λ _. types_in types.now known) result (types_in types.now known) (tried (rule.member_tests (types_in types.now known) structure name.now (outline_of outline.now)) line (types_in types.now known)) }
    ensures ty { IfOk result (λ ty. ty ≡ rule.object_type (declared_of outline.now.declared)) }
{
    if types.has_member(structure, name) {
        return refused(Kind::Again, line);
    }
    let Declared::Object(ty) = &outline.declared else {
        return refused(Kind::Declare, line);
    };
    if either(outline.bad, ty.constant) {
        return refused(Kind::Declare, line);
    }
    if either(is_waiting(outline.waiting), !types.is_complete(ty.ty)) {
        return refused(Kind::Incomplete, line);
    }
    Ok(*ty)
}

/// Puts a member after those of a structure.
pub fn add_field(
    types: &mut Types,
    structure: usize,
    outline: &Outline,
    name: &[u8],
    line: u32,
) -> Result<(), CheckError>
    ensures { (known : Known) → Learns result (types_in types.new known) (rule.member_rule structure (outline_of outline.now) name.now line (types_in types.old known)) }
{
    let ty = member_type(types, structure, outline, name, line)?;
    types.add_member(structure, name, ty)
}
