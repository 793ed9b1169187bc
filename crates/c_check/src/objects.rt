//! Objects: static ones and locals (ISO/IEC 9899:1990, 6.1.2.4, 6.5.7 and 6.7.2).

ghost use Rattle.std.specs.Prelude.{◌≡◌, ◌&&◌, ◌||◌, not, nat_le, nat_lt, map, [], ◌∷◌, Some, IfOk};
ghost use Rattle.std.specs.Option.{option_map};
ghost use Rattle.c_nodes.specs.ProgramViews.{init_of};
ghost use Rattle.c_typed.specs.Sameness.{is_array, is_scalar};
ghost use Rattle.c_typed.specs.Trees as typed;
ghost use Rattle.c_typed.specs.Views.{expression_of, item_of, place_of, statement_of};
ghost use Rattle.c_typed.specs.declared.expression.Object.TheVariants as objects;
ghost use Rattle.c_typed.specs.declared.types.Qualified.{Qualified};
ghost use Rattle.type_rules.specs.Known.{ObjectName, Known, given, is_waiting};
ghost use Rattle.type_rules.specs.Names as names;
ghost use Rattle.type_rules.specs.Objects as rule;
ghost use Rattle.type_rules.specs.Rows.{bytes_of, is_complete};
ghost use Rattle.c_tables.specs.Answers.{Answers, Learns};
ghost use Rattle.c_tables.specs.Tables.{known_of, scopes_in, types_in, waiting_of};
ghost use Rattle.c_outline.specs.Views.{is_register, outline_of, specified_of};
ghost use Rattle.c_check.specs.Views.{any_init, only_one};
ghost use Rattle.c_outline.specs.Slots.{slot_of};

use crate::initializer::begun;
use crate::types::{both, either};
use c_nodes::statement::Init;
use c_outline::outline::{Declared, Outline};
use c_outline::slot::Slot;
use c_outline::specifiers::{Specified, Storage};
use c_tables::checker::Checker;
use c_tables::error::{CheckError, Kind, refused};
use c_tables::scope::{Binding, Scopes, Waiting, is_waiting};
use c_tables::types::{Types, like};
use c_typed::{Object, Qualified, TExpr, TItem, TPlace, TStmt, Ty, is_array, is_scalar};
use itoa::Buffer;
use std::alloc::{AllocError, Global};

// The greatest number of bytes that an object has, and of elements that an array has.
const MOST: u64 = 65_535;

fn is_within(count: u64) -> bool
    ensures { result ≡ nat_le count 65535 }
{
    count <= MOST
}

fn is_large(types: &Types, ty: Ty) -> bool
    ensures { (known : Known) → result ≡ nat_lt 65535 (bytes_of (types_in types.now known) ty) }
{
    MOST < types.bytes_of(ty)
}

// Whether a type isn't one that an object can have; an initializer may give the length of an array.
fn is_missing(types: &Types, ty: Ty, waiting: Waiting, given: bool) -> bool
    ensures { (known : Known) → result ≡ (is_waiting (waiting_of waiting) || not ((given && is_array ty) || is_complete (types_in types.now known) ty)) }
{
    let open = both(given, is_array(ty));
    let complete = types.is_complete(ty);
    let usable = either(open, complete);
    either(is_waiting(waiting), !usable)
}

/// The type that an object is declared with; `given` says that an initializer may give its length.
pub(crate) fn object_type(
    types: &Types,
    specified: Specified,
    outline: &Outline,
    given: bool,
    line: u32,
) -> Result<Qualified, CheckError>
    ensures { (known : Known) → Answers (λ ty. ty) result (types_in types.now known) (rule.object_rule (specified_of specified) (outline_of outline.now) given line (types_in types.now known)) }
{
    let Declared::Object(ty) = &outline.declared else {
        return refused(Kind::Declare, line);
    };
    let ty = *ty;
    let bad = outline.bad;
    if bad || specified.interrupt {
        return refused(Kind::Declare, line);
    }
    if is_large(types, ty.ty) {
        return refused(Kind::Size, line);
    }
    if is_missing(types, ty.ty, outline.waiting, given) {
        return refused(Kind::Incomplete, line);
    }
    Ok(ty)
}

// Whether no array has so many elements.
fn is_long(length: usize) -> bool
    ensures { result ≡ nat_lt 65535 length }
{
    MOST < length as u64
}

fn is_sized(types: &Types, whole: Qualified, length: usize) -> bool
    ensures { (known : Known) → result ≡ rule.sized (types_in types.now known) whole length }
{
    let bytes = types.bytes_of(whole.ty);
    both(is_within(length as u64), is_within(bytes))
}

// The type of an array whose initializer gives its length.
fn closed_array(
    types: &mut Types,
    ty: Qualified,
    row: usize,
    length: Option<usize>,
    line: u32,
) -> Result<Qualified, CheckError>
    ensures { (known : Known) → Answers (λ ty. ty) result (types_in types.new known) (rule.closed_array ty row length line (types_in types.old known)) }
{
    let Some(length) = length else {
        return refused(Kind::Initializer, line);
    };
    if is_long(length) {
        return refused(Kind::Size, line);
    }
    let element = like(ty, types.target(row).ty);
    let whole = types.array_of(element, length as u32)?;
    if is_sized(types, whole, length) {
        Ok(whole)
    } else {
        refused(Kind::Size, line)
    }
}

// The type of an object whose initializer may have given its length.
fn closed(
    types: &mut Types,
    ty: Qualified,
    length: Option<usize>,
    line: u32,
) -> Result<Qualified, CheckError>
    ensures { (known : Known) → Answers (λ ty. ty) result (types_in types.new known) (rule.closed ty length line (types_in types.old known)) }
{
    match ty.ty {
        Ty::Array {
            element,
            length: count,
            ..
        } => {
            if count == 0 {
                closed_array(types, ty, element, length, line)
            } else {
                Ok(ty)
            }
        }
        Ty::Void | Ty::Int(_) | Ty::Pointer(_) | Ty::Struct(_) => Ok(ty),
    }
}

// `FUNCTION.K.NAME`, K being the number of the declarator among those of the function's body.
fn map_name(
    alloc: Global,
    function: &[u8],
    declarator: usize,
    name: &[u8],
) -> Result<Vec<u8>, AllocError>
    ensures { IfOk result (λ whole. whole.items ≡ rule.block_name function.now declarator name.now) }
{
    let mut buffer = Buffer::new();
    let mut whole = function.to_vec(alloc)?;
    whole.push(b'.')?;
    whole.extend_from_slice(buffer.format(declarator).as_bytes())?;
    whole.push(b'.')?;
    whole.extend_from_slice(name)?;
    Ok(whole)
}

fn whole_of(ty: Qualified) -> Slot
    ensures { slot_of result ≡ rule.whole_slot ty }
{
    Slot { ty, offset: 0 }
}

// Lets a name stand for an object in the innermost scope.
fn bind_object(
    scopes: &mut Scopes,
    name: &[u8],
    object: Object,
    ty: Qualified,
    fixed: bool,
) -> Result<(), CheckError>
    ensures { (known : Known) → Learns result (scopes_in scopes.new known) (names.bind name.now (ObjectName object ty fixed) (scopes_in scopes.old known)) }
{
    scopes.bind(name, Binding::Object { object, ty, fixed })
}

// The initializer of a static object that has this number and name.
fn begin_static(
    init: &Init,
    checker: &mut Checker,
    number: usize,
    name: &[u8],
    ty: Qualified,
    line: u32,
) -> Result<(), CheckError>
    ensures { Learns result (known_of checker.new) (rule.static_begun (Some (init_of init.now)) number name.now ty line (known_of checker.old)) }
{
    let sink = begun(init, checker, Some(whole_of(ty)), true, line)?;
    let whole = closed(&mut checker.types, ty, sink.length, line)?;
    bind_object(
        &mut checker.scopes,
        name,
        Object::Static(number),
        whole,
        false,
    )?;
    checker.statics.complete(number, whole, sink.initial);
    Ok(())
}

/// A static object: its initializer, its name in the map, its name in the text, and its type.
pub(crate) fn static_object(
    init: Option<&Init>,
    checker: &mut Checker,
    map_name: Vec<u8>,
    name: &[u8],
    ty: Qualified,
    line: u32,
) -> Result<(), CheckError>
    ensures { Learns result (known_of checker.new) (rule.static_rule (any_init init.entry) map_name.items name.now ty line (known_of checker.old)) }
{
    let number = checker.statics.add(map_name, ty, line)?;
    bind_object(&mut checker.scopes, name, Object::Static(number), ty, false)?;
    match init {
        Some(init) => begin_static(init, checker, number, name, ty, line),
        None => Ok(()),
    }
}

/// A static object of a block, whose declarator has this number among those of the function's body.
pub(crate) fn block_static(
    init: Option<&Init>,
    checker: &mut Checker,
    declarator: usize,
    name: &[u8],
    ty: Qualified,
    line: u32,
) -> Result<(), CheckError>
    ensures { Learns result (known_of checker.new) (rule.static_rule (any_init init.entry) (rule.block_name ((known_of checker.old).body).name declarator name.now) name.now ty line (known_of checker.old)) }
{
    let map_name = map_name(checker.alloc, checker.body.name(), declarator, name)?;
    static_object(init, checker, map_name, name, ty, line)
}

fn is_register(storage: Storage) -> bool
    ensures { result ≡ is_register storage }
{
    match storage {
        Storage::Register => true,
        _ => false,
    }
}

/// What the declarator of a local does.
pub(crate) fn local_object(
    init: Option<&Init>,
    checker: &mut Checker,
    specified: Specified,
    name: &[u8],
    ty: Qualified,
    line: u32,
) -> Result<Vec<TStmt>, CheckError>
    ensures { Answers (λ made. map statement_of made.items) result (known_of checker.new) (rule.local_rule (any_init init.entry) name.now ty (is_register specified.storage) line (known_of checker.old)) }
{
    let fixed = is_register(specified.storage);
    let local = checker.body.add_local(name, ty, line)?;
    bind_object(&mut checker.scopes, name, Object::Local(local), ty, fixed)?;
    match init {
        Some(init) => begin_local(init, checker, local, name, ty, fixed, line),
        None => one_statement(checker.alloc, TStmt::Declare { local, line }),
    }
}

fn one_statement(alloc: Global, statement: TStmt) -> Result<Vec<TStmt>, CheckError>
    ensures { (known : Known) → Answers (λ made. map statement_of made.items) result known (given (statement_of statement ∷ []) known) }
{
    let mut statements = Vec::new(alloc);
    statements.push(statement)?;
    Ok(statements)
}

// The initializer of a local that has this number and name.
fn begin_local(
    init: &Init,
    checker: &mut Checker,
    local: usize,
    name: &[u8],
    ty: Qualified,
    fixed: bool,
    line: u32,
) -> Result<Vec<TStmt>, CheckError>
    ensures { Answers (λ made. map statement_of made.items) result (known_of checker.new) (rule.local_begun (Some (init_of init.now)) local name.now ty fixed line (known_of checker.old)) }
{
    let sink = begun(init, checker, Some(whole_of(ty)), false, line)?;
    let whole = closed(&mut checker.types, ty, sink.length, line)?;
    bind_object(
        &mut checker.scopes,
        name,
        Object::Local(local),
        whole,
        fixed,
    )?;
    checker.body.complete_local(local, whole);
    local_statements(init, checker.alloc, local, whole, sink.items, line)
}

#[tactic(auto, using(crate::proofs::Locals::expressions))]
fn is_expression(init: &Init) -> bool
    ensures { result ≡ rule.is_expression (init_of init.now) }
{
    match init {
        Init::Assign(_) => true,
        Init::Text(_) | Init::List { .. } => false,
    }
}

// Whether a local begins as one value.
fn is_one_value(init: &Init, ty: Ty) -> bool
    ensures { result ≡ (rule.is_expression (init_of init.now) || is_scalar ty) }
{
    is_expression(init) || is_scalar(ty)
}

#[tactic(auto, using(crate::proofs::Locals::one_begun, crate::proofs::Locals::list_begun))]
fn local_statements(
    init: &Init,
    alloc: Global,
    local: usize,
    ty: Qualified,
    items: Vec<TItem>,
    line: u32,
) -> Result<Vec<TStmt>, CheckError>
    ensures { (known : Known) → Answers (λ made. map statement_of made.items) result known (rule.local_statements (init_of init.now) local ty (map item_of items.items) line known) }
{
    if is_one_value(init, ty.ty) {
        begun_as_one(alloc, local, ty, items, line)
    } else {
        one_statement(alloc, TStmt::InitList { local, items, line })
    }
}

// The only item of a list, if it has one alone.
#[tactic(auto, using(crate::proofs::Locals::not_alone, crate::proofs::Locals::popped_alone))]
fn only(items: Vec<TItem>) -> Option<TItem>
    ensures { option_map item_of result ≡ only_one (map item_of items.items) }
{
    let mut items = items;
    if items.len() != 1 {
        return None;
    }
    items.pop()
}

// What the declarator of a local does that begins as one value: an integer or a pointer, or a structure, which is assigned
// once the local is unset.
fn begun_as_one(
    alloc: Global,
    local: usize,
    ty: Qualified,
    items: Vec<TItem>,
    line: u32,
) -> Result<Vec<TStmt>, CheckError>
    ensures { (known : Known) → Answers (λ made. map statement_of made.items) result known (rule.begun_as_one local ty (map item_of items.items) line known) }
{
    match only(items) {
        Some(TItem::Scalar { value, .. }) => {
            one_statement(alloc, TStmt::InitScalar { local, value, line })
        }
        Some(TItem::Struct { from, size, .. }) => {
            let value = structure_assigned(alloc, local, ty, from, size, line)?;
            let mut statements = Vec::new(alloc);
            statements.push(TStmt::Declare { local, line })?;
            statements.push(TStmt::Expr { value, line })?;
            Ok(statements)
        }
        Some(TItem::Text { .. }) | None => refused(Kind::Initializer, line),
    }
}

#[tactic(auto, using(crate::proofs::Locals::struct_assigned))]
fn structure_assigned(
    alloc: Global,
    local: usize,
    ty: Qualified,
    from: TPlace,
    size: u64,
    line: u32,
) -> Result<TExpr, AllocError>
    ensures { IfOk result (λ e. expression_of e ≡ typed.StructAssign (typed.Name (objects.Local local) ty line) (place_of from) size line) }
{
    let place = TPlace::Name {
        object: Object::Local(local),
        ty,
        line,
    };
    Ok(TExpr::StructAssign {
        place: Box::new(alloc, place)?,
        from: Box::new(alloc, from)?,
        size,
        line,
    })
}
