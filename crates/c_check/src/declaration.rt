//! Declarations in the file and in blocks (ISO/IEC 9899:1990, 6.5 and 6.7).

ghost use Rattle.std.specs.Prelude.{◌≡◌, ◌||◌, [], ◌∷◌, map, Some, None, is_some, IfOk};
ghost use Rattle.c_nodes.specs.ProgramViews.{begun_of, declaration_of, declared_of, equals_of};
ghost use Rattle.c_nodes.specs.Views.{declarator_of};
ghost use Rattle.c_typed.specs.Views.{statement_of};
ghost use Rattle.type_rules.specs.Declarations as rule;
ghost use Rattle.type_rules.specs.Declarators as declarators;
ghost use Rattle.type_rules.specs.Faults as faults;
ghost use Rattle.type_rules.specs.Known.{Known, tried};
ghost use Rattle.type_rules.specs.Names.{innermost_in};
ghost use Rattle.c_tables.specs.Answers.{Answers, Learns};
ghost use Rattle.c_tables.specs.Tables.{known_of};
ghost use Rattle.check_expr.specs.Views.{context_of};
ghost use Rattle.c_outline.specs.Views.{is_static, outline_of, param_of, specified_of};
ghost use Rattle.c_outline.specs.Views.{declared_of as check_declared_of};
ghost use Rattle.type_rules.specs.Outlines as outlines;
ghost use Rattle.c_check.specs.Views.{any_init};
ghost use Rattle.c_check.specs.StatementViews.{function_known, object_in_block};

use crate::initializer::begun;
use crate::objects::{block_static, local_object, object_type, static_object};
use c_nodes::expression::Declarator;
use c_nodes::statement::{Declaration, Declared as DeclaredTree, EqualsInit, Init, InitDeclarator};
use c_outline::outline::{Declared, Outline, ParamShape};
use c_outline::specifiers::{Site, Specified, Storage, is_typedef};
use c_tables::checker::Checker;
use c_tables::error::{CheckError, Kind, refused};
use c_tables::scope::Binding;
use c_typed::{Qualified, TStmt, Ty};
use check_expr::declarator::{Context, outline, specified};
use check_expr::lines::declarator_line;
use std::alloc::{AllocError, Global};

/// The context of what stands outside functions.
pub(crate) fn in_file() -> Context
    ensures { context_of result ≡ declarators.in_file }
{
    Context {
        site: Site::File,
        bodies: true,
    }
}

fn in_block() -> Context
    ensures { context_of result ≡ declarators.in_block }
{
    Context {
        site: Site::Block,
        bodies: false,
    }
}

/// The name that a declarator declares.
pub(crate) fn name_of(declarator: &Declarator) -> &[u8]
    ensures { result.now ≡ declarators.name_in (declarator_of declarator.now) }
{
    &declarator.name.bytes
}

fn value_given(init: &Option<EqualsInit>) -> Option<&Init>
    ensures { any_init result ≡ rule.init_in (equals_of init.now) }
{
    match init {
        Some(init) => Some(&init.init),
        None => None,
    }
}

fn is_given(init: &Option<EqualsInit>) -> bool
    ensures begun { result ≡ is_some (equals_of init.now) }
    ensures value { result ≡ is_some (rule.init_in (equals_of init.now)) }
{
    match init {
        Some(_) => true,
        None => false,
    }
}

fn types_of(alloc: Global, params: &[ParamShape]) -> Result<Vec<Ty>, AllocError>
    ensures { IfOk result (λ types. types.items ≡ rule.param_types (map param_of params.now)) }
{
    let mut types = Vec::new(alloc);
    for param in params {
        types.push(param.ty.ty)?;
    }
    Ok(types)
}

// Puts a function that isn't declared yet behind those that are.
fn add_function(
    checker: &mut Checker,
    name: &[u8],
    returns: Qualified,
    params: Vec<Ty>,
) -> Result<usize, CheckError>
    ensures { Answers (λ n. n) result (known_of checker.new) (rule.function_added None name.now returns params.items (known_of checker.old)) }
{
    let function = checker.functions.add(name, returns, params)?;
    checker.scopes.bind(name, Binding::Function(function))?;
    Ok(function)
}

// Refuses a function of a type that no function has.
fn refuse_bad(bad: bool, line: u32) -> Result<(), CheckError>
    ensures { (known : Known) → Learns result known (tried ((bad, faults.Declare) ∷ []) line known) }
{
    if bad {
        refused(Kind::Declare, line)
    } else {
        Ok(())
    }
}

// The number of the function that is declared here, perhaps not for the first time. `bad` says that no
// function has such a type: it is another one than before.
fn function_number(
    checker: &mut Checker,
    name: &[u8],
    returns: Qualified,
    types: Vec<Ty>,
    bad: bool,
    defines: bool,
    line: u32,
) -> Result<usize, CheckError>
    ensures { Answers (λ n. n) result (known_of checker.new) (function_known (innermost_in (known_of checker.old).scopes name.now) name.now returns types.items bad defines line (known_of checker.old)) }
{
    match checker.scopes.innermost(name) {
        Some(Binding::Function(function)) => {
            if bad {
                return refused(Kind::Again, line);
            }
            let functions = &checker.functions;
            functions.refuse_other(function, returns, &types, defines, line)?;
            Ok(function)
        }
        Some(
            Binding::Object { .. }
            | Binding::Bit { .. }
            | Binding::TypeName { .. }
            | Binding::Enumerator(_),
        ) => refused(Kind::Again, line),
        None => {
            refuse_bad(bad, line)?;
            add_function(checker, name, returns, types)
        }
    }
}

/// A declaration of a function; `defines` says that its body follows, and `bad` that no function has such
/// a type.
pub(crate) fn declare_function(
    checker: &mut Checker,
    name: &[u8],
    returns: Qualified,
    params: &[ParamShape],
    bad: bool,
    defines: bool,
    line: u32,
) -> Result<(), CheckError>
    ensures { Learns result (known_of checker.new) (rule.function_rule name.now returns (map param_of params.now) bad defines line (known_of checker.old)) }
{
    let types = types_of(checker.alloc, params)?;
    let function = function_number(checker, name, returns, types, bad, defines, line)?;
    if defines {
        checker.functions.set_defined(function);
    }
    Ok(())
}

// A function can't be given a value.
fn refuse_value(
    init: &Option<EqualsInit>,
    checker: &mut Checker,
    line: u32,
) -> Result<(), CheckError>
    ensures { Learns result (known_of checker.new) (rule.no_value (rule.init_in (equals_of init.now)) line (known_of checker.old)) }
{
    match init {
        Some(init) => {
            let _sink = begun(&init.init, checker, None, true, line)?;
            refused(Kind::Convert, line)
        }
        None => Ok(()),
    }
}

fn file_object(
    init: &Option<EqualsInit>,
    checker: &mut Checker,
    specified: Specified,
    outline: &Outline,
    name: &[u8],
    line: u32,
) -> Result<(), CheckError>
    ensures { Learns result (known_of checker.new) (rule.file_object (specified_of specified) (outline_of outline.now) (rule.init_in (equals_of init.now)) name.now line (known_of checker.old)) }
{
    checker.scopes.refuse_again(name, line)?;
    let ty = object_type(&checker.types, specified, outline, is_given(init), line)?;
    let map_name = name.to_vec(checker.alloc)?;
    static_object(value_given(init), checker, map_name, name, ty, line)
}

fn file_declared(
    init: &Option<EqualsInit>,
    checker: &mut Checker,
    specified: Specified,
    outline: &Outline,
    name: &[u8],
    line: u32,
) -> Result<(), CheckError>
    ensures { Learns result (known_of checker.new) (rule.file_declared (outline_of outline.now).declared (specified_of specified) (outline_of outline.now) (rule.init_in (equals_of init.now)) name.now line (known_of checker.old)) }
{
    match &outline.declared {
        Declared::Function { result, params, .. } => {
            declare_function(checker, name, *result, params, outline.bad, false, line)?;
            refuse_value(init, checker, line)
        }
        Declared::Object(_) => file_object(init, checker, specified, outline, name, line),
    }
}

fn is_function(declared: &Declared) -> bool
    ensures { result ≡ outlines.is_function (check_declared_of declared.now) }
{
    match declared {
        Declared::Function { .. } => true,
        Declared::Object(_) => false,
    }
}

// The type that is named, whatever else is declared.
fn type_of(declared: &Declared) -> Qualified
    ensures { result ≡ outlines.object_type (check_declared_of declared.now) }
{
    match declared {
        Declared::Function { result, .. } => *result,
        Declared::Object(ty) => *ty,
    }
}

// What can't be declared by a `typedef`: what no declaration declares, a function, or anything with a value or `interrupt`.
fn is_no_type(outline: &Outline, specified: Specified, begun: bool) -> bool
    ensures { result ≡ ((outline_of outline.now).bad || (outlines.is_function (outline_of outline.now).declared || (begun || specified.interrupt))) }
{
    outline.bad || (is_function(&outline.declared) || (begun || specified.interrupt))
}

// The declarator of a `typedef`. A type is no object, so it may be incomplete and of any size.
fn named_type(
    checker: &mut Checker,
    specified: Specified,
    outline: &Outline,
    begun: bool,
    name: &[u8],
    line: u32,
) -> Result<(), CheckError>
    ensures { Learns result (known_of checker.new) (rule.type_rule (specified_of specified) (outline_of outline.now) begun name.now line (known_of checker.old)) }
{
    checker.scopes.refuse_again(name, line)?;
    if is_no_type(outline, specified, begun) {
        return refused(Kind::Declare, line);
    }
    let ty = type_of(&outline.declared);
    let waiting = outline.waiting;
    checker.scopes.bind(name, Binding::TypeName { ty, waiting })
}

fn file_declarator(
    declared: &InitDeclarator,
    checker: &mut Checker,
    specified: Specified,
) -> Result<(), CheckError>
    ensures { Learns result (known_of checker.new) (rule.file_declarator (begun_of declared.now) (specified_of specified) (known_of checker.old)) }
{
    let outline = outline(&declared.declarator, checker, specified, true)?;
    let line = declarator_line(&declared.declarator);
    let name = name_of(&declared.declarator);
    if is_typedef(specified.storage) {
        let begun = is_given(&declared.init);
        named_type(checker, specified, &outline, begun, name, line)
    } else {
        file_declared(&declared.init, checker, specified, &outline, name, line)
    }
}

// `interrupt` or `typedef` where nothing is declared.
fn refuse_nothing(specified: Specified) -> Result<(), CheckError>
    ensures { (known : Known) → Learns result known (rule.nothing_declared (specified_of specified) known) }
{
    if specified.interrupt || is_typedef(specified.storage) {
        refused(Kind::Declare, specified.line)
    } else {
        Ok(())
    }
}

fn file_declarators(
    list: &DeclaredTree,
    checker: &mut Checker,
    specified: Specified,
) -> Result<(), CheckError>
    ensures { Learns result (known_of checker.new) (rule.declared_in_file (declared_of (Some list.now)) (specified_of specified) (known_of checker.old)) }
{
    file_declarator(&list.first, checker, specified)?;
    for next in &list.others {
        file_declarator(&next.declarator, checker, specified)?;
    }
    Ok(())
}

/// A declaration outside functions.
pub(crate) fn file_declaration(
    declaration: &Declaration,
    checker: &mut Checker,
) -> Result<(), CheckError>
    ensures { Learns result (known_of checker.new) (rule.file_declaration (declaration_of declaration.now) (known_of checker.old)) }
{
    let specified = specified(&declaration.specs, checker, in_file())?;
    match &declaration.declared {
        Some(list) => file_declarators(list, checker, specified),
        None => refuse_nothing(specified),
    }
}

fn is_static(storage: Storage) -> bool
    ensures { result ≡ is_static storage }
{
    match storage {
        Storage::Static => true,
        Storage::Plain | Storage::Typedef | Storage::Auto | Storage::Register => false,
    }
}

// What the declarator of an object does whose type is known; `declarator` is its number in the body.
fn typed_object(
    init: &Option<EqualsInit>,
    checker: &mut Checker,
    specified: Specified,
    ty: Qualified,
    name: &[u8],
    declarator: usize,
    line: u32,
) -> Result<Vec<TStmt>, CheckError>
    ensures { Answers (λ made. map statement_of made.items) result (known_of checker.new) (rule.block_object (specified_of specified) ty (rule.init_in (equals_of init.now)) name.now declarator line (known_of checker.old)) }
{
    if is_static(specified.storage) {
        block_static(value_given(init), checker, declarator, name, ty, line)?;
        Ok(Vec::new(checker.alloc))
    } else {
        local_object(value_given(init), checker, specified, name, ty, line)
    }
}

fn block_object(
    init: &Option<EqualsInit>,
    checker: &mut Checker,
    specified: Specified,
    outline: &Outline,
    name: &[u8],
    line: u32,
) -> Result<Vec<TStmt>, CheckError>
    ensures { Answers (λ made. map statement_of made.items) result (known_of checker.new) (object_in_block (specified_of specified) (outline_of outline.now) (equals_of init.now) name.now line (known_of checker.old)) }
{
    let ty = object_type(&checker.types, specified, outline, is_given(init), line)?;
    let declarator = checker.body.next_declarator(line)?;
    typed_object(init, checker, specified, ty, name, declarator, line)
}

fn block_declarator(
    declared: &InitDeclarator,
    checker: &mut Checker,
    specified: Specified,
) -> Result<Vec<TStmt>, CheckError>
    ensures { Answers (λ made. map statement_of made.items) result (known_of checker.new) (rule.block_declarator (begun_of declared.now) (specified_of specified) (known_of checker.old)) }
{
    let outline = outline(&declared.declarator, checker, specified, false)?;
    let line = declarator_line(&declared.declarator);
    let name = name_of(&declared.declarator);
    checker.scopes.refuse_again(name, line)?;
    block_object(&declared.init, checker, specified, &outline, name, line)
}

fn block_declarators(
    list: &DeclaredTree,
    checker: &mut Checker,
    specified: Specified,
) -> Result<Vec<TStmt>, CheckError>
    ensures { Answers (λ made. map statement_of made.items) result (known_of checker.new) (rule.declared_in_block (declared_of (Some list.now)) (specified_of specified) (known_of checker.old)) }
{
    let mut statements = block_declarator(&list.first, checker, specified)?;
    for next in &list.others {
        let mut made = block_declarator(&next.declarator, checker, specified)?;
        statements.append(&mut made)?;
    }
    Ok(statements)
}

// What the declarators of a declaration of a block do.
fn block_declaration(
    declaration: &Declaration,
    checker: &mut Checker,
) -> Result<Vec<TStmt>, CheckError>
    ensures { Answers (λ made. map statement_of made.items) result (known_of checker.new) (rule.block_declaration (declaration_of declaration.now) (known_of checker.old)) }
{
    let specified = specified(&declaration.specs, checker, in_block())?;
    match &declaration.declared {
        Some(list) => block_declarators(list, checker, specified),
        None => {
            refuse_nothing(specified)?;
            Ok(Vec::new(checker.alloc))
        }
    }
}

/// What the declarations of a block do.
pub(crate) fn block_declarations(
    list: &[Declaration],
    checker: &mut Checker,
) -> Result<Vec<TStmt>, CheckError>
    ensures { Answers (λ made. map statement_of made.items) result (known_of checker.new) (rule.block_declarations (map declaration_of list.now) (known_of checker.old)) }
{
    let mut statements = Vec::new(checker.alloc);
    for declaration in list {
        let mut made = block_declaration(declaration, checker)?;
        statements.append(&mut made)?;
    }
    Ok(statements)
}
