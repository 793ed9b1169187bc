//! Functions, and the whole unit (ISO/IEC 9899:1990, 6.7).

ghost use Rattle.std.specs.Prelude.{◌≡◌, ◌≤◌, ◌*◌, ◌^◌, [], ◌∷◌, length, map, Ok, IfOk, IfErr, OnOk};
ghost use Rattle.c_nodes.specs.ProgramViews.{block_of, unit_of};
ghost use Rattle.c_nodes.specs.Programs.{spelled_unit};
ghost use Rattle.c_nodes.specs.Views.{declarator_of, specs_of};
ghost use Rattle.c_typed.specs.Nodes.{program_size};
ghost use Rattle.c_typed.specs.Views.{function_of, program_of, statement_of, variable_of};
ghost use Rattle.type_rules.specs.Declarators.{line_in, name_in};
ghost use Rattle.type_rules.specs.Faults as faults;
ghost use Rattle.type_rules.specs.Known.{Known, known_first, tried};
ghost use Rattle.type_rules.specs.Units as rule;
ghost use Rattle.c_tables.specs.Answers.{Answers, Learns};
ghost use Rattle.c_tables.specs.Tables.{known_of, scope_of};
ghost use Rattle.c_tables.specs.declared.error.CheckError.TheVariants.{NoMemory};
ghost use Rattle.c_outline.specs.Views.{outline_of, param_of, specified_of};
ghost use Rattle.c_check.specs.Checks.{Checks};
ghost use Rattle.c_check.specs.StatementViews.{inner_rule, no_function};

use crate::declaration::{declare_function, file_declaration, in_file, name_of};
use crate::statement::block;
use c_nodes::statement::{Function, Item, Unit};
use c_outline::flow::Flow;
use c_outline::outline::{Declared, Outline, ParamShape};
use c_outline::specifiers::{Specified, is_typedef};
use c_tables::body::Body;
use c_tables::checker::Checker;
use c_tables::error::{CheckError, Kind, refused};
use c_tables::scope::Names;
use c_typed::{Function as TypedFunction, TStmt, Ty, Typed, Variable};
use check_expr::declarator::{outline, specified};
use check_expr::lines::declarator_line;
use indexmap::IndexSet;
use std::alloc::Global;
use std::mem;

// Puts a name behind the others, if it isn't among them.
fn put_name(alloc: Global, name: &[u8], names: &mut IndexSet<Vec<u8>>) -> Result<(), CheckError>
    ensures ok { OnOk result (map (λ name. name.items) names.new.keys ≡ rule.with_name name.now (map (λ name. name.items) names.old.keys)) }
    ensures err { IfErr result (λ e. e ≡ NoMemory) }
{
    let name = name.to_vec(alloc)?;
    let (_, _) = names.insert_full(name)?;
    Ok(())
}

// The names of the functions that a unit defines, in order.
fn definitions(alloc: Global, unit: &Unit) -> Result<IndexSet<Vec<u8>>, CheckError>
    ensures ok { IfOk result (λ names. map (λ name. name.items) names.keys ≡ rule.defined_in (unit_of unit.now) []) }
    ensures err { IfErr result (λ e. e ≡ NoMemory) }
{
    let mut names = IndexSet::new(alloc);
    for item in &unit.items {
        match item {
            Item::Function(function) => {
                put_name(alloc, name_of(&function.declarator), &mut names)?;
            }
            Item::Declaration(_) => {}
        }
    }
    Ok(names)
}

// The parameters as variables.
fn variables(alloc: Global, params: Vec<ParamShape>) -> Result<Vec<Variable>, CheckError>
    ensures ok { IfOk result (λ made. map variable_of made.items ≡ map rule.variable_of (map param_of params.items)) }
    ensures err { IfErr result (λ e. e ≡ NoMemory) }
{
    let mut variables = Vec::new(alloc);
    for param in params {
        let ParamShape { name, ty, line, .. } = param;
        variables.push(Variable { name, ty, line })?;
    }
    Ok(variables)
}

// Begins the body of a function.
fn begin_body(checker: &mut Checker, name: &[u8], returns: Ty) -> Result<(), CheckError>
    ensures { Learns result (known_of checker.new) (rule.body_begun name.now returns (known_of checker.old)) }
{
    match Body::begin(checker.alloc, name, returns) {
        Ok(body) => {
            checker.body = body;
            Ok(())
        }
        Err(_) => Err(CheckError::NoMemory),
    }
}

// Ends the body of a function, and gives its locals.
fn end_body(checker: &mut Checker) -> Vec<Variable>
    ensures locals { map variable_of result.items ≡ ((known_of checker.old).body).locals }
    ensures after { rule.body_ended (known_of checker.old) ≡ Ok (known_of checker.new, known_of checker.new) }
{
    let body = mem::replace(&mut checker.body, Body::outside(checker.alloc));
    body.into_locals()
}

// The parameters and the statements of a function.
#[derive(Drop)]
struct Checked {
    params: Vec<Variable>,
    statements: Vec<TStmt>,
}

// The parameters and the outermost block of a function are one scope, whose names the list of parameters declared.
fn inner(
    function: &Function,
    checker: &mut Checker,
    params: Vec<ParamShape>,
    names: Names,
) -> Result<Checked, CheckError>
    ensures { Answers (λ made. (map variable_of made.params.items, map statement_of made.statements.items)) result (known_of checker.new) (inner_rule (block_of function.now.body) (map param_of params.items) (scope_of names) (known_of checker.old)) }
{
    checker.scopes.enter_with(names)?;
    let params = variables(checker.alloc, params)?;
    let statements = block(&function.body, checker, Flow::outside())?;
    checker.scopes.leave();
    Ok(Checked { params, statements })
}

#[tactic(auto, using(crate::proofs::Statements::same_statements, crate::proofs::Units::function_made, crate::proofs::Units::function_refuses))]
fn function_body(
    function: &Function,
    checker: &mut Checker,
    specified: Specified,
    returns: Ty,
    params: Vec<ParamShape>,
    names: Names,
) -> Result<TypedFunction, CheckError>
    ensures { Answers function_of result (known_of checker.new) (rule.function_body (block_of function.now.body) (specified_of specified) (name_in (declarator_of function.now.declarator)) returns (map param_of params.items) (scope_of names) (known_of checker.old)) }
{
    let name = name_of(&function.declarator);
    begin_body(checker, name, returns)?;
    let Checked { params, statements } = inner(function, checker, params, names)?;
    let locals = end_body(checker);
    Ok(TypedFunction {
        name: name.to_vec(checker.alloc)?,
        result: returns,
        params,
        locals,
        body: statements,
        interrupt: specified.interrupt,
        line: specified.line,
    })
}

// Refuses what is written as a function and declares none.
fn refuse_object(checker: &Checker, name: &[u8], line: u32) -> Result<TypedFunction, CheckError>
    ensures { Answers function_of result (known_of checker.now) (no_function name.now line (known_of checker.now)) }
{
    checker.scopes.refuse_again(name, line)?;
    refused(Kind::Declare, line)
}

fn function_declared(
    function: &Function,
    checker: &mut Checker,
    specified: Specified,
    outline: Outline,
) -> Result<TypedFunction, CheckError>
    ensures { Answers function_of result (known_of checker.new) (rule.function_declared (outline_of outline).declared (block_of function.now.body) (specified_of specified) (outline_of outline) (name_in (declarator_of function.now.declarator)) (line_in (declarator_of function.now.declarator)) (known_of checker.old)) }
{
    let line = declarator_line(&function.declarator);
    let name = name_of(&function.declarator);
    let bad = outline.bad;
    match outline.declared {
        Declared::Function {
            result,
            params,
            names,
        } => {
            declare_function(checker, name, result, &params, bad, true, line)?;
            function_body(function, checker, specified, result.ty, params, names)
        }
        Declared::Object(_) => refuse_object(checker, name, line),
    }
}

// A `typedef` stands in declarations alone.
fn refuse_typedef(specified: Specified) -> Result<(), CheckError>
    ensures { (known : Known) → Learns result known (tried (((specified_of specified).is_typedef, faults.Declare) ∷ []) (specified_of specified).line known) }
{
    if is_typedef(specified.storage) {
        refused(Kind::Declare, specified.line)
    } else {
        Ok(())
    }
}

fn function(function: &Function, checker: &mut Checker) -> Result<TypedFunction, CheckError>
    ensures { Answers function_of result (known_of checker.new) (rule.function (specs_of function.now.specs) (declarator_of function.now.declarator) (block_of function.now.body) (known_of checker.old)) }
{
    let specified = specified(&function.specs, checker, in_file())?;
    refuse_typedef(specified)?;
    let outline = outline(&function.declarator, checker, specified, true)?;
    function_declared(function, checker, specified, outline)
}

// The functions of a unit, in order, whose declarations are checked with them.
fn functions(unit: &Unit, checker: &mut Checker) -> Result<Vec<TypedFunction>, CheckError>
    ensures { Answers (λ made. map function_of made.items) result (known_of checker.new) (rule.functions_of (unit_of unit.now) (known_of checker.old)) }
{
    let mut functions = Vec::new(checker.alloc);
    for item in &unit.items {
        match item {
            Item::Function(inner) => {
                let made = function(inner, checker)?;
                functions.push(made)?;
            }
            Item::Declaration(declaration) => file_declaration(declaration, checker)?,
        }
    }
    Ok(functions)
}

// The typed tree of a unit whose functions and declarations are all checked. What the rules on names and types give is sound, and
// small, since the unit is.
fn typed(unit: &Unit, checker: Checker, functions: Vec<TypedFunction>) -> Result<Typed, CheckError>
    requires judged { rule.judged_unit (unit_of unit.now) ≡ Ok (rule.program_from (known_of checker) (map function_of functions.items)) }
    requires few { length (spelled_unit (unit_of unit.now)) ≤ 262144 }
    ensures ok { IfOk result (λ p. program_of p ≡ rule.program_from (known_of checker) (map function_of functions.items)) }
    ensures few { IfOk result (λ p. program_size p.statics.items p.functions.items ≤ 3 * length (spelled_unit (unit_of unit.now))) }
    ensures bounded { IfOk result (λ p. program_size p.statics.items p.functions.items ≤ 2 ^ 24) }
    ensures err { IfErr result (λ e. e ≡ NoMemory) }
{
    let Checker { types, statics, .. } = checker;
    let Ok((targets, structures)) = types.into_tables() else {
        return Err(CheckError::NoMemory);
    };
    Ok(Typed {
        targets,
        structures,
        statics: statics.into_entries(),
        functions,
    })
}

// What is known at the beginning of a unit.
fn begun(alloc: Global, unit: &Unit) -> Result<Checker, CheckError>
    requires { length (spelled_unit (unit_of unit.now)) ≤ 262144 }
    ensures ok { IfOk result (λ c. known_of c ≡ known_first (rule.defined_in (unit_of unit.now) [])) }
    ensures err { IfErr result (λ e. e ≡ NoMemory) }
{
    let names = definitions(alloc, unit)?;
    match Checker::new(alloc, names) {
        Ok(checker) => Ok(checker),
        Err(_) => Err(CheckError::NoMemory),
    }
}

/// The typed tree of a unit (ISO/IEC 9899:1990, 6.1 to 6.7, in the subset), or the first node that breaks a
/// rule on names and types: from left to right, operands before their operator, and at one node the first
/// kind. The unit is spelled with at most 262,144 tokens.
#[tactic(auto, using(crate::proofs::Units::judged, crate::proofs::Units::misjudged))]
pub fn check(alloc: Global, unit: &Unit) -> Result<Typed, CheckError>
    requires { length (spelled_unit (unit_of unit.now)) ≤ 262144 }
    ensures answer { Checks result (rule.judged_unit (unit_of unit.now)) }
    // Nodes, static objects, parameters and locals are together at most three times as many as the unit has tokens,
    ensures few { IfOk result (λ p. program_size p.statics.items p.functions.items ≤ 3 * length (spelled_unit (unit_of unit.now))) }
    // and so at most 2 to the 24.
    ensures bounded { IfOk result (λ p. program_size p.statics.items p.functions.items ≤ 2 ^ 24) }
{
    let mut checker = begun(alloc, unit)?;
    let functions = functions(unit, &mut checker)?;
    typed(unit, checker, functions)
}
