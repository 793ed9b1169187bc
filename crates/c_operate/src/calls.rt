//! Calls of functions (ISO/IEC 9899:1990, 6.3.2.2).

ghost use Rattle.std.specs.Prelude.{◌≡◌, ◌∷◌, [], Err, MatchOption, length, map, nat_eq, slice_get};
ghost use Rattle.c_typed.specs.Views.{arguments_of, expression_of};
ghost use Rattle.type_rules.specs.Known.{Known};
ghost use Rattle.type_rules.specs.Writes as rule;
ghost use Rattle.c_tables.specs.Answers.{Answers, Learns};
ghost use Rattle.c_tables.specs.Tables.{known_of, signature_of, types_in};
ghost use Rattle.c_tables.specs.declared.error.CheckError.TheVariants as errors;
ghost use Rattle.c_terms.specs.Terms.{form_of, operand_of, term_of};

use c_tables::checker::Checker;
use c_tables::error::{CheckError, Kind, refused};
use c_tables::functions::Functions;
use c_tables::types::Types;
use c_terms::conversion::assigned;
use c_terms::nodes::call_node;
use c_terms::term::{Form, Operand, Term, refuse_table, value_term};
use c_typed::{TExpr, Ty};
use std::alloc::Global;

// The number of the function that a term names without brackets.
fn function_of(term: &Term) -> Option<usize>
    ensures { result ≡ rule.function_named (form_of term.now.form) }
{
    match &term.form {
        Form::Function { number, bare } => { if *bare { Some(*number) } else { None } }
        Form::Value(_) | Form::Lvalue(_) | Form::TypeName => None,
    }
}

// The number of a function among those that the unit defines, if it defines it.
fn definition_of(functions: &Functions, function: usize) -> Option<u32>
    ensures { result ≡ rule.definition_in (slice_get (map signature_of functions.now.declared.items) function) }
{
    match functions.signature(function) {
        Some(signature) => signature.definition,
        None => None,
    }
}

/// Refuses the call of a function that is nowhere defined.
pub fn refuse_undefined(checker: &Checker, term: &Term) -> Result<(), CheckError>
    ensures { Learns result (known_of checker.now) (rule.called (term_of term.now) (known_of checker.now)) }
{
    refuse_table(term)?;
    let Some(number) = function_of(term) else {
        return Ok(());
    };
    match definition_of(&checker.functions, number) {
        Some(_) => Ok(()),
        None => refused(Kind::Name, term.line),
    }
}

fn same_length(params: &[Ty], arguments: &[Operand]) -> bool
    ensures { result ≡ nat_eq (length params.now) (length (map operand_of arguments.now)) }
{
    params.len() == arguments.len()
}

// The first type of a list, and the others.
fn front(types: &[Ty]) -> Option<(Ty, &[Ty])>
    ensures { MatchOption result (types.now ≡ []) (λ x. types.now ≡ x.0 ∷ x.1.now) }
{
    match types {
        [] => None,
        [ty, rest @ ..] => Some((*ty, rest)),
    }
}

// The arguments, each as the type of its parameter.
fn passed(
    alloc: Global,
    types: &Types,
    arguments: Vec<Operand>,
    params: &[Ty],
    line: u32,
) -> Result<Vec<TExpr>, CheckError>
    ensures { (known : Known) → Answers (λ made. arguments_of (map expression_of made.items)) result (types_in types.now known) (rule.passed (map operand_of arguments.items) params.now line (types_in types.now known)) }
{
    let mut made = Vec::new(alloc);
    let mut left = arguments.into_iter();
    let mut rest = params;
    while let Some((ty, behind)) = front(rest) {
        let Some(argument) = left.next() else {
            return Ok(made);
        };
        made.push(assigned(alloc, types, argument, ty, line)?)?;
        rest = behind;
    }
    Ok(made)
}

// The refusal of a call, which lets the term and the arguments go.
fn refused_call(
    _term: Term,
    _arguments: Vec<Operand>,
    kind: Kind,
    line: u32,
) -> Result<Term, CheckError>
    ensures { result ≡ Err (errors.Kind kind line) }
{
    refused(kind, line)
}

/// The call of what a term names, with arguments.
pub fn call(checker: &Checker, term: Term, arguments: Vec<Operand>) -> Result<Term, CheckError>
    ensures { Answers term_of result (known_of checker.now) (rule.call (term_of term) (map operand_of arguments.items) (known_of checker.now)) }
{
    let line = term.start;
    let Some(number) = function_of(&term) else {
        return refused_call(term, arguments, Kind::Call, line);
    };
    let Some(signature) = checker.functions.signature(number) else {
        return refused_call(term, arguments, Kind::Call, line);
    };
    let Some(function) = signature.definition else {
        return refused_call(term, arguments, Kind::Name, line);
    };
    let params = signature.params.as_slice();
    if !same_length(params, arguments.as_slice()) {
        return refused_call(term, arguments, Kind::Call, line);
    }
    let values = passed(checker.alloc, &checker.types, arguments, params, line)?;
    let value = call_node(function, values, signature.result.ty, line);
    Ok(value_term(value, line))
}
