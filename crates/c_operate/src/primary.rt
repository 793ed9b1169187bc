//! Names, constants and brackets (ISO/IEC 9899:1990, 6.3.1).

ghost use Rattle.std.specs.Prelude.{◌≡◌, false, Ok, None, []};
ghost use Rattle.c_nodes.specs.Words.{spell_constant};
ghost use Rattle.type_rules.specs.Expressions as rule;
ghost use Rattle.type_rules.specs.Known.{Known};
ghost use Rattle.type_rules.specs.Terms.{number_of_type};
ghost use Rattle.c_tables.specs.Answers.{Answers};
ghost use Rattle.c_tables.specs.Tables.{binding_of, scopes_in};
ghost use Rattle.c_terms.specs.Terms.{form_of, term_of};

use c_ints::IntTy;
use c_nodes::word::{Constant, Name};
use c_tables::error::{CheckError, Kind, refused};
use c_tables::scope::{Binding, Scopes};
use c_terms::term::{Form, Lvalue, Term, constant, lvalue_term, value_term};
use c_typed::TPlace;

// What has no value and no place, at this line.
fn form_term(form: Form, line: u32) -> Term
    ensures { term_of result ≡ record { form = form_of form; null = false; line = line; start = line; into = None; listed = [] } }
{
    Term {
        form,
        null: false,
        line,
        start: line,
        reach: None,
    }
}

// What a name that stands for this is at this line.
#[tactic(auto, using(c_typed::proofs::Shapes::show_place_name, c_typed::proofs::Shapes::show_place_bit))]
fn bound(binding: Binding, line: u32) -> Term
    ensures { term_of result ≡ rule.named_term (binding_of binding) line }
{
    match binding {
        Binding::Object { object, ty, fixed } => {
            let place = Lvalue {
                place: TPlace::Name { object, ty, line },
                through: false,
                fixed,
            };
            lvalue_term(place, line)
        }
        Binding::Bit { register, bit } => {
            let place = Lvalue {
                place: TPlace::Bit {
                    register,
                    bit,
                    line,
                },
                through: false,
                fixed: true,
            };
            lvalue_term(place, line)
        }
        Binding::Function(number) => form_term(Form::Function { number, bare: true }, line),
        Binding::TypeName { .. } => form_term(Form::TypeName, line),
        Binding::Enumerator(bits) => value_term(constant(IntTy::Int, bits, line), line),
    }
}

/// A name as an expression.
pub fn named(scopes: &Scopes, name: &Name) -> Result<Term, CheckError>
    ensures { (known : Known) → Answers term_of result (scopes_in scopes.now known) (rule.name_rule name.now.bytes.items name.now.line (scopes_in scopes.now known)) }
{
    match scopes.find(&name.bytes) {
        Some(binding) => Ok(bound(binding, name.line)),
        None => refused(Kind::Name, name.line),
    }
}

/// A constant as an expression.
pub fn constant_term(token: Constant) -> Term
    ensures { (known : Known) → rule.leaf (spell_constant token).kind (spell_constant token).bytes (spell_constant token).line known ≡ Ok (term_of result, known) }
{
    match token {
        Constant::Int {
            value,
            base,
            unsigned_suffix,
            long_suffix,
            line,
        } => {
            let ty = c_ints::constant(value, base, unsigned_suffix, long_suffix);
            number_term(ty, value, line)
        }
        Constant::Char { value, line } => number_term(IntTy::Int, value as u32, line),
    }
}

// A number of a type. The constant 0 is a null constant.
fn number_term(ty: IntTy, value: u32, line: u32) -> Term
    ensures { term_of result ≡ rule.constant_term (number_of_type ty value line) value line }
{
    Term {
        form: Form::Value(constant(ty, value, line)),
        null: value == 0,
        line,
        start: line,
        reach: None,
    }
}

fn bracketed_form(form: Form) -> Form
    ensures { form_of result ≡ rule.bracketed_form (form_of form) }
{
    match form {
        Form::Value(value) => Form::Value(value),
        Form::Lvalue(place) => Form::Lvalue(place),
        Form::Function { number, .. } => Form::Function {
            number,
            bare: false,
        },
        Form::TypeName => Form::TypeName,
    }
}

/// An expression with brackets round it, the opening one on this line.
pub fn grouped(term: Term, opening: u32) -> Term
    ensures { term_of result ≡ rule.bracketed (term_of term) opening }
{
    Term {
        form: bracketed_form(term.form),
        null: term.null,
        line: term.line,
        start: opening,
        reach: term.reach,
    }
}
