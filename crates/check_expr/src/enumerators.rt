//! Enumerations and their enumerators (ISO/IEC 9899:1990, 6.5.2.2).

ghost use Rattle.std.specs.Prelude.{◌≡◌, true, pos, map};
ghost use Rattle.c_ints.specs.Range.{cut};
ghost use Rattle.c_ints.specs.declared.types.IntTy.TheVariants as int;
ghost use Rattle.c_nodes.specs.Lists.{more_enumerators};
ghost use Rattle.c_nodes.specs.Views.{enumerator_of, enum_body_of, next_enumerator_of};
ghost use Rattle.c_nodes.specs.Words.{named, spell_tag};
ghost use Rattle.type_rules.specs.Declarators as declarators;
ghost use Rattle.type_rules.specs.Enumerators as rule;
ghost use Rattle.type_rules.specs.Known.{Known};
ghost use Rattle.type_rules.specs.Specifiers.{InFile};
ghost use Rattle.c_tables.specs.Answers.{Answers, Learns};
ghost use Rattle.c_tables.specs.Tables.{known_of, types_in};
ghost use Rattle.check_expr.specs.Lists.{enum_rule};

use crate::constants::constant_value;
use c_nodes::expression::{EnumBody, Enumerator, NextEnumerator};
use c_nodes::word::Name;
use c_tables::checker::Checker;
use c_tables::error::{CheckError, Kind, refused};
use c_tables::scope::Binding;
use c_tables::types::Types;

// The least and the greatest number of type int.
const LEAST: i64 = -32_768;

const GREATEST: i64 = 32_767;

// How many numbers the type int holds.
const SPAN: i64 = 65_536;

fn is_int(number: i64) -> bool
    ensures { result ≡ rule.is_int number }
{
    LEAST <= number && number <= GREATEST
}

// The bits of a number of type int.
fn bits_of(number: i64) -> u32
    requires { rule.is_int number ≡ true }
    ensures { cut int.Int (pos result) ≡ number }
{
    number.rem_euclid(SPAN) as u32
}

// An enumerator of a number, and the number of the next one, if that has no value.
fn numbered(name: &Name, checker: &mut Checker, number: i64) -> Result<i64, CheckError>
    ensures { Answers (λ next. next) result (known_of checker.new) (rule.numbered (named name.now) number (known_of checker.old)) }
{
    checker.scopes.refuse_again(&name.bytes, name.line)?;
    if !is_int(number) {
        return refused(Kind::Constant, name.line);
    }
    let binding = Binding::Enumerator(bits_of(number));
    checker.scopes.bind(&name.bytes, binding)?;
    Ok(number + 1)
}

// An enumerator, whose number is `next` if it has no value.
fn enumerator(enumerator: &Enumerator, checker: &mut Checker, next: i64) -> Result<i64, CheckError>
    ensures { Answers (λ next. next) result (known_of checker.new) (rule.enumerator (enumerator_of enumerator.now) next (known_of checker.old)) }
{
    match enumerator {
        Enumerator::Bare(name) => numbered(name, checker, next),
        Enumerator::Valued { name, value, .. } => {
            let value = constant_value(value, checker)?;
            numbered(name, checker, value.number())
        }
    }
}

fn enumerators(
    others: &[NextEnumerator],
    checker: &mut Checker,
    next: i64,
) -> Result<i64, CheckError>
    ensures { Answers (λ next. next) result (known_of checker.new) (rule.more_enumerators (more_enumerators (map next_enumerator_of others.now)) next (known_of checker.old)) }
{
    let mut next = next;
    for other in others {
        next = enumerator(&other.1, checker, next)?;
    }
    Ok(next)
}

// Whether the tag of an enumeration is declared.
fn is_tagged(tag: &Option<Name>, types: &Types) -> bool
    ensures { (known : Known) → result ≡ declarators.is_tagged (types_in types.now known) (spell_tag tag.now) }
{
    let Some(tag) = tag else {
        return false;
    };
    match types.tagged(&tag.bytes) {
        Some(_) => true,
        None => false,
    }
}

// The tag of an enumeration isn't declared before its body, which stands where bodies may stand.
fn refuse_body(tag: &Option<Name>, types: &Types, bodies: bool, line: u32) -> Result<(), CheckError>
    ensures { (known : Known) → Learns result (types_in types.now known) (declarators.enum_opened (record { site = InFile; bodies = bodies }) (spell_tag tag.now) line (types_in types.now known)) }
{
    if is_tagged(tag, types) {
        return refused(Kind::Again, line);
    }
    if bodies {
        Ok(())
    } else {
        refused(Kind::Declare, line)
    }
}

// Declares the tag of an enumeration behind its body.
fn close(tag: &Option<Name>, types: &mut Types) -> Result<(), CheckError>
    ensures { (known : Known) → Learns result (types_in types.new known) (declarators.enum_closed (spell_tag tag.now) (types_in types.old known)) }
{
    match tag {
        Some(tag) => types.declare_enumeration(&tag.bytes),
        None => Ok(()),
    }
}

/// An enumeration with its enumerators. `bodies` says whether bodies may stand here.
pub(crate) fn enumeration(
    body: &EnumBody,
    checker: &mut Checker,
    bodies: bool,
) -> Result<(), CheckError>
    ensures { Learns result (known_of checker.new) (enum_rule (enum_body_of body.now) bodies (known_of checker.old)) }
{
    refuse_body(&body.tag, &checker.types, bodies, body.keyword)?;
    let next = enumerator(&body.first, checker, 0)?;
    let _next = enumerators(&body.others, checker, next)?;
    close(&body.tag, &mut checker.types)
}
