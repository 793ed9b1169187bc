//! Initializers, from the tree's root down (ISO/IEC 9899:1990, 6.5.7).

ghost use Rattle.std.specs.Prelude.{◌≡◌, ◌+◌, false, map, IfOk};
ghost use Rattle.c_nodes.specs.ProgramViews.{init_of, more_inits, next_init_of};
ghost use Rattle.c_nodes.specs.Views.{assign_of};
ghost use Rattle.type_rules.specs.Expressions.{value_of};
ghost use Rattle.type_rules.specs.Initializers as rule;
ghost use Rattle.type_rules.specs.Known.{Known};
ghost use Rattle.type_rules.specs.Slots.{nothing_begun};
ghost use Rattle.c_tables.specs.Answers.{Answers};
ghost use Rattle.c_tables.specs.Tables.{known_of, types_in};
ghost use Rattle.c_terms.specs.Terms.{operand_of};
ghost use Rattle.c_check.specs.Views.{list_closed};
ghost use Rattle.c_outline.specs.Slots.{any_slot, begun_of};

use crate::parts::{put_text, put_value};
use c_nodes::expression::Assign;
use c_nodes::statement::{Init, NextInit};
use c_outline::slot::Slot;
use c_outline::slots::{Sink, count_items, has_more, part};
use c_tables::checker::Checker;
use c_tables::error::{CheckError, Kind, refused};
use c_tables::types::Types;
use c_terms::term::{Operand, used};
use check_expr::expression::assign;

/// What an initializer gives to an object, or to nothing, where its expressions are checked all the same.
pub(crate) fn begun(
    init: &Init,
    checker: &mut Checker,
    slot: Option<Slot>,
    fixed: bool,
    line: u32,
) -> Result<Sink, CheckError>
    ensures { Answers begun_of result (known_of checker.new) (rule.begins (init_of init.now) (any_slot slot) false (nothing_begun fixed line) (known_of checker.old)) }
{
    let mut sink = Sink::new(checker.alloc, fixed, line);
    initialize(init, checker, slot, false, &mut sink)?;
    Ok(sink)
}

// The value of an expression.
#[tactic(auto, using(crate::proofs::Evaluated::value_is, crate::proofs::Evaluated::judged_wrong))]
fn evaluated(value: &Assign, checker: &mut Checker) -> Result<Operand, CheckError>
    ensures { Answers operand_of result (known_of checker.new) (value_of (assign_of value.now) (known_of checker.old)) }
{
    let term = assign(value, checker)?;
    used(term, checker)
}

// Gives a part of an object what an initializer says, or nothing where no part takes it. `inside` says that it stands in
// a list.
#[cycle(initializer)]
fn initialize(
    init: &Init,
    checker: &mut Checker,
    slot: Option<Slot>,
    inside: bool,
    sink: &mut Sink,
) -> Result<(), CheckError>
    ensures { Answers (λ _. begun_of sink.new) result (known_of checker.new) (rule.begins (init_of init.now) (any_slot slot) inside (begun_of sink.old) (known_of checker.old)) }
{
    match init {
        Init::Assign(value) => {
            let operand = evaluated(value, checker)?;
            put_value(checker, slot, operand, inside, sink)
        }
        Init::Text(text) => put_text(checker, slot, text, inside, sink),
        Init::List {
            opening,
            first,
            others,
            ..
        } => {
            let part = part(&checker.types, slot, 0);
            initialize(first, checker, part, true, sink)?;
            let count = items(others, checker, slot, sink)?;
            close_list(&checker.types, slot, count, sink, *opening)
        }
    }
}

// The items behind the first: how many the list has.
#[cycle(initializer)]
fn items(
    others: &[NextInit],
    checker: &mut Checker,
    slot: Option<Slot>,
    sink: &mut Sink,
) -> Result<usize, CheckError>
    ensures begun { Answers (λ _. begun_of sink.new) result (known_of checker.new) (rule.more_begins (more_inits (map next_init_of others.now)) (any_slot slot) 1 (begun_of sink.old) (known_of checker.old)) }
    ensures count { IfOk result (λ n. n ≡ 1 + rule.items_in (more_inits (map next_init_of others.now))) }
{
    let mut count: usize = 1;
    for next in others {
        let part = part(&checker.types, slot, count);
        initialize(&next.init, checker, part, true, sink)?;
        count += 1;
    }
    Ok(count)
}

// Ends a list of so many items, whose opening bracket stands on this line.
fn close_list(
    types: &Types,
    slot: Option<Slot>,
    count: usize,
    sink: &mut Sink,
    line: u32,
) -> Result<(), CheckError>
    ensures { (known : Known) → Answers (λ _. begun_of sink.new) result (types_in types.now known) (list_closed (any_slot slot) count line (begun_of sink.old) (types_in types.now known)) }
{
    if has_more(types, slot, count) {
        return refused(Kind::Initializer, line);
    }
    count_items(slot, count, sink);
    Ok(())
}
