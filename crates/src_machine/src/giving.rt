//! Where a value goes: the node that waits for it takes it.

ghost use Rattle.std.specs.Prelude.{◌≡◌, ◌≤◌, true, drop, map};
ghost use Rattle.std.specs.Vec.{vec_capacity};
ghost use Rattle.c_typed.specs.Views.{place_of, statement_of, statements_of};
ghost use Rattle.pic_world.specs.World.{World as Worlds, Outside};
ghost use Rattle.src_machine.specs.Seen.{stack_of, above, memory_of, silent, setting_of, HasRoom, IsGoing};
ghost use Rattle.src_machine.specs.Telling.{is_quiet};
ghost use Rattle.src_rules.specs.Accesses.{goes};
ghost use Rattle.src_rules.specs.Giving as rules;
ghost use Rattle.src_rules.specs.Statements.{unwound};
ghost use Rattle.src_values.specs.Control as control;
ghost use Rattle.src_values.specs.Data as values;
ghost use Rattle.src_values.specs.Seen.{datum_of, focus_in, statement_in, stage_in};
ghost use Rattle.src_values.specs.declared.control.Stage.TheVariants as stages;
ghost use Rattle.src_values.specs.declared.objects.Byte.{Byte as Bytes};

use crate::machine::{Machine, Outcome, undefined};
use c_typed::{TCase, TItem, TPlace, TStmt};
use src_values::control::{Code, Focus, Pending, Stage};
use src_values::names::local_of;
use src_values::pointers::behind;
use src_values::values::{is_case, truth_of};
use src_values::{Datum, Spot, Undef};

impl<'a> Machine<'a> {
    // Goes on with a value that is used. A missing one is undefined.
    fn used(&mut self, value: Datum, line: u32, focus: Focus<'a>, pending: Pending<'a>) -> Outcome
        ensures tells { HasRoom 1 self.old → (w : Worlds Bytes) → silent result self.new w ≡ rules.used (datum_of value) line (goes self.old.copy (focus_in focus.entry) (above self.old pending.entry) (memory_of self.old) w) }
        ensures others { self.new ≡ record self.old { stack = self.new.stack; focus = self.new.focus } }
        ensures quiet { is_quiet result ≡ true }
        ensures room { vec_capacity self.old.stack ≤ vec_capacity self.new.stack }
    {
        match value {
            Datum::Missing => undefined(Undef::Unset, line),
            Datum::Number(_) | Datum::Pointer(_) => self.go_waiting(focus, pending),
        }
    }

    // What a pointer points to.
    #[tactic(auto, using(crate::proofs::Places::pointed))]
    fn take_to(&mut self, place: &'a TPlace, value: Datum) -> Outcome
        ensures tells { (w : Worlds Bytes) → silent result self.new w ≡ rules.take_to (place_of place.now) (datum_of value) (stack_of self.old) self.old.copy (memory_of self.old) w }
        ensures others { self.new ≡ record self.old { stack = self.new.stack; focus = self.new.focus } }
        ensures quiet { is_quiet result ≡ true }
        ensures room { vec_capacity self.old.stack ≤ vec_capacity self.new.stack }
    {
        match place {
            TPlace::Deref { line, .. } => match value {
                Datum::Pointer(pointer) => self.go(Focus::Found(Spot::Memory(pointer))),
                Datum::Number(_) => Outcome::Lost,
                Datum::Missing => undefined(Undef::Unset, *line),
            },
            TPlace::Name { .. } | TPlace::Bit { .. } | TPlace::Member { .. } => Outcome::Lost,
        }
    }

    // A switch goes on at the statement of this number.
    #[tactic(auto, using(crate::proofs::Gives::all_behind))]
    fn jump(&mut self, code: Code<'a>, statements: &'a Vec<TStmt>, target: usize) -> Outcome
        ensures tells { HasRoom 2 self.old → (w : Worlds Bytes) → silent result self.new w ≡ rules.jump (statement_in code.entry) target (statements_of (map statement_of statements.now.items)) (stack_of self.old) self.old.copy (memory_of self.old) w }
        ensures others { self.new ≡ record self.old { stack = self.new.stack; focus = self.new.focus } }
        ensures quiet { is_quiet result ≡ true }
        ensures room { vec_capacity self.old.stack ≤ vec_capacity self.new.stack }
    {
        self.wait(Pending::Doing(code, Stage::Turns));
        self.go_waiting(Focus::Past, Pending::Before(statements, target))
    }

    // The label of this number of a switch with these statements is compared with a value.
    #[tactic(auto, using(crate::proofs::Gives::one_more_label))]
    fn compares_label(
        &mut self,
        code: Code<'a>,
        statements: &'a Vec<TStmt>,
        default: Option<usize>,
        value: Datum,
        cases: &'a Vec<TCase>,
        next: usize,
    ) -> Outcome
        ensures tells { HasRoom 2 self.old → (w : Worlds Bytes) → silent result self.new w ≡ rules.compares_in (statement_in code.entry) (statements_of (map statement_of statements.now.items)) default (datum_of value) (drop next cases.now.items) (stack_of self.old) self.old.copy (memory_of self.old) w }
        ensures others { self.new ≡ record self.old { stack = self.new.stack; focus = self.new.focus } }
        ensures quiet { is_quiet result ≡ true }
        ensures room { vec_capacity self.old.stack ≤ vec_capacity self.new.stack }
    {
        match cases.get(next) {
            None => match default {
                Some(target) => self.jump(code, statements, target),
                None => self.go(Focus::Past),
            },
            Some(case) => {
                if is_case(value, case) {
                    return self.jump(code, statements, case.target);
                }
                let next = next + 1;
                self.go_waiting(
                    Focus::Compares { value, cases, next },
                    Pending::Doing(code, Stage::Chooses),
                )
            }
        }
    }

    // The label of this number is compared with a value, for a statement.
    #[tactic(auto, using(crate::proofs::Gives::labels))]
    fn compares_in(
        &mut self,
        code: Code<'a>,
        statement: &'a TStmt,
        value: Datum,
        cases: &'a Vec<TCase>,
        next: usize,
    ) -> Outcome
        ensures tells { HasRoom 2 self.old → statement_in code.entry ≡ statement_of statement.now → (w : Worlds Bytes) → silent result self.new w ≡ rules.compares_for (statement_of statement.now) control.Chooses (datum_of value) (drop next cases.now.items) (stack_of self.old) self.old.copy (memory_of self.old) w }
        ensures others { self.new ≡ record self.old { stack = self.new.stack; focus = self.new.focus } }
        ensures quiet { is_quiet result ≡ true }
        ensures room { vec_capacity self.old.stack ≤ vec_capacity self.new.stack }
    {
        match statement {
            TStmt::Switch {
                default,
                statements,
                ..
            } => self.compares_label(code, statements, *default, value, cases, next),
            _ => Outcome::Lost,
        }
    }

    // The label of this number is compared with a value, for what is under way of a statement.
    fn compares_for(
        &mut self,
        code: Code<'a>,
        stage: Stage,
        value: Datum,
        cases: &'a Vec<TCase>,
        next: usize,
    ) -> Outcome
        ensures tells { HasRoom 2 self.old → (w : Worlds Bytes) → silent result self.new w ≡ rules.compares_for (statement_in code.entry) (stage_in (statement_in code.entry) stage) (datum_of value) (drop next cases.now.items) (stack_of self.old) self.old.copy (memory_of self.old) w }
        ensures others { self.new ≡ record self.old { stack = self.new.stack; focus = self.new.focus } }
        ensures quiet { is_quiet result ≡ true }
        ensures room { vec_capacity self.old.stack ≤ vec_capacity self.new.stack }
    {
        let Some(statement) = code.statement() else {
            return Outcome::Lost;
        };
        match stage {
            Stage::Chooses => self.compares_in(code, statement, value, cases, next),
            _ => Outcome::Lost,
        }
    }

    /// Labels are compared with the value of a switch, one a step.
    #[tactic(auto, using(crate::proofs::Shapes::top_first))]
    pub(crate) fn compares(&mut self, value: Datum, cases: &'a Vec<TCase>, next: usize) -> Outcome
        ensures tells { HasRoom 1 self.old → (w : Worlds Bytes) → silent result self.new w ≡ rules.compares (datum_of value) (drop next cases.now.items) (stack_of self.old) self.old.copy (memory_of self.old) w }
        ensures others { self.new ≡ record self.old { stack = self.new.stack; focus = self.new.focus } }
        ensures quiet { is_quiet result ≡ true }
        ensures room { vec_capacity self.old.stack ≤ vec_capacity self.new.stack }
    {
        match self.stack.pop() {
            Some(Pending::Doing(code, stage)) => {
                self.compares_for(code, stage, value, cases, next)
            }
            Some(Pending::In(_, _))
            | Some(Pending::To(_))
            | Some(Pending::Value(_))
            | Some(Pending::Before(_, _))
            | Some(Pending::Ended)
            | Some(Pending::Returns(_))
            | Some(Pending::Resumes(_))
            | None => Outcome::Lost,
        }
    }

    // The value of the item of this number of a list.
    #[tactic(auto, using(crate::proofs::Gives::items_taken))]
    fn take_item(
        &mut self,
        code: Code<'a>,
        statement: &'a TStmt,
        at: usize,
        value: Datum,
    ) -> Outcome
        ensures tells { HasRoom 1 self.old → statement_in code.entry ≡ statement_of statement.now → (o : Outside) (w : Worlds Bytes) → silent result self.new w ≡ rules.take_for (setting_of self.old o) (statement_of statement.now) (stage_in (statement_of statement.now) (stages.AtItem at)) (datum_of value) (stack_of self.old) self.old.copy (memory_of self.old) w }
        ensures others { self.new ≡ record self.old { stack = self.new.stack; focus = self.new.focus } }
        ensures quiet { is_quiet result ≡ true }
        ensures room { vec_capacity self.old.stack ≤ vec_capacity self.new.stack }
    {
        match statement {
            TStmt::InitList { local, items, line } => match items.get(at) {
                Some(TItem::Scalar { offset, .. }) => {
                    let spot = behind(local_of(self.program, self.copy, *local), *offset);
                    let focus = Focus::Write { spot, value, at: 0 };
                    let pending = Pending::Doing(code, Stage::Items(at));
                    self.used(value, *line, focus, pending)
                }
                Some(TItem::Struct { .. }) | Some(TItem::Text { .. }) | None => Outcome::Lost,
            },
            _ => Outcome::Lost,
        }
    }

    // The value of a return: the function is left.
    fn returned(&mut self, value: Datum, line: u32) -> Outcome
        ensures tells { (w : Worlds Bytes) → silent result self.new w ≡ rules.used (datum_of value) line (goes self.old.copy (control.Leaves (datum_of value)) (unwound (stack_of self.old)) (memory_of self.old) w) }
        ensures others { self.new ≡ record self.old { stack = self.new.stack; focus = self.new.focus } }
        ensures quiet { is_quiet result ≡ true }
        ensures room { vec_capacity self.old.stack ≤ vec_capacity self.new.stack }
    {
        match value {
            Datum::Missing => undefined(Undef::Unset, line),
            Datum::Number(_) | Datum::Pointer(_) => {
                self.unwind();
                self.go(Focus::Leaves(value))
            }
        }
    }

    // A statement takes the value that it begins with.
    #[tactic(auto, using(crate::proofs::Gives::tests))]
    fn take_first(&mut self, code: Code<'a>, statement: &'a TStmt, value: Datum) -> Outcome
        ensures tells { HasRoom 1 self.old → statement_in code.entry ≡ statement_of statement.now → (o : Outside) (w : Worlds Bytes) → silent result self.new w ≡ rules.take_for (setting_of self.old o) (statement_of statement.now) control.Tests (datum_of value) (stack_of self.old) self.old.copy (memory_of self.old) w }
        ensures others { self.new ≡ record self.old { stack = self.new.stack; focus = self.new.focus } }
        ensures quiet { is_quiet result ≡ true }
        ensures room { vec_capacity self.old.stack ≤ vec_capacity self.new.stack }
    {
        match statement {
            TStmt::Expr { .. } => self.go(Focus::Past),
            TStmt::InitScalar { local, line, .. } => {
                let spot = behind(local_of(self.program, self.copy, *local), 0);
                let focus = Focus::Write { spot, value, at: 0 };
                self.used(value, *line, focus, Pending::Doing(code, Stage::Fills))
            }
            TStmt::Loop { body, line, .. } => match truth_of(value) {
                Some(true) => self.turn(code, body),
                Some(false) => self.go(Focus::Past),
                None => undefined(Undef::Unset, *line),
            },
            TStmt::Switch { cases, line, .. } => {
                let next = 0;
                let focus = Focus::Compares { value, cases, next };
                self.used(value, *line, focus, Pending::Doing(code, Stage::Chooses))
            }
            TStmt::Return { line, .. } => self.returned(value, *line),
            _ => Outcome::Lost,
        }
    }

    // A loop goes on behind what it begins with, or what it does after a turn.
    #[tactic(auto, using(crate::proofs::Gives::begins, crate::proofs::Gives::steps))]
    fn take_turn(&mut self, code: Code<'a>, statement: &'a TStmt) -> Outcome
        ensures begins { HasRoom 1 self.old → statement_in code.entry ≡ statement_of statement.now → (v : values.Datum) (o : Outside) (w : Worlds Bytes) → silent result self.new w ≡ rules.take_for (setting_of self.old o) (statement_of statement.now) control.Begins v (stack_of self.old) self.old.copy (memory_of self.old) w }
        ensures steps { HasRoom 1 self.old → statement_in code.entry ≡ statement_of statement.now → (v : values.Datum) (o : Outside) (w : Worlds Bytes) → silent result self.new w ≡ rules.take_for (setting_of self.old o) (statement_of statement.now) control.Steps v (stack_of self.old) self.old.copy (memory_of self.old) w }
        ensures others { self.new ≡ record self.old { stack = self.new.stack; focus = self.new.focus } }
        ensures quiet { is_quiet result ≡ true }
        ensures room { vec_capacity self.old.stack ≤ vec_capacity self.new.stack }
    {
        match statement {
            TStmt::Loop {
                condition,
                body,
                ..
            } => self.test(code, condition, body),
            _ => Outcome::Lost,
        }
    }

    // The condition of the arm of this number has this value.
    #[tactic(auto, using(crate::proofs::Gives::arms_taken))]
    fn take_arm(&mut self, code: Code<'a>, statement: &'a TStmt, at: usize, value: Datum) -> Outcome
        ensures tells { HasRoom 1 self.old → statement_in code.entry ≡ statement_of statement.now → (o : Outside) (w : Worlds Bytes) → silent result self.new w ≡ rules.take_for (setting_of self.old o) (statement_of statement.now) (stage_in (statement_of statement.now) (stages.Picks at)) (datum_of value) (stack_of self.old) self.old.copy (memory_of self.old) w }
        ensures others { self.new ≡ record self.old { stack = self.new.stack; focus = self.new.focus } }
        ensures quiet { is_quiet result ≡ true }
        ensures room { vec_capacity self.old.stack ≤ vec_capacity self.new.stack }
    {
        match statement {
            TStmt::If {
                arms,
                otherwise,
                ..
            } => self.picks(code, arms, at, otherwise, value),
            _ => Outcome::Lost,
        }
    }

    // A statement takes the value of its expression.
    fn take_for(&mut self, code: Code<'a>, stage: Stage, value: Datum) -> Outcome
        ensures tells { HasRoom 1 self.old → (o : Outside) (w : Worlds Bytes) → silent result self.new w ≡ rules.take_for (setting_of self.old o) (statement_in code.entry) (stage_in (statement_in code.entry) stage) (datum_of value) (stack_of self.old) self.old.copy (memory_of self.old) w }
        ensures others { self.new ≡ record self.old { stack = self.new.stack; focus = self.new.focus } }
        ensures quiet { is_quiet result ≡ true }
        ensures room { vec_capacity self.old.stack ≤ vec_capacity self.new.stack }
    {
        let Some(statement) = code.statement() else {
            return Outcome::Lost;
        };
        match stage {
            Stage::Tests => self.take_first(code, statement, value),
            Stage::Begins | Stage::Steps => self.take_turn(code, statement),
            Stage::Picks(at) => self.take_arm(code, statement, at, value),
            Stage::AtItem(at) => self.take_item(code, statement, at, value),
            _ => Outcome::Lost,
        }
    }

    /// A value goes to the node that waits.
    #[tactic(auto, using(crate::proofs::Shapes::top_first))]
    pub(crate) fn give(&mut self, value: Datum) -> Outcome
        ensures tells { HasRoom 1 self.old → IsGoing self.old → (o : Outside) (w : Worlds Bytes) → silent result self.new w ≡ rules.give (setting_of self.old o) (datum_of value) (stack_of self.old) self.old.copy (memory_of self.old) w }
        ensures others { self.new ≡ record self.old { stack = self.new.stack; focus = self.new.focus } }
        ensures quiet { is_quiet result ≡ true }
        ensures room { vec_capacity self.old.stack ≤ vec_capacity self.new.stack }
    {
        match self.stack.pop() {
            Some(Pending::In(expr, got)) => self.take_in(expr, got, value),
            Some(Pending::To(place)) => self.take_to(place, value),
            Some(Pending::Doing(code, stage)) => self.take_for(code, stage, value),
            Some(Pending::Value(_))
            | Some(Pending::Before(_, _))
            | Some(Pending::Ended)
            | Some(Pending::Returns(_))
            | Some(Pending::Resumes(_))
            | None => Outcome::Lost,
        }
    }
}
