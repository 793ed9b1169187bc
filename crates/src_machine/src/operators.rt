//! Expressions that take the value of a part.

ghost use Rattle.std.specs.Prelude.{◌≡◌, ◌≤◌, ◌∷◌, true};
ghost use Rattle.std.specs.Vec.{vec_capacity};
ghost use Rattle.c_typed.specs.Views.{expression_of};
ghost use Rattle.pic_world.specs.World.{World as Worlds, Outside};
ghost use Rattle.src_machine.specs.Seen.{waiting, interrupted_in, stack_of, memory_of, silent, setting_of, active_in, HasRoom, IsGoing};
ghost use Rattle.src_machine.specs.Telling.{is_quiet};
ghost use Rattle.src_rules.specs.Accesses.{goes};
ghost use Rattle.src_rules.specs.Giving as giving;
ghost use Rattle.src_values.specs.Control as control;
ghost use Rattle.src_values.specs.Seen.{datum_of, answer_in, are_alive, got_in, has_values, values_on, frames_behind};
ghost use Rattle.src_values.specs.Values as values;
ghost use Rattle.src_values.specs.declared.control.Got.TheVariants as AnyGot;
ghost use Rattle.src_values.specs.declared.objects.Byte.{Byte as Bytes};

use crate::machine::{Machine, Outcome, undefined};
use c_typed::{LogicalOp, TExpr};
use src_values::control::{Focus, Got, Pending};
use src_values::pointers::{binary_answer, change_answer, difference_answer, offset_answer};
use src_values::values::{
    Answer, converted, decides, is_postfix, one_in, truth_of, truth_value, unary_answer,
};
use src_values::{Datum, Pointer, Spot, Undef};

impl<'a> Machine<'a> {
    // The value of an operator, or why it is undefined; or no rule is there.
    fn answered(&mut self, answer: Answer, line: u32) -> Outcome
        ensures tells { (w : Worlds Bytes) → silent result self.new w ≡ giving.answered (answer_in answer) line (stack_of self.old) self.old.copy (memory_of self.old) w }
        ensures others { self.new ≡ record self.old { stack = self.new.stack; focus = self.new.focus } }
        ensures quiet { is_quiet result ≡ true }
        ensures room { vec_capacity self.old.stack ≤ vec_capacity self.new.stack }
    {
        match answer {
            Answer::Gives(value) => self.go(Focus::Holds(value)),
            Answer::Fails(kind) => undefined(kind, line),
            Answer::Strays => Outcome::Lost,
        }
    }

    // Whether what two pointers point to is alive.
    fn are_alive(&self, left: Datum, right: Datum) -> bool
        ensures { result ≡ are_alive (active_in self.now) (datum_of left) (datum_of right) }
    {
        match left {
            Datum::Pointer(Pointer::Into { object: a, .. }) => match right {
                Datum::Pointer(Pointer::Into { object: b, .. }) => {
                    self.is_alive(a) && self.is_alive(b)
                }
                Datum::Pointer(Pointer::Null) | Datum::Number(_) | Datum::Missing => true,
            },
            Datum::Pointer(Pointer::Null) | Datum::Number(_) | Datum::Missing => true,
        }
    }

    // The left operand of && or || decides, or the right one begins.
    fn take_left(
        &mut self,
        expr: &'a TExpr,
        op: LogicalOp,
        value: Datum,
        right: &'a TExpr,
        line: u32,
    ) -> Outcome
        ensures tells { HasRoom 1 self.old → (w : Worlds Bytes) → silent result self.new w ≡ giving.logical (expression_of expr.now) op (datum_of value) (values.truth_of (datum_of value)) (expression_of right.now) line (stack_of self.old) self.old.copy (memory_of self.old) w }
        ensures others { self.new ≡ record self.old { stack = self.new.stack; focus = self.new.focus } }
        ensures quiet { is_quiet result ≡ true }
        ensures room { vec_capacity self.old.stack ≤ vec_capacity self.new.stack }
    {
        match truth_of(value) {
            None => undefined(Undef::Unset, line),
            Some(holds) => {
                if decides(op, holds) {
                    self.go(Focus::Holds(truth_value(holds)))
                } else {
                    self.go_waiting(Focus::Eval(right), Pending::In(expr, Got::One(value)))
                }
            }
        }
    }

    // A condition chooses one of two operands.
    fn chooses(
        &mut self,
        expr: &'a TExpr,
        value: Datum,
        then: &'a TExpr,
        otherwise: &'a TExpr,
        line: u32,
    ) -> Outcome
        ensures tells { HasRoom 1 self.old → (w : Worlds Bytes) → silent result self.new w ≡ giving.branch (values.truth_of (datum_of value)) line (goes self.old.copy (control.Eval (expression_of then.now)) (control.In (expression_of expr.now) control.Chosen ∷ stack_of self.old) (memory_of self.old) w) (goes self.old.copy (control.Eval (expression_of otherwise.now)) (control.In (expression_of expr.now) control.Chosen ∷ stack_of self.old) (memory_of self.old) w) }
        ensures others { self.new ≡ record self.old { stack = self.new.stack; focus = self.new.focus } }
        ensures quiet { is_quiet result ≡ true }
        ensures room { vec_capacity self.old.stack ≤ vec_capacity self.new.stack }
    {
        match truth_of(value) {
            Some(true) => self.go_waiting(Focus::Eval(then), Pending::In(expr, Got::Chosen)),
            Some(false) => self.go_waiting(Focus::Eval(otherwise), Pending::In(expr, Got::Chosen)),
            None => undefined(Undef::Unset, line),
        }
    }

    // The first part of an expression has its value.
    #[tactic(auto, using(crate::proofs::Takes::first_parts))]
    fn take_first_part(&mut self, expr: &'a TExpr, value: Datum) -> Outcome
        ensures tells { HasRoom 1 self.old → (o : Outside) (w : Worlds Bytes) → silent result self.new w ≡ giving.take_in (setting_of self.old o) (expression_of expr.now) control.Nothing (datum_of value) (stack_of self.old) self.old.copy (memory_of self.old) w }
        ensures others { self.new ≡ record self.old { stack = self.new.stack; focus = self.new.focus } }
        ensures quiet { is_quiet result ≡ true }
        ensures room { vec_capacity self.old.stack ≤ vec_capacity self.new.stack }
    {
        match expr {
            TExpr::Convert { ty, line, .. } | TExpr::Cast { ty, line, .. } => {
                self.answered(converted(*ty, value), *line)
            }
            TExpr::Unary { op, line, .. } => self.answered(unary_answer(*op, value), *line),
            TExpr::Binary { right, .. }
            | TExpr::Offset { right, .. }
            | TExpr::Difference { right, .. } => {
                self.go_waiting(Focus::Eval(right), Pending::In(expr, Got::One(value)))
            }
            TExpr::Logical {
                op,
                right,
                line,
                ..
            } => { self.take_left(expr, *op, value, right, *line) }
            TExpr::Conditional {
                then,
                otherwise,
                line,
                ..
            } => { self.chooses(expr, value, then, otherwise, *line) }
            TExpr::Comma { right, .. } => self.go(Focus::Eval(right)),
            _ => Outcome::Lost,
        }
    }

    // Both operands have their values.
    #[tactic(auto, using(crate::proofs::Takes::right_offset, crate::proofs::Takes::right_difference, crate::proofs::Takes::right_logical, crate::proofs::Operands::both_given))]
    fn take_right(&mut self, expr: &'a TExpr, left: Datum, right: Datum) -> Outcome
        ensures tells { IsGoing self.old → (o : Outside) (w : Worlds Bytes) → silent result self.new w ≡ giving.take_in (setting_of self.old o) (expression_of expr.now) (control.One (datum_of left)) (datum_of right) (stack_of self.old) self.old.copy (memory_of self.old) w }
        ensures others { self.new ≡ record self.old { stack = self.new.stack; focus = self.new.focus } }
        ensures quiet { is_quiet result ≡ true }
        ensures room { vec_capacity self.old.stack ≤ vec_capacity self.new.stack }
    {
        match expr {
            TExpr::Binary { op, ty, line, .. } => {
                let alive = self.are_alive(left, right);
                let answer = binary_answer(self.program, alive, *op, *ty, left, right);
                self.answered(answer, *line)
            }
            TExpr::Offset { op, size, line, .. } => {
                let answer = offset_answer(self.program, *op, *size, left, right);
                self.answered(answer, *line)
            }
            TExpr::Difference { size, line, .. } => {
                self.answered(difference_answer(*size, left, right), *line)
            }
            TExpr::Logical { line, .. } => match truth_of(right) {
                Some(holds) => self.go(Focus::Holds(truth_value(holds))),
                None => undefined(Undef::Unset, *line),
            },
            _ => Outcome::Lost,
        }
    }

    // The new value of a place is written, and a value stays with the node: the old one where it is kept.
    fn changes(
        &mut self,
        expr: &'a TExpr,
        spot: Spot,
        answer: Answer,
        keeps: bool,
        old: Datum,
        line: u32,
    ) -> Outcome
        ensures tells { HasRoom 1 self.old → (w : Worlds Bytes) → silent result self.new w ≡ giving.changes (answer_in answer) (expression_of expr.now) spot keeps (datum_of old) line (stack_of self.old) self.old.copy (memory_of self.old) w }
        ensures others { self.new ≡ record self.old { stack = self.new.stack; focus = self.new.focus } }
        ensures quiet { is_quiet result ≡ true }
        ensures room { vec_capacity self.old.stack ≤ vec_capacity self.new.stack }
    {
        match answer {
            Answer::Gives(value) => {
                let stays = if keeps { old } else { value };
                let focus = Focus::Write { spot, value, at: 0 };
                self.go_waiting(focus, Pending::In(expr, Got::Stores(spot, stays)))
            }
            Answer::Fails(kind) => undefined(kind, line),
            Answer::Strays => Outcome::Lost,
        }
    }

    // A value is assigned to a place. A missing one is undefined.
    fn assigns(&mut self, expr: &'a TExpr, spot: Spot, value: Datum, line: u32) -> Outcome
        ensures tells { HasRoom 1 self.old → (w : Worlds Bytes) → silent result self.new w ≡ giving.used (datum_of value) line (goes self.old.copy (control.Write spot (datum_of value) 0) (control.In (expression_of expr.now) (control.Stores spot (datum_of value)) ∷ stack_of self.old) (memory_of self.old) w) }
        ensures others { self.new ≡ record self.old { stack = self.new.stack; focus = self.new.focus } }
        ensures quiet { is_quiet result ≡ true }
        ensures room { vec_capacity self.old.stack ≤ vec_capacity self.new.stack }
    {
        match value {
            Datum::Missing => undefined(Undef::Unset, line),
            Datum::Number(_) | Datum::Pointer(_) => {
                let focus = Focus::Write { spot, value, at: 0 };
                self.go_waiting(focus, Pending::In(expr, Got::Stores(spot, value)))
            }
        }
    }

    // A node whose place was found.
    #[tactic(auto, using(crate::proofs::Takes::at_parts))]
    fn take_at(&mut self, expr: &'a TExpr, spot: Spot, value: Datum) -> Outcome
        ensures tells { HasRoom 1 self.old → (o : Outside) (w : Worlds Bytes) → silent result self.new w ≡ giving.take_in (setting_of self.old o) (expression_of expr.now) (control.At spot) (datum_of value) (stack_of self.old) self.old.copy (memory_of self.old) w }
        ensures others { self.new ≡ record self.old { stack = self.new.stack; focus = self.new.focus } }
        ensures quiet { is_quiet result ≡ true }
        ensures room { vec_capacity self.old.stack ≤ vec_capacity self.new.stack }
    {
        match expr {
            TExpr::Assign { line, .. } => self.assigns(expr, spot, value, *line),
            TExpr::Update { ty, .. } => {
                let focus = self.fetching(spot, *ty);
                self.go_waiting(focus, Pending::In(expr, Got::AtWith(spot, value)))
            }
            TExpr::Step {
                op,
                operation,
                size,
                ty,
                line,
                ..
            } => {
                let one = one_in(*operation);
                let by = op.operator();
                let answer = change_answer(self.program, by, *operation, *size, *ty, value, one);
                self.changes(expr, spot, answer, is_postfix(*op), value, *line)
            }
            _ => Outcome::Lost,
        }
    }

    // An update whose place was read.
    #[tactic(auto, using(crate::proofs::Takes::old_parts))]
    fn take_old(&mut self, expr: &'a TExpr, spot: Spot, right: Datum, old: Datum) -> Outcome
        ensures tells { HasRoom 1 self.old → (o : Outside) (w : Worlds Bytes) → silent result self.new w ≡ giving.take_in (setting_of self.old o) (expression_of expr.now) (control.AtWith spot (datum_of right)) (datum_of old) (stack_of self.old) self.old.copy (memory_of self.old) w }
        ensures others { self.new ≡ record self.old { stack = self.new.stack; focus = self.new.focus } }
        ensures quiet { is_quiet result ≡ true }
        ensures room { vec_capacity self.old.stack ≤ vec_capacity self.new.stack }
    {
        match expr {
            TExpr::Update {
                op,
                operation,
                size,
                ty,
                line,
                ..
            } => {
                let answer = change_answer(self.program, *op, *operation, *size, *ty, old, right);
                self.changes(expr, spot, answer, false, old, *line)
            }
            _ => Outcome::Lost,
        }
    }

    // The operand that a condition chose has its value.
    #[tactic(auto, using(crate::proofs::Takes::chosen_parts))]
    fn take_chosen(&mut self, expr: &'a TExpr, value: Datum) -> Outcome
        ensures tells { (o : Outside) (w : Worlds Bytes) → silent result self.new w ≡ giving.take_in (setting_of self.old o) (expression_of expr.now) control.Chosen (datum_of value) (stack_of self.old) self.old.copy (memory_of self.old) w }
        ensures others { self.new ≡ record self.old { stack = self.new.stack; focus = self.new.focus } }
        ensures quiet { is_quiet result ≡ true }
        ensures room { vec_capacity self.old.stack ≤ vec_capacity self.new.stack }
    {
        match expr {
            TExpr::Conditional { .. } => self.go(Focus::Holds(value)),
            _ => Outcome::Lost,
        }
    }

    // An argument of this number has its value.
    #[tactic(auto, using(crate::proofs::OtherNodes::args_other, crate::proofs::Parts::argument_passed, crate::proofs::Parts::arguments_of_call))]
    fn take_argument(&mut self, expr: &'a TExpr, count: usize, value: Datum) -> Outcome
        ensures tells { HasRoom 2 self.old → (o : Outside) (w : Worlds Bytes) → silent result self.new w ≡ giving.take_in (setting_of self.old o) (expression_of expr.now) (got_in (expression_of expr.now) (AnyGot.Args count) (values_on (waiting self.old))) (datum_of value) (frames_behind (interrupted_in self.old) true (waiting self.old)) self.old.copy (memory_of self.old) w }
        ensures others { self.new ≡ record self.old { stack = self.new.stack; focus = self.new.focus } }
        ensures quiet { is_quiet result ≡ true }
        ensures room { vec_capacity self.old.stack ≤ vec_capacity self.new.stack }
    {
        match expr {
            TExpr::Call { arguments, .. } => {
                self.wait(Pending::Value(value));
                self.arguments(expr, arguments, count.saturating_add(1))
            }
            _ => Outcome::Lost,
        }
    }

    /// An expression takes the value of a part.
    #[tactic(auto, using(crate::proofs::Takes::nowhere))]
    pub(crate) fn take_in(&mut self, expr: &'a TExpr, got: Got, value: Datum) -> Outcome
        ensures tells { HasRoom 2 self.old → IsGoing self.old → (o : Outside) (w : Worlds Bytes) → silent result self.new w ≡ giving.take_in (setting_of self.old o) (expression_of expr.now) (got_in (expression_of expr.now) got (values_on (waiting self.old))) (datum_of value) (frames_behind (interrupted_in self.old) (has_values got) (waiting self.old)) self.old.copy (memory_of self.old) w }
        ensures others { self.new ≡ record self.old { stack = self.new.stack; focus = self.new.focus } }
        ensures quiet { is_quiet result ≡ true }
        ensures room { vec_capacity self.old.stack ≤ vec_capacity self.new.stack }
    {
        match got {
            Got::Nothing => self.take_first_part(expr, value),
            Got::Chosen => self.take_chosen(expr, value),
            Got::One(left) => self.take_right(expr, left, value),
            Got::At(spot) => self.take_at(expr, spot, value),
            Got::AtWith(spot, right) => self.take_old(expr, spot, right, value),
            Got::Args(count) => self.take_argument(expr, count, value),
            Got::Stores(_, _) | Got::Copies | Got::Passed | Got::Called => Outcome::Lost,
        }
    }
}
