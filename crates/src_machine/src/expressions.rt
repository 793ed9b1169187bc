//! How expressions and places begin, and what follows a place that was found: the left operand comes first, and the node
//! waits for it.

ghost use Rattle.std.specs.Prelude.{◌≡◌, ◌≤◌, true, map};
ghost use Rattle.std.specs.Vec.{vec_capacity};
ghost use Rattle.c_typed.specs.Views.{expression_of, place_of, statement_of, arguments_of};
ghost use Rattle.pic_world.specs.World.{World as Worlds, Outside};
ghost use Rattle.src_machine.specs.Seen.{waiting, interrupted_in, stack_of, memory_of, silent, setting_of, HasRoom, HasNoValue, AreArgumentsOf};
ghost use Rattle.src_machine.specs.Telling.{is_quiet};
ghost use Rattle.src_rules.specs.Expressions as rules;
ghost use Rattle.src_values.specs.Control as control;
ghost use Rattle.src_values.specs.Seen.{values_on, frames_behind, expressions_from, got_in, has_values, statement_in, stage_in};
ghost use Rattle.src_values.specs.declared.control.Stage.TheVariants as stages;
ghost use Rattle.src_values.specs.declared.objects.Byte.{Byte as Bytes};

use crate::machine::{Machine, Outcome, undefined};
use c_typed::{TExpr, TItem, TPlace, TStmt};
use src_values::control::{Code, Focus, Got, Pending, Stage};
use src_values::names::{local_of, spot_of};
use src_values::objects::as_number;
use src_values::pointers::{behind, moved};
use src_values::{Datum, Spot, Undef};

impl<'a> Machine<'a> {
    /// The arguments from the one of this number on, from left to right, and then the call.
    #[tactic(auto, using(crate::proofs::Parts::no_more_arguments, crate::proofs::Parts::more_arguments))]
    pub(crate) fn arguments(
        &mut self,
        call: &'a TExpr,
        arguments: &'a Vec<TExpr>,
        count: usize,
    ) -> Outcome
        ensures tells { HasRoom 1 self.old → AreArgumentsOf (expression_of call.now) (arguments_of (map expression_of arguments.now.items)) → (w : Worlds Bytes) → silent result self.new w ≡ rules.arguments (expression_of call.now) (values_on (waiting self.old)) (expressions_from count (arguments_of (map expression_of arguments.now.items))) (frames_behind (interrupted_in self.old) true (waiting self.old)) self.old.copy (memory_of self.old) w }
        ensures others { self.new ≡ record self.old { stack = self.new.stack; focus = self.new.focus } }
        ensures quiet { is_quiet result ≡ true }
        ensures room { vec_capacity self.old.stack ≤ vec_capacity self.new.stack }
    {
        match arguments.get(count) {
            None => self.go_waiting(Focus::Calls, Pending::In(call, Got::Passed)),
            Some(argument) => self.go_waiting(
                Focus::Eval(argument),
                Pending::In(call, Got::Args(count)),
            ),
        }
    }

    /// An expression begins.
    #[tactic(auto, using(crate::proofs::Begins::begins, crate::proofs::Parts::eval_call_above, crate::proofs::Parts::arguments_of_call))]
    pub(crate) fn eval(&mut self, expr: &'a TExpr) -> Outcome
        ensures tells { HasRoom 1 self.old → HasNoValue self.old → (w : Worlds Bytes) → silent result self.new w ≡ rules.eval (expression_of expr.now) (stack_of self.old) self.old.copy (memory_of self.old) w }
        ensures others { self.new ≡ record self.old { stack = self.new.stack; focus = self.new.focus } }
        ensures quiet { is_quiet result ≡ true }
        ensures room { vec_capacity self.old.stack ≤ vec_capacity self.new.stack }
    {
        let here = Pending::In(expr, Got::Nothing);
        match expr {
            TExpr::Constant { value, .. } => {
                self.go(Focus::Holds(Datum::Number(as_number(*value))))
            }
            TExpr::Read { place, .. }
            | TExpr::Address { place, .. }
            | TExpr::Assign { place, .. }
            | TExpr::StructAssign { place, .. }
            | TExpr::Update { place, .. }
            | TExpr::Step { place, .. } => self.go_waiting(Focus::Find(place), here),
            TExpr::Convert { operand, .. }
            | TExpr::Cast { operand, .. }
            | TExpr::Unary { operand, .. } => self.go_waiting(Focus::Eval(operand), here),
            TExpr::Binary { left, .. }
            | TExpr::Offset { left, .. }
            | TExpr::Difference { left, .. }
            | TExpr::Logical { left, .. }
            | TExpr::Comma { left, .. } => self.go_waiting(Focus::Eval(left), here),
            TExpr::Conditional { condition, .. } => self.go_waiting(Focus::Eval(condition), here),
            TExpr::Call { arguments, .. } => self.arguments(expr, arguments, 0),
        }
    }

    /// A place is looked for.
    #[tactic(auto, using(crate::proofs::Places::finds))]
    pub(crate) fn find(&mut self, place: &'a TPlace) -> Outcome
        ensures tells { HasRoom 1 self.old → (o : Outside) (w : Worlds Bytes) → silent result self.new w ≡ rules.find (setting_of self.old o) (place_of place.now) (stack_of self.old) self.old.copy (memory_of self.old) w }
        ensures others { self.new ≡ record self.old { stack = self.new.stack; focus = self.new.focus } }
        ensures quiet { is_quiet result ≡ true }
        ensures room { vec_capacity self.old.stack ≤ vec_capacity self.new.stack }
    {
        match place {
            TPlace::Name { object, .. } => {
                let spot = spot_of(self.program, self.copy, *object);
                self.go(Focus::Found(spot))
            }
            TPlace::Bit { register, bit, .. } => self.go(Focus::Found(Spot::Bit {
                register: *register,
                bit: *bit,
            })),
            TPlace::Member { whole, .. } => self.go_waiting(Focus::Find(whole), Pending::To(place)),
            TPlace::Deref { pointer, .. } => {
                self.go_waiting(Focus::Eval(pointer), Pending::To(place))
            }
        }
    }

    // The first place of an expression was found.
    #[tactic(auto, using(crate::proofs::Places::first_places))]
    fn found_first(&mut self, expr: &'a TExpr, spot: Spot) -> Outcome
        ensures tells { HasRoom 1 self.old → (o : Outside) (w : Worlds Bytes) → silent result self.new w ≡ rules.found_in (setting_of self.old o) (expression_of expr.now) control.Nothing spot (stack_of self.old) self.old.copy (memory_of self.old) w }
        ensures others { self.new ≡ record self.old { stack = self.new.stack; focus = self.new.focus } }
        ensures quiet { is_quiet result ≡ true }
        ensures room { vec_capacity self.old.stack ≤ vec_capacity self.new.stack }
    {
        let here = Pending::In(expr, Got::At(spot));
        match expr {
            TExpr::Address { .. } => match spot {
                Spot::Memory(pointer) => self.go(Focus::Holds(Datum::Pointer(pointer))),
                Spot::Device(_) | Spot::Bit { .. } => Outcome::Lost,
            },
            TExpr::Read { ty, .. } | TExpr::Step { ty, .. } => {
                let focus = self.fetching(spot, *ty);
                self.go_waiting(focus, here)
            }
            TExpr::Assign { value, .. } | TExpr::Update { value, .. } => {
                self.go_waiting(Focus::Eval(value), here)
            }
            TExpr::StructAssign { from, .. } => self.go_waiting(Focus::Find(from), here),
            _ => Outcome::Lost,
        }
    }

    // The second place of an expression was found: a structure is copied from it to the first one.
    #[tactic(auto, using(crate::proofs::Places::second_places))]
    fn found_second(&mut self, expr: &'a TExpr, to: Spot, from: Spot) -> Outcome
        ensures tells { HasRoom 1 self.old → (o : Outside) (w : Worlds Bytes) → silent result self.new w ≡ rules.found_in (setting_of self.old o) (expression_of expr.now) (control.At to) from (stack_of self.old) self.old.copy (memory_of self.old) w }
        ensures others { self.new ≡ record self.old { stack = self.new.stack; focus = self.new.focus } }
        ensures quiet { is_quiet result ≡ true }
        ensures room { vec_capacity self.old.stack ≤ vec_capacity self.new.stack }
    {
        match expr {
            TExpr::StructAssign { size, .. } => {
                let left = *size;
                let focus = Focus::CopyRead { to, from, left };
                self.go_waiting(focus, Pending::In(expr, Got::Copies))
            }
            _ => Outcome::Lost,
        }
    }

    // An expression takes a place.
    fn found_in(&mut self, expr: &'a TExpr, got: Got, spot: Spot) -> Outcome
        ensures tells { HasRoom 1 self.old → (o : Outside) (w : Worlds Bytes) → silent result self.new w ≡ rules.found_in (setting_of self.old o) (expression_of expr.now) (got_in (expression_of expr.now) got (values_on (waiting self.old))) spot (frames_behind (interrupted_in self.old) (has_values got) (waiting self.old)) self.old.copy (memory_of self.old) w }
        ensures others { self.new ≡ record self.old { stack = self.new.stack; focus = self.new.focus } }
        ensures quiet { is_quiet result ≡ true }
        ensures room { vec_capacity self.old.stack ≤ vec_capacity self.new.stack }
    {
        match got {
            Got::Nothing => self.found_first(expr, spot),
            Got::At(to) => self.found_second(expr, to, spot),
            _ => Outcome::Lost,
        }
    }

    // A member, so many bytes behind the start of its structure.
    #[tactic(auto, using(crate::proofs::Places::members))]
    fn found_to(&mut self, place: &'a TPlace, spot: Spot) -> Outcome
        ensures tells { (o : Outside) (w : Worlds Bytes) → silent result self.new w ≡ rules.found_to (setting_of self.old o) (place_of place.now) spot (stack_of self.old) self.old.copy (memory_of self.old) w }
        ensures others { self.new ≡ record self.old { stack = self.new.stack; focus = self.new.focus } }
        ensures quiet { is_quiet result ≡ true }
        ensures room { vec_capacity self.old.stack ≤ vec_capacity self.new.stack }
    {
        match place {
            TPlace::Member { offset, line, .. } => match spot {
                Spot::Memory(pointer) => match moved(self.program, pointer, false, *offset) {
                    Some(moved) => self.go(Focus::Found(Spot::Memory(moved))),
                    None => undefined(Undef::Outside, *line),
                },
                Spot::Device(_) | Spot::Bit { .. } => Outcome::Lost,
            },
            TPlace::Name { .. } | TPlace::Bit { .. } | TPlace::Deref { .. } => Outcome::Lost,
        }
    }

    // The structure that the item of this number of a list begins with.
    #[tactic(auto, using(crate::proofs::Items::found_items))]
    fn found_item(&mut self, code: Code<'a>, statement: &'a TStmt, at: usize, from: Spot) -> Outcome
        ensures tells { HasRoom 1 self.old → statement_in code.entry ≡ statement_of statement.now → (o : Outside) (w : Worlds Bytes) → silent result self.new w ≡ rules.found_for (setting_of self.old o) (statement_of statement.now) (stage_in (statement_of statement.now) (stages.AtItem at)) from (stack_of self.old) self.old.copy (memory_of self.old) w }
        ensures others { self.new ≡ record self.old { stack = self.new.stack; focus = self.new.focus } }
        ensures quiet { is_quiet result ≡ true }
        ensures room { vec_capacity self.old.stack ≤ vec_capacity self.new.stack }
    {
        match statement {
            TStmt::InitList { local, items, .. } => match items.get(at) {
                Some(TItem::Struct { offset, size, .. }) => {
                    let to = behind(local_of(self.program, self.copy, *local), *offset);
                    let left = *size;
                    self.go_waiting(
                        Focus::CopyRead { to, from, left },
                        Pending::Doing(code, Stage::Items(at)),
                    )
                }
                Some(TItem::Scalar { .. }) | Some(TItem::Text { .. }) | None => Outcome::Lost,
            },
            _ => Outcome::Lost,
        }
    }

    // A statement takes a place.
    fn found_for(&mut self, code: Code<'a>, stage: Stage, from: Spot) -> Outcome
        ensures tells { HasRoom 1 self.old → (o : Outside) (w : Worlds Bytes) → silent result self.new w ≡ rules.found_for (setting_of self.old o) (statement_in code.entry) (stage_in (statement_in code.entry) stage) from (stack_of self.old) self.old.copy (memory_of self.old) w }
        ensures others { self.new ≡ record self.old { stack = self.new.stack; focus = self.new.focus } }
        ensures quiet { is_quiet result ≡ true }
        ensures room { vec_capacity self.old.stack ≤ vec_capacity self.new.stack }
    {
        let Some(statement) = code.statement() else {
            return Outcome::Lost;
        };
        match stage {
            Stage::AtItem(at) => self.found_item(code, statement, at, from),
            _ => Outcome::Lost,
        }
    }

    /// A place was found: the node that waits takes it.
    #[tactic(auto, using(crate::proofs::Shapes::top_first))]
    pub(crate) fn found(&mut self, spot: Spot) -> Outcome
        ensures tells { (o : Outside) (w : Worlds Bytes) → silent result self.new w ≡ rules.found (setting_of self.old o) spot (stack_of self.old) self.old.copy (memory_of self.old) w }
        ensures others { self.new ≡ record self.old { stack = self.new.stack; focus = self.new.focus } }
        ensures quiet { is_quiet result ≡ true }
        ensures room { vec_capacity self.old.stack ≤ vec_capacity self.new.stack }
    {
        match self.stack.pop() {
            Some(Pending::In(expr, got)) => self.found_in(expr, got, spot),
            Some(Pending::To(place)) => self.found_to(place, spot),
            Some(Pending::Doing(code, stage)) => self.found_for(code, stage, spot),
            Some(Pending::Value(_))
            | Some(Pending::Before(_, _))
            | Some(Pending::Ended)
            | Some(Pending::Returns(_))
            | Some(Pending::Resumes(_))
            | None => Outcome::Lost,
        }
    }
}
