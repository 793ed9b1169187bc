//! How statements begin, and what follows them.

ghost use Rattle.std.specs.Prelude.{ℕ, ◌≡◌, ◌≤◌, ◌<◌, ◌^◌, drop, map, [], ◌∷◌, true, false, option_map};
ghost use Rattle.std.specs.Vec.{vec_len, vec_capacity};
ghost use Rattle.c_typed.specs.Views.{expression_of, statement_of, statements_of, last_arm_of, item_of, program_of};
ghost use Rattle.c_typed.specs.Trees.{Arms, Program};
ghost use Rattle.pic_map.specs.MapContent.{MapContent};
ghost use Rattle.pic_world.specs.World.{World as Worlds, Outside};
ghost use Rattle.src_machine.specs.Branches.{IsIf, HasItems, is_return, returned, resumes};
ghost use Rattle.src_machine.specs.Seen.{waiting, interrupted_in, stack_of, above, memory_of, silent, setting_of, HasRoom};
ghost use Rattle.src_machine.specs.Telling.{Tells, is_quiet, is_idle};
ghost use Rattle.src_memory.specs.Seen.{IsWorld, events_of};
ghost use Rattle.src_memory.specs.Shape.{IsShaped};
ghost use Rattle.src_rules.specs.Accesses.{items as stated_items};
ghost use Rattle.src_rules.specs.Giving as giving;
ghost use Rattle.src_rules.specs.Statements as rules;
ghost use Rattle.src_values.specs.Control as control;
ghost use Rattle.src_values.specs.Memory.{cleared};
ghost use Rattle.src_values.specs.Objects as objects;
ghost use Rattle.src_values.specs.Seen.{datum_of, statement_in, stage_in, arms_from, arms_in};
ghost use Rattle.src_values.specs.declared.control.Pending.TheVariants as frames;
ghost use Rattle.src_values.specs.declared.control.Stage.TheVariants as stages;
ghost use Rattle.src_values.specs.declared.objects.Byte.{Byte as Bytes};
ghost use Rattle.src_values.specs.declared.objects.Object.{Object as AnyObject};

use crate::machine::{Machine, Outcome, undefined};
use c_typed::{LoopForm, TArm, TExpr, TItem, TStmt};
use pic_world::Event;
use src_values::control::{Code, Focus, Got, Pending, Stage};
use src_values::names::local_of;
use src_values::values::truth_of;
use src_values::{CopyOf, Datum, Object, Undef};

impl<'a> Machine<'a> {
    /// A turn of a loop.
    pub(crate) fn turn(&mut self, code: Code<'a>, body: &'a Box<TStmt>) -> Outcome
        ensures tells { HasRoom 1 self.old → (w : Worlds Bytes) → silent result self.new w ≡ rules.turn (statement_in code.entry) (statement_of body.now.value) (stack_of self.old) self.old.copy (memory_of self.old) w }
        ensures others { self.new ≡ record self.old { stack = self.new.stack; focus = self.new.focus } }
        ensures quiet { is_quiet result ≡ true }
        ensures room { vec_capacity self.old.stack ≤ vec_capacity self.new.stack }
    {
        self.go_waiting(
            Focus::Run(Code::Boxed(body)),
            Pending::Doing(code, Stage::Turns),
        )
    }

    /// The condition before a turn. One that is left out holds.
    pub(crate) fn test(
        &mut self,
        code: Code<'a>,
        condition: &'a Option<TExpr>,
        body: &'a Box<TStmt>,
    ) -> Outcome
        ensures tells { HasRoom 1 self.old → (w : Worlds Bytes) → silent result self.new w ≡ rules.test (statement_in code.entry) (option_map expression_of condition.now) (statement_of body.now.value) (stack_of self.old) self.old.copy (memory_of self.old) w }
        ensures others { self.new ≡ record self.old { stack = self.new.stack; focus = self.new.focus } }
        ensures quiet { is_quiet result ≡ true }
        ensures room { vec_capacity self.old.stack ≤ vec_capacity self.new.stack }
    {
        match condition {
            Some(condition) => self.go_waiting(
                Focus::Eval(condition),
                Pending::Doing(code, Stage::Tests),
            ),
            None => self.turn(code, body),
        }
    }

    // What is done before the first condition.
    fn before_first(
        &mut self,
        code: Code<'a>,
        begin: &'a Option<TExpr>,
        condition: &'a Option<TExpr>,
        body: &'a Box<TStmt>,
    ) -> Outcome
        ensures tells { HasRoom 1 self.old → (w : Worlds Bytes) → silent result self.new w ≡ rules.first_of (statement_in code.entry) (option_map expression_of begin.now) (option_map expression_of condition.now) (statement_of body.now.value) (stack_of self.old) self.old.copy (memory_of self.old) w }
        ensures others { self.new ≡ record self.old { stack = self.new.stack; focus = self.new.focus } }
        ensures quiet { is_quiet result ≡ true }
        ensures room { vec_capacity self.old.stack ≤ vec_capacity self.new.stack }
    {
        match begin {
            Some(begin) => {
                self.go_waiting(Focus::Eval(begin), Pending::Doing(code, Stage::Begins))
            }
            None => self.test(code, condition, body),
        }
    }

    // What is done between a turn and the next condition.
    fn after_turn(
        &mut self,
        code: Code<'a>,
        step: &'a Option<TExpr>,
        condition: &'a Option<TExpr>,
        body: &'a Box<TStmt>,
    ) -> Outcome
        ensures tells { HasRoom 1 self.old → (w : Worlds Bytes) → silent result self.new w ≡ rules.next_of (statement_in code.entry) (option_map expression_of step.now) (option_map expression_of condition.now) (statement_of body.now.value) (stack_of self.old) self.old.copy (memory_of self.old) w }
        ensures others { self.new ≡ record self.old { stack = self.new.stack; focus = self.new.focus } }
        ensures quiet { is_quiet result ≡ true }
        ensures room { vec_capacity self.old.stack ≤ vec_capacity self.new.stack }
    {
        match step {
            Some(step) => self.go_waiting(Focus::Eval(step), Pending::Doing(code, Stage::Steps)),
            None => self.test(code, condition, body),
        }
    }

    // The arm of this number of an `if`, or what stands behind its last `else`.
    #[tactic(auto, using(crate::proofs::Chains::arm_begins, crate::proofs::Chains::arms_end_alone, crate::proofs::Chains::arms_end_else))]
    fn arms(
        &mut self,
        code: Code<'a>,
        arms: &'a Vec<TArm>,
        at: usize,
        otherwise: &'a Option<Box<TStmt>>,
    ) -> Outcome
        ensures tells { HasRoom 1 self.old → IsIf (statement_in code.entry) arms.now otherwise.now → (w : Worlds Bytes) → silent result self.new w ≡ rules.arms (statement_in code.entry) (arms_from at (arms_in (statement_in code.entry))) (last_arm_of otherwise.now) (stack_of self.old) self.old.copy (memory_of self.old) w }
        ensures others { self.new ≡ record self.old { stack = self.new.stack; focus = self.new.focus } }
        ensures quiet { is_quiet result ≡ true }
        ensures room { vec_capacity self.old.stack ≤ vec_capacity self.new.stack }
    {
        match arms.get(at) {
            Some(arm) => self.go_waiting(
                Focus::Eval(&arm.condition),
                Pending::Doing(code, Stage::Picks(at)),
            ),
            None => match otherwise {
                Some(last) => self.go_waiting(
                    Focus::Run(Code::Boxed(last)),
                    Pending::Doing(code, Stage::InArm(at)),
                ),
                None => self.go(Focus::Past),
            },
        }
    }

    /// The condition of the arm of this number has this value.
    #[tactic(auto, using(crate::proofs::Chains::picked_true, crate::proofs::Chains::picked_false, crate::proofs::Chains::picked_unset, crate::proofs::Chains::picked_none))]
    pub(crate) fn picks(
        &mut self,
        code: Code<'a>,
        arms: &'a Vec<TArm>,
        at: usize,
        otherwise: &'a Option<Box<TStmt>>,
        value: Datum,
    ) -> Outcome
        ensures tells { HasRoom 1 self.old → IsIf (statement_in code.entry) arms.now otherwise.now → (o : Outside) (w : Worlds Bytes) → silent result self.new w ≡ giving.take_for (setting_of self.old o) (statement_in code.entry) (stage_in (statement_in code.entry) (stages.Picks at)) (datum_of value) (stack_of self.old) self.old.copy (memory_of self.old) w }
        ensures others { self.new ≡ record self.old { stack = self.new.stack; focus = self.new.focus } }
        ensures quiet { is_quiet result ≡ true }
        ensures room { vec_capacity self.old.stack ≤ vec_capacity self.new.stack }
    {
        let Some(arm) = arms.get(at) else {
            return Outcome::Lost;
        };
        let next = at + 1;
        match truth_of(value) {
            Some(true) => self.go_waiting(
                Focus::Run(Code::InArm(arms, at)),
                Pending::Doing(code, Stage::InArm(next)),
            ),
            Some(false) => self.arms(code, arms, next, otherwise),
            None => undefined(Undef::Unset, arm.line),
        }
    }

    // To behind the nearest loop or switch.
    #[tactic(auto, using(crate::proofs::Stages::breaks_no_part))]
    fn break_off(&mut self) -> Outcome
        ensures tells { (w : Worlds Bytes) → silent result self.new w ≡ rules.break_at (stack_of self.old) self.old.copy (memory_of self.old) w }
        ensures others { self.new ≡ record self.old { stack = self.new.stack; focus = self.new.focus } }
        ensures quiet { is_quiet result ≡ true }
        ensures room { vec_capacity self.old.stack ≤ vec_capacity self.new.stack }
    {
        while let Some(top) = self.take_off() {
            match top {
                Pending::Doing(_, stage) => match stage {
                    Stage::Turns => return self.go(Focus::Past),
                    Stage::InArm(_) => {}
                    _ => return Outcome::Lost,
                },
                Pending::Before(_, _) | Pending::Ended => {}
                _ => return Outcome::Lost,
            }
        }
        Outcome::Lost
    }

    // To behind the body of the nearest loop.
    #[tactic(auto, using(crate::proofs::Stages::continues_no_part, crate::proofs::Stages::continues_in_arm, crate::proofs::Stages::continues_loop, crate::proofs::Stages::continues_switch, crate::proofs::Stages::continues_neither))]
    fn go_on(&mut self) -> Outcome
        ensures tells { HasRoom 0 self.old → (w : Worlds Bytes) → silent result self.new w ≡ rules.continue_at (stack_of self.old) self.old.copy (memory_of self.old) w }
        ensures others { self.new ≡ record self.old { stack = self.new.stack; focus = self.new.focus } }
        ensures quiet { is_quiet result ≡ true }
        ensures room { vec_capacity self.old.stack ≤ vec_capacity self.new.stack }
    {
        while let Some(top) = self.take_off() {
            match top {
                Pending::Doing(code, stage) => match stage {
                    Stage::Turns => {
                        if code.is_loop() {
                            return self.go_waiting(Focus::Past, Pending::Doing(code, Stage::Turns));
                        }
                        if !code.is_switch() {
                            return Outcome::Lost;
                        }
                    }
                    Stage::InArm(_) => {}
                    _ => return Outcome::Lost,
                },
                Pending::Before(_, _) | Pending::Ended => {}
                _ => return Outcome::Lost,
            }
        }
        Outcome::Lost
    }

    /// Takes off what waits in the function.
    #[tactic(auto, using(crate::proofs::Stages::unwinds_no_part))]
    pub(crate) fn unwind(&mut self)
        ensures stack { HasRoom 0 self.old → stack_of self.new ≡ rules.unwound (stack_of self.old) }
        ensures others { self.new ≡ record self.old { stack = self.new.stack } }
        ensures len { vec_len self.new.stack ≤ vec_len self.old.stack }
        ensures room { vec_capacity self.old.stack ≤ vec_capacity self.new.stack }
    {
        while let Some(top) = self.take_off() {
            match top {
                Pending::Before(_, _) | Pending::Ended => {}
                Pending::Doing(_, stage) => match stage {
                    Stage::Turns | Stage::InArm(_) => {}
                    _ => {
                        self.wait(top);
                        return;
                    }
                },
                _ => {
                    self.wait(top);
                    return;
                }
            }
        }
    }

    // The statement of this number of some, and then those behind it.
    #[tactic(auto, using(crate::proofs::Chains::next_statement, crate::proofs::Chains::no_statement))]
    fn statements(&mut self, statements: &'a Vec<TStmt>, at: usize) -> Outcome
        ensures tells { HasRoom 1 self.old → (w : Worlds Bytes) → silent result self.new w ≡ rules.proceed (control.Before (statements_of (map statement_of (drop at statements.now.items))) ∷ stack_of self.old) self.old.copy (memory_of self.old) w }
        ensures others { self.new ≡ record self.old { stack = self.new.stack; focus = self.new.focus } }
        ensures quiet { is_quiet result ≡ true }
        ensures room { vec_capacity self.old.stack ≤ vec_capacity self.new.stack }
    {
        if at < statements.len() {
            self.go_waiting(
                Focus::Run(Code::Listed(statements, at)),
                Pending::Before(statements, at + 1),
            )
        } else {
            self.go(Focus::Past)
        }
    }

    // The body of a loop or of a switch has ended.
    #[tactic(auto, using(crate::proofs::Turns::turns, crate::proofs::OtherStatements::turns_lost))]
    fn turned(&mut self, code: Code<'a>) -> Outcome
        ensures tells { HasRoom 1 self.old → (w : Worlds Bytes) → silent result self.new w ≡ rules.turned (statement_in code.entry) control.Turns (stack_of self.old) self.old.copy (memory_of self.old) w }
        ensures others { self.new ≡ record self.old { stack = self.new.stack; focus = self.new.focus } }
        ensures quiet { is_quiet result ≡ true }
        ensures room { vec_capacity self.old.stack ≤ vec_capacity self.new.stack }
    {
        let Some(statement) = code.statement() else {
            return Outcome::Lost;
        };
        match statement {
            TStmt::Loop {
                condition,
                step,
                body,
                ..
            } => self.after_turn(code, step, condition, body),
            TStmt::Switch { .. } => self.go(Focus::Past),
            _ => Outcome::Lost,
        }
    }

    // The statement of an arm has ended.
    #[tactic(auto, using(crate::proofs::Turns::arms_end, crate::proofs::OtherStatements::arm_ends_lost))]
    fn armed(&mut self, code: Code<'a>) -> Outcome
        ensures tells { (others : Arms) (w : Worlds Bytes) → silent result self.new w ≡ rules.turned (statement_in code.entry) (control.InArm others) (stack_of self.old) self.old.copy (memory_of self.old) w }
        ensures others { self.new ≡ record self.old { stack = self.new.stack; focus = self.new.focus } }
        ensures quiet { is_quiet result ≡ true }
        ensures room { vec_capacity self.old.stack ≤ vec_capacity self.new.stack }
    {
        let Some(statement) = code.statement() else {
            return Outcome::Lost;
        };
        match statement {
            TStmt::If { .. } => self.go(Focus::Past),
            _ => Outcome::Lost,
        }
    }

    // A part of a statement has ended.
    #[tactic(auto, using(crate::proofs::Stages::ends_no_part))]
    fn ended(&mut self, code: Code<'a>, stage: Stage) -> Outcome
        ensures tells { HasRoom 1 self.old → (w : Worlds Bytes) → silent result self.new w ≡ rules.turned (statement_in code.entry) (stage_in (statement_in code.entry) stage) (stack_of self.old) self.old.copy (memory_of self.old) w }
        ensures others { self.new ≡ record self.old { stack = self.new.stack; focus = self.new.focus } }
        ensures quiet { is_quiet result ≡ true }
        ensures room { vec_capacity self.old.stack ≤ vec_capacity self.new.stack }
    {
        match stage {
            Stage::Turns => self.turned(code),
            Stage::InArm(_) => self.armed(code),
            Stage::Tests
            | Stage::Begins
            | Stage::Steps
            | Stage::Picks(_)
            | Stage::Chooses
            | Stage::Fills
            | Stage::AtItem(_)
            | Stage::Items(_)
            | Stage::Blanks => Outcome::Lost,
        }
    }

    // Main ends with an event.
    fn ends(&mut self) -> Outcome
        ensures tells { waiting self.old ≡ [] → (o : Outside) (a : AnyObject → ℕ) (w : Worlds Bytes) → IsWorld o self.old.world w → events_of self.old.world < 2 ^ 60 → Tells o a result self.new (rules.proceed (stack_of self.old) self.old.copy (memory_of self.old) w) }
        ensures others { self.new ≡ record self.old { focus = self.new.focus; world = self.new.world } }
        ensures steps { is_idle result ≡ false }
    {
        self.world.note();
        self.focus = Focus::Over;
        Outcome::Went(Some(Event::End))
    }

    // What waited on top goes on behind the end of a statement.
    fn past(&mut self, top: Pending<'a>) -> Outcome
        ensures tells { HasRoom 1 self.old → resumes top.entry ≡ false → (w : Worlds Bytes) → silent result self.new w ≡ rules.proceed (above self.old top.entry) self.old.copy (memory_of self.old) w }
        ensures others { self.new ≡ record self.old { stack = self.new.stack; focus = self.new.focus } }
        ensures quiet { is_quiet result ≡ true }
        ensures room { vec_capacity self.old.stack ≤ vec_capacity self.new.stack }
    {
        match top {
            Pending::Before(statements, at) => self.statements(statements, at),
            Pending::Ended => self.go(Focus::Past),
            Pending::Doing(code, stage) => self.ended(code, stage),
            Pending::Returns(copy) => self.go_waiting(
                Focus::Leaves(Datum::Missing),
                Pending::Returns(copy),
            ),
            Pending::In(_, _) | Pending::Value(_) | Pending::To(_) | Pending::Resumes(_) => {
                Outcome::Lost
            }
        }
    }

    /// The end of a statement. Main ends with an event; a function ends without a value; after the handler
    /// what it interrupted goes on.
    #[tactic(auto, using(crate::proofs::Tellings::quiet_steps, crate::proofs::Tellings::tells_silent))]
    pub(crate) fn proceed(&mut self) -> Outcome
        ensures tells { HasRoom 0 self.old → (o : Outside) (a : AnyObject → ℕ) (w : Worlds Bytes) → IsWorld o self.old.world w → events_of self.old.world < 2 ^ 60 → Tells o a result self.new (rules.proceed (stack_of self.old) self.old.copy (memory_of self.old) w) }
        ensures others { self.new ≡ record self.old { stack = self.new.stack; focus = self.new.focus; copy = self.new.copy; world = self.new.world } }
        ensures room { vec_capacity self.old.stack ≤ vec_capacity self.new.stack }
        ensures steps { is_idle result ≡ false }
    {
        let Some(top) = self.take_off() else {
            return self.ends();
        };
        match top {
            Pending::Resumes(copy) => self.resume(copy),
            Pending::Before(_, _)
            | Pending::Ended
            | Pending::Doing(_, _)
            | Pending::Returns(_)
            | Pending::In(_, _)
            | Pending::Value(_)
            | Pending::To(_) => self.past(top),
        }
    }

    // A call has its value, and its caller goes on.
    #[tactic(auto, using(crate::proofs::Calls::hands))]
    fn handed_to(&mut self, expr: &'a TExpr, got: Got, value: Datum, caller: CopyOf) -> Outcome
        ensures tells { (w : Worlds Bytes) → silent result self.new w ≡ rules.handed (datum_of value) caller (above self.old (frames.In expr.entry got)) (memory_of self.old) w }
        ensures others { self.new ≡ record self.old { stack = self.new.stack; focus = self.new.focus; copy = self.new.copy } }
        ensures quiet { is_quiet result ≡ true }
        ensures room { vec_capacity self.old.stack ≤ vec_capacity self.new.stack }
    {
        match got {
            Got::Called => match expr {
                TExpr::Call { .. } => {
                    self.copy = caller;
                    self.go(Focus::Holds(value))
                }
                _ => Outcome::Lost,
            },
            _ => Outcome::Lost,
        }
    }

    // What waits on top takes the value of its call.
    fn handed(&mut self, value: Datum, caller: CopyOf) -> Outcome
        ensures tells { (w : Worlds Bytes) → silent result self.new w ≡ rules.handed (datum_of value) caller (stack_of self.old) (memory_of self.old) w }
        ensures others { self.new ≡ record self.old { stack = self.new.stack; focus = self.new.focus; copy = self.new.copy } }
        ensures quiet { is_quiet result ≡ true }
        ensures room { vec_capacity self.old.stack ≤ vec_capacity self.new.stack }
    {
        let Some(top) = self.take_off() else {
            return Outcome::Lost;
        };
        match top {
            Pending::In(expr, got) => self.handed_to(expr, got, value, caller),
            _ => Outcome::Lost,
        }
    }

    /// A function is left with a value.
    pub(crate) fn leave(&mut self, value: Datum) -> Outcome
        ensures tells { (w : Worlds Bytes) → silent result self.new w ≡ rules.leave (datum_of value) (stack_of self.old) (memory_of self.old) w }
        ensures others { self.new ≡ record self.old { stack = self.new.stack; focus = self.new.focus; copy = self.new.copy } }
        ensures quiet { is_quiet result ≡ true }
        ensures room { vec_capacity self.old.stack ≤ vec_capacity self.new.stack }
    {
        let Some(top) = self.take_off() else {
            return Outcome::Lost;
        };
        match top {
            Pending::Returns(caller) => self.handed(value, caller),
            _ => Outcome::Lost,
        }
    }

    // The declarator of a local: its bytes become unset.
    fn declared(&mut self, local: usize) -> Object
        ensures object { result ≡ objects.local_of (program_of self.old.program.now) self.old.copy local }
        ensures memory { memory_of self.new ≡ cleared (memory_of self.old) (objects.local_of (program_of self.old.program.now) self.old.copy local) }
        ensures shape { (p : Program) (map : MapContent) → IsShaped p map self.old.memory → IsShaped p map self.new.memory }
        ensures others { self.new ≡ record self.old { memory = self.new.memory } }
    {
        let object = local_of(self.program, self.copy, local);
        self.memory.clear(object);
        object
    }

    // A loop begins.
    fn loops(
        &mut self,
        code: Code<'a>,
        form: LoopForm,
        begin: &'a Option<TExpr>,
        condition: &'a Option<TExpr>,
        body: &'a Box<TStmt>,
    ) -> Outcome
        ensures tells { HasRoom 1 self.old → (w : Worlds Bytes) → silent result self.new w ≡ rules.loops form (statement_in code.entry) (option_map expression_of begin.now) (option_map expression_of condition.now) (statement_of body.now.value) (stack_of self.old) self.old.copy (memory_of self.old) w }
        ensures others { self.new ≡ record self.old { stack = self.new.stack; focus = self.new.focus } }
        ensures quiet { is_quiet result ≡ true }
        ensures room { vec_capacity self.old.stack ≤ vec_capacity self.new.stack }
    {
        match form {
            LoopForm::While | LoopForm::For => self.before_first(code, begin, condition, body),
            LoopForm::Do => self.turn(code, body),
        }
    }

    // A function is left.
    #[tactic(auto, using(crate::proofs::Tellings::quiet_steps, crate::proofs::Tellings::tells_silent))]
    fn returns(&mut self, code: Code<'a>, value: &'a Option<TExpr>) -> Outcome
        ensures tells { HasRoom 1 self.old → (o : Outside) (a : AnyObject → ℕ) (w : Worlds Bytes) → IsWorld o self.old.world w → events_of self.old.world < 2 ^ 60 → Tells o a result self.new (returned (statement_in code.entry) (option_map expression_of value.now) (stack_of self.old) self.old.copy (memory_of self.old) w) }
        ensures others { self.new ≡ record self.old { stack = self.new.stack; focus = self.new.focus; copy = self.new.copy; world = self.new.world } }
        ensures room { vec_capacity self.old.stack ≤ vec_capacity self.new.stack }
        ensures steps { is_idle result ≡ false }
    {
        match value {
            Some(value) => self.go_waiting(Focus::Eval(value), Pending::Doing(code, Stage::Tests)),
            None => {
                self.unwind();
                self.proceed()
            }
        }
    }

    // The declarator of a local with a list begins.
    fn listed(&mut self, code: Code<'a>, local: usize, items: &'a Vec<TItem>) -> Outcome
        ensures tells { HasRoom 1 self.old → HasItems (statement_in code.entry) items.now → (o : Outside) (w : Worlds Bytes) → silent result self.new w ≡ stated_items (setting_of self.old o) (statement_in code.entry) (objects.local_of (program_of self.old.program.now) self.old.copy local) (map item_of items.now.items) (stack_of self.old) self.old.copy (cleared (memory_of self.old) (objects.local_of (program_of self.old.program.now) self.old.copy local)) w }
        ensures others { self.new ≡ record self.old { stack = self.new.stack; focus = self.new.focus; memory = self.new.memory } }
        ensures quiet { is_quiet result ≡ true }
        ensures shape { (p : Program) (map : MapContent) → IsShaped p map self.old.memory → IsShaped p map self.new.memory }
        ensures room { vec_capacity self.old.stack ≤ vec_capacity self.new.stack }
    {
        let object = self.declared(local);
        self.items(code, object, items, 0)
    }

    // A statement begins that is no `return`.
    #[tactic(auto, using(crate::proofs::Turns::begins, crate::proofs::Turns::returns, crate::proofs::Turns::is_if, crate::proofs::Turns::has_items))]
    fn starts(&mut self, code: Code<'a>, statement: &'a TStmt) -> Outcome
        ensures tells { HasRoom 1 self.old → (statement_in code.entry) ≡ statement_of statement.now → is_return (statement_in code.entry) ≡ false → (o : Outside) (w : Worlds Bytes) → silent result self.new w ≡ rules.begin (setting_of self.old o) (statement_in code.entry) (stack_of self.old) self.old.copy (memory_of self.old) w }
        ensures others { self.new ≡ record self.old { stack = self.new.stack; focus = self.new.focus; memory = self.new.memory } }
        ensures quiet { is_quiet result ≡ true }
        ensures shape { (p : Program) (map : MapContent) → IsShaped p map self.old.memory → IsShaped p map self.new.memory }
        ensures room { vec_capacity self.old.stack ≤ vec_capacity self.new.stack }
    {
        let here = Pending::Doing(code, Stage::Tests);
        match statement {
            TStmt::Block { statements, .. } => {
                self.go_waiting(Focus::Past, Pending::Before(statements, 0))
            }
            TStmt::Empty { .. } => self.go(Focus::Past),
            TStmt::Expr { value, .. } | TStmt::Switch { value, .. } => {
                self.go_waiting(Focus::Eval(value), here)
            }
            TStmt::Declare { local, .. } => {
                let _ = self.declared(*local);
                self.go(Focus::Past)
            }
            TStmt::InitScalar { local, value, .. } => {
                let _ = self.declared(*local);
                self.go_waiting(Focus::Eval(value), here)
            }
            TStmt::InitList { local, items, .. } => { self.listed(code, *local, items) }
            TStmt::If {
                arms,
                otherwise,
                ..
            } => self.arms(code, arms, 0, otherwise),
            TStmt::Loop {
                form,
                begin,
                condition,
                body,
                ..
            } => self.loops(code, *form, begin, condition, body),
            TStmt::Break { .. } => self.break_off(),
            TStmt::Continue { .. } => self.go_on(),
            TStmt::Return { .. } => Outcome::Lost,
        }
    }

    /// A statement begins.
    #[tactic(auto, using(crate::proofs::Tellings::quiet_steps, crate::proofs::Tellings::tells_silent, crate::proofs::Turns::returns, crate::proofs::Turns::starts_return))]
    pub(crate) fn begin(&mut self, code: Code<'a>) -> Outcome
        ensures tells { HasRoom 1 self.old → (o : Outside) (a : AnyObject → ℕ) (w : Worlds Bytes) → IsWorld o self.old.world w → events_of self.old.world < 2 ^ 60 → Tells o a result self.new (rules.begin (setting_of self.old o) (statement_in code.entry) (stack_of self.old) self.old.copy (memory_of self.old) w) }
        ensures others { self.new ≡ record self.old { stack = self.new.stack; focus = self.new.focus; copy = self.new.copy; memory = self.new.memory; world = self.new.world } }
        ensures shape { (p : Program) (map : MapContent) → IsShaped p map self.old.memory → IsShaped p map self.new.memory }
        ensures room { vec_capacity self.old.stack ≤ vec_capacity self.new.stack }
        ensures steps { is_idle result ≡ false }
    {
        let Some(statement) = code.statement() else {
            return self.go(Focus::Past);
        };
        match statement {
            TStmt::Return { value, .. } => self.returns(code, value),
            TStmt::Block { .. }
            | TStmt::Empty { .. }
            | TStmt::Expr { .. }
            | TStmt::Declare { .. }
            | TStmt::InitScalar { .. }
            | TStmt::InitList { .. }
            | TStmt::If { .. }
            | TStmt::Loop { .. }
            | TStmt::Switch { .. }
            | TStmt::Break { .. }
            | TStmt::Continue { .. } => self.starts(code, statement),
        }
    }
}
