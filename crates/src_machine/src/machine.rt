//! The source machine: its state, and its micro-steps.

ghost use Rattle.std.specs.Prelude.{ℕ, ◌≡◌, ◌∷◌, ◌≤◌, ◌+◌, IfOk, IfSome, IfNone, length, [], true, false, drop, take, reverse, slice_get};
ghost use Rattle.std.specs.Vec.{vec_len, vec_capacity};
ghost use Rattle.c_typed.specs.Trees.{Program};
ghost use Rattle.c_typed.specs.Views.{program_of, expression_of};
ghost use Rattle.pic_map.specs.MapContent.{MapContent};
ghost use Rattle.pic_world.specs.World.{World as Worlds, Outside, left, entered};
ghost use Rattle.src_machine.specs.Seen.{waiting, interrupted_in, stack_of, above, memory_of, state_in, silent, HasRoom};
ghost use Rattle.src_machine.specs.Stepping.{CanStep, TellsStep, taker_at};
ghost use Rattle.src_machine.specs.Steps.{CanGo, IsGiven, TellsTake, went_if};
ghost use Rattle.src_machine.specs.Copied.{IsCopyOf};
ghost use Rattle.src_machine.specs.Sources.{BeginsAt};
ghost use Rattle.pic_map.specs.MapView.{content_of};
ghost use Rattle.src_values.specs.Objects.{main_of};
ghost use Rattle.src_machine.specs.Telling.{Tells, with_taken, is_quiet, is_idle, is_interrupted};
ghost use Rattle.src_memory.specs.Seen.{IsWorld, outside_by};
ghost use Rattle.src_memory.specs.Shape.{IsShaped};
ghost use Rattle.src_memory.specs.Shown.{address_of};
ghost use Rattle.src_rules.specs.Accesses.{goes};
ghost use Rattle.src_rules.specs.State as rules;
ghost use Rattle.src_machine.specs.Passing.{values_among, value_in, are_values, missing_in, given, called, FitFrom, FitAt, FitCall};
ghost use Rattle.src_rules.specs.Step.{body_of, copy_of, act, call, call_in, enter, refused, with_values, has_missing};
ghost use Rattle.src_values.specs.Counting.{counted_line as stated_line};
ghost use Rattle.src_values.specs.Memory.{fresh, Setting};
ghost use Rattle.src_values.specs.Seen.{focus_in, got_in, has_values, values_on, frames_behind};
ghost use Rattle.src_values.specs.Control as control;
ghost use Rattle.src_values.specs.declared.objects.Byte.{Byte as Bytes};
ghost use Rattle.src_machine.specs.declared.machine.Machine.{Machine as AnyMachine};
ghost use Rattle.src_values.specs.declared.objects.Object.{Object as AnyObject};

use c_typed::{TExpr, Typed};
use pic_map::Map;
use pic_world::{Event, Root, Script};
use source_room::room_for;
use src_memory::{Memory, World};
use src_values::control::{Focus, Got, Pending};
use src_values::counting::counted_line;
use src_values::names::{handler_in, main_in};
use src_values::{CopyOf, Datum, Object, Undef};
use std::alloc::{AllocError, Global};

/// How a step ended: it was taken, with the event that it made if it made one; it is undefined, for
/// this reason and at this line; or there is none to take, since main has ended, no handler runs and
/// none is due.
#[derive(Clone, Copy, PartialEq, Eq)]
pub enum SrcEnd {
    Went(Option<Event>),
    Undefined { kind: Undef, line: u32 },
    Idle,
}

/// How a micro-step ended. `Lost` is that of a state for which no rule is there; no run of a program comes to one.
#[derive(Clone, Copy)]
pub(crate) enum Outcome {
    Went(Option<Event>),
    Undefined { kind: Undef, line: u32 },
    Idle,
    Lost,
}

/// What takes a step: main or a function that it calls, the handler or a function that it calls, or the
/// interrupt by which the handler is entered.
#[derive(Clone, Copy)]
pub(crate) enum Taker {
    Main,
    Handler,
    Interrupt,
}

/// A program and where its run stands. What is to be done is a focus and a stack of what waits for it, the
/// innermost at the end.
#[derive(Drop)]
pub(crate) struct Machine<'a> {
    pub program: &'a Typed,
    pub copy: CopyOf,
    pub focus: Focus<'a>,
    // the focus that the handler interrupted
    pub interrupted: Focus<'a>,
    pub stack: Vec<Pending<'a>>,
    pub memory: Memory,
    pub world: World,
    handler: Option<usize>,
}

// The number of main.
fn main_or_first(program: &Typed) -> usize
    ensures { result ≡ main_of (program_of program.now) }
{
    match main_in(program) {
        Some(main) => main,
        None => 0,
    }
}

impl<'a> Machine<'a> {
    /// A program before its first step, with all the room that its run needs.
    pub fn new(alloc: Global, program: &'a Typed, map: &'a Map) -> Result<Machine<'a>, AllocError>
        ensures begins { IfOk result (λ m. (s : Setting) → s.program ≡ program_of program.now → IsGiven s → length s.program.statics ≤ 65536 → BeginsAt s (content_of map.now) m) }
    {
        let memory = Memory::new(alloc, program, map)?;
        let mut stack = Vec::new(alloc);
        // a micro-step may want three entries more
        stack.try_reserve(room_for(alloc, program)? + 3)?;
        let main = main_or_first(program);
        let mut machine = Machine {
            program,
            copy: CopyOf {
                root: Root::Main,
                function: main,
            },
            focus: Focus::Past,
            interrupted: Focus::Past,
            stack,
            memory,
            world: World::new(),
            handler: handler_in(program),
        };
        machine.begin_body(main);
        Ok(machine)
    }

    /// The same program at the same place, with room of its own.
    pub fn copy(&self) -> Result<Machine<'a>, AllocError>
        ensures copies { IfOk result (λ m. IsCopyOf self.now m) }
    {
        let mut stack = self.stack.clone()?;
        stack.try_reserve(self.stack.capacity() - self.stack.len())?;
        Ok(Machine {
            program: self.program,
            copy: self.copy,
            focus: self.focus,
            interrupted: self.interrupted,
            stack,
            memory: self.memory.clone()?,
            world: self.world,
            handler: self.handler,
        })
    }

    /// Micro-steps up to one that counts as a step, and what took it. Less is left to do after each of the others, and at the first
    /// less than the loop has turns.
    pub fn step(&mut self, script: &Script) -> (Taker, SrcEnd)
        ensures { (s : Setting) (map : MapContent) (w : Worlds Bytes) → s.outside ≡ outside_by script.now → CanGo s map self.old w → TellsTake s map (state_in self.old w) result.0 result.1 self.old self.new }
    {
        for _done in 0..u128::MAX {
            let (taker, counts, outcome) = self.micro_step(script);
            match end_of(counts, outcome) {
                Some(end) => return (taker, end),
                None => {}
            }
        }
        (Taker::Main, SrcEnd::Idle)
    }

    // A micro-step, what took it, and whether it counts as a step. Arrivals come first, then the handler if
    // it is due.
    fn micro_step(&mut self, script: &Script) -> (Taker, bool, Outcome)
        ensures tells { (s : Setting) (map : MapContent) (w : Worlds Bytes) → s.outside ≡ outside_by script.now → CanStep s map self.old w → TellsStep s map (state_in self.old w) result.0 result.1 result.2 self.old self.new }
    {
        self.world.arrive(script);
        if !self.world.is_due() {
            let (taker, line, outcome) = self.act_counted(script);
            return (taker, line.is_some(), outcome);
        }
        match self.handler {
            Some(handler) => (Taker::Interrupt, true, self.enter(handler)),
            None => {
                let (taker, line, outcome) = self.act_counted(script);
                (taker, line.is_some(), refused(line, outcome))
            }
        }
    }

    // The micro-step of the focus, what takes it, and the line of the step that it is, if it counts as one.
    fn act_counted(&mut self, script: &Script) -> (Taker, Option<u32>, Outcome)
        ensures taker { result.0 ≡ taker_at false self.old.copy.root }
        ensures line { result.1 ≡ stated_line (program_of self.old.program.now) self.old.copy (focus_in self.old.focus) (stack_of self.old) }
        ensures tells { (s : Setting) (map : MapContent) (w : Worlds Bytes) → s.outside ≡ outside_by script.now → CanStep s map self.old w → Tells s.outside (address_of s.program map) result.2 self.new (act s (focus_in self.old.focus) (stack_of self.old) self.old.copy (memory_of self.old) w) }
        ensures others { self.new ≡ record self.old { copy = self.new.copy; focus = self.new.focus; stack = self.new.stack; memory = self.new.memory; world = self.new.world } }
        ensures shape { (p : Program) (map : MapContent) → IsShaped p map self.old.memory → IsShaped p map self.new.memory }
        ensures room { vec_capacity self.old.stack ≤ vec_capacity self.new.stack }
        ensures rests { is_idle result.2 ≡ true → self.new ≡ self.old }
    {
        let taker = taker_in(self.copy.root);
        let line = counted_line(self.program, self.copy, self.focus, self.top());
        (taker, line, self.act(script))
    }

    // The micro-step that the focus says.
    fn act(&mut self, script: &Script) -> Outcome
        ensures tells { (s : Setting) (map : MapContent) (w : Worlds Bytes) → s.outside ≡ outside_by script.now → CanStep s map self.old w → Tells s.outside (address_of s.program map) result self.new (act s (focus_in self.old.focus) (stack_of self.old) self.old.copy (memory_of self.old) w) }
        ensures others { self.new ≡ record self.old { copy = self.new.copy; focus = self.new.focus; stack = self.new.stack; memory = self.new.memory; world = self.new.world } }
        ensures shape { (p : Program) (map : MapContent) → IsShaped p map self.old.memory → IsShaped p map self.new.memory }
        ensures room { vec_capacity self.old.stack ≤ vec_capacity self.new.stack }
        ensures rests { is_idle result ≡ true → self.new ≡ self.old }
    {
        match self.focus {
            Focus::Eval(expr) => self.eval(expr),
            Focus::Find(place) => self.find(place),
            Focus::Holds(value) => self.give(value),
            Focus::Found(spot) => self.found(spot),
            Focus::Run(code) => self.begin(code),
            Focus::Past => self.proceed(),
            Focus::Fetch { spot, read } => self.fetch(spot, read, script),
            Focus::Skim { spot, left, .. } => self.skim(spot, left, script),
            Focus::Write { spot, value, at } => self.write(spot, value, at, script),
            Focus::PutBit {
                register,
                bit,
                value,
                old,
            } => self.put_bit(register, bit, value, old),
            Focus::CopyRead { to, from, left } => self.copy_read(to, from, left, script),
            Focus::CopyWrite {
                to,
                from,
                byte,
                left,
            } => self.copy_write(to, from, byte, left),
            Focus::Spell { spot, text, left } => self.spell(spot, text, left),
            Focus::Blank { at, end } => self.blank(at, end),
            Focus::Calls => self.call(),
            Focus::Leaves(value) => self.leave(value),
            Focus::Compares { value, cases, next } => self.compares(value, cases, next),
            Focus::Over => Outcome::Idle,
        }
    }

    // The handler is called whole: what it interrupts waits below it.
    #[tactic(auto, using(crate::proofs::Tops::uninterrupted))]
    fn enter(&mut self, handler: usize) -> Outcome
        ensures tells { HasRoom 2 self.old → is_interrupted (waiting self.old) ≡ false → (o : Outside) (a : AnyObject → ℕ) (w : Worlds Bytes) → IsWorld o self.old.world w → Tells o a result self.new (enter (program_of self.old.program.now) handler (focus_in self.old.focus) (stack_of self.old) self.old.copy (memory_of self.old) w) }
        ensures shape { (p : Program) (map : MapContent) → IsShaped p map self.old.memory → IsShaped p map self.new.memory }
        ensures others { self.new ≡ record self.old { copy = self.new.copy; focus = self.new.focus; interrupted = self.new.interrupted; stack = self.new.stack; memory = self.new.memory; world = self.new.world } }
        ensures room { vec_capacity self.old.stack ≤ vec_capacity self.new.stack }
    {
        self.world.enter();
        self.interrupted = self.focus;
        self.wait(Pending::Resumes(self.copy));
        self.enter_copy(Root::Isr, handler);
        self.focus = Focus::Past;
        Outcome::Went(None)
    }

    /// What the handler interrupted goes on.
    pub fn resume(&mut self, copy: CopyOf) -> Outcome
        ensures tells { (o : Outside) (a : AnyObject → ℕ) (w : Worlds Bytes) → IsWorld o self.old.world w → Tells o a result self.new (goes copy (interrupted_in self.old) (stack_of self.old) (memory_of self.old) (left w)) }
        ensures others { self.new ≡ record self.old { world = self.new.world; copy = copy; focus = self.old.interrupted } }
        ensures quiet { is_quiet result ≡ true }
    {
        self.world.leave();
        self.copy = copy;
        self.focus = self.interrupted;
        Outcome::Went(None)
    }

    // A function's body begins, with all variables of the copy unset.
    fn enter_copy(&mut self, root: Root, function: usize)
        ensures waits { HasRoom 1 self.old → stack_of self.new ≡ body_of (program_of self.old.program.now) function (stack_of self.old) }
        ensures copy { self.new.copy ≡ copy_of root function }
        ensures memory { memory_of self.new ≡ fresh (memory_of self.old) (copy_of root function) }
        ensures shape { (p : Program) (map : MapContent) → IsShaped p map self.old.memory → IsShaped p map self.new.memory }
        ensures others { self.new ≡ record self.old { copy = self.new.copy; memory = self.new.memory; stack = self.new.stack } }
        ensures room { vec_capacity self.old.stack ≤ vec_capacity self.new.stack }
    {
        self.copy = CopyOf { root, function };
        self.memory.clear_copy(self.copy);
        self.begin_body(function);
    }

    // The statements of a function's body wait.
    fn begin_body(&mut self, function: usize)
        ensures waits { HasRoom 1 self.old → stack_of self.new ≡ body_of (program_of self.old.program.now) function (stack_of self.old) }
        ensures others { self.new ≡ record self.old { stack = self.new.stack } }
        ensures room { vec_capacity self.old.stack ≤ vec_capacity self.new.stack }
        ensures len { vec_len self.new.stack ≤ vec_len self.old.stack + 1 }
    {
        let program = self.program;
        match program.functions.get(function) {
            Some(found) => self.wait(Pending::Before(&found.body, 0)),
            None => self.wait(Pending::Ended),
        }
    }

    // All arguments have their values: the function is called.
    fn call_for(&mut self, expr: &'a TExpr, got: Got) -> Outcome
        ensures tells { HasRoom 3 self.old → (map : MapContent) (w : Worlds Bytes) → IsShaped (program_of self.old.program.now) map self.old.memory → FitCall (program_of self.old.program.now) self.old.copy (control.In (expression_of expr.now) (got_in (expression_of expr.now) got (values_on (waiting self.old))) ∷ frames_behind (interrupted_in self.old) (has_values got) (waiting self.old)) → silent result self.new w ≡ call_in (program_of self.old.program.now) (expression_of expr.now) (got_in (expression_of expr.now) got (values_on (waiting self.old))) (frames_behind (interrupted_in self.old) (has_values got) (waiting self.old)) self.old.copy (memory_of self.old) w }
        ensures shape { (p : Program) (map : MapContent) → IsShaped p map self.old.memory → IsShaped p map self.new.memory }
        ensures others { self.new ≡ record self.old { copy = self.new.copy; memory = self.new.memory; stack = self.new.stack; focus = self.new.focus } }
        ensures quiet { is_quiet result ≡ true }
        ensures room { vec_capacity self.old.stack ≤ vec_capacity self.new.stack }
    {
        match got {
            Got::Passed => match expr {
                TExpr::Call { function, line, .. } => {
                    self.call_with(expr, *function as usize, *line)
                }
                _ => Outcome::Lost,
            },
            _ => Outcome::Lost,
        }
    }

    /// What waits on top is called.
    pub(crate) fn call(&mut self) -> Outcome
        ensures tells { HasRoom 2 self.old → (map : MapContent) (w : Worlds Bytes) → IsShaped (program_of self.old.program.now) map self.old.memory → FitCall (program_of self.old.program.now) self.old.copy (stack_of self.old) → silent result self.new w ≡ call (program_of self.old.program.now) (stack_of self.old) self.old.copy (memory_of self.old) w }
        ensures shape { (p : Program) (map : MapContent) → IsShaped p map self.old.memory → IsShaped p map self.new.memory }
        ensures others { self.new ≡ record self.old { copy = self.new.copy; memory = self.new.memory; stack = self.new.stack; focus = self.new.focus } }
        ensures quiet { is_quiet result ≡ true }
        ensures room { vec_capacity self.old.stack ≤ vec_capacity self.new.stack }
    {
        let Some(top) = self.take_off() else {
            return Outcome::Lost;
        };
        match top {
            Pending::In(expr, got) => self.call_for(expr, got),
            _ => Outcome::Lost,
        }
    }

    // A call gives the parameters their values, and all other variables of the copy none.
    #[tactic(auto, using(crate::proofs::Passing::call_goes, crate::proofs::Passing::values_split))]
    fn call_with(&mut self, expr: &'a TExpr, function: usize, line: u32) -> Outcome
        ensures tells { HasRoom 3 self.old → (map : MapContent) (w : Worlds Bytes) → IsShaped (program_of self.old.program.now) map self.old.memory → FitFrom (program_of self.old.program.now) (copy_of self.old.copy.root function) 0 (values_on (waiting self.old)) → silent result self.new w ≡ called (program_of self.old.program.now) (expression_of expr.now) function line (values_on (waiting self.old)) (frames_behind (interrupted_in self.old) true (waiting self.old)) self.old.copy (memory_of self.old) w }
        ensures shape { (p : Program) (map : MapContent) → IsShaped p map self.old.memory → IsShaped p map self.new.memory }
        ensures others { self.new ≡ record self.old { copy = self.new.copy; memory = self.new.memory; stack = self.new.stack; focus = self.new.focus } }
        ensures quiet { is_quiet result ≡ true }
        ensures room { vec_capacity self.old.stack ≤ vec_capacity self.new.stack }
    {
        let first = self.first_value();
        if self.has_missing(first) {
            return undefined(Undef::Unset, line);
        }
        let callee = CopyOf {
            root: self.copy.root,
            function,
        };
        self.pass(callee, first);
        self.begin_call(expr, function)
    }

    // The body of the function that is called begins.
    fn begin_call(&mut self, expr: &'a TExpr, function: usize) -> Outcome
        ensures tells { HasRoom 3 self.old → (w : Worlds Bytes) → silent result self.new w ≡ goes (copy_of self.old.copy.root function) control.Past (body_of (program_of self.old.program.now) function (control.Returns self.old.copy ∷ control.In (expression_of expr.now) control.Called ∷ stack_of self.old)) (memory_of self.old) w }
        ensures others { self.new ≡ record self.old { copy = self.new.copy; stack = self.new.stack; focus = self.new.focus } }
        ensures quiet { is_quiet result ≡ true }
        ensures room { vec_capacity self.old.stack ≤ vec_capacity self.new.stack }
    {
        let caller = self.copy;
        self.wait(Pending::In(expr, Got::Called));
        self.wait(Pending::Returns(caller));
        self.copy = CopyOf {
            root: caller.root,
            function,
        };
        self.begin_body(function);
        self.go(Focus::Past)
    }

    // The variables of a copy get the values from this one on, which go off the stack, and all others none.
    fn pass(&mut self, copy: CopyOf, first: usize)
        ensures memory { (p : Program) (map : MapContent) → IsShaped p map self.old.memory → are_values (drop first self.old.stack.items) ≡ true → FitFrom p copy 0 (values_among (drop first self.old.stack.items)) → memory_of self.new ≡ with_values (fresh (memory_of self.old) copy) copy 0 (values_among (drop first self.old.stack.items)) }
        ensures shape { (p : Program) (map : MapContent) → IsShaped p map self.old.memory → IsShaped p map self.new.memory }
        ensures waits { waiting self.new ≡ reverse (take first self.old.stack.items) }
        ensures len { vec_len self.new.stack ≤ vec_len self.old.stack }
        ensures room { vec_capacity self.new.stack ≡ vec_capacity self.old.stack }
        ensures others { self.new ≡ record self.old { memory = self.new.memory; stack = self.new.stack } }
    {
        self.memory.clear_copy(copy);
        self.give_values(copy, first);
        self.stack.truncate(first);
    }

    // Whether a value stands at this place.
    fn has_value(&self, at: usize) -> bool
        ensures { result ≡ value_in (slice_get self.now.stack.items at) }
    {
        let Some(pending) = self.stack.get(at) else {
            return false;
        };
        match pending {
            Pending::Value(_) => true,
            _ => false,
        }
    }

    // Where the lowest of the values stands that are on top of the stack.
    #[tactic(auto, using(crate::proofs::Passing::values_back, crate::proofs::Passing::none_back, crate::proofs::Passing::values_at_end))]
    fn first_value(&self) -> usize
        ensures all { are_values (drop result self.now.stack.items) ≡ true }
        ensures below { values_on (reverse (take result self.now.stack.items)) ≡ [] }
    {
        let mut first = self.stack.len();
        while 0 < first {
            let before = first - 1;
            if !self.has_value(before) {
                break;
            }
            first = before;
        }
        first
    }

    // What waits at this place becomes the value of a variable, if it is a value.
    fn give_value(&mut self, copy: CopyOf, number: usize, at: usize)
        ensures memory { (p : Program) (map : MapContent) → IsShaped p map self.old.memory → FitAt p copy number (slice_get self.old.stack.items at) → memory_of self.new ≡ given (memory_of self.old) copy number (slice_get self.old.stack.items at) }
        ensures shape { (p : Program) (map : MapContent) → IsShaped p map self.old.memory → IsShaped p map self.new.memory }
        ensures others { self.new ≡ record self.old { memory = self.new.memory } }
    {
        let Some(pending) = self.stack.get(at) else {
            return;
        };
        match pending {
            Pending::Value(value) => {
                let value = *value;
                let variable = Object::Variable {
                    copy,
                    number: number as u128,
                };
                self.memory.put_value(variable, value);
            }
            _ => {}
        }
    }

    // The parameters of a copy get the values from this one on.
    #[tactic(auto, using(crate::proofs::Passing::gives_first, crate::proofs::Passing::gives_step))]
    fn give_values(&mut self, copy: CopyOf, first: usize)
        ensures memory { (p : Program) (map : MapContent) → IsShaped p map self.old.memory → are_values (drop first self.old.stack.items) ≡ true → FitFrom p copy 0 (values_among (drop first self.old.stack.items)) → memory_of self.new ≡ with_values (memory_of self.old) copy 0 (values_among (drop first self.old.stack.items)) }
        ensures shape { (p : Program) (map : MapContent) → IsShaped p map self.old.memory → IsShaped p map self.new.memory }
        ensures others { self.new ≡ record self.old { memory = self.new.memory } }
    {
        let mut number = 0;
        for at in first..self.stack.len() {
            self.give_value(copy, number, at);
            number += 1;
        }
    }

    // Whether a value at this place is missing.
    fn is_missing(&self, at: usize) -> bool
        ensures { result ≡ missing_in (slice_get self.now.stack.items at) }
    {
        let Some(pending) = self.stack.get(at) else {
            return false;
        };
        match pending {
            Pending::Value(value) => match value {
                Datum::Missing => true,
                Datum::Number(_) | Datum::Pointer(_) => false,
            },
            _ => false,
        }
    }

    // Whether a value from this one on is missing.
    #[tactic(auto, using(crate::proofs::Passing::missing_here, crate::proofs::Passing::missing_on, crate::proofs::Passing::missing_nowhere))]
    fn has_missing(&self, first: usize) -> bool
        ensures { result ≡ has_missing (values_among (drop first self.now.stack.items)) }
    {
        for at in first..self.stack.len() {
            if self.is_missing(at) {
                return true;
            }
        }
        false
    }

    /// Something more waits. There is room for it.
    pub(crate) fn wait(&mut self, pending: Pending<'a>)
        ensures waits { HasRoom 1 self.old → waiting self.new ≡ pending.entry ∷ waiting self.old }
        ensures others { self.new ≡ record self.old { stack = self.new.stack } }
        ensures room { vec_capacity self.old.stack ≤ vec_capacity self.new.stack }
        ensures len { vec_len self.new.stack ≤ vec_len self.old.stack + 1 }
    {
        let _ = self.stack.push(pending);
    }

    /// What waits on top goes off.
    #[tactic(auto, using(crate::proofs::Tops::taken, crate::proofs::Tops::taken_none))]
    pub(crate) fn take_off(&mut self) -> Option<Pending<'a>>
        ensures waits { waiting self.old ≡ with_taken result (waiting self.new) }
        ensures others { self.new ≡ record self.old { stack = self.new.stack } }
        ensures len { IfSome result (λ p. vec_len self.new.stack + 1 ≡ vec_len self.old.stack) }
        ensures none { IfNone result (waiting self.new ≡ []) }
        ensures room { vec_capacity self.new.stack ≡ vec_capacity self.old.stack }
    {
        self.stack.pop()
    }

    /// What the next micro-step is about.
    pub(crate) fn go(&mut self, focus: Focus<'a>) -> Outcome
        ensures tells { (w : Worlds Bytes) → silent result self.new w ≡ goes self.old.copy (focus_in focus.entry) (stack_of self.old) (memory_of self.old) w }
        ensures others { self.new ≡ record self.old { focus = focus.entry } }
        ensures quiet { is_quiet result ≡ true }
    {
        self.focus = focus;
        Outcome::Went(None)
    }

    /// What the next micro-step is about, and what waits for it.
    pub(crate) fn go_waiting(&mut self, focus: Focus<'a>, pending: Pending<'a>) -> Outcome
        ensures tells { HasRoom 1 self.old → (w : Worlds Bytes) → silent result self.new w ≡ goes self.old.copy (focus_in focus.entry) (above self.old pending.entry) (memory_of self.old) w }
        ensures others { self.new ≡ record self.old { stack = self.new.stack; focus = self.new.focus } }
        ensures quiet { is_quiet result ≡ true }
        ensures room { vec_capacity self.old.stack ≤ vec_capacity self.new.stack }
    {
        self.wait(pending);
        self.go(focus)
    }
}

/// A step that is undefined.
pub(crate) fn undefined(kind: Undef, line: u32) -> Outcome
    ensures tells { (m : _) (w : Worlds Bytes) → silent result m w ≡ rules.Undefined kind line }
    ensures quiet { is_quiet result ≡ true }
{
    Outcome::Undefined { kind, line }
}

// How a step ends, if it ends with this micro-step.
fn end_of(counts: bool, outcome: Outcome) -> Option<SrcEnd>
    ensures { result ≡ went_if counts outcome }
{
    match outcome {
        Outcome::Went(event) => if counts {
            Some(SrcEnd::Went(event))
        } else {
            None
        },
        Outcome::Undefined { kind, line } => Some(SrcEnd::Undefined { kind, line }),
        Outcome::Idle | Outcome::Lost => Some(SrcEnd::Idle),
    }
}

fn taker_in(root: Root) -> Taker
    ensures { result ≡ taker_at false root }
{
    match root {
        Root::Main => Taker::Main,
        Root::Isr => Taker::Handler,
    }
}

// Without a handler the next step is undefined, if it isn't so for another reason.
#[tactic(auto, using(crate::proofs::Tellings::refuses))]
fn refused(line: Option<u32>, outcome: Outcome) -> Outcome
    ensures tells { (o : Outside) (a : AnyObject → ℕ) (m : AnyMachine) (x : rules.Outcome) → Tells o a outcome m x → Tells o a result m (refused line x) }
    ensures idle { is_idle result ≡ true → is_idle outcome ≡ true }
{
    match outcome {
        Outcome::Undefined { kind, line } => Outcome::Undefined { kind, line },
        Outcome::Lost => Outcome::Lost,
        Outcome::Went(event) => match line {
            Some(line) => Outcome::Undefined {
                kind: Undef::Handler,
                line,
            },
            None => Outcome::Went(event),
        },
        Outcome::Idle => match line {
            Some(line) => Outcome::Undefined {
                kind: Undef::Handler,
                line,
            },
            None => Outcome::Idle,
        },
    }
}
