//! How values are read and written, byte by byte: each byte is a step. The node that a value belongs to waits below,
//! until all bytes are done.

ghost use Rattle.std.specs.Prelude.{◌≡◌, ◌≤◌, ◌<◌, ◌^◌, ◌+◌, ◌-◌, true, false, ℕ, List, drop, Option, Some, None, map};
ghost use Rattle.std.specs.Vec.{vec_capacity};
ghost use Rattle.c_typed.specs.Trees.{Program};
ghost use Rattle.c_typed.specs.Types.{type_bytes};
ghost use Rattle.c_typed.specs.Views.{program_of, item_of, expression_of, statement_of};
ghost use Rattle.pic_map.specs.MapContent.{MapContent};
ghost use Rattle.pic_world.specs.World.{World as Worlds, Outside};
ghost use Rattle.src_machine.specs.Seen.{waiting, active_in, interrupted_in, stack_of, memory_of, calls_from, silent, setting_of, HasRoom, IsAt, IsGoing, only_reads, is_read, IsListOf, is_scalar};
ghost use Rattle.src_machine.specs.Branches.{HasItems};
ghost use Rattle.src_machine.specs.Telling.{Tells, is_quiet, is_idle};
ghost use Rattle.src_machine.specs.declared.machine.Outcome.TheVariants as AnyOutcome;
ghost use Rattle.src_memory.specs.Accessed.{TellsTaking, TellsPutting, is_alive_at, byte_met, fits_by};
ghost use Rattle.src_memory.specs.Seen.{outside_by};
ghost use Rattle.src_memory.specs.Shape.{IsShaped, IsKnown};
ghost use Rattle.src_memory.specs.Shown.{address_of};
ghost use Rattle.src_rules.specs.Accesses as rules;
ghost use Rattle.src_rules.specs.Accesses.{fetching, items as stated_items};
ghost use Rattle.src_values.specs.Accesses as stated;
ghost use Rattle.src_values.specs.Control.{callers, line_at as stated_line, read_type as stated_type};
ghost use Rattle.src_values.specs.Memory.{Setting};
ghost use Rattle.src_values.specs.Objects.{is_alive, is_among};
ghost use Rattle.src_values.specs.Seen.{focus_in, with_top, datum_of, read_of, has_next, statement_in, stage_in, got_in};
ghost use Rattle.src_values.specs.Control as AnyFocus;
ghost use Rattle.src_values.specs.Data.{Datum as AnyDatum};
ghost use Rattle.src_values.specs.Objects as objects;
ghost use Rattle.src_values.specs.Values as values;
ghost use Rattle.src_values.specs.declared.objects.Byte.{Byte as Bytes};
ghost use Rattle.src_values.specs.declared.objects.Object.{Object as AnyObject};
ghost use Rattle.std.specs.Prelude.{drop, map, true};
ghost use Rattle.c_typed.specs.Views.{item_of};
ghost use Rattle.pic_world.specs.World.{World as Worlds, Outside};
ghost use Rattle.src_machine.specs.Branches.{HasItems};
ghost use Rattle.src_machine.specs.Seen.{stack_of, memory_of, silent, setting_of, HasRoom};
ghost use Rattle.src_machine.specs.Telling.{is_quiet};
ghost use Rattle.src_rules.specs.Accesses.{items as stated_items};
ghost use Rattle.src_values.specs.Seen.{statement_in};
ghost use Rattle.src_values.specs.declared.objects.Byte.{Byte as Bytes};

use crate::machine::{Machine, Outcome, undefined};
use c_typed::{TExpr, TItem, TStmt, Ty};
use pic_world::{Event, Script};
use src_memory::accesses::{Fits, Reach, Taken, with_bit};
use src_values::control::{Code, Focus, Got, Pending, Stage, line_at, list_at, read_type};
use src_values::lists::covered_from;
use src_values::names::{local_of, object_bytes};
use src_values::objects::{ReadBytes, same_copy};
use src_values::pointers::{behind, next_byte};
use src_values::values::{answer_of, byte_of, lowest_bit, value_from, written_bytes};
use src_values::{Byte, CopyOf, Datum, Object, Pointer, Spot, Undef};

impl<'a> Machine<'a> {
    // Whether what waits is a caller, or what the handler interrupted, in this copy.
    fn is_caller(&self, pending: &Pending, copy: CopyOf) -> bool
        ensures { result ≡ calls_from (interrupted_in self.now) pending.now copy }
    {
        match pending {
            Pending::Returns(other) => same_copy(*other, copy),
            Pending::Resumes(other) => same_copy(*other, copy) && !self.interrupted.is_over(),
            _ => false,
        }
    }

    // Whether a copy waits for a call or for the handler.
    #[tactic(auto, using(crate::proofs::Waiting::goes_below, crate::proofs::Waiting::found_above))]
    fn is_waiting(&self, copy: CopyOf) -> bool
        ensures { result ≡ is_among (callers (stack_of self.now)) copy }
    {
        let mut frames = self.stack.as_slice();
        while let [below @ .., top] = frames {
            if self.is_caller(top, copy) {
                return true;
            }
            frames = below;
        }
        false
    }

    /// A static object lives all the time, a variable while its copy is active.
    #[tactic(auto, unfolding(src_values::specs::Objects::is_alive))]
    pub(crate) fn is_alive(&self, object: Object) -> bool
        ensures { result ≡ is_alive (active_in self.now) object }
    {
        match object {
            Object::Fixed(_) => true,
            Object::Variable { copy, .. } => self.is_active(copy),
        }
    }

    // A copy is active while it runs and while it waits.
    #[tactic(auto, using(crate::proofs::Waiting::among_running), unfolding(src_values::specs::Control::active))]
    fn is_active(&self, copy: CopyOf) -> bool
        ensures { result ≡ is_among (active_in self.now) copy }
    {
        (same_copy(self.copy, copy) && !self.focus.is_over()) || self.is_waiting(copy)
    }

    /// The frame on top.
    pub(crate) fn top(&self) -> Option<&Pending<'a>>
        ensures { with_top result (drop 1 (waiting self.now)) ≡ waiting self.now }
    {
        self.stack.last()
    }

    /// The line of the node that waits.
    pub(crate) fn line(&self) -> u32
        ensures { result ≡ stated_line (stack_of self.now) }
    {
        line_at(self.top())
    }

    // The type that the node which waits reads its place as.
    fn read_ty(&self) -> Ty
        ensures { result ≡ stated_type (stack_of self.now) }
    {
        read_type(self.top())
    }

    // Who reaches a spot.
    fn reach(&self, spot: Spot) -> Reach
        ensures alive { result.alive ≡ is_alive_at (active_in self.now) spot }
        ensures root { result.root ≡ self.now.copy.root }
    {
        let alive = match spot {
            Spot::Memory(Pointer::Into { object, .. }) => self.is_alive(object),
            Spot::Memory(Pointer::Null) | Spot::Device(_) | Spot::Bit { .. } => true,
        };
        Reach {
            root: self.copy.root,
            alive,
        }
    }

    fn take_byte(&mut self, fits: Fits, spot: Spot, script: &Script) -> Result<Taken, Undef>
        ensures access { (s : Setting) (map : MapContent) (w : Worlds Bytes) → IsAt s map self.old w → s.outside ≡ outside_by script.now → IsKnown s.program (byte_met spot (memory_of self.old)) → TellsTaking s.outside (address_of s.program map) result self.new.world (stated.take_byte s (active_in self.old) self.old.copy.root (fits_by fits) spot (memory_of self.old) w) }
        ensures others { self.new ≡ record self.old { world = self.new.world } }
    {
        let reach = self.reach(spot);
        self.memory
            .take_byte(&mut self.world, reach, fits, spot, script)
    }

    fn put_byte(&mut self, spot: Spot, byte: Byte) -> Result<Option<Event>, Undef>
        ensures access { (s : Setting) (map : MapContent) (w : Worlds Bytes) → IsAt s map self.old w → IsKnown s.program byte → TellsPutting s.outside (address_of s.program map) result (memory_of self.new) self.new.world (stated.put_byte s (active_in self.old) self.old.copy.root spot byte (memory_of self.old) w) }
        ensures others { self.new ≡ record self.old { memory = self.new.memory; world = self.new.world } }
        ensures shape { (p : Program) (map : MapContent) → IsShaped p map self.old.memory → IsShaped p map self.new.memory }
    {
        let reach = self.reach(spot);
        self.memory.put_byte(&mut self.world, reach, spot, byte)
    }

    // Goes on after an access with the event that it made.
    fn after(&mut self, event: Option<Event>, focus: Focus<'a>) -> Outcome
        ensures outcome { result ≡ AnyOutcome.Went event }
        ensures others { self.new ≡ record self.old { focus = focus.entry } }
    {
        self.focus = focus;
        Outcome::Went(event)
    }

    // Goes on after a write.
    #[tactic(auto, using(crate::proofs::Taking::put_not))]
    fn after_putting(&mut self, access: Result<Option<Event>, Undef>, focus: Focus<'a>) -> Outcome
        ensures tells { (o : Outside) (address : AnyObject → ℕ) (given : stated.Putting) → TellsPutting o address access (memory_of self.old) self.old.world given → Tells o address result self.new (rules.after_putting given (focus_in focus.entry) self.old.copy (stack_of self.old) (stated_line (stack_of self.old))) }
        ensures others { self.new ≡ record self.old { focus = self.new.focus } }
        ensures steps { is_idle result ≡ false }
    {
        match access {
            Ok(event) => self.after(event, focus),
            Err(kind) => undefined(kind, self.line()),
        }
    }

    /// The read of a place as a type begins.
    pub(crate) fn fetching(&self, spot: Spot, ty: Ty) -> Focus<'a>
        ensures { focus_in result ≡ fetching spot ty (program_of self.now.program.now).sizes }
    {
        let left = match ty {
            Ty::Int(_) | Ty::Pointer(_) => {
                let read = ReadBytes::new();
                return Focus::Fetch { spot, read };
            }
            Ty::Struct(_) => self.program.bytes_of(ty),
            Ty::Void | Ty::Array { .. } => 0,
        };
        let last = None;
        Focus::Skim { spot, left, last }
    }

    // A value was read. It is that of a node that only reads; others go on with it.
    fn fetched(&mut self, value: Datum) -> Outcome
        ensures tells { (w : Worlds Bytes) → silent result self.new w ≡ rules.fetched (datum_of value) (stack_of self.old) self.old.copy (memory_of self.old) w }
        ensures others { self.new ≡ record self.old { stack = self.new.stack; focus = self.new.focus } }
        ensures quiet { is_quiet result ≡ true }
        ensures room { vec_capacity self.old.stack ≤ vec_capacity self.new.stack }
    {
        if self.only_reads() {
            let _ = self.stack.pop();
        }
        self.go(Focus::Holds(value))
    }

    // The node that waits only reads.
    fn only_reads(&self) -> bool
        ensures { result ≡ only_reads (stack_of self.now) }
    {
        match self.top() {
            Some(Pending::In(expr, Got::At(_))) => is_read(expr),
            _ => false,
        }
    }

    #[tactic(auto, using(crate::proofs::Tellings::quiet_steps))]
    pub(crate) fn fetch(&mut self, spot: Spot, read: ReadBytes, script: &Script) -> Outcome
        ensures tells { (s : Setting) (map : MapContent) (w : Worlds Bytes) → IsAt s map self.old w → IsGoing self.old → s.outside ≡ outside_by script.now → IsKnown s.program (byte_met spot (memory_of self.old)) → has_next spot → type_bytes s.program.sizes (stated_type (stack_of self.old)) ≤ 4 → Tells s.outside (address_of s.program map) result self.new (rules.fetch s spot (read_of read) (stack_of self.old) self.old.copy (memory_of self.old) w) }
        ensures others { self.new ≡ record self.old { stack = self.new.stack; focus = self.new.focus; world = self.new.world } }
        ensures room { vec_capacity self.old.stack ≤ vec_capacity self.new.stack }
        ensures steps { is_idle result ≡ false }
    {
        let ty = self.read_ty();
        if self.program.bytes_of(ty) <= read.count() as u64 {
            return self.fetched(value_from(ty, read));
        }
        match self.take_byte(Fits::Behind(ty, read), spot, script) {
            Ok(taken) => {
                let spot = next_byte(spot);
                let read = read.and(taken.byte);
                self.after(taken.event, Focus::Fetch { spot, read })
            }
            Err(kind) => undefined(kind, self.line()),
        }
    }

    #[tactic(auto, using(crate::proofs::Tellings::quiet_steps))]
    pub(crate) fn skim(&mut self, spot: Spot, left: u64, script: &Script) -> Outcome
        ensures tells { (s : Setting) (map : MapContent) (w : Worlds Bytes) (last : Option Bytes) → IsAt s map self.old w → IsGoing self.old → s.outside ≡ outside_by script.now → IsKnown s.program (byte_met spot (memory_of self.old)) → has_next spot → Tells s.outside (address_of s.program map) result self.new (rules.skim s spot left last (stack_of self.old) self.old.copy (memory_of self.old) w) }
        ensures others { self.new ≡ record self.old { stack = self.new.stack; focus = self.new.focus; world = self.new.world } }
        ensures room { vec_capacity self.old.stack ≤ vec_capacity self.new.stack }
        ensures steps { is_idle result ≡ false }
    {
        if left == 0 {
            return self.fetched(Datum::Missing);
        }
        match self.take_byte(Fits::Any, spot, script) {
            Ok(taken) => {
                let focus = Focus::Skim {
                    spot: next_byte(spot),
                    left: left - 1,
                    last: Some(taken.byte),
                };
                self.after(taken.event, focus)
            }
            Err(kind) => undefined(kind, self.line()),
        }
    }

    /// The items of a local's list from the one of this number on, in order, and then the bytes without an item.
    #[tactic(auto, using(crate::proofs::Chains::item_scalar, crate::proofs::Chains::item_struct, crate::proofs::Chains::item_text, crate::proofs::Chains::item_none))]
    pub(crate) fn items(
        &mut self,
        code: Code<'a>,
        object: Object,
        items: &'a Vec<TItem>,
        at: usize,
    ) -> Outcome
        ensures tells { HasRoom 1 self.old → HasItems (statement_in code.entry) items.now → (o : Outside) (w : Worlds Bytes) → silent result self.new w ≡ stated_items (setting_of self.old o) (statement_in code.entry) object (drop at (map item_of items.now.items)) (stack_of self.old) self.old.copy (memory_of self.old) w }
        ensures others { self.new ≡ record self.old { stack = self.new.stack; focus = self.new.focus } }
        ensures quiet { is_quiet result ≡ true }
        ensures room { vec_capacity self.old.stack ≤ vec_capacity self.new.stack }
    {
        let Some(item) = items.get(at) else {
            let end = object_bytes(self.program, object);
            return self.go_waiting(
                Focus::Blank { at: 0, end },
                Pending::Doing(code, Stage::Blanks),
            );
        };
        let here = Pending::Doing(code, Stage::AtItem(at));
        match item {
            TItem::Scalar { value, .. } => self.go_waiting(Focus::Eval(value), here),
            TItem::Struct { from, .. } => self.go_waiting(Focus::Find(from), here),
            TItem::Text {
                offset,
                bytes,
                size,
            } => {
                let focus = Focus::Spell {
                    spot: behind(object, *offset),
                    text: bytes,
                    left: *size,
                };
                self.go_waiting(focus, Pending::Doing(code, Stage::Items(at)))
            }
        }
    }

    // All bytes of a list's part stand in their places.
    fn stored_in_list(
        &mut self,
        code: Code<'a>,
        local: usize,
        items: &'a Vec<TItem>,
        stage: Stage,
    ) -> Outcome
        ensures tells { HasRoom 1 self.old → IsListOf (statement_in code.entry) local (map item_of items.now.items) → (o : Outside) (w : Worlds Bytes) → silent result self.new w ≡ rules.stored_for (setting_of self.old o) (statement_in code.entry) (stage_in (statement_in code.entry) stage) (stack_of self.old) self.old.copy (memory_of self.old) w }
        ensures others { self.new ≡ record self.old { stack = self.new.stack; focus = self.new.focus } }
        ensures quiet { is_quiet result ≡ true }
        ensures room { vec_capacity self.old.stack ≤ vec_capacity self.new.stack }
    {
        match stage {
            Stage::Items(at) => {
                if at < items.len() {
                    let object = local_of(self.program, self.copy, local);
                    self.items(code, object, items, at + 1)
                } else {
                    Outcome::Lost
                }
            }
            Stage::Blanks => self.go(Focus::Past),
            _ => Outcome::Lost,
        }
    }

    // The value that a local begins with stands in its place.
    fn stored_first(&mut self, code: Code<'a>, stage: Stage) -> Outcome
        ensures tells { is_scalar (statement_in code.entry) ≡ true → (o : Outside) (w : Worlds Bytes) → silent result self.new w ≡ rules.stored_for (setting_of self.old o) (statement_in code.entry) (stage_in (statement_in code.entry) stage) (stack_of self.old) self.old.copy (memory_of self.old) w }
        ensures others { self.new ≡ record self.old { stack = self.new.stack; focus = self.new.focus } }
        ensures quiet { is_quiet result ≡ true }
        ensures room { vec_capacity self.old.stack ≤ vec_capacity self.new.stack }
    {
        match stage {
            Stage::Fills => self.go(Focus::Past),
            _ => Outcome::Lost,
        }
    }

    // All bytes of a statement's part stand in their places.
    fn stored_for(&mut self, code: Code<'a>, stage: Stage) -> Outcome
        ensures tells { HasRoom 1 self.old → (o : Outside) (w : Worlds Bytes) → silent result self.new w ≡ rules.stored_for (setting_of self.old o) (statement_in code.entry) (stage_in (statement_in code.entry) stage) (stack_of self.old) self.old.copy (memory_of self.old) w }
        ensures others { self.new ≡ record self.old { stack = self.new.stack; focus = self.new.focus } }
        ensures quiet { is_quiet result ≡ true }
        ensures room { vec_capacity self.old.stack ≤ vec_capacity self.new.stack }
    {
        if let Some((local, items)) = list_at(Some(&Pending::Doing(code, stage))) {
            return self.stored_in_list(code, local, items, stage);
        }
        let Some(statement) = code.statement() else {
            return Outcome::Lost;
        };
        if is_scalar(statement) {
            return self.stored_first(code, stage);
        }
        Outcome::Lost
    }

    // All bytes of an expression's place stand in it.
    fn stored_in(&mut self, expr: &'a TExpr, got: Got) -> Outcome
        ensures tells { (values : List AnyDatum) (w : Worlds Bytes) → silent result self.new w ≡ rules.stored_in (expression_of expr.now) (got_in (expression_of expr.now) got values) (stack_of self.old) self.old.copy (memory_of self.old) w }
        ensures others { self.new ≡ record self.old { stack = self.new.stack; focus = self.new.focus } }
        ensures quiet { is_quiet result ≡ true }
        ensures room { vec_capacity self.old.stack ≤ vec_capacity self.new.stack }
    {
        match got {
            Got::Stores(spot, value) => self.go(Focus::Holds(answer_of(expr, spot, value))),
            Got::Copies => self.go(Focus::Holds(Datum::Missing)),
            _ => Outcome::Lost,
        }
    }

    // All bytes stand in their places: the node that waits goes on.
    fn stored(&mut self) -> Outcome
        ensures tells { HasRoom 0 self.old → (o : Outside) (w : Worlds Bytes) → silent result self.new w ≡ rules.stored (setting_of self.old o) (stack_of self.old) self.old.copy (memory_of self.old) w }
        ensures others { self.new ≡ record self.old { stack = self.new.stack; focus = self.new.focus } }
        ensures quiet { is_quiet result ≡ true }
        ensures room { vec_capacity self.old.stack ≤ vec_capacity self.new.stack }
    {
        match self.take_off() {
            Some(Pending::In(expr, got)) => self.stored_in(expr, got),
            Some(Pending::Doing(code, stage)) => self.stored_for(code, stage),
            Some(
                Pending::Value(_)
                | Pending::To(_)
                | Pending::Before(_, _)
                | Pending::Ended
                | Pending::Returns(_)
                | Pending::Resumes(_),
            )
            | None => Outcome::Lost,
        }
    }

    // The register of a bit is read, and written next.
    fn read_bit(&mut self, register: u8, bit: u8, value: Datum, script: &Script) -> Outcome
        ensures tells { (s : Setting) (map : MapContent) (w : Worlds Bytes) → IsAt s map self.old w → IsGoing self.old → HasRoom 0 self.old → s.outside ≡ outside_by script.now → Tells s.outside (address_of s.program map) result self.new (rules.read_bit s register bit (datum_of value) (stack_of self.old) self.old.copy (memory_of self.old) w) }
        ensures others { self.new ≡ record self.old { focus = self.new.focus; world = self.new.world } }
        ensures steps { is_idle result ≡ false }
    {
        let (old, event) = self.world.read_register(register, script);
        let focus = Focus::PutBit {
            register,
            bit,
            value,
            old,
        };
        self.after(Some(event), focus)
    }

    // The byte of a value of this number is written.
    fn write_byte(&mut self, spot: Spot, value: Datum, at: u8) -> Outcome
        requires { at < 4 }
        ensures tells { (s : Setting) (map : MapContent) (w : Worlds Bytes) → IsAt s map self.old w → IsGoing self.old → HasRoom 0 self.old → IsKnown s.program (values.byte_of (datum_of value) at) → has_next spot → Tells s.outside (address_of s.program map) result self.new (rules.after_putting (stated.put_byte s (active_in self.old) self.old.copy.root spot (values.byte_of (datum_of value) at) (memory_of self.old) w) (AnyFocus.Write (objects.next_byte spot) (datum_of value) (at + 1)) self.old.copy (stack_of self.old) (stated_line (stack_of self.old))) }
        ensures others { self.new ≡ record self.old { focus = self.new.focus; memory = self.new.memory; world = self.new.world } }
        ensures shape { (p : Program) (map : MapContent) → IsShaped p map self.old.memory → IsShaped p map self.new.memory }
        ensures steps { is_idle result ≡ false }
    {
        let access = self.put_byte(spot, byte_of(value, at));
        let spot = next_byte(spot);
        let at = at + 1;
        self.after_putting(access, Focus::Write { spot, value, at })
    }

    #[tactic(auto, using(crate::proofs::Tellings::quiet_steps))]
    pub(crate) fn write(&mut self, spot: Spot, value: Datum, at: u8, script: &Script) -> Outcome
        ensures tells { (s : Setting) (map : MapContent) (w : Worlds Bytes) → IsAt s map self.old w → IsGoing self.old → HasRoom 0 self.old → s.outside ≡ outside_by script.now → IsKnown s.program (values.byte_of (datum_of value) at) → has_next spot → Tells s.outside (address_of s.program map) result self.new (rules.write s spot (datum_of value) at (stack_of self.old) self.old.copy (memory_of self.old) w) }
        ensures others { self.new ≡ record self.old { stack = self.new.stack; focus = self.new.focus; memory = self.new.memory; world = self.new.world } }
        ensures shape { (p : Program) (map : MapContent) → IsShaped p map self.old.memory → IsShaped p map self.new.memory }
        ensures room { vec_capacity self.old.stack ≤ vec_capacity self.new.stack }
        ensures steps { is_idle result ≡ false }
    {
        if written_bytes(spot, value) <= at {
            return self.stored();
        }
        match spot {
            Spot::Bit { register, bit } => self.read_bit(register, bit, value, script),
            Spot::Device(_) | Spot::Memory(_) => self.write_byte(spot, value, at),
        }
    }

    pub(crate) fn put_bit(&mut self, register: u8, bit: u8, value: Datum, old: u8) -> Outcome
        ensures tells { bit < 8 → (s : Setting) (map : MapContent) (w : Worlds Bytes) → IsAt s map self.old w → IsGoing self.old → HasRoom 0 self.old → Tells s.outside (address_of s.program map) result self.new (rules.put_bit s register bit (datum_of value) old (stack_of self.old) self.old.copy (memory_of self.old) w) }
        ensures others { self.new ≡ record self.old { focus = self.new.focus; world = self.new.world } }
        ensures steps { is_idle result ≡ false }
    {
        let number = with_bit(old, bit, lowest_bit(value));
        let access = self.world.put_register(register, number);
        let spot = Spot::Bit { register, bit };
        self.after_putting(access, Focus::Write { spot, value, at: 1 })
    }

    #[tactic(auto, using(crate::proofs::Tellings::quiet_steps))]
    pub(crate) fn copy_read(&mut self, to: Spot, from: Spot, left: u64, script: &Script) -> Outcome
        ensures tells { (s : Setting) (map : MapContent) (w : Worlds Bytes) → IsAt s map self.old w → IsGoing self.old → HasRoom 0 self.old → s.outside ≡ outside_by script.now → IsKnown s.program (byte_met from (memory_of self.old)) → Tells s.outside (address_of s.program map) result self.new (rules.copy_read s to from left (stack_of self.old) self.old.copy (memory_of self.old) w) }
        ensures others { self.new ≡ record self.old { stack = self.new.stack; focus = self.new.focus; world = self.new.world } }
        ensures room { vec_capacity self.old.stack ≤ vec_capacity self.new.stack }
        ensures steps { is_idle result ≡ false }
    {
        if left == 0 {
            return self.stored();
        }
        match self.take_byte(Fits::Any, from, script) {
            Ok(taken) => {
                let focus = Focus::CopyWrite {
                    to,
                    from,
                    byte: taken.byte,
                    left: left - 1,
                };
                self.after(taken.event, focus)
            }
            Err(kind) => undefined(kind, self.line()),
        }
    }

    pub(crate) fn copy_write(&mut self, to: Spot, from: Spot, byte: Byte, left: u64) -> Outcome
        ensures tells { (s : Setting) (map : MapContent) (w : Worlds Bytes) → IsAt s map self.old w → IsGoing self.old → HasRoom 0 self.old → IsKnown s.program byte → has_next to → has_next from → Tells s.outside (address_of s.program map) result self.new (rules.copy_write s to from byte left (stack_of self.old) self.old.copy (memory_of self.old) w) }
        ensures others { self.new ≡ record self.old { focus = self.new.focus; memory = self.new.memory; world = self.new.world } }
        ensures shape { (p : Program) (map : MapContent) → IsShaped p map self.old.memory → IsShaped p map self.new.memory }
        ensures steps { is_idle result ≡ false }
    {
        let access = self.put_byte(to, byte);
        let to = next_byte(to);
        let from = next_byte(from);
        self.after_putting(access, Focus::CopyRead { to, from, left })
    }

    #[tactic(auto, using(crate::proofs::Tellings::quiet_steps))]
    pub(crate) fn spell(&mut self, spot: Spot, text: &'a [u8], left: u64) -> Outcome
        ensures tells { (s : Setting) (map : MapContent) (w : Worlds Bytes) → IsAt s map self.old w → IsGoing self.old → HasRoom 0 self.old → has_next spot → Tells s.outside (address_of s.program map) result self.new (rules.spell s spot text.now left (stack_of self.old) self.old.copy (memory_of self.old) w) }
        ensures others { self.new ≡ record self.old { stack = self.new.stack; focus = self.new.focus; memory = self.new.memory; world = self.new.world } }
        ensures shape { (p : Program) (map : MapContent) → IsShaped p map self.old.memory → IsShaped p map self.new.memory }
        ensures room { vec_capacity self.old.stack ≤ vec_capacity self.new.stack }
        ensures steps { is_idle result ≡ false }
    {
        if left == 0 {
            return self.stored();
        }
        let first = first_or_zero(text);
        let access = self.put_byte(spot, Byte::Number(first));
        let focus = Focus::Spell {
            spot: next_byte(spot),
            text: behind_first(text),
            left: left - 1,
        };
        self.after_putting(access, focus)
    }

    /// The next byte without an item becomes 0.
    #[tactic(auto, using(crate::proofs::Tellings::quiet_steps))]
    pub(crate) fn blank(&mut self, at: u64, end: u64) -> Outcome
        ensures tells { end < 2 ^ 64 - 1 → (s : Setting) (map : MapContent) (w : Worlds Bytes) → IsAt s map self.old w → IsGoing self.old → HasRoom 0 self.old → Tells s.outside (address_of s.program map) result self.new (rules.blank s at (end - at) (stack_of self.old) self.old.copy (memory_of self.old) w) }
        ensures others { self.new ≡ record self.old { stack = self.new.stack; focus = self.new.focus; memory = self.new.memory; world = self.new.world } }
        ensures shape { (p : Program) (map : MapContent) → IsShaped p map self.old.memory → IsShaped p map self.new.memory }
        ensures room { vec_capacity self.old.stack ≤ vec_capacity self.new.stack }
        ensures steps { is_idle result ≡ false }
    {
        let Some((local, items)) = list_at(self.top()) else {
            return Outcome::Lost;
        };
        let at = at.saturating_add(covered_from(self.program, items, at, end));
        if end <= at {
            return self.stored();
        }
        let access = self.put_byte(
            behind(local_of(self.program, self.copy, local), at),
            Byte::Number(0),
        );
        let at = at.saturating_add(1);
        self.after_putting(access, Focus::Blank { at, end })
    }
}

// Whether an expression only reads a place.
#[tactic(auto, using(crate::proofs::OnlyReads::reads, crate::proofs::OtherNodes::is_read_other))]
fn is_read(expr: &TExpr) -> bool
    ensures { result ≡ is_read (expression_of expr.now) }
{
    match expr {
        TExpr::Read { .. } => true,
        _ => false,
    }
}

// Whether a statement gives a local the value that it begins with.
#[tactic(auto, using(crate::proofs::Scalars::scalars, crate::proofs::OtherStatements::is_scalar_other))]
fn is_scalar(statement: &TStmt) -> bool
    ensures { result ≡ is_scalar (statement_of statement.now) }
{
    match statement {
        TStmt::InitScalar { .. } => true,
        _ => false,
    }
}

// The first character that is left of a string, or 0.
#[tactic(auto, using(crate::proofs::Bytes::first_there, crate::proofs::Bytes::first_missing))]
fn first_or_zero(text: &[u8]) -> u8
    ensures { result ≡ rules.first_or_zero text.now }
{
    match text {
        [first, ..] => *first,
        [] => 0,
    }
}

// The characters behind the first one.
#[tactic(auto, using(crate::proofs::Bytes::behind_there, crate::proofs::Bytes::behind_missing))]
fn behind_first(text: &[u8]) -> &[u8]
    ensures { result.now ≡ rules.behind_first text.now }
{
    match text {
        [_, rest @ ..] => rest,
        [] => text,
    }
}
