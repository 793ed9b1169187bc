//! Chips that run over a board.

ghost use Rattle.std.specs.Prelude.{◌≡◌, ◌<◌, ◌^◌, ◌∷◌, [], ℕ, List, false, true, IsTrue, IsSome, IfSome, IfNone};
ghost use Rattle.pic_world.specs.Control.{is_stored as kept};
ghost use Rattle.pic_chip.specs.Act.{perform, accesses};
ghost use Rattle.pic_chip.specs.Machine.{Machine, Feeds, wanted_by};
ghost use Rattle.pic_chip.specs.Seen.{accesses_in, stopped_at};
ghost use Rattle.pic_map.specs.Tracing.{tracing_of, list_of};
ghost use Rattle.pic_sim.specs.Kind.{Kind, first, is_outside_by, stop_at_by, index_after_by};
ghost use Rattle.pic_sim.specs.Step.{shown_by};

use pic_chip::{Access, Chip, Image, StepEnd};
use pic_map::Tracer;
use pic_world::{Event, register_name};

/// A chip as a run over a board steps it. What it does is said of the kind of chip that it is.
pub trait Stepper: Copy {
    /// The kind of chip.
    ghost kind: { Kind };

    /// Its state, and the index of the next instruction.
    ghost machine: { Self → Machine };

    /// The program counter.
    fn pc(&self) -> u16
        ensures { result ≡ (machine self.now).state.pc };

    /// The index of the next instruction.
    fn index(&self) -> u64
        ensures { result ≡ (machine self.now).index };

    /// Sets the flags of a mask, and then takes an interrupt if one is due.
    fn begin(&mut self, flags: u16)
        ensures state { (machine self.new).state ≡ kind.begun flags (machine self.old).state }
        ensures index { (machine self.new).index ≡ (machine self.old).index };

    /// The device register, by its lowest address, whose byte the next instruction takes from outside.
    fn wants(&self, image: &Image) -> Option<u8>
        ensures { (inputs : List ℕ) → result ≡ wanted_by kind.rule (accesses (kind.execute image.now inputs) (machine self.now).state) };

    /// Runs one instruction, which takes this byte where it wants one.
    fn exec(&mut self, image: &Image, input: u8) -> StepEnd
        requires { (machine self.old).index < 2 ^ 40 }
        ensures state { (inputs : List ℕ) → Feeds inputs (machine self.old).state.taken input (wanted_by kind.rule (accesses (kind.execute image.now inputs) (machine self.old).state)) → (machine self.new).state ≡ perform (kind.execute image.now inputs) (machine self.old).state }
        ensures accesses { (inputs : List ℕ) → Feeds inputs (machine self.old).state.taken input (wanted_by kind.rule (accesses (kind.execute image.now inputs) (machine self.old).state)) → accesses_in result ≡ accesses (kind.execute image.now inputs) (machine self.old).state }
        ensures stopped { stopped_at result ≡ stop_at_by kind image.now (machine self.old).state }
        ensures index { (machine self.new).index ≡ index_after_by kind image.now (machine self.old).state (machine self.old).index }
        ensures unchanged { IsSome (stopped_at result) → machine self.new ≡ machine self.old };

    /// The device register at this address, where what is written to it goes outside.
    fn outside(address: u16) -> Option<u8>
        ensures found { IfSome result (λ register. (register ≡ address) × (is_outside_by kind.rule register ≡ true)) }
        ensures none { IfNone result (kind.is_told address ≡ true → is_outside_by kind.rule address ≡ false) };

    /// The event of an access.
    fn event(tracer: &Tracer, write: bool, access: Access) -> Option<Event>
        ensures { kind.is_told access.address ≡ true → list_of result ≡ shown_by kind ((record { write = write; address = access.address; byte = access.value }) ∷ []) (tracing_of tracer.now) };
}

impl Stepper for Chip {
    ghost kind = { first };

    ghost machine = { λ chip. chip };

    fn pc(&self) -> u16 {
        Chip::pc(self)
    }

    fn index(&self) -> u64 {
        Chip::index(self)
    }

    fn begin(&mut self, flags: u16) {
        Chip::begin(self, flags)
    }

    fn wants(&self, image: &Image) -> Option<u8> {
        Chip::wants(self, image)
    }

    fn exec(&mut self, image: &Image, input: u8) -> StepEnd {
        Chip::exec(self, image, input)
    }

    // The others keep what is written to them.
    fn outside(address: u16) -> Option<u8> {
        let register = u8::try_from(address).ok()?;
        if is_stored(register) || register_name(register).is_none() {
            return None;
        }
        Some(register)
    }

    fn event(tracer: &Tracer, write: bool, access: Access) -> Option<Event> {
        tracer.event(write, access)
    }
}

// INTCON, PIR1 or PIE1.
fn is_stored(register: u8) -> bool
    ensures { result ≡ kept register }
{
    register == 0x0b || register == 0x0c || register == 0x8c
}
