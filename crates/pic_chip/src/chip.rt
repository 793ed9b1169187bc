//! The chip: a state, the index of the next instruction, and steps.

ghost use Rattle.std.specs.Prelude.{◌≡◌, ◌<◌, ◌≤◌, ◌^◌, ℕ, List, [], slice_index, IsSome};
ghost use Rattle.pic_chip.specs.State.{reset as reset_of};
ghost use Rattle.pic_chip.specs.Act.{perform, accesses};
ghost use Rattle.pic_chip.specs.Address.{byte_at};
ghost use Rattle.pic_chip.specs.Instructions.{execute};
ghost use Rattle.pic_world.specs.Arrivals.{arriving};
ghost use Rattle.pic_chip.specs.Interrupts.{begun};
ghost use Rattle.pic_chip.specs.Machine.{Machine, stop_at, index_after, Feeds, wanted, depth_of};
ghost use Rattle.pic_chip.specs.Seen.{accesses_in, stopped_at};

use crate::access::StepEnd;
use crate::place::{Place, place_at};
use crate::processor::Processor;
use crate::profile::Profile;
use crate::rows::{device_read, run};
use crate::{Image, Start};
use pic_isa::{Ins, decode};
use pic_world::Script;
use pic_world::script::input_at;
use std::marker::Model;

/// The PIC16F877A, as far as programs can see it: its state, and the index of the next
/// instruction, counted from 0 at reset (DS39582).
#[derive(Clone, Copy)]
pub struct Chip {
    processor: Processor,
    index: u64,
}

impl Model for Chip {
    ghost use Rattle.pic_chip.specs.Machine.{Machine, Counted};

    ghost Value = { Machine };

    ghost view = { λ c. record { state = c.processor; index = c.index } };

    ghost invariant = { λ c. Counted c.processor c.index };

    ghost inverse = { λ m. record { processor = m.state; index = m.index } };
}

impl Chip {
    /// The chip after a reset. What is unknown then is given; `flags` is below 8.
    pub fn reset(start: &Start) -> Chip
        requires { start.now.flags < 8 }
        ensures { result ≡ record { state = reset_of start.now; index = 0 } }
    {
        Chip {
            processor: Processor::reset(start),
            index: 0,
        }
    }

    /// Sets the flags of a mask, and then takes an interrupt if one is due. Bits 0 to 2 are RBIF,
    /// INTF and TMR0IF, bits 3 to 10 are the flags of PIR1 from its bit 0 on, and the others count
    /// for nothing.
    pub fn begin(&mut self, flags: u16)
        ensures state { self.new.state ≡ begun flags self.old.state }
        ensures index { self.new.index ≡ self.old.index }
    {
        self.processor.raise(flags);
        if self.processor.is_due() {
            self.processor.enter();
        }
    }

    /// The device register other than INTCON, PIR1 and PIE1, by its lowest address, that the next
    /// instruction reads; `None` exactly where it reads none.
    pub fn wants(&self, image: &Image) -> Option<u8>
        ensures { (inputs : List ℕ) → result ≡ wanted (accesses (execute image.now inputs) self.now.state) }
    {
        match decode(image.word(self.processor.pc())) {
            None => None,
            Some(i) => device_read(Profile::Pic16F877a, &self.processor, i),
        }
    }

    /// Runs one instruction. Where it reads a device register other than INTCON, PIR1 and PIE1, it
    /// reads this input byte. `Unmodelled` comes exactly where the word is SLEEP or no instruction's; the chip
    /// is then unchanged. The index is below 2^40.
    pub fn exec(&mut self, image: &Image, input: u8) -> StepEnd
        requires { self.old.index < 2 ^ 40 }
        ensures state { (inputs : List ℕ) → Feeds inputs self.old.state.taken input (wanted (accesses (execute image.now inputs) self.old.state)) → self.new.state ≡ perform (execute image.now inputs) self.old.state }
        ensures accesses { (inputs : List ℕ) → Feeds inputs self.old.state.taken input (wanted (accesses (execute image.now inputs) self.old.state)) → accesses_in result ≡ accesses (execute image.now inputs) self.old.state }
        ensures stopped { stopped_at result ≡ stop_at image.now self.old.state }
        ensures index { self.new.index ≡ index_after image.now self.old.state self.old.index }
        ensures unchanged { IsSome (stopped_at result) → self.new ≡ self.old }
    {
        let pc = self.processor.pc();
        match decode(image.word(pc)) {
            None => StepEnd::Unmodelled(pc),
            Some(Ins::Sleep) => StepEnd::Unmodelled(pc),
            Some(i) => {
                let accesses = run(Profile::Pic16F877a, &mut self.processor, i, input);
                self.index += 1;
                StepEnd::Done(accesses)
            }
        }
    }

    /// One step of a run: the flags that arrive at this index are set, an interrupt that is due is
    /// taken, and one instruction runs, which reads from the script's input: its next byte, or 0
    /// past its end. After `Unmodelled` the flags were set and the interrupt was taken. The index
    /// is below 2^40.
    pub fn step(&mut self, image: &Image, script: &Script) -> StepEnd
        requires { self.old.index < 2 ^ 40 }
        ensures state { self.new.state ≡ perform (execute image.now script.now.input.items) (begun (arriving script.now.arrivals.items self.old.index) self.old.state) }
        ensures accesses { accesses_in result ≡ accesses (execute image.now script.now.input.items) (begun (arriving script.now.arrivals.items self.old.index) self.old.state) }
        ensures stopped { stopped_at result ≡ stop_at image.now (begun (arriving script.now.arrivals.items self.old.index) self.old.state) }
        ensures index { self.new.index ≡ index_after image.now (begun (arriving script.now.arrivals.items self.old.index) self.old.state) self.old.index }
    {
        self.begin(script.mask_at(self.index));
        let input = input_at(&script.input, self.processor.taken());
        self.exec(image, input)
    }

    /// The program counter, below 8,192.
    pub fn pc(&self) -> u16
        ensures value { result ≡ self.now.state.pc }
        ensures small { result < 8192 }
    {
        self.processor.pc()
    }

    /// The index of the next instruction, at most 2^40.
    pub fn index(&self) -> u64
        ensures value { result ≡ self.now.index }
        ensures small { result ≤ 2 ^ 40 }
    {
        self.index
    }

    /// How many pushes were made on the return stack, less the pops.
    pub fn depth(&self) -> i64
        ensures { result ≡ depth_of self.now.state }
    {
        let (pushes, pops) = self.processor.moves();
        pushes as i64 - pops as i64
    }

    /// The general byte at an address below 512, or 0 where none is there.
    pub fn general(&self, address: u16) -> u8
        requires { address < 512 }
        ensures { result ≡ byte_at self.now.state address }
    {
        match place_at((address / 128) as u8, (address % 128) as u8) {
            Place::GeneralByte(k) => self.processor.general(k),
            _ => 0,
        }
    }
}
