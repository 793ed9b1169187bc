//! The second chip: a state, the index of the next instruction, and steps.

ghost use Rattle.std.specs.Prelude.{◌≡◌, ◌<◌, ◌≤◌, ◌++◌, ◌^◌, ℕ, List, true, drop, length, slice_index, IsSome};
ghost use Rattle.pic_world.specs.Arrivals.{arriving};
ghost use Rattle.pic_world.specs.Bits.{bit as bit_at};
ghost use Rattle.pic_chip.specs.Act.{perform, accesses};
ghost use Rattle.pic_chip.specs.Machine.{Machine, Feeds, depth_of};
ghost use Rattle.pic_chip.specs.Seen.{accesses_in, stopped_at};
ghost use Rattle.chip_84a.specs.Machine.{reset as reset_of, room, raise as raise_of, is_due as due, begun, execute, stop_at, index_after, wanted, byte_at};

use crate::Start84;
use pic_chip::rows::{device_read, run};
use pic_chip::{Image, Processor, Profile, Script, Start, StepEnd};
use pic_isa::{Ins, decode};
use pic_world::script::input_at;
use std::marker::Model;

/// How many words program memory has: 1,024 of the words of an image.
const WORDS: u16 = 1024;

/// The PIC16F84A, as far as programs can see it: its state, and the index of the next
/// instruction, counted from 0 at reset (DS35007).
#[derive(Clone, Copy)]
pub struct Chip84 {
    processor: Processor,
    index: u64,
}

impl Model for Chip84 {
    ghost use Rattle.pic_chip.specs.Machine.{Machine, Counted};

    ghost Value = { Machine };

    ghost view = { λ c. record { state = c.processor; index = c.index } };

    ghost invariant = { λ c. Counted c.processor c.index };

    ghost inverse = { λ m. record { processor = m.state; index = m.index } };
}

impl Chip84 {
    /// The chip after a reset. What is unknown then is given; `flags` is below 8.
    pub fn reset(start: &Start84) -> Chip84
        requires { start.now.flags < 8 }
        ensures { result ≡ record { state = reset_of start.now; index = 0 } }
    {
        let first = Start {
            w: start.w,
            fsr: start.fsr,
            flags: start.flags,
            ram: with_room(&start.ram),
        };
        Chip84 {
            processor: Processor::reset(&first),
            index: 0,
        }
    }

    /// Sets the flags of a mask, and then takes an interrupt if one is due. Bits 0 to 2 are RBIF,
    /// INTF and TMR0IF, and the others count for nothing.
    pub fn begin(&mut self, flags: u16)
        ensures state { self.new.state ≡ begun flags self.old.state }
        ensures index { self.new.index ≡ self.old.index }
    {
        raise(&mut self.processor, flags);
        if is_due(&self.processor) {
            self.processor.enter();
        }
    }

    /// The device register other than INTCON, by its lowest address, that the next instruction
    /// reads; `None` exactly where it reads none.
    pub fn wants(&self, image: &Image) -> Option<u8>
        ensures { (inputs : List ℕ) → result ≡ wanted (accesses (execute image.now inputs) self.now.state) }
    {
        match decode(image.word(self.processor.pc() % WORDS)) {
            None => None,
            Some(i) => device_read(Profile::Pic16F84a, &self.processor, i),
        }
    }

    /// Runs one instruction. Where it reads a device register other than INTCON, it reads this
    /// input byte. `Unmodelled` comes exactly where the word is SLEEP or no instruction's; the chip
    /// is then unchanged. The index is below 2^40.
    pub fn exec(&mut self, image: &Image, input: u8) -> StepEnd
        requires { self.old.index < 2 ^ 40 }
        ensures state { (inputs : List ℕ) → Feeds inputs self.old.state.taken input (wanted (accesses (execute image.now inputs) self.old.state)) → self.new.state ≡ perform (execute image.now inputs) self.old.state }
        ensures accesses { (inputs : List ℕ) → Feeds inputs self.old.state.taken input (wanted (accesses (execute image.now inputs) self.old.state)) → accesses_in result ≡ accesses (execute image.now inputs) self.old.state }
        ensures stopped { stopped_at result ≡ stop_at image.now self.old.state }
        ensures index { self.new.index ≡ index_after image.now self.old.state self.old.index }
        ensures unchanged { IsSome (stopped_at result) → self.new ≡ self.old }
    {
        let pc = self.processor.pc();
        match decode(image.word(pc % WORDS)) {
            None => StepEnd::Unmodelled(pc),
            Some(Ins::Sleep) => StepEnd::Unmodelled(pc),
            Some(i) => {
                let accesses = run(Profile::Pic16F84a, &mut self.processor, i, input);
                self.index += 1;
                StepEnd::Done(accesses)
            }
        }
    }

    /// One step of a run: the flags that arrive at this index are set, an interrupt that is due is
    /// taken, and one instruction runs, which reads from the script's input: its next byte, or 0
    /// past its end. After `Unmodelled` the flags were set and the interrupt was taken. The index
    /// is below 2^40.
    pub fn step(&mut self, image: &Image, script: &Script) -> StepEnd
        requires { self.old.index < 2 ^ 40 }
        ensures state { self.new.state ≡ perform (execute image.now script.now.input.items) (begun (arriving script.now.arrivals.items self.old.index) self.old.state) }
        ensures accesses { accesses_in result ≡ accesses (execute image.now script.now.input.items) (begun (arriving script.now.arrivals.items self.old.index) self.old.state) }
        ensures stopped { stopped_at result ≡ stop_at image.now (begun (arriving script.now.arrivals.items self.old.index) self.old.state) }
        ensures index { self.new.index ≡ index_after image.now (begun (arriving script.now.arrivals.items self.old.index) self.old.state) self.old.index }
    {
        self.begin(script.mask_at(self.index));
        let input = input_at(&script.input, self.processor.taken());
        self.exec(image, input)
    }

    /// The program counter, below 8,192. Its low ten bits name the next word.
    pub fn pc(&self) -> u16
        ensures value { result ≡ self.now.state.pc }
        ensures small { result < 8192 }
    {
        self.processor.pc()
    }

    /// The index of the next instruction, at most 2^40.
    pub fn index(&self) -> u64
        ensures value { result ≡ self.now.index }
        ensures small { result ≤ 2 ^ 40 }
    {
        self.index
    }

    /// How many pushes were made on the return stack, less the pops.
    pub fn depth(&self) -> i64
        ensures { result ≡ depth_of self.now.state }
    {
        let (pushes, pops) = self.processor.moves();
        pushes as i64 - pops as i64
    }

    /// The general byte at an address below 512, or 0 where none is there.
    pub fn general(&self, address: u16) -> u8
        requires { address < 512 }
        ensures { result ≡ byte_at self.now.state address }
    {
        let low = address % 128;
        if low >= 0x0c && low <= 0x4f {
            self.processor.general(low - 0x0c)
        } else {
            0
        }
    }
}

// The bytes of the second chip in the room of the first one's.
fn with_room(bytes: &[u8; 68]) -> [u8; 368]
    ensures { result ≡ room bytes.now }
{
    let mut all = [0; 368];
    put_first(&mut all, bytes);
    all
}

// Puts bytes in the place of as many first ones.
fn put_first(all: &mut [u8], bytes: &[u8])
    requires { length bytes.now ≤ length all.old }
    ensures { all.new ≡ bytes.now ++ drop (length bytes.now) all.old }
{
    all[..bytes.len()].copy_from_slice(bytes);
}

// Sets the flags of the mask in INTCON.
fn raise(processor: &mut Processor, flags: u16)
    ensures state { processor.new ≡ perform (raise_of flags) processor.old }
    ensures gie { bit_at processor.new.intcon 7 ≡ bit_at processor.old.intcon 7 }
{
    processor.raise(flags % 8);
}

// INTCON, as an instruction reads it.
fn intcon(processor: &Processor) -> u8
    ensures { result ≡ processor.now.intcon }
{
    processor.contents(processor.operand(Profile::Pic16F84a, 0x0b), 0)
}

// Whether an interrupt is due: GIE is set, and TMR0IE with TMR0IF, INTE with INTF, or RBIE with RBIF.
fn is_due(processor: &Processor) -> bool
    ensures value { result ≡ due processor.now.intcon }
    ensures enabled { result ≡ true → bit_at processor.now.intcon 7 ≡ 1 }
{
    let x = intcon(processor);
    x / 128 % 2 == 1
        && (x / 32 % 2 * (x / 4 % 2) == 1
            || x / 16 % 2 * (x / 2 % 2) == 1
            || x / 8 % 2 * (x % 2) == 1)
}
