//! Reads and writes of one byte: when they are undefined, what they change, and the event that they make.

ghost use Rattle.std.specs.Prelude.{◌≡◌, ◌<◌, ◌^◌, ℕ, List, nat_lt};
ghost use Rattle.c_typed.specs.Trees.{Program};
ghost use Rattle.pic_map.specs.MapContent.{MapContent};
ghost use Rattle.pic_world.specs.Bits.{bit as bit_at};
ghost use Rattle.pic_world.specs.Roots as roots;
ghost use Rattle.pic_world.specs.World.{World as Worlds, Outside, ReadOf, after_device_read, device_value};
ghost use Rattle.pic_world.specs.declared.Cell.TheVariants.{Device};
ghost use Rattle.src_memory.specs.Accessed.{TellsPutting, TellsTaking, byte_met, fault_of_read, fault_of_write, fits_by, is_alive_at};
ghost use Rattle.src_memory.specs.Cells.{cell_in, memory_in, size_of};
ghost use Rattle.src_memory.specs.Seen.{IsWorld, events_of, outside_by};
ghost use Rattle.src_memory.specs.Shape.{IsKnown, IsShaped};
ghost use Rattle.src_memory.specs.Shown.{address_of, shown};
ghost use Rattle.src_values.specs.Accesses as stated;
ghost use Rattle.src_values.specs.Memory.{Memory as Memories, Setting};
ghost use Rattle.src_values.specs.Objects as objects;
ghost use Rattle.src_values.specs.declared.objects.Byte.{Byte as Bytes};
ghost use Rattle.src_values.specs.declared.objects.Byte.TheVariants as bytes;
ghost use Rattle.src_values.specs.declared.objects.CopyOf.{CopyOf as Copies};
ghost use Rattle.src_values.specs.declared.objects.Object.{Object as AnyObject};
ghost use Rattle.src_values.specs.declared.objects.Pointer.TheVariants.{Into};
ghost use Rattle.src_values.specs.declared.objects.Spot.TheVariants as spots;

use crate::bits;
use crate::memory::Memory;
use crate::start::same_root;
use crate::world::World;
use c_typed::Ty;
use pic_world::{Cell, Event, Root, Script};
use src_values::objects::ReadBytes;
use src_values::values::{fits_behind, number_in};
use src_values::{Byte, Object, Pointer, Spot, Undef};

/// Which bytes a read may meet: any, or those that follow these as a type.
#[derive(Clone, Copy)]
pub enum Fits {
    Any,
    Behind(Ty, ReadBytes),
}

impl Fits {
    fn holds(self, byte: Byte) -> bool
        ensures { result ≡ fits_by self byte }
    {
        match self {
            Fits::Any => true,
            Fits::Behind(ty, read) => fits_behind(ty, read, byte),
        }
    }
}

/// Who accesses an object: whose code it is, and whether the object is alive then.
#[derive(Clone, Copy)]
pub struct Reach {
    pub root: Root,
    pub alive: bool,
}

fn is_unset(byte: Byte) -> bool
    ensures { result ≡ stated.is_unset byte }
{
    match byte {
        Byte::Unset => true,
        Byte::Number(_) | Byte::Part { .. } => false,
    }
}

impl Reach {
    // The handler, or a function that it calls, reaches a variable of main's root.
    #[tactic(auto, unfolding(src_values::specs::Objects::breaks_isolation))]
    fn breaks_isolation(self, object: Object) -> bool
        ensures { result ≡ objects.breaks_isolation self.root object }
    {
        match object {
            Object::Fixed(_) => false,
            Object::Variable { copy, .. } => {
                same_root(self.root, Root::Isr) && same_root(copy.root, Root::Main)
            }
        }
    }

    fn read_fault(self, fits: Fits, object: Object, byte: Byte) -> Option<Undef>
        ensures { result ≡ fault_of_read self.alive self.root (fits_by fits) object byte }
    {
        if is_unset(byte) {
            Some(Undef::Unset)
        } else if !self.alive {
            Some(Undef::Inactive)
        } else if !fits.holds(byte) {
            Some(Undef::Bytes)
        } else if self.breaks_isolation(object) {
            Some(Undef::Isolation)
        } else {
            None
        }
    }

    fn write_fault(self, object: Object) -> Option<Undef>
        ensures { result ≡ fault_of_write self.alive self.root object }
    {
        if !self.alive {
            Some(Undef::Inactive)
        } else if self.breaks_isolation(object) {
            Some(Undef::Isolation)
        } else {
            None
        }
    }
}

/// A byte that was read, and the event that it made.
#[derive(Clone, Copy)]
pub struct Taken {
    pub byte: Byte,
    pub event: Option<Event>,
}

/// A register with a bit replaced.
pub fn with_bit(old: u8, bit: u8, value: u8) -> u8
    ensures { bit < 8 → result ≡ stated.with_bit bit value old }
{
    if bit >= 8 {
        old
    } else if value == 1 {
        bits::set_bit(bit, old)
    } else {
        bits::clear_bit(bit, old)
    }
}

// The value of a bit of a register; no register has one above the eighth.
fn bit_of(value: u8, bit: u8) -> u8
    ensures { result ≡ bit_at value bit }
{
    if bit < 8 { bits::bit(bit, value) } else { 0 }
}

impl World {
    /// A device register is read.
    pub fn read_register(&mut self, register: u8, script: &Script) -> (u8, Event)
        ensures value { (w : Worlds Bytes) → IsWorld (outside_by script.now) self.old w → result.0 ≡ device_value (outside_by script.now) register w }
        ensures event { (a : AnyObject → ℕ) (w : Worlds Bytes) → IsWorld (outside_by script.now) self.old w → result.1 ≡ shown a (ReadOf (Device register) (bytes.Number (device_value (outside_by script.now) register w))) }
        ensures world { (w : Worlds Bytes) → IsWorld (outside_by script.now) self.old w → events_of self.old < 2 ^ 60 → IsWorld (outside_by script.now) self.new (after_device_read bytes.Number (outside_by script.now) register w) }
    {
        let value = self.read(register, script);
        let cell = Cell::Device { address: register };
        (value, Event::Read { cell, value })
    }

    /// A device register is written.
    pub fn put_register(&mut self, register: u8, value: u8) -> Result<Option<Event>, Undef>
        ensures { (o : Outside) (a : AnyObject → ℕ) (m : Memories) (w : Worlds Bytes) → IsWorld o self.old w → events_of self.old < 2 ^ 60 → TellsPutting o a result m self.new (stated.device_put register value m w) }
    {
        if self.sets_gie(register, value) {
            return Err(Undef::Gie);
        }
        self.write(register, value);
        let cell = Cell::Device { address: register };
        Ok(Some(Event::Write { cell, value }))
    }
}

impl Memory {
    fn take_at(
        &self,
        world: &mut World,
        reach: Reach,
        fits: Fits,
        object: Object,
        offset: u64,
    ) -> Result<Taken, Undef>
        ensures { (s : Setting) (map : MapContent) (live : List Copies) (w : Worlds Bytes) → IsShaped s.program map self.now → IsWorld s.outside world.old w → reach.alive ≡ objects.is_alive live object → events_of world.old < 2 ^ 60 → IsKnown s.program (memory_in self.now object offset) → TellsTaking s.outside (address_of s.program map) result world.new (stated.take_byte s live reach.root (fits_by fits) (spots.Memory (Into object offset)) (memory_in self.now) w) }
    {
        match self.get(object, offset) {
            None => Err(Undef::Outside),
            Some(byte) => match reach.read_fault(fits, object, byte) {
                Some(kind) => Err(kind),
                None => match self.place(object, offset) {
                    Some(cell) => {
                        world.note();
                        let value = self.shown(byte);
                        let event = Some(Event::Read { cell, value });
                        Ok(Taken { byte, event })
                    }
                    None => Ok(Taken { byte, event: None }),
                },
            },
        }
    }

    /// Reads the byte at a spot.
    pub fn take_byte(
        &self,
        world: &mut World,
        reach: Reach,
        fits: Fits,
        spot: Spot,
        script: &Script,
    ) -> Result<Taken, Undef>
        ensures { (s : Setting) (map : MapContent) (live : List Copies) (w : Worlds Bytes) → IsShaped s.program map self.now → s.outside ≡ outside_by script.now → IsWorld s.outside world.old w → reach.alive ≡ is_alive_at live spot → events_of world.old < 2 ^ 60 → IsKnown s.program (byte_met spot (memory_in self.now)) → TellsTaking s.outside (address_of s.program map) result world.new (stated.take_byte s live reach.root (fits_by fits) spot (memory_in self.now) w) }
    {
        match spot {
            Spot::Device(address) => {
                let (value, event) = world.read_register(address, script);
                Ok(Taken {
                    byte: Byte::Number(value),
                    event: Some(event),
                })
            }
            Spot::Bit { register, bit } => {
                let (value, event) = world.read_register(register, script);
                Ok(Taken {
                    byte: Byte::Number(bit_of(value, bit)),
                    event: Some(event),
                })
            }
            Spot::Memory(Pointer::Null) => Err(Undef::Outside),
            Spot::Memory(Pointer::Into { object, offset }) => {
                self.take_at(world, reach, fits, object, offset)
            }
        }
    }

    fn has(&self, object: Object, offset: u64) -> bool
        ensures { result ≡ nat_lt offset (size_of (cell_in self.now object)) }
    {
        match self.get(object, offset) {
            Some(_) => true,
            None => false,
        }
    }

    fn put_at(
        &mut self,
        world: &mut World,
        reach: Reach,
        object: Object,
        offset: u64,
        byte: Byte,
    ) -> Result<Option<Event>, Undef>
        ensures access { (s : Setting) (map : MapContent) (live : List Copies) (w : Worlds Bytes) → IsShaped s.program map self.old → IsWorld s.outside world.old w → reach.alive ≡ objects.is_alive live object → events_of world.old < 2 ^ 60 → IsKnown s.program byte → TellsPutting s.outside (address_of s.program map) result (memory_in self.new) world.new (stated.put_byte s live reach.root (spots.Memory (Into object offset)) byte (memory_in self.old) w) }
        ensures shape { (p : Program) (map : MapContent) → IsShaped p map self.old → IsShaped p map self.new }
    {
        if !self.has(object, offset) {
            return Err(Undef::Outside);
        }
        match reach.write_fault(object) {
            Some(kind) => Err(kind),
            None => {
                self.put(object, offset, byte);
                match self.place(object, offset) {
                    Some(cell) => {
                        world.note();
                        let value = self.shown(byte);
                        Ok(Some(Event::Write { cell, value }))
                    }
                    None => Ok(None),
                }
            }
        }
    }

    /// Writes the byte at a spot.
    pub fn put_byte(
        &mut self,
        world: &mut World,
        reach: Reach,
        spot: Spot,
        byte: Byte,
    ) -> Result<Option<Event>, Undef>
        ensures access { (s : Setting) (map : MapContent) (live : List Copies) (w : Worlds Bytes) → IsShaped s.program map self.old → IsWorld s.outside world.old w → reach.alive ≡ is_alive_at live spot → events_of world.old < 2 ^ 60 → IsKnown s.program byte → TellsPutting s.outside (address_of s.program map) result (memory_in self.new) world.new (stated.put_byte s live reach.root spot byte (memory_in self.old) w) }
        ensures shape { (p : Program) (map : MapContent) → IsShaped p map self.old → IsShaped p map self.new }
    {
        match spot {
            Spot::Device(address) => world.put_register(address, number_in(byte)),
            Spot::Bit { .. } => Err(Undef::Outside),
            Spot::Memory(Pointer::Null) => Err(Undef::Outside),
            Spot::Memory(Pointer::Into { object, offset }) => {
                self.put_at(world, reach, object, offset, byte)
            }
        }
    }
}
