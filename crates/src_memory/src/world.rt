//! What main, the handler and the outside share.

ghost use Rattle.std.specs.Prelude.{◌≡◌, ◌<◌, ◌^◌, ◌/◌, ◌%◌, ◌&&◌, ◌||◌, not, nat_eq, bit_and};
ghost use Rattle.pic_world.specs.Control as control;
ghost use Rattle.pic_world.specs.World.{World as Worlds, Outside, Happening, world_at_start, arrived, is_due, entered, left, noted, device_value, input_used, value_kept, sets_gie};
ghost use Rattle.src_memory.specs.Seen.{IsWorld, control_in, control_of, outside_by, events_of};
ghost use Rattle.src_values.specs.declared.objects.Byte.{Byte as Bytes};

use crate::bits::{bit, clear_bit, set_bit};
use pic_world::Script;
use pic_world::script::input_at;

// The lowest addresses of the registers by which interrupts come (Microchip data sheet DS39582).
const INTCON: u8 = 0x0b;

const PIR1: u8 = 0x0c;

const PIE1: u8 = 0x8c;

// An enable bit of INTCON and its flag are set.
fn has_bits(x: u8, enable: u8, flag: u8) -> bool
    requires enable { enable < 8 }
    requires flag { flag < 8 }
    ensures { result ≡ control.has_bits x enable flag }
{
    bit(enable, x) * bit(flag, x) == 1
}

fn has_peripheral(intcon: u8, pir1: u8, pie1: u8) -> bool
    ensures { result ≡ (nat_eq (intcon / 64 % 2) 1 && not (nat_eq (bit_and pir1 pie1) 0)) }
{
    if bit(6, intcon) != 1 {
        return false;
    }
    pir1 & pie1 != 0
}

fn has_flag(intcon: u8, pir1: u8, pie1: u8) -> bool
    ensures { result ≡ (control.has_bits intcon 5 2 || control.has_bits intcon 4 1 || control.has_bits intcon 3 0 || (nat_eq (intcon / 64 % 2) 1 && not (nat_eq (bit_and pir1 pie1) 0))) }
{
    if has_bits(intcon, 5, 2) {
        return true;
    }
    if has_bits(intcon, 4, 1) {
        return true;
    }
    if has_bits(intcon, 3, 0) {
        return true;
    }
    has_peripheral(intcon, pir1, pie1)
}

#[tactic(auto, unfolding(pic_world::specs::Control::is_due))]
fn due_by(intcon: u8, pir1: u8, pie1: u8) -> bool
    ensures { result ≡ control.is_due (control_of intcon pir1 pie1) }
{
    if bit(7, intcon) != 1 {
        return false;
    }
    has_flag(intcon, pir1, pie1)
}

// A write to INTCON that sets GIE.
fn enables(address: u8, value: u8) -> bool
    ensures { result ≡ control.sets_gie address value }
{
    if address != INTCON {
        return false;
    }
    bit(7, value) == 1
}

fn is_stored(address: u8) -> bool
    ensures { result ≡ control.is_stored address }
{
    if address == INTCON {
        return true;
    }
    if address == PIR1 {
        return true;
    }
    address == PIE1
}

/// The registers by which interrupts come, whether the handler runs, how many input bytes were taken, and how many
/// events there were.
#[derive(Clone, Copy)]
pub struct World {
    intcon: u8,
    pir1: u8,
    pie1: u8,
    inside: bool,
    taken: u64,
    events: u64,
    // the arrivals at this number of events have set their flags
    arrived: bool,
}

impl World {
    /// The world at the start of a run.
    pub fn new() -> World
        ensures { (o : Outside) → IsWorld o result world_at_start }
    {
        World {
            intcon: 0,
            pir1: 0,
            pie1: 0,
            inside: false,
            taken: 0,
            events: 0,
            arrived: false,
        }
    }

    /// The arrivals at this length of the trace set their flags. Until the next event they have done so: only an event
    /// clears a flag.
    pub fn arrive(&mut self, script: &Script)
        ensures world { (w : Worlds Bytes) → IsWorld (outside_by script.now) self.old w → IsWorld (outside_by script.now) self.new (arrived (outside_by script.now) w) }
    {
        if !self.arrived {
            let mask = script.mask_at(self.events);
            self.intcon |= (mask % 8) as u8;
            self.pir1 |= (mask / 8 % 256) as u8;
            self.arrived = true;
        }
    }

    /// Whether the handler is to be entered: no handler runs, GIE is set, and an enabled flag is set.
    pub fn is_due(&self) -> bool
        ensures { (o : Outside) (w : Worlds Bytes) → IsWorld o self.now w → result ≡ is_due w }
    {
        !self.inside && due_by(self.intcon, self.pir1, self.pie1)
    }

    /// The handler is entered with GIE cleared.
    pub fn enter(&mut self)
        ensures { (o : Outside) (w : Worlds Bytes) → IsWorld o self.old w → IsWorld o self.new (entered w) }
    {
        self.inside = true;
        self.intcon = clear_bit(7, self.intcon);
        self.arrived = false;
    }

    /// Leaving the handler sets GIE.
    pub fn leave(&mut self)
        ensures { (o : Outside) (w : Worlds Bytes) → IsWorld o self.old w → IsWorld o self.new (left w) }
    {
        self.inside = false;
        self.intcon = set_bit(7, self.intcon);
        self.arrived = false;
    }

    /// One event more.
    pub fn note(&mut self)
        ensures { (o : Outside) (w : Worlds Bytes) (e : Happening Bytes) → IsWorld o self.old w → events_of self.old < 2 ^ 60 → IsWorld o self.new (noted e w) }
    {
        self.events = self.events.saturating_add(1);
        self.arrived = false;
    }

    #[tactic(auto, unfolding(pic_world::specs::Control::stored))]
    fn stored(&self, address: u8) -> u8
        ensures { result ≡ control.stored address (control_in self.now) }
    {
        if address == INTCON {
            return self.intcon;
        }
        if address == PIR1 {
            return self.pir1;
        }
        self.pie1
    }

    // What a read of a device register gives.
    fn value(&self, address: u8, script: &Script) -> u8
        ensures { (w : Worlds Bytes) → IsWorld (outside_by script.now) self.now w → result ≡ device_value (outside_by script.now) address w }
    {
        if is_stored(address) {
            return self.stored(address);
        }
        input_at(&script.input, self.taken)
    }

    /// What a read of a device register gives: what the register keeps, or the next input byte, 0 past the last one.
    pub(crate) fn read(&mut self, address: u8, script: &Script) -> u8
        ensures value { (w : Worlds Bytes) → IsWorld (outside_by script.now) self.old w → result ≡ device_value (outside_by script.now) address w }
        ensures world { (w : Worlds Bytes) (e : Happening Bytes) → IsWorld (outside_by script.now) self.old w → events_of self.old < 2 ^ 60 → IsWorld (outside_by script.now) self.new (noted e (input_used address w)) }
    {
        let value = self.value(address, script);
        self.note();
        if is_stored(address) {
            return value;
        }
        self.taken = self.taken.saturating_add(1);
        value
    }

    fn keep(&mut self, address: u8, value: u8)
        ensures world { (o : Outside) (w : Worlds Bytes) → IsWorld o self.old w → IsWorld o self.new (value_kept address value w) }
        ensures count { events_of self.new ≡ events_of self.old }
    {
        if address == INTCON {
            self.intcon = value;
            self.arrived = false;
            return;
        }
        if address == PIR1 {
            self.pir1 = value;
            self.arrived = false;
            return;
        }
        if address == PIE1 {
            self.pie1 = value;
            self.arrived = false;
        }
    }

    /// A write to a device register; INTCON, PIR1 and PIE1 keep it.
    pub(crate) fn write(&mut self, address: u8, value: u8)
        ensures { (o : Outside) (w : Worlds Bytes) (e : Happening Bytes) → IsWorld o self.old w → events_of self.old < 2 ^ 60 → IsWorld o self.new (noted e (value_kept address value w)) }
    {
        self.keep(address, value);
        self.note();
    }

    /// Whether a write would set GIE while the handler runs.
    pub(crate) fn sets_gie(&self, address: u8, value: u8) -> bool
        ensures { (o : Outside) (w : Worlds Bytes) → IsWorld o self.now w → result ≡ sets_gie address value w }
    {
        self.inside && enables(address, value)
    }
}
