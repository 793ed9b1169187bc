//! What a program of any level has to do with: the registers by name, the flags that the outside sets, the events that are
//! watched, and the one world that main, the handler and the outside share.
//!
//! In: names, input bytes and arrivals of flags. Out: addresses and names of registers and bits, scripts, and traces.
//! The promise: a name has the address that the data sheet gives it; a script gives at each index the flags of all its
//! arrivals there, in whatever order they came. specs/World has the world of every machine from the source to the chip.
#![tactic(auto)]

pub mod registers;
pub mod script;
pub mod trace;

pub use registers::{bit, register, register_name};
pub use script::{Script, arrivals_in_any_order};
pub use trace::Trace;

/// Whose code a function copy belongs to: `main`, or the interrupt handler.
#[derive(Clone, Copy, PartialEq, Eq, Debug)]
pub enum Root {
    Main,
    Isr,
}

/// An interrupt flag that the outside can set (Microchip data sheet DS39582, INTCON and PIR1). The
/// first three are flags of INTCON: the change of port B's upper half, the external pin, and the
/// overflow of timer 0. The others are the flags of PIR1 in the order of its bits: timers 1 and 2,
/// capture and compare, the synchronous port, the serial transmitter and receiver, the converter,
/// and the parallel port.
#[derive(Clone, Copy, PartialEq, Eq, Debug)]
pub enum Flag {
    Rbif,
    Intf,
    Tmr0if,
    Tmr1if,
    Tmr2if,
    Ccp1if,
    Sspif,
    Txif,
    Rcif,
    Adif,
    Pspif,
}

/// A flag that is set before the instruction of index `t`, counted from 0 at reset.
#[derive(Clone, Copy, PartialEq, Eq, Debug)]
pub struct Arrival {
    pub t: u32,
    pub flag: Flag,
}

/// What an event of a trace is about: a device register, by its lowest address, or a byte of a static
/// object, by the number of the object's line in the map and the byte's offset.
#[derive(Clone, Copy, PartialEq, Eq, Debug)]
pub enum Cell {
    Device { address: u8 },
    Static { object: u16, offset: u16 },
}

/// An event of a trace: one byte access, or the end of main.
#[derive(Clone, Copy, PartialEq, Eq, Debug)]
pub enum Event {
    Read { cell: Cell, value: u8 },
    Write { cell: Cell, value: u8 },
    End,
}
