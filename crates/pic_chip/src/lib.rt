//! The chip: images of its program memory, and what a run of it is.
//!
//! In: words of program memory, input bytes and arrivals of flags. Out: images, and the chip after each step with the
//! accesses that it made.
//! The promise: an image holds exactly the words that were set; each step of the chip is that of the definitions in
//! specs/.
#![tactic(auto)]

mod access;
mod bits;
pub mod chip;
pub mod image;
mod operation;
mod place;
pub mod processor;
pub mod profile;
pub mod rows;

pub use access::{Access, Accesses, StepEnd};
pub use chip::Chip;
pub use image::Image;
pub use processor::Processor;
pub use profile::Profile;

// What a caller of the chip names of the world that it runs in: its registers, what arrives, and what it makes.
pub use pic_world::{
    Arrival, Cell, Event, Flag, Root, Script, Trace, bit, register, register_name,
};

/// What is unknown after power-on. `flags` is below 8 and has Z, DC and C as bits 2, 1 and 0.
/// The bytes of `ram` are the 368 general bytes in order of address.
#[derive(Clone, Copy)]
pub struct Start {
    pub w: u8,
    pub fsr: u8,
    pub flags: u8,
    pub ram: [u8; 368],
}
