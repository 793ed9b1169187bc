//! The second chip, the PIC16F84A in the profile of this project: its steps, images for it, and the law that it keeps step with the first.
//!
//! In: words of program memory, input bytes and arrivals of flags, or a board that gives both; an image of the first chip. Out: the second
//! chip after each step with the accesses that it made, or after so many over a board with the trace; the image for the second chip.
//! The promise: each step is that of the definitions in specs/, which have the rows, the processor and the 368 bytes of pic_chip with this
//! chip's own addresses. Over a board chip and trace go on as a run by these definitions, with the board's answers. As long as each
//! instruction of the first chip keeps within what both chips have, the second one with the image that `port` makes of the first one's is
//! beside it: the same trace, registers and return stack. That law is one of each chip of the family whose tables pass a test (specs/Family.antt).
#![tactic(auto)]

ghost use Rattle.chip_84a.specs.Examples.{WorkedStates};
ghost use Rattle.chip_84a.specs.Family.{FamilyKeepsStep};
ghost use Rattle.chip_84a.specs.Lockstep.{Lockstep};
ghost use Rattle.chip_84a.specs.Members.{MembersFit};
ghost use Rattle.chip_84a.specs.Port.{ImagesPort};
ghost use Rattle.chip_84a.specs.Simulated.{MasksAreArrivals, BeginsAtReset, GoesOn, GoesOnByScript, StopsForGood};

mod chip;
mod image;
mod simulating;

pub use chip::Chip84;
pub use image::port;
pub use simulating::simulate84;

/// What is unknown after power-on. `flags` is below 8 and has Z, DC and C as bits 2, 1 and 0.
/// The bytes of `ram` are the 68 general bytes in order of address.
#[derive(Clone, Copy)]
pub struct Start84 {
    pub w: u8,
    pub fsr: u8,
    pub flags: u8,
    pub ram: [u8; 68],
}

/// A chip of the family whose tables pass a test is beside the first one as long as each instruction of that keeps within what both have; and
/// which chips pass it.
pub fn members_keep_step()
    ensures law { FamilyKeepsStep }
    ensures members { MembersFit }
{}

/// As long as each instruction of the first chip keeps within what both chips have, the second one is beside it.
pub fn runs_in_lockstep()
    ensures { Lockstep }
{}

/// Each word of an image that is ported has the row of the word before, with the operand of the second chip.
pub fn images_port()
    ensures { ImagesPort }
{}

/// Runs over a board are runs from reset: what `simulate84` does from a moment of such a run on leads to a later moment of it.
/// The arrivals are the board's answers to `tick`, and its answers to `read` are the bytes of the input list. Where `simulate84` stops,
/// the run from reset has ended.
pub fn runs_go_on()
    ensures arrivals { MasksAreArrivals }
    ensures first { BeginsAtReset }
    ensures goes_on { GoesOn }
    ensures by_script { GoesOnByScript }
    ensures stops { StopsForGood }
{}

/// Single steps of the second chip from random states, whose results come from a model in another language that was written apart from
/// these definitions.
pub fn worked_states()
    ensures { WorkedStates }
{}
