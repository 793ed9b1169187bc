//! The chip in its surroundings: a board that gives it bytes and flags, and runs over any board.
//!
//! In: a chip, the PIC16F877A or another of its family, an image and a map's tracer, and a board. Out: the chip and the
//! trace after so many instructions, and what the board answered and was told.
//! The promise: chip and trace go on as the definitions of a run have it, with the board's answers as input and as
//! arrivals; and the board was asked just these.
#![tactic(auto)]

ghost use Rattle.pic_sim.specs.FromReset.{AnswersAreInput, MasksAreArrivals, BeginsAtReset, GoesOn, GoesOnByScript, StopsForGood};

mod board;
mod running;
mod script_board;
mod stepper;

pub use board::{Board, Exchange};
pub use running::{SimEnd, simulate, simulate_any};
pub use script_board::ScriptBoard;
pub use stepper::Stepper;

/// Runs over a board are runs from reset: what `simulate` does from a moment of such a run on leads to a later moment of it.
/// The input list has the board's answers to `read` as its bytes, and the arrivals are its answers to `tick`. Where
/// `simulate` stops, the run from reset has ended.
pub fn runs_go_on()
    ensures input { AnswersAreInput }
    ensures arrivals { MasksAreArrivals }
    ensures first { BeginsAtReset }
    ensures goes_on { GoesOn }
    ensures by_script { GoesOnByScript }
    ensures stops { StopsForGood }
{}
