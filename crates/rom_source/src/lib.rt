//! Runs of the source whose reads of tables became calls.
//!
//! In: nothing; the crate has a definition, and a law about it. Out: nothing.
//! The promise: under every schedule and from any input of bytes, as long as no step of a proper program is undefined (`IsProper`), its outlined
//! program makes the same events, no step of that is undefined before, and each counted step of the given one stands for one to four of it.
#![tactic(auto)]

ghost use Rattle.rom_source.specs.Outlining.{OutlineKeeps};

/// The outlined program follows the given one, micro-step by micro-step, as long as no step of that is undefined: of each program that is as
/// `IsProper` says, under each schedule and from any input of bytes.
pub fn outline_keeps()
    ensures { OutlineKeeps }
{}
