//! What lowering keeps: for every schedule, as long as the source is defined, byte code makes the events that the source makes.
//!
//! In: nothing; the crate has definitions, and a theorem about them. Out: nothing.
//! The promise: of every typed program that is as `IsLowerable` says, and its copies, byte code follows the source, as long as no step of
//! it is undefined. Its events are those of the source, as byte code has their bytes; between any two moments it costs at most 8,000
//! instructions for each step of the language; code that takes no instruction stands for no more steps than the program has nodes; and
//! where the source rests it rests.
#![tactic(auto)]

ghost use Rattle.lower_trace.specs.Lowering.{Lowers};

/// Byte code follows the source, of each program that is as `IsLowerable` says, under each schedule and from any input of bytes, as long as no
/// step of the source is undefined.
pub fn lowering_keeps()
    ensures { Lowers }
{}
