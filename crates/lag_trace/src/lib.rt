//! Lag by calls, leaves and repeats: byte code keeps pace with the source by its marks alone, accesses not counted.
//!
//! In: nothing; the crate has definitions, and theorems about them. Out: nothing.
//! The promise: of every typed program that is as `IsLowerable` says, and its copies, under every schedule and as long as no step of the
//! source is undefined, byte code follows the source at the costs that lowering promises; and by each moment fewer steps of the source are
//! counted than its marks so far and one, times 200 for each node of the program, or byte code rests there. Marks are calls, leaves but main's
//! own, repeats of loops and entries of the handler; accesses to static objects and frames are none. So a pass that keeps the marks, and
//! leaves accesses out, keeps this bound.
#![tactic(auto)]

ghost use Rattle.lag_trace.specs.Laws.{KeepsPace, MarksCost, MarksServe};

/// Byte code keeps pace with the source by its marks, of each program that is as `IsLowerable` says, under each schedule and from any input of
/// bytes, as long as no step of the source is undefined.
pub fn keeps_pace()
    ensures { KeepsPace }
{}

/// Each mark of a run of byte code is sure to take an instruction: its marks are no more than what it costs at least.
pub fn marks_cost()
    ensures { MarksCost }
{}

/// The run of the same code in which no access to a variable is sure to take an instruction follows the marked run, and costs no less.
pub fn marks_serve()
    ensures { MarksServe }
{}
