//! Which static objects the optimising build keeps in its trace.
//!
//! In: a typed program. Out: of each static object whether it is kept.
//! The promise: an object is kept exactly where it is volatile or has a volatile part at any depth, where a function under the handler's
//! root names it, or where its address is used anywhere; or memory runs out.
#![tactic(auto)]

ghost use Rattle.vol_opt.specs.Examples.{WorkedPrograms};
ghost use Rattle.vol_opt.specs.Laws.{AnyDepthCounts, AnyChainCounts};

mod keeping;
mod marking;
mod types;
mod volatile;

pub use keeping::kept;
pub use types::Kept;

/// However deep a volatile part stands, it is found; and so is each function that a chain of calls from the handler leads to, however long.
pub fn nothing_is_missed()
    ensures depth { AnyDepthCounts }
    ensures chains { AnyChainCounts }
{}

/// Small programs by hand, and what is kept of each.
pub fn worked_programs()
    ensures { WorkedPrograms }
{}
