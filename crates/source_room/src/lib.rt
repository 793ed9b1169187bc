//! How much of a stack a run of the source needs.
//!
//! In: a typed program. Out: a number of entries.
//! The promise: at each moment of a run of a proper program in which no function reaches itself the stack has at most so many
//! entries. A machine of the source reserves so many, and needs no memory for its stack later. A long text needs few: it counts how
//! deep its functions are, and how many of them are active at a time.
#![tactic(auto)]

mod room;

ghost use Rattle.source_room.specs.Laws.{StackIsShallow, StackIsWithinWays, StackIsWithinDepth};

pub use crate::room::{deepest_function, most_entries, room_for};

/// At each moment of a run the stack is within what the longest ways through the functions' bodies need: for each root all functions
/// together, or those along the longest way of calls from it; and within what the deepest function needs for each one that is active.
pub fn stack_is_shallow()
    ensures shallow { StackIsShallow }
    ensures ways { StackIsWithinWays }
    ensures depth { StackIsWithinDepth }
{}
