//! The source machine: what a typed program does, one step at a time, and which steps are undefined.
//!
//! In: a typed program, a map that tells where its objects stand, input bytes and arrivals of interrupt flags. Out: the
//! program's steps, each with the event that it makes.
//! The promise: each step is the next one of the run by the definitions of src_rules, with the same event, or undefined with the same
//! kind and line, or there is none, exactly where the definitions have it so; what `new` makes room for suffices for the whole run. Every
//! call ends, an undefined step is the last one, and counts of steps and of runs are those of the run.
#![tactic(auto)]

mod accesses;
mod expressions;
mod giving;
mod machine;
mod operators;
mod progress;
mod statements;

pub use machine::SrcEnd;
pub use progress::Source;
pub use src_values::Undef;
