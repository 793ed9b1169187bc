//! The outside of the compiler, as a trait, with a host in memory and the real one.
//!
//! In: names, bytes to write and to print. Out: the bytes of files, and whether a call failed.
//! The promise: each call changes only what it says, and fails only where it counts a fault.
#![tactic(auto)]

mod host;
mod memory;
mod real;
mod whole;

pub use host::{Host, HostError};
pub use memory::{Fail, MemoryHost};
pub use real::RealHost;
pub use whole::{read_whole, write_whole};
