//! The memory of a run of the source, and the world that main, the handler and the outside share.
//!
//! In: a typed program, a map that tells where its objects stand, and a script. Out: reads and writes of single bytes with
//! the events that they make, or why they are undefined.
//! The promise: the memory at the start is the first one of the definitions; a change of it is the defined change; a byte
//! that is read or written, the kind of undefined access, the event under the map, and the world afterwards are those of
//! the definitions, in any program with at most 65,536 static objects, as long as there are fewer than 2 to the 60 events
//! and no byte of a pointer to an object that the program doesn't have is accessed. specs/ has the memory and the world
//! of the code as those of the definitions.
#![tactic(auto)]

pub mod accesses;
pub mod bits;
pub mod memory;
mod start;
pub mod world;

pub use memory::Memory;
pub use world::World;
