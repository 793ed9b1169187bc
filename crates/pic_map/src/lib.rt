//! Map files: where a program's main begins and ends, and where its objects and frames stand.
//!
//! In: a map, or the text of a map file; the program counters and the accesses of a run; an event of it. Out: the
//! text of the map's file, or the map; the events that the run makes; the line that is printed for an event.
//! The promise: the text is the one fixed form of that map and a map file of it; a text is read exactly
//! where it is a map file, and what is read is its content; the events are those of the run's definition; an
//! event's line has the map's names.
#![tactic(auto)]

ghost use Rattle.std.specs.Prelude.{◌≡◌, ℕ, List};
ghost use Rattle.pic_map.specs.MapContent.{MapContent};
ghost use Rattle.pic_map.specs.MapFile.{IsMapFile};
ghost use Rattle.pic_map.specs.MapExample.{example_text, example_map};

mod cells;
mod events;
mod read;
mod tracer;
mod write;

pub use events::event_line;
use pic_world::Root;
pub use read::{MapError, read_map};
pub use tracer::Tracer;
pub use write::write_map;

/// Where a static object stands. `fixed` for one that is const; the address is one of data memory,
/// below 200h, and the size is in bytes, 0 to 352.
#[derive(Drop)]
pub struct ObjLine {
    pub fixed: bool,
    pub name: Vec<u8>,
    pub address: u16,
    pub size: u16,
}

/// Where the frame of a function copy stands, and whose copy it is. Address and size are as in `ObjLine`.
#[derive(Drop)]
pub struct FrameLine {
    pub root: Root,
    pub name: Vec<u8>,
    pub address: u16,
    pub size: u16,
}

/// Where everything stands: the lines for the static objects in order of declaration, and for the frames of the function
/// copies in their order; and how many addresses they cover.
#[derive(Drop)]
pub struct Placed {
    pub objects: Vec<ObjLine>,
    pub frames: Vec<FrameLine>,
    pub ram: u16,
}

/// What a map file tells: the addresses of program memory, below 2000h, at which main begins and halts;
/// the static objects, in order; and the frames, in the order of placing.
#[derive(Drop)]
pub struct Map {
    pub main: u16,
    pub halt: u16,
    pub objects: Vec<ObjLine>,
    pub frames: Vec<FrameLine>,
}

/// Each text has one content at most.
pub fn one_content()
    ensures { (text : List ℕ) (a b : MapContent) → IsMapFile text a → IsMapFile text b → a ≡ b }
{}

/// The definition of map files at an example that was worked out by hand.
pub fn worked_example()
    ensures { IsMapFile example_text example_map }
{}
