//! What is known of a text that isn't refused.

use c_check::Typed;
use call_graph::Copies;
use pic_chip::Image;
use pic_map::{Map, Placed};

/// What is known of a text that isn't refused: its typed tree, the copies of its functions, and where objects and
/// frames stand. `at` has the address of each block of code: the start block; the copies of main's root in order of
/// definition, and its helpers; the copies of the handler's root, and its helpers. `words` is the sum of the stated
/// words of all blocks.
#[derive(Drop)]
pub struct Front {
    pub typed: Typed,
    pub copies: Copies,
    pub placed: Placed,
    pub at: Vec<u16>,
    pub words: u32,
}

/// What a text is compiled to: its typed tree; the words of program memory; the map, with the addresses at which main
/// begins and at which it has ended; the sum of the stated words of all blocks, how many addresses of data memory are
/// covered, and how many words of the return stack the calls take.
#[derive(Drop)]
pub struct Built {
    pub typed: Typed,
    pub image: Image,
    pub map: Map,
    pub words: u32,
    pub ram: u16,
    pub depth: u8,
}
