//! Sizes and addresses: how many bytes a function's frame has, how many words its block, and where the static objects
//! and the frames stand in the chip's memory.
//!
//! In: a typed program and its function copies; static objects that are left out, and the top of memory. Out: sizes, and the lines of a map.
#![tactic(auto)]

mod amount;
mod frame;
mod leaving;
mod naming;
mod placing;
mod room;
mod words;

pub use frame::{block_words, frame_bytes, start_words, start_words_but, variable_bytes};
pub use pic_map::Placed;
pub use placing::{PlaceError, place, place_below, place_but, place_within};
