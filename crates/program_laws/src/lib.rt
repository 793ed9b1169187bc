//! What holds of every accepted program: its names, how many objects it has, and the cells of its events.
//!
//! In: nothing; the crate has laws alone. Out: nothing.
//! The promise: of the tokens that a text comes to, each that is a name has the bytes of a name. Where that is so, each function of the
//! typed program that the rules give has the name of one of them, no two functions have one name, and each static object has such a name or
//! several with full stops and a number between them. Then each line of the map's objects and of the frames of copies has a name as a map file
//! has it, and no two frames have one root and one name. Objects that stand apart in data memory are few, and so are their bytes. And each
//! event of a run of a proper program is the end of main, or it names a device register by its lowest address, or a byte of one of the
//! program's static objects, so by a map of the program each event has a line.
#![tactic(auto)]

mod event_names;
mod map_names;
mod object_counts;
mod token_words;
mod typed_names;

pub use event_names::events_have_names;
pub use map_names::lines_are_named;
pub use object_counts::objects_are_few;
pub use token_words::tokens_are_words;
pub use typed_names::judged_named;
