//! From the passes to the headline: what the compiler's passes answer is what the links between languages ask for, and by the links what an
//! image does on the chip is a run of its source.
//!
//! In: nothing; the crate has definitions, and theorems about them. Out: nothing.
//! The promise: given code in every language that is what the links ask for, the headline holds of the image: its trace is a prefix of the
//! source's, its next steps come in time, static bytes hold what was last written, the return stack and frames stay as they are to, and main is
//! met soon, for every start, input list and arrival list. So, while no step of the source is undefined, each run stays within its code, its map, and the device registers that the code
//! names. Of the clauses of the passes (byte code, blocks, selects, addresses, words and
//! places) follow the premises under which the links are proved. The blocks that the pass over symbolic code makes follow the given ones, under
//! every schedule, and cost no less than the instructions of these that count; and the prices of the given blocks by which they cost no more
//! are within the bounds that selection and the helpers were counted with. Each device register that the blocks name is one that the program
//! names.
#![tactic(auto)]

mod image_links;
mod lean_links;
mod linked;

pub use image_links::{
    assembly_is_had, beginning_is_had, blocks_have_room, bodies_are_had, calls_are_had,
    layout_is_had, lean_is_had, maps_are_written, operands_have_addresses, registers_are_named,
    selection_is_had, selects_are_had, start_is_had, translations_are_faithful,
    translations_are_linked, translations_stay_within,
};
pub use lean_links::lean_blocks_follow;
pub use linked::links_make_headline;
