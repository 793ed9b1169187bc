//! What the passes make of a typed program, by what each promises of its part, and what holds of its blocks.
//!
//! In: nothing; the crate has definitions, and laws about them. Out: nothing. The definitions are of blocks: the start block, and after it one for
//! each copy of a function or helper, in the order of code, as they are joined without selects (`IsJoined`), and leaner, with selects and
//! addresses (`IsPassed`); of the words that are stated of them and where blocks of so many words stand (`IsPaged`); and of the whole, from
//! a typed program to its image and its map (`IsTranslation`, `IsTranslated`).
//! The promise: the block of each copy of a function, with its selects, has at most the function's stated words, and it names bytes alone
//! that are there, which have addresses where frames and objects are placed, and device registers alone that the program names; so do the
//! routines and the start block. Each target of a jump, a call and a select of a page is there. Before a block has selects, a skip and what
//! it skips can run with no select between them, so selects can be put into each. Each leaner block is what rows make of the given block;
//! rows leave no label out. picc_core's `joined` promises such blocks and its `compile` such an image and map, and what links ask for is
//! shown of them (headline_trace).
#![tactic(auto)]

mod leaner;
mod named_targets;
mod paired_skips;
mod word_bounds;

pub use leaner::blocks_are_leaner;
pub use named_targets::targets_are_there;
pub use paired_skips::skips_are_paired;
pub use word_bounds::words_are_bounded;
