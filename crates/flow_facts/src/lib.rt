//! Selects by flow facts: what is known of the bits that selects set, over jumps, loops and calls, and code with the selects that are
//! needed where it isn't known.
//!
//! In: symbolic code without selects, where objects and frames stand, the addresses of its blocks, and which copy is the handler. Out: the
//! same code with its selects: those that bank_page puts by straight code, but for those that set what is so already by the facts that
//! were found.
//! The promise: there are facts, of the fronts of blocks, of labels and of what calls leave, that are consistent, and know the page of a block
//! by any block whose page has the same bits; by these facts each access, jump and call finds what it needs, no select sets what is known,
//! and to each something comes, but for the start block, which is as bank_page makes it.
//! How the facts are found is nobody's concern, and how much they know isn't promised.
#![tactic(auto)]

mod checking;
mod facts;
mod laws;
mod mates;
mod search;
mod selecting;
mod sharing;
mod thinning;
mod walk;

pub use laws::thinning_keeps;
pub use selecting::selects;
