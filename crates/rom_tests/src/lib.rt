//! Programs whose const arrays of characters are read by calls: a few texts, each with what the pass makes of it.
//!
//! In: texts of C, each on a line behind what is wanted of it, which was worked out by hand. Out: nothing; these are tests
//! of rom_tables.
#![tactic(auto)]

#[cfg(test)]
mod outlines;
