//! Cases of what an optimised build keeps.
//!
//! In: texts of C, each on a line of a table behind what is kept of it, which was worked out by hand. Out: nothing; these are tests of vol_opt.
#![tactic(auto)]

#[cfg(test)]
mod objects;
