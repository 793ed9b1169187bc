//! The commands over and over: on a host of which each call fails in turn, on a text and on built files that are cut anywhere, under a
//! flag before any instruction, and after any number of instructions.
//!
//! In: words, texts and files written out by hand. Out: nothing; these are tests.
#![tactic(auto)]

#[cfg(test)]
mod built_tests;
#[cfg(test)]
mod comparison_tests;
#[cfg(test)]
mod cut_tests;
#[cfg(test)]
mod fault_tests;
