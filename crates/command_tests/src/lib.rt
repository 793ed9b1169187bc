//! The commands over a host in memory: worked programs with their files, traces, refusals and statuses, and hostile files.
//!
//! In: words, texts and files written out by hand, most of them as the lines of tables. Out: nothing; these are tests.
#![tactic(auto)]

#[cfg(test)]
mod build_tests;
#[cfg(test)]
mod chip_tests;
#[cfg(test)]
mod generating_tests;
#[cfg(test)]
mod second_tests;
#[cfg(test)]
mod tables;
#[cfg(test)]
mod trace_tests;
#[cfg(test)]
mod words_tests;
#[cfg(test)]
mod worked_programs;
