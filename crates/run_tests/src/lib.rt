//! Built programs on the chip, beside the runs of their sources: each program is compiled, its image is run instruction by
//! instruction, and its events must be those of the source run whose handler is called where the arrivals fell.
//!
//! In: texts of C, input bytes, arrivals. Out: nothing; these are tests.
#![tactic(auto)]

#[cfg(test)]
mod agree_tests;
#[cfg(test)]
mod chip_run;
#[cfg(test)]
mod comparing;
#[cfg(test)]
mod firmware;
#[cfg(test)]
mod interrupts;
#[cfg(test)]
mod operators;
#[cfg(test)]
mod places;
#[cfg(test)]
mod selects;
#[cfg(test)]
mod statements;
