//! Cases of the passes over byte code and below it, each by itself: the operations and instructions that it makes, written out by hand.
//!
//! In: byte code, and blocks of symbolic code, as texts. Out: nothing; these are tests of narrow_pass, select_code, select_wide,
//! math_helpers, isr_save, lean_pass, bank_page, flow_facts and code_place.
#![tactic(auto)]

#[cfg(test)]
mod bench;
#[cfg(test)]
mod cases;
#[cfg(test)]
mod helpers;
#[cfg(test)]
mod lean_cases;
#[cfg(test)]
mod narrow;
#[cfg(test)]
mod operations;
#[cfg(test)]
mod reading;
