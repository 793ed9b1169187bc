//! The numbers of a typed program are of their types.
//!
//! In: a typed program. Out: nothing.
//! The promise: each constant of the program as pure data, and each label of a switch, is one that its type holds, and the bytes that
//! static objects begin with and the characters of strings are below 256. Values of the code are so by themselves; what is proved of runs speaks of pure data.
#![tactic(auto)]

mod numbers;

pub use crate::numbers::see_numbers;
