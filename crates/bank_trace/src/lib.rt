//! What selects keep, and what they cost: code with its bank and page selects makes the events of the same code without them, each
//! instruction at the price of its selects.
//!
//! In: nothing; the crate has the proof of what is said in bank_page, and laws of prices. Out: nothing.
//! The promise: symbolic code with its selects, on the machine on which banks and pages count, follows the code without them, and is
//! as slow. Some instructions that stand one behind the other cost no more with their selects than selection and the helpers were counted
//! with. And so it is of code of which a certificate of lean_code leaves instructions out: at the prices that the code that is made has with
//! its selects, carried back to the instructions that they are of, the given code is within these bounds.
#![tactic(auto)]

mod lean_prices;
mod select_prices;
mod selects;

pub use lean_prices::{blocks_are_steady, lean_blocks_are_priced, lean_is_priced};
pub use select_prices::{cheaper_stays, selects_are_few};
pub use selects::{flows_keep, selects_keep};
