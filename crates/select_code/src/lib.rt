//! Instruction selection for operations on single bytes, and for all control.
//!
//! In: operations of structured byte code, and the block that their code goes to. Out: the block with that code after
//! what it had.
//! The promise: nothing but appending. The one recursion over control serves other operations too, by what is given for
//! them.
#![tactic(auto)]

mod control;
mod loops;
mod pieces;
mod sized;

pub use control::{Ending, Wide, select_body, select_byte, select_with};
pub use loops::Loops;
pub use pieces::{
    Flag, behind, put_clear, put_copy, put_file, put_flag, put_number, put_set, put_store, put_test,
};
