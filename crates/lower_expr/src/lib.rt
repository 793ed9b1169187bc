//! Expressions of the typed tree become structured byte code.
//!
//! In: a typed expression, the function copy that it stands in, where the copy's variables stand in its frame, and the
//! offset from which the frame is free. Out: operations that evaluate the expression, and leave its value at that offset
//! where it is wanted, after those that are there.
//! The promise: the operations are those of specs/Lowering.antt, a recursion on the tree, and without memory for them
//! nothing is added.
//! Values of operands stand one after the other from that offset on. Evaluation goes from left to right: a place, then
//! the value that it is given, and then the store (ISO/IEC 9899:1990, 6.3, leaves the order open).
#![tactic(auto)]

mod assignments;
mod expression;
mod offsets;
mod operators;
mod places;
mod structures;

pub use core_puts::{
    behind, beyond, byte_at, frame_byte, is_wider, number_type, operation_type, put, put_address,
    put_call, put_convert, put_copies, put_copy, put_if, put_leave, put_loop, put_many, put_number,
    put_operator, put_set, put_zeros,
};
pub use expression::{lower_address, lower_expr};
pub use places::{Locals, Spot, bytes_of_place, bytes_of_value, fixed_byte, spot_of, width};
pub use structures::lower_struct_to;
