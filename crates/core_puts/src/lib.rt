//! Operations of structured byte code, put one after the other.
//!
//! In: the code so far; the bytes that an operation reads and writes, and how many. Out: the code with the operation behind it.
//! The promise: what is put is just the operation that is named, or one for each byte of a value, lowest first, after all that was there.
//! Without memory for it the code has nothing more that counts. Offsets and numbers of bytes that have no room stay at the last one that has.
#![tactic(auto)]

mod bytes;
mod puts;

pub use bytes::{behind, beyond, byte_at, frame_byte, is_wider, number_type, operation_type};
pub use puts::{
    put, put_address, put_binary, put_bit_read, put_bit_write, put_call, put_convert, put_copies,
    put_copies_if, put_copy, put_if, put_leave, put_load, put_loop, put_many, put_number,
    put_operator, put_set, put_store, put_unary, put_zeros,
};
