//! The integer types of C, and what its operators and conversions give.
//!
//! In: types, and values of them. Out: types and values.
//! The promise: each operator gives its value on whole numbers without bound, cut to the width of
//! its type, and no value exactly where the divisor is 0, where the most negative number is divided
//! by -1, and where a shift's count is below 0 or not below the width (ISO/IEC 9899:1990, 6.3).
//! Signed arithmetic wraps, `>>` of a negative number rounds down, division truncates toward zero.
#![tactic(auto)]

mod operators;
mod types;
mod value;

pub use operators::{BinOp, UnOp, apply, convert, unary};
pub use types::{IntTy, constant, promote, size, usual};
pub use value::Value;
