//! The routines that do what the chip has no instruction for: products, quotients, remainders, and shifts by a variable.
//!
//! In: which routine, for which root, and the number of its copy. Out: its block of symbolic code, without selects.
//!
//! A caller puts the operands into the front of the routine's frame, the left one first, and finds the answer in the
//! result bytes of its root. Of the count of a shift only the lowest byte is put. A routine reads and writes its own frame,
//! the result bytes, W and the flags alone, and ends by RETURN. Each is written once for both widths, of 2 and 4 bytes.
//!
//! A product is made by shifting and adding (for each bit of the left operand, from the highest one, the answer is doubled
//! and the right operand is added where the bit is 1). A quotient and its remainder are made by long division in base 2,
//! of magnitudes; a signed one takes its sign at the end, so that it is rounded toward zero and the remainder has the sign
//! of the dividend (ISO/IEC 9899:1990, 6.3.5). A shift goes one bit a round.
#![tactic(auto)]

mod division;
mod emit;
mod layout;
mod product;
mod routine;
mod shift;
mod steps;

pub use routine::helper;
