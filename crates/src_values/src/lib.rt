// What the source machine is about: objects and pointers to them, bytes and values, what operators give, and what a step is
// about and what waits for it.
//
// In: values, pointers, and parts of a typed program. Out: the values of operators and conversions, or why they are
// undefined; what names stand for; and whether a micro-step counts as a step, and at which line.
// The definitions are in specs/, and specs/Seen.antt has how the code's values, focuses and stacks are theirs. The promise:
// every call ends, and gives what the definitions give: of operands of any types and sorts, and of any focus and top of a
// stack. Only the byte behind the last that 64 bits number, and a fifth byte of a value, have no answer.
#![tactic(auto)]

mod arithmetic;
pub mod control;
pub mod counting;
pub mod lists;
pub mod names;
pub mod objects;
pub mod pointers;
pub mod values;

pub use objects::{Byte, CopyOf, Datum, Object, Pointer, Spot, Undef};
