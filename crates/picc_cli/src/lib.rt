//! The commands of `picc`: they compile C for the PIC16F877A and the PIC16F84A, and run such programs.
//!
//! In: the words of the command line, a host with files by name, and a board around the chip. Out: files, printed lines and
//! an exit status.
//! The promise: where a build ends with 0, the text is accepted, by the rules on names and types it has a typed program, and what the HEX
//! does on the chip, seen by the map, is what that program says. Where it ends with 1, the line that is printed is that of a refusal that
//! holds of the text. Without a fault an accepted text is built and no other one is, unless memory runs out. The contract of `picc` says it in full.
#![tactic(auto)]

mod building;
mod checking;
pub mod command;
mod comparing;
mod digits;
mod dispatch;
mod generating;
mod inputs;
mod parsing;
mod refusal;
mod running;
mod say;
mod simulating;
mod summary;
mod tracing;

pub use dispatch::picc;
pub use generating::generate;
pub use say::say_refusal;
