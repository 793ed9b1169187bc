//! Lines that a command prints over a host, and the statuses that it ends with.
//!
//! In: a host, a line, and the status that is answered where the line is printed. Out: the exit status.
//! The promise: the line is printed whole, and the status is the given one; or the printing failed, and it is 3, or there was no memory for it,
//! and it is 9, and a prefix of the line is there. 3 is answered only for a fault of the host that was counted, and no file is created or changed.
#![tactic(auto)]

mod printing;

pub use printing::{say, say_line};
