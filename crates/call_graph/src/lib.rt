//! The call graph: which functions and helpers each root reaches, and how deep its calls go.
//!
//! In: a typed program. Out: the copies of its functions, one for each root that reaches the function, in the order in
//! which their frames are placed; or why it has none.
#![tactic(auto)]

mod calls;
mod finding;
mod graph;
mod levels;
mod listing;
mod reach;
mod roots;
mod types;

pub use c_typed::{FnId, Helper};
pub use finding::{copies, copies_deeper};
pub use graph::{graph_of, number_of};
pub use reach::{reached, reversed};
pub use types::{Copies, FnCopy, GraphError};
