//! The search for a certificate. How it is found is nobody's concern: what it says is tested.

mod bits;
mod bodies;
mod choosing;
mod deciding;
mod differing;
mod effects;
mod known;
mod learning;
mod living;
mod planning;
mod reach;

pub use planning::{BlockPlan, Plan, Plans, search};
