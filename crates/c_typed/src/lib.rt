//! The typed tree of a C program: what the checker makes, and what all passes after it take.
//!
//! In: the tables of a program that fit one another. Out: its types, sizes, constants and counts.
//! The promise: each ends on every tree; types, forms of places and integer constant expressions are those that specs/
//! defines, and `Typed::nodes` is the count of nodes that it defines, by recursion on the tree. A `Typed` is sound, as
//! specs/Sound.antt says: what a node names is there with its declared type, the typing rules hold at each node, and
//! nodes, static objects, parameters and locals are together at most 2 to the 28. Whoever makes one shows that.
#![tactic(auto)]

mod calls;
mod expression;
mod folding;
mod nodes;
mod program;
mod sameness;
mod statement;
mod types;

pub use calls::{FnId, Helper, int_helper};
pub use expression::{LogicalOp, Object, PlaceForm, StepOp, TExpr, TPlace};
pub use folding::Folded;
pub use program::{Function, Initial, InitialByte, RootKind, Static, Typed, Variable};
pub use sameness::{is_array, is_int, is_pointer, is_scalar, is_void, same_type};
pub use statement::{LoopForm, TArm, TCase, TItem, TStmt};
pub use types::{Member, Qualified, Structure, Ty, bytes_of};
