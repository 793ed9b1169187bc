//! The checker of C: from a concrete tree to a typed tree, in which each conversion is explicit.
//!
//! In: the tree of a text. Out: its typed tree, or the first node that breaks a rule on names and types.
//! Here stand declarations with their initializers, statements and functions; expressions, specifiers and declarators
//! stand in the crates below.
//! The promise: what `check` answers is the typed program that the rules on names and types (type_rules) give to the unit, or the first
//! rule that it breaks, with its kind and line, unless memory runs out.
#![tactic(auto)]

mod declaration;
mod initializer;
mod objects;
mod parts;
mod statement;
mod switch;
mod text;
mod types;
mod unit;
mod values;

pub use c_tables::error::{CheckError, Kind};
pub use c_typed::{
    Folded, Function, Initial, InitialByte, LogicalOp, LoopForm, Member, Object, Qualified,
    RootKind, Static, StepOp, Structure, TArm, TCase, TExpr, TItem, TPlace, TStmt, Ty, Typed,
    Variable, bytes_of,
};
pub use unit::check;
