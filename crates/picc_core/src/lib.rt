//! All passes of the compiler, one after the other.
//!
//! In: the bytes of a C text. Out: its typed tree, the copies of its functions, where objects, frames and blocks of code
//! stand, and how many words they are stated to have; its image and its map; or why the text is refused. And of a built program
//! and a script: how many events its run on the chip has, or the undefined step that its source meets beside it.
//! The promise: a refusal tells what it says of the text, and the first one of the text's tokens is told unless memory runs out. What is
//! accepted has a tree, and the typed program of the answer is the one that the rules on names and types give to it. It breaks no rule on
//! main and the handler, has no function that reaches itself, and fits the return stack; its objects, frames and blocks stand where they
//! are to stand, and image and map are what the passes make of it, so that the headline holds of them. A text isn't both accepted and refused.
#![tactic(auto)]

mod agreeing;
mod code_order;
mod compiling;
mod deciding;
mod for_second;
mod joining;
mod known;
mod leaner;
mod limits;
mod refusal;
mod stages;
mod stated;
mod typing;

pub use agreeing::agree;
pub use c_check::{Kind, RootKind};
pub use compiling::{Codes, codes_of, compile, compile_plain};
pub use deciding::accepted_or_refused;
pub use for_second::{Compile84Error, accepted_or_refused84, compile84};
pub use known::{Built, Front};
pub use limits::{Limits, second_chip, whole_chip};
pub use refusal::{CompileError, LimitKind, Refusal};
pub use run_compare::Agreed;
pub use src_machine::Undef;
pub use stages::{front, front_within, typed_of};
pub use typing::one_typing;
