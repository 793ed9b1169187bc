//! Copies of functions, and why there are none.

ghost use Rattle.std.specs.Prelude.{◌≡◌};
ghost use Rattle.call_graph.specs.declared.types.GraphError.TheVariants.{NoMemory};

use c_typed::{FnId, RootKind};
use pic_world::Root;
use std::alloc::AllocError;

/// A copy of a function or helper: the root that reaches it, and its level, which is the length of the
/// longest chain of calls to it from the root.
#[derive(Clone, Copy, PartialEq, Eq)]
pub struct FnCopy {
    pub root: Root,
    pub function: FnId,
    pub level: u8,
}

/// The copies of a program in the order in which their frames are placed: main's root first, within a
/// root by level, within a level in order of definition, and the helpers after the functions. A copy's
/// number is its place in the list. `depth` is how many words of the return stack the calls take.
#[derive(Drop)]
pub struct Copies {
    pub list: Vec<FnCopy>,
    pub depth: u8,
}

/// Why a program has no copies: a rule on the roots is broken; a function reaches itself; the calls are
/// too deep.
#[derive(Drop)]
pub enum GraphError {
    NoMemory,
    Roots { kind: RootKind },
    Recursion { function: Vec<u8> },
    Depth { depth: u32 },
}

impl From<AllocError> for GraphError {
    ghost from_gives = { λ _ e. e ≡ NoMemory };

    fn from(_: AllocError) -> GraphError {
        GraphError::NoMemory
    }
}
