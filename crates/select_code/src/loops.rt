//! The loops that an operation stands in.

ghost use Rattle.std.specs.Prelude.{◌≡◌, ◌<◌, ◌-◌, ◌^◌, ◌++◌, [], ◌∷◌, All, IfSome, OnOk, length, reverse, slice_get, take};

use std::alloc::{AllocError, Global};

/// For each loop what stood before it in the block, innermost last: below 2 ^ 63, as the length of any list is, so that each loop has
/// two numbers for its labels.
#[derive(Drop)]
pub struct Loops {
    pub starts: Vec<usize>,
    pub ghost small: { All (λ at. at < 2 ^ 63) starts.items },
}

impl Loops {
    /// No loop.
    pub fn new(alloc: Global) -> Loops
        ensures { result.starts.items ≡ [] }
    {
        Loops {
            starts: Vec::new(alloc),
        }
    }

    /// One more loop inside of these.
    pub(crate) fn enter(&mut self, at: usize) -> Result<(), AllocError>
        requires { at < 2 ^ 63 }
        ensures { OnOk result (self.new.starts.items ≡ self.old.starts.items ++ at ∷ []) }
    {
        self.starts.push(at)?;
        Ok(())
    }

    /// Without the innermost one.
    pub(crate) fn leave(&mut self)
        ensures { self.new.starts.items ≡ take (length self.old.starts.items - 1) self.old.starts.items }
    {
        let _ = self.starts.pop();
    }

    /// Where the loop that is so many loops out begins.
    #[tactic(auto, using(crate::proofs::Parts::from_back, crate::proofs::Parts::past_back))]
    pub(crate) fn out(&self, count: usize) -> Option<usize>
        ensures value { result ≡ slice_get (reverse self.now.starts.items) count }
        ensures small { IfSome result (λ at. at < 2 ^ 63) }
    {
        let held = self.starts.len();
        if count < held {
            Some(self.starts[held - 1 - count])
        } else {
            None
        }
    }
}
