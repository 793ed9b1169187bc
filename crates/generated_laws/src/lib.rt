//! The texts that `gen` prints are accepted.
//!
//! In: nothing; the crate has definitions and laws alone. Out: nothing.
//! The promise: each of the 64 generated texts is an accepted one, and its sizes are 132 + 92 K stated words, 14 addresses of data memory and
//! one word of the return stack, where K is the number of its functions.
#![tactic(auto)]

ghost use Rattle.std.specs.Prelude.{ℕ, ◌≡◌, ◌+◌, ◌*◌, ◌<◌, ◌≤◌};
ghost use Rattle.generated_laws.specs.Generated.{generated};
ghost use Rattle.generated_laws.specs.Sizes.{AreSizes};
ghost use Rattle.picc_core.specs.Decided.{IsAcceptedText};

/// A program of 1 to 64 functions is accepted, these are its sizes, and it has no others.
pub fn generated_accepted()
    ensures accepted { (functions : ℕ) → 0 < functions → functions ≤ 64 → IsAcceptedText (generated functions) }
    ensures sizes { (functions : ℕ) → 0 < functions → functions ≤ 64 → AreSizes (generated functions) (132 + 92 * functions) 14 1 }
    ensures no_others { (functions words ram depth : ℕ) → 0 < functions → functions ≤ 64 → AreSizes (generated functions) words ram depth → (words ≡ 132 + 92 * functions) × (ram ≡ 14) × (depth ≡ 1) }
{}
