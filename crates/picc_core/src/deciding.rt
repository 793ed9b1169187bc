//! That a text is accepted, or refused in one way.

ghost use Rattle.std.specs.Prelude.{ℕ, List};
ghost use Rattle.picc_core.specs.Decided.{HasOneAnswer};

/// Of an accepted text no refusal is told, and of any other one at most, but for the line of `Syntax`, which is free.
pub fn accepted_or_refused()
    ensures { (text : List ℕ) → HasOneAnswer text }
{}
