//! That a text has one typed program at most.

ghost use Rattle.std.specs.Prelude.{ℕ, List};
ghost use Rattle.picc_core.specs.Typed.{HasOneTyping};

/// A text has one typed program at most, or breaks one rule on names and types first, and not both: it has one tree at most.
pub fn one_typing()
    ensures { (text : List ℕ) → HasOneTyping text }
{}
