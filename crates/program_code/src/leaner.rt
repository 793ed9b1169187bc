//! What leaner blocks have in common with those that they were made of.

ghost use Rattle.program_code.specs.Leaner.{BlocksAreLeaner};

/// Of all blocks that the pass gives.
pub fn blocks_are_leaner()
    ensures { BlocksAreLeaner }
{}
