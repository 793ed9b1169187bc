//! What the blocks of a program keep that the pass over symbolic code makes, whatever it left out.

ghost use Rattle.headline_trace.specs.LeanLinks.{LeanBlocksFollow};

/// Blocks that the pass makes follow the given ones.
pub fn lean_blocks_follow()
    ensures { LeanBlocksFollow }
{}
