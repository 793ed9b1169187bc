//! Which skips stand in the compiler's code, and with what behind them.

ghost use Rattle.program_code.specs.Skips.{BodiesArePaired, RoutinesArePaired, StartIsPaired, PairedIsReady, BlocksCanSelect};

/// In each block a skip and what stands behind it, up to the first instruction that is no skip, name one byte in a bank at most, or bytes of
/// the copy's frame alone: operators of byte code work on bytes of the frame and on results, and what else skips tests a flag or one
/// byte. None of them changes what is selected, and there is an instruction behind each. A frame stands whole in a bank, so where what is
/// named has an address and stands within its frame, selects can be put into each block.
pub fn skips_are_paired()
    ensures bodies { BodiesArePaired }
    ensures routines { RoutinesArePaired }
    ensures start { StartIsPaired }
    ensures ready { PairedIsReady }
    ensures blocks { BlocksCanSelect }
{}
