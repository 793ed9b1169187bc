//! What code costs of which a certificate of lean_code leaves instructions out.

ghost use Rattle.bank_trace.specs.LeanPrices.{BlocksAreSteady, LeanIsDear, LeanIsPriced, LeanBlocksAreDear, LeanRoutinesArePriced};

/// Each block of a certificate that passes the test of skips is steady.
pub fn blocks_are_steady()
    ensures { BlocksAreSteady }
{}

/// Where straight instructions of the code that is made cost no more than their words with all selects that they may need, those of the
/// given code don't, at the prices of what stays.
pub fn lean_is_priced()
    ensures dear { LeanIsDear }
    ensures priced { LeanIsPriced }
{}

/// So it is of each block that a certificate makes, with its selects; and of a helper's routine, of which no more is left than asks for its
/// frame's bank and its own page.
pub fn lean_blocks_are_priced()
    ensures dear { LeanBlocksAreDear }
    ensures priced { LeanRoutinesArePriced }
{}
