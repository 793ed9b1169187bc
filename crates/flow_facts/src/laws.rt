//! What thinning keeps.

ghost use Rattle.flow_facts.specs.Laws.{ThinningKeeps};
ghost use Rattle.flow_facts.specs.Links.{ThinningHasFlow};

/// Thinned code has the names of the given blocks, and without selects their lists; no block has more words, and no instruction costs
/// more with the selects before it. The facts are consistent of it, and each access, jump and call finds by them what it needs. A select
/// that sets RP1 stands in it only where one stands in the given code. So it is what the link of selects by flow facts is given.
pub fn thinning_keeps()
    ensures keeps { ThinningKeeps }
    ensures flow { ThinningHasFlow }
{}
