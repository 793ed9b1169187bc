//! From the links to the headline: what an image does on the chip is a run of its source.

ghost use Rattle.headline_trace.specs.Linked.{MakesHeadline};

/// The headline holds of each program whose code in every language is what the links ask for.
pub fn links_make_headline()
    ensures { MakesHeadline }
{}
