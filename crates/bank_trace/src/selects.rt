//! What selects keep: code with its bank and page selects makes the events of the same code without them, each instruction at the
//! price of its selects.

ghost use Rattle.bank_page.specs.Links.{Chooses};
ghost use Rattle.flow_facts.specs.Links.{FlowsKeep};

/// What selects promise: each step of the code without them is the selects that stand there, which make no event and cost what is
/// said of them, and the same step.
pub fn selects_keep()
    ensures { Chooses }
{}

/// The same of code whose selects are those that flow facts ask for, where these are consistent.
pub fn flows_keep()
    ensures { FlowsKeep }
{}
