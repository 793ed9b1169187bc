//! What is known along a block by flow facts, and what these expect.

ghost use Rattle.std.specs.Prelude.{◌≡◌, ◌∷◌, []};
ghost use Rattle.std.specs.Prelude.{MatchOption};
ghost use Rattle.flow_facts.specs.Stored.{facts_of};
ghost use Rattle.flow_facts.specs.Walk as stated;

use crate::facts::FlowFacts;
use crate::sharing::{gives, shared};
use bank_page::kinds::{ends, is_label, is_retlw, is_return, is_select, is_skip};
use bank_page::known::{Known, block_of};
use sym_code::{BlockName, Sym, Target};

/// What is known at a place of a block, and whether it stands after a skip.
#[derive(Clone, Copy)]
pub struct Place {
    pub fact: Option<Known>,
    pub behind: bool,
}

/// The first of a list and the others.
pub fn first_of(list: &[Sym]) -> Option<(Sym, &[Sym])>
    ensures { MatchOption result (list.now ≡ []) (λ x. list.now ≡ x.0 ∷ x.1.now) }
{
    match list {
        [] => None,
        [first, rest @ ..] => Some((*first, rest)),
    }
}

/// A select of a page with the block that stands for those of this page.
pub fn mated(facts: &FlowFacts, own: BlockName, sym: Sym) -> Sym
    ensures { result ≡ stated.mated (facts_of facts.now) own sym }
{
    match sym {
        Sym::SelectPage(bit, target) => {
            Sym::SelectPage(bit, Target::Block(facts.mate(bit, block_of(own, target))))
        }
        _ => sym,
    }
}

fn known_after(facts: &FlowFacts, own: BlockName, known: Known, sym: Sym) -> Known
    ensures { result ≡ stated.known_after (facts_of facts.now) own known sym }
{
    if is_select(sym) {
        known.learned(own, mated(facts, own, sym))
    } else {
        known.left(sym)
    }
}

// Behind an instruction that is neither a label nor a call.
fn passed(facts: &FlowFacts, own: BlockName, known: Known, behind: bool, sym: Sym) -> Option<Known>
    ensures { result ≡ stated.passed (facts_of facts.now) own known behind sym }
{
    if ends(sym) && !behind {
        None
    } else {
        Some(known_after(facts, own, known, sym))
    }
}

// Behind a call, which comes back with this.
fn called(back: Option<Known>, known: Known, behind: bool) -> Option<Known>
    ensures { result ≡ stated.called back known behind }
{
    if behind {
        shared(Some(known), back)
    } else {
        back
    }
}

fn live_after(
    facts: &FlowFacts,
    own: BlockName,
    known: Known,
    behind: bool,
    sym: Sym,
) -> Option<Known>
    ensures { result ≡ stated.live_after (facts_of facts.now) own known behind sym }
{
    match sym {
        Sym::Label(label) => facts.at_label(own, label),
        Sym::Call(target) => called(facts.back(block_of(own, target)), known, behind),
        _ => passed(facts, own, known, behind, sym),
    }
}

fn dead_after(facts: &FlowFacts, own: BlockName, sym: Sym) -> Option<Known>
    ensures { result ≡ stated.dead_after (facts_of facts.now) own sym }
{
    match sym {
        Sym::Label(label) => facts.at_label(own, label),
        _ => None,
    }
}

fn fact_after(
    facts: &FlowFacts,
    own: BlockName,
    fact: Option<Known>,
    behind: bool,
    sym: Sym,
) -> Option<Known>
    ensures { result ≡ stated.fact_after (facts_of facts.now) own fact behind sym }
{
    match fact {
        None => dead_after(facts, own, sym),
        Some(known) => live_after(facts, own, known, behind, sym),
    }
}

fn behind_after(behind: bool, sym: Sym) -> bool
    ensures { result ≡ stated.behind_after behind sym }
{
    if is_label(sym) { behind } else { is_skip(sym) }
}

/// What is known behind an instruction.
pub fn place_after(facts: &FlowFacts, own: BlockName, place: Place, sym: Sym) -> Place
    ensures fact { result.fact ≡ stated.fact_after (facts_of facts.now) own place.fact place.behind sym }
    ensures behind { result.behind ≡ stated.behind_after place.behind sym }
{
    Place {
        fact: fact_after(facts, own, place.fact, place.behind, sym),
        behind: behind_after(place.behind, sym),
    }
}

// Whether a block that goes on at a target leaves what its own callers expect.
fn leaves(facts: &FlowFacts, own: BlockName, target: Target) -> bool
    ensures { result ≡ stated.leaves (facts_of facts.now) own target }
{
    match target {
        Target::Block(name) => gives(facts.back(name), facts.back(own)),
        Target::Label(_) => true,
    }
}

fn returns(facts: &FlowFacts, own: BlockName, known: Known, does: bool) -> bool
    ensures { result ≡ stated.returns (facts_of facts.now) own known does }
{
    if does {
        gives(Some(known), facts.back(own))
    } else {
        true
    }
}

fn goes(facts: &FlowFacts, own: BlockName, known: Known, target: Target) -> bool
    ensures { result ≡ stated.goes (facts_of facts.now) own known target }
{
    gives(Some(known), facts.at_target(own, target)) && leaves(facts, own, target)
}

fn leads(facts: &FlowFacts, own: BlockName, known: Known, sym: Sym) -> bool
    ensures { result ≡ stated.leads (facts_of facts.now) own known sym }
{
    match sym {
        Sym::Label(label) => gives(Some(known), facts.at_label(own, label)),
        Sym::Call(target) => gives(Some(known), facts.at_target(own, target)),
        Sym::Goto(target) => goes(facts, own, known, target),
        Sym::Plain(op) => returns(facts, own, known, is_return(op)),
        Sym::Literal { op, .. } => returns(facts, own, known, is_retlw(op)),
        _ => true,
    }
}

/// Whether no more is expected where an instruction leads to than what is known before it.
pub fn leads_on(facts: &FlowFacts, own: BlockName, fact: Option<Known>, sym: Sym) -> bool
    ensures { result ≡ stated.holds_of (stated.leads (facts_of facts.now) own) fact sym }
{
    match fact {
        None => true,
        Some(known) => leads(facts, own, known, sym),
    }
}
