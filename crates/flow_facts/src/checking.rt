//! Whether flow facts are consistent.

ghost use Rattle.std.specs.Prelude.{◌≡◌, ◌∷◌, [], false, MatchOption};
ghost use Rattle.flow_facts.specs.Stored.{facts_of};
ghost use Rattle.flow_facts.specs.Walk as stated;

use crate::facts::FlowFacts;
use crate::sharing::gives;
use crate::walk::{Place, first_of, leads_on, place_after};
use bank_page::known::Known;
use sym_code::{BlockName, Sym, SymBlock};

// Whether a block expects no more anywhere than what is known where it leads there.
#[tactic(auto, using(crate::proofs::Turns::test_on, crate::proofs::Turns::test_off, crate::proofs::Turns::test_end))]
fn block_leads(facts: &FlowFacts, own: BlockName, list: &[Sym]) -> bool
    ensures { result ≡ stated.all_hold (stated.leads (facts_of facts.now) own) (facts_of facts.now) own ((facts_of facts.now).front own) false list.now }
{
    let mut place = Place {
        fact: facts.front(own),
        behind: false,
    };
    let mut left = list;
    while let Some((sym, rest)) = first_of(left) {
        if !leads_on(facts, own, place.fact, sym) {
            return false;
        }
        place = place_after(facts, own, place, sym);
        left = rest;
    }
    true
}

fn first_block(list: &[SymBlock]) -> Option<(&SymBlock, &[SymBlock])>
    ensures { MatchOption result (list.now ≡ []) (λ x. list.now ≡ x.0.now ∷ x.1.now) }
{
    match list {
        [] => None,
        [first, rest @ ..] => Some((first, rest)),
    }
}

fn leads_in(facts: &FlowFacts, block: &SymBlock) -> bool
    ensures { result ≡ stated.holds_in (stated.leads (facts_of facts.now)) (facts_of facts.now) block.now }
{
    block_leads(facts, block.name, &block.list)
}

#[tactic(auto, using(crate::proofs::Turns::lead_on, crate::proofs::Turns::lead_off, crate::proofs::Turns::lead_end))]
fn all_lead(facts: &FlowFacts, blocks: &[SymBlock]) -> bool
    ensures { result ≡ stated.all_lead (facts_of facts.now) blocks.now }
{
    let mut left = blocks;
    while let Some((block, rest)) = first_block(left) {
        if !leads_in(facts, block) {
            return false;
        }
        left = rest;
    }
    true
}

fn is_open(facts: &FlowFacts, copy: u16) -> bool
    ensures { result ≡ stated.is_open (facts_of facts.now) copy }
{
    gives(Some(Known::nothing()), facts.front(BlockName::Copy(copy)))
}

fn is_open_at(facts: &FlowFacts, copy: Option<u16>) -> bool
    ensures { result ≡ stated.is_open_at (facts_of facts.now) copy }
{
    match copy {
        None => true,
        Some(copy) => is_open(facts, copy),
    }
}

/// Whether nothing is expected anywhere that isn't known on each way there: main and the handler, whose copy has this number, begin
/// with anything selected.
pub fn is_consistent(facts: &FlowFacts, handler: Option<u16>, blocks: &[SymBlock]) -> bool
    ensures { result ≡ stated.is_consistent (facts_of facts.now) handler blocks.now }
{
    is_open(facts, 0) && (is_open_at(facts, handler) && all_lead(facts, blocks))
}
