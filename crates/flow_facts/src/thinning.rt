//! Code without the selects that flow facts make needless.

ghost use Rattle.std.specs.Prelude.{ℕ, ◌≡◌, ◌∷◌, ◌++◌, [], true, false, List, IfOk};
ghost use Rattle.std.specs.List.{AllZip};
ghost use Rattle.sym_code.specs.WellFormed.{is_well_formed, are_well_formed};
ghost use Rattle.sym_code.specs.declared.code.Sym.{Sym as AnySym};
ghost use Rattle.sym_code.specs.declared.code.BlockName.{BlockName as Name};
ghost use Rattle.code_place.specs.Layouts.{page_of};
ghost use Rattle.flow_facts.specs.Facts.{AreMates};
ghost use Rattle.flow_facts.specs.Selects.{LosesKnown};
ghost use Rattle.flow_facts.specs.Stored.{facts_of};
ghost use Rattle.flow_facts.specs.Thin as stated;
ghost use Rattle.flow_facts.specs.Walk.{is_consistent as are_consistent};

use crate::checking::is_consistent;
use crate::facts::FlowFacts;
use crate::mates::are_mates;
use crate::search::search;
use crate::walk::{Place, first_of, mated, place_after};
use bank_page::kinds::is_select;
use bank_page::known::{Known, same_block};
use bank_page::put_made;
use std::alloc::{AllocError, Global};
use sym_code::{BlockName, Sym, SymBlock, SymProgram};

// Whether it is a select that sets what is known to be so, or to which nothing comes.
fn is_known(facts: &FlowFacts, own: BlockName, fact: Option<Known>, sym: Sym) -> bool
    ensures { result ≡ stated.is_known (facts_of facts.now) own fact sym }
{
    match fact {
        None => is_select(sym),
        Some(known) => known.knows(own, mated(facts, own, sym)),
    }
}

// Puts an instruction, if it is none that is left out.
#[tactic(auto, using(crate::proofs::Turns::left_out, crate::proofs::Turns::put_on))]
fn put_next(
    out: &mut SymBlock,
    facts: &FlowFacts,
    place: Place,
    sym: Sym,
) -> Result<Place, AllocError>
    requires { is_well_formed sym ≡ true }
    ensures next { IfOk result (λ next. (rest : List AnySym) → out.new.list.items ++ stated.thin_from (facts_of facts.now) out.old.name next.fact next.behind rest ≡ out.old.list.items ++ stated.thin_from (facts_of facts.now) out.old.name place.fact place.behind (sym ∷ rest)) }
    ensures name { out.new.name ≡ out.old.name }
{
    if is_known(facts, out.name, place.fact, sym) {
        return Ok(place);
    }
    out.put(sym)?;
    Ok(place_after(facts, out.name, place, sym))
}

// Puts a list but for what is left out.
#[tactic(auto, using(crate::proofs::Turns::first_formed, crate::proofs::Turns::rest_formed, crate::proofs::Turns::thin_begin, crate::proofs::Turns::thin_on, crate::proofs::Turns::thin_end))]
fn put_thin(out: &mut SymBlock, facts: &FlowFacts, list: &[Sym]) -> Result<(), AllocError>
    requires fits { are_well_formed list.now ≡ true }
    requires empty { out.old.list.items ≡ [] }
    ensures name { out.new.name ≡ out.old.name }
    ensures thin { IfOk result (λ _. out.new.list.items ≡ stated.thin_from (facts_of facts.now) out.old.name ((facts_of facts.now).front out.old.name) false list.now) }
{
    let mut place = Place {
        fact: facts.front(out.name),
        behind: false,
    };
    let mut left = list;
    while let Some((sym, rest)) = first_of(left) {
        place = put_next(out, facts, place, sym)?;
        left = rest;
    }
    Ok(())
}

// Puts a list as it is.
#[tactic(auto, using(crate::proofs::Turns::first_formed, crate::proofs::Turns::rest_formed, crate::proofs::Turns::whole_on, crate::proofs::Turns::whole_end))]
fn put_whole(out: &mut SymBlock, list: &[Sym]) -> Result<(), AllocError>
    requires fits { are_well_formed list.now ≡ true }
    requires empty { out.old.list.items ≡ [] }
    ensures name { out.new.name ≡ out.old.name }
    ensures whole { IfOk result (λ _. out.new.list.items ≡ list.now) }
{
    let mut left = list;
    while let Some((sym, rest)) = first_of(left) {
        out.put(sym)?;
        left = rest;
    }
    Ok(())
}

fn thin_block(alloc: Global, facts: &FlowFacts, block: &SymBlock) -> Result<SymBlock, AllocError>
    ensures name { IfOk result (λ made. made.name ≡ block.now.name) }
    ensures code { IfOk result (λ made. made.list.items ≡ stated.without_known (facts_of facts.now) block.now) }
{
    let mut out = SymBlock::new(alloc, block.name);
    if same_block(block.name, BlockName::Start) {
        put_whole(&mut out, &block.list)?;
    } else {
        put_thin(&mut out, facts, &block.list)?;
    }
    Ok(out)
}

#[tactic(auto, using(crate::proofs::Turns::zip_none, crate::proofs::Turns::zip_more, crate::proofs::Turns::zip_all))]
fn thin_blocks(
    alloc: Global,
    facts: &FlowFacts,
    blocks: &[SymBlock],
) -> Result<Vec<SymBlock>, AllocError>
    ensures { IfOk result (λ made. AllZip (stated.IsWithoutKnown (facts_of facts.now)) blocks.now made.items) }
{
    let mut made = Vec::new(alloc);
    for block in blocks {
        let thin = thin_block(alloc, facts, block)?;
        put_made(&mut made, thin)?;
    }
    Ok(made)
}

// Facts by which nothing is known, and each block stands for itself.
#[tactic(auto, using(crate::proofs::Plain::none_consistent, crate::proofs::Stands::none_mates))]
fn none_known(alloc: Global, handler: Option<u16>, blocks: &[SymBlock]) -> FlowFacts
    ensures consistent { are_consistent (facts_of result) handler blocks.now ≡ true }
    ensures mates { (pages : Name → ℕ) → AreMates pages (facts_of result).mate }
{
    FlowFacts {
        copies: Vec::new(alloc),
        low: Vec::new(alloc),
        high: Vec::new(alloc),
    }
}

/// Facts that are consistent, of blocks at these addresses.
fn facts_for(
    alloc: Global,
    handler: Option<u16>,
    blocks: &[SymBlock],
    at: &[u16],
) -> Result<FlowFacts, AllocError>
    ensures consistent { IfOk result (λ facts. are_consistent (facts_of facts) handler blocks.now ≡ true) }
    ensures mates { IfOk result (λ facts. AreMates (page_of blocks.now at.now) (facts_of facts).mate) }
{
    let found = search(alloc, blocks, handler, at)?;
    if is_consistent(&found, handler, blocks) {
        if are_mates(&found, blocks, at) {
            return Ok(found);
        }
    }
    Ok(none_known(alloc, handler, blocks))
}

/// The program without those selects that set what is so already by the facts that were found, or to which by these nothing comes. Main
/// is copy 0, and the handler the copy with this number; block `k` begins at `at[k]`, by which blocks in one page are known. The start
/// block stays whole.
#[tactic(auto, using(crate::proofs::Whole::loses_known))]
pub fn thinned(
    alloc: Global,
    program: &SymProgram,
    handler: Option<u16>,
    at: &[u16],
) -> Result<SymProgram, AllocError>
    // By facts that are consistent, the selects that set what is known or to which nothing comes are left out, and nothing else is.
    ensures { IfOk result (λ made. LosesKnown handler at.now program.now.blocks.items made.blocks.items) }
{
    let facts = facts_for(alloc, handler, &program.blocks, at)?;
    let blocks = thin_blocks(alloc, &facts, &program.blocks)?;
    Ok(SymProgram { blocks })
}
