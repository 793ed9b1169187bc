//! The search for flow facts: from 'nothing comes there' on, what comes to a place along one way after another is shared with what came
//! there before, until nothing changes.

ghost use Rattle.std.specs.Prelude.{◌≡◌, replicate, None, IfOk};

use crate::facts::{BlockFacts, FlowFacts};
use crate::mates::find_mates;
use crate::sharing::shared;
use crate::walk::{Place, place_after};
use bank_page::kinds::{is_retlw, is_return};
use bank_page::known::Known;
use std::alloc::{AllocError, Global};
use sym_code::{BlockName, Label, PageBit, Sym, SymBlock, Target};

/// How often all blocks are gone through, at most.
const ROUNDS: u32 = 200;

fn no_labels(alloc: Global, count: usize) -> Result<Vec<Option<Known>>, AllocError>
    ensures { IfOk result (λ labels. labels.items ≡ replicate count None) }
{
    let labels = vec![in alloc; None; count]?;
    Ok(labels)
}

// A block to which nothing comes.
fn unreached(alloc: Global, labels: usize) -> Result<BlockFacts, AllocError> {
    Ok(BlockFacts {
        front: None,
        back: None,
        labels: no_labels(alloc, labels)?,
    })
}

// Of a label with a higher number nothing will be known. Compiled blocks have none: an instruction takes a word, their numbers are below
// twice as many as a block had when it was selected, and program memory has 8,192 words.
const LABELS: usize = 65536;

// Room for each label that stands in a block. A block that lost instructions keeps its labels' numbers, so its length tells nothing.
fn room_for(block: &SymBlock) -> usize {
    let mut room = 0;
    for sym in &block.list {
        if let Sym::Label(Label::Inner(number)) = *sym {
            if number < LABELS && number >= room {
                room = number + 1;
            }
        }
    }
    room
}

fn put_labels(copies: &mut [BlockFacts], copy: u16, labels: Vec<Option<Known>>) {
    let at = copy as usize;
    if at < copies.len() {
        copies[at].labels = labels;
    }
}

fn all_unreached(alloc: Global, blocks: &[SymBlock], at: &[u16]) -> Result<FlowFacts, AllocError> {
    let mut copies = Vec::new(alloc);
    for _block in blocks {
        copies.push(unreached(alloc, 0)?)?;
    }
    for block in blocks {
        if let BlockName::Copy(copy) = block.name {
            let labels = no_labels(alloc, room_for(block))?;
            put_labels(&mut copies, copy, labels);
        }
    }
    Ok(FlowFacts {
        copies,
        low: find_mates(alloc, blocks, at, PageBit::Low)?,
        high: find_mates(alloc, blocks, at, PageBit::High)?,
    })
}

// One more way comes to a place. Answers whether less is known there than before.
fn come(place: &mut Option<Known>, fact: Option<Known>) -> bool {
    let next = shared(*place, fact);
    if next == *place {
        return false;
    }
    *place = next;
    true
}

fn come_to_front(facts: &mut FlowFacts, name: BlockName, fact: Option<Known>) -> bool {
    let BlockName::Copy(copy) = name else {
        return false;
    };
    let at = copy as usize;
    if at >= facts.copies.len() {
        return false;
    }
    come(&mut facts.copies[at].front, fact)
}

fn come_back(facts: &mut FlowFacts, name: BlockName, fact: Option<Known>) -> bool {
    let BlockName::Copy(copy) = name else {
        return false;
    };
    let at = copy as usize;
    if at >= facts.copies.len() {
        return false;
    }
    come(&mut facts.copies[at].back, fact)
}

fn come_to_inner(labels: &mut [Option<Known>], number: usize, fact: Option<Known>) -> bool {
    if number >= labels.len() {
        return false;
    }
    come(&mut labels[number], fact)
}

fn come_to_label(facts: &mut FlowFacts, own: BlockName, label: Label, fact: Option<Known>) -> bool {
    let BlockName::Copy(copy) = own else {
        return false;
    };
    let Label::Inner(number) = label else {
        return false;
    };
    let at = copy as usize;
    if at >= facts.copies.len() {
        return false;
    }
    come_to_inner(&mut facts.copies[at].labels, number, fact)
}

fn come_to(facts: &mut FlowFacts, own: BlockName, target: Target, fact: Option<Known>) -> bool {
    match target {
        Target::Block(name) => come_to_front(facts, name, fact),
        Target::Label(label) => come_to_label(facts, own, label, fact),
    }
}

// A block that goes on in another one leaves what that leaves.
fn come_through(facts: &mut FlowFacts, own: BlockName, target: Target) -> bool {
    match target {
        Target::Block(name) => {
            let back = facts.back(name);
            come_back(facts, own, back)
        }
        Target::Label(_) => false,
    }
}

fn go_to(facts: &mut FlowFacts, own: BlockName, target: Target, fact: Option<Known>) -> bool {
    let through = come_through(facts, own, target);
    let to = come_to(facts, own, target, fact);
    through || to
}

// Where an instruction leads to, this much is known. Answers whether less is known anywhere than before.
fn go_on(facts: &mut FlowFacts, own: BlockName, fact: Option<Known>, sym: Sym) -> bool {
    match sym {
        Sym::Label(label) => come_to_label(facts, own, label, fact),
        Sym::Call(target) => come_to(facts, own, target, fact),
        Sym::Goto(target) => go_to(facts, own, target, fact),
        Sym::Plain(op) => is_return(op) && come_back(facts, own, fact),
        Sym::Literal { op, .. } => is_retlw(op) && come_back(facts, own, fact),
        _ => false,
    }
}

fn go_on_from(facts: &mut FlowFacts, own: BlockName, fact: Option<Known>, sym: Sym) -> bool {
    match fact {
        None => false,
        Some(_) => go_on(facts, own, fact, sym),
    }
}

fn go_through(facts: &mut FlowFacts, own: BlockName, list: &[Sym]) -> bool {
    let mut place = Place {
        fact: facts.front(own),
        behind: false,
    };
    let mut changed = false;
    for sym in list {
        changed = go_on_from(facts, own, place.fact, *sym) || changed;
        place = place_after(facts, own, place, *sym);
    }
    changed
}

fn go_round(facts: &mut FlowFacts, blocks: &[SymBlock]) -> bool {
    let mut changed = false;
    for block in blocks {
        changed = go_through(facts, block.name, &block.list) || changed;
    }
    changed
}

// A copy begins with anything selected.
fn begin_at(facts: &mut FlowFacts, copy: u16) -> bool {
    come_to_front(facts, BlockName::Copy(copy), Some(Known::nothing()))
}

/// Facts of a program's blocks at their addresses. Main is copy 0, and the handler the copy with this number.
pub fn search(
    alloc: Global,
    blocks: &[SymBlock],
    handler: Option<u16>,
    at: &[u16],
) -> Result<FlowFacts, AllocError> {
    let mut facts = all_unreached(alloc, blocks, at)?;
    begin_at(&mut facts, 0);
    if let Some(copy) = handler {
        begin_at(&mut facts, copy);
    }
    for _round in 0..ROUNDS {
        if !go_round(&mut facts, blocks) {
            return Ok(facts);
        }
    }
    Ok(facts)
}
