//! Blocks that stand for others: a bit of PCLATH is the same for all blocks whose pages have the same bit, so facts name one of these.

ghost use Rattle.std.specs.Prelude.{◌≡◌, ◌∷◌, [], true, MatchOption};
ghost use Rattle.code_place.specs.Instructions.{known};
ghost use Rattle.code_place.specs.Layouts.{page_of};
ghost use Rattle.code_place.specs.Places.{block_place};
ghost use Rattle.sym_code.specs.Effect as effects;
ghost use Rattle.flow_facts.specs.Facts.{AreMates};
ghost use Rattle.flow_facts.specs.Mates as stated;
ghost use Rattle.flow_facts.specs.Stored.{facts_of};

use crate::facts::FlowFacts;
use bank_page::known::same_block;
use std::alloc::{AllocError, Global};
use sym_code::{BlockName, PageBit, SymBlock};

// A call and a jump reach within a page of program memory (Microchip data sheet DS39582, PCL and PCLATH).
const PAGE_WORDS: u16 = 2048;

// The bit of a page that a bit of PCLATH sets.
fn page_bit(bit: PageBit, page: u16) -> u16
    ensures { result ≡ effects.page_bit bit page }
{
    match bit {
        PageBit::Low => page % 2,
        PageBit::High => page / 2 % 2,
    }
}

// Where a block begins; 0, where it isn't there.
fn place_of(blocks: &[SymBlock], at: &[u16], name: BlockName) -> u16
    ensures { result ≡ known (block_place blocks.now at.now name) }
{
    match blocks {
        [] => 0,
        [block, more @ ..] => match at {
            [] => 0,
            [start, rest @ ..] => {
                if same_block(block.name, name) {
                    *start
                } else {
                    place_of(more, rest, name)
                }
            }
        },
    }
}

// The bit of a block's page.
fn bit_of(blocks: &[SymBlock], at: &[u16], bit: PageBit, name: BlockName) -> u16
    ensures { result ≡ effects.page_bit bit (page_of blocks.now at.now name) }
{
    page_bit(bit, place_of(blocks, at, name) / PAGE_WORDS)
}

// ---- the search
// The first block whose page has the bit so. The start block stands for itself, so it comes before all others.
fn first_with(blocks: &[SymBlock], at: &[u16], bit: PageBit, wanted: u16) -> BlockName {
    if bit_of(blocks, at, bit, BlockName::Start) == wanted {
        return BlockName::Start;
    }
    for (number, block) in blocks.iter().enumerate() {
        if let Some(start) = at.get(number) {
            if page_bit(bit, *start / PAGE_WORDS) == wanted {
                return block.name;
            }
        }
    }
    BlockName::Start
}

/// The blocks that stand for copies, by the copies' numbers: the first one whose page has the bit clear, or set.
pub fn find_mates(
    alloc: Global,
    blocks: &[SymBlock],
    at: &[u16],
    bit: PageBit,
) -> Result<Vec<BlockName>, AllocError> {
    let clear = first_with(blocks, at, bit, 0);
    let set = first_with(blocks, at, bit, 1);
    let count = if blocks.len() < 65535 {
        blocks.len() as u16
    } else {
        0
    };
    let mut mates = Vec::new(alloc);
    for copy in 0..count {
        let is_clear = bit_of(blocks, at, bit, BlockName::Copy(copy)) == 0;
        mates.push(if is_clear { clear } else { set })?;
    }
    Ok(mates)
}

// ---- the test
fn has_same_bit(blocks: &[SymBlock], at: &[u16], bit: PageBit, a: BlockName, b: BlockName) -> bool
    ensures { result ≡ stated.same_bit (page_of blocks.now at.now) bit a b }
{
    bit_of(blocks, at, bit, a) == bit_of(blocks, at, bit, b)
}

fn first_name(list: &[BlockName]) -> Option<(BlockName, &[BlockName])>
    ensures { MatchOption result (list.now ≡ []) (λ x. list.now ≡ x.0 ∷ x.1.now) }
{
    match list {
        [] => None,
        [first, rest @ ..] => Some((*first, rest)),
    }
}

// Whether each block of a list stands for the copy whose number is the place there.
#[tactic(auto, using(crate::proofs::Stands::stand_on, crate::proofs::Stands::stand_end))]
fn all_stand(blocks: &[SymBlock], at: &[u16], bit: PageBit, mates: &[BlockName]) -> bool
    ensures { result ≡ true → stated.all_stand (page_of blocks.now at.now) bit 0 mates.now ≡ true }
{
    let mut copy: u16 = 0;
    let mut left = mates;
    while let Some((mate, rest)) = first_name(left) {
        if copy == 65535 {
            return false;
        }
        if !has_same_bit(blocks, at, bit, mate, BlockName::Copy(copy)) {
            return false;
        }
        copy += 1;
        left = rest;
    }
    true
}

/// Whether the page of each block has the bits of the pages of those that stand for it.
pub fn are_mates(facts: &FlowFacts, blocks: &[SymBlock], at: &[u16]) -> bool
    ensures { result ≡ true → AreMates (page_of blocks.now at.now) (facts_of facts.now).mate }
{
    all_stand(blocks, at, PageBit::Low, &facts.low)
        && all_stand(blocks, at, PageBit::High, &facts.high)
}
