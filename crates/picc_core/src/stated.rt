//! Whether blocks have at most the words that are stated of them.

ghost use Rattle.std.specs.Prelude.{◌≡◌, true};
ghost use Rattle.c_typed.specs.Nodes.{capped};
ghost use Rattle.c_typed.specs.Views.{program_of};
ghost use Rattle.program_code.specs.Stated.{words_for, AreStated, IsStated};

use c_check::Typed;
use call_graph::Copies;
use code_place::real_words;
use ram_place::{block_words, start_words};
use sym_code::{BlockName, SymBlock};

/// The words that are stated of the block of this name.
fn stated_words(typed: &Typed, copies: &Copies, name: BlockName) -> u64
    ensures { result ≡ capped (words_for (program_of typed.now) copies.now.list.items name) }
{
    match name {
        BlockName::Start => start_words(typed),
        BlockName::Copy(number) => match copies.list.get(number as usize) {
            Some(copy) => block_words(typed, copy.function),
            None => 0,
        },
    }
}

#[tactic(auto, using(crate::proofs::Within::within, crate::proofs::Within::kept))]
fn is_stated(typed: &Typed, copies: &Copies, block: &SymBlock) -> bool
    ensures stated { result ≡ true → IsStated (program_of typed.now) copies.now.list.items block.now }
    ensures exactly { IsStated (program_of typed.now) copies.now.list.items block.now → result ≡ true }
{
    real_words(block) <= stated_words(typed, copies, block.name)
}

/// Whether each block has at most the words that are stated of it.
pub(crate) fn are_stated(typed: &Typed, copies: &Copies, blocks: &[SymBlock]) -> bool
    // `true` only where it is so,
    ensures stated { result ≡ true → AreStated (program_of typed.now) copies.now.list.items blocks.now }
    // and wherever it is.
    ensures exactly { AreStated (program_of typed.now) copies.now.list.items blocks.now → result ≡ true }
{
    for block in blocks {
        if !is_stated(typed, copies, block) {
            return false;
        }
    }
    true
}
