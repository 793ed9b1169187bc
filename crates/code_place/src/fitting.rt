//! How many words symbolic code has.

ghost use Rattle.std.specs.Prelude.{◌≡◌, ◌≤◌};
ghost use Rattle.sym_code.specs.Words.{words_of_one, words_in};

use sym_code::{Sym, SymBlock};

/// How many words a symbolic instruction becomes.
pub fn words_of_one(sym: Sym) -> u64
    ensures value { result ≡ words_of_one sym }
    ensures few { result ≤ 1 }
{
    match sym {
        Sym::Label(_) => 0,
        _ => 1,
    }
}

/// How many words a block becomes: a label none, and each instruction one.
pub fn real_words(block: &SymBlock) -> u64
    ensures exact { result ≡ words_in block.now.list.items }
{
    let mut words = 0;
    for sym in &block.list {
        words += words_of_one(*sym);
    }
    words
}
