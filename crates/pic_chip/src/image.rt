//! Images of program memory.

ghost use Rattle.std.specs.Prelude.{◌≡◌, ◌<◌, ◌^◌, ℕ, length, slice_index, slice_set, replicate, IfOk};

use std::alloc::{AllocError, Global};
use std::marker::Model;

/// How many words program memory has (DS39582: 8K words of flash).
pub const WORDS: u16 = 8192;

/// An erased word: all of its 14 bits are 1.
pub const BLANK: u16 = 0x3fff;

/// The 8,192 words of program memory, each below 4000h.
#[derive(Drop)]
pub struct Image {
    words: Vec<u16>,
}

impl Model for Image {
    ghost use Rattle.std.specs.Prelude.{List, ℕ};
    ghost use Rattle.pic_chip.specs.Words.{AreWords};

    ghost Value = { List ℕ };

    ghost view = { λ i. i.words.items };

    ghost invariant = { λ i. AreWords i.words.items };
}

impl Image {
    ghost use Rattle.pic_chip.specs.Words.{AreWords};

    /// Memory as it is erased: 3FFFh everywhere.
    pub fn blank(alloc: Global) -> Result<Image, AllocError>
        ensures { IfOk result (λ image. image ≡ replicate 8192 0x3fff) }
    {
        let words = erased(alloc)?;
        Ok(Image { words })
    }

    /// The word at an address below 8,192.
    pub fn word(&self, at: u16) -> u16
        requires { at < 8192 }
        ensures value { result ≡ slice_index self.now at }
        ensures words { AreWords self.now }
    {
        self.words[at as usize]
    }

    /// Puts a word below 4000h at an address below 8,192.
    pub fn set(&mut self, at: u16, word: u16)
        requires at { at < 8192 }
        requires word { word < 0x4000 }
        ensures set { self.new ≡ slice_set self.old at word }
        ensures words { AreWords self.new }
    {
        self.words[at as usize] = word;
    }
}

fn erased(alloc: Global) -> Result<Vec<u16>, AllocError>
    ensures { IfOk result (λ words. words.items ≡ replicate 8192 0x3fff) }
{
    vec![in alloc; BLANK; WORDS as usize]
}
