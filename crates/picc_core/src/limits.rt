//! How much of a chip a build may use.

ghost use Rattle.std.specs.Prelude.{◌≡◌};
ghost use Rattle.picc_core.specs.Limits as stated;

/// Limits on what is built: no object and no frame ends behind `top_of_memory`, no function's block has more than `words_of_block`
/// words, which are at most a page, and all blocks have together at most `words`.
#[derive(Clone, Copy)]
pub struct Limits {
    pub top_of_memory: u16,
    pub words_of_block: u64,
    pub words: u64,
}

/// Those of the PIC16F877A.
pub fn whole_chip() -> Limits
    ensures { result ≡ stated.whole_chip }
{
    Limits {
        top_of_memory: 0x200,
        words_of_block: 2048,
        words: 8192,
    }
}

/// Those of the PIC16F84A: objects and frames from 20h to 4Fh, and 1,024 words, all in one page.
pub fn second_chip() -> Limits
    ensures { result ≡ stated.second_chip }
{
    Limits {
        top_of_memory: 0x50,
        words_of_block: 1024,
        words: 1024,
    }
}
