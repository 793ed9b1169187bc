//! The bytes of tokens, and the words that the language excludes.

ghost use Rattle.std.specs.Prelude.{◌≡◌};
ghost use Rattle.std.specs.Str.{bytes_eq};
ghost use Rattle.c_pre.specs.Words.{word_of, excluded_spelling, excluded_word, is_excluded, is_name, is_hash, is_opening, same_words};

use c_token::{Punct, Tok, TokKind};

/// The bytes of a token of the text.
pub fn word_of(text: &[u8], token: Tok) -> &[u8]
    ensures { result.now ≡ word_of text.now token }
{
    let start = token.start as usize;
    let end = token.end as usize;
    if start <= end && end <= text.len() {
        &text[start..end]
    } else {
        &[]
    }
}

/// Whether a word has this spelling.
pub fn spells(spelling: &[u8], word: &[u8]) -> bool
    ensures { result ≡ bytes_eq spelling.now word.now }
{
    spelling == word
}

/// A word of C90, or of the HI-TECH PICC compiler, that the subset has no meaning for.
#[derive(Clone, Copy)]
enum Excluded {
    Float,
    Double,
    Union,
    Goto,
    Extern,
    Bit,
    Bank1,
    Bank2,
    Bank3,
    Persistent,
    Asm,
    UnderscoreAsm,
    Config,
    UnderscoreInterrupt,
}

const EXCLUDED: [Excluded; 14] = [
    Excluded::Float,
    Excluded::Double,
    Excluded::Union,
    Excluded::Goto,
    Excluded::Extern,
    Excluded::Bit,
    Excluded::Bank1,
    Excluded::Bank2,
    Excluded::Bank3,
    Excluded::Persistent,
    Excluded::Asm,
    Excluded::UnderscoreAsm,
    Excluded::Config,
    Excluded::UnderscoreInterrupt,
];

impl Excluded {
    fn spelling(self) -> &'static [u8]
        ensures { result.now ≡ excluded_spelling self }
    {
        match self {
            Excluded::Float => b"float",
            Excluded::Double => b"double",
            Excluded::Union => b"union",
            Excluded::Goto => b"goto",
            Excluded::Extern => b"extern",
            Excluded::Bit => b"bit",
            Excluded::Bank1 => b"bank1",
            Excluded::Bank2 => b"bank2",
            Excluded::Bank3 => b"bank3",
            Excluded::Persistent => b"persistent",
            Excluded::Asm => b"asm",
            Excluded::UnderscoreAsm => b"__asm",
            Excluded::Config => b"__CONFIG",
            Excluded::UnderscoreInterrupt => b"__interrupt",
        }
    }
}

// The excluded word with this spelling.
#[tactic(auto, unfolding(crate::specs::Words::excluded_word))]
fn excluded_word(word: &[u8]) -> Option<Excluded>
    ensures { result ≡ excluded_word word.now }
{
    EXCLUDED
        .iter()
        .copied()
        .find(|excluded| excluded.spelling() == word)
}

/// Whether it is an excluded word.
pub fn is_excluded(text: &[u8], token: Tok) -> bool
    ensures { result ≡ is_excluded text.now token }
{
    excluded_word(word_of(text, token)).is_some()
}

/// Whether it is the kind of an identifier.
pub fn is_name(kind: TokKind) -> bool
    ensures { result ≡ is_name kind }
{
    match kind {
        TokKind::Name => true,
        _ => false,
    }
}

/// Whether it is the kind of `#`.
pub fn is_hash(kind: TokKind) -> bool
    ensures { result ≡ is_hash kind }
{
    match kind {
        TokKind::Punct(Punct::Hash) => true,
        _ => false,
    }
}

/// Whether it is the kind of `(`.
pub fn is_opening(kind: TokKind) -> bool
    ensures { result ≡ is_opening kind }
{
    match kind {
        TokKind::Punct(Punct::LeftParenthesis) => true,
        _ => false,
    }
}

/// Whether two lists of tokens have the same spellings.
#[tactic(auto, using(crate::proofs::Same::same_so_far, crate::proofs::Same::differs, crate::proofs::Same::same_all, crate::proofs::Same::other_length))]
pub fn same_words(text: &[u8], left: &[Tok], right: &[Tok]) -> bool
    ensures { result ≡ same_words text.now left.now right.now }
{
    if left.len() != right.len() {
        return false;
    }
    for i in 0..left.len() {
        if word_of(text, left[i]) != word_of(text, right[i]) {
            return false;
        }
    }
    true
}
