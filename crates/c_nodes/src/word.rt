//! The tokens that a tree keeps: each with its line.

ghost use Rattle.std.specs.Prelude.{◌<◌, ◌≤◌};
ghost use Rattle.c_nodes.specs.Kinds.{tier_of};

use c_token::{Keyword, Punct};

/// An identifier (ISO/IEC 9899:1990, 6.1.2): its bytes, and its line, counted from 1.
#[derive(Drop)]
pub struct Name {
    pub bytes: Vec<u8>,
    pub line: u32,
}

/// A string literal (ISO/IEC 9899:1990, 6.1.4): its bytes as they stand in the source, quotes
/// included, and its line.
#[derive(Drop)]
pub struct Text {
    pub bytes: Vec<u8>,
    pub line: u32,
}

/// A keyword that stands where several could, and its line.
#[derive(Clone, Copy, PartialEq, Eq)]
pub struct Word {
    pub keyword: Keyword,
    pub line: u32,
}

/// An operator that stands where several could, and its line.
#[derive(Clone, Copy, PartialEq, Eq)]
pub struct Sign {
    pub punct: Punct,
    pub line: u32,
}

/// An operator between two operands (ISO/IEC 9899:1990, 6.3.5 to 6.3.14), from `*` in tier 1 to `||` in tier 10. The comma
/// is none: it stands in a list of its own.
#[derive(Clone, Copy)]
pub struct Infix {
    pub sign: Sign,
    pub ghost binds: { 0 < tier_of sign.punct },
    pub ghost no_comma: { tier_of sign.punct ≤ 10 },
}

/// An integer or a character constant (ISO/IEC 9899:1990, 6.1.3), and its line.
#[derive(Clone, Copy, PartialEq, Eq)]
pub enum Constant {
    /// Its value, its base (2, 8, 10 or 16), and which suffixes it has.
    Int {
        value: u32,
        base: u8,
        unsigned_suffix: bool,
        long_suffix: bool,
        line: u32,
    },
    /// The code of the character, 0 to 255.
    Char {
        value: u8,
        line: u32,
    },
}

/// A `*` of a declarator or of a type name, and the words `const` and `volatile` after it
/// (ISO/IEC 9899:1990, 6.5.4).
#[derive(Drop)]
pub struct Pointer {
    pub star: u32,
    pub qualifiers: Vec<Word>,
}
