//! Why a text is refused.

ghost use Rattle.std.specs.Prelude.{◌≡◌};
ghost use Rattle.picc_core.specs.Errors as stated;
ghost use Rattle.picc_core.specs.declared.refusal.CompileError.TheVariants.{NoMemory, Refused};
ghost use Rattle.picc_core.specs.declared.refusal.Refusal.TheVariants as refusals;

use c_check::{CheckError, Kind, RootKind};
use c_parse::ParseError;
use c_pre::PreError;
use c_token::LexError;
use call_graph::GraphError;
use ram_place::PlaceError;
use std::alloc::AllocError;

/// A limit on texts (the project's own).
#[derive(Clone, Copy, PartialEq, Eq)]
pub enum LimitKind {
    /// The text has more than 262,144 bytes.
    Text,
    /// A name has more than 255 bytes.
    Identifier,
    /// The tokens left and the names replaced are together over 262,144.
    Tokens,
    /// More than 64 of `(`, `[` and `{` are open at a token.
    Nesting,
    /// More than 8,192 tokens stand in a row without `;`, `{` or `}`.
    Run,
}

/// The first refusal of a text. A line is counted from 1, and is 0 where the text is too long.
#[derive(Drop)]
pub enum Refusal {
    /// No token stands at a place on this line, or a comment, character constant or string that begins on
    /// it isn't closed.
    Lex { line: u32 },
    /// An excluded word stands on this line.
    Word { line: u32 },
    /// A line that begins with `#` is no directive of the language.
    Directive { line: u32 },
    /// The tokens are the spelling of no tree.
    Syntax { line: u32 },
    /// A rule on names and types is broken at a node on this line.
    Typing { kind: Kind, line: u32 },
    /// This function reaches itself.
    Recursion { function: Vec<u8> },
    /// A rule on main and the interrupt handler is broken.
    Roots { kind: RootKind },
    /// The calls take so many words of the return stack, and it has eight.
    Depth { depth: u32 },
    /// The static object of this name, or the frame of a copy of the function of this name, has no address.
    Ram { object: Vec<u8> },
    /// The blocks don't fit into the pages; they have so many words in all.
    Code { words: u64 },
    /// The block of this function has so many words, and a page has 2,048.
    Page { function: Vec<u8>, words: u64 },
    /// A limit is passed on this line.
    Limit { kind: LimitKind, line: u32 },
}

/// Why a text isn't compiled.
#[derive(Drop)]
pub enum CompileError {
    NoMemory,
    Refused(Refusal),
}

impl From<AllocError> for CompileError {
    ghost from_gives = { λ _ e. e ≡ NoMemory };

    fn from(_: AllocError) -> CompileError {
        CompileError::NoMemory
    }
}

impl From<LexError> for CompileError {
    ghost from_gives = { λ error e. e ≡ stated.of_lex error };

    fn from(error: LexError) -> CompileError {
        match error {
            LexError::NoMemory => CompileError::NoMemory,
            LexError::Bad { line } => CompileError::Refused(Refusal::Lex { line }),
            LexError::Identifier { line } => limit(LimitKind::Identifier, line),
        }
    }
}

impl From<PreError> for CompileError {
    ghost from_gives = { λ error e. e ≡ stated.of_pre error };

    fn from(error: PreError) -> CompileError {
        match error {
            PreError::NoMemory => CompileError::NoMemory,
            PreError::Word { line } => CompileError::Refused(Refusal::Word { line }),
            PreError::Directive { line } => CompileError::Refused(Refusal::Directive { line }),
            PreError::Tokens { line } => limit(LimitKind::Tokens, line),
        }
    }
}

impl From<ParseError> for CompileError {
    ghost from_gives = { λ error e. e ≡ stated.of_parse error };

    fn from(error: ParseError) -> CompileError {
        match error {
            ParseError::NoMemory => CompileError::NoMemory,
            ParseError::Nesting { line } => limit(LimitKind::Nesting, line),
            ParseError::Run { line } => limit(LimitKind::Run, line),
            ParseError::Syntax { line } => CompileError::Refused(Refusal::Syntax { line }),
        }
    }
}

impl From<CheckError> for CompileError {
    ghost from_gives = { λ error e. e ≡ stated.of_check error };

    fn from(error: CheckError) -> CompileError {
        match error {
            CheckError::NoMemory => CompileError::NoMemory,
            CheckError::Kind { kind, line } => {
                CompileError::Refused(Refusal::Typing { kind, line })
            }
        }
    }
}

impl From<GraphError> for CompileError {
    ghost from_gives = { λ error e. e ≡ stated.of_graph error };

    fn from(error: GraphError) -> CompileError {
        match error {
            GraphError::NoMemory => CompileError::NoMemory,
            GraphError::Roots { kind } => CompileError::Refused(Refusal::Roots { kind }),
            GraphError::Recursion { function } => {
                CompileError::Refused(Refusal::Recursion { function })
            }
            GraphError::Depth { depth } => CompileError::Refused(Refusal::Depth { depth }),
        }
    }
}

impl From<PlaceError> for CompileError {
    ghost from_gives = { λ error e. e ≡ stated.of_place error };

    fn from(error: PlaceError) -> CompileError {
        match error {
            PlaceError::NoMemory => CompileError::NoMemory,
            PlaceError::Ram { object } => CompileError::Refused(Refusal::Ram { object }),
        }
    }
}

/// The refusal for a limit that is passed on a line.
pub fn limit(kind: LimitKind, line: u32) -> CompileError
    ensures { result ≡ Refused (refusals.Limit kind line) }
{
    CompileError::Refused(Refusal::Limit { kind, line })
}
