//! The ways in which parsing ends without a tree.

ghost use Rattle.std.specs.Prelude.{◌≡◌};
ghost use Rattle.parse_expr.specs.declared.error.ParseError.TheVariants.{NoMemory};

use std::alloc::{AllocError, AllocFailed};

/// Why there is no tree. Each line is counted from 1.
#[derive(Clone, Copy, PartialEq, Eq, Debug)]
pub enum ParseError {
    /// Memory ran out.
    NoMemory,
    /// At a token on this line more than 64 of `(`, `[` and `{` are open.
    Nesting { line: u32 },
    /// A token on this line is the 8,193rd in a row without `;`, `{` or `}`.
    Run { line: u32 },
    /// The tokens are the spelling of no tree (ISO/IEC 9899:1990, 6.3 to 6.7, in the subset). The
    /// line is that of the token at which the parser stopped, or of the last token.
    Syntax { line: u32 },
}

impl From<AllocError> for ParseError {
    ghost from_gives = { λ _ e. e ≡ NoMemory };

    fn from(_e: AllocError) -> ParseError {
        ParseError::NoMemory
    }
}

impl<T: Drop> From<AllocFailed<T>> for ParseError {
    ghost from_gives = { λ _ e. e ≡ NoMemory };

    fn from(_e: AllocFailed<T>) -> ParseError {
        ParseError::NoMemory
    }
}
