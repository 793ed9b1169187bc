//! The limits on open brackets and on runs of tokens (the project's own).

ghost use Rattle.std.specs.Prelude.{◌≡◌, ◌≤◌};
ghost use Rattle.c_parse.specs.Limits.{open_after, run_after, first_over};

use c_token::{Punct, Tok, TokKind};
use parse_expr::ParseError;

/// How many brackets may be open at a token.
const MOST_OPEN: u32 = 64;

/// How many tokens may stand in a row without `;`, `{` or `}`.
const LONGEST_RUN: u32 = 8192;

/// What was counted up to a token.
#[derive(Clone, Copy)]
struct Counts {
    brackets: u32,
    run: u32,
}

/// The error of the first token at which a limit is passed, if there is one.
pub fn over(toks: &[Tok]) -> Option<ParseError>
    ensures { result ≡ first_over 0 0 toks.now }
{
    let mut counts = Counts {
        brackets: 0,
        run: 0,
    };
    for tok in toks {
        counts = counted(counts, tok);
        if counts.brackets > MOST_OPEN {
            return Some(ParseError::Nesting { line: tok.line });
        }
        if counts.run > LONGEST_RUN {
            return Some(ParseError::Run { line: tok.line });
        }
    }
    None
}

/// The counts with one token more.
fn counted(counts: Counts, tok: &Tok) -> Counts
    requires brackets { counts.brackets ≤ 64 }
    requires run { counts.run ≤ 8192 }
    ensures brackets { result.brackets ≡ open_after counts.brackets tok.now.kind }
    ensures run { result.run ≡ run_after counts.run tok.now.kind }
{
    Counts {
        brackets: opened(counts.brackets, tok.kind),
        run: lengthened(counts.run, tok.kind),
    }
}

/// How many brackets are open after a token.
fn opened(before: u32, kind: TokKind) -> u32
    requires { before ≤ 64 }
    ensures { result ≡ open_after before kind }
{
    match kind {
        TokKind::Punct(Punct::LeftParenthesis | Punct::LeftBracket | Punct::LeftBrace) => before
            + 1,
        TokKind::Punct(Punct::RightParenthesis | Punct::RightBracket | Punct::RightBrace) => {
            before.saturating_sub(1)
        }
        _ => before,
    }
}

/// How many tokens stand in a row up to a token.
fn lengthened(run: u32, kind: TokKind) -> u32
    requires { run ≤ 8192 }
    ensures { result ≡ run_after run kind }
{
    match kind {
        TokKind::Punct(Punct::Semicolon | Punct::LeftBrace | Punct::RightBrace) => 0,
        _ => run + 1,
    }
}
