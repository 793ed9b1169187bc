//! The way from a text to its tree and its typed tree.

use c_check::{CheckError, Typed, check};
use c_parse::{let_go, mark, parse};
use c_pre::tokens;
use c_token::{LexError, Tok, TokKind, raw};
use c_tree::spell;
use std::alloc::Global;
use std::test::Fail;

/// The longest text of the cases, in bytes.
const LONGEST: usize = 262_144;

/// The tokens that a text is cut into; a longer one than any case is taken for one without memory.
pub fn cut(alloc: Global, text: &[u8]) -> Result<Vec<Tok>, LexError> {
    if text.len() > LONGEST {
        return Err(LexError::NoMemory);
    }
    raw(alloc, text)
}

/// Whether a text has a tree that is spelled as its tokens are, or why it has none.
pub fn tree(alloc: Global, text: &[u8]) -> Result<String, Fail> {
    let raw = match cut(alloc, text) {
        Ok(raw) => raw,
        Err(error) => return Ok(format!(in alloc; "Lex({error:?})")?),
    };
    match tokens(alloc, text, &raw) {
        Ok(toks) => parsed(alloc, text, &mark(alloc, text, &toks)?),
        Err(error) => Ok(format!(in alloc; "Pre({error:?})")?),
    }
}

fn parsed(alloc: Global, text: &[u8], toks: &[Tok]) -> Result<String, Fail> {
    match parse(alloc, text, toks) {
        Ok(unit) => {
            let kinds = spell(alloc, &unit);
            let_go(unit);
            let found = if is_spelled(&kinds?, toks) {
                "tree"
            } else {
                "another tree"
            };
            Ok(String::from_str(alloc, found)?)
        }
        Err(error) => Ok(format!(in alloc; "Parse({error:?})")?),
    }
}

/// Whether these are the kinds of the tokens.
fn is_spelled(kinds: &[TokKind], toks: &[Tok]) -> bool {
    if kinds.len() != toks.len() {
        return false;
    }
    for (kind, tok) in kinds.iter().zip(toks) {
        if *kind != tok.kind {
            return false;
        }
    }
    true
}

/// What the checker says of a text that has a tree.
fn judged(alloc: Global, text: &[u8]) -> Result<Result<Typed, CheckError>, Fail> {
    let raw = cut(alloc, text)?;
    let toks = tokens(alloc, text, &raw)?;
    let toks = mark(alloc, text, &toks)?;
    let unit = parse(alloc, text, &toks)?;
    let typed = check(alloc, &unit);
    let_go(unit);
    Ok(typed)
}

/// The typed tree of a text.
pub fn typed(alloc: Global, text: &[u8]) -> Result<Typed, Fail> {
    Ok(judged(alloc, text)??)
}

/// The kind and the line of the rule that a text breaks.
pub fn broken_rule(alloc: Global, text: &[u8]) -> Result<String, Fail> {
    match judged(alloc, text)? {
        Ok(_) => Ok(String::from_str(alloc, "taken")?),
        Err(CheckError::Kind { kind, line }) => Ok(format!(in alloc; "{kind:?} {line}")?),
        Err(error) => Err(Fail::from(error)),
    }
}
