//! The tokens of a whole text.

ghost use Rattle.std.specs.Prelude.{◌≡◌, ℕ, ◌<◌, ◌≤◌, ◌+◌, ◌^◌, ◌++◌, length, drop, List, Err, MatchResult, IfOk, OnOk, IfErr, All, option_to_list};
ghost use Rattle.c_token.specs.Text.{behind, is_hash, token_of, tokens_from, tokens_of, with_any, Gives, InOrder, LiesIn, Spans};
ghost use Rattle.c_token.specs.declared.token.LexError.TheVariants.{NoMemory};

use crate::piece::{Piece, piece_at};
use crate::token::{LexError, Punct, Tok, TokKind};
use std::alloc::Global;

/// Where a byte stands: its offset in the text, its line, counted from 1, and the line of the last
/// token before it, or 0 where none stands before it.
#[derive(Clone, Copy, PartialEq, Eq)]
pub struct Position {
    pub at: usize,
    pub line: usize,
    pub last: usize,
}

// The position after one byte.
fn behind(byte: u8, place: Position) -> Position
    requires at { place.at < 2 ^ 33 }
    requires line { place.line < 2 ^ 33 }
    ensures { result ≡ behind byte place }
{
    let lines = if byte == b'\n' { 1 } else { 0 };
    Position {
        at: place.at + 1,
        line: place.line + lines,
        last: place.last,
    }
}

// The position after some bytes.
#[tactic(auto, using(crate::proofs::Passing::passes_on))]
fn advance(text: &[u8], start: Position, count: usize) -> Position
    requires size { length text.now < 2 ^ 32 }
    requires room { start.at + count ≤ length text.now }
    requires lines { start.line + count < 2 ^ 33 }
    ensures reads { tokens_from (drop start.at text.now) count start ≡ tokens_from (drop result.at text.now) 0 result }
    ensures at { result.at ≡ start.at + count }
    ensures line { result.line ≤ start.line + count }
{
    let mut place = start;
    for i in 0..count {
        place = behind(text[start.at + i], place);
    }
    place
}

fn is_hash(kind: TokKind) -> bool
    ensures { result ≡ is_hash kind }
{
    match kind {
        TokKind::Punct(Punct::Hash) => true,
        _ => false,
    }
}

fn token_of(kind: TokKind, count: usize, place: Position) -> Tok
    requires at { place.at + count < 2 ^ 32 }
    requires line { place.line < 2 ^ 32 }
    ensures { result ≡ token_of kind count place }
{
    Tok {
        kind,
        start: place.at as u32,
        end: (place.at + count) as u32,
        line: place.line as u32,
        first: place.last < place.line,
    }
}

// The token with the piece at a place, if it is one, and the place behind the piece.
#[tactic(auto, using(crate::proofs::Passing::blank_reads, crate::proofs::Passing::token_reads, crate::proofs::Passing::hash_stops, crate::proofs::Passing::bad_stops, crate::proofs::Passing::long_stops))]
fn next(text: &[u8], place: Position) -> Result<(Option<Tok>, Position), LexError>
    requires size { length text.now < 2 ^ 32 }
    requires inside { place.at < length text.now }
    requires lines { place.line ≤ place.at + 1 }
    ensures reads { MatchResult result
        (λ x. tokens_from (drop place.at text.now) 0 place ≡ with_any x.0 (tokens_from (drop x.1.at text.now) 0 x.1))
        (λ e. tokens_from (drop place.at text.now) 0 place ≡ Err e) }
    ensures onward { IfOk result (λ x. (place.at < x.1.at) × (x.1.at ≤ length text.now) × (x.1.line ≤ x.1.at + 1)) }
    ensures span { IfOk result (λ x. Spans place.at x.1.at x.0) }
{
    let line = place.line as u32;
    match piece_at(&text[place.at..]) {
        Piece::Blank(count) => Ok((None, advance(text, place, count))),
        Piece::Token(kind, count) => {
            if is_hash(kind) && place.last >= place.line {
                return Err(LexError::Bad { line });
            }
            let token = token_of(kind, count, place);
            let behind_it = Position {
                at: place.at,
                line: place.line,
                last: place.line,
            };
            Ok((Some(token), advance(text, behind_it, count)))
        }
        Piece::Bad => Err(LexError::Bad { line }),
        Piece::TooLong => Err(LexError::Identifier { line }),
    }
}

// Puts a token that was read behind the others.
fn put(tokens: &mut Vec<Tok>, token: Option<Tok>) -> Result<(), LexError>
    ensures ok { OnOk result (tokens.new.items ≡ tokens.old.items ++ option_to_list token) }
    ensures err { IfErr result (λ e. e ≡ NoMemory) }
{
    if let Some(token) = token {
        if tokens.push(token).is_err() {
            return Err(LexError::NoMemory);
        }
    }
    Ok(())
}

/// The tokens of a text (ISO/IEC 9899:1990, 6.1), in order. Each has its span in bytes, its line,
/// counted from 1, and whether it is the first on its line.
#[tactic(auto, using(crate::proofs::Order::order_more, crate::proofs::Order::order_ends, crate::proofs::Passing::with_none, crate::proofs::Passing::with_more))]
pub fn raw(alloc: Global, text: &[u8]) -> Result<Vec<Tok>, LexError>
    requires { length text.now < 2 ^ 32 }
    ensures tokens { Gives result (tokens_of text.now) }
    ensures order { IfOk result (λ v. InOrder 0 (length text.now) v.items) }
    ensures within { IfOk result (λ v. All (LiesIn (length text.now)) v.items) }
{
    let mut tokens = Vec::new(alloc);
    let mut place = Position {
        at: 0,
        line: 1,
        last: 0,
    };
    while place.at < text.len() {
        let (token, behind_it) = next(text, place)?;
        put(&mut tokens, token)?;
        place = behind_it;
    }
    Ok(tokens)
}
