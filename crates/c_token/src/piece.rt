//! What stands at the front of a text: a blank, a comment or a token.

ghost use Rattle.std.specs.Prelude.{◌≡◌, ℕ, true, ◌+◌, ◌<◌, ◌≤◌, ◌^◌, slice_index, length, not, ◌==◌, IfSome};
ghost use Rattle.std.specs.List.{prefix_len};
ghost use Rattle.c_token.specs.Token.{keyword_of, kind_of_word, word_at, integer_at, punct_of, punctuator_at, string_at, token_at, comment_end, block_comment, is_too_long, token_piece, piece_at, FitsIn};
ghost use Rattle.c_token.specs.Bytes.{begins_name, is_decimal};
ghost use Rattle.c_token.specs.Spelling.{punct_spelling};

use crate::bytes::{begins_name, is_blank, is_decimal, name_length, number_length};
use crate::constant::{character_at, integer_of, string_end};
use crate::spelling::{KEYWORDS, PUNCTUATORS};
use crate::token::{Keyword, Punct, TokKind};

/// What stands at a place of a text, with its length in bytes.
#[derive(Clone, Copy, PartialEq, Eq)]
pub enum Piece {
    /// White space, or a whole comment.
    Blank(usize),
    Token(TokKind, usize),
    /// No token, or one or a comment that isn't closed.
    Bad,
    /// A name of more than 255 bytes.
    TooLong,
}

// The keyword with this spelling.
#[tactic(auto, unfolding(crate::specs::Token::keyword_of))]
fn keyword_of(word: &[u8]) -> Option<Keyword>
    ensures { result ≡ keyword_of word.now }
{
    KEYWORDS
        .iter()
        .copied()
        .find(|keyword| keyword.spelling() == word)
}

// The longest punctuator at the front.
#[tactic(auto, using(crate::proofs::Bounds::punct_fits), unfolding(crate::specs::Token::punct_of))]
fn punct_of(text: &[u8]) -> Option<Punct>
    ensures value { result ≡ punct_of text.now }
    ensures bound { IfSome result (λ p. length (punct_spelling p) ≤ length text.now) }
{
    PUNCTUATORS
        .iter()
        .copied()
        .find(|punct| text.starts_with(punct.spelling()))
}

fn kind_of_word(keyword: Option<Keyword>) -> TokKind
    ensures { result ≡ kind_of_word keyword }
{
    match keyword {
        Some(keyword) => TokKind::Keyword(keyword),
        None => TokKind::Name,
    }
}

// The longest name at the front: a keyword or another name, and its length.
#[tactic(auto, unfolding(crate::specs::Token::word_at))]
fn word_at(text: &[u8]) -> (TokKind, usize)
    ensures value { result ≡ word_at text.now }
    ensures some { 0 < length text.now → begins_name (slice_index text.now 0) ≡ true → 0 < result.1 }
    ensures bound { result.1 ≤ length text.now }
{
    let count = name_length(text);
    (kind_of_word(keyword_of(&text[..count])), count)
}

// All letters, digits, underscores and full stops at the front, as one integer constant.
#[tactic(auto, unfolding(crate::specs::Token::integer_at))]
fn integer_at(text: &[u8]) -> Option<(TokKind, usize)>
    ensures value { result ≡ integer_at text.now }
    ensures some { 0 < length text.now → is_decimal (slice_index text.now 0) ≡ true → IfSome result (λ x. 0 < x.1) }
    ensures bound { IfSome result (λ x. x.1 ≤ length text.now) }
{
    let count = number_length(text);
    let integer = integer_of(&text[..count])?;
    Some((integer, count))
}

#[tactic(auto, unfolding(crate::specs::Token::punctuator_at))]
fn punctuator_at(text: &[u8]) -> Option<(TokKind, usize)>
    ensures value { result ≡ punctuator_at text.now }
    ensures bound { IfSome result (λ x. (0 < x.1) × (x.1 ≤ length text.now)) }
{
    let punct = punct_of(text)?;
    Some((TokKind::Punct(punct), punct.spelling().len()))
}

// The string whose opening quote stands before, and its length with both quotes.
#[tactic(auto, unfolding(crate::specs::Token::string_at))]
fn string_at(text: &[u8]) -> Option<(TokKind, usize)>
    requires { length text.now < 2 ^ 32 }
    ensures value { result ≡ string_at text.now }
    ensures bound { IfSome result (λ x. (0 < x.1) × (x.1 ≤ length text.now + 1)) }
{
    let count = string_end(text)?;
    Some((TokKind::Text, count + 1))
}

// The token at the front, and its length.
#[tactic(auto, unfolding(crate::specs::Token::token_at))]
fn token_at(text: &[u8]) -> Option<(TokKind, usize)>
    requires { length text.now < 2 ^ 32 }
    ensures value { result ≡ token_at text.now }
    ensures bound { IfSome result (λ x. (0 < x.1) × (x.1 ≤ length text.now)) }
{
    match text {
        [] => None,
        [byte, rest @ ..] => {
            if begins_name(*byte) {
                Some(word_at(text))
            } else if is_decimal(*byte) {
                integer_at(text)
            } else if *byte == b'\'' {
                character_at(rest)
            } else if *byte == b'"' {
                string_at(rest)
            } else {
                punctuator_at(text)
            }
        }
    }
}

// Behind `/*`: the length through the first `*/`.
#[tactic(auto, using(crate::proofs::Comments::comment_closes, crate::proofs::Comments::comment_more, crate::proofs::Comments::comment_never))]
fn comment_end(text: &[u8]) -> Option<usize>
    ensures value { result ≡ comment_end text.now }
    ensures bound { IfSome result (λ n. n ≤ length text.now) }
{
    for i in 0..text.len() {
        if text[i..].starts_with(b"*/") {
            return Some(i + 2);
        }
    }
    None
}

// How many bytes stand before the line's end.
fn line_length(text: &[u8]) -> usize
    ensures bound { result ≤ length text.now }
    ensures count { result ≡ prefix_len (λ b. not (b == 10)) text.now }
{
    for (i, byte) in text.iter().enumerate() {
        if *byte == b'\n' {
            return i;
        }
    }
    text.len()
}

fn is_too_long(kind: TokKind, length: usize) -> bool
    ensures { result ≡ is_too_long kind length }
{
    match kind {
        TokKind::Name => length > 255,
        _ => false,
    }
}

fn token_piece(token: Option<(TokKind, usize)>) -> Piece
    ensures value { result ≡ token_piece token }
    ensures bound { (n : ℕ) → IfSome token (λ x. (0 < x.1) × (x.1 ≤ n)) → FitsIn n result }
{
    match token {
        Some(found) => {
            if is_too_long(found.0, found.1) {
                Piece::TooLong
            } else {
                Piece::Token(found.0, found.1)
            }
        }
        None => Piece::Bad,
    }
}

// The comment whose `/*` stands before.
fn block_comment(end: Option<usize>) -> Piece
    requires { IfSome end (λ n. n < 2 ^ 32) }
    ensures value { result ≡ block_comment end }
    ensures bound { (n : ℕ) → IfSome end (λ k. k + 2 ≤ n) → FitsIn n result }
{
    match end {
        Some(count) => Piece::Blank(count + 2),
        None => Piece::Bad,
    }
}

/// What stands at the front of a text: one byte of white space, a whole comment or a token
/// (ISO/IEC 9899:1990, 6.1 and 6.1.9; a comment may begin with `//` too, and ends before its line).
#[tactic(auto, unfolding(crate::specs::Token::piece_at))]
pub fn piece_at(text: &[u8]) -> Piece
    requires { length text.now < 2 ^ 32 }
    ensures value { result ≡ piece_at text.now }
    ensures bound { FitsIn (length text.now) result }
{
    match text {
        [] => Piece::Bad,
        [byte, ..] => {
            if is_blank(*byte) {
                Piece::Blank(1)
            } else if text.starts_with(b"//") {
                Piece::Blank(line_length(text))
            } else if text.starts_with(b"/*") {
                block_comment(comment_end(&text[2..]))
            } else {
                token_piece(token_at(text))
            }
        }
    }
}
