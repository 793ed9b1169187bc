//! The characters of strings (ISO/IEC 9899:1990, 6.1.3.4 and 6.1.4).

ghost use Rattle.std.specs.Prelude.{◌≡◌, ◌<◌, ◌≤◌, ◌+◌, length, IfOk, IfSome, MatchOption};
ghost use Rattle.std.specs.List.{prefix_len};
ghost use Rattle.c_token.specs.Bytes as bytes;
ghost use Rattle.c_token.specs.Constant as stated;
ghost use Rattle.type_rules.specs.Slots as rule;

use std::alloc::{AllocError, Global};

// What the digit stands for in a base up to 16, and 16 for a byte that is no digit.
fn digit_value(byte: u8) -> u8
    ensures value { result ≡ bytes.digit_value byte }
    ensures bound { result ≤ 16 }
{
    match byte {
        b'0'..=b'9' => byte - b'0',
        b'a'..=b'f' => byte - b'a' + 10,
        b'A'..=b'F' => byte - b'A' + 10,
        _ => 16,
    }
}

fn is_digit(base: u8, byte: u8) -> bool
    ensures { result ≡ bytes.is_digit base byte }
{
    digit_value(byte) < base
}

// How many digits of a base stand at the front.
fn digits_length(base: u8, text: &[u8]) -> usize
    ensures bound { result ≤ length text.now }
    ensures count { result ≡ prefix_len (bytes.is_digit base) text.now }
{
    for (i, byte) in text.iter().enumerate() {
        if !is_digit(base, *byte) {
            return i;
        }
    }
    text.len()
}

// The number that digits spell, if it is below 256.
#[tactic(auto, using(c_token::proofs::Values::value_more, crate::proofs::Codes::code_too_large))]
fn code_of(base: u8, digits: &[u8]) -> Option<u8>
    requires { 1 ≤ base }
    ensures { MatchOption result (256 ≤ stated.value_in base digits.now) (λ v. v ≡ stated.value_in base digits.now) }
{
    let mut value: u8 = 0;
    for digit in digits {
        let next = value as u32 * base as u32 + digit_value(*digit) as u32;
        if next > 255 {
            return None;
        }
        value = next as u8;
    }
    Some(value)
}

// The code that the digits of a numeric escape spell, if it is at most 255.
#[tactic(auto, unfolding(c_token::specs::Constant::code_in))]
fn code_in(base: u8, digits: &[u8]) -> Option<u8>
    requires { 1 ≤ base }
    ensures { result ≡ stated.code_in base digits.now }
{
    if digits.is_empty() {
        return None;
    }
    code_of(base, digits)
}

// What a letter or a mark behind a backslash stands for (6.1.3.4).
#[tactic(auto, unfolding(c_token::specs::Constant::escape_letter))]
fn escape_letter(byte: u8) -> Option<u8>
    ensures { result ≡ stated.escape_letter byte }
{
    match byte {
        b'n' => Some(10),
        b't' => Some(9),
        b'v' => Some(11),
        b'b' => Some(8),
        b'r' => Some(13),
        b'f' => Some(12),
        b'a' => Some(7),
        b'\\' | b'?' | b'\'' | b'"' => Some(byte),
        _ => None,
    }
}

// An octal escape: the digits, up to three of them, stand at the front.
#[tactic(auto, unfolding(c_token::specs::Constant::octal_escape))]
fn octal_escape(text: &[u8]) -> Option<(u8, usize)>
    ensures value { result ≡ stated.octal_escape text.now }
    ensures bound { IfSome result (λ x. (1 ≤ x.1) × (x.1 ≤ length text.now + 1)) }
{
    let front = if text.len() < 3 { text } else { &text[..3] };
    let count = digits_length(8, front);
    let code = code_in(8, &text[..count])?;
    Some((code, count + 1))
}

// A hexadecimal escape: the digits stand at the front, and as many as can be belong to it.
#[tactic(auto, unfolding(c_token::specs::Constant::hexadecimal_escape))]
fn hexadecimal_escape(text: &[u8]) -> Option<(u8, usize)>
    ensures value { result ≡ stated.hexadecimal_escape text.now }
    ensures bound { IfSome result (λ x. (1 ≤ x.1) × (x.1 ≤ length text.now + 2)) }
{
    let count = digits_length(16, text);
    let code = code_in(16, &text[..count])?;
    Some((code, count + 2))
}

// The escape whose backslash stands before, and its length with the backslash.
#[tactic(auto, unfolding(c_token::specs::Constant::escape_at))]
fn escape_at(text: &[u8]) -> Option<(u8, usize)>
    ensures value { result ≡ stated.escape_at text.now }
    ensures bound { IfSome result (λ x. (1 ≤ x.1) × (x.1 ≤ length text.now + 1)) }
{
    match text {
        [] => None,
        [byte, rest @ ..] => {
            if is_digit(8, *byte) {
                octal_escape(text)
            } else if *byte == b'x' {
                hexadecimal_escape(rest)
            } else {
                let code = escape_letter(*byte)?;
                Some((code, 2))
            }
        }
    }
}

// Whether a string shows it as it is.
fn is_plain(byte: u8) -> bool
    ensures { result ≡ bytes.is_plain 34 byte }
{
    32 <= byte && byte <= 126 && byte != b'\\' && byte != b'"'
}

// The element at the front of what a string has: its code and its length.
#[tactic(auto, unfolding(c_token::specs::Constant::element_at))]
fn element_at(text: &[u8]) -> Option<(u8, usize)>
    ensures value { result ≡ stated.element_at 34 text.now }
    ensures bound { IfSome result (λ x. (1 ≤ x.1) × (x.1 ≤ length text.now)) }
{
    match text {
        [] => None,
        [b'\\', rest @ ..] => escape_at(rest),
        [byte, ..] => {
            if is_plain(*byte) {
                Some((*byte, 1))
            } else {
                None
            }
        }
    }
}

// The same, where a byte that no element begins with counts as the code 0.
fn character_at(text: &[u8]) -> (u8, usize)
    requires { 0 < length text.now }
    ensures value { result ≡ rule.or_nothing (stated.element_at 34 text.now) }
    ensures some { 1 ≤ result.1 }
    ensures bound { result.1 ≤ length text.now }
{
    match element_at(text) {
        Some(element) => element,
        None => (0, 1),
    }
}

fn behind_quote(literal: &[u8]) -> &[u8]
    ensures { result.now ≡ rule.behind_quote literal.now }
{
    match literal {
        [] => literal,
        [_, bytes @ ..] => bytes,
    }
}

/// The characters of a string literal, without the 0 after them.
#[tactic(auto, using(crate::proofs::Texts::ends_at_quote, crate::proofs::Texts::ends_at_end, crate::proofs::Texts::one_more))]
pub(crate) fn characters(alloc: Global, literal: &[u8]) -> Result<Vec<u8>, AllocError>
    ensures { IfOk result (λ text. text.items ≡ rule.text_of literal.now) }
{
    let text = behind_quote(literal);
    let mut characters = Vec::new(alloc);
    let mut passed = 0;
    while passed < text.len() {
        if text[passed] == b'"' {
            return Ok(characters);
        }
        let (code, length) = character_at(&text[passed..]);
        characters.push(code)?;
        passed += length;
    }
    Ok(characters)
}
