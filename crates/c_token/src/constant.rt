//! Integer constants, and the elements of character constants and strings.

ghost use Rattle.std.specs.Prelude.{◌≡◌, ℕ, ◌<◌, ◌≤◌, ◌+◌, ◌^◌, length, option_map, IfSome, MatchOption};
ghost use Rattle.c_token.specs.Constant.{value_in, is_unsigned_suffix, is_long_suffix, suffixes_of, number_in, is_either, integer_of, escape_letter, code_in, octal_escape, hexadecimal_escape, escape_at, element_at, character_at, string_end};

use crate::bytes::{digit_value, digits_length, is_digit, is_plain};
use crate::token::TokKind;

// The number that digits spell, if it is below 2 ^ 32.
#[tactic(auto, using(crate::proofs::Values::value_more, crate::proofs::Values::value_too_large))]
fn value_in(base: u8, digits: &[u8]) -> Option<u32>
    requires { 1 ≤ base }
    ensures { MatchOption result (2 ^ 32 ≤ value_in base digits.now) (λ v. v ≡ value_in base digits.now) }
{
    let mut value: u32 = 0;
    for digit in digits {
        let next = value as u64 * base as u64 + digit_value(*digit) as u64;
        if next > u32::MAX as u64 {
            return None;
        }
        value = next as u32;
    }
    Some(value)
}

fn is_either(small: u8, capital: u8, byte: u8) -> bool
    ensures { result ≡ is_either small capital byte }
{
    byte == small || byte == capital
}

fn is_unsigned_suffix(byte: u8) -> bool
    ensures { result ≡ is_unsigned_suffix byte }
{
    is_either(b'u', b'U', byte)
}

fn is_long_suffix(byte: u8) -> bool
    ensures { result ≡ is_long_suffix byte }
{
    is_either(b'l', b'L', byte)
}

// Whether there is an unsigned suffix, and whether a long one.
#[tactic(auto, unfolding(crate::specs::Constant::suffixes_of))]
fn suffixes_of(bytes: &[u8]) -> Option<(bool, bool)>
    ensures { result ≡ suffixes_of bytes.now }
{
    match bytes {
        [] => Some((false, false)),
        [a] => {
            if is_unsigned_suffix(*a) {
                Some((true, false))
            } else if is_long_suffix(*a) {
                Some((false, true))
            } else {
                None
            }
        }
        [a, b] => {
            if is_unsigned_suffix(*a) && is_long_suffix(*b) {
                Some((true, true))
            } else if is_long_suffix(*a) && is_unsigned_suffix(*b) {
                Some((true, true))
            } else {
                None
            }
        }
        _ => None,
    }
}

// The integer constant whose digits and suffixes these are.
#[tactic(auto, unfolding(crate::specs::Constant::number_in))]
fn number_in(base: u8, bytes: &[u8]) -> Option<TokKind>
    requires { 1 ≤ base }
    ensures { result ≡ number_in base bytes.now }
{
    let count = digits_length(base, bytes);
    if count == 0 {
        return None;
    }
    let (digits, rest) = bytes.split_at(count);
    let value = value_in(base, digits)?;
    let (unsigned_suffix, long_suffix) = suffixes_of(rest)?;
    Some(TokKind::Int {
        value,
        base,
        unsigned_suffix,
        long_suffix,
    })
}

/// The integer constant that these bytes are (ISO/IEC 9899:1990, 6.1.3.2, and `0b` for base 2), if
/// its value is below 2 ^ 32.
#[tactic(auto, unfolding(crate::specs::Constant::integer_of))]
pub fn integer_of(bytes: &[u8]) -> Option<TokKind>
    ensures { result ≡ integer_of bytes.now }
{
    match bytes {
        [] => None,
        [b'0', b, rest @ ..] => {
            if is_either(b'x', b'X', *b) {
                number_in(16, rest)
            } else if is_either(b'b', b'B', *b) {
                number_in(2, rest)
            } else {
                number_in(8, bytes)
            }
        }
        [b'0'] => number_in(8, bytes),
        _ => number_in(10, bytes),
    }
}

// What a letter or a mark behind a backslash stands for (ISO/IEC 9899:1990, 6.1.3.4).
#[tactic(auto, unfolding(crate::specs::Constant::escape_letter))]
fn escape_letter(byte: u8) -> Option<u8>
    ensures { result ≡ escape_letter byte }
{
    match byte {
        b'n' => Some(10),
        b't' => Some(9),
        b'v' => Some(11),
        b'b' => Some(8),
        b'r' => Some(13),
        b'f' => Some(12),
        b'a' => Some(7),
        b'\\' | b'?' | b'\'' | b'"' => Some(byte),
        _ => None,
    }
}

// The code that the digits of a numeric escape spell, if it is at most 255.
#[tactic(auto, unfolding(crate::specs::Constant::code_in))]
fn code_in(base: u8, digits: &[u8]) -> Option<u8>
    requires { 1 ≤ base }
    ensures { result ≡ code_in base digits.now }
{
    if digits.is_empty() {
        return None;
    }
    let value = value_in(base, digits)?;
    if value < 256 { Some(value as u8) } else { None }
}

// An octal escape: the digits, up to three of them, stand at the front.
#[tactic(auto, unfolding(crate::specs::Constant::octal_escape))]
fn octal_escape(text: &[u8]) -> Option<(u8, usize)>
    ensures value { result ≡ octal_escape text.now }
    ensures bound { IfSome result (λ x. (1 ≤ x.1) × (x.1 ≤ length text.now + 1)) }
{
    let front = if text.len() < 3 { text } else { &text[..3] };
    let count = digits_length(8, front);
    let code = code_in(8, &text[..count])?;
    Some((code, count + 1))
}

// A hexadecimal escape: the digits stand at the front, and as many as can be belong to it.
#[tactic(auto, unfolding(crate::specs::Constant::hexadecimal_escape))]
fn hexadecimal_escape(text: &[u8]) -> Option<(u8, usize)>
    requires { length text.now < 2 ^ 32 }
    ensures value { result ≡ hexadecimal_escape text.now }
    ensures bound { IfSome result (λ x. (1 ≤ x.1) × (x.1 ≤ length text.now + 2)) }
{
    let count = digits_length(16, text);
    let code = code_in(16, &text[..count])?;
    Some((code, count + 2))
}

// The escape whose backslash stands before, and its length with the backslash.
#[tactic(auto, unfolding(crate::specs::Constant::escape_at))]
fn escape_at(text: &[u8]) -> Option<(u8, usize)>
    requires { length text.now < 2 ^ 32 }
    ensures value { result ≡ escape_at text.now }
    ensures bound { IfSome result (λ x. (1 ≤ x.1) × (x.1 ≤ length text.now + 1)) }
{
    match text {
        [] => None,
        [byte, rest @ ..] => {
            if is_digit(8, *byte) {
                octal_escape(text)
            } else if *byte == b'x' {
                hexadecimal_escape(rest)
            } else {
                let code = escape_letter(*byte)?;
                Some((code, 2))
            }
        }
    }
}

// The element at the front of a constant in these quotes: its code and its length.
#[tactic(auto, unfolding(crate::specs::Constant::element_at))]
fn element_at(quote: u8, text: &[u8]) -> Option<(u8, usize)>
    requires { length text.now < 2 ^ 32 }
    ensures value { result ≡ element_at quote text.now }
    ensures bound { IfSome result (λ x. (1 ≤ x.1) × (x.1 ≤ length text.now)) }
{
    match text {
        [] => None,
        [b'\\', rest @ ..] => escape_at(rest),
        [byte, ..] => {
            if is_plain(quote, *byte) {
                Some((*byte, 1))
            } else {
                None
            }
        }
    }
}

/// The character constant whose opening quote stands before (ISO/IEC 9899:1990, 6.1.3.4), and its
/// length with both quotes.
#[tactic(auto, unfolding(crate::specs::Constant::character_at))]
pub fn character_at(text: &[u8]) -> Option<(TokKind, usize)>
    requires { length text.now < 2 ^ 32 }
    ensures value { result ≡ character_at text.now }
    ensures bound { IfSome result (λ x. (0 < x.1) × (x.1 ≤ length text.now + 1)) }
{
    let (value, length) = element_at(b'\'', text)?;
    if text[length..].starts_with(b"'") {
        Some((TokKind::Char { value }, length + 2))
    } else {
        None
    }
}

/// After the opening quote of a string (ISO/IEC 9899:1990, 6.1.4): the length of its elements and
/// its closing quote.
#[tactic(auto, using(crate::proofs::Strings::ends_here, crate::proofs::Strings::ends_nowhere, crate::proofs::Strings::breaks_here, crate::proofs::Strings::goes_on))]
pub fn string_end(text: &[u8]) -> Option<usize>
    requires { length text.now < 2 ^ 32 }
    ensures value { result ≡ string_end 0 text.now }
    ensures bound { IfSome result (λ n. n ≤ length text.now) }
{
    let mut passed = 0;
    while passed < text.len() {
        if text[passed] == b'"' {
            return Some(passed + 1);
        }
        let element = element_at(b'"', &text[passed..])?;
        passed += element.1;
    }
    None
}
