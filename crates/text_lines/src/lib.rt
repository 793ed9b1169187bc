//! Text files line by line.
//!
//! In: the bytes of a text. Out: its first line and what stands after it, and the numbers of digits.
//! The promise: line after line, exactly the lines of the text by their definition.
#![tactic(auto)]

ghost use Rattle.std.specs.Prelude.{◌≡◌, ◌<◌, ◌≤◌, ◌+◌, ◌∷◌, [], length, IfSome, IfNone};
ghost use Rattle.text_lines.specs.Text.{lines_of, digit_value as value_of, without_cr};
ghost use Rattle.text_lines.specs.Front.{line_length};

/// The first line, without its end, and what stands after it. A line ends at LF or at the end of the
/// text, and a CR before that end is no part of it.
#[tactic(auto, using(crate::proofs::Cutting::first_of, crate::proofs::Cutting::rest_whole))]
pub fn next_line(bytes: &[u8]) -> Option<(&[u8], &[u8])>
    ensures none { IfNone result (bytes.now ≡ []) }
    ensures some { IfSome result (λ cut. lines_of bytes.now ≡ cut.0.now ∷ lines_of cut.1.now) }
    ensures shorter { IfSome result (λ cut. (length cut.0.now + length cut.1.now ≤ length bytes.now) × (length cut.1.now < length bytes.now)) }
{
    if bytes.is_empty() {
        return None;
    }
    let (line, tail) = bytes.split_at(line_length(bytes));
    match tail {
        [_, rest @ ..] => Some((without_cr(line), rest)),
        [] => Some((without_cr(line), tail)),
    }
}

/// How many bytes stand before the first LF.
#[tactic(auto, unfolding(crate::specs::Front::line_length))]
fn line_length(text: &[u8]) -> usize
    ensures value { result ≡ line_length text.now }
    ensures within { result ≤ length text.now }
{
    let mut count = 0;
    let mut left = text;
    while let [first, rest @ ..] = left {
        if *first == b'\n' {
            return count;
        }
        count += 1;
        left = rest;
    }
    count
}

#[tactic(auto, using(crate::proofs::Cutting::cr_at_end))]
fn without_cr(line: &[u8]) -> &[u8]
    ensures value { result.now ≡ without_cr line.now }
    ensures shorter { length result.now ≤ length line.now }
{
    match line.strip_suffix(b"\r") {
        Some(front) => front,
        None => line,
    }
}

/// The number of a hexadecimal digit of either case.
pub fn digit_value(byte: u8) -> Option<u16>
    ensures value { result ≡ value_of byte }
    ensures small { IfSome result (λ n. n < 16) }
{
    match byte {
        b'0'..=b'9' => Some((byte - b'0') as u16),
        b'A'..=b'F' => Some((byte - b'A') as u16 + 10),
        b'a'..=b'f' => Some((byte - b'a') as u16 + 10),
        _ => None,
    }
}
