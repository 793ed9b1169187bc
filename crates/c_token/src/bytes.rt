//! The classes of bytes of a source text, in the ASCII code.

ghost use Rattle.std.specs.Prelude.{◌≡◌, ℕ, ◌<◌, ◌≤◌, true, length, slice_index};
ghost use Rattle.std.specs.List.{prefix_len};
ghost use Rattle.c_token.specs.Bytes.{is_blank, is_decimal, begins_name, is_name_byte, is_number_byte, digit_value, is_digit, is_plain};

/// Whether it is white space (ISO/IEC 9899:1990, 6.1).
pub fn is_blank(byte: u8) -> bool
    ensures { result ≡ is_blank byte }
{
    byte == b' ' || (9 <= byte && byte <= 13)
}

/// Whether it is a decimal digit.
pub fn is_decimal(byte: u8) -> bool
    ensures { result ≡ is_decimal byte }
{
    b'0' <= byte && byte <= b'9'
}

/// Whether it is a letter or an underscore.
pub fn begins_name(byte: u8) -> bool
    ensures { result ≡ begins_name byte }
{
    (b'A' <= byte && byte <= b'Z') || (b'a' <= byte && byte <= b'z') || byte == b'_'
}

/// Whether it is a letter, an underscore or a decimal digit (ISO/IEC 9899:1990, 6.1.2).
pub fn is_name_byte(byte: u8) -> bool
    ensures { result ≡ is_name_byte byte }
{
    begins_name(byte) || is_decimal(byte)
}

/// Whether it may not follow a number without being a part of it.
pub fn is_number_byte(byte: u8) -> bool
    ensures { result ≡ is_number_byte byte }
{
    is_name_byte(byte) || byte == b'.'
}

/// What the digit stands for in a base up to 16, and 16 for a byte that is no digit.
pub fn digit_value(byte: u8) -> u8
    ensures value { result ≡ digit_value byte }
    ensures bound { result ≤ 16 }
{
    match byte {
        b'0'..=b'9' => byte - b'0',
        b'a'..=b'f' => byte - b'a' + 10,
        b'A'..=b'F' => byte - b'A' + 10,
        _ => 16,
    }
}

/// Whether it is a digit in a base up to 16.
pub fn is_digit(base: u8, byte: u8) -> bool
    ensures { result ≡ is_digit base byte }
{
    digit_value(byte) < base
}

/// Whether a constant in these quotes shows it as it is.
pub fn is_plain(quote: u8, byte: u8) -> bool
    ensures { result ≡ is_plain quote byte }
{
    32 <= byte && byte <= 126 && byte != b'\\' && byte != quote
}

/// How many bytes of a name stand at the front.
#[tactic(auto, using(crate::proofs::Bounds::front_counts))]
pub fn name_length(text: &[u8]) -> usize
    ensures some { 0 < length text.now → is_name_byte (slice_index text.now 0) ≡ true → 0 < result }
    ensures bound { result ≤ length text.now }
    ensures count { result ≡ prefix_len is_name_byte text.now }
{
    for (i, byte) in text.iter().enumerate() {
        if !is_name_byte(*byte) {
            return i;
        }
    }
    text.len()
}

/// How many letters, digits, underscores and full stops stand at the front.
#[tactic(auto, using(crate::proofs::Bounds::front_counts))]
pub fn number_length(text: &[u8]) -> usize
    ensures some { 0 < length text.now → is_number_byte (slice_index text.now 0) ≡ true → 0 < result }
    ensures bound { result ≤ length text.now }
    ensures count { result ≡ prefix_len is_number_byte text.now }
{
    for (i, byte) in text.iter().enumerate() {
        if !is_number_byte(*byte) {
            return i;
        }
    }
    text.len()
}

/// How many digits of a base stand at the front.
pub fn digits_length(base: u8, text: &[u8]) -> usize
    ensures bound { result ≤ length text.now }
    ensures count { result ≡ prefix_len (is_digit base) text.now }
{
    for (i, byte) in text.iter().enumerate() {
        if !is_digit(base, *byte) {
            return i;
        }
    }
    text.len()
}
