//! Hexadecimal numbers in printed lines, in upper case.

ghost use Rattle.std.specs.Prelude.{◌≡◌, ◌++◌, ◌<◌, OnOk};
ghost use Rattle.text_lines.specs.Text.{hex_digit as digit_of};
ghost use Rattle.picc_cli.specs.Lines.{word_text};

use std::alloc::AllocError;

/// The digits, by the number that each stands for.
const DIGITS: [u8; 16] = *b"0123456789ABCDEF";

fn hex_digit(value: u8) -> u8
    requires { value < 16 }
    ensures { result ≡ digit_of value }
{
    DIGITS[value as usize]
}

/// Appends a number of 16 bits in four digits.
#[tactic(auto, unfolding(text_lines::specs::Text::hex_pairs))]
pub fn push_word(text: &mut Vec<u8>, word: u16) -> Result<(), AllocError>
    ensures { OnOk result (text.new.items ≡ text.old.items ++ word_text word) }
{
    text.extend_from_slice(&[
        hex_digit((word / 256 / 16) as u8),
        hex_digit((word / 256 % 16) as u8),
        hex_digit((word % 256 / 16) as u8),
        hex_digit((word % 256 % 16) as u8),
    ])
}
