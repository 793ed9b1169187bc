//! A text of HTML that grows.

use itoa::Buffer;
use std::alloc::{AllocError, Global};

/// The digits, by the number that each stands for.
const DIGITS: [u8; 16] = *b"0123456789ABCDEF";

/// The bytes that were written, and whether memory ran out at one of them.
#[derive(Drop)]
pub struct Html {
    bytes: Vec<u8>,
    failed: bool,
}

// How a byte of a name or a text is written, where it isn't written as itself. A control is a blank.
fn escaped(byte: u8) -> Option<&'static [u8]> {
    match byte {
        b'&' => Some(b"&amp;"),
        b'<' => Some(b"&lt;"),
        b'>' => Some(b"&gt;"),
        b'"' => Some(b"&quot;"),
        b'\t' => None,
        0..=31 | 127 => Some(b" "),
        _ => None,
    }
}

impl Html {
    /// A text without bytes.
    pub fn new(alloc: Global) -> Html {
        Html {
            bytes: Vec::new(alloc),
            failed: false,
        }
    }

    /// The bytes of the text, unless memory ran out.
    pub fn text(self) -> Result<Vec<u8>, AllocError> {
        if self.failed {
            return Err(AllocError);
        }
        Ok(self.bytes)
    }

    fn put_bytes(&mut self, bytes: &[u8]) {
        if self.bytes.extend_from_slice(bytes).is_err() {
            self.failed = true;
        }
    }

    /// Markup, as it is.
    pub fn put(&mut self, markup: &str) {
        self.put_bytes(markup.as_bytes());
    }

    /// A name or a text of the program, of which nothing is read as markup.
    pub fn name(&mut self, name: &[u8]) {
        for byte in name {
            match escaped(*byte) {
                Some(written) => self.put_bytes(written),
                None => self.put_bytes(&[*byte]),
            }
        }
    }

    /// A number in decimal.
    pub fn number(&mut self, number: u64) {
        let mut buffer = Buffer::new();
        self.put_bytes(buffer.format(number).as_bytes());
    }

    /// Markup, and then a number in decimal.
    pub fn counted(&mut self, before: &str, number: u64) {
        self.put(before);
        self.number(number);
    }

    fn digit(&mut self, value: u16) {
        self.put_bytes(&[DIGITS[(value % 16) as usize]]);
    }

    /// A byte in two hexadecimal digits.
    pub fn byte(&mut self, byte: u16) {
        self.digit(byte / 16);
        self.digit(byte);
    }

    /// An address or a word in four hexadecimal digits.
    pub fn word(&mut self, word: u16) {
        self.byte(word / 256);
        self.byte(word);
    }

    /// Markup, and then an address in four hexadecimal digits with an h.
    pub fn at(&mut self, before: &str, address: u16) {
        self.put(before);
        self.word(address);
        self.put("h");
    }
}
