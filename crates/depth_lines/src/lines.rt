//! A text of lines.

use itoa::Buffer;
use std::alloc::{AllocError, Global};

/// The digits, by the number that each stands for.
const DIGITS: [u8; 16] = *b"0123456789ABCDEF";

/// The bytes that were written, and whether memory ran out at one of them.
#[derive(Drop)]
pub struct Lines {
    bytes: Vec<u8>,
    failed: bool,
}

impl Lines {
    /// A text without lines.
    pub fn new(alloc: Global) -> Lines {
        Lines {
            bytes: Vec::new(alloc),
            failed: false,
        }
    }

    /// The bytes of the text, unless memory ran out.
    pub fn text(self) -> Result<Vec<u8>, AllocError> {
        if self.failed {
            return Err(AllocError);
        }
        Ok(self.bytes)
    }

    /// These bytes, as they are.
    pub fn put(&mut self, bytes: &[u8]) {
        if self.bytes.extend_from_slice(bytes).is_err() {
            self.failed = true;
        }
    }

    /// A number in decimal.
    pub fn number(&mut self, number: u64) {
        let mut buffer = Buffer::new();
        self.put(buffer.format(number).as_bytes());
    }

    fn digit(&mut self, value: u8) {
        self.put(&[DIGITS[(value % 16) as usize]]);
    }

    /// A byte in two digits.
    pub fn byte(&mut self, byte: u8) {
        self.digit(byte / 16);
        self.digit(byte);
    }

    /// An address in four digits.
    pub fn address(&mut self, at: u16) {
        self.byte((at / 256) as u8);
        self.byte((at % 256) as u8);
    }

    /// The line ends, by LF.
    pub fn end(&mut self) {
        self.put(b"\n");
    }
}
