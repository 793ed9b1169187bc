//! A text of lines, each with a head and its parts.

use itoa::Buffer;
use std::alloc::{AllocError, Global};

/// What stands before the next part of a line.
#[derive(Clone, Copy, PartialEq, Eq)]
enum Before {
    Space,
    Comma,
    Nothing,
}

/// The lines that were written, and whether memory ran out at one of them. `own` is the function copy whose code they list.
#[derive(Drop)]
pub struct Listing {
    bytes: Vec<u8>,
    failed: bool,
    before: Before,
    pub own: Option<u16>,
}

impl Listing {
    /// A text without lines.
    pub fn new(alloc: Global) -> Listing {
        Listing {
            bytes: Vec::new(alloc),
            failed: false,
            before: Before::Space,
            own: None,
        }
    }

    /// The bytes of the text, unless memory ran out.
    pub fn text(self) -> Result<Vec<u8>, AllocError> {
        if self.failed {
            return Err(AllocError);
        }
        Ok(self.bytes)
    }

    fn put(&mut self, bytes: &[u8]) {
        if self.bytes.extend_from_slice(bytes).is_err() {
            self.failed = true;
        }
    }

    /// A line begins, so many steps to the right.
    pub fn begin(&mut self, depth: u32, head: &str) {
        for _ in 0..depth {
            self.put(b"  ");
        }
        self.put(head.as_bytes());
        self.before = Before::Space;
    }

    /// The line ends, by LF.
    pub fn end(&mut self) {
        self.put(b"\n");
    }

    fn separate(&mut self) {
        match self.before {
            Before::Space => self.put(b" "),
            Before::Comma => self.put(b", "),
            Before::Nothing => {}
        }
        self.before = Before::Comma;
    }

    /// A part of the line: these bytes, as they are.
    pub fn name(&mut self, name: &[u8]) {
        self.separate();
        self.put(name);
    }

    /// A part of the line: a word.
    pub fn word(&mut self, word: &str) {
        self.name(word.as_bytes());
    }

    /// A part of the line: a number in decimal.
    pub fn number(&mut self, number: u64) {
        let mut buffer = Buffer::new();
        self.name(buffer.format(number).as_bytes());
    }

    /// A part of the line: a number in decimal, with `-` in front where it is below 0.
    pub fn signed(&mut self, number: i64) {
        let mut buffer = Buffer::new();
        self.name(buffer.format(number).as_bytes());
    }

    /// The parts up to `close` stand in brackets after the head.
    pub fn open(&mut self, head: &str) {
        self.word(head);
        self.put(b"(");
        self.before = Before::Nothing;
    }

    /// The brackets that `open` began end.
    pub fn close(&mut self) {
        self.put(b")");
        self.before = Before::Comma;
    }

    /// A head with one number in brackets.
    pub fn numbered(&mut self, head: &str, number: u64) {
        self.open(head);
        self.number(number);
        self.close();
    }

    /// A head with two numbers in brackets.
    pub fn paired(&mut self, head: &str, first: u64, second: u64) {
        self.open(head);
        self.number(first);
        self.number(second);
        self.close();
    }
}

/// One step further to the right.
pub fn inside(depth: u32) -> u32 {
    depth.saturating_add(1)
}
