//! Why a file isn't read, as one line.

use crate::lines::Lines;
use hex_image::{HexError, fault_line, fault_text};
use std::alloc::{AllocError, Global};

fn begin(out: &mut Lines, name: &str, line: u32) {
    out.put(name.as_bytes());
    out.put(b":");
    out.number(line as u64);
    out.put(b": ");
}

/// The line of a file that is no HEX file: `NAME:LINE: CHECK`, as `picc sim` prints it.
pub fn bad_hex_line(alloc: Global, name: &str, error: &HexError) -> Result<Vec<u8>, AllocError> {
    let mut out = Lines::new(alloc);
    begin(&mut out, name, fault_line(error));
    out.put(&fault_text(alloc, error)?);
    out.end();
    out.text()
}

/// The line of a file that is too long.
pub fn long_line(alloc: Global, name: &str) -> Result<Vec<u8>, AllocError> {
    let mut out = Lines::new(alloc);
    begin(&mut out, name, 0);
    out.put(b"too long\n");
    out.text()
}
