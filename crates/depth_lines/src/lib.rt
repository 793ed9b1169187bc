//! How deep the calls of an image go, routine by routine, or why no certificate is valid for it, as text.
//!
//! In: an image of program memory. Out: lines that a person reads, and whether there is a certificate. Addresses are four digits in base 16,
//! and other numbers are decimal:
//!
//!     text    = certificate | "no certificate" LF { reason LF }
//!     certificate =
//!         "depth " NUMBER LF
//!         { ADDRESS (" main" | " isr") " bound " NUMBER [ " calls" { " " ADDRESS } ] LF }
//!         "deepest" { " " ADDRESS } LF
//!         [ "deepest isr" { " " ADDRESS } LF "cell " BYTE LF ]
//!         "reached " NUMBER " words, not reached " NUMBER LF
//!     reason  = ADDRESS ": " why | "recursion " ADDRESS | "depth " NUMBER
//!
//! A routine is told by its entry. Its bound is how deep its calls go, and `calls` are the entries that it calls. `deepest` is a chain of
//! calls as long as the bound of the first one: from reset, and from 0004 where interrupts come. The cell is the byte in which the handler
//! keeps PCLATH. Not reached are words that aren't erased and that the certificate has no row for.
//!
//! Whether there is a certificate is as `certify` of depth_check says. No clause says what the text is; nothing stands on it but checks and
//! readers. So a reason is found by a walk of its own, which keeps the address at which it gives up.
#![tactic(auto)]

mod calls;
mod hex_line;
mod known;
mod lines;
mod listing;
mod reason;
mod walk;
mod why;
mod words;

use crate::lines::Lines;
use crate::listing::put_certificate;
use crate::reason::{put_reason, reason_in};
use depth_check::certify;
pub use hex_line::{bad_hex_line, long_line};
use pic_chip::Image;
use std::alloc::{AllocError, Global};

/// What is said of an image, and whether a certificate is valid for it.
#[derive(Drop)]
pub struct Shown {
    pub text: Vec<u8>,
    pub certified: bool,
}

/// The lines of an image.
pub fn described(alloc: Global, image: &Image) -> Result<Shown, AllocError> {
    let mut out = Lines::new(alloc);
    let found = certify(alloc, image)?;
    let certified = found.is_some();
    match &found {
        Some(h) => put_certificate(alloc, &mut out, image, h)?,
        None => put_reason(&mut out, reason_in(alloc, image)?),
    }
    Ok(Shown {
        text: out.text()?,
        certified,
    })
}
