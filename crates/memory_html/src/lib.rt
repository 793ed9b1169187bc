//! A page of what a program takes of the chip's memory, as HTML.
//!
//! In: a text, what is known of it, and its code. Out: one page that needs no network and no scripts: data memory by banks, with objects and
//! frames, and which of these share bytes; the calls of main and of the handler, with the words of the return stack that they take; program
//! memory by pages and blocks, with stated words and real ones; and the source beside its words.
//!
//! No clause says what the page is; nothing stands on it but readers. Names and the source are escaped. A page remembers that memory ran
//! out, and there is none then.
#![tactic(auto)]

mod calls;
mod code;
mod html;
mod memory;
mod places;
mod shown;
mod source;
mod style;
mod tree;
mod words;

use crate::calls::Calls;
use crate::code::put_code;
use crate::html::Html;
use crate::memory::put_memory;
use crate::places::put_places;
pub use crate::shown::Shown;
use crate::source::put_source;
use crate::style::{put_end, put_front};
use crate::tree::put_calls;
use std::alloc::{AllocError, Global};

/// The page of a program.
pub fn page(alloc: Global, shown: &Shown<'_>) -> Result<Vec<u8>, AllocError> {
    let calls = Calls::of(alloc, shown.typed, shown.copies)?;
    let mut out = Html::new(alloc);
    put_front(&mut out, shown);
    put_memory(&mut out, shown);
    put_places(&mut out, shown, &calls);
    put_calls(alloc, &mut out, shown, &calls)?;
    put_code(&mut out, shown);
    put_source(alloc, &mut out, shown)?;
    put_end(&mut out);
    out.text()
}
