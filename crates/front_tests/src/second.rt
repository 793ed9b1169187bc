//! What a text is for the second chip.

use crate::sizes::text_of;
use picc_core::{Compile84Error, Refusal, compile84};
use std::alloc::{AllocError, Global};
use std::test::Fail;

fn reason(alloc: Global, refusal: &Refusal) -> Result<String, AllocError> {
    match refusal {
        Refusal::Ram { object } => {
            let name = text_of(object);
            format!(in alloc; "ram {name}")
        }
        Refusal::Page { function, words } => {
            let name = text_of(function);
            format!(in alloc; "page {name} {words}")
        }
        Refusal::Code { words } => format!(in alloc; "code {words}"),
        _ => String::from_str(alloc, "another refusal"),
    }
}

/// The stated words of a text that is accepted for the second chip, or why it isn't.
pub fn second(alloc: Global, text: &[u8]) -> Result<String, Fail> {
    match compile84(alloc, text) {
        Ok(built) => {
            let words = built.words;
            Ok(format!(in alloc; "{words} words")?)
        }
        Err(Compile84Error::NoMemory) => Err(Fail::new("no memory")),
        Err(Compile84Error::Refused(refusal)) => Ok(reason(alloc, &refusal)?),
        Err(Compile84Error::Register { line }) => Ok(format!(in alloc; "register {line}")?),
    }
}
