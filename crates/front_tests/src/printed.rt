//! Tokens and typed trees as short texts.

use crate::stages::{cut, typed};
use c_check::{InitialByte, Static, bytes_of};
use c_pre::{tokens, word_of};
use c_token::{Tok, TokKind};
use std::alloc::{AllocError, Global};
use std::test::Fail;

fn put_word(out: &mut String, bytes: &[u8]) -> Result<(), AllocError> {
    for byte in bytes {
        out.push(*byte as char)?;
    }
    Ok(())
}

fn put_kind(alloc: Global, out: &mut String, kind: TokKind) -> Result<(), AllocError> {
    match kind {
        TokKind::Name => out.push_str("name"),
        TokKind::TypeName => out.push_str("type name"),
        TokKind::Keyword(keyword) => {
            out.push_str("keyword ")?;
            put_word(out, keyword.spelling())
        }
        TokKind::Int {
            value,
            base,
            unsigned_suffix,
            long_suffix,
        } => {
            let unsigned = if unsigned_suffix { " unsigned" } else { "" };
            let long = if long_suffix { " long" } else { "" };
            out.push_str(&format!(in alloc; "int {value} base {base}{unsigned}{long}")?)
        }
        TokKind::Char { value } => out.push_str(&format!(in alloc; "char {value}")?),
        TokKind::Text => out.push_str("text"),
        TokKind::Punct(punct) => {
            out.push_str("punct ")?;
            put_word(out, punct.spelling())
        }
    }
}

fn put_token(alloc: Global, out: &mut String, token: Tok) -> Result<(), AllocError> {
    put_kind(alloc, out, token.kind)?;
    let first = if token.first { " first" } else { "" };
    let (start, end, line) = (token.start, token.end, token.line);
    out.push_str(&format!(in alloc; " {start}-{end} line {line}{first}.")?)
}

/// The tokens that a text is cut into.
pub fn tokens_cut(alloc: Global, text: &[u8]) -> Result<String, Fail> {
    let mut out = String::new(alloc);
    for token in &cut(alloc, text)? {
        if !out.is_empty() {
            out.push(' ')?;
        }
        put_token(alloc, &mut out, *token)?;
    }
    Ok(out)
}

/// The tokens that directives and replacement leave of a text.
fn left(alloc: Global, text: &[u8]) -> Result<Vec<Tok>, Fail> {
    let list = cut(alloc, text)?;
    Ok(tokens(alloc, text, &list)?)
}

/// The line of the last token that is left, and all of them with a blank before each.
pub fn words_left(alloc: Global, text: &[u8]) -> Result<String, Fail> {
    let mut words = String::new(alloc);
    let mut last = 0;
    for token in &left(alloc, text)? {
        words.push(' ')?;
        put_word(&mut words, word_of(text, *token))?;
        last = token.line;
    }
    Ok(format!(in alloc; "{last}{words}")?)
}

/// How many tokens are left.
pub fn count_left(alloc: Global, text: &[u8]) -> Result<String, Fail> {
    let count = left(alloc, text)?.len();
    Ok(format!(in alloc; "{count}")?)
}

/// The bytes of the static objects of a text, in order.
pub fn static_sizes(alloc: Global, text: &[u8]) -> Result<String, Fail> {
    let tree = typed(alloc, text)?;
    let mut sizes = Vec::new(alloc);
    for entry in &tree.statics {
        sizes.push(bytes_of(&tree.structures, entry.ty.ty))?;
    }
    Ok(format!(in alloc; "{sizes:?}")?)
}

/// How a static object begins: its name, and its bytes that are given a value, each as its place, a colon, and the number, or the object
/// that it points to with an ampersand.
fn put_beginning(alloc: Global, out: &mut String, entry: &Static) -> Result<(), AllocError> {
    put_word(out, &entry.name)?;
    for initial in &entry.initial {
        let offset = initial.offset;
        let part = match initial.byte {
            InitialByte::Number(number) => format!(in alloc; " {offset}:{number}")?,
            InitialByte::Address { object, .. } => format!(in alloc; " {offset}:&{object}")?,
        };
        out.push_str(&part)?;
    }
    out.push(';')
}

/// How the static objects of a text begin.
pub fn beginnings(alloc: Global, text: &[u8]) -> Result<String, Fail> {
    let tree = typed(alloc, text)?;
    let mut out = String::new(alloc);
    for entry in &tree.statics {
        put_beginning(alloc, &mut out, entry)?;
    }
    Ok(out)
}

/// How many nodes the typed tree of a text has.
pub fn nodes(alloc: Global, text: &[u8]) -> Result<String, Fail> {
    let count = typed(alloc, text)?.nodes();
    Ok(format!(in alloc; "{count}")?)
}

/// What the functions of a text have.
pub fn functions(alloc: Global, text: &[u8]) -> Result<String, Fail> {
    let tree = typed(alloc, text)?;
    let mut out = String::new(alloc);
    for function in &tree.functions {
        let params = function.params.len();
        let locals = function.locals.len();
        let statements = function.body.len();
        let line = function.line;
        let marked = function.interrupt;
        let part = format!(in alloc; "{line} {params} {locals} {statements} {marked};")?;
        out.push_str(&part)?;
    }
    Ok(out)
}
