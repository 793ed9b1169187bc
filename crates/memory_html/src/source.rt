//! The source beside its words, function by function.

use crate::html::Html;
use crate::shown::Shown;
use crate::words::put_words;
use c_typed::Function;
use std::alloc::{AllocError, Global};

// The lines of a text, each without its end. What is after the last end is a line where it has a byte.
fn lines_of<'a>(alloc: Global, text: &'a [u8]) -> Result<Vec<&'a [u8]>, AllocError> {
    let mut lines = Vec::new(alloc);
    for line in text.split(|byte| *byte == b'\n') {
        lines.push(line)?;
    }
    if text.ends_with(b"\n") {
        lines.pop();
    }
    Ok(lines)
}

// Lines by their numbers, from the one after `first` on to `end`.
fn put_lines(out: &mut Html, lines: &[&[u8]], first: usize, end: usize) {
    out.put("<pre class=\"source\">");
    for number in first..end {
        if let Some(line) = lines.get(number) {
            out.counted("<span><b>", (number as u64).saturating_add(1));
            out.put("</b>");
            out.name(line);
            out.put("\n</span>");
        }
    }
    out.put("</pre>\n");
}

// How many lines stand up to the end of a function: the first line from `first` on that begins with a bracket ends it, and `limit` where
// there is none.
fn end_of(lines: &[&[u8]], first: usize, limit: usize) -> usize {
    for number in first..limit {
        if let Some(line) = lines.get(number) {
            if line.starts_with(b"}") {
                return number.saturating_add(1);
            }
        }
    }
    limit
}

// The lines between two functions.
fn put_between(out: &mut Html, lines: &[&[u8]], first: usize, end: usize) {
    if first < end {
        out.put("<div class=\"part plain\">\n");
        put_lines(out, lines, first, end);
        out.put("<div></div></div>\n");
    }
}

fn put_blocks(out: &mut Html, shown: &Shown<'_>, function: usize) {
    let mut any = false;
    for (block, at) in shown.blocks.iter().zip(shown.at) {
        if shown.is_of(block.name, function) {
            put_words(out, shown, block, *at);
            any = true;
        }
    }
    if !any {
        out.put("<p class=\"quiet\">no code: neither main nor the handler reaches it</p>\n");
    }
}

// The line before that of the next function, or the last line.
fn limit_of(functions: &[Function], number: usize, count: usize) -> usize {
    match functions.get(number.saturating_add(1)) {
        Some(next) => (next.line as usize).saturating_sub(1),
        None => count,
    }
}

// One function with its blocks. The answer is how many lines are shown so far.
fn put_function(
    out: &mut Html,
    shown: &Shown<'_>,
    lines: &[&[u8]],
    number: usize,
    function: &Function,
    done: usize,
) -> usize {
    let line = function.line as usize;
    let first = done.max(line.saturating_sub(1));
    put_between(out, lines, done, first);
    let limit = limit_of(&shown.typed.functions, number, lines.len()).max(line);
    let end = end_of(lines, first, limit);
    out.put("<div class=\"part\">\n");
    put_lines(out, lines, first, end);
    out.put("<div>");
    put_blocks(out, shown, number);
    out.put("</div></div>\n");
    first.max(end)
}

// Blocks that no function of the text has.
fn put_extra(out: &mut Html, shown: &Shown<'_>) {
    for (block, at) in shown.blocks.iter().zip(shown.at) {
        if shown.is_extra(block.name) {
            out.put("<div class=\"part\"><p class=\"quiet\">not in the source</p>\n<div>");
            put_words(out, shown, block, *at);
            out.put("</div></div>\n");
        }
    }
}

/// The whole source, with the words of each function beside it, and then the blocks of helpers and the start.
pub fn put_source(alloc: Global, out: &mut Html, shown: &Shown<'_>) -> Result<(), AllocError> {
    let lines = lines_of(alloc, shown.text)?;
    out.put(
        "<section><h2>Source and words</h2>\n<p>Each word has its address, its four digits, and its instruction. ",
    );
    out.put(
        "<code>a+1</code> is byte 1 of the object a, <code>f.v</code> the variable v in the frame of f, ",
    );
    out.put("and <code>f+3</code> a temporary byte of that frame.</p>\n");
    let mut done = 0;
    for (number, function) in shown.typed.functions.iter().enumerate() {
        done = put_function(out, shown, &lines, number, function, done);
    }
    put_between(out, &lines, done, lines.len());
    put_extra(out, shown);
    out.put("</section>\n");
    Ok(())
}
