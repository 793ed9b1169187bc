//! Lines that a command prints of texts and files.

ghost use Rattle.std.specs.Prelude.{◌≡◌, ◌++◌, IfOk};
ghost use Rattle.host_lines.specs.Said.{Says};
ghost use Rattle.picc_cli.specs.Refusals.{refusal_line as refusal_text};
ghost use Rattle.picc_cli.specs.Lines.{located as located_text};

use crate::refusal::{push_counted, refusal_line};
use host_io::Host;
use host_lines::say_line;
use picc_core::Refusal;
use std::alloc::{AllocError, Global};

/// Prints the line of a refusal, and answers the status: 1, or 3 where the printing fails, 9 without memory for it.
pub fn say_refusal<H: Host>(alloc: Global, host: &mut H, name: &str, refusal: &Refusal) -> u8
    ensures same_file { H.open_file host.new ≡ H.open_file host.old }
    ensures same_contents { H.contents host.new ≡ H.contents host.old }
    ensures same_kind { H.kind host.new ≡ H.kind host.old }
    ensures said { Says (H.kind host.old) (H.faults host.old) (H.faults host.new) (H.printed host.old) (H.printed host.new)
        (refusal_text name.now refusal.now) 1 result }
{
    match refusal_line(alloc, name, refusal) {
        Ok(line) => say_line(host, 1, &line),
        Err(_) => 9,
    }
}

/// Prints what is said of a line of a file, in two parts, and answers the status: 3 where the printing fails, 9 without
/// memory for it.
pub fn say_located<H: Host>(
    alloc: Global,
    host: &mut H,
    status: u8,
    name: &str,
    line: u32,
    first: &[u8],
    second: &[u8],
) -> u8
    ensures same_file { H.open_file host.new ≡ H.open_file host.old }
    ensures same_contents { H.contents host.new ≡ H.contents host.old }
    ensures same_kind { H.kind host.new ≡ H.kind host.old }
    ensures said { Says (H.kind host.old) (H.faults host.old) (H.faults host.new) (H.printed host.old) (H.printed host.new)
        (located_text name.now line (first.now ++ second.now)) status result }
{
    match located(alloc, name, line, first, second) {
        Ok(text) => say_line(host, status, &text),
        Err(_) => 9,
    }
}

/// `NAME:LINE: TEXT`, whose text has two parts, and a line feed.
fn located(
    alloc: Global,
    name: &str,
    line: u32,
    first: &[u8],
    second: &[u8],
) -> Result<Vec<u8>, AllocError>
    ensures { IfOk result (λ text. text.items ≡ located_text name.now line (first.now ++ second.now)) }
{
    let mut text = Vec::from_slice(alloc, name.as_bytes())?;
    push_counted(&mut text, b":", line as u64)?;
    text.extend_from_slice(b": ")?;
    text.extend_from_slice(first)?;
    text.extend_from_slice(second)?;
    text.push(b'\n')?;
    Ok(text)
}
