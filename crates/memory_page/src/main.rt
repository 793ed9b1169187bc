//! The program `memory_page`, which writes a page of what a program takes of the chip's memory.
//!
//! In: the words of the command line, `memory_page IN OUT`. Out: of the C text in the file IN, the page of the crate memory_html in the file
//! OUT; or why there is none, on standard output. And an exit status: 0; 1 if the text is refused, with the line that `picc build` prints; 2
//! for other words, also where IN and OUT are one name, with `./` before it or without; 3 if a file can't be read or written, or a line not be
//! printed; 9 without memory. No file is created before all else has succeeded.
#![tactic(auto)]

ghost use Rattle.std.specs.Prelude.{◌≡◌, IfOk};
ghost use Rattle.host_io.specs.Host.{Closed};
ghost use Rattle.picc_core.specs.Founded.{IsFounded};

use host_io::{Host, HostError, RealHost, read_whole, write_whole};
use host_lines::{say, say_line};
use memory_html::{Shown, page};
use picc_cli::say_refusal;
use picc_core::{Built, CompileError, Front, Refusal, codes_of, compile, front};
use std::alloc::{AllocError, Global};
use std::process::ExitCode;
use std::{env, io};

/// The longest text, in bytes, that is looked at.
const LIMIT: usize = 262_144;

/// Why there is no page.
#[derive(Drop)]
enum Missing {
    Refused(Refusal),
    NoMemory,
}

impl From<AllocError> for Missing {
    fn from(_: AllocError) -> Missing {
        Missing::NoMemory
    }
}

fn words(rt: &HostRuntime) -> io::Result<Vec<String>> {
    let mut words = Vec::new(rt.alloc());
    for word in env::args(rt)?.skip(1) {
        words.push(word)?;
    }
    Ok(words)
}

fn is_name(word: &str) -> bool {
    match word.as_bytes() {
        [] => false,
        [first, ..] => *first != b'-',
    }
}

// A name without `./` before it, however often.
fn bare(name: &str) -> &str {
    name.trim_start_matches("./")
}

/// What is known of a text, and what it is compiled to.
fn known(alloc: Global, text: &[u8]) -> Result<(Front, Built), CompileError>
    ensures { IfOk result (λ known. IsFounded known.0.typed known.0.copies.list.items known.0.placed known.0.at.items) }
{
    let front = front(alloc, text)?;
    let built = compile(alloc, text)?;
    Ok((front, built))
}

fn page_of(
    alloc: Global,
    name: &str,
    text: &[u8],
    front: &Front,
    built: &Built,
) -> Result<Vec<u8>, AllocError>
    requires { IsFounded front.now.typed front.now.copies.list.items front.now.placed front.now.at.items }
{
    let codes = codes_of(alloc, front)?;
    let shown = Shown {
        name,
        text,
        typed: &front.typed,
        copies: &front.copies,
        placed: &front.placed,
        blocks: &codes.selected.blocks,
        at: &front.at,
        image: &built.image,
    };
    page(alloc, &shown)
}

fn made(alloc: Global, name: &str, text: &[u8]) -> Result<Vec<u8>, Missing> {
    match known(alloc, text) {
        Ok((front, built)) => Ok(page_of(alloc, name, text, &front, &built)?),
        Err(CompileError::Refused(refusal)) => Err(Missing::Refused(refusal)),
        Err(CompileError::NoMemory) => Err(Missing::NoMemory),
    }
}

fn write<H: Host>(host: &mut H, name: &str, page: &[u8]) -> u8
    requires { H.open_file host.old ≡ Closed }
{
    match write_whole(host, name, page) {
        Ok(()) => 0,
        Err(HostError::Failed) => say(host, 3, "cannot write ", name, "\n"),
        Err(HostError::NoMemory) => 9,
    }
}

fn show<H: Host>(alloc: Global, host: &mut H, name: &str, output: &str, text: &[u8]) -> u8
    requires { H.open_file host.old ≡ Closed }
{
    match made(alloc, name, text) {
        Ok(page) => write(host, output, &page),
        Err(Missing::Refused(refusal)) => say_refusal(alloc, host, name, &refusal),
        Err(Missing::NoMemory) => 9,
    }
}

fn usage<H: Host>(host: &mut H) -> u8 {
    say_line(host, 2, b"usage: memory_page IN OUT\n")
}

fn run<H: Host>(alloc: Global, host: &mut H, words: &[String]) -> u8
    requires { H.open_file host.old ≡ Closed }
{
    let [name, output] = words else {
        return usage(host);
    };
    if !is_name(name) || !is_name(output) {
        return usage(host);
    }
    if bare(name) == bare(output) {
        return say(host, 2, "the page would replace ", name, "\n");
    }
    match read_whole(alloc, host, name, LIMIT) {
        Ok(text) => show(alloc, host, name, output, &text),
        Err(HostError::Failed) => say(host, 3, "cannot read ", name, "\n"),
        Err(HostError::NoMemory) => 9,
    }
}

fn main(rt: HostRuntime) -> ExitCode {
    let Ok(words) = words(&rt) else {
        return ExitCode::from(9);
    };
    let alloc = rt.alloc();
    let mut host = RealHost::new(rt);
    ExitCode::from(run(alloc, &mut host, &words))
}
