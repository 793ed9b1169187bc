//! The program `picc_show`, which prints what a C text becomes in the languages of the compiler.
//!
//! In: the words of the command line, `picc_show code IN` or `picc_show tree IN`. Out: of the text in the file IN, in the notation of the
//! crate listings, on standard output: by `code` the typed tree, the byte code, the symbolic code and the words; by `tree` the typed tree
//! alone, also of a text that isn't a whole program, or the line `Broken KIND, LINE` of the rule on names and types that it breaks. And an
//! exit status: 0; 1 if the text is refused, for the reason that `picc build` reports; 2 for other words; 3 if the file can't be read or
//! the text not be printed; 9 without memory.
#![tactic(auto)]

ghost use Rattle.std.specs.Prelude.{◌≡◌, IfOk};
ghost use Rattle.host_io.specs.Host.{Closed};
ghost use Rattle.picc_core.specs.Founded.{IsFounded};

use host_io::{Host, HostError, RealHost, read_whole};
use listings::{broken_text, code_text, typed_text};
use picc_core::{Built, CompileError, Front, Refusal, compile, front, typed_of};
use std::alloc::{AllocError, Global};
use std::process::ExitCode;
use std::{env, io};

/// The longest text, in bytes, that is looked at.
const LIMIT: usize = 262_144;

/// What is asked for.
#[derive(Clone, Copy)]
enum Asked {
    Code,
    Tree,
}

/// What is shown of a text, and the exit status.
#[derive(Drop)]
struct Shown {
    text: Vec<u8>,
    status: u8,
}

fn words(rt: &HostRuntime) -> io::Result<Vec<String>> {
    let mut words = Vec::new(rt.alloc());
    for word in env::args(rt)?.skip(1) {
        words.push(word)?;
    }
    Ok(words)
}

fn asked_by(word: &str) -> Option<Asked> {
    if word == "code" {
        Some(Asked::Code)
    } else if word == "tree" {
        Some(Asked::Tree)
    } else {
        None
    }
}

fn status_of(error: HostError) -> u8 {
    match error {
        HostError::Failed => 3,
        HostError::NoMemory => 9,
    }
}

fn print<H: Host>(host: &mut H, bytes: &[u8], status: u8) -> u8 {
    match host.print(bytes) {
        Ok(()) => status,
        Err(error) => status_of(error),
    }
}

/// What is known of a text, and what it is compiled to.
fn known(alloc: Global, text: &[u8]) -> Result<(Front, Built), CompileError>
    ensures { IfOk result (λ known. IsFounded known.0.typed known.0.copies.list.items known.0.placed known.0.at.items) }
{
    let front = front(alloc, text)?;
    let built = compile(alloc, text)?;
    Ok((front, built))
}

fn code(alloc: Global, text: &[u8]) -> Result<Shown, AllocError> {
    match known(alloc, text) {
        Ok((front, built)) => Ok(Shown {
            text: code_text(alloc, &front, &built)?,
            status: 0,
        }),
        Err(CompileError::Refused(_)) => Ok(Shown {
            text: b"refused: picc build says why\n".to_vec(alloc)?,
            status: 1,
        }),
        Err(CompileError::NoMemory) => Err(AllocError),
    }
}

fn tree(alloc: Global, text: &[u8]) -> Result<Shown, AllocError> {
    match typed_of(alloc, text) {
        Ok(typed) => Ok(Shown {
            text: typed_text(alloc, &typed)?,
            status: 0,
        }),
        Err(CompileError::Refused(Refusal::Typing { kind, line })) => Ok(Shown {
            text: broken_text(alloc, kind, line)?,
            status: 1,
        }),
        Err(CompileError::Refused(_)) => Ok(Shown {
            text: Vec::new(alloc),
            status: 1,
        }),
        Err(CompileError::NoMemory) => Err(AllocError),
    }
}

fn show<H: Host>(alloc: Global, host: &mut H, asked: Asked, text: &[u8]) -> u8 {
    let shown = match asked {
        Asked::Code => code(alloc, text),
        Asked::Tree => tree(alloc, text),
    };
    match shown {
        Ok(shown) => print(host, &shown.text, shown.status),
        Err(_) => 9,
    }
}

fn usage<H: Host>(host: &mut H) -> u8 {
    print(
        host,
        b"usage: picc_show code IN\n       picc_show tree IN\n",
        2,
    )
}

fn run<H: Host>(alloc: Global, host: &mut H, words: &[String]) -> u8
    requires { H.open_file host.old ≡ Closed }
{
    let [first, name] = words else {
        return usage(host);
    };
    let Some(asked) = asked_by(first) else {
        return usage(host);
    };
    match read_whole(alloc, host, name, LIMIT) {
        Ok(text) => show(alloc, host, asked, &text),
        Err(HostError::Failed) => print(host, b"the file can't be read\n", 3),
        Err(HostError::NoMemory) => 9,
    }
}

fn main(rt: HostRuntime) -> ExitCode {
    let Ok(words) = words(&rt) else {
        return ExitCode::from(9);
    };
    let alloc = rt.alloc();
    let mut host = RealHost::new(rt);
    ExitCode::from(run(alloc, &mut host, &words))
}
