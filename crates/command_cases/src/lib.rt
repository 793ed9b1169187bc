//! Commands over a host in memory, and cases of them as lines of tables. The crates of tests above share them.
//!
//! In: commands, and lines of tables. Out: the host behind a command and its status, and whether a case holds.
//!
//! A table is a text with a case on each line, but for empty lines and those that begin with `#`. A case has `@` between its fields: the
//! command, or two with `;` between them, of which the first is a build that ends with 0; the status; what is printed; and the
//! files that are there, each as its name, `=` and its content. In these `$` ends a line, and between two '`' stand a count,
//! `*` and what is repeated so often.
#![tactic(auto)]

ghost use Rattle.std.specs.Prelude.{◌≡◌, IfOk};
ghost use Rattle.host_io.specs.Host.{Closed};
ghost use Rattle.host_io.specs.Memory.{open_of};

use host_io::{Fail, MemoryHost};
use pic_sim::{Board, ScriptBoard};
use picc_cli::picc;
use std::alloc::{AllocError, Global};
use std::collections::BTreeMap;

/// A build.
pub const BUILD: &str = "build a.c a.hex a.map";

/// A C text that writes 5 to PORTB once.
pub const LED: &str = "void main(void){PORTB=5;}";

// Adds what a table writes so, with a line's end for each `$`.
fn push_lines(bytes: &mut Vec<u8>, written: &str) -> Result<(), AllocError> {
    for byte in written.as_bytes() {
        bytes.push(if *byte == b'$' { b'\n' } else { *byte })?;
    }
    Ok(())
}

// Adds what stands behind a count and `*`, so often.
fn push_repeated(bytes: &mut Vec<u8>, written: &str) -> Result<(), AllocError> {
    if let Some((times, part)) = written.split_once('*') {
        for _ in 0..times.parse::<u32>().unwrap_or(0) {
            push_lines(bytes, part)?;
        }
    }
    Ok(())
}

/// The bytes of what a table writes so.
pub fn bytes_of(alloc: Global, written: &str) -> Result<Vec<u8>, AllocError> {
    let mut bytes = Vec::new(alloc);
    let mut plain = true;
    for part in written.split('`') {
        if plain {
            push_lines(&mut bytes, part)?;
        } else {
            push_repeated(&mut bytes, part)?;
        }
        plain = !plain;
    }
    Ok(bytes)
}

// Adds the file of a field to the contents.
fn put_file(
    contents: &mut BTreeMap<String, Vec<u8>>,
    alloc: Global,
    file: &str,
) -> Result<(), AllocError> {
    if let Some((name, written)) = file.split_once('=') {
        contents.insert(String::from_str(alloc, name)?, bytes_of(alloc, written)?)?;
    }
    Ok(())
}

/// A host that has the files of these fields, and whose calls fail as `fails` lists them.
pub fn host_of(alloc: Global, files: &str, fails: Vec<Fail>) -> Result<MemoryHost, AllocError>
    ensures { IfOk result (λ host. open_of host.current ≡ Closed) }
{
    let mut contents = BTreeMap::new(alloc);
    for file in files.split('@') {
        put_file(&mut contents, alloc, file)?;
    }
    Ok(MemoryHost::new(contents, fails))
}

/// How many lines end in these bytes.
pub fn line_ends(bytes: &[u8]) -> usize {
    let mut count: usize = 0;
    for byte in bytes {
        if *byte == b'\n' {
            count = count.saturating_add(1);
        }
    }
    count
}

/// Whether the host has a file of this name with exactly this content.
pub fn is_file(host: &MemoryHost, name: &str, bytes: &[u8]) -> bool {
    match host.files.get(name) {
        Some(content) => content.as_slice() == bytes,
        None => false,
    }
}

/// Whether both hosts have a file of this name, with the same content.
pub fn is_same_file(host: &MemoryHost, other: &MemoryHost, name: &str) -> bool {
    match other.files.get(name) {
        Some(content) => is_file(host, name, content),
        None => false,
    }
}

/// Whether the host has each file of these fields.
pub fn has_files(alloc: Global, host: &MemoryHost, files: &str) -> Result<bool, AllocError> {
    let mut all = true;
    for file in files.split('@') {
        if let Some((name, written)) = file.split_once('=') {
            all = all && is_file(host, name, &bytes_of(alloc, written)?);
        }
    }
    Ok(all)
}

/// Whether the host has printed this.
pub fn is_printed(alloc: Global, host: &MemoryHost, written: &str) -> Result<bool, AllocError> {
    let text = bytes_of(alloc, written)?;
    Ok(host.printed.as_slice() == text.as_slice())
}

/// The words of a command.
pub fn words_of(alloc: Global, command: &str) -> Result<Vec<String>, AllocError> {
    let mut words = Vec::new(alloc);
    for word in command.split_whitespace() {
        words.push(String::from_str(alloc, word)?)?;
    }
    Ok(words)
}

/// The status of a command, over a board that follows scripts.
pub fn run(alloc: Global, command: &str, host: &mut MemoryHost) -> Result<u8, AllocError>
    requires { open_of host.old.current ≡ Closed }
    ensures { open_of host.new.current ≡ Closed }
{
    let words = words_of(alloc, command)?;
    let mut board: Box<dyn Board> = Box::new(alloc, ScriptBoard::new(alloc))?;
    Ok(picc(alloc, &words, host, &mut board))
}

/// The status of one command, or of two with `;` between them, of which the second runs where the first ends with 0.
pub fn run_all(alloc: Global, commands: &str, host: &mut MemoryHost) -> Result<u8, AllocError>
    requires { open_of host.old.current ≡ Closed }
    ensures { open_of host.new.current ≡ Closed }
{
    let Some((first, second)) = commands.split_once(';') else {
        return run(alloc, commands, host);
    };
    let status = run(alloc, first, host)?;
    if status == 0 {
        return run(alloc, second, host);
    }
    Ok(status)
}

/// A host that has the text as its file a.c and the script as a.s.
fn host_with(alloc: Global, text: &str, script: &str) -> Result<MemoryHost, AllocError>
    ensures { IfOk result (λ host. open_of host.current ≡ Closed) }
{
    let files = format!(in alloc; "a.c={text}@a.s={script}")?;
    host_of(alloc, &files, Vec::new(alloc))
}

/// The host behind commands on a text and a script, and the status.
pub fn host_behind(
    alloc: Global,
    commands: &str,
    text: &str,
    script: &str,
) -> Result<(MemoryHost, u8), AllocError> {
    let mut host = host_with(alloc, text, script)?;
    let status = run_all(alloc, commands, &mut host)?;
    Ok((host, status))
}

/// A case, cut at its marks.
#[derive(Clone, Copy)]
pub struct Case<'a> {
    pub commands: &'a str,
    pub status: u8,
    pub printed: &'a str,
    pub files: &'a str,
}

/// What stands before the first `@`, and what behind it; all and nothing where there is none.
pub fn cut(text: &str) -> (&str, &str) {
    text.split_once('@').unwrap_or((text, ""))
}

/// The case of a line. A status that is no number is one that no command ends with.
pub fn case_of(line: &str) -> Case<'_> {
    let (commands, rest) = cut(line);
    let (status, rest) = cut(rest);
    let (printed, files) = cut(rest);
    let status = status.parse().unwrap_or(u8::MAX);
    Case {
        commands,
        status,
        printed,
        files,
    }
}

// How many files a host has behind a case: a field for each that was there, and two that a build has made.
fn file_count(case: Case<'_>) -> usize {
    let fields = if case.files.is_empty() {
        0
    } else {
        case.files.split('@').count()
    };
    let has_built = case.commands.starts_with("build")
        && (case.status == 0 || case.commands.contains(';'));
    fields.saturating_add(if has_built { 2 } else { 0 })
}

// Whether a host behind commands that end with this status is as a case has it.
fn is_behind(
    alloc: Global,
    case: Case<'_>,
    host: &MemoryHost,
    status: u8,
) -> Result<bool, AllocError> {
    let is_told = status == case.status && host.files.len() == file_count(case);
    Ok(is_told && is_printed(alloc, host, case.printed)? && has_files(alloc, host, case.files)?)
}

/// Whether a case has its status, prints what it says, and leaves these files: those that were there, as they were, and what a
/// build has made.
pub fn holds(alloc: Global, line: &str) -> Result<bool, AllocError> {
    let case = case_of(line);
    let mut host = host_of(alloc, case.files, Vec::new(alloc))?;
    let status = run_all(alloc, case.commands, &mut host)?;
    is_behind(alloc, case, &host, status)
}

/// Whether the case of a line holds, with the fields that are shared behind its own.
pub fn holds_with(alloc: Global, line: &str, shared: &str) -> Result<bool, AllocError> {
    let case = format!(in alloc; "{line}{shared}")?;
    holds(alloc, &case)
}

/// Whether a case holds on this text and this script: what is asked are its command, its status, and what is printed.
pub fn holds_on(alloc: Global, asked: &str, text: &str, script: &str) -> Result<bool, AllocError> {
    let line = format!(in alloc; "{asked}@a.c={text}@a.s={script}")?;
    holds(alloc, &line)
}
