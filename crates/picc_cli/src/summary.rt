//! The form `gen`: a program of a given size, and its sizes.

ghost use Rattle.std.specs.Prelude.{◌≡◌, ◌+◌, ◌*◌, ◌≤◌, ◌++◌, IfOk, IfSome, OnOk, Some};
ghost use Rattle.generated_laws.specs.Generated.{generated};
ghost use Rattle.host_io.specs.Host.{Closed};
ghost use Rattle.picc_cli.specs.Command.{Generate};
ghost use Rattle.picc_cli.specs.Finished.{HasFaults, HasPrinted, HasStatus, HasTold, IsComplete};
ghost use Rattle.picc_cli.specs.Summary.{IsSize, generated_text, summary_line};

use crate::generating::generate;
use crate::refusal::push_counted;
use host_io::Host;
use host_lines::say_line;
use picc_core::{CompileError, compile};
use std::alloc::{AllocError, Global};

/// What a program is stated to take: the words of all blocks of code, how many addresses of data memory its objects and
/// frames cover, and the words of the return stack that its calls take.
#[derive(Clone, Copy)]
struct Sizes {
    words: u32,
    ram: u16,
    depth: u8,
}

/// Compiles the program of so many functions, 1 to 64, and prints it and after it a comment with its sizes. The answer is the
/// exit status. No such program is refused.
pub fn print_generated<H: Host>(alloc: Global, host: &mut H, functions: u32) -> u8
    requires closed { H.open_file host.old ≡ Closed }
    requires size { IsSize functions }
    ensures closed { H.open_file host.new ≡ Closed }
    ensures same_kind { H.kind host.new ≡ H.kind host.old }
    ensures same_contents { H.contents host.new ≡ H.contents host.old }
    ensures faults { HasFaults (H.kind host.old) (H.faults host.old) (H.faults host.new) (Some (Generate functions)) (H.contents host.old) result }
    ensures status { HasStatus (Some (Generate functions)) result }
    ensures printed { HasPrinted (H.kind host.old) (Some (Generate functions)) (H.contents host.old) (H.printed host.old) (H.printed host.new) result }
    ensures told { IfSome (H.contents host.old) (λ old. HasTold (Some (Generate functions)) old (H.contents host.new) (H.printed host.old) (H.printed host.new) result) }
    ensures complete { IfSome (H.contents host.old) (λ old. IsComplete (H.kind host.old) (H.faults host.old) (H.faults host.new) (Some (Generate functions)) old result) }
{
    match summed(alloc, functions) {
        Ok(text) => say_line(host, 0, &text),
        Err(_) => 9,
    }
}

/// The program and the comment.
fn summed(alloc: Global, functions: u32) -> Result<Vec<u8>, AllocError>
    requires { IsSize functions }
    ensures { IfOk result (λ text. text.items ≡ generated_text functions) }
{
    let mut text = generate(alloc, functions)?;
    let sizes = sizes_of(alloc, functions, &text)?;
    text.extend_from_slice(&summary(alloc, functions, sizes)?)?;
    Ok(text)
}

/// The sizes of the program of so many functions, which is compiled. It is never refused.
fn sizes_of(alloc: Global, functions: u32, text: &[u8]) -> Result<Sizes, AllocError>
    requires size { IsSize functions }
    requires text { text.now ≡ generated functions }
    ensures { IfOk result (λ sizes. (sizes.words ≡ 132 + 92 * functions) × (sizes.ram ≡ 14) × (sizes.depth ≡ 1)) }
{
    match compile(alloc, text) {
        Ok(built) => Ok(Sizes {
            words: built.words,
            ram: built.ram,
            depth: built.depth,
        }),
        Err(CompileError::NoMemory) => Err(AllocError),
        Err(CompileError::Refused(_)) => unreachable!(),
    }
}

/// `/* gen K: words W ram R depth D */`, and a line feed.
fn summary(alloc: Global, functions: u32, sizes: Sizes) -> Result<Vec<u8>, AllocError>
    ensures { IfOk result (λ line. line.items ≡ summary_line functions sizes.words sizes.ram sizes.depth) }
{
    let mut line = Vec::new(alloc);
    push_counted(&mut line, b"/* gen ", functions as u64)?;
    push_counted(&mut line, b": words ", sizes.words as u64)?;
    push_counted(&mut line, b" ram ", sizes.ram as u64)?;
    push_counted(&mut line, b" depth ", sizes.depth as u64)?;
    line.extend_from_slice(b" */\n")?;
    Ok(line)
}
