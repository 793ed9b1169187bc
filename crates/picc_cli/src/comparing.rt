//! The form `agree`: from the files' names to an exit status.

ghost use Rattle.std.specs.Prelude.{◌≡◌, ◌<◌, ◌^◌, IfOk, IfSome, Some};
ghost use Rattle.host_io.specs.Host.{Closed};
ghost use Rattle.picc_cli.specs.Agreement.{FailsWithoutFiles, IsRunEnd, Knows, RunKnows, is_fault, last_line, status_of, agree_line as line_of_agreement};
ghost use Rattle.picc_cli.specs.Command.{Agree};
ghost use Rattle.picc_cli.specs.CommandView.{compared_of};
ghost use Rattle.picc_cli.specs.Finished.{HasFaults, HasPrinted, HasStatus, HasTold, IsComplete};
ghost use Rattle.picc_cli.specs.Made.{HasMade, RunsMade};
ghost use Rattle.picc_cli.specs.RunsTold.{EndTells, IsExact};
ghost use Rattle.host_lines.specs.Said.{Says, HasOutcomeCause};
ghost use Rattle.schedule.specs.ScriptFile as script_file;

use crate::building::TEXT_LIMIT;
use crate::command::Compared;
use crate::inputs::{FileEnd, say_file_end, script_in};
use crate::refusal::push_counted;
use crate::say::{say_located, say_refusal};
use crate::tracing::undef_text;
use host_io::{Host, HostError, read_whole};
use host_lines::{say, say_line};
use pic_world::Script;
use picc_core::{Agreed, CompileError, Refusal, agree, compile};
use src_machine::Undef;
use std::alloc::{AllocError, Global};

/// How a comparison ended.
#[derive(Drop)]
pub enum Ended {
    /// The runs of the chip and of the source agree on so many events.
    Same { events: u32 },
    /// A step of the source's run is undefined, for this reason and at this line of the text.
    Undefined { kind: Undef, line: u32 },
    /// The text is refused.
    Refused(Refusal),
    /// The text's file can't be read.
    CannotReadText,
    /// There is no script, for this reason.
    NoScript(FileEnd),
    NoMemory,
}

/// Compiles the text, runs the chip under the script for at most so many instructions, and the source under what
/// arrives there, and prints on how many events they agree, or why they can't be compared. The answer is the exit
/// status.
pub fn compare<H: Host>(alloc: Global, host: &mut H, asked: Compared<'_>) -> u8
    requires few { asked.instructions < 2 ^ 31 }
    requires closed { H.open_file host.old ≡ Closed }
    ensures closed { H.open_file host.new ≡ Closed }
    ensures same_kind { H.kind host.new ≡ H.kind host.old }
    ensures same_contents { H.contents host.new ≡ H.contents host.old }
    ensures faults { HasFaults (H.kind host.old) (H.faults host.old) (H.faults host.new) (Some (Agree (compared_of asked.entry))) (H.contents host.old) result }
    ensures status { HasStatus (Some (Agree (compared_of asked.entry))) result }
    ensures printed { HasPrinted (H.kind host.old) (Some (Agree (compared_of asked.entry))) (H.contents host.old) (H.printed host.old) (H.printed host.new) result }
    ensures told { IfSome (H.contents host.old) (λ old. HasTold (Some (Agree (compared_of asked.entry))) old (H.contents host.new) (H.printed host.old) (H.printed host.new) result) }
    ensures complete { IfSome (H.contents host.old) (λ old. IsComplete (H.kind host.old) (H.faults host.old) (H.faults host.new) (Some (Agree (compared_of asked.entry))) old result) }
    ensures made { IfSome (H.contents host.old) (λ old. HasMade (Some (Agree (compared_of asked.entry))) old (H.contents host.new) (H.printed host.old) (H.printed host.new) result) }
{
    let ended = compared(alloc, host, asked);
    report(alloc, host, asked, &ended)
}

/// Prints what is to be said of how a comparison ended, and answers its status.
fn report<H: Host>(alloc: Global, host: &mut H, asked: Compared<'_>, ended: &Ended) -> u8
    ensures same_file { H.open_file host.new ≡ H.open_file host.old }
    ensures same_contents { H.contents host.new ≡ H.contents host.old }
    ensures same_kind { H.kind host.new ≡ H.kind host.old }
    ensures said { Says (H.kind host.old) (H.faults host.old) (H.faults host.new) (H.printed host.old) (H.printed host.new)
        (last_line (compared_of asked.entry) ended.now) (status_of ended.now) result }
{
    match ended {
        Ended::Same { events } => say_agreed(alloc, host, *events),
        Ended::Undefined { kind, line } => say_located(
            alloc,
            host,
            4,
            asked.input,
            *line,
            b"undefined: ",
            undef_text(*kind),
        ),
        Ended::Refused(refusal) => say_refusal(alloc, host, asked.input, refusal),
        Ended::CannotReadText => say(host, 3, "cannot read ", asked.input, "\n"),
        Ended::NoScript(end) => say_file_end(alloc, host, asked.script, end),
        Ended::NoMemory => 9,
    }
}

fn say_agreed<H: Host>(alloc: Global, host: &mut H, events: u32) -> u8
    ensures same_file { H.open_file host.new ≡ H.open_file host.old }
    ensures same_contents { H.contents host.new ≡ H.contents host.old }
    ensures same_kind { H.kind host.new ≡ H.kind host.old }
    ensures said { Says (H.kind host.old) (H.faults host.old) (H.faults host.new) (H.printed host.old) (H.printed host.new) (line_of_agreement events) 0 result }
{
    match agree_line(alloc, events) {
        Ok(line) => say_line(host, 0, &line),
        Err(_) => 9,
    }
}

/// `agree Q`, and a line feed.
fn agree_line(alloc: Global, events: u32) -> Result<Vec<u8>, AllocError>
    ensures { IfOk result (λ line. line.items ≡ line_of_agreement events) }
{
    let mut line = Vec::new(alloc);
    push_counted(&mut line, b"agree ", events as u64)?;
    line.push(b'\n')?;
    Ok(line)
}

/// Reads the text and the script, and compares the runs.
#[tactic(auto, using(crate::proofs::Sound::text_fails, crate::proofs::Sound::memory_fails, crate::proofs::Sound::compared_no_script, crate::proofs::Sound::compared_runs, crate::proofs::Sound::no_fault, crate::proofs::AgreementEnds::none_known, crate::proofs::AgreementEnds::runs_known, crate::proofs::AgreementEnds::unread_exact, crate::proofs::AgreementEnds::unheld_exact, crate::proofs::AgreementEnds::unscripted_exact))]
fn compared<H: Host>(alloc: Global, host: &mut H, asked: Compared<'_>) -> Ended
    requires few { asked.instructions < 2 ^ 31 }
    requires closed { H.open_file host.old ≡ Closed }
    ensures closed { H.open_file host.new ≡ Closed }
    ensures same_kind { H.kind host.new ≡ H.kind host.old }
    ensures same_contents { H.contents host.new ≡ H.contents host.old }
    ensures same_printed { H.printed host.new ≡ H.printed host.old }
    ensures knows { IfSome (H.contents host.old) (λ old. Knows (compared_of asked.entry) old result) }
    ensures exact { IfSome (H.contents host.old) (λ old. IsExact RunsMade (compared_of asked.entry) old result) }
    ensures cause { HasOutcomeCause (H.kind host.old) (H.faults host.old) (H.faults host.new) (is_fault result) }
    ensures sound { FailsWithoutFiles (H.kind host.old) (H.contents host.old) (compared_of asked.entry) result }
{
    let text = match read_whole(alloc, host, asked.input, TEXT_LIMIT) {
        Ok(text) => text,
        Err(HostError::Failed) => return Ended::CannotReadText,
        Err(HostError::NoMemory) => return Ended::NoMemory,
    };
    let script = match script_in(alloc, host, asked.script) {
        Ok(script) => script,
        Err(end) => return Ended::NoScript(end),
    };
    runs(alloc, &text, &script, asked.instructions)
}

/// Compiles a text, and compares its runs under a script.
fn runs(alloc: Global, text: &[u8], script: &Script, instructions: u32) -> Ended
    requires { instructions < 2 ^ 31 }
    ensures end { IsRunEnd result }
    ensures knows { RunKnows text.now result }
    ensures exact { EndTells RunsMade text.now (script_file.content_of script.now) instructions result }
{
    let built = match compile(alloc, text) {
        Ok(built) => built,
        Err(CompileError::Refused(refusal)) => return Ended::Refused(refusal),
        Err(CompileError::NoMemory) => return Ended::NoMemory,
    };
    match agree(alloc, &built, script, instructions) {
        Ok(Agreed::Same { events }) => Ended::Same { events },
        Ok(Agreed::Undefined { kind, line }) => Ended::Undefined { kind, line },
        Err(_) => Ended::NoMemory,
    }
}
