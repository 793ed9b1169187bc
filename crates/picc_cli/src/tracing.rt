//! The form `trace`: from the files' names to an exit status.

ghost use Rattle.std.specs.List.{All};
ghost use Rattle.std.specs.Prelude.{◌≡◌, ◌<◌, IfSome, Some};
ghost use Rattle.host_io.specs.Host.{Closed};
ghost use Rattle.picc_cli.specs.Command.{Trace};
ghost use Rattle.picc_cli.specs.CommandView.{asked_of};
ghost use Rattle.picc_cli.specs.Finished.{HasFaults, HasStatus, HasPrinted, HasTold, IsComplete};
ghost use Rattle.picc_cli.specs.Lines as lines;
ghost use Rattle.host_lines.specs.Said.{Says, HasOutcomeCause};
ghost use Rattle.picc_cli.specs.Trace.{Knows, FailsWithoutFiles, Leads, is_fault, last_line, status_of};
ghost use Rattle.picc_cli.specs.Traced.{HasTraced, RunsBy};

use crate::building::TEXT_LIMIT;
use crate::command::Asked;
use crate::inputs::{FileEnd, say_file_end, script_in};
use crate::running::run;
use crate::say::{say_located, say_refusal};
use host_io::{Host, HostError, read_whole};
use host_lines::say;
use picc_core::{CompileError, Refusal, front};
use src_machine::Undef;
use std::alloc::Global;
use typed_numbers::see_numbers;

/// How a trace ended.
#[derive(Drop)]
pub enum Ended {
    /// All steps were taken that were asked for, or all that there are.
    Done,
    /// The next step is undefined, for this reason and at this line of the text.
    Undefined { kind: Undef, line: u32 },
    /// The text is refused.
    Refused(Refusal),
    /// The text's file can't be read.
    CannotReadText,
    /// There is no script, for this reason.
    NoScript(FileEnd),
    /// The line of an event can't be printed.
    CannotPrint,
    NoMemory,
}

/// Runs the text for at most so many steps under the script, and prints the line of each event, and at last why the
/// run didn't go on, if something kept it. The answer is the exit status.
pub fn trace<H: Host>(alloc: Global, host: &mut H, asked: Asked<'_>) -> u8
    requires { H.open_file host.old ≡ Closed }
    ensures closed { H.open_file host.new ≡ Closed }
    ensures same_kind { H.kind host.new ≡ H.kind host.old }
    ensures same_contents { H.contents host.new ≡ H.contents host.old }
    ensures faults { HasFaults (H.kind host.old) (H.faults host.old) (H.faults host.new) (Some (Trace (asked_of asked.entry))) (H.contents host.old) result }
    ensures status { HasStatus (Some (Trace (asked_of asked.entry))) result }
    ensures printed { HasPrinted (H.kind host.old) (Some (Trace (asked_of asked.entry))) (H.contents host.old) (H.printed host.old) (H.printed host.new) result }
    ensures told { IfSome (H.contents host.old) (λ old. HasTold (Some (Trace (asked_of asked.entry))) old (H.contents host.new) (H.printed host.old) (H.printed host.new) result) }
    ensures complete { IfSome (H.contents host.old) (λ old. IsComplete (H.kind host.old) (H.faults host.old) (H.faults host.new) (Some (Trace (asked_of asked.entry))) old result) }
    ensures traced { IfSome (H.contents host.old) (λ old. HasTraced (Some (Trace (asked_of asked.entry))) old (H.printed host.old) (H.printed host.new) result) }
{
    let ended = traced(alloc, host, asked);
    report(alloc, host, asked, ended)
}

/// Prints what is to be said of how a trace ended, and answers its status.
fn report<H: Host>(alloc: Global, host: &mut H, asked: Asked<'_>, ended: Ended) -> u8
    ensures same_file { H.open_file host.new ≡ H.open_file host.old }
    ensures same_contents { H.contents host.new ≡ H.contents host.old }
    ensures same_kind { H.kind host.new ≡ H.kind host.old }
    ensures said { Says (H.kind host.old) (H.faults host.old) (H.faults host.new) (H.printed host.old) (H.printed host.new)
        (last_line (asked_of asked.entry) ended) (status_of ended) result }
{
    match ended {
        Ended::Done => 0,
        Ended::Undefined { kind, line } => say_located(
            alloc,
            host,
            4,
            asked.input,
            line,
            b"undefined: ",
            undef_text(kind),
        ),
        Ended::Refused(refusal) => say_refusal(alloc, host, asked.input, &refusal),
        Ended::CannotReadText => say(host, 3, "cannot read ", asked.input, "\n"),
        Ended::NoScript(end) => say_file_end(alloc, host, asked.script, &end),
        Ended::CannotPrint => 3,
        Ended::NoMemory => 9,
    }
}

/// Reads the text and the script, and runs the text.
#[tactic(auto, using(crate::proofs::TraceFiles::no_script_known, crate::proofs::Sound::traced_no_script, crate::proofs::TracedWhole::quiet_unread, crate::proofs::TracedWhole::quiet_script, crate::proofs::TracedWhole::quiet_refused, crate::proofs::TracedWhole::quiet_memory))]
fn traced<H: Host>(alloc: Global, host: &mut H, asked: Asked<'_>) -> Ended
    requires { H.open_file host.old ≡ Closed }
    ensures closed { H.open_file host.new ≡ Closed }
    ensures same_kind { H.kind host.new ≡ H.kind host.old }
    ensures same_contents { H.contents host.new ≡ H.contents host.old }
    ensures knows { IfSome (H.contents host.old) (λ old. Knows (asked_of asked.entry) old result) }
    ensures leads { Leads asked.entry.steps result (H.printed host.old) (H.printed host.new) }
    ensures cause { HasOutcomeCause (H.kind host.old) (H.faults host.old) (H.faults host.new) (is_fault result) }
    ensures sound { FailsWithoutFiles (H.kind host.old) (H.contents host.old) (asked_of asked.entry) result }
    ensures runs { IfSome (H.contents host.old) (λ old. RunsBy (asked_of asked.entry) old result (H.printed host.old) (H.printed host.new)) }
{
    let text = match read_whole(alloc, host, asked.input, TEXT_LIMIT) {
        Ok(text) => text,
        Err(HostError::Failed) => return Ended::CannotReadText,
        Err(HostError::NoMemory) => return Ended::NoMemory,
    };
    let script = match script_in(alloc, host, asked.script) {
        Ok(script) => script,
        Err(end) => return Ended::NoScript(end),
    };
    match front(alloc, &text) {
        Ok(known) => {
            see_numbers(&known.typed);
            see_bytes(&script.input);
            run(alloc, host, known, &script, asked.steps)
        }
        Err(CompileError::NoMemory) => Ended::NoMemory,
        Err(CompileError::Refused(refusal)) => Ended::Refused(refusal),
    }
}

/// What bytes are by themselves.
fn see_bytes(bytes: &[u8])
    ensures { All (λ byte. byte < 256) bytes.now }
{}

/// What is printed for a kind of undefined steps.
pub fn undef_text(kind: Undef) -> &'static [u8]
    ensures { result.now ≡ lines.undef_text kind }
{
    match kind {
        Undef::Division => b"division",
        Undef::Overflow => b"overflow",
        Undef::Shift => b"shift",
        Undef::Unset => b"unset",
        Undef::Outside => b"outside",
        Undef::Inactive => b"inactive",
        Undef::Order => b"order",
        Undef::Past => b"past",
        Undef::Bytes => b"bytes",
        Undef::Isolation => b"isolation",
        Undef::Gie => b"gie",
        Undef::Handler => b"handler",
    }
}
