//! The top call: a command from its words to its exit status.

ghost use Rattle.std.specs.Prelude.{◌≡◌, false, option_map, IfSome};
ghost use Rattle.host_io.specs.Host.{Closed};
ghost use Rattle.picc_cli.specs.Command.{form_of, is_simulation, words_of};
ghost use Rattle.picc_cli.specs.CommandView.{IsWithin, form_view};
ghost use Rattle.picc_cli.specs.Finished.{HasFiles, HasFaults, HasStatus, HasPrinted, HasTold, IsComplete};
ghost use Rattle.picc_cli.specs.Made.{HasMade};
ghost use Rattle.picc_cli.specs.Simulation.{HasSimulated, board_of};
ghost use Rattle.picc_cli.specs.Traced.{HasTraced};

use crate::building::build_files;
use crate::checking::check;
use crate::command::{Command, command_of};
use crate::comparing::compare;
use crate::simulating::simulate;
use crate::summary::print_generated;
use crate::tracing::trace;
use host_io::Host;
use host_lines::say;
use pic_sim::Board;
use std::alloc::Global;

const USAGE: &str =
    "usage: picc build IN OUT MAP | trace IN SCRIPT M | sim HEX MAP SCRIPT N | agree IN SCRIPT N | gen K | check HEX | build84 IN OUT MAP | sim84 HEX MAP SCRIPT N\n";

/// Runs the command of these words, which are those after the program's name, over a host on which no file is open.
/// The answer is the exit status: 0 where the command did what its form says, 1 where the C text is refused, 2 where the words
/// are of no form, 3 for a fault of the host, 4 where a step of a trace or of a comparison is undefined, 5 where a HEX file, a
/// map or a script is none, 6 where a simulation comes to SLEEP or to a word that is no instruction's, 7 where no certificate of
/// the return stack's depth is valid for an image, 9 when out of memory.
///
/// The forms are eight. `build IN OUT MAP` compiles the C text of IN for the PIC16F877A, writes the HEX to OUT and then the map to
/// MAP, and prints nothing; `build84 IN OUT MAP` does so for the PIC16F84A. No file is created before all else has succeeded.
/// `trace IN SCRIPT M` runs the C text of IN by the language's own rules, for at most M steps, with what the script of SCRIPT lets in
/// from outside, and prints the line of each event. `sim HEX MAP SCRIPT N` runs the HEX on the PIC16F877A for N instructions over the
/// board, which is fed the script, and prints the line of each event by the names of the map; `sim84 HEX MAP SCRIPT N` does so on the
/// PIC16F84A. `agree IN SCRIPT N` compares the runs of the chip and of the source, and prints on how many events they agree. `gen K`
/// prints a program of K functions, and its sizes. `check HEX` prints how deep the return stack becomes at most under the program of
/// the HEX. But for `build` and `build84`, no file is created or changed; but for `sim` and `sim84`, the board is left as it was.
pub fn picc<H: Host>(
    alloc: Global,
    words: &[String],
    host: &mut H,
    board: &mut Box<dyn Board>,
) -> u8
    requires { H.open_file host.old ≡ Closed }
    ensures closed { H.open_file host.new ≡ Closed }
    ensures same_kind { H.kind host.new ≡ H.kind host.old }

    // With status 0 of a build what the HEX does on the build's chip is what the text's typed program says; with status 1 all files are
    // as they were, and a refusal holds of the text, or it names a register that the chip doesn't have. All other commands leave all
    // files as they were.
    ensures files { IfSome (H.contents host.old) (λ old. HasFiles (form_of (words_of words.now)) old (H.contents host.new) result) }
    ensures faults { HasFaults (H.kind host.old) (H.faults host.old) (H.faults host.new) (form_of (words_of words.now)) (H.contents host.old) result }
    ensures status { HasStatus (form_of (words_of words.now)) result }
    // What is printed is a whole text of the form, or a prefix of one where it gives up. Over a sound host 3 comes with the line of a file
    // that has no content.
    ensures printed { HasPrinted (H.kind host.old) (form_of (words_of words.now)) (H.contents host.old) (H.printed host.old) (H.printed host.new) result }
    // What is printed of a refused text, of a file that isn't such as it is to be, and of an accepted one, holds of the files. A
    // generated program that is printed is accepted, and the sizes behind it are its own. The depth that a check prints is that of each
    // certificate that is valid for the image of its file, and one is, so in no run of that image does the return stack hold more words;
    // with 7 no certificate is valid for it.
    ensures told { IfSome (H.contents host.old) (λ old. HasTold (form_of (words_of words.now)) old (H.contents host.new) (H.printed host.old) (H.printed host.new) result) }
    // A simulation runs the chip over the board, on what its three files hold: this is that run, its events, and what the board was
    // asked and told. 6 comes just where the run of the chip's own definitions stops, and with 0 and 6 the trace of that run is printed.
    // Where a file isn't such as it is to be, the first such file is told.
    ensures simulated { IfSome (H.contents host.old) (λ old. HasSimulated (form_of (words_of words.now)) old (board_of (lists board.old) (follows board.old)) (board_of (lists board.new) (follows board.new)) (H.printed host.old) (H.printed host.new) result) }
    // A trace prints the lines of the run of a typed program, by the definitions of the source. Each event of it has a name in the map.
    ensures traced { IfSome (H.contents host.old) (λ old. HasTraced (form_of (words_of words.now)) old (H.printed host.old) (H.printed host.new) result) }
    // Without a fault an accepted text is built, traced or compared, and one that is refused isn't, unless memory runs out; and the status
    // says which of the two a text is. So does the status of a check say whether a certificate is valid for an image.
    ensures complete { IfSome (H.contents host.old) (λ old. IsComplete (H.kind host.old) (H.faults host.old) (H.faults host.new) (form_of (words_of words.now)) old result) }
    // Beside all this: the image and the map of a build, and those whose run is compared, are what the passes make of the text's program, each as it
    // promises its part. None of the other clauses speaks of the passes.
    ensures made { IfSome (H.contents host.old) (λ old. HasMade (form_of (words_of words.now)) old (H.contents host.new) (H.printed host.old) (H.printed host.new) result) }
    // The board is left as it was, but by a simulation whose files are such as they are to be.
    ensures board { is_simulation (form_of (words_of words.now)) ≡ false → board.new ≡ board.old }
    ensures refused { result ≡ 5 → board.new ≡ board.old }
{
    match command_of(alloc, words) {
        Ok(command) => run(alloc, host, board, command),
        Err(_) => 9,
    }
}

/// Runs a command, or prints how the words are to be where there is none.
fn run<H: Host>(
    alloc: Global,
    host: &mut H,
    board: &mut Box<dyn Board>,
    command: Option<Command<'_>>,
) -> u8
    requires closed { H.open_file host.old ≡ Closed }
    requires few { IsWithin command }
    ensures closed { H.open_file host.new ≡ Closed }
    ensures same_kind { H.kind host.new ≡ H.kind host.old }
    ensures files { IfSome (H.contents host.old) (λ old. HasFiles (option_map form_view command.entry) old (H.contents host.new) result) }
    ensures faults { HasFaults (H.kind host.old) (H.faults host.old) (H.faults host.new) (option_map form_view command.entry) (H.contents host.old) result }
    ensures status { HasStatus (option_map form_view command.entry) result }
    ensures printed { HasPrinted (H.kind host.old) (option_map form_view command.entry) (H.contents host.old) (H.printed host.old) (H.printed host.new) result }
    ensures told { IfSome (H.contents host.old) (λ old. HasTold (option_map form_view command.entry) old (H.contents host.new) (H.printed host.old) (H.printed host.new) result) }
    ensures simulated { IfSome (H.contents host.old) (λ old. HasSimulated (option_map form_view command.entry) old (board_of (lists board.old) (follows board.old)) (board_of (lists board.new) (follows board.new)) (H.printed host.old) (H.printed host.new) result) }
    ensures traced { IfSome (H.contents host.old) (λ old. HasTraced (option_map form_view command.entry) old (H.printed host.old) (H.printed host.new) result) }
    ensures complete { IfSome (H.contents host.old) (λ old. IsComplete (H.kind host.old) (H.faults host.old) (H.faults host.new) (option_map form_view command.entry) old result) }
    ensures made { IfSome (H.contents host.old) (λ old. HasMade (option_map form_view command.entry) old (H.contents host.new) (H.printed host.old) (H.printed host.new) result) }
    ensures board { is_simulation (option_map form_view command.entry) ≡ false → board.new ≡ board.old }
    ensures refused { result ≡ 5 → board.new ≡ board.old }
{
    match command {
        None => say(host, 2, USAGE, "", ""),
        Some(Command::Build(files)) => build_files(alloc, host, files),
        Some(Command::Trace(asked)) => trace(alloc, host, asked),
        Some(Command::Simulate(asked)) => simulate(alloc, host, board, asked),
        Some(Command::Agree(asked)) => compare(alloc, host, asked),
        Some(Command::Generate(functions)) => print_generated(alloc, host, functions),
        Some(Command::Check(hex)) => check(alloc, host, hex),
    }
}
