//! The forms `sim` and `sim84`: from the files' names and a board to an exit status.

ghost use Rattle.std.specs.Prelude.{◌≡◌, ◌≤◌, ◌+◌, ◌*◌, ◌++◌, [], true, false, length, option_map, IsTrue, IfOk, IfSome, OnOk, OnErr, Some};
ghost use Rattle.host_io.specs.Host.{Closed, HasCause, NoFailure, PrintsPrefix};
ghost use Rattle.pic_map.specs.MapView.{content_of};
ghost use Rattle.picc_cli.specs.Chip.{FailsWithoutFiles, IsRunEnd, Leads, RunPrints, ends_at_file, is_fault, last_line, status_of, unmodelled_text};
ghost use Rattle.picc_cli.specs.Command.{Simulate};
ghost use Rattle.picc_cli.specs.CommandView.{simulated_of};
ghost use Rattle.picc_cli.specs.Finished.{HasFaults, HasPrinted, HasStatus, IsComplete};
ghost use Rattle.picc_cli.specs.Lines.{event_lines};
ghost use Rattle.host_lines.specs.Said.{Says, HasOutcomeCause};
ghost use Rattle.picc_cli.specs.Simulation.{HasSimulated, IsFed, IsPrinted, Knows, Runs, board_of, simulator_of};
ghost use Rattle.picc_cli.specs.Trace.{AllShown};
ghost use Rattle.schedule.specs.ScriptFile as script_file;

use crate::command::Simulated;
use crate::digits::push_word;
use crate::inputs::{FileEnd, hex_in, map_in, say_file_end, script_in};
use crate::running::print_event;
use chip_84a::{Chip84, Start84, simulate84};
use host_io::{Host, HostError};
use host_lines::say_line;
use pic_chip::{Chip, Image, Profile, Start};
use pic_map::{Map, Tracer};
use pic_sim::{Board, SimEnd, simulate as run_on};
use pic_world::{Script, Trace};
use std::alloc::{AllocError, Global};

/// What is unknown after power-on is 0 here.
const UNKNOWN: Start = Start {
    w: 0,
    fsr: 0,
    flags: 0,
    ram: [0; 368],
};

/// And so on the second chip.
const UNKNOWN_ON_SECOND: Start84 = Start84 {
    w: 0,
    fsr: 0,
    flags: 0,
    ram: [0; 68],
};

/// How a simulation ended.
#[derive(Drop)]
pub enum Ended {
    /// All instructions were run that were asked for.
    Done,
    /// The word at this address, whose turn it is, is SLEEP or no instruction's.
    Unmodelled { at: u16 },
    /// There is no HEX file, for this reason.
    NoHex(FileEnd),
    /// There is no map.
    NoMap(FileEnd),
    /// There is no script.
    NoScript(FileEnd),
    /// The line of an event can't be printed.
    CannotPrint,
    NoMemory,
}

/// Runs the HEX on the chip that is asked for, for so many instructions, over the board, which is fed the script, and prints the line of
/// each event, by the names of the map; and at last why the run didn't go on, if something kept it. The answer is the
/// exit status.
pub fn simulate<H: Host>(
    alloc: Global,
    host: &mut H,
    board: &mut Box<dyn Board>,
    asked: Simulated<'_>,
) -> u8
    requires { H.open_file host.old ≡ Closed }
    ensures closed { H.open_file host.new ≡ Closed }
    ensures same_kind { H.kind host.new ≡ H.kind host.old }
    ensures same_contents { H.contents host.new ≡ H.contents host.old }
    ensures faults { HasFaults (H.kind host.old) (H.faults host.old) (H.faults host.new) (Some (Simulate (simulated_of asked.entry))) (H.contents host.old) result }
    ensures status { HasStatus (Some (Simulate (simulated_of asked.entry))) result }
    ensures printed { HasPrinted (H.kind host.old) (Some (Simulate (simulated_of asked.entry))) (H.contents host.old) (H.printed host.old) (H.printed host.new) result }
    ensures complete { IfSome (H.contents host.old) (λ old. IsComplete (H.kind host.old) (H.faults host.old) (H.faults host.new) (Some (Simulate (simulated_of asked.entry))) old result) }
    ensures refused { result ≡ 5 → board.new ≡ board.old }
    ensures simulated { IfSome (H.contents host.old) (λ old. HasSimulated (Some (Simulate (simulated_of asked.entry))) old (board_of (lists board.old) (follows board.old)) (board_of (lists board.new) (follows board.new)) (H.printed host.old) (H.printed host.new) result) }
{
    let ended = simulated(alloc, host, board, asked);
    report(alloc, host, asked, &ended)
}

/// Prints what is to be said of how a simulation ended, and answers its status.
fn report<H: Host>(alloc: Global, host: &mut H, asked: Simulated<'_>, ended: &Ended) -> u8
    ensures same_file { H.open_file host.new ≡ H.open_file host.old }
    ensures same_contents { H.contents host.new ≡ H.contents host.old }
    ensures same_kind { H.kind host.new ≡ H.kind host.old }
    ensures said { Says (H.kind host.old) (H.faults host.old) (H.faults host.new) (H.printed host.old) (H.printed host.new)
        (last_line (simulated_of asked.entry) ended.now) (status_of ended.now) result }
{
    match ended {
        Ended::Done => 0,
        Ended::Unmodelled { at } => say_unmodelled(alloc, host, *at),
        Ended::NoHex(end) => say_file_end(alloc, host, asked.hex, end),
        Ended::NoMap(end) => say_file_end(alloc, host, asked.map, end),
        Ended::NoScript(end) => say_file_end(alloc, host, asked.script, end),
        Ended::CannotPrint => 3,
        Ended::NoMemory => 9,
    }
}

fn say_unmodelled<H: Host>(alloc: Global, host: &mut H, at: u16) -> u8
    ensures same_file { H.open_file host.new ≡ H.open_file host.old }
    ensures same_contents { H.contents host.new ≡ H.contents host.old }
    ensures same_kind { H.kind host.new ≡ H.kind host.old }
    ensures said { Says (H.kind host.old) (H.faults host.old) (H.faults host.new) (H.printed host.old) (H.printed host.new) (unmodelled_text at) 6 result }
{
    match unmodelled_line(alloc, at) {
        Ok(line) => say_line(host, 6, &line),
        Err(_) => 9,
    }
}

/// `unmodelled PPPP`, and a line feed.
fn unmodelled_line(alloc: Global, at: u16) -> Result<Vec<u8>, AllocError>
    ensures { IfOk result (λ line. line.items ≡ unmodelled_text at) }
{
    let mut line = Vec::from_slice(alloc, b"unmodelled ")?;
    push_word(&mut line, at)?;
    line.push(b'\n')?;
    Ok(line)
}

/// Reads the HEX file, the map and the script, and runs the chip.
#[tactic(auto, using(crate::proofs::Sound::no_hex_fails, crate::proofs::Sound::no_map_fails, crate::proofs::Sound::no_script_fails, crate::proofs::Sound::run_fails))]
fn simulated<H: Host>(
    alloc: Global,
    host: &mut H,
    board: &mut Box<dyn Board>,
    asked: Simulated<'_>,
) -> Ended
    requires { H.open_file host.old ≡ Closed }
    ensures closed { H.open_file host.new ≡ Closed }
    ensures same_kind { H.kind host.new ≡ H.kind host.old }
    ensures same_contents { H.contents host.new ≡ H.contents host.old }
    ensures cause { HasOutcomeCause (H.kind host.old) (H.faults host.old) (H.faults host.new) (is_fault result) }
    ensures sound { FailsWithoutFiles (H.kind host.old) (H.contents host.old) (simulated_of asked.entry) result }
    ensures leads { Leads result (H.printed host.old) (H.printed host.new) }
    ensures same_board { ends_at_file result ≡ true → board.new ≡ board.old }
    ensures knows { IfSome (H.contents host.old) (λ old. Knows (simulated_of asked.entry) old (board_of (lists board.old) (follows board.old)) (board_of (lists board.new) (follows board.new)) result (H.printed host.old) (H.printed host.new)) }
{
    let image = match hex_in(alloc, host, asked.hex) {
        Ok(image) => image,
        Err(end) => return Ended::NoHex(end),
    };
    let map = match map_in(alloc, host, asked.map) {
        Ok(map) => map,
        Err(end) => return Ended::NoMap(end),
    };
    let script = match script_in(alloc, host, asked.script) {
        Ok(script) => script,
        Err(end) => return Ended::NoScript(end),
    };
    run(alloc, host, board, &image, &map, &script, asked)
}

/// Feeds the script to the board, runs the image from a reset for so many instructions, and prints the line of each
/// event.
fn run<H: Host>(
    alloc: Global,
    host: &mut H,
    board: &mut Box<dyn Board>,
    image: &Image,
    map: &Map,
    script: &Script,
    asked: Simulated<'_>,
) -> Ended
    requires few { length map.now.objects.items ≤ 65536 }
    ensures same_file { H.open_file host.new ≡ H.open_file host.old }
    ensures same_contents { H.contents host.new ≡ H.contents host.old }
    ensures same_kind { H.kind host.new ≡ H.kind host.old }
    ensures end { IsRunEnd result }
    ensures prints { RunPrints (content_of map.now) result (H.printed host.old) (H.printed host.new) }
    ensures runs { Runs asked.entry.chip image.now (content_of map.now) (script_file.content_of script.now) asked.entry.instructions (board_of (lists board.old) (follows board.old)) (board_of (lists board.new) (follows board.new)) result (H.printed host.old) (H.printed host.new) }
    ensures cause { HasOutcomeCause (H.kind host.old) (H.faults host.old) (H.faults host.new) (is_fault result) }
    ensures sound { IsTrue (H.kind host.old).is_sound → is_fault result ≡ false }
{
    let mut trace = Trace::new(alloc);
    let instructions = asked.instructions;
    if trace.reserve(2 * instructions as usize + 1).is_err() {
        return Ended::NoMemory;
    }
    match run_over(
        asked.chip,
        board,
        image,
        map,
        script,
        instructions,
        &mut trace,
    ) {
        Ok(end) => print_run(alloc, host, map, &trace, end),
        Err(_) => Ended::NoMemory,
    }
}

/// Feeds the script to the board, and runs the image on a chip from a reset for so many instructions. The trace is empty, has
/// room for the events, and takes them.
fn run_over(
    chip: Profile,
    board: &mut Box<dyn Board>,
    image: &Image,
    map: &Map,
    script: &Script,
    instructions: u32,
    trace: &mut Trace,
) -> Result<SimEnd, AllocError>
    requires few { length map.now.objects.items ≤ 65536 }
    requires empty { trace.old.events ≡ [] }
    requires room { 2 * instructions + 1 ≤ trace.old.room }
    ensures run { IfOk result (λ end. (simulator_of chip).Ran image.now (content_of map.now) (script_file.content_of script.now) instructions (board_of (lists board.old) (follows board.old)) (board_of (lists board.new) (follows board.new)) trace.new.events end) }
    ensures refused { OnErr result (lists board.new ≡ lists board.old) }
{
    feed(board, script)?;
    let mut tracer = Tracer::new(map);
    // Each chip begins at 0000h.
    let _ = tracer.at(0);
    let instructions = instructions as u64;
    match chip {
        Profile::Pic16F877a => {
            let mut chip = Chip::reset(&UNKNOWN);
            Ok(run_on(&mut chip, image, &mut tracer, board, instructions, trace))
        }
        Profile::Pic16F84a => {
            let mut chip = Chip84::reset(&UNKNOWN_ON_SECOND);
            Ok(simulate84(&mut chip, image, &mut tracer, board, instructions, trace))
        }
    }
}

/// Hands the script over to the board.
fn feed(board: &mut Box<dyn Board>, script: &Script) -> Result<(), AllocError>
    ensures fed { OnOk result (IsFed (script_file.content_of script.now) (board_of (lists board.old) (follows board.old)) (board_of (lists board.new) (follows board.new))) }
    ensures refused { OnErr result (lists board.new ≡ lists board.old) }
{
    board.feed(script)
}

/// Prints the line of each event of a run that ended so.
fn print_run<H: Host>(alloc: Global, host: &mut H, map: &Map, trace: &Trace, end: SimEnd) -> Ended
    requires { AllShown (content_of map.now) trace.now.events }
    ensures same_file { H.open_file host.new ≡ H.open_file host.old }
    ensures same_contents { H.contents host.new ≡ H.contents host.old }
    ensures same_kind { H.kind host.new ≡ H.kind host.old }
    ensures end { IsRunEnd result }
    ensures printed { IsPrinted (content_of map.now) trace.now.events end result (H.printed host.old) (H.printed host.new) }
    ensures cause { HasOutcomeCause (H.kind host.old) (H.faults host.old) (H.faults host.new) (is_fault result) }
    ensures sound { IsTrue (H.kind host.old).is_sound → is_fault result ≡ false }
{
    let ended = match end {
        SimEnd::Done => Ended::Done,
        SimEnd::Unmodelled(at) => Ended::Unmodelled { at },
        SimEnd::NoMemory => return Ended::NoMemory,
    };
    match print_events(alloc, host, map, trace) {
        Ok(()) => ended,
        Err(HostError::Failed) => Ended::CannotPrint,
        Err(HostError::NoMemory) => Ended::NoMemory,
    }
}

/// Prints the line of each event.
#[tactic(auto, using(crate::proofs::EventLines::none_shown, crate::proofs::EventLines::none_printed, crate::proofs::EventLines::more_shown, crate::proofs::EventLines::more_printed, crate::proofs::EventLines::all_shown, crate::proofs::EventLines::all_printed, crate::proofs::EventLines::line_broken))]
fn print_events<H: Host>(
    alloc: Global,
    host: &mut H,
    map: &Map,
    trace: &Trace,
) -> Result<(), HostError>
    requires { AllShown (content_of map.now) trace.now.events }
    ensures same_file { H.open_file host.new ≡ H.open_file host.old }
    ensures same_contents { H.contents host.new ≡ H.contents host.old }
    ensures same_kind { H.kind host.new ≡ H.kind host.old }
    ensures shown { OnOk result (AllShown (content_of map.now) trace.now.events) }
    ensures all { OnOk result (H.printed host.new ≡ option_map (λ t. t ++ event_lines (content_of map.now) trace.now.events) (H.printed host.old)) }
    ensures prefix { OnErr result (PrintsPrefix (H.printed host.old) (H.printed host.new) (event_lines (content_of map.now) trace.now.events)) }
    ensures cause { HasCause (H.kind host.old) (H.faults host.old) (H.faults host.new) result }
    ensures sound { NoFailure (H.kind host.old) result }
{
    for i in 0..trace.len() {
        print_event(alloc, host, map, trace.get(i))?;
    }
    Ok(())
}
