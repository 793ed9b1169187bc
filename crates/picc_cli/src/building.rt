//! The forms `build` and `build84`: from the files' names to an exit status.

ghost use Rattle.std.specs.Prelude.{◌≡◌, ◌⊎◌, IfOk, IfErr, IfSome, Some};
ghost use Rattle.hex_image.specs.HexFile.{IsHexFile};
ghost use Rattle.hex_image.specs.HexText.{hex_text};
ghost use Rattle.host_io.specs.Host.{Closed};
ghost use Rattle.pic_map.specs.MapFile.{IsMapFile};
ghost use Rattle.pic_map.specs.MapText.{AreInRange, map_text};
ghost use Rattle.pic_map.specs.MapView.{content_of};
ghost use Rattle.picc_cli.specs.Command.{Build};
ghost use Rattle.picc_cli.specs.CommandView.{names_of};
ghost use Rattle.picc_cli.specs.Finished.{HasFiles, HasFaults, HasStatus, HasPrinted, HasTold, IsComplete};
ghost use Rattle.picc_cli.specs.Made.{HasMade, PassesMade, files_for};
ghost use Rattle.pic_chip.specs.declared.profile.Profile.TheVariants.{Pic16F877a, Pic16F84a};
ghost use Rattle.picc_core.specs.Compiled.{IsCompiledBy, plain};
ghost use Rattle.picc_core.specs.SecondChip.{second};
ghost use Rattle.picc_cli.specs.declared.building.Outcome.TheVariants as outcomes;
ghost use Rattle.picc_cli.specs.Outcome.{TellsWhyBy, WorkedOn, build_for, FailsWithoutInput, is_fault, line_of, status_of};
ghost use Rattle.host_lines.specs.Said.{Says, HasOutcomeCause};

use crate::command::Files;
use crate::say::{say_located, say_refusal};
use hex_image::write_hex;
use host_io::{Host, HostError, read_whole, write_whole};
use host_lines::say;
use pic_chip::Profile;
use pic_map::write_map;
use picc_core::{Built as Program, Compile84Error, CompileError, Refusal, compile, compile84};
use std::alloc::{AllocError, Global};

/// The longest C text, in bytes.
pub const TEXT_LIMIT: usize = 262_144;

/// The texts of the two files.
#[derive(Drop)]
struct Texts {
    hex: Vec<u8>,
    map: Vec<u8>,
}

/// How a build went.
#[derive(Drop)]
pub enum Outcome {
    Built,
    Refused(Refusal),
    /// The text names on this line a device register that the chip doesn't have.
    Register { line: u32 },
    CannotRead,
    CannotWriteHex,
    CannotWriteMap,
    NoMemory,
}

/// Builds the text, and writes the two files. The answer is the exit status.
pub fn build_files<H: Host>(alloc: Global, host: &mut H, files: Files<'_>) -> u8
    requires { H.open_file host.old ≡ Closed }
    ensures closed { H.open_file host.new ≡ Closed }
    ensures same_kind { H.kind host.new ≡ H.kind host.old }
    ensures files { IfSome (H.contents host.old) (λ old. HasFiles (Some (Build (names_of files.entry))) old (H.contents host.new) result) }
    ensures faults { HasFaults (H.kind host.old) (H.faults host.old) (H.faults host.new) (Some (Build (names_of files.entry))) (H.contents host.old) result }
    ensures status { HasStatus (Some (Build (names_of files.entry))) result }
    ensures printed { HasPrinted (H.kind host.old) (Some (Build (names_of files.entry))) (H.contents host.old) (H.printed host.old) (H.printed host.new) result }
    ensures told { IfSome (H.contents host.old) (λ old. HasTold (Some (Build (names_of files.entry))) old (H.contents host.new) (H.printed host.old) (H.printed host.new) result) }
    ensures complete { IfSome (H.contents host.old) (λ old. IsComplete (H.kind host.old) (H.faults host.old) (H.faults host.new) (Some (Build (names_of files.entry))) old result) }
    ensures made { IfSome (H.contents host.old) (λ old. HasMade (Some (Build (names_of files.entry))) old (H.contents host.new) (H.printed host.old) (H.printed host.new) result) }
{
    let outcome = run(alloc, host, files);
    report(alloc, host, files, outcome)
}

/// Prints what is to be said of an outcome, and answers its status.
fn report<H: Host>(alloc: Global, host: &mut H, files: Files<'_>, outcome: Outcome) -> u8
    ensures same_file { H.open_file host.new ≡ H.open_file host.old }
    ensures same_contents { H.contents host.new ≡ H.contents host.old }
    ensures same_kind { H.kind host.new ≡ H.kind host.old }
    ensures said { Says (H.kind host.old) (H.faults host.old) (H.faults host.new) (H.printed host.old) (H.printed host.new)
        (line_of (names_of files.entry) outcome) (status_of outcome) result }
{
    match outcome {
        Outcome::Built => 0,
        Outcome::NoMemory => 9,
        Outcome::Refused(refusal) => say_refusal(alloc, host, files.input, &refusal),
        Outcome::Register { line } => {
            say_located(
                alloc,
                host,
                1,
                files.input,
                line,
                b"error 13: ",
                b"register",
            )
        }
        Outcome::CannotRead => say(host, 3, "cannot read ", files.input, "\n"),
        Outcome::CannotWriteHex => say(host, 3, "cannot write ", files.output, "\n"),
        Outcome::CannotWriteMap => say(host, 3, "cannot write ", files.map, "\n"),
    }
}

/// The files of a program that is compiled.
fn texts_of(alloc: Global, program: &Program) -> Result<Texts, AllocError>
    requires { AreInRange (content_of program.now.map) }
    ensures hex { IfOk result (λ texts. texts.hex.items ≡ hex_text program.now.image) }
    ensures hex_file { IfOk result (λ texts. IsHexFile texts.hex.items program.now.image) }
    ensures map { IfOk result (λ texts. texts.map.items ≡ map_text (content_of program.now.map)) }
    ensures map_file { IfOk result (λ texts. IsMapFile texts.map.items (content_of program.now.map)) }
{
    let hex = write_hex(alloc, &program.image)?;
    let map = write_map(alloc, &program.map)?;
    Ok(Texts { hex, map })
}

/// The program of a text, or why there is none.
fn compiled_first(alloc: Global, text: &[u8]) -> Result<Program, Outcome>
    ensures whole { IfOk result (IsCompiledBy plain text.now) }
    ensures made { IfOk result (PassesMade Pic16F877a) }
    ensures why { IfErr result (λ why. (why ≡ outcomes.NoMemory) ⊎ TellsWhyBy plain text.now why) }
{
    match compile(alloc, text) {
        Ok(program) => Ok(program),
        Err(CompileError::NoMemory) => Err(Outcome::NoMemory),
        Err(CompileError::Refused(refusal)) => Err(Outcome::Refused(refusal)),
    }
}

/// The same for the second chip.
fn compiled_second(alloc: Global, text: &[u8]) -> Result<Program, Outcome>
    ensures whole { IfOk result (IsCompiledBy second text.now) }
    ensures made { IfOk result (PassesMade Pic16F84a) }
    ensures why { IfErr result (λ why. (why ≡ outcomes.NoMemory) ⊎ TellsWhyBy second text.now why) }
{
    match compile84(alloc, text) {
        Ok(program) => Ok(program),
        Err(Compile84Error::NoMemory) => Err(Outcome::NoMemory),
        Err(Compile84Error::Refused(refusal)) => Err(Outcome::Refused(refusal)),
        Err(Compile84Error::Register { line }) => Err(Outcome::Register { line }),
    }
}

/// The program of a text for a chip, or why there is none.
fn compiled(alloc: Global, text: &[u8], chip: Profile) -> Result<Program, Outcome>
    ensures whole { IfOk result (IsCompiledBy (build_for chip) text.now) }
    ensures made { IfOk result (PassesMade chip) }
    ensures why { IfErr result (λ why. (why ≡ outcomes.NoMemory) ⊎ TellsWhyBy (build_for chip) text.now why) }
{
    match chip {
        Profile::Pic16F877a => compiled_first(alloc, text),
        Profile::Pic16F84a => compiled_second(alloc, text),
    }
}

/// The files of a text, or why there are none.
fn made(alloc: Global, text: &[u8], chip: Profile) -> Result<Texts, Outcome>
    ensures made { IfOk result (λ texts. files_for chip text.now texts.hex.items texts.map.items) }
    ensures why { IfErr result (λ why. (why ≡ outcomes.NoMemory) ⊎ TellsWhyBy (build_for chip) text.now why) }
{
    let program = compiled(alloc, text, chip)?;
    match texts_of(alloc, &program) {
        Ok(texts) => Ok(texts),
        Err(_) => Err(Outcome::NoMemory),
    }
}

/// Reads the text, builds it, and writes the two files.
fn run<H: Host>(alloc: Global, host: &mut H, files: Files<'_>) -> Outcome
    requires { H.open_file host.old ≡ Closed }
    ensures closed { H.open_file host.new ≡ Closed }
    ensures same_kind { H.kind host.new ≡ H.kind host.old }
    ensures same_printed { H.printed host.new ≡ H.printed host.old }
    ensures files { IfSome (H.contents host.old) (λ old. WorkedOn (files_for files.entry.chip) result (names_of files.entry) old (H.contents host.new)) }
    ensures cause { HasOutcomeCause (H.kind host.old) (H.faults host.old) (H.faults host.new) (is_fault result) }
    ensures sound { FailsWithoutInput (H.kind host.old) (H.contents host.old) files.entry.input.now result }
{
    let text = match read_whole(alloc, host, files.input, TEXT_LIMIT) {
        Ok(text) => text,
        Err(HostError::Failed) => return Outcome::CannotRead,
        Err(HostError::NoMemory) => return Outcome::NoMemory,
    };
    let built = match made(alloc, &text, files.chip) {
        Ok(built) => built,
        Err(outcome) => return outcome,
    };
    match write_whole(host, files.output, &built.hex) {
        Ok(()) => {}
        Err(HostError::Failed) => return Outcome::CannotWriteHex,
        Err(HostError::NoMemory) => return Outcome::NoMemory,
    }
    match write_whole(host, files.map, &built.map) {
        Ok(()) => Outcome::Built,
        Err(HostError::Failed) => Outcome::CannotWriteMap,
        Err(HostError::NoMemory) => Outcome::NoMemory,
    }
}
