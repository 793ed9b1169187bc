//! The files that a command reads: each is read whole, closed, and then checked against its grammar.

ghost use Rattle.std.specs.Prelude.{◌≡◌, ◌≤◌, ◌<◌, ◌^◌, false, length, Some, IfOk, IfErr, IfSome};
ghost use Rattle.host_io.specs.Host.{Closed};
ghost use Rattle.pic_map.specs.MapView.{content_of};
ghost use Rattle.hex_image.specs.Faults.{fault_line as fault_line_of, fault_text as fault_text_of};
ghost use Rattle.picc_cli.specs.Inputs.{IsHexInput, IsMapInput, IsScriptInput, IsUnread, HasNoHex, HasNoMap, HasNoScript, FailsWithoutFile, fails_in, is_fault, line_of, status_of};
ghost use Rattle.picc_cli.specs.Inputs.{hex_end as hex_end_of, is_no_memory};
ghost use Rattle.picc_cli.specs.Lines.{located};
ghost use Rattle.host_lines.specs.Said.{Says, HasOutcomeCause};
ghost use Rattle.picc_cli.specs.ScriptInput.{IsFile};
ghost use Rattle.schedule.specs.ScriptFile as script_file;

use crate::say::say_located;
use hex_image::{HexError, fault_line, fault_text, read_hex};
use host_io::{Host, HostError, read_whole};
use host_lines::say;
use pic_chip::Image;
use pic_map::{Map, MapError, read_map};
use pic_world::Script;
use schedule::{ScriptError, read_script};
use std::alloc::Global;

/// The longest HEX file, in bytes.
const HEX_LIMIT: usize = 1_048_576;

/// The longest map, in bytes.
const MAP_LIMIT: usize = 262_144;

/// The longest script, in bytes.
const SCRIPT_LIMIT: usize = 4_194_304;

/// Why a command ends at a file that it reads.
#[derive(Drop)]
pub enum FileEnd {
    /// The file can't be read.
    CannotRead,
    /// It has more bytes than such a file may have.
    TooLong,
    /// It isn't a HEX file, for this reason.
    BadHex(HexError),
    /// It has a line, the first one, that no such file has there.
    BadLine { line: u32 },
    NoMemory,
}

/// The bytes of a file that has at most so many.
fn bytes_in<H: Host>(
    alloc: Global,
    host: &mut H,
    name: &str,
    limit: usize,
) -> Result<Vec<u8>, FileEnd>
    requires closed { H.open_file host.old ≡ Closed }
    requires limit { limit < 2 ^ 32 }
    ensures closed { H.open_file host.new ≡ Closed }
    ensures same_kind { H.kind host.new ≡ H.kind host.old }
    ensures same_contents { H.contents host.new ≡ H.contents host.old }
    ensures same_printed { H.printed host.new ≡ H.printed host.old }
    ensures found { IfOk result (λ bytes. IfSome (H.contents host.old) (λ old. old name.now ≡ Some bytes.items)) }
    ensures short { IfOk result (λ bytes. length bytes.items ≤ limit) }
    ensures none { IfErr result (λ end. IfSome (H.contents host.old) (λ old. IsUnread limit old name.now end)) }
    ensures cause { HasOutcomeCause (H.kind host.old) (H.faults host.old) (H.faults host.new) (fails_in result) }
    ensures sound { FailsWithoutFile (H.kind host.old) (H.contents host.old) name.now result }
{
    let bytes = match read_whole(alloc, host, name, limit) {
        Ok(bytes) => bytes,
        Err(HostError::Failed) => return Err(FileEnd::CannotRead),
        Err(HostError::NoMemory) => return Err(FileEnd::NoMemory),
    };
    if bytes.len() > limit {
        return Err(FileEnd::TooLong);
    }
    Ok(bytes)
}

/// The image of a HEX file, or how the command ends without one.
#[tactic(auto, using(crate::proofs::InputFiles::hex_none, crate::proofs::InputFiles::later_cause, crate::proofs::InputFiles::later_sound))]
pub fn hex_in<H: Host>(alloc: Global, host: &mut H, name: &str) -> Result<Image, FileEnd>
    requires { H.open_file host.old ≡ Closed }
    ensures closed { H.open_file host.new ≡ Closed }
    ensures same_kind { H.kind host.new ≡ H.kind host.old }
    ensures same_contents { H.contents host.new ≡ H.contents host.old }
    ensures same_printed { H.printed host.new ≡ H.printed host.old }
    ensures found { IfOk result (λ image. IfSome (H.contents host.old) (λ old. IsFile old name.now (IsHexInput image))) }
    ensures none { IfErr result (λ end. IfSome (H.contents host.old) (λ old. HasNoHex old name.now end)) }
    ensures cause { HasOutcomeCause (H.kind host.old) (H.faults host.old) (H.faults host.new) (fails_in result) }
    ensures sound { FailsWithoutFile (H.kind host.old) (H.contents host.old) name.now result }
{
    let bytes = match bytes_in(alloc, host, name, HEX_LIMIT) {
        Ok(bytes) => bytes,
        Err(end) => return Err(end),
    };
    match read_hex(alloc, &bytes) {
        Ok(image) => Ok(image),
        Err(error) => Err(hex_end(error)),
    }
}

/// How a command ends where no image was read.
fn hex_end(error: HexError) -> FileEnd
    ensures value { result ≡ hex_end_of error }
    ensures fault { is_fault result ≡ false }
{
    if wants_memory(&error) {
        FileEnd::NoMemory
    } else {
        FileEnd::BadHex(error)
    }
}

fn wants_memory(error: &HexError) -> bool
    ensures { result ≡ is_no_memory error.now }
{
    match error {
        HexError::NoMemory => true,
        HexError::BadRecord { .. } | HexError::Checksum { .. } | HexError::UnknownType { .. } => {
            false
        }
        HexError::Outside { .. } | HexError::Twice { .. } | HexError::NoEnd => false,
    }
}

/// The map of a map file, or how the command ends without one.
pub fn map_in<H: Host>(alloc: Global, host: &mut H, name: &str) -> Result<Map, FileEnd>
    requires { H.open_file host.old ≡ Closed }
    ensures closed { H.open_file host.new ≡ Closed }
    ensures same_kind { H.kind host.new ≡ H.kind host.old }
    ensures same_contents { H.contents host.new ≡ H.contents host.old }
    ensures same_printed { H.printed host.new ≡ H.printed host.old }
    ensures found { IfOk result (λ map. IfSome (H.contents host.old) (λ old. IsFile old name.now (IsMapInput (content_of map)))) }
    ensures few { IfOk result (λ map. length map.objects.items ≤ 65536) }
    ensures none { IfErr result (λ end. IfSome (H.contents host.old) (λ old. HasNoMap old name.now end)) }
    ensures cause { HasOutcomeCause (H.kind host.old) (H.faults host.old) (H.faults host.new) (fails_in result) }
    ensures sound { FailsWithoutFile (H.kind host.old) (H.contents host.old) name.now result }
{
    let bytes = match bytes_in(alloc, host, name, MAP_LIMIT) {
        Ok(bytes) => bytes,
        Err(end) => return Err(end),
    };
    match read_map(alloc, &bytes) {
        Ok(map) => Ok(map),
        Err(MapError::BadLine { line }) => Err(FileEnd::BadLine { line }),
        Err(MapError::NoMemory) => Err(FileEnd::NoMemory),
    }
}

/// The script of a script file, or how the command ends without one.
pub fn script_in<H: Host>(alloc: Global, host: &mut H, name: &str) -> Result<Script, FileEnd>
    requires { H.open_file host.old ≡ Closed }
    ensures closed { H.open_file host.new ≡ Closed }
    ensures same_kind { H.kind host.new ≡ H.kind host.old }
    ensures same_contents { H.contents host.new ≡ H.contents host.old }
    ensures same_printed { H.printed host.new ≡ H.printed host.old }
    ensures found { IfOk result (λ script. IfSome (H.contents host.old) (λ old. IsFile old name.now (IsScriptInput (script_file.content_of script)))) }
    ensures none { IfErr result (λ end. IfSome (H.contents host.old) (λ old. HasNoScript old name.now end)) }
    ensures cause { HasOutcomeCause (H.kind host.old) (H.faults host.old) (H.faults host.new) (fails_in result) }
    ensures sound { FailsWithoutFile (H.kind host.old) (H.contents host.old) name.now result }
{
    let bytes = match bytes_in(alloc, host, name, SCRIPT_LIMIT) {
        Ok(bytes) => bytes,
        Err(end) => return Err(end),
    };
    match read_script(alloc, &bytes) {
        Ok(script) => Ok(script),
        Err(ScriptError::BadLine { line }) => Err(FileEnd::BadLine { line }),
        Err(ScriptError::NoMemory) => Err(FileEnd::NoMemory),
    }
}

/// Prints what is to be said of how a command ended at a file, and answers its status.
pub fn say_file_end<H: Host>(alloc: Global, host: &mut H, name: &str, end: &FileEnd) -> u8
    ensures same_file { H.open_file host.new ≡ H.open_file host.old }
    ensures same_contents { H.contents host.new ≡ H.contents host.old }
    ensures same_kind { H.kind host.new ≡ H.kind host.old }
    ensures said { Says (H.kind host.old) (H.faults host.old) (H.faults host.new) (H.printed host.old) (H.printed host.new)
        (line_of name.now end.now) (status_of end.now) result }
{
    match end {
        FileEnd::CannotRead => say(host, 3, "cannot read ", name, "\n"),
        FileEnd::TooLong => say_located(alloc, host, 5, name, 0, b"too long", b""),
        FileEnd::BadHex(error) => say_bad_hex(alloc, host, name, error),
        FileEnd::BadLine { line } => say_located(alloc, host, 5, name, *line, b"bad line", b""),
        FileEnd::NoMemory => 9,
    }
}

fn say_bad_hex<H: Host>(alloc: Global, host: &mut H, name: &str, error: &HexError) -> u8
    ensures same_file { H.open_file host.new ≡ H.open_file host.old }
    ensures same_contents { H.contents host.new ≡ H.contents host.old }
    ensures same_kind { H.kind host.new ≡ H.kind host.old }
    ensures said { Says (H.kind host.old) (H.faults host.old) (H.faults host.new) (H.printed host.old) (H.printed host.new)
        (located name.now (fault_line_of error.now) (fault_text_of error.now)) 5 result }
{
    match fault_text(alloc, error) {
        Ok(text) => say_located(alloc, host, 5, name, fault_line(error), b"", &text),
        Err(_) => 9,
    }
}
