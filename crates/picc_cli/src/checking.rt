//! The form `check`: from a HEX file's name to an exit status.

ghost use Rattle.std.specs.Prelude.{◌≡◌, true, IfOk, IfSome, Some};
ghost use Rattle.depth_check.specs.Certificate.{seen};
ghost use Rattle.depth_check.specs.Valid.{is_valid};
ghost use Rattle.host_io.specs.Host.{Closed};
ghost use Rattle.picc_cli.specs.Checked.{FailsWithoutFile, IsBounded, ImageKnows, IsImageEnd, Knows, depth_line as line_of_depth, is_fault, last_line, status_of};
ghost use Rattle.picc_cli.specs.Command.{Check};
ghost use Rattle.picc_cli.specs.Finished.{HasFaults, HasPrinted, HasStatus, HasTold, IsComplete};
ghost use Rattle.host_lines.specs.Said.{Says, HasOutcomeCause};

use crate::inputs::{FileEnd, hex_in, say_file_end};
use crate::refusal::push_counted;
use depth_check::{Heights, certify, total};
use host_io::Host;
use host_lines::{say, say_line};
use pic_chip::Image;
use std::alloc::{AllocError, Global};

/// How a check of the depth of the return stack ended.
#[derive(Drop)]
pub enum Ended {
    /// The return stack never holds more words than so many.
    Within { depth: u64 },
    /// No certificate is valid for the image.
    Uncertified,
    /// There is no HEX file, for this reason.
    NoHex(FileEnd),
    NoMemory,
}

/// Prints how deep the return stack becomes at most, by a certificate that is valid for the image of the HEX file, or that no
/// certificate is. The answer is the exit status.
pub fn check<H: Host>(alloc: Global, host: &mut H, hex: &str) -> u8
    requires { H.open_file host.old ≡ Closed }
    ensures closed { H.open_file host.new ≡ Closed }
    ensures same_kind { H.kind host.new ≡ H.kind host.old }
    ensures same_contents { H.contents host.new ≡ H.contents host.old }
    ensures faults { HasFaults (H.kind host.old) (H.faults host.old) (H.faults host.new) (Some (Check hex.now)) (H.contents host.old) result }
    ensures status { HasStatus (Some (Check hex.now)) result }
    ensures printed { HasPrinted (H.kind host.old) (Some (Check hex.now)) (H.contents host.old) (H.printed host.old) (H.printed host.new) result }
    ensures told { IfSome (H.contents host.old) (λ old. HasTold (Some (Check hex.now)) old (H.contents host.new) (H.printed host.old) (H.printed host.new) result) }
    ensures complete { IfSome (H.contents host.old) (λ old. IsComplete (H.kind host.old) (H.faults host.old) (H.faults host.new) (Some (Check hex.now)) old result) }
{
    let ended = checked(alloc, host, hex);
    report(alloc, host, hex, &ended)
}

/// Prints what is to be said of how a check ended, and answers its status.
fn report<H: Host>(alloc: Global, host: &mut H, hex: &str, ended: &Ended) -> u8
    ensures same_file { H.open_file host.new ≡ H.open_file host.old }
    ensures same_contents { H.contents host.new ≡ H.contents host.old }
    ensures same_kind { H.kind host.new ≡ H.kind host.old }
    ensures said { Says (H.kind host.old) (H.faults host.old) (H.faults host.new) (H.printed host.old) (H.printed host.new)
        (last_line hex.now ended.now) (status_of ended.now) result }
{
    match ended {
        Ended::Within { depth } => say_depth(alloc, host, *depth),
        Ended::Uncertified => say_line(host, 7, b"no certificate\n"),
        Ended::NoHex(end) => say_file_end(alloc, host, hex, end),
        Ended::NoMemory => 9,
    }
}

fn say_depth<H: Host>(alloc: Global, host: &mut H, depth: u64) -> u8
    ensures same_file { H.open_file host.new ≡ H.open_file host.old }
    ensures same_contents { H.contents host.new ≡ H.contents host.old }
    ensures same_kind { H.kind host.new ≡ H.kind host.old }
    ensures said { Says (H.kind host.old) (H.faults host.old) (H.faults host.new) (H.printed host.old) (H.printed host.new) (line_of_depth depth) 0 result }
{
    match depth_line(alloc, depth) {
        Ok(line) => say_line(host, 0, &line),
        Err(_) => 9,
    }
}

/// `depth D`, and a line feed.
fn depth_line(alloc: Global, depth: u64) -> Result<Vec<u8>, AllocError>
    ensures { IfOk result (λ line. line.items ≡ line_of_depth depth) }
{
    let mut line = Vec::new(alloc);
    push_counted(&mut line, b"depth ", depth)?;
    line.push(b'\n')?;
    Ok(line)
}

/// Reads the HEX file, and looks for a certificate of its image.
fn checked<H: Host>(alloc: Global, host: &mut H, hex: &str) -> Ended
    requires { H.open_file host.old ≡ Closed }
    ensures closed { H.open_file host.new ≡ Closed }
    ensures same_kind { H.kind host.new ≡ H.kind host.old }
    ensures same_contents { H.contents host.new ≡ H.contents host.old }
    ensures same_printed { H.printed host.new ≡ H.printed host.old }
    ensures cause { HasOutcomeCause (H.kind host.old) (H.faults host.old) (H.faults host.new) (is_fault result) }
    ensures sound { FailsWithoutFile (H.kind host.old) (H.contents host.old) hex.now result }
    ensures knows { IfSome (H.contents host.old) (λ old. Knows hex.now old result) }
{
    match hex_in(alloc, host, hex) {
        Ok(image) => certified(alloc, &image),
        Err(end) => Ended::NoHex(end),
    }
}

/// Looks for a certificate of an image.
fn certified(alloc: Global, image: &Image) -> Ended
    ensures end { IsImageEnd result }
    ensures knows { ImageKnows image.now result }
{
    let found = match certify(alloc, image) {
        Ok(found) => found,
        Err(_) => return Ended::NoMemory,
    };
    match found {
        Some(certificate) => Ended::Within {
            depth: depth_by(image, &certificate),
        },
        None => Ended::Uncertified,
    }
}

/// How deep the return stack becomes by a certificate that is valid for the image.
fn depth_by(image: &Image, certificate: &Heights) -> u64
    requires { is_valid image.now (seen certificate.now) ≡ true }
    ensures { IsBounded image.now result }
{
    total(certificate)
}
