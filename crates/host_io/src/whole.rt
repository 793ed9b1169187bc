//! Whole files over any host. Each contract's facts on contents, printed bytes and faults are
//! equations from before to after, so that a caller of several of these joins them in order.

ghost use Rattle.std.specs.Prelude.{◌≡◌, ◌<◌, ◌^◌, ◌+◌, IsTrue, IfOk, IfSome, OnOk, OnErr, option_map, take};
ghost use Rattle.host_io.specs.Host.{Closed, is_reading, is_writing, left_of, put, HasCause, NoFailure, FailsAtMissing, IsRead, PutsPrefix, Grows, GrowsByPrefix, joined};

use crate::{Host, HostError};
use std::alloc::Global;

const CHUNK: usize = 4096;

/// Reads a file to its end, or until `limit + 1` bytes were read, and closes it.
pub fn read_whole<H: Host>(
    alloc: Global,
    host: &mut H,
    name: &str,
    limit: usize,
) -> Result<Vec<u8>, HostError>
    requires closed { H.open_file host.old ≡ Closed }
    requires limit { limit < 2 ^ 32 }
    ensures closed { H.open_file host.new ≡ Closed }
    ensures bytes { IfOk result (λ bytes. IfSome (H.contents host.old) (IsRead name.now (limit + 1) bytes.items)) }
    ensures same_contents { H.contents host.new ≡ H.contents host.old }
    ensures same_printed { H.printed host.new ≡ H.printed host.old }
    ensures same_kind { H.kind host.new ≡ H.kind host.old }
    ensures cause { HasCause (H.kind host.old) (H.faults host.old) (H.faults host.new) result }
    ensures sound { FailsAtMissing (H.kind host.old) (H.contents host.old) name.now result }
{
    host.open_read(name)?;
    let bytes = read_left(alloc, host, limit + 1);
    let closing = host.close();
    joined(bytes, closing)
}

// Reads the open file on to its end, or until `most` bytes were read.
fn read_left<H: Host>(alloc: Global, host: &mut H, most: usize) -> Result<Vec<u8>, HostError>
    requires { IsTrue (is_reading (H.open_file host.old)) }
    ensures bytes { IfOk result (λ bytes. IfSome (left_of (H.contents host.old) (H.open_file host.old)) (λ left. bytes.items ≡ take most left)) }
    ensures reading { IsTrue (is_reading (H.open_file host.new)) }
    ensures same_contents { H.contents host.new ≡ H.contents host.old }
    ensures same_printed { H.printed host.new ≡ H.printed host.old }
    ensures same_kind { H.kind host.new ≡ H.kind host.old }
    ensures cause { HasCause (H.kind host.old) (H.faults host.old) (H.faults host.new) result }
    ensures sound { NoFailure (H.kind host.old) result }
{
    let mut bytes = Vec::new(alloc);
    let mut buffer = [0u8; CHUNK];
    while bytes.len() < most {
        let room = (most - bytes.len()).min(CHUNK);
        let count = host.read(&mut buffer[..room])?;
        if count == 0 {
            break;
        }
        bytes.extend_from_slice(&buffer[..count])?;
    }
    Ok(bytes)
}

/// Creates a file, writes all of the bytes to it, and closes it.
pub fn write_whole<H: Host>(host: &mut H, name: &str, bytes: &[u8]) -> Result<(), HostError>
    requires { H.open_file host.old ≡ Closed }
    ensures closed { H.open_file host.new ≡ Closed }
    ensures written { OnOk result (H.contents host.new ≡ option_map (put name.now bytes.now) (H.contents host.old)) }
    ensures partly { OnErr result (PutsPrefix name.now bytes.now (H.contents host.old) (H.contents host.new)) }
    ensures same_printed { H.printed host.new ≡ H.printed host.old }
    ensures same_kind { H.kind host.new ≡ H.kind host.old }
    ensures cause { HasCause (H.kind host.old) (H.faults host.old) (H.faults host.new) result }
    ensures sound { NoFailure (H.kind host.old) result }
{
    host.create(name)?;
    let writing = write_all(host, bytes);
    let closing = host.close();
    joined(writing, closing)
}

// Appends all of the bytes to the open file.
fn write_all<H: Host>(host: &mut H, bytes: &[u8]) -> Result<(), HostError>
    requires { IsTrue (is_writing (H.open_file host.old)) }
    ensures written { OnOk result (Grows (H.open_file host.old) (H.contents host.old) (H.contents host.new) bytes.now) }
    ensures partly { OnErr result (GrowsByPrefix (H.open_file host.old) (H.contents host.old) (H.contents host.new) bytes.now) }
    ensures same_file { H.open_file host.new ≡ H.open_file host.old }
    ensures same_printed { H.printed host.new ≡ H.printed host.old }
    ensures same_kind { H.kind host.new ≡ H.kind host.old }
    ensures cause { HasCause (H.kind host.old) (H.faults host.old) (H.faults host.new) result }
    ensures sound { NoFailure (H.kind host.old) result }
{
    let mut done = 0;
    while done < bytes.len() {
        done += host.write(&bytes[done..])?;
    }
    Ok(())
}

// What two calls in a row answer: the first one's value, where both went well. A failure comes
// before a want of memory.
fn joined<T: Drop>(
    first: Result<T, HostError>,
    second: Result<(), HostError>,
) -> Result<T, HostError>
    ensures { result ≡ joined first second }
{
    match (first, second) {
        (Ok(value), Ok(())) => Ok(value),
        (Err(HostError::Failed), _) | (_, Err(HostError::Failed)) => Err(HostError::Failed),
        _ => Err(HostError::NoMemory),
    }
}
