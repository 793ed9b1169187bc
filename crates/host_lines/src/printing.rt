//! Lines that a command prints.

ghost use Rattle.std.specs.Prelude.{◌≡◌, ◌++◌, option_map, OnOk, OnErr};
ghost use Rattle.host_io.specs.Host.{HasCause, NoFailure, PrintsPrefix};
ghost use Rattle.host_lines.specs.Said.{Says};

use host_io::{Host, HostError};

/// Prints a line of three parts, and answers the status: 3 where the printing fails, 9 without memory for it.
pub fn say<H: Host>(host: &mut H, status: u8, first: &str, second: &str, third: &str) -> u8
    ensures same_file { H.open_file host.new ≡ H.open_file host.old }
    ensures same_contents { H.contents host.new ≡ H.contents host.old }
    ensures same_kind { H.kind host.new ≡ H.kind host.old }
    ensures said { Says (H.kind host.old) (H.faults host.old) (H.faults host.new) (H.printed host.old) (H.printed host.new)
        (first.now ++ (second.now ++ third.now)) status result }
{
    match print_parts(host, first, second, third) {
        Ok(()) => status,
        Err(HostError::Failed) => 3,
        Err(HostError::NoMemory) => 9,
    }
}

fn print_parts<H: Host>(
    host: &mut H,
    first: &str,
    second: &str,
    third: &str,
) -> Result<(), HostError>
    ensures all { OnOk result (H.printed host.new ≡ option_map (λ before. before ++ (first.now ++ (second.now ++ third.now))) (H.printed host.old)) }
    ensures prefix { OnErr result (PrintsPrefix (H.printed host.old) (H.printed host.new) (first.now ++ (second.now ++ third.now))) }
    ensures same_file { H.open_file host.new ≡ H.open_file host.old }
    ensures same_contents { H.contents host.new ≡ H.contents host.old }
    ensures same_kind { H.kind host.new ≡ H.kind host.old }
    ensures cause { HasCause (H.kind host.old) (H.faults host.old) (H.faults host.new) result }
    ensures sound { NoFailure (H.kind host.old) result }
{
    host.print(first.as_bytes())?;
    host.print(second.as_bytes())?;
    host.print(third.as_bytes())
}

/// Prints a line, and answers the status: 3 where the printing fails, 9 without memory for it.
pub fn say_line<H: Host>(host: &mut H, status: u8, line: &[u8]) -> u8
    ensures same_file { H.open_file host.new ≡ H.open_file host.old }
    ensures same_contents { H.contents host.new ≡ H.contents host.old }
    ensures same_kind { H.kind host.new ≡ H.kind host.old }
    ensures said { Says (H.kind host.old) (H.faults host.old) (H.faults host.new) (H.printed host.old) (H.printed host.new)
        line.now status result }
{
    match host.print(line) {
        Ok(()) => status,
        Err(HostError::Failed) => 3,
        Err(HostError::NoMemory) => 9,
    }
}
