//! The real files and the standard output.

ghost use Rattle.std.specs.Prelude.{◌≡◌, ◌+◌, ◌-◌, ◌^◌, None, min};
ghost use Rattle.host_io.specs.declared.host.HostError.TheVariants.{Failed};
ghost use Rattle.host_io.specs.Host.{Closed, IsCounted};
ghost use Rattle.host_io.specs.Real.{open_of, real_kind};
ghost use Rattle.std.proofs.Common.{rules};

use crate::{Host, HostError};
use std::fs::File;
use std::io::{Read, Write};
use std::rt::Files;

#[derive(Drop)]
enum Opened<F> {
    Nothing,
    Reading(F),
    Writing(F),
}

/// The files and the standard output of a runtime. What they hold is outside of all proofs, so
/// it tells no content, and isn't sound.
#[derive(Drop)]
pub struct RealHost<R: Files> {
    rt: R,
    opened: Opened<R::File>,
    faults: u64,
}

impl<R: Files + Print> RealHost<R> {
    /// The host of this runtime, without a fault, and with no file open.
    pub fn new(rt: R) -> RealHost<R>
        ensures closed { open_of result.opened ≡ Closed }
        ensures faults { result.faults ≡ 0 }
    {
        RealHost {
            rt,
            opened: Opened::Nothing,
            faults: 0,
        }
    }
}

// Counts a fault.
fn fault(faults: &mut u64) -> HostError
    ensures counted { faults.new ≡ min (faults.old + 1) u64.MAX }
    ensures failed { result ≡ Failed }
    ensures cause { IsCounted real_kind faults.old faults.new }
{
    *faults = faults.saturating_add(1);
    HostError::Failed
}

impl<R: Files + Print> Host for RealHost<R> {
    ghost kind = { λ host. real_kind };

    ghost faults = { λ host. host.faults };

    ghost open_file = { λ host. open_of host.opened };

    ghost contents = { λ host. None };

    ghost printed = { λ host. None };

    ghost tells = { λ host sound. Prim.search rules };

    fn open_read(&mut self, name: &str) -> Result<(), HostError> {
        match File::open(&self.rt, name) {
            Ok(file) => {
                self.opened = Opened::Reading(file);
                Ok(())
            }
            Err(_) => Err(fault(&mut self.faults)),
        }
    }

    fn read(&mut self, buf: &mut [u8]) -> Result<usize, HostError> {
        let Opened::Reading(file) = &mut self.opened else {
            unreachable!()
        };
        match file.read(buf) {
            Ok(count) => Ok(count),
            Err(_) => Err(fault(&mut self.faults)),
        }
    }

    fn create(&mut self, name: &str) -> Result<(), HostError> {
        match File::create(&self.rt, name) {
            Ok(file) => {
                self.opened = Opened::Writing(file);
                Ok(())
            }
            Err(_) => Err(fault(&mut self.faults)),
        }
    }

    fn write(&mut self, bytes: &[u8]) -> Result<usize, HostError> {
        let Opened::Writing(file) = &mut self.opened else {
            unreachable!()
        };
        match file.write(bytes) {
            Ok(count) if count > 0 => Ok(count),
            _ => Err(fault(&mut self.faults)),
        }
    }

    fn close(&mut self) -> Result<(), HostError> {
        self.opened = Opened::Nothing;
        Ok(())
    }

    fn print(&mut self, bytes: &[u8]) -> Result<(), HostError> {
        match self.rt.write_all(bytes) {
            Ok(()) => Ok(()),
            Err(_) => Err(fault(&mut self.faults)),
        }
    }
}
