//! Runs of the second chip over a board.

ghost use Rattle.std.specs.Prelude.{◌≡◌, ◌≤◌, ◌<◌, ◌+◌, ◌*◌, ◌^◌};
ghost use Rattle.pic_map.specs.Tracing.{tracing_of};
ghost use Rattle.pic_sim.specs.Going.{WentBy, point};
ghost use Rattle.chip_84a.specs.Simulated.{second};

use crate::chip::Chip84;
use pic_chip::{Access, Image, StepEnd};
use pic_map::Tracer;
use pic_sim::{Board, SimEnd, Stepper, simulate_any};
use pic_world::{Event, Trace};

/// Runs `n` instructions on the second chip, over a board. For each the board is asked once what arrives, of which bits
/// 0 to 2 count, then once for a byte where the instruction reads a device register other than INTCON; it is told once of
/// a write to one. The tracer was asked about the moment at which the run begins, and is asked once about each later one;
/// the events are appended to the trace, which has room for 2n + 1 of them. The chip's index and n are at most 2^40 in all.
///
/// After `NoMemory` the chip, the tracer and the trace are those after the last whole instruction.
pub fn simulate84(
    chip: &mut Chip84,
    image: &Image,
    tracer: &mut Tracer,
    board: &mut Box<dyn Board>,
    n: u64,
    trace: &mut Trace,
) -> SimEnd
    requires index { chip.old.index + n ≤ 2 ^ 40 }
    requires room { 2 * n + 1 ≤ trace.old.room }
    ensures went { WentBy second image.now n (point chip.old (tracing_of tracer.old) trace.old.events (lists board.old) (follows board.old)) (point chip.new (tracing_of tracer.new) trace.new.events (lists board.new) (follows board.new)) result }
    ensures cause { result ≡ SimEnd.NoMemory → room board.old < 3 * n }
    ensures room { room board.old ≤ room board.new + 3 * n }
{
    simulate_any(chip, image, tracer, board, n, trace)
}

impl Stepper for Chip84 {
    ghost kind = { second };

    ghost machine = { λ chip. chip };

    fn pc(&self) -> u16 {
        Chip84::pc(self)
    }

    fn index(&self) -> u64 {
        Chip84::index(self)
    }

    fn begin(&mut self, flags: u16) {
        Chip84::begin(self, flags)
    }

    fn wants(&self, image: &Image) -> Option<u8> {
        Chip84::wants(self, image)
    }

    fn exec(&mut self, image: &Image, input: u8) -> StepEnd {
        Chip84::exec(self, image, input)
    }

    // TMR0, the ports, OPTION_REG and the registers of their directions: INTCON keeps what is written to it.
    fn outside(address: u16) -> Option<u8> {
        let register = u8::try_from(address).ok()?;
        match register {
            0x01 | 0x05 | 0x06 | 0x81 | 0x85 | 0x86 => Some(register),
            _ => None,
        }
    }

    // At 0Ch to 1Fh the first chip has device registers, which a tracer knows by their addresses. Here these are general bytes.
    fn event(tracer: &Tracer, write: bool, access: Access) -> Option<Event> {
        if access.address >= 0x0c && access.address < 0x20 {
            return None;
        }
        tracer.event(write, access)
    }
}
