//! Runs of a chip over a board.

ghost use Rattle.std.specs.Prelude.{◌≡◌, ◌<◌, ◌≤◌, ◌+◌, ◌*◌, ◌^◌, ◌++◌, ◌∷◌, [], true, IsTrue, IfOk, IfSome, OnOk, OnErr, MatchOption, Some, length, option_to_list};
ghost use Rattle.pic_world.specs.Arrivals.{arriving};
ghost use Rattle.pic_chip.specs.Seen.{accesses_in, made_by, seen};
ghost use Rattle.pic_map.specs.Tracing.{tracing_of, looked, told, list_of};
ghost use Rattle.pic_sim.specs.Board.{is_outside};
ghost use Rattle.pic_sim.specs.Going.{HasBytes, MayGrow, Went, WentBy, point, writes_by};
ghost use Rattle.pic_sim.specs.Kind.{is_outside_by};
ghost use Rattle.pic_sim.specs.Laws.{IsChip};
ghost use Rattle.pic_sim.specs.Step.{given_of, IsWanted, AreTold, shown_by, slack, ActedBy, StepsBy, EndsBy};

use crate::board::{Board, Exchange};
use crate::stepper::Stepper;
use pic_chip::{Access, Accesses, Chip, Image, StepEnd};
use pic_map::Tracer;
use pic_world::{Event, Trace};
use std::alloc::AllocError;

/// How a run ended.
#[derive(Clone, Copy, PartialEq, Eq, Debug)]
pub enum SimEnd {
    /// All instructions ran.
    Done,
    /// The model goes no further at this address: its word is SLEEP or no instruction's.
    Unmodelled(u16),
    /// The board had no room for an answer.
    NoMemory,
}

/// Runs `n` instructions on the chip, over a board. For each the board is asked once what arrives, then once for a
/// byte where the instruction reads a device register other than INTCON, PIR1 and PIE1; it is told once of a write to one.
/// The tracer was asked about the moment at which the run begins, and is asked once about each later one; the
/// events are appended to the trace, which has room for 2n + 1 of them. The chip's index and n are at most 2^40 in all.
///
/// After `NoMemory` the chip, the tracer and the trace are those after the last whole instruction.
pub fn simulate(
    chip: &mut Chip,
    image: &Image,
    tracer: &mut Tracer,
    board: &mut Box<dyn Board>,
    n: u64,
    trace: &mut Trace,
) -> SimEnd
    requires index { chip.old.index + n ≤ 2 ^ 40 }
    requires room { 2 * n + 1 ≤ trace.old.room }
    ensures went { Went image.now n (point chip.old (tracing_of tracer.old) trace.old.events (lists board.old) (follows board.old)) (point chip.new (tracing_of tracer.new) trace.new.events (lists board.new) (follows board.new)) result }
    ensures cause { result ≡ SimEnd.NoMemory → room board.old < 3 * n }
    ensures room { room board.old ≤ room board.new + 3 * n }
{
    simulate_any(chip, image, tracer, board, n, trace)
}

/// Runs `n` instructions on a chip of any kind, over a board, as `simulate` does on the PIC16F877A.
pub fn simulate_any<C: Stepper>(
    chip: &mut C,
    image: &Image,
    tracer: &mut Tracer,
    board: &mut Box<dyn Board>,
    n: u64,
    trace: &mut Trace,
) -> SimEnd
    requires chip { IsChip C.kind }
    requires index { (C.machine chip.old).index + n ≤ 2 ^ 40 }
    requires room { 2 * n + 1 ≤ trace.old.room }
    ensures went { WentBy C.kind image.now n (point (C.machine chip.old) (tracing_of tracer.old) trace.old.events (lists board.old) (follows board.old)) (point (C.machine chip.new) (tracing_of tracer.new) trace.new.events (lists board.new) (follows board.new)) result }
    ensures cause { result ≡ SimEnd.NoMemory → room board.old < 3 * n }
    ensures room { room board.old ≤ room board.new + 3 * n }
{
    for _ in 0..n {
        if let Some(end) = step_on(chip, image, tracer, board, trace) {
            return end;
        }
    }
    SimEnd::Done
}

// One instruction, and its events. The end of the run, if it goes no further.
fn step_on<C: Stepper>(
    chip: &mut C,
    image: &Image,
    tracer: &mut Tracer,
    board: &mut Box<dyn Board>,
    trace: &mut Trace,
) -> Option<SimEnd>
    requires chip { IsChip C.kind }
    requires index { (C.machine chip.old).index < 2 ^ 40 }
    requires room { 2 + slack (tracing_of tracer.old) ≤ trace.old.room }
    ensures steps { MatchOption result (StepsBy C.kind image.now (point (C.machine chip.old) (tracing_of tracer.old) trace.old.events (lists board.old) (follows board.old)) (point (C.machine chip.new) (tracing_of tracer.new) trace.new.events (lists board.new) (follows board.new))) (EndsBy C.kind image.now (point (C.machine chip.old) (tracing_of tracer.old) trace.old.events (lists board.old) (follows board.old)) (point (C.machine chip.new) (tracing_of tracer.new) trace.new.events (lists board.new) (follows board.new))) }
    ensures cause { result ≡ Some SimEnd.NoMemory → room board.old < 3 }
    ensures room { room board.old ≤ room board.new + 3 }
    ensures trace_room { trace.old.room + slack (tracing_of tracer.new) ≤ trace.new.room + 2 + slack (tracing_of tracer.old) }
{
    let mut next = *chip;
    match act_on(&mut next, image, board) {
        Err(_) => Some(SimEnd::NoMemory),
        Ok(StepEnd::Unmodelled(pc)) => {
            *chip = next;
            Some(SimEnd::Unmodelled(pc))
        }
        Ok(StepEnd::Done(accesses)) => {
            *chip = next;
            note::<C>(tracer, chip.pc(), accesses, trace);
            None
        }
    }
}

// One instruction on the chip, with the board's answers.
fn act_on<C: Stepper>(
    chip: &mut C,
    image: &Image,
    board: &mut Box<dyn Board>,
) -> Result<StepEnd, AllocError>
    requires chip { IsChip C.kind }
    requires index { (C.machine chip.old).index < 2 ^ 40 }
    ensures acted { IfOk result (λ end. ActedBy C.kind image.now end (C.machine chip.old) (C.machine chip.new) (record { lists = lists board.old; follows = follows board.old }) (record { lists = lists board.new; follows = follows board.new })) }
    ensures raised { OnErr result (MayGrow (lists board.old).raised (lists board.new).raised) }
    ensures given { OnErr result (MayGrow (lists board.old).given (lists board.new).given) }
    ensures taken { OnErr result ((lists board.new).taken ≡ (lists board.old).taken) }
    ensures cause { OnErr result (room board.old < 3) }
    ensures same_follows { follows board.new ≡ follows board.old }
    ensures room { room board.old ≤ room board.new + 3 }
{
    let mask = arriving_at(board, chip.index())?;
    chip.begin(mask);
    let wanted = chip.wants(image);
    let input = ask(board, wanted)?;
    let end = chip.exec(image, input);
    tell(board, outside_write::<C>(end))?;
    Ok(end)
}

// The flags that arrive before the instruction of this index.
fn arriving_at(board: &mut Box<dyn Board>, index: u64) -> Result<u16, AllocError>
    ensures raised { IfOk result (λ mask. lists board.new ≡ record (lists board.old) { raised = (lists board.old).raised ++ mask ∷ [] }) }
    ensures by_script { IfOk result (λ mask. IfSome (follows board.old) (λ script. mask ≡ arriving script.arrivals index)) }
    ensures refused { OnErr result (lists board.new ≡ lists board.old) }
    ensures cause { OnErr result (room board.old ≡ 0) }
    ensures same_follows { follows board.new ≡ follows board.old }
    ensures room { room board.old ≤ room board.new + 1 }
{
    board.tick(index)
}

// The byte of a register that an instruction wants to read, or 0 where it wants none.
fn ask(board: &mut Box<dyn Board>, wanted: Option<u8>) -> Result<u8, AllocError>
    requires { IsWanted wanted }
    ensures given { IfOk result (λ byte. lists board.new ≡ record (lists board.old) { given = (lists board.old).given ++ given_of wanted byte }) }
    ensures by_script { IfOk result (λ byte. IfSome (follows board.old) (λ script. HasBytes script.input (length (lists board.old).given) (given_of wanted byte))) }
    ensures refused { OnErr result (lists board.new ≡ lists board.old) }
    ensures cause { OnErr result (room board.old ≡ 0) }
    ensures same_follows { follows board.new ≡ follows board.old }
    ensures room { room board.old ≤ room board.new + 1 }
{
    match wanted {
        None => Ok(0),
        Some(register) => board.read(register),
    }
}

// The write of an instruction, if it is to a device register whose bytes go outside.
fn outside_write<C: Stepper>(end: StepEnd) -> Option<Exchange>
    requires { IsChip C.kind }
    ensures write { AreTold C.kind (accesses_in end) → option_to_list result ≡ writes_by C.kind.rule (accesses_in end) }
    ensures outside { IfSome result (λ x. IsTrue (is_outside x.register)) }
{
    let StepEnd::Done(accesses) = end else {
        return None;
    };
    let Access { address, value } = accesses.write?;
    let register = C::outside(address)?;
    Some(Exchange { register, value })
}

// Tells a write, if there is one.
fn tell(board: &mut Box<dyn Board>, write: Option<Exchange>) -> Result<(), AllocError>
    requires { IfSome write (λ x. IsTrue (is_outside x.register)) }
    ensures taken { OnOk result (lists board.new ≡ record (lists board.old) { taken = (lists board.old).taken ++ option_to_list write }) }
    ensures refused { OnErr result (lists board.new ≡ lists board.old) }
    ensures cause { OnErr result (room board.old ≡ 0) }
    ensures same_follows { follows board.new ≡ follows board.old }
    ensures room { room board.old ≤ room board.new + 1 }
{
    match write {
        None => Ok(()),
        Some(Exchange { register, value }) => board.write(register, value),
    }
}

// The events of an instruction's accesses, and of the moment behind it.
fn note<C: Stepper>(tracer: &mut Tracer, pc: u16, accesses: Accesses, trace: &mut Trace)
    requires chip { IsChip C.kind }
    requires room { 2 + slack (tracing_of tracer.old) ≤ trace.old.room }
    ensures events { AreTold C.kind (seen accesses) → trace.new.events ≡ trace.old.events ++ shown_by C.kind (seen accesses) (tracing_of tracer.old) ++ told pc (tracing_of tracer.old) }
    ensures tracing { tracing_of tracer.new ≡ looked pc (tracing_of tracer.old) }
    ensures room { trace.old.room + slack (tracing_of tracer.new) ≤ trace.new.room + 2 + slack (tracing_of tracer.old) }
{
    note_access::<C>(tracer, false, accesses.read, trace);
    note_access::<C>(tracer, true, accesses.write, trace);
    push(trace, tracer.at(pc));
}

fn note_access<C: Stepper>(tracer: &Tracer, write: bool, access: Option<Access>, trace: &mut Trace)
    requires chip { IsChip C.kind }
    requires room { 1 ≤ trace.old.room }
    ensures events { AreTold C.kind (made_by write access) → trace.new.events ≡ trace.old.events ++ shown_by C.kind (made_by write access) (tracing_of tracer.now) }
    ensures room { trace.old.room ≤ trace.new.room + 1 }
{
    if let Some(access) = access {
        push(trace, C::event(tracer, write, access));
    }
}

// Appends an event, if there is one.
fn push(trace: &mut Trace, event: Option<Event>)
    requires { length (list_of event) ≤ trace.old.room }
    ensures events { trace.new.events ≡ trace.old.events ++ list_of event }
    ensures room { trace.new.room + length (list_of event) ≡ trace.old.room }
{
    if let Some(event) = event {
        trace.push(event);
    }
}
