//! What a run of the chip tells of its arrivals and of the runs of its handler.

ghost use Rattle.std.specs.Prelude.{◌≡◌, ◌<◌, ◌≤◌, ◌+◌, ◌*◌, ◌^◌, ◌++◌, ◌∷◌, ◌&&◌, ◌||◌, ℕ, List, not, false, if◌then◌else◌, [], length, IfOk, OnOk};
ghost use Rattle.pic_world.specs.Arrivals.{IsRising, arriving};
ghost use Rattle.pic_world.specs.Control.{is_due};
ghost use Rattle.pic_isa.specs.Lookup.{row_of};
ghost use Rattle.pic_chip.specs.State.{reset};
ghost use Rattle.pic_chip.specs.Act.{perform, accesses};
ghost use Rattle.pic_chip.specs.Instructions.{execute, fetched, is_return_from_interrupt};
ghost use Rattle.pic_chip.specs.Interrupts.{control_of, raised, begun};
ghost use Rattle.pic_chip.specs.Machine.{stop_at, index_after};
ghost use Rattle.pic_chip.specs.Run.{Watch, moment as moment_of};
ghost use Rattle.pic_chip.specs.Seen.{accesses_in, stopped_at, made_by, seen};
ghost use Rattle.pic_map.specs.MapContent.{watch_of};
ghost use Rattle.pic_map.specs.MapView.{content_of};
ghost use Rattle.pic_map.specs.Tracing.{tracing_of, looked, told, list_of};
ghost use Rattle.schedule.specs.Off.{read_off as lengths_of, lengths_before, last_free as last_free_of, runs_begun};
ghost use Rattle.schedule.specs.Putting.{Puts, length_before};
ghost use Rattle.schedule.specs.Watching.{zeros, run_of, watched_run, traces, IsWatchedAt, AreLowest, shown_all, ahead};

use pic_chip::{Access, Accesses, Chip, Image, Start, StepEnd};
use pic_isa::{Ins, decode};
use pic_map::{Map, Tracer};
use pic_world::{Arrival, Event, Flag, Script};
use std::alloc::{AllocError, Global};

/// What is read off a run of the chip. A moment is the point after so many instructions from reset, before an interrupt is
/// taken there.
#[derive(Drop)]
pub struct Off {
    /// The last moment of those looked at at which no run of the handler is under way.
    pub moment: u32,
    /// How many events the trace has at that moment.
    pub events: u32,
    /// How many runs of the handler have begun by then.
    pub runs: u32,
    /// For each arrival from 1 to that moment, in order, the length of the trace one instruction before it.
    pub before: Vec<u32>,
    /// The same input bytes; and each arrival up to that moment with the length of the trace when it comes in place of its
    /// instruction, in the same order.
    pub by_length: Script,
}

/// After power-on all that is unknown is 0 here.
const START: Start = Start {
    w: 0,
    fsr: 0,
    flags: 0,
    ram: [0; 368],
};

/// What happens between two instructions: whether an interrupt is taken, and whether the instruction that follows is RETFIE.
#[derive(Clone, Copy)]
struct Boundary {
    taken: bool,
    returns: bool,
}

/// A run at one of its moments: the chip, and whether an interrupt was taken whose RETFIE hasn't run since.
#[derive(Clone, Copy)]
struct Run {
    chip: Chip,
    handling: bool,
}

impl Run {
    fn new() -> Run
        ensures chip { result.chip ≡ record { state = reset zeros; index = 0 } }
        ensures handling { result.handling ≡ false }
    {
        Run {
            chip: Chip::reset(&START),
            handling: false,
        }
    }

    /// The boundary at which these flags arrive.
    fn boundary(&self, image: &Image, mask: u16) -> Boundary
        ensures taken { result.taken ≡ is_due (control_of (raised mask self.now.chip.state)) }
        ensures returns { result.returns ≡ is_return_from_interrupt (fetched image.now (begun mask self.now.chip.state)) }
    {
        let mut begun = self.chip;
        begun.begin(mask);
        Boundary {
            taken: begun.depth() != self.chip.depth(),
            returns: is_retfie(image.word(begun.pc())),
        }
    }

    /// A run of the handler is under way, or begins here.
    fn is_busy(&self, boundary: Boundary) -> bool
        ensures { result ≡ (self.now.handling || boundary.taken) }
    {
        self.handling || boundary.taken
    }

    /// Runs the instruction after a boundary.
    fn step(&mut self, image: &Image, script: &Script, boundary: Boundary) -> StepEnd
        requires { self.old.chip.index < 2 ^ 40 }
        ensures handling { self.new.handling ≡ ((self.old.handling || boundary.taken) && not boundary.returns) }
        ensures state { self.new.chip.state ≡ perform (execute image.now script.now.input.items) (begun (arriving script.now.arrivals.items self.old.chip.index) self.old.chip.state) }
        ensures accesses { accesses_in result ≡ accesses (execute image.now script.now.input.items) (begun (arriving script.now.arrivals.items self.old.chip.index) self.old.chip.state) }
        ensures stopped { stopped_at result ≡ stop_at image.now (begun (arriving script.now.arrivals.items self.old.chip.index) self.old.chip.state) }
        ensures index { self.new.chip.index ≡ index_after image.now (begun (arriving script.now.arrivals.items self.old.chip.index) self.old.chip.state) self.old.chip.index }
        ensures few { self.new.chip.index ≤ self.old.chip.index + 1 }
    {
        self.handling = self.is_busy(boundary) && !boundary.returns;
        self.chip.step(image, script)
    }
}

fn is_retfie(word: u16) -> bool
    requires { word < 0x4000 }
    ensures { result ≡ is_return_from_interrupt (row_of word) }
{
    match decode(word) {
        Some(Ins::Retfie) => true,
        _ => false,
    }
}

/// Runs the chip on a script for at most n instructions, from a start at which all that is unknown is 0, and tells what the
/// source run with the same interrupts has to know. A run of the handler is under way from the moment at which its interrupt
/// is taken, that one included, up to its RETFIE. Where the model goes no further before n, at SLEEP or at a word that is no
/// instruction's, the moments up to there are looked at. `n` is below 2^31, and the map has at most 65,536 object lines.
pub fn read_off(
    alloc: Global,
    image: &Image,
    map: &Map,
    script: &Script,
    n: u32,
) -> Result<Off, AllocError>
    requires moments { n < 2 ^ 31 }
    requires lines { length map.now.objects.items ≤ 65536 }
    ensures moment { IfOk result (λ off. off.moment ≤ n) }
    ensures last { IfOk result (λ off. off.moment ≡ last_free_of (run_of image.now map.now script.now) n) }
    ensures events { IfOk result (λ off. off.events ≡ length (traces (run_of image.now map.now script.now) off.moment)) }
    ensures runs { IfOk result (λ off. off.runs ≡ runs_begun (run_of image.now map.now script.now) off.moment) }
    ensures before { IfOk result (λ off. off.before.items ≡ lengths_before (traces (run_of image.now map.now script.now)) off.moment script.now.arrivals.items) }
    ensures lengths { IfOk result (λ off. off.by_length.arrivals.items ≡ lengths_of (traces (run_of image.now map.now script.now)) off.moment script.now.arrivals.items) }
    ensures input { IfOk result (λ off. off.by_length.input.items ≡ script.now.input.items) }
    // An instruction reads once and writes once at most, and main ends once.
    ensures few { IfOk result (λ off. off.events ≤ 2 * off.moment + 1) }
{
    let moment = last_free(image, script, n);
    read_at(alloc, image, map, script, moment)
}

/// The last moment up to n at which no run of the handler is under way. There is one, since at reset no interrupt is enabled.
fn last_free(image: &Image, script: &Script, n: u32) -> u32
    requires { n < 2 ^ 31 }
    ensures within { result ≤ n }
    ensures last { (watch : Watch) → result ≡ last_free_of (watched_run image.now watch script.now) n }
{
    let mut run = Run::new();
    let mut last = 0;
    for moment in 0..n + 1 {
        let boundary = run.boundary(image, script.mask_at(moment as u64));
        last = latest(!run.is_busy(boundary), moment, last);
        match run.step(image, script, boundary) {
            StepEnd::Done(_) => {}
            StepEnd::Unmodelled(_) => return last,
        }
    }
    last
}

/// This moment where it is free, or else the last one before that was.
fn latest(free: bool, moment: u32, last: u32) -> u32
    ensures { result ≡ (if free then moment else last) }
{
    if free { moment } else { last }
}

/// A run at one of its moments, seen by a map: the run, what the map's tracer remembers, and how many events there were and
/// how many runs of the handler have begun.
#[derive(Clone, Copy)]
struct Watched<'a> {
    run: Run,
    tracer: Tracer<'a>,
    events: u32,
    runs: u32,
}

impl<'a> Watched<'a> {
    /// The first moment.
    fn new(map: &'a Map) -> Watched<'a>
        requires { length map.now.objects.items ≤ 65536 }
        ensures at { (image : List ℕ) (script : Script) → IsWatchedAt (run_of image map.now script) 0 result.run.chip result.run.handling (tracing_of result.tracer) result.events result.runs }
        ensures few { result.events + ahead result.tracer ≤ 1 }
    {
        let mut watched = Watched {
            run: Run::new(),
            tracer: Tracer::new(map),
            events: 0,
            runs: 0,
        };
        watched.look();
        watched
    }

    /// Looks at a moment, before an interrupt is taken there.
    fn look(&mut self)
        requires { self.old.events + ahead self.old.tracer < 2 ^ 32 }
        ensures count { self.new.events ≡ self.old.events + length (told self.old.run.chip.state.pc (tracing_of self.old.tracer)) }
        ensures tracing { tracing_of self.new.tracer ≡ looked self.old.run.chip.state.pc (tracing_of self.old.tracer) }
        ensures events { self.new.events + ahead self.new.tracer ≤ self.old.events + ahead self.old.tracer }
        ensures same { (self.new.run.chip ≡ self.old.run.chip) × (self.new.run.handling ≡ self.old.run.handling) × (self.new.runs ≡ self.old.runs) }
    {
        self.events += count(self.tracer.at(self.run.chip.pc()));
    }

    /// Runs the instruction after a moment at which these flags arrive, and looks at the next one. Where the model goes no
    /// further nothing is counted.
    fn step(&mut self, image: &Image, script: &Script, mask: u16)
        requires index { self.old.run.chip.index < 2 ^ 40 }
        requires events { self.old.events + ahead self.old.tracer + 2 < 2 ^ 32 }
        requires runs { self.old.runs + 1 < 2 ^ 32 }
        ensures at { (watch : Watch) (k : ℕ) → IsWatchedAt (watched_run image.now watch script.now) k self.old.run.chip self.old.run.handling (tracing_of self.old.tracer) self.old.events self.old.runs → mask ≡ arriving script.now.arrivals.items k → (moment_of (watched_run image.now watch script.now) (k + 1)).stopped ≡ false → IsWatchedAt (watched_run image.now watch script.now) (k + 1) self.new.run.chip self.new.run.handling (tracing_of self.new.tracer) self.new.events self.new.runs }
        ensures index { self.new.run.chip.index ≤ self.old.run.chip.index + 1 }
        ensures events { self.new.events + ahead self.new.tracer ≤ self.old.events + ahead self.old.tracer + 2 }
        ensures runs { self.new.runs ≤ self.old.runs + 1 }
    {
        let boundary = self.run.boundary(image, mask);
        self.runs += one_if(boundary.taken);
        match self.run.step(image, script, boundary) {
            StepEnd::Done(accesses) => {
                self.note(accesses);
                self.look();
            }
            StepEnd::Unmodelled(_) => {}
        }
    }

    /// The events of an instruction: that of its read, and that of its write.
    fn note(&mut self, accesses: Accesses)
        requires { self.old.events + 2 < 2 ^ 32 }
        ensures count { AreLowest (seen accesses) → self.new.events ≡ self.old.events + length (shown_all (seen accesses) (tracing_of self.old.tracer)) }
        ensures events { self.new.events ≤ self.old.events + 2 }
        ensures tracing { tracing_of self.new.tracer ≡ tracing_of self.old.tracer }
        ensures same { (self.new.run.chip ≡ self.old.run.chip) × (self.new.run.handling ≡ self.old.run.handling) × (self.new.runs ≡ self.old.runs) }
    {
        let reads = shown(&self.tracer, false, accesses.read);
        let writes = shown(&self.tracer, true, accesses.write);
        self.events += reads + writes;
    }
}

/// How many events an access makes, if there is one.
fn shown(tracer: &Tracer<'_>, write: bool, access: Option<Access>) -> u32
    ensures value { AreLowest (made_by write access) → result ≡ length (shown_all (made_by write access) (tracing_of tracer.now)) }
    ensures small { result ≤ 1 }
{
    match access {
        None => 0,
        Some(access) => count(tracer.event(write, access)),
    }
}

fn count(event: Option<Event>) -> u32
    ensures value { result ≡ length (list_of event) }
    ensures small { result ≤ 1 }
{
    match event {
        None => 0,
        Some(_) => 1,
    }
}

fn one_if(condition: bool) -> u32
    ensures value { result ≡ (if condition then 1 else 0) }
    ensures small { result ≤ 1 }
{
    if condition { 1 } else { 0 }
}

/// What is read off a run's arrivals: the lengths of the trace before them, and those at which they come.
#[derive(Drop)]
struct Reading {
    before: Vec<u32>,
    lengths: Vec<Arrival>,
}

impl Reading {
    /// Puts an arrival of this flag at a moment, where the trace has so many events, and had so many one instruction before.
    fn put(&mut self, flag: Flag, moment: u32, earlier: u32, events: u32) -> Result<(), AllocError>
        ensures lengths { OnOk result (self.new.lengths.items ≡ self.old.lengths.items ++ record { t = events; flag = flag } ∷ []) }
        ensures before { OnOk result (self.new.before.items ≡ self.old.before.items ++ length_before moment earlier) }
    {
        if moment > 0 {
            self.before.push(earlier)?;
        }
        self.lengths.push(Arrival { t: events, flag })?;
        Ok(())
    }
}

/// What is read off a run at a moment of it, up to which it goes on.
fn read_at(
    alloc: Global,
    image: &Image,
    map: &Map,
    script: &Script,
    moment: u32,
) -> Result<Off, AllocError>
    requires moments { moment < 2 ^ 31 }
    requires lines { length map.now.objects.items ≤ 65536 }
    requires going { (moment_of (run_of image.now map.now script.now) moment).stopped ≡ false }
    ensures moment { IfOk result (λ off. off.moment ≡ moment) }
    ensures events { IfOk result (λ off. off.events ≡ length (traces (run_of image.now map.now script.now) moment)) }
    ensures runs { IfOk result (λ off. off.runs ≡ runs_begun (run_of image.now map.now script.now) moment) }
    ensures before { IfOk result (λ off. off.before.items ≡ lengths_before (traces (run_of image.now map.now script.now)) moment script.now.arrivals.items) }
    ensures lengths { IfOk result (λ off. off.by_length.arrivals.items ≡ lengths_of (traces (run_of image.now map.now script.now)) moment script.now.arrivals.items) }
    ensures input { IfOk result (λ off. off.by_length.input.items ≡ script.now.input.items) }
    ensures few { IfOk result (λ off. off.events ≤ 2 * moment + 1) }
{
    let mut watched = Watched::new(map);
    let mut reading = Reading {
        before: Vec::new(alloc),
        lengths: Vec::new(alloc),
    };
    let mut left: &[Arrival] = &script.arrivals;
    let mut earlier = watched.events;
    for at in 0..moment {
        left = put_arrivals(&mut reading, left, at, earlier, watched.events)?;
        earlier = watched.events;
        watched.step(image, script, script.mask_at(at as u64));
    }
    put_arrivals(&mut reading, left, moment, earlier, watched.events)?;
    let Reading { before, lengths } = reading;
    Ok(Off {
        moment,
        events: watched.events,
        runs: watched.runs,
        before,
        by_length: Script {
            input: copied(&script.input)?,
            arrivals: lengths,
        },
    })
}

fn copied(input: &Vec<u8>) -> Result<Vec<u8>, AllocError>
    ensures { IfOk result (λ copy. copy.items ≡ input.now.items) }
{
    Ok(input.clone()?)
}

/// Puts the arrivals at a moment, where the trace has so many events, and had so many one instruction before, and answers
/// those after it. Those of earlier moments aren't among the ones that are left, and they are in order: so those at this
/// moment are the first.
fn put_arrivals<'a>(
    reading: &mut Reading,
    arrivals: &'a [Arrival],
    moment: u32,
    earlier: u32,
    events: u32,
) -> Result<&'a [Arrival], AllocError>
    requires { IsRising moment arrivals.now }
    ensures puts { IfOk result (λ left. Puts moment earlier events arrivals.now left.now reading.old.lengths.items reading.new.lengths.items reading.old.before.items reading.new.before.items) }
    ensures later { IfOk result (λ left. IsRising (moment + 1) left.now) }
{
    let mut left = arrivals;
    while let [arrival, behind @ ..] = left {
        if arrival.t > moment {
            return Ok(left);
        }
        reading.put(arrival.flag, moment, earlier, events)?;
        left = behind;
    }
    Ok(left)
}
