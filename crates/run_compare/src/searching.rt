//! The search for undefined steps, along the arrivals of a run on the chip.

ghost use Rattle.std.specs.Prelude.{◌≡◌, ◌<◌, ◌≤◌, ◌+◌, ◌*◌, ◌^◌, ◌++◌, ◌∷◌, ℕ, false, None, List, [], length, slice_index, if◌then◌else◌, IfOk, OnOk};
ghost use Rattle.c_typed.specs.TreeNodes.{nodes_of};
ghost use Rattle.c_typed.specs.Trees.{Program};
ghost use Rattle.c_typed.specs.Views.{program_of};
ghost use Rattle.call_graph.specs.declared.types.FnCopy.{FnCopy};
ghost use Rattle.pic_chip.specs.Run.{Setting};
ghost use Rattle.pic_map.specs.MapContent.{MapContent};
ghost use Rattle.pic_map.specs.MapView.{content_of};
ghost use Rattle.pic_world.specs.Arrivals.{IsRising, arriving};
ghost use Rattle.pic_world.specs.World.{Outside};
ghost use Rattle.run_compare.specs.Searching.{Answers, ComeBy, Found, IsArrivalAt, IsOffOf, IsRunBy, IsSearched, MayBeRunBy, RanBy};
ghost use Rattle.src_memory.specs.Seen.{outside_by};

use crate::source_run::{Fault, SourceRun};
use c_typed::Typed;
use pic_map::Map;
use pic_world::{Arrival, Script};
use schedule::Off;
use std::alloc::{AllocError, Global};

/// How many steps are looked at for a moment.
fn steps_at(program: &Typed, moment: u32) -> u64
    requires { moment < 2 ^ 31 }
    ensures value { result ≡ (moment + 1) * nodes_of (program_of program.now) }
    ensures small { result ≤ 2 ^ 59 }
{
    (moment as u64 + 1) * program.nodes()
}

/// The length of the trace one instruction before the arrival of a number, of those that come behind reset.
fn length_before(off: &Off, number: usize) -> u32
    ensures { result ≡ slice_index off.now.before.items number }
{
    match off.before.get(number) {
        Some(length) => *length,
        None => 0,
    }
}

/// An arrival more, which comes at the length of the last one or later. The answer is whether that changes the schedule.
fn add(script: &mut Script, arrival: Arrival) -> Result<bool, AllocError>
    requires { IsRising 0 (script.old.arrivals.items ++ arrival ∷ []) }
    ensures arrivals { OnOk result (script.new.arrivals.items ≡ script.old.arrivals.items ++ arrival ∷ []) }
    ensures input { script.new.input ≡ script.old.input }
    ensures same { IfOk result (λ changes. changes ≡ false → (t : ℕ) → arriving script.new.arrivals.items t ≡ arriving script.old.arrivals.items t) }
{
    let length = arrival.t as u64;
    let before = script.mask_at(length);
    script.arrivals.push(arrival)?;
    Ok(script.mask_at(length) != before)
}

/// The run, if the schedule is still its own.
fn kept<'a>(known: Option<SourceRun<'a>>, changes: bool) -> Option<SourceRun<'a>>
    ensures { result ≡ (if changes then None else known.entry) }
{
    if changes { None } else { known }
}

fn one_if(condition: bool) -> usize
    ensures value { result ≡ (if condition then 1 else 0) }
    ensures small { result ≤ 1 }
{
    if condition { 1 } else { 0 }
}

/// The run that goes on, or a new one.
fn run_on<'a>(
    alloc: Global,
    program: &'a Typed,
    map: &'a Map,
    known: Option<SourceRun<'a>>,
) -> Result<SourceRun<'a>, AllocError>
    ensures { IfOk result (λ run. (outside : Outside) → MayBeRunBy (program_of program.now) (content_of map.now) outside known.entry → IsRunBy (program_of program.now) (content_of map.now) outside run) }
{
    match known {
        Some(run) => Ok(run),
        None => SourceRun::new(alloc, program, map),
    }
}

/// How far the search is: the schedule of the arrivals that were taken, and the run under it as far as it was looked at. All
/// moments before `seen` were looked at. `moments` is how many of the arrivals that were taken came behind reset.
#[derive(Drop)]
struct Search<'a> {
    earlier: Script,
    known: Option<SourceRun<'a>>,
    seen: u32,
    moments: usize,
}

impl<'a> Search<'a> {
    /// The search before the first arrival.
    fn new(alloc: Global, off: &Off) -> Result<Search<'a>, AllocError>
        ensures earlier { IfOk result (λ search. search.earlier.arrivals.items ≡ []) }
        ensures moments { IfOk result (λ search. search.moments ≡ 0) }
        ensures begins { IfOk result (λ search. (p : Program) (copies : List FnCopy) (content : MapContent) (g : Setting) → IsOffOf p g off.now → IsSearched p copies content g off.now 0 search) }
    {
        let input = Vec::from_slice(alloc, &off.by_length.input)?;
        let arrivals = Vec::new(alloc);
        Ok(Search {
            earlier: Script { input, arrivals },
            known: None,
            seen: 0,
            moments: 0,
        })
    }

    /// The undefined step that counts for a moment before that of the next arrival, if there is one.
    fn fault_before(
        &mut self,
        alloc: Global,
        program: &'a Typed,
        map: &'a Map,
        off: &Off,
        moment: u32,
    ) -> Result<Option<Fault>, AllocError>
        requires { moment < 2 ^ 31 }
        ensures earlier { self.new.earlier ≡ self.old.earlier }
        ensures moments { self.new.moments ≡ self.old.moments }
        ensures seen { OnOk result (moment ≤ self.new.seen) }
        ensures found { IfOk result (λ found. (copies : List FnCopy) (g : Setting) (taken : ℕ) → IsOffOf (program_of program.now) g off.now → taken < length off.now.by_length.arrivals.items
            → IsArrivalAt g taken moment → IsSearched (program_of program.now) copies (content_of map.now) g off.now taken self.old → Found (program_of program.now) copies (content_of map.now) g off.now taken found self.new) }
    {
        if moment <= self.seen {
            return Ok(None);
        }
        let events = length_before(off, self.moments) as u64;
        let mut run = run_on(alloc, program, map, self.known.take())?;
        let earlier = &self.earlier;
        let found = run.look(earlier, steps_at(program, moment - 1), events);
        self.known = Some(run);
        self.seen = moment;
        Ok(found)
    }

    /// Takes the next arrival, with the length of the trace at which it comes. Where it changes nothing of the schedule, the run
    /// goes on.
    fn take(&mut self, arrival: Arrival, behind_reset: bool) -> Result<(), AllocError>
        requires rising { IsRising 0 (self.old.earlier.arrivals.items ++ arrival ∷ []) }
        requires room { self.old.moments + 1 < 2 ^ 64 }
        ensures earlier { OnOk result (self.new.earlier.arrivals.items ≡ self.old.earlier.arrivals.items ++ arrival ∷ []) }
        ensures input { self.new.earlier.input ≡ self.old.earlier.input }
        ensures known { OnOk result ((p : Program) (content : MapContent) → MayBeRunBy p content (outside_by self.old.earlier) self.old.known → MayBeRunBy p content (outside_by self.new.earlier) self.new.known) }
        ensures seen { self.new.seen ≡ self.old.seen }
        ensures moments { OnOk result (self.new.moments ≡ self.old.moments + (if behind_reset then 1 else 0)) }
    {
        let changes = add(&mut self.earlier, arrival)?;
        self.known = kept(self.known.take(), changes);
        self.moments += one_if(behind_reset);
        Ok(())
    }
}

/// The undefined step that is met by the run under all arrivals, among the steps that count for the moment that is compared, or
/// before the run's end.
fn fault_in_run<'a>(
    alloc: Global,
    program: &'a Typed,
    map: &'a Map,
    off: &Off,
) -> Result<Option<Fault>, AllocError>
    requires { off.now.moment < 2 ^ 31 }
    ensures { IfOk result (λ found. RanBy (program_of program.now) (outside_by off.now.by_length) ((off.now.moment + 1) * nodes_of (program_of program.now)) off.now.events off.now.runs found) }
{
    let most = steps_at(program, off.moment);
    let schedule = &off.by_length;
    let mut run = SourceRun::new(alloc, program, map)?;
    match run.look(schedule, most, off.events as u64) {
        Some(fault) => Ok(Some(fault)),
        None => Ok(run.to_end(schedule, most, off.runs as u64)),
    }
}

/// The first undefined step, by rising moments, and last in the run itself.
///
/// Between two arrivals the schedule is the same, and the steps that count grow with the moment. So of the moments before the last
/// one those directly before an arrival suffice.
pub(crate) fn first_fault<'a>(
    alloc: Global,
    program: &'a Typed,
    map: &'a Map,
    script: &Script,
    off: &Off,
) -> Result<Option<Fault>, AllocError>
    requires moments { off.now.moment < 2 ^ 31 }
    requires lengths { length off.now.by_length.arrivals.items ≤ length script.now.arrivals.items }
    requires early { ComeBy script.now.arrivals.items (length off.now.by_length.arrivals.items) off.now.moment }
    ensures { IfOk result (λ found. (copies : List FnCopy) (g : Setting) → g.arrivals ≡ script.now.arrivals.items → IsOffOf (program_of program.now) g off.now
        → Answers (program_of program.now) copies (content_of map.now) g off.now.moment found) }
{
    let mut search = Search::new(alloc, off)?;
    for number in 0..off.by_length.arrivals.len() {
        let moment = script.arrivals[number].t;
        let found = search.fault_before(alloc, program, map, off, moment)?;
        if found.is_some() {
            return Ok(found);
        }
        search.take(off.by_length.arrivals[number], moment > 0)?;
    }
    fault_in_run(alloc, program, map, off)
}
