//! A run of the source from its start, and the first undefined step that it meets.

ghost use Rattle.std.specs.Prelude.{◌≡◌, ◌<◌, ◌≤◌, ◌+◌, ◌^◌, ℕ, if◌then◌else◌, length, IfOk, IfNone};
ghost use Rattle.c_typed.specs.Views.{program_of};
ghost use Rattle.pic_map.specs.MapContent.{MapContent};
ghost use Rattle.pic_map.specs.MapView.{content_of};
ghost use Rattle.run_compare.specs.Looking.{IsRun, Goes, Looked, Met, Took, taken_by};
ghost use Rattle.src_machine.specs.Steps.{IsGiven};
ghost use Rattle.src_memory.specs.Seen.{outside_by};
ghost use Rattle.src_values.specs.Memory.{Setting};

use c_typed::Typed;
use pic_map::Map;
use pic_world::Script;
use src_machine::{Source, SrcEnd, Undef};
use std::alloc::{AllocError, Global};

/// So many steps are counted at most.
const MOST_STEPS: u64 = 1_152_921_504_606_846_975;

/// A step of the source that is undefined: why, and the line.
#[derive(Clone, Copy, PartialEq, Eq)]
pub(crate) struct Fault {
    pub kind: Undef,
    pub line: u32,
}

/// How a run goes on.
#[derive(Clone, Copy, PartialEq, Eq)]
pub(crate) enum Going {
    Went,
    Idle,
    Undefined(Fault),
}

/// A run of the source from its start. Its steps are those of main and the handler together.
#[derive(Drop)]
pub(crate) struct SourceRun<'a> {
    source: Source<'a>,
    pub steps: u64,
    pub events: u64,
}

impl<'a> SourceRun<'a> {
    /// The run before its first step, with objects at the addresses of the map.
    pub fn new(alloc: Global, program: &'a Typed, map: &'a Map) -> Result<SourceRun<'a>, AllocError>
        ensures begins { IfOk result (λ run. (s : Setting) → s.program ≡ program_of program.now → IsGiven s → length s.program.statics ≤ 65536 → IsRun s (content_of map.now) run) }
    {
        Ok(SourceRun {
            source: Source::new(alloc, program, map)?,
            steps: 0,
            events: 0,
        })
    }

    /// Takes the next step under a schedule, the same for the whole run.
    pub fn step(&mut self, schedule: &Script) -> Going
        requires { self.old.steps < 2 ^ 60 }
        ensures steps { self.new.steps ≡ self.old.steps + taken_by result }
        ensures took { (s : Setting) (map : MapContent) → s.outside ≡ outside_by schedule.now → IsRun s map self.old → Took s self.old.steps result }
        // Where one more step can be counted, this is the run behind it.
        ensures goes { self.old.steps + 1 < 2 ^ 60 → (s : Setting) (map : MapContent) → s.outside ≡ outside_by schedule.now → IsRun s map self.old → Goes s map self.old.steps result self.new }
    {
        match self.source.step(schedule) {
            SrcEnd::Undefined { kind, line } => Going::Undefined(Fault { kind, line }),
            SrcEnd::Idle => Going::Idle,
            SrcEnd::Went(event) => {
                self.steps += 1;
                self.events = plus(self.events, event.is_some());
                Going::Went
            }
        }
    }

    /// Goes on to the first undefined step among so many first ones that begin while there are so many events at most.
    pub fn look(&mut self, schedule: &Script, most: u64, longest: u64) -> Option<Fault>
        requires { most < 2 ^ 60 }
        ensures looked { (s : Setting) (map : MapContent) → s.outside ≡ outside_by schedule.now → IsRun s map self.old → Looked s most longest result }
        ensures goes { IfNone result ((s : Setting) (map : MapContent) → s.outside ≡ outside_by schedule.now → IsRun s map self.old → IsRun s map self.new) }
    {
        while self.steps < most {
            if self.events > longest {
                return None;
            }
            match self.step(schedule) {
                Going::Went => {}
                Going::Idle => return None,
                Going::Undefined(fault) => return Some(fault),
            }
        }
        None
    }

    /// Goes on to the undefined step that comes before the run's end: main has taken so many steps, or main and the handler
    /// together twice as many; the run is idle; or more runs of the handler than so many would begin.
    pub fn to_end(&mut self, schedule: &Script, most: u64, runs: u64) -> Option<Fault>
        requires { most ≤ 2 ^ 59 }
        ensures { (s : Setting) (map : MapContent) → s.outside ≡ outside_by schedule.now → IsRun s map self.old → Met s most runs result }
    {
        while self.steps < 2 * most {
            if self.source.main_steps() >= most {
                return None;
            }
            if self.source.runs() > runs {
                return None;
            }
            match self.step(schedule) {
                Going::Went => {}
                Going::Idle => return None,
                Going::Undefined(fault) => return Some(fault),
            }
        }
        None
    }
}

/// One more, if it is so and there is room.
fn plus(count: u64, more: bool) -> u64
    ensures { count < 2 ^ 60 → result ≡ count + (if more then 1 else 0) }
{
    if more && count <= MOST_STEPS {
        count + 1
    } else {
        count
    }
}
