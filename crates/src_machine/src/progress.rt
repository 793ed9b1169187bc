//! A run of a typed program, and how far it is.

ghost use Rattle.std.specs.Prelude.{◌≡◌, ◌≤◌, ◌<◌, ◌+◌, ◌^◌, ℕ, length, IfOk, None, Some};
ghost use Rattle.c_typed.specs.Views.{program_of};
ghost use Rattle.pic_map.specs.MapContent.{MapContent};
ghost use Rattle.pic_map.specs.MapView.{content_of};
ghost use Rattle.src_machine.specs.Progress.{main_steps_of, runs_of, undefined_in, undefined_by, taken_by, main_by, run_by, Notes};
ghost use Rattle.src_machine.specs.Sources.{EndsAs, IsSource, TellsNext};
ghost use Rattle.src_machine.specs.Steps.{IsGiven};
ghost use Rattle.src_memory.specs.Seen.{outside_by};
ghost use Rattle.src_values.specs.Memory.{Setting};

use crate::machine::{Machine, SrcEnd, Taker};
use c_typed::Typed;
use pic_map::Map;
use pic_world::Script;
use src_values::Undef;
use std::alloc::{AllocError, Global};

/// The undefined step that a run met: its kind and its line.
#[derive(Clone, Copy)]
struct Stop {
    kind: Undef,
    line: u32,
}

/// A run of a typed program, how many steps main has taken, how many runs of the handler have begun, and
/// the undefined step that the run met.
#[derive(Drop)]
pub struct Source<'a> {
    machine: Machine<'a>,
    main_steps: u64,
    runs: u64,
    stop: Option<Stop>,
}

impl<'a> Source<'a> {
    /// The run of a program before its first step, with all the room that it needs. The map tells the
    /// addresses of the statics, by their numbers, and those of the frames, by root and name. Its `main`
    /// and `halt` are not looked at.
    pub fn new(alloc: Global, p: &'a Typed, map: &'a Map) -> Result<Source<'a>, AllocError>
        ensures main_steps { IfOk result (λ source. main_steps_of source ≡ 0) }
        ensures runs { IfOk result (λ source. runs_of source ≡ 0) }
        ensures defined { IfOk result (λ source. undefined_in source ≡ None) }
        // It is the run of the definition, under any outside of which bytes come.
        ensures begins { IfOk result (λ source. (s : Setting) → s.program ≡ program_of p.now → IsGiven s → length s.program.statics ≤ 65536 → IsSource s (content_of map.now) 0 source) }
    {
        Ok(Source {
            machine: Machine::new(alloc, p, map)?,
            main_steps: 0,
            runs: 0,
            stop: None,
        })
    }

    /// The run once more, at the same place.
    pub fn copy(&self) -> Result<Source<'a>, AllocError>
        ensures main_steps { IfOk result (λ source. main_steps_of source ≡ main_steps_of self.now) }
        ensures runs { IfOk result (λ source. runs_of source ≡ runs_of self.now) }
        ensures defined { IfOk result (λ source. undefined_in source ≡ undefined_in self.now) }
        ensures copies { IfOk result (λ source. (s : Setting) (map : MapContent) (n : ℕ) → IsSource s map n self.now → IsSource s map n source) }
    {
        Ok(Source {
            machine: self.machine.copy()?,
            main_steps: self.main_steps,
            runs: self.runs,
            stop: self.stop,
        })
    }

    /// How many steps main has taken.
    pub fn main_steps(&self) -> u64
        ensures { result ≡ main_steps_of self.now }
    {
        self.main_steps
    }

    /// How many runs of the handler have begun.
    pub fn runs(&self) -> u64
        ensures { result ≡ runs_of self.now }
    {
        self.runs
    }

    /// Takes the next step. Arrivals that the length of the trace has reached come first; then the
    /// handler is entered if it is due. A run that met an undefined step stays there.
    pub fn step(&mut self, script: &Script) -> SrcEnd
        // An undefined step is the last one: it is told from then on, and nothing changes.
        ensures kept { (end : SrcEnd) → undefined_in self.old ≡ Some end → result ≡ end }
        ensures stays { (end : SrcEnd) → undefined_in self.old ≡ Some end → self.new ≡ self.old }
        ensures met { undefined_in self.new ≡ undefined_by result }
        // Counts never fall, and only a step that was taken counts, once.
        ensures main_steps { main_steps_of self.old ≤ main_steps_of self.new }
        ensures runs { runs_of self.old ≤ runs_of self.new }
        ensures counted { main_steps_of self.new + runs_of self.new ≤ main_steps_of self.old + runs_of self.old + taken_by result }
        // It is the next step of the definition's run, with its event, its kind and line, or none.
        ensures follows { (s : Setting) (map : MapContent) (n : ℕ) → s.outside ≡ outside_by script.now → n + 1 < 2 ^ 60 → IsSource s map n self.old → TellsNext s map n result self.new }
        // How it ended is told of the last step that can be counted too.
        ensures ended { (s : Setting) (map : MapContent) (n : ℕ) → s.outside ≡ outside_by script.now → IsSource s map n self.old → EndsAs s n result }
    {
        if let Some(stop) = self.stop {
            return SrcEnd::Undefined {
                kind: stop.kind,
                line: stop.line,
            };
        }
        let (taker, end) = self.machine.step(script);
        self.note(taker, end);
        end
    }

    // A step that was taken counts, and an undefined one is kept.
    fn note(&mut self, taker: Taker, end: SrcEnd)
        ensures noted { Notes end taker self.old self.new }
        ensures machine { self.new.machine ≡ self.old.machine }
        ensures met { undefined_in self.old ≡ None → undefined_in self.new ≡ undefined_by end }
        ensures main_steps { main_steps_of self.old ≤ main_steps_of self.new }
        ensures runs { runs_of self.old ≤ runs_of self.new }
        ensures counted { main_steps_of self.new + runs_of self.new ≤ main_steps_of self.old + runs_of self.old + taken_by end }
    {
        match end {
            SrcEnd::Went(_) => self.count(taker),
            SrcEnd::Undefined { kind, line } => self.stop = Some(Stop { kind, line }),
            SrcEnd::Idle => {}
        }
    }

    // A step that was taken counts for main or as the begin of a run.
    fn count(&mut self, taker: Taker)
        ensures main_steps { main_steps_of self.old ≤ main_steps_of self.new }
        ensures runs { runs_of self.old ≤ runs_of self.new }
        ensures counted { main_steps_of self.new + runs_of self.new ≤ main_steps_of self.old + runs_of self.old + 1 }
        ensures undefined { undefined_in self.new ≡ undefined_in self.old }
        ensures adds_main { main_steps_of self.old < 2 ^ 60 → main_steps_of self.new ≡ main_steps_of self.old + main_by taker }
        ensures adds_run { runs_of self.old < 2 ^ 60 → runs_of self.new ≡ runs_of self.old + run_by taker }
        ensures machine { self.new.machine ≡ self.old.machine }
    {
        match taker {
            Taker::Main => self.main_steps = self.main_steps.saturating_add(1),
            Taker::Interrupt => self.runs = self.runs.saturating_add(1),
            Taker::Handler => {}
        }
    }
}
