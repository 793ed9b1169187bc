//! Kept runs of the source and of byte code: their runs, seen by the device registers and by the static objects that are kept.
//!
//! In: nothing; the crate has definitions, and laws about them. Out: nothing.
//! The promise: a kept run is, up to each moment, a run under a schedule by the length of the whole trace. What the headline would be of
//! a build that watches kept objects alone is defined, over the source that such runs are of (`IsKeptFaithfulTo`); no clause claims it yet.
#![tactic(auto)]

ghost use Rattle.kept_trace.specs.Filtering.{Filters};
ghost use Rattle.kept_trace.specs.HiddenMap.{HiddenMapShowsKept};
ghost use Rattle.kept_trace.specs.Kept.{KeptRunsAreRuns, KeptMomentsStand};
ghost use Rattle.kept_trace.specs.KeptCode.{KeptCodeRunsAreRuns};
ghost use Rattle.kept_trace.specs.KeptSource.{KeptSourceIsTheSource};
ghost use Rattle.kept_trace.specs.KeptSteps.{KeptSourceRunsAreRuns, KeptRunsAreSteady};

/// Of any machine, a run under a schedule by some count of its trace is, up to each moment, one under a schedule by the length.
pub fn runs_are_filtered<S, E, V>()
    ensures { Filters S E V }
{}

/// A kept run of the source is, up to each moment, a run under a schedule by the length of the whole trace; so each of its moments stands.
pub fn kept_runs_are_runs()
    ensures runs { KeptRunsAreRuns }
    ensures moments { KeptMomentsStand }
{}

/// What the headline sees of a kept run is, up to each moment, what is seen of the source's own run under such a schedule.
pub fn kept_source_is_the_source()
    ensures { KeptSourceIsTheSource }
{}

/// The same of byte code, with the costs of its steps.
pub fn kept_code_runs_are_runs()
    ensures { KeptCodeRunsAreRuns }
{}

/// A micro-step of a kept run makes one kept event at most and counts as one step at most, and by each number of steps the run comes there,
/// rests, or has an undefined one.
pub fn kept_runs_are_steady()
    ensures runs { KeptSourceRunsAreRuns }
    ensures steady { KeptRunsAreSteady }
{}

/// A run of the chip, seen by a map in which the objects that aren't kept are hidden, is the same run, and its trace is the kept one.
pub fn hidden_map_shows_kept()
    ensures { HiddenMapShowsKept }
{}
