//! Runs of machines, and what it means that one follows another. Every pass of the compiler from the source to symbolic
//! code makes such a pair of runs, and what is promised of the last one comes from the first through the links between
//! them.
//!
//! In: nothing; the crate has definitions, and laws about them. Out: nothing.
//! The promise: links compose, and from a chain of them come the prefix of the trace, the pace, and that the last run is
//! not stuck as long as the first one is defined.
#![tactic(auto)]

ghost use Rattle.run_links.specs.Laws.{Composes, SlowComposes, LagComposes, HasPrefix, HasPace, IsNotStuck};

/// A run that follows one which follows another follows that one, and code without cost stands for no more of its steps.
pub fn links_compose<E, F, G>()
    ensures follows { Composes E F G }
    ensures slow { SlowComposes E F G }
    ensures lags { LagComposes F G }
{}

/// What a link gives of the run that follows: its trace at each moment is a prefix of the other's; between two moments it
/// costs no more; and it isn't stuck up to a moment, where no step of the other one is undefined that it may have come to.
pub fn links_serve<E, F>()
    ensures prefix { HasPrefix E F }
    ensures pace { HasPace E F }
    ensures goes { IsNotStuck E F }
{}
