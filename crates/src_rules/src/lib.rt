//! What a run of the source is: how each construct of the language goes on, a micro-step at a time, which steps are undefined, and
//! runs by micro-steps and by the steps that count.
//!
//! In: nothing; the crate has definitions, and laws about them. Out: nothing.
//! The promise: a run of a sound program comes to well-formed states alone, and a rule is there for each of its steps. src_machine
//! makes these steps, and the headline and the theorem of lowering speak of them.
#![tactic(auto)]

ghost use Rattle.src_rules.specs.Laws.{StartStands, StepsKeep, MomentsStand, WeightFalls, ReadyComes, RunsCompose, StepsAreMoments, TraceGrows, EventsCount, ArrivalsAreOnce, EntryKeepsBelow, BelowStays, LeaveGoesOn, EntryIsBehind, StartIsMains, SameAbove, CopiesAreDistinct, CalledIsNew, HandlerIsNew, ObjectsAreSmall, StackIsShort};

/// A run of a sound program begins in a state that stands, and each micro-step goes on to one that stands; it never comes to a state
/// without a rule.
pub fn states_stand()
    ensures start { StartStands }
    ensures steps { StepsKeep }
    ensures moments { MomentsStand }
{}

/// In each micro-step that doesn't count less is left to do before the next one that does; so that one is found within the weight.
/// So many micro-steps and then so many more are all of them together.
pub fn steps_come()
    ensures falls { WeightFalls }
    ensures comes { ReadyComes }
    ensures compose { RunsCompose }
    ensures moments { StepsAreMoments }
{}

/// A micro-step makes at most one event, which it adds to the trace; one that doesn't count makes none and changes nothing of the
/// world. Flags that arrive twice have arrived once.
pub fn steps_change()
    ensures trace { TraceGrows }
    ensures events { EventsCount }
    ensures arrivals { ArrivalsAreOnce }
{}

/// The handler is entered only directly behind an event or behind the end of an earlier run of it, and not at the start. What it
/// interrupts waits below it as it was, until it is left, and then goes on. Its micro-steps are the same above whatever it interrupted.
pub fn handler_waits()
    ensures enters { EntryKeepsBelow }
    ensures stays { BelowStays }
    ensures leaves { LeaveGoesOn }
    ensures behind { EntryIsBehind }
    ensures start { StartIsMains }
    ensures above { SameAbove }
{}

/// Where no function reaches itself, no copy of a function runs or waits twice, so a call or the handler makes variables anew that no
/// other copy has. Objects have at most 65,535 bytes, and a stack at most an entry for each node and one for each function, once for
/// each root.
pub fn copies_are_apart()
    ensures distinct { CopiesAreDistinct }
    ensures called { CalledIsNew }
    ensures handler { HandlerIsNew }
    ensures small { ObjectsAreSmall }
    ensures short { StackIsShort }
{}
