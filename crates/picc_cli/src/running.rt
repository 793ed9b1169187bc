//! The run of a program by the source machine, with its events as printed lines.

ghost use Rattle.std.specs.Prelude.{ℕ, ◌≡◌, ◌<◌, ◌≤◌, ◌^◌, ◌+◌, ◌⊎◌, ◌++◌, false, length, map, option_map, IsTrue, IfSome, IfNone, OnOk, OnErr};
ghost use Rattle.c_typed.specs.Views.{program_of};
ghost use Rattle.call_graph.specs.Copies.{AreCopies};
ghost use Rattle.host_io.specs.Host.{HasCause, NoFailure, PrintsPrefix};
ghost use Rattle.pic_map.specs.EventText.{CanBeShown, event_text};
ghost use Rattle.pic_map.specs.MapView.{content_of, object_of, frame_of};
ghost use Rattle.host_lines.specs.Said.{HasOutcomeCause};
ghost use Rattle.picc_cli.specs.Trace.{IsMap, IsRunEnd, Leads, Takes, Stops, BreaksLine, is_fault};
ghost use Rattle.picc_cli.specs.Traced.{Ran, map_of};
ghost use Rattle.picc_cli.specs.TracedStep.{CanStep, IsBehind, Steps, setting_by};
ghost use Rattle.ram_place.specs.Placement.{IsPlacing};
ghost use Rattle.src_machine.specs.Sources.{IsSource};
ghost use Rattle.src_machine.specs.Steps.{IsGiven};
ghost use Rattle.src_memory.specs.Seen.{outside_by};
ghost use Rattle.src_values.specs.Memory.{Setting};

use crate::tracing::Ended;
use host_io::{Host, HostError};
use pic_map::{Map, event_line};
use pic_world::{Event, Script};
use picc_core::Front;
use src_machine::{Source, SrcEnd};
use std::alloc::Global;

/// Runs a program for at most so many steps, and prints the line of each event as it comes.
#[tactic(auto, using(crate::proofs::TracedRun::run_never))]
pub fn run<H: Host>(alloc: Global, host: &mut H, known: Front, script: &Script, steps: u32) -> Ended
    requires copies { AreCopies (program_of known.typed) known.copies.list.items }
    requires placed { IsPlacing (program_of known.typed) known.copies.list.items (map object_of known.placed.objects.items) (map frame_of known.placed.frames.items) }
    requires given { IsGiven (setting_by known.typed script.now) }
    // An event tells an object's number in 16 bits.
    requires few { length known.typed.statics.items ≤ 65536 }
    ensures same_file { H.open_file host.new ≡ H.open_file host.old }
    ensures same_contents { H.contents host.new ≡ H.contents host.old }
    ensures same_kind { H.kind host.new ≡ H.kind host.old }
    ensures end { IsRunEnd result }
    ensures leads { Leads steps result (H.printed host.old) (H.printed host.new) }
    ensures cause { HasOutcomeCause (H.kind host.old) (H.faults host.old) (H.faults host.new) (is_fault result) }
    ensures sound { IsTrue (H.kind host.old).is_sound → is_fault result ≡ false }
    // What is printed is the run of the program by the definitions of the source.
    ensures ran { (s : Setting) → s.program ≡ program_of known.typed → s.outside ≡ outside_by script.now → IsGiven s → Ran s (map_of (map object_of known.placed.objects.items) (map frame_of known.placed.frames.items)) steps result (H.printed host.old) (H.printed host.new) }
{
    let Front { typed, placed, .. } = known;
    let map = Map {
        main: 0,
        halt: 0,
        objects: placed.objects,
        frames: placed.frames,
    };
    match Source::new(alloc, &typed, &map) {
        Ok(mut source) => run_steps(alloc, host, &map, &mut source, script, steps),
        Err(_) => Ended::NoMemory,
    }
}

fn run_steps<H: Host>(
    alloc: Global,
    host: &mut H,
    map: &Map,
    source: &mut Source<'_>,
    script: &Script,
    steps: u32,
) -> Ended
    requires map { IsMap (content_of map.now) }
    requires begun { IsBehind (content_of map.now) script.now 0 source.old }
    ensures same_file { H.open_file host.new ≡ H.open_file host.old }
    ensures same_contents { H.contents host.new ≡ H.contents host.old }
    ensures same_kind { H.kind host.new ≡ H.kind host.old }
    ensures end { IsRunEnd result }
    ensures leads { Leads steps result (H.printed host.old) (H.printed host.new) }
    ensures cause { HasOutcomeCause (H.kind host.old) (H.faults host.old) (H.faults host.new) (is_fault result) }
    ensures sound { IsTrue (H.kind host.old).is_sound → is_fault result ≡ false }
    ensures ran { (s : Setting) → s.outside ≡ outside_by script.now → IsSource s (content_of map.now) 0 source.old → Ran s (content_of map.now) steps result (H.printed host.old) (H.printed host.new) }
{
    let mut taken = 0;
    while taken < steps {
        match take_step(alloc, host, map, source, script) {
            None => taken += 1,
            Some(ended) => return ended,
        }
    }
    Ended::Done
}

/// Takes a step and prints the line of its event, if it makes one. `None` where the run goes on.
fn take_step<H: Host>(
    alloc: Global,
    host: &mut H,
    map: &Map,
    source: &mut Source<'_>,
    script: &Script,
) -> Option<Ended>
    requires { CanStep (content_of map.now) script.now source.old }
    ensures same_file { H.open_file host.new ≡ H.open_file host.old }
    ensures same_contents { H.contents host.new ≡ H.contents host.old }
    ensures same_kind { H.kind host.new ≡ H.kind host.old }
    ensures goes_on { IfNone result (Takes (content_of map.now) (H.printed host.old) (H.printed host.new)) }
    ensures kept { IfNone result (H.faults host.new ≡ H.faults host.old) }
    ensures stops { IfSome result (λ ended. Stops (content_of map.now) ended (H.printed host.old) (H.printed host.new)) }
    ensures cause { IfSome result (λ ended. HasOutcomeCause (H.kind host.old) (H.faults host.old) (H.faults host.new) (is_fault ended)) }
    ensures sound { IfSome result (λ ended. IsTrue (H.kind host.old).is_sound → is_fault ended ≡ false) }
    ensures next { (s : Setting) (n : ℕ) → s.outside ≡ outside_by script.now → n + 1 < 2 ^ 60 → IsSource s (content_of map.now) n source.old → Steps s (content_of map.now) n source.new (H.printed host.old) (H.printed host.new) result }
{
    match source.step(script) {
        SrcEnd::Went(None) => None,
        SrcEnd::Went(Some(event)) => match print_event(alloc, host, map, event) {
            Ok(()) => None,
            Err(HostError::Failed) => Some(Ended::CannotPrint),
            Err(HostError::NoMemory) => Some(Ended::NoMemory),
        },
        SrcEnd::Undefined { kind, line } => Some(Ended::Undefined { kind, line }),
        SrcEnd::Idle => Some(Ended::Done),
    }
}

/// Prints the line of an event, whose cell has a name in the map.
pub fn print_event<H: Host>(
    alloc: Global,
    host: &mut H,
    map: &Map,
    event: Event,
) -> Result<(), HostError>
    requires { CanBeShown (content_of map.now) event }
    ensures all { OnOk result (CanBeShown (content_of map.now) event × (H.printed host.new ≡ option_map (λ t. t ++ event_text (content_of map.now) event) (H.printed host.old))) }
    ensures broken { OnErr result (BreaksLine (content_of map.now) (H.printed host.old) (H.printed host.new)) }
    ensures prefix { OnErr result (PrintsPrefix (H.printed host.old) (H.printed host.new) (event_text (content_of map.now) event)) }
    ensures same_file { H.open_file host.new ≡ H.open_file host.old }
    ensures same_contents { H.contents host.new ≡ H.contents host.old }
    ensures same_kind { H.kind host.new ≡ H.kind host.old }
    ensures cause { HasCause (H.kind host.old) (H.faults host.old) (H.faults host.new) result }
    ensures sound { NoFailure (H.kind host.old) result }
{
    let line = event_line(alloc, map, event)?;
    host.print(&line)
}
