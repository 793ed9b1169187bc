//! Whether the source run beside a run of the chip is defined as far as the two are compared.

ghost use Rattle.std.specs.Prelude.{◌≡◌, ◌<◌, ◌≤◌, ◌+◌, ◌*◌, ◌^◌, ℕ, List, length, slice_index, None, IfOk};
ghost use Rattle.std.specs.List.{All};
ghost use Rattle.c_typed.specs.Chains.{graph_of};
ghost use Rattle.c_typed.specs.Roots.{broken_root};
ghost use Rattle.c_typed.specs.Views.{program_of};
ghost use Rattle.call_graph.specs.Levels.{IsAcyclic};
ghost use Rattle.call_graph.specs.declared.types.FnCopy.{FnCopy};
ghost use Rattle.headline.specs.SourceOf.{IsFaithfulTo};
ghost use Rattle.pic_map.specs.MapView.{content_of};
ghost use Rattle.run_compare.specs.Agreement.{Tells, events_in};
ghost use Rattle.schedule.specs.Off.{last_free};
ghost use Rattle.schedule.specs.Watching.{run_of};

use crate::searching::first_fault;
use crate::source_run::Fault;
use c_typed::Typed;
use pic_chip::Image;
use pic_map::Map;
use pic_world::Script;
use schedule::read_off;
use src_machine::Undef;
use std::alloc::{AllocError, Global};
use typed_numbers::see_numbers;

/// What is known of a program's run on the chip beside that of its source.
#[derive(Clone, Copy, PartialEq, Eq)]
pub enum Agreed {
    /// The source run is defined as far as it is looked at, and so many events the chip has made.
    Same { events: u32 },
    /// This step of the source is undefined, and nothing is said of the chip.
    Undefined { kind: Undef, line: u32 },
}

/// Runs a program's image on the chip, from a start at which all that is unknown is 0, and its source beside it.
///
/// Of the moments up to `n`, which is below 2^31, the last one counts at which no run of the handler is under way. Each arrival
/// up to it is turned into the length that the chip's trace has when it comes. The source runs under these arrivals up to the first
/// of four ends: main has taken `(moment + 1) * nodes` steps, where the nodes are those of the typed tree; main and the handler
/// together have taken twice as many; the run is idle; or a run of the handler would begin that the chip hadn't begun.
///
/// `Undefined` comes where that run meets an undefined step, or where for some moment m up to the one that counts the source
/// run under the arrivals up to m has an undefined step among its first `(m + 1) * nodes` that begins while its trace is no
/// longer than the chip's at m. The first one is reported, by rising m, and the run itself last. Otherwise `Same` has the length
/// of the chip's trace at the moment that counts, and that trace stands at the front of the source's.
pub fn agree(
    alloc: Global,
    program: &Typed,
    image: &Image,
    map: &Map,
    script: &Script,
    n: u32,
) -> Result<Agreed, AllocError>
    requires moments { n < 2 ^ 31 }
    requires objects { length map.now.objects.items ≤ 65536 }
    requires roots { broken_root (program_of program.now) ≡ None }
    requires acyclic { IsAcyclic (graph_of (program_of program.now)) }
    // What the image does on the chip is what the program says.
    requires faithful { IsFaithfulTo (program_of program.now) (content_of map.now) image.now }
    // An instruction reads once and writes once at most, and main ends once.
    ensures few { IfOk result (λ agreed. events_in agreed ≤ 2 * n + 1) }
    ensures exact { IfOk result (λ agreed. (copies : List FnCopy) → Tells (program_of program.now) copies (content_of map.now) (run_of image.now map.now script.now) (last_free (run_of image.now map.now script.now) n) agreed) }
{
    see_numbers(program);
    see_bytes(&script.input);
    let off = read_off(alloc, image, map, script, n)?;
    let found = first_fault(alloc, program, map, script, &off)?;
    match found {
        Some(Fault { kind, line }) => Ok(Agreed::Undefined { kind, line }),
        None => Ok(Agreed::Same { events: off.events }),
    }
}

/// What bytes are by themselves.
fn see_bytes(bytes: &[u8])
    ensures all { All (λ byte. byte < 256) bytes.now }
    ensures each { (k : ℕ) → slice_index bytes.now k < 256 }
{}
