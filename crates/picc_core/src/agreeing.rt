//! Whether the source run beside a run of the chip is defined as far as the two are compared.

ghost use Rattle.std.specs.Prelude.{◌≡◌, ◌<◌, ◌≤◌, ◌+◌, ◌*◌, ◌^◌, List, length, None, IfOk};
ghost use Rattle.c_typed.specs.Chains.{graph_of};
ghost use Rattle.c_typed.specs.Roots.{broken_root};
ghost use Rattle.c_typed.specs.Views.{program_of};
ghost use Rattle.call_graph.specs.Levels.{IsAcyclic};
ghost use Rattle.call_graph.specs.declared.types.FnCopy.{FnCopy};
ghost use Rattle.headline.specs.SourceOf.{IsFaithfulTo};
ghost use Rattle.pic_map.specs.MapView.{content_of};
ghost use Rattle.run_compare.specs.Agreement.{Tells, events_in};
ghost use Rattle.schedule.specs.Off.{last_free};
ghost use Rattle.schedule.specs.Watching.{run_of};

use crate::known::Built;
use pic_world::Script;
use run_compare::Agreed;
use std::alloc::{AllocError, Global};

/// Runs a built program on the chip, from a start at which all that is unknown is 0, and its source beside it, for `n`
/// instructions, which is below 2^31 (`run_compare::agree`).
pub fn agree(alloc: Global, built: &Built, script: &Script, n: u32) -> Result<Agreed, AllocError>
    requires moments { n < 2 ^ 31 }
    requires objects { length built.now.map.objects.items ≤ 65536 }
    requires roots { broken_root (program_of built.now.typed) ≡ None }
    requires acyclic { IsAcyclic (graph_of (program_of built.now.typed)) }
    requires faithful { IsFaithfulTo (program_of built.now.typed) (content_of built.now.map) built.now.image }
    ensures few { IfOk result (λ agreed. events_in agreed ≤ 2 * n + 1) }
    ensures exact { IfOk result (λ agreed. (copies : List FnCopy) → Tells (program_of built.now.typed) copies (content_of built.now.map) (run_of built.now.image built.now.map script.now) (last_free (run_of built.now.image built.now.map script.now) n) agreed) }
{
    run_compare::agree(alloc, &built.typed, &built.image, &built.map, script, n)
}
