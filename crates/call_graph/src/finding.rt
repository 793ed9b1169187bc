//! The copies of functions.

ghost use Rattle.std.specs.Prelude.{◌≡◌, ◌≤◌, ◌^◌, length, Some, None, IfOk};
ghost use Rattle.c_typed.specs.Chains.{graph_of};
ghost use Rattle.c_typed.specs.Roots.{broken_root};
ghost use Rattle.c_typed.specs.Views.{program_of};
ghost use Rattle.call_graph.specs.Answers.{TellsRoots, TellsRecursion, TellsDepth, TellsDepthBy};
ghost use Rattle.call_graph.specs.Copies.{AreCopies, root_of, name_at};
ghost use Rattle.call_graph.specs.Levels.{IsAcyclic};
ghost use Rattle.call_graph.specs.Rows.{rows_of};
ghost use Rattle.pic_world.specs.declared.Root.TheVariants as entry;

use crate::graph::graph_of;
use crate::levels::{levels_from, recursive};
use crate::listing::{depth_by, handler_levels, list_of};
use crate::roots::{Roots, find_roots};
use crate::types::{Copies, GraphError};
use c_typed::Typed;
use std::alloc::{AllocError, Global};

/// The deepest chain of calls that the chip's return stack of eight words has room for.
pub const DEEPEST: u32 = 8;

fn name_of(alloc: Global, p: &Typed, number: u32) -> Result<Vec<u8>, AllocError>
    ensures { IfOk result (λ name. name.items ≡ name_at (program_of p.now) number) }
{
    let at = number as usize;
    if at >= p.functions.len() {
        return Ok(Vec::new(alloc));
    }
    let name = Vec::from_slice(alloc, &p.functions[at].name)?;
    Ok(name)
}

// The copies under the roots, where no rule on them is broken and nothing reaches itself.
fn copies_under(
    alloc: Global,
    p: &Typed,
    rows: &[Vec<u32>],
    roots: Roots,
    deeper: &[u32],
) -> Result<Copies, GraphError>
    requires small { length p.now.functions.items ≤ 2 ^ 28 }
    requires graph { rows_of rows.now ≡ graph_of (program_of p.now) }
    requires sound { broken_root (program_of p.now) ≡ None }
    requires acyclic { IsAcyclic (rows_of rows.now) }
    requires main { root_of (program_of p.now) entry.Main ≡ Some roots.main }
    requires handler { root_of (program_of p.now) entry.Isr ≡ roots.handler }
    ensures roots { TellsRoots result (broken_root (program_of p.now)) }
    ensures recursion { TellsRecursion (program_of p.now) result }
    ensures depth { TellsDepthBy (program_of p.now) deeper.now result }
    ensures list { IfOk result (λ copies. AreCopies (program_of p.now) copies.list.items) }
{
    let main = levels_from(alloc, rows, roots.main)?;
    let handler = handler_levels(alloc, rows, roots.handler)?;
    let depth = depth_by(&main, &handler, deeper);
    if depth > DEEPEST {
        return Err(GraphError::Depth { depth });
    }
    let list = list_of(alloc, p.functions.len() as u32, &main, &handler)?;
    Ok(Copies {
        list,
        depth: depth as u8,
    })
}

/// The copies of a program, in the order in which their frames are placed, or the first reason why it has
/// none: a broken rule on the roots, then a recursion, whether a root reaches it or not, then a depth over
/// the eight words of the return stack.
pub fn copies(alloc: Global, p: &Typed) -> Result<Copies, GraphError>
    ensures roots { TellsRoots result (broken_root (program_of p.now)) }
    ensures recursion { TellsRecursion (program_of p.now) result }
    ensures depth { TellsDepth (program_of p.now) result }
    ensures list { IfOk result (λ copies. AreCopies (program_of p.now) copies.list.items) }
{
    copies_deeper(alloc, p, &[])
}

/// The same where each of the functions `deeper` counts as calling one more leaf, as one does whose block calls code
/// that isn't a function's. The copies and their levels are those of the program's own calls; only the depth counts the leaf.
#[tactic(auto, using(c_typed::proofs::Facts::few_functions))]
pub fn copies_deeper(alloc: Global, p: &Typed, deeper: &[u32]) -> Result<Copies, GraphError>
    ensures roots { TellsRoots result (broken_root (program_of p.now)) }
    ensures recursion { TellsRecursion (program_of p.now) result }
    ensures depth { TellsDepthBy (program_of p.now) deeper.now result }
    ensures list { IfOk result (λ copies. AreCopies (program_of p.now) copies.list.items) }
{
    let rows = graph_of(alloc, p)?;
    let graph = rows.as_slice();
    let found = match find_roots(p, graph) {
        Ok(found) => found,
        Err(kind) => return Err(GraphError::Roots { kind }),
    };
    match recursive(alloc, graph)? {
        Some(number) => {
            let function = name_of(alloc, p, number)?;
            Err(GraphError::Recursion { function })
        }
        None => copies_under(alloc, p, graph, found, deeper),
    }
}
