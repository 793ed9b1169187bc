//! The list of the copies, from the levels under the roots.

ghost use Rattle.std.specs.Prelude.{◌≡◌, ℕ, ◌+◌, ◌<◌, ◌≤◌, ◌^◌, [], Some, None, length, get_or, IfOk, OnOk, MatchOption};
ghost use Rattle.std.specs.Option.{ForSome};
ghost use Rattle.call_graph.specs.Adding as stated;
ghost use Rattle.call_graph.specs.Adding.{Adds, AtLevel, UnderRoot, UnderHandler, UnderRoots, MeasuresHandler};
ghost use Rattle.call_graph.specs.Levels.{IsAcyclic};
ghost use Rattle.call_graph.specs.Rows.{rows_of};

use crate::graph::id_of;
use crate::levels::{Levels, is_level, levels_from, longest_by};
use crate::types::FnCopy;
use pic_world::Root;
use std::alloc::{AllocError, Global};

// Adds the copies of a root that have this level.
fn put_level(
    list: &mut Vec<FnCopy>,
    functions: u32,
    root: Root,
    levels: &[Option<u32>],
    level: u8,
) -> Result<(), AllocError>
    requires small { functions ≤ 2 ^ 28 }
    requires size { length levels.now ≡ functions + 16 }
    ensures { OnOk result (Adds functions (AtLevel functions root levels.now level) list.old.items list.new.items) }
{
    for (number, found) in levels.iter().enumerate() {
        if is_level(*found, level as u32) {
            list.push(FnCopy {
                root,
                function: id_of(functions, number as u32),
                level,
            })?;
        }
    }
    Ok(())
}

// Adds the copies of a root, by level.
fn put_root(
    list: &mut Vec<FnCopy>,
    functions: u32,
    root: Root,
    found: &Levels,
) -> Result<(), AllocError>
    requires small { functions ≤ 2 ^ 28 }
    requires size { length found.now.levels.items ≡ functions + 16 }
    requires shallow { found.now.longest ≤ 8 }
    requires most { (g level : ℕ) → get_or found.now.levels.items g None ≡ Some level → level ≤ found.now.longest }
    ensures { OnOk result (Adds functions (UnderRoot functions root found.now.levels.items) list.old.items list.new.items) }
{
    for level in 0..found.longest + 1 {
        put_level(list, functions, root, &found.levels, level as u8)?;
    }
    Ok(())
}

fn put_handler(
    list: &mut Vec<FnCopy>,
    functions: u32,
    handler: &Option<Levels>,
) -> Result<(), AllocError>
    requires small { functions ≤ 2 ^ 28 }
    requires size { ForSome handler.now (λ found. length found.levels.items ≡ functions + 16) }
    requires shallow { ForSome handler.now (λ found. found.longest ≤ 8) }
    requires most { ForSome handler.now (λ found. (g level : ℕ) → get_or found.levels.items g None ≡ Some level → level ≤ found.longest) }
    ensures { OnOk result (Adds functions (UnderHandler functions handler.now) list.old.items list.new.items) }
{
    match handler {
        Some(found) => {
            put_root(list, functions, Root::Isr, found)?;
            Ok(())
        }
        None => Ok(()),
    }
}

/// The copies of both roots, in the order in which their frames are placed.
pub fn list_of(
    alloc: Global,
    functions: u32,
    main: &Levels,
    handler: &Option<Levels>,
) -> Result<Vec<FnCopy>, AllocError>
    requires small { functions ≤ 2 ^ 28 }
    requires size { length main.now.levels.items ≡ functions + 16 }
    requires shallow { main.now.longest ≤ 8 }
    requires most { (g level : ℕ) → get_or main.now.levels.items g None ≡ Some level → level ≤ main.now.longest }
    requires handler_size { ForSome handler.now (λ found. length found.levels.items ≡ functions + 16) }
    requires handler_shallow { ForSome handler.now (λ found. found.longest ≤ 8) }
    requires handler_most { ForSome handler.now (λ found. (g level : ℕ) → get_or found.levels.items g None ≡ Some level → level ≤ found.longest) }
    ensures { IfOk result (λ list. Adds functions (UnderRoots functions main.now handler.now) [] list.items) }
{
    let mut list = Vec::new(alloc);
    put_root(&mut list, functions, Root::Main, main)?;
    put_handler(&mut list, functions, handler)?;
    Ok(list)
}

/// The levels under the handler, where there is one.
pub fn handler_levels(
    alloc: Global,
    rows: &[Vec<u32>],
    handler: Option<u32>,
) -> Result<Option<Levels>, AllocError>
    requires small { length rows.now < 2 ^ 31 }
    requires acyclic { IsAcyclic (rows_of rows.now) }
    requires within { ForSome handler (λ root. root < length rows.now) }
    ensures { IfOk result (λ found. MeasuresHandler (rows_of rows.now) handler found) }
{
    match handler {
        Some(root) => Ok(Some(levels_from(alloc, rows, root)?)),
        None => Ok(None),
    }
}

/// The longest chain of calls from main, and where there is a handler, 1 and the longest chain from it. Each of the
/// functions `deeper` calls one more leaf.
pub fn depth_by(main: &Levels, handler: &Option<Levels>, deeper: &[u32]) -> u32
    requires main { main.now.longest + 1 < 2 ^ 30 }
    requires handler { ForSome handler.now (λ found. found.longest + 1 < 2 ^ 30) }
    ensures { MatchOption handler.now (result ≡ stated.longest_by deeper.now main.now)
        (λ found. result ≡ stated.longest_by deeper.now main.now + 1 + stated.longest_by deeper.now found) }
{
    let outer = longest_by(main, deeper);
    match handler {
        Some(found) => call_depth::depth_of(outer, Some(longest_by(found, deeper))),
        None => call_depth::depth_of(outer, None),
    }
}
