//! The blocks of code, in the order in which they stand.

ghost use Rattle.std.specs.Prelude.{◌≡◌, ◌*◌, ◌≤◌, IfOk};
ghost use Rattle.std.specs.List.Sorted.{IsNonDecreasingBy, IsPermutation};
ghost use Rattle.call_graph.specs.Copies.{root_place};
ghost use Rattle.program_code.specs.Order as stated;

use call_graph::{Copies, FnCopy, number_of};
use pic_world::Root;
use std::alloc::{AllocError, Global};
use sym_code::BlockName;

/// The most functions of a program: helpers have numbers from here on.
const MOST_FUNCTIONS: u32 = 0x1000_0000;

/// The copies of the handler's root have ranks from here on, since within a root no number is so high.
const BEHIND_MAIN: u64 = 0x2_0000_0000;

fn root_rank(root: Root) -> u64
    ensures value { result ≡ 0x200000000 * root_place root }
    ensures low { result ≤ 0x200000000 }
{
    match root {
        Root::Main => 0,
        Root::Isr => BEHIND_MAIN,
    }
}

/// Where a copy's block stands, by its rank, of which the lowest stands first: the copies of main's root, within a root the functions in
/// order of definition, and the helpers after them.
fn rank_of(copy: FnCopy) -> u64
    ensures { result ≡ stated.rank copy }
{
    let number = number_of(MOST_FUNCTIONS, copy.function);
    root_rank(copy.root) + number as u64
}

/// The copies in the order of code. The start block stands before them.
pub fn code_order(alloc: Global, copies: &Copies) -> Result<Vec<FnCopy>, AllocError>
    ensures same { IfOk result (λ order. IsPermutation copies.now.list.items order.items) }
    ensures sorted { IfOk result (λ order. IsNonDecreasingBy stated.rank order.items) }
{
    let mut order = copies.list.as_slice().to_vec(alloc)?;
    order.sort_by_key(|copy| rank_of(*copy))?;
    Ok(order)
}

/// The rank of the block of this name. Blocks have names of copies that are there.
pub fn name_rank(copies: &Copies, name: BlockName) -> u64
    ensures { result ≡ stated.name_rank copies.now.list.items name }
{
    match name {
        BlockName::Start => 0,
        BlockName::Copy(number) => match copies.list.get(number as usize) {
            Some(copy) => rank_of(*copy),
            None => 0,
        },
    }
}
