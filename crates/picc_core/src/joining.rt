//! The blocks of a program, joined to its symbolic code.

ghost use Rattle.std.specs.Prelude.{◌≡◌, ◌<◌, ◌≤◌, ◌++◌, List, length, IfOk, OnOk};
ghost use Rattle.std.specs.List.{All};
ghost use Rattle.std.specs.List.Sorted.{IsNonDecreasingBy, IsPermutation};
ghost use Rattle.call_graph.specs.Numbers.{handler_at};
ghost use Rattle.isr_save.specs.Start.{HasNumberedBytes};
ghost use Rattle.select_wide.specs.Blocks.{views_of};
ghost use Rattle.program_code.specs.Joined.{helper_at, helpers_from, IsJoined};
ghost use Rattle.program_code.specs.Order.{block_rank};

use crate::code_order::name_rank;
use call_graph::{Copies, FnCopy, FnId};
use core_code::CoreProgram;
use isr_save::start_block;
use math_helpers::helper;
use select_wide::{handler_at, select};
use std::alloc::{AllocError, Global};
use sym_code::{SymBlock, SymProgram};

// The number of the handler's copy as blocks have it.
#[tactic(auto, using(crate::proofs::Handed::small_number))]
pub(crate) fn handler_of(copies: &Copies) -> Option<u16>
    requires { length copies.now.list.items ≤ 65536 }
    ensures { result ≡ handler_at copies.now.list.items }
{
    match handler_at(&copies.list) {
        Some(number) => Some(number as u16),
        None => None,
    }
}

// One more block, where the copy with this number is a helper's.
#[tactic(auto, using(crate::proofs::BlockViews::helper_put, crate::proofs::BlockViews::none_put))]
fn put_helper(
    alloc: Global,
    copy: FnCopy,
    number: usize,
    blocks: &mut Vec<SymBlock>,
) -> Result<(), AllocError>
    requires { number < 65536 }
    ensures { OnOk result (views_of blocks.new.items ≡ views_of blocks.old.items ++ helper_at number copy) }
{
    if let FnId::Helper(routine) = copy.function {
        blocks.push(helper(alloc, routine, copy.root, number as u16)?)?;
    }
    Ok(())
}

// The blocks of the helpers behind some others, in the order of their copies.
fn put_helpers(alloc: Global, list: &[FnCopy], blocks: &mut Vec<SymBlock>) -> Result<(), AllocError>
    requires { length list.now ≤ 65536 }
    ensures { OnOk result (views_of blocks.new.items ≡ views_of blocks.old.items ++ helpers_from 0 list.now) }
{
    for (number, copy) in list.iter().enumerate() {
        put_helper(alloc, *copy, number, blocks)?;
    }
    Ok(())
}

// The blocks in the order of code.
fn in_code_order(mut blocks: Vec<SymBlock>, copies: &Copies) -> Result<Vec<SymBlock>, AllocError>
    ensures same { IfOk result (λ order. IsPermutation blocks.items order.items) }
    ensures sorted { IfOk result (λ order. IsNonDecreasingBy (block_rank copies.now.list.items) order.items) }
{
    blocks.sort_by_key(|block| name_rank(copies, block.name))?;
    Ok(blocks)
}

/// The symbolic code of a program without selects: the start block, and after it the blocks of the copies in the order of code.
pub(crate) fn joined(
    alloc: Global,
    core: &CoreProgram,
    copies: &Copies,
) -> Result<SymProgram, AllocError>
    // Names have room for the numbers of copies, of static objects and of their bytes.
    requires copies { length copies.now.list.items ≤ 65536 }
    requires few { length core.now.statics.items ≤ 65536 }
    requires short { All HasNumberedBytes core.now.statics.items }
    // Each copy has its block, a function the one that is selected for its body and a helper its routine, none is lost, and they stand in
    // the order of code.
    ensures whole { IfOk result (λ program. IsJoined core.now copies.now.list.items program.blocks.items) }
{
    let handler = handler_of(copies);
    let mut blocks = select(alloc, core, copies)?.blocks;
    put_helpers(alloc, &copies.list, &mut blocks)?;
    let mut order = in_code_order(blocks, copies)?;
    order.insert(0, start_block(alloc, core, handler)?)?;
    Ok(SymProgram { blocks: order })
}
