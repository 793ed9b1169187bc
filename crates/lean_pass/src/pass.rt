//! Blocks without the instructions that what is known makes needless.

ghost use Rattle.std.specs.Prelude.{◌≡◌, IfOk};
ghost use Rattle.std.specs.List.{AllZip};
ghost use Rattle.code_place.specs.Layouts.{layout_of};
ghost use Rattle.narrow_code.specs.Links.{is_lent};
ghost use Rattle.lean_pass.specs.Made.{IsLean, HasName};
ghost use Rattle.lean_pass.specs.Views.{lent_by, variables_of};

use crate::admissible::are_admissible;
use crate::hidden::are_clear;
use crate::making::{are_distinct, as_given, blocks_for, made_by};
use crate::rows::Sketch;
use crate::search::search;
use crate::steady::are_steady;
use crate::testing::is_lean;
use pic_map::Placed;
use std::alloc::{AllocError, Global};
use sym_code::SymBlock;

// The given blocks.
#[tactic(auto, using(crate::proofs::Putting::kept_is))]
fn kept(
    alloc: Global,
    blocks: &[SymBlock],
    handler: Option<u16>,
    placed: &Placed,
    variables: &[u64],
    lent: &[bool],
) -> Result<Vec<SymBlock>, AllocError>
    ensures { IfOk result (λ made. IsLean (layout_of placed.now) handler (variables_of variables.now) (is_lent (lent_by lent.now)) blocks.now made.items) }
{
    let made = as_given(alloc, blocks)?;
    Ok(made)
}

/// The blocks of a program without instructions that what is known makes needless, or with operations on numbers or on W in their
/// places. Main is copy 0, and the handler the copy with this number; given is of each copy how many bytes its variables have, and whether
/// pointers may lead to its frame. Where no certificate is found that passes the tests, the blocks stay as they are.
#[tactic(auto, using(crate::proofs::Putting::names_stay))]
pub fn lean(
    alloc: Global,
    blocks: &[SymBlock],
    handler: Option<u16>,
    placed: &Placed,
    variables: &[u64],
    lent: &[bool],
) -> Result<Vec<SymBlock>, AllocError>
    // The blocks are those that a certificate makes of the given ones that passes the tests, or the given ones,
    ensures lean { IfOk result (λ made. IsLean (layout_of placed.now) handler (variables_of variables.now) (is_lent (lent_by lent.now)) blocks.now made.items) }
    // and keep their names.
    ensures names { IfOk result (λ made. AllZip HasName blocks.now made.items) }
{
    let made = leaned(alloc, blocks, handler, placed, variables, lent)?;
    Ok(made)
}

fn leaned(
    alloc: Global,
    blocks: &[SymBlock],
    handler: Option<u16>,
    placed: &Placed,
    variables: &[u64],
    lent: &[bool],
) -> Result<Vec<SymBlock>, AllocError>
    ensures { IfOk result (λ made. IsLean (layout_of placed.now) handler (variables_of variables.now) (is_lent (lent_by lent.now)) blocks.now made.items) }
{
    let Some(plans) = search(alloc, blocks, handler, placed, variables, lent)? else {
        return kept(alloc, blocks, handler, placed, variables, lent);
    };
    let Some(seen) = blocks_for(alloc, blocks, plans.blocks)? else {
        return kept(alloc, blocks, handler, placed, variables, lent);
    };
    if !are_distinct(&seen) {
        return kept(alloc, blocks, handler, placed, variables, lent);
    }
    let sketch = Sketch {
        blocks: seen,
        handler,
        rest: plans.rest,
        hidden: plans.hidden,
    };
    if !are_steady(&sketch.blocks) {
        return kept(alloc, blocks, handler, placed, variables, lent);
    }
    if !are_admissible(variables, &sketch.blocks) {
        return kept(alloc, blocks, handler, placed, variables, lent);
    }
    if !are_clear(&sketch.hidden, placed, lent) {
        return kept(alloc, blocks, handler, placed, variables, lent);
    }
    if !is_lean(alloc, &sketch, placed)? {
        return kept(alloc, blocks, handler, placed, variables, lent);
    }
    made_by(alloc, &sketch, placed, variables, lent, blocks)
}
