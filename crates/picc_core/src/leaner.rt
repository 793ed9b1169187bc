//! From the joined blocks of a program to those that are given addresses: leaner, and with selects.

ghost use Rattle.std.specs.Prelude.{◌≡◌, ◌≤◌, List, length, map, IfOk, IfSome};
ghost use Rattle.std.specs.List.{All};
ghost use Rattle.c_typed.specs.Nodes.{capped};
ghost use Rattle.c_typed.specs.Views.{program_of};
ghost use Rattle.call_graph.specs.declared.types.FnCopy.{FnCopy as Copied};
ghost use Rattle.bank_page.specs.Ready.{CanSelect};
ghost use Rattle.flow_facts.specs.Selects.{HasSelects};
ghost use Rattle.isr_save.specs.Start.{HasNumberedBytes};
ghost use Rattle.program_code.specs.Joined.{IsJoined};
ghost use Rattle.program_code.specs.Passed.{IsByteCode};
ghost use Rattle.ram_place.specs.Sizes as sizes;
ghost use Rattle.picc_core.specs.Coded.{IsLeanOf, IsLeanTo, IsSymbolic};
ghost use Rattle.picc_core.specs.Founded.{IsFounded};
ghost use Rattle.sym_code.specs.declared.code.SymBlock.{SymBlock as Block};

use crate::joining::{handler_of, joined};
use crate::stated::are_stated;
use bank_page::{can_select, selects_plain};
use c_check::Typed;
use call_graph::{Copies, FnCopy};
use core_code::CoreProgram;
use flow_facts::selects;
use lean_pass::lean;
use narrow_pass::{lent_in, narrow, test_low_bytes};
use pic_map::Placed;
use ram_place::variable_bytes;
use std::alloc::{AllocError, Global};
use sym_code::SymProgram;

/// What is left out of code.
#[derive(Clone, Copy)]
pub(crate) enum Saving {
    /// Upper bytes of operators and instructions on temporary bytes that nothing needs, and selects by what flow facts tell, over jumps, loops and calls.
    Lean,
    /// Selects by what straight code tells alone.
    Plain,
}

// The program with its selects.
#[tactic(auto, using(flow_facts::proofs::Whole::whole_selects))]
fn selected(
    alloc: Global,
    program: &SymProgram,
    placed: &Placed,
    handler: Option<u16>,
    at: &[u16],
    saving: Saving,
) -> Result<SymProgram, AllocError>
    requires { All (CanSelect placed.now) program.now.blocks.items }
    ensures { IfOk result (λ made. HasSelects placed.now handler at.now program.now.blocks.items made.blocks.items) }
{
    if let Saving::Lean = saving {
        let made = selects(alloc, program, placed, handler, at)?;
        return Ok(made);
    }
    let made = selects_plain(alloc, program, placed)?;
    Ok(made)
}

// How many bytes the variables of each copy have.
fn variables_of(alloc: Global, typed: &Typed, copies: &[FnCopy]) -> Result<Vec<u64>, AllocError>
    ensures { IfOk result (λ list. list.items ≡ map (λ (copy : Copied). capped (sizes.variable_bytes (program_of typed.now) copy.function)) copies.now) }
{
    let mut list = Vec::new(alloc);
    for copy in copies {
        list.push(variable_bytes(typed, copy.function))?;
    }
    Ok(list)
}

// The program without the instructions that nothing needs, with selects, where these can be put and each block has at most its stated words.
fn leaner(
    alloc: Global,
    given: &SymProgram,
    core: &CoreProgram,
    typed: &Typed,
    copies: &Copies,
    placed: &Placed,
    at: &[u16],
) -> Result<Option<SymProgram>, AllocError>
    requires founded { IsFounded typed.now copies.now.list.items placed.now at.now }
    ensures { IfOk result (λ found. IfSome found (λ made. IsLeanTo (program_of typed.now) core.now copies.now.list.items placed.now at.now given.now.blocks.items made.blocks.items)) }
{
    let variables = variables_of(alloc, typed, &copies.list)?;
    let handler = handler_of(copies);
    let Some(lent) = lent_in(alloc, &core.bodies)? else {
        return Ok(None);
    };
    let blocks = lean(alloc, &given.blocks, handler, placed, &variables, &lent)?;
    if !can_select(placed, &blocks) {
        return Ok(None);
    }
    let program = SymProgram { blocks };
    let made = selected(alloc, &program, placed, handler, at, Saving::Lean)?;
    if are_stated(typed, copies, &made.blocks) {
        Ok(Some(made))
    } else {
        Ok(None)
    }
}

// The blocks of some byte code, without the instructions that nothing needs, where that is had.
fn leaner_of(
    alloc: Global,
    core: &CoreProgram,
    typed: &Typed,
    copies: &Copies,
    placed: &Placed,
    at: &[u16],
) -> Result<Option<SymProgram>, AllocError>
    requires founded { IsFounded typed.now copies.now.list.items placed.now at.now }
    requires few { length core.now.statics.items ≤ 65536 }
    requires short { All HasNumberedBytes core.now.statics.items }
    ensures { IfOk result (λ found. IfSome found (λ made. IsLeanOf (program_of typed.now) core.now copies.now.list.items placed.now at.now made.blocks.items)) }
{
    let given = joined(alloc, core, copies)?;
    let found = leaner(alloc, &given, core, typed, copies, placed, at)?;
    Ok(found)
}

/// Byte code whose operators are done on low bytes, where nothing needs the others, and whose comparisons and conditions go by low bytes,
/// where these tell as much.
pub(crate) fn on_low_bytes(alloc: Global, core: &CoreProgram) -> Result<CoreProgram, AllocError>
    ensures low { IfOk result (λ made. IsByteCode core.now made) }
{
    let narrowed = narrow(alloc, core)?;
    let tested = test_low_bytes(alloc, &narrowed)?;
    Ok(tested)
}

// Such blocks of byte code that goes by low bytes.
fn narrower(
    alloc: Global,
    core: &CoreProgram,
    typed: &Typed,
    copies: &Copies,
    placed: &Placed,
    at: &[u16],
) -> Result<Option<SymProgram>, AllocError>
    requires founded { IsFounded typed.now copies.now.list.items placed.now at.now }
    requires few { length core.now.statics.items ≤ 65536 }
    requires short { All HasNumberedBytes core.now.statics.items }
    ensures { IfOk result (λ found. IfSome found (λ made. IsSymbolic (program_of typed.now) core.now copies.now.list.items placed.now at.now made.blocks.items)) }
{
    let low = on_low_bytes(alloc, core)?;
    let found = leaner_of(alloc, &low, typed, copies, placed, at)?;
    Ok(found)
}

// The leanest blocks: of byte code with operators on low bytes, or of byte code as it is.
fn leanest(
    alloc: Global,
    core: &CoreProgram,
    typed: &Typed,
    copies: &Copies,
    placed: &Placed,
    at: &[u16],
) -> Result<Option<SymProgram>, AllocError>
    requires founded { IsFounded typed.now copies.now.list.items placed.now at.now }
    requires few { length core.now.statics.items ≤ 65536 }
    requires short { All HasNumberedBytes core.now.statics.items }
    ensures { IfOk result (λ found. IfSome found (λ made. IsSymbolic (program_of typed.now) core.now copies.now.list.items placed.now at.now made.blocks.items)) }
{
    if let Some(made) = narrower(alloc, core, typed, copies, placed, at)? {
        return Ok(Some(made));
    }
    let found = leaner_of(alloc, core, typed, copies, placed, at)?;
    Ok(found)
}

/// The symbolic code of a program, each copy's block with the selects that it needs.
pub(crate) fn symbolic_by(
    alloc: Global,
    typed: &Typed,
    core: &CoreProgram,
    copies: &Copies,
    placed: &Placed,
    at: &[u16],
    saving: Saving,
) -> Result<SymProgram, AllocError>
    requires founded { IsFounded typed.now copies.now.list.items placed.now at.now }
    requires few { length core.now.statics.items ≤ 65536 }
    requires short { All HasNumberedBytes core.now.statics.items }
    // Selects can be put into the blocks that are joined.
    requires ready { (given : List Block) → IsJoined core.now copies.now.list.items given → All (CanSelect placed.now) given }
    ensures { IfOk result (λ made. IsSymbolic (program_of typed.now) core.now copies.now.list.items placed.now at.now made.blocks.items) }
{
    if let Saving::Lean = saving {
        if let Some(made) = leanest(alloc, core, typed, copies, placed, at)? {
            return Ok(made);
        }
    }
    let given = joined(alloc, core, copies)?;
    let made = selected(alloc, &given, placed, handler_of(copies), at, saving)?;
    Ok(made)
}
