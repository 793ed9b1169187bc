//! Selects by flow facts: code without selects gets those that straight code asks for, and loses those that the facts make needless.

ghost use Rattle.std.specs.Prelude.{◌≡◌, IfOk};
ghost use Rattle.std.specs.List.{All, AllZip};
ghost use Rattle.bank_page.specs.Needless.{NoneIsNeedless, KeepsOthers};
ghost use Rattle.bank_page.specs.Ready.{CanSelect};
ghost use Rattle.bank_page.specs.Selected as kept;
ghost use Rattle.flow_facts.specs.Selects as stated;

use crate::thinning::thinned;
use bank_page::selects_plain;
use pic_map::Placed;
use std::alloc::{AllocError, Global};
use sym_code::SymProgram;

/// The program with the selects that it needs, where this isn't known to be selected already: not by straight code, nor over labels, loops
/// and calls. What is known is RP0, RP1 and, by a block whose page has it too, each of the two bits of the page. IRP is written by the given
/// code itself, and no select of it is put. Main is copy 0, and the handler the copy with this number; block `k` begins at `at[k]`.
pub fn selects(
    alloc: Global,
    s: &SymProgram,
    placed: &Placed,
    handler: Option<u16>,
    at: &[u16],
) -> Result<SymProgram, AllocError>
    // Selects can be put into each block.
    requires ready { All (CanSelect placed.now) s.now.blocks.items }
    // The blocks keep their names,
    ensures names { IfOk result (λ made. kept.names_of made.blocks.items ≡ kept.names_of s.now.blocks.items) }
    // and without the selects their lists.
    ensures bare { IfOk result (λ made. kept.bare_lists made.blocks.items ≡ kept.bare_lists s.now.blocks.items) }
    // So a block has the labels of the given one, no other instruction that writes STATUS or PCLATH, and no other select of IRP.
    ensures others { IfOk result (λ made. AllZip KeepsOthers s.now.blocks.items made.blocks.items) }
    // Between a skip and the instruction behind it stands no select.
    ensures apart { IfOk result (λ made. All kept.IsApart made.blocks.items) }
    // By facts over jumps and calls each access finds its bank selected, and each jump, call and read of a table its page; and at each select the fact is missing.
    ensures facts { IfOk result (λ made. stated.HasFacts placed.now handler at.now made.blocks.items) }
    // Between two selects of a block that set the same to the same value stands a label, a call, a return or a jump that isn't skipped, a select
    // of the same to another value, or another instruction that may change it.
    ensures lean { IfOk result (λ made. All NoneIsNeedless made.blocks.items) }
    // The start block is what `selects_plain` makes of it: its vector stands at fixed addresses.
    ensures start { IfOk result (λ made. AllZip (stated.KeepsStart placed.now) s.now.blocks.items made.blocks.items) }
    // Each block has at most the words that it may become with a select for each access, jump and call that may need one.
    ensures few { IfOk result (λ made. AllZip kept.IsWithin s.now.blocks.items made.blocks.items) }
    // Each block is what is left, by such facts, of what `selects_plain` makes of it.
    ensures exact { IfOk result (λ made. stated.HasSelects placed.now handler at.now s.now.blocks.items made.blocks.items) }
{
    let whole = selects_plain(alloc, s, placed)?;
    let made = thinned(alloc, &whole, handler, at)?;
    Ok(made)
}
