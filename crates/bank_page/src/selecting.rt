//! Selects put into blocks.

ghost use Rattle.std.specs.Prelude.{◌≡◌, ◌≤◌, ◌++◌, ◌∷◌, [], true, List, IfOk};
ghost use Rattle.std.specs.List.{All, AllZip};
ghost use Rattle.bank_page.specs.Known.{learned};
ghost use Rattle.sym_code.specs.Selects.{bare};
ghost use Rattle.bank_page.specs.Ready.{is_ready, are_ready, CanSelect};
ghost use Rattle.bank_page.specs.Selected as kept;
ghost use Rattle.sym_code.specs.Words.{words_in, most_words};
ghost use Rattle.bank_page.specs.Step as stated;
ghost use Rattle.sym_code.specs.WellFormed.{is_well_formed, are_well_formed};

use crate::kinds::{is_label, is_select, is_skip};
use crate::known::Known;
use crate::needs::{Needs, needs_in};
use pic_map::Placed;
use std::alloc::{AllocError, Global};
use sym_code::{BankBit, PageBit, Sym, SymBlock, SymProgram, Target};

/// What is known at a place of a block, and whether it stands after a skip.
#[derive(Clone, Copy)]
pub struct State {
    pub known: Known,
    pub behind: bool,
}

// Puts a select where what it sets isn't known to be so, and answers what then is known.
fn put_select(out: &mut SymBlock, known: Known, select: Sym) -> Result<Known, AllocError>
    requires { is_well_formed select ≡ true }
    ensures put { IfOk result (λ then. (out.new.list.items ≡ out.old.list.items ++ stated.unknown out.old.name known select) × (then ≡ learned out.old.name known select)) }
    ensures name { out.new.name ≡ out.old.name }
{
    if !known.knows(out.name, select) {
        out.put(select)?;
    }
    Ok(known.learned(out.name, select))
}

// The selects of a bank: bits 8 and 7 of the addresses in it (Microchip data sheet DS39582, STATUS).
fn put_bank(out: &mut SymBlock, known: Known, bank: Option<u16>) -> Result<Known, AllocError>
    ensures put { IfOk result (λ then. (out.new.list.items ≡ out.old.list.items ++ stated.missing out.old.name known (stated.bank_selects bank)) × (then ≡ stated.behind_selects out.old.name known (stated.bank_selects bank))) }
    ensures name { out.new.name ≡ out.old.name }
{
    let Some(bank) = bank else {
        return Ok(known);
    };
    let then = put_select(out, known, Sym::SelectBank(BankBit::Rp1, bank / 2 % 2 == 1))?;
    put_select(out, then, Sym::SelectBank(BankBit::Rp0, bank % 2 == 1))
}

// The selects of a page.
fn put_page(out: &mut SymBlock, known: Known, page: Option<Target>) -> Result<Known, AllocError>
    ensures put { IfOk result (λ then. (out.new.list.items ≡ out.old.list.items ++ stated.missing out.old.name known (stated.page_selects page)) × (then ≡ stated.behind_selects out.old.name known (stated.page_selects page))) }
    ensures name { out.new.name ≡ out.old.name }
{
    let Some(target) = page else {
        return Ok(known);
    };
    let then = put_select(out, known, Sym::SelectPage(PageBit::High, target))?;
    put_select(out, then, Sym::SelectPage(PageBit::Low, target))
}

fn put_selects(out: &mut SymBlock, known: Known, needs: Needs) -> Result<Known, AllocError>
    ensures put { IfOk result (λ then. (out.new.list.items ≡ out.old.list.items ++ stated.missing_for out.old.name known needs) × (then ≡ stated.known_with out.old.name known needs)) }
    ensures name { out.new.name ≡ out.old.name }
{
    let then = put_bank(out, known, needs.bank)?;
    put_page(out, then, needs.page)
}

fn passed(known: Known, sym: Sym, behind: bool) -> State
    ensures { result ≡ stated.passed known sym behind }
{
    State {
        known: known.after(sym, behind),
        behind: is_skip(sym),
    }
}

// Puts an instruction, which is the first of a list, and before it what it needs. A select is left out.
fn put_next(
    out: &mut SymBlock,
    placed: &Placed,
    state: State,
    sym: Sym,
    list: &[Sym],
) -> Result<State, AllocError>
    requires fits { is_well_formed sym ≡ true }
    requires ready { is_ready placed.now sym list.now ≡ true }
    ensures next { IfOk result (λ next. stated.Next placed.now out.old.name state sym list.now out.old.list.items out.new.list.items next) }
    ensures name { out.new.name ≡ out.old.name }
{
    if is_select(sym) {
        return Ok(state);
    }
    if state.behind || is_label(sym) {
        out.put(sym)?;
        return Ok(passed(state.known, sym, state.behind));
    }
    let Some(needs) = needs_in(placed, list) else {
        unreachable!()
    };
    let known = put_selects(out, state.known, needs)?;
    out.put(sym)?;
    Ok(passed(known, sym, false))
}

// Puts a list with its selects.
fn put_selected(out: &mut SymBlock, placed: &Placed, list: &[Sym]) -> Result<(), AllocError>
    requires fits { are_well_formed list.now ≡ true }
    requires ready { are_ready placed.now list.now ≡ true }
    requires empty { out.old.list.items ≡ [] }
    ensures name { out.new.name ≡ out.old.name }
    ensures bare { IfOk result (λ _. bare out.new.list.items ≡ bare list.now) }
    ensures apart { IfOk result (λ _. kept.NoSelectBehindSkip out.new.list.items) }
    ensures right { IfOk result (λ _. kept.reaches_all placed.now out.new ≡ true) }
    ensures lean { IfOk result (λ _. kept.is_lean_all out.new ≡ true) }
    ensures front { IfOk result (λ _. kept.KeepsFront list.now out.new.list.items) }
    ensures few { IfOk result (λ _. words_in out.new.list.items ≤ most_words list.now) }
    ensures exact { IfOk result (λ _. out.new.list.items ≡ stated.selected_from placed.now out.old.name kept.front list.now) }
{
    let mut state = State {
        known: Known::nothing(),
        behind: false,
    };
    let mut rest = list;
    while let [first, tail @ ..] = rest {
        state = put_next(out, placed, state, *first, rest)?;
        rest = tail;
    }
    Ok(())
}

fn selected(alloc: Global, block: &SymBlock, placed: &Placed) -> Result<SymBlock, AllocError>
    requires ready { CanSelect placed.now block.now }
    ensures name { IfOk result (λ made. made.name ≡ block.now.name) }
    ensures bare { IfOk result (λ made. bare made.list.items ≡ bare block.now.list.items) }
    ensures apart { IfOk result (λ made. kept.NoSelectBehindSkip made.list.items) }
    ensures right { IfOk result (λ made. kept.reaches_all placed.now made ≡ true) }
    ensures lean { IfOk result (λ made. kept.is_lean_all made ≡ true) }
    ensures front { IfOk result (λ made. kept.KeepsFrontOf block.now made) }
    ensures few { IfOk result (λ made. kept.IsWithin block.now made) }
    ensures exact { IfOk result (λ made. kept.IsExact placed.now block.now made) }
{
    let mut out = SymBlock::new(alloc, block.name);
    put_selected(&mut out, placed, &block.list)?;
    Ok(out)
}

/// Puts a block behind those that were made before it.
pub fn put_made(blocks: &mut Vec<SymBlock>, block: SymBlock) -> Result<(), AllocError>
    ensures { IfOk result (λ _. blocks.new.items ≡ blocks.old.items ++ (block ∷ [])) }
{
    blocks.push(block)?;
    Ok(())
}

/// The program with the selects that it needs: before each access to a byte that isn't in every bank, RP1 and RP0 name its
/// bank, and before each jump and call, bits 4 and 3 of PCLATH name the page of its target; of a read of a table, which is a
/// call, that of its own block. Each select sets one bit, and none sets what is known to be so in straight-line code. Over
/// labels and calls nothing is known here, and behind a read of a table nothing of the page.
/// Between a skip and the instruction after it stands no select: what both need is selected before the skip.
///
/// There is no such place for them where a skip and what stands after it need two banks, where a label or nothing stands after a
/// skip, where a skip itself changes what is selected, and where something that is named has no address. No given block has any
/// of these, so the answer is out of memory only where memory ran out.
pub fn selects_plain(
    alloc: Global,
    s: &SymProgram,
    placed: &Placed,
) -> Result<SymProgram, AllocError>
    // Selects can be put into each block.
    requires ready { All (CanSelect placed.now) s.now.blocks.items }
    // The blocks keep their names,
    ensures names { IfOk result (λ made. kept.names_of made.blocks.items ≡ kept.names_of s.now.blocks.items) }
    // and without the selects their lists.
    ensures bare { IfOk result (λ made. kept.bare_lists made.blocks.items ≡ kept.bare_lists s.now.blocks.items) }
    // Between a skip and the instruction behind it stands no select.
    ensures apart { IfOk result (λ made. All kept.IsApart made.blocks.items) }
    // On every way through a block each access finds its bank selected, and each jump, call and read of a table its page.
    ensures reaches { IfOk result (λ made. All (kept.Reaches placed.now) made.blocks.items) }
    // No select sets what is known to be so already.
    ensures lean { IfOk result (λ made. All kept.IsLean made.blocks.items) }
    // A block that begins with a jump begins with four words: the selects of its page, the jump, and the instruction behind it;
    // what needs no select behind that stands at once.
    ensures front { IfOk result (λ made. AllZip kept.KeepsFrontOf s.now.blocks.items made.blocks.items) }
    // Each block has at most the words that it may become with a select for each access, jump and call that may need one.
    ensures few { IfOk result (λ made. AllZip kept.IsWithin s.now.blocks.items made.blocks.items) }
    // Each block is what its definition makes of the given one: no select stands in it but for a need.
    ensures exact { IfOk result (λ made. AllZip (kept.IsExact placed.now) s.now.blocks.items made.blocks.items) }
{
    let mut blocks = Vec::new(alloc);
    for block in &s.blocks {
        let made = selected(alloc, block, placed)?;
        put_made(&mut blocks, made)?;
    }
    Ok(SymProgram { blocks })
}
