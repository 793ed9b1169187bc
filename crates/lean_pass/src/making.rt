//! The code that a certificate makes.

ghost use Rattle.std.specs.Prelude.{ℕ, ◌≡◌, ◌∷◌, ◌++◌, [], true, false, not, ◌&&◌, List, Option, Some, None, IfOk, IfSome, OnOk, MatchOption};
ghost use Rattle.std.specs.List.{All, AllZip};
ghost use Rattle.sym_code.specs.WellFormed.{is_well_formed, are_well_formed};
ghost use Rattle.lean_code.specs.Rows as certified;
ghost use Rattle.lean_code.specs.Checked as listed;
ghost use Rattle.lean_code.specs.Admissible.{are_admissible};
ghost use Rattle.lean_code.specs.Clear.{IsClear};
ghost use Rattle.lean_code.specs.Steady.{are_steady};
ghost use Rattle.code_place.specs.Layouts.{layout_of};
ghost use Rattle.narrow_code.specs.Links.{is_lent};
ghost use Rattle.lean_pass.specs.Made as stated;
ghost use Rattle.lean_pass.specs.Views.{act_of, name_of, row_of, rows_of, block_of, blocks_of, sketch_of, hidden_by, lent_by, variables_of};

use crate::copies::operand_before;
use crate::owners::no_block;
use crate::rows::{Act, FlagName, LeanBlock, Row, Sketch};
use crate::search::{BlockPlan, Plan};
use crate::shown::bit_of;
use crate::walk::{block_named, first_row, is_label, same_name};
use pic_map::Placed;
use std::alloc::{AllocError, Global};
use sym_code::{BitOperation, BlockName, Into, Literal, Operand, Register, Sym, SymBlock};

fn narrowed(sym: Sym) -> Sym
    ensures { result ≡ certified.narrowed sym }
{
    match sym {
        Sym::File { op, file, .. } => Sym::File {
            op,
            file,
            into: Into::W,
        },
        _ => sym,
    }
}

fn cleared(sym: Sym) -> Sym
    ensures { result ≡ certified.cleared sym }
{
    match sym {
        Sym::Movwf(file) => Sym::Clrf(file),
        _ => sym,
    }
}

fn reads_before(before: u16, sym: Sym) -> Sym
    ensures { result ≡ certified.reads_before before sym }
{
    match sym {
        Sym::File { op, file, .. } => Sym::File {
            op,
            file: operand_before(before, file),
            into: Into::W,
        },
        Sym::Bit { op, file, bit } => Sym::Bit {
            op,
            file: operand_before(before, file),
            bit,
        },
        _ => sym,
    }
}

// The opposite test.
fn turned_by(turned: bool, op: BitOperation) -> BitOperation
    ensures { result ≡ certified.turned_by turned op }
{
    if turned {
        match op {
            BitOperation::Btfsc => BitOperation::Btfss,
            BitOperation::Btfss => BitOperation::Btfsc,
            BitOperation::Bcf => op,
            BitOperation::Bsf => op,
        }
    } else {
        op
    }
}

fn tests_flag(flag: FlagName, turned: bool, sym: Sym) -> Sym
    ensures { result ≡ certified.tests_flag (name_of flag) turned sym }
{
    match sym {
        Sym::Bit { op, .. } => Sym::Bit {
            op: turned_by(turned, op),
            file: Operand::Register(Register::Status),
            bit: bit_of(flag),
        },
        _ => sym,
    }
}

// What stands in an instruction's place in the code that is made. A label always stays.
fn put_of(sym: Sym, act: Act) -> Option<Sym>
    ensures { result ≡ stated.put_of sym act }
{
    if is_label(sym) {
        return Some(sym);
    }
    match act {
        Act::Keeps => Some(sym),
        Act::Drops => None,
        Act::Puts { op, value } => Some(Sym::Literal {
            op,
            value: Literal::Number(value),
        }),
        Act::Narrows => Some(narrowed(sym)),
        Act::Clears => Some(cleared(sym)),
        Act::Reads { before } => Some(reads_before(before, sym)),
        Act::Tests { flag, turned } => Some(tests_flag(flag, turned, sym)),
    }
}

// Puts what is made of a row.
#[tactic(auto, using(crate::proofs::Putting::put_formed, crate::proofs::Putting::put_some, crate::proofs::Putting::put_none))]
fn put_row(out: &mut SymBlock, row: &Row) -> Result<(), AllocError>
    requires { is_well_formed row.now.sym ≡ true }
    ensures put { IfOk result (λ _. (rest : List certified.Row) → out.new.list.items ++ certified.puts rest ≡ out.old.list.items ++ certified.puts (listed.row_in (row_of row.now) ∷ rest)) }
    ensures name { out.new.name ≡ out.old.name }
{
    match put_of(row.sym, row.act) {
        Some(sym) => out.put(sym),
        None => Ok(()),
    }
}

// Puts what is made of a list.
#[tactic(auto, using(crate::proofs::Putting::row_formed, crate::proofs::Putting::rows_formed, crate::proofs::Putting::puts_begin, crate::proofs::Putting::puts_on, crate::proofs::Putting::puts_end))]
fn put_rows(out: &mut SymBlock, rows: &[Row]) -> Result<(), AllocError>
    requires fits { are_well_formed (certified.olds (listed.rows_in (rows_of rows.now))) ≡ true }
    requires empty { out.old.list.items ≡ [] }
    ensures name { out.new.name ≡ out.old.name }
    ensures puts { IfOk result (λ _. out.new.list.items ≡ certified.puts (listed.rows_in (rows_of rows.now))) }
{
    let mut left = rows;
    while let Some((row, rest)) = first_row(left) {
        put_row(out, row)?;
        left = rest;
    }
    Ok(())
}

fn put_in(rows: &mut Vec<Row>, row: Row) -> Result<(), AllocError>
    ensures { IfOk result (λ _. rows.new.items ≡ rows.old.items ++ (row ∷ [])) }
{
    rows.push(row)?;
    Ok(())
}

fn put_seen(blocks: &mut Vec<LeanBlock>, block: LeanBlock) -> Result<(), AllocError>
    ensures { IfOk result (λ _. blocks.new.items ≡ blocks.old.items ++ (block ∷ [])) }
{
    blocks.push(block)?;
    Ok(())
}

fn put_made(blocks: &mut Vec<SymBlock>, block: SymBlock) -> Result<(), AllocError>
    ensures { IfOk result (λ _. blocks.new.items ≡ blocks.old.items ++ (block ∷ [])) }
{
    blocks.push(block)?;
    Ok(())
}

fn plan_for(plans: &mut Vec<Plan>) -> Plan {
    match plans.pop() {
        Some(plan) => plan,
        None => Plan {
            act: Act::Keeps,
            note: None,
        },
    }
}

fn row_for(sym: Sym, plan: Plan) -> Row
    ensures { result.sym ≡ sym }
{
    Row {
        sym,
        act: plan.act,
        note: plan.note,
    }
}

#[tactic(auto, using(crate::proofs::Putting::olds_begin, crate::proofs::Putting::olds_on, crate::proofs::Putting::olds_end))]
fn rows_for(alloc: Global, list: &[Sym], mut plans: Vec<Plan>) -> Result<Vec<Row>, AllocError>
    ensures { IfOk result (λ rows. certified.olds (listed.rows_in (rows_of rows.items)) ≡ list.now) }
{
    let mut rows = Vec::new(alloc);
    let mut left = list;
    while let Some((sym, rest)) = first_of(left) {
        let plan = plan_for(&mut plans);
        put_in(&mut rows, row_for(sym, plan))?;
        left = rest;
    }
    Ok(rows)
}

// ---- the certificate of a program

fn block_for(alloc: Global, given: &SymBlock, plan: BlockPlan) -> Result<LeanBlock, AllocError>
    ensures { IfOk result (λ block. stated.IsSeen given.now block) }
{
    Ok(LeanBlock {
        name: given.name,
        rows: rows_for(alloc, &given.list, plan.plans)?,
        inside: plan.inside,
        ends: plan.ends,
        outer: plan.outer,
    })
}

/// The blocks of a certificate. There is no answer where a plan is missing.
#[tactic(auto, using(crate::proofs::Putting::seen_none, crate::proofs::Putting::seen_more, crate::proofs::Putting::seen_all))]
pub fn blocks_for(
    alloc: Global,
    given: &[SymBlock],
    mut plans: Vec<BlockPlan>,
) -> Result<Option<Vec<LeanBlock>>, AllocError>
    ensures { IfOk result (λ found. IfSome found (λ blocks. AllZip stated.IsSeen given.now blocks.items)) }
{
    let mut blocks = Vec::new(alloc);
    for block in given {
        let Some(plan) = plans.pop() else {
            return Ok(None);
        };
        let seen = block_for(alloc, block, plan)?;
        put_seen(&mut blocks, seen)?;
    }
    Ok(Some(blocks))
}

fn is_named(blocks: &[LeanBlock], name: BlockName) -> bool
    ensures { result ≡ stated.is_named blocks.now name }
{
    match blocks {
        [] => false,
        [block, rest @ ..] => same_name(name, block.name) || is_named(rest, name),
    }
}

/// Whether no two blocks have one name.
pub fn are_distinct(blocks: &[LeanBlock]) -> bool
    ensures { result ≡ stated.are_distinct blocks.now }
{
    match blocks {
        [] => true,
        [block, rest @ ..] => !is_named(rest, block.name) && are_distinct(rest),
    }
}

// ---- what is made of a program

#[tactic(auto, using(crate::proofs::Putting::list_formed, crate::proofs::Putting::made_is))]
fn made_block(
    alloc: Global,
    sketch: &Sketch,
    none: &LeanBlock,
    placed: &Placed,
    given: &SymBlock,
) -> Result<SymBlock, AllocError>
    requires none { block_of none.now ≡ listed.no_block }
    requires serves { stated.Serves (blocks_of sketch.now.blocks.items) given.now }
    ensures { IfOk result (λ made. listed.IsBlockOf (sketch_of (layout_of placed.now) sketch.now) given.now made) }
{
    let found = block_named(&sketch.blocks, none, given.name);
    let mut out = SymBlock::new(alloc, given.name);
    put_rows(&mut out, &found.rows)?;
    Ok(out)
}

#[tactic(auto, using(crate::proofs::Putting::serves_at, crate::proofs::Putting::zip_none, crate::proofs::Putting::zip_more, crate::proofs::Putting::zip_all))]
fn made_blocks(
    alloc: Global,
    sketch: &Sketch,
    none: &LeanBlock,
    placed: &Placed,
    given: &[SymBlock],
) -> Result<Vec<SymBlock>, AllocError>
    requires none { block_of none.now ≡ listed.no_block }
    requires serves { All (stated.Serves (blocks_of sketch.now.blocks.items)) given.now }
    ensures { IfOk result (λ made. AllZip (listed.IsBlockOf (sketch_of (layout_of placed.now) sketch.now)) given.now made.items) }
{
    let mut made = Vec::new(alloc);
    for block in given {
        let one = made_block(alloc, sketch, none, placed, block)?;
        put_made(&mut made, one)?;
    }
    Ok(made)
}

/// What a certificate makes that passes the test.
#[tactic(auto, using(crate::proofs::Putting::all_serve, crate::proofs::Putting::is_made))]
pub fn made_by(
    alloc: Global,
    sketch: &Sketch,
    placed: &Placed,
    variables: &[u64],
    lent: &[bool],
    given: &[SymBlock],
) -> Result<Vec<SymBlock>, AllocError>
    requires seen { AllZip stated.IsSeen given.now sketch.now.blocks.items }
    requires distinct { stated.are_distinct sketch.now.blocks.items ≡ true }
    requires tested { listed.is_lean (sketch_of (layout_of placed.now) sketch.now) ≡ true }
    requires steady { are_steady (blocks_of sketch.now.blocks.items) ≡ true }
    requires admissible { are_admissible (variables_of variables.now) (blocks_of sketch.now.blocks.items) ≡ true }
    requires clear { IsClear (hidden_by sketch.now.hidden) (layout_of placed.now) (is_lent (lent_by lent.now)) }
    ensures { IfOk result (λ made. stated.IsLean (layout_of placed.now) sketch.now.handler (variables_of variables.now) (is_lent (lent_by lent.now)) given.now made.items) }
{
    let none = no_block(alloc);
    let made = made_blocks(alloc, sketch, &none, placed, given)?;
    Ok(made)
}

// ---- what is made where there is no certificate

fn copied(alloc: Global, given: &SymBlock) -> Result<SymBlock, AllocError>
    ensures { IfOk result (λ made. stated.IsAsGiven given.now made) }
{
    let mut out = SymBlock::new(alloc, given.name);
    put_whole(&mut out, &given.list)?;
    Ok(out)
}

// Puts a list as it is.
#[tactic(auto, using(crate::proofs::Putting::whole_on, crate::proofs::Putting::whole_end, crate::proofs::Putting::first_formed, crate::proofs::Putting::rest_formed))]
fn put_whole(out: &mut SymBlock, list: &[Sym]) -> Result<(), AllocError>
    requires fits { are_well_formed list.now ≡ true }
    requires empty { out.old.list.items ≡ [] }
    ensures name { out.new.name ≡ out.old.name }
    ensures whole { IfOk result (λ _. out.new.list.items ≡ list.now) }
{
    let mut left = list;
    while let Some((sym, rest)) = first_of(left) {
        out.put(sym)?;
        left = rest;
    }
    Ok(())
}

fn first_of(list: &[Sym]) -> Option<(Sym, &[Sym])>
    ensures { MatchOption result (list.now ≡ []) (λ x. list.now ≡ x.0 ∷ x.1.now) }
{
    match list {
        [] => None,
        [first, rest @ ..] => Some((*first, rest)),
    }
}

/// The given blocks.
#[tactic(auto, using(crate::proofs::Putting::same_none, crate::proofs::Putting::same_more, crate::proofs::Putting::same_all))]
pub fn as_given(alloc: Global, given: &[SymBlock]) -> Result<Vec<SymBlock>, AllocError>
    ensures { IfOk result (λ made. AllZip stated.IsAsGiven given.now made.items) }
{
    let mut made = Vec::new(alloc);
    for block in given {
        let one = copied(alloc, block)?;
        put_made(&mut made, one)?;
    }
    Ok(made)
}
