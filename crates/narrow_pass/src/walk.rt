//! The test of a proposal, and the code that it makes: one walk along a body.

ghost use Rattle.std.specs.Prelude.{◌≡◌, true, [], length, take, IfOk, IfSome};
ghost use Rattle.core_code.specs.Tree.{Many, If, Loop, trees_of};
ghost use Rattle.core_code.specs.View.{tree_of, trees_in};
ghost use Rattle.narrow_code.specs.Plans.{choice_by, low_size};
ghost use Rattle.narrow_pass.specs.Narrowed.{lent_by};
ghost use Rattle.narrow_pass.specs.Ways.{IsMade, AreMade, marks_of, turns_of, way_in};

use crate::hints::Hints;
use crate::marks::{Mark, all_below, copied, met};
use crate::operations::{
    Way, lends, low_op, may_change, may_cut, may_go, put_cut, reads_same, same_operation, way_of,
    write,
};
use crate::turns::Turns;
use c_ints::IntTy;
use core_code::{Byte, Core};
use std::alloc::{AllocError, Global};

// An operation without parts that stays.
#[tactic(auto, using(crate::proofs::Making::stays_made))]
fn stays(
    c: &Core,
    alone: bool,
    lent: &[bool],
    copy: u16,
    turns: &Turns,
    here: &mut Vec<Mark>,
) -> Option<Core>
    ensures made { IfSome result (λ made. IsMade alone (lent_by lent.now) copy (turns_of turns.now.list.items) (marks_of here.old.items) (tree_of c.now) (tree_of made) (marks_of here.new.items)) }
{
    if !may_go(turns, here, c) {
        return None;
    }
    if !lends(lent, c) {
        return None;
    }
    if !reads_same(lent, copy, here, c) {
        return None;
    }
    let made = same_operation(c)?;
    write(lent, copy, here, c);
    Some(made)
}

// The same operator on the low bytes, or what serves as well, where that may be.
#[tactic(auto, using(crate::proofs::Making::cut_made))]
fn cut(
    c: &Core,
    alone: bool,
    lent: &[bool],
    copy: u16,
    turns: &Turns,
    here: &mut Vec<Mark>,
) -> Option<Core>
    ensures made { IfSome result (λ made. IsMade alone (lent_by lent.now) copy (turns_of turns.now.list.items) (marks_of here.old.items) (tree_of c.now) (tree_of made) (marks_of here.new.items)) }
{
    match c {
        Core::Binary {
            op,
            ty,
            to,
            left,
            right,
        } => {
            if !may_change(alone, *op) {
                return None;
            }
            if !may_cut(lent, copy, here, *op, *ty, *to, *left, *right) {
                return None;
            }
            put_cut(lent, copy, here, *op, *ty, *to, *left, *right);
            Some(Core::Binary {
                op: low_op(*op),
                ty: IntTy::UChar,
                to: *to,
                left: *left,
                right: *right,
            })
        }
        _ => None,
    }
}

fn is_binary(c: &Core) -> bool {
    match c {
        Core::Binary { .. } => true,
        _ => false,
    }
}

// An operation without parts.
fn narrow_single(
    c: &Core,
    alone: bool,
    lent: &[bool],
    copy: u16,
    turns: &Turns,
    hints: &mut Hints,
    here: &mut Vec<Mark>,
) -> Option<Core>
    ensures made { IfSome result (λ made. IsMade alone (lent_by lent.now) copy (turns_of turns.now.list.items) (marks_of here.old.items) (tree_of c.now) (tree_of made) (marks_of here.new.items)) }
{
    if is_binary(c) && hints.next_cut() {
        cut(c, alone, lent, copy, turns, here)
    } else {
        stays(c, alone, lent, copy, turns, here)
    }
}

#[tactic(auto, using(core_code::proofs::Views::tree_many))]
pub(crate) fn made_many(parts: Vec<Core>) -> Core
    ensures many { tree_of result ≡ Many (trees_of (trees_in parts.items)) }
{
    Core::Many(parts)
}

// A condition by its ways, the first of which is taken where the test holds.
#[tactic(auto, using(core_code::proofs::Views::tree_if))]
pub(crate) fn condition(
    alloc: Global,
    test: Byte,
    size: u8,
    yes: Core,
    no: Core,
) -> Result<Core, AllocError>
    ensures condition { IfOk result (λ made. tree_of made ≡ If test size (tree_of yes) (tree_of no)) }
{
    Ok(Core::If {
        test,
        size,
        yes: Box::new(alloc, yes)?,
        no: Box::new(alloc, no)?,
    })
}

// The lowest of so many bytes.
fn low_size(size: u8) -> u8
    ensures { result ≡ low_size size }
{
    if size == 0 { 0 } else { 1 }
}

fn made_choice(
    alloc: Global,
    test: Byte,
    size: u8,
    way: Way,
    yes: Core,
    no: Core,
) -> Result<Core, AllocError>
    ensures choice { IfOk result (λ made. tree_of made ≡ choice_by test size (way_in way) (tree_of yes) (tree_of no)) }
{
    match way {
        Way::Whole => condition(alloc, test, size, yes, no),
        Way::Low => condition(alloc, test, low_size(size), yes, no),
        Way::Turned => condition(alloc, test, low_size(size), no, yes),
    }
}

#[tactic(auto, using(core_code::proofs::Views::tree_loop))]
pub(crate) fn made_loop(alloc: Global, body: Core) -> Result<Core, AllocError>
    ensures loop_made { IfOk result (λ made. tree_of made ≡ Loop (tree_of body)) }
{
    Ok(Core::Loop(Box::new(alloc, body)?))
}

/// What is made of an operation, where the proposal passes the test: here are the marks before it, and then those behind it.
#[cycle(narrowing)]
#[tactic(auto, using(crate::proofs::Making::many_made, crate::proofs::Making::choice_made, crate::proofs::Making::loop_is))]
pub fn narrow_one(
    c: &Core,
    alloc: Global,
    alone: bool,
    lent: &[bool],
    copy: u16,
    turns: &Turns,
    hints: &mut Hints,
    here: &mut Vec<Mark>,
) -> Result<Option<Core>, AllocError>
    ensures made { IfOk result (λ found. IfSome found (λ made. IsMade alone (lent_by lent.now) copy (turns_of turns.now.list.items) (marks_of here.old.items) (tree_of c.now) (tree_of made) (marks_of here.new.items))) }
{
    match c {
        Core::Many(parts) => {
            let Some(made) = narrow_parts(parts, alloc, alone, lent, copy, turns, hints, here)?
            else {
                return Ok(None);
            };
            Ok(Some(made_many(made)))
        }
        Core::If {
            test,
            size,
            yes,
            no,
        } => {
            let Some(way) = way_of(alone, lent, copy, here, *test, *size) else {
                return Ok(None);
            };
            let mut other = copied(here)?;
            let Some(first) = narrow_one(yes, alloc, alone, lent, copy, turns, hints, here)? else {
                return Ok(None);
            };
            let Some(second) = narrow_one(no, alloc, alone, lent, copy, turns, hints, &mut other)?
            else {
                return Ok(None);
            };
            let Some(both) = met(alloc, here, &other)? else {
                return Ok(None);
            };
            let made = made_choice(alloc, *test, *size, way, first, second)?;
            *here = both;
            Ok(Some(made))
        }
        Core::Loop(body) => narrow_loop(body, alloc, alone, lent, copy, turns, hints, here),
        _ => Ok(narrow_single(c, alone, lent, copy, turns, hints, here)),
    }
}

// A loop.
#[cycle(narrowing)]
#[tactic(auto, using(crate::proofs::Making::loop_made))]
fn narrow_loop(
    body: &Core,
    alloc: Global,
    alone: bool,
    lent: &[bool],
    copy: u16,
    turns: &Turns,
    hints: &mut Hints,
    here: &mut Vec<Mark>,
) -> Result<Option<Core>, AllocError>
    ensures made { IfOk result (λ found. IfSome found (λ made. IsMade alone (lent_by lent.now) copy (turns_of turns.now.list.items) (marks_of here.old.items) (Loop (tree_of body.now)) (tree_of made) (marks_of here.new.items))) }
{
    let turn = hints.next_turn(alloc, here.len())?;
    if !all_below(&turn.front, here) {
        return Ok(None);
    }
    let inside = turns.with(alloc, &turn)?;
    let mut end = copied(&turn.front)?;
    let Some(one) = narrow_one(body, alloc, alone, lent, copy, &inside, hints, &mut end)? else {
        return Ok(None);
    };
    if !all_below(&turn.front, &end) {
        return Ok(None);
    }
    let made = made_loop(alloc, one)?;
    *here = turn.behind;
    Ok(Some(made))
}

/// The same of some operations, one behind the other.
#[cycle(narrowing)]
#[tactic(auto, using(crate::proofs::Making::parts_none, crate::proofs::Making::parts_more))]
pub fn narrow_parts(
    parts: &[Core],
    alloc: Global,
    alone: bool,
    lent: &[bool],
    copy: u16,
    turns: &Turns,
    hints: &mut Hints,
    here: &mut Vec<Mark>,
) -> Result<Option<Vec<Core>>, AllocError>
    ensures made { IfOk result (λ found. IfSome found (λ made. AreMade alone (lent_by lent.now) copy (turns_of turns.now.list.items) (marks_of here.old.items) (trees_in parts.now) (trees_in made.items) (marks_of here.new.items))) }
{
    let mut made = Vec::new(alloc);
    for k in 0..parts.len() {
        let Some(one) = narrow_one(&parts[k], alloc, alone, lent, copy, turns, hints, here)? else {
            return Ok(None);
        };
        made.push(one)?;
    }
    Ok(Some(made))
}
