//! Of which frames byte code takes addresses.

ghost use Rattle.std.specs.Prelude.{◌≡◌, true, IfOk, IfSome};
ghost use Rattle.std.specs.List.{All};
ghost use Rattle.core_code.specs.Tree.{trees_of};
ghost use Rattle.core_code.specs.View.{tree_of, trees_in};
ghost use Rattle.narrow_code.specs.Lending as lending;
ghost use Rattle.narrow_code.specs.Links.{is_lent};
ghost use Rattle.narrow_pass.specs.Lent.{LendsOnly};
ghost use Rattle.narrow_pass.specs.Narrowed.{lent_by};

use crate::operations::lends;
use crate::search::{flat_of, mark_lent};
use core_code::{Body, Core};
use std::alloc::{AllocError, Global};

// ---- the test

// Whether an operation takes no address of a frame but of those that are lent.
#[cycle(lending)]
fn lends_only(c: &Core, lent: &[bool]) -> bool
    ensures lent { result ≡ true → lending.lends (is_lent (lent_by lent.now)) (tree_of c.now) ≡ true }
{
    match c {
        Core::Many(parts) => all_lend(parts, lent),
        Core::If { yes, no, .. } => {
            if !lends_only(yes, lent) {
                return false;
            }
            lends_only(no, lent)
        }
        Core::Loop(body) => lends_only(body, lent),
        _ => lends(lent, c),
    }
}

#[cycle(lending)]
#[tactic(auto, using(crate::proofs::Taken::none_lend, crate::proofs::Taken::more_lend, crate::proofs::Taken::all_of_them))]
fn all_lend(parts: &[Core], lent: &[bool]) -> bool
    ensures lent { result ≡ true → lending.all_lend (is_lent (lent_by lent.now)) (trees_of (trees_in parts.now)) ≡ true }
{
    for k in 0..parts.len() {
        if !lends_only(&parts[k], lent) {
            return false;
        }
    }
    true
}

#[tactic(auto, using(crate::proofs::Taken::no_bodies, crate::proofs::Taken::more_bodies))]
fn are_lending(given: &[Body], lent: &[bool]) -> bool
    ensures lent { result ≡ true → All (LendsOnly (is_lent (lent_by lent.now))) given.now }
{
    match given {
        [] => true,
        [body, rest @ ..] => {
            if !all_lend(&body.code, lent) {
                return false;
            }
            are_lending(rest, lent)
        }
    }
}

// ---- the frames

/// Of each copy by its number, whether an address of its frame is taken.
pub(crate) fn marked_in(alloc: Global, given: &[Body]) -> Result<Vec<bool>, AllocError> {
    let mut lent = Vec::new(alloc);
    for body in given {
        let flat = flat_of(alloc, &body.code)?;
        mark_lent(&mut lent, &flat)?;
    }
    Ok(lent)
}

/// The same, where it passes the test.
pub fn lent_in(alloc: Global, given: &[Body]) -> Result<Option<Vec<bool>>, AllocError>
    ensures { IfOk result (λ found. IfSome found (λ lent. All (LendsOnly (is_lent (lent_by lent.items))) given.now)) }
{
    let lent = marked_in(alloc, given)?;
    if !are_lending(given, &lent) {
        return Ok(None);
    }
    Ok(Some(lent))
}
