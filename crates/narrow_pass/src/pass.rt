//! Byte code with operators on low bytes.

ghost use Rattle.std.specs.Prelude.{◌≡◌, ◌++◌, ◌∷◌, [], map, take, IfOk, IfSome};
ghost use Rattle.std.specs.List.{AllZip};
ghost use Rattle.core_code.specs.View.{trees_in};
ghost use Rattle.narrow_code.specs.Places.{IsRetyped, HasTransfer, IsFreeOnlyWith};
ghost use Rattle.narrow_pass.specs.Kept.{InSamePlaces, IsAnswer, IsDone, KeepsRuns, UsesNoOther};
ghost use Rattle.narrow_pass.specs.Narrowed.{IsNarrowed, lent_by};
ghost use Rattle.narrow_pass.specs.Ways.{IsTried};

use crate::copying::{copied_bodies, copied_statics, put_body};
use crate::hints::Hints;
use crate::lending::marked_in;
use crate::marks::all_equal;
use crate::search::{flat_of, is_small, search, size_of};
use crate::turns::Turns;
use crate::walk::narrow_parts;
use core_code::{Body, Core, CoreProgram};
use std::alloc::{AllocError, Global};

// ---- one body

// What a search answers of a body: how many bytes of its frame it names, and what to do where an operator is to change.
#[derive(Drop)]
struct Proposal {
    size: usize,
    hints: Option<Hints>,
}

fn proposal_for(
    alloc: Global,
    alone: bool,
    given: &Body,
    lent: &[bool],
) -> Result<Proposal, AllocError> {
    let flat = flat_of(alloc, &given.code)?;
    let size = size_of(given.copy, &flat);
    if is_small(size) {
        let hints = search(alloc, alone, &flat, lent, given.copy, size)?;
        Ok(Proposal { size, hints })
    } else {
        Ok(Proposal { size, hints: None })
    }
}

// What a proposal makes of a body, where it passes the test.
#[tactic(auto, using(crate::proofs::Bodies::tried_is))]
fn tried(
    alloc: Global,
    alone: bool,
    code: &[Core],
    lent: &[bool],
    copy: u16,
    size: usize,
    mut hints: Hints,
) -> Result<Option<Vec<Core>>, AllocError>
    ensures tried { IfOk result (λ found. IfSome found (λ made. IsTried alone (lent_by lent.now) copy (trees_in code.now) (trees_in made.items))) }
{
    let mut here = all_equal(alloc, size)?;
    let turns = Turns::new(alloc);
    let Some(made) = narrow_parts(
        code, alloc, alone, lent, copy, &turns, &mut hints, &mut here,
    )?
    else {
        return Ok(None);
    };
    Ok(Some(made))
}

// The same with the plain proposal where the other one doesn't pass.
fn tried_twice(
    alloc: Global,
    alone: bool,
    code: &[Core],
    lent: &[bool],
    copy: u16,
    proposal: Proposal,
) -> Result<Option<Vec<Core>>, AllocError>
    ensures tried { IfOk result (λ found. IfSome found (λ made. IsTried alone (lent_by lent.now) copy (trees_in code.now) (trees_in made.items))) }
{
    let size = proposal.size;
    if let Some(hints) = proposal.hints {
        if let Some(made) = tried(alloc, alone, code, lent, copy, size, hints)? {
            return Ok(Some(made));
        }
    }
    tried(alloc, alone, code, lent, copy, size, Hints::none(alloc))
}

#[tactic(auto, using(crate::proofs::Bodies::body_is))]
fn body_with(alone: bool, given: &Body, lent: &[bool], code: Vec<Core>) -> Body
    requires { IsTried alone (lent_by lent.now) given.now.copy (trees_in given.now.code.items) (trees_in code.items) }
    ensures { IsDone alone (lent_by lent.now) given.now result }
{
    Body {
        copy: given.copy,
        root: given.root,
        code,
    }
}

fn narrow_body(
    alloc: Global,
    alone: bool,
    given: &Body,
    lent: &[bool],
) -> Result<Option<Body>, AllocError>
    ensures done { IfOk result (λ found. IfSome found (λ made. IsDone alone (lent_by lent.now) given.now made)) }
{
    let proposal = proposal_for(alloc, alone, given, lent)?;
    let Some(code) = tried_twice(alloc, alone, &given.code, lent, given.copy, proposal)? else {
        return Ok(None);
    };
    Ok(Some(body_with(alone, given, lent, code)))
}

// All of them, or none where no proposal passes for one.
#[tactic(auto, using(crate::proofs::Bodies::bodies_none, crate::proofs::Bodies::bodies_more, crate::proofs::Bodies::bodies_all))]
fn narrow_bodies(
    alloc: Global,
    alone: bool,
    given: &[Body],
    lent: &[bool],
) -> Result<Option<Vec<Body>>, AllocError>
    ensures done { IfOk result (λ found. IfSome found (λ made. AllZip (IsDone alone (lent_by lent.now)) given.now made.items)) }
{
    let mut bodies = Vec::new(alloc);
    for body in given {
        let Some(made) = narrow_body(alloc, alone, body, lent)? else {
            return Ok(None);
        };
        put_body(&mut bodies, made)?;
    }
    Ok(Some(bodies))
}

// ---- a program

#[tactic(auto, using(crate::proofs::Bodies::program_is))]
fn program_of(
    alloc: Global,
    alone: bool,
    given: &CoreProgram,
    lent: &[bool],
    bodies: Vec<Body>,
) -> Result<CoreProgram, AllocError>
    requires { AllZip (IsDone alone (lent_by lent.now)) given.now.bodies.items bodies.items }
    ensures answer { IfOk result (λ made. IsAnswer alone given.now made) }
{
    let statics = copied_statics(alloc, &given.statics)?;
    Ok(CoreProgram { bodies, statics })
}

#[tactic(auto, using(crate::proofs::Bodies::program_again))]
fn copied_program(
    alloc: Global,
    alone: bool,
    given: &CoreProgram,
) -> Result<CoreProgram, AllocError>
    ensures answer { IfOk result (λ made. IsAnswer alone given.now made) }
{
    let bodies = copied_bodies(alloc, &given.bodies)?;
    let statics = copied_statics(alloc, &given.statics)?;
    Ok(CoreProgram { bodies, statics })
}

// What the proposals make, or the same program where they don't pass.
fn answered(alloc: Global, alone: bool, given: &CoreProgram) -> Result<CoreProgram, AllocError>
    ensures answer { IfOk result (λ made. IsAnswer alone given.now made) }
{
    let lent = marked_in(alloc, &given.bodies)?;
    match narrow_bodies(alloc, alone, &given.bodies, &lent)? {
        Some(bodies) => program_of(alloc, alone, given, &lent, bodies),
        None => copied_program(alloc, alone, given),
    }
}

/// The byte code of a program in which sums and their like work on low bytes where only the low byte of the result is used.
pub fn narrow(alloc: Global, p: &CoreProgram) -> Result<CoreProgram, AllocError>
    // Under every schedule it makes the same events, isn't stuck where the given program isn't, costs no more, and goes in step: at each
    // moment the same loop is begun, left or begun again, the same copy is called, or the body is left, in both.
    ensures keeps { IfOk result (λ made. KeepsRuns p.now made) }
    // It has the given operations in the same places, but for the types of such operators.
    ensures places { IfOk result (λ made. InSamePlaces IsRetyped p.now made) }
    // In each place the same loop is begun, left or begun again, the same copy is called, or the body is left.
    ensures transfers { IfOk result (λ made. InSamePlaces HasTransfer p.now made) }
    // An operation costs nothing only where the given one in its place costs nothing.
    ensures free { IfOk result (λ made. InSamePlaces IsFreeOnlyWith p.now made) }
    // It uses no byte that the given program doesn't use.
    ensures bytes { IfOk result (λ made. UsesNoOther p.now made) }
    // Each body is made by the plan of a draft that passes the test of narrow_code, or all are the given ones.
    ensures narrowed { IfOk result (λ made. IsNarrowed p.now made) }
{
    answered(alloc, true, p)
}

/// The byte code of a program in which comparisons of values that are as small as a byte work on low bytes, those for equality as `Xor`,
/// and conditions test low bytes, with their parts changed over where those tell the opposite; and operators as `narrow` has them.
pub fn test_low_bytes(alloc: Global, p: &CoreProgram) -> Result<CoreProgram, AllocError>
    // Under every schedule it makes the same events, isn't stuck where the given program isn't, costs no more, and goes in step with it.
    ensures keeps { IfOk result (λ made. KeepsRuns p.now made) }
    // It uses no byte that the given program doesn't use.
    ensures bytes { IfOk result (λ made. UsesNoOther p.now made) }
    // Each body is made by the plan of a draft that passes the test of narrow_code, or all are the given ones.
    ensures narrowed { IfOk result (λ made. IsNarrowed p.now made) }
{
    answered(alloc, false, p)
}
