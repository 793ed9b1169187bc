//! Byte code once more.

ghost use Rattle.std.specs.Prelude.{◌≡◌, ◌++◌, ◌∷◌, [], map, take, IfOk};
ghost use Rattle.std.specs.List.{AllZip};
ghost use Rattle.core_code.specs.View.{tree_of, trees_in};
ghost use Rattle.narrow_pass.specs.Narrowed.{IsSameBody, items_of};

use crate::operations::same_operation;
use crate::walk::{condition, made_loop, made_many};
use core_code::{Body, Core, FirstByte};
use std::alloc::{AllocError, Global};

// ---- code

// The same operation, with its parts.
#[cycle(copying)]
#[tactic(auto, using(crate::proofs::Copies::many_again, crate::proofs::Copies::if_again, crate::proofs::Copies::loop_again, crate::proofs::Others::has_no_parts))]
fn copied_one(c: &Core, alloc: Global) -> Result<Core, AllocError>
    ensures same { IfOk result (λ made. tree_of made ≡ tree_of c.now) }
{
    match c {
        Core::Many(parts) => {
            let made = copied_parts(parts, alloc)?;
            Ok(made_many(made))
        }
        Core::If {
            test,
            size,
            yes,
            no,
        } => {
            let first = copied_one(yes, alloc)?;
            let second = copied_one(no, alloc)?;
            condition(alloc, *test, *size, first, second)
        }
        Core::Loop(body) => {
            let made = copied_one(body, alloc)?;
            made_loop(alloc, made)
        }
        _ => Ok(same_operation(c).unwrap()),
    }
}

#[cycle(copying)]
#[tactic(auto, using(crate::proofs::Copies::parts_again, crate::proofs::Copies::parts_all))]
fn copied_parts(parts: &[Core], alloc: Global) -> Result<Vec<Core>, AllocError>
    ensures same { IfOk result (λ made. trees_in made.items ≡ trees_in parts.now) }
{
    let mut made = Vec::new(alloc);
    for k in 0..parts.len() {
        let one = copied_one(&parts[k], alloc)?;
        made.push(one)?;
    }
    Ok(made)
}

// ---- bodies

fn copied_body(alloc: Global, given: &Body) -> Result<Body, AllocError>
    ensures same { IfOk result (λ made. IsSameBody given.now made) }
{
    let code = copied_parts(&given.code, alloc)?;
    Ok(Body {
        copy: given.copy,
        root: given.root,
        code,
    })
}

/// The same bodies.
#[tactic(auto, using(crate::proofs::Bodies::same_none, crate::proofs::Bodies::same_more, crate::proofs::Bodies::same_all))]
pub fn copied_bodies(alloc: Global, given: &[Body]) -> Result<Vec<Body>, AllocError>
    ensures same { IfOk result (λ made. AllZip IsSameBody given.now made.items) }
{
    let mut bodies = Vec::new(alloc);
    for body in given {
        let made = copied_body(alloc, body)?;
        put_body(&mut bodies, made)?;
    }
    Ok(bodies)
}

/// One more body.
pub fn put_body(bodies: &mut Vec<Body>, body: Body) -> Result<(), AllocError>
    ensures { IfOk result (λ _. bodies.new.items ≡ bodies.old.items ++ (body ∷ [])) }
{
    bodies.push(body)?;
    Ok(())
}

// ---- first bytes

fn copied(alloc: Global, bytes: &[FirstByte]) -> Result<Vec<FirstByte>, AllocError>
    ensures { IfOk result (λ made. made.items ≡ bytes.now) }
{
    let mut made = Vec::new(alloc);
    for byte in bytes {
        made.push(*byte)?;
    }
    Ok(made)
}

/// The same first bytes of static objects.
#[tactic(auto, using(crate::proofs::Bodies::statics_more, crate::proofs::Bodies::statics_all))]
pub fn copied_statics(
    alloc: Global,
    statics: &[Vec<FirstByte>],
) -> Result<Vec<Vec<FirstByte>>, AllocError>
    ensures { IfOk result (λ made. map items_of made.items ≡ map items_of statics.now) }
{
    let mut made = Vec::new(alloc);
    for bytes in statics {
        let one = copied(alloc, bytes)?;
        made.push(one)?;
    }
    Ok(made)
}
