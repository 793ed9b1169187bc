//! The code of a whole program.

ghost use Rattle.std.specs.Prelude.{◌≡◌, ◌≤◌, ◌^◌, true, length, map, slice_get, IfOk};
ghost use Rattle.std.specs.List.{All};
ghost use Rattle.c_typed.specs.Sound.{is_sound};
ghost use Rattle.c_typed.specs.TreeNodes.{nodes_of_body};
ghost use Rattle.c_typed.specs.Views.{function_of, program_of, size_of};
ghost use Rattle.core_code.specs.View.{trees_in};
ghost use Rattle.lower_expr.specs.Layout.{layout_of};
ghost use Rattle.lower_stmt.specs.Bodies as laws;
ghost use Rattle.lower_stmt.specs.Frames as frames;
ghost use Rattle.lower_stmt.specs.Ground.{ground_of};
ghost use Rattle.lower_stmt.specs.FirstBytes.{items_of, HasFewBytes};

use crate::frames::{base_of, places_of};
use crate::initials::first_bytes;
use crate::jumps::Jumps;
use crate::site::Site;
use crate::statements::put_statements;
use c_typed::{FnId, Function, Typed};
use call_graph::{Copies, FnCopy};
use core_code::{Body, Core, CoreProgram};
use lower_expr::{Locals, put_leave};
use pic_world::Root;
use std::alloc::{AllocError, Global};

#[tactic(auto, unfolding(crate::specs::Ground::ground_of))]
fn site_of<'a>(
    alloc: Global,
    p: &Typed,
    places: &'a Locals<'a>,
    copy: u16,
    function: &'a Function,
) -> Site<'a>
    ensures { ground_of result ≡ frames.ground_on (layout_of places.now) (function_of function.now).locals copy (frames.base_of (map size_of p.now.structures.items) (function_of function.now)) }
{
    Site {
        alloc,
        places,
        locals: &function.locals,
        copy,
        base: base_of(&p.structures, function),
    }
}

// The statements of a function, and the end of its body.
#[tactic(auto, using(std::proofs::lemmas::List::append_assoc))]
fn body_code(site: &Site, function: &Function) -> Result<Vec<Core>, AllocError>
    requires { nodes_of_body (function_of function.now).body ≤ 2 ^ 28 }
    ensures { IfOk result (λ code. trees_in code.items ≡ laws.body_code (ground_of site.now) (function_of function.now)) }
{
    let mut code = Vec::new(site.alloc);
    put_statements(site, Jumps::outside(), &function.body, &mut code)?;
    put_leave(&mut code)?;
    Ok(code)
}

// The code of a copy of a function: its statements, and the end of the body.
fn code_of(
    alloc: Global,
    p: &Typed,
    list: &[FnCopy],
    copy: u16,
    root: Root,
    function: &Function,
) -> Result<Vec<Core>, AllocError>
    requires copies { length list.now ≤ 65536 }
    requires small { nodes_of_body (function_of function.now).body ≤ 2 ^ 28 }
    ensures { IfOk result (λ code. trees_in code.items ≡ laws.code_of (program_of p.now) list.now copy root (Some (function_of function.now))) }
{
    let places = places_of(alloc, p, list, root, function)?;
    let site = site_of(alloc, p, &places, copy, function);
    let code = body_code(&site, function)?;
    Ok(code)
}

// The same by the number of the function. Each copy of an accepted program is one of a function that is there.
fn code_by_number(
    alloc: Global,
    p: &Typed,
    list: &[FnCopy],
    copy: u16,
    root: Root,
    function: u32,
) -> Result<Vec<Core>, AllocError>
    requires { length list.now ≤ 65536 }
    ensures { IfOk result (λ code. trees_in code.items ≡ laws.code_of (program_of p.now) list.now copy root (slice_get (program_of p.now).functions function)) }
{
    match p.functions.get(function as usize) {
        Some(function) => code_of(alloc, p, list, copy, root, function),
        None => {
            let mut code = Vec::new(alloc);
            put_leave(&mut code)?;
            Ok(code)
        }
    }
}

fn bodies_of(alloc: Global, p: &Typed, list: &[FnCopy]) -> Result<Vec<Body>, AllocError>
    requires { length list.now ≤ 65536 }
    ensures { IfOk result (λ bodies. map laws.body_of bodies.items ≡ laws.bodies_of (program_of p.now) list.now) }
{
    let mut bodies = Vec::new(alloc);
    for (number, fn_copy) in list.iter().enumerate() {
        match fn_copy.function {
            FnId::User(function) => {
                let copy = number as u16;
                let root = fn_copy.root;
                let code = code_by_number(alloc, p, list, copy, root, function)?;
                bodies.push(Body { copy, root, code })?;
            }
            FnId::Helper(_) => {}
        }
    }
    Ok(bodies)
}

fn see(_p: &Typed) {}

// A typed program is a sound one: its type says so.
fn see_sound(p: &Typed)
    ensures { is_sound (program_of p.now) ≡ true }
{
    see(p);
}

/// The code of a program: the body of each copy that is no helper, in the order of the copies, and the first bytes of
/// each static object.
pub fn lower(alloc: Global, p: &Typed, copies: &Copies) -> Result<CoreProgram, AllocError>
    // The names of bytes and of blocks have room for the numbers of copies and of static objects.
    requires copies { length copies.now.list.items ≤ 65536 }
    requires statics { length p.now.statics.items ≤ 65536 }
    ensures bodies { IfOk result (λ code. map laws.body_of code.bodies.items ≡ laws.bodies_of (program_of p.now) copies.now.list.items) }
    ensures statics { IfOk result (λ code. map items_of code.statics.items ≡ laws.first_bytes (program_of p.now)) }
    // So there are few static objects here too, and none has more bytes than there are offsets.
    ensures few { IfOk result (λ code. length code.statics.items ≤ 65536) }
    ensures short { IfOk result (λ code. All HasFewBytes code.statics.items) }
{
    let bodies = bodies_of(alloc, p, &copies.list)?;
    see_sound(p);
    let statics = first_bytes(alloc, p)?;
    Ok(CoreProgram { bodies, statics })
}
