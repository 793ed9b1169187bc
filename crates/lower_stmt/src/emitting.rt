//! Choices and jumps.

ghost use Rattle.std.specs.Prelude.{◌≡◌, [], ◌∷◌, OnOk};
ghost use Rattle.core_code.specs.Tree as core;
ghost use Rattle.core_code.specs.View.{tree_of, trees_in};
ghost use Rattle.core_puts.specs.Puts.{Appends, test_size};

use core_code::{Byte, Core};
use lower_expr::put;
use std::alloc::{AllocError, Global};

#[tactic(auto, unfolding(core_puts::specs::Puts::test_size))]
fn tested(size: u16) -> u8
    ensures { result ≡ test_size size }
{
    if size < 0xff { size as u8 } else { 0xff }
}

/// Adds a choice by so many bytes at `test`.
#[inline(never)]
#[tactic(auto, using(core_code::proofs::Views::tree_if))]
pub fn put_choice(
    alloc: Global,
    test: Byte,
    size: u16,
    yes: Core,
    no: Core,
    out: &mut Vec<Core>,
) -> Result<(), AllocError>
    ensures { OnOk result (Appends out.old.items out.new.items (core.If test (test_size size) (tree_of yes) (tree_of no) ∷ [])) }
{
    let yes = Box::new(alloc, yes)?;
    let no = Box::new(alloc, no)?;
    put(
        out,
        Core::If {
            test,
            size: tested(size),
            yes,
            no,
        },
    )
}

/// The operation that leaves the loop so many loops out.
#[tactic(auto, using(core_code::proofs::Views::tree_exit))]
pub fn exit(loops: usize) -> Core
    ensures { tree_of result ≡ core.Exit loops }
{
    Core::Exit(loops)
}

/// The operation that begins the loop so many loops out again.
#[tactic(auto, using(core_code::proofs::Views::tree_again))]
pub fn again(loops: usize) -> Core
    ensures { tree_of result ≡ core.Again loops }
{
    Core::Again(loops)
}

/// Adds all of this code.
#[inline(never)]
#[tactic(auto, using(crate::proofs::Lists::trees_both))]
pub fn put_all(code: Vec<Core>, out: &mut Vec<Core>) -> Result<(), AllocError>
    ensures { OnOk result (Appends out.old.items out.new.items (trees_in code.items)) }
{
    let mut rest = code;
    out.append(&mut rest)
}
