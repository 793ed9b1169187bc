//! The routine of each operator that has one.

ghost use Rattle.std.specs.Prelude.{◌≡◌, ◌++◌, ◌≤◌, true, IfOk, OnOk};
ghost use Rattle.std.specs.List.{All};
ghost use Rattle.sym_code.specs.declared.code.BlockName.TheVariants as BlockName;
ghost use Rattle.math_helpers.specs.Routines.{width_of, task_of, task_code, helper_code};
ghost use Rattle.math_helpers.specs.Shape.{most_words, stated_words, is_closed, IsOwn, frame_size};

use crate::division::{Part, put_division, put_signed_division};
use crate::layout::{RoutineLayout, Width};
use crate::product::put_product;
use crate::shift::{Direction, put_shift};
use c_typed::Helper;
use pic_world::Root;
use std::alloc::{AllocError, Global};
use sym_code::{BlockName, SymBlock};

/// What a routine computes.
#[derive(Clone, Copy, PartialEq, Eq)]
pub enum Task {
    Product,
    Division(Part),
    SignedDivision(Part),
    Shift(Direction),
}

// How many bytes the operands of a routine have.
fn width_of(helper: Helper) -> Width
    ensures { result ≡ width_of helper }
{
    match helper {
        Helper::Mul2
        | Helper::Divu2
        | Helper::Divs2
        | Helper::Remu2
        | Helper::Rems2
        | Helper::Shl2
        | Helper::Shru2
        | Helper::Shrs2 => Width::Two,
        Helper::Mul4
        | Helper::Divu4
        | Helper::Divs4
        | Helper::Remu4
        | Helper::Rems4
        | Helper::Shl4
        | Helper::Shru4
        | Helper::Shrs4 => Width::Four,
    }
}

fn task_of(helper: Helper) -> Task
    ensures { result ≡ task_of helper }
{
    match helper {
        Helper::Mul2 | Helper::Mul4 => Task::Product,
        Helper::Divu2 | Helper::Divu4 => Task::Division(Part::Quotient),
        Helper::Remu2 | Helper::Remu4 => Task::Division(Part::Remainder),
        Helper::Divs2 | Helper::Divs4 => Task::SignedDivision(Part::Quotient),
        Helper::Rems2 | Helper::Rems4 => Task::SignedDivision(Part::Remainder),
        Helper::Shl2 | Helper::Shl4 => Task::Shift(Direction::Left),
        Helper::Shru2 | Helper::Shru4 => Task::Shift(Direction::Right),
        Helper::Shrs2 | Helper::Shrs4 => Task::Shift(Direction::SignedRight),
    }
}

fn put_task(block: &mut SymBlock, layout: RoutineLayout, task: Task) -> Result<(), AllocError>
    ensures code { OnOk result (block.new.list.items ≡ block.old.list.items ++ task_code layout task) }
    ensures name { block.new.name ≡ block.old.name }
{
    match task {
        Task::Product => put_product(block, layout),
        Task::Division(part) => put_division(block, layout, part),
        Task::SignedDivision(part) => put_signed_division(block, layout, part),
        Task::Shift(direction) => put_shift(block, layout, direction),
    }
}

/// The block of a routine: of this one, which runs under this root and is the copy of this number. It takes at most its
/// stated words, however many selects it needs; each jump stays in it; and it names no bytes but those of its own frame,
/// the results of its root and the flags.
#[tactic(auto, using(crate::proofs::Shapes::words_of, crate::proofs::Shapes::is_closed_of, crate::proofs::Shapes::own_of))]
pub fn helper(alloc: Global, h: Helper, root: Root, copy: u16) -> Result<SymBlock, AllocError>
    ensures name { IfOk result (λ block. block.name ≡ BlockName.Copy copy) }
    ensures code { IfOk result (λ block. block.list.items ≡ helper_code h root copy) }
    ensures words { IfOk result (λ block. most_words block.list.items ≤ stated_words h) }
    ensures closed { IfOk result (λ block. is_closed block.list.items ≡ true) }
    ensures own { IfOk result (λ block. All (IsOwn root copy (frame_size h)) block.list.items) }
{
    let mut block = SymBlock::new(alloc, BlockName::Copy(copy));
    put_task(
        &mut block,
        RoutineLayout {
            root,
            copy,
            width: width_of(h),
        },
        task_of(h),
    )?;
    Ok(block)
}
