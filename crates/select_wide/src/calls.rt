//! Operators that the chip has no instructions for: calls of helpers.

ghost use Rattle.std.specs.Prelude.{◌≡◌, ◌≤◌, ◌++◌, length, OnOk};
ghost use Rattle.call_graph.specs.Numbers.{is_helper, is_copy_of, copy_of};
ghost use Rattle.select_wide.specs.Calls.{enter_code, helper_call_code, copy_call_code};

use crate::moves::{is_same_root, put_copies};
use crate::operands::Operands;
use c_typed::{FnId, Helper};
use call_graph::{FnCopy, number_of};
use core_code::Byte;
use pic_world::Root;
use select_code::behind;
use std::alloc::AllocError;
use sym_code::{BlockName, Sym, SymBlock, Target};

fn is_helper(helper: Helper, function: FnId) -> bool
    ensures { result ≡ is_helper helper function }
{
    match function {
        FnId::User(_) => false,
        FnId::Helper(other) => {
            number_of(0, FnId::Helper(other)) == number_of(0, FnId::Helper(helper))
        }
    }
}

fn is_copy_of(root: Root, helper: Helper, copy: &FnCopy) -> bool
    ensures { result ≡ is_copy_of root helper copy.now }
{
    is_same_root(copy.root, root) && is_helper(helper, copy.function)
}

// The place of a helper's copy under a root.
fn place_of(list: &[FnCopy], root: Root, helper: Helper) -> Option<usize>
    ensures { result ≡ copy_of list.now root helper }
{
    list.iter().position(|copy| is_copy_of(root, helper, copy))
}

/// The number of a helper's copy under a root, if there is one.
#[tactic(auto, using(crate::proofs::Copies::small_number))]
pub fn copy_of(list: &[FnCopy], root: Root, helper: Helper) -> Option<u16>
    requires { length list.now ≤ 65536 }
    ensures { result ≡ copy_of list.now root helper }
{
    match place_of(list, root, helper) {
        Some(number) => Some(number as u16),
        None => None,
    }
}

fn put_enter(copy: u16, out: &mut SymBlock) -> Result<(), AllocError>
    ensures put { OnOk result (out.new.list.items ≡ out.old.list.items ++ enter_code copy) }
    ensures name { out.new.name ≡ out.old.name }
{
    out.put(Sym::Call(Target::Block(BlockName::Copy(copy))))
}

// A call of the helper whose copy has this number, under a root. Its frame begins with the left operand and, after it,
// so many bytes of the right one.
fn put_helper_call(
    copy: u16,
    root: Root,
    o: Operands,
    count: u8,
    out: &mut SymBlock,
) -> Result<(), AllocError>
    ensures put { OnOk result (out.new.list.items ≡ out.old.list.items ++ helper_call_code copy root o.to o.left o.right o.width count) }
    ensures name { out.new.name ≡ out.old.name }
{
    let frame = Byte::Frame { copy, offset: 0 };
    put_copies(frame, o.left, o.width, out)?;
    put_copies(behind(frame, o.width), o.right, count, out)?;
    put_enter(copy, out)?;
    put_copies(o.to, Byte::Result { root, k: 0 }, o.width, out)
}

/// The same of a copy that there may be. Where there is none nothing is called.
#[tactic(auto, using(crate::proofs::Appends::append_none))]
pub fn put_copy_call(
    copy: Option<u16>,
    root: Root,
    o: Operands,
    count: u8,
    out: &mut SymBlock,
) -> Result<(), AllocError>
    ensures put { OnOk result (out.new.list.items ≡ out.old.list.items ++ copy_call_code copy root o.to o.left o.right o.width count) }
    ensures name { out.new.name ≡ out.old.name }
{
    match copy {
        Some(copy) => put_helper_call(copy, root, o, count, out),
        None => Ok(()),
    }
}
