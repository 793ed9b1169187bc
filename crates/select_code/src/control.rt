//! The recursion over control.

ghost use Rattle.std.specs.Prelude.{◌≡◌, ◌≤◌, ◌+◌, ◌++◌, [], ◌∷◌, ℕ, List, true, false, IfSome, IfOk, OnOk, length, reverse, slice_get};
ghost use Rattle.core_code.specs.Tree.{Tree, trees_of};
ghost use Rattle.core_code.specs.View.{tree_of, trees_in};
ghost use Rattle.sym_code.specs.declared.code.Sym.{Sym};
ghost use Rattle.select_code.specs.Pieces.{first_label};
ghost use Rattle.select_code.specs.Selected.{leave_code, call_code, jump_target, goes_to, is_nothing, only_of, short_jump, is_exit, short_list, single_code, code_of, parts_code, loop_code, turn_code, body_code, ending_of, byte_code};
ghost use Rattle.select_code.specs.Sized.{is_byte_sized};

use crate::loops::Loops;
use crate::pieces::{
    make_first_label, make_second_label, put_bit_read, put_bit_write, put_copy, put_goto,
    put_jump_if_zero, put_jump_unless_zero, put_label, put_set, put_test,
};
use crate::sized::{is_byte_sized, is_cut};
use core_code::Core;
use std::alloc::{AllocError, Global};
use sym_code::{BlockName, Label, PlainOperation, Sym, SymBlock, Target};

/// How a body ends: main's at the place where main has ended, the handler's where the context comes back, any other by a
/// return.
#[derive(Clone, Copy, PartialEq, Eq)]
pub enum Ending {
    Halt,
    Restore,
    Return,
}

/// Selection for the operations that are neither byte-sized nor control: `Address`, `Load`, `Store`, `Unary`, `Binary`, and
/// a `Convert` to a type of more bytes.
pub trait Wide {
    /// What is appended after so many instructions for an operation, with what stands before it in the same `Many`.
    ghost code: { Self → ℕ → List Tree → Tree → List Sym };

    /// Appends the code of such an operation. `before` has what stands before it in the same `Many`.
    fn emit(&self, c: &Core, before: &[Core], out: &mut SymBlock) -> Result<(), AllocError>
        ensures put { OnOk result (out.new.list.items ≡ out.old.list.items ++ code self.now (length out.old.list.items) (trees_in before.now) (tree_of c.now)) }
        ensures name { out.new.name ≡ out.old.name };
}

// Nothing for any of them.
struct Nothing;

impl Wide for Nothing {
    ghost code = { λ self at before tree. [] };

    fn emit(&self, _c: &Core, _before: &[Core], _out: &mut SymBlock) -> Result<(), AllocError> {
        Ok(())
    }
}

// The end of a body.
fn put_leave(ending: Ending, out: &mut SymBlock) -> Result<(), AllocError>
    ensures put { OnOk result (out.new.list.items ≡ out.old.list.items ++ leave_code ending) }
    ensures name { out.new.name ≡ out.old.name }
{
    match ending {
        Ending::Halt => put_goto(Label::Halt, out),
        Ending::Restore => put_goto(Label::Restore, out),
        Ending::Return => out.put(Sym::Plain(PlainOperation::Return)),
    }
}

fn put_call(copy: u16, out: &mut SymBlock) -> Result<(), AllocError>
    ensures put { OnOk result (out.new.list.items ≡ out.old.list.items ++ call_code copy) }
    ensures name { out.new.name ≡ out.old.name }
{
    out.put(Sym::Call(Target::Block(BlockName::Copy(copy))))
}

// The label that an operation goes to, where all that it does is to go there.
#[tactic(auto, using(core_code::proofs::Views::tree_set, core_code::proofs::Views::tree_address, core_code::proofs::Views::tree_copy, core_code::proofs::Views::tree_load, core_code::proofs::Views::tree_store, core_code::proofs::Views::tree_unary, core_code::proofs::Views::tree_binary, core_code::proofs::Views::tree_convert, core_code::proofs::Views::tree_bit_read, core_code::proofs::Views::tree_bit_write, core_code::proofs::Views::tree_call, core_code::proofs::Views::tree_leave, core_code::proofs::Views::tree_many, core_code::proofs::Views::tree_if, core_code::proofs::Views::tree_loop, core_code::proofs::Views::tree_exit, core_code::proofs::Views::tree_again))]
fn jump_of(c: &Core, loops: &Loops) -> Option<Label>
    ensures { result ≡ jump_target (reverse loops.now.starts.items) (tree_of c.now) }
{
    match c {
        Core::Exit(count) => match loops.out(*count) {
            Some(at) => Some(make_second_label(at)),
            None => None,
        },
        Core::Again(count) => match loops.out(*count) {
            Some(at) => Some(make_first_label(at)),
            None => None,
        },
        _ => None,
    }
}

// The same, where the operation may be the only one of a list.
fn lone_jump(c: &Core, loops: &Loops) -> Option<Label>
    ensures { result ≡ jump_target (reverse loops.now.starts.items) (only_of (tree_of c.now)) }
{
    match c {
        Core::Many(parts) => {
            if parts.len() == 1 {
                jump_of(&parts[0], loops)
            } else {
                None
            }
        }
        _ => jump_of(c, loops),
    }
}

#[tactic(auto, using(core_code::proofs::Views::tree_set, core_code::proofs::Views::tree_address, core_code::proofs::Views::tree_copy, core_code::proofs::Views::tree_load, core_code::proofs::Views::tree_store, core_code::proofs::Views::tree_unary, core_code::proofs::Views::tree_binary, core_code::proofs::Views::tree_convert, core_code::proofs::Views::tree_bit_read, core_code::proofs::Views::tree_bit_write, core_code::proofs::Views::tree_call, core_code::proofs::Views::tree_leave, core_code::proofs::Views::tree_many, core_code::proofs::Views::tree_if, core_code::proofs::Views::tree_loop, core_code::proofs::Views::tree_exit, core_code::proofs::Views::tree_again))]
fn is_empty(c: &Core) -> bool
    ensures { result ≡ is_nothing (tree_of c.now) }
{
    match c {
        Core::Many(parts) => parts.is_empty(),
        _ => false,
    }
}

// Whether an operation leaves the innermost loop.
#[tactic(auto, using(core_code::proofs::Views::tree_set, core_code::proofs::Views::tree_address, core_code::proofs::Views::tree_copy, core_code::proofs::Views::tree_load, core_code::proofs::Views::tree_store, core_code::proofs::Views::tree_unary, core_code::proofs::Views::tree_binary, core_code::proofs::Views::tree_convert, core_code::proofs::Views::tree_bit_read, core_code::proofs::Views::tree_bit_write, core_code::proofs::Views::tree_call, core_code::proofs::Views::tree_leave, core_code::proofs::Views::tree_many, core_code::proofs::Views::tree_if, core_code::proofs::Views::tree_loop, core_code::proofs::Views::tree_exit, core_code::proofs::Views::tree_again))]
fn is_exit(c: &Core) -> bool
    ensures { result ≡ is_exit (tree_of c.now) }
{
    match c {
        Core::Exit(count) => *count == 0,
        _ => false,
    }
}

// How many operations there are before the last one, where that leaves the innermost loop.
#[tactic(auto, using(crate::proofs::Parts::short_none, crate::proofs::Parts::short_by_last))]
fn short_list(parts: &[Core]) -> Option<usize>
    ensures value { result ≡ short_list (trees_in parts.now) }
    ensures fits { IfSome result (λ count. count + 1 ≡ length parts.now) }
{
    let count = parts.len();
    if count == 0 {
        return None;
    }
    if is_exit(&parts[count - 1]) {
        Some(count - 1)
    } else {
        None
    }
}

// The label that a condition goes to, where one of its parts is empty and the other one but a jump.
fn short_jump(empty: &Core, other: &Core, loops: &Loops) -> Option<Label>
    ensures { result ≡ short_jump (reverse loops.now.starts.items) (tree_of empty.now) (tree_of other.now) }
{
    if is_empty(empty) {
        lone_jump(other, loops)
    } else {
        None
    }
}

// What goes somewhere else, or nothing where the loop that is meant isn't there.
fn put_jump(c: &Core, loops: &Loops, out: &mut SymBlock) -> Result<(), AllocError>
    ensures put { OnOk result (out.new.list.items ≡ out.old.list.items ++ goes_to (jump_target (reverse loops.now.starts.items) (tree_of c.now))) }
    ensures name { out.new.name ≡ out.old.name }
{
    match jump_of(c, loops) {
        Some(label) => put_goto(label, out),
        None => Ok(()),
    }
}

// An operation that is no list, condition or loop.
#[tactic(auto, using(core_code::proofs::Views::tree_set, core_code::proofs::Views::tree_address, core_code::proofs::Views::tree_copy, core_code::proofs::Views::tree_load, core_code::proofs::Views::tree_store, core_code::proofs::Views::tree_unary, core_code::proofs::Views::tree_binary, core_code::proofs::Views::tree_convert, core_code::proofs::Views::tree_bit_read, core_code::proofs::Views::tree_bit_write, core_code::proofs::Views::tree_call, core_code::proofs::Views::tree_leave, core_code::proofs::Views::tree_many, core_code::proofs::Views::tree_if, core_code::proofs::Views::tree_loop, core_code::proofs::Views::tree_exit, core_code::proofs::Views::tree_again))]
fn select_single<W: Wide>(
    c: &Core,
    before: &[Core],
    wide: &W,
    ending: Ending,
    loops: &Loops,
    out: &mut SymBlock,
) -> Result<(), AllocError>
    ensures put { OnOk result (out.new.list.items ≡ out.old.list.items ++ single_code (W.code wide.now) ending (reverse loops.now.starts.items) (length out.old.list.items) (trees_in before.now) (tree_of c.now)) }
    ensures name { out.new.name ≡ out.old.name }
{
    match c {
        Core::Set { to, value } => put_set(*to, *value, out),
        Core::Copy { to, from } => put_copy(*to, *from, out),
        Core::BitRead { to, register, bit } => put_bit_read(*to, *register, *bit, out),
        Core::BitWrite {
            register,
            bit,
            from,
        } => put_bit_write(*register, *bit, *from, out),
        Core::Call { copy } => put_call(*copy, out),
        Core::Leave => put_leave(ending, out),
        Core::Convert { from, to, .. } => {
            if is_cut(*from, *to) {
                Ok(())
            } else {
                wide.emit(c, before, out)
            }
        }
        Core::Exit(_) | Core::Again(_) => put_jump(c, loops, out),
        Core::Address { .. }
        | Core::Load { .. }
        | Core::Store { .. }
        | Core::Unary { .. }
        | Core::Binary { .. } => wide.emit(c, before, out),
        Core::Many(_) | Core::If { .. } | Core::Loop(_) => Ok(()),
    }
}

/// Appends the code of an operation. `before` has what stands before it in the same `Many`, `loops` has for each loop that
/// it stands in what stood before it in the block, innermost last. What is neither byte-sized nor control goes to `wide`.
#[cycle(select)]
pub fn select_with<W: Wide>(
    c: &Core,
    before: &[Core],
    wide: &W,
    ending: Ending,
    loops: &mut Loops,
    out: &mut SymBlock,
) -> Result<(), AllocError>
    ensures put { OnOk result (out.new.list.items ≡ out.old.list.items ++ code_of (W.code wide.now) ending (reverse loops.old.starts.items) (length out.old.list.items) (trees_in before.now) (tree_of c.now)) }
    ensures loops { OnOk result (loops.new.starts.items ≡ loops.old.starts.items) }
    ensures name { out.new.name ≡ out.old.name }
{
    match c {
        Core::Many(parts) => select_parts(parts, parts.len(), wide, ending, loops, out),
        Core::If {
            test,
            size,
            yes,
            no,
        } => {
            let at = out.list.len();
            put_test(*test, *size, out)?;
            if let Some(label) = short_jump(yes, no, loops) {
                return put_jump_if_zero(label, out);
            }
            if let Some(label) = short_jump(no, yes, loops) {
                return put_jump_unless_zero(label, out);
            }
            let end = make_second_label(at);
            if is_empty(no) {
                put_jump_if_zero(end, out)?;
                select_with(yes, &[], wide, ending, loops, out)?;
                return put_label(end, out);
            }
            if is_empty(yes) {
                put_jump_unless_zero(end, out)?;
                select_with(no, &[], wide, ending, loops, out)?;
                return put_label(end, out);
            }
            let otherwise = make_first_label(at);
            put_jump_if_zero(otherwise, out)?;
            select_with(yes, &[], wide, ending, loops, out)?;
            put_goto(end, out)?;
            put_label(otherwise, out)?;
            select_with(no, &[], wide, ending, loops, out)?;
            put_label(end, out)
        }
        Core::Loop(body) => select_loop(body, wide, ending, loops, out),
        _ => select_single(c, before, wide, ending, loops, out),
    }
}

// The first of some operations, one behind the other.
#[cycle(select)]
fn select_parts<W: Wide>(
    parts: &[Core],
    count: usize,
    wide: &W,
    ending: Ending,
    loops: &mut Loops,
    out: &mut SymBlock,
) -> Result<(), AllocError>
    requires { count ≤ length parts.now }
    ensures put { OnOk result (out.new.list.items ≡ out.old.list.items ++ parts_code (W.code wide.now) ending (reverse loops.old.starts.items) (length out.old.list.items) [] (trees_of (trees_in parts.now)) count) }
    ensures loops { OnOk result (loops.new.starts.items ≡ loops.old.starts.items) }
    ensures name { out.new.name ≡ out.old.name }
{
    for k in 0..count {
        select_with(&parts[k], &parts[..k], wide, ending, loops, out)?;
    }
    Ok(())
}

// A loop.
#[cycle(select)]
#[tactic(auto, using(crate::proofs::Parts::one_inside))]
fn select_loop<W: Wide>(
    body: &Core,
    wide: &W,
    ending: Ending,
    loops: &mut Loops,
    out: &mut SymBlock,
) -> Result<(), AllocError>
    ensures put { OnOk result (out.new.list.items ≡ out.old.list.items ++ loop_code (length out.old.list.items) (turn_code (W.code wide.now) ending (length out.old.list.items ∷ reverse loops.old.starts.items) (length out.old.list.items + 1) (tree_of body.now) (first_label (length out.old.list.items)))) }
    ensures loops { OnOk result (loops.new.starts.items ≡ loops.old.starts.items) }
    ensures name { out.new.name ≡ out.old.name }
{
    let at = out.list.len();
    let top = make_first_label(at);
    let end = make_second_label(at);
    put_label(top, out)?;
    loops.enter(at)?;
    select_turn(body, top, wide, ending, loops, out)?;
    loops.leave();
    put_label(end, out)
}

// A loop's body, and the way back to its top. Where the body ends by leaving the loop, it just goes on behind it.
#[cycle(select)]
fn select_turn<W: Wide>(
    body: &Core,
    top: Label,
    wide: &W,
    ending: Ending,
    loops: &mut Loops,
    out: &mut SymBlock,
) -> Result<(), AllocError>
    ensures put { OnOk result (out.new.list.items ≡ out.old.list.items ++ turn_code (W.code wide.now) ending (reverse loops.old.starts.items) (length out.old.list.items) (tree_of body.now) top) }
    ensures loops { OnOk result (loops.new.starts.items ≡ loops.old.starts.items) }
    ensures name { out.new.name ≡ out.old.name }
{
    match body {
        Core::Many(parts) => {
            if let Some(count) = short_list(parts) {
                return select_parts(parts, count, wide, ending, loops, out);
            }
            select_parts(parts, parts.len(), wide, ending, loops, out)?;
            put_goto(top, out)
        }
        _ => {
            select_with(body, &[], wide, ending, loops, out)?;
            put_goto(top, out)
        }
    }
}

/// Appends the code of a body.
pub fn select_body<W: Wide>(
    alloc: Global,
    code: &[Core],
    wide: &W,
    ending: Ending,
    out: &mut SymBlock,
) -> Result<(), AllocError>
    ensures put { OnOk result (out.new.list.items ≡ out.old.list.items ++ body_code (W.code wide.now) ending (length out.old.list.items) (trees_in code.now)) }
    ensures name { out.new.name ≡ out.old.name }
{
    let mut loops = Loops::new(alloc);
    select_parts(code, code.len(), wide, ending, &mut loops, out)
}

// How the body of a block ends, for all blocks but the handler's: copy 0 is always main.
fn ending_of(name: BlockName) -> Ending
    ensures { result ≡ ending_of name }
{
    match name {
        BlockName::Copy(0) => Ending::Halt,
        _ => Ending::Return,
    }
}

/// Appends the code of a byte-sized operation. False comes exactly where it isn't one, and the block is then as before.
/// Byte-sized are `Set`, `Copy`, `BitRead`, `BitWrite`, `Call`, `Leave`, a `Convert` to a type of no more bytes, and `Many`, `If`
/// and `Loop` whose parts are byte-sized; `Exit` and `Again` only as parts of an operation that holds the loop too which they
/// mean.
pub fn select_byte(alloc: Global, c: &Core, out: &mut SymBlock) -> Result<bool, AllocError>
    ensures sized { IfOk result (λ done. done ≡ is_byte_sized 0 (tree_of c.now)) }
    ensures put { IfOk result (λ done. done ≡ true → out.new.list.items ≡ out.old.list.items ++ byte_code out.old.name (length out.old.list.items) (tree_of c.now)) }
    ensures kept { IfOk result (λ done. done ≡ false → out.new ≡ out.old) }
    ensures name { out.new.name ≡ out.old.name }
{
    if !is_byte_sized(c, 0) {
        return Ok(false);
    }
    let ending = ending_of(out.name);
    let mut loops = Loops::new(alloc);
    select_with(c, &[], &Nothing, ending, &mut loops, out)?;
    Ok(true)
}
