//! Operations after those that are there.
//!
//! Each operation is made in a function of its own, hence `inline(never)`: the frames of the recursion over a tree hold
//! no operation, and a tree of thousands of levels stays within the call stack.

ghost use Rattle.std.specs.Prelude.{◌≡◌, OnOk, [], ◌∷◌};
ghost use Rattle.core_code.specs.Tree as code;
ghost use Rattle.core_code.specs.Tree.{many};
ghost use Rattle.core_code.specs.View.{tree_of, trees_in};
ghost use Rattle.core_puts.specs.Puts as stated;
ghost use Rattle.core_puts.specs.Puts.{Appends, operator};

use crate::bytes::{behind, byte_at};
use c_ints::{BinOp, IntTy, UnOp};
use core_code::{Byte, Core};
use std::alloc::{AllocError, Global};

/// One more operation.
pub fn put(out: &mut Vec<Core>, op: Core) -> Result<(), AllocError>
    ensures { OnOk result (Appends out.old.items out.new.items (tree_of op ∷ [])) }
{
    out.push(op)?;
    Ok(())
}

/// The byte becomes a number.
#[inline(never)]
#[tactic(auto, using(core_code::proofs::Views::tree_set))]
pub fn put_set(out: &mut Vec<Core>, to: Byte, value: u8) -> Result<(), AllocError>
    ensures { OnOk result (Appends out.old.items out.new.items (code.Set to value ∷ [])) }
{
    put(out, Core::Set { to, value })
}

/// Two bytes become the address of an object's byte.
#[inline(never)]
#[tactic(auto, using(core_code::proofs::Views::tree_address))]
pub fn put_address(out: &mut Vec<Core>, to: Byte, place: Byte) -> Result<(), AllocError>
    ensures { OnOk result (Appends out.old.items out.new.items (code.Address to place ∷ [])) }
{
    put(out, Core::Address { to, place })
}

/// The byte becomes another one.
#[inline(never)]
#[tactic(auto, using(core_code::proofs::Views::tree_copy))]
pub fn put_copy(out: &mut Vec<Core>, to: Byte, from: Byte) -> Result<(), AllocError>
    ensures { OnOk result (Appends out.old.items out.new.items (code.Copy to from ∷ [])) }
{
    put(out, Core::Copy { to, from })
}

/// So many bytes become what a pointer points to.
#[inline(never)]
#[tactic(auto, using(core_code::proofs::Views::tree_load))]
pub fn put_load(out: &mut Vec<Core>, to: Byte, pointer: Byte, count: u16) -> Result<(), AllocError>
    ensures { OnOk result (Appends out.old.items out.new.items (code.Load to pointer count ∷ [])) }
{
    put(out, Core::Load { to, pointer, count })
}

/// What a pointer points to becomes so many bytes.
#[inline(never)]
#[tactic(auto, using(core_code::proofs::Views::tree_store))]
pub fn put_store(
    out: &mut Vec<Core>,
    pointer: Byte,
    from: Byte,
    count: u16,
) -> Result<(), AllocError>
    ensures { OnOk result (Appends out.old.items out.new.items (code.Store pointer from count ∷ [])) }
{
    put(
        out,
        Core::Store {
            pointer,
            from,
            count,
        },
    )
}

/// A unary operator, in place.
#[inline(never)]
#[tactic(auto, using(core_code::proofs::Views::tree_unary))]
pub fn put_unary(out: &mut Vec<Core>, op: UnOp, ty: IntTy, at: Byte) -> Result<(), AllocError>
    ensures { OnOk result (Appends out.old.items out.new.items (code.Unary op ty at ∷ [])) }
{
    put(out, Core::Unary { op, ty, at })
}

/// A binary operator.
#[inline(never)]
#[tactic(auto, using(core_code::proofs::Views::tree_binary))]
pub fn put_binary(
    out: &mut Vec<Core>,
    op: BinOp,
    ty: IntTy,
    to: Byte,
    left: Byte,
    right: Byte,
) -> Result<(), AllocError>
    ensures { OnOk result (Appends out.old.items out.new.items (code.Binary op ty to left right ∷ [])) }
{
    put(
        out,
        Core::Binary {
            op,
            ty,
            to,
            left,
            right,
        },
    )
}

/// A binary operator whose value takes the place of its left operand.
pub fn put_operator(
    out: &mut Vec<Core>,
    op: BinOp,
    ty: IntTy,
    at: Byte,
    right: Byte,
) -> Result<(), AllocError>
    ensures { OnOk result (Appends out.old.items out.new.items (operator op ty at right ∷ [])) }
{
    put_binary(out, op, ty, at, at, right)
}

/// A conversion, in place.
#[inline(never)]
#[tactic(auto, using(core_code::proofs::Views::tree_convert))]
pub fn put_convert(out: &mut Vec<Core>, from: IntTy, to: IntTy, at: Byte) -> Result<(), AllocError>
    ensures { OnOk result (Appends out.old.items out.new.items (code.Convert from to at ∷ [])) }
{
    put(out, Core::Convert { from, to, at })
}

/// The byte becomes a bit of a device register.
#[inline(never)]
#[tactic(auto, using(core_code::proofs::Views::tree_bit_read))]
pub fn put_bit_read(out: &mut Vec<Core>, to: Byte, register: u8, bit: u8) -> Result<(), AllocError>
    ensures { OnOk result (Appends out.old.items out.new.items (code.BitRead to register bit ∷ [])) }
{
    put(out, Core::BitRead { to, register, bit })
}

/// The bit of a device register becomes the lowest bit of the byte.
#[inline(never)]
#[tactic(auto, using(core_code::proofs::Views::tree_bit_write))]
pub fn put_bit_write(
    out: &mut Vec<Core>,
    register: u8,
    bit: u8,
    from: Byte,
) -> Result<(), AllocError>
    ensures { OnOk result (Appends out.old.items out.new.items (code.BitWrite register bit from ∷ [])) }
{
    put(
        out,
        Core::BitWrite {
            register,
            bit,
            from,
        },
    )
}

/// The body of a copy runs.
#[inline(never)]
#[tactic(auto, using(core_code::proofs::Views::tree_call))]
pub fn put_call(out: &mut Vec<Core>, copy: u16) -> Result<(), AllocError>
    ensures { OnOk result (Appends out.old.items out.new.items (code.Call copy ∷ [])) }
{
    put(out, Core::Call { copy })
}

/// The body ends.
#[inline(never)]
#[tactic(auto, using(core_code::proofs::Views::tree_leave))]
pub fn put_leave(out: &mut Vec<Core>) -> Result<(), AllocError>
    ensures { OnOk result (Appends out.old.items out.new.items (code.Leave ∷ [])) }
{
    put(out, Core::Leave)
}

/// Several operations as one.
#[inline(never)]
#[tactic(auto, using(core_code::proofs::Views::tree_many))]
pub fn put_many(out: &mut Vec<Core>, parts: Vec<Core>) -> Result<(), AllocError>
    ensures { OnOk result (Appends out.old.items out.new.items (many (trees_in parts.items) ∷ [])) }
{
    put(out, Core::Many(parts))
}

#[tactic(auto, using(crate::proofs::Numbers::test_size_is))]
fn test_size(size: u16) -> u8
    ensures { result ≡ stated.test_size size }
{
    if size < 0xff { size as u8 } else { 0xff }
}

/// The operations `yes` where one of so many bytes isn't 0, and otherwise `no`.
#[inline(never)]
#[tactic(auto, using(core_code::proofs::Views::tree_if, core_code::proofs::Views::tree_many))]
pub fn put_if(
    alloc: Global,
    out: &mut Vec<Core>,
    test: Byte,
    size: u16,
    yes: Vec<Core>,
    no: Vec<Core>,
) -> Result<(), AllocError>
    ensures { OnOk result (Appends out.old.items out.new.items (stated.choice test size (trees_in yes.items) (trees_in no.items) ∷ [])) }
{
    let yes = Box::new(alloc, Core::Many(yes))?;
    let no = Box::new(alloc, Core::Many(no))?;
    put(
        out,
        Core::If {
            test,
            size: test_size(size),
            yes,
            no,
        },
    )
}

/// The operations again and again.
#[inline(never)]
#[tactic(auto, using(core_code::proofs::Views::tree_loop, core_code::proofs::Views::tree_many))]
pub fn put_loop(alloc: Global, out: &mut Vec<Core>, body: Vec<Core>) -> Result<(), AllocError>
    ensures { OnOk result (Appends out.old.items out.new.items (code.Loop (many (trees_in body.items)) ∷ [])) }
{
    let body = Box::new(alloc, Core::Many(body))?;
    put(out, Core::Loop(body))
}

/// So many bytes become others, lowest first.
#[inline(never)]
#[tactic(auto, using(crate::proofs::Numbers::copies_none, crate::proofs::Numbers::copies_more, crate::proofs::Numbers::append_nothing, std::proofs::lemmas::List::append_assoc))]
pub fn put_copies(out: &mut Vec<Core>, to: Byte, from: Byte, count: u16) -> Result<(), AllocError>
    ensures { OnOk result (Appends out.old.items out.new.items (stated.copies to from count)) }
{
    for i in 0..count {
        put_copy(out, behind(to, i as u64), behind(from, i as u64))?;
    }
    Ok(())
}

/// The same if the copy is wanted.
#[inline(never)]
#[tactic(auto, using(crate::proofs::Numbers::append_nothing))]
pub fn put_copies_if(
    out: &mut Vec<Core>,
    wanted: bool,
    to: Byte,
    from: Byte,
    count: u16,
) -> Result<(), AllocError>
    ensures { OnOk result (Appends out.old.items out.new.items (stated.copies_if wanted to from count)) }
{
    if wanted {
        put_copies(out, to, from, count)
    } else {
        Ok(())
    }
}

/// So many bytes become those of a number, lowest first.
#[inline(never)]
#[tactic(auto, using(crate::proofs::Numbers::sets_none, crate::proofs::Numbers::sets_more, crate::proofs::Numbers::append_nothing, std::proofs::lemmas::List::append_assoc))]
pub fn put_number(out: &mut Vec<Core>, to: Byte, number: u64, count: u16) -> Result<(), AllocError>
    ensures { OnOk result (Appends out.old.items out.new.items (stated.sets to number count)) }
{
    for i in 0..count {
        put_set(out, behind(to, i as u64), byte_at(number, i))?;
    }
    Ok(())
}

/// So many bytes become 0, lowest first.
#[inline(never)]
#[tactic(auto, using(crate::proofs::Numbers::zeros_none, crate::proofs::Numbers::zeros_more, crate::proofs::Numbers::append_nothing, std::proofs::lemmas::List::append_assoc))]
pub fn put_zeros(out: &mut Vec<Core>, to: Byte, count: u16) -> Result<(), AllocError>
    ensures { OnOk result (Appends out.old.items out.new.items (stated.zeros to count)) }
{
    for i in 0..count {
        put_set(out, behind(to, i as u64), 0)?;
    }
    Ok(())
}
