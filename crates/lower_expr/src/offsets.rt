//! Pointers and integers: an integer counts in elements of so many bytes (ISO/IEC 9899:1990, 6.3.6).

ghost use Rattle.std.specs.Prelude.{OnOk};
ghost use Rattle.core_puts.specs.Puts.{Appends};
ghost use Rattle.lower_expr.specs.Rows as row;

use c_ints::{BinOp, IntTy};
use core_code::{Byte, Core};
use core_puts::{behind, put_binary, put_copies, put_number, put_operator};
use std::alloc::AllocError;

// For an odd factor the number itself once more.
#[tactic(auto, using(crate::proofs::Numbers::append_nothing))]
fn put_odd(out: &mut Vec<Core>, to: Byte, from: Byte, size: u64) -> Result<(), AllocError>
    ensures { OnOk result (Appends out.old.items out.new.items (row.odd_part to from size)) }
{
    if size % 2 == 1 {
        put_operator(out, BinOp::Add, IntTy::UInt, to, from)
    } else {
        Ok(())
    }
}

// The two bytes at `to`, which are those at `from`, are multiplied by `size`, whose binary digits are at most `digits`:
// for each digit but the highest they are doubled, and where it is 1 they grow by what is at `from`.
#[tactic(auto, using(crate::proofs::Numbers::multiples_none, crate::proofs::Numbers::multiples_one, crate::proofs::Numbers::append_nothing, std::proofs::lemmas::List::append_assoc))]
fn put_multiples(
    out: &mut Vec<Core>,
    to: Byte,
    from: Byte,
    size: u64,
    digits: u8,
) -> Result<(), AllocError>
    ensures { OnOk result (Appends out.old.items out.new.items (row.multiples to from size digits)) }
{
    if digits == 0 {
        return Ok(());
    }
    if size < 2 {
        return Ok(());
    }
    put_multiples(out, to, from, size / 2, digits - 1)?;
    put_operator(out, BinOp::Add, IntTy::UInt, to, to)?;
    put_odd(out, to, from, size)?;
    Ok(())
}

// The integer at `from`, times the size of an element, comes to stand at `to`.
#[tactic(auto, using(crate::proofs::Numbers::append_nothing, std::proofs::lemmas::List::append_assoc))]
fn put_scaled(out: &mut Vec<Core>, to: Byte, from: Byte, size: u64) -> Result<(), AllocError>
    ensures { OnOk result (Appends out.old.items out.new.items (row.scaled to from size)) }
{
    put_copies(out, to, from, 2)?;
    put_multiples(out, to, from, size, 64)
}

/// The pointer at `at` is moved by the integer at `index`; `scaled` is where the integer counts in bytes.
#[inline(never)]
#[tactic(auto, using(crate::proofs::Numbers::append_nothing, std::proofs::lemmas::List::append_assoc))]
pub(crate) fn put_moved(
    out: &mut Vec<Core>,
    op: BinOp,
    at: Byte,
    index: Byte,
    scaled: Byte,
    size: u64,
) -> Result<(), AllocError>
    ensures { OnOk result (Appends out.old.items out.new.items (row.moved op at index scaled size)) }
{
    if size == 1 {
        return put_operator(out, op, IntTy::UInt, at, index);
    }
    put_scaled(out, scaled, index, size)?;
    put_operator(out, op, IntTy::UInt, at, scaled)
}

// The integer at `at` plus the pointer behind it.
#[tactic(auto, using(crate::proofs::Numbers::append_nothing, std::proofs::lemmas::List::append_assoc))]
fn put_moved_right(out: &mut Vec<Core>, at: Byte, size: u64) -> Result<(), AllocError>
    ensures { OnOk result (Appends out.old.items out.new.items (row.moved_right at size)) }
{
    if size == 1 {
        return put_operator(out, BinOp::Add, IntTy::UInt, at, behind(at, 2));
    }
    put_scaled(out, behind(at, 4), at, size)?;
    put_binary(
        out,
        BinOp::Add,
        IntTy::UInt,
        at,
        behind(at, 2),
        behind(at, 4),
    )
}

/// A pointer and an integer, one after the other at `at`, become the pointer that is so many elements further.
#[inline(never)]
pub(crate) fn put_offset(
    out: &mut Vec<Core>,
    op: BinOp,
    at: Byte,
    pointer_left: bool,
    size: u64,
) -> Result<(), AllocError>
    ensures { OnOk result (Appends out.old.items out.new.items (row.offset_row op at pointer_left size)) }
{
    if pointer_left {
        put_moved(out, op, at, behind(at, 2), behind(at, 4), size)
    } else {
        put_moved_right(out, at, size)
    }
}

// The number of bytes at `at` becomes that of elements.
#[tactic(auto, using(crate::proofs::Numbers::append_nothing))]
fn put_quotient(out: &mut Vec<Core>, at: Byte, size: u64) -> Result<(), AllocError>
    ensures { OnOk result (Appends out.old.items out.new.items (row.quotient_row at size)) }
{
    if size == 1 {
        return Ok(());
    }
    put_number(out, behind(at, 2), size, 2)?;
    put_operator(out, BinOp::Div, IntTy::Int, at, behind(at, 2))
}

/// Two pointers, one after the other at `at`, become the number of elements between them. No object is as large as an
/// element whose bytes no int can count, and there the number is 0.
#[inline(never)]
#[tactic(auto, using(std::proofs::lemmas::List::append_assoc))]
pub(crate) fn put_difference(out: &mut Vec<Core>, at: Byte, size: u64) -> Result<(), AllocError>
    ensures { OnOk result (Appends out.old.items out.new.items (row.difference_row at size)) }
{
    if size > 0x7fff {
        return put_number(out, at, 0, 2);
    }
    put_operator(out, BinOp::Sub, IntTy::UInt, at, behind(at, 2))?;
    put_quotient(out, at, size)
}

/// The pointer at `at` comes to point to a member, so many bytes after the start of what it pointed to. The number
/// stands in the result bytes of the copy's root.
#[inline(never)]
#[tactic(auto, using(crate::proofs::Numbers::append_nothing, std::proofs::lemmas::List::append_assoc))]
pub(crate) fn put_member(
    out: &mut Vec<Core>,
    at: Byte,
    offset: u64,
    number: Byte,
) -> Result<(), AllocError>
    ensures { OnOk result (Appends out.old.items out.new.items (row.member_row at offset number)) }
{
    if offset == 0 {
        return Ok(());
    }
    put_number(out, number, offset, 2)?;
    put_operator(out, BinOp::Add, IntTy::UInt, at, number)
}
