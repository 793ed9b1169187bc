//! The terms of results and flags, row by row.

ghost use Rattle.std.specs.Prelude.{◌≡◌, ◌<◌, ◌^◌};
ghost use Rattle.value_terms.specs.Terms.{Num};
ghost use Rattle.value_terms.specs.Shown.{shown, Makes};
ghost use Rattle.value_terms.specs.Sums.{sum_of, opposite};
ghost use Rattle.value_terms.specs.Bits.{quotient, same};
ghost use Rattle.value_terms.specs.Carries.{carry};
ghost use Rattle.value_rows.specs.Rows.{result_term, sets_zero, zero_term, raised, digit_term, carry_term, skip_term, same_row, takes_literal, literal_result, bit_term, cleared, set};

use std::alloc::{AllocError, Global};
use std::rc::Rc;
use sym_code::{FileOperation, LiteralOperation};
use value_terms::Node;
use value_terms::bits::{bit, quotient, same};
use value_terms::carries::carry;
use value_terms::masks::{exclusive, mask, union};
use value_terms::sums::{opposite, sum_of};
use value_terms::term::number;

// t + k
fn with_number(alloc: Global, k: u8, t: &Rc<Node>) -> Result<Rc<Node>, AllocError>
    ensures term { Makes result (sum_of 1 (Num k) (shown t.now)) }
{
    let first = number(alloc, k)?;
    sum_of(alloc, 1, &first, t)
}

// 16 * t + t / 16: the halves change places
fn turned(alloc: Global, t: &Rc<Node>) -> Result<Rc<Node>, AllocError>
    ensures term { Makes result (sum_of 16 (shown t.now) (quotient 16 (shown t.now))) }
{
    let high = quotient(alloc, 16, t)?;
    sum_of(alloc, 16, t, &high)
}

// 128 * c + t / 2
fn rotated(alloc: Global, c: &Rc<Node>, t: &Rc<Node>) -> Result<Rc<Node>, AllocError>
    ensures term { Makes result (sum_of 128 (shown c.now) (quotient 2 (shown t.now))) }
{
    let half = quotient(alloc, 2, t)?;
    sum_of(alloc, 128, c, &half)
}

/// The result of a row that reads the byte t, where W is w and the carry is c.
pub fn result_of(
    alloc: Global,
    op: FileOperation,
    w: &Rc<Node>,
    c: &Rc<Node>,
    t: &Rc<Node>,
) -> Result<Rc<Node>, AllocError>
    ensures term { Makes result (result_term op (shown w.now) (shown c.now) (shown t.now)) }
{
    match op {
        FileOperation::Addwf => sum_of(alloc, 1, t, w),
        FileOperation::Andwf => mask(alloc, w, t),
        FileOperation::Comf => opposite(alloc, t),
        FileOperation::Decf | FileOperation::Decfsz => with_number(alloc, 255, t),
        FileOperation::Incf | FileOperation::Incfsz => with_number(alloc, 1, t),
        FileOperation::Iorwf => union(alloc, w, t),
        FileOperation::Movf => t.clone(),
        FileOperation::Rlf => sum_of(alloc, 2, t, c),
        FileOperation::Rrf => rotated(alloc, c, t),
        FileOperation::Subwf => sum_of(alloc, 255, w, t),
        FileOperation::Swapf => turned(alloc, t),
        FileOperation::Xorwf => exclusive(alloc, w, t),
    }
}

fn sets_zero(op: FileOperation) -> bool
    ensures is { result ≡ sets_zero op }
{
    match op {
        FileOperation::Decfsz
        | FileOperation::Incfsz
        | FileOperation::Rlf
        | FileOperation::Rrf
        | FileOperation::Swapf => false,
        FileOperation::Addwf
        | FileOperation::Andwf
        | FileOperation::Comf
        | FileOperation::Decf
        | FileOperation::Incf
        | FileOperation::Iorwf
        | FileOperation::Movf
        | FileOperation::Subwf
        | FileOperation::Xorwf => true,
    }
}

// 1 where a term is 0, and else 0.
fn is_zero(alloc: Global, t: &Rc<Node>) -> Result<Rc<Node>, AllocError>
    ensures term { Makes result (same (shown t.now) (Num 0)) }
{
    let none = number(alloc, 0)?;
    same(alloc, t, &none)
}

/// Z behind a row with this result, where it was z.
pub fn zero_of(
    alloc: Global,
    op: FileOperation,
    z: &Rc<Node>,
    made: &Rc<Node>,
) -> Result<Rc<Node>, AllocError>
    ensures term { Makes result (zero_term op (shown z.now) (shown made.now)) }
{
    if sets_zero(op) {
        return is_zero(alloc, made);
    }
    z.clone()
}

#[tactic(auto, unfolding(crate::specs::Rows::raised))]
fn raised(alloc: Global, t: &Rc<Node>) -> Result<Rc<Node>, AllocError>
    ensures term { Makes result (raised (shown t.now)) }
{
    let none = number(alloc, 0)?;
    sum_of(alloc, 16, t, &none)
}

// The carry out of bit 3 of a sum, and of a difference.
fn digit_of_sum(alloc: Global, w: &Rc<Node>, t: &Rc<Node>) -> Result<Rc<Node>, AllocError>
    ensures term { Makes result (carry (raised (shown t.now)) (raised (shown w.now)) (Num 0)) }
{
    let first = raised(alloc, t)?;
    let second = raised(alloc, w)?;
    let third = number(alloc, 0)?;
    carry(alloc, &first, &second, &third)
}

fn digit_of_difference(alloc: Global, w: &Rc<Node>, t: &Rc<Node>) -> Result<Rc<Node>, AllocError>
    ensures term { Makes result (carry (raised (shown t.now)) (raised (opposite (shown w.now))) (Num 16)) }
{
    let first = raised(alloc, t)?;
    let other = opposite(alloc, w)?;
    let second = raised(alloc, &other)?;
    let third = number(alloc, 16)?;
    carry(alloc, &first, &second, &third)
}

// The carry out of bit 7 of a sum, and of a difference.
fn carry_of_sum(alloc: Global, w: &Rc<Node>, t: &Rc<Node>) -> Result<Rc<Node>, AllocError>
    ensures term { Makes result (carry (shown t.now) (shown w.now) (Num 0)) }
{
    let third = number(alloc, 0)?;
    carry(alloc, t, w, &third)
}

fn carry_of_difference(alloc: Global, w: &Rc<Node>, t: &Rc<Node>) -> Result<Rc<Node>, AllocError>
    ensures term { Makes result (carry (shown t.now) (opposite (shown w.now)) (Num 1)) }
{
    let other = opposite(alloc, w)?;
    let third = number(alloc, 1)?;
    carry(alloc, t, &other, &third)
}

/// DC behind a row that reads the byte t, where W is w and DC was dc.
pub fn digit_of(
    alloc: Global,
    op: FileOperation,
    w: &Rc<Node>,
    dc: &Rc<Node>,
    t: &Rc<Node>,
) -> Result<Rc<Node>, AllocError>
    ensures term { Makes result (digit_term op (shown w.now) (shown dc.now) (shown t.now)) }
{
    match op {
        FileOperation::Addwf => digit_of_sum(alloc, w, t),
        FileOperation::Subwf => digit_of_difference(alloc, w, t),
        _ => dc.clone(),
    }
}

/// C behind a row that reads the byte t, where W is w and C was c.
pub fn carry_of(
    alloc: Global,
    op: FileOperation,
    w: &Rc<Node>,
    c: &Rc<Node>,
    t: &Rc<Node>,
) -> Result<Rc<Node>, AllocError>
    ensures term { Makes result (carry_term op (shown w.now) (shown c.now) (shown t.now)) }
{
    match op {
        FileOperation::Addwf => carry_of_sum(alloc, w, t),
        FileOperation::Subwf => carry_of_difference(alloc, w, t),
        FileOperation::Rlf => bit(alloc, 128, t),
        FileOperation::Rrf => bit(alloc, 1, t),
        _ => c.clone(),
    }
}

/// 1 where a row with this result skips the next word, and else 0.
pub fn skip_of(alloc: Global, op: FileOperation, made: &Rc<Node>) -> Result<Rc<Node>, AllocError>
    ensures term { Makes result (skip_term op (shown made.now)) }
{
    match op {
        FileOperation::Decfsz | FileOperation::Incfsz => is_zero(alloc, made),
        _ => number(alloc, 0),
    }
}

/// The row on a byte that sets the flags as the row on a literal does. MOVLW and RETLW set none, as SWAPF.
pub fn same_row(op: LiteralOperation) -> FileOperation
    ensures row { result ≡ same_row op }
{
    match op {
        LiteralOperation::Addlw => FileOperation::Addwf,
        LiteralOperation::Andlw => FileOperation::Andwf,
        LiteralOperation::Iorlw => FileOperation::Iorwf,
        LiteralOperation::Movlw => FileOperation::Swapf,
        LiteralOperation::Retlw => FileOperation::Swapf,
        LiteralOperation::Sublw => FileOperation::Subwf,
        LiteralOperation::Xorlw => FileOperation::Xorwf,
    }
}

fn takes_literal(op: LiteralOperation) -> bool
    ensures is { result ≡ takes_literal op }
{
    match op {
        LiteralOperation::Movlw | LiteralOperation::Retlw => true,
        LiteralOperation::Addlw
        | LiteralOperation::Andlw
        | LiteralOperation::Iorlw
        | LiteralOperation::Sublw
        | LiteralOperation::Xorlw => false,
    }
}

/// W behind a row on W, which was w, and the literal t.
pub fn literal_of(
    alloc: Global,
    op: LiteralOperation,
    w: &Rc<Node>,
    t: &Rc<Node>,
) -> Result<Rc<Node>, AllocError>
    ensures term { Makes result (literal_result op (shown w.now) (shown t.now)) }
{
    if takes_literal(op) {
        return t.clone();
    }
    let none = number(alloc, 0)?;
    result_of(alloc, same_row(op), w, &none, t)
}

// 2 to the power of a bit's number.
fn power(b: u8) -> u8
    requires bit { b < 8 }
    ensures power { result ≡ 2 ^ b }
{
    match b {
        0 => 1,
        1 => 2,
        2 => 4,
        3 => 8,
        4 => 16,
        5 => 32,
        6 => 64,
        _ => 128,
    }
}

/// A bit of a byte, by its number.
pub fn bit_of(alloc: Global, b: u8, t: &Rc<Node>) -> Result<Rc<Node>, AllocError>
    requires bit { b < 8 }
    ensures term { Makes result (bit_term b (shown t.now)) }
{
    bit(alloc, power(b), t)
}

/// The byte behind BCF.
pub fn cleared(alloc: Global, b: u8, t: &Rc<Node>) -> Result<Rc<Node>, AllocError>
    requires bit { b < 8 }
    ensures term { Makes result (cleared b (shown t.now)) }
{
    let one = bit_of(alloc, b, t)?;
    let factor = 0u8.wrapping_sub(power(b));
    sum_of(alloc, factor, &one, t)
}

/// The byte behind BSF.
pub fn set(alloc: Global, b: u8, t: &Rc<Node>) -> Result<Rc<Node>, AllocError>
    requires bit { b < 8 }
    ensures term { Makes result (set b (shown t.now)) }
{
    let one = bit_of(alloc, b, t)?;
    let last = number(alloc, power(b))?;
    let raised = sum_of(alloc, 1, t, &last)?;
    let factor = 0u8.wrapping_sub(power(b));
    sum_of(alloc, factor, &one, &raised)
}
