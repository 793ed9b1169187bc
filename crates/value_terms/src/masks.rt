//! And, or, exclusive or, and the bytes of tables.

ghost use Rattle.std.specs.Prelude.{bit_and, bit_or, bit_xor, ◌%◌, ◌*◌, ◌+◌, ◌≡◌};
ghost use Rattle.value_terms.specs.Terms.{Join, Num, value};
ghost use Rattle.value_terms.specs.Shown.{term_of, shown, Makes, Values};
ghost use Rattle.value_terms.specs.Masks.{ordered, mask_plain, mask_joined, mask_in, mask_number, mask, union_number, union, exclusive_number, exclusive};

use crate::bits::{bit, is_power, two};
use crate::sums::{negated, opposite, sum_of};
use crate::term::{Binary, Node, amount, is_bit, is_number, number, rank, same_term};
use std::alloc::{AllocError, Global};
use std::rc::Rc;

#[tactic(auto, unfolding(crate::specs::Masks::ordered))]
fn ordered(alloc: Global, op: Binary, a: &Rc<Node>, b: &Rc<Node>) -> Result<Rc<Node>, AllocError>
    ensures term { Makes result (ordered op (shown a.now) (shown b.now)) }
{
    if rank(a) < rank(b) {
        return two(alloc, op, a, b);
    }
    two(alloc, op, b, a)
}

// An operation on a term and a number, as it is.
fn with_number(alloc: Global, op: Binary, a: &Rc<Node>, k: u8) -> Result<Rc<Node>, AllocError>
    ensures term { Makes result (Join op (shown a.now) (Num k)) }
{
    let other = number(alloc, k)?;
    two(alloc, op, a, &other)
}

#[tactic(auto, unfolding(crate::specs::Masks::mask_plain))]
fn mask_plain(alloc: Global, a: &Rc<Node>, k: u8) -> Result<Rc<Node>, AllocError>
    ensures term { Makes result (mask_plain (shown a.now) k) }
{
    if k == 0 {
        return number(alloc, 0);
    }
    if is_power(k) {
        let one = bit(alloc, k, a)?;
        let last = number(alloc, 0)?;
        return sum_of(alloc, k, &one, &last);
    }
    with_number(alloc, Binary::Mask, a, k)
}

fn mask_joined(
    alloc: Global,
    op: Binary,
    x: &Rc<Node>,
    y: &Rc<Node>,
    k: u8,
) -> Result<Rc<Node>, AllocError>
    ensures term { Makes result (mask_joined op (shown x.now) (shown y.now) k) }
{
    match op {
        Binary::Mask => {
            if is_number(y) {
                return mask_plain(alloc, x, amount(y) & k);
            }
            let whole = two(alloc, op, x, y)?;
            mask_plain(alloc, &whole, k)
        }
        Binary::Same | Binary::Union | Binary::Exclusive | Binary::Table(_) => {
            let whole = two(alloc, op, x, y)?;
            mask_plain(alloc, &whole, k)
        }
    }
}

fn mask_in(alloc: Global, t: &Rc<Node>, k: u8) -> Result<Rc<Node>, AllocError>
    ensures term { Makes result (mask_in (shown t.now) k) }
{
    match &**t {
        Node::Two { op, left, right } => mask_joined(alloc, *op, left, right, k),
        Node::Number(_)
        | Node::Place { .. }
        | Node::Sum { .. }
        | Node::One { .. }
        | Node::Three { .. } => mask_plain(alloc, t, k),
    }
}

#[tactic(auto, unfolding(crate::specs::Masks::mask_number))]
fn mask_number(alloc: Global, a: &Rc<Node>, k: u8) -> Result<Rc<Node>, AllocError>
    ensures term { Makes result (mask_number (shown a.now) k) }
{
    if k == 255 {
        return a.clone();
    }
    if is_bit(a) {
        if k % 2 == 1 {
            return a.clone();
        }
        return number(alloc, 0);
    }
    mask_in(alloc, a, k)
}

/// And.
#[tactic(auto, using(crate::proofs::Made::mask_made), unfolding(crate::specs::Masks::mask))]
pub fn mask(alloc: Global, a: &Rc<Node>, b: &Rc<Node>) -> Result<Rc<Node>, AllocError>
    ensures term { Makes result (mask (shown a.now) (shown b.now)) }
    ensures value { Values result (λ e. bit_and (value e (shown a.now)) (value e (shown b.now))) }
{
    if is_number(a) && is_number(b) {
        return number(alloc, amount(a) & amount(b));
    }
    if is_number(b) {
        return mask_number(alloc, a, amount(b));
    }
    if is_number(a) {
        return mask_number(alloc, b, amount(a));
    }
    if same_term(a, b) {
        return a.clone();
    }
    ordered(alloc, Binary::Mask, a, b)
}

#[tactic(auto, unfolding(crate::specs::Masks::union_number))]
fn union_number(alloc: Global, a: &Rc<Node>, k: u8) -> Result<Rc<Node>, AllocError>
    ensures term { Makes result (union_number (shown a.now) k) }
{
    if k == 0 {
        return a.clone();
    }
    if k == 255 {
        return number(alloc, 255);
    }
    with_number(alloc, Binary::Union, a, k)
}

/// Or.
#[tactic(auto, using(crate::proofs::Made::union_made), unfolding(crate::specs::Masks::union))]
pub fn union(alloc: Global, a: &Rc<Node>, b: &Rc<Node>) -> Result<Rc<Node>, AllocError>
    ensures term { Makes result (union (shown a.now) (shown b.now)) }
    ensures value { Values result (λ e. bit_or (value e (shown a.now)) (value e (shown b.now))) }
{
    if is_number(a) && is_number(b) {
        return number(alloc, amount(a) | amount(b));
    }
    if is_number(b) {
        return union_number(alloc, a, amount(b));
    }
    if is_number(a) {
        return union_number(alloc, b, amount(a));
    }
    if same_term(a, b) {
        return a.clone();
    }
    ordered(alloc, Binary::Union, a, b)
}

#[tactic(auto, unfolding(crate::specs::Masks::exclusive_number))]
fn exclusive_number(alloc: Global, a: &Rc<Node>, k: u8) -> Result<Rc<Node>, AllocError>
    ensures term { Makes result (exclusive_number (shown a.now) k) }
{
    if k == 0 {
        return a.clone();
    }
    if k == 255 {
        return opposite(alloc, a);
    }
    if k == 128 {
        let high = number(alloc, 128)?;
        return sum_of(alloc, 1, a, &high);
    }
    if is_bit(a) && k == 1 {
        return negated(alloc, a);
    }
    with_number(alloc, Binary::Exclusive, a, k)
}

/// Exclusive or.
#[tactic(auto, using(crate::proofs::Made::exclusive_made), unfolding(crate::specs::Masks::exclusive))]
pub fn exclusive(alloc: Global, a: &Rc<Node>, b: &Rc<Node>) -> Result<Rc<Node>, AllocError>
    ensures term { Makes result (exclusive (shown a.now) (shown b.now)) }
    ensures value { Values result (λ e. bit_xor (value e (shown a.now)) (value e (shown b.now))) }
{
    if is_number(a) && is_number(b) {
        return number(alloc, amount(a) ^ amount(b));
    }
    if is_number(b) {
        return exclusive_number(alloc, a, amount(b));
    }
    if is_number(a) {
        return exclusive_number(alloc, b, amount(a));
    }
    if same_term(a, b) {
        return number(alloc, 0);
    }
    ordered(alloc, Binary::Exclusive, a, b)
}

/// The byte of a table in program memory whose number stands in two bytes.
#[tactic(auto, using(crate::proofs::Made::table_byte_made))]
pub fn table_byte(
    alloc: Global,
    number: u16,
    low: &Rc<Node>,
    high: &Rc<Node>,
) -> Result<Rc<Node>, AllocError>
    ensures term { Makes result (Join (Binary.Table number) (shown low.now) (shown high.now)) }
    ensures value { Values result (λ e. e.table number (value e (shown low.now) + 256 * value e (shown high.now)) % 256) }
{
    two(alloc, Binary::Table(number), low, high)
}
