//! Single bits, quotients, equality and choices.

ghost use Rattle.std.specs.Prelude.{nat_eq, true, ◌&&◌, ◌<◌, ◌%◌, ◌/◌, ◌≡◌};
ghost use Rattle.value_terms.specs.Equality.{is_number, amount, is_amount};
ghost use Rattle.pic_world.specs.Bits.{truth};
ghost use Rattle.value_terms.specs.Terms.{Apply, Join, Num, Plus, Triple, chosen, value};
ghost use Rattle.value_terms.specs.Shown.{term_of, shown, Makes, Values};
ghost use Rattle.value_terms.specs.Bits.{bit, quotient, bit_plain, bit_of_part, is_power, bit_joined, bit_in, quotient_of_part, quotient_in, same_simple, same_two, same_joined, same_single, same_flag, same_scaled, opposed, same_difference, same_number, same, choice};

use crate::sums::{base, negated, offset, sum, sum_of};
use crate::term::{
    Binary, Node, Ternary, Unary, amount, is_amount, is_bit, is_number, number, rank, same_term,
};
use std::alloc::{AllocError, Global};
use std::rc::Rc;

/// An operation on a term, as it is.
pub fn one(alloc: Global, op: Unary, a: &Rc<Node>) -> Result<Rc<Node>, AllocError>
    ensures term { Makes result (Apply op (shown a.now)) }
{
    let operand = a.clone()?;
    Ok(Rc::new(alloc, Node::One { op, operand })?)
}

/// An operation on two terms, as it is.
pub fn two(alloc: Global, op: Binary, a: &Rc<Node>, b: &Rc<Node>) -> Result<Rc<Node>, AllocError>
    ensures term { Makes result (Join op (shown a.now) (shown b.now)) }
{
    let left = a.clone()?;
    let right = b.clone()?;
    Ok(Rc::new(alloc, Node::Two { op, left, right })?)
}

/// An operation on three terms, as it is.
pub fn three(
    alloc: Global,
    op: Ternary,
    a: &Rc<Node>,
    b: &Rc<Node>,
    c: &Rc<Node>,
) -> Result<Rc<Node>, AllocError>
    ensures term { Makes result (Triple op (shown a.now) (shown b.now) (shown c.now)) }
{
    let first = a.clone()?;
    let second = b.clone()?;
    let third = c.clone()?;
    Ok(Rc::new(
        alloc,
        Node::Three {
            op,
            first,
            second,
            third,
        },
    )?)
}

#[tactic(auto, unfolding(crate::specs::Bits::bit_plain))]
fn bit_plain(alloc: Global, power: u8, t: &Rc<Node>) -> Result<Rc<Node>, AllocError>
    ensures term { Makes result (bit_plain power (shown t.now)) }
{
    if is_bit(t) && power == 1 {
        return t.clone();
    }
    if is_bit(t) && 1 < power {
        return number(alloc, 0);
    }
    one(alloc, Unary::Bit(power), t)
}

fn bit_of_part(alloc: Global, power: u8, op: Unary, t: &Rc<Node>) -> Result<Rc<Node>, AllocError>
    ensures term { Makes result (bit_of_part power op (shown t.now)) }
{
    match op {
        Unary::Bit(_) => {
            let inner = one(alloc, op, t)?;
            bit_plain(alloc, power, &inner)
        }
        Unary::Quotient(other) => {
            let whole = other as u16 * power as u16;
            if whole < 256 {
                return one(alloc, Unary::Bit(whole as u8), t);
            }
            number(alloc, 0)
        }
    }
}

/// Whether a number is a power of two.
pub fn is_power(k: u8) -> bool
    ensures is { result ≡ is_power k }
{
    if k == 0 {
        return false;
    }
    128 % k == 0
}

// By one bit t of the left operand, where the right one is the number k.
fn bit_joined(
    alloc: Global,
    power: u8,
    op: Binary,
    t: &Rc<Node>,
    k: u8,
    whole: &Rc<Node>,
) -> Result<Rc<Node>, AllocError>
    requires power { 0 < power }
    ensures term { Makes result (bit_joined power op (shown t.now) k (shown whole.now)) }
{
    let clear = k / power % 2 == 0;
    match op {
        Binary::Mask => {
            if clear {
                return number(alloc, 0);
            }
            t.clone()
        }
        Binary::Union => {
            if clear {
                return t.clone();
            }
            number(alloc, 1)
        }
        Binary::Exclusive => {
            if clear {
                return t.clone();
            }
            negated(alloc, t)
        }
        Binary::Same | Binary::Table(_) => bit_plain(alloc, power, whole),
    }
}

// 255 - t; t + 128; t times a power of two.
fn is_opposite(factor: u8, rest: &Node) -> bool
    ensures is { result ≡ (nat_eq factor 255 && is_amount (term_of rest.now) 255) }
{
    factor == 255 && is_amount(rest, 255)
}

fn is_high(factor: u8, rest: &Node) -> bool
    ensures is { result ≡ (nat_eq factor 1 && is_amount (term_of rest.now) 128) }
{
    factor == 1 && is_amount(rest, 128)
}

fn is_shifted(factor: u8, rest: &Node) -> bool
    ensures is { result ≡ (is_power factor && is_amount (term_of rest.now) 0) }
{
    is_power(factor) && is_amount(rest, 0)
}

fn bit_in(alloc: Global, power: u8, t: &Rc<Node>) -> Result<Rc<Node>, AllocError>
    ensures term { Makes result (bit_in power (shown t.now)) }
{
    match &**t {
        Node::One { op, operand } => bit_of_part(alloc, power, *op, operand),
        Node::Sum { factor, term, rest } => {
            if is_power(power) && is_opposite(*factor, rest) {
                let inner = bit_in(alloc, power, term)?;
                return negated(alloc, &inner);
            }
            if is_power(power) && is_high(*factor, rest) {
                let inner = bit_in(alloc, power, term)?;
                if power == 128 {
                    return negated(alloc, &inner);
                }
                return Ok(inner);
            }
            if is_power(power) && is_shifted(*factor, rest) {
                if power < *factor {
                    return number(alloc, 0);
                }
                return bit_in(alloc, power / *factor, term);
            }
            bit_plain(alloc, power, t)
        }
        Node::Two { op, left, right } => {
            if is_power(power) && is_number(right) {
                let inner = bit_in(alloc, power, left)?;
                return bit_joined(alloc, power, *op, &inner, amount(right), t);
            }
            bit_plain(alloc, power, t)
        }
        Node::Number(_) | Node::Place { .. } | Node::Three { .. } => bit_plain(alloc, power, t),
    }
}

/// The bit of a power of two below 256.
#[tactic(auto, using(crate::proofs::Made::bit_made), unfolding(crate::specs::Bits::bit))]
pub fn bit(alloc: Global, power: u8, a: &Rc<Node>) -> Result<Rc<Node>, AllocError>
    ensures term { Makes result (bit power (shown a.now)) }
    ensures value { Values result (λ e. value e (shown a.now) / power % 2) }
{
    if power == 0 {
        return number(alloc, 0);
    }
    if is_number(a) {
        return number(alloc, amount(a) / power % 2);
    }
    bit_in(alloc, power, a)
}

fn quotient_of_part(
    alloc: Global,
    power: u8,
    op: Unary,
    t: &Rc<Node>,
) -> Result<Rc<Node>, AllocError>
    ensures term { Makes result (quotient_of_part power op (shown t.now)) }
{
    match op {
        Unary::Bit(_) => {
            let inner = one(alloc, op, t)?;
            one(alloc, Unary::Quotient(power), &inner)
        }
        Unary::Quotient(other) => {
            let whole = other as u16 * power as u16;
            if whole < 256 {
                return one(alloc, Unary::Quotient(whole as u8), t);
            }
            number(alloc, 0)
        }
    }
}

fn quotient_in(alloc: Global, power: u8, t: &Rc<Node>) -> Result<Rc<Node>, AllocError>
    ensures term { Makes result (quotient_in power (shown t.now)) }
{
    match &**t {
        Node::One { op, operand } => quotient_of_part(alloc, power, *op, operand),
        Node::Number(_)
        | Node::Place { .. }
        | Node::Sum { .. }
        | Node::Two { .. }
        | Node::Three { .. } => one(alloc, Unary::Quotient(power), t),
    }
}

/// What is left of a term behind a division by a power of two below 256.
#[tactic(auto, using(crate::proofs::Made::quotient_made), unfolding(crate::specs::Bits::quotient))]
pub fn quotient(alloc: Global, power: u8, a: &Rc<Node>) -> Result<Rc<Node>, AllocError>
    ensures term { Makes result (quotient power (shown a.now)) }
    ensures value { Values result (λ e. value e (shown a.now) / power) }
{
    if power == 0 {
        return number(alloc, 0);
    }
    if is_number(a) {
        return number(alloc, amount(a) / power);
    }
    if is_bit(a) && 1 < power {
        return number(alloc, 0);
    }
    quotient_in(alloc, power, a)
}

#[tactic(auto, unfolding(crate::specs::Bits::same_simple))]
fn same_simple(alloc: Global, t: &Rc<Node>, k: u8) -> Result<Rc<Node>, AllocError>
    ensures term { Makes result (same_simple (shown t.now) k) }
{
    if is_bit(t) && k == 0 {
        return negated(alloc, t);
    }
    if is_bit(t) && k == 1 {
        return t.clone();
    }
    if is_bit(t) {
        return number(alloc, 0);
    }
    let other = number(alloc, k)?;
    two(alloc, Binary::Same, t, &other)
}

#[tactic(auto, unfolding(crate::specs::Bits::same_two))]
fn same_two(alloc: Global, a: &Rc<Node>, b: &Rc<Node>) -> Result<Rc<Node>, AllocError>
    ensures term { Makes result (same_two (shown a.now) (shown b.now)) }
{
    if same_term(a, b) {
        return number(alloc, 1);
    }
    if rank(a) < rank(b) {
        return two(alloc, Binary::Same, a, b);
    }
    two(alloc, Binary::Same, b, a)
}

fn same_joined(
    alloc: Global,
    op: Binary,
    a: &Rc<Node>,
    b: &Rc<Node>,
    k: u8,
) -> Result<Rc<Node>, AllocError>
    ensures term { Makes result (same_joined op (shown a.now) (shown b.now) k) }
{
    match op {
        Binary::Exclusive => {
            if is_number(b) {
                return same_simple(alloc, a, amount(b) ^ k);
            }
            if k == 0 {
                return same_two(alloc, a, b);
            }
            let whole = two(alloc, op, a, b)?;
            same_simple(alloc, &whole, k)
        }
        Binary::Same | Binary::Mask | Binary::Union | Binary::Table(_) => {
            let whole = two(alloc, op, a, b)?;
            same_simple(alloc, &whole, k)
        }
    }
}

fn same_single(alloc: Global, t: &Rc<Node>, k: u8) -> Result<Rc<Node>, AllocError>
    ensures term { Makes result (same_single (shown t.now) k) }
{
    match &**t {
        Node::Two { op, left, right } => same_joined(alloc, *op, left, right, k),
        Node::Number(_)
        | Node::Place { .. }
        | Node::Sum { .. }
        | Node::One { .. }
        | Node::Three { .. } => same_simple(alloc, t, k),
    }
}

#[tactic(auto, unfolding(crate::specs::Bits::same_flag))]
fn same_flag(alloc: Global, factor: u8, t: &Rc<Node>, j: u8, k: u8) -> Result<Rc<Node>, AllocError>
    ensures term { Makes result (same_flag factor (shown t.now) j k) }
{
    let raised = factor.wrapping_add(j);
    if raised == k && j == k {
        return number(alloc, 1);
    }
    if raised == k {
        return t.clone();
    }
    if j == k {
        return negated(alloc, t);
    }
    number(alloc, 0)
}

#[tactic(auto, unfolding(crate::specs::Bits::same_scaled))]
fn same_scaled(
    alloc: Global,
    factor: u8,
    t: &Rc<Node>,
    rest: &Rc<Node>,
    k: u8,
) -> Result<Rc<Node>, AllocError>
    requires number { is_number (shown rest.now) ≡ true }
    ensures term { Makes result (same_scaled factor (shown t.now) (amount (shown rest.now)) k) }
{
    let j = amount(rest);
    if factor == 1 {
        return same_single(alloc, t, k.wrapping_sub(j));
    }
    if factor == 255 {
        return same_single(alloc, t, j.wrapping_sub(k));
    }
    if is_bit(t) {
        return same_flag(alloc, factor, t, j, k);
    }
    let last = number(alloc, j)?;
    compared(alloc, factor, t, &last, k)
}

// Whether one factor is the negative of the other, 1 and 255.
fn opposed(f: u8, g: u8) -> bool
    ensures is { result ≡ opposed f g }
{
    f == 1 && g == 255 || f == 255 && g == 1
}

// A sum that is compared with a number, as it is.
fn compared(
    alloc: Global,
    factor: u8,
    t: &Rc<Node>,
    rest: &Rc<Node>,
    k: u8,
) -> Result<Rc<Node>, AllocError>
    ensures term { Makes result (Join Binary.Same (Plus factor (shown t.now) (shown rest.now)) (Num k)) }
{
    let whole = sum(alloc, factor, t, rest)?;
    let other = number(alloc, k)?;
    two(alloc, Binary::Same, &whole, &other)
}

fn same_difference(
    alloc: Global,
    factor: u8,
    t: &Rc<Node>,
    rest: &Rc<Node>,
    k: u8,
) -> Result<Rc<Node>, AllocError>
    ensures term { Makes result (same_difference factor (shown t.now) (shown rest.now) k) }
{
    match &**rest {
        Node::Sum {
            factor: other,
            term,
            rest: last,
        } => {
            if opposed(factor, *other) && is_amount(last, k) {
                return same_two(alloc, t, term);
            }
            compared(alloc, factor, t, rest, k)
        }
        Node::Number(_)
        | Node::Place { .. }
        | Node::One { .. }
        | Node::Two { .. }
        | Node::Three { .. } => compared(alloc, factor, t, rest, k),
    }
}

fn same_number(alloc: Global, t: &Rc<Node>, k: u8) -> Result<Rc<Node>, AllocError>
    ensures term { Makes result (same_number (shown t.now) k) }
{
    match &**t {
        Node::Sum { factor, term, rest } => {
            if is_number(rest) {
                return same_scaled(alloc, *factor, term, rest, k);
            }
            same_difference(alloc, *factor, term, rest, k)
        }
        Node::Number(_)
        | Node::Place { .. }
        | Node::One { .. }
        | Node::Two { .. }
        | Node::Three { .. } => same_single(alloc, t, k),
    }
}

/// 1 where both are equal, and else 0.
#[tactic(auto, using(crate::proofs::Made::same_made), unfolding(crate::specs::Bits::same))]
pub fn same(alloc: Global, a: &Rc<Node>, b: &Rc<Node>) -> Result<Rc<Node>, AllocError>
    ensures term { Makes result (same (shown a.now) (shown b.now)) }
    ensures value { Values result (λ e. truth (nat_eq (value e (shown a.now)) (value e (shown b.now)))) }
{
    if is_number(a) && is_number(b) {
        return number(alloc, (amount(a) == amount(b)) as u8);
    }
    if is_number(b) {
        return same_number(alloc, a, amount(b));
    }
    if is_number(a) {
        return same_number(alloc, b, amount(a));
    }
    same_two(alloc, a, b)
}

/// By a bit c: a where it is 1, and else b.
#[tactic(auto, using(crate::proofs::Made::choice_made), unfolding(crate::specs::Bits::choice))]
pub fn choice(
    alloc: Global,
    c: &Rc<Node>,
    a: &Rc<Node>,
    b: &Rc<Node>,
) -> Result<Rc<Node>, AllocError>
    ensures term { Makes result (choice (shown c.now) (shown a.now) (shown b.now)) }
    ensures value { Values result (λ e. chosen (value e (shown c.now)) (value e (shown a.now)) (value e (shown b.now))) }
{
    if is_amount(c, 0) {
        return b.clone();
    }
    if is_number(c) || same_term(a, b) {
        return a.clone();
    }
    if is_bit(c) {
        let first = base(alloc, a)?;
        let second = base(alloc, b)?;
        if same_term(&first, &second) {
            return sum_of(alloc, offset(a).wrapping_sub(offset(b)), c, b);
        }
    }
    three(alloc, Ternary::Choice, c, a, b)
}
