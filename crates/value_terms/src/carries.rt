//! Carries of sums of three.

ghost use Rattle.std.specs.Prelude.{nat_le, ◌+◌, ◌≡◌};
ghost use Rattle.value_terms.specs.Shown.{term_of, shown, Makes, Values};
ghost use Rattle.pic_world.specs.Bits.{truth};
ghost use Rattle.value_terms.specs.Terms.{Num, value};
ghost use Rattle.value_terms.specs.Sums.{negated};
ghost use Rattle.value_terms.specs.Bits.{same};
ghost use Rattle.value_terms.specs.Carries.{exceeds, carry_number, carry_ordered, lead, is_negative, leads_negative, carry_any, carry};

use crate::bits::{bit, same, three};
use crate::masks::{mask, union};
use crate::sums::{negated, opposite};
use crate::term::{Node, Ternary, amount, is_bit, is_number, number, rank};
use std::alloc::{AllocError, Global};
use std::rc::Rc;

// 1 where a is this number, and else 0.
fn equals(alloc: Global, a: &Rc<Node>, k: u8) -> Result<Rc<Node>, AllocError>
    ensures term { Makes result (same (shown a.now) (Num k)) }
{
    let other = number(alloc, k)?;
    same(alloc, a, &other)
}

// 1 where a isn't 0, and else 0.
fn is_above(alloc: Global, a: &Rc<Node>) -> Result<Rc<Node>, AllocError>
    ensures term { Makes result (negated (same (shown a.now) (Num 0))) }
{
    let none = equals(alloc, a, 0)?;
    negated(alloc, &none)
}

#[tactic(auto, unfolding(crate::specs::Carries::exceeds))]
fn exceeds(alloc: Global, a: &Rc<Node>, n: u16) -> Result<Rc<Node>, AllocError>
    ensures term { Makes result (exceeds (shown a.now) n) }
{
    if n == 0 {
        return number(alloc, 0);
    }
    if 256 <= n {
        return number(alloc, 1);
    }
    if n == 255 {
        return is_above(alloc, a);
    }
    if n == 1 {
        return equals(alloc, a, 255);
    }
    if n == 128 {
        return bit(alloc, 128, a);
    }
    if is_bit(a) {
        return number(alloc, 0);
    }
    let second = number(alloc, n as u8)?;
    let third = number(alloc, 0)?;
    three(alloc, Ternary::Carry, a, &second, &third)
}

#[tactic(auto, unfolding(crate::specs::Carries::carry_number))]
fn carry_number(
    alloc: Global,
    a: &Rc<Node>,
    b: &Rc<Node>,
    c: &Rc<Node>,
) -> Result<Rc<Node>, AllocError>
    ensures term { Makes result (carry_number (shown a.now) (shown b.now) (shown c.now)) }
{
    let second = amount(b);
    if is_number(c) {
        return exceeds(alloc, a, second as u16 + amount(c) as u16);
    }
    if is_bit(c) && second == 0 {
        let full = equals(alloc, a, 255)?;
        return mask(alloc, c, &full);
    }
    if is_bit(c) && second == 255 {
        let above = is_above(alloc, a)?;
        return union(alloc, c, &above);
    }
    three(alloc, Ternary::Carry, a, b, c)
}

#[tactic(auto, unfolding(crate::specs::Carries::carry_ordered))]
fn carry_ordered(
    alloc: Global,
    a: &Rc<Node>,
    b: &Rc<Node>,
    c: &Rc<Node>,
) -> Result<Rc<Node>, AllocError>
    ensures term { Makes result (carry_ordered (shown a.now) (shown b.now) (shown c.now)) }
{
    if rank(a) < rank(b) {
        return three(alloc, Ternary::Carry, b, a, c);
    }
    three(alloc, Ternary::Carry, a, b, c)
}

fn lead(t: &Node) -> u32
    ensures is { result ≡ lead (term_of t.now) }
{
    match t {
        Node::Sum { term, .. } => rank(term),
        Node::Number(_)
        | Node::Place { .. }
        | Node::One { .. }
        | Node::Two { .. }
        | Node::Three { .. } => rank(t),
    }
}

fn is_negative(t: &Node) -> bool
    ensures is { result ≡ is_negative (term_of t.now) }
{
    match t {
        Node::Sum { factor, .. } => 127 < *factor,
        Node::Number(_)
        | Node::Place { .. }
        | Node::One { .. }
        | Node::Two { .. }
        | Node::Three { .. } => false,
    }
}

fn leads_negative(a: &Node, b: &Node) -> bool
    ensures is { result ≡ leads_negative (term_of a.now) (term_of b.now) }
{
    if lead(a) < lead(b) {
        return is_negative(a);
    }
    is_negative(b)
}

#[tactic(auto, unfolding(crate::specs::Carries::carry_any))]
fn carry_any(
    alloc: Global,
    a: &Rc<Node>,
    b: &Rc<Node>,
    c: &Rc<Node>,
) -> Result<Rc<Node>, AllocError>
    ensures term { Makes result (carry_any (shown a.now) (shown b.now) (shown c.now)) }
{
    if is_bit(c) && leads_negative(a, b) {
        let x = opposite(alloc, a)?;
        let y = opposite(alloc, b)?;
        let z = negated(alloc, c)?;
        let other = carry_ordered(alloc, &x, &y, &z)?;
        return negated(alloc, &other);
    }
    carry_ordered(alloc, a, b, c)
}

/// 1 where a + b + c is above 255, and else 0.
#[tactic(auto, using(crate::proofs::Made::carry_made), unfolding(crate::specs::Carries::carry))]
pub fn carry(
    alloc: Global,
    a: &Rc<Node>,
    b: &Rc<Node>,
    c: &Rc<Node>,
) -> Result<Rc<Node>, AllocError>
    ensures term { Makes result (carry (shown a.now) (shown b.now) (shown c.now)) }
    ensures value { Values result (λ e. truth (nat_le 256 (value e (shown a.now) + value e (shown b.now) + value e (shown c.now)))) }
{
    if is_number(a) && is_number(b) && is_number(c) {
        let total = amount(a) as u16 + amount(b) as u16 + amount(c) as u16;
        return number(alloc, (256 <= total) as u8);
    }
    if is_number(b) {
        return carry_number(alloc, a, b, c);
    }
    if is_number(a) {
        return carry_number(alloc, b, a, c);
    }
    carry_any(alloc, a, b, c)
}
