//! Terms in normal form, with other terms in the place of atoms.

ghost use Rattle.std.specs.Prelude.{◌≡◌};
ghost use Rattle.value_terms.specs.Terms.{Atom};
ghost use Rattle.value_terms.specs.Shown.{term_of, shown, Makes};
ghost use Rattle.value_terms.specs.Putting.{applied, joined, tripled, put, claimed};

use crate::bits::{bit, choice, one, quotient, same};
use crate::carries::carry;
use crate::masks::{exclusive, mask, table_byte, union};
use crate::sums::sum_of;
use crate::term::{Binary, Node, Ternary, Unary, number, place};
use std::alloc::{AllocError, Global};
use std::rc::Rc;

/// What a place holds, by its kind and its number.
#[derive(Drop)]
pub struct Claim {
    pub kind: u8,
    pub number: u32,
    pub term: Rc<Node>,
}

#[tactic(auto, unfolding(crate::specs::Putting::applied))]
fn applied(alloc: Global, op: Unary, t: &Rc<Node>) -> Result<Rc<Node>, AllocError>
    ensures term { Makes result (applied op (shown t.now)) }
{
    match op {
        Unary::Bit(power) => bit(alloc, power, t),
        Unary::Quotient(power) => quotient(alloc, power, t),
    }
}

#[tactic(auto, unfolding(crate::specs::Putting::joined))]
fn joined(alloc: Global, op: Binary, a: &Rc<Node>, b: &Rc<Node>) -> Result<Rc<Node>, AllocError>
    ensures term { Makes result (joined op (shown a.now) (shown b.now)) }
{
    match op {
        Binary::Same => same(alloc, a, b),
        Binary::Mask => mask(alloc, a, b),
        Binary::Union => union(alloc, a, b),
        Binary::Exclusive => exclusive(alloc, a, b),
        Binary::Table(number) => table_byte(alloc, number, a, b),
    }
}

#[tactic(auto, unfolding(crate::specs::Putting::tripled))]
fn tripled(
    alloc: Global,
    op: Ternary,
    a: &Rc<Node>,
    b: &Rc<Node>,
    c: &Rc<Node>,
) -> Result<Rc<Node>, AllocError>
    ensures term { Makes result (tripled op (shown a.now) (shown b.now) (shown c.now)) }
{
    match op {
        Ternary::Carry => carry(alloc, a, b, c),
        Ternary::Choice => choice(alloc, a, b, c),
    }
}

/// The first term that is claimed of a place, and else what stood there.
pub fn claimed(
    alloc: Global,
    claims: &[Claim],
    kind: u8,
    number: u32,
) -> Result<Rc<Node>, AllocError>
    ensures term { Makes result (claimed claims.now kind number) }
{
    let mut left = claims;
    while let [claim, rest @ ..] = left {
        if claim.kind == kind && claim.number == number {
            return claim.term.clone();
        }
        left = rest;
    }
    place(alloc, kind, number)
}

/// A term in normal form, with what is claimed of places in their place.
pub fn put(alloc: Global, claims: &[Claim], t: &Node) -> Result<Rc<Node>, AllocError>
    ensures term { Makes result (put (claimed claims.now) (term_of t.now)) }
{
    match t {
        Node::Number(k) => number(alloc, *k),
        Node::Place { kind, number } => claimed(alloc, claims, *kind, *number),
        Node::Sum { factor, term, rest } => {
            let first = put(alloc, claims, term)?;
            let second = put(alloc, claims, rest)?;
            sum_of(alloc, *factor, &first, &second)
        }
        Node::One { op, operand } => {
            let first = put(alloc, claims, operand)?;
            applied(alloc, *op, &first)
        }
        Node::Two { op, left, right } => {
            let first = put(alloc, claims, left)?;
            let second = put(alloc, claims, right)?;
            joined(alloc, *op, &first, &second)
        }
        Node::Three {
            op,
            first,
            second,
            third,
        } => {
            let x = put(alloc, claims, first)?;
            let y = put(alloc, claims, second)?;
            let z = put(alloc, claims, third)?;
            tripled(alloc, *op, &x, &y, &z)
        }
    }
}
