//! Sums: terms in order, each once, with its factor, and a number at the end.

ghost use Rattle.std.specs.Prelude.{◌%◌, ◌*◌, ◌+◌, ◌-◌, ◌≡◌};
ghost use Rattle.value_terms.specs.Terms.{Plus, value};
ghost use Rattle.value_terms.specs.Shown.{term_of, shown, Makes, Values};
ghost use Rattle.value_terms.specs.Sums.{simple, insert, add_number, as_sum, plus, tidy, sum_of, opposite, negated, offset, base};

use crate::term::{Node, is_amount, number, rank, same_term};
use std::alloc::{AllocError, Global};
use std::rc::Rc;

/// A sum of a part and the others, as it is.
pub fn sum(
    alloc: Global,
    factor: u8,
    term: &Rc<Node>,
    rest: &Rc<Node>,
) -> Result<Rc<Node>, AllocError>
    ensures term { Makes result (Plus factor (shown term.now) (shown rest.now)) }
{
    let term = term.clone()?;
    let rest = rest.clone()?;
    Ok(Rc::new(alloc, Node::Sum { factor, term, rest })?)
}

#[tactic(auto, unfolding(crate::specs::Sums::simple))]
fn simple(
    alloc: Global,
    factor: u8,
    term: &Rc<Node>,
    rest: &Rc<Node>,
) -> Result<Rc<Node>, AllocError>
    ensures term { Makes result (simple factor (shown term.now) (shown rest.now)) }
{
    if factor == 0 {
        return rest.clone();
    }
    sum(alloc, factor, term, rest)
}

fn insert(
    alloc: Global,
    factor: u8,
    term: &Rc<Node>,
    sum_to: &Rc<Node>,
) -> Result<Rc<Node>, AllocError>
    ensures term { Makes result (insert factor (shown term.now) (shown sum_to.now)) }
{
    match &**sum_to {
        Node::Sum {
            factor: other,
            term: first,
            rest,
        } => {
            if same_term(term, first) {
                return simple(alloc, factor.wrapping_add(*other), term, rest);
            }
            if rank(term) < rank(first) {
                return sum(alloc, factor, term, sum_to);
            }
            let behind = insert(alloc, factor, term, rest)?;
            sum(alloc, *other, first, &behind)
        }
        Node::Number(_)
        | Node::Place { .. }
        | Node::One { .. }
        | Node::Two { .. }
        | Node::Three { .. } => simple(alloc, factor, term, sum_to),
    }
}

fn add_number(alloc: Global, k: u8, t: &Rc<Node>) -> Result<Rc<Node>, AllocError>
    ensures term { Makes result (add_number k (shown t.now)) }
{
    match &**t {
        Node::Number(j) => number(alloc, k.wrapping_add(*j)),
        Node::Sum { factor, term, rest } => {
            let behind = add_number(alloc, k, rest)?;
            sum(alloc, *factor, term, &behind)
        }
        Node::Place { .. } | Node::One { .. } | Node::Two { .. } | Node::Three { .. } => {
            let last = number(alloc, k)?;
            sum(alloc, 1, t, &last)
        }
    }
}

fn as_sum(alloc: Global, t: &Rc<Node>) -> Result<Rc<Node>, AllocError>
    ensures term { Makes result (as_sum (shown t.now)) }
{
    match &**t {
        Node::Number(_) | Node::Sum { .. } => t.clone(),
        Node::Place { .. } | Node::One { .. } | Node::Two { .. } | Node::Three { .. } => {
            let last = number(alloc, 0)?;
            sum(alloc, 1, t, &last)
        }
    }
}

fn plus(alloc: Global, factor: u8, t: &Rc<Node>, sum_to: &Rc<Node>) -> Result<Rc<Node>, AllocError>
    ensures term { Makes result (plus factor (shown t.now) (shown sum_to.now)) }
{
    match &**t {
        Node::Number(k) => add_number(alloc, factor.wrapping_mul(*k), sum_to),
        Node::Sum {
            factor: other,
            term,
            rest,
        } => {
            let behind = plus(alloc, factor, rest, sum_to)?;
            plus(alloc, factor.wrapping_mul(*other), term, &behind)
        }
        Node::Place { .. } | Node::One { .. } | Node::Two { .. } | Node::Three { .. } => {
            insert(alloc, factor, t, sum_to)
        }
    }
}

fn tidy(t: &Rc<Node>) -> Result<Rc<Node>, AllocError>
    ensures term { Makes result (tidy (shown t.now)) }
{
    match &**t {
        Node::Sum { factor, term, rest } => {
            if *factor == 1 && is_amount(rest, 0) {
                return term.clone();
            }
            t.clone()
        }
        Node::Number(_)
        | Node::Place { .. }
        | Node::One { .. }
        | Node::Two { .. }
        | Node::Three { .. } => t.clone(),
    }
}

/// factor * a + b, modulo 256.
#[tactic(auto, using(crate::proofs::Made::sum_of_made), unfolding(crate::specs::Sums::sum_of))]
pub fn sum_of(alloc: Global, factor: u8, a: &Rc<Node>, b: &Rc<Node>) -> Result<Rc<Node>, AllocError>
    ensures term { Makes result (sum_of factor (shown a.now) (shown b.now)) }
    ensures value { Values result (λ e. (factor * value e (shown a.now) + value e (shown b.now)) % 256) }
{
    let last = as_sum(alloc, b)?;
    let whole = plus(alloc, factor, a, &last)?;
    tidy(&whole)
}

/// 255 - a.
#[tactic(auto, using(crate::proofs::Made::opposite_made), unfolding(crate::specs::Sums::opposite))]
pub fn opposite(alloc: Global, a: &Rc<Node>) -> Result<Rc<Node>, AllocError>
    ensures term { Makes result (opposite (shown a.now)) }
    ensures value { Values result (λ e. 255 - value e (shown a.now)) }
{
    let last = number(alloc, 255)?;
    sum_of(alloc, 255, a, &last)
}

/// 1 - a: the other value of a bit.
#[tactic(auto, unfolding(crate::specs::Sums::negated))]
pub fn negated(alloc: Global, a: &Rc<Node>) -> Result<Rc<Node>, AllocError>
    ensures term { Makes result (negated (shown a.now)) }
{
    let last = number(alloc, 1)?;
    sum_of(alloc, 255, a, &last)
}

/// The number of a sum.
pub fn offset(t: &Node) -> u8
    ensures is { result ≡ offset (term_of t.now) }
{
    match t {
        Node::Number(k) => *k,
        Node::Sum { rest, .. } => offset(rest),
        Node::Place { .. } | Node::One { .. } | Node::Two { .. } | Node::Three { .. } => 0,
    }
}

/// A sum with 0 in the place of its number.
pub fn base(alloc: Global, t: &Rc<Node>) -> Result<Rc<Node>, AllocError>
    ensures term { Makes result (base (shown t.now)) }
{
    match &**t {
        Node::Number(_) => number(alloc, 0),
        Node::Sum { factor, term, rest } => {
            let behind = base(alloc, rest)?;
            sum(alloc, *factor, term, &behind)
        }
        Node::Place { .. } | Node::One { .. } | Node::Two { .. } | Node::Three { .. } => {
            let last = number(alloc, 0)?;
            sum(alloc, 1, t, &last)
        }
    }
}
