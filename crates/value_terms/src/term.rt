//! Terms, and what is read off them.

ghost use Rattle.std.specs.Prelude.{◌≡◌};
ghost use Rattle.value_terms.specs.Terms.{Num, Atom};
ghost use Rattle.value_terms.specs.Shown.{term_of, shown, Makes};
ghost use Rattle.value_terms.specs.Equality.{same_unary, same_binary, same_ternary, same_term, unary_rank, binary_rank, ternary_rank, rank, is_number, amount, is_amount, makes_bit, joins_bits, compares, carries, is_bit, mentions, capped, size};

use std::alloc::{AllocError, Global};
use std::rc::Rc;

/// An operation on one term, by a power of two below 256: that bit, which is 0 or 1, and the quotient.
#[derive(Clone, Copy)]
pub enum Unary {
    Bit(u8),
    Quotient(u8),
}

/// An operation on two terms: 1 where both are equal and else 0; and; or; exclusive or; and the byte of a table in program
/// memory, by the table's number, whose own number stands in two bytes, the low one first.
#[derive(Clone, Copy)]
pub enum Binary {
    Same,
    Mask,
    Union,
    Exclusive,
    Table(u16),
}

/// An operation on three terms: 1 where their sum is above 255 and else 0; and the second where the first, a bit, is 1, and else
/// the third.
#[derive(Clone, Copy)]
pub enum Ternary {
    Carry,
    Choice,
}

/// What a byte or a bit holds, over what stood in places before. Parts are shared.
#[derive(Drop)]
pub enum Node {
    Number(u8),
    /// What stood in a place.
    Place {
        kind: u8,
        number: u32,
    },
    /// factor * term + rest, modulo 256.
    Sum {
        factor: u8,
        term: Rc<Node>,
        rest: Rc<Node>,
    },
    One {
        op: Unary,
        operand: Rc<Node>,
    },
    Two {
        op: Binary,
        left: Rc<Node>,
        right: Rc<Node>,
    },
    Three {
        op: Ternary,
        first: Rc<Node>,
        second: Rc<Node>,
        third: Rc<Node>,
    },
}

/// A number.
pub fn number(alloc: Global, k: u8) -> Result<Rc<Node>, AllocError>
    ensures term { Makes result (Num k) }
{
    Ok(Rc::new(alloc, Node::Number(k))?)
}

/// What stood in a place, by its kind and its number.
pub fn place(alloc: Global, kind: u8, number: u32) -> Result<Rc<Node>, AllocError>
    ensures term { Makes result (Atom kind number) }
{
    Ok(Rc::new(alloc, Node::Place { kind, number })?)
}

fn same_unary(a: Unary, b: Unary) -> bool
    ensures same { result ≡ same_unary a b }
{
    match (a, b) {
        (Unary::Bit(p), Unary::Bit(q)) => p == q,
        (Unary::Quotient(p), Unary::Quotient(q)) => p == q,
        _ => false,
    }
}

fn same_binary(a: Binary, b: Binary) -> bool
    ensures same { result ≡ same_binary a b }
{
    match (a, b) {
        (Binary::Same, Binary::Same) => true,
        (Binary::Mask, Binary::Mask) => true,
        (Binary::Union, Binary::Union) => true,
        (Binary::Exclusive, Binary::Exclusive) => true,
        (Binary::Table(n), Binary::Table(m)) => n == m,
        _ => false,
    }
}

fn same_ternary(a: Ternary, b: Ternary) -> bool
    ensures same { result ≡ same_ternary a b }
{
    match (a, b) {
        (Ternary::Carry, Ternary::Carry) => true,
        (Ternary::Choice, Ternary::Choice) => true,
        _ => false,
    }
}

/// Whether two terms have the same form.
pub fn same_term(a: &Node, b: &Node) -> bool
    ensures same { result ≡ same_term (term_of a.now) (term_of b.now) }
{
    match a {
        Node::Number(j) => match b {
            Node::Number(k) => *j == *k,
            _ => false,
        },
        Node::Place { kind: j, number: k } => match b {
            Node::Place { kind: m, number: n } => *j == *m && *k == *n,
            _ => false,
        },
        Node::Sum {
            factor: f,
            term: p,
            rest: q,
        } => match b {
            Node::Sum {
                factor: g,
                term: r,
                rest: s,
            } => *f == *g && same_term(p, r) && same_term(q, s),
            _ => false,
        },
        Node::One { op: f, operand: p } => match b {
            Node::One { op: g, operand: q } => same_unary(*f, *g) && same_term(p, q),
            _ => false,
        },
        Node::Two {
            op: f,
            left: p,
            right: q,
        } => match b {
            Node::Two {
                op: g,
                left: r,
                right: s,
            } => same_binary(*f, *g) && same_term(p, r) && same_term(q, s),
            _ => false,
        },
        Node::Three {
            op: f,
            first: p,
            second: q,
            third: r,
        } => match b {
            Node::Three {
                op: g,
                first: x,
                second: y,
                third: z,
            } => { same_ternary(*f, *g) && same_term(p, x) && same_term(q, y) && same_term(r, z) }
            _ => false,
        },
    }
}

fn unary_rank(op: Unary) -> u32
    ensures rank { result ≡ unary_rank op }
{
    match op {
        Unary::Bit(p) => 300 + p as u32,
        Unary::Quotient(p) => 600 + p as u32,
    }
}

fn binary_rank(op: Binary) -> u32
    ensures rank { result ≡ binary_rank op }
{
    match op {
        Binary::Same => 901,
        Binary::Mask => 902,
        Binary::Union => 903,
        Binary::Exclusive => 904,
        Binary::Table(n) => 905 + n as u32,
    }
}

fn ternary_rank(op: Ternary) -> u32
    ensures rank { result ≡ ternary_rank op }
{
    match op {
        Ternary::Carry => 907,
        Ternary::Choice => 908,
    }
}

/// A number by which terms are put in order: terms of the same form have the same.
pub fn rank(t: &Node) -> u32
    ensures rank { result ≡ rank (term_of t.now) }
{
    match t {
        Node::Number(k) => *k as u32,
        Node::Place { kind, number } => {
            ((1000 + *kind as u64 + 16 * *number as u64) % 65536) as u32
        }
        Node::Sum { factor, term, rest } => {
            let first = rank(term) as u64;
            let second = rank(rest) as u64;
            ((2000 + *factor as u64 + 31 * first + 37 * second) % 65536) as u32
        }
        Node::One { op, operand } => {
            let first = rank(operand) as u64;
            ((3000 + unary_rank(*op) as u64 + 41 * first) % 65536) as u32
        }
        Node::Two { op, left, right } => {
            let first = rank(left) as u64;
            let second = rank(right) as u64;
            ((4000 + binary_rank(*op) as u64 + 43 * first + 47 * second) % 65536) as u32
        }
        Node::Three {
            op,
            first,
            second,
            third,
        } => {
            let x = rank(first) as u64;
            let y = rank(second) as u64;
            let z = rank(third) as u64;
            ((5000 + ternary_rank(*op) as u64 + 53 * x + 59 * y + 61 * z) % 65536) as u32
        }
    }
}

/// Whether a term is a number.
pub fn is_number(t: &Node) -> bool
    ensures is { result ≡ is_number (term_of t.now) }
{
    match t {
        Node::Number(_) => true,
        Node::Place { .. }
        | Node::Sum { .. }
        | Node::One { .. }
        | Node::Two { .. }
        | Node::Three { .. } => false,
    }
}

/// A number's value, and 0 of a term that is no number.
pub fn amount(t: &Node) -> u8
    ensures is { result ≡ amount (term_of t.now) }
{
    match t {
        Node::Number(k) => *k,
        Node::Place { .. }
        | Node::Sum { .. }
        | Node::One { .. }
        | Node::Two { .. }
        | Node::Three { .. } => 0,
    }
}

/// Whether a term is this number.
pub fn is_amount(t: &Node, k: u8) -> bool
    ensures is { result ≡ is_amount (term_of t.now) k }
{
    is_number(t) && amount(t) == k
}

fn makes_bit(op: Unary) -> bool
    ensures is { result ≡ makes_bit op }
{
    match op {
        Unary::Bit(_) => true,
        Unary::Quotient(_) => false,
    }
}

fn joins_bits(op: Binary) -> bool
    ensures is { result ≡ joins_bits op }
{
    match op {
        Binary::Mask | Binary::Union | Binary::Exclusive => true,
        Binary::Same | Binary::Table(_) => false,
    }
}

fn compares(op: Binary) -> bool
    ensures is { result ≡ compares op }
{
    match op {
        Binary::Same => true,
        Binary::Mask | Binary::Union | Binary::Exclusive | Binary::Table(_) => false,
    }
}

fn carries(op: Ternary) -> bool
    ensures is { result ≡ carries op }
{
    match op {
        Ternary::Carry => true,
        Ternary::Choice => false,
    }
}

/// Whether the value is 0 or 1 by the term's form.
pub fn is_bit(t: &Node) -> bool
    ensures is { result ≡ is_bit (term_of t.now) }
{
    match t {
        Node::Number(k) => *k < 2,
        Node::Place { .. } => false,
        Node::Sum { factor, term, rest } => *factor == 255 && is_amount(rest, 1) && is_bit(term),
        Node::One { op, .. } => makes_bit(*op),
        Node::Two { op, left, right } => {
            compares(*op) || joins_bits(*op) && is_bit(left) && is_bit(right)
        }
        Node::Three {
            op,
            second,
            third,
            ..
        } => carries(*op) || is_bit(second) && is_bit(third),
    }
}

/// Whether what stood in a place is a part of the term.
pub fn mentions(kind: u8, number: u32, t: &Node) -> bool
    ensures is { result ≡ mentions kind number (term_of t.now) }
{
    match t {
        Node::Number(_) => false,
        Node::Place { kind: k, number: n } => *k == kind && *n == number,
        Node::Sum { term, rest, .. } => mentions(kind, number, term)
            || mentions(kind, number, rest),
        Node::One { operand, .. } => mentions(kind, number, operand),
        Node::Two { left, right, .. } => mentions(kind, number, left)
            || mentions(kind, number, right),
        Node::Three {
            first,
            second,
            third,
            ..
        } => {
            mentions(kind, number, first)
                || mentions(kind, number, second)
                || mentions(kind, number, third)
        }
    }
}

fn capped(n: u64) -> u32
    ensures is { result ≡ capped n }
{
    if n < 65535 { n as u32 } else { 65535 }
}

/// How many nodes a term has, each as often as it is a part, and 65,535 where these are more.
pub fn size(t: &Node) -> u32
    ensures is { result ≡ size (term_of t.now) }
{
    match t {
        Node::Number(_) | Node::Place { .. } => 1,
        Node::Sum { term, rest, .. } => {
            let first = size(term) as u64;
            let second = size(rest) as u64;
            capped(1 + first + second)
        }
        Node::One { operand, .. } => {
            let first = size(operand) as u64;
            capped(1 + first)
        }
        Node::Two { left, right, .. } => {
            let first = size(left) as u64;
            let second = size(right) as u64;
            capped(1 + first + second)
        }
        Node::Three {
            first,
            second,
            third,
            ..
        } => {
            let x = size(first) as u64;
            let y = size(second) as u64;
            let z = size(third) as u64;
            capped(1 + x + y + z)
        }
    }
}
