//! What an operation without parts reads and writes.

ghost use Rattle.std.specs.Prelude.{◌≡◌, true, false, not, ◌&&◌, ◌||◌, if◌then◌else◌, IfSome, IsSome};
ghost use Rattle.c_ints.specs.Operators.{type_of, unary_type, compares, shifts};
ghost use Rattle.c_ints.specs.Range.{bytes_of};
ghost use Rattle.core_code.specs.Values.{right_type};
ghost use Rattle.core_code.specs.View.{tree_of};
ghost use Rattle.narrow_code.specs.Checked as tested;
ghost use Rattle.narrow_code.specs.Lending as lending;
ghost use Rattle.narrow_code.specs.Links as links;
ghost use Rattle.narrow_code.specs.Drafts.{marks_in};
ghost use Rattle.narrow_code.specs.Marks as stated_marks;
ghost use Rattle.narrow_code.specs.Plans as plans;
ghost use Rattle.narrow_code.specs.Right as rules;
ghost use Rattle.narrow_pass.specs.Narrowed.{lent_by};
ghost use Rattle.narrow_pass.specs.Ways as stated;
ghost use Rattle.narrow_pass.specs.Ways.{mark_of, marks_of, turns_of};

use crate::marks::{
    Mark, Run, both, denies, is_lent, is_low_alone, is_number, mark_at, may_differ, put_all,
    put_nowhere, put_on, put_one, put_stacked, same_from, tells,
};
use crate::turns::Turns;
use c_ints::{BinOp, IntTy, UnOp, promote, size};
use core_code::{Byte, Core};

// ---- types

fn bytes_in(ty: IntTy) -> u16
    ensures value { result ≡ bytes_of ty }
{
    size(ty) as u16
}

fn compares(op: BinOp) -> bool
    ensures { result ≡ compares op }
{
    match op {
        BinOp::Lt | BinOp::Gt | BinOp::Le | BinOp::Ge | BinOp::Eq | BinOp::Ne => true,
        BinOp::Mul
        | BinOp::Div
        | BinOp::Rem
        | BinOp::Add
        | BinOp::Sub
        | BinOp::Shl
        | BinOp::Shr
        | BinOp::And
        | BinOp::Xor
        | BinOp::Or => false,
    }
}

fn shifts(op: BinOp) -> bool
    ensures { result ≡ shifts op }
{
    match op {
        BinOp::Shl | BinOp::Shr => true,
        BinOp::Mul
        | BinOp::Div
        | BinOp::Rem
        | BinOp::Add
        | BinOp::Sub
        | BinOp::Lt
        | BinOp::Gt
        | BinOp::Le
        | BinOp::Ge
        | BinOp::Eq
        | BinOp::Ne
        | BinOp::And
        | BinOp::Xor
        | BinOp::Or => false,
    }
}

/// Whether the low byte of what an operator gives takes the low bytes of its operands alone.
pub fn is_low(op: BinOp) -> bool
    ensures { result ≡ rules.is_low op }
{
    match op {
        BinOp::Add | BinOp::Sub | BinOp::And | BinOp::Xor | BinOp::Or => true,
        BinOp::Mul
        | BinOp::Div
        | BinOp::Rem
        | BinOp::Shl
        | BinOp::Shr
        | BinOp::Lt
        | BinOp::Gt
        | BinOp::Le
        | BinOp::Ge
        | BinOp::Eq
        | BinOp::Ne => false,
    }
}

fn type_of(op: BinOp, ty: IntTy) -> IntTy
    ensures { result ≡ type_of op ty }
{
    if compares(op) { IntTy::Int } else { ty }
}

fn right_type(op: BinOp, ty: IntTy) -> IntTy
    ensures { result ≡ right_type op ty }
{
    if shifts(op) { IntTy::UChar } else { ty }
}

fn unary_type(op: UnOp, ty: IntTy) -> IntTy
    ensures { result ≡ unary_type op ty }
{
    match op {
        UnOp::Bang => IntTy::Int,
        UnOp::Plus | UnOp::Minus | UnOp::Not => promote(ty),
    }
}

// ---- reads

fn nothing_read() -> Run
    ensures { result ≡ stated.nothing_read }
{
    Run {
        byte: Byte::Device { address: 0 },
        count: 0,
    }
}

/// The first bytes that an operation reads.
#[tactic(auto, using(crate::proofs::Trees::trees))]
pub fn first_read(c: &Core) -> Run
    ensures { result ≡ stated.first_read (tree_of c.now) }
{
    match c {
        Core::Copy { from, .. } | Core::BitWrite { from, .. } => Run {
            byte: *from,
            count: 1,
        },
        Core::Load { pointer, .. } | Core::Store { pointer, .. } => Run {
            byte: *pointer,
            count: 2,
        },
        Core::Unary { ty, at, .. } => Run {
            byte: *at,
            count: bytes_in(*ty),
        },
        Core::Binary { ty, left, .. } => Run {
            byte: *left,
            count: bytes_in(*ty),
        },
        Core::Convert { from, at, .. } => Run {
            byte: *at,
            count: bytes_in(*from),
        },
        _ => nothing_read(),
    }
}

/// The others.
#[tactic(auto, using(crate::proofs::Trees::trees))]
pub fn second_read(c: &Core) -> Run
    ensures { result ≡ stated.second_read (tree_of c.now) }
{
    match c {
        Core::Store { from, count, .. } => Run {
            byte: *from,
            count: *count,
        },
        Core::Binary { op, ty, right, .. } => Run {
            byte: *right,
            count: bytes_in(right_type(*op, *ty)),
        },
        _ => nothing_read(),
    }
}

/// The bytes that an operation writes by name.
pub fn write_of(c: &Core) -> Run {
    match c {
        Core::Set { to, .. } | Core::Copy { to, .. } | Core::BitRead { to, .. } => Run {
            byte: *to,
            count: 1,
        },
        Core::Address { to, .. } => Run {
            byte: *to,
            count: 2,
        },
        Core::Load { to, count, .. } => Run {
            byte: *to,
            count: *count,
        },
        Core::Unary { op, ty, at } => Run {
            byte: *at,
            count: bytes_in(unary_type(*op, *ty)),
        },
        Core::Binary { op, ty, to, .. } => Run {
            byte: *to,
            count: bytes_in(type_of(*op, *ty)),
        },
        Core::Convert { to, at, .. } => Run {
            byte: *at,
            count: bytes_in(*to),
        },
        _ => nothing_read(),
    }
}

// ---- control

/// Whether an operation has no parts, and the loop that it leaves or repeats allows that.
#[tactic(auto, using(crate::proofs::Trees::trees))]
pub fn may_go(turns: &Turns, here: &[Mark], c: &Core) -> bool
    ensures goes { result ≡ true → stated.may_go (turns_of turns.now.list.items) (marks_of here.now) (tree_of c.now) ≡ true }
{
    match c {
        Core::Exit(count) => turns.may_exit(*count, here),
        Core::Again(count) => turns.may_repeat(*count, here),
        Core::Many(_) | Core::If { .. } | Core::Loop(_) => false,
        _ => true,
    }
}

fn takes_lent(lent: &[bool], place: Byte) -> bool
    ensures { result ≡ lending.takes_lent (links.is_lent (lent_by lent.now)) place }
{
    match place {
        Byte::Frame { copy, .. } => is_lent(lent, copy),
        Byte::Static { .. } | Byte::Result { .. } | Byte::Device { .. } => true,
    }
}

/// Whether an operation without parts takes no address of a frame but of those that are lent.
#[tactic(auto, using(crate::proofs::Trees::trees))]
pub fn lends(lent: &[bool], c: &Core) -> bool
    ensures lent { result ≡ true → lending.lends (links.is_lent (lent_by lent.now)) (tree_of c.now) ≡ true }
{
    match c {
        Core::Address { place, .. } => takes_lent(lent, *place),
        Core::Many(_) | Core::If { .. } | Core::Loop(_) => false,
        _ => true,
    }
}

// ---- small values

fn keeps_small(op: BinOp) -> bool
    ensures { result ≡ rules.keeps_small op }
{
    match op {
        BinOp::And | BinOp::Xor | BinOp::Or => true,
        BinOp::Mul
        | BinOp::Div
        | BinOp::Rem
        | BinOp::Add
        | BinOp::Sub
        | BinOp::Shl
        | BinOp::Shr
        | BinOp::Lt
        | BinOp::Gt
        | BinOp::Le
        | BinOp::Ge
        | BinOp::Eq
        | BinOp::Ne => false,
    }
}

fn is_small(op: BinOp, small: bool) -> bool
    ensures { result ≡ rules.is_small op small }
{
    compares(op) || keeps_small(op) && small
}

fn is_byte(ty: IntTy) -> bool
    ensures { result ≡ rules.is_byte ty }
{
    match ty {
        IntTy::Char | IntTy::UChar => true,
        IntTy::SChar
        | IntTy::Short
        | IntTy::UShort
        | IntTy::Int
        | IntTy::UInt
        | IntTy::Long
        | IntTy::ULong => false,
    }
}

/// Whether the low bytes of two values of a type stand for them.
pub fn are_low_alone(
    lent: &[bool],
    copy: u16,
    here: &[Mark],
    ty: IntTy,
    left: Byte,
    right: Byte,
) -> bool
    ensures { result ≡ rules.are_low_alone (lent_by lent.now) copy (marks_in (marks_of here.now)) ty left right }
{
    let count = bytes_in(ty);
    is_low_alone(lent, copy, here, Run { byte: left, count })
        && is_low_alone(lent, copy, here, Run { byte: right, count })
}

// ---- writes

fn numbers_if(holds: bool) -> Mark
    ensures { mark_of result ≡ rules.numbers_if holds }
{
    if holds { Mark::Numbers } else { Mark::Same }
}

fn number_at(lent: &[bool], copy: u16, here: &[Mark], byte: Byte) -> bool
    ensures { result ≡ tested.number_at (lent_by lent.now) copy (marks_of here.now) byte }
{
    is_number(mark_at(lent, copy, here, byte))
}

fn result_mark(left: bool, right: bool) -> Mark
    ensures { mark_of result ≡ rules.result_mark left right }
{
    numbers_if(left && right)
}

// What is known of a number that is set.
#[tactic(auto, using(crate::proofs::Lists::set_zero, crate::proofs::Lists::set_positive))]
fn set_mark(value: u8) -> Mark
    ensures { mark_of result ≡ rules.set_mark value }
{
    if value == 0 {
        Mark::Zero
    } else {
        Mark::Numbers
    }
}

// Of the bytes above the lowest one.
fn upper(small: bool, mark: Mark) -> Mark
    ensures { mark_of result ≡ (if small then stated_marks.Zero else mark_of mark) }
{
    if small { Mark::Zero } else { mark }
}

// Of the lowest byte of what an operator gives.
fn result_at(lent: &[bool], copy: u16, here: &[Mark], left: Byte, right: Byte) -> Mark
    ensures { mark_of result ≡ rules.result_mark (tested.number_at (lent_by lent.now) copy (marks_of here.now) left) (tested.number_at (lent_by lent.now) copy (marks_of here.now) right) }
{
    result_mark(
        number_at(lent, copy, here, left),
        number_at(lent, copy, here, right),
    )
}

// Whether the others are 0.
fn is_thin(
    lent: &[bool],
    copy: u16,
    here: &[Mark],
    op: BinOp,
    ty: IntTy,
    left: Byte,
    right: Byte,
) -> bool
    ensures { result ≡ ((tested.number_at (lent_by lent.now) copy (marks_of here.now) left && tested.number_at (lent_by lent.now) copy (marks_of here.now) right) && rules.is_small op (tested.small_at (lent_by lent.now) copy (marks_of here.now) ty left right)) }
{
    let numbers = both(
        number_at(lent, copy, here, left),
        number_at(lent, copy, here, right),
    );
    both(
        numbers,
        is_small(op, are_low_alone(lent, copy, here, ty, left, right)),
    )
}

fn converted_mark(from: IntTy, number: bool) -> Mark
    ensures { mark_of result ≡ rules.converted_mark from number }
{
    numbers_if(number || !(bytes_in(from) == 2))
}

/// What is known behind an operation without parts.
#[tactic(auto, using(crate::proofs::Trees::trees))]
pub fn write(lent: &[bool], copy: u16, here: &mut Vec<Mark>, c: &Core)
    ensures { marks_of here.new.items ≡ stated.written (lent_by lent.now) copy (marks_of here.old.items) (tree_of c.now) }
{
    match c {
        Core::Set { to, value } => put_one(copy, here, *to, set_mark(*value)),
        Core::BitRead { to, .. } => put_one(copy, here, *to, Mark::Numbers),
        Core::Address { to, .. } => put_all(copy, here, *to, 2, Mark::Same),
        Core::Copy { to, from } => {
            let mark = mark_at(lent, copy, here, *from);
            put_one(copy, here, *to, mark);
        }
        Core::Load { to, count, .. } => put_on(copy, here, *to, *count),
        Core::Unary { op, ty, at } => {
            put_all(
                copy,
                here,
                *at,
                bytes_in(unary_type(*op, *ty)),
                Mark::Numbers,
            );
        }
        Core::Binary {
            op,
            ty,
            to,
            left,
            right,
        } => {
            let mark = result_at(lent, copy, here, *left, *right);
            let high = upper(is_thin(lent, copy, here, *op, *ty, *left, *right), mark);
            put_stacked(copy, here, *to, bytes_in(type_of(*op, *ty)), mark, high);
        }
        Core::Convert { from, to, at } => {
            let mark = converted_mark(*from, number_at(lent, copy, here, *at));
            let high = upper(is_byte(*from), mark);
            put_stacked(copy, here, *at, bytes_in(*to), mark, high);
        }
        Core::Leave | Core::Exit(_) | Core::Again(_) => put_nowhere(here),
        _ => {}
    }
}

// ---- operators on low bytes

/// Whether an operator may be done on the low bytes.
pub fn may_cut(
    lent: &[bool],
    copy: u16,
    here: &[Mark],
    op: BinOp,
    ty: IntTy,
    to: Byte,
    left: Byte,
    right: Byte,
) -> bool
    ensures { result ≡ tested.may_cut (lent_by lent.now) copy (marks_of here.now) op ty to left right }
{
    (is_low(op) || compares(op) && are_low_alone(lent, copy, here, ty, left, right))
        && 1 < bytes_in(ty)
        && number_at(lent, copy, here, left)
        && number_at(lent, copy, here, right)
        && may_differ(lent, copy, to)
}

/// What is done in its place.
pub fn low_op(op: BinOp) -> BinOp
    ensures { result ≡ plans.low_op op }
{
    match op {
        BinOp::Eq | BinOp::Ne => BinOp::Xor,
        BinOp::Mul
        | BinOp::Div
        | BinOp::Rem
        | BinOp::Add
        | BinOp::Sub
        | BinOp::Shl
        | BinOp::Shr
        | BinOp::Lt
        | BinOp::Gt
        | BinOp::Le
        | BinOp::Ge
        | BinOp::And
        | BinOp::Xor
        | BinOp::Or => op,
    }
}

fn lowest_mark(op: BinOp) -> Mark
    ensures { mark_of result ≡ rules.lowest_mark op }
{
    match op {
        BinOp::Eq => Mark::Denies,
        BinOp::Ne => Mark::Tells,
        BinOp::Mul
        | BinOp::Div
        | BinOp::Rem
        | BinOp::Add
        | BinOp::Sub
        | BinOp::Shl
        | BinOp::Shr
        | BinOp::Lt
        | BinOp::Gt
        | BinOp::Le
        | BinOp::Ge
        | BinOp::And
        | BinOp::Xor
        | BinOp::Or => Mark::Numbers,
    }
}

fn small_mark(small: bool) -> Mark
    ensures { mark_of result ≡ (if small then stated_marks.Cleared else stated_marks.Differs) }
{
    if small { Mark::Cleared } else { Mark::Differs }
}

fn upper_mark(op: BinOp, small: bool) -> Mark
    ensures { mark_of result ≡ rules.upper_mark op small }
{
    match op {
        BinOp::Eq | BinOp::Ne => Mark::Cleared,
        BinOp::Lt | BinOp::Gt | BinOp::Le | BinOp::Ge => Mark::Zero,
        BinOp::And | BinOp::Xor | BinOp::Or => small_mark(small),
        BinOp::Mul | BinOp::Div | BinOp::Rem | BinOp::Add | BinOp::Sub | BinOp::Shl | BinOp::Shr =>
            Mark::Differs,
    }
}

/// What is known behind an operator that is done on the low bytes.
pub fn put_cut(
    lent: &[bool],
    copy: u16,
    here: &mut Vec<Mark>,
    op: BinOp,
    ty: IntTy,
    to: Byte,
    left: Byte,
    right: Byte,
)
    ensures { marks_of here.new.items ≡ tested.put_bytes copy (marks_of here.old.items) to (bytes_of (type_of op ty)) (rules.narrow_mark op (tested.small_at (lent_by lent.now) copy (marks_of here.old.items) ty left right)) }
{
    let small = are_low_alone(lent, copy, here, ty, left, right);
    let count = bytes_in(type_of(op, ty));
    put_stacked(
        copy,
        here,
        to,
        count,
        lowest_mark(op),
        upper_mark(op, small),
    );
}

// ---- conditions

/// How a condition is made: as it is, by the low byte of its test alone, or by that with its ways changed over.
#[derive(Clone, Copy, PartialEq, Eq)]
pub enum Way {
    Whole,
    Low,
    Turned,
}

// How a condition may be made, if at all.
fn low_way(lent: &[bool], copy: u16, here: &[Mark], test: Byte, size: u8) -> Option<Way>
    ensures { IfSome result (λ way. rules.fits_way (lent_by lent.now) copy (marks_in (marks_of here.now)) test size (stated.way_in way) ≡ true) }
{
    let run = Run {
        byte: test,
        count: size as u16,
    };
    let mark = mark_at(lent, copy, here, test);
    let low = 0 < size && is_low_alone(lent, copy, here, run);
    if low && denies(mark) {
        return Some(Way::Turned);
    }
    if low && tells(mark) {
        return Some(Way::Low);
    }
    if same_from(lent, copy, here, run) {
        return Some(Way::Whole);
    }
    None
}

// The condition as it is, where what it tests is the same.
fn whole_way(lent: &[bool], copy: u16, here: &[Mark], test: Byte, size: u8) -> Option<Way>
    ensures fits { IfSome result (λ way. rules.fits_way (lent_by lent.now) copy (marks_in (marks_of here.now)) test size (stated.way_in way) ≡ true) }
    ensures whole { IfSome result (λ way. stated.way_in way ≡ plans.Whole) }
{
    let run = Run {
        byte: test,
        count: size as u16,
    };
    if same_from(lent, copy, here, run) {
        return Some(Way::Whole);
    }
    None
}

/// How a condition may be made, if at all: as it is, where types alone are to change.
pub fn way_of(
    alone: bool,
    lent: &[bool],
    copy: u16,
    here: &[Mark],
    test: Byte,
    size: u8,
) -> Option<Way>
    ensures fits { IfSome result (λ way. rules.fits_way (lent_by lent.now) copy (marks_in (marks_of here.now)) test size (stated.way_in way) ≡ true) }
    ensures whole { IfSome result (λ way. alone ≡ true → stated.way_in way ≡ plans.Whole) }
{
    if alone {
        whole_way(lent, copy, here, test, size)
    } else {
        low_way(lent, copy, here, test, size)
    }
}

/// Whether an operator may be another one on low bytes: not where types alone are to change.
pub fn may_change(alone: bool, op: BinOp) -> bool
    ensures { result ≡ (not alone || rules.is_low op) }
{
    !alone || is_low(op)
}

/// Whether all that an operation reads is the same.
#[tactic(auto, using(crate::proofs::Runs::both_same))]
pub fn reads_same(lent: &[bool], copy: u16, here: &[Mark], c: &Core) -> bool
    ensures same { result ≡ true → stated.reads_same (lent_by lent.now) copy (marks_of here.now) (tree_of c.now) ≡ true }
{
    same_from(lent, copy, here, first_read(c)) && same_from(lent, copy, here, second_read(c))
}

/// The same operation, where it has no parts.
#[tactic(auto, using(crate::proofs::Trees::trees))]
pub fn same_operation(c: &Core) -> Option<Core>
    ensures same { IfSome result (λ made. made ≡ c.now) }
    ensures there { stated.is_single (tree_of c.now) ≡ true → IsSome result }
{
    Some(match c {
        Core::Set { to, value } => Core::Set {
            to: *to,
            value: *value,
        },
        Core::Address { to, place } => Core::Address {
            to: *to,
            place: *place,
        },
        Core::Copy { to, from } => Core::Copy {
            to: *to,
            from: *from,
        },
        Core::Load { to, pointer, count } => Core::Load {
            to: *to,
            pointer: *pointer,
            count: *count,
        },
        Core::Store {
            pointer,
            from,
            count,
        } => Core::Store {
            pointer: *pointer,
            from: *from,
            count: *count,
        },
        Core::Unary { op, ty, at } => Core::Unary {
            op: *op,
            ty: *ty,
            at: *at,
        },
        Core::Binary {
            op,
            ty,
            to,
            left,
            right,
        } => Core::Binary {
            op: *op,
            ty: *ty,
            to: *to,
            left: *left,
            right: *right,
        },
        Core::Convert { from, to, at } => Core::Convert {
            from: *from,
            to: *to,
            at: *at,
        },
        Core::BitRead { to, register, bit } => Core::BitRead {
            to: *to,
            register: *register,
            bit: *bit,
        },
        Core::BitWrite {
            register,
            bit,
            from,
        } => Core::BitWrite {
            register: *register,
            bit: *bit,
            from: *from,
        },
        Core::Call { copy } => Core::Call { copy: *copy },
        Core::Leave => Core::Leave,
        Core::Exit(count) => Core::Exit(*count),
        Core::Again(count) => Core::Again(*count),
        _ => return None,
    })
}
