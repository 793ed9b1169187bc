//! The parts of a switch that hold no statement (ISO/IEC 9899:1990, 6.6.4.2).
//!
//! A segment of the body goes from one label to the next. Each stands in a loop of its own, after a loop that leads to
//! it; the innermost loop compares the value with the labels, and leaving so many loops there reaches the segment of that
//! number.

ghost use Rattle.std.specs.Prelude.{◌≡◌, ◌+◌, ◌<◌, ◌^◌, IfOk, OnOk};
ghost use Rattle.c_typed.specs.Views.{expression_of};
ghost use Rattle.core_code.specs.View.{trees_in};
ghost use Rattle.core_puts.specs.Puts.{Appends};
ghost use Rattle.lower_stmt.specs.Ground.{ground_of};
ghost use Rattle.lower_stmt.specs.Nesting as nesting;
ghost use Rattle.lower_stmt.specs.Switches as switches;

use crate::emitting::{exit, put_choice};
use crate::labels::segments_before;
use crate::site::{Site, first, temporary, value_bytes};
use c_ints::{BinOp, IntTy};
use c_typed::{TCase, TExpr};
use core_code::{Byte, Core};
use lower_expr::{operation_type, put, put_loop, put_number};
use std::alloc::{AllocError, Global};

#[inline(never)]
#[tactic(auto, using(core_code::proofs::Views::tree_binary))]
fn put_comparison(
    ty: IntTy,
    to: Byte,
    left: Byte,
    right: Byte,
    out: &mut Vec<Core>,
) -> Result<(), AllocError>
    ensures { OnOk result (Appends out.old.items out.new.items (switches.comparison ty to left right)) }
{
    put(
        out,
        Core::Binary {
            op: BinOp::Eq,
            ty,
            to,
            left,
            right,
        },
    )
}

// Leads to a segment where the int at `test` isn't 0.
#[inline(never)]
#[tactic(auto, using(core_code::proofs::Views::tree_many))]
fn put_leading(
    alloc: Global,
    test: Byte,
    segment: usize,
    out: &mut Vec<Core>,
) -> Result<(), AllocError>
    ensures { OnOk result (Appends out.old.items out.new.items (switches.leading test segment)) }
{
    let no = Core::Many(Vec::new(alloc));
    put_choice(alloc, test, 2, exit(segment), no, out)
}

// One comparison of the value, which has so many bytes, with a label.
#[inline(never)]
#[tactic(auto, using(std::proofs::lemmas::List::append_assoc))]
fn put_case(
    site: &Site,
    ty: IntTy,
    bytes: u16,
    case: TCase,
    segment: usize,
    out: &mut Vec<Core>,
) -> Result<(), AllocError>
    ensures { OnOk result (Appends out.old.items out.new.items (switches.case_code (ground_of site.now) ty bytes case segment)) }
{
    let right = temporary(site, bytes as u64);
    let to = temporary(site, 2 * bytes as u64);
    put_number(out, right, case.value.bits() as u64, bytes)?;
    put_comparison(ty, to, first(site), right, out)?;
    put_leading(site.alloc, to, segment, out)
}

#[inline(never)]
fn put_cases(
    site: &Site,
    ty: IntTy,
    bytes: u16,
    found: &[usize],
    cases: &[TCase],
    out: &mut Vec<Core>,
) -> Result<(), AllocError>
    ensures { OnOk result (Appends out.old.items out.new.items (switches.cases_code (ground_of site.now) ty bytes found.now cases.now)) }
{
    for case in cases {
        let segment = segments_before(found, case.target);
        put_case(site, ty, bytes, *case, segment, out)?;
    }
    Ok(())
}

fn otherwise_segment(found: &[usize], count: usize, default: Option<usize>) -> usize
    ensures { result ≡ switches.otherwise_segment found.now count default }
{
    match default {
        Some(target) => segments_before(found, target),
        None => count,
    }
}

/// Adds what leads to the segment of the value's case, to that of `default`, or after all of `count` segments.
#[inline(never)]
#[tactic(auto, using(std::proofs::lemmas::List::append_assoc))]
pub fn put_comparisons(
    site: &Site,
    value: &TExpr,
    cases: &[TCase],
    default: Option<usize>,
    found: &[usize],
    count: usize,
    out: &mut Vec<Core>,
) -> Result<(), AllocError>
    ensures { OnOk result (Appends out.old.items out.new.items (switches.comparisons (ground_of site.now) (expression_of value.now) cases.now default found.now count)) }
{
    let ty = operation_type(value.ty());
    put_cases(site, ty, value_bytes(site, value), found, cases, out)?;
    put(out, exit(otherwise_segment(found, count, default)))
}

#[inline(never)]
#[tactic(auto, using(core_code::proofs::Views::tree_exit))]
fn put_end(begun: usize, code: &mut Vec<Core>) -> Result<(), AllocError>
    ensures { OnOk result (trees_in code.new.items ≡ nesting.ended begun (trees_in code.old.items)) }
{
    if begun == 0 {
        Ok(())
    } else {
        put(code, Core::Exit(0))
    }
}

/// Adds the loop of some code: that of the comparisons where no segment has begun, otherwise that of a segment, which
/// ends by leaving it.
#[inline(never)]
pub fn put_closed(
    alloc: Global,
    begun: usize,
    code: Vec<Core>,
    out: &mut Vec<Core>,
) -> Result<(), AllocError>
    ensures { OnOk result (Appends out.old.items out.new.items (nesting.closed begun (trees_in code.items))) }
{
    let mut body = code;
    put_end(begun, &mut body)?;
    put_loop(alloc, out, body)
}

/// The code after which the next statement stands: where a segment begins, the loop of what there is.
#[inline(never)]
pub fn opened(
    alloc: Global,
    begins: bool,
    begun: usize,
    code: Vec<Core>,
) -> Result<Vec<Core>, AllocError>
    ensures { IfOk result (λ next. trees_in next.items ≡ nesting.opened begins begun (trees_in code.items)) }
{
    if begins {
        let mut next = Vec::new(alloc);
        put_closed(alloc, begun, code, &mut next)?;
        Ok(next)
    } else {
        Ok(code)
    }
}

/// How many segments have begun, where one more may.
pub fn begun_with(begins: bool, begun: usize) -> usize
    requires { begun + 1 < 2 ^ 64 }
    ensures { result ≡ switches.begun_with begins begun }
{
    if begins { begun + 1 } else { begun }
}
