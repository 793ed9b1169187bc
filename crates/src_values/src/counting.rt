//! Which micro-steps count as steps of the source, and at which line: an operator applied, a byte accessed,
//! a switch label compared, a statement begun, a function called, the end of a function's body.

ghost use Rattle.std.specs.Prelude.{◌≡◌, ◌-◌, ◌∷◌, List, drop};
ghost use Rattle.c_typed.specs.Sameness as typing;
ghost use Rattle.c_typed.specs.Views.{program_of, expression_of, place_of, statement_of};
ghost use Rattle.src_values.specs.Control as control;
ghost use Rattle.src_values.specs.Counting as stated;
ghost use Rattle.src_values.specs.Data as values;
ghost use Rattle.src_values.specs.Seen.{datum_of, focus_in, frames_in, got_in, statement_in, with_top};
ghost use Rattle.src_values.specs.Values.{truth_of};
ghost use Rattle.src_values.specs.declared.objects.Spot.{Spot};
ghost use Rattle.c_typed.specs.Trees.{Program};

use crate::control::{Code, Focus, Got, Pending, line_at, list_at, read_type};
use crate::lists::covered_from;
use crate::names::line_of;
use crate::objects::{CopyOf, Datum};
use crate::values::{decides, truth_of, written_bytes};
use c_typed::{LogicalOp, TCase, TExpr, TPlace, TStmt, Ty, Typed};

fn counted_if(counts: bool, line: u32) -> Option<u32>
    ensures { result ≡ stated.counted_if counts line }
{
    if counts { Some(line) } else { None }
}

fn is_array(ty: Ty) -> bool
    ensures { result ≡ typing.is_array ty }
{
    match ty {
        Ty::Array { .. } => true,
        Ty::Void | Ty::Int(_) | Ty::Pointer(_) | Ty::Struct(_) => false,
    }
}

// Whether it is a pointer to that type.
fn points_to(program: &Typed, pointer: Ty, ty: Ty) -> bool
    ensures { result ≡ stated.has_type (typing.pointed (program_of program.now) pointer) ty }
{
    match pointer {
        Ty::Pointer(row) => match program.targets.get(row) {
            Some(target) => target.ty == ty,
            None => false,
        },
        Ty::Void | Ty::Int(_) | Ty::Array { .. } | Ty::Struct(_) => false,
    }
}

// Whether taking the address is an operator. An array that becomes the pointer to its first element takes
// no step.
fn is_operator(program: &Typed, place: Ty, ty: Ty) -> bool
    ensures { result ≡ stated.is_operator (program_of program.now) place ty }
{
    !is_array(place) || points_to(program, ty, place)
}

// && and || count at their end.
fn logical_counts(op: LogicalOp, value: Datum, line: u32) -> Option<u32>
    ensures { result ≡ stated.logical_counts op (truth_of (datum_of value)) line }
{
    match truth_of(value) {
        Some(holds) => counted_if(decides(op, holds), line),
        None => None,
    }
}

// A value of the first part of an expression.
#[tactic(auto, using(crate::proofs::Steps::first_counts))]
fn first_counts(expr: &TExpr, value: Datum) -> Option<u32>
    ensures { result ≡ stated.value_counts_in (expression_of expr.now) control.Nothing (datum_of value) }
{
    match expr {
        TExpr::Cast { line, .. }
        | TExpr::Unary { line, .. }
        | TExpr::Conditional { line, .. }
        | TExpr::Comma { line, .. } => Some(*line),
        TExpr::Logical { op, line, .. } => logical_counts(*op, value, *line),
        _ => None,
    }
}

// A value of a right operand.
#[tactic(auto, using(crate::proofs::Steps::right_counts))]
fn right_counts(expr: &TExpr) -> Option<u32>
    ensures { (left v : values.Datum) → result ≡ stated.value_counts_in (expression_of expr.now) (control.One left) v }
{
    match expr {
        TExpr::Binary { line, .. }
        | TExpr::Offset { line, .. }
        | TExpr::Difference { line, .. }
        | TExpr::Logical { line, .. } => Some(*line),
        _ => None,
    }
}

// A value for a place that was found.
#[tactic(auto, using(crate::proofs::Steps::placed_counts))]
fn placed_counts(expr: &TExpr) -> Option<u32>
    ensures { (spot : Spot) (v : values.Datum) → result ≡ stated.value_counts_in (expression_of expr.now) (control.At spot) v }
{
    match expr {
        TExpr::Assign { line, .. } | TExpr::Step { line, .. } => Some(*line),
        _ => None,
    }
}

// The old value of a place.
#[tactic(auto, using(crate::proofs::Steps::updated_counts))]
fn updated_counts(expr: &TExpr) -> Option<u32>
    ensures { (spot : Spot) (right v : values.Datum) → result ≡ stated.value_counts_in (expression_of expr.now) (control.AtWith spot right) v }
{
    match expr {
        TExpr::Update { line, .. } => Some(*line),
        _ => None,
    }
}

// A value that is given to an expression.
fn value_counts_in(expr: &TExpr, got: Got, value: Datum) -> Option<u32>
    ensures { (values : List values.Datum) → result ≡ stated.value_counts_in (expression_of expr.now) (got_in (expression_of expr.now) got values) (datum_of value) }
{
    match got {
        Got::Nothing => first_counts(expr, value),
        Got::One(_) => right_counts(expr),
        Got::At(_) => placed_counts(expr),
        Got::AtWith(_, _) => updated_counts(expr),
        _ => None,
    }
}

// A value that is given to a place; `*` is an operator.
#[tactic(auto, using(crate::proofs::Sights::values_count_to))]
fn value_counts_to(place: &TPlace) -> Option<u32>
    ensures { result ≡ stated.value_counts_to (place_of place.now) }
{
    match place {
        TPlace::Deref { line, .. } => Some(*line),
        TPlace::Name { .. } | TPlace::Bit { .. } | TPlace::Member { .. } => None,
    }
}

// A value.
fn value_counts(value: Datum, top: &Pending) -> Option<u32>
    ensures { (x : control.Focus) (k : List Pending) → result ≡ stated.value_counts (datum_of value) (frames_in x (top.now ∷ k)) }
{
    match top {
        Pending::In(expr, got) => value_counts_in(expr, *got, value),
        Pending::To(place) => value_counts_to(place),
        _ => None,
    }
}

// The place of an address.
#[tactic(auto, using(crate::proofs::Steps::address_counts))]
fn address_counts(program: &Typed, expr: &TExpr) -> Option<u32>
    ensures { result ≡ stated.found_counts_in (program_of program.now) (expression_of expr.now) control.Nothing }
{
    match expr {
        TExpr::Address { place, ty, line } => {
            counted_if(is_operator(program, place.ty().ty, *ty), *line)
        }
        _ => None,
    }
}

// The second place of an expression.
#[tactic(auto, using(crate::proofs::Steps::copied_counts))]
fn copied_counts(expr: &TExpr) -> Option<u32>
    ensures { (p : Program) (to : Spot) → result ≡ stated.found_counts_in p (expression_of expr.now) (control.At to) }
{
    match expr {
        TExpr::StructAssign { line, .. } => Some(*line),
        _ => None,
    }
}

// A place that was found for an expression.
fn found_counts_in(program: &Typed, expr: &TExpr, got: Got) -> Option<u32>
    ensures { (values : List values.Datum) → result ≡ stated.found_counts_in (program_of program.now) (expression_of expr.now) (got_in (expression_of expr.now) got values) }
{
    match got {
        Got::Nothing => address_counts(program, expr),
        Got::At(_) => copied_counts(expr),
        _ => None,
    }
}

// A place that was found for a member; `.` is an operator.
#[tactic(auto, using(crate::proofs::Sights::finds_count_to))]
fn found_counts_to(place: &TPlace) -> Option<u32>
    ensures { result ≡ stated.found_counts_to (place_of place.now) }
{
    match place {
        TPlace::Member { line, .. } => Some(*line),
        TPlace::Name { .. } | TPlace::Bit { .. } | TPlace::Deref { .. } => None,
    }
}

// A place that was found.
fn found_counts(program: &Typed, top: &Pending) -> Option<u32>
    ensures { (x : control.Focus) (k : List Pending) → result ≡ stated.found_counts (program_of program.now) (frames_in x (top.now ∷ k)) }
{
    match top {
        Pending::In(expr, got) => found_counts_in(program, expr, *got),
        Pending::To(place) => found_counts_to(place),
        _ => None,
    }
}

// A statement that begins; a declarator is none.
#[tactic(auto, using(crate::proofs::Sights::statements_count))]
fn statement_counts(statement: &TStmt) -> Option<u32>
    ensures { result ≡ stated.statement_counts (statement_of statement.now) }
{
    match statement {
        TStmt::Declare { .. } | TStmt::InitScalar { .. } | TStmt::InitList { .. } => None,
        TStmt::Block { line, .. }
        | TStmt::Empty { line }
        | TStmt::Expr { line, .. }
        | TStmt::If { line, .. }
        | TStmt::Loop { line, .. }
        | TStmt::Switch { line, .. }
        | TStmt::Break { line }
        | TStmt::Continue { line }
        | TStmt::Return { line, .. } => Some(*line),
    }
}

// A statement that begins at a place, which has none where it counts like an empty one.
fn code_counts(code: Code) -> Option<u32>
    ensures { result ≡ stated.statement_counts (statement_in code.entry) }
{
    match code.statement() {
        Some(statement) => statement_counts(statement),
        None => Some(0),
    }
}

// The label of this number.
fn label_counts(cases: &[TCase], next: usize) -> Option<u32>
    ensures { result ≡ stated.label_counts (drop next cases.now) }
{
    match cases.get(next) {
        Some(case) => Some(case.line),
        None => None,
    }
}

// The end of a statement: that of a function's body counts, at the line of the function.
fn past_counts(program: &Typed, copy: CopyOf, top: Option<&Pending>) -> Option<u32>
    ensures { (x : control.Focus) (k : List Pending) → result ≡ stated.past_counts (program_of program.now) copy (frames_in x (with_top top.entry k)) }
{
    match top {
        None => Some(line_of(program, copy.function)),
        Some(top) => match top {
            Pending::Returns(_) | Pending::Resumes(_) => Some(line_of(program, copy.function)),
            _ => None,
        },
    }
}

// The bytes without an item of the list that waits.
fn blank_counts(program: &Typed, at: u64, end: u64, top: Option<&Pending>) -> Option<u32>
    ensures { (x : control.Focus) (k : List Pending) → result ≡ stated.blank_counts (program_of program.now) at (end - at) (frames_in x (with_top top.entry k)) }
{
    match list_at(top) {
        Some((_, items)) => {
            let blanks = covered_from(program, items, at, end) < end.saturating_sub(at);
            counted_if(blanks, line_at(top))
        }
        None => None,
    }
}

/// The line of the step that the next micro-step is, if it counts as one. It is that of the focus in a copy, with what
/// waits on top. After the end of main it is main's line.
#[tactic(auto, unfolding(crate::specs::Counting::counted_line))]
pub fn counted_line(
    program: &Typed,
    copy: CopyOf,
    focus: Focus,
    top: Option<&Pending>,
) -> Option<u32>
    ensures { (x : control.Focus) (k : List Pending) → result ≡ stated.counted_line (program_of program.now) copy (focus_in focus.entry) (frames_in x (with_top top.entry k)) }
{
    match focus {
        Focus::Eval(_) | Focus::Find(_) | Focus::Leaves(_) => None,
        Focus::Holds(value) => match top {
            Some(top) => value_counts(value, top),
            None => None,
        },
        Focus::Found(_) => match top {
            Some(top) => found_counts(program, top),
            None => None,
        },
        Focus::Run(code) => code_counts(code),
        Focus::Past => past_counts(program, copy, top),
        Focus::Fetch { read, .. } => {
            let wanted = program.bytes_of(read_type(top));
            counted_if((read.count() as u64) < wanted, line_at(top))
        }
        Focus::PutBit { .. } | Focus::CopyWrite { .. } | Focus::Calls => Some(line_at(top)),
        Focus::Skim { left, .. } | Focus::CopyRead { left, .. } | Focus::Spell { left, .. } =>
            counted_if(left != 0, line_at(top)),
        Focus::Write { spot, value, at } => {
            counted_if(at < written_bytes(spot, value), line_at(top))
        }
        Focus::Blank { at, end } => blank_counts(program, at, end, top),
        Focus::Compares { cases, next, .. } => label_counts(cases, next),
        Focus::Over => Some(line_of(program, copy.function)),
    }
}
