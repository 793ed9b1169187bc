//! The readers of tables, and the types that they point to.

ghost use Rattle.std.specs.Prelude.{◌≡◌, ◌≤◌, ◌+◌, ◌^◌, ◌++◌, ◌∷◌, [], length, map, slice_get, IfNone, IfOk, IfSome, None, OnOk, Some, codes};
ghost use Rattle.c_typed.specs.Sameness.{same_qualified};
ghost use Rattle.c_typed.specs.Views.{expression_of, function_of, program_of, statement_of, statements_of, static_of, variable_of};
ghost use Rattle.rom_tables.specs.Outlined.{element_qualified, element_type, index_type, reader_for, reader_index, reader_of, reader_parameter, readers, row_in, row_of, table_element, table_start, with_element, with_row, with_rows};
ghost use Rattle.rom_tables.specs.Rows.{declared_with};
ghost use Rattle.rom_tables.specs.Tables.{readers_from};

use crate::expression::{boxed, boxed_place, pointed};
use c_ints::{BinOp, IntTy};
use c_typed::{
    Function, Object, Qualified, Static, TExpr, TPlace, TStmt, Ty, Typed, Variable, same_type,
};
use std::alloc::{AllocError, Global};

// ---- rows

fn same_qualified(a: Qualified, b: Qualified) -> bool
    ensures { result ≡ same_qualified a b }
{
    same_type(a.ty, b.ty) && (a.constant == b.constant && a.volatile == b.volatile)
}

// The number of a type's row among the types that are pointed to.
#[tactic(auto, using(crate::proofs::Rows::is_here, crate::proofs::Rows::not_here))]
fn row_in(rows: &[Qualified], q: Qualified) -> Option<usize>
    ensures { result ≡ row_in q 0 rows.now }
{
    for k in 0..rows.len() {
        if same_qualified(q, rows[k]) {
            return Some(k);
        }
    }
    None
}

fn row_of(rows: &[Qualified], q: Qualified) -> usize
    ensures { result ≡ row_of (declared_with rows.now []) q }
{
    match row_in(rows, q) {
        Some(row) => row,
        None => 0,
    }
}

fn add_row(rows: &mut Vec<Qualified>, q: Qualified) -> Result<(), AllocError>
    ensures { OnOk result (rows.new.items ≡ with_row q rows.old.items) }
{
    match row_in(rows, q) {
        Some(_) => Ok(()),
        None => {
            rows.push(q)?;
            Ok(())
        }
    }
}

// The type of an array's elements.
fn element_type(rows: &[Qualified], s: &Static) -> Ty
    ensures { result ≡ element_type (declared_with rows.now []) (static_of s.now) }
{
    let Ty::Array { element, .. } = s.ty.ty else {
        return Ty::Void;
    };
    match rows.get(element) {
        Some(row) => row.ty,
        None => Ty::Void,
    }
}

fn element_qualified(rows: &[Qualified], s: &Static) -> Qualified
    ensures { result ≡ element_qualified (declared_with rows.now []) (static_of s.now) }
{
    Qualified {
        ty: element_type(rows, s),
        constant: true,
        volatile: s.ty.volatile,
    }
}

// The static object of a number.
#[tactic(auto, using(crate::proofs::Rows::static_there, crate::proofs::Rows::static_missing))]
fn static_of(p: &Typed, number: u32) -> Option<&Static>
    ensures there { IfSome result (λ s. slice_get (program_of p.now).statics number ≡ Some (static_of s.now)) }
    ensures none { IfNone result (slice_get (program_of p.now).statics number ≡ None) }
{
    p.statics.get(number as usize)
}

// The row that the reader of a table points to.
#[tactic(auto, using(crate::proofs::Rows::row_there, crate::proofs::Rows::row_missing))]
fn add_element(rows: &mut Vec<Qualified>, p: &Typed, number: u32) -> Result<(), AllocError>
    ensures { OnOk result (rows.new.items ≡ with_element (program_of p.now) (slice_get (program_of p.now).statics number) rows.old.items) }
{
    let Some(s) = static_of(p, number) else {
        return Ok(());
    };
    add_row(rows, element_qualified(&p.targets, s))
}

/// The types that are pointed to, with those that the readers point to.
#[tactic(auto, using(crate::proofs::Rows::row_added, crate::proofs::Rows::all_rows))]
pub(crate) fn with_rows(
    alloc: Global,
    p: &Typed,
    numbers: &[u32],
) -> Result<Vec<Qualified>, AllocError>
    ensures { IfOk result (λ rows. rows.items ≡ with_rows (program_of p.now) numbers.now (program_of p.now).targets) }
{
    let mut rows = p.targets.to_vec(alloc)?;
    for k in 0..numbers.len() {
        add_element(&mut rows, p, numbers[k])?;
    }
    Ok(rows)
}

// ---- readers

fn index_type() -> Qualified
    ensures { result ≡ index_type }
{
    Qualified {
        ty: Ty::Int(IntTy::UInt),
        constant: false,
        volatile: false,
    }
}

// The table as a pointer to its first element.
#[tactic(auto, using(c_typed::proofs::Shapes::show_expression_address, c_typed::proofs::Shapes::show_place_name))]
fn table_start(
    alloc: Global,
    rows: &[Qualified],
    number: usize,
    s: &Static,
) -> Result<Box<TExpr>, AllocError>
    ensures { IfOk result (λ made. expression_of made.value ≡ table_start (declared_with rows.now []) number (static_of s.now)) }
{
    let name = TPlace::Name {
        object: Object::Static(number),
        ty: s.ty,
        line: s.line,
    };
    let place = boxed_place(alloc, name)?;
    let ty = Ty::Pointer(row_of(rows, element_qualified(rows, s)));
    boxed(
        alloc,
        TExpr::Address {
            place,
            ty,
            line: s.line,
        },
    )
}

// The index, which is the reader's parameter.
#[tactic(auto, using(c_typed::proofs::Shapes::show_expression_read, c_typed::proofs::Shapes::show_place_name))]
fn reader_index(alloc: Global, line: u32) -> Result<Box<TExpr>, AllocError>
    ensures { IfOk result (λ made. expression_of made.value ≡ reader_index line) }
{
    let name = TPlace::Name {
        object: Object::Param(0),
        ty: index_type(),
        line,
    };
    let place = boxed_place(alloc, name)?;
    boxed(
        alloc,
        TExpr::Read {
            place,
            ty: Ty::Int(IntTy::UInt),
            line,
        },
    )
}

// The element at the index.
#[tactic(auto, using(c_typed::proofs::Shapes::show_expression_offset))]
fn table_element(
    alloc: Global,
    rows: &[Qualified],
    number: usize,
    s: &Static,
) -> Result<Box<TExpr>, AllocError>
    ensures { IfOk result (λ made. expression_of made.value ≡ table_element (declared_with rows.now []) number (static_of s.now)) }
{
    let left = table_start(alloc, rows, number, s)?;
    let right = reader_index(alloc, s.line)?;
    let target = element_qualified(rows, s);
    let sum = TExpr::Offset {
        op: BinOp::Add,
        left,
        right,
        size: 1,
        ty: Ty::Pointer(row_of(rows, target)),
        line: s.line,
    };
    let pointer = boxed(alloc, sum)?;
    pointed(
        alloc,
        pointer,
        target,
        s.line,
        element_type(rows, s),
        s.line,
    )
}

fn reader_name(alloc: Global, table: &[u8]) -> Result<Vec<u8>, AllocError>
    ensures { IfOk result (λ made. made.items ≡ codes "$rom." ++ table.now) }
{
    let mut name = b"$rom.".to_vec(alloc)?;
    name.extend_from_slice(table)?;
    Ok(name)
}

fn reader_parameters(alloc: Global, line: u32) -> Result<Vec<Variable>, AllocError>
    ensures { IfOk result (λ made. map variable_of made.items ≡ reader_parameter line ∷ []) }
{
    let mut params = Vec::new(alloc);
    params.push(Variable {
        name: b"k".to_vec(alloc)?,
        ty: index_type(),
        line,
    })?;
    Ok(params)
}

#[tactic(auto, using(c_typed::proofs::Shapes::show_statement_return))]
fn reader_body(
    alloc: Global,
    rows: &[Qualified],
    number: usize,
    s: &Static,
) -> Result<Vec<TStmt>, AllocError>
    ensures { IfOk result (λ made. statements_of (map statement_of made.items) ≡ (reader_for (declared_with rows.now []) number (static_of s.now)).body) }
{
    let element = table_element(alloc, rows, number, s)?;
    let mut body = Vec::new(alloc);
    body.push(TStmt::Return {
        value: Some(Box::into_inner(element)),
        line: s.line,
    })?;
    Ok(body)
}

// The reader of a table.
fn reader_for(
    alloc: Global,
    rows: &[Qualified],
    number: usize,
    s: &Static,
) -> Result<Function, AllocError>
    ensures { IfOk result (λ made. function_of made ≡ reader_for (declared_with rows.now []) number (static_of s.now)) }
{
    let body = reader_body(alloc, rows, number, s)?;
    let params = reader_parameters(alloc, s.line)?;
    let name = reader_name(alloc, &s.name)?;
    Ok(Function {
        name,
        result: element_type(rows, s),
        params,
        locals: Vec::new(alloc),
        body,
        interrupt: false,
        line: s.line,
    })
}

// Puts the reader of a table behind the functions that are there.
#[tactic(auto, using(crate::proofs::Rows::reader_there, crate::proofs::Rows::reader_missing))]
fn add_reader(
    alloc: Global,
    p: &Typed,
    rows: &[Qualified],
    number: u32,
    functions: &mut Vec<Function>,
) -> Result<(), AllocError>
    ensures { OnOk result (map function_of functions.new.items ≡ map function_of functions.old.items ++ reader_of (declared_with rows.now (program_of p.now).statics) number (slice_get (program_of p.now).statics number)) }
{
    let Some(s) = static_of(p, number) else {
        return Ok(());
    };
    let made = reader_for(alloc, rows, number as usize, s)?;
    functions.push(made)?;
    Ok(())
}

/// Puts the readers of tables behind the functions that are there.
#[tactic(auto, using(crate::proofs::Rows::reader_added, crate::proofs::Rows::all_readers))]
pub(crate) fn add_readers(
    alloc: Global,
    p: &Typed,
    rows: &[Qualified],
    numbers: &[u32],
    functions: &mut Vec<Function>,
) -> Result<(), AllocError>
    ensures { OnOk result (map function_of functions.new.items ≡ map function_of functions.old.items ++ readers (declared_with rows.now (program_of p.now).statics) numbers.now) }
{
    for k in 0..numbers.len() {
        add_reader(alloc, p, rows, numbers[k], functions)?;
    }
    Ok(())
}

/// The numbers of the readers, of which the first is `first`.
#[tactic(auto, using(crate::proofs::Rows::number_added, crate::proofs::Rows::all_numbers))]
pub(crate) fn readers_from(
    alloc: Global,
    first: u32,
    numbers: &[u32],
) -> Result<Vec<u32>, AllocError>
    requires { first + length numbers.now ≤ 2 ^ 30 }
    ensures { IfOk result (λ made. made.items ≡ readers_from first numbers.now) }
{
    let mut made = Vec::new(alloc);
    for k in 0..numbers.len() {
        made.push(first + k as u32)?;
    }
    Ok(made)
}
