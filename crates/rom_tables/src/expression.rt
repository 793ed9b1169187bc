//! Expressions and places once more, with reads of tables as calls (ISO/IEC 9899:1990, 6.3).
//!
//! Trees go from function to function in boxes, so that a level of a tree takes little of the call stack.

ghost use Rattle.std.specs.Prelude.{◌≡◌, IfOk, map, [], ◌∷◌};
ghost use Rattle.c_typed.specs.Trees as tree;
ghost use Rattle.c_typed.specs.Views.{arguments_of, expression_of, place_of};
ghost use Rattle.rom_tables.specs.Outlined.{index_argument, outlined_arguments, outlined_expression, outlined_option, outlined_place, reader_call, to_unsigned, unsigned_int};

use crate::tables::{Tables, start_table};
use c_ints::{BinOp, IntTy, UnOp, Value};
use c_typed::{LogicalOp, Qualified, StepOp, TExpr, TPlace, Ty, same_type};
use std::alloc::{AllocError, Global};

pub(crate) fn boxed(alloc: Global, e: TExpr) -> Result<Box<TExpr>, AllocError>
    ensures { IfOk result (λ made. expression_of made.value ≡ expression_of e) }
{
    Ok(Box::new(alloc, e)?)
}

pub(crate) fn boxed_place(alloc: Global, place: TPlace) -> Result<Box<TPlace>, AllocError>
    ensures { IfOk result (λ made. place_of made.value ≡ place_of place) }
{
    Ok(Box::new(alloc, place)?)
}

// ---- a read of a table

// A value as an unsigned int (ISO/IEC 9899:1990, 6.2.1.2).
#[tactic(auto, using(c_typed::proofs::Shapes::show_expression_convert))]
#[inline(never)]
fn to_unsigned(alloc: Global, operand: Box<TExpr>, line: u32) -> Result<Box<TExpr>, AllocError>
    ensures { IfOk result (λ made. expression_of made.value ≡ to_unsigned (expression_of operand.value) line) }
{
    let ty = Ty::Int(IntTy::UInt);
    if same_type(operand.ty(), ty) {
        return Ok(operand);
    }
    boxed(alloc, TExpr::Convert { operand, ty, line })
}

#[tactic(auto, using(c_typed::proofs::Shapes::show_expression_call))]
#[inline(never)]
fn called(
    alloc: Global,
    function: u32,
    index: Box<TExpr>,
    ty: Ty,
    line: u32,
) -> Result<Box<TExpr>, AllocError>
    ensures { IfOk result (λ made. expression_of made.value ≡ tree.Call function (tree.AndExpression (expression_of index.value) tree.NoExpression) ty line) }
{
    let mut arguments = Vec::new(alloc);
    arguments.push(Box::into_inner(index))?;
    boxed(
        alloc,
        TExpr::Call {
            function,
            arguments,
            ty,
            line,
        },
    )
}

// The value of what a pointer points to.
#[tactic(auto, using(c_typed::proofs::Shapes::show_expression_read, c_typed::proofs::Shapes::show_place_deref))]
#[inline(never)]
pub(crate) fn pointed(
    alloc: Global,
    pointer: Box<TExpr>,
    target: Qualified,
    above: u32,
    ty: Ty,
    line: u32,
) -> Result<Box<TExpr>, AllocError>
    ensures { IfOk result (λ made. expression_of made.value ≡ tree.Read (tree.Deref (expression_of pointer.value) target above) ty line) }
{
    let place = TPlace::Deref {
        pointer,
        ty: target,
        line: above,
    };
    let place = boxed_place(alloc, place)?;
    boxed(alloc, TExpr::Read { place, ty, line })
}

// ---- nodes, each made in a function that has returned before the recursion goes on

#[inline(never)]
#[tactic(auto, using(c_typed::proofs::Shapes::show_expression_address))]
fn made_address(
    alloc: Global,
    place: Box<TPlace>,
    ty: Ty,
    line: u32,
) -> Result<Box<TExpr>, AllocError>
    ensures { IfOk result (λ made. expression_of made.value ≡ tree.Address (place_of place.value) ty line) }
{
    boxed(alloc, TExpr::Address { place, ty, line })
}

#[inline(never)]
#[tactic(auto, using(c_typed::proofs::Shapes::show_expression_convert))]
fn made_convert(
    alloc: Global,
    operand: Box<TExpr>,
    ty: Ty,
    line: u32,
) -> Result<Box<TExpr>, AllocError>
    ensures { IfOk result (λ made. expression_of made.value ≡ tree.Convert (expression_of operand.value) ty line) }
{
    boxed(alloc, TExpr::Convert { operand, ty, line })
}

#[inline(never)]
#[tactic(auto, using(c_typed::proofs::Shapes::show_expression_cast))]
fn made_cast(
    alloc: Global,
    operand: Box<TExpr>,
    ty: Ty,
    line: u32,
) -> Result<Box<TExpr>, AllocError>
    ensures { IfOk result (λ made. expression_of made.value ≡ tree.Cast (expression_of operand.value) ty line) }
{
    boxed(alloc, TExpr::Cast { operand, ty, line })
}

#[inline(never)]
#[tactic(auto, using(c_typed::proofs::Shapes::show_expression_unary))]
fn made_unary(
    alloc: Global,
    op: UnOp,
    operand: Box<TExpr>,
    ty: Ty,
    line: u32,
) -> Result<Box<TExpr>, AllocError>
    ensures { IfOk result (λ made. expression_of made.value ≡ tree.Unary op (expression_of operand.value) ty line) }
{
    boxed(
        alloc,
        TExpr::Unary {
            op,
            operand,
            ty,
            line,
        },
    )
}

#[inline(never)]
#[tactic(auto, using(c_typed::proofs::Shapes::show_expression_binary))]
fn made_binary(
    alloc: Global,
    op: BinOp,
    left: Box<TExpr>,
    right: Box<TExpr>,
    ty: Ty,
    line: u32,
) -> Result<Box<TExpr>, AllocError>
    ensures { IfOk result (λ made. expression_of made.value ≡ tree.Binary op (expression_of left.value) (expression_of right.value) ty line) }
{
    boxed(
        alloc,
        TExpr::Binary {
            op,
            left,
            right,
            ty,
            line,
        },
    )
}

#[inline(never)]
#[tactic(auto, using(c_typed::proofs::Shapes::show_expression_offset))]
fn made_offset(
    alloc: Global,
    op: BinOp,
    left: Box<TExpr>,
    right: Box<TExpr>,
    size: u64,
    ty: Ty,
    line: u32,
) -> Result<Box<TExpr>, AllocError>
    ensures { IfOk result (λ made. expression_of made.value ≡ tree.Offset op (expression_of left.value) (expression_of right.value) size ty line) }
{
    boxed(
        alloc,
        TExpr::Offset {
            op,
            left,
            right,
            size,
            ty,
            line,
        },
    )
}

#[inline(never)]
#[tactic(auto, using(c_typed::proofs::Shapes::show_expression_difference))]
fn made_difference(
    alloc: Global,
    left: Box<TExpr>,
    right: Box<TExpr>,
    size: u64,
    line: u32,
) -> Result<Box<TExpr>, AllocError>
    ensures { IfOk result (λ made. expression_of made.value ≡ tree.Difference (expression_of left.value) (expression_of right.value) size line) }
{
    boxed(
        alloc,
        TExpr::Difference {
            left,
            right,
            size,
            line,
        },
    )
}

#[inline(never)]
#[tactic(auto, using(c_typed::proofs::Shapes::show_expression_logical))]
fn made_logical(
    alloc: Global,
    op: LogicalOp,
    left: Box<TExpr>,
    right: Box<TExpr>,
    line: u32,
) -> Result<Box<TExpr>, AllocError>
    ensures { IfOk result (λ made. expression_of made.value ≡ tree.Logical op (expression_of left.value) (expression_of right.value) line) }
{
    boxed(
        alloc,
        TExpr::Logical {
            op,
            left,
            right,
            line,
        },
    )
}

#[inline(never)]
#[tactic(auto, using(c_typed::proofs::Shapes::show_expression_conditional))]
fn made_conditional(
    alloc: Global,
    condition: Box<TExpr>,
    first: Box<TExpr>,
    second: Box<TExpr>,
    ty: Ty,
    line: u32,
) -> Result<Box<TExpr>, AllocError>
    ensures { IfOk result (λ made. expression_of made.value ≡ tree.Conditional (expression_of condition.value) (expression_of first.value) (expression_of second.value) ty line) }
{
    boxed(
        alloc,
        TExpr::Conditional {
            condition,
            then: first,
            otherwise: second,
            ty,
            line,
        },
    )
}

#[inline(never)]
#[tactic(auto, using(c_typed::proofs::Shapes::show_expression_comma))]
fn made_comma(
    alloc: Global,
    left: Box<TExpr>,
    right: Box<TExpr>,
    ty: Ty,
    line: u32,
) -> Result<Box<TExpr>, AllocError>
    ensures { IfOk result (λ made. expression_of made.value ≡ tree.Comma (expression_of left.value) (expression_of right.value) ty line) }
{
    boxed(
        alloc,
        TExpr::Comma {
            left,
            right,
            ty,
            line,
        },
    )
}

#[inline(never)]
#[tactic(auto, using(c_typed::proofs::Shapes::show_expression_assign))]
fn made_assign(
    alloc: Global,
    place: Box<TPlace>,
    value: Box<TExpr>,
    ty: Ty,
    line: u32,
) -> Result<Box<TExpr>, AllocError>
    ensures { IfOk result (λ made. expression_of made.value ≡ tree.Assign (place_of place.value) (expression_of value.value) ty line) }
{
    boxed(
        alloc,
        TExpr::Assign {
            place,
            value,
            ty,
            line,
        },
    )
}

#[inline(never)]
#[tactic(auto, using(c_typed::proofs::Shapes::show_expression_struct_assign))]
fn made_struct_assign(
    alloc: Global,
    place: Box<TPlace>,
    from: Box<TPlace>,
    size: u64,
    line: u32,
) -> Result<Box<TExpr>, AllocError>
    ensures { IfOk result (λ made. expression_of made.value ≡ tree.StructAssign (place_of place.value) (place_of from.value) size line) }
{
    boxed(
        alloc,
        TExpr::StructAssign {
            place,
            from,
            size,
            line,
        },
    )
}

#[inline(never)]
#[tactic(auto, using(c_typed::proofs::Shapes::show_expression_update))]
fn made_update(
    alloc: Global,
    op: BinOp,
    place: Box<TPlace>,
    value: Box<TExpr>,
    operation: Ty,
    size: u64,
    ty: Ty,
    line: u32,
) -> Result<Box<TExpr>, AllocError>
    ensures { IfOk result (λ made. expression_of made.value ≡ tree.Update op (place_of place.value) (expression_of value.value) operation size ty line) }
{
    boxed(
        alloc,
        TExpr::Update {
            op,
            place,
            value,
            operation,
            size,
            ty,
            line,
        },
    )
}

#[inline(never)]
#[tactic(auto, using(c_typed::proofs::Shapes::show_expression_step))]
fn made_step(
    alloc: Global,
    op: StepOp,
    place: Box<TPlace>,
    operation: Ty,
    size: u64,
    ty: Ty,
    line: u32,
) -> Result<Box<TExpr>, AllocError>
    ensures { IfOk result (λ made. expression_of made.value ≡ tree.Step op (place_of place.value) operation size ty line) }
{
    boxed(
        alloc,
        TExpr::Step {
            op,
            place,
            operation,
            size,
            ty,
            line,
        },
    )
}

#[inline(never)]
#[tactic(auto, using(c_typed::proofs::Shapes::show_expression_call))]
fn made_call(
    alloc: Global,
    function: u32,
    arguments: Vec<TExpr>,
    ty: Ty,
    line: u32,
) -> Result<Box<TExpr>, AllocError>
    ensures { IfOk result (λ made. expression_of made.value ≡ tree.Call function (arguments_of (map expression_of arguments.items)) ty line) }
{
    boxed(
        alloc,
        TExpr::Call {
            function,
            arguments,
            ty,
            line,
        },
    )
}

#[inline(never)]
#[tactic(auto, using(c_typed::proofs::Shapes::show_expression_constant))]
fn made_constant(alloc: Global, value: Value, line: u32) -> Result<Box<TExpr>, AllocError>
    ensures { IfOk result (λ made. expression_of made.value ≡ tree.Constant value line) }
{
    boxed(alloc, TExpr::Constant { value, line })
}

#[inline(never)]
#[tactic(auto, using(c_typed::proofs::Shapes::show_expression_read))]
fn made_read(alloc: Global, place: Box<TPlace>, ty: Ty, line: u32) -> Result<Box<TExpr>, AllocError>
    ensures { IfOk result (λ made. expression_of made.value ≡ tree.Read (place_of place.value) ty line) }
{
    boxed(alloc, TExpr::Read { place, ty, line })
}

// ---- trees

/// An expression.
#[cycle(outlining)]
#[inline(never)]
#[tactic(auto, using(crate::proofs::Sights::expression_sights))]
pub(crate) fn expression(
    e: &TExpr,
    alloc: Global,
    tables: &Tables,
) -> Result<Box<TExpr>, AllocError>
    ensures { IfOk result (λ made. expression_of made.value ≡ outlined_expression tables.now.numbers.items tables.now.first (expression_of e.now)) }
{
    match e {
        TExpr::Constant { value, line } => made_constant(alloc, *value, *line),
        TExpr::Read { place, ty, line } => read(place, alloc, *ty, *line, tables),
        TExpr::Address { place, ty, line } => {
            let place = outlined_place(place, alloc, tables)?;
            made_address(alloc, place, *ty, *line)
        }
        TExpr::Convert { operand, ty, line } => {
            let operand = expression(operand, alloc, tables)?;
            made_convert(alloc, operand, *ty, *line)
        }
        TExpr::Cast { operand, ty, line } => {
            let operand = expression(operand, alloc, tables)?;
            made_cast(alloc, operand, *ty, *line)
        }
        TExpr::Unary {
            op,
            operand,
            ty,
            line,
        } => {
            let operand = expression(operand, alloc, tables)?;
            made_unary(alloc, *op, operand, *ty, *line)
        }
        TExpr::Binary {
            op,
            left,
            right,
            ty,
            line,
        } => {
            let left = expression(left, alloc, tables)?;
            let right = expression(right, alloc, tables)?;
            made_binary(alloc, *op, left, right, *ty, *line)
        }
        TExpr::Offset {
            op,
            left,
            right,
            size,
            ty,
            line,
        } => {
            let left = expression(left, alloc, tables)?;
            let right = expression(right, alloc, tables)?;
            made_offset(alloc, *op, left, right, *size, *ty, *line)
        }
        TExpr::Difference {
            left,
            right,
            size,
            line,
        } => {
            let left = expression(left, alloc, tables)?;
            let right = expression(right, alloc, tables)?;
            made_difference(alloc, left, right, *size, *line)
        }
        TExpr::Logical {
            op,
            left,
            right,
            line,
        } => {
            let left = expression(left, alloc, tables)?;
            let right = expression(right, alloc, tables)?;
            made_logical(alloc, *op, left, right, *line)
        }
        TExpr::Conditional {
            condition,
            then,
            otherwise,
            ty,
            line,
        } => {
            let condition = expression(condition, alloc, tables)?;
            let then = expression(then, alloc, tables)?;
            let otherwise = expression(otherwise, alloc, tables)?;
            made_conditional(alloc, condition, then, otherwise, *ty, *line)
        }
        TExpr::Comma {
            left,
            right,
            ty,
            line,
        } => {
            let left = expression(left, alloc, tables)?;
            let right = expression(right, alloc, tables)?;
            made_comma(alloc, left, right, *ty, *line)
        }
        TExpr::Assign {
            place,
            value,
            ty,
            line,
        } => {
            let place = outlined_place(place, alloc, tables)?;
            let value = expression(value, alloc, tables)?;
            made_assign(alloc, place, value, *ty, *line)
        }
        TExpr::StructAssign {
            place,
            from,
            size,
            line,
        } => {
            let place = outlined_place(place, alloc, tables)?;
            let from = outlined_place(from, alloc, tables)?;
            made_struct_assign(alloc, place, from, *size, *line)
        }
        TExpr::Update {
            op,
            place,
            value,
            operation,
            size,
            ty,
            line,
        } => {
            let place = outlined_place(place, alloc, tables)?;
            let value = expression(value, alloc, tables)?;
            made_update(alloc, *op, place, value, *operation, *size, *ty, *line)
        }
        TExpr::Step {
            op,
            place,
            operation,
            size,
            ty,
            line,
        } => {
            let place = outlined_place(place, alloc, tables)?;
            made_step(alloc, *op, place, *operation, *size, *ty, *line)
        }
        TExpr::Call {
            function,
            arguments,
            ty,
            line,
        } => {
            let arguments = arguments_in(arguments, alloc, tables)?;
            made_call(alloc, *function, arguments, *ty, *line)
        }
    }
}

// The value of a place.
#[cycle(outlining)]
#[inline(never)]
#[tactic(auto, using(crate::proofs::Sights::read_sights))]
fn read(
    place: &TPlace,
    alloc: Global,
    ty: Ty,
    line: u32,
    tables: &Tables,
) -> Result<Box<TExpr>, AllocError>
    ensures { IfOk result (λ made. expression_of made.value ≡ outlined_expression tables.now.numbers.items tables.now.first (tree.Read (place_of place.now) ty line)) }
{
    match place {
        TPlace::Deref {
            pointer,
            ty: target,
            line: above,
        } => access(pointer, alloc, *target, *above, ty, line, tables),
        TPlace::Name { .. } | TPlace::Bit { .. } | TPlace::Member { .. } => {
            let place = outlined_place(place, alloc, tables)?;
            made_read(alloc, place, ty, line)
        }
    }
}

// The value of what a pointer points to. Where that is an element of a table, its reader is called with the index.
#[cycle(outlining)]
#[inline(never)]
fn access(
    pointer: &TExpr,
    alloc: Global,
    target: Qualified,
    above: u32,
    ty: Ty,
    line: u32,
    tables: &Tables,
) -> Result<Box<TExpr>, AllocError>
    ensures { IfOk result (λ made. expression_of made.value ≡ outlined_expression tables.now.numbers.items tables.now.first (tree.Read (tree.Deref (expression_of pointer.now) target above) ty line)) }
{
    match pointer {
        TExpr::Offset { left, right, .. } => {
            if let Some(table) = start_table(tables, left) {
                let index = index_in(right, alloc, line, tables)?;
                return called(alloc, tables.first + table, index, ty, line);
            }
            if let Some(table) = start_table(tables, right) {
                let index = index_in(left, alloc, line, tables)?;
                return called(alloc, tables.first + table, index, ty, line);
            }
            let pointer = expression(pointer, alloc, tables)?;
            pointed(alloc, pointer, target, above, ty, line)
        }
        _ => {
            let pointer = expression(pointer, alloc, tables)?;
            pointed(alloc, pointer, target, above, ty, line)
        }
    }
}

// An index as an argument: it is converted once.
#[cycle(outlining)]
#[inline(never)]
fn index_in(e: &TExpr, alloc: Global, line: u32, tables: &Tables) -> Result<Box<TExpr>, AllocError>
    ensures { IfOk result (λ made. expression_of made.value ≡ index_argument (outlined_expression tables.now.numbers.items tables.now.first (expression_of e.now)) line) }
{
    match e {
        TExpr::Convert {
            operand,
            line: at,
            ..
        } => {
            let operand = expression(operand, alloc, tables)?;
            to_unsigned(alloc, operand, *at)
        }
        _ => {
            let index = expression(e, alloc, tables)?;
            to_unsigned(alloc, index, line)
        }
    }
}

/// A place.
#[cycle(outlining)]
#[inline(never)]
#[tactic(auto, using(crate::proofs::Sights::place_sights, c_typed::proofs::Shapes::place_shapes))]
pub(crate) fn outlined_place(
    place: &TPlace,
    alloc: Global,
    tables: &Tables,
) -> Result<Box<TPlace>, AllocError>
    ensures { IfOk result (λ made. place_of made.value ≡ outlined_place tables.now.numbers.items tables.now.first (place_of place.now)) }
{
    match place {
        TPlace::Name { object, ty, line } => boxed_place(
            alloc,
            TPlace::Name {
                object: *object,
                ty: *ty,
                line: *line,
            },
        ),
        TPlace::Bit {
            register,
            bit,
            line,
        } => boxed_place(
            alloc,
            TPlace::Bit {
                register: *register,
                bit: *bit,
                line: *line,
            },
        ),
        TPlace::Member {
            whole,
            member,
            offset,
            ty,
            line,
        } => {
            let whole = outlined_place(whole, alloc, tables)?;
            boxed_place(
                alloc,
                TPlace::Member {
                    whole,
                    member: *member,
                    offset: *offset,
                    ty: *ty,
                    line: *line,
                },
            )
        }
        TPlace::Deref { pointer, ty, line } => {
            let pointer = expression(pointer, alloc, tables)?;
            boxed_place(
                alloc,
                TPlace::Deref {
                    pointer,
                    ty: *ty,
                    line: *line,
                },
            )
        }
    }
}

// The arguments of a call.
#[cycle(outlining)]
#[inline(never)]
#[tactic(auto, using(crate::proofs::Sights::argument_more, crate::proofs::Sights::arguments_all))]
fn arguments_in(
    arguments: &[TExpr],
    alloc: Global,
    tables: &Tables,
) -> Result<Vec<TExpr>, AllocError>
    ensures { IfOk result (λ made. arguments_of (map expression_of made.items) ≡ outlined_arguments tables.now.numbers.items tables.now.first (arguments_of (map expression_of arguments.now))) }
{
    let mut made = Vec::new(alloc);
    for k in 0..arguments.len() {
        let one = expression(&arguments[k], alloc, tables)?;
        made.push(Box::into_inner(one))?;
    }
    Ok(made)
}
