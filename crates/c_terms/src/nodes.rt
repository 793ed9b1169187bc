//! Nodes and places of the typed tree from their parts. The one error is that memory for a part ran out.

ghost use Rattle.std.specs.Prelude.{◌≡◌, map, IfOk};
ghost use Rattle.c_typed.specs.Trees as tree;
ghost use Rattle.c_typed.specs.Views.{arguments_of, expression_of, place_of};

use c_ints::{BinOp, UnOp};
use c_typed::{LogicalOp, Qualified, StepOp, TExpr, TPlace, Ty};
use std::alloc::{AllocError, Global};

/// An address (ISO/IEC 9899:1990, 6.3.3.2).
#[tactic(auto, using(c_typed::proofs::Shapes::show_expression_address))]
pub fn address_node(alloc: Global, place: TPlace, ty: Ty, line: u32) -> Result<TExpr, AllocError>
    ensures { IfOk result (λ e. expression_of e ≡ tree.Address (place_of place) ty line) }
{
    let place = Box::new(alloc, place)?;
    Ok(TExpr::Address { place, ty, line })
}

/// The value of a place (ISO/IEC 9899:1990, 6.2.2.1).
#[tactic(auto, using(c_typed::proofs::Shapes::show_expression_read))]
pub fn read_node(alloc: Global, place: TPlace, ty: Ty, line: u32) -> Result<TExpr, AllocError>
    ensures { IfOk result (λ e. expression_of e ≡ tree.Read (place_of place) ty line) }
{
    let place = Box::new(alloc, place)?;
    Ok(TExpr::Read { place, ty, line })
}

/// A value in another type (ISO/IEC 9899:1990, 6.2).
#[tactic(auto, using(c_typed::proofs::Shapes::show_expression_convert))]
pub fn convert_node(alloc: Global, operand: TExpr, ty: Ty, line: u32) -> Result<TExpr, AllocError>
    ensures { IfOk result (λ e. expression_of e ≡ tree.Convert (expression_of operand) ty line) }
{
    let operand = Box::new(alloc, operand)?;
    Ok(TExpr::Convert { operand, ty, line })
}

/// A cast (ISO/IEC 9899:1990, 6.3.4).
#[tactic(auto, using(c_typed::proofs::Shapes::show_expression_cast))]
pub fn cast_node(alloc: Global, operand: TExpr, ty: Ty, line: u32) -> Result<TExpr, AllocError>
    ensures { IfOk result (λ e. expression_of e ≡ tree.Cast (expression_of operand) ty line) }
{
    let operand = Box::new(alloc, operand)?;
    Ok(TExpr::Cast { operand, ty, line })
}

/// `+ - ~ !` (ISO/IEC 9899:1990, 6.3.3.3).
#[tactic(auto, using(c_typed::proofs::Shapes::show_expression_unary))]
pub fn unary_node(
    alloc: Global,
    op: UnOp,
    operand: TExpr,
    ty: Ty,
    line: u32,
) -> Result<TExpr, AllocError>
    ensures { IfOk result (λ e. expression_of e ≡ tree.Unary op (expression_of operand) ty line) }
{
    let operand = Box::new(alloc, operand)?;
    Ok(TExpr::Unary {
        op,
        operand,
        ty,
        line,
    })
}

/// An operator on integers, or a comparison (ISO/IEC 9899:1990, 6.3.5 to 6.3.12).
#[tactic(auto, using(c_typed::proofs::Shapes::show_expression_binary))]
pub fn binary_node(
    alloc: Global,
    op: BinOp,
    left: TExpr,
    right: TExpr,
    ty: Ty,
    line: u32,
) -> Result<TExpr, AllocError>
    ensures { IfOk result (λ e. expression_of e ≡ tree.Binary op (expression_of left) (expression_of right) ty line) }
{
    let left = Box::new(alloc, left)?;
    let right = Box::new(alloc, right)?;
    Ok(TExpr::Binary {
        op,
        left,
        right,
        ty,
        line,
    })
}

/// A pointer that is moved (ISO/IEC 9899:1990, 6.3.6).
#[tactic(auto, using(c_typed::proofs::Shapes::show_expression_offset))]
pub fn offset_node(
    alloc: Global,
    op: BinOp,
    left: TExpr,
    right: TExpr,
    size: u64,
    ty: Ty,
    line: u32,
) -> Result<TExpr, AllocError>
    ensures { IfOk result (λ e. expression_of e ≡ tree.Offset op (expression_of left) (expression_of right) size ty line) }
{
    let left = Box::new(alloc, left)?;
    let right = Box::new(alloc, right)?;
    Ok(TExpr::Offset {
        op,
        left,
        right,
        size,
        ty,
        line,
    })
}

/// The difference of two pointers (ISO/IEC 9899:1990, 6.3.6).
#[tactic(auto, using(c_typed::proofs::Shapes::show_expression_difference))]
pub fn difference_node(
    alloc: Global,
    left: TExpr,
    right: TExpr,
    size: u64,
    line: u32,
) -> Result<TExpr, AllocError>
    ensures { IfOk result (λ e. expression_of e ≡ tree.Difference (expression_of left) (expression_of right) size line) }
{
    let left = Box::new(alloc, left)?;
    let right = Box::new(alloc, right)?;
    Ok(TExpr::Difference {
        left,
        right,
        size,
        line,
    })
}

/// `&&` and `||` (ISO/IEC 9899:1990, 6.3.13 and 6.3.14).
#[tactic(auto, using(c_typed::proofs::Shapes::show_expression_logical))]
pub fn logical_node(
    alloc: Global,
    op: LogicalOp,
    left: TExpr,
    right: TExpr,
    line: u32,
) -> Result<TExpr, AllocError>
    ensures { IfOk result (λ e. expression_of e ≡ tree.Logical op (expression_of left) (expression_of right) line) }
{
    let left = Box::new(alloc, left)?;
    let right = Box::new(alloc, right)?;
    Ok(TExpr::Logical {
        op,
        left,
        right,
        line,
    })
}

/// `?:` (ISO/IEC 9899:1990, 6.3.15).
#[tactic(auto, using(c_typed::proofs::Shapes::show_expression_conditional))]
pub fn conditional_node(
    alloc: Global,
    condition: TExpr,
    first: TExpr,
    second: TExpr,
    ty: Ty,
    line: u32,
) -> Result<TExpr, AllocError>
    ensures { IfOk result (λ e. expression_of e ≡ tree.Conditional (expression_of condition) (expression_of first) (expression_of second) ty line) }
{
    let condition = Box::new(alloc, condition)?;
    let first = Box::new(alloc, first)?;
    let second = Box::new(alloc, second)?;
    Ok(TExpr::Conditional {
        condition,
        then: first,
        otherwise: second,
        ty,
        line,
    })
}

/// A comma (ISO/IEC 9899:1990, 6.3.17).
#[tactic(auto, using(c_typed::proofs::Shapes::show_expression_comma))]
pub fn comma_node(
    alloc: Global,
    left: TExpr,
    right: TExpr,
    ty: Ty,
    line: u32,
) -> Result<TExpr, AllocError>
    ensures { IfOk result (λ e. expression_of e ≡ tree.Comma (expression_of left) (expression_of right) ty line) }
{
    let left = Box::new(alloc, left)?;
    let right = Box::new(alloc, right)?;
    Ok(TExpr::Comma {
        left,
        right,
        ty,
        line,
    })
}

/// What a pointer points to (ISO/IEC 9899:1990, 6.3.3.2).
#[tactic(auto, using(c_typed::proofs::Shapes::show_place_deref))]
pub fn deref_place(
    alloc: Global,
    pointer: TExpr,
    ty: Qualified,
    line: u32,
) -> Result<TPlace, AllocError>
    ensures { IfOk result (λ p. place_of p ≡ tree.Deref (expression_of pointer) ty line) }
{
    let pointer = Box::new(alloc, pointer)?;
    Ok(TPlace::Deref { pointer, ty, line })
}

/// A member of a structure (ISO/IEC 9899:1990, 6.3.2.3).
#[tactic(auto, using(c_typed::proofs::Shapes::show_place_member))]
pub fn member_place(
    alloc: Global,
    whole: TPlace,
    member: usize,
    offset: u64,
    ty: Qualified,
    line: u32,
) -> Result<TPlace, AllocError>
    ensures { IfOk result (λ p. place_of p ≡ tree.Member (place_of whole) member offset ty line) }
{
    let whole = Box::new(alloc, whole)?;
    Ok(TPlace::Member {
        whole,
        member,
        offset,
        ty,
        line,
    })
}

/// An assignment (ISO/IEC 9899:1990, 6.3.16.1).
#[tactic(auto, using(c_typed::proofs::Shapes::show_expression_assign))]
pub fn assign_node(
    alloc: Global,
    place: TPlace,
    value: TExpr,
    ty: Ty,
    line: u32,
) -> Result<TExpr, AllocError>
    ensures { IfOk result (λ e. expression_of e ≡ tree.Assign (place_of place) (expression_of value) ty line) }
{
    let place = Box::new(alloc, place)?;
    let value = Box::new(alloc, value)?;
    Ok(TExpr::Assign {
        place,
        value,
        ty,
        line,
    })
}

/// An assignment of a structure (ISO/IEC 9899:1990, 6.3.16.1).
#[tactic(auto, using(c_typed::proofs::Shapes::show_expression_struct_assign))]
pub fn copy_node(
    alloc: Global,
    place: TPlace,
    from: TPlace,
    size: u64,
    line: u32,
) -> Result<TExpr, AllocError>
    ensures { IfOk result (λ e. expression_of e ≡ tree.StructAssign (place_of place) (place_of from) size line) }
{
    let place = Box::new(alloc, place)?;
    let from = Box::new(alloc, from)?;
    Ok(TExpr::StructAssign {
        place,
        from,
        size,
        line,
    })
}

/// A compound assignment (ISO/IEC 9899:1990, 6.3.16.2).
#[tactic(auto, using(c_typed::proofs::Shapes::show_expression_update))]
pub fn update_node(
    alloc: Global,
    op: BinOp,
    place: TPlace,
    value: TExpr,
    operation: Ty,
    size: u64,
    ty: Ty,
    line: u32,
) -> Result<TExpr, AllocError>
    ensures { IfOk result (λ e. expression_of e ≡ tree.Update op (place_of place) (expression_of value) operation size ty line) }
{
    let place = Box::new(alloc, place)?;
    let value = Box::new(alloc, value)?;
    Ok(TExpr::Update {
        op,
        place,
        value,
        operation,
        size,
        ty,
        line,
    })
}

/// `++` and `--` (ISO/IEC 9899:1990, 6.3.2.4 and 6.3.3.1).
#[tactic(auto, using(c_typed::proofs::Shapes::show_expression_step))]
pub fn step_node(
    alloc: Global,
    op: StepOp,
    place: TPlace,
    operation: Ty,
    size: u64,
    ty: Ty,
    line: u32,
) -> Result<TExpr, AllocError>
    ensures { IfOk result (λ e. expression_of e ≡ tree.Step op (place_of place) operation size ty line) }
{
    let place = Box::new(alloc, place)?;
    Ok(TExpr::Step {
        op,
        place,
        operation,
        size,
        ty,
        line,
    })
}

/// A call (ISO/IEC 9899:1990, 6.3.2.2).
#[tactic(auto, using(c_typed::proofs::Shapes::show_expression_call))]
pub fn call_node(function: u32, arguments: Vec<TExpr>, ty: Ty, line: u32) -> TExpr
    ensures { expression_of result ≡ tree.Call function (arguments_of (map expression_of arguments.items)) ty line }
{
    TExpr::Call {
        function,
        arguments,
        ty,
        line,
    }
}
