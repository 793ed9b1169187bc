//! The entries of the stack that a program's runs need at most, counted on its tree and along its calls.

ghost use Rattle.std.specs.Prelude.{◌≡◌, ◌+◌, ◌≤◌, max, map, IfOk};
ghost use Rattle.std.specs.Option.{option_map};
ghost use Rattle.c_typed.specs.Nodes.{capped};
ghost use Rattle.c_typed.specs.Views.{expression_of, place_of, arguments_of, item_of, statement_of, statements_of, arm_of, arms_of, last_arm_of, program_of, function_of};
ghost use Rattle.call_graph.specs.Copies.{HasDepth};
ghost use Rattle.source_room.specs.Depth as depth;
ghost use Rattle.source_room.specs.Laws.{Suffices};

use c_typed::{Function, TArm, TExpr, TItem, TPlace, TStmt, Typed};
use call_graph::{GraphError, copies};
use std::alloc::{AllocError, Global};

// Counts add up to the greatest number there is, and no further.
fn plus(a: u64, b: u64) -> u64
    ensures { result ≡ capped (a + b) }
{
    if a <= u64::MAX - b { a + b } else { u64::MAX }
}

fn greatest(a: u64, b: u64) -> u64
    ensures { result ≡ max a b }
{
    if a < b { b } else { a }
}

#[cycle(expressions)]
#[tactic(auto, using(c_typed::proofs::Shapes::expression_shapes), unfolding(crate::specs::Depth::expression_depth))]
fn depth_of_expression(expr: &TExpr) -> u64
    ensures { result ≡ capped (depth.expression_depth (expression_of expr.now)) }
{
    match expr {
        TExpr::Constant { .. } => 1,
        TExpr::Read { place, .. } | TExpr::Address { place, .. } | TExpr::Step { place, .. } => {
            plus(1, depth_of_place(place))
        }
        TExpr::Convert { operand, .. }
        | TExpr::Cast { operand, .. }
        | TExpr::Unary { operand, .. } => plus(1, depth_of_expression(operand)),
        TExpr::Binary { left, right, .. }
        | TExpr::Offset { left, right, .. }
        | TExpr::Difference { left, right, .. }
        | TExpr::Logical { left, right, .. }
        | TExpr::Comma { left, right, .. } => plus(
            1,
            greatest(depth_of_expression(left), depth_of_expression(right)),
        ),
        TExpr::Conditional {
            condition,
            then,
            otherwise,
            ..
        } => plus(
            1,
            greatest(
                depth_of_expression(condition),
                greatest(depth_of_expression(then), depth_of_expression(otherwise)),
            ),
        ),
        TExpr::Assign { place, value, .. } | TExpr::Update { place, value, .. } => plus(
            1,
            greatest(depth_of_place(place), depth_of_expression(value)),
        ),
        TExpr::StructAssign { place, from, .. } => {
            plus(1, greatest(depth_of_place(place), depth_of_place(from)))
        }
        TExpr::Call { arguments, .. } => plus(1, depth_of_arguments(arguments)),
    }
}

#[cycle(expressions)]
#[tactic(auto, using(c_typed::proofs::Shapes::place_shapes), unfolding(crate::specs::Depth::expression_depth))]
fn depth_of_place(place: &TPlace) -> u64
    ensures { result ≡ capped (depth.place_depth (place_of place.now)) }
{
    match place {
        TPlace::Name { .. } | TPlace::Bit { .. } => 1,
        TPlace::Member { whole, .. } => plus(1, depth_of_place(whole)),
        TPlace::Deref { pointer, .. } => plus(1, depth_of_expression(pointer)),
    }
}

#[cycle(expressions)]
fn depth_of_arguments(arguments: &[TExpr]) -> u64
    ensures { result ≡ capped (depth.arguments_depth (arguments_of (map expression_of arguments.now))) }
{
    let mut deepest = 0;
    let mut before = 0;
    for argument in arguments {
        deepest = greatest(deepest, plus(before, depth_of_expression(argument)));
        before = plus(before, 1);
    }
    greatest(deepest, before)
}

fn depth_of_any(expr: &Option<TExpr>) -> u64
    ensures { result ≡ capped (depth.any_depth (option_map expression_of expr.now)) }
{
    match expr {
        Some(expr) => depth_of_expression(expr),
        None => 0,
    }
}

fn depth_of_item(item: &TItem) -> u64
    ensures { result ≡ capped (depth.item_depth (item_of item.now)) }
{
    match item {
        TItem::Scalar { value, .. } => depth_of_expression(value),
        TItem::Struct { from, .. } => depth_of_place(from),
        TItem::Text { .. } => 0,
    }
}

fn depth_of_items(items: &[TItem]) -> u64
    ensures { result ≡ capped (depth.items_depth (map item_of items.now)) }
{
    let mut deepest = 0;
    for item in items {
        deepest = greatest(deepest, depth_of_item(item));
    }
    deepest
}

#[cycle(statements)]
#[tactic(auto, using(c_typed::proofs::Shapes::statement_shapes), unfolding(crate::specs::Depth::statement_depth))]
fn depth_of_statement(statement: &TStmt) -> u64
    ensures { result ≡ capped (depth.statement_depth (statement_of statement.now)) }
{
    match statement {
        TStmt::Block { statements, .. } => plus(1, depth_of_statements(statements)),
        TStmt::Empty { .. }
        | TStmt::Declare { .. }
        | TStmt::Break { .. }
        | TStmt::Continue { .. } => 1,
        TStmt::Expr { value, .. } | TStmt::InitScalar { value, .. } => {
            plus(1, depth_of_expression(value))
        }
        TStmt::InitList { items, .. } => plus(1, depth_of_items(items)),
        TStmt::If {
            arms,
            otherwise,
            ..
        } => plus(1, greatest(depth_of_arms(arms), depth_of_last(otherwise))),
        TStmt::Loop {
            begin,
            condition,
            step,
            body,
            ..
        } => plus(
            1,
            greatest(
                depth_of_any(begin),
                greatest(
                    depth_of_any(condition),
                    greatest(depth_of_any(step), depth_of_statement(body)),
                ),
            ),
        ),
        TStmt::Switch {
            value,
            statements,
            ..
        } => plus(
            1,
            greatest(
                depth_of_expression(value),
                plus(1, depth_of_statements(statements)),
            ),
        ),
        TStmt::Return { value, .. } => plus(1, depth_of_any(value)),
    }
}

#[cycle(statements)]
#[tactic(auto, using(crate::proofs::Seen::lasts))]
fn depth_of_last(last: &Option<Box<TStmt>>) -> u64
    ensures { result ≡ capped (depth.last_depth (last_arm_of last.now)) }
{
    match last {
        Some(statement) => depth_of_statement(statement),
        None => 0,
    }
}

#[cycle(statements)]
fn depth_of_statements(statements: &[TStmt]) -> u64
    ensures { result ≡ capped (depth.body_depth (statements_of (map statement_of statements.now))) }
{
    let mut deepest = 0;
    for statement in statements {
        deepest = greatest(deepest, depth_of_statement(statement));
    }
    deepest
}

#[cycle(statements)]
fn depth_of_arms(arms: &[TArm]) -> u64
    ensures { result ≡ capped (depth.arms_depth (arms_of (map arm_of arms.now))) }
{
    let mut deepest = 0;
    for arm in arms {
        deepest = greatest(deepest, depth_of_arm(arm));
    }
    deepest
}

#[cycle(statements)]
#[tactic(auto, using(crate::proofs::Seen::see_arm))]
fn depth_of_arm(arm: &TArm) -> u64
    ensures { result ≡ capped (depth.arm_depth (arm_of arm.now)) }
{
    greatest(
        depth_of_expression(&arm.condition),
        depth_of_statement(&arm.then),
    )
}

fn depth_of_function(function: &Function) -> u64
    ensures { result ≡ capped (depth.function_depth (function_of function.now)) }
{
    plus(2, depth_of_statements(&function.body))
}

fn depth_of_functions(functions: &[Function]) -> u64
    ensures { result ≡ capped (depth.functions_depth (map function_of functions.now)) }
{
    let mut count = 0;
    for function in functions {
        count = plus(count, depth_of_function(function));
    }
    count
}

/// How many entries the stack of a run of the program has at most, where no function reaches itself: at most 6 times 2 to the 28.
#[tactic(auto, using(crate::proofs::Few::few))]
pub fn most_entries(program: &Typed) -> usize
    ensures exact { result ≡ depth.most_entries (program_of program.now) }
    ensures few { result ≤ 1610612736 }
{
    let count = depth_of_functions(&program.functions);
    plus(count, count) as usize
}

fn deepest_of(functions: &[Function]) -> u64
    ensures { result ≡ capped (depth.deepest_of (map function_of functions.now)) }
{
    let mut deepest = 0;
    for function in functions {
        deepest = greatest(deepest, depth_of_function(function));
    }
    deepest
}

/// How many entries the function needs that needs most, with its caller: at most 6 times 2 to the 28.
#[tactic(auto, using(crate::proofs::Few::few_deepest))]
pub fn deepest_function(program: &Typed) -> usize
    ensures exact { result ≡ depth.deepest_function (program_of program.now) }
    ensures few { result ≤ 1610612736 }
{
    deepest_of(&program.functions) as usize
}

// The fewer of all functions' entries together, and of those of the deepest function for each one that is active.
#[tactic(auto, using(crate::proofs::Enough::all_suffice))]
fn room_within(program: &Typed, depth: u32) -> usize
    requires { HasDepth (program_of program.now) depth }
    ensures enough { Suffices (program_of program.now) result }
    ensures few { result ≤ 1610612736 }
{
    let all = most_entries(program);
    let along = (depth as usize + 1) * deepest_function(program);
    if along < all { along } else { all }
}

/// So many entries suffice for the stack of each run of a proper program in which no function reaches itself: at most 6 times 2 to
/// the 28. Memory is wanted only while it counts.
#[tactic(auto, using(crate::proofs::Enough::all_suffice))]
pub fn room_for(alloc: Global, program: &Typed) -> Result<usize, AllocError>
    ensures enough { IfOk result (λ room. Suffices (program_of program.now) room) }
    ensures few { IfOk result (λ room. room ≤ 1610612736) }
{
    match copies(alloc, program) {
        Ok(found) => Ok(room_within(program, found.depth as u32)),
        Err(GraphError::Depth { depth }) => Ok(room_within(program, depth)),
        Err(GraphError::NoMemory) => Err(AllocError),
        Err(_) => Ok(most_entries(program)),
    }
}
