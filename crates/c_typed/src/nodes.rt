//! How many nodes a typed tree has.

ghost use Rattle.std.specs.Prelude.{◌≡◌, ◌+◌, map};
ghost use Rattle.c_typed.specs.Nodes.{capped, total, expression_nodes, place_nodes, any_nodes, item_nodes, statement_nodes, arm_nodes, last_nodes, function_nodes, program_nodes};

use crate::expression::{TExpr, TPlace};
use crate::program::{Function, Typed};
use crate::statement::{TArm, TItem, TStmt};

// Counts add up to the greatest number there is, and no further.
fn plus(a: u64, b: u64) -> u64
    ensures { result ≡ capped (a + b) }
{
    if a <= u64::MAX - b { a + b } else { u64::MAX }
}

#[cycle(nodes)]
#[tactic(auto, using(crate::proofs::Counts::see_expression_constant, crate::proofs::Counts::see_expression_read, crate::proofs::Counts::see_expression_address, crate::proofs::Counts::see_expression_convert, crate::proofs::Counts::see_expression_cast, crate::proofs::Counts::see_expression_unary, crate::proofs::Counts::see_expression_binary, crate::proofs::Counts::see_expression_offset, crate::proofs::Counts::see_expression_difference, crate::proofs::Counts::see_expression_logical, crate::proofs::Counts::see_expression_conditional, crate::proofs::Counts::see_expression_comma, crate::proofs::Counts::see_expression_assign, crate::proofs::Counts::see_expression_struct_assign, crate::proofs::Counts::see_expression_update, crate::proofs::Counts::see_expression_step, crate::proofs::Counts::see_expression_call))]
fn nodes_in_expression(expr: &TExpr) -> u64
    ensures { result ≡ capped (expression_nodes expr.now) }
{
    match expr {
        TExpr::Constant { .. } => 1,
        TExpr::Read { place, .. } | TExpr::Address { place, .. } | TExpr::Step { place, .. } => {
            plus(1, nodes_in_place(place))
        }
        TExpr::Convert { operand, .. }
        | TExpr::Cast { operand, .. }
        | TExpr::Unary { operand, .. } => plus(1, nodes_in_expression(operand)),
        TExpr::Binary { left, right, .. }
        | TExpr::Offset { left, right, .. }
        | TExpr::Difference { left, right, .. }
        | TExpr::Logical { left, right, .. }
        | TExpr::Comma { left, right, .. } => plus(
            1,
            plus(nodes_in_expression(left), nodes_in_expression(right)),
        ),
        TExpr::Conditional {
            condition,
            then,
            otherwise,
            ..
        } => plus(
            plus(1, nodes_in_expression(condition)),
            plus(nodes_in_expression(then), nodes_in_expression(otherwise)),
        ),
        TExpr::Assign { place, value, .. } | TExpr::Update { place, value, .. } => {
            plus(1, plus(nodes_in_place(place), nodes_in_expression(value)))
        }
        TExpr::StructAssign { place, from, .. } => {
            plus(1, plus(nodes_in_place(place), nodes_in_place(from)))
        }
        TExpr::Call { arguments, .. } => plus(1, nodes_in_arguments(arguments)),
    }
}

#[cycle(nodes)]
#[tactic(auto, using(crate::proofs::Counts::see_place_name, crate::proofs::Counts::see_place_bit, crate::proofs::Counts::see_place_member, crate::proofs::Counts::see_place_deref))]
fn nodes_in_place(place: &TPlace) -> u64
    ensures { result ≡ capped (place_nodes place.now) }
{
    match place {
        TPlace::Name { .. } | TPlace::Bit { .. } => 1,
        TPlace::Member { whole, .. } => plus(1, nodes_in_place(whole)),
        TPlace::Deref { pointer, .. } => plus(1, nodes_in_expression(pointer)),
    }
}

#[cycle(nodes)]
fn nodes_in_arguments(arguments: &[TExpr]) -> u64
    ensures { result ≡ capped (total (map expression_nodes arguments.now)) }
{
    let mut count = 0;
    for argument in arguments {
        count = plus(count, nodes_in_expression(argument));
    }
    count
}

fn nodes_in_any(expr: &Option<TExpr>) -> u64
    ensures { result ≡ capped (any_nodes expr.now) }
{
    match expr {
        Some(expr) => nodes_in_expression(expr),
        None => 0,
    }
}

fn nodes_in_item(item: &TItem) -> u64
    ensures { result ≡ capped (item_nodes item.now) }
{
    match item {
        TItem::Scalar { value, .. } => nodes_in_expression(value),
        TItem::Struct { from, .. } => nodes_in_place(from),
        TItem::Text { .. } => 0,
    }
}

fn nodes_in_items(items: &[TItem]) -> u64
    ensures { result ≡ capped (total (map item_nodes items.now)) }
{
    let mut count = 0;
    for item in items {
        count = plus(count, nodes_in_item(item));
    }
    count
}

#[cycle(nodes_of_statements)]
#[tactic(auto, using(crate::proofs::Counts::see_statement_block, crate::proofs::Counts::see_statement_empty, crate::proofs::Counts::see_statement_expr, crate::proofs::Counts::see_statement_declare, crate::proofs::Counts::see_statement_init_scalar, crate::proofs::Counts::see_statement_init_list, crate::proofs::Counts::see_statement_if, crate::proofs::Counts::see_statement_loop, crate::proofs::Counts::see_statement_switch, crate::proofs::Counts::see_statement_break, crate::proofs::Counts::see_statement_continue, crate::proofs::Counts::see_statement_return))]
fn nodes_in_statement(statement: &TStmt) -> u64
    ensures { result ≡ capped (statement_nodes statement.now) }
{
    match statement {
        TStmt::Block { statements, .. } => plus(1, nodes_in_statements(statements)),
        TStmt::Empty { .. } | TStmt::Break { .. } | TStmt::Continue { .. } => 1,
        TStmt::Declare { .. } => 0,
        TStmt::Expr { value, .. } | TStmt::InitScalar { value, .. } => {
            plus(1, nodes_in_expression(value))
        }
        TStmt::InitList { items, .. } => plus(1, nodes_in_items(items)),
        TStmt::If {
            arms,
            otherwise,
            ..
        } => { plus(nodes_in_arms(arms), nodes_in_last(otherwise)) }
        TStmt::Loop {
            begin,
            condition,
            step,
            body,
            ..
        } => plus(
            plus(plus(1, nodes_in_any(begin)), nodes_in_any(condition)),
            plus(nodes_in_any(step), nodes_in_statement(body)),
        ),
        TStmt::Switch {
            value,
            cases,
            statements,
            ..
        } => plus(
            plus(plus(1, nodes_in_expression(value)), cases.len() as u64),
            nodes_in_statements(statements),
        ),
        TStmt::Return { value, .. } => plus(1, nodes_in_any(value)),
    }
}

#[cycle(nodes_of_statements)]
fn nodes_in_last(last: &Option<Box<TStmt>>) -> u64
    ensures { result ≡ capped (last_nodes last.now) }
{
    match last {
        Some(statement) => nodes_in_statement(statement),
        None => 0,
    }
}

#[cycle(nodes_of_statements)]
fn nodes_in_statements(statements: &[TStmt]) -> u64
    ensures { result ≡ capped (total (map statement_nodes statements.now)) }
{
    let mut count = 0;
    for statement in statements {
        count = plus(count, nodes_in_statement(statement));
    }
    count
}

#[cycle(nodes_of_statements)]
fn nodes_in_arms(arms: &[TArm]) -> u64
    ensures { result ≡ capped (total (map arm_nodes arms.now)) }
{
    let mut count = 0;
    for arm in arms {
        count = plus(count, nodes_in_arm(arm));
    }
    count
}

#[cycle(nodes_of_statements)]
#[tactic(auto, using(crate::proofs::Counts::see_arm))]
fn nodes_in_arm(arm: &TArm) -> u64
    ensures { result ≡ capped (arm_nodes arm.now) }
{
    plus(
        plus(1, nodes_in_expression(&arm.condition)),
        nodes_in_statement(&arm.then),
    )
}

fn nodes_in_function(function: &Function) -> u64
    ensures { result ≡ capped (function_nodes function.now) }
{
    plus(1, nodes_in_statements(&function.body))
}

fn nodes_in_functions(functions: &[Function]) -> u64
    ensures { result ≡ capped (program_nodes functions.now) }
{
    let mut count = 0;
    for function in functions {
        count = plus(count, nodes_in_function(function));
    }
    count
}

impl Typed {
    /// How many nodes the program has: each expression, place and statement, each arm of an `if`, each
    /// case label, and each function.
    pub fn nodes(&self) -> u64
        ensures { result ≡ program_nodes self.now.functions.items }
    {
        nodes_in_functions(&self.functions)
    }
}
