//! The walk over all that a program names. It takes the first line so far along, and may go in any order.

ghost use Rattle.std.specs.Prelude.{◌≡◌, None, [], ◌∷◌, map};
ghost use Rattle.std.specs.Option.{option_map};
ghost use Rattle.c_typed.specs.Views.{expression_of, place_of, arguments_of, item_of, statement_of, statements_of, arm_of, arms_of, program_of, function_of};
ghost use Rattle.pic_chip.specs.SmallAddress.{is_small_register};
ghost use Rattle.named_registers.specs.Foreign as stated;
ghost use Rattle.named_registers.specs.Foreign.{IsFirstForeign};
ghost use Rattle.named_registers.specs.Registers as named;

use c_typed::{Function, Object, TArm, TExpr, TItem, TPlace, TStmt, Typed};

// Whether the PIC16F84A has the register of this address.
fn is_small(address: u8) -> bool
    ensures { result ≡ is_small_register address }
{
    address == 0x01
        || address == 0x05
        || address == 0x06
        || address == 0x0b
        || address == 0x8b
        || address == 0x81
        || address == 0x85
        || address == 0x86
}

// The lesser of a line and the first one so far.
fn earlier(first: Option<u32>, line: u32) -> Option<u32>
    ensures { result ≡ stated.earlier first line }
{
    match first {
        Some(known) => Some(if line < known { line } else { known }),
        None => Some(line),
    }
}

fn after_register(first: Option<u32>, register: u8, line: u32) -> Option<u32>
    ensures { result ≡ stated.foreign_of first (record { register = register; line = line } ∷ []) }
{
    if is_small(register) {
        first
    } else {
        earlier(first, line)
    }
}

#[tactic(auto, using(crate::proofs::Lists::foreign_rules))]
fn after_object(first: Option<u32>, object: Object, line: u32) -> Option<u32>
    ensures { result ≡ stated.foreign_of first (named.object_registers object line) }
{
    match object {
        Object::Register(address) => after_register(first, address, line),
        Object::Static(_) | Object::Param(_) | Object::Local(_) => first,
    }
}

#[cycle(expressions)]
#[tactic(auto, using(c_typed::proofs::Shapes::expression_shapes, crate::proofs::Lists::foreign_rules), unfolding(crate::specs::Registers::registers))]
fn after_expression(expr: &TExpr, first: Option<u32>) -> Option<u32>
    ensures { result ≡ stated.foreign_of first (named.registers (expression_of expr.now)) }
{
    match expr {
        TExpr::Constant { .. } => first,
        TExpr::Read { place, .. } | TExpr::Address { place, .. } | TExpr::Step { place, .. } => {
            after_place(place, first)
        }
        TExpr::Convert { operand, .. }
        | TExpr::Cast { operand, .. }
        | TExpr::Unary { operand, .. } => after_expression(operand, first),
        TExpr::Binary { left, right, .. }
        | TExpr::Offset { left, right, .. }
        | TExpr::Difference { left, right, .. }
        | TExpr::Logical { left, right, .. }
        | TExpr::Comma { left, right, .. } => {
            let behind = after_expression(left, first);
            after_expression(right, behind)
        }
        TExpr::Conditional {
            condition,
            then,
            otherwise,
            ..
        } => {
            let tested = after_expression(condition, first);
            let behind = after_expression(then, tested);
            after_expression(otherwise, behind)
        }
        TExpr::Assign { place, value, .. } | TExpr::Update { place, value, .. } => {
            let behind = after_place(place, first);
            after_expression(value, behind)
        }
        TExpr::StructAssign { place, from, .. } => {
            let behind = after_place(place, first);
            after_place(from, behind)
        }
        TExpr::Call { arguments, .. } => after_arguments(arguments, first),
    }
}

#[cycle(expressions)]
#[tactic(auto, using(c_typed::proofs::Shapes::place_shapes), unfolding(crate::specs::Registers::registers))]
fn after_place(place: &TPlace, first: Option<u32>) -> Option<u32>
    ensures { result ≡ stated.foreign_of first (named.place_registers (place_of place.now)) }
{
    match place {
        TPlace::Name { object, line, .. } => after_object(first, *object, *line),
        TPlace::Bit { register, line, .. } => after_register(first, *register, *line),
        TPlace::Member { whole, .. } => after_place(whole, first),
        TPlace::Deref { pointer, .. } => after_expression(pointer, first),
    }
}

#[cycle(expressions)]
fn after_arguments(arguments: &[TExpr], first: Option<u32>) -> Option<u32>
    ensures { result ≡ stated.foreign_of first (named.arguments_registers (arguments_of (map expression_of arguments.now))) }
{
    let mut found = first;
    for argument in arguments {
        found = after_expression(argument, found);
    }
    found
}

#[tactic(auto, using(crate::proofs::Lists::foreign_rules))]
fn after_any(expr: &Option<TExpr>, first: Option<u32>) -> Option<u32>
    ensures { result ≡ stated.foreign_of first (named.any_registers (option_map expression_of expr.now)) }
{
    match expr {
        Some(expr) => after_expression(expr, first),
        None => first,
    }
}

#[tactic(auto, using(crate::proofs::Lists::foreign_rules))]
fn after_item(item: &TItem, first: Option<u32>) -> Option<u32>
    ensures { result ≡ stated.foreign_of first (named.item_registers (item_of item.now)) }
{
    match item {
        TItem::Scalar { value, .. } => after_expression(value, first),
        TItem::Struct { from, .. } => after_place(from, first),
        TItem::Text { .. } => first,
    }
}

fn after_items(items: &[TItem], first: Option<u32>) -> Option<u32>
    ensures { result ≡ stated.foreign_of first (named.items_registers (map item_of items.now)) }
{
    let mut found = first;
    for item in items {
        found = after_item(item, found);
    }
    found
}

#[cycle(statements)]
#[tactic(auto, using(c_typed::proofs::Shapes::statement_shapes, crate::proofs::Lists::foreign_rules), unfolding(crate::specs::Registers::statement_registers))]
fn after_statement(statement: &TStmt, first: Option<u32>) -> Option<u32>
    ensures { result ≡ stated.foreign_of first (named.statement_registers (statement_of statement.now)) }
{
    match statement {
        TStmt::Block { statements, .. } => after_statements(statements, first),
        TStmt::Empty { .. }
        | TStmt::Declare { .. }
        | TStmt::Break { .. }
        | TStmt::Continue { .. } => first,
        TStmt::Expr { value, .. } | TStmt::InitScalar { value, .. } => {
            after_expression(value, first)
        }
        TStmt::InitList { items, .. } => after_items(items, first),
        TStmt::If {
            arms,
            otherwise,
            ..
        } => {
            let behind = after_arms(arms, first);
            match otherwise {
                Some(last) => after_statement(last, behind),
                None => behind,
            }
        }
        TStmt::Loop {
            begin,
            condition,
            step,
            body,
            ..
        } => {
            let begun = after_any(begin, first);
            let tested = after_any(condition, begun);
            let stepped = after_any(step, tested);
            after_statement(body, stepped)
        }
        TStmt::Switch {
            value,
            statements,
            ..
        } => {
            let behind = after_expression(value, first);
            after_statements(statements, behind)
        }
        TStmt::Return { value, .. } => after_any(value, first),
    }
}

#[cycle(statements)]
fn after_statements(statements: &[TStmt], first: Option<u32>) -> Option<u32>
    ensures { result ≡ stated.foreign_of first (named.statements_registers (statements_of (map statement_of statements.now))) }
{
    let mut found = first;
    for statement in statements {
        found = after_statement(statement, found);
    }
    found
}

#[cycle(statements)]
fn after_arms(arms: &[TArm], first: Option<u32>) -> Option<u32>
    ensures { result ≡ stated.foreign_of first (named.arms_registers (arms_of (map arm_of arms.now))) }
{
    let mut found = first;
    for arm in arms {
        found = after_arm(arm, found);
    }
    found
}

#[cycle(statements)]
#[tactic(auto, using(c_typed::proofs::Shapes::statement_shapes, crate::proofs::Lists::foreign_rules), unfolding(crate::specs::Registers::statement_registers))]
fn after_arm(arm: &TArm, first: Option<u32>) -> Option<u32>
    ensures { result ≡ stated.foreign_of first (named.arm_registers (arm_of arm.now)) }
{
    let behind = after_expression(&arm.condition, first);
    after_statement(&arm.then, behind)
}

fn after_functions(functions: &[Function]) -> Option<u32>
    ensures { result ≡ stated.foreign_of None (named.functions_registers (map function_of functions.now)) }
{
    let mut found = None;
    for function in functions {
        found = after_statements(&function.body, found);
    }
    found
}

/// The first line on which the program names a device register that the PIC16F84A doesn't have, by itself or by a bit.
pub fn first_foreign(program: &Typed) -> Option<u32>
    ensures exact { result ≡ stated.first_foreign is_small_register (program_of program.now) }
    ensures first { IsFirstForeign is_small_register (program_of program.now) result }
{
    after_functions(&program.functions)
}
