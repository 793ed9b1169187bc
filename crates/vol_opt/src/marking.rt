//! The walk over all nodes of functions: it marks the static objects whose address they take, and those that they name where names are
//! asked for.

ghost use Rattle.std.specs.Prelude.{◌≡◌, ◌∷◌, [], map};
ghost use Rattle.std.specs.Option.{option_map};
ghost use Rattle.c_typed.specs.Views.{expression_of, place_of, arguments_of, item_of, statement_of, statements_of, arm_of, arms_of};
ghost use Rattle.vol_opt.specs.Marks.{marked};
ghost use Rattle.vol_opt.specs.Uses as stated;

use c_typed::{Object, TArm, TExpr, TItem, TPlace, TStmt};

pub fn mark(marks: &mut Vec<bool>, number: usize)
    ensures { marks.new.items ≡ marked marks.old.items (number ∷ []) }
{
    if number < marks.len() {
        marks[number] = true;
    }
}

#[tactic(auto, using(crate::proofs::Lists::marked_rules))]
fn mark_object(marks: &mut Vec<bool>, object: Object)
    ensures { marks.new.items ≡ marked marks.old.items (stated.static_in object) }
{
    match object {
        Object::Static(number) => mark(marks, number),
        Object::Param(_) | Object::Local(_) | Object::Register(_) => {}
    }
}

#[tactic(auto, using(crate::proofs::Lists::marked_rules))]
fn mark_named(marks: &mut Vec<bool>, names: bool, object: Object)
    ensures { marks.new.items ≡ marked marks.old.items (stated.named_in names object) }
{
    if names {
        mark_object(marks, object);
    }
}

// The object that a place is, or is a member of.
#[tactic(auto, using(c_typed::proofs::Shapes::place_shapes, crate::proofs::Lists::marked_rules), unfolding(crate::specs::Uses::whole_of))]
fn mark_whole(place: &TPlace, marks: &mut Vec<bool>)
    ensures { marks.new.items ≡ marked marks.old.items (stated.whole_of (place_of place.now)) }
{
    match place {
        TPlace::Name { object, .. } => mark_object(marks, *object),
        TPlace::Member { whole, .. } => mark_whole(whole, marks),
        TPlace::Bit { .. } | TPlace::Deref { .. } => {}
    }
}

#[cycle(expressions)]
#[tactic(auto, using(c_typed::proofs::Shapes::expression_shapes, crate::proofs::Lists::marked_rules), unfolding(crate::specs::Uses::uses))]
fn mark_expression(expr: &TExpr, names: bool, marks: &mut Vec<bool>)
    ensures { marks.new.items ≡ marked marks.old.items (stated.uses names (expression_of expr.now)) }
{
    match expr {
        TExpr::Constant { .. } => {}
        TExpr::Read { place, .. } | TExpr::Step { place, .. } => mark_place(place, names, marks),
        TExpr::Address { place, .. } => {
            mark_whole(place, marks);
            mark_place(place, names, marks);
        }
        TExpr::Convert { operand, .. }
        | TExpr::Cast { operand, .. }
        | TExpr::Unary { operand, .. } => mark_expression(operand, names, marks),
        TExpr::Binary { left, right, .. }
        | TExpr::Offset { left, right, .. }
        | TExpr::Difference { left, right, .. }
        | TExpr::Logical { left, right, .. }
        | TExpr::Comma { left, right, .. } => {
            mark_expression(left, names, marks);
            mark_expression(right, names, marks);
        }
        TExpr::Conditional {
            condition,
            then,
            otherwise,
            ..
        } => {
            mark_expression(condition, names, marks);
            mark_expression(then, names, marks);
            mark_expression(otherwise, names, marks);
        }
        TExpr::Assign { place, value, .. } | TExpr::Update { place, value, .. } => {
            mark_place(place, names, marks);
            mark_expression(value, names, marks);
        }
        TExpr::StructAssign { place, from, .. } => {
            mark_place(place, names, marks);
            mark_place(from, names, marks);
        }
        TExpr::Call { arguments, .. } => mark_arguments(arguments, names, marks),
    }
}

#[cycle(expressions)]
#[tactic(auto, using(c_typed::proofs::Shapes::place_shapes, crate::proofs::Lists::marked_rules), unfolding(crate::specs::Uses::uses))]
fn mark_place(place: &TPlace, names: bool, marks: &mut Vec<bool>)
    ensures { marks.new.items ≡ marked marks.old.items (stated.place_uses names (place_of place.now)) }
{
    match place {
        TPlace::Name { object, .. } => mark_named(marks, names, *object),
        TPlace::Bit { .. } => {}
        TPlace::Member { whole, .. } => mark_place(whole, names, marks),
        TPlace::Deref { pointer, .. } => mark_expression(pointer, names, marks),
    }
}

#[cycle(expressions)]
fn mark_arguments(arguments: &[TExpr], names: bool, marks: &mut Vec<bool>)
    ensures { marks.new.items ≡ marked marks.old.items (stated.arguments_uses names (arguments_of (map expression_of arguments.now))) }
{
    for argument in arguments {
        mark_expression(argument, names, marks);
    }
}

#[tactic(auto, using(crate::proofs::Lists::marked_rules))]
fn mark_any(expr: &Option<TExpr>, names: bool, marks: &mut Vec<bool>)
    ensures { marks.new.items ≡ marked marks.old.items (stated.any_uses names (option_map expression_of expr.now)) }
{
    match expr {
        Some(expr) => mark_expression(expr, names, marks),
        None => {}
    }
}

#[tactic(auto, using(crate::proofs::Lists::marked_rules))]
fn mark_item(item: &TItem, names: bool, marks: &mut Vec<bool>)
    ensures { marks.new.items ≡ marked marks.old.items (stated.item_uses names (item_of item.now)) }
{
    match item {
        TItem::Scalar { value, .. } => mark_expression(value, names, marks),
        TItem::Struct { from, .. } => mark_place(from, names, marks),
        TItem::Text { .. } => {}
    }
}

fn mark_items(items: &[TItem], names: bool, marks: &mut Vec<bool>)
    ensures { marks.new.items ≡ marked marks.old.items (stated.items_uses names (map item_of items.now)) }
{
    for item in items {
        mark_item(item, names, marks);
    }
}

#[cycle(statements)]
#[tactic(auto, using(c_typed::proofs::Shapes::statement_shapes, crate::proofs::Lists::marked_rules), unfolding(crate::specs::Uses::statement_uses))]
fn mark_statement(statement: &TStmt, names: bool, marks: &mut Vec<bool>)
    ensures { marks.new.items ≡ marked marks.old.items (stated.statement_uses names (statement_of statement.now)) }
{
    match statement {
        TStmt::Block { statements, .. } => mark_statements(statements, names, marks),
        TStmt::Empty { .. }
        | TStmt::Declare { .. }
        | TStmt::Break { .. }
        | TStmt::Continue { .. } => {}
        TStmt::Expr { value, .. } | TStmt::InitScalar { value, .. } => {
            mark_expression(value, names, marks);
        }
        TStmt::InitList { items, .. } => mark_items(items, names, marks),
        TStmt::If {
            arms,
            otherwise,
            ..
        } => {
            mark_arms(arms, names, marks);
            match otherwise {
                Some(last) => mark_statement(last, names, marks),
                None => {}
            }
        }
        TStmt::Loop {
            begin,
            condition,
            step,
            body,
            ..
        } => {
            mark_any(begin, names, marks);
            mark_any(condition, names, marks);
            mark_any(step, names, marks);
            mark_statement(body, names, marks);
        }
        TStmt::Switch {
            value,
            statements,
            ..
        } => {
            mark_expression(value, names, marks);
            mark_statements(statements, names, marks);
        }
        TStmt::Return { value, .. } => mark_any(value, names, marks),
    }
}

#[cycle(statements)]
pub fn mark_statements(statements: &[TStmt], names: bool, marks: &mut Vec<bool>)
    ensures { marks.new.items ≡ marked marks.old.items (stated.statements_uses names (statements_of (map statement_of statements.now))) }
{
    for statement in statements {
        mark_statement(statement, names, marks);
    }
}

#[cycle(statements)]
fn mark_arms(arms: &[TArm], names: bool, marks: &mut Vec<bool>)
    ensures { marks.new.items ≡ marked marks.old.items (stated.arms_uses names (arms_of (map arm_of arms.now))) }
{
    for arm in arms {
        mark_arm(arm, names, marks);
    }
}

#[cycle(statements)]
#[tactic(auto, using(c_typed::proofs::Shapes::statement_shapes, crate::proofs::Lists::marked_rules), unfolding(crate::specs::Uses::statement_uses))]
fn mark_arm(arm: &TArm, names: bool, marks: &mut Vec<bool>)
    ensures { marks.new.items ≡ marked marks.old.items (stated.arm_uses names (arm_of arm.now)) }
{
    mark_expression(&arm.condition, names, marks);
    mark_statement(&arm.then, names, marks);
}
