//! The numbers of a typed program: its constants, the labels of its switches, the bytes that static objects begin with, and the
//! characters of strings.
//! Each value of the code is one that its type holds, and a byte is below 256; trees as pure data might hold others. So
//! nothing is tested and nothing answered here: a walk over all of them ensures it of the tree as pure data.

ghost use Rattle.std.specs.Prelude.{◌<◌, [], ◌∷◌, map};
ghost use Rattle.std.specs.List.{All};
ghost use Rattle.std.specs.Option.{option_map};
ghost use Rattle.c_ints.specs.Range.{IsInRange};
ghost use Rattle.c_typed.specs.Views.{expression_of, place_of, arguments_of, item_of, statement_of, statements_of, arm_of, arms_of, program_of, function_of, static_of};
ghost use Rattle.src_rules.specs.Numbers as stated;
ghost use Rattle.src_rules.specs.Numbers.{ProgramHasNumbers};
ghost use Rattle.typed_numbers.specs.Lists.{FunctionsHaveNumbers, StaticsHaveNumbers};

use c_ints::Value;
use c_typed::{
    Function, Initial, InitialByte, Static, TArm, TCase, TExpr, TItem, TPlace, TStmt, Typed,
};

#[cycle(numbers)]
#[tactic(auto, using(c_typed::proofs::Shapes::expression_shapes))]
fn see_expression(expr: &TExpr)
    ensures { stated.HasNumbers (expression_of expr.now) }
{
    match expr {
        TExpr::Constant { value, .. } => {
            value.number();
        }
        TExpr::Read { place, .. } | TExpr::Address { place, .. } | TExpr::Step { place, .. } => {
            see_place(place)
        }
        TExpr::Convert { operand, .. }
        | TExpr::Cast { operand, .. }
        | TExpr::Unary { operand, .. } => see_expression(operand),
        TExpr::Binary { left, right, .. }
        | TExpr::Offset { left, right, .. }
        | TExpr::Difference { left, right, .. }
        | TExpr::Logical { left, right, .. }
        | TExpr::Comma { left, right, .. } => {
            see_expression(left);
            see_expression(right)
        }
        TExpr::Conditional {
            condition,
            then,
            otherwise,
            ..
        } => {
            see_expression(condition);
            see_expression(then);
            see_expression(otherwise)
        }
        TExpr::Assign { place, value, .. } | TExpr::Update { place, value, .. } => {
            see_place(place);
            see_expression(value)
        }
        TExpr::StructAssign { place, from, .. } => {
            see_place(place);
            see_place(from)
        }
        TExpr::Call { arguments, .. } => see_arguments(arguments),
    }
}

#[cycle(numbers)]
#[tactic(auto, using(c_typed::proofs::Shapes::place_shapes))]
fn see_place(place: &TPlace)
    ensures { stated.PlaceHasNumbers (place_of place.now) }
{
    match place {
        TPlace::Name { .. } | TPlace::Bit { .. } => {}
        TPlace::Member { whole, .. } => see_place(whole),
        TPlace::Deref { pointer, .. } => see_expression(pointer),
    }
}

#[cycle(numbers)]
fn see_arguments(arguments: &[TExpr])
    ensures { stated.AllHaveNumbers (arguments_of (map expression_of arguments.now)) }
{
    for argument in arguments {
        see_expression(argument);
    }
}

fn see_any(expr: &Option<TExpr>)
    ensures { stated.AnyHasNumbers (option_map expression_of expr.now) }
{
    match expr {
        Some(expr) => see_expression(expr),
        None => {}
    }
}

fn see_text(bytes: &[u8])
    ensures { All (λ n. n < 256) bytes.now }
{}

fn see_item(item: &TItem)
    ensures { stated.ItemsHaveNumbers (item_of item.now ∷ []) }
{
    match item {
        TItem::Scalar { value, .. } => see_expression(value),
        TItem::Struct { from, .. } => see_place(from),
        TItem::Text { bytes, .. } => see_text(bytes),
    }
}

fn see_items(items: &[TItem])
    ensures { stated.ItemsHaveNumbers (map item_of items.now) }
{
    for item in items {
        see_item(item);
    }
}

fn see_value(value: Value)
    ensures { IsInRange value.ty value.number }
{}

fn see_cases(cases: &[TCase])
    ensures { stated.CasesHaveNumbers cases.now }
{
    for case in cases {
        see_value(case.value);
    }
}

#[cycle(statement_numbers)]
#[tactic(auto, using(c_typed::proofs::Shapes::statement_shapes))]
fn see_statement(statement: &TStmt)
    ensures { stated.StatementHasNumbers (statement_of statement.now) }
{
    match statement {
        TStmt::Block { statements, .. } => see_statements(statements),
        TStmt::Empty { .. }
        | TStmt::Declare { .. }
        | TStmt::Break { .. }
        | TStmt::Continue { .. } => {}
        TStmt::Expr { value, .. } | TStmt::InitScalar { value, .. } => see_expression(value),
        TStmt::InitList { items, .. } => see_items(items),
        TStmt::If {
            arms,
            otherwise,
            ..
        } => {
            see_arms(arms);
            match otherwise {
                Some(last) => see_statement(last),
                None => {}
            }
        }
        TStmt::Loop {
            begin,
            condition,
            step,
            body,
            ..
        } => {
            see_any(begin);
            see_any(condition);
            see_any(step);
            see_statement(body)
        }
        TStmt::Switch {
            value,
            cases,
            statements,
            ..
        } => {
            see_expression(value);
            see_cases(cases);
            see_statements(statements)
        }
        TStmt::Return { value, .. } => see_any(value),
    }
}

#[cycle(statement_numbers)]
fn see_statements(statements: &[TStmt])
    ensures { stated.StatementsHaveNumbers (statements_of (map statement_of statements.now)) }
{
    for statement in statements {
        see_statement(statement);
    }
}

#[cycle(statement_numbers)]
fn see_arms(arms: &[TArm])
    ensures { stated.ArmsHaveNumbers (arms_of (map arm_of arms.now)) }
{
    for arm in arms {
        see_arm(arm);
    }
}

#[cycle(statement_numbers)]
#[tactic(auto, using(c_typed::proofs::Shapes::statement_shapes))]
fn see_arm(arm: &TArm)
    ensures { stated.ArmHasNumbers (arm_of arm.now) }
{
    see_expression(&arm.condition);
    see_statement(&arm.then)
}

fn see_byte(number: u8)
    ensures { number < 256 }
{}

fn see_initial(initial: &Initial)
    ensures { stated.IsInitialByte initial.now.byte }
{
    match initial.byte {
        InitialByte::Number(number) => see_byte(number),
        InitialByte::Address { .. } => {}
    }
}

fn see_initials(initials: &[Initial])
    ensures { stated.InitialsHaveNumbers initials.now }
{
    for initial in initials {
        see_initial(initial);
    }
}

fn see_functions(functions: &[Function])
    ensures { FunctionsHaveNumbers (map function_of functions.now) }
{
    for function in functions {
        see_statements(&function.body);
    }
}

fn see_statics(statics: &[Static])
    ensures { StaticsHaveNumbers (map static_of statics.now) }
{
    for object in statics {
        see_initials(&object.initial);
    }
}

/// Each constant of the program, and each label of a switch, is one that its type holds, and first bytes and characters are bytes.
pub fn see_numbers(program: &Typed)
    ensures { ProgramHasNumbers (program_of program.now) }
{
    see_functions(&program.functions);
    see_statics(&program.statics);
}
