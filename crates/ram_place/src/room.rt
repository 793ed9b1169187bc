//! The temporary bytes of expressions and statements, each node from its parts.

ghost use Rattle.std.specs.Prelude.{◌≡◌, ◌+◌, max, map};
ghost use Rattle.c_typed.specs.Nodes.{capped};
ghost use Rattle.c_typed.specs.Room as stated;
ghost use Rattle.c_typed.specs.Types.{value_bytes, place_bytes, type_bytes};
ghost use Rattle.c_typed.specs.Views.{expression_of, place_of, item_of, statement_of, arm_of, arguments_of, statements_of, arms_of, size_of};
ghost use Rattle.std.specs.Option.{option_map};

use crate::amount::{most, plus, times};
use c_ints::UnOp;
use c_typed::{PlaceForm, Structure, TArm, TExpr, TItem, TPlace, TStmt, Ty, bytes_of};

/// How many bytes the value of an expression has.
pub fn value_bytes(structures: &[Structure], expr: &TExpr) -> u64
    ensures { result ≡ value_bytes (map size_of structures.now) (expression_of expr.now) }
{
    bytes_of(structures, expr.ty())
}

/// How many bytes a place has.
pub fn place_bytes(structures: &[Structure], place: &TPlace) -> u64
    ensures { result ≡ place_bytes (map size_of structures.now) (place_of place.now) }
{
    bytes_of(structures, place.ty().ty)
}

fn address_bytes(form: PlaceForm) -> u64
    ensures { result ≡ stated.address_bytes form }
{
    match form {
        PlaceForm::Fixed | PlaceForm::Bit => 0,
        PlaceForm::Computed => 2,
    }
}

fn read_room(place: u64, form: PlaceForm, bytes: u64) -> u64
    ensures { result ≡ capped (stated.read_room place form bytes) }
{
    most(place, plus(address_bytes(form), bytes))
}

fn unary_room(op: UnOp, operand: u64, operand_bytes: u64, bytes: u64) -> u64
    ensures { result ≡ capped (stated.unary_room op operand operand_bytes bytes) }
{
    match op {
        UnOp::Bang => most(operand, plus(operand_bytes, 2)),
        UnOp::Plus | UnOp::Minus | UnOp::Not => most(operand, plus(operand_bytes, bytes)),
    }
}

fn binary_room(left: u64, left_bytes: u64, right: u64, right_bytes: u64, bytes: u64) -> u64
    ensures { result ≡ capped (stated.binary_room left left_bytes right right_bytes bytes) }
{
    let operands = plus(left_bytes, right_bytes);
    most(
        left,
        most(plus(left_bytes, right), plus(plus(operands, bytes), 2)),
    )
}

fn assign_room(place: u64, form: PlaceForm, value: u64, value_bytes: u64) -> u64
    ensures { result ≡ capped (stated.assign_room place form value value_bytes) }
{
    let address = address_bytes(form);
    most(
        place,
        most(plus(address, value), plus(plus(address, value_bytes), 2)),
    )
}

fn struct_room(place: u64, form: PlaceForm, from: u64, from_form: PlaceForm) -> u64
    ensures { result ≡ capped (stated.struct_room place form from from_form) }
{
    let address = address_bytes(form);
    most(
        place,
        most(
            plus(address, from),
            plus(plus(address, address_bytes(from_form)), 2),
        ),
    )
}

fn update_room(
    place: u64,
    form: PlaceForm,
    place_bytes: u64,
    value: u64,
    value_bytes: u64,
    operation: u64,
) -> u64
    ensures { result ≡ capped (stated.update_room place form place_bytes value value_bytes operation) }
{
    let address = address_bytes(form);
    let kept = plus(plus(address, value_bytes), place_bytes);
    most(
        place,
        most(
            plus(address, value),
            plus(plus(kept, times(3, operation)), 2),
        ),
    )
}

// The temporary bytes of an expression from those of its parts in their order.
#[tactic(auto, using(c_typed::proofs::RoomSights::node_rooms))]
fn node_room(structures: &[Structure], expr: &TExpr, first: u64, second: u64, third: u64) -> u64
    ensures { result ≡ capped (stated.node_room (map size_of structures.now) (expression_of expr.now) first second third) }
{
    match expr {
        TExpr::Constant { value, .. } => c_ints::size(value.ty()) as u64,
        TExpr::Read { place, ty, .. } => read_room(first, place.form(), bytes_of(structures, *ty)),
        TExpr::Address { .. } => most(first, 2),
        TExpr::Convert { operand, ty, .. } | TExpr::Cast { operand, ty, .. } => most(
            first,
            plus(value_bytes(structures, operand), bytes_of(structures, *ty)),
        ),
        TExpr::Unary {
            op,
            operand,
            ty,
            ..
        } => unary_room(
            *op,
            first,
            value_bytes(structures, operand),
            bytes_of(structures, *ty),
        ),
        TExpr::Binary {
            left,
            right,
            ty,
            ..
        }
        | TExpr::Offset {
            left,
            right,
            ty,
            ..
        } => binary_room(
            first,
            value_bytes(structures, left),
            second,
            value_bytes(structures, right),
            bytes_of(structures, *ty),
        ),
        TExpr::Difference { left, right, .. } => binary_room(
            first,
            value_bytes(structures, left),
            second,
            value_bytes(structures, right),
            2,
        ),
        TExpr::Logical { .. } => most(first, most(second, 2)),
        TExpr::Conditional { .. } => most(first, most(second, third)),
        TExpr::Comma { .. } => most(first, second),
        TExpr::Assign { place, value, .. } => assign_room(
            first,
            place.form(),
            second,
            value_bytes(structures, value),
        ),
        TExpr::StructAssign { place, from, .. } => {
            struct_room(first, place.form(), second, from.form())
        }
        TExpr::Update {
            place,
            value,
            operation,
            ..
        } => update_room(
            first,
            place.form(),
            place_bytes(structures, place),
            second,
            value_bytes(structures, value),
            bytes_of(structures, *operation),
        ),
        TExpr::Step {
            place,
            operation,
            ..
        } => update_room(
            first,
            place.form(),
            place_bytes(structures, place),
            2,
            2,
            bytes_of(structures, *operation),
        ),
        TExpr::Call { arguments, ty, .. } => most(
            first,
            most(
                arguments_bytes(structures, arguments),
                bytes_of(structures, *ty),
            ),
        ),
    }
}

/// The temporary bytes of an expression.
#[cycle(room)]
#[tactic(auto, using(c_typed::proofs::RoomSights::rooms, c_typed::proofs::RoomSights::node_rooms))]
pub fn room(structures: &[Structure], expr: &TExpr) -> u64
    ensures { result ≡ capped (stated.room (map size_of structures.now) (expression_of expr.now)) }
{
    match expr {
        TExpr::Constant { .. } => node_room(structures, expr, 0, 0, 0),
        TExpr::Read { place, .. } | TExpr::Address { place, .. } | TExpr::Step { place, .. } => {
            node_room(structures, expr, place_room(structures, place), 0, 0)
        }
        TExpr::Convert { operand, .. }
        | TExpr::Cast { operand, .. }
        | TExpr::Unary { operand, .. } => {
            node_room(structures, expr, room(structures, operand), 0, 0)
        }
        TExpr::Binary { left, right, .. }
        | TExpr::Offset { left, right, .. }
        | TExpr::Difference { left, right, .. }
        | TExpr::Logical { left, right, .. }
        | TExpr::Comma { left, right, .. } => {
            let first = room(structures, left);
            node_room(structures, expr, first, room(structures, right), 0)
        }
        TExpr::Conditional {
            condition,
            then,
            otherwise,
            ..
        } => {
            let first = room(structures, condition);
            let second = room(structures, then);
            node_room(structures, expr, first, second, room(structures, otherwise))
        }
        TExpr::Assign { place, value, .. } | TExpr::Update { place, value, .. } => {
            let first = place_room(structures, place);
            node_room(structures, expr, first, room(structures, value), 0)
        }
        TExpr::StructAssign { place, from, .. } => {
            let first = place_room(structures, place);
            node_room(structures, expr, first, place_room(structures, from), 0)
        }
        TExpr::Call { arguments, .. } => {
            node_room(
                structures,
                expr,
                arguments_room(structures, arguments),
                0,
                0,
            )
        }
    }
}

#[cycle(room)]
#[tactic(auto, using(c_typed::proofs::RoomSights::place_rooms))]
fn place_room(structures: &[Structure], place: &TPlace) -> u64
    ensures { result ≡ capped (stated.place_room (map size_of structures.now) (place_of place.now)) }
{
    match place {
        TPlace::Name { .. } | TPlace::Bit { .. } => 0,
        TPlace::Member { whole, .. } => place_room(structures, whole),
        TPlace::Deref { pointer, .. } => room(structures, pointer),
    }
}

#[cycle(room)]
fn arguments_room(structures: &[Structure], arguments: &[TExpr]) -> u64
    ensures { result ≡ capped (stated.arguments_room (map size_of structures.now) 0 (arguments_of (map expression_of arguments.now))) }
{
    let mut greatest = 0;
    let mut before = 0;
    for argument in arguments {
        greatest = most(greatest, plus(before, room(structures, argument)));
        before = plus(before, value_bytes(structures, argument));
    }
    greatest
}

/// The bytes of the arguments of a call.
pub fn arguments_bytes(structures: &[Structure], arguments: &[TExpr]) -> u64
    ensures { result ≡ capped (stated.arguments_bytes (map size_of structures.now) (arguments_of (map expression_of arguments.now))) }
{
    let mut bytes = 0;
    for argument in arguments {
        bytes = plus(bytes, value_bytes(structures, argument));
    }
    bytes
}

fn any_room(structures: &[Structure], expr: &Option<TExpr>) -> u64
    ensures { result ≡ capped (stated.any_room (map size_of structures.now) (option_map expression_of expr.now)) }
{
    match expr {
        Some(expr) => room(structures, expr),
        None => 0,
    }
}

fn item_room(structures: &[Structure], item: &TItem) -> u64
    ensures { result ≡ capped (stated.item_room (map size_of structures.now) (item_of item.now)) }
{
    match item {
        TItem::Scalar { value, .. } => assign_room(
            0,
            PlaceForm::Fixed,
            room(structures, value),
            value_bytes(structures, value),
        ),
        TItem::Struct { from, .. } => struct_room(
            0,
            PlaceForm::Fixed,
            place_room(structures, from),
            from.form(),
        ),
        TItem::Text { .. } => 0,
    }
}

fn items_room(structures: &[Structure], items: &[TItem]) -> u64
    ensures { result ≡ capped (stated.items_room (map size_of structures.now) (map item_of items.now)) }
{
    let mut greatest = 0;
    for item in items {
        greatest = most(greatest, item_room(structures, item));
    }
    greatest
}

fn switch_room(value: u64, bytes: u64) -> u64
    ensures { result ≡ capped (stated.switch_room value bytes) }
{
    most(value, plus(times(2, bytes), 2))
}

/// The greatest number of temporary bytes of the expressions of a statement.
#[cycle(statement_room)]
#[tactic(auto, using(c_typed::proofs::RoomSights::statement_rooms))]
fn statement_room(structures: &[Structure], statement: &TStmt) -> u64
    ensures { result ≡ capped (stated.statement_room (map size_of structures.now) (statement_of statement.now)) }
{
    match statement {
        TStmt::Block { statements, .. } => statements_room(structures, statements),
        TStmt::Empty { .. }
        | TStmt::Declare { .. }
        | TStmt::Break { .. }
        | TStmt::Continue { .. } => 0,
        TStmt::Expr { value, .. } => room(structures, value),
        TStmt::InitScalar { value, .. } => assign_room(
            0,
            PlaceForm::Fixed,
            room(structures, value),
            value_bytes(structures, value),
        ),
        TStmt::InitList { items, .. } => items_room(structures, items),
        TStmt::If {
            arms,
            otherwise,
            ..
        } => match otherwise {
            Some(last) => most(
                arms_room(structures, arms),
                statement_room(structures, last),
            ),
            None => arms_room(structures, arms),
        },
        TStmt::Loop {
            begin,
            condition,
            step,
            body,
            ..
        } => most(
            any_room(structures, begin),
            most(
                any_room(structures, condition),
                most(any_room(structures, step), statement_room(structures, body)),
            ),
        ),
        TStmt::Switch {
            value,
            statements,
            ..
        } => most(
            switch_room(room(structures, value), value_bytes(structures, value)),
            statements_room(structures, statements),
        ),
        TStmt::Return { value, .. } => any_room(structures, value),
    }
}

/// How many temporary bytes a list of statements takes: the most that one of them does.
#[cycle(statement_room)]
pub fn statements_room(structures: &[Structure], statements: &[TStmt]) -> u64
    ensures { result ≡ capped (stated.statements_room (map size_of structures.now) (statements_of (map statement_of statements.now))) }
{
    let mut greatest = 0;
    for statement in statements {
        greatest = most(greatest, statement_room(structures, statement));
    }
    greatest
}

#[cycle(statement_room)]
fn arms_room(structures: &[Structure], arms: &[TArm]) -> u64
    ensures { result ≡ capped (stated.arms_room (map size_of structures.now) (arms_of (map arm_of arms.now))) }
{
    let mut greatest = 0;
    for arm in arms {
        greatest = most(greatest, arm_room(structures, arm));
    }
    greatest
}

#[cycle(statement_room)]
#[tactic(auto, using(c_typed::proofs::RoomSights::statement_rooms))]
fn arm_room(structures: &[Structure], arm: &TArm) -> u64
    ensures { result ≡ capped (stated.arm_room (map size_of structures.now) (arm_of arm.now)) }
{
    most(
        room(structures, &arm.condition),
        statement_room(structures, &arm.then),
    )
}
