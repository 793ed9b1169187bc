//! The stated words of each node, from its own and those of its parts.

ghost use Rattle.std.specs.Prelude.{◌≡◌, ℕ, ◌+◌, ◌-◌, ◌*◌, ◌≤◌, map, slice_index};
ghost use Rattle.std.specs.Option.{option_map};
ghost use Rattle.c_typed.specs.Nodes.{capped};
ghost use Rattle.c_typed.specs.Room as room;
ghost use Rattle.c_typed.specs.Words as stated;
ghost use Rattle.c_typed.specs.Views.{expression_of, place_of, item_of, statement_of, arm_of, arguments_of, statements_of, arms_of, size_of, variable_of};

use crate::amount::{plus, times};
use crate::room::{arguments_bytes, place_bytes, value_bytes};
use c_ints::{BinOp, UnOp};
use c_typed::{
    PlaceForm, StepOp, Structure, TArm, TCase, TExpr, TItem, TPlace, TStmt, Ty, Variable, bytes_of,
};

fn read_words(form: PlaceForm, bytes: u64) -> u64
    ensures { result ≡ capped (stated.read_words form bytes) }
{
    match form {
        PlaceForm::Fixed => times(6, bytes),
        PlaceForm::Bit => 10,
        PlaceForm::Computed => plus(14, times(6, bytes)),
    }
}

fn store_words(form: PlaceForm, bytes: u64) -> u64
    ensures { result ≡ capped (stated.store_words form bytes) }
{
    match form {
        PlaceForm::Fixed => times(6, bytes),
        PlaceForm::Bit => 20,
        PlaceForm::Computed => plus(14, times(12, bytes)),
    }
}

fn address_words(form: PlaceForm) -> u64
    ensures { result ≡ stated.address_words form }
{
    match form {
        PlaceForm::Fixed => 8,
        PlaceForm::Bit | PlaceForm::Computed => 0,
    }
}

fn member_words(form: PlaceForm) -> u64
    ensures { result ≡ stated.member_words form }
{
    match form {
        PlaceForm::Fixed => 0,
        PlaceForm::Bit | PlaceForm::Computed => 12,
    }
}

fn convert_words(from: u64, to: u64) -> u64
    ensures { result ≡ capped (stated.convert_words from to) }
{
    if from < to {
        plus(8, times(4, to - from))
    } else {
        0
    }
}

fn unary_words(op: UnOp, operand: u64, bytes: u64) -> u64
    ensures { result ≡ capped (stated.unary_words op operand bytes) }
{
    match op {
        UnOp::Plus => convert_words(operand, bytes),
        UnOp::Minus => times(10, bytes),
        UnOp::Not => times(4, bytes),
        UnOp::Bang => plus(times(4, operand), 16),
    }
}

fn shift_words(constant: bool, bytes: u64) -> u64
    ensures { result ≡ capped (stated.shift_words constant bytes) }
{
    if constant {
        plus(times(8, bytes), 20)
    } else {
        plus(times(14, bytes), 14)
    }
}

fn operator_words(op: BinOp, constant: bool, bytes: u64) -> u64
    ensures { result ≡ capped (stated.operator_words op constant bytes) }
{
    match op {
        BinOp::Mul | BinOp::Div | BinOp::Rem => plus(times(20, bytes), 10),
        BinOp::Add | BinOp::Sub => times(10, bytes),
        BinOp::Shl | BinOp::Shr => shift_words(constant, bytes),
        BinOp::Lt | BinOp::Gt | BinOp::Le | BinOp::Ge => plus(times(10, bytes), 30),
        BinOp::Eq | BinOp::Ne => plus(times(10, bytes), 20),
        BinOp::And | BinOp::Xor | BinOp::Or => times(8, bytes),
    }
}

// The number of binary digits of a number below 2 to the `fuel`.
#[tactic(auto, using(crate::proofs::Digits::digits_none, crate::proofs::Digits::digits_more, crate::proofs::Digits::digits_zero))]
fn digits_within(fuel: u8, n: u64) -> u64
    ensures value { result ≡ stated.digits_within fuel n }
    ensures bound { result ≤ fuel }
{
    if fuel == 0 || n == 0 {
        0
    } else {
        1 + digits_within(fuel - 1, n / 2)
    }
}

fn scale(size: u64) -> u64
    ensures value { result ≡ stated.scale size }
    ensures bound { result ≤ 2000 }
{
    if size == 1 {
        return 0;
    }
    let digits = digits_within(64, size);
    let shifts = if digits == 0 { 0 } else { digits - 1 };
    12 + 20 * shifts
}

fn offset_words(size: u64) -> u64
    ensures { result ≡ stated.offset_words size }
{
    20 + scale(size)
}

fn difference_words(size: u64) -> u64
    ensures { result ≡ stated.difference_words size }
{
    if size == 1 { 20 } else { 80 }
}

fn struct_words(form: PlaceForm, from: PlaceForm, size: u64) -> u64
    ensures { result ≡ capped (stated.struct_words form from size) }
{
    match form {
        PlaceForm::Fixed => match from {
            PlaceForm::Fixed => times(6, size),
            PlaceForm::Bit | PlaceForm::Computed => plus(times(28, size), 8),
        },
        PlaceForm::Bit | PlaceForm::Computed => plus(times(28, size), 8),
    }
}

fn change_words(op: BinOp, constant: bool, operation: Ty, bytes: u64, size: u64) -> u64
    ensures { result ≡ capped (stated.change_words op constant operation bytes size) }
{
    match operation {
        Ty::Pointer(_) => offset_words(size),
        Ty::Void | Ty::Int(_) | Ty::Array { .. } | Ty::Struct(_) => {
            operator_words(op, constant, bytes)
        }
    }
}

fn computed_words(form: PlaceForm) -> u64
    ensures { result ≡ stated.computed_words form }
{
    match form {
        PlaceForm::Computed => 14,
        PlaceForm::Fixed | PlaceForm::Bit => 0,
    }
}

fn update_words(
    op: BinOp,
    constant: bool,
    form: PlaceForm,
    place: u64,
    operation: Ty,
    bytes: u64,
    size: u64,
) -> u64
    ensures { result ≡ capped (stated.update_words op constant form place operation bytes size) }
{
    let read = plus(read_words(form, place), convert_words(place, bytes));
    let changed = plus(read, change_words(op, constant, operation, bytes, size));
    let back = plus(changed, convert_words(bytes, place));
    let stored = plus(back, store_words(form, place));
    plus(plus(stored, times(12, bytes)), computed_words(form))
}

fn kept_words(op: StepOp, place: u64) -> u64
    ensures { result ≡ capped (stated.kept_words op place) }
{
    match op {
        StepOp::PreIncrement | StepOp::PreDecrement => 0,
        StepOp::PostIncrement | StepOp::PostDecrement => times(6, place),
    }
}

fn step_words(op: StepOp, form: PlaceForm, place: u64, operation: Ty, bytes: u64, size: u64) -> u64
    ensures { result ≡ capped (stated.step_words op form place operation bytes size) }
{
    let updated = update_words(op.operator(), true, form, place, operation, bytes, size);
    plus(plus(updated, kept_words(op, place)), 8)
}

// The words of an expression without its parts.
#[tactic(auto, using(c_typed::proofs::WordSights::own_words_of))]
fn own_words(structures: &[Structure], expr: &TExpr) -> u64
    ensures { result ≡ capped (stated.own_words (map size_of structures.now) (expression_of expr.now)) }
{
    match expr {
        TExpr::Constant { value, .. } => 4 * c_ints::size(value.ty()) as u64,
        TExpr::Read { place, ty, .. } => read_words(place.form(), bytes_of(structures, *ty)),
        TExpr::Address { place, .. } => address_words(place.form()),
        TExpr::Convert { operand, ty, .. } | TExpr::Cast { operand, ty, .. } => {
            convert_words(value_bytes(structures, operand), bytes_of(structures, *ty))
        }
        TExpr::Unary {
            op,
            operand,
            ty,
            ..
        } => unary_words(
            *op,
            value_bytes(structures, operand),
            bytes_of(structures, *ty),
        ),
        TExpr::Binary {
            op,
            left,
            right,
            ..
        } => operator_words(*op, right.is_constant(), value_bytes(structures, left)),
        TExpr::Offset { size, .. } => offset_words(*size),
        TExpr::Difference { size, .. } => difference_words(*size),
        TExpr::Logical { left, right, .. } => {
            tests_words(
                value_bytes(structures, left),
                value_bytes(structures, right),
            )
        }
        TExpr::Conditional { condition, .. } => test_words(value_bytes(structures, condition)),
        TExpr::Comma { .. } => 0,
        TExpr::Assign { place, ty, .. } => store_words(place.form(), bytes_of(structures, *ty)),
        TExpr::StructAssign {
            place,
            from,
            size,
            ..
        } => struct_words(place.form(), from.form(), *size),
        TExpr::Update {
            op,
            place,
            value,
            operation,
            size,
            ..
        } => update_words(
            *op,
            value.is_constant(),
            place.form(),
            place_bytes(structures, place),
            *operation,
            bytes_of(structures, *operation),
            *size,
        ),
        TExpr::Step {
            op,
            place,
            operation,
            size,
            ..
        } => step_words(
            *op,
            place.form(),
            place_bytes(structures, place),
            *operation,
            bytes_of(structures, *operation),
            *size,
        ),
        TExpr::Call { arguments, ty, .. } => call_words(
            arguments_bytes(structures, arguments),
            bytes_of(structures, *ty),
        ),
    }
}

/// The words of an expression with its parts.
#[cycle(words)]
#[tactic(auto, using(c_typed::proofs::WordSights::words_of, c_typed::proofs::WordSights::own_words_of))]
fn words(structures: &[Structure], expr: &TExpr) -> u64
    ensures { result ≡ capped (stated.words (map size_of structures.now) (expression_of expr.now)) }
{
    let own = own_words(structures, expr);
    match expr {
        TExpr::Constant { .. } => own,
        TExpr::Read { place, .. } | TExpr::Address { place, .. } | TExpr::Step { place, .. } => {
            plus(own, place_words(structures, place))
        }
        TExpr::Convert { operand, .. }
        | TExpr::Cast { operand, .. }
        | TExpr::Unary { operand, .. } => plus(own, words(structures, operand)),
        TExpr::Binary { left, right, .. }
        | TExpr::Offset { left, right, .. }
        | TExpr::Difference { left, right, .. }
        | TExpr::Logical { left, right, .. }
        | TExpr::Comma { left, right, .. } => {
            let first = words(structures, left);
            plus(own, plus(first, words(structures, right)))
        }
        TExpr::Conditional {
            condition,
            then,
            otherwise,
            ..
        } => {
            let first = words(structures, condition);
            let second = words(structures, then);
            plus(own, plus(first, plus(second, words(structures, otherwise))))
        }
        TExpr::Assign { place, value, .. } | TExpr::Update { place, value, .. } => {
            let first = place_words(structures, place);
            plus(own, plus(first, words(structures, value)))
        }
        TExpr::StructAssign { place, from, .. } => {
            let first = place_words(structures, place);
            plus(own, plus(first, place_words(structures, from)))
        }
        TExpr::Call { arguments, .. } => plus(own, arguments_words(structures, arguments)),
    }
}

// Two values that are tested one after the other.
fn tests_words(left: u64, right: u64) -> u64
    ensures { result ≡ capped (4 * left + 4 * right + 30) }
{
    plus(plus(times(4, left), times(4, right)), 30)
}

// A value that is tested.
fn test_words(bytes: u64) -> u64
    ensures { result ≡ capped (4 * bytes + 20) }
{
    plus(times(4, bytes), 20)
}

// A call, or a return, whose value has so many bytes.
fn call_words(arguments: u64, bytes: u64) -> u64
    ensures { result ≡ capped (6 * arguments + 6 * bytes + 6) }
{
    plus(plus(times(6, arguments), times(6, bytes)), 6)
}

#[cycle(words)]
#[tactic(auto, using(c_typed::proofs::WordSights::place_words_of))]
fn place_words(structures: &[Structure], place: &TPlace) -> u64
    ensures { result ≡ capped (stated.place_words (map size_of structures.now) (place_of place.now)) }
{
    match place {
        TPlace::Name { .. } | TPlace::Bit { .. } => 0,
        TPlace::Member { whole, .. } => {
            plus(member_words(whole.form()), place_words(structures, whole))
        }
        TPlace::Deref { pointer, .. } => words(structures, pointer),
    }
}

#[cycle(words)]
fn arguments_words(structures: &[Structure], arguments: &[TExpr]) -> u64
    ensures { result ≡ capped (stated.arguments_words (map size_of structures.now) (arguments_of (map expression_of arguments.now))) }
{
    let mut sum = 0;
    for argument in arguments {
        sum = plus(sum, words(structures, argument));
    }
    sum
}

fn any_words(structures: &[Structure], expr: &Option<TExpr>) -> u64
    ensures { result ≡ capped (stated.any_words (map size_of structures.now) (option_map expression_of expr.now)) }
{
    match expr {
        Some(expr) => words(structures, expr),
        None => 0,
    }
}

fn any_bytes(structures: &[Structure], expr: &Option<TExpr>) -> u64
    ensures { result ≡ stated.any_bytes (map size_of structures.now) (option_map expression_of expr.now) }
{
    match expr {
        Some(expr) => value_bytes(structures, expr),
        None => 0,
    }
}

fn condition_words(structures: &[Structure], condition: &Option<TExpr>) -> u64
    ensures { result ≡ capped (stated.condition_words (map size_of structures.now) (option_map expression_of condition.now)) }
{
    match condition {
        Some(expr) => plus(
            test_words(value_bytes(structures, expr)),
            words(structures, expr),
        ),
        None => 20,
    }
}

fn item_words(structures: &[Structure], item: &TItem) -> u64
    ensures { result ≡ capped (stated.item_words (map size_of structures.now) (item_of item.now)) }
{
    match item {
        TItem::Scalar { value, .. } => plus(
            store_words(PlaceForm::Fixed, value_bytes(structures, value)),
            words(structures, value),
        ),
        TItem::Struct { from, size, .. } => plus(
            struct_words(PlaceForm::Fixed, from.form(), *size),
            place_words(structures, from),
        ),
        TItem::Text { size, .. } => times(4, *size),
    }
}

fn items_words(structures: &[Structure], items: &[TItem]) -> u64
    ensures { result ≡ capped (stated.items_words (map size_of structures.now) (map item_of items.now)) }
{
    let mut sum = 0;
    for item in items {
        sum = plus(sum, item_words(structures, item));
    }
    sum
}

fn item_bytes(structures: &[Structure], item: &TItem) -> u64
    ensures { result ≡ stated.item_bytes (map size_of structures.now) (item_of item.now) }
{
    match item {
        TItem::Scalar { value, .. } => value_bytes(structures, value),
        TItem::Struct { size, .. } | TItem::Text { size, .. } => *size,
    }
}

fn items_bytes(structures: &[Structure], items: &[TItem]) -> u64
    ensures { result ≡ capped (stated.items_bytes (map size_of structures.now) (map item_of items.now)) }
{
    let mut sum = 0;
    for item in items {
        sum = plus(sum, item_bytes(structures, item));
    }
    sum
}

fn cases_words(bytes: u64, cases: &[TCase]) -> u64
    ensures { result ≡ capped (stated.cases_words bytes cases.now) }
{
    let each = plus(times(10, bytes), 14);
    let mut sum = 0;
    for _case in cases {
        sum = plus(sum, each);
    }
    sum
}

// The bytes of the local of that number.
fn local_bytes(structures: &[Structure], locals: &[Variable], local: usize) -> u64
    ensures { result ≡ slice_index (map (stated.variable_bytes (map size_of structures.now)) (map variable_of locals.now)) local }
{
    match locals.get(local) {
        Some(variable) => bytes_of(structures, variable.ty.ty),
        None => 0,
    }
}

// A local's list: its items, and 4 words for each byte of the local without an item.
fn list_words(structures: &[Structure], locals: &[Variable], local: usize, items: &[TItem]) -> u64
    ensures { result ≡ capped (stated.items_words (map size_of structures.now) (map item_of items.now) + 4 * (slice_index (map (stated.variable_bytes (map size_of structures.now)) (map variable_of locals.now)) local - stated.items_bytes (map size_of structures.now) (map item_of items.now))) }
{
    let sum = items_words(structures, items);
    let given = items_bytes(structures, items);
    let all = local_bytes(structures, locals, local);
    let left = if given < all { all - given } else { 0 };
    plus(sum, times(4, left))
}

/// The words of a statement with its parts.
#[cycle(statement_words)]
#[tactic(auto, using(c_typed::proofs::WordSights::statement_words_of))]
fn statement_words(structures: &[Structure], locals: &[Variable], statement: &TStmt) -> u64
    ensures { result ≡ capped (stated.statement_words (map size_of structures.now) (map (stated.variable_bytes (map size_of structures.now)) (map variable_of locals.now)) (statement_of statement.now)) }
{
    match statement {
        TStmt::Block { statements, .. } => statements_words(structures, locals, statements),
        TStmt::Empty { .. } | TStmt::Declare { .. } => 0,
        TStmt::Break { .. } | TStmt::Continue { .. } => 4,
        TStmt::Expr { value, .. } => words(structures, value),
        TStmt::InitScalar { value, .. } => plus(
            store_words(PlaceForm::Fixed, value_bytes(structures, value)),
            words(structures, value),
        ),
        TStmt::InitList { local, items, .. } => list_words(structures, locals, *local, items),
        TStmt::If {
            arms,
            otherwise,
            ..
        } => match otherwise {
            Some(last) => plus(
                arms_words(structures, locals, arms),
                statement_words(structures, locals, last),
            ),
            None => arms_words(structures, locals, arms),
        },
        TStmt::Loop {
            begin,
            condition,
            step,
            body,
            ..
        } => plus(
            condition_words(structures, condition),
            plus(
                any_words(structures, begin),
                plus(
                    any_words(structures, step),
                    statement_words(structures, locals, body),
                ),
            ),
        ),
        TStmt::Switch {
            value,
            cases,
            statements,
            ..
        } => plus(
            plus(10, cases_words(value_bytes(structures, value), cases)),
            plus(
                words(structures, value),
                statements_words(structures, locals, statements),
            ),
        ),
        TStmt::Return { value, .. } => plus(
            call_words(0, any_bytes(structures, value)),
            any_words(structures, value),
        ),
    }
}

/// The words of some statements.
#[cycle(statement_words)]
pub fn statements_words(structures: &[Structure], locals: &[Variable], statements: &[TStmt]) -> u64
    ensures { result ≡ capped (stated.statements_words (map size_of structures.now) (map (stated.variable_bytes (map size_of structures.now)) (map variable_of locals.now)) (statements_of (map statement_of statements.now))) }
{
    let mut sum = 0;
    for statement in statements {
        sum = plus(sum, statement_words(structures, locals, statement));
    }
    sum
}

#[cycle(statement_words)]
fn arms_words(structures: &[Structure], locals: &[Variable], arms: &[TArm]) -> u64
    ensures { result ≡ capped (stated.arms_words (map size_of structures.now) (map (stated.variable_bytes (map size_of structures.now)) (map variable_of locals.now)) (arms_of (map arm_of arms.now))) }
{
    let mut sum = 0;
    for arm in arms {
        sum = plus(sum, arm_words(structures, locals, arm));
    }
    sum
}

#[cycle(statement_words)]
#[tactic(auto, using(c_typed::proofs::WordSights::statement_words_of))]
fn arm_words(structures: &[Structure], locals: &[Variable], arm: &TArm) -> u64
    ensures { result ≡ capped (stated.arm_words (map size_of structures.now) (map (stated.variable_bytes (map size_of structures.now)) (map variable_of locals.now)) (arm_of arm.now)) }
{
    plus(
        test_words(value_bytes(structures, &arm.condition)),
        plus(
            words(structures, &arm.condition),
            statement_words(structures, locals, &arm.then),
        ),
    )
}
