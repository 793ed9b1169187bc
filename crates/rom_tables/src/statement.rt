//! Statements once more, with reads of tables as calls (ISO/IEC 9899:1990, 6.6).

ghost use Rattle.std.specs.Prelude.{◌≡◌, IfOk, map, option_map};
ghost use Rattle.c_typed.specs.Views.{arm_of, arms_of, expression_of, item_of, last_arm_of, statement_of, statements_of};
ghost use Rattle.rom_tables.specs.Outlined.{outlined_arm, outlined_arms, outlined_expression, outlined_item, outlined_last, outlined_option, outlined_statement, outlined_statements};

use crate::expression::{expression, outlined_place};
use crate::tables::Tables;
use c_typed::{TArm, TExpr, TItem, TStmt};
use std::alloc::{AllocError, Global};

// ---- expressions in statements

fn value_in(alloc: Global, e: &TExpr, tables: &Tables) -> Result<TExpr, AllocError>
    ensures { IfOk result (λ made. expression_of made ≡ outlined_expression tables.now.numbers.items tables.now.first (expression_of e.now)) }
{
    let made = expression(e, alloc, tables)?;
    Ok(Box::into_inner(made))
}

fn option_in(alloc: Global, e: &Option<TExpr>, tables: &Tables) -> Result<Option<TExpr>, AllocError>
    ensures { IfOk result (λ made. option_map expression_of made ≡ outlined_option tables.now.numbers.items tables.now.first (option_map expression_of e.now)) }
{
    match e {
        Some(e) => {
            let made = value_in(alloc, e, tables)?;
            Ok(Some(made))
        }
        None => Ok(None),
    }
}

fn item_in(alloc: Global, item: &TItem, tables: &Tables) -> Result<TItem, AllocError>
    ensures { IfOk result (λ made. item_of made ≡ outlined_item tables.now.numbers.items tables.now.first (item_of item.now)) }
{
    match item {
        TItem::Scalar { offset, value } => {
            let value = value_in(alloc, value, tables)?;
            Ok(TItem::Scalar {
                offset: *offset,
                value,
            })
        }
        TItem::Struct { offset, from, size } => {
            let from = outlined_place(from, alloc, tables)?;
            Ok(TItem::Struct {
                offset: *offset,
                from: Box::into_inner(from),
                size: *size,
            })
        }
        TItem::Text {
            offset,
            bytes,
            size,
        } => Ok(TItem::Text {
            offset: *offset,
            bytes: bytes.to_vec(alloc)?,
            size: *size,
        }),
    }
}

#[tactic(auto, using(crate::proofs::Bodies::item_more, crate::proofs::Bodies::items_all))]
fn items_in(alloc: Global, items: &[TItem], tables: &Tables) -> Result<Vec<TItem>, AllocError>
    ensures { IfOk result (λ made. map item_of made.items ≡ map (outlined_item tables.now.numbers.items tables.now.first) (map item_of items.now)) }
{
    let mut made = Vec::new(alloc);
    for k in 0..items.len() {
        let one = item_in(alloc, &items[k], tables)?;
        made.push(one)?;
    }
    Ok(made)
}

// ---- statements

fn boxed(alloc: Global, s: TStmt) -> Result<Box<TStmt>, AllocError>
    ensures { IfOk result (λ made. statement_of made.value ≡ statement_of s) }
{
    Ok(Box::new(alloc, s)?)
}

#[cycle(bodies)]
#[tactic(auto, using(crate::proofs::Bodies::statement_sights, c_typed::proofs::Shapes::statement_shapes, crate::proofs::Bodies::show_if))]
fn statement(s: &TStmt, alloc: Global, tables: &Tables) -> Result<TStmt, AllocError>
    ensures { IfOk result (λ made. statement_of made ≡ outlined_statement tables.now.numbers.items tables.now.first (statement_of s.now)) }
{
    match s {
        TStmt::Block { statements, line } => Ok(TStmt::Block {
            statements: statements_in(statements, alloc, tables)?,
            line: *line,
        }),
        TStmt::Empty { line } => Ok(TStmt::Empty { line: *line }),
        TStmt::Expr { value, line } => Ok(TStmt::Expr {
            value: value_in(alloc, value, tables)?,
            line: *line,
        }),
        TStmt::Declare { local, line } => Ok(TStmt::Declare {
            local: *local,
            line: *line,
        }),
        TStmt::InitScalar { local, value, line } => Ok(TStmt::InitScalar {
            local: *local,
            value: value_in(alloc, value, tables)?,
            line: *line,
        }),
        TStmt::InitList { local, items, line } => Ok(TStmt::InitList {
            local: *local,
            items: items_in(alloc, items, tables)?,
            line: *line,
        }),
        TStmt::If {
            arms,
            otherwise,
            line,
        } => {
            let arms = arms_in(arms, alloc, tables)?;
            let otherwise = last_in(otherwise, alloc, tables)?;
            Ok(TStmt::If {
                arms,
                otherwise,
                line: *line,
            })
        }
        TStmt::Loop {
            form,
            begin,
            condition,
            step,
            body,
            line,
        } => {
            let body = statement(body, alloc, tables)?;
            Ok(TStmt::Loop {
                form: *form,
                begin: option_in(alloc, begin, tables)?,
                condition: option_in(alloc, condition, tables)?,
                step: option_in(alloc, step, tables)?,
                body: boxed(alloc, body)?,
                line: *line,
            })
        }
        TStmt::Switch {
            value,
            cases,
            default,
            statements,
            line,
        } => {
            let statements = statements_in(statements, alloc, tables)?;
            Ok(TStmt::Switch {
                value: value_in(alloc, value, tables)?,
                cases: cases.to_vec(alloc)?,
                default: *default,
                statements,
                line: *line,
            })
        }
        TStmt::Break { line } => Ok(TStmt::Break { line: *line }),
        TStmt::Continue { line } => Ok(TStmt::Continue { line: *line }),
        TStmt::Return { value, line } => Ok(TStmt::Return {
            value: option_in(alloc, value, tables)?,
            line: *line,
        }),
    }
}

/// Statements, one after the other.
#[cycle(bodies)]
#[tactic(auto, using(crate::proofs::Bodies::statement_more, crate::proofs::Bodies::statements_all))]
pub(crate) fn statements_in(
    list: &[TStmt],
    alloc: Global,
    tables: &Tables,
) -> Result<Vec<TStmt>, AllocError>
    ensures { IfOk result (λ made. statements_of (map statement_of made.items) ≡ outlined_statements tables.now.numbers.items tables.now.first (statements_of (map statement_of list.now))) }
{
    let mut made = Vec::new(alloc);
    for k in 0..list.len() {
        let one = statement(&list[k], alloc, tables)?;
        made.push(one)?;
    }
    Ok(made)
}

#[cycle(bodies)]
#[tactic(auto, using(crate::proofs::Bodies::arm_sight, c_typed::proofs::Shapes::show_arm))]
fn arm(a: &TArm, alloc: Global, tables: &Tables) -> Result<TArm, AllocError>
    ensures { IfOk result (λ made. arm_of made ≡ outlined_arm tables.now.numbers.items tables.now.first (arm_of a.now)) }
{
    let then = statement(&a.then, alloc, tables)?;
    Ok(TArm {
        condition: value_in(alloc, &a.condition, tables)?,
        then,
        line: a.line,
    })
}

#[cycle(bodies)]
#[tactic(auto, using(crate::proofs::Bodies::arm_more, crate::proofs::Bodies::arms_all))]
fn arms_in(list: &[TArm], alloc: Global, tables: &Tables) -> Result<Vec<TArm>, AllocError>
    ensures { IfOk result (λ made. arms_of (map arm_of made.items) ≡ outlined_arms tables.now.numbers.items tables.now.first (arms_of (map arm_of list.now))) }
{
    let mut made = Vec::new(alloc);
    for k in 0..list.len() {
        let one = arm(&list[k], alloc, tables)?;
        made.push(one)?;
    }
    Ok(made)
}

// What stands behind a last `else`.
#[cycle(bodies)]
#[tactic(auto, unfolding(crate::specs::Outlined::outlined_last))]
fn last_in(
    last: &Option<Box<TStmt>>,
    alloc: Global,
    tables: &Tables,
) -> Result<Option<Box<TStmt>>, AllocError>
    ensures { IfOk result (λ made. last_arm_of made ≡ outlined_last tables.now.numbers.items tables.now.first (last_arm_of last.now)) }
{
    match last {
        Some(last) => {
            let made = statement(last, alloc, tables)?;
            let made = boxed(alloc, made)?;
            Ok(Some(made))
        }
        None => Ok(None),
    }
}
