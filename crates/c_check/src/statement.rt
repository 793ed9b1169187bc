//! Statements, from the tree's root down (ISO/IEC 9899:1990, 6.6).

ghost use Rattle.std.specs.Prelude.{[], map};
ghost use Rattle.std.specs.Option.{option_map};
ghost use Rattle.c_nodes.specs.ProgramViews as views;
ghost use Rattle.c_nodes.specs.Views.{expr_of};
ghost use Rattle.c_typed.specs.Trees as typed;
ghost use Rattle.c_typed.specs.Views.{arm_of, expression_of, statement_of};
ghost use Rattle.type_rules.specs.Known.{Known, given};
ghost use Rattle.type_rules.specs.Statements as rule;
ghost use Rattle.c_tables.specs.Answers.{Answers};
ghost use Rattle.c_tables.specs.Tables.{known_of};
ghost use Rattle.c_check.specs.StatementViews.{any_statement, block_list, body_of, do_rule, for_rule, scoped_rule, switch_rule, while_rule};
ghost use Rattle.c_outline.specs.Flows.{flow_of};

use crate::declaration::block_declarations;
use crate::switch::{SwitchBody, labelled};
use crate::values::{
    LoopHead, condition, condition_if_any, dropped, evaluated_if_any, returned, switched,
};
use c_ints::IntTy;
use c_nodes::expression::Expr;
use c_nodes::statement::{Arm, Block, ForHead, IfChain, Otherwise, Statement, SwitchItem};
use c_outline::flow::Flow;
use c_tables::checker::Checker;
use c_tables::error::CheckError;
use c_typed::{LoopForm, TArm, TStmt};
use std::alloc::Global;

/// The declarations and statements of a block, whose scope is open.
#[cycle(statement)]
pub(crate) fn block(
    block: &Block,
    checker: &mut Checker,
    flow: Flow,
) -> Result<Vec<TStmt>, CheckError>
    ensures { Answers (λ made. map statement_of made.items) result (known_of checker.new) (block_list (views.block_of block.now) (flow_of flow) (known_of checker.old)) }
{
    let mut statements = block_declarations(&block.declarations, checker)?;
    for inner in &block.statements {
        let made = statement(inner, checker, flow)?;
        statements.push(made)?;
    }
    Ok(statements)
}

#[cycle(statement)]
#[tactic(auto, using(crate::proofs::Statements::nodes))]
fn statement(statement: &Statement, checker: &mut Checker, flow: Flow) -> Result<TStmt, CheckError>
    ensures { Answers statement_of result (known_of checker.new) (rule.statement (views.statement_of statement.now) (flow_of flow) (known_of checker.old)) }
{
    match statement {
        Statement::Block(inner) => scoped(inner, checker, flow),
        Statement::Expr { expr, semicolon } => dropped(expr, checker, *semicolon),
        Statement::If(chain) => if_chain(chain, checker, flow),
        Statement::While {
            keyword,
            condition,
            body,
        } => while_loop(body, checker, &condition.expr, *keyword),
        Statement::Do {
            keyword,
            body,
            condition,
            ..
        } => do_loop(body, checker, &condition.expr, *keyword),
        Statement::For {
            keyword,
            head,
            body,
        } => for_loop(body, checker, head, *keyword),
        Statement::Switch {
            keyword,
            value,
            items,
            ..
        } => switch(items, checker, flow, &value.expr, *keyword),
        Statement::Break { keyword, .. } => flow.break_at(*keyword),
        Statement::Continue { keyword, .. } => flow.continue_at(*keyword),
        Statement::Return { keyword, value, .. } => returned(value, checker, *keyword),
    }
}

// A block that opens a scope.
#[cycle(statement)]
fn scoped(inner: &Block, checker: &mut Checker, flow: Flow) -> Result<TStmt, CheckError>
    ensures { Answers statement_of result (known_of checker.new) (scoped_rule (views.block_of inner.now) (flow_of flow) (known_of checker.old)) }
{
    let line = inner.opening;
    checker.scopes.enter()?;
    let statements = block(inner, checker, flow)?;
    checker.scopes.leave();
    Ok(TStmt::Block { statements, line })
}

#[tactic(auto, using(c_typed::proofs::Shapes::show_statement_loop))]
fn looped(
    alloc: Global,
    form: LoopForm,
    head: LoopHead,
    body: TStmt,
    line: u32,
) -> Result<TStmt, CheckError>
    ensures { (known : Known) → Answers statement_of result known (given (typed.Loop form (option_map expression_of head.begin) (option_map expression_of head.condition) (option_map expression_of head.step) (statement_of body) line) known) }
{
    let LoopHead {
        begin,
        condition,
        step,
    } = head;
    let body = Box::new(alloc, body)?;
    Ok(TStmt::Loop {
        form,
        begin,
        condition,
        step,
        body,
        line,
    })
}

#[cycle(statement)]
fn while_loop(
    body: &Statement,
    checker: &mut Checker,
    expr: &Expr,
    line: u32,
) -> Result<TStmt, CheckError>
    ensures { Answers statement_of result (known_of checker.new) (while_rule (expr_of expr.now) (views.statement_of body.now) line (known_of checker.old)) }
{
    let condition = condition(expr, checker)?;
    let body = statement(body, checker, Flow::in_loop())?;
    looped(
        checker.alloc,
        LoopForm::While,
        LoopHead::only(condition),
        body,
        line,
    )
}

#[cycle(statement)]
fn do_loop(
    body: &Statement,
    checker: &mut Checker,
    expr: &Expr,
    line: u32,
) -> Result<TStmt, CheckError>
    ensures { Answers statement_of result (known_of checker.new) (do_rule (expr_of expr.now) (views.statement_of body.now) line (known_of checker.old)) }
{
    let body = statement(body, checker, Flow::in_loop())?;
    let condition = condition(expr, checker)?;
    looped(
        checker.alloc,
        LoopForm::Do,
        LoopHead::only(condition),
        body,
        line,
    )
}

#[cycle(statement)]
fn for_loop(
    body: &Statement,
    checker: &mut Checker,
    head: &ForHead,
    line: u32,
) -> Result<TStmt, CheckError>
    ensures { Answers statement_of result (known_of checker.new) (for_rule (views.head_of head.now) (views.statement_of body.now) line (known_of checker.old)) }
{
    let begin = evaluated_if_any(&head.begin, checker)?;
    let condition = condition_if_any(&head.condition, checker)?;
    let step = evaluated_if_any(&head.step, checker)?;
    let body = statement(body, checker, Flow::in_loop())?;
    let head = LoopHead {
        begin,
        condition,
        step,
    };
    looped(checker.alloc, LoopForm::For, head, body, line)
}

#[cycle(statement)]
fn switch(
    items: &[SwitchItem],
    checker: &mut Checker,
    flow: Flow,
    value: &Expr,
    line: u32,
) -> Result<TStmt, CheckError>
    ensures { Answers statement_of result (known_of checker.new) (switch_rule (expr_of value.now) (views.items_of (map views.switch_item_of items.now)) (flow_of flow) line (known_of checker.old)) }
{
    let (value, ty) = switched(value, checker)?;
    let body = switch_body(items, checker, flow.in_switch(), ty)?;
    Ok(body.finish(value, line))
}

#[cycle(statement)]
fn switch_body(
    items: &[SwitchItem],
    checker: &mut Checker,
    flow: Flow,
    ty: IntTy,
) -> Result<SwitchBody, CheckError>
    ensures { Answers body_of result (known_of checker.new) (rule.items (views.items_of (map views.switch_item_of items.now)) (flow_of flow) ty rule.no_items (known_of checker.old)) }
{
    let mut body = SwitchBody::new(checker.alloc, ty);
    for item in items {
        match item {
            SwitchItem::Label(label) => labelled(label, checker, &mut body)?,
            SwitchItem::Statement(inner) => {
                let made = statement(inner, checker, flow)?;
                body.add(made)?;
            }
        }
    }
    Ok(body)
}

#[cycle(statement)]
fn if_chain(chain: &IfChain, checker: &mut Checker, flow: Flow) -> Result<TStmt, CheckError>
    ensures { Answers statement_of result (known_of checker.new) (rule.statement (views.if_chain_of chain.now) (flow_of flow) (known_of checker.old)) }
{
    let line = chain.first.keyword;
    let mut arms = Vec::new(checker.alloc);
    let first = arm(&chain.first, checker, flow)?;
    arms.push(first)?;
    for other in &chain.others {
        let made = arm(&other.arm, checker, flow)?;
        arms.push(made)?;
    }
    let otherwise = last_arm(&chain.last, checker, flow)?;
    Ok(TStmt::If {
        arms,
        otherwise,
        line,
    })
}

// The statement behind the last `else`, if one stands there.
#[cycle(statement)]
fn last_arm(
    last: &Option<Box<Otherwise>>,
    checker: &mut Checker,
    flow: Flow,
) -> Result<Option<Box<TStmt>>, CheckError>
    ensures { Answers (λ made. ([], any_statement made)) result (known_of checker.new) (rule.other_arms (views.arms_of [] (views.otherwise_in last.now)) (flow_of flow) (known_of checker.old)) }
{
    match last {
        Some(last) => {
            let made = statement(&last.statement, checker, flow)?;
            Ok(Some(Box::new(checker.alloc, made)?))
        }
        None => Ok(None),
    }
}

#[cycle(statement)]
fn arm(arm: &Arm, checker: &mut Checker, flow: Flow) -> Result<TArm, CheckError>
    ensures { Answers arm_of result (known_of checker.new) (rule.arm (views.arm_of arm.now) (flow_of flow) (known_of checker.old)) }
{
    let condition = condition(&arm.condition.expr, checker)?;
    let then = statement(&arm.then, checker, flow)?;
    Ok(TArm {
        condition,
        then,
        line: arm.keyword,
    })
}
