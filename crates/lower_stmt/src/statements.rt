//! Statements (ISO/IEC 9899:1990, 6.6).
//!
//! Each function of the recursion has a frame of its own, hence `inline(never)`: statements nest deep, and each level
//! takes only what one function needs.

ghost use Rattle.std.specs.Prelude.{◌≡◌, ◌+◌, ◌-◌, length, map, IfOk, OnOk};
ghost use Rattle.std.specs.Option.{option_map};
ghost use Rattle.c_typed.specs.TreeNodes.{statement_nodes, nodes_of_body, arm_nodes, arms_nodes, last_nodes};
ghost use Rattle.c_typed.specs.Views.{expression_of, statement_of, statements_of, arm_of, arms_of, last_arm_of};
ghost use Rattle.core_code.specs.View.{trees_in};
ghost use Rattle.core_puts.specs.Puts.{Appends};
ghost use Rattle.lower_stmt.specs.Ground.{ground_of};
ghost use Rattle.lower_stmt.specs.Jumps as jumping;
ghost use Rattle.lower_stmt.specs.Jumps.{HasRoom};
ghost use Rattle.lower_stmt.specs.Nesting as nesting;
ghost use Rattle.lower_stmt.specs.Statements as code;
ghost use Rattle.lower_stmt.specs.Switches as switches;

use crate::declarators::{put_list, put_scalar};
use crate::emitting::{again, exit, put_all, put_choice};
use crate::jumps::Jumps;
use crate::labels::{has, labels_of, segments_before};
use crate::site::{
    Site, first, local_byte, put_any, put_effect, put_value, result_byte, value_bytes,
};
use crate::switches::{begun_with, opened, put_closed, put_comparisons};
use c_typed::{LoopForm, TArm, TCase, TExpr, TStmt};
use core_code::Core;
use lower_expr::{put, put_copies, put_if, put_leave, put_loop};
use std::alloc::AllocError;

// A condition of a loop, which leaves it where the value is 0. A `for` may have none.
#[inline(never)]
#[tactic(auto, using(core_code::proofs::Views::tree_many, core_code::proofs::Views::tree_exit, std::proofs::lemmas::List::append_assoc))]
fn put_condition(
    site: &Site,
    condition: &Option<TExpr>,
    out: &mut Vec<Core>,
) -> Result<(), AllocError>
    ensures { OnOk result (Appends out.old.items out.new.items (code.condition_code (ground_of site.now) (option_map expression_of condition.now))) }
{
    match condition {
        Some(value) => {
            put_value(site, value, out)?;
            let yes = Core::Many(Vec::new(site.alloc));
            put_choice(
                site.alloc,
                first(site),
                value_bytes(site, value),
                yes,
                Core::Exit(0),
                out,
            )
        }
        None => Ok(()),
    }
}

#[inline(never)]
fn put_continue(jumps: Jumps, out: &mut Vec<Core>) -> Result<(), AllocError>
    ensures { OnOk result (Appends out.old.items out.new.items (code.continue_code jumps)) }
{
    if jumps.again {
        put(out, again(jumps.turn))
    } else {
        put(out, exit(jumps.turn))
    }
}

#[inline(never)]
fn put_break(jumps: Jumps, out: &mut Vec<Core>) -> Result<(), AllocError>
    ensures { OnOk result (Appends out.old.items out.new.items (code.break_code jumps)) }
{
    put(out, exit(jumps.leave))
}

#[inline(never)]
#[tactic(auto, using(std::proofs::lemmas::List::append_assoc))]
fn put_return(site: &Site, value: &Option<TExpr>, out: &mut Vec<Core>) -> Result<(), AllocError>
    ensures { OnOk result (Appends out.old.items out.new.items (code.return_code (ground_of site.now) (option_map expression_of value.now))) }
{
    match value {
        Some(value) => {
            put_value(site, value, out)?;
            put_copies(
                out,
                result_byte(site),
                first(site),
                value_bytes(site, value),
            )?;
            put_leave(out)
        }
        None => put_leave(out),
    }
}

/// Adds the code of a statement.
#[cycle(statement)]
#[inline(never)]
#[tactic(auto, using(crate::proofs::Sights::statements))]
fn put_statement(
    site: &Site,
    jumps: Jumps,
    statement: &TStmt,
    out: &mut Vec<Core>,
) -> Result<(), AllocError>
    requires { HasRoom jumps (statement_nodes (statement_of statement.now)) }
    ensures { OnOk result (Appends out.old.items out.new.items (code.stmt_code (ground_of site.now) jumps (statement_of statement.now))) }
{
    match statement {
        TStmt::Block { statements, .. } => put_statements(site, jumps, statements, out),
        TStmt::Empty { .. } | TStmt::Declare { .. } => Ok(()),
        TStmt::Expr { value, .. } => put_effect(site, value, out),
        TStmt::InitScalar { local, value, .. } => {
            put_scalar(site, local_byte(site, *local), value, out)
        }
        TStmt::InitList { local, items, .. } => put_list(site, *local, items, out),
        TStmt::If {
            arms,
            otherwise,
            ..
        } => {
            let mut last = Vec::new(site.alloc);
            put_last(site, jumps, otherwise, &mut last)?;
            put_arms(site, jumps, arms, last, out)
        }
        TStmt::Loop {
            form,
            begin,
            condition,
            step,
            body,
            ..
        } => match form {
            LoopForm::While => put_while(site, condition, body, out),
            LoopForm::Do => put_do(site, condition, body, out),
            LoopForm::For => put_for(site, begin, condition, step, body, out),
        },
        TStmt::Switch {
            value,
            cases,
            default,
            statements,
            ..
        } => put_switch(site, jumps, statements, value, cases, *default, out),
        TStmt::Break { .. } => put_break(jumps, out),
        TStmt::Continue { .. } => put_continue(jumps, out),
        TStmt::Return { value, .. } => put_return(site, value, out),
    }
}

/// Adds the code of statements, one after the other.
#[cycle(statement)]
#[inline(never)]
pub fn put_statements(
    site: &Site,
    jumps: Jumps,
    statements: &[TStmt],
    out: &mut Vec<Core>,
) -> Result<(), AllocError>
    requires { HasRoom jumps (nodes_of_body (statements_of (map statement_of statements.now))) }
    ensures { OnOk result (Appends out.old.items out.new.items (code.stmts_code (ground_of site.now) jumps (statements_of (map statement_of statements.now)))) }
{
    for statement in statements {
        put_statement(site, jumps, statement, out)?;
    }
    Ok(())
}

// The condition of an arm, and by its value the arm's statement or else this code.
#[cycle(statement)]
#[inline(never)]
#[tactic(auto, using(crate::proofs::Sights::one_arm, std::proofs::lemmas::List::append_assoc))]
fn put_arm(
    site: &Site,
    jumps: Jumps,
    arm: &TArm,
    otherwise: Vec<Core>,
    out: &mut Vec<Core>,
) -> Result<(), AllocError>
    requires { HasRoom jumps (arm_nodes (arm_of arm.now)) }
    ensures { OnOk result (Appends out.old.items out.new.items (code.arm_code (ground_of site.now) jumps (arm_of arm.now) (trees_in otherwise.items))) }
{
    put_value(site, &arm.condition, out)?;
    let mut yes = Vec::new(site.alloc);
    put_statement(site, jumps, &arm.then, &mut yes)?;
    put_if(
        site.alloc,
        out,
        first(site),
        value_bytes(site, &arm.condition),
        yes,
        otherwise,
    )
}

#[cycle(statement)]
#[inline(never)]
#[tactic(auto, using(crate::proofs::Sights::lasts))]
fn put_last(
    site: &Site,
    jumps: Jumps,
    otherwise: &Option<Box<TStmt>>,
    out: &mut Vec<Core>,
) -> Result<(), AllocError>
    requires { HasRoom jumps (last_nodes (last_arm_of otherwise.now)) }
    ensures { OnOk result (Appends out.old.items out.new.items (code.last_code (ground_of site.now) jumps (last_arm_of otherwise.now))) }
{
    match otherwise {
        Some(statement) => put_statement(site, jumps, statement, out),
        None => Ok(()),
    }
}

// Arms, and behind the last one what stands behind `else`. They are made from the last one back: a chain of any length
// takes no call stack.
#[cycle(statement)]
#[inline(never)]
fn put_arms(
    site: &Site,
    jumps: Jumps,
    arms: &[TArm],
    last: Vec<Core>,
    out: &mut Vec<Core>,
) -> Result<(), AllocError>
    requires { HasRoom jumps (arms_nodes (arms_of (map arm_of arms.now))) }
    ensures { OnOk result (Appends out.old.items out.new.items (code.arms_code (ground_of site.now) jumps (trees_in last.items) (arms_of (map arm_of arms.now)))) }
{
    let mut rest = last;
    let mut left = arms.len();
    while left > 0 {
        left -= 1;
        let mut code = Vec::new(site.alloc);
        put_arm(site, jumps, &arms[left], rest, &mut code)?;
        rest = code;
    }
    put_all(rest, out)?;
    Ok(())
}

// The body of a `do` or a `for`: a loop that runs once, so that `continue` leaves it.
#[cycle(statement)]
#[inline(never)]
#[tactic(auto, using(core_code::proofs::Views::tree_exit, std::proofs::lemmas::List::append_assoc))]
fn put_body(site: &Site, body: &TStmt, out: &mut Vec<Core>) -> Result<(), AllocError>
    requires { HasRoom jumping.in_body (statement_nodes (statement_of body.now)) }
    ensures { OnOk result (Appends out.old.items out.new.items (code.once (code.stmt_code (ground_of site.now) jumping.in_body (statement_of body.now)))) }
{
    let mut once = Vec::new(site.alloc);
    put_statement(site, Jumps::in_body(), body, &mut once)?;
    put(&mut once, Core::Exit(0))?;
    put_loop(site.alloc, out, once)
}

#[cycle(statement)]
#[inline(never)]
#[tactic(auto, using(std::proofs::lemmas::List::append_assoc))]
fn put_while(
    site: &Site,
    condition: &Option<TExpr>,
    body: &TStmt,
    out: &mut Vec<Core>,
) -> Result<(), AllocError>
    requires { HasRoom jumping.in_while (statement_nodes (statement_of body.now)) }
    ensures { OnOk result (Appends out.old.items out.new.items (code.while_code (ground_of site.now) (option_map expression_of condition.now) (code.stmt_code (ground_of site.now) jumping.in_while (statement_of body.now)))) }
{
    let mut turn = Vec::new(site.alloc);
    put_condition(site, condition, &mut turn)?;
    put_statement(site, Jumps::in_while(), body, &mut turn)?;
    put_loop(site.alloc, out, turn)
}

#[cycle(statement)]
#[inline(never)]
#[tactic(auto, using(std::proofs::lemmas::List::append_assoc))]
fn put_do(
    site: &Site,
    condition: &Option<TExpr>,
    body: &TStmt,
    out: &mut Vec<Core>,
) -> Result<(), AllocError>
    requires { HasRoom jumping.in_body (statement_nodes (statement_of body.now)) }
    ensures { OnOk result (Appends out.old.items out.new.items (code.do_code (ground_of site.now) (option_map expression_of condition.now) (code.stmt_code (ground_of site.now) jumping.in_body (statement_of body.now)))) }
{
    let mut turn = Vec::new(site.alloc);
    put_body(site, body, &mut turn)?;
    put_condition(site, condition, &mut turn)?;
    put_loop(site.alloc, out, turn)
}

#[cycle(statement)]
#[inline(never)]
#[tactic(auto, using(std::proofs::lemmas::List::append_assoc))]
fn put_for(
    site: &Site,
    begin: &Option<TExpr>,
    condition: &Option<TExpr>,
    step: &Option<TExpr>,
    body: &TStmt,
    out: &mut Vec<Core>,
) -> Result<(), AllocError>
    requires { HasRoom jumping.in_body (statement_nodes (statement_of body.now)) }
    ensures { OnOk result (Appends out.old.items out.new.items (code.for_code (ground_of site.now) (option_map expression_of begin.now) (option_map expression_of condition.now) (option_map expression_of step.now) (code.stmt_code (ground_of site.now) jumping.in_body (statement_of body.now)))) }
{
    put_any(site, begin, out)?;
    let mut turn = Vec::new(site.alloc);
    put_condition(site, condition, &mut turn)?;
    put_body(site, body, &mut turn)?;
    put_any(site, step, &mut turn)?;
    put_loop(site.alloc, out, turn)
}

// A statement of a switch's body, if a segment has begun. So many segments stand behind that one.
#[cycle(statement)]
#[inline(never)]
fn put_reached(
    site: &Site,
    jumps: Jumps,
    begun: usize,
    behind: usize,
    statement: &TStmt,
    out: &mut Vec<Core>,
) -> Result<(), AllocError>
    requires { HasRoom (jumping.in_segment jumps behind) (statement_nodes (statement_of statement.now)) }
    ensures { OnOk result (Appends out.old.items out.new.items (nesting.reached begun (code.stmt_code (ground_of site.now) (jumping.in_segment jumps behind) (statement_of statement.now)))) }
{
    if begun == 0 {
        Ok(())
    } else {
        put_statement(site, jumps.in_segment(behind), statement, out)
    }
}

fn comparisons(
    site: &Site,
    value: &TExpr,
    cases: &[TCase],
    default: Option<usize>,
    found: &[usize],
    count: usize,
) -> Result<Vec<Core>, AllocError>
    ensures { IfOk result (λ made. trees_in made.items ≡ switches.comparisons (ground_of site.now) (expression_of value.now) cases.now default found.now count) }
{
    let mut made = Vec::new(site.alloc);
    put_comparisons(site, value, cases, default, found, count, &mut made)?;
    Ok(made)
}

fn less(a: usize, b: usize) -> usize
    ensures { result ≡ a - b }
{
    a.saturating_sub(b)
}

// A switch: its value, the comparisons, and around them the loops of the segments.
#[cycle(statement)]
#[inline(never)]
#[tactic(auto, using(crate::proofs::Switching::labelled))]
fn put_switch(
    site: &Site,
    jumps: Jumps,
    statements: &[TStmt],
    value: &TExpr,
    cases: &[TCase],
    default: Option<usize>,
    out: &mut Vec<Core>,
) -> Result<(), AllocError>
    requires { HasRoom jumps (1 + length cases.now + nodes_of_body (statements_of (map statement_of statements.now))) }
    ensures { OnOk result (Appends out.old.items out.new.items (code.switch_code (ground_of site.now) jumps (expression_of value.now) cases.now default (statements_of (map statement_of statements.now)))) }
{
    put_value(site, value, out)?;
    let found = labels_of(site.alloc, cases, default)?;
    let labels: &[usize] = &found;
    let many = labels.len();
    if many == 0 {
        return Ok(());
    }
    let end = statements.len();
    let count = segments_before(labels, end + 1);
    let mut code = comparisons(site, value, cases, default, labels, count)?;
    let mut begun = 0;
    for i in 0..end {
        let begins = has(labels, i);
        let now = begun_with(begins, begun);
        let behind = less(count, now);
        let mut next = opened(site.alloc, begins, begun, code)?;
        put_reached(site, jumps, now, behind, &statements[i], &mut next)?;
        code = next;
        begun = now;
    }
    let last = has(labels, end);
    let all = begun_with(last, begun);
    let filled = opened(site.alloc, last, begun, code)?;
    put_closed(site.alloc, all, filled, out)?;
    Ok(())
}
