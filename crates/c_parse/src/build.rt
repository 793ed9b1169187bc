//! Trees from their parts.
//!
//! A number that is named after a token is the line of that token, counted from 1. The one error is that memory for a part
//! ran out.

ghost use Rattle.std.specs.Prelude.{◌≡◌, ℕ, Some, None, IfOk, map};
ghost use Rattle.c_nodes.specs.Words.{quoted};
ghost use Rattle.c_nodes.specs.Programs as tree;
ghost use Rattle.c_nodes.specs.Views.{assign_of, specs_of, declarator_of};
ghost use Rattle.c_nodes.specs.ProgramViews.{any_of, condition_of, head_of, label_of, more_inits, init_of, next_init_of, begun_of, next_begun_of, declaration_of, statements_of, arms_of, LabelInner, StatementInner, items_of, statement_of, switch_item_of, arm_of, block_of, else_arm_of, otherwise_of, otherwise_in, item_of};

use c_nodes::expression::{Assign, Declarator, Expr, Specs};
use c_nodes::statement::{
    Arm, Block, Condition, Declaration, Declared, ElseArm, EqualsInit, ForHead, Function, IfChain,
    Init, InitDeclarator, Item, Label, NextInit, NextInitDeclarator, Otherwise, Statement,
    SwitchItem,
};
use c_nodes::word::Text;
use std::alloc::{AllocError, Global};

/// An assignment expression as an initializer (ISO/IEC 9899:1990, 6.5.7).
#[tactic(auto, using(c_nodes::proofs::ProgramShapes::show_init_assign))]
pub fn value(assign: Assign) -> Init
    ensures { init_of result ≡ tree.Value (assign_of assign) }
{
    Init::Assign(assign)
}

/// A string literal as an initializer (ISO/IEC 9899:1990, 6.5.7).
#[tactic(auto, using(c_nodes::proofs::ProgramShapes::show_init_text))]
pub fn text(text: Text) -> Init
    ensures { init_of result ≡ tree.Quoted (quoted text) }
{
    Init::Text(text)
}

/// `{ first, others }`; `last_comma` is the line of the comma after the last item, if there is one (ISO/IEC
/// 9899:1990, 6.5.7).
#[tactic(auto, using(c_nodes::proofs::ProgramShapes::show_init_list))]
pub fn list(
    alloc: Global,
    opening: u32,
    first: Init,
    others: Vec<NextInit>,
    last_comma: Option<u32>,
    closing: u32,
) -> Result<Init, AllocError>
    ensures { IfOk result (λ i. init_of i ≡ tree.Listed opening (init_of first) (more_inits (map next_init_of others.items)) last_comma closing) }
{
    let first = Box::new(alloc, first)?;
    Ok(Init::List {
        opening,
        first,
        others,
        last_comma,
        closing,
    })
}

/// A comma, and the initializer after it (ISO/IEC 9899:1990, 6.5.7).
pub fn next_init(comma: u32, init: Init) -> NextInit
    ensures { next_init_of result ≡ (comma, init_of init) }
{
    NextInit { comma, init }
}

/// A declarator without an initializer (ISO/IEC 9899:1990, 6.5).
pub fn begun(declarator: Declarator) -> InitDeclarator
    ensures { begun_of result ≡ record { declarator = declarator_of declarator; init = None } }
{
    InitDeclarator {
        declarator,
        init: None,
    }
}

/// `declarator = init` (ISO/IEC 9899:1990, 6.5).
pub fn begun_as(declarator: Declarator, equals: u32, init: Init) -> InitDeclarator
    ensures { begun_of result ≡ record { declarator = declarator_of declarator; init = Some (equals, init_of init) } }
{
    let init = Some(EqualsInit { equals, init });
    InitDeclarator { declarator, init }
}

/// A comma, and the declarator after it, with its initializer if it has one (ISO/IEC 9899:1990, 6.5).
pub fn next_begun(comma: u32, declarator: InitDeclarator) -> NextInitDeclarator
    ensures { next_begun_of result ≡ (comma, begun_of declarator) }
{
    NextInitDeclarator { comma, declarator }
}

/// A declaration without a declarator, such as that of a structure alone (ISO/IEC 9899:1990, 6.5).
pub fn bare_declaration(specs: Specs, semicolon: u32) -> Declaration
    ensures { declaration_of result ≡ record { specs = specs_of specs; declared = None; semicolon = semicolon } }
{
    Declaration {
        specs,
        declared: None,
        semicolon,
    }
}

/// A declaration with one declarator or more (ISO/IEC 9899:1990, 6.5).
pub fn declaration(
    specs: Specs,
    first: InitDeclarator,
    others: Vec<NextInitDeclarator>,
    semicolon: u32,
) -> Declaration
    ensures { declaration_of result ≡ record { specs = specs_of specs; declared = Some (begun_of first, map next_begun_of others.items); semicolon = semicolon } }
{
    let declared = Some(Declared { first, others });
    Declaration {
        specs,
        declared,
        semicolon,
    }
}

/// A block: declarations, and then statements, in braces (ISO/IEC 9899:1990, 6.6.2).
pub fn block(
    opening: u32,
    declarations: Vec<Declaration>,
    statements: Vec<Statement>,
    closing: u32,
) -> Block
    ensures { block_of result ≡ tree.Block opening (map declaration_of declarations.items) (statements_of (map statement_of statements.items)) closing }
{
    Block {
        opening,
        declarations,
        statements,
        closing,
    }
}

/// A block as a statement (ISO/IEC 9899:1990, 6.6.2).
#[tactic(auto, using(c_nodes::proofs::ProgramShapes::show_statement_block))]
pub fn braced(block: Block) -> Statement
    ensures { statement_of result ≡ tree.Braced (block_of block) }
{
    Statement::Block(block)
}

/// `expr;`, or `;` where there is none (ISO/IEC 9899:1990, 6.6.3).
#[tactic(auto, using(c_nodes::proofs::ProgramShapes::show_statement_expr))]
pub fn plain(expr: Option<Expr>, semicolon: u32) -> Statement
    ensures { statement_of result ≡ tree.Plain (any_of expr) semicolon }
{
    Statement::Expr { expr, semicolon }
}

/// `if condition then`; the condition has its parentheses (ISO/IEC 9899:1990, 6.6.4.1).
pub fn arm(keyword: u32, condition: Condition, then: Statement) -> Arm
    ensures { arm_of result ≡ tree.Arm keyword (condition_of condition) (statement_of then) }
{
    Arm {
        keyword,
        condition,
        then,
    }
}

/// `else`, and the `if` after it with its condition and its statement (ISO/IEC 9899:1990, 6.6.4.1).
pub fn else_arm(else_keyword: u32, arm: Arm) -> ElseArm
    ensures { else_arm_of result ≡ (else_keyword, arm_of arm) }
{
    ElseArm { else_keyword, arm }
}

fn last_arm(keyword: u32, statement: Statement) -> Otherwise
    ensures { otherwise_of result ≡ (keyword, statement_of statement) }
{
    Otherwise { keyword, statement }
}

/// `else statement`, the end of a chain of `if` (ISO/IEC 9899:1990, 6.6.4.1).
pub fn otherwise(
    alloc: Global,
    keyword: u32,
    statement: Statement,
) -> Result<Box<Otherwise>, AllocError>
    ensures { IfOk result (λ o. otherwise_of o.value ≡ (keyword, statement_of statement)) }
{
    Ok(Box::new(alloc, last_arm(keyword, statement))?)
}

/// `if`, each `else if`, and the last `else` if there is one, as one statement (ISO/IEC 9899:1990, 6.6.4.1).
#[tactic(auto, using(c_nodes::proofs::ProgramShapes::show_statement_if, c_nodes::proofs::ProgramShapes::made_if_chain))]
pub fn chain(
    alloc: Global,
    first: Arm,
    others: Vec<ElseArm>,
    last: Option<Box<Otherwise>>,
) -> Result<Statement, AllocError>
    ensures { IfOk result (λ s. statement_of s ≡ tree.Chain (arm_of first) (arms_of (map else_arm_of others.items) (otherwise_in last))) }
{
    let first = Box::new(alloc, first)?;
    Ok(Statement::If(IfChain {
        first,
        others,
        last,
    }))
}

/// `while condition body` (ISO/IEC 9899:1990, 6.6.5.1).
#[tactic(auto, using(c_nodes::proofs::ProgramShapes::show_statement_while))]
pub fn while_loop(
    alloc: Global,
    keyword: u32,
    condition: Condition,
    body: Statement,
) -> Result<Statement, AllocError>
    ensures { IfOk result (λ s. statement_of s ≡ tree.While keyword (condition_of condition) (statement_of body)) }
{
    let body = Box::new(alloc, body)?;
    Ok(Statement::While {
        keyword,
        condition,
        body,
    })
}

/// `do body while condition;` (ISO/IEC 9899:1990, 6.6.5.2).
#[tactic(auto, using(c_nodes::proofs::ProgramShapes::show_statement_do))]
pub fn do_loop(
    alloc: Global,
    keyword: u32,
    body: Statement,
    while_keyword: u32,
    condition: Condition,
    semicolon: u32,
) -> Result<Statement, AllocError>
    ensures { IfOk result (λ s. statement_of s ≡ tree.Do keyword (statement_of body) while_keyword (condition_of condition) semicolon) }
{
    let body = Box::new(alloc, body)?;
    Ok(Statement::Do {
        keyword,
        body,
        while_keyword,
        condition,
        semicolon,
    })
}

/// `for head body` (ISO/IEC 9899:1990, 6.6.5.3).
#[tactic(auto, using(c_nodes::proofs::ProgramShapes::show_statement_for))]
pub fn for_loop(
    alloc: Global,
    keyword: u32,
    head: ForHead,
    body: Statement,
) -> Result<Statement, AllocError>
    ensures { IfOk result (λ s. statement_of s ≡ tree.For keyword (head_of head) (statement_of body)) }
{
    let head = Box::new(alloc, head)?;
    let body = Box::new(alloc, body)?;
    Ok(Statement::For {
        keyword,
        head,
        body,
    })
}

/// `switch value { items }` (ISO/IEC 9899:1990, 6.6.4.2).
#[tactic(auto, using(c_nodes::proofs::ProgramShapes::show_statement_switch))]
pub fn switch(
    keyword: u32,
    value: Condition,
    opening: u32,
    items: Vec<SwitchItem>,
    closing: u32,
) -> Statement
    ensures { statement_of result ≡ tree.Switch keyword (condition_of value) opening (items_of (map switch_item_of items.items)) closing }
{
    Statement::Switch {
        keyword,
        value,
        opening,
        items,
        closing,
    }
}

/// `break;` (ISO/IEC 9899:1990, 6.6.6.3).
#[tactic(auto, using(c_nodes::proofs::ProgramShapes::show_statement_break))]
pub fn break_jump(keyword: u32, semicolon: u32) -> Statement
    ensures { statement_of result ≡ tree.Break keyword semicolon }
{
    Statement::Break { keyword, semicolon }
}

/// `continue;` (ISO/IEC 9899:1990, 6.6.6.2).
#[tactic(auto, using(c_nodes::proofs::ProgramShapes::show_statement_continue))]
pub fn continue_jump(keyword: u32, semicolon: u32) -> Statement
    ensures { statement_of result ≡ tree.Continue keyword semicolon }
{
    Statement::Continue { keyword, semicolon }
}

/// `return value;`, or `return;` where there is none (ISO/IEC 9899:1990, 6.6.6.4).
#[tactic(auto, using(c_nodes::proofs::ProgramShapes::show_statement_return))]
pub fn return_jump(keyword: u32, value: Option<Expr>, semicolon: u32) -> Statement
    ensures { statement_of result ≡ tree.Return keyword (any_of value) semicolon }
{
    Statement::Return {
        keyword,
        value,
        semicolon,
    }
}

/// A `case` or `default` label in the body of a `switch` (ISO/IEC 9899:1990, 6.6.1).
#[tactic(auto, using(c_nodes::proofs::ProgramShapes::show_switch_item_label))]
pub fn inner_label(label: Label) -> SwitchItem
    ensures { switch_item_of result ≡ LabelInner (label_of label) }
{
    SwitchItem::Label(label)
}

/// A statement in the body of a `switch` (ISO/IEC 9899:1990, 6.6.4.2).
#[tactic(auto, using(c_nodes::proofs::ProgramShapes::show_switch_item_statement))]
pub fn inner_statement(statement: Statement) -> SwitchItem
    ensures { switch_item_of result ≡ StatementInner (statement_of statement) }
{
    SwitchItem::Statement(statement)
}

/// The definition of a function (ISO/IEC 9899:1990, 6.7.1).
pub fn function(specs: Specs, declarator: Declarator, body: Block) -> Item
    ensures { item_of result ≡ tree.Function (specs_of specs) (declarator_of declarator) (block_of body) }
{
    Item::Function(Function {
        specs,
        declarator,
        body,
    })
}

/// A declaration outside functions (ISO/IEC 9899:1990, 6.7).
pub fn declared_item(declaration: Declaration) -> Item
    ensures { item_of result ≡ tree.Declaration (declaration_of declaration) }
{
    Item::Declaration(declaration)
}
