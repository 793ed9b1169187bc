//! The spelling of initializers, declarations, statements and units.
//!
//! Each function puts the kinds of the tokens of one part after those that are there.

ghost use Rattle.std.specs.Prelude.{◌≡◌, ◌++◌, ◌∷◌, [], IfOk, map};
ghost use Rattle.c_token.specs.declared.token.Punct.TheVariants.{Semicolon, RightBrace};
ghost use Rattle.c_token.specs.declared.token.TokKind.TheVariants as kinds;
ghost use Rattle.c_nodes.specs.Words.{kinds_of, flat, spelled_comma};
ghost use Rattle.c_tree.specs.Statements.{spell_any, spell_condition, spell_for_head, spell_label, spell_init, spell_next_init, spell_equals_init, spell_init_declarator, spell_next_init_declarator, spell_declared, spell_declaration, spell_statement, spell_switch_item, spell_arm, spell_block, spell_else_arm, spell_if_chain, spell_otherwise, spell_function, spell_item};
ghost use Rattle.c_nodes.specs.Programs.{spelled_unit};
ghost use Rattle.c_nodes.specs.ProgramViews.{unit_of};

use crate::marks::{comma, punct, text, word};
use crate::spelling::{put_assign, put_cond, put_declarator, put_expr, put_specs};
use c_nodes::expression::Expr;
use c_nodes::statement::{
    Arm, Block, Condition, Declaration, Declared, ElseArm, EqualsInit, ForHead, Function, IfChain,
    Init, InitDeclarator, Item, Label, NextInit, NextInitDeclarator, Otherwise, Statement,
    SwitchItem, Unit,
};
use c_token::{Keyword, Punct, TokKind};
use std::alloc::{AllocError, Global};

#[tactic(auto, using(std::proofs::lemmas::List::append_assoc, crate::proofs::Append::kinds_append))]
fn put_any(out: &mut Vec<TokKind>, expr: &Option<Expr>) -> Result<(), AllocError>
    ensures { IfOk result (λ _. out.new.items ≡ out.old.items ++ kinds_of (spell_any expr.now)) }
{
    match expr {
        Some(expr) => put_expr(out, expr),
        None => Ok(()),
    }
}

#[tactic(auto, using(std::proofs::lemmas::List::append_assoc, crate::proofs::Append::kinds_append))]
fn put_condition(out: &mut Vec<TokKind>, condition: &Condition) -> Result<(), AllocError>
    ensures { IfOk result (λ _. out.new.items ≡ out.old.items ++ kinds_of (spell_condition condition.now)) }
{
    punct(out, Punct::LeftParenthesis)?;
    put_expr(out, &condition.expr)?;
    punct(out, Punct::RightParenthesis)
}

#[tactic(auto, using(std::proofs::lemmas::List::append_assoc, crate::proofs::Append::kinds_append))]
fn put_for_head(out: &mut Vec<TokKind>, head: &ForHead) -> Result<(), AllocError>
    ensures { IfOk result (λ _. out.new.items ≡ out.old.items ++ kinds_of (spell_for_head head.now)) }
{
    punct(out, Punct::LeftParenthesis)?;
    put_any(out, &head.begin)?;
    punct(out, Punct::Semicolon)?;
    put_any(out, &head.condition)?;
    punct(out, Punct::Semicolon)?;
    put_any(out, &head.step)?;
    punct(out, Punct::RightParenthesis)
}

#[tactic(auto, using(std::proofs::lemmas::List::append_assoc, crate::proofs::Append::kinds_append))]
fn put_label(out: &mut Vec<TokKind>, label: &Label) -> Result<(), AllocError>
    ensures { IfOk result (λ _. out.new.items ≡ out.old.items ++ kinds_of (spell_label label.now)) }
{
    match label {
        Label::Case { value, .. } => {
            word(out, Keyword::Case)?;
            put_cond(out, value)?;
            punct(out, Punct::Colon)
        }
        Label::Default { .. } => {
            word(out, Keyword::Default)?;
            punct(out, Punct::Colon)
        }
    }
}

#[tactic(auto, using(std::proofs::lemmas::List::append_assoc, crate::proofs::Append::kinds_append))]
fn put_list_end(out: &mut Vec<TokKind>, last_comma: &Option<u32>) -> Result<(), AllocError>
    ensures { IfOk result (λ _. out.new.items ≡ out.old.items ++ (kinds_of (spelled_comma last_comma.now) ++ kinds.Punct RightBrace ∷ [])) }
{
    comma(out, last_comma)?;
    punct(out, Punct::RightBrace)
}

#[cycle(initial)]
#[tactic(auto, using(std::proofs::lemmas::List::append_assoc, crate::proofs::Append::kinds_append, crate::proofs::Statements::see_init_assign, crate::proofs::Statements::see_init_text, crate::proofs::Statements::see_init_list))]
fn put_init(out: &mut Vec<TokKind>, init: &Init) -> Result<(), AllocError>
    ensures { IfOk result (λ _. out.new.items ≡ out.old.items ++ kinds_of (spell_init init.now)) }
{
    match init {
        Init::Assign(assign) => put_assign(out, assign),
        Init::Text(_) => text(out),
        Init::List {
            first,
            others,
            last_comma,
            ..
        } => {
            punct(out, Punct::LeftBrace)?;
            put_init(out, first)?;
            put_next_inits(out, others)?;
            put_list_end(out, last_comma)?;
            Ok(())
        }
    }
}

#[cycle(initial)]
#[tactic(auto, using(std::proofs::lemmas::List::append_assoc, crate::proofs::Append::kinds_append))]
fn put_next_inits(out: &mut Vec<TokKind>, others: &[NextInit]) -> Result<(), AllocError>
    ensures { IfOk result (λ _. out.new.items ≡ out.old.items ++ kinds_of (flat (map spell_next_init others.now))) }
{
    for next in others {
        put_next_init(out, next)?;
    }
    Ok(())
}

#[cycle(initial)]
#[tactic(auto, using(std::proofs::lemmas::List::append_assoc, crate::proofs::Append::kinds_append, crate::proofs::Statements::see_next_init))]
fn put_next_init(out: &mut Vec<TokKind>, next_init: &NextInit) -> Result<(), AllocError>
    ensures { IfOk result (λ _. out.new.items ≡ out.old.items ++ kinds_of (spell_next_init next_init.now)) }
{
    punct(out, Punct::Comma)?;
    put_init(out, &next_init.init)
}

#[tactic(auto, using(std::proofs::lemmas::List::append_assoc, crate::proofs::Append::kinds_append))]
fn put_equals_init(out: &mut Vec<TokKind>, init: &Option<EqualsInit>) -> Result<(), AllocError>
    ensures { IfOk result (λ _. out.new.items ≡ out.old.items ++ kinds_of (spell_equals_init init.now)) }
{
    match init {
        Some(init) => {
            punct(out, Punct::Assign)?;
            put_init(out, &init.init)
        }
        None => Ok(()),
    }
}

#[tactic(auto, using(std::proofs::lemmas::List::append_assoc, crate::proofs::Append::kinds_append))]
fn put_init_declarator(
    out: &mut Vec<TokKind>,
    declarator: &InitDeclarator,
) -> Result<(), AllocError>
    ensures { IfOk result (λ _. out.new.items ≡ out.old.items ++ kinds_of (spell_init_declarator declarator.now)) }
{
    put_declarator(out, &declarator.declarator)?;
    put_equals_init(out, &declarator.init)
}

#[tactic(auto, using(std::proofs::lemmas::List::append_assoc, crate::proofs::Append::kinds_append))]
fn put_next_init_declarator(
    out: &mut Vec<TokKind>,
    next: &NextInitDeclarator,
) -> Result<(), AllocError>
    ensures { IfOk result (λ _. out.new.items ≡ out.old.items ++ kinds_of (spell_next_init_declarator next.now)) }
{
    punct(out, Punct::Comma)?;
    put_init_declarator(out, &next.declarator)
}

#[tactic(auto, using(std::proofs::lemmas::List::append_assoc, crate::proofs::Append::kinds_append, crate::proofs::Statements::see_declared))]
fn put_declared(out: &mut Vec<TokKind>, declared: &Option<Declared>) -> Result<(), AllocError>
    ensures { IfOk result (λ _. out.new.items ≡ out.old.items ++ kinds_of (spell_declared declared.now)) }
{
    let Some(list) = declared else {
        return Ok(());
    };
    put_init_declarator(out, &list.first)?;
    for next in &list.others {
        put_next_init_declarator(out, next)?;
    }
    Ok(())
}

#[tactic(auto, using(std::proofs::lemmas::List::append_assoc, crate::proofs::Append::kinds_append))]
fn put_declaration(out: &mut Vec<TokKind>, declaration: &Declaration) -> Result<(), AllocError>
    ensures { IfOk result (λ _. out.new.items ≡ out.old.items ++ kinds_of (spell_declaration declaration.now)) }
{
    put_specs(out, &declaration.specs)?;
    put_declared(out, &declaration.declared)?;
    punct(out, Punct::Semicolon)
}

#[tactic(auto, using(std::proofs::lemmas::List::append_assoc, crate::proofs::Append::kinds_append))]
fn put_declarations(out: &mut Vec<TokKind>, declarations: &[Declaration]) -> Result<(), AllocError>
    ensures { IfOk result (λ _. out.new.items ≡ out.old.items ++ kinds_of (flat (map spell_declaration declarations.now))) }
{
    for declaration in declarations {
        put_declaration(out, declaration)?;
    }
    Ok(())
}

#[cycle(statements)]
#[tactic(auto, using(std::proofs::lemmas::List::append_assoc, crate::proofs::Append::kinds_append, crate::proofs::Statements::see_statement_block, crate::proofs::Statements::see_statement_expr, crate::proofs::Statements::see_statement_if, crate::proofs::Statements::see_statement_while, crate::proofs::Statements::see_statement_do, crate::proofs::Statements::see_statement_for, crate::proofs::Statements::see_statement_switch, crate::proofs::Statements::see_statement_break, crate::proofs::Statements::see_statement_continue, crate::proofs::Statements::see_statement_return))]
fn put_statement(out: &mut Vec<TokKind>, statement: &Statement) -> Result<(), AllocError>
    ensures { IfOk result (λ _. out.new.items ≡ out.old.items ++ kinds_of (spell_statement statement.now)) }
{
    match statement {
        Statement::Block(block) => put_block(out, block),
        Statement::Expr { expr, .. } => {
            put_any(out, expr)?;
            punct(out, Punct::Semicolon)
        }
        Statement::If(chain) => put_if_chain(out, chain),
        Statement::While {
            condition,
            body,
            ..
        } => {
            word(out, Keyword::While)?;
            put_condition(out, condition)?;
            put_statement(out, body)
        }
        Statement::Do {
            body,
            condition,
            ..
        } => {
            word(out, Keyword::Do)?;
            put_statement(out, body)?;
            word(out, Keyword::While)?;
            put_condition(out, condition)?;
            punct(out, Punct::Semicolon)
        }
        Statement::For { head, body, .. } => {
            word(out, Keyword::For)?;
            put_for_head(out, head)?;
            put_statement(out, body)
        }
        Statement::Switch { value, items, .. } => {
            word(out, Keyword::Switch)?;
            put_condition(out, value)?;
            punct(out, Punct::LeftBrace)?;
            for item in items {
                put_switch_item(out, item)?;
            }
            punct(out, Punct::RightBrace)
        }
        Statement::Break { .. } => put_jump(out, Keyword::Break),
        Statement::Continue { .. } => put_jump(out, Keyword::Continue),
        Statement::Return { value, .. } => {
            word(out, Keyword::Return)?;
            put_any(out, value)?;
            punct(out, Punct::Semicolon)
        }
    }
}

#[tactic(auto, using(std::proofs::lemmas::List::append_assoc, crate::proofs::Append::kinds_append))]
fn put_jump(out: &mut Vec<TokKind>, keyword: Keyword) -> Result<(), AllocError>
    ensures { IfOk result (λ _. out.new.items ≡ out.old.items ++ kinds.Keyword keyword ∷ kinds.Punct Semicolon ∷ []) }
{
    word(out, keyword)?;
    punct(out, Punct::Semicolon)
}

#[cycle(statements)]
#[tactic(auto, using(std::proofs::lemmas::List::append_assoc, crate::proofs::Append::kinds_append, crate::proofs::Statements::see_switch_item_label, crate::proofs::Statements::see_switch_item_statement))]
fn put_switch_item(out: &mut Vec<TokKind>, item: &SwitchItem) -> Result<(), AllocError>
    ensures { IfOk result (λ _. out.new.items ≡ out.old.items ++ kinds_of (spell_switch_item item.now)) }
{
    match item {
        SwitchItem::Label(label) => put_label(out, label),
        SwitchItem::Statement(statement) => put_statement(out, statement),
    }
}

#[cycle(statements)]
#[tactic(auto, using(std::proofs::lemmas::List::append_assoc, crate::proofs::Append::kinds_append, crate::proofs::Statements::see_arm))]
fn put_arm(out: &mut Vec<TokKind>, arm: &Arm) -> Result<(), AllocError>
    ensures { IfOk result (λ _. out.new.items ≡ out.old.items ++ kinds_of (spell_arm arm.now)) }
{
    word(out, Keyword::If)?;
    put_condition(out, &arm.condition)?;
    put_statement(out, &arm.then)
}

#[cycle(statements)]
#[tactic(auto, using(std::proofs::lemmas::List::append_assoc, crate::proofs::Append::kinds_append, crate::proofs::Statements::see_block))]
fn put_block(out: &mut Vec<TokKind>, block: &Block) -> Result<(), AllocError>
    ensures { IfOk result (λ _. out.new.items ≡ out.old.items ++ kinds_of (spell_block block.now)) }
{
    punct(out, Punct::LeftBrace)?;
    put_declarations(out, &block.declarations)?;
    for statement in &block.statements {
        put_statement(out, statement)?;
    }
    punct(out, Punct::RightBrace)
}

#[cycle(statements)]
#[tactic(auto, using(std::proofs::lemmas::List::append_assoc, crate::proofs::Append::kinds_append, crate::proofs::Statements::see_else_arm))]
fn put_else_arm(out: &mut Vec<TokKind>, else_arm: &ElseArm) -> Result<(), AllocError>
    ensures { IfOk result (λ _. out.new.items ≡ out.old.items ++ kinds_of (spell_else_arm else_arm.now)) }
{
    word(out, Keyword::Else)?;
    put_arm(out, &else_arm.arm)
}

#[cycle(statements)]
#[tactic(auto, using(std::proofs::lemmas::List::append_assoc, crate::proofs::Append::kinds_append, crate::proofs::Statements::see_if_chain))]
fn put_if_chain(out: &mut Vec<TokKind>, chain: &IfChain) -> Result<(), AllocError>
    ensures { IfOk result (λ _. out.new.items ≡ out.old.items ++ kinds_of (spell_if_chain chain.now)) }
{
    put_arm(out, &chain.first)?;
    for other in &chain.others {
        put_else_arm(out, other)?;
    }
    match &chain.last {
        Some(last) => put_otherwise(out, last),
        None => Ok(()),
    }
}

#[cycle(statements)]
#[tactic(auto, using(std::proofs::lemmas::List::append_assoc, crate::proofs::Append::kinds_append, crate::proofs::Statements::see_otherwise))]
fn put_otherwise(out: &mut Vec<TokKind>, otherwise: &Otherwise) -> Result<(), AllocError>
    ensures { IfOk result (λ _. out.new.items ≡ out.old.items ++ kinds_of (spell_otherwise otherwise.now)) }
{
    word(out, Keyword::Else)?;
    put_statement(out, &otherwise.statement)
}

#[tactic(auto, using(std::proofs::lemmas::List::append_assoc, crate::proofs::Append::kinds_append))]
fn put_function(out: &mut Vec<TokKind>, function: &Function) -> Result<(), AllocError>
    ensures { IfOk result (λ _. out.new.items ≡ out.old.items ++ kinds_of (spell_function function.now)) }
{
    put_specs(out, &function.specs)?;
    put_declarator(out, &function.declarator)?;
    put_block(out, &function.body)
}

#[tactic(auto, using(std::proofs::lemmas::List::append_assoc, crate::proofs::Append::kinds_append))]
fn put_item(out: &mut Vec<TokKind>, item: &Item) -> Result<(), AllocError>
    ensures { IfOk result (λ _. out.new.items ≡ out.old.items ++ kinds_of (spell_item item.now)) }
{
    match item {
        Item::Function(function) => put_function(out, function),
        Item::Declaration(declaration) => put_declaration(out, declaration),
    }
}

/// The kinds of the tokens that a unit is spelled with, in order (ISO/IEC 9899:1990, 6.7).
#[tactic(auto, using(crate::proofs::Lists::unit_listed))]
pub fn spell(alloc: Global, unit: &Unit) -> Result<Vec<TokKind>, AllocError>
    // The list is the spelling of the unit.
    ensures spelling { IfOk result (λ kinds. kinds.items ≡ kinds_of (spelled_unit (unit_of unit.now))) }
{
    let mut out = Vec::new(alloc);
    for item in &unit.items {
        put_item(&mut out, item)?;
    }
    Ok(out)
}
