//! The spelling of expressions and of declarators.
//!
//! Each function puts the kinds of the tokens of one part after those that are there.

ghost use Rattle.std.specs.Prelude.{◌≡◌, ◌++◌, IfOk, map};
ghost use Rattle.c_nodes.specs.Words.{kinds_of, flat, spell_pointers};
ghost use Rattle.c_tree.specs.Spelling.{spell_assign, spell_binary, spell_cast, spell_choice, spell_cond, spell_declarator, spell_expr, spell_member, spell_next_assign, spell_next_declarator, spell_next_operand, spell_next_param, spell_operand, spell_param, spell_postfix, spell_postfix_suffix, spell_prefix, spell_primary, spell_spec, spell_specs, spell_enum_body, spell_enumerator, spell_next_enumerator, spell_struct_body, spell_suffix, spell_target, spell_type_name};

use crate::marks::{comma, constant, name, pointers, punct, tag, type_name, word};
use c_nodes::expression::{
    Assign, Binary, Cast, Choice, Cond, Declarator, EnumBody, Enumerator, Expr, Member, NextAssign,
    NextDeclarator, NextEnumerator, NextOperand, NextParam, Operand, Param, Postfix, PostfixSuffix,
    Prefix, Primary, Spec, Specs, StructBody, Suffix, Target, TypeName,
};
use c_token::{Keyword, Punct, TokKind};
use std::alloc::AllocError;

/// Puts the kinds of the tokens of specifiers after those that are there.
#[cycle(spelling)]
#[tactic(auto, using(std::proofs::lemmas::List::append_assoc, crate::proofs::Append::kinds_append, crate::proofs::Views::see_specs))]
pub fn put_specs(out: &mut Vec<TokKind>, specs: &Specs) -> Result<(), AllocError>
    ensures { IfOk result (λ _. out.new.items ≡ out.old.items ++ kinds_of (spell_specs specs.now)) }
{
    put_spec(out, &specs.first)?;
    for spec in &specs.others {
        put_spec(out, spec)?;
    }
    Ok(())
}

#[cycle(spelling)]
#[tactic(auto, using(std::proofs::lemmas::List::append_assoc, crate::proofs::Append::kinds_append, crate::proofs::Views::see_spec_word, crate::proofs::Views::see_spec_reference, crate::proofs::Views::see_spec_body, crate::proofs::Views::see_spec_type_name, crate::proofs::Views::see_spec_enum_reference, crate::proofs::Views::see_spec_enum_body))]
fn put_spec(out: &mut Vec<TokKind>, spec: &Spec) -> Result<(), AllocError>
    ensures { IfOk result (λ _. out.new.items ≡ out.old.items ++ kinds_of (spell_spec spec.now)) }
{
    match spec {
        Spec::Word(found) => word(out, found.keyword),
        Spec::TypeName(_) => type_name(out),
        Spec::Reference { .. } => {
            word(out, Keyword::Struct)?;
            name(out)
        }
        Spec::Body(body) => put_struct_body(out, body),
        Spec::EnumReference { .. } => {
            word(out, Keyword::Enum)?;
            name(out)
        }
        Spec::EnumBody(body) => put_enum_body(out, body),
    }
}

#[cycle(spelling)]
#[tactic(auto, using(std::proofs::lemmas::List::append_assoc, crate::proofs::Append::kinds_append, crate::proofs::Views::see_enum_body))]
fn put_enum_body(out: &mut Vec<TokKind>, enum_body: &EnumBody) -> Result<(), AllocError>
    ensures { IfOk result (λ _. out.new.items ≡ out.old.items ++ kinds_of (spell_enum_body enum_body.now)) }
{
    word(out, Keyword::Enum)?;
    tag(out, &enum_body.tag)?;
    punct(out, Punct::LeftBrace)?;
    put_enumerator(out, &enum_body.first)?;
    for next in &enum_body.others {
        put_next_enumerator(out, next)?;
    }
    comma(out, &enum_body.last_comma)?;
    punct(out, Punct::RightBrace)
}

#[cycle(spelling)]
#[tactic(auto, using(std::proofs::lemmas::List::append_assoc, crate::proofs::Append::kinds_append, crate::proofs::Views::see_next_enumerator))]
fn put_next_enumerator(
    out: &mut Vec<TokKind>,
    next_enumerator: &NextEnumerator,
) -> Result<(), AllocError>
    ensures { IfOk result (λ _. out.new.items ≡ out.old.items ++ kinds_of (spell_next_enumerator next_enumerator.now)) }
{
    punct(out, Punct::Comma)?;
    put_enumerator(out, &next_enumerator.1)
}

#[cycle(spelling)]
#[tactic(auto, using(std::proofs::lemmas::List::append_assoc, crate::proofs::Append::kinds_append, crate::proofs::Views::see_enumerator_bare, crate::proofs::Views::see_enumerator_valued))]
fn put_enumerator(out: &mut Vec<TokKind>, enumerator: &Enumerator) -> Result<(), AllocError>
    ensures { IfOk result (λ _. out.new.items ≡ out.old.items ++ kinds_of (spell_enumerator enumerator.now)) }
{
    match enumerator {
        Enumerator::Bare(_) => name(out),
        Enumerator::Valued { value, .. } => {
            name(out)?;
            punct(out, Punct::Assign)?;
            put_cond(out, value)
        }
    }
}

#[cycle(spelling)]
#[tactic(auto, using(std::proofs::lemmas::List::append_assoc, crate::proofs::Append::kinds_append, crate::proofs::Views::see_struct_body))]
fn put_struct_body(out: &mut Vec<TokKind>, struct_body: &StructBody) -> Result<(), AllocError>
    ensures { IfOk result (λ _. out.new.items ≡ out.old.items ++ kinds_of (spell_struct_body struct_body.now)) }
{
    word(out, Keyword::Struct)?;
    tag(out, &struct_body.tag)?;
    punct(out, Punct::LeftBrace)?;
    put_member(out, &struct_body.first)?;
    for member in &struct_body.others {
        put_member(out, member)?;
    }
    punct(out, Punct::RightBrace)
}

#[cycle(spelling)]
#[tactic(auto, using(std::proofs::lemmas::List::append_assoc, crate::proofs::Append::kinds_append, crate::proofs::Views::see_member))]
fn put_member(out: &mut Vec<TokKind>, member: &Member) -> Result<(), AllocError>
    ensures { IfOk result (λ _. out.new.items ≡ out.old.items ++ kinds_of (spell_member member.now)) }
{
    put_specs(out, &member.specs)?;
    put_declarator(out, &member.first)?;
    for next in &member.others {
        put_next_declarator(out, next)?;
    }
    punct(out, Punct::Semicolon)
}

#[cycle(spelling)]
#[tactic(auto, using(std::proofs::lemmas::List::append_assoc, crate::proofs::Append::kinds_append, crate::proofs::Views::see_next_declarator))]
fn put_next_declarator(
    out: &mut Vec<TokKind>,
    next_declarator: &NextDeclarator,
) -> Result<(), AllocError>
    ensures { IfOk result (λ _. out.new.items ≡ out.old.items ++ kinds_of (spell_next_declarator next_declarator.now)) }
{
    punct(out, Punct::Comma)?;
    put_declarator(out, &next_declarator.1)
}

/// Puts the kinds of the tokens of a declarator after those that are there.
#[cycle(spelling)]
#[tactic(auto, using(std::proofs::lemmas::List::append_assoc, crate::proofs::Append::kinds_append, crate::proofs::Views::see_declarator))]
pub fn put_declarator(out: &mut Vec<TokKind>, declarator: &Declarator) -> Result<(), AllocError>
    ensures { IfOk result (λ _. out.new.items ≡ out.old.items ++ kinds_of (spell_declarator declarator.now)) }
{
    pointers(out, &declarator.pointers)?;
    name(out)?;
    for suffix in &declarator.suffixes {
        put_suffix(out, suffix)?;
    }
    Ok(())
}

#[cycle(spelling)]
#[tactic(auto, using(std::proofs::lemmas::List::append_assoc, crate::proofs::Append::kinds_append, crate::proofs::Views::see_suffix_array_none, crate::proofs::Views::see_suffix_array_some, crate::proofs::Views::see_suffix_empty, crate::proofs::Views::see_suffix_void, crate::proofs::Views::see_suffix_params))]
fn put_suffix(out: &mut Vec<TokKind>, suffix: &Suffix) -> Result<(), AllocError>
    ensures { IfOk result (λ _. out.new.items ≡ out.old.items ++ kinds_of (spell_suffix suffix.now)) }
{
    match suffix {
        Suffix::Array { length, .. } => {
            punct(out, Punct::LeftBracket)?;
            if let Some(length) = length {
                put_cond(out, length)?;
            }
            punct(out, Punct::RightBracket)
        }
        Suffix::Empty { .. } => {
            punct(out, Punct::LeftParenthesis)?;
            punct(out, Punct::RightParenthesis)
        }
        Suffix::Void { .. } => {
            punct(out, Punct::LeftParenthesis)?;
            word(out, Keyword::Void)?;
            punct(out, Punct::RightParenthesis)
        }
        Suffix::Params { first, others, .. } => {
            punct(out, Punct::LeftParenthesis)?;
            put_param(out, first)?;
            for next in others {
                put_next_param(out, next)?;
            }
            punct(out, Punct::RightParenthesis)
        }
    }
}

#[cycle(spelling)]
#[tactic(auto, using(std::proofs::lemmas::List::append_assoc, crate::proofs::Append::kinds_append, crate::proofs::Views::see_next_param))]
fn put_next_param(out: &mut Vec<TokKind>, next_param: &NextParam) -> Result<(), AllocError>
    ensures { IfOk result (λ _. out.new.items ≡ out.old.items ++ kinds_of (spell_next_param next_param.now)) }
{
    punct(out, Punct::Comma)?;
    put_param(out, &next_param.1)
}

#[cycle(spelling)]
#[tactic(auto, using(std::proofs::lemmas::List::append_assoc, crate::proofs::Append::kinds_append, crate::proofs::Views::see_param_named, crate::proofs::Views::see_param_unnamed))]
fn put_param(out: &mut Vec<TokKind>, param: &Param) -> Result<(), AllocError>
    ensures { IfOk result (λ _. out.new.items ≡ out.old.items ++ kinds_of (spell_param param.now)) }
{
    match param {
        Param::Named { specs, declarator } => {
            put_specs(out, specs)?;
            put_declarator(out, declarator)
        }
        Param::Unnamed {
            specs,
            pointers: stars,
            suffixes,
        } => {
            put_specs(out, specs)?;
            pointers(out, stars)?;
            for suffix in suffixes {
                put_suffix(out, suffix)?;
            }
            Ok(())
        }
    }
}

#[cycle(spelling)]
#[tactic(auto, using(std::proofs::lemmas::List::append_assoc, crate::proofs::Append::kinds_append, crate::proofs::Views::see_type_name))]
fn put_type_name(out: &mut Vec<TokKind>, type_name: &TypeName) -> Result<(), AllocError>
    ensures { IfOk result (λ _. out.new.items ≡ out.old.items ++ kinds_of (spell_type_name type_name.now)) }
{
    put_specs(out, &type_name.0)?;
    pointers(out, &type_name.1)
}

/// Puts the kinds of the tokens of an expression after those that are there.
#[cycle(spelling)]
#[tactic(auto, using(std::proofs::lemmas::List::append_assoc, crate::proofs::Append::kinds_append, crate::proofs::Views::see_expr))]
pub fn put_expr(out: &mut Vec<TokKind>, expr: &Expr) -> Result<(), AllocError>
    ensures { IfOk result (λ _. out.new.items ≡ out.old.items ++ kinds_of (spell_expr expr.now)) }
{
    put_assign(out, &expr.first)?;
    for next in &expr.others {
        put_next_assign(out, next)?;
    }
    Ok(())
}

#[cycle(spelling)]
#[tactic(auto, using(std::proofs::lemmas::List::append_assoc, crate::proofs::Append::kinds_append, crate::proofs::Views::see_next_assign))]
fn put_next_assign(out: &mut Vec<TokKind>, next_assign: &NextAssign) -> Result<(), AllocError>
    ensures { IfOk result (λ _. out.new.items ≡ out.old.items ++ kinds_of (spell_next_assign next_assign.now)) }
{
    punct(out, Punct::Comma)?;
    put_assign(out, &next_assign.1)
}

/// Puts the kinds of the tokens of an assignment expression after those that are there.
#[cycle(spelling)]
#[tactic(auto, using(std::proofs::lemmas::List::append_assoc, crate::proofs::Append::kinds_append, crate::proofs::Views::see_assign))]
pub fn put_assign(out: &mut Vec<TokKind>, assign: &Assign) -> Result<(), AllocError>
    ensures { IfOk result (λ _. out.new.items ≡ out.old.items ++ kinds_of (spell_assign assign.now)) }
{
    for target in &assign.targets {
        put_target(out, target)?;
    }
    put_cond(out, &assign.value)
}

#[cycle(spelling)]
#[tactic(auto, using(std::proofs::lemmas::List::append_assoc, crate::proofs::Append::kinds_append, crate::proofs::Views::see_target))]
fn put_target(out: &mut Vec<TokKind>, target: &Target) -> Result<(), AllocError>
    ensures { IfOk result (λ _. out.new.items ≡ out.old.items ++ kinds_of (spell_target target.now)) }
{
    put_cast(out, &target.0)?;
    punct(out, target.1.punct)
}

/// Puts the kinds of the tokens of a conditional expression after those that are there.
#[cycle(spelling)]
#[tactic(auto, using(std::proofs::lemmas::List::append_assoc, crate::proofs::Append::kinds_append, crate::proofs::Views::see_cond))]
pub fn put_cond(out: &mut Vec<TokKind>, cond: &Cond) -> Result<(), AllocError>
    ensures { IfOk result (λ _. out.new.items ≡ out.old.items ++ kinds_of (spell_cond cond.now)) }
{
    for choice in &cond.choices {
        put_choice(out, choice)?;
    }
    put_binary(out, &cond.last)
}

#[cycle(spelling)]
#[tactic(auto, using(std::proofs::lemmas::List::append_assoc, crate::proofs::Append::kinds_append, crate::proofs::Views::see_choice))]
fn put_choice(out: &mut Vec<TokKind>, choice: &Choice) -> Result<(), AllocError>
    ensures { IfOk result (λ _. out.new.items ≡ out.old.items ++ kinds_of (spell_choice choice.now)) }
{
    put_binary(out, &choice.condition)?;
    punct(out, Punct::Question)?;
    put_expr(out, &choice.then)?;
    punct(out, Punct::Colon)
}

#[cycle(spelling)]
#[tactic(auto, using(std::proofs::lemmas::List::append_assoc, crate::proofs::Append::kinds_append, crate::proofs::Views::see_binary_operand, crate::proofs::Views::see_binary_chain))]
fn put_binary(out: &mut Vec<TokKind>, binary: &Binary) -> Result<(), AllocError>
    ensures { IfOk result (λ _. out.new.items ≡ out.old.items ++ kinds_of (spell_binary binary.now)) }
{
    match binary {
        Binary::Operand(cast) => put_cast(out, cast),
        Binary::Chain { first, others } => {
            put_binary(out, first)?;
            for next in others {
                put_next_operand(out, next)?;
            }
            Ok(())
        }
    }
}

#[cycle(spelling)]
#[tactic(auto, using(std::proofs::lemmas::List::append_assoc, crate::proofs::Append::kinds_append, crate::proofs::Views::see_next_operand))]
fn put_next_operand(out: &mut Vec<TokKind>, next_operand: &NextOperand) -> Result<(), AllocError>
    ensures { IfOk result (λ _. out.new.items ≡ out.old.items ++ kinds_of (spell_next_operand next_operand.now)) }
{
    punct(out, next_operand.0.sign.punct)?;
    put_binary(out, &next_operand.1)
}

#[cycle(spelling)]
#[tactic(auto, using(std::proofs::lemmas::List::append_assoc, crate::proofs::Append::kinds_append, crate::proofs::Views::see_cast))]
fn put_cast(out: &mut Vec<TokKind>, cast: &Cast) -> Result<(), AllocError>
    ensures { IfOk result (λ _. out.new.items ≡ out.old.items ++ kinds_of (spell_cast cast.now)) }
{
    for prefix in &cast.prefixes {
        put_prefix(out, prefix)?;
    }
    put_operand(out, &cast.operand)
}

#[cycle(spelling)]
#[tactic(auto, using(std::proofs::lemmas::List::append_assoc, crate::proofs::Append::kinds_append, crate::proofs::Views::see_prefix_operator, crate::proofs::Views::see_prefix_sizeof, crate::proofs::Views::see_prefix_cast))]
fn put_prefix(out: &mut Vec<TokKind>, prefix: &Prefix) -> Result<(), AllocError>
    ensures { IfOk result (λ _. out.new.items ≡ out.old.items ++ kinds_of (spell_prefix prefix.now)) }
{
    match prefix {
        Prefix::Operator(operator) => punct(out, operator.punct),
        Prefix::Sizeof { .. } => word(out, Keyword::Sizeof),
        Prefix::Cast { type_name, .. } => {
            punct(out, Punct::LeftParenthesis)?;
            put_type_name(out, type_name)?;
            punct(out, Punct::RightParenthesis)
        }
    }
}

#[cycle(spelling)]
#[tactic(auto, using(std::proofs::lemmas::List::append_assoc, crate::proofs::Append::kinds_append, crate::proofs::Views::see_operand_postfix, crate::proofs::Views::see_operand_sizeof_type))]
fn put_operand(out: &mut Vec<TokKind>, operand: &Operand) -> Result<(), AllocError>
    ensures { IfOk result (λ _. out.new.items ≡ out.old.items ++ kinds_of (spell_operand operand.now)) }
{
    match operand {
        Operand::Postfix(postfix) => put_postfix(out, postfix),
        Operand::SizeofType { type_name, .. } => {
            word(out, Keyword::Sizeof)?;
            punct(out, Punct::LeftParenthesis)?;
            put_type_name(out, type_name)?;
            punct(out, Punct::RightParenthesis)
        }
    }
}

#[cycle(spelling)]
#[tactic(auto, using(std::proofs::lemmas::List::append_assoc, crate::proofs::Append::kinds_append, crate::proofs::Views::see_postfix))]
fn put_postfix(out: &mut Vec<TokKind>, postfix: &Postfix) -> Result<(), AllocError>
    ensures { IfOk result (λ _. out.new.items ≡ out.old.items ++ kinds_of (spell_postfix postfix.now)) }
{
    put_primary(out, &postfix.primary)?;
    for suffix in &postfix.suffixes {
        put_postfix_suffix(out, suffix)?;
    }
    Ok(())
}

#[cycle(spelling)]
#[tactic(auto, using(std::proofs::lemmas::List::append_assoc, crate::proofs::Append::kinds_append, crate::proofs::Views::see_postfix_suffix_index, crate::proofs::Views::see_postfix_suffix_call_none, crate::proofs::Views::see_postfix_suffix_call_some, crate::proofs::Views::see_postfix_suffix_member, crate::proofs::Views::see_postfix_suffix_step))]
fn put_postfix_suffix(
    out: &mut Vec<TokKind>,
    postfix_suffix: &PostfixSuffix,
) -> Result<(), AllocError>
    ensures { IfOk result (λ _. out.new.items ≡ out.old.items ++ kinds_of (spell_postfix_suffix postfix_suffix.now)) }
{
    match postfix_suffix {
        PostfixSuffix::Index { index, .. } => {
            punct(out, Punct::LeftBracket)?;
            put_expr(out, index)?;
            punct(out, Punct::RightBracket)
        }
        PostfixSuffix::Call { arguments, .. } => {
            punct(out, Punct::LeftParenthesis)?;
            if let Some(arguments) = arguments {
                put_expr(out, arguments)?;
            }
            punct(out, Punct::RightParenthesis)
        }
        PostfixSuffix::Member { operator, .. } => {
            punct(out, operator.punct)?;
            name(out)
        }
        PostfixSuffix::Step(operator) => punct(out, operator.punct),
    }
}

#[cycle(spelling)]
#[tactic(auto, using(std::proofs::lemmas::List::append_assoc, crate::proofs::Append::kinds_append, crate::proofs::Views::see_primary_name, crate::proofs::Views::see_primary_constant, crate::proofs::Views::see_primary_group))]
fn put_primary(out: &mut Vec<TokKind>, primary: &Primary) -> Result<(), AllocError>
    ensures { IfOk result (λ _. out.new.items ≡ out.old.items ++ kinds_of (spell_primary primary.now)) }
{
    match primary {
        Primary::Name(_) => name(out),
        Primary::Constant(found) => constant(out, *found),
        Primary::Group { inner, .. } => {
            punct(out, Punct::LeftParenthesis)?;
            put_expr(out, inner)?;
            punct(out, Punct::RightParenthesis)
        }
    }
}
