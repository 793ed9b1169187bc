//! Trees from their parts.
//!
//! A number that is named after a token is the line of that token, counted from 1. The one error is that memory for a part
//! ran out.

ghost use Rattle.std.specs.Prelude.{◌≡◌, ℕ, List, [], ◌∷◌, Some, None, true, IfOk, map};
ghost use Rattle.c_nodes.specs.Words.{Symbol, signed, keyed, named, type_named, spell_constant, spell_pointers, spell_tag};
ghost use Rattle.c_nodes.specs.Trees as tree;
ghost use Rattle.c_nodes.specs.Lists.{posted, prefixed, joined, listed, chosen, assigned, more_specs, more_members, more_declarators, suffixes_of, more_params, more_enumerators};
ghost use Rattle.c_nodes.specs.Views.{binary_of, operand_of, param_of, postfix_suffix_of, prefix_of, primary_of, spec_of, suffix_of, assign_of, cast_of, choice_of, cond_of, declarator_of, expr_of, member_of, next_assign_of, next_declarator_of, next_operand_of, next_param_of, postfix_of, specs_of, struct_body_of, target_of, type_name_of, enumerator_of, enum_body_of, next_enumerator_of};

use c_nodes::expression::{
    Assign, Binary, Cast, Choice, Cond, Declarator, EnumBody, Enumerator, Expr, Member, NextAssign,
    NextDeclarator, NextEnumerator, NextOperand, NextParam, Operand, Param, Postfix, PostfixSuffix,
    Prefix, Primary, Spec, Specs, StructBody, Suffix, Target, TypeName,
};
use c_nodes::word::{Constant, Infix, Name, Pointer, Sign, Word};
use std::alloc::{AllocError, Global};

/// An identifier as a primary expression (ISO/IEC 9899:1990, 6.3.1).
#[tactic(auto, using(c_nodes::proofs::Shapes::show_primary_name))]
pub fn name_operand(name: Name) -> Primary
    ensures { primary_of result ≡ tree.Leaf (named name) }
{
    Primary::Name(name)
}

/// An integer or character constant as a primary expression (ISO/IEC 9899:1990, 6.3.1).
#[tactic(auto, using(c_nodes::proofs::Shapes::show_primary_constant))]
pub fn constant_operand(constant: Constant) -> Primary
    ensures { primary_of result ≡ tree.Leaf (spell_constant constant) }
{
    Primary::Constant(constant)
}

/// `(inner)`, a primary expression (ISO/IEC 9899:1990, 6.3.1).
#[tactic(auto, using(c_nodes::proofs::Shapes::show_primary_group))]
pub fn group(alloc: Global, opening: u32, inner: Expr, closing: u32) -> Result<Primary, AllocError>
    ensures { IfOk result (λ p. primary_of p ≡ tree.Group opening (expr_of inner) closing) }
{
    let inner = Box::new(alloc, inner)?;
    Ok(Primary::Group {
        opening,
        inner,
        closing,
    })
}

/// An expression: `first`, and what stands after each comma (ISO/IEC 9899:1990, 6.3.17).
#[tactic(auto, using(c_nodes::proofs::Shapes::made_expr))]
pub fn expr(first: Assign, others: Vec<NextAssign>) -> Expr
    ensures { expr_of result ≡ listed (assign_of first) (map next_assign_of others.items) }
{
    Expr { first, others }
}

/// A comma, and the assignment expression after it (ISO/IEC 9899:1990, 6.3.17).
pub fn next_assign(comma: u32, assign: Assign) -> NextAssign
    ensures { next_assign_of result ≡ (comma, assign_of assign) }
{
    (comma, assign)
}

/// `value`, and the left sides that it is assigned to, the outermost first; without any it is `value` alone
/// (ISO/IEC 9899:1990, 6.3.16).
#[tactic(auto, using(c_nodes::proofs::Shapes::made_assign))]
pub fn assign(targets: Vec<Target>, value: Cond) -> Assign
    ensures { assign_of result ≡ assigned (map target_of targets.items) (cond_of value) }
{
    Assign { targets, value }
}

/// The left side of an assignment, and its operator (ISO/IEC 9899:1990, 6.3.16).
pub fn target(place: Cast, operator: Sign) -> Target
    ensures { target_of result ≡ (cast_of place, signed operator) }
{
    (place, operator)
}

/// Choices by `?` and `:`, the outermost first, and the operand after the last `:`; without any it is `last`
/// alone (ISO/IEC 9899:1990, 6.3.15).
#[tactic(auto, using(c_nodes::proofs::Shapes::made_cond))]
pub fn cond(choices: Vec<Choice>, last: Binary) -> Cond
    ensures { cond_of result ≡ chosen (map choice_of choices.items) (binary_of last) }
{
    Cond { choices, last }
}

/// `condition ? then :`, the front of a conditional expression (ISO/IEC 9899:1990, 6.3.15).
#[tactic(auto, using(c_nodes::proofs::Shapes::made_choice))]
pub fn choice(
    alloc: Global,
    condition: Binary,
    question: u32,
    then: Expr,
    colon: u32,
) -> Result<Choice, AllocError>
    ensures { IfOk result (λ c. choice_of c ≡ (binary_of condition, question, expr_of then, colon)) }
{
    let then = Box::new(alloc, then)?;
    Ok(Choice {
        condition,
        question,
        then,
        colon,
    })
}

/// An operand that stands alone, without a binary operator.
#[tactic(auto, using(c_nodes::proofs::Shapes::show_binary_operand))]
pub fn single(cast: Cast) -> Binary
    ensures { binary_of result ≡ cast_of cast }
{
    Binary::Operand(cast)
}

/// Operands between operators of one level, or the first operand alone.
#[tactic(auto, using(c_nodes::proofs::Shapes::show_binary_chain))]
pub fn chain(alloc: Global, first: Binary, others: Vec<NextOperand>) -> Result<Binary, AllocError>
    ensures { IfOk result (λ b. binary_of b ≡ joined (binary_of first) (map next_operand_of others.items)) }
{
    if others.is_empty() {
        return Ok(first);
    }
    let first = Box::new(alloc, first)?;
    Ok(Binary::Chain { first, others })
}

/// A binary operator, and the operand on its right (ISO/IEC 9899:1990, 6.3.5 to 6.3.14).
pub fn next_operand(operator: Infix, operand: Binary) -> NextOperand
    ensures { next_operand_of result ≡ (signed operator.sign, binary_of operand) }
{
    (operator, operand)
}

/// An operand with its prefixes, the outermost first (ISO/IEC 9899:1990, 6.3.3 and 6.3.4).
#[tactic(auto, using(c_nodes::proofs::Shapes::made_cast))]
pub fn cast(prefixes: Vec<Prefix>, operand: Operand) -> Cast
    ensures { cast_of result ≡ prefixed (map prefix_of prefixes.items) (operand_of operand) }
{
    Cast { prefixes, operand }
}

/// An operator as the prefix of an operand (ISO/IEC 9899:1990, 6.3.3).
#[tactic(auto, using(c_nodes::proofs::Shapes::show_prefix_operator))]
pub fn operator_prefix(operator: Sign) -> Prefix
    ensures { prefix_of result ≡ tree.Sign (signed operator) }
{
    Prefix::Operator(operator)
}

/// `sizeof` before an expression (ISO/IEC 9899:1990, 6.3.3.4).
#[tactic(auto, using(c_nodes::proofs::Shapes::show_prefix_sizeof))]
pub fn sizeof_prefix(keyword: u32) -> Prefix
    ensures { prefix_of result ≡ tree.Sizeof keyword }
{
    Prefix::Sizeof { keyword }
}

/// `(type_name)`, a cast (ISO/IEC 9899:1990, 6.3.4).
#[tactic(auto, using(c_nodes::proofs::Shapes::show_prefix_cast))]
pub fn cast_prefix(
    alloc: Global,
    opening: u32,
    type_name: TypeName,
    closing: u32,
) -> Result<Prefix, AllocError>
    ensures { IfOk result (λ p. prefix_of p ≡ tree.Cast opening (type_name_of type_name) closing) }
{
    let type_name = Box::new(alloc, type_name)?;
    Ok(Prefix::Cast {
        opening,
        type_name,
        closing,
    })
}

/// A postfix expression as an operand (ISO/IEC 9899:1990, 6.3.3).
#[tactic(auto, using(c_nodes::proofs::Shapes::show_operand_postfix))]
pub fn postfix_operand(postfix: Postfix) -> Operand
    ensures { operand_of result ≡ postfix_of postfix }
{
    Operand::Postfix(postfix)
}

/// `sizeof(type_name)` (ISO/IEC 9899:1990, 6.3.3.4).
#[tactic(auto, using(c_nodes::proofs::Shapes::show_operand_sizeof_type))]
pub fn measure(
    alloc: Global,
    keyword: u32,
    opening: u32,
    type_name: TypeName,
    closing: u32,
) -> Result<Operand, AllocError>
    ensures { IfOk result (λ o. operand_of o ≡ tree.Measure keyword opening (type_name_of type_name) closing) }
{
    let type_name = Box::new(alloc, type_name)?;
    Ok(Operand::SizeofType {
        keyword,
        opening,
        type_name,
        closing,
    })
}

/// A primary expression with its suffixes, in the order of the text (ISO/IEC 9899:1990, 6.3.2).
#[tactic(auto, using(c_nodes::proofs::Shapes::made_postfix))]
pub fn postfix(primary: Primary, suffixes: Vec<PostfixSuffix>) -> Postfix
    ensures { postfix_of result ≡ posted (primary_of primary) (map postfix_suffix_of suffixes.items) }
{
    Postfix { primary, suffixes }
}

/// `[index]`, the suffix that takes an element of an array (ISO/IEC 9899:1990, 6.3.2.1).
#[tactic(auto, using(c_nodes::proofs::Shapes::show_postfix_suffix_index))]
pub fn index(
    alloc: Global,
    opening: u32,
    index: Expr,
    closing: u32,
) -> Result<PostfixSuffix, AllocError>
    ensures { IfOk result (λ s. postfix_suffix_of s ≡ tree.Index opening (expr_of index) closing) }
{
    let index = Box::new(alloc, index)?;
    Ok(PostfixSuffix::Index {
        opening,
        index,
        closing,
    })
}

/// `()`, the suffix of a call without arguments (ISO/IEC 9899:1990, 6.3.2.2).
#[tactic(auto, using(c_nodes::proofs::Shapes::show_postfix_suffix_call_bare))]
pub fn bare_call(opening: u32, closing: u32) -> PostfixSuffix
    ensures { postfix_suffix_of result ≡ tree.CallBare opening closing }
{
    PostfixSuffix::Call {
        opening,
        arguments: None,
        closing,
    }
}

/// `(arguments)`, the suffix of a call (ISO/IEC 9899:1990, 6.3.2.2).
#[tactic(auto, using(c_nodes::proofs::Shapes::show_postfix_suffix_call))]
pub fn call(
    alloc: Global,
    opening: u32,
    arguments: Expr,
    closing: u32,
) -> Result<PostfixSuffix, AllocError>
    ensures { IfOk result (λ s. postfix_suffix_of s ≡ tree.Call opening (expr_of arguments) closing) }
{
    let arguments = Some(Box::new(alloc, arguments)?);
    Ok(PostfixSuffix::Call {
        opening,
        arguments,
        closing,
    })
}

/// `.name` or `->name`, the suffix that takes a member of a structure (ISO/IEC 9899:1990, 6.3.2.3).
#[tactic(auto, using(c_nodes::proofs::Shapes::show_postfix_suffix_member))]
pub fn field(operator: Sign, name: Name) -> PostfixSuffix
    ensures { postfix_suffix_of result ≡ tree.Field (signed operator) (named name) }
{
    PostfixSuffix::Member { operator, name }
}

/// `++` or `--` as a suffix (ISO/IEC 9899:1990, 6.3.2.4).
#[tactic(auto, using(c_nodes::proofs::Shapes::show_postfix_suffix_step))]
pub fn step(operator: Sign) -> PostfixSuffix
    ensures { postfix_suffix_of result ≡ tree.Step (signed operator) }
{
    PostfixSuffix::Step(operator)
}

/// The name of a type: specifiers, and any number of `*` (ISO/IEC 9899:1990, 6.5.5).
pub fn type_name(specs: Specs, pointers: Vec<Pointer>) -> TypeName
    ensures { type_name_of result ≡ tree.TypeOf (specs_of specs) (spell_pointers pointers.items) }
{
    (specs, pointers)
}

/// The specifiers of a declaration, at least one (ISO/IEC 9899:1990, 6.5).
#[tactic(auto, using(c_nodes::proofs::Shapes::made_specs))]
pub fn specs(first: Spec, others: Vec<Spec>) -> Specs
    ensures { specs_of result ≡ tree.Specified (spec_of first) (more_specs (map spec_of others.items)) }
{
    Specs { first, others }
}

/// A keyword as a specifier: one of ISO/IEC 9899:1990, 6.5.1 to 6.5.3, or `interrupt`.
#[tactic(auto, using(c_nodes::proofs::Shapes::show_spec_word))]
pub fn word_spec(word: Word) -> Spec
    ensures { spec_of result ≡ tree.OneWord (keyed word) }
{
    Spec::Word(word)
}

/// A marked name as a specifier (ISO/IEC 9899:1990, 6.5.6).
#[tactic(auto, using(c_nodes::proofs::Shapes::show_spec_type_name))]
pub fn named_type(name: Name) -> Spec
    ensures { spec_of result ≡ tree.NamedType (type_named name) }
{
    Spec::TypeName(name)
}

/// `enum tag` (ISO/IEC 9899:1990, 6.5.2.3).
#[tactic(auto, using(c_nodes::proofs::Shapes::show_spec_enum_reference))]
pub fn enum_reference(keyword: u32, tag: Name) -> Spec
    ensures { spec_of result ≡ tree.EnumTagged keyword (named tag) }
{
    Spec::EnumReference { keyword, tag }
}

/// An enumeration with its enumerators; `braces` are the lines of the braces (ISO/IEC 9899:1990, 6.5.2.2).
#[tactic(auto, using(c_nodes::proofs::Shapes::show_spec_enum_body, c_nodes::proofs::Shapes::made_enum_body))]
pub fn enum_body(
    alloc: Global,
    keyword: u32,
    tag: Option<Name>,
    braces: (u32, u32),
    enumerators: (Enumerator, Vec<NextEnumerator>),
    last_comma: Option<u32>,
) -> Result<Spec, AllocError>
    ensures { IfOk result (λ s. spec_of s ≡ tree.EnumBody keyword (spell_tag tag) braces.0 (enumerator_of enumerators.0) (more_enumerators (map next_enumerator_of enumerators.1.items)) last_comma braces.1) }
{
    let (opening, closing) = braces;
    let (first, others) = enumerators;
    let body = EnumBody {
        keyword,
        tag,
        opening,
        first,
        others,
        last_comma,
        closing,
    };
    Ok(Spec::EnumBody(Box::new(alloc, body)?))
}

/// A comma, and the enumerator after it (ISO/IEC 9899:1990, 6.5.2.2).
pub fn next_enumerator(comma: u32, enumerator: Enumerator) -> NextEnumerator
    ensures { next_enumerator_of result ≡ (comma, enumerator_of enumerator) }
{
    (comma, enumerator)
}

/// An enumerator without a value (ISO/IEC 9899:1990, 6.5.2.2).
#[tactic(auto, using(c_nodes::proofs::Shapes::show_enumerator_bare))]
pub fn bare(name: Name) -> Enumerator
    ensures { enumerator_of result ≡ tree.Bare (named name) }
{
    Enumerator::Bare(name)
}

/// `name = value` (ISO/IEC 9899:1990, 6.5.2.2).
#[tactic(auto, using(c_nodes::proofs::Shapes::show_enumerator_valued))]
pub fn valued(alloc: Global, name: Name, equals: u32, value: Cond) -> Result<Enumerator, AllocError>
    ensures { IfOk result (λ e. enumerator_of e ≡ tree.Valued (named name) equals (cond_of value)) }
{
    let value = Box::new(alloc, value)?;
    Ok(Enumerator::Valued {
        name,
        equals,
        value,
    })
}

/// `struct tag` (ISO/IEC 9899:1990, 6.5.2.3).
#[tactic(auto, using(c_nodes::proofs::Shapes::show_spec_reference))]
pub fn reference(keyword: u32, tag: Name) -> Spec
    ensures { spec_of result ≡ tree.Tagged keyword (named tag) }
{
    Spec::Reference { keyword, tag }
}

/// A structure with its members; `braces` are the lines of the braces.
#[tactic(auto, using(c_nodes::proofs::Shapes::show_spec_body, c_nodes::proofs::Shapes::made_struct_body))]
pub fn body(
    alloc: Global,
    keyword: u32,
    tag: Option<Name>,
    braces: (u32, u32),
    members: (Member, Vec<Member>),
) -> Result<Spec, AllocError>
    ensures { IfOk result (λ s. spec_of s ≡ tree.Body keyword (spell_tag tag) braces.0 (member_of members.0) (more_members (map member_of members.1.items)) braces.1) }
{
    let (opening, closing) = braces;
    let (first, others) = members;
    let body = StructBody {
        keyword,
        tag,
        opening,
        first,
        others,
        closing,
    };
    Ok(Spec::Body(Box::new(alloc, body)?))
}

/// The members that one list of declarators declares (ISO/IEC 9899:1990, 6.5.2.1).
#[tactic(auto, using(c_nodes::proofs::Shapes::made_member))]
pub fn member(
    specs: Specs,
    first: Declarator,
    others: Vec<NextDeclarator>,
    semicolon: u32,
) -> Member
    ensures { member_of result ≡ tree.Members (specs_of specs) (declarator_of first) (more_declarators (map next_declarator_of others.items)) semicolon }
{
    Member {
        specs,
        first,
        others,
        semicolon,
    }
}

/// A comma, and the declarator of a member after it (ISO/IEC 9899:1990, 6.5.2.1).
pub fn next_declarator(comma: u32, declarator: Declarator) -> NextDeclarator
    ensures { next_declarator_of result ≡ (comma, declarator_of declarator) }
{
    (comma, declarator)
}

/// A declarator: any number of `*`, the name, and the suffixes in the order of the text (ISO/IEC 9899:1990,
/// 6.5.4).
#[tactic(auto, using(c_nodes::proofs::Shapes::made_declarator))]
pub fn declarator(pointers: Vec<Pointer>, name: Name, suffixes: Vec<Suffix>) -> Declarator
    ensures { declarator_of result ≡ tree.Declares (spell_pointers pointers.items) (named name) (suffixes_of (map suffix_of suffixes.items)) }
{
    Declarator {
        pointers,
        name,
        suffixes,
    }
}

/// `[]`, the suffix of an array without a length (ISO/IEC 9899:1990, 6.5.4.2).
#[tactic(auto, using(c_nodes::proofs::Shapes::show_suffix_array_unsized))]
pub fn unsized_array(opening: u32, closing: u32) -> Suffix
    ensures { suffix_of result ≡ tree.Unsized opening closing }
{
    Suffix::Array {
        opening,
        length: None,
        closing,
    }
}

/// `[length]`, the suffix of an array (ISO/IEC 9899:1990, 6.5.4.2).
#[tactic(auto, using(c_nodes::proofs::Shapes::show_suffix_array))]
pub fn array(alloc: Global, opening: u32, length: Cond, closing: u32) -> Result<Suffix, AllocError>
    ensures { IfOk result (λ s. suffix_of s ≡ tree.Sized opening (cond_of length) closing) }
{
    let length = Some(Box::new(alloc, length)?);
    Ok(Suffix::Array {
        opening,
        length,
        closing,
    })
}

/// `()`, the suffix of a function without a list of parameters (ISO/IEC 9899:1990, 6.5.4.3).
#[tactic(auto, using(c_nodes::proofs::Shapes::show_suffix_empty))]
pub fn no_params(opening: u32, closing: u32) -> Suffix
    ensures { suffix_of result ≡ tree.Empty opening closing }
{
    Suffix::Empty { opening, closing }
}

/// `(void)`, the suffix of a function without parameters (ISO/IEC 9899:1990, 6.5.4.3).
#[tactic(auto, using(c_nodes::proofs::Shapes::show_suffix_void))]
pub fn void_params(opening: u32, void: u32, closing: u32) -> Suffix
    ensures { suffix_of result ≡ tree.VoidOnly opening void closing }
{
    Suffix::Void {
        opening,
        void,
        closing,
    }
}

/// The suffix of a function with one parameter or more, the first one and those after commas (ISO/IEC
/// 9899:1990, 6.5.4.3).
#[tactic(auto, using(c_nodes::proofs::Shapes::show_suffix_params))]
pub fn params(
    alloc: Global,
    opening: u32,
    params: (Param, Vec<NextParam>),
    closing: u32,
) -> Result<Suffix, AllocError>
    ensures { IfOk result (λ s. suffix_of s ≡ tree.Params opening (param_of params.0) (more_params (map next_param_of params.1.items)) closing) }
{
    let (first, others) = params;
    let first = Box::new(alloc, first)?;
    Ok(Suffix::Params {
        opening,
        first,
        others,
        closing,
    })
}

/// A comma, and the parameter after it (ISO/IEC 9899:1990, 6.5.4.3).
pub fn next_param(comma: u32, param: Param) -> NextParam
    ensures { next_param_of result ≡ (comma, param_of param) }
{
    (comma, param)
}

/// A parameter with a name (ISO/IEC 9899:1990, 6.5.4.3).
#[tactic(auto, using(c_nodes::proofs::Shapes::show_param_named))]
pub fn named_param(specs: Specs, declarator: Declarator) -> Param
    ensures { param_of result ≡ tree.Named (specs_of specs) (declarator_of declarator) }
{
    Param::Named { specs, declarator }
}

/// A parameter without a name (ISO/IEC 9899:1990, 6.5.4.3 and 6.5.5).
#[tactic(auto, using(c_nodes::proofs::Shapes::show_param_unnamed))]
pub fn unnamed_param(specs: Specs, pointers: Vec<Pointer>, suffixes: Vec<Suffix>) -> Param
    ensures { param_of result ≡ tree.Unnamed (specs_of specs) (spell_pointers pointers.items) (suffixes_of (map suffix_of suffixes.items)) }
{
    Param::Unnamed {
        specs,
        pointers,
        suffixes,
    }
}
