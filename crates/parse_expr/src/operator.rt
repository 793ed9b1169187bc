//! The operators of expressions, and the parts in which no other reader is called.

ghost use Rattle.std.specs.Prelude.{◌≡◌, ◌<◌, ◌≤◌, ◌==◌, ℕ, List, Some, None, Err, true, false, if◌then◌else◌, IfOk};
ghost use Rattle.c_nodes.specs.Words.{signed};
ghost use Rattle.c_nodes.specs.Kinds.{is_assignment, is_prefix, is_leaf, level_of};
ghost use Rattle.c_nodes.specs.Trees as tree;
ghost use Rattle.c_nodes.specs.Trees.{is_unary, is_cast};
ghost use Rattle.c_nodes.specs.Views.{binary_of, cast_of, cond_of, operand_of, postfix_suffix_of, prefix_of, primary_of, target_of};
ghost use Rattle.parse_expr.specs.Reader.{Gives, Shows, over, symbol_in, symbols_in, symbol_at};
ghost use Rattle.parse_expr.specs.Reading.{target_at};
ghost use Rattle.parse_expr.specs.Parts.{plain_post_at, plain_prefix_at};

use crate::build;
use crate::kind::{
    is_assign_mark, is_field_mark, is_keyword, is_prefix_mark, is_step_mark, tier_of,
};
use crate::take::{Step, name, named, stopped, type_opens};
use c_nodes::expression::{
    Binary, Cast, Cond, Operand, Postfix, PostfixSuffix, Prefix, Primary, Target,
};
use c_nodes::word::{Constant, Infix, Sign};
use c_token::{Keyword, Punct, Tok, TokKind};
use std::alloc::{AllocError, Global};

/// The binary operator of this level in front, and what is after it. The levels are 1 to 10.
#[tactic(auto, unfolding(crate::specs::Reader::symbol_at))]
pub fn behind_operator<'s>(level: usize, toks: &'s [Tok]) -> Option<(Infix, &'s [Tok])>
    requires binds { 0 < level }
    requires no_comma { level ≤ 10 }
    ensures { (text : List ℕ) → Shows (λ x. (signed x.0.sign, symbols_in text x.1.now)) result (symbol_at (λ k. level_of k == level) (symbols_in text toks.now)) }
{
    match toks {
        [first, rest @ ..] => match first.kind {
            TokKind::Punct(punct) => {
                if tier_of(punct) == level {
                    let sign = Sign {
                        punct,
                        line: first.line,
                    };
                    Some((Infix { sign }, rest))
                } else {
                    None
                }
            }
            _ => None,
        },
        [] => None,
    }
}

/// The assignment operator in front, and what is after it.
#[tactic(auto, unfolding(crate::specs::Reader::symbol_at))]
fn behind_assignment<'s>(toks: &'s [Tok]) -> Option<(Sign, &'s [Tok])>
    ensures { (text : List ℕ) → Shows (λ x. (signed x.0, symbols_in text x.1.now)) result (symbol_at is_assignment (symbols_in text toks.now)) }
{
    match toks {
        [first, rest @ ..] => match first.kind {
            TokKind::Punct(punct) => {
                if is_assign_mark(punct) {
                    Some((
                        Sign {
                            punct,
                            line: first.line,
                        },
                        rest,
                    ))
                } else {
                    None
                }
            }
            _ => None,
        },
        [] => None,
    }
}

/// A primary expression of one token; None for another token.
pub fn leaf(alloc: Global, text: &[u8], tok: &Tok) -> Result<Option<Primary>, AllocError>
    ensures { IfOk result (λ p. Shows primary_of p (if is_leaf tok.now.kind then Some (tree.Leaf (symbol_in text.now tok.now)) else None)) }
{
    let line = tok.line;
    match tok.kind {
        TokKind::Name => Ok(Some(build::name_operand(named(alloc, text, tok)?))),
        TokKind::Int {
            value,
            base,
            unsigned_suffix,
            long_suffix,
        } => Ok(Some(build::constant_operand(Constant::Int {
            value,
            base,
            unsigned_suffix,
            long_suffix,
            line,
        }))),
        TokKind::Char { value } => {
            Ok(Some(build::constant_operand(Constant::Char { value, line })))
        }
        _ => Ok(None),
    }
}

/// The postfix without brackets in front.
#[tactic(auto, unfolding(crate::specs::Parts::plain_post_at, crate::specs::Reading::field_by))]
pub fn plain_post<'s>(
    alloc: Global,
    text: &[u8],
    last: u32,
    toks: &'s [Tok],
) -> Step<'s, PostfixSuffix>
    ensures { Gives (over (λ x. (postfix_suffix_of x.0, symbols_in text.now x.1.now))) result (plain_post_at (symbols_in text.now toks.now)) }
{
    match toks {
        [first, rest @ ..] => match first.kind {
            TokKind::Punct(punct) => {
                let operator = Sign {
                    punct,
                    line: first.line,
                };
                if is_field_mark(punct) {
                    let (name, rest) = name(alloc, text, last, rest)?;
                    Ok(Some((build::field(operator, name), rest)))
                } else if is_step_mark(punct) {
                    Ok(Some((build::step(operator), rest)))
                } else {
                    Ok(None)
                }
            }
            _ => Ok(None),
        },
        [] => Ok(None),
    }
}

/// The prefix operator or `sizeof` in front; a cast may follow `sizeof`, but not `++` and `--`.
#[tactic(auto, unfolding(crate::specs::Parts::plain_prefix_at))]
pub fn plain_prefix<'s>(last: u32, toks: &'s [Tok]) -> Step<'s, Prefix>
    ensures { (text : List ℕ) → Gives (over (λ x. (prefix_of x.0, symbols_in text x.1.now))) result (plain_prefix_at (symbols_in text toks.now)) }
{
    match toks {
        [first, rest @ ..] => match first.kind {
            TokKind::Punct(punct) => {
                if !is_prefix_mark(punct) {
                    Ok(None)
                } else if is_step_mark(punct) && type_opens(rest) {
                    Err(stopped(last, rest))
                } else {
                    let operator = Sign {
                        punct,
                        line: first.line,
                    };
                    Ok(Some((build::operator_prefix(operator), rest)))
                }
            }
            kind => {
                if is_keyword(Keyword::Sizeof, kind) && !type_opens(rest) {
                    Ok(Some((build::sizeof_prefix(first.line), rest)))
                } else {
                    Ok(None)
                }
            }
        },
        [] => Ok(None),
    }
}

/// Whether it is a unary expression. Each operand without prefixes is one.
#[tactic(auto, using(c_nodes::proofs::Shapes::show_operand_postfix, c_nodes::proofs::Shapes::show_operand_sizeof_type, crate::proofs::Unary::postfix_is_unary))]
fn is_unary_operand(operand: &Operand) -> bool
    ensures { result ≡ is_unary (operand_of operand.now) }
{
    match operand {
        Operand::Postfix(_) | Operand::SizeofType { .. } => true,
    }
}

#[tactic(auto, using(c_nodes::proofs::Shapes::show_prefix_cast, c_nodes::proofs::Shapes::show_prefix_operator, c_nodes::proofs::Shapes::show_prefix_sizeof))]
fn is_cast(prefix: &Prefix) -> bool
    ensures { result ≡ is_cast (prefix_of prefix.now) }
{
    match prefix {
        Prefix::Operator(_) | Prefix::Sizeof { .. } => false,
        Prefix::Cast { .. } => true,
    }
}

/// Whether an operand may be assigned to: no cast is its first prefix.
fn is_unary(cast: &Cast) -> bool
    ensures { result ≡ is_unary (cast_of cast.now) }
{
    match cast.prefixes.first() {
        Some(prefix) => !is_cast(prefix),
        None => is_unary_operand(&cast.operand),
    }
}

/// The operand that may stand left of an assignment; another is given back.
#[tactic(auto, using(c_nodes::proofs::Shapes::show_binary_operand, c_nodes::proofs::Shapes::show_binary_chain))]
fn operand_place(operand: Binary) -> Result<Cast, Binary>
    ensures ok { IfOk result (λ c. (cast_of c ≡ binary_of operand) × (is_unary (binary_of operand) ≡ true)) }
    ensures err { (b : Binary) → result ≡ Err b → (binary_of b ≡ binary_of operand) × (is_unary (binary_of operand) ≡ false) }
{
    match operand {
        Binary::Operand(cast) => {
            if is_unary(&cast) {
                Ok(cast)
            } else {
                Err(build::single(cast))
            }
        }
        Binary::Chain { first, others } => {
            if others.is_empty() {
                operand_place(Box::into_inner(first))
            } else {
                Err(Binary::Chain { first, others })
            }
        }
    }
}

/// What may stand left of an assignment; another value is given back.
#[tactic(auto, using(c_nodes::proofs::Shapes::show_cond))]
fn place(value: Cond) -> Result<Cast, Cond>
    ensures ok { IfOk result (λ c. (cast_of c ≡ cond_of value) × (is_unary (cond_of value) ≡ true)) }
    ensures err { (c : Cond) → result ≡ Err c → (cond_of c ≡ cond_of value) × (is_unary (cond_of value) ≡ false) }
{
    let Cond { choices, last } = value;
    if !choices.is_empty() {
        return Err(build::cond(choices, last));
    }
    match operand_place(last) {
        Ok(place) => Ok(place),
        Err(last) => Err(build::cond(choices, last)),
    }
}

/// What is assigned to where an assignment operator follows, and what is after it; otherwise the
/// value is given back.
#[tactic(auto, unfolding(crate::specs::Reading::target_at))]
pub fn behind_target<'s>(value: Cond, toks: &'s [Tok]) -> Result<(Target, &'s [Tok]), Cond>
    ensures ok { IfOk result (λ x. ((target_of x.0).0 ≡ cond_of value) × ((text : List ℕ) → target_at (cond_of value) (symbols_in text toks.now) ≡ Some ((target_of x.0).1, symbols_in text x.1.now))) }
    ensures err { (c : Cond) → result ≡ Err c → (cond_of c ≡ cond_of value) × ((text : List ℕ) → target_at (cond_of value) (symbols_in text toks.now) ≡ None) }
{
    match behind_assignment(toks) {
        Some((operator, rest)) => match place(value) {
            Ok(place) => Ok((build::target(place, operator), rest)),
            Err(value) => Err(value),
        },
        None => Err(value),
    }
}
