//! The parts of declarators in which no other reader is called.

ghost use Rattle.std.specs.Prelude.{◌≡◌, ◌≤◌, ◌<◌, ℕ, List, Some, IfOk, length, map};
ghost use Rattle.c_nodes.specs.Words.{keyed, punct, spell_pointers};
ghost use Rattle.c_nodes.specs.Kinds.{is_punct, is_qualifier};
ghost use Rattle.c_token.specs.declared.token.Punct.TheVariants.{Star};
ghost use Rattle.c_nodes.specs.Trees.{Specified, NoSpec, is_void, is_bare_void};
ghost use Rattle.c_nodes.specs.Lists.{suffixes_of};
ghost use Rattle.c_nodes.specs.Views.{spec_of, specs_of, suffix_of};
ghost use Rattle.parse_expr.specs.Reader.{Shows, symbols_in, symbol_at, stars_at, pointers_at};
ghost use Rattle.parse_expr.specs.Reading.{void_at};
ghost use Rattle.parse_expr.specs.Parts.{in_front};

use crate::kind::{is_keyword, is_qualifying};
use crate::take::{behind_keyword, behind_punct};
use c_nodes::expression::{Spec, Specs, Suffix};
use c_nodes::word::{Pointer, Word};
use c_token::{Keyword, Punct, Tok, TokKind};
use std::alloc::{AllocError, Global};

/// The word `const` or `volatile` in front, and what is after it.
#[tactic(auto, unfolding(crate::specs::Reader::symbol_at))]
fn behind_qualifier<'s>(toks: &'s [Tok]) -> Option<(Word, &'s [Tok])>
    ensures read { (text : List ℕ) → Shows (λ x. (keyed x.0, symbols_in text x.1.now)) result (symbol_at is_qualifier (symbols_in text toks.now)) }
    ensures shorter { (x : _) → result ≡ Some x → length x.1.now < length toks.now }
{
    match toks {
        [first, rest @ ..] => match first.kind {
            TokKind::Keyword(keyword) => {
                if is_qualifying(keyword) {
                    let line = first.line;
                    Some((Word { keyword, line }, rest))
                } else {
                    None
                }
            }
            _ => None,
        },
        [] => None,
    }
}

/// The words `const` and `volatile` in front, and what is after them.
fn qualifiers<'s>(alloc: Global, toks: &'s [Tok]) -> Result<(Vec<Word>, &'s [Tok]), AllocError>
    ensures read { IfOk result (λ x. (text : List ℕ) → stars_at (symbols_in text toks.now) ≡ in_front (map keyed x.0.items) (pointers_at (symbols_in text x.1.now))) }
    ensures rest { IfOk result (λ x. length x.1.now ≤ length toks.now) }
{
    let mut found = Vec::new(alloc);
    let mut rest = toks;
    while let Some((word, after)) = behind_qualifier(rest) {
        found.push(word)?;
        rest = after;
    }
    Ok((found, rest))
}

/// The line of a `*` in front, and what is after it.
#[tactic(auto, unfolding(crate::specs::Reader::symbol_at))]
fn behind_star<'s>(toks: &'s [Tok]) -> Option<(u32, &'s [Tok])>
    ensures read { (text : List ℕ) → Shows (λ x. (punct Star x.0, symbols_in text x.1.now)) result (symbol_at (is_punct Star) (symbols_in text toks.now)) }
    ensures shorter { (x : _) → result ≡ Some x → length x.1.now < length toks.now }
{
    match toks {
        [first, rest @ ..] => match first.kind {
            TokKind::Punct(Punct::Star) => Some((first.line, rest)),
            _ => None,
        },
        [] => None,
    }
}

/// The pointers in front, each with its qualifiers, and what is after them.
pub fn pointers<'s>(alloc: Global, toks: &'s [Tok]) -> Result<(Vec<Pointer>, &'s [Tok]), AllocError>
    ensures { IfOk result (λ x. (text : List ℕ) → pointers_at (symbols_in text toks.now) ≡ (spell_pointers x.0.items, symbols_in text x.1.now)) }
{
    let mut found = Vec::new(alloc);
    let mut rest = toks;
    while let Some((star, after)) = behind_star(rest) {
        let (qualifiers, after) = qualifiers(alloc, after)?;
        found.push(Pointer { star, qualifiers })?;
        rest = after;
    }
    Ok((found, rest))
}

/// `void` and `)` in front, with the line of each, and what is after them.
#[tactic(auto, unfolding(crate::specs::Reading::void_at))]
pub fn behind_void<'s>(toks: &'s [Tok]) -> Option<((u32, u32), &'s [Tok])>
    ensures { (text : List ℕ) → Shows (λ x. (x.0, symbols_in text x.1.now)) result (void_at (symbols_in text toks.now)) }
{
    let (void, rest) = behind_keyword(Keyword::Void, toks)?;
    let (closing, rest) = behind_punct(Punct::RightParenthesis, rest)?;
    Some(((void, closing), rest))
}

#[tactic(auto, using(c_nodes::proofs::Shapes::show_spec_word, c_nodes::proofs::Shapes::show_spec_reference, c_nodes::proofs::Shapes::show_spec_body, c_nodes::proofs::Shapes::show_struct_body, c_nodes::proofs::Shapes::show_spec_type_name, c_nodes::proofs::Shapes::show_spec_enum_reference, c_nodes::proofs::Shapes::show_spec_enum_body, c_nodes::proofs::Shapes::show_enum_body))]
fn is_void_word(spec: &Spec) -> bool
    ensures { result ≡ is_void (Specified (spec_of spec.now) NoSpec) }
{
    match spec {
        Spec::Word(word) => is_keyword(Keyword::Void, TokKind::Keyword(word.keyword)),
        Spec::TypeName(_) => false,
        Spec::Reference { .. } => false,
        Spec::Body(_) => false,
        Spec::EnumReference { .. } => false,
        Spec::EnumBody(_) => false,
    }
}

/// Whether specifiers are the one word `void`.
fn is_void(specs: &Specs) -> bool
    ensures { result ≡ is_void (specs_of specs.now) }
{
    if !specs.others.is_empty() {
        return false;
    }
    is_void_word(&specs.first)
}

/// Whether a parameter is the one word `void`, which only stands alone in brackets.
pub fn is_bare_void(specs: &Specs, pointers: &[Pointer], suffixes: &[Suffix]) -> bool
    ensures { result ≡ is_bare_void (specs_of specs.now) (spell_pointers pointers.now) (suffixes_of (map suffix_of suffixes.now)) }
{
    match pointers {
        [] => match suffixes {
            [] => is_void(specs),
            [_, ..] => false,
        },
        [_, ..] => false,
    }
}
