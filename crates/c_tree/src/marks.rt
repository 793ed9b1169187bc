//! The smallest parts of a spelling.
//!
//! Each function puts the kinds of the tokens of one part after those that are there.

ghost use Rattle.std.specs.Prelude.{◌≡◌, ◌++◌, ◌∷◌, [], IfOk};
ghost use Rattle.c_token.specs.declared.token.TokKind.TheVariants as kinds;
ghost use Rattle.c_nodes.specs.Words.{kinds_of, spelled_comma, spell_constant, spell_pointer, spell_pointers, spell_tag};

use c_nodes::word::{Constant, Name, Pointer};
use c_token::{Keyword, Punct, TokKind};
use std::alloc::AllocError;

/// Puts a punctuator.
pub fn punct(out: &mut Vec<TokKind>, punct: Punct) -> Result<(), AllocError>
    ensures { IfOk result (λ _. out.new.items ≡ out.old.items ++ kinds.Punct punct ∷ []) }
{
    Ok(out.push(TokKind::Punct(punct))?)
}

/// Puts a keyword.
pub fn word(out: &mut Vec<TokKind>, keyword: Keyword) -> Result<(), AllocError>
    ensures { IfOk result (λ _. out.new.items ≡ out.old.items ++ kinds.Keyword keyword ∷ []) }
{
    Ok(out.push(TokKind::Keyword(keyword))?)
}

/// Puts an identifier.
pub fn name(out: &mut Vec<TokKind>) -> Result<(), AllocError>
    ensures { IfOk result (λ _. out.new.items ≡ out.old.items ++ kinds.Name ∷ []) }
{
    Ok(out.push(TokKind::Name)?)
}

/// Puts an identifier that is marked as the name of a type.
pub fn type_name(out: &mut Vec<TokKind>) -> Result<(), AllocError>
    ensures { IfOk result (λ _. out.new.items ≡ out.old.items ++ kinds.TypeName ∷ []) }
{
    Ok(out.push(TokKind::TypeName)?)
}

/// Puts a comma, where there is one.
pub fn comma(out: &mut Vec<TokKind>, comma: &Option<u32>) -> Result<(), AllocError>
    ensures { IfOk result (λ _. out.new.items ≡ out.old.items ++ kinds_of (spelled_comma comma.now)) }
{
    match comma {
        Some(_) => punct(out, Punct::Comma),
        None => Ok(()),
    }
}

/// Puts a string literal.
pub fn text(out: &mut Vec<TokKind>) -> Result<(), AllocError>
    ensures { IfOk result (λ _. out.new.items ≡ out.old.items ++ kinds.Text ∷ []) }
{
    Ok(out.push(TokKind::Text)?)
}

/// Puts an integer or character constant.
pub fn constant(out: &mut Vec<TokKind>, constant: Constant) -> Result<(), AllocError>
    ensures { IfOk result (λ _. out.new.items ≡ out.old.items ++ (spell_constant constant).kind ∷ []) }
{
    let kind = match constant {
        Constant::Int {
            value,
            base,
            unsigned_suffix,
            long_suffix,
            ..
        } => TokKind::Int {
            value,
            base,
            unsigned_suffix,
            long_suffix,
        },
        Constant::Char { value, .. } => TokKind::Char { value },
    };
    Ok(out.push(kind)?)
}

/// The name of a structure or of an enumeration, where it has one.
pub fn tag(out: &mut Vec<TokKind>, tag: &Option<Name>) -> Result<(), AllocError>
    ensures { IfOk result (λ _. out.new.items ≡ out.old.items ++ kinds_of (spell_tag tag.now)) }
{
    match tag {
        Some(_) => name(out),
        None => Ok(()),
    }
}

#[tactic(auto, using(std::proofs::lemmas::List::append_assoc, crate::proofs::Append::kinds_append))]
fn pointer(out: &mut Vec<TokKind>, pointer: &Pointer) -> Result<(), AllocError>
    ensures { IfOk result (λ _. out.new.items ≡ out.old.items ++ kinds_of (spell_pointer pointer.now)) }
{
    punct(out, Punct::Star)?;
    for qualifier in &pointer.qualifiers {
        word(out, qualifier.keyword)?;
    }
    Ok(())
}

/// Puts any number of `*`, each with the words `const` and `volatile` after it.
#[tactic(auto, using(std::proofs::lemmas::List::append_assoc, crate::proofs::Append::kinds_append))]
pub fn pointers(out: &mut Vec<TokKind>, pointers: &[Pointer]) -> Result<(), AllocError>
    ensures { IfOk result (λ _. out.new.items ≡ out.old.items ++ kinds_of (spell_pointers pointers.now)) }
{
    for each in pointers {
        pointer(out, each)?;
    }
    Ok(())
}
