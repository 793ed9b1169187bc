//! The names of types (ISO/IEC 9899:1990, 6.5.5).

ghost use Rattle.std.specs.Prelude.{◌≡◌, ◌++◌, map};
ghost use Rattle.c_token.specs.declared.token.Keyword.TheVariants as words;
ghost use Rattle.c_token.specs.declared.token.TokKind.TheVariants as kinds;
ghost use Rattle.c_nodes.specs.Kinds.{is_key};
ghost use Rattle.c_nodes.specs.Views.{spec_of, type_name_of};
ghost use Rattle.c_nodes.specs.Words.{Symbols, keyed, named, spell_pointers, spell_tag};
ghost use Rattle.type_rules.specs.Faults as faults;
ghost use Rattle.type_rules.specs.Known.{Known, wanted};
ghost use Rattle.type_rules.specs.Names.{meaning_of};
ghost use Rattle.type_rules.specs.Rows.{tagged};
ghost use Rattle.type_rules.specs.Specifiers.{Gathered, named_base};
ghost use Rattle.type_rules.specs.TypeNames as rule;
ghost use Rattle.c_tables.specs.Answers.{Answers, kind_of};
ghost use Rattle.c_tables.specs.Tables.{known_of, scopes_in, types_in};
ghost use Rattle.c_terms.specs.Terms.{term_of};
ghost use Rattle.c_outline.specs.Gathering.{Gathers, base_of, kept_of};
ghost use Rattle.check_expr.specs.Lists as lists;
ghost use Rattle.check_expr.specs.Lists.{sized_name};

use crate::lines::specs_line;
use c_nodes::expression::{Spec, TypeName};
use c_nodes::word::{Name, Pointer, Word};
use c_operate::places::size_of_type;
use c_outline::specifiers::{Base, Site, Words};
use c_tables::checker::Checker;
use c_tables::error::{CheckError, Kind, refused};
use c_tables::scope::{Binding, Scopes, is_waiting};
use c_tables::types::{Tag, Types, plain};
use c_terms::term::Term;
use c_token::Keyword;
use c_typed::Qualified;

fn is_const(keyword: Keyword) -> bool
    ensures { result ≡ is_key words.Const (kinds.Keyword keyword) }
{
    keyword as u8 == Keyword::Const as u8
}

// A pointer with a word more behind its star.
fn with_qualifier(ty: Qualified, keyword: Keyword) -> Qualified
    ensures { result ≡ lists.with_qualifier keyword ty }
{
    if is_const(keyword) {
        Qualified {
            ty: ty.ty,
            constant: true,
            volatile: ty.volatile,
        }
    } else {
        Qualified {
            ty: ty.ty,
            constant: ty.constant,
            volatile: true,
        }
    }
}

// A pointer with the words behind its star.
fn with_qualifiers(ty: Qualified, words: &[Word]) -> Qualified
    ensures { (rest : Symbols) (known : Known) → rule.with_pointers (map keyed words.now ++ rest) ty known ≡ rule.with_pointers rest result known }
{
    let mut ty = ty;
    for word in words {
        ty = with_qualifier(ty, word.keyword);
    }
    ty
}

// Why the body of a structure can't stand in the name of a type, nor a structure of a tag, nor the body of an enumeration.
fn refused_body(tag: &Option<Name>, types: &Types) -> Kind
    ensures { (known : Known) → kind_of result ≡ rule.body_kind (types_in types.now known) (spell_tag tag.now) }
{
    let Some(tag) = tag else {
        return Kind::Declare;
    };
    match types.tagged(&tag.bytes) {
        Some(Tag::Structure(structure)) => types.second_body(structure),
        Some(Tag::Enumeration) => Kind::Again,
        None => Kind::Name,
    }
}

fn refused_tag(tag: &Name, types: &Types) -> Kind
    ensures { (known : Known) → kind_of result ≡ rule.tag_kind (types_in types.now known) (named tag.now) }
{
    match types.tagged(&tag.bytes) {
        Some(Tag::Structure(_)) => Kind::Declare,
        Some(Tag::Enumeration) => Kind::Again,
        None => Kind::Name,
    }
}

fn refused_enum_body(tag: &Option<Name>, types: &Types) -> Kind
    ensures { (known : Known) → kind_of result ≡ rule.enum_body_kind (types_in types.now known) (spell_tag tag.now) }
{
    let Some(tag) = tag else {
        return Kind::Declare;
    };
    match types.tagged(&tag.bytes) {
        Some(_) => Kind::Again,
        None => Kind::Declare,
    }
}

/// The enumeration of a tag, which is declared; `line` is that of `enum`.
pub(crate) fn enumeration_of(tag: &Name, types: &Types, line: u32) -> Result<Base, CheckError>
    ensures { (known : Known) → Answers base_of result (types_in types.now known) (rule.enum_of (tagged (types_in types.now known) tag.now.bytes.items) line (types_in types.now known)) }
{
    match types.tagged(&tag.bytes) {
        Some(Tag::Enumeration) => Ok(Base::Enumeration),
        Some(Tag::Structure(_)) => refused(Kind::Again, line),
        None => refused(Kind::Name, line),
    }
}

/// What a marked name names. It is that of a type that is declared.
pub(crate) fn base_named(name: &Name, scopes: &Scopes) -> Result<Base, CheckError>
    ensures { (known : Known) → Answers base_of result (scopes_in scopes.now known) (wanted faults.Name name.now.line (named_base (meaning_of (scopes_in scopes.now known) name.now.bytes.items)) (scopes_in scopes.now known)) }
{
    match scopes.find(&name.bytes) {
        Some(Binding::TypeName { ty, waiting }) => Ok(Base::Named { ty, waiting }),
        _ => refused(Kind::Name, name.line),
    }
}

fn type_word(spec: &Spec, checker: &Checker, words: Words) -> Result<Words, CheckError>
    ensures { (g : Gathered) → words ≡ kept_of g → Gathers result (known_of checker.now) (rule.named_spec (spec_of spec.now) g (known_of checker.now)) }
{
    match spec {
        Spec::Word(word) => Ok(words.with_word(word.keyword)),
        Spec::TypeName(name) => {
            let base = base_named(name, &checker.scopes)?;
            Ok(words.with_base(base))
        }
        Spec::Reference { keyword, tag } => refused(refused_tag(tag, &checker.types), *keyword),
        Spec::Body(body) => refused(refused_body(&body.tag, &checker.types), body.keyword),
        Spec::EnumReference { keyword, tag } => {
            let base = enumeration_of(tag, &checker.types, *keyword)?;
            Ok(words.with_base(base))
        }
        Spec::EnumBody(body) => refused(refused_enum_body(&body.tag, &checker.types), body.keyword),
    }
}

/// What pointers make of a type.
pub(crate) fn pointers(
    pointers: &[Pointer],
    checker: &mut Checker,
    base: Qualified,
) -> Result<Qualified, CheckError>
    ensures { Answers (λ ty. ty) result (known_of checker.new) (rule.with_pointers (spell_pointers pointers.now) base (known_of checker.old)) }
{
    let mut ty = base;
    for pointer in pointers {
        let to = plain(checker.types.pointer_to(ty)?);
        ty = with_qualifiers(to, &pointer.qualifiers);
    }
    Ok(ty)
}

/// The type of a name of a type.
pub(crate) fn type_named(name: &TypeName, checker: &mut Checker) -> Result<Qualified, CheckError>
    ensures { Answers (λ ty. ty) result (known_of checker.new) (rule.type_named (type_name_of name.now) (known_of checker.old)) }
{
    let mut words = type_word(&name.0.first, checker, Words::none())?;
    for spec in &name.0.others {
        words = type_word(spec, checker, words)?;
    }
    let in_file = checker.scopes.is_file();
    let base = words.finished(
        &mut checker.types,
        Site::TypeName,
        in_file,
        specs_line(&name.0),
    )?;
    if is_waiting(base.waiting) {
        return refused(Kind::Incomplete, base.line);
    }
    pointers(&name.1, checker, base.ty)
}

/// `sizeof` of the name of a type; `line` is that of the keyword.
pub(crate) fn size_of_name(
    name: &TypeName,
    checker: &mut Checker,
    line: u32,
) -> Result<Term, CheckError>
    ensures { Answers term_of result (known_of checker.new) (sized_name (type_name_of name.now) line (known_of checker.old)) }
{
    let ty = type_named(name, checker)?;
    size_of_type(&checker.types, ty.ty, line)
}
