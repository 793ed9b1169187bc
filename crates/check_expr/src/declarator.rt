//! Specifiers, structures, enumerations, declarators and parameters, from the tree's root down (ISO/IEC 9899:1990, 6.5).

ghost use Rattle.std.specs.Prelude.{◌≡◌, ℕ, List, Some, Ok, map};
ghost use Rattle.c_nodes.specs.Lists.{more_params, suffixes_of};
ghost use Rattle.c_nodes.specs.Views.{declarator_of, member_of, next_param_of, param_of, spec_of, specs_of, struct_body_of, suffix_of};
ghost use Rattle.c_nodes.specs.Words.{spell_tag};
ghost use Rattle.type_rules.specs.Declarators as rule;
ghost use Rattle.type_rules.specs.Known.{Known};
ghost use Rattle.type_rules.specs.Rows as rows;
ghost use Rattle.type_rules.specs.Specifiers.{Gathered};
ghost use Rattle.c_tables.specs.Answers.{Answers, Learns};
ghost use Rattle.c_tables.specs.Tables as tables;
ghost use Rattle.c_tables.specs.Tables.{known_of, types_in};
ghost use Rattle.c_outline.specs.Gathering.{Gathers, kept_of};
ghost use Rattle.check_expr.specs.Lists.{body_rule};
ghost use Rattle.c_outline.specs.Lists.{Lists};
ghost use Rattle.c_outline.specs.Views as views;
ghost use Rattle.check_expr.specs.Views.{context_of};
ghost use Rattle.c_outline.specs.Views.{made_of, outline_of, specified_of};

use crate::constants::array_length;
use crate::enumerators::enumeration;
use crate::lines::{declarator_line, specs_line};
use crate::type_name::{self, base_named, enumeration_of};
use c_nodes::expression::{Declarator, Member, NextParam, Param, Spec, Specs, StructBody, Suffix};
use c_nodes::word::Name;
use c_outline::outline::{
    Made, Outline, ParamList, add_field, add_param, object, outlined, param_outlined,
};
use c_outline::specifiers::{Base, Site, Specified, Words};
use c_tables::checker::Checker;
use c_tables::error::{CheckError, Kind, refused};
use c_tables::types::{Progress, Tag, Types};

/// Where a declaration stands, and whether a structure or an enumeration may get its body there.
#[derive(Clone, Copy)]
pub struct Context {
    pub site: Site,
    pub bodies: bool,
}

const MEMBER: Context = Context {
    site: Site::Member,
    bodies: false,
};

fn param_context(bodies: bool) -> Context
    ensures { context_of result ≡ rule.of_param bodies }
{
    Context {
        site: Site::Param,
        bodies,
    }
}

fn declares_tags(site: Site) -> bool
    ensures { result ≡ rule.declares_tags (views.site_of site) }
{
    match site {
        Site::File | Site::Member => true,
        Site::Block | Site::Param | Site::TypeName => false,
    }
}

// The structure that a tag is that of.
fn of_structure(found: Tag, line: u32) -> Result<usize, CheckError>
    ensures { (context : rule.Context) (tag : List ℕ) (known : Known) → Answers (λ number. number) result known (rule.tag_or_new (Some (tables.tag_of found)) context tag line known) }
{
    match found {
        Tag::Structure(structure) => Ok(structure),
        Tag::Enumeration => refused(Kind::Again, line),
    }
}

// The structure of a tag, which is declared here where the place may do so.
fn structure_of(
    tag: &[u8],
    types: &mut Types,
    context: Context,
    line: u32,
) -> Result<usize, CheckError>
    ensures { (known : Known) → Answers (λ number. number) result (types_in types.new known) (rule.structure_of (context_of context) tag.now line (types_in types.old known)) }
{
    match types.tagged(tag) {
        Some(found) => of_structure(found, line),
        None => {
            if declares_tags(context.site) {
                types.declare_tag(tag)
            } else {
                refused(Kind::Name, line)
            }
        }
    }
}

// The structure of a body, with its tag or without one.
fn structure_in(
    tag: &Option<Name>,
    types: &mut Types,
    context: Context,
    line: u32,
) -> Result<usize, CheckError>
    ensures { (known : Known) → Answers (λ number. number) result (types_in types.new known) (rule.structure_in (context_of context) (spell_tag tag.now) line (types_in types.old known)) }
{
    match tag {
        Some(tag) => structure_of(&tag.bytes, types, context, line),
        None => types.untagged(),
    }
}

fn is_absent(progress: Progress) -> bool
    ensures { result ≡ rows.is_absent (tables.progress_of progress) }
{
    match progress {
        Progress::Absent => true,
        Progress::Open | Progress::Closed => false,
    }
}

// The structure whose body begins here.
fn opened(
    tag: &Option<Name>,
    types: &mut Types,
    context: Context,
    line: u32,
) -> Result<usize, CheckError>
    ensures { (known : Known) → Answers (λ number. number) result (types_in types.new known) (rule.body_opened (context_of context) (spell_tag tag.now) line (types_in types.old known)) }
{
    let structure = structure_in(tag, types, context, line)?;
    if !is_absent(types.progress(structure)) {
        return refused(Kind::Again, line);
    }
    if !context.bodies {
        return refused(Kind::Declare, line);
    }
    types.set_progress(structure, Progress::Open);
    Ok(structure)
}

/// What specifiers say.
#[cycle(declarator)]
pub fn specified(
    specs: &Specs,
    checker: &mut Checker,
    context: Context,
) -> Result<Specified, CheckError>
    ensures { Answers specified_of result (known_of checker.new) (rule.specified (specs_of specs.now) (context_of context) (known_of checker.old)) }
{
    let mut words = specifier(&specs.first, checker, context, Words::none())?;
    for spec in &specs.others {
        words = specifier(spec, checker, context, words)?;
    }
    let in_file = checker.scopes.is_file();
    words.finished(&mut checker.types, context.site, in_file, specs_line(specs))
}

#[cycle(declarator)]
fn specifier(
    spec: &Spec,
    checker: &mut Checker,
    context: Context,
    words: Words,
) -> Result<Words, CheckError>
    ensures { (g : Gathered) → words ≡ kept_of g → Gathers result (known_of checker.new) (rule.spec_rule (spec_of spec.now) (context_of context) g (known_of checker.old)) }
{
    match spec {
        Spec::Word(word) => Ok(words.with_word(word.keyword)),
        Spec::TypeName(name) => {
            let base = base_named(name, &checker.scopes)?;
            Ok(words.with_base(base))
        }
        Spec::Reference { keyword, tag } => {
            let structure = structure_of(&tag.bytes, &mut checker.types, context, *keyword)?;
            Ok(words.with_base(Base::Structure(structure)))
        }
        Spec::Body(body) => {
            let structure = opened(&body.tag, &mut checker.types, context, body.keyword)?;
            structure_body(body, checker, structure)?;
            Ok(words.with_base(Base::Structure(structure)))
        }
        Spec::EnumReference { keyword, tag } => {
            let base = enumeration_of(tag, &checker.types, *keyword)?;
            Ok(words.with_base(base))
        }
        Spec::EnumBody(body) => {
            enumeration(body, checker, context.bodies)?;
            Ok(words.with_base(Base::Enumeration))
        }
    }
}

#[cycle(declarator)]
fn structure_body(
    body: &StructBody,
    checker: &mut Checker,
    structure: usize,
) -> Result<(), CheckError>
    ensures { Learns result (known_of checker.new) (body_rule (struct_body_of body.now) structure (known_of checker.old)) }
{
    members(&body.first, checker, structure)?;
    for member in &body.others {
        members(member, checker, structure)?;
    }
    checker.types.set_progress(structure, Progress::Closed);
    Ok(())
}

#[cycle(declarator)]
fn members(member: &Member, checker: &mut Checker, structure: usize) -> Result<(), CheckError>
    ensures { Learns result (known_of checker.new) (rule.members (member_of member.now) structure (known_of checker.old)) }
{
    let specified = specified(&member.specs, checker, MEMBER)?;
    field(&member.first, checker, structure, specified)?;
    for next in &member.others {
        field(&next.1, checker, structure, specified)?;
    }
    Ok(())
}

#[cycle(declarator)]
fn field(
    declarator: &Declarator,
    checker: &mut Checker,
    structure: usize,
    specified: Specified,
) -> Result<(), CheckError>
    ensures { Learns result (known_of checker.new) (rule.field (declarator_of declarator.now) (specified_of specified) structure (known_of checker.old)) }
{
    let outline = outline(declarator, checker, specified, false)?;
    let line = declarator_line(declarator);
    let name = &declarator.name.bytes;
    add_field(&mut checker.types, structure, &outline, name, line)
}

/// What a declarator makes of the type that its specifiers say. `bodies` says whether a structure may get
/// its body among the parameters.
#[cycle(declarator)]
pub fn outline(
    declarator: &Declarator,
    checker: &mut Checker,
    specified: Specified,
    bodies: bool,
) -> Result<Outline, CheckError>
    ensures { Answers outline_of result (known_of checker.new) (rule.outline_of (declarator_of declarator.now) (specified_of specified) bodies (known_of checker.old)) }
{
    let base = type_name::pointers(&declarator.pointers, checker, specified.ty)?;
    let made = suffixes(&declarator.suffixes, checker, bodies)?;
    outlined(&mut checker.types, object(base, specified.waiting), made)
}

#[cycle(declarator)]
fn suffixes(
    suffixes: &[Suffix],
    checker: &mut Checker,
    bodies: bool,
) -> Result<Vec<Made>, CheckError>
    ensures { Answers (λ made. map made_of made.items) result (known_of checker.new) (rule.suffixes (suffixes_of (map suffix_of suffixes.now)) bodies (known_of checker.old)) }
{
    let mut made = Vec::new(checker.alloc);
    for suffix in suffixes {
        made.push(self::suffix(suffix, checker, bodies)?)?;
    }
    Ok(made)
}

#[cycle(declarator)]
fn suffix(suffix: &Suffix, checker: &mut Checker, bodies: bool) -> Result<Made, CheckError>
    ensures { Answers made_of result (known_of checker.new) (rule.suffix (suffix_of suffix.now) bodies (known_of checker.old)) }
{
    match suffix {
        Suffix::Array { length, .. } => match length {
            Some(length) => Ok(Made::Array(array_length(length, checker)?)),
            None => Ok(Made::Array(0)),
        },
        Suffix::Empty { .. } => Ok(Made::Function(ParamList::new(checker.alloc))),
        Suffix::Void { .. } => Ok(Made::Function(ParamList::new(checker.alloc))),
        Suffix::Params { first, others, .. } => {
            let mut list = ParamList::new(checker.alloc);
            checker.scopes.enter_list()?;
            param(first, checker, bodies, &mut list)?;
            params(others, checker, bodies, &mut list)?;
            list.names = checker.scopes.leave_list();
            Ok(Made::Function(list))
        }
    }
}

#[cycle(declarator)]
fn params(
    others: &[NextParam],
    checker: &mut Checker,
    bodies: bool,
    list: &mut ParamList,
) -> Result<(), CheckError>
    ensures { Lists result (map views.param_of list.new.params.items) (known_of checker.new) (rule.more_params (more_params (map next_param_of others.now)) bodies (map views.param_of list.old.params.items) (known_of checker.old)) }
{
    for next in others {
        param(&next.1, checker, bodies, list)?;
    }
    Ok(())
}

#[cycle(declarator)]
fn param(
    param: &Param,
    checker: &mut Checker,
    bodies: bool,
    list: &mut ParamList,
) -> Result<(), CheckError>
    ensures { Lists result (map views.param_of list.new.params.items) (known_of checker.new) (rule.param (param_of param.now) bodies (map views.param_of list.old.params.items) (known_of checker.old)) }
{
    match param {
        Param::Named { specs, declarator } => {
            let specified = specified(specs, checker, param_context(bodies))?;
            let base = type_name::pointers(&declarator.pointers, checker, specified.ty)?;
            let made = self::suffixes(&declarator.suffixes, checker, bodies)?;
            let object = object(base, specified.waiting);
            let outline = param_outlined(&mut checker.types, object, made)?;
            let line = declarator_line(declarator);
            let name = &declarator.name.bytes;
            add_param(checker, list, specified, &outline, name, line)
        }
        Param::Unnamed {
            specs,
            pointers,
            suffixes,
        } => {
            let specified = specified(specs, checker, param_context(bodies))?;
            let base = type_name::pointers(pointers, checker, specified.ty)?;
            let made = self::suffixes(suffixes, checker, bodies)?;
            let object = object(base, specified.waiting);
            let outline = param_outlined(&mut checker.types, object, made)?;
            add_param(checker, list, specified, &outline, &[], specified.line)
        }
    }
}
