//! The names of types in a list of tokens.

ghost use Rattle.std.specs.Prelude.{ℕ, List, ◌≡◌, ◌≤◌, ◌<◌, ◌+◌, ◌++◌, ◌∷◌, [], length, map, false, IfOk};
ghost use Rattle.c_parse.specs.Limits.{open_after};
ghost use Rattle.c_parse.specs.Marks as rule;
ghost use Rattle.c_parse.specs.Marks.{nothing_marked};
ghost use Rattle.c_parse.specs.MarkPlaces.{GivesMarks};
ghost use Rattle.c_parse.specs.MarkViews.{marking_of};

use c_pre::word_of;
use c_token::{Keyword, Punct, Tok, TokKind};
use indexmap::IndexSet;
use parse_expr::kind::{is_keyword, is_name, is_punct};
use std::alloc::{AllocError, Global};
use std::mem;

/// What is known at a token: how many brackets are open; the kind of the token before; whether it stands in the
/// declaration of a `typedef`; the names of that so far; and the names of types that stand from here on.
#[derive(Drop)]
struct Marking {
    depth: usize,
    before: TokKind,
    inside: bool,
    coming: Vec<Tok>,
    known: IndexSet<Vec<u8>>,
}

// At the first token.
fn begun(alloc: Global) -> Marking
    ensures { marking_of result ≡ nothing_marked }
{
    Marking {
        depth: 0,
        before: TokKind::Punct(Punct::Semicolon),
        inside: false,
        coming: Vec::new(alloc),
        known: IndexSet::new(alloc),
    }
}

fn is_tag_word(kind: TokKind) -> bool
    ensures { result ≡ rule.is_tag_word kind }
{
    matches!(kind, TokKind::Keyword(Keyword::Struct | Keyword::Enum))
}

// Whether a name after it is never that of a type.
fn hides(kind: TokKind) -> bool
    ensures { result ≡ rule.hides kind }
{
    match kind {
        TokKind::Punct(Punct::Dot | Punct::Arrow) => true,
        _ => is_tag_word(kind),
    }
}

// How many brackets are open after a token.
fn depth_behind(before: usize, kind: TokKind) -> usize
    requires { before < 18446744073709551615 }
    ensures exact { result ≡ open_after before kind }
    ensures by_one { result ≤ before + 1 }
{
    match kind {
        TokKind::Punct(Punct::LeftParenthesis | Punct::LeftBracket | Punct::LeftBrace) => {
            before + 1
        }
        TokKind::Punct(Punct::RightParenthesis | Punct::RightBracket | Punct::RightBrace) => {
            before.saturating_sub(1)
        }
        _ => before,
    }
}

// Puts a name behind the others, if it isn't among them.
fn put_name(alloc: Global, name: &[u8], names: &mut IndexSet<Vec<u8>>) -> Result<(), AllocError>
    ensures { IfOk result (λ _. map (λ name. name.items) names.new.keys ≡ rule.with_name name.now (map (λ name. name.items) names.old.keys)) }
{
    let name = name.to_vec(alloc)?;
    let (_, _) = names.insert_full(name)?;
    Ok(())
}

// Puts the names of tokens behind the others.
fn put_names(
    alloc: Global,
    text: &[u8],
    toks: &[Tok],
    names: &mut IndexSet<Vec<u8>>,
) -> Result<(), AllocError>
    ensures { IfOk result (λ _. map (λ name. name.items) names.new.keys ≡ rule.with_names text.now toks.now (map (λ name. name.items) names.old.keys)) }
{
    for tok in toks {
        put_name(alloc, word_of(text, *tok), names)?;
    }
    Ok(())
}

impl Marking {
    fn knows(&self, name: &[u8]) -> bool
        ensures { result ≡ rule.is_among name.now (marking_of self.now).known }
    {
        self.known.contains(name)
    }

    fn marks(&self, text: &[u8], tok: Tok) -> bool
        ensures { result ≡ rule.is_marked text.now (marking_of self.now) tok }
    {
        is_name(tok.kind) && !hides(self.before) && self.knows(word_of(text, tok))
    }

    // The token, marked where it is the name of a type.
    fn token(&self, text: &[u8], tok: Tok) -> Tok
        ensures { result ≡ rule.marked_token text.now (marking_of self.now) tok }
    {
        if self.marks(text, tok) {
            Tok {
                kind: TokKind::TypeName,
                start: tok.start,
                end: tok.end,
                line: tok.line,
                first: tok.first,
            }
        } else {
            tok
        }
    }

    fn begins(&self, kind: TokKind) -> bool
        ensures { result ≡ rule.begins (marking_of self.now) kind }
    {
        self.depth == 0 && is_keyword(Keyword::Typedef, kind)
    }

    fn ends(&self, kind: TokKind) -> bool
        ensures { result ≡ rule.ends (marking_of self.now) kind }
    {
        self.inside && self.depth == 0 && is_punct(Punct::Semicolon, kind)
    }

    fn declares(&self, kind: TokKind) -> bool
        ensures { result ≡ rule.declares (marking_of self.now) kind }
    {
        self.inside && self.depth == 0 && is_name(kind) && !is_tag_word(self.before)
    }

    // The names of the declaration that ends here stand from here on.
    fn settle(&mut self, alloc: Global, text: &[u8]) -> Result<(), AllocError>
        ensures { IfOk result (λ _. marking_of self.new ≡ record (marking_of self.old) { inside = false; coming = []; known = rule.with_names text.now (marking_of self.old).coming (marking_of self.old).known }) }
    {
        let coming = mem::replace(&mut self.coming, Vec::new(alloc));
        put_names(alloc, text, &coming, &mut self.known)?;
        self.inside = false;
        Ok(())
    }

    // Takes a token, which is marked already.
    fn pass(&mut self, alloc: Global, text: &[u8], tok: Tok) -> Result<(), AllocError>
        requires { self.old.depth < 18446744073709551615 }
        ensures exact { IfOk result (λ _. marking_of self.new ≡ rule.known_behind text.now (marking_of self.old) tok) }
        ensures by_one { IfOk result (λ _. self.new.depth ≤ self.old.depth + 1) }
    {
        if self.ends(tok.kind) {
            self.settle(alloc, text)?;
        } else if self.declares(tok.kind) {
            self.coming.push(tok)?;
        } else if self.begins(tok.kind) {
            self.inside = true;
        }
        self.depth = depth_behind(self.depth, tok.kind);
        self.before = tok.kind;
        Ok(())
    }
}

/// The tokens of a program with its names of types marked: those that a `typedef` outside brackets declares, from
/// after its declaration on, except directly after `.`, `->`, `struct` or `enum`. `toks` are the tokens that are left
/// of the text after directives and replacement.
pub fn mark(alloc: Global, text: &[u8], toks: &[Tok]) -> Result<Vec<Tok>, AllocError>
    ensures marked { IfOk result (λ v. v.items ≡ rule.marked text.now toks.now) }
    // They are as many.
    ensures many { IfOk result (λ v. length v.items ≡ length toks.now) }
{
    let mut marking = begun(alloc);
    let mut out = Vec::new(alloc);
    for tok in toks {
        let tok = marking.token(text, *tok);
        marking.pass(alloc, text, tok)?;
        out.push(tok)?;
    }
    Ok(out)
}

/// The names that are marked are those that such a declaration before them has, and no others: said of places.
pub fn marks_are_types()
    ensures { (text : List ℕ) → GivesMarks text }
{}
