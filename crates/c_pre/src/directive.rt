//! The directives that the language has.

ghost use Rattle.std.specs.Prelude.{◌≡◌};
ghost use Rattle.c_pre.specs.Directive.{position_of, names_header, is_header, may_be_defined, has_parameters, definition_in, line_of, table_of, said, ShowsEntry};

use crate::words::{is_excluded, is_name, is_opening, spells, word_of};
use c_token::Tok;

/// A definition: the name's bytes, and the tokens that it stands for.
#[derive(Clone, Copy)]
pub struct Definition<'a> {
    pub name: &'a [u8],
    pub list: &'a [Tok],
}

/// What a directive line says after its `#`.
#[derive(Clone, Copy)]
pub enum Line<'a> {
    /// Nothing that matters: no word, or the include of a header that is built in.
    Nothing,
    Defines(Definition<'a>),
    /// It is no directive of the language.
    Wrong,
}

fn names_header(bytes: &[u8]) -> bool
    ensures { result ≡ names_header bytes.now }
{
    if spells(b"<htc.h>", bytes) {
        true
    } else if spells(b"<pic.h>", bytes) {
        true
    } else {
        spells(b"<xc.h>", bytes)
    }
}

// Whether a list of tokens, behind `include`, is one of the headers.
#[tactic(auto, unfolding(crate::specs::Directive::is_header))]
fn is_header(text: &[u8], tokens: &[Tok]) -> bool
    ensures { result ≡ is_header text.now tokens.now }
{
    match tokens {
        [less, _, _, _, greater] => {
            names_header(word_of(
                text,
                Tok {
                    end: greater.end,
                    ..*less
                },
            ))
        }
        _ => false,
    }
}

// Whether the name may be defined: it is no keyword and no excluded word.
fn may_be_defined(text: &[u8], token: Tok) -> bool
    ensures { result ≡ may_be_defined text.now token }
{
    is_name(token.kind) && !is_excluded(text, token)
}

// Whether a list of parameters begins directly behind the name.
fn has_parameters(name: Tok, list: &[Tok]) -> bool
    ensures { result ≡ has_parameters name list.now }
{
    match list {
        [] => false,
        [token, ..] => is_opening(token.kind) && token.start == name.end,
    }
}

// Behind `define`: the definition.
#[tactic(auto, unfolding(crate::specs::Directive::definition_in))]
fn definition_in<'a>(text: &'a [u8], tokens: &'a [Tok]) -> Option<Definition<'a>>
    ensures { ShowsEntry result (definition_in text.now tokens.now) }
{
    match tokens {
        [] => None,
        [name, list @ ..] => {
            if may_be_defined(text, *name) && !has_parameters(*name, list) {
                Some(Definition {
                    name: word_of(text, *name),
                    list,
                })
            } else {
                None
            }
        }
    }
}

/// What a directive line says, whose tokens after the `#` these are.
#[tactic(auto, unfolding(crate::specs::Directive::line_of))]
pub fn line_of<'a>(text: &'a [u8], tokens: &'a [Tok]) -> Line<'a>
    ensures { said result ≡ line_of text.now tokens.now }
{
    match tokens {
        [] => Line::Nothing,
        [token, rest @ ..] => {
            let word = word_of(text, *token);
            if spells(b"include", word) {
                if is_header(text, rest) {
                    Line::Nothing
                } else {
                    Line::Wrong
                }
            } else if spells(b"define", word) {
                match definition_in(text, rest) {
                    Some(definition) => Line::Defines(definition),
                    None => Line::Wrong,
                }
            } else {
                Line::Wrong
            }
        }
    }
}
