//! A text's tokens, line by line, and the program that they are.

ghost use Rattle.std.specs.Prelude.{◌≡◌, ◌≤◌, ◌++◌, ◌∷◌, [], None, Some, length, take, OnOk, IfOk, IfErr, All, if◌then◌else◌, replicate, false};
ghost use Rattle.c_pre.specs.Items.{line_length, first_excluded, first_word, items, or_else, Adds, Takes, Walks, IsWordOf, IsFree, Gives, events, program_of};
ghost use Rattle.c_pre.specs.Replace.{limited};
ghost use Rattle.c_pre.specs.Directive.{Defines, table_of, line_of};
ghost use Rattle.c_pre.specs.LookedUp.{IsIndexed};
ghost use Rattle.c_pre.specs.declared.PreError.TheVariants.{NoMemory};

use crate::PreError;
use crate::directive::{Definition, Line, line_of};
use crate::names::{Definitions, no_definitions};
use crate::replace::{Output, replace};
use crate::words::{is_excluded, is_hash, same_words};
use c_token::Tok;
use std::alloc::Global;

// How many tokens left and names replaced a program may have together.
const LIMIT: usize = 262144;

/// A token outside directives, alone in its list, its line, and how many definitions stand before it.
#[derive(Clone, Copy)]
pub struct Free<'a> {
    pub token: &'a [Tok],
    pub line: u32,
    pub known: usize,
}

// How many tokens stand before the next line.
fn line_length(tokens: &[Tok]) -> usize
    ensures bound { result ≤ length tokens.now }
    ensures count { result ≡ line_length tokens.now }
{
    for (i, token) in tokens.iter().enumerate() {
        if token.first {
            return i;
        }
    }
    tokens.len()
}

// The line of the first excluded word of a list.
fn first_excluded(text: &[u8], tokens: &[Tok]) -> Option<u32>
    ensures { result ≡ first_excluded text.now tokens.now }
{
    for token in tokens {
        if is_excluded(text, *token) {
            return Some(token.line);
        }
    }
    None
}

// Adds a definition, and says whether it is a good one: a name that was defined before has to have the
// same tokens.
#[tactic(auto, using(crate::proofs::Defining::adds_new, crate::proofs::Defining::same_name, crate::proofs::Defining::other_name, crate::proofs::Waiting::list_of_definition))]
fn add<'a>(
    text: &[u8],
    definitions: &mut Definitions<'a>,
    definition: Definition<'a>,
) -> Result<bool, PreError>
    requires { IsIndexed definitions.old }
    ensures indexed { OnOk result (IsIndexed definitions.new) }
    ensures grows { length definitions.old.list.items ≤ length definitions.new.list.items }
    ensures keeps { take (length definitions.old.list.items) definitions.new.list.items ≡ definitions.old.list.items }
    ensures adds { Adds text.now definition.entry.name.now definition.entry.list.now
        (table_of definitions.old.list.items) (table_of definitions.new.list.items) result }
{
    match definitions.place(definition.name) {
        Some(k) => Ok(same_words(text, definitions.list[k].list, definition.list)),
        None => {
            definitions.push(definition)?;
            Ok(true)
        }
    }
}

// Takes a definition, and says whether it is a good one.
#[tactic(auto, using(crate::proofs::Defining::takes_good, crate::proofs::Defining::takes_word, crate::proofs::Defining::takes_bad))]
fn define<'a>(
    text: &[u8],
    definitions: &mut Definitions<'a>,
    definition: Definition<'a>,
) -> Result<bool, PreError>
    requires { IsIndexed definitions.old }
    ensures indexed { OnOk result (IsIndexed definitions.new) }
    ensures grows { length definitions.old.list.items ≤ length definitions.new.list.items }
    ensures keeps { take (length definitions.old.list.items) definitions.new.list.items ≡ definitions.old.list.items }
    ensures takes { Takes text.now (Defines definition.entry.name.now definition.entry.list.now)
        (table_of definitions.old.list.items) (table_of definitions.new.list.items) result }
{
    let is_good = add(text, definitions, definition)?;
    if !is_good {
        return Ok(false);
    }
    match first_excluded(text, definition.list) {
        Some(line) => Err(PreError::Word { line }),
        None => Ok(true),
    }
}

// Takes a directive line, and says whether it is a good one.
#[tactic(auto, using(crate::proofs::Defining::takes_nothing, crate::proofs::Defining::takes_wrong))]
fn take_line<'a>(
    text: &'a [u8],
    definitions: &mut Definitions<'a>,
    tokens: &'a [Tok],
) -> Result<bool, PreError>
    requires { IsIndexed definitions.old }
    ensures indexed { OnOk result (IsIndexed definitions.new) }
    ensures grows { length definitions.old.list.items ≤ length definitions.new.list.items }
    ensures keeps { take (length definitions.old.list.items) definitions.new.list.items ≡ definitions.old.list.items }
    ensures takes { Takes text.now (line_of text.now tokens.now)
        (table_of definitions.old.list.items) (table_of definitions.new.list.items) result }
{
    match line_of(text, tokens) {
        Line::Nothing => Ok(true),
        Line::Wrong => Ok(false),
        Line::Defines(definition) => define(text, definitions, definition),
    }
}

// Takes a token outside directives.
fn take_token<'a>(
    text: &[u8],
    free: &mut Vec<Free<'a>>,
    token: &'a [Tok],
    line: u32,
    known: usize,
) -> Result<(), PreError>
    ensures kept { OnOk result (free.new.items ≡ free.old.items ++ record { token = token.entry; line = line; known = known } ∷ []) }
    ensures no_word { OnOk result (first_excluded text.now token.entry.now ≡ None) }
    ensures word { IfErr result (λ e. IsWordOf e (first_excluded text.now token.entry.now)) }
{
    if let Some(line) = first_excluded(text, token) {
        return Err(PreError::Word { line });
    }
    if free.push(Free { token, line, known }).is_err() {
        return Err(PreError::NoMemory);
    }
    Ok(())
}

/// A text's definitions, its tokens outside directives, and the first line that has a bad directive.
#[derive(Drop)]
pub struct Walked<'a> {
    pub definitions: Definitions<'a>,
    pub free: Vec<Free<'a>>,
    pub wrong: Option<u32>,
}

// The first bad line, once this line was bad or good.
fn first_wrong(wrong: Option<u32>, is_good: bool, line: u32) -> Option<u32>
    ensures { result ≡ (if is_good then wrong else or_else wrong (Some line)) }
{
    match wrong {
        Some(first) => Some(first),
        None => { if is_good { None } else { Some(line) } }
    }
}

// Goes over a text's tokens, line by line.
fn walk<'a>(alloc: Global, text: &'a [u8], raw: &'a [Tok]) -> Result<Walked<'a>, PreError>
    ensures walks { IfOk result (λ w. Walks text.now (items text.now raw.now 0 []) (table_of w.definitions.list.items) w.free.items w.wrong []) }
    ensures indexed { IfOk result (λ w. IsIndexed w.definitions) }
    ensures free { IfOk result (λ w. All (IsFree (length w.definitions.list.items)) w.free.items) }
    ensures word { IfErr result (λ e. IsWordOf e (first_word text.now (items text.now raw.now 0 []))) }
{
    let mut definitions = no_definitions(alloc);
    let mut free: Vec<Free<'_>> = Vec::new(alloc);
    let mut wrong = None;
    let mut at = 0;
    while at < raw.len() {
        let token = raw[at];
        if is_hash(token.kind) {
            let count = line_length(&raw[at + 1..]);
            let is_good = take_line(text, &mut definitions, &raw[at + 1..at + 1 + count])?;
            wrong = first_wrong(wrong, is_good, token.line);
            at += 1 + count;
        } else {
            take_token(
                text,
                &mut free,
                &raw[at..at + 1],
                token.line,
                definitions.list.len(),
            )?;
            at += 1;
        }
    }
    Ok(Walked {
        definitions,
        free,
        wrong,
    })
}

// As many marks as there are definitions, none of which is under way.
fn no_marks(alloc: Global, count: usize) -> Result<Vec<bool>, PreError>
    ensures ok { IfOk result (λ v. v.items ≡ replicate count false) }
    ensures err { IfErr result (λ e. e ≡ NoMemory) }
{
    match vec![in alloc; false; count] {
        Ok(marks) => Ok(marks),
        Err(_) => Err(PreError::NoMemory),
    }
}

// Replaces the names of the tokens outside directives.
fn replace_all<'a>(
    alloc: Global,
    text: &'a [u8],
    definitions: &Definitions<'a>,
    free: &[Free<'a>],
) -> Result<Vec<Tok>, PreError>
    requires indexed { IsIndexed definitions.now }
    requires free { All (IsFree (length definitions.now.list.items)) free.now }
    ensures { Gives result (limited 262144 (events text.now (table_of definitions.now.list.items) free.now)) }
{
    let lists = definitions.lists(alloc, text)?;
    let mut marks = no_marks(alloc, lists.len())?;
    let busy: &mut [bool] = &mut marks;
    let mut output = Output {
        tokens: Vec::new(alloc),
        room: LIMIT,
    };
    for item in free {
        let named = [definitions.look_up(text, item.token[0])];
        replace(
            alloc,
            &lists[..item.known],
            item.line,
            &named,
            &mut busy[..item.known],
            &mut output,
        )?;
    }
    Ok(output.tokens)
}

// The same, by the tokens and definitions of each line.
fn tokens_left(alloc: Global, text: &[u8], raw: &[Tok]) -> Result<Vec<Tok>, PreError>
    ensures { Gives result (program_of text.now raw.now) }
{
    let Walked {
        definitions,
        free,
        wrong,
    } = walk(alloc, text, raw)?;
    if let Some(line) = wrong {
        return Err(PreError::Directive { line });
    }
    replace_all(alloc, text, &definitions, &free)
}

/// The tokens of a program (ISO/IEC 9899:1990, 6.8): those of the text outside directive lines, where
/// each defined name is replaced. `raw` has the text's tokens, as `c_token::raw` gives them. A token
/// that came from a name has its own span and that name's line.
pub fn tokens(alloc: Global, text: &[u8], raw: &[Tok]) -> Result<Vec<Tok>, PreError>
    ensures given { Gives result (program_of text.now raw.now) }
    // They are few.
    ensures few { IfOk result (λ toks. length toks.items ≤ 262144) }
{
    tokens_left(alloc, text, raw)
}
