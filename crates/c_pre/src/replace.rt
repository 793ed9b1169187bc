//! The replacement of names by what they stand for.

ghost use Rattle.std.specs.Prelude.{◌≡◌, ◌<◌, ◌≤◌, [], ◌∷◌, false, length, replicate, reverse, IfSome, OnOk, IfErr, ◌+◌, ◌++◌, ◌*◌, All, MatchOption, slice_index_or};
ghost use Rattle.c_pre.specs.declared.PreError.TheVariants.{NoMemory};
ghost use Rattle.c_pre.specs.Replace.{Left, Replaced, Passes, unmarked, IsInStep, IsMark, Moves};
ghost use Rattle.c_pre.specs.LookedUp.{lists_of, open_at, replace_list, waiting, cleared};

use crate::PreError;
use crate::names::Named;
use c_token::Tok;
use std::alloc::Global;

/// The tokens that are left so far, and how many steps are still allowed.
#[derive(Drop)]
pub struct Output {
    pub tokens: Vec<Tok>,
    pub room: usize,
}

/// The tokens of a list that are still to be read, and the definition whose list it is.
#[derive(Clone, Copy)]
pub struct Frame<'a> {
    pub rest: &'a [Named],
    pub definition: Option<usize>,
}

// A token is left.
#[tactic(auto, using(crate::proofs::Steps::left_passes, crate::proofs::Steps::left_stops))]
fn leave(output: &mut Output, token: Tok) -> Result<(), PreError>
    ensures passes { Passes output.old output.new result (Left token ∷ []) }
    ensures room { OnOk result (output.new.room + 1 ≡ output.old.room) }
{
    if output.room == 0 {
        return Err(PreError::Tokens { line: token.line });
    }
    output.room -= 1;
    if output.tokens.push(token).is_err() {
        return Err(PreError::NoMemory);
    }
    Ok(())
}

// A name on a line is replaced.
#[tactic(auto, using(crate::proofs::Steps::replaced_passes, crate::proofs::Steps::replaced_stops))]
fn count_name(output: &mut Output, line: u32) -> Result<(), PreError>
    ensures passes { Passes output.old output.new result (Replaced line ∷ []) }
    ensures room { OnOk result (output.new.room + 1 ≡ output.old.room) }
{
    if output.room == 0 {
        return Err(PreError::Tokens { line });
    }
    output.room -= 1;
    Ok(())
}

// Which definition a token's name has, if it is known at the place and its replacement isn't under way.
fn open_definition(busy: &[bool], named: Named) -> Option<usize>
    ensures value { result ≡ open_at busy.now named.definition }
    ensures is_free { IfSome result (λ k. slice_index_or busy.now k false ≡ false) }
    ensures bound { IfSome result (λ k. k < length busy.now) }
{
    let k = named.definition?;
    if k >= busy.len() {
        return None;
    }
    if busy[k] { None } else { Some(k) }
}

// Puts a list to wait inside the others.
fn push<'a>(stack: &mut Vec<Frame<'a>>, frame: Frame<'a>) -> Result<(), PreError>
    ensures ok { OnOk result (stack.new.items ≡ stack.old.items ++ frame.entry ∷ []) }
    ensures err { IfErr result (λ e. e ≡ NoMemory) }
{
    if stack.push(frame).is_err() {
        return Err(PreError::NoMemory);
    }
    Ok(())
}

// The definition isn't under way any more.
fn unmark(busy: &mut [bool], definition: Option<usize>)
    requires { IfSome definition (λ k. k < length busy.old) }
    ensures { busy.new ≡ unmarked busy.old definition }
{
    if let Some(k) = definition {
        busy[k] = false;
    }
}

// The first token of a list, and the others.
fn front(list: &[Named]) -> Option<(Named, &[Named])>
    ensures { MatchOption result (list.now ≡ []) (λ x. list.now ≡ x.0 ∷ x.1.now) }
{
    match list {
        [] => None,
        [named, rest @ ..] => Some((*named, rest)),
    }
}

// Takes a step at the innermost list, which was taken from the stack.
fn step<'a>(
    lists: &'a [Vec<Named>],
    line: u32,
    frame: Frame<'a>,
    busy: &mut [bool],
    stack: &mut Vec<Frame<'a>>,
    output: &mut Output,
) -> Result<(), PreError>
    requires in_step { IsInStep (length lists.now) busy.old (frame ∷ stack.old.items) }
    requires mark { IsMark (length lists.now) frame }
    requires marks { All (IsMark (length lists.now)) stack.old.items }
    ensures moves { Moves output.old output.new result
        (waiting (lists_of lists.now) line busy.old (stack.old.items ++ frame.entry ∷ []))
        (waiting (lists_of lists.now) line busy.new stack.new.items) }
    ensures in_step { OnOk result (IsInStep (length lists.now) busy.new stack.new.items) }
    ensures marks { OnOk result (All (IsMark (length lists.now)) stack.new.items) }
    ensures cleared { OnOk result (cleared busy.new (reverse stack.new.items)
        ≡ cleared busy.old (reverse (stack.old.items ++ frame.entry ∷ []))) }
    ensures falls { OnOk result
        (2 * output.new.room + length stack.new.items < 2 * output.old.room + length stack.old.items + 1) }
{
    match front(frame.rest) {
        None => {
            unmark(busy, frame.definition);
            Ok(())
        }
        Some((named, rest)) => {
            let behind_it = Frame {
                rest,
                definition: frame.definition,
            };
            match open_definition(busy, named) {
                None => {
                    let token = named.token;
                    leave(output, Tok { line, ..token })?;
                    push(stack, behind_it)?;
                    Ok(())
                }
                Some(k) => {
                    count_name(output, line)?;
                    busy[k] = true;
                    push(stack, behind_it)?;
                    push(
                        stack,
                        Frame {
                            rest: &lists[k],
                            definition: Some(k),
                        },
                    )?;
                    Ok(())
                }
            }
        }
    }
}

/// Replaces the names of tokens that stand on a line, from left to right, by the lists of the
/// definitions before it, and puts what is left after the output. No definition is marked as under
/// way, before and afterwards.
pub fn replace<'a>(
    alloc: Global,
    lists: &'a [Vec<Named>],
    line: u32,
    tokens: &'a [Named],
    busy: &mut [bool],
    output: &mut Output,
) -> Result<(), PreError>
    requires { busy.old ≡ replicate (length lists.now) false }
    ensures passes { Passes output.old output.new result
        (replace_list (length lists.now) (lists_of lists.now) line (replicate (length lists.now) false) tokens.now) }
    ensures unmarked { OnOk result (busy.new ≡ replicate (length lists.now) false) }
{
    let mut stack = Vec::new(alloc);
    push(
        &mut stack,
        Frame {
            rest: tokens,
            definition: None,
        },
    )?;
    while let Some(frame) = stack.pop() {
        step(lists, line, frame, busy, &mut stack, output)?;
    }
    Ok(())
}
