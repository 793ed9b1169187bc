//! The stages from a text to its sizes and addresses.

ghost use Rattle.std.specs.Prelude.{◌≡◌, ◌<◌, ◌≤◌, ◌^◌, ◌+◌, ℕ, true, [], ◌∷◌, length, map, sum, None, Ok, Err, IfOk, IfErr, MatchOption, MatchResult};
ghost use Rattle.c_nodes.specs.ProgramViews.{unit_of};
ghost use Rattle.c_typed.specs.Chains.{graph_of};
ghost use Rattle.c_typed.specs.Nodes.{capped};
ghost use Rattle.c_typed.specs.Roots.{broken_root};
ghost use Rattle.c_typed.specs.Sound.{is_sound};
ghost use Rattle.c_typed.specs.Views.{program_of};
ghost use Rattle.c_typed.specs.Words.{start_size};
ghost use Rattle.call_graph.specs.Copies.{AreCopies, HasDepth, name_at};
ghost use Rattle.call_graph.specs.Levels.{IsAcyclic};
ghost use Rattle.pic_map.specs.MapView.{object_of, frame_of};
ghost use Rattle.ram_place.specs.Placement as placement;
ghost use Rattle.src_rules.specs.Numbers.{ProgramHasNumbers};
ghost use Rattle.picc_core.specs.Accepted.{AreAccepted};
ghost use Rattle.picc_core.specs.Answers.{IsEarly, IsRefusedUnless, TellsError, TellsErrorBy, TellsGraph, TellsProgramBy};
ghost use Rattle.picc_core.specs.Blocks.{HasBlocks};
ghost use Rattle.picc_core.specs.CodeAnswers as stated;
ghost use Rattle.picc_core.specs.CodeAnswers.{Explains, IsOfCopy, SomeIsOver, TellsCode, TellsCodeWithin, TellsFirstOver};
ghost use Rattle.picc_core.specs.Decided.{IsAcceptedText};
ghost use Rattle.picc_core.specs.Founded.{IsFounded};
ghost use Rattle.picc_core.specs.Limits.{AreWithin, IsFirstRefusalWithin, NoneIsOver};
ghost use Rattle.picc_core.specs.Texts.{tokens_left, program_tokens, HasTree};
ghost use Rattle.picc_core.specs.Typed.{IsTreeOf, IsTypedAs};
ghost use Rattle.picc_core.specs.declared.refusal.CompileError.TheVariants.{NoMemory, Refused};
ghost use Rattle.picc_core.specs.declared.refusal.LimitKind.TheVariants as kinds;
ghost use Rattle.picc_core.specs.declared.refusal.Refusal.{Refusal};
ghost use Rattle.picc_core.specs.declared.refusal.Refusal.TheVariants as refusals;
ghost use Rattle.program_code.specs.Stated.{copy_words as words_of_copy, sizes};

use crate::code_order::code_order;
use crate::known::Front;
use crate::limits::{Limits, whole_chip};
use crate::refusal::{CompileError, LimitKind, Refusal, limit};
use c_check::{Typed, check};
use c_nodes::statement::Unit;
use c_parse::{let_go, mark, parse};
use c_pre::tokens;
use c_token::{Tok, raw};
use call_graph::{Copies, FnCopy, FnId, copies};
use code_place::{PageError, pages};
use ram_place::{Placed, block_words, place_below, start_words};
use std::alloc::{AllocError, Global};
use typed_numbers::see_numbers;

/// The longest text, in bytes.
const LONGEST: usize = 262_144;

/// The words of a page of program memory.
const PAGE_WORDS: u64 = 2048;

/// The tokens that directives and the replacement of names leave, with the names of types marked.
#[tactic(auto, using(crate::proofs::Telling::long_told, crate::proofs::Telling::lex_told, crate::proofs::Telling::pre_told, crate::proofs::Telling::all_left, crate::proofs::Telling::lex_early, crate::proofs::Telling::pre_early))]
fn tokens_in(alloc: Global, text: &[u8]) -> Result<Vec<Tok>, CompileError>
    ensures answer { MatchResult result (λ toks. tokens_left text.now ≡ Ok toks.items) (TellsError text.now) }
    ensures early { IfErr result IsEarly }
    ensures long { 262144 < length text.now → result ≡ Err (Refused (refusals.Limit kinds.Text 0)) }
{
    if text.len() > LONGEST {
        return Err(limit(LimitKind::Text, 0));
    }
    let raw = raw(alloc, text)?;
    let left = tokens(alloc, text, &raw)?;
    Ok(mark(alloc, text, &left)?)
}

fn tree_of(alloc: Global, text: &[u8]) -> Result<Unit, CompileError>
    ensures answer { MatchResult result (λ unit. IsTreeOf text.now (unit_of unit)) (TellsError text.now) }
    ensures early { IfErr result IsEarly }
    ensures long { 262144 < length text.now → result ≡ Err (Refused (refusals.Limit kinds.Text 0)) }
{
    let toks = tokens_in(alloc, text)?;
    parsed(alloc, text, &toks)
}

#[tactic(auto, using(crate::proofs::Telling::parse_early))]
fn parsed(alloc: Global, text: &[u8], toks: &[Tok]) -> Result<Unit, CompileError>
    requires { tokens_left text.now ≡ Ok toks.now }
    ensures answer { MatchResult result (λ unit. IsTreeOf text.now (unit_of unit)) (TellsError text.now) }
    ensures early { IfErr result IsEarly }
{
    Ok(parse(alloc, text, toks)?)
}

/// The typed program of a text, or the first refusal of it up to the rules on names and types.
#[tactic(auto, using(crate::proofs::FewFunctions::tree_few, crate::proofs::Told::typed_told, crate::proofs::Told::check_told, crate::proofs::Telling::check_early))]
pub fn typed_of(alloc: Global, text: &[u8]) -> Result<Typed, CompileError>
    // What is accepted has the typed program that the rules on names and types give to it, and a refusal tells what it says of the text.
    ensures answer { MatchResult result (λ typed. IsTypedAs text.now (program_of typed)) (TellsError text.now) }
    // A refusal is one of tokens, trees or types.
    ensures early { IfErr result IsEarly }
    // A text over 262,144 bytes is refused so.
    ensures long { 262144 < length text.now → result ≡ Err (Refused (refusals.Limit kinds.Text 0)) }
{
    let unit = tree_of(alloc, text)?;
    let typed = check(alloc, &unit);
    let_go(unit);
    Ok(typed?)
}

/// The copies of a typed program, or the first refusal of it up to its return stack.
#[tactic(auto, using(crate::proofs::Told::graph_told))]
fn copies_of(alloc: Global, p: &Typed) -> Result<Copies, CompileError>
    ensures refused { IfErr result (TellsGraph (program_of p.now)) }
    ensures roots { IfOk result (λ _. broken_root (program_of p.now) ≡ None) }
    ensures recursion { IfOk result (λ _. IsAcyclic (graph_of (program_of p.now))) }
    ensures depth { IfOk result (λ copies. HasDepth (program_of p.now) copies.depth × (copies.depth ≤ 8)) }
    ensures list { IfOk result (λ copies. AreCopies (program_of p.now) copies.list.items) }
{
    Ok(copies(alloc, p)?)
}

/// The addresses of objects and frames, or the first that has none.
fn placed_of(
    alloc: Global,
    p: &Typed,
    copies: &Copies,
    limits: Limits,
) -> Result<Placed, CompileError>
    requires roots { broken_root (program_of p.now) ≡ None }
    requires recursion { IsAcyclic (graph_of (program_of p.now)) }
    requires depth { HasDepth (program_of p.now) copies.now.depth × (copies.now.depth ≤ 8) }
    requires list { AreCopies (program_of p.now) copies.now.list.items }
    ensures refused { IfErr result (TellsProgramBy (IsFirstRefusalWithin limits) (program_of p.now)) }
    ensures below { IfOk result (λ placed. placement.IsPlacingIn (placement.whole_below (program_of p.now) limits.top_of_memory) (program_of p.now) copies.now.list.items (map object_of placed.objects.items) (map frame_of placed.frames.items)) }
    ensures exact { IfOk result (λ placed. placement.IsPlacing (program_of p.now) copies.now.list.items (map object_of placed.objects.items) (map frame_of placed.frames.items)) }
    ensures apart { IfOk result (λ placed. placement.LiveFramesAreDisjoint (program_of p.now) copies.now.list.items (map frame_of placed.frames.items)) }
    ensures clear { IfOk result (λ placed. placement.FramesAreClear (map object_of placed.objects.items) (map frame_of placed.frames.items)) }
    ensures objects { IfOk result (λ placed. placement.ObjectsAreDisjoint (map object_of placed.objects.items)) }
    ensures ram { IfOk result (λ placed. placed.ram ≡ placement.addresses_covered (map object_of placed.objects.items) (map frame_of placed.frames.items)) }
{
    Ok(place_below(alloc, p, copies, limits.top_of_memory)?)
}

#[tactic(auto, unfolding(program_code::specs::Stated::copy_words))]
fn copy_words(p: &Typed, copy: FnCopy) -> u64
    ensures { result ≡ words_of_copy (program_of p.now) copy }
{
    block_words(p, copy.function)
}

/// The stated words of the blocks of copies.
fn copies_words(alloc: Global, p: &Typed, order: &[FnCopy]) -> Result<Vec<u64>, AllocError>
    ensures { IfOk result (λ words. words.items ≡ map (words_of_copy (program_of p.now)) order.now) }
{
    let mut words = Vec::new(alloc);
    for copy in order {
        words.push(copy_words(p, *copy))?;
    }
    Ok(words)
}

/// The stated words of the blocks: the start block's, and those of the copies in the order of code.
fn words_of(alloc: Global, p: &Typed, order: &[FnCopy]) -> Result<Vec<u64>, AllocError>
    ensures { IfOk result (λ words. words.items ≡ sizes (program_of p.now) order.now) }
{
    let copies = copies_words(alloc, p, order)?;
    let mut words = Vec::new(alloc);
    words.push(start_words(p))?;
    words.extend_from_slice(&copies)?;
    Ok(words)
}

/// A function whose block has more words than it may have, and the words of that.
#[derive(Clone, Copy)]
struct OverPage {
    number: u32,
    words: u64,
}

/// The function of a copy, if its block has more words than these. Of helpers none is told.
#[tactic(auto, using(crate::proofs::OverPages::helper_within, crate::proofs::OverPages::one_within, crate::proofs::OverPages::one_over))]
fn over(p: &Typed, copy: FnCopy, most: u64) -> Option<OverPage>
    ensures { TellsFirstOver most (program_of p.now) (copy ∷ []) result }
{
    let FnId::User(number) = copy.function else {
        return None;
    };
    let words = copy_words(p, copy);
    if words <= most {
        return None;
    }
    Some(OverPage { number, words })
}

/// Of two functions the one that is defined first.
fn earlier(found: Option<OverPage>, next: Option<OverPage>) -> Option<OverPage>
    ensures { result ≡ stated.earlier found next }
{
    match (found, next) {
        (None, _) => next,
        (Some(_), None) => found,
        (Some(first), Some(second)) => {
            if second.number < first.number {
                next
            } else {
                found
            }
        }
    }
}

/// Of the functions whose blocks have more words than these the one that is defined first.
#[tactic(auto, using(crate::proofs::OverPages::nothing_seen, crate::proofs::OverPages::one_more, crate::proofs::OverPages::all_seen))]
fn first_over(p: &Typed, copies: &[FnCopy], most: u64) -> Option<OverPage>
    ensures { TellsFirstOver most (program_of p.now) copies.now result }
{
    let mut first = None;
    for copy in copies {
        first = earlier(first, over(p, *copy, most));
    }
    first
}

fn name_of(alloc: Global, p: &Typed, number: u32) -> Result<Vec<u8>, AllocError>
    ensures { IfOk result (λ name. name.items ≡ name_at (program_of p.now) number) }
{
    let at = number as usize;
    if at >= p.functions.len() {
        return Ok(Vec::new(alloc));
    }
    let name = Vec::from_slice(alloc, &p.functions[at].name)?;
    Ok(name)
}

/// The first block over a page in the order of the text. That of a helper never is, so it is a function's.
#[tactic(auto, using(crate::proofs::OverPages::page_told, crate::proofs::OverPages::some_function))]
fn refused_page(alloc: Global, p: &Typed, copies: &[FnCopy]) -> CompileError
    requires { SomeIsOver (program_of p.now) copies.now }
    ensures { TellsCode (program_of p.now) copies.now result }
{
    let Some(found) = first_over(p, copies, PAGE_WORDS) else {
        unreachable!()
    };
    match name_of(alloc, p, found.number) {
        Ok(function) => CompileError::Refused(Refusal::Page {
            function,
            words: found.words,
        }),
        Err(_) => CompileError::NoMemory,
    }
}

/// Why the blocks have no addresses.
fn refused_code(alloc: Global, p: &Typed, copies: &[FnCopy], error: PageError) -> CompileError
    requires { IsOfCopy (program_of p.now) copies.now error }
    ensures { Explains (program_of p.now) copies.now error result }
{
    match error {
        PageError::NoMemory => CompileError::NoMemory,
        PageError::Code { words } => CompileError::Refused(Refusal::Code { words }),
        PageError::Page { .. } => refused_page(alloc, p, copies),
    }
}

/// The addresses of the blocks, and the sum of their words.
#[derive(Drop)]
struct Code {
    at: Vec<u16>,
    words: u32,
}

#[tactic(auto, using(crate::proofs::Sums::few, crate::proofs::Sums::blocks_had, crate::proofs::OverPages::code_told, crate::proofs::OverPages::over_in_copies))]
fn code_of(alloc: Global, p: &Typed, copies: &Copies) -> Result<Code, CompileError>
    requires start { capped (start_size (program_of p.now)) ≤ 2048 }
    // Its copies are few enough to be counted.
    requires functions { length (program_of p.now).functions ≤ 0x10000000 }
    requires list { AreCopies (program_of p.now) copies.now.list.items }
    ensures blocks { IfOk result (λ code. HasBlocks (program_of p.now) copies.now.list.items code.at.items code.words) }
    ensures refused { IfErr result (TellsCode (program_of p.now) copies.now.list.items) }
{
    let order = code_order(alloc, copies)?;
    let words = words_of(alloc, p, &order)?;
    match pages(alloc, &words) {
        Ok(at) => Ok(Code {
            at,
            words: sum_of(&words),
        }),
        Err(error) => Err(refused_code(alloc, p, &copies.list, error)),
    }
}

/// The refusal of the first function whose block has more words than it may have, or `None` where none has.
#[tactic(auto, using(crate::proofs::OverPages::page_told))]
fn refused_over(alloc: Global, p: &Typed, copies: &[FnCopy], limits: Limits) -> Option<CompileError>
    ensures { MatchOption result (NoneIsOver limits.words_of_block (program_of p.now) copies.now) (TellsCodeWithin limits (program_of p.now) copies.now) }
{
    let Some(found) = first_over(p, copies, limits.words_of_block) else {
        return None;
    };
    match name_of(alloc, p, found.number) {
        Ok(function) => Some(CompileError::Refused(Refusal::Page {
            function,
            words: found.words,
        })),
        Err(_) => Some(CompileError::NoMemory),
    }
}

/// The addresses of the blocks, and the sum of their words, within limits.
#[tactic(auto, using(crate::proofs::OverPages::within_told, crate::proofs::OverPages::many_words, crate::proofs::OverPages::over_told, crate::proofs::OverPages::none_lent))]
fn code_within(
    alloc: Global,
    p: &Typed,
    copies: &Copies,
    limits: Limits,
) -> Result<Code, CompileError>
    requires start { capped (start_size (program_of p.now)) ≤ 2048 }
    requires functions { length (program_of p.now).functions ≤ 0x10000000 }
    requires list { AreCopies (program_of p.now) copies.now.list.items }
    requires page { limits.words_of_block ≤ 2048 }
    ensures blocks { IfOk result (λ code. HasBlocks (program_of p.now) copies.now.list.items code.at.items code.words) }
    ensures none { IfOk result (λ _. NoneIsOver limits.words_of_block (program_of p.now) copies.now.list.items) }
    ensures few { IfOk result (λ code. code.words ≤ limits.words) }
    ensures refused { IfErr result (TellsCodeWithin limits (program_of p.now) copies.now.list.items) }
{
    if let Some(error) = refused_over(alloc, p, &copies.list, limits) {
        return Err(error);
    }
    let code = code_of(alloc, p, copies)?;
    let words = code.words as u64;
    if words > limits.words {
        return Err(CompileError::Refused(Refusal::Code { words }));
    }
    Ok(code)
}

fn sum_of(words: &[u64]) -> u32
    requires { sum words.now ≤ 8192 }
    ensures { result ≡ sum words.now }
{
    let sum: u64 = words.iter().sum();
    sum as u32
}

/// The program keeps its typing rules, and its numbers are of their types. Values of the code are so by themselves.
fn see_typed(typed: &Typed)
    ensures sound { is_sound (program_of typed.now) ≡ true }
    ensures numbers { ProgramHasNumbers (program_of typed.now) }
{
    see_numbers(typed);
}

/// What is known of a typed program, or its first refusal within the limits.
#[tactic(auto, using(crate::proofs::Told::graph_within))]
fn known_of(alloc: Global, typed: Typed, limits: Limits) -> Result<Front, CompileError>
    requires functions { length (program_of typed).functions ≤ 0x10000000 }
    requires page { limits.words_of_block ≤ 2048 }
    ensures refused { IfErr result (TellsProgramBy (IsFirstRefusalWithin limits) (program_of typed)) }
    ensures within { IfOk result (λ front. AreWithin limits (program_of front.typed) front.copies.list.items) }
    ensures same { IfOk result (λ front. front.typed ≡ typed) }
    ensures accepted { IfOk result (λ front. AreAccepted (program_of front.typed) front.copies.list.items) }
    ensures roots { IfOk result (λ front. broken_root (program_of front.typed) ≡ None) }
    ensures recursion { IfOk result (λ front. IsAcyclic (graph_of (program_of front.typed))) }
    ensures depth { IfOk result (λ front. HasDepth (program_of front.typed) front.copies.depth × (front.copies.depth ≤ 8)) }
    ensures list { IfOk result (λ front. AreCopies (program_of front.typed) front.copies.list.items) }
    ensures below { IfOk result (λ front. placement.IsPlacingIn (placement.whole_below (program_of front.typed) limits.top_of_memory) (program_of front.typed) front.copies.list.items (map object_of front.placed.objects.items) (map frame_of front.placed.frames.items)) }
    ensures exact { IfOk result (λ front. placement.IsPlacing (program_of front.typed) front.copies.list.items (map object_of front.placed.objects.items) (map frame_of front.placed.frames.items)) }
    ensures apart { IfOk result (λ front. placement.LiveFramesAreDisjoint (program_of front.typed) front.copies.list.items (map frame_of front.placed.frames.items)) }
    ensures clear { IfOk result (λ front. placement.FramesAreClear (map object_of front.placed.objects.items) (map frame_of front.placed.frames.items)) }
    ensures objects { IfOk result (λ front. placement.ObjectsAreDisjoint (map object_of front.placed.objects.items)) }
    ensures ram { IfOk result (λ front. front.placed.ram ≡ placement.addresses_covered (map object_of front.placed.objects.items) (map frame_of front.placed.frames.items)) }
    ensures blocks { IfOk result (λ front. HasBlocks (program_of front.typed) front.copies.list.items front.at.items front.words) }
    ensures founded { IfOk result (λ front. IsFounded front.typed front.copies.list.items front.placed front.at.items) }
{
    let copies = copies_of(alloc, &typed)?;
    let placed = placed_of(alloc, &typed, &copies, limits)?;
    let Code { at, words } = code_within(alloc, &typed, &copies, limits)?;
    see_typed(&typed);
    Ok(Front {
        typed,
        copies,
        placed,
        at,
        words,
    })
}

#[tactic(auto, using(crate::proofs::Told::front_told, crate::proofs::Telling::early_told))]
fn known(alloc: Global, text: &[u8], limits: Limits) -> Result<Front, CompileError>
    requires { limits.words_of_block ≤ 2048 }
    ensures answer { MatchResult result (λ front. IsTypedAs text.now (program_of front.typed)) (TellsErrorBy (IsFirstRefusalWithin limits) text.now) }
    ensures within { IfOk result (λ front. AreWithin limits (program_of front.typed) front.copies.list.items) }
    ensures long { 262144 < length text.now → result ≡ Err (Refused (refusals.Limit kinds.Text 0)) }
    ensures accepted { IfOk result (λ front. AreAccepted (program_of front.typed) front.copies.list.items) }
    ensures roots { IfOk result (λ front. broken_root (program_of front.typed) ≡ None) }
    ensures recursion { IfOk result (λ front. IsAcyclic (graph_of (program_of front.typed))) }
    ensures depth { IfOk result (λ front. HasDepth (program_of front.typed) front.copies.depth × (front.copies.depth ≤ 8)) }
    ensures list { IfOk result (λ front. AreCopies (program_of front.typed) front.copies.list.items) }
    ensures below { IfOk result (λ front. placement.IsPlacingIn (placement.whole_below (program_of front.typed) limits.top_of_memory) (program_of front.typed) front.copies.list.items (map object_of front.placed.objects.items) (map frame_of front.placed.frames.items)) }
    ensures exact { IfOk result (λ front. placement.IsPlacing (program_of front.typed) front.copies.list.items (map object_of front.placed.objects.items) (map frame_of front.placed.frames.items)) }
    ensures apart { IfOk result (λ front. placement.LiveFramesAreDisjoint (program_of front.typed) front.copies.list.items (map frame_of front.placed.frames.items)) }
    ensures clear { IfOk result (λ front. placement.FramesAreClear (map object_of front.placed.objects.items) (map frame_of front.placed.frames.items)) }
    ensures objects { IfOk result (λ front. placement.ObjectsAreDisjoint (map object_of front.placed.objects.items)) }
    ensures ram { IfOk result (λ front. front.placed.ram ≡ placement.addresses_covered (map object_of front.placed.objects.items) (map frame_of front.placed.frames.items)) }
    ensures blocks { IfOk result (λ front. HasBlocks (program_of front.typed) front.copies.list.items front.at.items front.words) }
    ensures founded { IfOk result (λ front. IsFounded front.typed front.copies.list.items front.placed front.at.items) }
{
    let typed = typed_of(alloc, text)?;
    known_of(alloc, typed, limits)
}

/// What is known of a text that is accepted within the limits, or the first refusal that holds of it. The order is: the limit on the text; tokens and the
/// limit on names, whichever stands first; excluded words; directives; the limit on tokens; nesting and runs, whichever
/// stands first; trees; types; roots; recursion; depth; data memory; a block over a page; all blocks.
#[tactic(auto, using(crate::proofs::Telling::tokens_first, crate::proofs::Told::has_tree, crate::proofs::Told::is_taken, crate::proofs::Handed::few_copies))]
pub fn front_within(alloc: Global, text: &[u8], limits: Limits) -> Result<Front, CompileError>
    // A block that is within its limit is at most a page.
    requires { limits.words_of_block ≤ 2048 }
    // A text over 262,144 bytes is refused so.
    ensures text_limit { 262144 < length text.now → result ≡ Err (Refused (refusals.Limit kinds.Text 0)) }
    // What is accepted has a tree,
    ensures tree { IfOk result (λ _. HasTree text.now) }
    // and this is the typed program that the rules on names and types give to it.
    ensures typed { IfOk result (λ front. IsTypedAs text.now (program_of front.typed)) }
    // A refusal tells what it says of the text within these limits.
    ensures refused { IfErr result (TellsErrorBy (IsFirstRefusalWithin limits) text.now) }
    // The first refusal of the text's tokens is told, unless memory runs out.
    ensures tokens { (r : Refusal) → program_tokens text.now ≡ Err (Refused r) → IsRefusedUnless result r }
    // So the text is an accepted one,
    ensures taken { IfOk result (λ _. IsAcceptedText text.now) }
    // by all rules behind those on types with these copies.
    ensures accepted { IfOk result (λ front. AreAccepted (program_of front.typed) front.copies.list.items) }
    // It is within the limits.
    ensures within { IfOk result (λ front. AreWithin limits (program_of front.typed) front.copies.list.items) }
    // It breaks no rule on main and the interrupt handler.
    ensures roots { IfOk result (λ front. broken_root (program_of front.typed) ≡ None) }
    // No function of it reaches itself.
    ensures recursion { IfOk result (λ front. IsAcyclic (graph_of (program_of front.typed))) }
    // This many words of the return stack its calls take, and there are eight.
    ensures depth { IfOk result (λ front. HasDepth (program_of front.typed) front.copies.depth × (front.copies.depth ≤ 8)) }
    // These are the copies of its functions.
    ensures list { IfOk result (λ front. AreCopies (program_of front.typed) front.copies.list.items) }
    // They are few.
    ensures few { IfOk result (λ front. length front.copies.list.items < 8192) }
    // Its objects and frames stand where they are to stand
    // below the top of memory,
    ensures below { IfOk result (λ front. placement.IsPlacingIn (placement.whole_below (program_of front.typed) limits.top_of_memory) (program_of front.typed) front.copies.list.items (map object_of front.placed.objects.items) (map frame_of front.placed.frames.items)) }
    // which is where they stand in the whole memory.
    ensures exact { IfOk result (λ front. placement.IsPlacing (program_of front.typed) front.copies.list.items (map object_of front.placed.objects.items) (map frame_of front.placed.frames.items)) }
    // Frames that may be live together are disjoint,
    ensures apart { IfOk result (λ front. placement.LiveFramesAreDisjoint (program_of front.typed) front.copies.list.items (map frame_of front.placed.frames.items)) }
    // and no frame overlaps a static object,
    ensures clear { IfOk result (λ front. placement.FramesAreClear (map object_of front.placed.objects.items) (map frame_of front.placed.frames.items)) }
    // nor does another static object.
    ensures objects { IfOk result (λ front. placement.ObjectsAreDisjoint (map object_of front.placed.objects.items)) }
    // Each address that is covered is counted once.
    ensures ram { IfOk result (λ front. front.placed.ram ≡ placement.addresses_covered (map object_of front.placed.objects.items) (map frame_of front.placed.frames.items)) }
    // Its blocks stand where they are to stand, and this is the sum of their words.
    ensures blocks { IfOk result (λ front. HasBlocks (program_of front.typed) front.copies.list.items front.at.items front.words) }
    // So what the passes behind these ask for is known of it.
    ensures founded { IfOk result (λ front. IsFounded front.typed front.copies.list.items front.placed front.at.items) }
{
    known(alloc, text, limits)
}

/// What is known of a text, or the first refusal that holds of it, within the limits of the whole chip.
#[tactic(auto, using(crate::proofs::Limited::front_told))]
pub fn front(alloc: Global, text: &[u8]) -> Result<Front, CompileError>
    // A text over 262,144 bytes is refused so.
    ensures text_limit { 262144 < length text.now → result ≡ Err (Refused (refusals.Limit kinds.Text 0)) }
    // What is accepted has a tree,
    ensures tree { IfOk result (λ _. HasTree text.now) }
    // and this is the typed program that the rules on names and types give to it.
    ensures typed { IfOk result (λ front. IsTypedAs text.now (program_of front.typed)) }
    // A refusal tells what it says of the text.
    ensures refused { IfErr result (TellsError text.now) }
    // The first refusal of the text's tokens is told, unless memory runs out.
    ensures tokens { (r : Refusal) → program_tokens text.now ≡ Err (Refused r) → IsRefusedUnless result r }
    // So the text is an accepted one,
    ensures taken { IfOk result (λ _. IsAcceptedText text.now) }
    // by all rules behind those on types with these copies.
    ensures accepted { IfOk result (λ front. AreAccepted (program_of front.typed) front.copies.list.items) }
    // It breaks no rule on main and the interrupt handler.
    ensures roots { IfOk result (λ front. broken_root (program_of front.typed) ≡ None) }
    // No function of it reaches itself.
    ensures recursion { IfOk result (λ front. IsAcyclic (graph_of (program_of front.typed))) }
    // This many words of the return stack its calls take, and there are eight.
    ensures depth { IfOk result (λ front. HasDepth (program_of front.typed) front.copies.depth × (front.copies.depth ≤ 8)) }
    // These are the copies of its functions.
    ensures list { IfOk result (λ front. AreCopies (program_of front.typed) front.copies.list.items) }
    // They are few.
    ensures few { IfOk result (λ front. length front.copies.list.items < 8192) }
    // Its objects and frames stand where they are to stand.
    ensures exact { IfOk result (λ front. placement.IsPlacing (program_of front.typed) front.copies.list.items (map object_of front.placed.objects.items) (map frame_of front.placed.frames.items)) }
    // Frames that may be live together are disjoint,
    ensures apart { IfOk result (λ front. placement.LiveFramesAreDisjoint (program_of front.typed) front.copies.list.items (map frame_of front.placed.frames.items)) }
    // and no frame overlaps a static object,
    ensures clear { IfOk result (λ front. placement.FramesAreClear (map object_of front.placed.objects.items) (map frame_of front.placed.frames.items)) }
    // nor does another static object.
    ensures objects { IfOk result (λ front. placement.ObjectsAreDisjoint (map object_of front.placed.objects.items)) }
    // Each address that is covered is counted once.
    ensures ram { IfOk result (λ front. front.placed.ram ≡ placement.addresses_covered (map object_of front.placed.objects.items) (map frame_of front.placed.frames.items)) }
    // Its blocks stand where they are to stand, and this is the sum of their words.
    ensures blocks { IfOk result (λ front. HasBlocks (program_of front.typed) front.copies.list.items front.at.items front.words) }
    // So what the passes behind these ask for is known of it.
    ensures founded { IfOk result (λ front. IsFounded front.typed front.copies.list.items front.placed front.at.items) }
{
    front_within(alloc, text, whole_chip())
}
