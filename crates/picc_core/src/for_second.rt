//! From a text to the image of its program for the second chip, and the map of its memory.

ghost use Rattle.std.specs.Prelude.{◌≡◌, ◌<◌, ℕ, List, length, map, Err, IfOk, IfErr};
ghost use Rattle.c_typed.specs.Views.{program_of};
ghost use Rattle.headline.specs.SourceOf.{source_of, IsFaithfulAs};
ghost use Rattle.headline_84a.specs.OnSecondChip.{pic16f84a};
ghost use Rattle.pic_map.specs.MapView.{content_of, object_of, frame_of};
ghost use Rattle.picc_core.specs.Compiled.{HasOneAnswerOf, IsCompiledBy};
ghost use Rattle.picc_core.specs.Decided.{IsAcceptedBy};
ghost use Rattle.picc_core.specs.SecondChip as stated;
ghost use Rattle.picc_core.specs.SecondChip.{second, AreAcceptedSecond, HasFewWords, IsPlacedLow, TellsSecond};
ghost use Rattle.picc_core.specs.SecondMade.{IsFrontSecond, IsPortedTo, IsTranslatedSecond};
ghost use Rattle.picc_core.specs.Texts.{program_tokens};
ghost use Rattle.picc_core.specs.declared.for_second.Compile84Error.TheVariants.{NoMemory, Refused};
ghost use Rattle.picc_core.specs.declared.refusal.CompileError.TheVariants as first;
ghost use Rattle.picc_core.specs.declared.refusal.LimitKind.TheVariants as kinds;
ghost use Rattle.picc_core.specs.declared.refusal.Refusal.{Refusal};
ghost use Rattle.picc_core.specs.declared.refusal.Refusal.TheVariants as refusals;

use crate::compiling::built;
use crate::known::{Built, Front};
use crate::leaner::Saving;
use crate::limits::second_chip;
use crate::refusal::{CompileError, Refusal};
use crate::stages::front_within;
use chip_84a::port;
use named_registers::first_foreign;
use std::alloc::{AllocError, Global};

/// Why a text isn't compiled for the second chip.
#[derive(Drop)]
pub enum Compile84Error {
    NoMemory,
    Refused(Refusal),
    /// On this line the text names a device register that the chip doesn't have.
    Register { line: u32 },
}

impl From<AllocError> for Compile84Error {
    ghost from_gives = { λ _ e. e ≡ NoMemory };

    fn from(_: AllocError) -> Compile84Error {
        Compile84Error::NoMemory
    }
}

impl From<CompileError> for Compile84Error {
    ghost from_gives = { λ error e. e ≡ stated.of_compile error };

    fn from(error: CompileError) -> Compile84Error {
        match error {
            CompileError::NoMemory => Compile84Error::NoMemory,
            CompileError::Refused(refusal) => Compile84Error::Refused(refusal),
        }
    }
}

/// What is known of a text that is accepted for the second chip, or why it isn't.
fn front84(alloc: Global, text: &[u8]) -> Result<Front, Compile84Error>
    ensures known { IfOk result (IsFrontSecond text.now) }
    ensures refused { IfErr result (TellsSecond text.now) }
    ensures tokens { (r : Refusal) → program_tokens text.now ≡ Err (first.Refused r) → stated.IsRefusedUnless result r }
    ensures long { 262144 < length text.now → result ≡ Err (Refused (refusals.Limit kinds.Text 0)) }
{
    let front = front_within(alloc, text, second_chip())?;
    match first_foreign(&front.typed) {
        Some(line) => Err(Compile84Error::Register { line }),
        None => Ok(front),
    }
}

/// The same program on the second chip: its image is ported, and all else is as it was.
fn ported(alloc: Global, built: Built) -> Result<Built, AllocError>
    ensures { IfOk result (IsPortedTo built) }
{
    let Built {
        typed,
        image,
        map,
        words,
        ram,
        depth,
    } = built;
    let image = port(alloc, &image)?;
    Ok(Built {
        typed,
        image,
        map,
        words,
        ram,
        depth,
    })
}

/// What a text is compiled to for the second chip, or the first refusal that holds of it.
fn compiled84(alloc: Global, text: &[u8]) -> Result<Built, Compile84Error>
    ensures text_limit { 262144 < length text.now → result ≡ Err (Refused (refusals.Limit kinds.Text 0)) }
    ensures refused { IfErr result (TellsSecond text.now) }
    ensures tokens { (r : Refusal) → program_tokens text.now ≡ Err (first.Refused r) → stated.IsRefusedUnless result r }
    ensures whole { IfOk result (IsCompiledBy second text.now) }
    ensures translated { IfOk result (λ built. IsTranslatedSecond (program_of built.typed) built.image (content_of built.map)) }
{
    let front = front84(alloc, text)?;
    let made = built(alloc, front, Saving::Lean)?;
    let second = ported(alloc, made)?;
    Ok(second)
}

/// What a text is compiled to for the second chip, or the first refusal that holds of it. The order is that of `front_within`, with the limits of
/// that chip, and behind all others comes the first line on which the text names a register that the chip doesn't have.
pub fn compile84(alloc: Global, text: &[u8]) -> Result<Built, Compile84Error>
    // A text over 262,144 bytes is refused so.
    ensures text_limit { 262144 < length text.now → result ≡ Err (Refused (refusals.Limit kinds.Text 0)) }
    // A refusal tells what it says of the text.
    ensures refused { IfErr result (TellsSecond text.now) }
    // The first refusal of the text's tokens is told, unless memory runs out.
    ensures tokens { (r : Refusal) → program_tokens text.now ≡ Err (first.Refused r) → stated.IsRefusedUnless result r }
    // What is compiled is accepted,
    ensures taken { IfOk result (λ _. IsAcceptedBy AreAcceptedSecond text.now) }
    // and its objects and frames stand where they are to stand, from 20h to 4Fh.
    ensures map { IfOk result (λ built. IsPlacedLow (program_of built.typed) (map object_of built.map.objects.items) (map frame_of built.map.frames.items)) }
    // This is the sum of the stated words of all blocks, which are at most 1,024.
    ensures words { IfOk result (λ built. HasFewWords (program_of built.typed) built.words) }
    // What the image does on the second chip, seen by the map, is what the program says.
    ensures faithful { IfOk result (λ built. IsFaithfulAs pic16f84a source_of (program_of built.typed) (content_of built.map) built.image) }
    // All this together, with all that is known of what `compile` makes of any text but its image.
    ensures whole { IfOk result (IsCompiledBy second text.now) }
    // Beside it: the image and the map are what the passes make of the program, with the operands of that chip. None of the clauses above
    // speaks of passes.
    ensures translated { IfOk result (λ built. IsTranslatedSecond (program_of built.typed) built.image (content_of built.map)) }
{
    compiled84(alloc, text)
}

/// Of a text that is accepted for the second chip no refusal is told, and of any other one at most, but for the line of `Syntax`, which is free.
pub fn accepted_or_refused84()
    ensures { (text : List ℕ) → HasOneAnswerOf second text }
{}
