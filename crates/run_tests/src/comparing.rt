//! A program's run on the chip beside that of its source.

ghost use Rattle.std.specs.Prelude.{IfOk};
ghost use Rattle.run_tests.specs.Compiled.{IsCompiled};

use crate::chip_run::chip_run;
use pic_chip::Image;
use pic_world::{Event, Script};
use picc_core::{Built, compile};
use src_machine::{Source, SrcEnd};
use std::alloc::Global;
use std::process::Abort;
use std::test::Fail;

// How a source run ended within its steps.
#[derive(Clone, Copy)]
enum Ending {
    Idle,
    Undefined,
    Cut,
}

/// The most steps of a source run.
const MOST_STEPS: u32 = 100_000;

/// How many words of the image aren't as they are after erasing. No instruction that is made has that word.
pub fn real_words(image: &Image) -> u32 {
    let mut count: u32 = 0;
    for at in 0..8192 {
        if image.word(at) != 0x3fff {
            count = count.saturating_add(1);
        }
    }
    count
}

/// What a text is compiled to. Its words are at most those that are stated.
pub fn built(alloc: Global, text: &str) -> Result<Built, Fail>
    ensures { IfOk result IsCompiled }
{
    let Ok(built) = compile(alloc, text.as_bytes()) else {
        return Err(Fail::new("not built"));
    };
    if real_words(&built.image) > built.words {
        return Err(Fail::new("more words than are stated"));
    }
    Ok(built)
}

fn source_run(alloc: Global, built: &Built, script: &Script) -> Result<(Vec<Event>, Ending), Fail> {
    let mut events = Vec::new(alloc);
    let mut source = Source::new(alloc, &built.typed, &built.map)?;
    for _ in 0..MOST_STEPS {
        match source.step(script) {
            SrcEnd::Went(None) => {}
            SrcEnd::Went(Some(event)) => events.push(event)?,
            SrcEnd::Undefined { .. } => return Ok((events, Ending::Undefined)),
            SrcEnd::Idle => return Ok((events, Ending::Idle)),
        }
    }
    Ok((events, Ending::Cut))
}

/// Whether the chip's events are those of the source run: all of them where that one ends, and the front of them where it was
/// cut off.
fn same(chip: &[Event], source: &[Event], ending: Ending) -> bool {
    match ending {
        Ending::Idle => chip.len() == source.len() && source.starts_with(chip),
        Ending::Cut => source.starts_with(chip),
        Ending::Undefined => chip.starts_with(source),
    }
}

/// The events of the chip, those of the source whose handler is called where the arrivals fell, and how the source's run ended.
#[derive(Drop)]
struct Runs {
    chip: Vec<Event>,
    source: Vec<Event>,
    ending: Ending,
    depth: i64,
}

// Both runs, the chip's from a start whose unknown bytes are all this one.
fn both(
    alloc: Global,
    built: &Built,
    script: &Script,
    instructions: u32,
    byte: u8,
) -> Result<Runs, Fail> {
    let run = chip_run(alloc, &built.image, &built.map, script, instructions, byte)?;
    let schedule = Script::new(script.input.clone()?, run.arrived);
    let (source, ending) = source_run(alloc, built, &schedule)?;
    Ok(Runs {
        chip: run.events,
        source,
        ending,
        depth: run.depth,
    })
}

/// Whether a program that is compiled agrees with its source, from a start whose unknown bytes are all this one. The
/// instructions suffice for it to end, where it ends.
pub fn agrees(
    alloc: Global,
    built: &Built,
    script: &Script,
    instructions: u32,
    byte: u8,
) -> Result<bool, Fail> {
    let runs = both(alloc, built, script, instructions, byte)?;
    Ok(same(&runs.chip, &runs.source, runs.ending) && runs.depth <= 8)
}

/// The same of a program that goes on: whether the chip's events are the front of those of the source, and so many at least.
pub fn goes_as(
    alloc: Global,
    built: &Built,
    script: &Script,
    instructions: u32,
    least: usize,
) -> Result<bool, Fail> {
    let runs = both(alloc, built, script, instructions, 0x99)?;
    Ok(runs.source.starts_with(&runs.chip) && runs.chip.len() >= least && runs.depth <= 8)
}

/// Whether a text with these input bytes agrees with its source, from two starts.
pub fn agrees_twice(
    alloc: Global,
    text: &str,
    input: &[u8],
    instructions: u32,
) -> Result<bool, Fail> {
    let built = built(alloc, text)?;
    let script = Script::new(Vec::from_slice(alloc, input)?, Vec::new(alloc));
    let agrees_from_zeros = agrees(alloc, &built, &script, instructions, 0)?;
    Ok(agrees_from_zeros && agrees(alloc, &built, &script, instructions, 0xA5)?)
}

// Whether a text without input and arrivals agrees with its source for 12,000 instructions.
fn agrees_alone(alloc: Global, text: &str) -> Result<bool, Fail> {
    let built = built(alloc, text)?;
    let script = Script::new(Vec::new(alloc), Vec::new(alloc));
    agrees(alloc, &built, &script, 12_000, 0x5A)
}

/// A text without input and arrivals, run for 12,000 instructions.
pub fn check_text(rt: &impl Abort, alloc: Global, text: &str) -> Result<(), Fail> {
    assert!(rt; agrees_alone(alloc, text)?, "{text}");
    Ok(())
}
