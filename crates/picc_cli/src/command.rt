//! The words of the command line.

ghost use Rattle.std.specs.Prelude.{◌≡◌, ◌∷◌, map, option_map, IfOk};
ghost use Rattle.picc_cli.specs.Command as stated;
ghost use Rattle.picc_cli.specs.Command.{form_of, form_by_name, words_of};
ghost use Rattle.picc_cli.specs.CommandView.{form_view};
ghost use Rattle.picc_cli.specs.Clap.{words_found};

use crate::parsing::{all_names, parsed};
use clap::ArgMatches;
use pic_chip::Profile;
use std::alloc::{AllocError, Global};

/// A build: the chip that it is for, the C text that is read, and the HEX and the map that are written.
#[derive(Clone, Copy)]
pub struct Files<'a> {
    pub chip: Profile,
    pub input: &'a str,
    pub output: &'a str,
    pub map: &'a str,
}

/// What a trace is asked for: the C text and the script that are read, and how many steps are taken at most.
#[derive(Clone, Copy)]
pub struct Asked<'a> {
    pub input: &'a str,
    pub script: &'a str,
    pub steps: u32,
}

/// What is simulated: the chip, the HEX, its map and the script that are read, and how many instructions are run.
#[derive(Clone, Copy)]
pub struct Simulated<'a> {
    pub chip: Profile,
    pub hex: &'a str,
    pub map: &'a str,
    pub script: &'a str,
    pub instructions: u32,
}

/// What is compared: the C text and the script that are read, and how many instructions of the chip are run at most.
#[derive(Clone, Copy)]
pub struct Compared<'a> {
    pub input: &'a str,
    pub script: &'a str,
    pub instructions: u32,
}

/// A command of one of the eight forms: those of a build and of a simulation say for which chip.
#[derive(Clone, Copy)]
pub enum Command<'a> {
    Build(Files<'a>),
    Trace(Asked<'a>),
    Simulate(Simulated<'a>),
    Agree(Compared<'a>),
    /// The size of the program that is generated, 1 to 64.
    Generate(u32),
    /// The HEX of which the depth of the return stack is checked.
    Check(&'a str),
}

/// The most steps that a trace can be asked for.
const MOST_STEPS: u32 = 1_000_000;

/// The most instructions that can be simulated.
const MOST_SIMULATED: u32 = 1_000_000;

/// The most instructions that can be compared with the source.
const MOST_COMPARED: u32 = 100_000;

/// The largest program that can be generated.
const LARGEST: u32 = 64;

/// The command `build IN OUT MAP`, `trace IN SCRIPT M`, `sim HEX MAP SCRIPT N`, `agree IN SCRIPT N`, `gen K`, `check HEX`,
/// `build84 IN OUT MAP` or `sim84 HEX MAP SCRIPT N`, or `None` where the words are of no form. No word is empty or begins with `-`, and
/// the three names of a build differ. A number is one to ten decimal digits: M and the N of `sim` and `sim84` are at most 1,000,000, the
/// N of `agree` is at most 100,000, and K is 1 to 64. `Err` is out of memory.
pub fn command_of(alloc: Global, words: &[String]) -> Result<Option<Command<'_>>, AllocError>
    ensures { IfOk result (λ command. option_map form_view command ≡ form_of (words_of words.now)) }
{
    if !all_names(words) {
        return Ok(None);
    }
    match parsed(alloc, words)? {
        Some(matches) => Ok(command_found(&matches)),
        None => Ok(None),
    }
}

/// The command of words that were parsed.
fn command_found<'a>(matches: &ArgMatches<'a>) -> Option<Command<'a>>
    ensures { option_map form_view result ≡ form_by_name (words_found matches.now) }
{
    match matches.subcommand() {
        Some((name, inner)) => match inner.get_raw("words") {
            Some(values) => command_in(name, values),
            None => command_in(name, &[]),
        },
        None => None,
    }
}

/// The command of this name with these words after it.
#[tactic(auto, unfolding(crate::specs::Command::form_by_name))]
fn command_in<'a>(name: &str, values: &[&'a str]) -> Option<Command<'a>>
    ensures { option_map form_view result ≡ form_by_name (name.now ∷ map (λ v. v.now) values.now) }
{
    if name == "build" {
        return build_in(Profile::Pic16F877a, values);
    }
    if name == "trace" {
        return trace_in(values);
    }
    if name == "sim" {
        return simulate_in(Profile::Pic16F877a, values);
    }
    if name == "agree" {
        return agree_in(values);
    }
    if name == "gen" {
        return generate_in(values);
    }
    if name == "check" {
        return check_in(values);
    }
    if name == "build84" {
        return build_in(Profile::Pic16F84a, values);
    }
    if name == "sim84" {
        return simulate_in(Profile::Pic16F84a, values);
    }
    None
}

fn build_in<'a>(chip: Profile, values: &[&'a str]) -> Option<Command<'a>>
    ensures { option_map form_view result ≡ stated.build_of chip (map (λ v. v.now) values.now) }
{
    let [input, output, map] = values else {
        return None;
    };
    let files = Files {
        chip,
        input: *input,
        output: *output,
        map: *map,
    };
    if differ(files) {
        Some(Command::Build(files))
    } else {
        None
    }
}

fn trace_in<'a>(values: &[&'a str]) -> Option<Command<'a>>
    ensures { option_map form_view result ≡ stated.trace_of (map (λ v. v.now) values.now) }
{
    let [input, script, steps] = values else {
        return None;
    };
    let steps = number_in(*steps, MOST_STEPS)?;
    Some(Command::Trace(Asked {
        input: *input,
        script: *script,
        steps,
    }))
}

fn simulate_in<'a>(chip: Profile, values: &[&'a str]) -> Option<Command<'a>>
    ensures { option_map form_view result ≡ stated.simulate_of chip (map (λ v. v.now) values.now) }
{
    let [hex, map, script, instructions] = values else {
        return None;
    };
    let instructions = number_in(*instructions, MOST_SIMULATED)?;
    Some(Command::Simulate(Simulated {
        chip,
        hex: *hex,
        map: *map,
        script: *script,
        instructions,
    }))
}

fn agree_in<'a>(values: &[&'a str]) -> Option<Command<'a>>
    ensures { option_map form_view result ≡ stated.agree_of (map (λ v. v.now) values.now) }
{
    let [input, script, instructions] = values else {
        return None;
    };
    let instructions = number_in(*instructions, MOST_COMPARED)?;
    Some(Command::Agree(Compared {
        input: *input,
        script: *script,
        instructions,
    }))
}

fn generate_in<'a>(values: &[&str]) -> Option<Command<'a>>
    ensures { option_map form_view result ≡ stated.generate_of (map (λ v. v.now) values.now) }
{
    let [size] = values else {
        return None;
    };
    let size = number_in(*size, LARGEST)?;
    if size > 0 {
        Some(Command::Generate(size))
    } else {
        None
    }
}

fn check_in<'a>(values: &[&'a str]) -> Option<Command<'a>>
    ensures { option_map form_view result ≡ stated.check_of (map (λ v. v.now) values.now) }
{
    let [hex] = values else {
        return None;
    };
    Some(Command::Check(*hex))
}

fn differ(files: Files<'_>) -> bool
    ensures { result ≡ stated.differ files.entry.input.now files.entry.output.now files.entry.map.now }
{
    files.input != files.output && files.input != files.map && files.output != files.map
}

/// The number that a word spells by one to ten decimal digits, where it is at most `most`.
fn number_in(word: &str, most: u32) -> Option<u32>
    ensures { result ≡ stated.number_in most word.now }
{
    let digits = word.as_bytes();
    if digits.is_empty() || digits.len() > 10 || !all_digits(digits) {
        return None;
    }
    number_of(digits, most)
}

fn all_digits(text: &[u8]) -> bool
    ensures { result ≡ stated.all_digits text.now }
{
    text.iter().all(|c| c.is_ascii_digit())
}

/// The number that decimal digits spell, where it is at most `most`.
#[tactic(auto, unfolding(crate::specs::Command::number_onto))]
fn number_of(digits: &[u8], most: u32) -> Option<u32>
    ensures { result ≡ stated.number_onto most 0 digits.now }
{
    let mut number = 0u32;
    let mut left = digits;
    while let [first, rest @ ..] = left {
        let longer = 10 * number as u64 + first.saturating_sub(b'0') as u64;
        if longer > most as u64 {
            return None;
        }
        number = longer as u32;
        left = rest;
    }
    Some(number)
}
