//! The words of the command line, as clap parses them.
//!
//! For a command as plain as this one clap's clauses say which words it takes and what it finds in them, in both outcomes.
//! The proof goes by them alone, so what clap finds isn't compared with the words again. Nothing that clap adds to a command
//! is accepted: words that begin with `-` don't come here, and the command has no options and no subcommand `help`.

ghost use Rattle.std.specs.Prelude.{◌≡◌, true, None, length, IfOk};
ghost use Rattle.std.specs.List.{list_all};
ghost use Rattle.std.specs.Option.{MatchOption};
ghost use Rattle.clap.specs.Simple.{with_subcommand};
ghost use Rattle.clap.specs.Words.{app_of};
ghost use Rattle.picc_cli.specs.Command as stated;
ghost use Rattle.picc_cli.specs.Command.{form_by_name, words_of};
ghost use Rattle.picc_cli.specs.Clap.{words_found, IsSubcommand, forms_app, subcommand_shape};

use clap::error::ErrorKind;
use clap::{Arg, ArgMatches};
use std::alloc::{AllocError, Global};

/// A word that isn't empty and doesn't begin with `-`, so that it is no option for clap.
pub fn is_name(word: &str) -> bool
    ensures { result ≡ stated.is_name word.now }
{
    match word.as_bytes() {
        [] => false,
        [first, ..] => *first != b'-',
    }
}

/// Whether no word is empty or begins with `-`.
pub fn all_names(words: &[String]) -> bool
    ensures { result ≡ list_all stated.is_name (words_of words.now) }
{
    let mut left = words;
    while let [first, rest @ ..] = left {
        if !is_name(first.as_str()) {
            return false;
        }
        left = rest;
    }
    true
}

/// Parses words by one command with eight subcommands, whose arguments are all positional texts: the subcommand's name and
/// the words after it, or `None` where they are of no form. `Err` is out of memory.
pub fn parsed<'a>(alloc: Global, words: &'a [String]) -> Result<Option<ArgMatches<'a>>, AllocError>
    requires { list_all stated.is_name (words_of words.now) ≡ true }
    ensures { IfOk result (λ found. MatchOption found (form_by_name (words_of words.now) ≡ None) (λ m. words_found m ≡ words_of words.now)) }
{
    let line = forms(alloc)?;
    match line.try_get_matches_from(words) {
        Ok(matches) => Ok(Some(matches)),
        Err(error) if error.kind() == ErrorKind::OutOfMemory => Err(AllocError),
        Err(_) => Ok(None),
    }
}

/// The command line, without the options and the subcommand for help that clap would add: the eight forms, each with the names of its
/// places.
fn forms<'a>(alloc: Global) -> Result<clap::Command<'a>, AllocError>
    ensures { IfOk result (λ line. app_of line ≡ forms_app) }
{
    let line = clap::Command::new(alloc, "picc")
        .no_binary_name(true)
        .disable_help_flag(true)
        .disable_help_subcommand(true);
    let line = with_form(alloc, line, "build", &["IN", "OUT", "MAP"])?;
    let line = with_form(alloc, line, "trace", &["IN", "SCRIPT", "M"])?;
    let line = with_form(alloc, line, "sim", &["HEX", "MAP", "SCRIPT", "N"])?;
    let line = with_form(alloc, line, "agree", &["IN", "SCRIPT", "N"])?;
    let line = with_form(alloc, line, "gen", &["K"])?;
    let line = with_form(alloc, line, "check", &["HEX"])?;
    let line = with_form(alloc, line, "build84", &["IN", "OUT", "MAP"])?;
    with_form(alloc, line, "sim84", &["HEX", "MAP", "SCRIPT", "N"])
}

/// The command line with one form more, of this name, with a word for each of these places.
fn with_form<'a>(
    alloc: Global,
    line: clap::Command<'a>,
    name: &'a str,
    places: &'a [&'a str],
) -> Result<clap::Command<'a>, AllocError>
    ensures { IfOk result (λ longer. app_of longer ≡ with_subcommand (app_of line.entry) (subcommand_shape name.entry.now (length places.entry.now))) }
{
    let form = subcommand(alloc, name, places)?;
    line.subcommand(form)
}

/// The subcommand of this name, with a word for each of these places.
fn subcommand<'a>(
    alloc: Global,
    name: &'a str,
    places: &'a [&'a str],
) -> Result<clap::Command<'a>, AllocError>
    ensures { IfOk result (IsSubcommand name.entry.now (length places.entry.now)) }
{
    let words = Arg::new(alloc, "words").value_names(places).required(true);
    clap::Command::new(alloc, name).arg(words)
}
