//! The words of a command line, as a simple command of `clap` reads them.
#![tactic(auto)]

ghost use Rattle.std.specs.Prelude.{◌≡◌, ◌≢◌, ◌≤◌, length, [], None, Some, Err, codes, map, unwrap_or, IfOk, IfErr, OnOk};
ghost use Rattle.clap.specs.Faults.{fault_of};
ghost use Rattle.clap.specs.Matches.{found_of};
ghost use Rattle.clap.specs.Simple.{app_of, matches_of};
ghost use Rattle.clap.specs.Walk.{all_of, rows_of};
ghost use Rattle.program_words.specs.Parser.{parser};
ghost use Rattle.program_words.specs.Words.{texts, remaining};

use clap::error::ErrorKind;
use clap::{Arg, ArgAction, ArgMatches, Command};
use std::alloc::{AllocError, Global};

/// Why words are not taken.
#[derive(Clone, Copy, Debug, PartialEq, Eq)]
pub enum WordFault {
    /// A flag stands before the first `--`.
    BadWords,
    /// Memory was wanted.
    NoMemory,
}

/// The command that takes any words.
fn word_parser<'a>(alloc: Global) -> Result<Command<'a>, AllocError>
    ensures { IfOk result (λ command. app_of command ≡ parser) }
{
    let word = Arg::new(alloc, "word")
        .action(ArgAction::Append)
        .num_args(0..);
    let command = Command::new(alloc, "words")
        .no_binary_name(true)
        .disable_help_flag(true)
        .disable_help_subcommand(true)
        .disable_version_flag(true)
        .arg(word)?;
    Ok(command)
}

/// The matches of the words.
fn parse<'a>(alloc: Global, words: &'a [String]) -> Result<ArgMatches<'a>, WordFault>
    ensures taken { OnOk result (fault_of parser (texts words.entry.now) ≡ []) }
    ensures matches { IfOk result (λ matches. rows_of (found_of matches) ≡ matches_of parser (texts words.entry.now)) }
    ensures few { length words.entry.now ≤ 18446744073709551615 }
    ensures refused { result ≡ Err WordFault.BadWords → fault_of parser (texts words.entry.now) ≢ [] }
{
    let Ok(command) = word_parser(alloc) else {
        return Err(WordFault::NoMemory);
    };
    match command.try_get_matches_from(words) {
        Ok(matches) => Ok(matches),
        Err(error) => {
            if error.kind() == ErrorKind::OutOfMemory {
                Err(WordFault::NoMemory)
            } else {
                Err(WordFault::BadWords)
            }
        }
    }
}

/// A list of the same words.
fn list_of<'a>(alloc: Global, words: &[&'a str]) -> Result<Vec<&'a str>, WordFault>
    ensures list { IfOk result (λ list. map (λ word. word.now) list.items ≡ map (λ word. word.now) words.now) }
    ensures memory { IfErr result (λ fault. fault ≡ WordFault.NoMemory) }
{
    let mut list = Vec::new(alloc);
    match list.extend_from_slice(words) {
        Ok(()) => Ok(list),
        Err(_) => Err(WordFault::NoMemory),
    }
}

/// The words among the matches.
fn matched_words<'a>(alloc: Global, matches: &ArgMatches<'a>) -> Result<Vec<&'a str>, WordFault>
    ensures list { IfOk result (λ list. map (λ word. word.now) list.items
        ≡ unwrap_or (all_of (codes "word") (rows_of (found_of matches.now))) []) }
    ensures memory { IfErr result (λ fault. fault ≡ WordFault.NoMemory) }
{
    match matches.get_raw("word") {
        Some(words) => list_of(alloc, words),
        None => Ok(Vec::new(alloc)),
    }
}

/// The words that remain of a command line without the program's name: the first `--` is taken out, and before it a
/// word that begins with `-` and has more behind it is refused. No word asks for help or for a version.
pub fn read_words<'a>(alloc: Global, words: &'a [String]) -> Result<Vec<&'a str>, WordFault>
    ensures words { IfOk result (λ read. remaining (texts words.entry.now) ≡ Some (map (λ word. word.now) read.items)) }
    ensures bad_words { result ≡ Err WordFault.BadWords → remaining (texts words.entry.now) ≡ None }
{
    match parse(alloc, words) {
        Ok(matches) => matched_words(alloc, &matches),
        Err(fault) => Err(fault),
    }
}

pub mod arguments;
