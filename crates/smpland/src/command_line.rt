//! The command line.
ghost use Rattle.std.specs.Prelude.{◌≡◌, ℕ, false, true, List, [], ◌∷◌, Some, IfOk, IfErr, MatchResult, option_map};
ghost use Rattle.clap.specs.Words.{app_of, fault_of, kind_of, rule_of, takes};
ghost use Rattle.clap.specs.Walk.{texts};
ghost use Rattle.smpland.specs.CommandLine.{IsName, Names, TellsErrorKind, TellsWords};
ghost use Rattle.smpland.specs.CommandLine.{journal_in, journal_word, own_command};

use clap::error::ErrorKind;
use clap::{Arg, ArgAction, Command, Error};
use std::alloc::{AllocError, Global};

/// The task that the words behind the program's name ask for.
#[derive(Clone, Copy, Debug)]
pub enum Asked<'a> {
    /// To serve lines whose host keeps them: the input is the journal.
    Input,
    /// To serve lines, and to keep those that change something in this file.
    Journal(&'a str),
}

/// Why words ask for nothing.
#[derive(Debug, Drop)]
pub enum LineFault {
    /// Memory was short.
    NoMemory,
    /// Help or the version was asked for.
    Told { text: String },
    /// The words are no command line of the program.
    Bad { text: String },
}

/// The word that names the journal.
fn journal_word<'a>(alloc: Global) -> Arg<'a>
    ensures word { rule_of result ≡ journal_word }
    ensures alone { result.global ≡ false }
{
    Arg::new(alloc, "JOURNAL")
        .help(
            "The file that keeps the journal; - keeps none, for a host that stores each line before it comes",
        )
        .required(true)
        .action(ArgAction::Set)
}

/// The command line: one word, a journal.
fn parser<'a>(alloc: Global) -> Result<Command<'a>, AllocError>
    ensures { IfOk result (λ p. app_of p ≡ own_command) }
{
    Command::new(alloc, "smpland")
        .bin_name("smpland")?
        .version("1")
        .about(
            "Drives servers that move shards: reads a JSON object a line on standard input, and writes a line of reply for each",
        )
        .no_binary_name(true)
        .arg(journal_word(alloc))
}

/// What an error of the command line tells.
fn fault_in(alloc: Global, error: &Error) -> LineFault
    ensures { TellsErrorKind result (kind_of error.now) }
{
    let Ok(text) = error.to_string(alloc) else {
        return LineFault::NoMemory;
    };
    match error.kind() {
        ErrorKind::OutOfMemory => LineFault::NoMemory,
        ErrorKind::DisplayHelp | ErrorKind::DisplayVersion => LineFault::Told { text },
        _ => LineFault::Bad { text },
    }
}

/// What is asked for by the name of a journal.
fn asked_by<'a>(name: Option<&'a str>) -> Asked<'a>
    ensures { Names result (option_map (λ text. text.now) name.entry) }
{
    match name {
        Some("-") | None => Asked::Input,
        Some(path) => Asked::Journal(path),
    }
}

/// What the words behind the program's name ask for.
pub fn asked_for<'a>(alloc: Global, words: &'a [&'a str]) -> Result<Asked<'a>, LineFault>
    ensures named { IfOk result (λ asked. Names asked (journal_in (texts words.now))) }
    // Words that are taken ask for something, unless memory runs out. One name is.
    ensures taken { takes own_command (texts words.now) ≡ true → IfErr result (λ fault. fault ≡ LineFault.NoMemory) }
    ensures one { (name : List ℕ) → IsName name → texts words.now ≡ name ∷ []
        → MatchResult result (λ asked. Names asked (Some name)) (λ fault. fault ≡ LineFault.NoMemory) }
    ensures faults { IfErr result (λ fault. TellsWords fault (fault_of own_command (texts words.now))) }
{
    let Ok(mut parser) = parser(alloc) else {
        return Err(LineFault::NoMemory);
    };
    match parser.try_get_matches_from_mut(words) {
        Ok(found) => Ok(asked_by(found.get_str("JOURNAL"))),
        Err(error) => Err(fault_in(alloc, &error)),
    }
}
