//! The words of the command line.
ghost use Rattle.std.specs.Prelude.{◌≡◌, ◌≢◌, Some, None, IfOk, IfErr, map};
ghost use Rattle.clap.specs.Words.{app_of, fault_of, kind_of};
ghost use Rattle.clap.specs.Walk.{texts};
ghost use Rattle.sm_command_line.specs.CommandLine.{command_named, word_named, asked_for, wordless, first_words};
ghost use Rattle.sm_command_line.specs.CommandLine.{program, Tells, TellsKind};

use clap::error::ErrorKind;
use clap::{Command as Parser, Error as ParserError};
use sm_report::Command;
use std::alloc::{AllocError, Global};
use thiserror::Error;

/// The task that the words after the program's name ask for.
#[derive(Clone, Copy, Debug, PartialEq, Eq)]
pub enum Word {
    Report(Command),
    Run,
}

/// Why the words ask for nothing.
#[derive(Debug, Drop, Error)]
pub enum LineFault {
    /// Memory was short.
    #[error("out of memory")]
    NoMemory,
    /// Help was asked for.
    #[error("{text}")]
    Help { text: String },
    /// The words are no command line of the program.
    #[error("{text}")]
    Bad { text: String },
}

/// Describes the program, with no word yet.
fn wordless<'a>(alloc: Global) -> Result<Parser<'a>, AllocError>
    ensures { IfOk result (λ p. app_of p ≡ wordless) }
{
    let parser = Parser::new(alloc, "smplan")
        .bin_name("smplan")?
        .about(
            "Reads a JSON document of a placement on standard input (smplan COMMAND < FILE), and prints a report of it. docs/FORMATS.md of its repository describes documents, and examples/ has some",
        )
        .no_binary_name(true)
        .subcommand_required(true);
    Ok(parser)
}

/// Returns the words for calls and for checks.
fn first_words<'a>(alloc: Global) -> Result<Parser<'a>, AllocError>
    ensures { IfOk result (λ p. app_of p ≡ first_words) }
{
    let calls = Parser::new(alloc, "calls").about(
        "Makes the calls of the document on standard input, and prints their answers and the placement after them",
    );
    let check = Parser::new(alloc, "check").about(
        "Checks the plan of the document on standard input, and prints that it is accepted or why it is not",
    );
    wordless(alloc)?.subcommand(calls)?.subcommand(check)
}

/// Describes the command line: one word, the name of a command.
fn parser<'a>(alloc: Global) -> Result<Parser<'a>, AllocError>
    ensures { IfOk result (λ p. app_of p ≡ program) }
{
    let play = Parser::new(alloc, "play").about(
        "Plays the events of the document on standard input, and prints their answers, how far its plans have come, and the placement after them",
    );
    let plan = Parser::new(alloc, "plan").about(
        "Makes a plan for the moves of the document on standard input, or one that empties a server, and prints it or why there is none",
    );
    let run = Parser::new(alloc, "run").about(
        "Runs the plan of the document on standard input with a thread for each stream, and prints what each came to, the answers to the document's asks, and the placement at the end",
    );
    first_words(alloc)?
        .subcommand(play)?
        .subcommand(plan)?
        .subcommand(run)
}

/// Returns the text of an error of the command line.
fn fault_in(alloc: Global, error: &ParserError) -> LineFault
    ensures { TellsKind result (kind_of error.now) }
{
    let Ok(text) = error.to_string(alloc) else {
        return LineFault::NoMemory;
    };
    match error.kind() {
        ErrorKind::OutOfMemory => LineFault::NoMemory,
        ErrorKind::DisplayHelp => LineFault::Help { text },
        _ => LineFault::Bad { text },
    }
}

/// Returns the command with this name.
fn command_named(name: &str) -> Option<Command>
    ensures { result ≡ command_named name.now }
{
    if name == "calls" {
        Some(Command::Calls)
    } else if name == "check" {
        Some(Command::Check)
    } else if name == "play" {
        Some(Command::Play)
    } else if name == "plan" {
        Some(Command::Plan)
    } else {
        None
    }
}

/// Returns what a word asks for, if it is the name of a command.
fn word_named(word: &str) -> Option<Word>
    ensures { result ≡ word_named word.now }
{
    if word == "run" {
        Some(Word::Run)
    } else {
        command_named(word).map(Word::Report)
    }
}

/// Returns what the words ask for, if they are the name of a command and nothing else.
fn asked_for(words: &[&str]) -> Option<Word>
    ensures { result ≡ asked_for (texts words.now) }
{
    match words {
        [word] => word_named(word),
        _ => None,
    }
}

/// Returns what the words after the program's name ask for.
///
/// The texts of help and of faults are `clap`'s.
pub fn command_of(alloc: Global, words: &[&str]) -> Result<Word, LineFault>
    ensures ok { IfOk result (λ word. asked_for (texts words.now) ≡ Some word) }
    ensures known { asked_for (texts words.now) ≢ None → IfErr result (λ fault. fault ≡ LineFault.NoMemory) }
    ensures faults { IfErr result (λ fault. Tells fault (fault_of program (texts words.now))) }
{
    let Ok(mut parser) = parser(alloc) else {
        return Err(LineFault::NoMemory);
    };
    if let Err(error) = parser.try_get_matches_from_mut(words) {
        return Err(fault_in(alloc, &error));
    }
    if let Some(word) = asked_for(words) {
        return Ok(word);
    }
    match parser.error(
        ErrorKind::UnknownArgument,
        "a command is named by one word, with nothing after it",
    ) {
        Ok(error) => Err(fault_in(alloc, &error)),
        Err(_) => Err(LineFault::NoMemory),
    }
}
