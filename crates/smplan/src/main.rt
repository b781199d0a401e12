//! The program: one word says what is reported of the document on standard input.
#![tactic(auto)]

ghost use Rattle.std.specs.Prelude.{◌≡◌, IfOk, map, string_bytes};

use sm_command_line::{LineFault, Word, command_of, report_word};
use sm_report::Status;
use std::alloc::{AllocError, Global};
use std::io::ErrorKind;
use std::process::ExitCode;
use std::{env, io};

/// Returns the words after the program's name.
fn words_of(rt: &HostRuntime) -> io::Result<Vec<String>> {
    let mut words = Vec::new(rt.alloc());
    for word in env::args(rt)?.skip(1) {
        words.push(word)?;
    }
    Ok(words)
}

/// Returns the texts of words.
fn texts_of<'a>(alloc: Global, words: &'a [String]) -> Result<Vec<&'a str>, AllocError>
    ensures { IfOk result (λ texts. map (λ text. text.now) texts.items ≡ map string_bytes words.now) }
{
    let mut texts = Vec::new(alloc);
    for word in words {
        texts.push(word.as_str())?;
    }
    Ok(texts)
}

/// Returns what the words ask for. If they ask for nothing, writes the text for them, and returns how the program ends.
fn word_named(rt: &HostRuntime, words: &[&str]) -> Result<Word, Status> {
    match command_of(rt.alloc(), words) {
        Ok(word) => Ok(word),
        Err(LineFault::NoMemory) => Err(Status::NoMemory),
        Err(LineFault::Help { text }) => match rt.print(text.as_str()) {
            Ok(()) => Err(Status::Done),
            Err(_) => Err(Status::WriteFailed),
        },
        Err(LineFault::Bad { text }) => {
            let _ = rt.eprint(text.as_str());
            Err(Status::BadInput)
        }
    }
}

/// Returns what the command line asks for. If it asks for nothing, writes the text for it, and returns how the program
/// ends.
fn word_of(rt: &HostRuntime) -> Result<Word, Status> {
    let words = match words_of(rt) {
        Ok(words) => words,
        Err(fault) => {
            if fault.kind() == ErrorKind::OutOfMemory {
                return Err(Status::NoMemory);
            }
            let _ = rt.eprintln("error: a word of the command line is not UTF-8");
            return Err(Status::BadInput);
        }
    };
    match texts_of(rt.alloc(), words.as_slice()) {
        Ok(texts) => word_named(rt, texts.as_slice()),
        Err(_) => Err(Status::NoMemory),
    }
}

/// Returns the line for standard error if a report was not made or not written whole. Any other report says itself how
/// the command ended.
fn told_of(status: Status) -> Option<&'static str> {
    match status {
        Status::NoMemory => Some("error: out of memory"),
        Status::ReadFailed => Some("error: standard input could not be read to its end"),
        Status::WriteFailed => Some("error: standard output could not be written"),
        Status::Done | Status::Refused | Status::BadInput | Status::NoThread => None,
    }
}

fn main(rt: HostRuntime) -> ExitCode {
    let status = match word_of(&rt) {
        Ok(word) => report_word(&rt, word, &mut rt.reader(), &mut io::writer(&rt)),
        Err(status) => status,
    };
    if let Some(text) = told_of(status) {
        let _ = rt.eprintln(text);
    }
    ExitCode::from(status.code())
}
