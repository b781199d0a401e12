//! The program: a controller in a process, one JSON object a line.
#![tactic(auto)]

mod command_line;
mod keeper;
mod served;
mod serving;
mod status;

ghost use Rattle.std.specs.Prelude.{◌≡◌, false, IfOk, map, string_bytes};
ghost use Rattle.clap.specs.Words.{takes};
ghost use Rattle.smpland.specs.CommandLine.{own_command};
ghost use Rattle.smpland.specs.Endings.{EndsUnasked};

use command_line::{Asked, LineFault, asked_for};
use served::{serve_input, serve_journal};
use status::Status;
use std::alloc::{AllocError, Global};
use std::io::ErrorKind;
use std::process::ExitCode;
use std::{env, io};

/// The words behind the program's name.
fn words_of(rt: &HostRuntime) -> io::Result<Vec<String>> {
    let mut words = Vec::new(rt.alloc());
    for word in env::args(rt)?.skip(1) {
        words.push(word)?;
    }
    Ok(words)
}

/// The texts of words.
fn texts_of<'a>(alloc: Global, words: &'a [String]) -> Result<Vec<&'a str>, AllocError>
    ensures { IfOk result (λ texts. map (λ text. text.now) texts.items ≡ map string_bytes words.now) }
{
    let mut texts = Vec::new(alloc);
    for word in words {
        texts.push(word.as_str())?;
    }
    Ok(texts)
}

/// Tells what is said of words that ask for nothing. The end of the program.
fn told(rt: &HostRuntime, fault: LineFault) -> Status
    ensures { EndsUnasked fault result }
{
    match fault {
        LineFault::NoMemory => Status::NoMemory,
        LineFault::Told { text } => match rt.print(text.as_str()) {
            Ok(()) => Status::Done,
            Err(_) => Status::Failed,
        },
        LineFault::Bad { text } => {
            let _ = rt.eprint(text.as_str());
            Status::BadWords
        }
    }
}

/// Serves what the words ask for. The end of the program.
fn serve_words(rt: &HostRuntime, words: &[String]) -> Status
    // Words that the command line takes are not called bad.
    ensures { result ≡ Status.BadWords → takes own_command (map string_bytes words.now) ≡ false }
{
    let Ok(texts) = texts_of(rt.alloc(), words) else {
        return Status::NoMemory;
    };
    match asked_for(rt.alloc(), texts.as_slice()) {
        Ok(Asked::Input) => serve_input(rt),
        Ok(Asked::Journal(path)) => serve_journal(rt, path),
        Err(fault) => told(rt, fault),
    }
}

fn main(rt: HostRuntime) -> ExitCode {
    let status = match words_of(&rt) {
        Ok(words) => serve_words(&rt, words.as_slice()),
        Err(fault) if fault.kind() == ErrorKind::OutOfMemory => Status::NoMemory,
        Err(_) => {
            let _ = rt.eprintln("error: a word of the command line is not UTF-8");
            Status::BadWords
        }
    };
    if status == Status::NoMemory {
        let _ = rt.eprintln("error: out of memory");
    }
    ExitCode::from(status.code())
}
