//! Lines that come on standard input.
ghost use Rattle.std.specs.Prelude.{◌≡◌, ◌≢◌, IfErr};
ghost use Rattle.smpland.specs.Endings.{served_end, unopened_end, unrecovered_end};

use crate::serving::{serve_given, serve_kept};
use crate::status::Status;
use journal_lines::journal_head;
use journal_serve::{Journal, RecoverFault, ResumeFault, ServeFault};
use journal_store::{FileStore, HostDisk, OpenFailure};
use std::fs::File;
use std::io;

/// The end of the program when lines were served. What has failed is told. The journal has this path.
fn ending(rt: &HostRuntime, path: &str, served: Result<(), ServeFault>) -> Status
    ensures { result ≡ served_end served }
{
    match served {
        Ok(()) => return Status::Done,
        Err(ServeFault::NoMemory) => return Status::NoMemory,
        Err(ServeFault::NotKept(failure)) => {
            let _ = eprintln!(rt; "error: {path}: {failure}");
        }
        Err(fault) => {
            let _ = eprintln!(rt; "error: {fault}");
        }
    }
    Status::Failed
}

/// The end of the program when the journal with this path was not recovered. It is told why.
fn unrecovered(rt: &HostRuntime, path: &str, fault: RecoverFault) -> Status
    ensures { result ≡ unrecovered_end fault }
{
    let status = match fault {
        RecoverFault::NoMemory => return Status::NoMemory,
        RecoverFault::Failed(_) => Status::Failed,
        RecoverFault::Foreign | RecoverFault::Damaged(_) | RecoverFault::Unfit(_) => {
            Status::Damaged
        }
    };
    let _ = eprintln!(rt; "error: {path}: {fault}");
    status
}

/// The end of the program when the journal with this path was not opened. It is told why.
fn unopened(rt: &HostRuntime, path: &str, failure: OpenFailure) -> Status
    ensures { result ≡ unopened_end failure }
{
    let _ = eprintln!(rt; "error: {path}: {failure}");
    match failure {
        OpenFailure::InUse => Status::InUse,
        OpenFailure::Foreign => Status::Damaged,
        OpenFailure::File { .. }
        | OpenFailure::Read { .. }
        | OpenFailure::Lock { .. }
        | OpenFailure::Folder { .. } => Status::Failed,
    }
}

/// Serves each line of standard input, which is the journal.
pub fn serve_input(rt: &HostRuntime) -> Status
    ensures words { result ≢ Status.BadWords }
    // There is no journal that another process could have, or that could be damaged.
    ensures in_use { result ≢ Status.InUse }
    ensures damaged { result ≢ Status.Damaged }
{
    let served = serve_given(rt.alloc(), &mut rt.reader(), &mut io::writer(rt));
    ending(rt, "-", served)
}

/// Recovers what the journal in a store leads to, and serves each line of standard input. The journal has this path.
fn serve_store(rt: &HostRuntime, path: &str, store: FileStore<HostDisk<'_>>) -> Status
    ensures words { result ≢ Status.BadWords }
    ensures in_use { result ≢ Status.InUse }
{
    let mut journal = Journal::new(store);
    let served = serve_kept(
        rt.alloc(),
        &mut journal,
        &mut rt.reader(),
        &mut io::writer(rt),
    );
    match served {
        Ok(()) => Status::Done,
        Err(ResumeFault::Unserved(fault)) => ending(rt, path, Err(fault)),
        Err(ResumeFault::Unrecovered(fault)) => unrecovered(rt, path, fault),
    }
}

/// Opens some file for reading.
fn open_any(rt: &HostRuntime) -> Result<File, OpenFailure>
    ensures { IfErr result (λ why. unopened_end why ≡ Status.Failed) }
{
    File::open(rt, "/").map_err(|cause| OpenFailure::File { cause })
}

/// Opens a journal's file. It does not get the number of a standard stream that is closed: other files have those
/// numbers until it is open. Otherwise replies would be written into the journal.
fn open_disk<'a>(rt: &'a HostRuntime, path: &'a str) -> Result<HostDisk<'a>, OpenFailure> {
    let _input = open_any(rt)?;
    let _output = open_any(rt)?;
    let _errors = open_any(rt)?;
    HostDisk::open(rt, path, journal_head())
}

/// Serves each line of standard input, and keeps those that change something in a file.
pub fn serve_journal(rt: &HostRuntime, path: &str) -> Status
    ensures { result ≢ Status.BadWords }
{
    match open_disk(rt, path) {
        Ok(disk) => serve_store(rt, path, FileStore::new(disk)),
        Err(failure) => unopened(rt, path, failure),
    }
}
