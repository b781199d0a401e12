//! Reports, from the bytes that are read to the bytes that are written.
ghost use Rattle.std.specs.Prelude.{◌≡◌, ◌≢◌, ◌≤◌, ◌<◌, ℕ, List, take, length, Ok, Err, IfOk, IfErr};
ghost use Rattle.std.specs.Io.KnownBytes.{Appends, Keeps};
ghost use Rattle.sm_plan_text.specs.Documents.{IsDocument};
ghost use Rattle.sm_plan_text.specs.Reading.{rows_of};
ghost use Rattle.sm_report.specs.declared.command.Command.{Command};
ghost use Rattle.sm_report.specs.declared.limits.TheConstants.{MOST_BYTES};
ghost use Rattle.sm_report.specs.Status.{code_of};
ghost use Rattle.sm_report.specs.Stop.{IfEnded, IfMade, IfReadEnded, IfReadMade};
ghost use Rattle.sm_report.specs.Report.{Output};
ghost use Rattle.sm_report.specs.SafeScenes.{ScenesAreSafe};
ghost use Rattle.sm_report.specs.Stages.{read_stage};
ghost use Rattle.sm_report.specs.Output.{IsReadAs, IsDocumentReport, IsReport, IsReportOf};

use crate::calls::report_calls;
use crate::checks::report_check;
use crate::command::Command;
use crate::input::{InputFault, take_input};
use crate::limits::{MOST_BYTES, READ_TURNS};
use crate::made_report::MadeReport;
use crate::planning::report_plan;
use crate::plays::report_play;
use crate::status::Status;
use crate::stop::Stop;
use sm_plan_text::{Document, TextFault, read_document};
use sm_planner::rule_answers_once;
use sm_protocol::runs_are_safe;
use sm_verifier::{finds_fault, finds_holding, one_fault, one_holding};
use std::alloc::Global;
use std::io::{Read, Write};

/// Reads the document that the bytes of an input are.
fn read_bytes(alloc: Global, bytes: &[u8]) -> Result<Document, Stop>
    requires { length bytes.now ≤ MOST_BYTES }
    ensures ok { IfOk result (λ document. read_stage MOST_BYTES bytes.now ≡ Ok (rows_of document)) }
    ensures known { IfOk result (λ document. IsDocument (rows_of document)) }
    ensures ends { IfErr result (λ stop. IfEnded stop (λ made. read_stage MOST_BYTES bytes.now ≡ Err made)) }
{
    match read_document(alloc, bytes) {
        Ok(document) => Ok(document),
        Err(TextFault::NoMemory) => Err(Stop::NoMemory),
        Err(fault) => Err(Stop::Report(MadeReport::bad_input(alloc, fault)?)),
    }
}

/// Reads the document that a reader gives.
pub fn read_input<R: Read>(alloc: Global, reader: &mut R) -> Result<Document, Stop>
    ensures ok { IfOk result (λ document. IsReadAs (R.remaining reader.old) MOST_BYTES (Ok (rows_of document))) }
    ensures known { IfOk result (λ document. IsDocument (rows_of document)) }
    ensures ends { IfErr result (λ stop. IfReadEnded stop
        (λ made. IsReadAs (R.remaining reader.old) MOST_BYTES (Err made))) }
{
    match take_input(alloc, reader, READ_TURNS, MOST_BYTES) {
        Ok(input) => read_bytes(alloc, input.as_slice()),
        Err(InputFault::TooLong) => Err(Stop::Report(MadeReport::too_long(alloc)?)),
        Err(InputFault::NoMemory) => Err(Stop::NoMemory),
        Err(InputFault::Read) => Err(Stop::ReadFailed),
    }
}

/// Returns a command's report of a document.
fn report_document(
    alloc: Global,
    command: Command,
    mut document: Document,
) -> Result<MadeReport, Stop>
    requires { IsDocument (rows_of document) }
    ensures { IfMade result (IsDocumentReport command (rows_of document)) }
{
    match command {
        Command::Calls => report_calls(alloc, &mut document),
        Command::Check => report_check(alloc, &mut document),
        Command::Play => report_play(alloc, &mut document),
        Command::Plan => report_plan(alloc, &document),
    }
}

/// Returns a command's report of all that a reader gives.
fn report_reader<R: Read>(
    alloc: Global,
    command: Command,
    reader: &mut R,
) -> Result<MadeReport, Stop>
    ensures { IfReadMade result (IsReportOf command MOST_BYTES (R.remaining reader.old)) }
{
    let document = read_input(alloc, reader)?;
    report_document(alloc, command, document)
}

/// Reads all input, makes the whole report, and then writes it. Without knowledge of what a reader gives, what is
/// written is the report on some bytes.
pub fn report<R: Read, W: Write>(
    alloc: Global,
    command: Command,
    reader: &mut R,
    writer: &mut W,
) -> Status
    // The text and the status are those of the report on the bytes that came.
    ensures reported { code_of result < 3 → (output : Output)
        × IsReportOf command MOST_BYTES (R.remaining reader.old) output × (result ≡ output.status)
        × Appends (W.contents writer.old) (W.contents writer.new) output.text }
    // Without memory, and after a read that fails, nothing is written.
    ensures memory { result ≡ Status.NoMemory → Keeps (W.contents writer.old) (W.contents writer.new) }
    ensures read_fault { result ≡ Status.ReadFailed → Keeps (W.contents writer.old) (W.contents writer.new) }
    // After a write that fails, a front of the report's text is written, and not all of it.
    ensures write_fault { result ≡ Status.WriteFailed → (output : Output)
        × IsReportOf command MOST_BYTES (R.remaining reader.old) output
        × (k : ℕ) × (k < length output.text) × Appends (W.contents writer.old) (W.contents writer.new)
        (take k output.text) }
    // No thread is asked for.
    ensures threads { result ≢ Status.NoThread }
{
    match report_reader(alloc, command, reader) {
        Ok(made) => made.write(writer),
        Err(stop) => match stop {
            Stop::Report(made) => made.write(writer),
            Stop::NoMemory => Status::NoMemory,
            Stop::ReadFailed => Status::ReadFailed,
        },
    }
}

/// States that what `play` prints follows from the run of what happens by a document's events. That run is safe: after
/// each event the headline holds, and the laws on lost calls, on the effects of calls, on requests and on tickets.
pub fn scenes_are_safe()
    ensures { ScenesAreSafe }
{
    runs_are_safe();
}

/// States that there is one report of an input by a command, since there is one verdict on a plan and one answer of the
/// planner.
pub fn one_report()
    ensures { (command : Command) (most : ℕ) (bytes : List ℕ) (a b : Output) → IsReport command most bytes a
        → IsReport command most bytes b → a ≡ b }
{
    one_fault();
    one_holding();
    rule_answers_once();
}

/// States that each input has a report, since each plan has a verdict and the planner answers.
pub fn some_report()
    ensures { (command : Command) (most : ℕ) (bytes : List ℕ) → (output : Output) × IsReport command most bytes output }
{
    finds_fault();
    finds_holding();
    rule_answers_once();
}
