//! The report of a document's plan, which is run: a thread for each of its streams, and one for each ask.
ghost use Rattle.std.specs.Prelude.{◌≡◌, ◌≢◌, ◌≤◌, ◌<◌, ℕ, [], All, length, take};
ghost use Rattle.std.specs.Io.KnownBytes.{Appends, Keeps};
ghost use Rattle.sm_placement.specs.Setup.{sizes_of};
ghost use Rattle.sm_placement.specs.Place.{down_count};
ghost use Rattle.sm_placement.specs.Layout.{place_of};
ghost use Rattle.sm_placement.specs.Lead.{IsSettled};
ghost use Rattle.sm_plan_code.specs.Plan.{IsKnownPlan};
ghost use Rattle.sm_protocol.specs.State.{opened};
ghost use Rattle.sm_plan_text.specs.Documents.{DocumentModel, IsDocument};
ghost use Rattle.sm_plan_text.specs.Reading.{rows_of};
ghost use Rattle.sm_report.specs.declared.limits.TheConstants.{MOST_BYTES};
ghost use Rattle.sm_report.specs.declared.run_stop.NotFinished.{NotFinished};
ghost use Rattle.sm_report.specs.Report.{Output};
ghost use Rattle.sm_report.specs.Running.{IsStartedForRun, IsLoggedForRun, IsPlacedForRun, IsOpenedForRun, IsRunReport};
ghost use Rattle.sm_report.specs.Running.{IsRunReportOf};
ghost use Rattle.sm_report.specs.Status.{code_of};
ghost use Rattle.sm_report.specs.RunStop.{not_finished_text, not_run, IfRan, IfReadRan};
ghost use Rattle.sm_plan_code.specs.declared.limits.TheConstants.{MOST_PLACES};

use crate::boards::report_started;
use crate::delivery::deliver;
use crate::made_report::MadeReport;
use crate::reporting::read_input;
use crate::run_stop::{NotFinished, RunStop};
use crate::stages::{checked, member, placement, require_log_room};
use crate::status::Status;
use crate::stop::Stop;
use sm_machine::{Machine, OpenFault};
use sm_placement::Placement;
use sm_plan_code::Plan;
use sm_plan_text::{Document, Member};
use sm_report_text::push_accepted;
use sm_server::ShardId;
use sm_verifier::{Checked, one_fault};
use std::alloc::Global;
use std::io::{Read, Write};
use std::sync::Wait;
use std::thread::Threads;

/// Runs a checked plan from a settled placement, beside asks, and returns its report.
fn report_checked<R: Threads + Wait + Sync>(
    rt: &R,
    alloc: Global,
    placement: Placement,
    log: u32,
    checked: Checked,
    asks: &[ShardId],
) -> Result<MadeReport, RunStop>
    requires settled { IsSettled (sizes_of placement.setup) (place_of placement) }
    requires room { down_count (sizes_of placement.setup) (place_of placement) ≤ log }
    requires most { log ≤ MOST_PLACES }
    requires setup { checked.setup ≡ placement.setup }
    requires known { All (λ shard. shard < length placement.setup.shards) asks.now }
    ensures { IfRan result (IsStartedForRun (opened (sizes_of placement.setup) (place_of placement) log)
        placement.setup checked.plan asks.now) }
{
    let mut accepted = String::new(alloc);
    push_accepted(&mut accepted, checked.plan())?;
    match Machine::open(alloc, placement, log) {
        Ok((machine, permits)) => {
            report_started(rt, alloc, machine, permits, checked, accepted, asks)
        }
        Err((_, OpenFault::NoMemory)) => Err(RunStop::Stop(Stop::NoMemory)),
        Err((_, OpenFault::LogFull)) => unreachable!(),
    }
}

/// Runs a document's plan at its placement, whose log has room, and returns its report.
fn report_logged<R: Threads + Wait + Sync>(
    rt: &R,
    alloc: Global,
    document: &Document,
    placement: Placement,
    plan: Plan,
) -> Result<MadeReport, RunStop>
    requires document { IsDocument (rows_of document.now) }
    requires setup { placement.setup ≡ (rows_of document.now).setup }
    requires settled { IsSettled (sizes_of placement.setup) (place_of placement) }
    requires room { down_count (sizes_of placement.setup) (place_of placement) ≤ document.now.log }
    requires plan { IsKnownPlan (length placement.setup.shards) (length placement.setup.servers) plan }
    ensures { IfRan result (IsLoggedForRun (rows_of document.now) plan (place_of placement) tt) }
{
    let checked = checked(alloc, "", &placement, plan)?;
    let asks = document.asks.as_slice();
    report_checked(rt, alloc, placement, document.log, checked, asks)
}

/// Runs a document's plan at its placement, and returns its report.
fn report_placed<R: Threads + Wait + Sync>(
    rt: &R,
    alloc: Global,
    document: &Document,
    placement: Placement,
    plan: Plan,
) -> Result<MadeReport, RunStop>
    requires document { IsDocument (rows_of document.now) }
    requires setup { placement.setup ≡ (rows_of document.now).setup }
    requires settled { IsSettled (sizes_of placement.setup) (place_of placement) }
    requires plan { IsKnownPlan (length placement.setup.shards) (length placement.setup.servers) plan }
    ensures { IfRan result (IsPlacedForRun (rows_of document.now) plan (place_of placement)) }
{
    require_log_room(alloc, document, &placement)?;
    report_logged(rt, alloc, document, placement, plan)
}

/// Runs a plan, which was taken out of the document, and returns its report.
fn report_plan<R: Threads + Wait + Sync>(
    rt: &R,
    alloc: Global,
    document: &Document,
    plan: Plan,
) -> Result<MadeReport, RunStop>
    requires document { IsDocument (rows_of document.now) }
    requires plan { IsKnownPlan (length (rows_of document.now).setup.shards)
        (length (rows_of document.now).setup.servers) plan }
    ensures { IfRan result (IsOpenedForRun (rows_of document.now) plan) }
{
    let placement = placement(alloc, document)?;
    report_placed(rt, alloc, document, placement, plan)
}

/// Takes a document's plan out of it, runs it beside the document's asks, and returns its report.
fn report_document<R: Threads + Wait + Sync>(
    rt: &R,
    alloc: Global,
    document: &mut Document,
) -> Result<MadeReport, RunStop>
    requires { IsDocument (rows_of document.old) }
    ensures { IfRan result (IsRunReport (rows_of document.old)) }
{
    let plan = member(alloc, Member::Plan, document.plan.take())?;
    report_plan(rt, alloc, document, plan)
}

/// Runs the plan of the document that a reader gives, and returns its report.
fn report_reader<R: Threads + Wait + Sync, I: Read>(
    rt: &R,
    alloc: Global,
    reader: &mut I,
) -> Result<MadeReport, RunStop>
    ensures { IfReadRan result (IsRunReportOf MOST_BYTES (I.remaining reader.old)) }
{
    let mut document = read_input(alloc, reader)?;
    report_document(rt, alloc, &mut document)
}

/// Writes why a plan was not run to its end, and says how that ends.
fn write_not_finished<W: Write>(writer: &mut W, not_finished: NotFinished) -> Status
    ensures status { (result ≢ Status.WriteFailed) → result ≡ Status.NoThread }
    ensures text { result ≡ Status.NoThread → Appends (W.contents writer.old) (W.contents writer.new)
        (not_finished_text not_finished) }
    ensures front { result ≡ Status.WriteFailed
        → (k : ℕ) × (k < length (not_finished_text not_finished))
        × Appends (W.contents writer.old) (W.contents writer.new) (take k (not_finished_text not_finished)) }
{
    if deliver(writer, not_finished.text().as_bytes()) {
        Status::NoThread
    } else {
        Status::WriteFailed
    }
}

/// Reads all input, runs the document's plan with a thread for each of its streams and each ask, makes the whole
/// report, and then writes it. Without knowledge of what a reader gives, what is written is a report on some bytes.
pub fn report_run<R: Threads + Wait + Sync, I: Read, W: Write>(
    rt: &R,
    alloc: Global,
    reader: &mut I,
    writer: &mut W,
) -> Status
    // The text and the status are those of a report on the bytes that came.
    ensures reported { code_of result < 3 → (output : Output)
        × IsRunReportOf MOST_BYTES (I.remaining reader.old) output × (result ≡ output.status)
        × Appends (W.contents writer.old) (W.contents writer.new) output.text }
    // Without memory, and after a read that fails, nothing is written.
    ensures memory { result ≡ Status.NoMemory → Keeps (W.contents writer.old) (W.contents writer.new) }
    ensures read_fault { result ≡ Status.ReadFailed → Keeps (W.contents writer.old) (W.contents writer.new) }
    // If the plan has begun and was not run to its end, the text says only why.
    ensures threads { result ≡ Status.NoThread → (why : NotFinished)
        × IsRunReportOf MOST_BYTES (I.remaining reader.old) (not_run why)
        × Appends (W.contents writer.old) (W.contents writer.new) (not_finished_text why) }
    // After a write that fails, a front of the report's text is written, and not all of it.
    ensures write_fault { result ≡ Status.WriteFailed → (output : Output)
        × IsRunReportOf MOST_BYTES (I.remaining reader.old) output
        × (k : ℕ) × (k < length output.text) × Appends (W.contents writer.old) (W.contents writer.new)
        (take k output.text) }
{
    match report_reader(rt, alloc, reader) {
        Ok(made) => made.write(writer),
        Err(RunStop::Stop(stop)) => match stop {
            Stop::Report(made) => made.write(writer),
            Stop::NoMemory => Status::NoMemory,
            Stop::ReadFailed => Status::ReadFailed,
        },
        Err(RunStop::NotFinished(not_finished)) => write_not_finished(writer, not_finished),
    }
}

/// States that `run` reports the same of a document without asks in each run that comes to its end, whatever the
/// schedule is.
pub fn one_run_report()
    ensures { (d : DocumentModel) (a b : Output) → d.asks ≡ [] → IsRunReport d a → IsRunReport d b
        → a.status ≢ Status.NoThread → b.status ≢ Status.NoThread → a ≡ b }
{
    one_fault();
}
