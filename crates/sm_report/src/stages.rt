//! The stages of a report, from a document that is read to a plan that may start. Each gives what it found, or how the
//! report ends there.
ghost use Rattle.std.specs.Prelude.{◌≡◌, ◌≢◌, ◌≤◌, ◌++◌, Ok, Err, IfOk, IfErr, OnOk, length};
ghost use Rattle.sm_placement.specs.Setup.{sizes_of};
ghost use Rattle.sm_placement.specs.Place.{down_count};
ghost use Rattle.sm_placement.specs.Layout.{place_of};
ghost use Rattle.sm_placement.specs.Lead.{IsSettled};
ghost use Rattle.sm_reservation.specs.Pool.{HasSize, pool_hold, true_rights};
ghost use Rattle.sm_plan_code.specs.Plan.{IsKnownPlan};
ghost use Rattle.sm_plan_code.specs.declared.limits.TheConstants.{MOST_PLACES};
ghost use Rattle.sm_verifier.specs.Plan.{IsSound};
ghost use Rattle.sm_verifier.specs.Admission.{IsAdmitted};
ghost use Rattle.sm_protocol.specs.State.{opened};
ghost use Rattle.sm_machine.specs.State.{state_of};
ghost use Rattle.sm_plan_text.specs.Reading.{rows_of};
ghost use Rattle.sm_report_text.specs.Checking.{fault_line};
ghost use Rattle.sm_report.specs.Stop.{IfEnded};
ghost use Rattle.sm_report.specs.Report.{refused};
ghost use Rattle.sm_report.specs.Stages.{member_stage, alone_stage, placement_stage, log_stage, IsFaultReport};
ghost use Rattle.sm_report.specs.Stages.{IsHoldingReport};

use crate::made_report::MadeReport;
use crate::stop::Stop;
use sm_machine::Director;
use sm_placement::{OpenFault, Placement};
use sm_plan_code::Plan;
use sm_plan_text::{Document, Member, TextFault};
use sm_reservation::Pool;
use sm_verifier::{Checked, Fault, admit, check};
use std::alloc::{AllocError, Global};

/// Takes the member that a command needs.
pub fn member<T: Drop>(alloc: Global, member: Member, value: Option<T>) -> Result<T, Stop>
    ensures ok { IfOk result (λ found. member_stage member value ≡ Ok found) }
    ensures ends { IfErr result (λ stop. IfEnded stop (λ made. member_stage member value ≡ Err made)) }
{
    match value {
        Some(value) => Ok(value),
        None => Err(Stop::Report(MadeReport::bad_input(alloc, TextFault::Shape { member })?)),
    }
}

/// Opens the placement that the document names.
pub fn placement(alloc: Global, document: &Document) -> Result<Placement, Stop>
    ensures ok { IfOk result (λ placement. placement_stage (rows_of document.now) ≡ Ok (place_of placement)) }
    ensures setup { IfOk result (λ placement. placement.setup ≡ (rows_of document.now).setup) }
    ensures settled { IfOk result (λ placement. IsSettled (sizes_of placement.setup) (place_of placement)) }
    ensures ends { IfErr result (λ stop. IfEnded stop (λ made. placement_stage (rows_of document.now) ≡ Err made)) }
{
    match document.open(alloc) {
        Ok(placement) => Ok(placement),
        Err(OpenFault::NoMemory) => Err(Stop::NoMemory),
        Err(fault) => Err(Stop::Report(MadeReport::unopened(alloc, &document.config, fault)?)),
    }
}

/// Returns the report of a plan that did not pass the check, behind a front; none if memory was short for the check.
fn fault_report(alloc: Global, front: &str, fault: &Fault) -> Result<MadeReport, AllocError>
    ensures { IfOk result (λ made. (fault.now ≢ Fault.NoMemory)
        × (made ≡ refused (front.now ++ fault_line fault.now))) }
{
    match fault {
        Fault::NoMemory => Err(AllocError),
        Fault::Budget { .. }
        | Fault::SignalNotOnce { .. }
        | Fault::Stream { .. }
        | Fault::Stuck { .. } => MadeReport::unsound(alloc, front, fault),
    }
}

/// Ends the report if a document has one plan and a list of plans.
pub fn require_one_source_of_plans(alloc: Global, document: &Document) -> Result<(), Stop>
    ensures ok { OnOk result (alone_stage (rows_of document.now).plan (rows_of document.now).plans ≡ Ok tt) }
    ensures ends { IfErr result (λ stop. IfEnded stop
        (λ made. alone_stage (rows_of document.now).plan (rows_of document.now).plans ≡ Err made)) }
{
    if document.plan.is_some() && document.plans.is_some() {
        let fault = TextFault::Shape {
            member: Member::Plans,
        };
        return Err(Stop::Report(MadeReport::bad_input(alloc, fault)?));
    }
    Ok(())
}

/// Ends the report if the log has fewer places than servers are down.
pub fn require_log_room(
    alloc: Global,
    document: &Document,
    placement: &Placement,
) -> Result<(), Stop>
    requires { placement.now.setup ≡ (rows_of document.now).setup }
    ensures ok { OnOk result (log_stage (rows_of document.now) (place_of placement.now) ≡ Ok tt) }
    ensures room { OnOk result (down_count (sizes_of placement.now.setup) (place_of placement.now) ≤ document.now.log) }
    ensures ends { IfErr result (λ stop. IfEnded stop
        (λ made. log_stage (rows_of document.now) (place_of placement.now) ≡ Err made)) }
{
    if document.log < placement.down_count() {
        return Err(Stop::Report(MadeReport::log_full(alloc)?));
    }
    Ok(())
}

/// Makes a machine with all its rights over a settled placement, whose log has room for the restarts under way.
pub fn director(alloc: Global, placement: Placement, log: u32) -> Result<Director, AllocError>
    requires settled { IsSettled (sizes_of placement.setup) (place_of placement) }
    requires room { down_count (sizes_of placement.setup) (place_of placement) ≤ log }
    requires most { log ≤ MOST_PLACES }
    ensures state { IfOk result (λ d. state_of d ≡ opened (sizes_of placement.setup) (place_of placement) log) }
    ensures setup { IfOk result (λ d. d.placement.setup ≡ placement.setup) }
{
    match Director::open(alloc, placement, log) {
        Ok(director) => Ok(director),
        Err((_, sm_machine::OpenFault::NoMemory)) => Err(AllocError),
        Err((_, sm_machine::OpenFault::LogFull)) => unreachable!(),
    }
}

/// Checks the plan, and returns it if it passes; otherwise the report ends, behind a front.
pub fn checked(
    alloc: Global,
    front: &str,
    placement: &Placement,
    plan: Plan,
) -> Result<Checked, Stop>
    requires { IsKnownPlan (length placement.now.setup.shards) (length placement.now.setup.servers) plan }
    ensures setup { IfOk result (λ checked. checked.setup ≡ placement.now.setup) }
    ensures plan { IfOk result (λ checked. checked.plan ≡ plan) }
    ensures sound { OnOk result (IsSound (sizes_of placement.now.setup) plan) }
    ensures ends { IfErr result (λ stop. IfEnded stop (IsFaultReport (sizes_of placement.now.setup) front.now plan)) }
{
    match check(alloc, placement.config(), plan) {
        Ok(checked) => Ok(checked),
        Err((_, fault)) => Err(Stop::Report(fault_report(alloc, front, &fault)?)),
    }
}

/// Tests that a plan that passed the check may start at a placement whose pool has all rights.
pub fn may_start(
    alloc: Global,
    checked: &Checked,
    pool: &Pool,
    placement: &Placement,
) -> Result<(), Stop>
    requires setup { checked.now.setup ≡ placement.now.setup }
    requires size { HasSize (sizes_of placement.now.setup) pool.now }
    requires rights { pool_hold pool.now ≡ true_rights (sizes_of placement.now.setup) (place_of placement.now) }
    ensures admitted { OnOk result (IsAdmitted (sizes_of placement.now.setup) (place_of placement.now)
        (true_rights (sizes_of placement.now.setup) (place_of placement.now)) checked.now.plan) }
    ensures ends { IfErr result (λ stop. IfEnded stop
        (IsHoldingReport placement.now.setup (place_of placement.now) checked.now.plan)) }
{
    match admit(checked, pool, placement) {
        Ok(()) => Ok(()),
        Err(holding) => Err(Stop::Report(MadeReport::held(alloc, placement.config(), holding)?)),
    }
}
