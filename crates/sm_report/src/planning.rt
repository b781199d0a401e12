//! The report of a plan that is made for a document.
ghost use Rattle.std.specs.Prelude.{◌≡◌, ◌≢◌, ◌≤◌, Err, IfErr, IfOk, Ok, Some};
ghost use Rattle.sm_placement.specs.Setup.{sizes_of};
ghost use Rattle.sm_placement.specs.Place.{down_count};
ghost use Rattle.sm_placement.specs.Layout.{place_of};
ghost use Rattle.sm_placement.specs.Lead.{IsSettled};
ghost use Rattle.sm_plan_text.specs.Documents.{IsDocument};
ghost use Rattle.sm_plan_text.specs.Reading.{rows_of};
ghost use Rattle.sm_machine.specs.State.{state_of};
ghost use Rattle.sm_planner.specs.Basis.{basis_at};
ghost use Rattle.sm_report.specs.Stop.{IfEnded, IfMade};
ghost use Rattle.sm_report.specs.Planning.{aim_of, aim_stage, IsAimOf, IsPlanFor, IsRefusedFor, IsAnswered};
ghost use Rattle.sm_report.specs.Report.{bad_input, refused};
ghost use Rattle.sm_report_text.specs.BadInput.{text_fault_line};
ghost use Rattle.sm_report.specs.Output.{IsLoggedForPlan, IsPlacedForPlan, IsOpenedForPlan, IsPlanningReport};

use crate::made_report::MadeReport;
use crate::stages::{director, placement, require_log_room};
use crate::stop::Stop;
use sm_machine::Machine;
use sm_placement::{Config, Placement};
use sm_plan_code::Move;
use sm_plan_text::{Document, Member, TextFault};
use sm_planner::{NoPlan, drain, moves};
use sm_server::ServerId;
use sm_verifier::Checked;
use std::alloc::{AllocError, Global};

/// The task that a plan is wanted for.
#[derive(Clone, Copy)]
pub enum Wanted<'a> {
    /// To make moves.
    Moves(&'a [Move]),
    /// To empty a server.
    Drain(ServerId),
}

/// Returns the report of a document that is not one for a plan.
fn misfit(alloc: Global, member: Member) -> Result<MadeReport, AllocError>
    ensures { IfOk result (λ made. made ≡ bad_input (text_fault_line (TextFault.Shape member))) }
{
    MadeReport::bad_input(alloc, TextFault::Shape { member })
}

/// Returns the task that a document wants a plan for: its moves, or a server that is to be emptied, and not both.
fn wanted_of(alloc: Global, document: &Document) -> Result<Wanted<'_>, Stop>
    requires { IsDocument (rows_of document.now) }
    ensures ok { IfOk result (λ wanted. aim_stage (rows_of document.now).moves (rows_of document.now).drain
        ≡ Ok (aim_of wanted)) }
    ensures known { IfOk result (λ wanted. IsAimOf (rows_of document.now).setup (aim_of wanted)) }
    ensures ends { IfErr result (λ stop. IfEnded stop
        (λ made. aim_stage (rows_of document.now).moves (rows_of document.now).drain ≡ Err made)) }
{
    match (&document.moves, document.drain) {
        (Some(list), None) => Ok(Wanted::Moves(list.as_slice())),
        (None, Some(server)) => Ok(Wanted::Drain(server)),
        (Some(_), Some(_)) => Err(Stop::Report(misfit(alloc, Member::Drain)?)),
        (None, None) => Err(Stop::Report(misfit(alloc, Member::Moves)?)),
    }
}

/// Plans what is wanted, for the machine as it stands.
fn plan(alloc: Global, machine: &Machine, wanted: &Wanted<'_>) -> Result<Checked, NoPlan>
    requires { IsAimOf machine.now.placement.setup (aim_of wanted.now) }
    ensures setup { IfOk result (λ checked. checked.setup ≡ machine.now.placement.setup) }
    ensures plan { IfOk result (λ checked. IsPlanFor (basis_at machine.now.placement.setup (state_of machine.now))
        (aim_of wanted.now) checked.plan) }
    ensures refused { IfErr result (λ why. why ≢ NoPlan.NoMemory
        → IsRefusedFor (basis_at machine.now.placement.setup (state_of machine.now)) (aim_of wanted.now) why) }
{
    match wanted {
        Wanted::Moves(list) => moves(alloc, machine, list),
        Wanted::Drain(server) => drain(alloc, machine, *server),
    }
}

/// Returns the report of a machine's answer.
fn report_answer(
    alloc: Global,
    config: &Config,
    machine: &Machine,
    wanted: &Wanted<'_>,
) -> Result<MadeReport, Stop>
    requires aim { IsAimOf machine.now.placement.setup (aim_of wanted.now) }
    requires setup { machine.now.placement.setup ≡ config.now }
    ensures { IfMade result (IsAnswered config.now (basis_at config.now (state_of machine.now)) (aim_of wanted.now)) }
{
    match plan(alloc, machine, wanted) {
        Ok(checked) => Ok(MadeReport::planned(alloc, config, checked.plan())?),
        Err(NoPlan::NoMemory) => Err(Stop::NoMemory),
        Err(why) => Ok(MadeReport::unplanned(alloc, config, why)?),
    }
}

/// Returns the report of what is wanted, for a machine that is opened at the placement, whose log has room.
fn report_logged(
    alloc: Global,
    document: &Document,
    placement: Placement,
    wanted: &Wanted<'_>,
) -> Result<MadeReport, Stop>
    requires document { IsDocument (rows_of document.now) }
    requires setup { placement.setup ≡ (rows_of document.now).setup }
    requires settled { IsSettled (sizes_of placement.setup) (place_of placement) }
    requires room { down_count (sizes_of placement.setup) (place_of placement) ≤ document.now.log }
    requires aim { IsAimOf (rows_of document.now).setup (aim_of wanted.now) }
    ensures { IfMade result (IsLoggedForPlan (rows_of document.now) (aim_of wanted.now) (place_of placement) tt) }
{
    let director = director(alloc, placement, document.log)?;
    let made = report_answer(alloc, &document.config, director.machine(), wanted);
    let _ = director.give_up();
    made
}

/// Returns the report of what is wanted, at a placement that is opened.
fn report_placed(
    alloc: Global,
    document: &Document,
    placement: Placement,
    wanted: &Wanted<'_>,
) -> Result<MadeReport, Stop>
    requires document { IsDocument (rows_of document.now) }
    requires setup { placement.setup ≡ (rows_of document.now).setup }
    requires settled { IsSettled (sizes_of placement.setup) (place_of placement) }
    requires aim { IsAimOf (rows_of document.now).setup (aim_of wanted.now) }
    ensures { IfMade result (IsPlacedForPlan (rows_of document.now) (aim_of wanted.now) (place_of placement)) }
{
    require_log_room(alloc, document, &placement)?;
    report_logged(alloc, document, placement, wanted)
}

/// Returns the report of the task that a document wants a plan for.
fn report_wanted(
    alloc: Global,
    document: &Document,
    wanted: &Wanted<'_>,
) -> Result<MadeReport, Stop>
    requires document { IsDocument (rows_of document.now) }
    requires aim { IsAimOf (rows_of document.now).setup (aim_of wanted.now) }
    ensures { IfMade result (IsOpenedForPlan (rows_of document.now) (aim_of wanted.now)) }
{
    let placement = placement(alloc, document)?;
    report_placed(alloc, document, placement, wanted)
}

/// Makes a plan for a document, and returns its report.
pub fn report_plan(alloc: Global, document: &Document) -> Result<MadeReport, Stop>
    requires { IsDocument (rows_of document.now) }
    ensures { IfMade result (IsPlanningReport (rows_of document.now)) }
{
    let wanted = wanted_of(alloc, document)?;
    report_wanted(alloc, document, &wanted)
}
