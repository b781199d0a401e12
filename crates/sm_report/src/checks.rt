//! The report of a plan that is checked.
ghost use Rattle.std.specs.Prelude.{length};
ghost use Rattle.sm_placement.specs.Setup.{sizes_of};
ghost use Rattle.sm_placement.specs.Layout.{place_of};
ghost use Rattle.sm_placement.specs.Lead.{IsSettled};
ghost use Rattle.sm_plan_code.specs.Plan.{IsKnownPlan};
ghost use Rattle.sm_plan_text.specs.Documents.{IsDocument};
ghost use Rattle.sm_plan_text.specs.Reading.{rows_of};
ghost use Rattle.sm_report.specs.Stop.{IfMade};
ghost use Rattle.sm_report.specs.Output.{IsPlanReport, IsCheckReport};

use crate::made_report::MadeReport;
use crate::stages::{checked, may_start, member, placement};
use crate::stop::Stop;
use sm_placement::Placement;
use sm_plan_code::Plan;
use sm_plan_text::{Document, Member};
use sm_reservation::Pool;
use std::alloc::Global;

/// Returns the report of a plan at a placement that is opened.
fn report_plan(alloc: Global, placement: &Placement, plan: Plan) -> Result<MadeReport, Stop>
    requires settled { IsSettled (sizes_of placement.now.setup) (place_of placement.now) }
    requires fits { IsKnownPlan (length placement.now.setup.shards) (length placement.now.setup.servers) plan }
    ensures { IfMade result (IsPlanReport placement.now.setup plan (place_of placement.now)) }
{
    let pool = Pool::open(alloc, placement)?;
    let checked = checked(alloc, "", placement, plan)?;
    may_start(alloc, &checked, &pool, placement)?;
    Ok(MadeReport::accepted(alloc, checked.plan())?)
}

/// Takes a document's plan out of it, and returns its report.
pub fn report_check(alloc: Global, document: &mut Document) -> Result<MadeReport, Stop>
    requires { IsDocument (rows_of document.old) }
    ensures { IfMade result (IsCheckReport (rows_of document.old)) }
{
    let plan = member(alloc, Member::Plan, document.plan.take())?;
    let placement = placement(alloc, document)?;
    report_plan(alloc, &placement, plan)
}
