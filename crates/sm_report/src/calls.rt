//! The report of a document's calls.
ghost use Rattle.std.specs.Prelude.{◌≡◌, IfOk, All};
ghost use Rattle.sm_placement.specs.Layout.{place_of};
ghost use Rattle.sm_plan_text.specs.Documents.{IsDocument};
ghost use Rattle.sm_plan_text.specs.Reading.{rows_of};
ghost use Rattle.sm_report.specs.Answers.{IsKnownNamed};
ghost use Rattle.sm_report.specs.Stop.{IfMade};
ghost use Rattle.sm_report.specs.Output.{calls_output, IsCallsReport};

use crate::answers::make_calls;
use crate::made_report::MadeReport;
use crate::stages::{member, placement};
use crate::stop::Stop;
use sm_placement::Placement;
use sm_plan_text::{Document, Member};
use sm_report_text::push_ending;
use sm_server::{Call, ServerId, ShardId};
use std::alloc::{AllocError, Global};

/// Makes calls one after the other, and returns their report.
fn report_made(
    alloc: Global,
    placement: &mut Placement,
    calls: &[(ShardId, ServerId, Call)],
) -> Result<MadeReport, AllocError>
    requires { All (IsKnownNamed placement.old.setup) calls.now }
    ensures { IfOk result (λ made. made ≡ calls_output placement.old.setup (place_of placement.old) calls.now) }
{
    let mut text = String::new(alloc);
    make_calls(&mut text, placement, calls)?;
    push_ending(&mut text, placement)?;
    Ok(MadeReport::done(text))
}

/// Takes a document's calls out of it, and returns their report.
pub fn report_calls(alloc: Global, document: &mut Document) -> Result<MadeReport, Stop>
    requires { IsDocument (rows_of document.old) }
    ensures { IfMade result (IsCallsReport (rows_of document.old)) }
{
    let calls = member(alloc, Member::Calls, document.calls.take())?;
    let mut placement = placement(alloc, document)?;
    Ok(report_made(alloc, &mut placement, calls.as_slice())?)
}
