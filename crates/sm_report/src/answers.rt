//! Calls that are made one after the other, with the lines of their answers.
ghost use Rattle.std.specs.Prelude.{◌≡◌, ◌++◌, OnOk, string_bytes, All};
ghost use Rattle.sm_placement.specs.Setup.{sizes_of};
ghost use Rattle.sm_placement.specs.Layout.{place_of};
ghost use Rattle.sm_report.specs.Answers.{IsKnownNamed, refusal_at, place_after, place_after_all, answer_lines};
ghost use Rattle.sm_report_text.specs.AnswerLines.{answer_line};

use sm_placement::Placement;
use sm_report_text::{push_made, push_refused};
use sm_server::{Call, ServerId, ShardId};
use std::alloc::AllocError;

/// Makes a call, and adds the line of its answer.
fn make_call(
    out: &mut String,
    placement: &mut Placement,
    i: usize,
    named: &(ShardId, ServerId, Call),
) -> Result<(), AllocError>
    requires known { IsKnownNamed placement.old.setup named.now }
    ensures setup { placement.new.setup ≡ placement.old.setup }
    ensures answer { OnOk result (string_bytes out.new ≡ string_bytes out.old
        ++ answer_line i (refusal_at (sizes_of placement.old.setup) (place_of placement.old) named.now)) }
    ensures after { place_of placement.new ≡ place_after (sizes_of placement.old.setup)
        (place_of placement.old) named.now }
{
    let (shard, server, call) = *named;
    match placement.call(server, shard, call) {
        Ok(()) => push_made(out, i),
        Err(refusal) => push_refused(out, i, refusal),
    }
}

/// Makes calls one after the other, and adds the lines of their answers.
pub fn make_calls(
    out: &mut String,
    placement: &mut Placement,
    calls: &[(ShardId, ServerId, Call)],
) -> Result<(), AllocError>
    requires known { All (IsKnownNamed placement.old.setup) calls.now }
    ensures setup { placement.new.setup ≡ placement.old.setup }
    ensures answers { OnOk result (string_bytes out.new ≡ string_bytes out.old
        ++ answer_lines (sizes_of placement.old.setup) (place_of placement.old) 0 calls.now) }
    ensures after { OnOk result (place_of placement.new
        ≡ place_after_all (sizes_of placement.old.setup) (place_of placement.old) calls.now) }
{
    for (i, named) in calls.iter().enumerate() {
        make_call(out, placement, i, named)?;
    }
    Ok(())
}
