//! The lines of events that are played, and of the streams after them.
ghost use Rattle.std.specs.Prelude.{◌≡◌, ◌++◌, [], OnOk, string_bytes};
ghost use Rattle.sm_report_text.specs.EventLines.{plan_front, stream_text, word_line, blocked_line, executed_line};
ghost use Rattle.sm_report_text.specs.EventLines.{passed_line, place_told, denied_line, refill_line, begun_counts_line};
ghost use Rattle.sm_report_text.specs.EventLines.{not_begun_line, event_front, stream_at_line, stream_done_line};
ghost use Rattle.sm_report_text.specs.EventLines.{waiting_line};

use crate::refusal_line::push_refusal;
use sm_placement::Config;
use sm_protocol::{BeginFault, RefillFault};
use sm_refusals::{begin_refusal, denied_refusal};
use sm_task_controller::Denied;
use std::alloc::AllocError;

/// Adds a line of one text.
pub fn push_word(out: &mut String, word: &str) -> Result<(), AllocError>
    ensures { OnOk result (string_bytes out.new ≡ string_bytes out.old ++ word_line word.now) }
{
    writeln!(out, "{word}")
}

/// Adds a plan in front of what is said of it, if the document has a list of plans.
pub fn push_plan_front(out: &mut String, many: bool, place: usize) -> Result<(), AllocError>
    ensures { OnOk result (string_bytes out.new ≡ string_bytes out.old ++ plan_front many place) }
{
    if many {
        return write!(out, "plan {place}: ");
    }
    Ok(())
}

/// Adds an event in front of its answer.
pub fn push_event_front(out: &mut String, i: usize) -> Result<(), AllocError>
    ensures { OnOk result (string_bytes out.new ≡ string_bytes out.old ++ event_front i) }
{
    write!(out, "event {i}: ")
}

/// Adds a stream, with its plan's place if the document has a list of plans.
pub fn push_stream_text(
    out: &mut String,
    many: bool,
    place: usize,
    stream: u32,
) -> Result<(), AllocError>
    ensures { OnOk result (string_bytes out.new ≡ string_bytes out.old ++ stream_text many place stream) }
{
    if many {
        return write!(out, "plan {place} stream {stream}");
    }
    write!(out, "stream {stream}")
}

/// Adds the line of a step that waits.
pub fn push_blocked(out: &mut String, signal: u32) -> Result<(), AllocError>
    ensures { OnOk result (string_bytes out.new ≡ string_bytes out.old ++ blocked_line signal) }
{
    writeln!(out, "blocked on signal {signal}")
}

/// Adds the line of a request that was executed.
pub fn push_executed(out: &mut String, server: &str) -> Result<(), AllocError>
    ensures { OnOk result (string_bytes out.new ≡ string_bytes out.old ++ executed_line server.now) }
{
    writeln!(out, "executed at {server}")
}

/// Adds the line of a request that was passed on.
pub fn push_passed(
    out: &mut String,
    server: &str,
    number: u64,
    place: u32,
) -> Result<(), AllocError>
    ensures { OnOk result (string_bytes out.new ≡ string_bytes out.old ++ passed_line server.now number place) }
{
    writeln!(out, "passed to {server} number {number} ticket {place}")
}

/// The place in the document of the plan whose stream denies a restart, if the document has a list of plans.
fn place_told(many: bool, places: &[u32], denied: &Denied) -> Option<u64>
    ensures { result ≡ place_told many places.now denied.now }
{
    match denied {
        Denied::Engaged { stream } if many => match places.get(stream.plan as usize) {
            Some(place) => Some(u64::from(*place)),
            None => Some(0),
        },
        _ => None,
    }
}

/// Adds the line that says why a server may not be restarted. The plans have begun from these places of the document.
pub fn push_denied(
    out: &mut String,
    config: &Config,
    many: bool,
    places: &[u32],
    denied: Denied,
) -> Result<(), AllocError>
    ensures { OnOk result (string_bytes out.new
        ≡ string_bytes out.old ++ denied_line config.now many places.now denied) }
{
    let place = place_told(many, places, &denied);
    push_refusal(out, &denied_refusal(config, place, denied))
}

/// Returns the words that say why an allowance is not raised.
fn refill_words(fault: RefillFault) -> &'static str
    ensures { word_line result.now ≡ refill_line fault }
{
    match fault {
        RefillFault::Ended => "refill refused 1 Ended",
        RefillFault::TooMany => "refill refused 2 TooMany",
        RefillFault::LogFull => "refill refused 3 LogFull",
    }
}

/// Adds the line that says why an allowance is not raised.
pub fn push_refill_fault(out: &mut String, fault: RefillFault) -> Result<(), AllocError>
    ensures { OnOk result (string_bytes out.new ≡ string_bytes out.old ++ refill_line fault) }
{
    push_word(out, refill_words(fault))
}

/// Adds the line of a plan that has begun.
pub fn push_begun(out: &mut String, calls: usize, streams: usize) -> Result<(), AllocError>
    ensures { OnOk result (string_bytes out.new ≡ string_bytes out.old ++ begun_counts_line calls streams) }
{
    writeln!(out, "begun: calls {calls} streams {streams}")
}

/// Adds the line that says why a plan does not start.
pub fn push_not_begun(
    out: &mut String,
    config: &Config,
    fault: BeginFault,
) -> Result<(), AllocError>
    ensures { OnOk result (string_bytes out.new ≡ string_bytes out.old ++ not_begun_line config.now fault) }
{
    push_refusal(out, &begin_refusal(config, fault))
}

/// Adds, behind a stream, that it has not finished.
pub fn push_at(out: &mut String, at: usize, length: usize) -> Result<(), AllocError>
    ensures { OnOk result (string_bytes out.new ≡ string_bytes out.old ++ stream_at_line [] at length) }
{
    writeln!(out, ": at {at} of {length}")
}

/// Adds, behind a stream, that it has finished.
pub fn push_done(out: &mut String) -> Result<(), AllocError>
    ensures { OnOk result (string_bytes out.new ≡ string_bytes out.old ++ stream_done_line []) }
{
    writeln!(out, ": done")
}

/// Adds the line of a plan that has not begun.
pub fn push_waiting(out: &mut String, place: usize) -> Result<(), AllocError>
    ensures { OnOk result (string_bytes out.new ≡ string_bytes out.old ++ waiting_line place) }
{
    writeln!(out, "plan {place}: not begun")
}
