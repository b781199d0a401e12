//! The lines that say whether a plan is accepted, refused or held.
ghost use Rattle.std.specs.Prelude.{◌≡◌, ◌++◌, ◌≤◌, All, OnOk, string_bytes, length, count_by, sum_by};
ghost use Rattle.sm_plan_code.specs.Instr.{is_call};
ghost use Rattle.sm_plan_code.specs.Plan.{IsSmallStream};
ghost use Rattle.sm_report_text.specs.Checking.{call_count, accepted_line, fault_line, holding_line};
ghost use Rattle.sm_plan_code.specs.declared.limits.TheConstants.{MOST_STREAMS};

use crate::refusal_line::push_refusal;
use sm_placement::Config;
use sm_plan_code::{Instr, Plan, Stream, is_call};
use sm_refusals::{check_refusal, holding_refusal};
use sm_verifier::{Fault, Holding};
use std::alloc::AllocError;

/// Counts the calls of a code.
fn calls_in(code: &[Instr]) -> usize
    ensures count { result ≡ count_by is_call code.now }
    ensures most { result ≤ length code.now }
{
    code.iter().filter(|instr| is_call(instr)).count()
}

/// Counts the calls of streams.
fn calls_of(streams: &[Stream]) -> usize
    requires small { All IsSmallStream streams.now }
    requires few { length streams.now ≤ MOST_STREAMS }
    ensures { result ≡ sum_by (λ stream. count_by is_call stream.code) streams.now }
{
    let mut count = 0;
    for stream in streams {
        count += calls_in(stream.code.as_slice());
    }
    count
}

/// Counts the calls of a plan's streams.
pub fn call_count(plan: &Plan) -> usize
    ensures { result ≡ call_count plan.now }
{
    calls_of(plan.streams())
}

/// Adds the line of a plan that is accepted.
pub fn push_accepted(out: &mut String, plan: &Plan) -> Result<(), AllocError>
    ensures { OnOk result (string_bytes out.new ≡ string_bytes out.old ++ accepted_line plan.now) }
{
    let calls = call_count(plan);
    let streams = plan.streams().len();
    writeln!(out, "accepted: calls {calls} streams {streams}")
}

/// Adds the line that says what is wrong with a plan.
pub fn push_fault(out: &mut String, fault: &Fault) -> Result<(), AllocError>
    ensures { OnOk result (string_bytes out.new ≡ string_bytes out.old ++ fault_line fault.now) }
{
    push_refusal(out, &check_refusal(fault))
}

/// Adds the line that says why a plan may not start.
pub fn push_holding(out: &mut String, config: &Config, holding: Holding) -> Result<(), AllocError>
    ensures { OnOk result (string_bytes out.new ≡ string_bytes out.old ++ holding_line config.now holding) }
{
    push_refusal(out, &holding_refusal(config, holding))
}
