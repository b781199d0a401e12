//! The places of the log that a plan takes.
ghost use Rattle.std.specs.Prelude.{◌≡◌, ◌≤◌, ◌+◌, ◌*◌, length, count_by};
ghost use Rattle.sm_protocol.specs.State.{is_no_call, places_of};
ghost use Rattle.sm_plan_code.specs.declared.limits.TheConstants.{MOST_ALLOWANCE, MOST_INSTRUCTIONS, MOST_STREAMS};

use sm_plan_code::{Instr, Plan, is_call};

/// Returns the number of instructions that are no calls.
pub(crate) fn count_no_calls(code: &[Instr]) -> usize
    ensures count { result ≡ count_by is_no_call code.now }
    ensures within { result ≤ length code.now }
{
    let mut count = 0;
    for instr in code {
        if !is_call(instr) {
            count += 1;
        }
    }
    count
}

/// Returns the number of log places that a plan takes.
pub(crate) fn places_of(plan: &Plan) -> u64
    ensures value { result ≡ places_of plan.now }
    ensures within { result ≤ MOST_STREAMS * (MOST_ALLOWANCE + MOST_INSTRUCTIONS + 1) }
{
    let streams = plan.streams();
    let mut places = 0;
    for stream in streams {
        let rest = count_no_calls(&stream.code) as u64;
        places += u64::from(stream.budget) + u64::from(stream.retries) + rest + 1;
    }
    places
}
