//! Calls in the streams of plans.
ghost use Rattle.std.specs.Prelude.{◌≡◌, ◌≤◌, All, length, count_by, sum_by};
ghost use Rattle.sm_plan_code.specs.Instr.{is_call};
ghost use Rattle.sm_plan_code.specs.Plan.{IsSmallStream};
ghost use Rattle.sm_plan_code.specs.declared.limits.TheConstants.{MOST_STREAMS};

use sm_plan_code::{Instr, Stream, is_call};

/// Counts the calls of a code.
fn calls_in(code: &[Instr]) -> usize
    ensures count { result ≡ count_by is_call code.now }
    ensures most { result ≤ length code.now }
{
    code.iter().filter(|instr| is_call(instr)).count()
}

/// Counts the calls of streams.
pub fn calls_of(streams: &[Stream]) -> usize
    requires small { All IsSmallStream streams.now }
    requires few { length streams.now ≤ MOST_STREAMS }
    ensures { result ≡ sum_by (λ stream. count_by is_call stream.code) streams.now }
{
    let mut count = 0;
    for stream in streams {
        count += calls_in(stream.code.as_slice());
    }
    count
}
