//! Servers that are down and that an instruction mentions.
ghost use Rattle.std.specs.Prelude.{◌≡◌, ◌<◌, All, None, IfSome, IfNone, length};
ghost use Rattle.sm_placement.specs.Layout.{place_of};
ghost use Rattle.sm_plan_code.specs.Plan.{IsKnownInstr, IsKnownStream};
ghost use Rattle.sm_verifier.specs.Downs.{lower_number, if_down, down_at, down_in_code, down_in_streams};
ghost use Rattle.sm_verifier.specs.Admission.{IsUpWhereMentioned, AreUp, IsLowest};

use sm_placement::Placement;
use sm_plan_code::{Instr, Stream, names};
use sm_server::ServerId;

/// Returns the lower one of two numbers, of those that are given.
pub(crate) fn lower(first: Option<u32>, second: Option<u32>) -> Option<u32>
    ensures { result ≡ lower_number first second }
{
    match (first, second) {
        (None, other) => other,
        (Some(number), None) => Some(number),
        (Some(number), Some(other)) => Some(number.min(other)),
    }
}

/// Returns the server's number, if it is down.
fn if_down(placement: &Placement, server: Option<ServerId>) -> Option<u32>
    requires { IfSome server (λ v. v < length placement.now.setup.servers) }
    ensures { result ≡ if_down (place_of placement.now).down server }
{
    match server {
        Some(server) if placement.is_down(server) => Some(server.number()),
        _ => None,
    }
}

/// Returns the number of the lowest server that is down: the one so far, or one that the instruction mentions.
fn down_at(placement: &Placement, lowest: Option<u32>, instr: &Instr) -> Option<u32>
    requires { IsKnownInstr (length placement.now.setup.shards) (length placement.now.setup.servers) instr.now }
    ensures { result ≡ down_at (place_of placement.now).down lowest instr.now }
{
    let names = names(instr);
    let with_first = lower(lowest, if_down(placement, names.first));
    lower(with_first, if_down(placement, names.second))
}

/// Returns the number of the lowest server that is down: the one so far, or one that the code mentions.
fn down_in(placement: &Placement, before: Option<u32>, code: &[Instr]) -> Option<u32>
    requires { All (IsKnownInstr (length placement.now.setup.shards) (length placement.now.setup.servers)) code.now }
    ensures { result ≡ down_in_code (place_of placement.now).down before code.now }
{
    let mut lowest = before;
    for instr in code {
        lowest = down_at(placement, lowest, instr);
    }
    lowest
}

/// Returns the lowest server that is down and that the streams mention.
fn down_of(placement: &Placement, streams: &[Stream]) -> Option<ServerId>
    requires { All (IsKnownStream (length placement.now.setup.shards) (length placement.now.setup.servers))
        streams.now }
    ensures { result ≡ down_in_streams (place_of placement.now).down None streams.now }
{
    let mut lowest = None;
    for stream in streams {
        lowest = down_in(placement, lowest, stream.code.as_slice());
    }
    lowest.map(ServerId::new)
}

/// Returns the lowest server that an instruction mentions though it is down.
pub(crate) fn first_down(placement: &Placement, streams: &[Stream]) -> Option<ServerId>
    requires { All (IsKnownStream (length placement.now.setup.shards) (length placement.now.setup.servers))
        streams.now }
    ensures lowest { IfSome result (IsLowest (IsUpWhereMentioned (place_of placement.now) streams.now)) }
    ensures none { IfNone result (AreUp (place_of placement.now) streams.now) }
{
    down_of(placement, streams)
}
