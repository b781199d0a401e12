//! The streams of a machine that have not finished.
ghost use Rattle.std.specs.Prelude.{◌≡◌, ◌≤◌, ◌<◌, ◌+◌, ◌++◌, length, vec_len, vec_capacity};
ghost use Rattle.sm_protocol.specs.State.{stream_count};
ghost use Rattle.sm_machine.specs.State.{state_of};
ghost use Rattle.sm_executor.specs.Closed.{unfinished_in, unfinished_streams};
ghost use Rattle.sm_executor.specs.declared.limits.TheConstants.{MOST_UNFINISHED};

use sm_machine::Machine;
use sm_reservation::StreamId;

/// Adds the streams of a plan that have not finished, each with the number of instructions that it has made. Takes no
/// memory.
fn push_unfinished(machine: &Machine, plan: u32, positions: &mut Vec<(StreamId, u32)>)
    requires known { plan < length (state_of machine.now).plans }
    requires room { vec_len positions.old + length
        (unfinished_in (state_of machine.now) plan (stream_count (state_of machine.now) plan)) ≤ vec_capacity
        positions.old }
    ensures items { positions.new.items ≡ positions.old.items
        ++ unfinished_in (state_of machine.now) plan (stream_count (state_of machine.now) plan) }
    ensures capacity { vec_capacity positions.new ≡ vec_capacity positions.old }
{
    machine.is_reached();
    for number in 0..machine.stream_count(plan) {
        let id = StreamId {
            plan,
            stream: number as u32,
        };
        if !machine.is_done(id) {
            positions.push_reserved((id, machine.position(id) as u32));
        }
    }
}

/// Lists the streams that have not finished, in a list with room for them. Takes no memory.
pub(crate) fn list_unfinished(machine: &Machine, positions: &mut Vec<(StreamId, u32)>)
    requires { MOST_UNFINISHED ≤ vec_capacity positions.old }
    ensures items { positions.new.items ≡ unfinished_streams (state_of machine.now) }
    ensures capacity { vec_capacity positions.new ≡ vec_capacity positions.old }
{
    machine.is_reached();
    positions.clear();
    for number in 0..machine.plan_count() {
        push_unfinished(machine, number as u32, positions);
    }
}
