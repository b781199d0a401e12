//! The order and the publication that a stream stands before.
ghost use Rattle.std.specs.Prelude.{◌≡◌, ◌≤◌, ◌<◌, ◌++◌, IfSome, OnOk, length, option_map, true};
ghost use Rattle.std.specs.Option.{option_to_list};
ghost use Rattle.sm_protocol.specs.State.{is_begun, numbers_end};
ghost use Rattle.laws_network.specs.Net.{call_above, order_of};
ghost use Rattle.laws_network.specs.World.{publication_of};
ghost use Rattle.sm_machine.specs.State.{state_of};
ghost use Rattle.sm_driver.specs.Orders.{awaiting, awaiting_in, awaiting_of, awaits, bases_end, handover_of};
ghost use Rattle.sm_driver.specs.Orders.{message_number, message_of, net_message, net_order, net_publication};
ghost use Rattle.sm_driver.specs.Orders.{number_above};

use crate::order::{StreamMessage, StreamOrder, StreamPublication};
use sm_machine::Machine;
use sm_placement::Entry;
use sm_plan_code::ServerCall;
use sm_reservation::StreamId;
use sm_server::Call;
use std::alloc::AllocError;

/// A call with the base added to its handover number, if it has one.
fn call_above(base: u64, call: Call) -> Call
    requires base { base < bases_end }
    requires number { handover_of call ≤ numbers_end }
    ensures { result ≡ call_above base call }
{
    match call {
        Call::PrepareAdd { owner, number } => Call::PrepareAdd {
            owner,
            number: base + number,
        },
        Call::PrepareDrop { new_owner, number } => Call::PrepareDrop {
            new_owner,
            number: base + number,
        },
        Call::Add(role) => Call::Add(role),
        Call::Drop => Call::Drop,
        Call::Change { from, to } => Call::Change { from, to },
    }
}

/// The number of the order, or of the publication, that a stream stands before.
pub fn order_number(machine: &Machine, base: u64, id: StreamId) -> u64
    requires base { base < bases_end }
    requires begun { is_begun (state_of machine.now) id ≡ true }
    ensures { result ≡ number_above base (state_of machine.now) id }
{
    base + machine.since(id) as u64 + 1
}

/// The order of a running stream that stands before a call.
pub fn order_of(machine: &Machine, base: u64, id: StreamId) -> Option<StreamOrder>
    requires { base < bases_end }
    ensures order { option_map net_order result ≡ order_of base (state_of machine.now) id }
    ensures number { IfSome result (λ o. o.number ≡ number_above base (state_of machine.now) id) }
{
    machine.is_reached();
    let next = machine.next_call(id)?;
    Some(StreamOrder {
        stream: id,
        at: machine.position(id) as u64,
        call: ServerCall {
            shard: next.shard,
            server: next.server,
            call: call_above(base, next.call),
        },
        number: order_number(machine, base, id),
    })
}

/// The publication of a running stream that stands before one.
pub fn publication_of(machine: &Machine, base: u64, id: StreamId) -> Option<StreamPublication>
    requires { base < bases_end }
    ensures publication { option_map net_publication result ≡ publication_of base (state_of machine.now) id }
    ensures number { IfSome result (λ p. p.number ≡ number_above base (state_of machine.now) id) }
{
    machine.is_reached();
    let (shard, entry) = machine.next_entry(id)?;
    Some(StreamPublication {
        stream: id,
        shard,
        entry: Entry {
            server: entry.server,
            version: base + entry.version,
        },
        number: order_number(machine, base, id),
    })
}

/// The order or the publication that a running stream stands before.
pub fn message_of(machine: &Machine, base: u64, id: StreamId) -> Option<StreamMessage>
    requires { base < bases_end }
    ensures message { option_map net_message result ≡ message_of base (state_of machine.now) id }
    ensures number { IfSome result (λ m. message_number m ≡ number_above base (state_of machine.now) id) }
{
    if let Some(order) = order_of(machine, base, id) {
        return Some(StreamMessage::Order(order));
    }
    let publication = publication_of(machine, base, id)?;
    Some(StreamMessage::Publication(publication))
}

/// Whether a stream stands before a call or an entry of the published map.
pub fn awaits(machine: &Machine, id: StreamId) -> bool
    ensures { result ≡ awaits (state_of machine.now) id }
{
    machine.next_call(id).is_some() || machine.next_entry(id).is_some()
}

/// Adds a stream to a list, if it waits for an answer.
fn push_stream(machine: &Machine, id: StreamId, list: &mut Vec<StreamId>) -> Result<(), AllocError>
    ensures { OnOk result (list.new.items ≡ list.old.items ++ option_to_list (awaiting (state_of machine.now) id)) }
{
    if awaits(machine, id) {
        list.push(id)?;
    }
    Ok(())
}

/// Adds the streams of a plan that wait for answers to a list.
fn push_streams(machine: &Machine, plan: u32, list: &mut Vec<StreamId>) -> Result<(), AllocError>
    requires { plan < length (state_of machine.now).plans }
    ensures { OnOk result (list.new.items ≡ list.old.items ++ awaiting_in (state_of machine.now) plan) }
{
    let count = machine.plan(plan).streams().len();
    for stream in 0..count {
        let id = StreamId {
            plan,
            stream: stream as u32,
        };
        push_stream(machine, id, list)?;
    }
    Ok(())
}

/// Writes all streams that wait for answers into a list, by plan, then by stream. The list's old entries are gone.
pub fn awaiting(machine: &Machine, list: &mut Vec<StreamId>) -> Result<(), AllocError>
    ensures { OnOk result (list.new.items ≡ awaiting_of (state_of machine.now)) }
{
    list.clear();
    for plan in machine.unfinished() {
        push_streams(machine, *plan, list)?;
    }
    Ok(())
}
