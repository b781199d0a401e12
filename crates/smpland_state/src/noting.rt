//! Notes of what a command did, beside the driver.
ghost use Rattle.std.specs.Prelude.{◌≡◌, OnOk};
ghost use Rattle.sm_machine.specs.State.{state_of};
ghost use Rattle.sm_driver.specs.Driver.{record_of};
ghost use Rattle.smpland_state.specs.Notes.{stream_of_message, with_answered, with_change, with_end, with_moves};
ghost use Rattle.smpland_state.specs.Notes.{with_new_plan};

use crate::begun_plan::BegunPlan;
use crate::history::History;
use sm_driver::{Driver, StreamMessage};
use sm_machine::Machine;
use sm_reservation::StreamId;
use std::alloc::AllocError;

/// Notes that a plan has ended at a place, if it has.
fn note_end(history: &mut History, machine: &Machine, place: u64, plan: u32)
    ensures { history.new ≡ with_end history.old (state_of machine.now) place plan }
{
    if !machine.unfinished().contains(&plan) {
        history.note_ended(place, plan);
    }
}

/// Notes that the next plan of a driver has begun at a place.
pub fn note_begun(
    history: &mut History,
    driver: &Driver,
    place: u64,
    plan: BegunPlan,
) -> Result<(), AllocError>
    ensures { OnOk result (history.new ≡ with_new_plan history.old (record_of driver.now) place plan) }
{
    history.note_begun(place, plan.streams)?;
    note_end(history, driver.machine(), place, plan.number);
    Ok(())
}

/// Notes at a place what the answer to a message has changed.
fn note_change(history: &mut History, place: u64, message: &StreamMessage) -> Result<(), AllocError>
    ensures { OnOk result (history.new ≡ with_change history.old place message.now) }
{
    match message {
        StreamMessage::Order(order) => {
            history.note_recorded(place, order.call.shard, order.call.server)
        }
        StreamMessage::Publication(publication) => {
            history.note_published(place, publication.shard);
            Ok(())
        }
    }
}

/// The stream that stood before a message.
fn stream_of(message: &StreamMessage) -> StreamId
    ensures { result ≡ stream_of_message message.now }
{
    match message {
        StreamMessage::Order(order) => order.stream,
        StreamMessage::Publication(publication) => publication.stream,
    }
}

/// Notes that streams have come to where they stand at a place.
fn note_moves(history: &mut History, place: u64, gone_on: &[StreamId])
    ensures { history.new ≡ with_moves history.old place gone_on.now }
{
    for id in gone_on {
        history.note_moved(place, *id);
    }
}

/// Notes that a message was answered at a place: what it has changed, which streams of its plan have gone on, and
/// whether the plan has ended.
pub fn note_answered(
    history: &mut History,
    driver: &Driver,
    place: u64,
    message: StreamMessage,
    gone_on: &[StreamId],
) -> Result<(), AllocError>
    ensures { OnOk result (history.new
        ≡ with_answered history.old (record_of driver.now) place message gone_on.now) }
{
    note_change(history, place, &message)?;
    note_moves(history, place, gone_on);
    note_end(history, driver.machine(), place, stream_of(&message).plan);
    Ok(())
}
