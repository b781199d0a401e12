//! The changes since a place.
ghost use Rattle.std.specs.Prelude.{◌≡◌, ◌<◌, ◌++◌, OnOk, false, length};
ghost use Rattle.std.specs.List.{flat_map, range_with_len};
ghost use Rattle.smpland_state.specs.History.{later_streams};
ghost use Rattle.smpland_state.specs.Since.{changes_or_later, changes_since, ended_later, ended_since, entry_since};
ghost use Rattle.smpland_state.specs.Since.{number_if_later, orders_since, published_since, since_member};
ghost use Rattle.smpland_state.specs.Since.{since_members};

use crate::history::History;
use crate::journal_state::{JournalState, write_no_list};
use crate::published::write_entry;
use sm_reservation::StreamId;
use sm_server::ShardId;
use smpland_lines::{Writer, write_number, write_text};
use std::alloc::{AllocError, Global};

/// The places of a journal after one, up to the present one.
#[derive(Clone, Copy)]
pub struct LaterPlaces {
    pub after: u64,
    pub present: u64,
}

/// Keeps those of streams that came to where they stand after a place.
fn keep_later(ids: &mut Vec<StreamId>, history: &History, place: u64)
    ensures { ids.new.items ≡ later_streams history.now place ids.old.items }
{
    ids.retain(|id| place < history.ordered(*id));
}

/// Writes, as a member, the present messages that came up after a place.
fn write_later_orders(
    opened: &JournalState,
    alloc: Global,
    writer: &mut Writer,
    place: u64,
) -> Result<(), AllocError>
    ensures { OnOk result (writer.new.tokens ≡ writer.old.tokens ++ orders_since opened.now false place) }
{
    let mut ids = Vec::new(alloc);
    opened.driver.awaiting(&mut ids)?;
    keep_later(&mut ids, &opened.history, place);
    opened.messages(alloc).write_orders(writer, ids.as_slice())
}

/// Writes the same: none while a reopening is under way.
fn write_orders_since(
    opened: &JournalState,
    is_reopening: bool,
    alloc: Global,
    writer: &mut Writer,
    place: u64,
) -> Result<(), AllocError>
    ensures { OnOk result (writer.new.tokens ≡ writer.old.tokens ++ orders_since opened.now is_reopening place) }
{
    if is_reopening {
        write_no_list(writer, "orders")
    } else {
        write_later_orders(opened, alloc, writer, place)
    }
}

/// Writes a shard's entry of the map, if it changed after a place.
fn write_entry_since(
    opened: &JournalState,
    writer: &mut Writer,
    place: u64,
    shard: ShardId,
) -> Result<(), AllocError>
    requires { shard < length opened.now.driver.machine.placement.setup.shards }
    ensures { OnOk result (writer.new.tokens ≡ writer.old.tokens ++ entry_since opened.now place shard) }
{
    if place < opened.history.published(shard) {
        write_entry(opened, writer, shard)
    } else {
        Ok(())
    }
}

/// Writes the entries of the map that changed after a place.
fn write_each_since(
    opened: &JournalState,
    writer: &mut Writer,
    place: u64,
) -> Result<(), AllocError>
    ensures { OnOk result (writer.new.tokens ≡ writer.old.tokens ++ flat_map (entry_since opened.now place)
        (range_with_len 0 (length opened.now.driver.machine.placement.setup.shards))) }
{
    for number in 0..opened.driver.machine().config().shard_count() {
        write_entry_since(opened, writer, place, ShardId::new(number))?;
    }
    Ok(())
}

/// Writes them, as a member.
fn write_published_since(
    opened: &JournalState,
    writer: &mut Writer,
    place: u64,
) -> Result<(), AllocError>
    ensures { OnOk result (writer.new.tokens ≡ writer.old.tokens ++ published_since opened.now place) }
{
    writer.key("published")?;
    writer.begin_array()?;
    write_each_since(opened, writer, place)?;
    writer.end_array()?;
    Ok(())
}

/// Writes the number of a plan, if it ended after a place.
fn write_if_later(
    writer: &mut Writer,
    place: u64,
    number: usize,
    ended: Option<u64>,
) -> Result<(), AllocError>
    ensures { OnOk result (writer.new.tokens ≡ writer.old.tokens ++ number_if_later place number ended) }
{
    match ended {
        Some(at) if place < at => writer.u64(number as u64),
        _ => Ok(()),
    }
}

/// Writes the numbers of the plans of the epoch that ended after a place.
fn write_each_ended(history: &History, writer: &mut Writer, place: u64) -> Result<(), AllocError>
    ensures { OnOk result (writer.new.tokens ≡ writer.old.tokens ++ ended_later history.now place) }
{
    for number in 0..history.plan_count() {
        write_if_later(writer, place, number, history.ended(number))?;
    }
    Ok(())
}

/// Writes them, as a member.
fn write_ended_since(history: &History, writer: &mut Writer, place: u64) -> Result<(), AllocError>
    ensures { OnOk result (writer.new.tokens ≡ writer.old.tokens ++ ended_since history.now place) }
{
    writer.key("ended")?;
    writer.begin_array()?;
    write_each_ended(history, writer, place)?;
    writer.end_array()?;
    Ok(())
}

/// Writes the messages and the entries that came up after a place, and the plans that ended after it.
fn write_changes_since(
    opened: &JournalState,
    is_reopening: bool,
    alloc: Global,
    writer: &mut Writer,
    place: u64,
) -> Result<(), AllocError>
    ensures { OnOk result (writer.new.tokens ≡ writer.old.tokens ++ changes_since opened.now is_reopening place) }
{
    write_orders_since(opened, is_reopening, alloc, writer, place)?;
    write_published_since(opened, writer, place)?;
    write_ended_since(&opened.history, writer, place)?;
    Ok(())
}

/// Writes the same, or that the place is still to come.
fn write_changes_or_later(
    opened: &JournalState,
    is_reopening: bool,
    alloc: Global,
    writer: &mut Writer,
    places: LaterPlaces,
) -> Result<(), AllocError>
    ensures { OnOk result (writer.new.tokens
        ≡ writer.old.tokens ++ changes_or_later opened.now is_reopening places.present places.after) }
{
    if places.present < places.after {
        write_text(writer, "is", "later")
    } else {
        write_changes_since(opened, is_reopening, alloc, writer, places.after)
    }
}

/// Writes the members of what came up at later places.
fn write_since_members(
    opened: &JournalState,
    is_reopening: bool,
    alloc: Global,
    writer: &mut Writer,
    places: LaterPlaces,
) -> Result<(), AllocError>
    ensures { OnOk result (writer.new.tokens
        ≡ writer.old.tokens ++ since_members opened.now is_reopening places.present places.after) }
{
    write_number(writer, "place", places.present)?;
    write_changes_or_later(opened, is_reopening, alloc, writer, places)?;
    Ok(())
}

/// Writes, as a member of a reply, what came up at later places. While a reopening is under way there are no messages.
pub fn write_since(
    opened: &JournalState,
    is_reopening: bool,
    alloc: Global,
    writer: &mut Writer,
    places: LaterPlaces,
) -> Result<(), AllocError>
    ensures { OnOk result (writer.new.tokens
        ≡ writer.old.tokens ++ since_member opened.now is_reopening places.present places.after) }
{
    writer.key("since")?;
    writer.begin_object()?;
    write_since_members(opened, is_reopening, alloc, writer, places)?;
    writer.end_object()?;
    Ok(())
}
