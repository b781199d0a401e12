//! The two sides of each shard, by the shards' numbers: the slot that is told, and the stream that has a present order.
ghost use Rattle.std.specs.Prelude.{◌≡◌, ◌==◌, ◌&&◌, ◌<◌, ◌∷◌, ◌++◌, [], ℕ, IfOk, None, OnOk, Some, if◌then◌else◌};
ghost use Rattle.std.specs.Prelude.{length, slice_index_or};
ghost use Rattle.std.specs.List.{filter};
ghost use Rattle.smpland_state.specs.Audit.{audited_slots, is_order_to, is_slot_of, is_unknown_shard, streams_to};

use sm_driver::Driver;
use sm_placement::Config;
use sm_plan_code::ServerCall;
use sm_reservation::StreamId;
use sm_server::{ServerId, ShardId};
use smpland_lines::SlotText;
use std::alloc::{AllocError, Global};

/// Puts an item at a shard's place.
fn put_at<T: Copy>(items: &mut Vec<Option<T>>, shard: ShardId, item: T)
    ensures count { length items.new.items ≡ length items.old.items }
    ensures put { (s : ℕ) → s < length items.old.items → slice_index_or items.new.items s None
        ≡ (if shard == s then Some item else slice_index_or items.old.items s None) }
{
    let place = shard.number() as usize;
    if place < items.len() {
        items[place] = Some(item);
    }
}

/// Puts a slot at the place of its shard, if that is recorded.
fn put_slot<'s>(items: &mut Vec<Option<SlotText<'s>>>, config: &Config, slot: SlotText<'s>)
    ensures count { length items.new.items ≡ length items.old.items }
    ensures put { (s : ℕ) → s < length items.old.items → slice_index_or items.new.items s None
        ≡ (if is_slot_of config.now s slot.entry then Some slot.entry else slice_index_or items.old.items s None) }
{
    if let Some(shard) = config.shard_named(slot.shard) {
        put_at(items, shard, slot);
    }
}

/// The told slot of each shard, by the shards' numbers.
pub fn slots_by_shard<'s>(
    alloc: Global,
    config: &Config,
    slots: &[SlotText<'s>],
) -> Result<Vec<Option<SlotText<'s>>>, AllocError>
    ensures { IfOk result (λ told. told.items ≡ audited_slots config.now slots.now) }
{
    let mut told = vec![in alloc; None; config.shard_count() as usize]?;
    for slot in slots {
        put_slot(&mut told, config, *slot);
    }
    Ok(told)
}

/// Puts a stream at the place of its call's shard, if the call is one to this server.
fn put_if_to(items: &mut Vec<Option<StreamId>>, server: ServerId, call: ServerCall, id: StreamId)
    ensures count { length items.new.items ≡ length items.old.items }
    ensures put { (s : ℕ) → s < length items.old.items → slice_index_or items.new.items s None
        ≡ (if (call.server == server) && (call.shard == s) then Some id else slice_index_or items.old.items s None) }
{
    if call.server == server {
        put_at(items, call.shard, id);
    }
}

/// Puts a stream at the place of its shard, if its present order is one to this server.
fn put_stream(items: &mut Vec<Option<StreamId>>, driver: &Driver, server: ServerId, id: StreamId)
    ensures count { length items.new.items ≡ length items.old.items }
    ensures put { (s : ℕ) → s < length items.old.items → slice_index_or items.new.items s None
        ≡ (if is_order_to driver.now server s id then Some id else slice_index_or items.old.items s None) }
{
    match driver.order(id) {
        Some(order) => put_if_to(items, server, order.call, id),
        None => {}
    }
}

/// The stream that has a present order to a server for each shard, by the shards' numbers.
pub fn streams_by_shard(
    alloc: Global,
    driver: &Driver,
    server: ServerId,
) -> Result<Vec<Option<StreamId>>, AllocError>
    ensures { IfOk result (λ streams. streams.items ≡ streams_to driver.now server) }
{
    let mut ids = Vec::new(alloc);
    driver.awaiting(&mut ids)?;
    let mut streams = vec![in alloc; None; driver.machine().config().shard_count() as usize]?;
    for id in ids.as_slice() {
        put_stream(&mut streams, driver, server, *id);
    }
    Ok(streams)
}

/// Adds a slot to a list, if its shard is not recorded.
fn push_if_unknown_shard<'s>(
    unknown_shards: &mut Vec<SlotText<'s>>,
    config: &Config,
    slot: SlotText<'s>,
) -> Result<(), AllocError>
    ensures { OnOk result (unknown_shards.new.items
        ≡ unknown_shards.old.items ++ (if is_unknown_shard config.now slot.entry then slot.entry ∷ [] else [])) }
{
    if config.shard_named(slot.shard).is_none() {
        unknown_shards.push(slot)?;
    }
    Ok(())
}

/// The slots whose shards are not recorded.
pub fn unknown_shards_among<'s>(
    alloc: Global,
    config: &Config,
    slots: &[SlotText<'s>],
) -> Result<Vec<SlotText<'s>>, AllocError>
    ensures { IfOk result (λ unknown_shards. unknown_shards.items ≡ filter (is_unknown_shard config.now) slots.now) }
{
    let mut unknown_shards = Vec::new(alloc);
    for slot in slots {
        push_if_unknown_shard(&mut unknown_shards, config, *slot)?;
    }
    Ok(unknown_shards)
}
