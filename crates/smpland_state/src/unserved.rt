//! The shards that nobody serves while a server is down.
ghost use Rattle.std.specs.Prelude.{◌≡◌, ◌++◌, OnOk, length};
ghost use Rattle.std.specs.List.{flat_map, range_with_len};
ghost use Rattle.sm_placement.specs.Layout.{place_of};
ghost use Rattle.smpland_state.specs.Unserved.{has_data, is_owner, unserved_member, unserved_text};

use crate::holders::{has_replica, owner_of};
use sm_placement::Placement;
use sm_server::{ServerId, ShardId};
use smpland_lines::{Writer, shard_name};
use std::alloc::AllocError;

/// Whether a server is this owner.
pub fn is_owner(owner: &Option<ServerId>, server: ServerId) -> bool
    ensures { result ≡ is_owner owner.now server }
{
    match owner {
        Some(owner) => *owner == server,
        None => false,
    }
}

/// Whether a server has a shard's data. The shard's owner is looked for only if the server has something of it.
fn has_data(placement: &Placement, server: ServerId, shard: ShardId) -> bool
    ensures { result ≡ has_data placement.now.setup (place_of placement.now) server shard }
{
    let is_known = server.number() < placement.config().server_count();
    if is_known && !has_replica(placement, shard, server) {
        return false;
    }
    is_owner(&owner_of(placement, shard), server)
}

/// Writes the name of a shard, if a server has its data.
fn write_unserved_shard(
    writer: &mut Writer,
    placement: &Placement,
    server: ServerId,
    shard: ShardId,
) -> Result<(), AllocError>
    ensures { OnOk result (writer.new.tokens
        ≡ writer.old.tokens ++ unserved_text placement.now.setup (place_of placement.now) server shard) }
{
    if has_data(placement, server, shard) {
        writer.string(shard_name(placement.config(), shard))?;
    }
    Ok(())
}

/// Writes the names of the shards whose data a server has.
fn write_each_unserved(
    writer: &mut Writer,
    placement: &Placement,
    server: ServerId,
) -> Result<(), AllocError>
    ensures { OnOk result (writer.new.tokens
        ≡ writer.old.tokens
        ++ flat_map (unserved_text placement.now.setup (place_of placement.now) server)
        (range_with_len 0 (length placement.now.setup.shards))) }
{
    for shard in 0..placement.config().shard_count() {
        write_unserved_shard(writer, placement, server, ShardId::new(shard))?;
    }
    Ok(())
}

/// Writes them, as a member.
pub fn write_unserved(
    writer: &mut Writer,
    placement: &Placement,
    server: ServerId,
) -> Result<(), AllocError>
    ensures { OnOk result (writer.new.tokens
        ≡ writer.old.tokens ++ unserved_member placement.now.setup (place_of placement.now) server) }
{
    writer.key("unserved")?;
    writer.begin_array()?;
    write_each_unserved(writer, placement, server)?;
    writer.end_array()?;
    Ok(())
}
