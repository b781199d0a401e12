//! The holders of a shard's data, and of its replicas.
ghost use Rattle.std.specs.Prelude.{◌≡◌, ◌<◌, ◌++◌, OnOk, length, not, option_map};
ghost use Rattle.std.specs.List.{flat_map, range_with_len};
ghost use Rattle.sm_server.specs.Cell.{is_absent};
ghost use Rattle.sm_placement.specs.Lead.{lead_of};
ghost use Rattle.sm_placement.specs.Layout.{place_of};
ghost use Rattle.smpland_lines.specs.Members.{name_member, server_text};
ghost use Rattle.smpland_state.specs.Messages.{holder_members, owner_under, replica_text, replicas_member};

use sm_placement::{Config, Lead, Placement};
use sm_server::{ServerId, ShardId};
use smpland_lines::{Writer, server_name};
use std::alloc::AllocError;

/// The server that has a shard's data under a lead: in a handover the old owner until the new one has taken
/// over.
fn owner_under(lead: Option<Lead>) -> Option<ServerId>
    ensures { result ≡ owner_under lead }
{
    match lead? {
        Lead::Gone => None,
        Lead::At(owner) => Some(owner),
        Lead::Ready(owner, _) => Some(owner),
        Lead::Handing(owner, _) => Some(owner),
        Lead::Handed(_, owner) => Some(owner),
    }
}

/// The server that has a shard's data: none if there is no such shard.
pub fn owner_of(placement: &Placement, shard: ShardId) -> Option<ServerId>
    ensures { result ≡ owner_under (lead_of (length placement.now.setup.servers)
        ((place_of placement.now).cells shard)) }
{
    if shard.number() >= placement.config().shard_count() {
        return None;
    }
    owner_under(placement.lead(shard))
}

/// Whether a server has a replica of a shard, or a place for one.
pub fn has_replica(placement: &Placement, shard: ShardId, server: ServerId) -> bool
    requires { server < length placement.now.setup.servers }
    ensures { result ≡ not (is_absent ((place_of placement.now).cells shard server)) }
{
    if shard.number() >= placement.config().shard_count() {
        return false;
    }
    !placement.cell(shard, server).is_absent()
}

/// Writes, as a member, a server's name, or null for none.
pub fn write_listed(
    writer: &mut Writer,
    config: &Config,
    name: &str,
    listed: Option<ServerId>,
) -> Result<(), AllocError>
    ensures { OnOk result (writer.new.tokens ≡ writer.old.tokens
        ++ name_member name.now (option_map (server_text config.now) listed)) }
{
    writer.key(name)?;
    match listed {
        Some(server) => writer.string(server_name(config, server)),
        None => writer.null(),
    }
}

/// Writes the name of a server that has a replica of a shard, or a place for one.
fn write_replica(
    writer: &mut Writer,
    placement: &Placement,
    shard: ShardId,
    server: ServerId,
) -> Result<(), AllocError>
    requires { server < length placement.now.setup.servers }
    ensures { OnOk result (writer.new.tokens ≡ writer.old.tokens
        ++ replica_text placement.now.setup ((place_of placement.now).cells shard) server) }
{
    if has_replica(placement, shard, server) {
        writer.string(server_name(placement.config(), server))?;
    }
    Ok(())
}

/// Writes the names of the servers that have a replica of a shard, or a place for one.
fn write_each_replica(
    writer: &mut Writer,
    placement: &Placement,
    shard: ShardId,
) -> Result<(), AllocError>
    ensures { OnOk result (writer.new.tokens ≡ writer.old.tokens
        ++ flat_map (replica_text placement.now.setup ((place_of placement.now).cells shard))
        (range_with_len 0 (length placement.now.setup.servers))) }
{
    for server in 0..placement.config().server_count() {
        write_replica(writer, placement, shard, ServerId::new(server))?;
    }
    Ok(())
}

/// Writes them, as a member.
fn write_replicas(
    writer: &mut Writer,
    placement: &Placement,
    shard: ShardId,
) -> Result<(), AllocError>
    ensures { OnOk result (writer.new.tokens ≡ writer.old.tokens
        ++ replicas_member placement.now.setup ((place_of placement.now).cells shard)) }
{
    writer.key("replicas")?;
    writer.begin_array()?;
    write_each_replica(writer, placement, shard)?;
    writer.end_array()?;
    Ok(())
}

/// Writes, as members, the server that has a shard's data, and all that have a replica or a place for one.
pub fn write_holders(
    writer: &mut Writer,
    placement: &Placement,
    shard: ShardId,
) -> Result<(), AllocError>
    ensures { OnOk result (writer.new.tokens ≡ writer.old.tokens
        ++ holder_members placement.now.setup ((place_of placement.now).cells shard)) }
{
    let owner = owner_of(placement, shard);
    write_listed(writer, placement.config(), "primary", owner)?;
    write_replicas(writer, placement, shard)?;
    Ok(())
}
