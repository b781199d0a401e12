//! The service as a document.
ghost use Rattle.std.specs.Prelude.{◌≡◌, ◌<◌, ◌++◌, OnOk, length, option_map};
ghost use Rattle.std.specs.List.{flat_map, range_with_len};
ghost use Rattle.sm_placement.specs.Config.{server_row as row_of_server, shard_row as row_of_shard};
ghost use Rattle.sm_placement.specs.Layout.{place_of};
ghost use Rattle.sm_driver.specs.Driver.{record_of};
ghost use Rattle.smpland_state.specs.Document.{document_member, document_members, listed_owner, owner_in};
ghost use Rattle.smpland_state.specs.Document.{replica_row, replica_rows, role_members, role_word, server_members};
ghost use Rattle.smpland_state.specs.Document.{document_server, document_shard, servers_member, shard_members};
ghost use Rattle.smpland_state.specs.Document.{flag_member, shard_numbers, shards_member};

use crate::holders::{owner_of, write_listed};
use crate::journal_state::JournalState;
use crate::unserved::is_owner;
use sm_placement::{Placement, Server, Shard};
use sm_server::{Cell, ServerId, ShardId};
use smpland_lines::{Writer, server_name, write_number, write_text};
use std::alloc::AllocError;

/// Writes a member that is true or false.
pub fn write_flag(writer: &mut Writer, name: &str, flag: bool) -> Result<(), AllocError>
    ensures { OnOk result (writer.new.tokens ≡ writer.old.tokens ++ flag_member name.now flag) }
{
    writer.key(name)?;
    writer.boolean(flag)
}

/// Writes the members of a server.
fn write_server_members(
    writer: &mut Writer,
    server: &Server,
    is_down: bool,
) -> Result<(), AllocError>
    ensures { OnOk result (writer.new.tokens
        ≡ writer.old.tokens ++ server_members (row_of_server server.now) is_down) }
{
    write_text(writer, "name", server.name.as_str())?;
    write_text(writer, "region", server.region.as_str())?;
    write_number(writer, "room", server.room)?;
    write_flag(writer, "down", is_down)?;
    Ok(())
}

/// Writes a server, which is down if it has a permit.
fn write_server(
    opened: &JournalState,
    writer: &mut Writer,
    server: ServerId,
) -> Result<(), AllocError>
    requires { server < length opened.now.driver.machine.placement.setup.servers }
    ensures { OnOk result (writer.new.tokens ≡ writer.old.tokens
        ++ document_server opened.now.driver.machine.placement.setup opened.now.driver.permits server) }
{
    let row = opened.driver.machine().config().server(server);
    let is_down = opened.permit_of(server).is_some();
    writer.begin_object()?;
    write_server_members(writer, row, is_down)?;
    writer.end_object()?;
    Ok(())
}

/// Writes all servers.
fn write_each_server(opened: &JournalState, writer: &mut Writer) -> Result<(), AllocError>
    ensures { OnOk result (writer.new.tokens ≡ writer.old.tokens
        ++ flat_map (document_server opened.now.driver.machine.placement.setup opened.now.driver.permits)
        (range_with_len 0 (length opened.now.driver.machine.placement.setup.servers))) }
{
    for number in 0..opened.driver.machine().config().server_count() {
        write_server(opened, writer, ServerId::new(number))?;
    }
    Ok(())
}

/// Writes them, as a member.
fn write_servers(opened: &JournalState, writer: &mut Writer) -> Result<(), AllocError>
    ensures { OnOk result (writer.new.tokens ≡ writer.old.tokens
        ++ servers_member opened.now.driver.machine.placement.setup opened.now.driver.permits) }
{
    writer.key("servers")?;
    writer.begin_array()?;
    write_each_server(opened, writer)?;
    writer.end_array()?;
    Ok(())
}

/// The role of a server that has a shard's data, or has this cell.
fn role_word(has_data: bool, cell: Cell) -> Option<&'static str>
    ensures { option_map (λ word. word.now) result ≡ role_word has_data cell }
{
    if has_data {
        return Some("primary");
    }
    match cell {
        Cell::Secondary => Some("secondary"),
        Cell::Absent | Cell::Primary | Cell::Prepared { .. } | Cell::Forwarding { .. } => None,
    }
}

/// Writes the members of a replica.
fn write_role_members(writer: &mut Writer, server: &str, role: &str) -> Result<(), AllocError>
    ensures { OnOk result (writer.new.tokens ≡ writer.old.tokens ++ role_members server.now role.now) }
{
    write_text(writer, "server", server)?;
    write_text(writer, "state", role)?;
    Ok(())
}

/// Writes the replica that a server has of a shard with this owner, if it has one.
fn write_replica_row(
    writer: &mut Writer,
    placement: &Placement,
    shard: ShardId,
    owner: &Option<ServerId>,
    server: ServerId,
) -> Result<(), AllocError>
    requires shard { shard < length placement.now.setup.shards }
    requires owner { owner.now ≡ owner_in placement.now.setup ((place_of placement.now).cells shard) }
    requires server { server < length placement.now.setup.servers }
    ensures { OnOk result (writer.new.tokens ≡ writer.old.tokens
        ++ replica_row placement.now.setup ((place_of placement.now).cells shard) server) }
{
    let has_data = is_owner(owner, server);
    if let Some(role) = role_word(has_data, placement.cell(shard, server)) {
        writer.begin_object()?;
        write_role_members(writer, server_name(placement.config(), server), role)?;
        writer.end_object()?;
    }
    Ok(())
}

/// Writes the replicas of a shard with this owner.
fn write_each_replica_row(
    writer: &mut Writer,
    placement: &Placement,
    shard: ShardId,
    owner: &Option<ServerId>,
) -> Result<(), AllocError>
    requires shard { shard < length placement.now.setup.shards }
    requires owner { owner.now ≡ owner_in placement.now.setup ((place_of placement.now).cells shard) }
    ensures { OnOk result (writer.new.tokens ≡ writer.old.tokens
        ++ flat_map (replica_row placement.now.setup ((place_of placement.now).cells shard))
        (range_with_len 0 (length placement.now.setup.servers))) }
{
    for number in 0..placement.config().server_count() {
        write_replica_row(writer, placement, shard, owner, ServerId::new(number))?;
    }
    Ok(())
}

/// Writes them, as a member.
fn write_replica_rows(
    writer: &mut Writer,
    placement: &Placement,
    shard: ShardId,
    owner: &Option<ServerId>,
) -> Result<(), AllocError>
    requires shard { shard < length placement.now.setup.shards }
    requires owner { owner.now ≡ owner_in placement.now.setup ((place_of placement.now).cells shard) }
    ensures { OnOk result (writer.new.tokens ≡ writer.old.tokens
        ++ replica_rows placement.now.setup ((place_of placement.now).cells shard)) }
{
    writer.key("cells")?;
    writer.begin_array()?;
    write_each_replica_row(writer, placement, shard, owner)?;
    writer.end_array()?;
    Ok(())
}

/// The server that is listed for a shard, if it is the shard's owner.
fn listed_owner(listed: Option<ServerId>, owner: &Option<ServerId>) -> Option<ServerId>
    ensures { result ≡ listed_owner listed owner.now }
{
    let listed = listed?;
    if is_owner(owner, listed) {
        Some(listed)
    } else {
        None
    }
}

/// Writes a shard's numbers.
fn write_shard_numbers(writer: &mut Writer, shard: &Shard) -> Result<(), AllocError>
    ensures { OnOk result (writer.new.tokens ≡ writer.old.tokens ++ shard_numbers (row_of_shard shard.now)) }
{
    write_text(writer, "name", shard.name.as_str())?;
    write_number(writer, "load", shard.load)?;
    write_number(writer, "want", u64::from(shard.want))?;
    write_number(writer, "cap", u64::from(shard.cap))?;
    write_number(writer, "spread", u64::from(shard.spread))?;
    Ok(())
}

/// Writes the members of a shard.
fn write_shard_members(
    writer: &mut Writer,
    placement: &Placement,
    shard: ShardId,
) -> Result<(), AllocError>
    requires { shard < length placement.now.setup.shards }
    ensures { OnOk result (writer.new.tokens
        ≡ writer.old.tokens ++ shard_members placement.now.setup (place_of placement.now) shard) }
{
    write_shard_numbers(writer, placement.config().shard(shard))?;
    let owner = owner_of(placement, shard);
    let listed = listed_owner(placement.listed(shard), &owner);
    write_listed(writer, placement.config(), "listed", listed)?;
    write_replica_rows(writer, placement, shard, &owner)?;
    Ok(())
}

/// Writes a shard.
fn write_shard(writer: &mut Writer, placement: &Placement, shard: ShardId) -> Result<(), AllocError>
    requires { shard < length placement.now.setup.shards }
    ensures { OnOk result (writer.new.tokens
        ≡ writer.old.tokens ++ document_shard placement.now.setup (place_of placement.now) shard) }
{
    writer.begin_object()?;
    write_shard_members(writer, placement, shard)?;
    writer.end_object()?;
    Ok(())
}

/// Writes all shards.
fn write_each_shard(writer: &mut Writer, placement: &Placement) -> Result<(), AllocError>
    ensures { OnOk result (writer.new.tokens ≡ writer.old.tokens
        ++ flat_map (document_shard placement.now.setup (place_of placement.now))
        (range_with_len 0 (length placement.now.setup.shards))) }
{
    for number in 0..placement.config().shard_count() {
        write_shard(writer, placement, ShardId::new(number))?;
    }
    Ok(())
}

/// Writes them, as a member.
fn write_shards(writer: &mut Writer, placement: &Placement) -> Result<(), AllocError>
    ensures { OnOk result (writer.new.tokens
        ≡ writer.old.tokens ++ shards_member placement.now.setup (place_of placement.now)) }
{
    writer.key("shards")?;
    writer.begin_array()?;
    write_each_shard(writer, placement)?;
    writer.end_array()?;
    Ok(())
}

/// Writes the members of the document.
fn write_document_members(opened: &JournalState, writer: &mut Writer) -> Result<(), AllocError>
    ensures { OnOk result (writer.new.tokens ≡ writer.old.tokens
        ++ document_members opened.now.driver.machine.placement.setup (record_of opened.now.driver).place
        opened.now.driver.permits opened.now.log_room) }
{
    let placement = opened.driver.machine().placement();
    write_number(writer, "limit", u64::from(placement.limit()))?;
    write_number(writer, "log", u64::from(opened.log_room))?;
    write_servers(opened, writer)?;
    write_shards(writer, placement)?;
    Ok(())
}

/// Writes, as a member of a reply, the service as a document.
pub fn write_document(opened: &JournalState, writer: &mut Writer) -> Result<(), AllocError>
    ensures { OnOk result (writer.new.tokens ≡ writer.old.tokens ++ document_member opened.now) }
{
    writer.key("document")?;
    writer.begin_object()?;
    write_document_members(opened, writer)?;
    writer.end_object()?;
    Ok(())
}
