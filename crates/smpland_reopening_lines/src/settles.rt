//! Settles as they go out.
ghost use Rattle.std.specs.Prelude.{◌≡◌, ◌<◌, ◌++◌, None, OnOk, codes, false, length, option_map, slice_index_or};
ghost use Rattle.std.specs.Fmt.{digits};
ghost use Rattle.std.specs.List.{flat_map, range_with_len};
ghost use Rattle.sm_placement.specs.Layout.{place_of};
ghost use Rattle.smpland_lines.specs.Members.{name_member, object, server_text};
ghost use Rattle.smpland_reopening.specs.Roles.{role_by_cell};
ghost use Rattle.smpland_reopening_lines.specs.Parties.{addressed_members};
ghost use Rattle.smpland_reopening_lines.specs.Settles.{brought_members, entries_member, entry_members, is_brought};
ghost use Rattle.smpland_reopening_lines.specs.Settles.{settle_to, settled_cell_text, settles_member};
ghost use Rattle.smpland_reopening_lines.specs.Settles.{given_slot_members};
ghost use Rattle.smpland_reopening_lines.specs.Settles.{given_slot_text, given_slots_member};

use crate::fences::write_head;
use crate::proposed::role_word;
use sm_placement::{Config, Placement};
use sm_reopening::{Party, Settle};
use sm_server::{Cell, Role, ServerId, ShardId};
use smpland_lines::{Writer, server_name, shard_name, write_name, write_number, write_text};
use smpland_reopening::DocumentReopening;
use std::alloc::{AllocError, Global};

/// The role that a cell of a settlement gives, if it holds something.
fn settled_role(cell: &Cell) -> Option<Role>
    ensures { result ≡ role_by_cell cell.now }
{
    match cell {
        Cell::Primary => Some(Role::Primary),
        Cell::Secondary => Some(Role::Secondary),
        _ => None,
    }
}

/// The cell that a settlement has of a shard and a server.
fn settled_cell(settlement: &Placement, shard: ShardId, server: ServerId) -> Cell
    ensures { result ≡ (place_of settlement.now).cells shard server }
{
    let config = settlement.config();
    if shard.number() >= config.shard_count() || server.number() >= config.server_count() {
        return Cell::Absent;
    }
    settlement.cell(shard, server)
}

/// The word for what a server has of a shard outside of handovers.
fn settled_cell_word(role: Option<Role>) -> &'static str
    ensures { result.now ≡ settled_cell_text role }
{
    match role {
        Some(role) => role_word(role),
        None => "absent",
    }
}

/// Writes the members of a slot of a server that has this role from now on, or nothing.
fn write_slot_members(
    writer: &mut Writer,
    config: &Config,
    shard: ShardId,
    role: Option<Role>,
) -> Result<(), AllocError>
    requires { shard < length config.now.shards }
    ensures { OnOk result (writer.new.tokens ≡ writer.old.tokens ++ given_slot_members config.now shard role) }
{
    write_text(writer, "shard", shard_name(config, shard))?;
    write_text(writer, "cell", settled_cell_word(role))?;
    write_number(writer, "load", config.load(shard))?;
    Ok(())
}

/// The role that a settlement gives a server for a shard, if the server has something of it from now on.
fn given_role(settlement: &Placement, shard: ShardId, server: ServerId) -> Option<Role>
    ensures { result ≡ role_by_cell ((place_of settlement.now).cells shard server) }
{
    settled_role(&settled_cell(settlement, shard, server))
}

/// Whether a settle brings a server the slot of a shard: it has something of it from now on, or has told that it has.
fn is_brought(
    reopening: &DocumentReopening,
    settlement: &Placement,
    server: ServerId,
    shard: ShardId,
) -> bool
    ensures { result ≡ is_brought reopening.now (place_of settlement.now) server shard }
{
    given_role(settlement, shard, server).is_some() || reopening.has_told_of(server, shard)
}

/// Writes the slot of a shard, if a settle brings it to a server.
fn write_slot(
    writer: &mut Writer,
    reopening: &DocumentReopening,
    settlement: &Placement,
    server: ServerId,
    shard: ShardId,
) -> Result<(), AllocError>
    requires { shard < length settlement.now.setup.shards }
    ensures { OnOk result (writer.new.tokens ≡ writer.old.tokens
        ++ given_slot_text reopening.now settlement.now.setup (place_of settlement.now) server shard) }
{
    if is_brought(reopening, settlement, server, shard) {
        let role = given_role(settlement, shard, server);
        writer.begin_object()?;
        write_slot_members(writer, settlement.config(), shard, role)?;
        writer.end_object()?;
    }
    Ok(())
}

/// Writes the slots that a settle brings a server, by the numbers of their shards.
fn write_each_slot(
    writer: &mut Writer,
    reopening: &DocumentReopening,
    settlement: &Placement,
    server: ServerId,
) -> Result<(), AllocError>
    ensures { OnOk result (writer.new.tokens ≡ writer.old.tokens
        ++ flat_map (given_slot_text reopening.now settlement.now.setup (place_of settlement.now) server)
        (range_with_len 0 (length settlement.now.setup.shards))) }
{
    for number in 0..settlement.config().shard_count() {
        write_slot(writer, reopening, settlement, server, ShardId::new(number))?;
    }
    Ok(())
}

/// Writes, as a member, the slots that a settle brings a server.
fn write_slots(
    writer: &mut Writer,
    reopening: &DocumentReopening,
    settlement: &Placement,
    server: ServerId,
) -> Result<(), AllocError>
    ensures { OnOk result (writer.new.tokens ≡ writer.old.tokens
        ++ given_slots_member reopening.now settlement.now.setup (place_of settlement.now) server) }
{
    writer.key("slots")?;
    writer.begin_array()?;
    write_each_slot(writer, reopening, settlement, server)?;
    writer.end_array()?;
    Ok(())
}

/// The server that a list has at a shard, if it has one.
fn listed_at(listed: &[Option<ServerId>], shard: ShardId) -> Option<ServerId>
    ensures { result ≡ slice_index_or listed.now shard None }
{
    match listed.get(shard.number() as usize) {
        Some(server) => *server,
        None => None,
    }
}

/// The server that the map lists for a shard, if it lists one.
fn listed(settlement: &Placement, shard: ShardId) -> Option<ServerId>
    ensures { result ≡ (place_of settlement.now).listed shard }
{
    listed_at(settlement.listed_servers(), shard)
}

/// The name of the server that the map lists for a shard, if it lists one.
fn listed_name<'s>(settlement: &'s Placement, shard: ShardId) -> Option<&'s str>
    ensures { option_map (λ name. name.now) result
        ≡ option_map (server_text settlement.now.setup) ((place_of settlement.now).listed shard) }
{
    match listed(settlement, shard) {
        Some(server) => Some(server_name(settlement.config(), server)),
        None => None,
    }
}

/// Writes the members of an entry of the map.
fn write_entry_members(
    writer: &mut Writer,
    settlement: &Placement,
    version: u64,
    shard: ShardId,
) -> Result<(), AllocError>
    ensures { OnOk result (writer.new.tokens ≡ writer.old.tokens
        ++ entry_members settlement.now.setup (place_of settlement.now) version shard) }
{
    write_text(writer, "shard", shard_name(settlement.config(), shard))?;
    write_name(writer, "to", listed_name(settlement, shard))?;
    write_number(writer, "version", version)?;
    Ok(())
}

/// Writes an entry of the map.
fn write_entry(
    writer: &mut Writer,
    settlement: &Placement,
    version: u64,
    shard: ShardId,
) -> Result<(), AllocError>
    ensures { OnOk result (writer.new.tokens ≡ writer.old.tokens
        ++ object (entry_members settlement.now.setup (place_of settlement.now) version shard)) }
{
    writer.begin_object()?;
    write_entry_members(writer, settlement, version, shard)?;
    writer.end_object()?;
    Ok(())
}

/// Writes entries of the map.
fn write_each_entry(
    writer: &mut Writer,
    settlement: &Placement,
    version: u64,
    shards: &[ShardId],
) -> Result<(), AllocError>
    ensures { OnOk result (writer.new.tokens ≡ writer.old.tokens
        ++ flat_map (λ s. object (entry_members settlement.now.setup (place_of settlement.now) version s)) shards.now) }
{
    for shard in shards {
        write_entry(writer, settlement, version, *shard)?;
    }
    Ok(())
}

/// Writes, as a member, the entries that the map has from now on.
fn write_entries(
    writer: &mut Writer,
    alloc: Global,
    reopening: &DocumentReopening,
    settlement: &Placement,
) -> Result<(), AllocError>
    ensures { OnOk result (writer.new.tokens ≡ writer.old.tokens
        ++ entries_member reopening.now settlement.now.setup (place_of settlement.now)) }
{
    let shards = reopening.shards_in_order(alloc)?;
    writer.key("entries")?;
    writer.begin_array()?;
    write_each_entry(writer, settlement, reopening.base(), shards.as_slice())?;
    writer.end_array()?;
    Ok(())
}

/// Writes a nonce, or that there is none.
fn write_nonce(writer: &mut Writer, alloc: Global, nonce: Option<u64>) -> Result<(), AllocError>
    ensures { OnOk result (writer.new.tokens ≡ writer.old.tokens
        ++ name_member (codes "nonce") (option_map (digits 16 false) nonce)) }
{
    match nonce {
        Some(nonce) => {
            let text = format!(in alloc; "{nonce:x}")?;
            write_text(writer, "nonce", text.as_str())
        }
        None => write_name(writer, "nonce", None),
    }
}

/// Writes what a settle brings to a party: to the map's owner all entries, to a server its slots, for the nonce that
/// its answer had.
fn write_brought(
    writer: &mut Writer,
    alloc: Global,
    reopening: &DocumentReopening,
    settlement: &Placement,
    party: &Party,
    settle: &Settle,
) -> Result<(), AllocError>
    ensures { OnOk result (writer.new.tokens ≡ writer.old.tokens
        ++ brought_members reopening.now settlement.now.setup (place_of settlement.now) party.now settle.now.nonce) }
{
    match party {
        Party::MapOwner => write_entries(writer, alloc, reopening, settlement),
        Party::Server(server) => {
            write_nonce(writer, alloc, settle.nonce)?;
            write_slots(writer, reopening, settlement, *server)?;
            Ok(())
        }
    }
}

/// Writes the settle of this settlement to a party, for the nonce that its answer had.
fn write_settle(
    writer: &mut Writer,
    alloc: Global,
    reopening: &DocumentReopening,
    journal: &str,
    settlement: &Placement,
    party: &Party,
    settle: &Settle,
) -> Result<(), AllocError>
    ensures { OnOk result (writer.new.tokens ≡ writer.old.tokens
        ++ object (addressed_members journal.now reopening.now party.now
        ++ brought_members reopening.now settlement.now.setup (place_of settlement.now) party.now settle.now.nonce)) }
{
    writer.begin_object()?;
    write_head(writer, reopening, journal, *party)?;
    write_brought(writer, alloc, reopening, settlement, party, settle)?;
    writer.end_object()?;
    Ok(())
}

/// Writes the settle to a party, once a settlement is confirmed.
fn write_settle_to(
    writer: &mut Writer,
    alloc: Global,
    reopening: &DocumentReopening,
    journal: &str,
    party: Party,
) -> Result<(), AllocError>
    ensures { OnOk result (writer.new.tokens ≡ writer.old.tokens ++ settle_to journal.now reopening.now party) }
{
    let Some(settlement) = reopening.settlement() else {
        return Ok(());
    };
    let Some(settle) = reopening.settle(party) else {
        return Ok(());
    };
    write_settle(
        writer, alloc, reopening, journal, settlement, &party, &settle,
    )
}

/// Writes the settles to parties.
fn write_each_settle(
    writer: &mut Writer,
    alloc: Global,
    reopening: &DocumentReopening,
    journal: &str,
    parties: &[Party],
) -> Result<(), AllocError>
    ensures { OnOk result (writer.new.tokens ≡ writer.old.tokens
        ++ flat_map (settle_to journal.now reopening.now) parties.now) }
{
    for party in parties {
        write_settle_to(writer, alloc, reopening, journal, *party)?;
    }
    Ok(())
}

/// Writes, as a member, the settles that are not answered: none before a settlement is confirmed.
pub fn write_settles(
    writer: &mut Writer,
    alloc: Global,
    reopening: &DocumentReopening,
    journal: &str,
) -> Result<(), AllocError>
    ensures { OnOk result (writer.new.tokens ≡ writer.old.tokens ++ settles_member journal.now reopening.now) }
{
    let parties = reopening.unsettled(alloc)?;
    writer.key("settle")?;
    writer.begin_array()?;
    write_each_settle(writer, alloc, reopening, journal, parties.as_slice())?;
    writer.end_array()?;
    Ok(())
}
