//! Replies that tell who has to answer, and what may be confirmed.
ghost use Rattle.std.specs.Prelude.{◌≡◌, ◌++◌, OnOk};
ghost use Rattle.std.specs.List.{flat_map};
ghost use Rattle.smpland_reopening.specs.Proposed.{IsProposalOf, proposal_role};
ghost use Rattle.smpland_reopening_lines.specs.Parties.{party_text, waiting_member};
ghost use Rattle.smpland_reopening_lines.specs.Proposals.{carried_over_member, cells_member, floor_text, floors_member};
ghost use Rattle.smpland_reopening_lines.specs.Proposals.{lost_member, proposal_member, proposal_members};
ghost use Rattle.smpland_reopening_lines.specs.Proposals.{proposed_replica_text};
ghost use Rattle.smpland_reopening_lines.specs.Proposals.{replicas_text, row_text, server_name_text, shard_name_text};
ghost use Rattle.smpland_reopening_lines.specs.Settles.{given_cell_text};

use sm_placement::Config;
use sm_reopening::Party;
use sm_server::{Role, ServerId, ShardId};
use smpland_lines::{Writer, server_name, shard_name, write_number, write_text};
use smpland_reopening::{DocumentReopening, Proposal, ShortFloor};
use std::alloc::{AllocError, Global};

/// Writes the name of a party; the map's owner is null.
fn write_party(
    writer: &mut Writer,
    reopening: &DocumentReopening,
    party: Party,
) -> Result<(), AllocError>
    ensures { OnOk result (writer.new.tokens ≡ writer.old.tokens ++ party_text reopening.now.numbering party) }
{
    match party {
        Party::Server(server) => writer.string(server_name(reopening.numbering(), server)),
        Party::MapOwner => writer.null(),
    }
}

/// Writes the names of parties.
fn write_each_party(
    writer: &mut Writer,
    reopening: &DocumentReopening,
    parties: &[Party],
) -> Result<(), AllocError>
    ensures { OnOk result (writer.new.tokens ≡ writer.old.tokens
        ++ flat_map (party_text reopening.now.numbering) parties.now) }
{
    for party in parties {
        write_party(writer, reopening, *party)?;
    }
    Ok(())
}

/// Writes, as a member, whose answers are missing; the map's owner is null.
pub fn write_waiting(
    writer: &mut Writer,
    reopening: &DocumentReopening,
    parties: &[Party],
) -> Result<(), AllocError>
    ensures { OnOk result (writer.new.tokens ≡ writer.old.tokens
        ++ waiting_member reopening.now.numbering parties.now) }
{
    writer.key("waiting")?;
    writer.begin_array()?;
    write_each_party(writer, reopening, parties)?;
    writer.end_array()?;
    Ok(())
}

/// Returns the word for a role.
pub(crate) fn role_word(role: Role) -> &'static str
    ensures { result.now ≡ given_cell_text role }
{
    match role {
        Role::Primary => "primary",
        Role::Secondary => "secondary",
    }
}

/// Writes a replica, if the server is to have one.
fn write_replica(
    writer: &mut Writer,
    numbering: &Config,
    server: ServerId,
    role: Option<Role>,
) -> Result<(), AllocError>
    ensures { OnOk result (writer.new.tokens ≡ writer.old.tokens ++ proposed_replica_text numbering.now server role) }
{
    if let Some(role) = role {
        writer.begin_object()?;
        write_text(writer, "server", server_name(numbering, server))?;
        write_text(writer, "state", role_word(role))?;
        writer.end_object()?;
    }
    Ok(())
}

/// Writes the replicas that are proposed for a shard, in the order of the servers' numbers.
fn write_replicas(
    writer: &mut Writer,
    numbering: &Config,
    proposal: &Proposal,
    shard: ShardId,
) -> Result<(), AllocError>
    ensures { OnOk result (writer.new.tokens ≡ writer.old.tokens
        ++ replicas_text numbering.now (proposal_role proposal.now) shard) }
{
    for number in 0..numbering.server_count() {
        let server = ServerId::new(number);
        write_replica(writer, numbering, server, proposal.role(shard, server))?;
    }
    Ok(())
}

/// Writes a shard with the replicas that are proposed for it.
fn write_row(
    writer: &mut Writer,
    numbering: &Config,
    proposal: &Proposal,
    shard: ShardId,
) -> Result<(), AllocError>
    ensures { OnOk result (writer.new.tokens ≡ writer.old.tokens
        ++ row_text numbering.now (proposal_role proposal.now) shard) }
{
    writer.begin_object()?;
    write_text(writer, "shard", shard_name(numbering, shard))?;
    writer.key("cells")?;
    writer.begin_array()?;
    write_replicas(writer, numbering, proposal, shard)?;
    writer.end_array()?;
    writer.end_object()?;
    Ok(())
}

/// Writes shards with the replicas that are proposed for them.
fn write_each_row(
    writer: &mut Writer,
    numbering: &Config,
    proposal: &Proposal,
    shards: &[ShardId],
) -> Result<(), AllocError>
    ensures { OnOk result (writer.new.tokens ≡ writer.old.tokens
        ++ flat_map (row_text numbering.now (proposal_role proposal.now)) shards.now) }
{
    for shard in shards {
        write_row(writer, numbering, proposal, *shard)?;
    }
    Ok(())
}

/// Writes, as a member, the replicas that are proposed.
fn write_cells(
    writer: &mut Writer,
    alloc: Global,
    reopening: &DocumentReopening,
    proposal: &Proposal,
) -> Result<(), AllocError>
    requires { IsProposalOf reopening.now proposal.now }
    ensures { OnOk result (writer.new.tokens ≡ writer.old.tokens ++ cells_member reopening.now) }
{
    let shards = reopening.shards_in_order(alloc)?;
    writer.key("cells")?;
    writer.begin_array()?;
    write_each_row(writer, reopening.numbering(), proposal, shards.as_slice())?;
    writer.end_array()?;
    Ok(())
}

/// Writes the names of shards.
fn write_each_shard(
    writer: &mut Writer,
    numbering: &Config,
    shards: &[ShardId],
) -> Result<(), AllocError>
    ensures { OnOk result (writer.new.tokens ≡ writer.old.tokens
        ++ flat_map (shard_name_text numbering.now) shards.now) }
{
    for shard in shards {
        writer.string(shard_name(numbering, *shard))?;
    }
    Ok(())
}

/// Writes, as a member, the shards that may be lost.
fn write_lost(writer: &mut Writer, numbering: &Config, shards: &[ShardId]) -> Result<(), AllocError>
    ensures { OnOk result (writer.new.tokens ≡ writer.old.tokens ++ lost_member numbering.now shards.now) }
{
    writer.key("lost")?;
    writer.begin_array()?;
    write_each_shard(writer, numbering, shards)?;
    writer.end_array()?;
    Ok(())
}

/// Writes a floor that is not met.
fn write_floor(
    writer: &mut Writer,
    numbering: &Config,
    floor: &ShortFloor,
) -> Result<(), AllocError>
    ensures { OnOk result (writer.new.tokens ≡ writer.old.tokens ++ floor_text numbering.now floor.now) }
{
    writer.begin_object()?;
    write_text(writer, "shard", shard_name(numbering, floor.shard))?;
    write_number(writer, "live", u64::from(floor.live))?;
    write_number(writer, "floor", u64::from(floor.floor))?;
    writer.end_object()?;
    Ok(())
}

/// Writes floors that are not met.
fn write_each_floor(
    writer: &mut Writer,
    numbering: &Config,
    floors: &[ShortFloor],
) -> Result<(), AllocError>
    ensures { OnOk result (writer.new.tokens ≡ writer.old.tokens
        ++ flat_map (floor_text numbering.now) floors.now) }
{
    for floor in floors {
        write_floor(writer, numbering, floor)?;
    }
    Ok(())
}

/// Writes, as a member, the floors that are not met.
fn write_floors(
    writer: &mut Writer,
    numbering: &Config,
    floors: &[ShortFloor],
) -> Result<(), AllocError>
    ensures { OnOk result (writer.new.tokens ≡ writer.old.tokens ++ floors_member numbering.now floors.now) }
{
    writer.key("floors")?;
    writer.begin_array()?;
    write_each_floor(writer, numbering, floors)?;
    writer.end_array()?;
    Ok(())
}

/// Writes the names of servers.
fn write_each_server(
    writer: &mut Writer,
    numbering: &Config,
    servers: &[ServerId],
) -> Result<(), AllocError>
    ensures { OnOk result (writer.new.tokens ≡ writer.old.tokens
        ++ flat_map (server_name_text numbering.now) servers.now) }
{
    for server in servers {
        writer.string(server_name(numbering, *server))?;
    }
    Ok(())
}

/// Writes, as a member, the servers that stay as they are recorded.
fn write_carried(
    writer: &mut Writer,
    numbering: &Config,
    servers: &[ServerId],
) -> Result<(), AllocError>
    ensures { OnOk result (writer.new.tokens ≡ writer.old.tokens ++ carried_over_member numbering.now servers.now) }
{
    writer.key("carried")?;
    writer.begin_array()?;
    write_each_server(writer, numbering, servers)?;
    writer.end_array()?;
    Ok(())
}

/// Writes all that may be confirmed.
fn write_proposal_members(
    writer: &mut Writer,
    alloc: Global,
    reopening: &DocumentReopening,
) -> Result<(), AllocError>
    ensures { OnOk result (writer.new.tokens ≡ writer.old.tokens ++ proposal_members reopening.now) }
{
    let proposal = reopening.proposal(alloc)?;
    let numbering = reopening.numbering();
    write_number(writer, "base", reopening.base())?;
    write_cells(writer, alloc, reopening, &proposal)?;
    write_lost(writer, numbering, &proposal.lost)?;
    write_floors(writer, numbering, &proposal.floors)?;
    write_carried(writer, numbering, &proposal.carried)
}

/// Writes, as a member, what may be confirmed.
pub fn write_proposal(
    writer: &mut Writer,
    alloc: Global,
    reopening: &DocumentReopening,
) -> Result<(), AllocError>
    ensures { OnOk result (writer.new.tokens ≡ writer.old.tokens ++ proposal_member reopening.now) }
{
    writer.key("proposal")?;
    writer.begin_object()?;
    write_proposal_members(writer, alloc, reopening)?;
    writer.end_object()?;
    Ok(())
}
