//! Tests whether all ids of a plan are below the counts of a configuration.
ghost use Rattle.std.specs.Prelude.{◌↔◌, ◌<◌, IsTrue, IfSome, All};
ghost use Rattle.sm_plan_code.specs.Instr.{shard_of};
ghost use Rattle.sm_plan_code.specs.Plan.{IsKnownCellRight, IsKnownLead, IsKnownCrown, IsKnownParcel, IsKnownInstr};
ghost use Rattle.sm_plan_code.specs.Plan.{IsKnownStream, IsKnownPlan};

use crate::plan::{Plan, Stream};
use crate::{Instr, names};
use sm_placement::Lead;
use sm_reservation::{CellRight, Crown, Parcel, Room, Spare};
use sm_server::ServerId;

/// Tells whether the server is below the count, if there is one.
fn is_known_server(servers: u32, server: Option<ServerId>) -> bool
    ensures { IsTrue result ↔ IfSome server (λ v. v < servers) }
{
    match server {
        Some(server) => server.number() < servers,
        None => true,
    }
}

/// Tells whether each server that a lead names is below the count.
fn is_known_lead(servers: u32, lead: Lead) -> bool
    ensures { IsTrue result ↔ IsKnownLead servers lead }
{
    match lead {
        Lead::Gone => true,
        Lead::At(server) => server.number() < servers,
        Lead::Ready(owner, new) | Lead::Handing(owner, new) | Lead::Handed(owner, new) => {
            owner.number() < servers && new.number() < servers
        }
    }
}

/// Tells whether a crown's shard, the servers of its lead and its listed server are below their counts.
fn is_known_crown(shards: u32, servers: u32, crown: &Crown) -> bool
    ensures { IsTrue result ↔ IsKnownCrown shards servers crown.now }
{
    crown.shard.number() < shards
        && is_known_lead(servers, crown.lead)
        && is_known_server(servers, crown.listed)
}

/// Tells whether the shard and the server of each cell right are below their counts.
fn are_cells_below(shards: u32, servers: u32, cells: &[CellRight]) -> bool
    ensures { IsTrue result ↔ All (IsKnownCellRight shards servers) cells.now }
{
    cells.iter().all(|cell| cell.shard.number() < shards && cell.server.number() < servers)
}

/// Tells whether the ids of each crown are below their counts.
fn are_crowns_below(shards: u32, servers: u32, crowns: &[Crown]) -> bool
    ensures { IsTrue result ↔ All (IsKnownCrown shards servers) crowns.now }
{
    crowns
        .iter()
        .all(|crown| is_known_crown(shards, servers, crown))
}

/// Tells whether the server of each entry of room is below the count.
fn is_known_room(servers: u32, room: &[Room]) -> bool
    ensures { IsTrue result ↔ All (λ x. x.server < servers) room.now }
{
    room.iter().all(|room| room.server.number() < servers)
}

/// Tells whether the shard of each entry of spare replicas is below the count.
fn is_known_spare(shards: u32, spare: &[Spare]) -> bool
    ensures { IsTrue result ↔ All (λ x. x.shard < shards) spare.now }
{
    spare.iter().all(|spare| spare.shard.number() < shards)
}

/// Tells whether the ids of each right of a parcel are below their counts.
fn is_known_parcel(shards: u32, servers: u32, parcel: &Parcel) -> bool
    ensures { IsTrue result ↔ IsKnownParcel shards servers parcel.now }
{
    are_cells_below(shards, servers, parcel.cells())
        && are_crowns_below(shards, servers, parcel.crowns())
        && is_known_room(servers, parcel.room())
        && is_known_spare(shards, parcel.spare())
}

/// Tells whether the shard of an instruction is below the count, if it has one.
fn is_known_shard(shards: u32, instr: &Instr) -> bool
    ensures { IsTrue result ↔ IfSome (shard_of instr.now) (λ s. s < shards) }
{
    match *instr {
        Instr::PrepareAdd { shard, .. }
        | Instr::PrepareDrop { shard, .. }
        | Instr::Add { shard, .. }
        | Instr::Drop { shard, .. }
        | Instr::Change { shard, .. }
        | Instr::Publish { shard }
        | Instr::Unlist { shard } => shard.number() < shards,
        Instr::Signal { .. } | Instr::Wait { .. } => true,
    }
}

/// Tells whether the shard of an instruction and the servers that it mentions are below their counts.
pub fn is_known_instr(shards: u32, servers: u32, instr: &Instr) -> bool
    ensures { IsTrue result ↔ IsKnownInstr shards servers instr.now }
{
    let named = names(instr);
    is_known_shard(shards, instr)
        && is_known_server(servers, named.first)
        && is_known_server(servers, named.second)
}

/// Tells whether the ids of each instruction are below their counts.
fn is_known_code(shards: u32, servers: u32, code: &[Instr]) -> bool
    ensures { IsTrue result ↔ All (IsKnownInstr shards servers) code.now }
{
    code.iter()
        .all(|instr| is_known_instr(shards, servers, instr))
}

/// Tells whether the ids of what a stream holds at its start and of its instructions are below their counts.
fn is_known_stream(shards: u32, servers: u32, stream: &Stream) -> bool
    ensures { IsTrue result ↔ IsKnownStream shards servers stream.now }
{
    is_known_parcel(shards, servers, &stream.holds)
        && is_known_code(shards, servers, stream.code.as_slice())
}

/// Tells whether the ids of each of the streams are below their counts.
fn are_streams_below(shards: u32, servers: u32, streams: &[Stream]) -> bool
    ensures { IsTrue result ↔ All (IsKnownStream shards servers) streams.now }
{
    streams
        .iter()
        .all(|stream| is_known_stream(shards, servers, stream))
}

/// Tells whether the ids of each of the parcels are below their counts.
fn are_parcels_below(shards: u32, servers: u32, parcels: &[Parcel]) -> bool
    ensures { IsTrue result ↔ All (IsKnownParcel shards servers) parcels.now }
{
    parcels
        .iter()
        .all(|parcel| is_known_parcel(shards, servers, parcel))
}

/// Tells whether the ids of a plan are below their counts.
pub(crate) fn is_known_plan(shards: u32, servers: u32, plan: &Plan) -> bool
    ensures { IsTrue result ↔ IsKnownPlan shards servers plan.now }
{
    are_streams_below(shards, servers, plan.streams())
        && are_parcels_below(shards, servers, plan.signals())
}
