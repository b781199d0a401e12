//! The lead of a shard: the place of its primary.
ghost use Rattle.std.specs.Prelude.{◌≡◌, ◌<◌, ◌≤◌, ◌-◌, length, find, IfSome};
ghost use Rattle.std.specs.List.{range_with_len};
ghost use Rattle.sm_placement.specs.Grid.{cells_of};
ghost use Rattle.sm_placement.specs.Lead.{has_part, lead_alone, lead_of_pair, lead_of};
ghost use Rattle.sm_placement.specs.declared.limits.TheConstants.{MOST_SERVERS};

use crate::table::Table;
use sm_server::{Cell, ServerId, ShardId};

/// The place of a shard's primary, and the handover of it that is under way.
///
/// All cells of the shard that a lead does not name hold nothing or a secondary.
#[derive(Clone, Copy, Debug, PartialEq, Eq)]
pub enum Lead {
    /// There is no primary.
    Gone,
    /// The server is the primary.
    At(ServerId),
    /// The first server is the primary, and the second is prepared from it.
    Ready(ServerId, ServerId),
    /// The first server forwards to the second, which is prepared from it.
    Handing(ServerId, ServerId),
    /// The first server forwards to the second, which is the primary.
    Handed(ServerId, ServerId),
}

/// Returns the first server from a number on that has a part in the lead of a shard.
#[tactic(auto, using(crate::proofs::Searches::find_range_more))]
fn next_part(table: &Table, shard: ShardId, from: u32) -> Option<ServerId>
    requires { shard < length table.now.setup.shards }
    ensures next { result ≡ find (λ v. has_part (cells_of table.now shard v))
        (range_with_len from (length table.now.setup.servers - from)) }
    ensures within { IfSome result (λ v. v < length table.now.setup.servers) }
    ensures bound { length table.now.setup.servers ≤ MOST_SERVERS }
{
    for number in from..table.config().server_count() {
        let server = ServerId::new(number);
        if table.has_part(shard, server) {
            return Some(server);
        }
    }
    None
}

/// Returns the lead by the cell of the one server that has a part.
fn lead_alone(owner: ServerId, own: &Cell) -> Option<Lead>
    ensures { result ≡ lead_alone owner own.now }
{
    match own {
        Cell::Primary => Some(Lead::At(owner)),
        _ => None,
    }
}

/// Returns the lead by the cells of two servers, the first of which has the primary or is handing it to the second.
fn lead_of_pair(owner: ServerId, own: &Cell, new: ServerId, other: &Cell) -> Option<Lead>
    ensures { result ≡ lead_of_pair owner own.now new other.now }
{
    match own {
        Cell::Primary => match other {
            Cell::Prepared { from, .. } if *from == owner => Some(Lead::Ready(owner, new)),
            _ => None,
        },
        Cell::Forwarding { to, number } => match other {
            Cell::Prepared { from, number: same }
                if *to == new && *from == owner && *number == *same => Some(Lead::Handing(
                owner, new,
            )),
            Cell::Primary if *to == new => Some(Lead::Handed(owner, new)),
            _ => None,
        },
        _ => None,
    }
}

/// Returns the lead of a shard's cells, if a lead describes them under some handover number. Takes no memory.
pub fn lead_of(table: &Table, shard: ShardId) -> Option<Lead>
    requires { shard < length table.now.setup.shards }
    ensures { result ≡ lead_of (length table.now.setup.servers) (cells_of table.now shard) }
{
    let Some(first) = next_part(table, shard, 0) else {
        return Some(Lead::Gone);
    };
    let own = table.cell(shard, first);
    let Some(second) = next_part(table, shard, first.number() + 1) else {
        return lead_alone(first, &own);
    };
    if next_part(table, shard, second.number() + 1).is_some() {
        return None;
    }
    let other = table.cell(shard, second);
    lead_of_pair(first, &own, second, &other).or(lead_of_pair(second, &other, first, &own))
}
