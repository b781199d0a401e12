//! Servers' answers to requests.
ghost use Rattle.std.specs.Prelude.{◌≡◌, ◌<◌, ◌&&◌, ◌==◌, if◌then◌else◌, length, Some};
ghost use Rattle.sm_placement.specs.Layout.{place_of};
ghost use Rattle.sm_protocol.specs.declared.event.Played.TheVariants as played;
ghost use Rattle.sm_protocol.specs.Happens.{answer_by};

use crate::journal::TicketParts;
use sm_placement::Placement;
use sm_protocol::Played;
use sm_server::{Cell, ServerId, ShardId};

/// Returns what a server that is prepared by an owner, under a number, answers to a request that was passed on.
fn answer_prepared(owner: ServerId, number: u64, server: ServerId, sent: TicketParts) -> Played
    ensures { result ≡ (if (owner == sent.sender) &&
        (number == sent.number) then played.Executed server else played.NotOwner) }
{
    if owner == sent.sender && number == sent.number {
        Played::Executed { server }
    } else {
        Played::NotOwner
    }
}

/// Returns what a server answers by its cell. A pass is to be recorded at this place of the log.
fn answer_by(cell: &Cell, server: ServerId, sent: Option<TicketParts>, place: u32) -> Played
    ensures { result ≡ answer_by cell.now server sent place }
{
    match cell {
        Cell::Primary => Played::Executed { server },
        Cell::Forwarding { to, number } => Played::Passed {
            to: *to,
            number: *number,
            place,
        },
        Cell::Prepared { from, number } => match sent {
            Some(ticket) => answer_prepared(*from, *number, server, ticket),
            None => Played::NotOwner,
        },
        _ => Played::NotOwner,
    }
}

/// Returns what a server answers to a request for a shard, which came directly or with the ticket of its pass.
pub(crate) fn reply(
    placement: &Placement,
    shard: ShardId,
    server: ServerId,
    sent: Option<TicketParts>,
    place: u32,
) -> Played
    requires shard { shard < length placement.now.setup.shards }
    requires server { server < length placement.now.setup.servers }
    ensures { result ≡ (if (place_of placement.now).down server then played.Unavailable else answer_by
        ((place_of placement.now).cells shard server) server sent place) }
{
    if placement.is_down(server) {
        return Played::Unavailable;
    }
    answer_by(&placement.cell(shard, server), server, sent, place)
}
