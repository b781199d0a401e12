//! Answers to requests.
ghost use Rattle.std.specs.Prelude.{◌≡◌, ◌∷◌, [], if◌then◌else◌};
ghost use Rattle.sm_protocol.specs.Hand.{tickets_of, spends};
ghost use Rattle.sm_machine.specs.Requested.{IsReply, IsTicketReply, played_by, tickets_in};

use crate::journal::TicketParts;
use crate::ticket::Ticket;
use sm_protocol::Played;
use sm_server::{ServerId, ShardId};

/// The answer to a request.
pub enum Answer {
    /// The server executed it.
    Executed { server: ServerId },
    /// The server passed it on.
    Passed(Ticket),
    /// The server does not own the shard.
    NotOwner,
    /// The server is down.
    Unavailable,
    /// The log has no free place. The ticket comes back, if the request came with one.
    LogFull(Option<Ticket>),
    /// The log has no such pass, or its request was passed on already. The ticket comes back.
    Unknown(Ticket),
}

/// Returns the answer to a request for a shard that a server was to serve.
pub(crate) fn answer_to(shard: ShardId, server: ServerId, reply: Played) -> Answer
    requires { IsReply reply }
    ensures answer { played_by result ≡ reply }
    ensures tickets { tickets_in result ≡ tickets_of shard server reply }
{
    match reply {
        Played::Executed { server } => Answer::Executed { server },
        Played::Passed { to, number, place } => Answer::Passed(Ticket::new(TicketParts {
            place,
            shard,
            sender: server,
            target: to,
            number,
        })),
        Played::NotOwner => Answer::NotOwner,
        Played::Unavailable => Answer::Unavailable,
        Played::LogFull => Answer::LogFull(None),
        _ => unreachable!(),
    }
}

/// Returns the answer to a request that came with a ticket. The answer spends the ticket, or it comes back.
pub(crate) fn answer_with(ticket: Ticket, reply: Played) -> Answer
    requires { IsTicketReply reply }
    ensures answer { played_by result ≡ reply }
    ensures tickets { tickets_in result ≡ (if spends reply then tickets_of ticket.shard ticket.target reply else
        ticket ∷ []) }
{
    match reply {
        Played::LogFull => Answer::LogFull(Some(ticket)),
        Played::Unknown => Answer::Unknown(ticket),
        _ => {
            let shard = ticket.shard();
            let server = ticket.target();
            ticket.abandon();
            answer_to(shard, server, reply)
        }
    }
}

/// Tells whether a ticket that meets this answer is spent.
pub(crate) fn spends_ticket(answer: &Played) -> bool
    ensures { result ≡ spends answer.now }
{
    matches!(
        answer,
        Played::Executed { .. } | Played::Passed { .. } | Played::NotOwner | Played::Unavailable
    )
}
