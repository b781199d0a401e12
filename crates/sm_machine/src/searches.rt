//! Searches in a hand for what an event needs.
ghost use Rattle.std.specs.Prelude.{◌≡◌, ◌==◌};
ghost use Rattle.std.specs.List.{list_any};
ghost use Rattle.sm_protocol.specs.Hand.{is_token};
ghost use Rattle.sm_machine.specs.Hand.{IsFirstPlace};

use crate::permit::Permit;
use crate::ticket::Ticket;
use crate::token::StreamToken;
use sm_reservation::StreamId;
use sm_server::ServerId;

/// Tells whether a stream's token is there.
pub(crate) fn has_token(tokens: &[StreamToken], id: StreamId) -> bool
    ensures { result ≡ list_any (is_token id) tokens.now }
{
    tokens.iter().any(|token| {
        let held = token.id();
        held.plan == id.plan && held.stream == id.stream
    })
}

/// Returns the place of the first ticket of this place of the log.
pub(crate) fn first_ticket(tickets: &[Ticket], place: u32) -> Option<usize>
    ensures { IsFirstPlace (λ t. t.place == place) tickets.now result }
{
    for at in 0..tickets.len() {
        if tickets[at].place() == place {
            return Some(at);
        }
    }
    None
}

/// Returns the place of the first permit for a server.
pub(crate) fn first_permit(permits: &[Permit], server: ServerId) -> Option<usize>
    ensures { IsFirstPlace (λ permit. permit == server) permits.now result }
{
    for at in 0..permits.len() {
        if permits[at].server() == server {
            return Some(at);
        }
    }
    None
}
