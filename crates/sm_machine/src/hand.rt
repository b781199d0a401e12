//! Hands: what lists of events are played with.
ghost use Rattle.std.specs.Prelude.{◌≡◌, ◌≤◌, ◌<◌, ◌+◌, ◌++◌, ◌==◌, ◌^◌, ℕ, Some, None, OnOk, IfSome, find};
ghost use Rattle.std.specs.Prelude.{slice_index_or, vec_len, vec_capacity};
ghost use Rattle.std.specs.List.{sum_by};
ghost use Rattle.sm_placement.specs.Setup.{sizes_of};
ghost use Rattle.sm_verifier.specs.Checked.{CheckedModel};
ghost use Rattle.sm_protocol.specs.Hand.{tickets_of, without_first};
ghost use Rattle.sm_protocol.specs.Laws.{IsCheckedPlan};
ghost use Rattle.sm_protocol.specs.Ticket.{Ticket as TicketModel};
ghost use Rattle.sm_machine.specs.Hand.{IsSameHand, StartsNoPlan, IsHandAfter, HasHandRoom, token_count};

use crate::answer::spends_ticket;
use crate::journal::TicketParts;
use crate::permit::Permit;
use crate::ready_plan::ReadyPlan;
use crate::searches::{first_permit, first_ticket};
use crate::ticket::Ticket;
use crate::token::StreamToken;
use sm_protocol::{Event, Played};
use sm_server::{ServerId, ShardId};
use std::alloc::AllocError;

/// The tokens, permits, tickets and plans that events are made with. It can be neither copied nor dropped.
pub struct Hand {
    /// The rights to make the steps of streams.
    pub tokens: Vec<StreamToken>,
    /// The rights to end restarts.
    pub permits: Vec<Permit>,
    /// The requests under way. If several tickets have one place of the log, the first is used.
    pub tickets: Vec<Ticket>,
    /// The plans that may start, by their places. None if no plan is left.
    pub plans: Vec<Option<ReadyPlan>>,
}

impl Hand {
    /// Takes room for this many tokens, and for a permit and a ticket for each of this many events.
    pub(crate) fn reserve(&mut self, tokens: usize, events: usize) -> Result<(), AllocError>
        requires { tokens < 2 ^ 63 → sum_by token_count self.old.plans.items ≤ tokens }
        ensures same { IsSameHand self.old self.new }
        ensures room { OnOk result (HasHandRoom self.new events) }
    {
        self.tokens.reserve(tokens)?;
        self.permits.reserve(events)?;
        self.tickets.reserve(events)
    }

    /// Takes out what an event has spent, and puts in what it gave, by its answer. It had its right from this hand.
    pub(crate) fn settle(&mut self, event: &Event, answer: Played)
        requires start { StartsNoPlan event.now }
        requires room { HasHandRoom self.old 1 }
        ensures { IsHandAfter self.old event.now answer self.new }
    {
        match *event {
            Event::Arrive { shard, server } => {
                add_ticket(&mut self.tickets, shard, server, answer);
            }
            Event::PassOn { place } => {
                if spends_ticket(&answer) {
                    spend_ticket(&mut self.tickets, place, answer);
                }
            }
            Event::Approve { server } => {
                if let Played::Approved = answer {
                    self.permits.push_reserved(Permit::new(server));
                }
            }
            Event::Done { server } => {
                if let Played::Up = answer {
                    spend_permit(&mut self.permits, server);
                }
            }
            _ => {}
        }
    }
}

/// Adds the ticket of a pass, if a server has answered a request for a shard by one.
fn add_ticket(tickets: &mut Vec<Ticket>, shard: ShardId, server: ServerId, answer: Played)
    requires room { vec_len tickets.old < vec_capacity tickets.old }
    ensures items { tickets.new.items ≡ tickets.old.items ++ tickets_of shard server answer }
    ensures len { vec_len tickets.new ≤ vec_len tickets.old + 1 }
    ensures capacity { vec_capacity tickets.old ≤ vec_capacity tickets.new }
{
    if let Played::Passed { to, number, place } = answer {
        let parts = TicketParts {
            place,
            shard,
            sender: server,
            target: to,
            number,
        };
        tickets.push_reserved(Ticket::new(parts));
    }
}

/// Spends the first ticket of a place of the log, and adds that of a new pass, if its request was passed on again.
fn spend_ticket(tickets: &mut Vec<Ticket>, place: u32, answer: Played)
    requires room { vec_len tickets.old < vec_capacity tickets.old }
    ensures items { (t : TicketModel) → find (λ t. t.place == place) tickets.old.items ≡ Some t →
        tickets.new.items ≡ without_first (λ x. x.place == t.place) tickets.old.items ++ tickets_of t.shard t.target answer }
    ensures len { vec_len tickets.new ≤ vec_len tickets.old + 1 }
    ensures capacity { vec_capacity tickets.old ≤ vec_capacity tickets.new }
{
    if let Some(at) = first_ticket(tickets.as_slice(), place) {
        let ticket = tickets.remove(at);
        add_ticket(tickets, ticket.shard(), ticket.target(), answer);
        ticket.abandon();
    }
}

/// Spends the first permit for a server.
fn spend_permit(permits: &mut Vec<Permit>, server: ServerId)
    ensures items { permits.new.items ≡ without_first (λ permit. permit == server) permits.old.items }
    ensures len { vec_len permits.new ≤ vec_len permits.old }
    ensures capacity { vec_capacity permits.old ≤ vec_capacity permits.new }
{
    if let Some(at) = first_permit(permits.as_slice(), server) {
        let _ = permits.remove(at).into_server();
    }
}

/// Returns the number of tokens that the start of the plan at a place gives.
fn token_count(plan: &Option<ReadyPlan>) -> usize
    ensures count { result ≡ token_count plan.now }
    ensures checked { IfSome plan.now (λ p. IsCheckedPlan (sizes_of p.setup) p.plan) }
{
    match plan {
        None => 0,
        Some(ready) => ready.checked().plan().streams().len(),
    }
}

/// Returns the number of tokens that the starts of all plans of a hand give, if a list has room for that many.
pub(crate) fn token_room(plans: &[Option<ReadyPlan>]) -> usize
    ensures room { result < 2 ^ 63 → sum_by token_count plans.now ≤ result }
    ensures checked { (place : ℕ) (p : CheckedModel) → slice_index_or plans.now place None ≡ Some p
        → IsCheckedPlan (sizes_of p.setup) p.plan }
{
    let mut room: usize = 0;
    for plan in plans {
        room = room.saturating_add(token_count(plan));
    }
    room
}
