//! Tickets of requests that were passed on.
ghost use Rattle.std.specs.Prelude.{◌≡◌};

use crate::journal::TicketParts;
use sm_server::{ServerId, ShardId};
use std::marker::Model;

/// A request that a server has passed on, under way to another one. It can be neither copied nor dropped.
pub struct Ticket {
    parts: TicketParts,
}

impl Model for Ticket {
    ghost use Rattle.sm_protocol.specs.Ticket.{Ticket};

    ghost Value = { Ticket };

    ghost view = { λ ticket. ticket.parts };
}

impl Ticket {
    /// Makes the ticket of a pass.
    pub(crate) fn new(parts: TicketParts) -> Ticket
        ensures { result ≡ parts }
    {
        Ticket { parts }
    }

    /// Returns what the log records of it.
    pub(crate) fn parts(&self) -> TicketParts
        ensures { result ≡ self.now }
    {
        self.parts
    }

    /// Returns the log's place of the pass.
    pub fn place(&self) -> u32
        ensures { result ≡ self.now.place }
    {
        self.parts.place
    }

    /// Returns the shard that the request is for.
    pub fn shard(&self) -> ShardId
        ensures { result ≡ self.now.shard }
    {
        self.parts.shard
    }

    /// Returns the server that passed the request on.
    pub fn sender(&self) -> ServerId
        ensures { result ≡ self.now.sender }
    {
        self.parts.sender
    }

    /// Returns the handover number under which the request was passed on.
    pub fn number(&self) -> u64
        ensures { result ≡ self.now.number }
    {
        self.parts.number
    }

    /// Returns the server that the request was passed to.
    pub fn target(&self) -> ServerId
        ensures { result ≡ self.now.target }
    {
        self.parts.target
    }

    /// Spends a ticket that is sent nowhere.
    pub fn abandon(self) {
        let Ticket { parts: _ } = self;
    }
}

/// Ends tickets with their machine. Takes no memory.
pub(crate) fn close_tickets(mut tickets: Vec<Ticket>) {
    while let Some(ticket) = tickets.pop() {
        ticket.abandon();
    }
    tickets.destroy_empty();
}
