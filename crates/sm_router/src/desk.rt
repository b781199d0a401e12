//! Desks, at which clients ask.
ghost use Rattle.std.specs.Prelude.{◌<◌, ℕ, IfSome};
ghost use Rattle.sm_placement.specs.declared.entry.Entry.{Entry};
ghost use Rattle.sm_protocol.specs.Ticket as ticket;
ghost use Rattle.sm_machine.specs.declared.answer.Answer.{Answer};

use sm_machine::{Answer, Ticket};
use sm_placement::Entry;
use sm_server::{ServerId, ShardId};
use std::sync::Wait;

/// The published map, and the servers behind it.
///
/// A look at the map does not wait: it is given nothing to wait with. A request may wait.
pub trait Desk {
    /// The client that asks, with all that it has seen.
    type Caller;

    /// The number of shards, and below it that of servers.
    ghost shards: { Self → ℕ };

    ghost servers: { Self → ℕ };

    /// The entries that a caller may see of a shard, and how the caller stands then.
    ghost looked: { Self → Self.Caller → ℕ → Entry → Self.Caller → Type 0 };

    /// The answers to a request for a shard that a server may give, and how the caller stands then.
    ghost arrived: { Self → Self.Caller → ℕ → ℕ → Answer → Self.Caller → Type 0 };

    /// The answers to a request that was passed on, and how the caller stands then.
    ghost passed_on: { Self → Self.Caller → ticket.Ticket → Answer → Self.Caller → Type 0 };

    /// Returns the map's entry of a shard.
    fn look(&self, caller: &mut Self::Caller, shard: ShardId) -> Entry
        requires { shard < shards self.now }
        ensures entry { looked self.now caller.old shard result caller.new }
        ensures known { IfSome result.server (λ server. server < servers self.now) };

    /// Asks a server for a shard.
    fn arrive<R: Wait>(
        &self,
        rt: &R,
        caller: &mut Self::Caller,
        shard: ShardId,
        server: ServerId,
    ) -> Answer
        requires shard { shard < shards self.now }
        requires server { server < servers self.now }
        ensures { arrived self.now caller.old shard server result caller.new };

    /// Brings a request that was passed on to the server that it was passed to.
    fn pass_on<R: Wait>(&self, rt: &R, caller: &mut Self::Caller, ticket: Ticket) -> Answer
        ensures { passed_on self.now caller.old ticket result caller.new };
}
