//! The board as a desk, at which clients ask.
ghost use Rattle.std.specs.Prelude.{length};

use crate::board::Board;
use crate::caller::Caller;
use crate::names::Naming;
use sm_machine::{Answer, Ticket};
use sm_map::Entry;
use sm_router::Desk;
use sm_server::{ServerId, ShardId};
use std::sync::Wait;
use std::sync::ledger::Ledger;

impl<A: Ledger, B: Ledger, C: Ledger, N: Naming> Desk for Board<A, B, C, N> {
    ghost use Rattle.std.specs.Prelude.{length};
    ghost use Rattle.sm_executor.specs.Clients.{looked, HasArrived, HasPassedOn};

    type Caller = Caller<B, C, N>;

    ghost shards = { λ board. length N.words.opening };

    ghost servers = { λ board. N.words.servers };

    ghost looked = { λ board. looked };

    ghost arrived = { λ board. HasArrived N.setup N.opened };

    ghost passed_on = { λ board. HasPassedOn N.setup N.opened };

    #[tactic(auto, using(crate::proofs::Ranges::known_server))]
    fn look(&self, caller: &mut Caller<B, C, N>, shard: ShardId) -> Entry {
        Board::look(self, caller, shard)
    }

    fn arrive<R: Wait>(
        &self,
        rt: &R,
        caller: &mut Caller<B, C, N>,
        shard: ShardId,
        server: ServerId,
    ) -> Answer {
        Board::arrive(self, rt, caller, shard, server)
    }

    fn pass_on<R: Wait>(&self, rt: &R, caller: &mut Caller<B, C, N>, ticket: Ticket) -> Answer {
        Board::pass_on(self, rt, caller, ticket)
    }
}
