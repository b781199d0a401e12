//! Requests: a server's answer, which is recorded.
ghost use Rattle.sm_machine.specs.State.{whole_of, state_of};
ghost use Rattle.sm_machine.specs.Working.{IsWorking};
ghost use Rattle.sm_machine.specs.Requested.{IsRequest, IsAsked};

use crate::engine::Engine;
use crate::journal::TicketParts;
use sm_protocol::{Event, Played};
use sm_server::{ServerId, ShardId};

impl Engine {
    /// Asks a server for a shard, directly or with the ticket of the request's pass.
    pub fn ask(
        &mut self,
        shard: ShardId,
        server: ServerId,
        sent: Option<TicketParts>,
        event: Event,
    ) -> Played
        requires working { IsWorking (whole_of self.old) }
        requires request { IsRequest (state_of self.old) shard server sent event }
        ensures { IsAsked (whole_of self.old) shard server sent event result (whole_of self.new) }
    {
        let free = self.free();
        if free == 0 {
            return Played::LogFull;
        }
        let answer = self.reply(shard, server, sent);
        let given = answer;
        self.set_free(free - 1);
        self.record(event, answer);
        given
    }
}
