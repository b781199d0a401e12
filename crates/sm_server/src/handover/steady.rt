//! Before and after a handover: the primary stands at one server.
use super::Ready;
use crate::call::{Call, Cell};
use crate::server_id::ServerId;
use crate::shard_id::ShardId;
use std::marker::Model;

/// A primary with no handover under way.
#[derive(Debug, Drop)]
pub struct Steady {
    pub(super) shard: ShardId,
    pub(super) server: ServerId,
}

impl Model for Steady {
    ghost use Rattle.sm_server.specs.Handover.{SteadyModel};

    ghost Value = { SteadyModel };

    ghost view = { λ s. record { shard = s.shard; server = s.server } };
}

impl Steady {
    ghost use Rattle.std.specs.Prelude.{◌≡◌, ◌≢◌};
    ghost use Rattle.sm_server.specs.Handover.{steady_cell, ready_cells, Serves};

    /// Makes a shard whose primary stands at the server.
    pub const fn new(shard: ShardId, server: ServerId) -> Self
        ensures { result ≡ record { shard = shard; server = server } }
    {
        Steady { shard, server }
    }

    /// Returns the primary's shard.
    pub const fn shard(&self) -> ShardId
        ensures { result ≡ self.now.shard }
    {
        self.shard
    }

    /// Returns the server where the primary stands.
    pub const fn server(&self) -> ServerId
        ensures { result ≡ self.now.server }
    {
        self.server
    }

    /// Returns the cell of the one server. Any other server has nothing of the primary.
    pub const fn cells(&self) -> Cell
        ensures { result ≡ steady_cell self.now self.now.server }
    {
        Cell::Primary
    }

    /// Prepares a new server, one that has nothing of the shard: `prepare_add_shard` there.
    pub fn prepare(self, new_server: ServerId, number: u64) -> Ready
        requires { new_server ≢ self.server }
        ensures state { result ≡ record {
          shard = self.shard;
          owner = self.server;
          new_server = new_server;
          number = number;
        } }
        ensures at_owner { (ready_cells result).owner ≡ steady_cell self result.owner }
        ensures at_new_server { Serves
            (steady_cell self result.new_server)
            (Call.PrepareAdd self.server number)
            (ready_cells result).new_server }
    {
        let Steady { shard, server } = self;
        Ready {
            shard,
            owner: server,
            new_server,
            number,
        }
    }
}
