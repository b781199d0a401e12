//! The handover after its first step, `prepare_add_shard` at the new server.
use super::{Handing, HandoverCells, Steady};
use crate::call::{Call, Cell};
use crate::server_id::ServerId;
use crate::shard_id::ShardId;
use std::marker::Model;

/// The new server is prepared; the owner still serves.
#[derive(Debug, Drop)]
pub struct Ready {
    pub(super) shard: ShardId,
    pub(super) owner: ServerId,
    pub(super) new_server: ServerId,
    pub(super) number: u64,
}

impl Model for Ready {
    ghost use Rattle.std.specs.Prelude.{◌≢◌};
    ghost use Rattle.sm_server.specs.Handover.{HandoverModel};

    ghost Value = { HandoverModel };

    ghost view = { λ t. record { shard = t.shard; owner = t.owner; new_server = t.new_server; number = t.number } };

    ghost invariant = { λ t. t.owner ≢ t.new_server };
}

impl Ready {
    ghost use Rattle.std.specs.Prelude.{◌≡◌};
    ghost use Rattle.sm_server.specs.Handover.{steady_cell, ready_cells, handing_cells, Serves};

    /// Returns the shard whose primary is handed over.
    pub const fn shard(&self) -> ShardId
        ensures { result ≡ self.now.shard }
    {
        self.shard
    }

    /// Returns the server that hands the primary over.
    pub const fn owner(&self) -> ServerId
        ensures { result ≡ self.now.owner }
    {
        self.owner
    }

    /// Returns the server that takes it.
    pub const fn new_server(&self) -> ServerId
        ensures { result ≡ self.now.new_server }
    {
        self.new_server
    }

    /// Returns the number that tells this handover from the shard's other handovers.
    pub const fn number(&self) -> u64
        ensures { result ≡ self.now.number }
    {
        self.number
    }

    /// Returns the cells of the two servers.
    pub const fn cells(&self) -> HandoverCells
        ensures { result ≡ ready_cells self.now }
    {
        HandoverCells {
            owner: Cell::Primary,
            new_server: Cell::Prepared {
                from: self.owner,
                number: self.number,
            },
        }
    }

    /// Gives the handover up: `drop_shard` at the new server. The owner stays the primary.
    pub fn cancel(self) -> Steady
        ensures state { result ≡ record { shard = self.shard; server = self.owner } }
        ensures at_owner { steady_cell result self.owner ≡ (ready_cells self).owner }
        ensures at_new_server { Serves (ready_cells self).new_server Call.Drop (steady_cell result self.new_server) }
    {
        let Ready { shard, owner, .. } = self;
        Steady {
            shard,
            server: owner,
        }
    }

    /// Lets the owner forward: `prepare_drop_shard` at the owner.
    pub fn hand(self) -> Handing
        ensures state { result ≡ self }
        ensures at_owner { Serves
            (ready_cells self).owner
            (Call.PrepareDrop self.new_server self.number)
            (handing_cells result).owner }
        ensures at_new_server { (handing_cells result).new_server ≡ (ready_cells self).new_server }
    {
        let Ready {
            shard,
            owner,
            new_server,
            number,
        } = self;
        Handing {
            shard,
            owner,
            new_server,
            number,
        }
    }
}
