//! The handover after its third step, `add_shard` at the new server.
use super::{HandoverCells, Steady};
use crate::call::{Call, Cell};
use crate::server_id::ServerId;
use crate::shard_id::ShardId;
use std::marker::Model;

/// The new server is the primary; the owner still forwards.
#[derive(Debug, Drop)]
pub struct Handed {
    pub(super) shard: ShardId,
    pub(super) owner: ServerId,
    pub(super) new_server: ServerId,
    pub(super) number: u64,
}

impl Model for Handed {
    ghost use Rattle.std.specs.Prelude.{◌≢◌};
    ghost use Rattle.sm_server.specs.Handover.{HandoverModel};

    ghost Value = { HandoverModel };

    ghost view = { λ t. record { shard = t.shard; owner = t.owner; new_server = t.new_server; number = t.number } };

    ghost invariant = { λ t. t.owner ≢ t.new_server };
}

impl Handed {
    ghost use Rattle.std.specs.Prelude.{◌≡◌};
    ghost use Rattle.sm_server.specs.Handover.{steady_cell, handed_cells, Serves};

    /// Returns the shard whose primary is handed over.
    pub const fn shard(&self) -> ShardId
        ensures { result ≡ self.now.shard }
    {
        self.shard
    }

    /// Returns the server that hands the primary over.
    pub const fn owner(&self) -> ServerId
        ensures { result ≡ self.now.owner }
    {
        self.owner
    }

    /// Returns the server that takes it.
    pub const fn new_server(&self) -> ServerId
        ensures { result ≡ self.now.new_server }
    {
        self.new_server
    }

    /// Returns the number that tells this handover from the shard's other handovers.
    pub const fn number(&self) -> u64
        ensures { result ≡ self.now.number }
    {
        self.number
    }

    /// Returns the cells of the two servers.
    pub const fn cells(&self) -> HandoverCells
        ensures { result ≡ handed_cells self.now }
    {
        HandoverCells {
            owner: Cell::Forwarding {
                to: self.new_server,
                number: self.number,
            },
            new_server: Cell::Primary,
        }
    }

    /// Ends the handover: `drop_shard` at the old owner. The primary stands at the new server.
    pub fn settle(self) -> Steady
        ensures state { result ≡ record { shard = self.shard; server = self.new_server } }
        ensures at_owner { Serves (handed_cells self).owner Call.Drop (steady_cell result self.owner) }
        ensures at_new_server { steady_cell result self.new_server ≡ (handed_cells self).new_server }
    {
        let Handed {
            shard,
            new_server,
            ..
        } = self;
        Steady {
            shard,
            server: new_server,
        }
    }
}
