//! The handover after its second step, `prepare_drop_shard` at the owner.
use super::{Handed, HandoverCells};
use crate::call::{Call, Cell, Role};
use crate::server_id::ServerId;
use crate::shard_id::ShardId;
use std::marker::Model;

/// The owner forwards its requests, and the prepared server executes them.
#[derive(Debug, Drop)]
pub struct Handing {
    pub(super) shard: ShardId,
    pub(super) owner: ServerId,
    pub(super) new_server: ServerId,
    pub(super) number: u64,
}

impl Model for Handing {
    ghost use Rattle.std.specs.Prelude.{◌≢◌};
    ghost use Rattle.sm_server.specs.Handover.{HandoverModel};

    ghost Value = { HandoverModel };

    ghost view = { λ t. record { shard = t.shard; owner = t.owner; new_server = t.new_server; number = t.number } };

    ghost invariant = { λ t. t.owner ≢ t.new_server };
}

impl Handing {
    ghost use Rattle.std.specs.Prelude.{◌≡◌};
    ghost use Rattle.sm_server.specs.Handover.{handing_cells, handed_cells, Serves};

    /// Returns the shard whose primary is handed over.
    pub const fn shard(&self) -> ShardId
        ensures { result ≡ self.now.shard }
    {
        self.shard
    }

    /// Returns the server that hands the primary over.
    pub const fn owner(&self) -> ServerId
        ensures { result ≡ self.now.owner }
    {
        self.owner
    }

    /// Returns the server that takes it.
    pub const fn new_server(&self) -> ServerId
        ensures { result ≡ self.now.new_server }
    {
        self.new_server
    }

    /// Returns the number that tells this handover from the shard's other handovers.
    pub const fn number(&self) -> u64
        ensures { result ≡ self.now.number }
    {
        self.number
    }

    /// Returns the cells of the two servers.
    pub const fn cells(&self) -> HandoverCells
        ensures { result ≡ handing_cells self.now }
    {
        HandoverCells {
            owner: Cell::Forwarding {
                to: self.new_server,
                number: self.number,
            },
            new_server: Cell::Prepared {
                from: self.owner,
                number: self.number,
            },
        }
    }

    /// Makes the new server the primary: `add_shard` there.
    pub fn take(self) -> Handed
        ensures state { result ≡ self }
        ensures at_owner { (handed_cells result).owner ≡ (handing_cells self).owner }
        ensures at_new_server { Serves (handing_cells self).new_server (Call.Add Role.Primary)
            (handed_cells result).new_server }
    {
        let Handing {
            shard,
            owner,
            new_server,
            number,
        } = self;
        Handed {
            shard,
            owner,
            new_server,
            number,
        }
    }
}
