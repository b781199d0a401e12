//! Why a reopening does not begin, and why nothing is confirmed.
ghost use Rattle.std.specs.Prelude.{◌≡◌};

use sm_placement::{ConfigFault, OpenFault};
use sm_reopening::{ConfirmFault, Party};
use sm_server::{ServerId, ShardId};
use std::alloc::AllocError;

/// Why a reopening does not begin.
#[derive(Clone, Copy, Debug, PartialEq, Eq)]
pub enum ReopenFault {
    NoMemory,
    /// The document names the cell of a shard at a server twice.
    DoubleCell { shard: ShardId, server: ServerId },
    /// The document has two primaries of the shard, or a handover.
    BadLead { shard: ShardId },
    /// The document has the server, which is said to be lost.
    LostServer { server: ServerId },
    /// More servers or shards would have numbers than a configuration has.
    TooMany,
}

impl From<AllocError> for ReopenFault {
    ghost use Rattle.smpland_reopening.specs.declared.fault.ReopenFault.TheVariants.{NoMemory};

    ghost from_gives = { λ _ why. why ≡ NoMemory };

    fn from(_error: AllocError) -> Self {
        ReopenFault::NoMemory
    }
}

/// Why nothing is confirmed. Servers and shards have the numbers of the reopening.
#[derive(Clone, Copy, Debug, PartialEq, Eq)]
pub enum ConfirmRefusal {
    NoMemory,
    /// The party has to answer the fence before.
    Missing { party: Party },
    /// The shard may be lost, and is not named; or it is named, and is not among those that may be lost.
    Unnamed { shard: ShardId },
    /// The placement that was chosen is none.
    Placement(OpenFault),
    /// The chosen cells are not what may be settled.
    Cells(ConfirmFault),
    /// A server has a shard that nobody knows.
    UnknownShard,
}

impl From<AllocError> for ConfirmRefusal {
    ghost use Rattle.smpland_reopening.specs.declared.fault.ConfirmRefusal.TheVariants.{NoMemory};

    ghost from_gives = { λ _ why. why ≡ NoMemory };

    fn from(_error: AllocError) -> Self {
        ConfirmRefusal::NoMemory
    }
}

impl From<OpenFault> for ConfirmRefusal {
    ghost use Rattle.smpland_reopening.specs.Faults.{refusal_by};

    ghost from_gives = { λ fault why. why ≡ refusal_by fault };

    fn from(fault: OpenFault) -> Self {
        match fault {
            OpenFault::NoMemory => ConfirmRefusal::NoMemory,
            other => ConfirmRefusal::Placement(other),
        }
    }
}
