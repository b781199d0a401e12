//! The instructions of a plan's streams, and why one of them may not be made.
ghost use Rattle.std.specs.Prelude.{◌≡◌, ◌↔◌, IsTrue};
ghost use Rattle.sm_plan_code.specs.Instr.{is_call, names_of, Mentions};

use sm_server::{Role, ServerId, ShardId};
use thiserror::Error;

/// One step of a stream.
#[derive(Clone, Copy, Debug, PartialEq, Eq)]
pub enum Instr {
    /// Prepares `server` for a primary that `owner` hands over.
    PrepareAdd {
        shard: ShardId,
        server: ServerId,
        owner: ServerId,
    },
    /// Makes the owner `server` forward to the prepared server `new_owner`.
    PrepareDrop {
        shard: ShardId,
        server: ServerId,
        new_owner: ServerId,
    },
    /// Adds a replica in a role. A primary comes to a server that is prepared, or to any if the shard has no primary.
    Add {
        shard: ShardId,
        server: ServerId,
        role: Role,
    },
    /// Makes a server give up what it has of a shard.
    Drop {
        shard: ShardId,
        server: ServerId,
    },
    /// Changes a replica from the other role to the role `to`.
    Change {
        shard: ShardId,
        server: ServerId,
        to: Role,
    },
    /// Writes the server that serves requests into the published map.
    Publish {
        shard: ShardId,
    },
    /// Takes the shard's server out of the published map.
    Unlist {
        shard: ShardId,
    },
    /// Posts a signal, and with it the signal's parcel of rights.
    Signal {
        signal: u32,
    },
    /// Waits until a signal is posted, and takes its parcel of rights.
    Wait {
        signal: u32,
    },
}

/// Why a stream may not make an instruction, or may not end.
#[derive(Clone, Copy, Debug, PartialEq, Eq, Error)]
pub enum Why {
    /// A cell is to change, and no right to it is held.
    #[error("no right to the cell is held")]
    NoRight,
    /// The right to the cell is held, and the cell is in the other state than the instruction needs.
    #[error("the cell is in another state")]
    WrongState,
    /// The lead or the published map is to change, and the shard's crown isn't held.
    #[error("the crown of the shard is not held")]
    NoCrown,
    /// The crown is held, and its lead isn't the one that the instruction needs.
    #[error("the lead of the shard is another one")]
    WrongLead,
    /// A primary is to go while the published map names its server.
    #[error("the published map still names the server")]
    StillListed,
    /// A replica is to come to a server where less room is held than it needs.
    #[error("too little room at the server is held")]
    NoRoom,
    /// A live replica is to go, and no spare replica of its shard is held.
    #[error("no spare replica of the shard is held")]
    NoSpare,
    /// A signal is to be posted, and a right of its parcel isn't held, or less of it is.
    #[error("a right of the signal's parcel is not held")]
    NotCarried,
    /// A right to a cell or a crown is to come that is held already.
    #[error("a right would be held twice")]
    Twice,
    /// The stream is at its end, and the handover of a crown that it holds is under way.
    #[error("a handover is under way at the end")]
    Unsettled,
    /// A call is to be made, and the calls before it use up the stream's budget.
    #[error("the budget of calls is used up")]
    OverBudget,
}

/// The servers that an instruction mentions.
#[derive(Clone, Copy, Debug, PartialEq, Eq)]
pub struct NamedServers {
    /// The server that the call goes to.
    pub first: Option<ServerId>,
    /// The other server of a handover.
    pub second: Option<ServerId>,
}

impl NamedServers {
    /// Tells whether the server is one of these.
    pub fn contains(&self, server: ServerId) -> bool
        ensures { IsTrue result ↔ Mentions self.now server }
    {
        self.first == Some(server) || self.second == Some(server)
    }
}

/// Tells whether the instruction is a call at a server.
pub const fn is_call(instr: &Instr) -> bool
    ensures { result ≡ is_call instr.now }
{
    matches!(
        instr,
        Instr::PrepareAdd { .. }
            | Instr::PrepareDrop { .. }
            | Instr::Add { .. }
            | Instr::Drop { .. }
            | Instr::Change { .. }
    )
}

/// Returns every server that the instruction mentions, the other server of a handover included.
pub fn names(instr: &Instr) -> NamedServers
    ensures { result ≡ names_of instr.now }
{
    match *instr {
        Instr::PrepareAdd { server, owner, .. } => NamedServers {
            first: Some(server),
            second: Some(owner),
        },
        Instr::PrepareDrop {
            server,
            new_owner,
            ..
        } => NamedServers {
            first: Some(server),
            second: Some(new_owner),
        },
        Instr::Add { server, .. } | Instr::Drop { server, .. } | Instr::Change { server, .. } => {
            NamedServers {
                first: Some(server),
                second: None,
            }
        }
        Instr::Publish { .. } | Instr::Unlist { .. } | Instr::Signal { .. } | Instr::Wait { .. } =>
            {
                NamedServers {
                    first: None,
                    second: None,
                }
            }
    }
}
