//! The calls that instructions make, with the numbers that they carry.
ghost use Rattle.std.specs.Prelude.{◌≡◌, ◌<◌, ◌-◌, ◌^◌};
ghost use Rattle.sm_plan_code.specs.Acts.{call_of, number_after, other_role};

use crate::Instr;
use sm_server::{Call, Role, ServerId, ShardId};

/// A call for a shard at a server.
#[derive(Clone, Copy, Debug, PartialEq, Eq)]
pub struct ServerCall {
    /// The shard that the call is for.
    pub shard: ShardId,
    /// The server at which it is made.
    pub server: ServerId,
    /// The call itself.
    pub call: Call,
}

/// Returns the call that an instruction makes, if it makes one.
///
/// `number` is the shard's highest handover number once the instruction is made, which a prepare_add and a prepare_drop
/// carry.
pub const fn call_of(instr: &Instr, number: u64) -> Option<ServerCall>
    ensures { result ≡ call_of instr.now number }
{
    let (shard, server, call) = match *instr {
        Instr::PrepareAdd {
            shard,
            server,
            owner,
        } => (shard, server, Call::PrepareAdd { owner, number }),
        Instr::PrepareDrop {
            shard,
            server,
            new_owner,
        } => (shard, server, Call::PrepareDrop { new_owner, number }),
        Instr::Add {
            shard,
            server,
            role,
        } => (shard, server, Call::Add(role)),
        Instr::Drop { shard, server } => (shard, server, Call::Drop),
        Instr::Change { shard, server, to } => (shard, server, change_to(to)),
        Instr::Publish { .. } | Instr::Unlist { .. } | Instr::Signal { .. } | Instr::Wait { .. } =>
            return None,
    };
    Some(ServerCall {
        shard,
        server,
        call,
    })
}

/// Returns the call that changes a replica from the other role to this one.
const fn change_to(to: Role) -> Call
    ensures { result ≡ Call.Change (other_role to) to }
{
    let from = match to {
        Role::Primary => Role::Secondary,
        Role::Secondary => Role::Primary,
    };
    Call::Change { from, to }
}

/// Returns the shard's highest handover number once an instruction is made, if it is `highest` before: a prepare_add
/// has a new one.
pub const fn number_after(instr: &Instr, highest: u64) -> u64
    requires { highest < 2 ^ 64 - 1 }
    ensures { result ≡ number_after instr.now highest }
{
    match *instr {
        Instr::PrepareAdd { .. } => highest + 1,
        Instr::PrepareDrop { .. }
        | Instr::Add { .. }
        | Instr::Drop { .. }
        | Instr::Change { .. }
        | Instr::Publish { .. }
        | Instr::Unlist { .. }
        | Instr::Signal { .. }
        | Instr::Wait { .. } => highest,
    }
}
