//! The servers of a reopening that begins.
ghost use Rattle.std.specs.Prelude.{◌≡◌, IfOk, map};
ghost use Rattle.sm_reopening.specs.States.{fresh_state};

use crate::party::Membership;
use crate::state::ServerState;
use std::alloc::{AllocError, Global};

/// Returns the servers of a reopening that nobody has answered yet.
pub(crate) fn fresh_states(
    alloc: Global,
    members: &[Membership],
) -> Result<Vec<ServerState>, AllocError>
    ensures { IfOk result (λ states. states.items ≡ map fresh_state members.now) }
{
    members
        .iter()
        .map(|membership| ServerState {
            membership: *membership,
            told: None,
            settled: false,
            promised: false,
        })
        .collect(alloc)
}
