//! Servers that have lost all they had.
ghost use Rattle.std.specs.Prelude.{IfOk};
ghost use Rattle.smpland_session.specs.Outcomes.{RestoreOutcome};

use crate::command_context::CommandContext;
use crate::decline::Decline;
use crate::driver_outcome::DriverOutcome;
use sm_driver::RestoreFault;
use smpland_state::JournalState;
use std::alloc::{AllocError, Global};

/// Restores a server that asks under a nonce. While a reopening is under way, a server is only told what it was told
/// before.
pub fn restore(
    opened: &mut JournalState,
    at: CommandContext,
    alloc: Global,
    name: &str,
    nonce: u64,
) -> Result<DriverOutcome, AllocError>
    ensures { IfOk result (λ outcome. RestoreOutcome name.now nonce at.is_reopening opened.old outcome opened.new) }
{
    let Some(server) = opened.driver.machine().config().server_named(name) else {
        return Ok(DriverOutcome::Declined(Decline::UnknownServer));
    };
    // A server that asks again under the same nonce is told what it was told.
    if opened.is_told(server, nonce) {
        return Ok(DriverOutcome::RestoredBefore { server, nonce });
    }
    if at.is_reopening {
        return Ok(DriverOutcome::Declined(Decline::Reopening));
    }
    match opened.driver.restore(alloc, server, nonce) {
        Ok(_is_new) => Ok(DriverOutcome::Restored { server, nonce }),
        Err(RestoreFault::NoMemory) => Err(AllocError),
        Err(RestoreFault::Engaged { stream }) => {
            Ok(DriverOutcome::Declined(Decline::Engaged { server, stream }))
        }
    }
}
