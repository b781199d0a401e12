//! The opening of the next epoch.
ghost use Rattle.std.specs.Prelude.{IfOk};
ghost use Rattle.smpland_session.specs.Outcomes.{EpochOutcome};

use crate::command_context::CommandContext;
use crate::decline::Decline;
use crate::driver_outcome::DriverOutcome;
use sm_driver::EpochFault;
use smpland_state::JournalState;
use std::alloc::{AllocError, Global};

/// Opens the next epoch, unless a reopening is under way.
pub fn open_next(
    opened: &mut JournalState,
    at: CommandContext,
    alloc: Global,
) -> Result<DriverOutcome, AllocError>
    ensures { IfOk result (λ outcome. EpochOutcome at.is_reopening opened.old outcome opened.new) }
{
    if at.is_reopening {
        return Ok(DriverOutcome::Declined(Decline::Reopening));
    }
    match opened.driver.new_epoch(alloc) {
        Ok(()) => {
            opened.begin_epoch();
            Ok(DriverOutcome::NextEpoch)
        }
        Err(EpochFault::NoMemory) => Err(AllocError),
        Err(fault) => Ok(DriverOutcome::Declined(Decline::NoEpoch(fault))),
    }
}
