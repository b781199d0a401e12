//! Commands that change a journal that is open.
ghost use Rattle.std.specs.Prelude.{IfOk};
ghost use Rattle.smpland_session.specs.Outcomes.{HasOutcome};

use crate::answering::answered;
use crate::approving::approve;
use crate::beginning::begin;
use crate::command_context::CommandContext;
use crate::copied::{CopiedLine, copied};
use crate::driver_outcome::DriverOutcome;
use crate::next_epoch::open_next;
use crate::restarting::restarted;
use crate::restoring::restore;
use sm_driver::ToldCopies;
use sm_reservation::StreamId;
use smpland_lines::DriverCommand;
use smpland_state::JournalState;
use std::alloc::{AllocError, Global};

/// Applies a command to a journal that is open.
pub fn change(
    opened: &mut JournalState,
    at: CommandContext,
    alloc: Global,
    command: DriverCommand<'_, '_>,
) -> Result<DriverOutcome, AllocError>
    ensures { IfOk result (λ outcome. HasOutcome command.entry at.is_reopening opened.old outcome opened.new) }
{
    match command {
        DriverCommand::Begin { plan, name } => begin(opened, at, alloc, plan, name),
        DriverCommand::Answered {
            plan,
            stream,
            number,
        } => answered(opened, at, alloc, StreamId { plan, stream }, number),
        DriverCommand::Approve { server, by } => approve(opened, at, server, by),
        DriverCommand::Restarted { permit, base } => Ok(restarted(opened, at, permit, base)),
        DriverCommand::Restore { server, nonce } => restore(opened, at, alloc, server, nonce),
        DriverCommand::NewEpoch => open_next(opened, at, alloc),
        DriverCommand::Copied {
            shard,
            journal,
            fence,
            copies,
        } => {
            let told = ToldCopies {
                journal,
                fence,
                copies,
            };
            Ok(copied(opened, at, CopiedLine { shard, told }))
        }
    }
}
