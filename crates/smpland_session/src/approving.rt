//! Approvals of restarts.
ghost use Rattle.std.specs.Prelude.{◌≡◌, IfOk, None};
ghost use Rattle.smpland_state.specs.Names.{value_of};
ghost use Rattle.smpland_session.specs.Outcomes.{AgainOutcome, ApproveOutcome};

use crate::command_context::CommandContext;
use crate::decline::Decline;
use crate::driver_outcome::DriverOutcome;
use sm_server::ServerId;
use smpland_lines::server_name;
use smpland_state::{GivenAt, JournalState};
use std::alloc::{AllocError, Global};

/// The outcome of an approval under a name under which a restart was approved before.
fn approved_before(opened: &JournalState, at: GivenAt, server: &str) -> DriverOutcome
    ensures { AgainOutcome server.now opened.now at result }
{
    match opened.permits.get(at) {
        Some(given) => {
            if given.server.as_str() == server {
                DriverOutcome::ApprovedBefore(at)
            } else {
                DriverOutcome::Declined(Decline::OtherServer(at))
            }
        }
        None => DriverOutcome::ApprovedBefore(at),
    }
}

/// Gives a permit of a server its name.
fn name_permit(
    opened: &mut JournalState,
    server: ServerId,
    permit: u64,
    by: &str,
) -> Result<(), AllocError>
    requires { value_of opened.old.approvals by.now ≡ None }
    ensures { opened.new.driver ≡ opened.old.driver }
{
    let name = server_name(opened.driver.machine().config(), server);
    let given = opened.permits.push(name, permit, by)?;
    opened.approvals.insert(by, given)
}

/// Approves the restart of a server under a name, unless one was approved under it or a reopening is under way.
pub fn approve(
    opened: &mut JournalState,
    at: CommandContext,
    server: &str,
    by: &str,
) -> Result<DriverOutcome, AllocError>
    ensures { IfOk result (λ outcome. ApproveOutcome server.now by.now at.is_reopening opened.old outcome opened.new) }
{
    // Whoever asks again under the same name is told the same permit.
    if let Some(given) = opened.approvals.get(by) {
        return Ok(approved_before(opened, given, server));
    }
    if at.is_reopening {
        return Ok(DriverOutcome::Declined(Decline::Reopening));
    }
    let Some(server) = opened.driver.machine().config().server_named(server) else {
        return Ok(DriverOutcome::Declined(Decline::UnknownServer));
    };
    match opened.driver.approve(server) {
        Ok(permit) => {
            name_permit(opened, server, permit, by)?;
            Ok(DriverOutcome::Approved { server, permit })
        }
        Err(why) => Ok(DriverOutcome::Declined(Decline::Denied { server, why })),
    }
}
