//! Ends of restarts.
ghost use Rattle.std.specs.Prelude.{◌≡◌};
ghost use Rattle.smpland_session.specs.Outcomes.{RestartedOutcome, is_down_under, why_not_ended};

use crate::command_context::CommandContext;
use crate::decline::{Decline, Ignored};
use crate::driver_outcome::DriverOutcome;
use sm_driver::RestartEffect;
use smpland_state::JournalState;

/// Whether a server is down under this permit.
fn is_down_under(permits: &[Option<u64>], permit: u64) -> bool
    ensures { result ≡ is_down_under permits.now permit }
{
    permits.iter().any(|given| match given {
        Some(given) => *given == permit,
        None => false,
    })
}

/// The reason why no restart ends while a reopening is under way: it has to wait, or has ended before.
fn wait_for_reopening(opened: &JournalState, permit: u64) -> Decline
    ensures { result ≡ why_not_ended opened.now.driver.permits permit }
{
    if is_down_under(opened.driver.permits(), permit) {
        Decline::Reopening
    } else {
        Decline::Ignored(Ignored::Old)
    }
}

/// Ends the restart that has this permit, of a server with this base, unless a reopening is under way.
pub fn restarted(
    opened: &mut JournalState,
    at: CommandContext,
    permit: u64,
    base: Option<u64>,
) -> DriverOutcome
    ensures { RestartedOutcome permit base at.is_reopening opened.old result opened.new }
{
    if at.is_reopening {
        return DriverOutcome::Declined(wait_for_reopening(opened, permit));
    }
    match opened.driver.restarted(permit, base) {
        RestartEffect::Up(server) => DriverOutcome::Up(server),
        RestartEffect::Unsettled(server) => DriverOutcome::Declined(Decline::Unsettled(server)),
        RestartEffect::Old => DriverOutcome::Declined(Decline::Ignored(Ignored::Old)),
    }
}
