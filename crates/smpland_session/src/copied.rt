//! Copies of shards: how many replicas surely have each acknowledged write.
ghost use Rattle.smpland_session.specs.Outcomes.{CopiedOutcome};

use crate::command_context::CommandContext;
use crate::decline::{Decline, Ignored};
use crate::driver_outcome::DriverOutcome;
use sm_driver::{CopiesEffect, ToldCopies};
use smpland_state::JournalState;

/// The line that tells copies of a shard.
#[derive(Clone, Copy)]
pub struct CopiedLine<'s> {
    pub shard: &'s str,
    pub told: ToldCopies,
}

/// Notes the copies of a shard, unless a reopening is under way.
pub fn copied(opened: &mut JournalState, at: CommandContext, line: CopiedLine<'_>) -> DriverOutcome
    ensures { CopiedOutcome line.entry.shard.now line.entry.told at.is_reopening opened.old result opened.new }
{
    if at.is_reopening {
        return DriverOutcome::Declined(Decline::Ignored(Ignored::Old));
    }
    let Some(shard) = opened.driver.machine().config().shard_named(line.shard) else {
        return DriverOutcome::Declined(Decline::UnknownShard);
    };
    match opened.driver.copied(shard, line.told) {
        CopiesEffect::Noted => DriverOutcome::Copied(shard),
        CopiesEffect::Old => DriverOutcome::Declined(Decline::Ignored(Ignored::Old)),
        CopiesEffect::AboveWant => DriverOutcome::Declined(Decline::AboveWant(shard)),
    }
}
