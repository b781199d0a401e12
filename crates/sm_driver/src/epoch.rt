//! Why an epoch does not follow another.
ghost use Rattle.std.specs.Prelude.{◌≡◌, ◌≢◌, ◌<◌, ◌+◌, nat_le};
ghost use Rattle.sm_plan_code.specs.declared.limits.TheConstants.{MOST_PLACES};
ghost use Rattle.sm_machine.specs.State.{state_of};
ghost use Rattle.sm_driver.specs.Epochs.{fault_by, last_epoch, shard_spent};

use sm_machine::Machine;
use sm_plan_code::MOST_PLACES;
use sm_server::ShardId;
use thiserror::Error;

/// The reason why the next epoch does not open: of several the first one in this order. Want of memory comes last.
#[derive(Clone, Copy, Debug, PartialEq, Eq, Error)]
pub enum EpochFault {
    /// A plan is unfinished.
    #[error("plan {plan} is not finished")]
    NotAtRest {
        /// The lowest such plan.
        plan: u32,
    },
    /// The epoch is the last one that has a number.
    #[error("no epoch follows the last one")]
    LastEpoch,
    /// An entry of the published map has changed too often since the last reopening, which counts anew.
    #[error("the version of {shard} in the published map is 2^20 or more: a reopening counts anew")]
    VersionsSpent {
        /// The lowest such shard.
        shard: ShardId,
    },
    /// Memory was short.
    #[error("out of memory")]
    NoMemory,
}

/// Whether a full log might take the version of a shard up to the distance of two epochs' bases.
fn is_spent(machine: &Machine, shard: u32) -> bool
    requires { shard < (state_of machine.now).sizes.shards }
    ensures { result ≡ nat_le MOST_PLACES ((state_of machine.now).place.version shard) }
{
    MOST_PLACES as u64 <= machine.entry(ShardId::new(shard)).version
}

/// The lowest shard whose version a full log might raise to the next base.
pub(crate) fn shard_spent(machine: &Machine) -> Option<ShardId>
    ensures { result ≡ shard_spent (state_of machine.now) }
{
    for number in 0..machine.config().shard_count() {
        if is_spent(machine, number) {
            return Some(ShardId::new(number));
        }
    }
    None
}

/// The first of the reasons: an unfinished plan, the last epoch, and a version that is too high.
pub(crate) fn fault_by(
    plan: Option<u32>,
    is_last: bool,
    shard: Option<ShardId>,
) -> Option<EpochFault>
    ensures { result ≡ fault_by plan is_last shard }
{
    match plan {
        Some(plan) => Some(EpochFault::NotAtRest { plan }),
        None if is_last => Some(EpochFault::LastEpoch),
        None => match shard {
            Some(shard) => Some(EpochFault::VersionsSpent { shard }),
            None => None,
        },
    }
}

/// The number of the epoch after another.
pub(crate) const fn epoch_after(epoch: u32) -> u32
    requires { epoch ≢ last_epoch }
    ensures { result ≡ epoch + 1 }
{
    epoch + 1
}
