//! Declared room and spare replicas that the pool does not have.
ghost use Rattle.std.specs.Prelude.{◌≤◌, All, IfSome, IfNone, length};
ghost use Rattle.sm_reservation.specs.Pool.{pool_hold};
ghost use Rattle.sm_plan_code.specs.Plan.{IsSmallStream};
ghost use Rattle.sm_verifier.specs.Admission.{HasDeclaredRoom, HasDeclaredSpare, HasAllRoom, HasAllSpare, IsLowest};
ghost use Rattle.sm_plan_code.specs.declared.limits.TheConstants.{MOST_STREAMS};

use crate::declared::{declared_room, declared_spare};
use crate::next::{next_room, next_spare};
use sm_plan_code::Stream;
use sm_reservation::Pool;
use sm_server::{ServerId, ShardId};

/// Returns the lowest server of which the streams declare more room than the pool has. It is looked for if room is
/// declared.
pub(crate) fn first_short_room(pool: &Pool, streams: &[Stream]) -> Option<ServerId>
    requires few { length streams.now ≤ MOST_STREAMS }
    requires small { All IsSmallStream streams.now }
    ensures lowest { IfSome result (IsLowest (HasDeclaredRoom (pool_hold pool.now) streams.now)) }
    ensures none { IfNone result (HasAllRoom (pool_hold pool.now) streams.now) }
{
    let mut from = 0;
    while let Some(number) = next_room(streams, from) {
        let server = ServerId::new(number);
        if declared_room(streams, server) > pool.room(server) {
            return Some(server);
        }
        from = u64::from(number) + 1;
    }
    None
}

/// Returns the lowest shard of which the streams declare more spare replicas than the pool has. It is looked for if
/// some are declared.
pub(crate) fn first_short_spare(pool: &Pool, streams: &[Stream]) -> Option<ShardId>
    requires few { length streams.now ≤ MOST_STREAMS }
    requires small { All IsSmallStream streams.now }
    ensures lowest { IfSome result (IsLowest (HasDeclaredSpare (pool_hold pool.now) streams.now)) }
    ensures none { IfNone result (HasAllSpare (pool_hold pool.now) streams.now) }
{
    let mut from = 0;
    while let Some(number) = next_spare(streams, from) {
        let shard = ShardId::new(number);
        if declared_spare(streams, shard) > pool.spare(shard) {
            return Some(shard);
        }
        from = u64::from(number) + 1;
    }
    None
}
