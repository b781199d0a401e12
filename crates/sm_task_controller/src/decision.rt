//! The decision on one restart.
ghost use Rattle.std.specs.Prelude.{◌≡◌, ◌<◌, ◌&&◌, ◌==◌, length, None, Some, OnOk, IfErr};
ghost use Rattle.sm_placement.specs.Setup.{sizes_of};
ghost use Rattle.sm_placement.specs.Place.{is_live_at};
ghost use Rattle.sm_placement.specs.Layout.{place_of};
ghost use Rattle.sm_reservation.specs.Pool.{pool_hold};
ghost use Rattle.sm_task_controller.specs.Decision.{first_without_spare, denial};

use sm_placement::Placement;
use sm_reservation::{Pool, StreamId};
use sm_server::{ServerId, ShardId};
use thiserror::Error;

/// A server may be taken down.
#[derive(Clone, Copy, Debug, PartialEq, Eq)]
pub struct Approved;

/// The reason why a server may not be taken down. If there are several, the first one in this order is given.
#[derive(Clone, Copy, Debug, PartialEq, Eq, Error)]
pub enum Denied {
    /// It is down already.
    #[error("the server is down already")]
    AlreadyDown,
    /// An unfinished stream names it in its code.
    #[error("{stream} engages the server, and is not finished")]
    Engaged {
        /// The lowest such stream.
        stream: StreamId,
    },
    /// The number of servers that are down is the greatest that may be down at once.
    #[error("as many servers are down as may be down at once")]
    GlobalCap,
    /// A shard is live at the server and has no spare replica that is free.
    #[error("{shard} is live at the server, and no spare replica of it is free")]
    ShardCap {
        /// The lowest such shard.
        shard: ShardId,
    },
    /// The log has no two free places, one for the approval and one for the end of the restart.
    #[error("the log has no two free places")]
    LogFull,
}

/// Tells whether the shard is live at the server and has no spare replica that is free.
fn is_without_spare(placement: &Placement, pool: &Pool, shard: ShardId, server: ServerId) -> bool
    requires shard { shard < length placement.now.setup.shards }
    requires server { server < length placement.now.setup.servers }
    ensures { result ≡ (is_live_at (place_of placement.now) shard server && ((pool_hold pool.now).spare shard == 0)) }
{
    placement.is_live(shard, server) && pool.spare(shard) == 0
}

/// Returns the lowest shard that is live at the server and has no spare replica that is free.
fn first_without_spare(placement: &Placement, pool: &Pool, server: ServerId) -> Option<ShardId>
    requires { server < length placement.now.setup.servers }
    ensures { result ≡ first_without_spare (sizes_of placement.now.setup) (place_of placement.now)
        (pool_hold pool.now) server }
{
    for number in 0..placement.config().shard_count() {
        let shard = ShardId::new(number);
        if is_without_spare(placement, pool, shard, server) {
            return Some(shard);
        }
    }
    None
}

/// Decides whether a server may be taken down now. Takes no memory.
///
/// `engaged` is the lowest unfinished stream whose code names the server, and `log_free` the number of log places that
/// are neither used nor set aside. The server may be taken down unless, in this order: it is down already; a stream
/// engages it, which could not go on while it is down; the number of servers that are down is the limit; a shard is
/// live at it of which the pool has no spare replica, so that one replica fewer would break into what plans reserve or
/// the floor; or the log has no two free places, one for this approval and one for the end of the restart. The first of
/// these is the answer.
pub fn decide(
    placement: &Placement,
    pool: &Pool,
    engaged: Option<StreamId>,
    log_free: u32,
    server: ServerId,
) -> Result<Approved, Denied>
    requires { server < length placement.now.setup.servers }
    ensures approved { OnOk result (denial (sizes_of placement.now.setup) (place_of placement.now)
        (pool_hold pool.now) engaged log_free server ≡ None) }
    ensures denied { IfErr result (λ why. denial (sizes_of placement.now.setup) (place_of placement.now)
        (pool_hold pool.now) engaged log_free server ≡ Some why) }
{
    if placement.is_down(server) {
        return Err(Denied::AlreadyDown);
    }
    if let Some(stream) = engaged {
        return Err(Denied::Engaged { stream });
    }
    if placement.down_count() >= placement.limit() {
        return Err(Denied::GlobalCap);
    }
    if let Some(shard) = first_without_spare(placement, pool, server) {
        return Err(Denied::ShardCap { shard });
    }
    if log_free < 2 {
        return Err(Denied::LogFull);
    }
    Ok(Approved)
}
