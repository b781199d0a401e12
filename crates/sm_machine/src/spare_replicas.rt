//! The spare replicas that go out of a pool with a server that goes down, and come back with one that comes up, shard
//! by shard.
ghost use Rattle.std.specs.Prelude.{◌≡◌, ◌<◌, length};
ghost use Rattle.sm_placement.specs.Setup.{sizes_of};
ghost use Rattle.sm_placement.specs.Layout.{place_of};
ghost use Rattle.sm_reservation.specs.Pool.{pool_hold, HasSize, SameSize};
ghost use Rattle.sm_machine.specs.Tied.{pay_live, get_live};
ghost use Rattle.sm_machine.specs.SpareReplicas.{live_there, CanPayLive, CanGetLive};

use sm_placement::Placement;
use sm_reservation::Pool;
use sm_server::{ServerId, ShardId};

/// Takes a spare replica of each shard that is live at the server out of the pool. Takes no memory.
pub(crate) fn pay_live(pool: &mut Pool, placement: &Placement, server: ServerId)
    requires server { server < length placement.now.setup.servers }
    requires spare { CanPayLive (pool_hold pool.old) (live_there (place_of placement.now) server)
        (length placement.now.setup.shards) }
    ensures hold { pool_hold pool.new ≡ pay_live (pool_hold pool.old) (live_there (place_of placement.now) server)
        (length placement.now.setup.shards) }
    ensures size { SameSize pool.old pool.new }
{
    for number in 0..placement.config().shard_count() {
        let shard = ShardId::new(number);
        if placement.is_live(shard, server) {
            pool.less(shard);
        }
    }
}

/// Puts a spare replica of each shard that is live at the server into the pool. Takes no memory.
pub(crate) fn get_live(pool: &mut Pool, placement: &Placement, server: ServerId)
    requires server { server < length placement.now.setup.servers }
    requires size { HasSize (sizes_of placement.now.setup) pool.old }
    requires fits { CanGetLive (pool_hold pool.old) (live_there (place_of placement.now) server)
        (length placement.now.setup.shards) }
    ensures hold { pool_hold pool.new ≡ get_live (pool_hold pool.old) (live_there (place_of placement.now) server)
        (length placement.now.setup.shards) }
    ensures size { SameSize pool.old pool.new }
{
    for number in 0..placement.config().shard_count() {
        let shard = ShardId::new(number);
        if placement.is_live(shard, server) {
            pool.more(shard);
        }
    }
}
