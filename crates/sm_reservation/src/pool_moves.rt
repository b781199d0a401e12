//! Rights of a whole list taken out of a pool or put into it.
ghost use Rattle.std.specs.Prelude.{◌≡◌, ◌<◌};
ghost use Rattle.std.specs.List.{AllByRecursion};
ghost use Rattle.sm_reservation.specs.Hold.{minus_cells, plus_cells, minus_crowns, plus_crowns, minus_room, plus_room};
ghost use Rattle.sm_reservation.specs.Hold.{minus_spare, plus_spare};
ghost use Rattle.sm_reservation.specs.Steps.{AllSteps};
ghost use Rattle.sm_reservation.specs.Turns.{in_room, in_spare, RoomFits, SpareFits};
ghost use Rattle.sm_reservation.specs.Pool.{pool_hold, SameSize};

use crate::pool::Pool;
use crate::right::{CellRight, Crown, Room, Spare};

/// Takes the rights to these cells out, whatever their states in the list; one that the pool lacks changes nothing.
pub(crate) fn take_cells(pool: &mut Pool, rights: &[CellRight])
    ensures hold { pool_hold pool.new ≡ minus_cells (pool_hold pool.old) rights.now }
    ensures size { SameSize pool.old pool.new }
{
    for right in rights {
        pool.take_cell(right.shard, right.server);
    }
}

/// Puts these cell rights in, each over what the pool had at its key.
pub(crate) fn put_cells(pool: &mut Pool, rights: &[CellRight])
    requires known { AllByRecursion (λ x. (x.shard < pool.old.shards) × (x.server < pool.old.servers)) rights.now }
    ensures hold { pool_hold pool.new ≡ plus_cells (pool_hold pool.old) rights.now }
    ensures size { SameSize pool.old pool.new }
{
    for right in rights {
        pool.put_cell(*right);
    }
}

/// Takes the crowns of these shards out, whatever their leads in the list; one that the pool lacks changes nothing.
pub(crate) fn take_crowns(pool: &mut Pool, crowns: &[Crown])
    ensures hold { pool_hold pool.new ≡ minus_crowns (pool_hold pool.old) crowns.now }
    ensures size { SameSize pool.old pool.new }
{
    for crown in crowns {
        pool.take_crown(crown.shard);
    }
}

/// Puts these crowns in, each over what the pool had at its key.
pub(crate) fn put_crowns(pool: &mut Pool, crowns: &[Crown])
    requires known { AllByRecursion (λ x. x.shard < pool.old.shards) crowns.now }
    ensures hold { pool_hold pool.new ≡ plus_crowns (pool_hold pool.old) crowns.now }
    ensures size { SameSize pool.old pool.new }
{
    for crown in crowns {
        pool.put_crown(*crown);
    }
}

/// Takes these amounts of room out at their servers, or all of it if there is less.
pub(crate) fn take_rooms(pool: &mut Pool, rooms: &[Room])
    ensures hold { pool_hold pool.new ≡ minus_room (pool_hold pool.old) rooms.now }
    ensures size { SameSize pool.old pool.new }
{
    for room in rooms {
        pool.take_room(*room);
    }
}

/// Puts these amounts of room in at their servers.
pub(crate) fn put_rooms(pool: &mut Pool, rooms: &[Room])
    requires known { AllByRecursion (λ x. x.server < pool.old.servers) rooms.now }
    requires fits { AllSteps in_room RoomFits (pool_hold pool.old) rooms.now }
    ensures hold { pool_hold pool.new ≡ plus_room (pool_hold pool.old) rooms.now }
    ensures size { SameSize pool.old pool.new }
{
    for room in rooms {
        pool.put_room(*room);
    }
}

/// Takes these numbers of spare replicas out of their shards, or all of them if there are fewer.
pub(crate) fn take_spares(pool: &mut Pool, spares: &[Spare])
    ensures hold { pool_hold pool.new ≡ minus_spare (pool_hold pool.old) spares.now }
    ensures size { SameSize pool.old pool.new }
{
    for spare in spares {
        pool.take_spare(*spare);
    }
}

/// Puts these numbers of spare replicas in at their shards.
pub(crate) fn put_spares(pool: &mut Pool, spares: &[Spare])
    requires known { AllByRecursion (λ x. x.shard < pool.old.shards) spares.now }
    requires fits { AllSteps in_spare SpareFits (pool_hold pool.old) spares.now }
    ensures hold { pool_hold pool.new ≡ plus_spare (pool_hold pool.old) spares.now }
    ensures size { SameSize pool.old pool.new }
{
    for spare in spares {
        pool.put_spare(*spare);
    }
}
