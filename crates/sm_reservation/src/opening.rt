//! All rights true of a placement, put into a pool.
ghost use Rattle.std.specs.Prelude.{◌≡◌, ◌<◌, ℕ, None, length};
ghost use Rattle.sm_placement.specs.Setup.{sizes_of};
ghost use Rattle.sm_placement.specs.Sums.{put};
ghost use Rattle.sm_placement.specs.Lead.{IsSettled};
ghost use Rattle.sm_placement.specs.Layout.{place_of};
ghost use Rattle.sm_reservation.specs.Amounts.{plain_of};
ghost use Rattle.sm_reservation.specs.Pool.{pool_hold, SameSize, HasSize, true_rights};

use crate::pool::Pool;
use crate::right::{CellRight, Crown, PlainCell, Room, Spare};
use sm_placement::Placement;
use sm_server::{Cell, ServerId, ShardId};

/// Returns the cell, if there is a right to it.
fn plain_of(cell: &Cell) -> Option<PlainCell>
    ensures { result ≡ plain_of cell.now }
{
    match cell {
        Cell::Absent => Some(PlainCell::Absent),
        Cell::Secondary => Some(PlainCell::Secondary),
        _ => None,
    }
}

/// Puts in the rights to a shard's cells.
fn put_row(pool: &mut Pool, placement: &Placement, shard: ShardId)
    requires size { HasSize (sizes_of placement.now.setup) pool.old }
    requires shard { shard < length placement.now.setup.shards }
    requires none { (v : ℕ) → (pool_hold pool.old).cells shard v ≡ None }
    ensures hold { pool_hold pool.new ≡ record
        (pool_hold pool.old) {
          cells = put (pool_hold pool.old).cells shard
              ((true_rights (sizes_of placement.now.setup) (place_of placement.now)).cells shard);
        } }
    ensures size { SameSize pool.old pool.new }
{
    for number in 0..placement.config().server_count() {
        let server = ServerId::new(number);
        if let Some(state) = plain_of(&placement.cell(shard, server)) {
            pool.put_cell(CellRight {
                shard,
                server,
                state,
            });
        }
    }
}

/// Puts in the rights to all cells.
pub(crate) fn put_cells(pool: &mut Pool, placement: &Placement)
    requires size { HasSize (sizes_of placement.now.setup) pool.old }
    requires none { (s v : ℕ) → (pool_hold pool.old).cells s v ≡ None }
    ensures hold { pool_hold pool.new ≡ record
        (pool_hold pool.old) {
          cells = (true_rights (sizes_of placement.now.setup)
              (place_of placement.now)).cells;
        } }
    ensures size { SameSize pool.old pool.new }
{
    for number in 0..placement.config().shard_count() {
        put_row(pool, placement, ShardId::new(number));
    }
}

/// Puts in all crowns.
pub(crate) fn put_crowns(pool: &mut Pool, placement: &Placement)
    requires size { HasSize (sizes_of placement.now.setup) pool.old }
    requires none { (s : ℕ) → (pool_hold pool.old).crowns s ≡ None }
    ensures hold { pool_hold pool.new ≡ record
        (pool_hold pool.old) {
          crowns = (true_rights (sizes_of placement.now.setup)
              (place_of placement.now)).crowns;
        } }
    ensures size { SameSize pool.old pool.new }
{
    for number in 0..placement.config().shard_count() {
        let shard = ShardId::new(number);
        if let Some(lead) = placement.lead(shard) {
            pool.put_crown(Crown {
                shard,
                lead,
                listed: placement.listed(shard),
            });
        }
    }
}

/// Puts in the free room of all servers.
pub(crate) fn put_rooms(pool: &mut Pool, placement: &Placement)
    requires size { HasSize (sizes_of placement.now.setup) pool.old }
    requires none { (v : ℕ) → (pool_hold pool.old).room v ≡ 0 }
    ensures hold { pool_hold pool.new ≡ record
        (pool_hold pool.old) {
          room = (true_rights (sizes_of placement.now.setup) (place_of placement.now)).room;
        } }
    ensures size { SameSize pool.old pool.new }
{
    for number in 0..placement.config().server_count() {
        let server = ServerId::new(number);
        pool.put_room(Room {
            server,
            amount: placement.config().room(server) - placement.load(server),
        });
    }
}

/// Puts in the spare replicas of all shards.
pub(crate) fn put_spares(pool: &mut Pool, placement: &Placement)
    requires settled { IsSettled (sizes_of placement.now.setup) (place_of placement.now) }
    requires size { HasSize (sizes_of placement.now.setup) pool.old }
    requires none { (s : ℕ) → (pool_hold pool.old).spare s ≡ 0 }
    ensures hold { pool_hold pool.new ≡ record
        (pool_hold pool.old) {
          spare = (true_rights (sizes_of placement.now.setup)
              (place_of placement.now)).spare;
        } }
    ensures size { SameSize pool.old pool.new }
{
    for number in 0..placement.config().shard_count() {
        let shard = ShardId::new(number);
        let live = u64::from(placement.live(shard));
        let floor = u64::from(placement.config().floor(shard));
        pool.put_spare(Spare {
            shard,
            amount: live - floor,
        });
    }
}
