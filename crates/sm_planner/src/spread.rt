//! In how many regions replicas lie.
ghost use Rattle.std.specs.Prelude.{◌≡◌, ◌<◌, ◌&&◌, ◌||◌, ◌==◌, ℕ, not, false, All, length, IfOk, slice_index_or};
ghost use Rattle.std.specs.List.{list_any};
ghost use Rattle.sm_placement.specs.Opening.{first_below};
ghost use Rattle.sm_placement.specs.Layout.{place_of};
ghost use Rattle.sm_planner.specs.Basis.{IsMoveOf, is_replica};
ghost use Rattle.sm_planner.specs.Spread.{has_after, is_too_close};
ghost use Rattle.sm_planner.specs.Regions.{AreRegions};

use crate::held::is_replica;
use crate::marks::mark;
use crate::region_numbers::{occupied_by, regions_of};
use sm_placement::Placement;
use sm_plan_code::Move;
use sm_server::{ServerId, ShardId};
use std::alloc::{AllocError, Global};

/// Marks the servers that have a replica of a shard.
pub(crate) fn mark_replicas(placement: &Placement, shard: ShardId, has: &mut [bool])
    requires shard { shard < length placement.now.setup.shards }
    requires wide { length has.old ≡ length placement.now.setup.servers }
    ensures { (v : ℕ) → v < length placement.now.setup.servers
        → slice_index_or has.new v false ≡ is_replica ((place_of placement.now).cells shard v) }
{
    for number in 0..placement.config().server_count() {
        let stands = is_replica(placement, shard, ServerId::new(number));
        mark(has, number as usize, stands);
    }
}

/// Takes the marks of the servers away that a shard leaves.
fn unmark_left(moves: &[Move], shard: ShardId, has: &mut [bool])
    requires { All (λ m. m.from < length has.old) moves.now }
    ensures { (v : ℕ) → slice_index_or has.new v false
        ≡ (slice_index_or has.old v false && not (list_any (λ m. (m.shard == shard) && (m.from == v)) moves.now)) }
{
    for wanted in moves {
        if wanted.shard == shard {
            mark(has, wanted.from.number() as usize, false);
        }
    }
}

/// Marks the servers to which a shard goes.
fn mark_gained(moves: &[Move], shard: ShardId, has: &mut [bool])
    requires { All (λ m. m.to < length has.old) moves.now }
    ensures { (v : ℕ) → slice_index_or has.new v false
        ≡ (list_any (λ m. (m.shard == shard) && (m.to == v)) moves.now || slice_index_or has.old v false) }
{
    for wanted in moves {
        if wanted.shard == shard {
            mark(has, wanted.to.number() as usize, true);
        }
    }
}

/// Marks the servers that have a replica of a shard once all moves are made.
fn mark_after(placement: &Placement, moves: &[Move], shard: ShardId, has: &mut [bool])
    requires shard { shard < length placement.now.setup.shards }
    requires known { All (IsMoveOf placement.now.setup) moves.now }
    requires wide { length has.old ≡ length placement.now.setup.servers }
    ensures { (v : ℕ) → v < length placement.now.setup.servers
        → slice_index_or has.new v false ≡ has_after (place_of placement.now) moves.now shard v }
{
    mark_replicas(placement, shard, has);
    unmark_left(moves, shard, has);
    mark_gained(moves, shard, has);
}

/// Tells whether the shard is moved.
fn is_moved(moves: &[Move], shard: ShardId) -> bool
    ensures { result ≡ list_any (λ m. m.shard == shard) moves.now }
{
    for wanted in moves {
        if wanted.shard == shard {
            return true;
        }
    }
    false
}

/// Returns the servers that have a replica of a shard once all moves are made.
fn holders_after(
    alloc: Global,
    placement: &Placement,
    moves: &[Move],
    shard: ShardId,
) -> Result<Vec<bool>, AllocError>
    requires shard { shard < length placement.now.setup.shards }
    requires known { All (IsMoveOf placement.now.setup) moves.now }
    ensures { IfOk result (λ has. (v : ℕ) → v < length placement.now.setup.servers
        → slice_index_or has.items v false ≡ has_after (place_of placement.now) moves.now shard v) }
{
    let mut has = vec![in alloc; false; placement.config().server_count() as usize]?;
    mark_after(placement, moves, shard, &mut has);
    Ok(has)
}

/// Tells whether the shard is moved, and its replicas then lie in fewer regions than its spread.
fn is_too_close(
    alloc: Global,
    placement: &Placement,
    regions: &[u32],
    moves: &[Move],
    shard: ShardId,
) -> Result<bool, AllocError>
    requires shard { shard < length placement.now.setup.shards }
    requires regions { AreRegions placement.now.setup regions.now }
    requires known { All (IsMoveOf placement.now.setup) moves.now }
    ensures { IfOk result (λ close. close ≡ is_too_close placement.now.setup (place_of placement.now) moves.now shard) }
{
    let config = placement.config();
    // (a shard that is moved lies in one region at least)
    if config.shard(shard).spread <= 1 || !is_moved(moves, shard) {
        return Ok(false);
    }
    let has = holders_after(alloc, placement, moves, shard)?;
    let held = occupied_by(alloc, config, regions, &has)?;
    Ok(held.count < config.shard(shard).spread)
}

/// Returns the lowest shard that is moved and whose replicas then lie in fewer regions than its spread.
pub(crate) fn first_too_close(
    alloc: Global,
    placement: &Placement,
    moves: &[Move],
) -> Result<Option<ShardId>, AllocError>
    requires { All (IsMoveOf placement.now.setup) moves.now }
    ensures { IfOk result (λ shard. shard ≡ first_below (length placement.now.setup.shards)
        (is_too_close placement.now.setup (place_of placement.now) moves.now)) }
{
    let config = placement.config();
    let regions = regions_of(alloc, config)?;
    for number in 0..config.shard_count() {
        let shard = ShardId::new(number);
        if is_too_close(alloc, placement, &regions, moves, shard)? {
            return Ok(Some(shard));
        }
    }
    Ok(None)
}
