//! To which servers the replicas of a server go that is to be emptied.
ghost use Rattle.std.specs.Prelude.{◌≡◌, ◌<◌, ◌+◌, ◌&&◌, ◌||◌, ◌==◌, ℕ, not, nat_le, nat_lt, true, None, All};
ghost use Rattle.std.specs.Prelude.{MatchOption, IfOk, IfErr, OnOk, length, slice_index};
ghost use Rattle.std.specs.Bool.{MatchBool};
ghost use Rattle.sm_server.specs.Cell.{is_absent};
ghost use Rattle.sm_placement.specs.Layout.{place_of};
ghost use Rattle.sm_placement.specs.Setup.{IsSetup};
ghost use Rattle.sm_reservation.specs.Amounts.{is_cell};
ghost use Rattle.sm_reservation.specs.Pool.{pool_hold};
ghost use Rattle.sm_planner.specs.Basis.{basis_of, is_replica, move_load, IsMoveOf};
ghost use Rattle.sm_planner.specs.Spread.{region_count, spread_of};
ghost use Rattle.sm_planner.specs.Regions.{AreRegions, AreStayingRegions};
ghost use Rattle.sm_planner.specs.Drain.{may_leave, first_stuck, drain_refusal, has_place, IsBestOf, AreStaying};
ghost use Rattle.sm_planner.specs.Drain.{IsRoomBeside, AreLeaving, IsStuck, AreDepartures, IsNoDrainFor};

use crate::held::{has_absent, has_crown, has_secondary, is_absent, is_primary, is_secondary};
use crate::marks::{Amounts, mark};
use crate::refusal::NoPlan;
use crate::region_numbers::{Occupied, occupied_by, regions_of};
use crate::spread::mark_replicas;
use sm_placement::Placement;
use sm_plan_code::Move;
use sm_reservation::{PlainCell, Pool};
use sm_server::{ServerId, ShardId};
use std::alloc::{AllocError, Global};

/// Tells whether the server has nothing of the shard, or a replica that may leave it.
fn may_leave(placement: &Placement, pool: &Pool, server: ServerId, shard: ShardId) -> bool
    requires shard { shard < length placement.now.setup.shards }
    requires server { server < length placement.now.setup.servers }
    ensures { result ≡ may_leave (basis_of placement.now pool.now) server shard }
{
    is_absent(placement, shard, server)
        || ((is_primary(placement, shard, server) && has_crown(placement, pool, shard, server))
            || (is_secondary(placement, shard, server) && has_secondary(pool, shard, server)))
}

/// Returns the lowest shard that may not leave the server.
#[tactic(auto, using(sm_placement::proofs::Searches::find_range_more))]
fn first_stuck(placement: &Placement, pool: &Pool, server: ServerId) -> Option<ShardId>
    requires { server < length placement.now.setup.servers }
    ensures { result ≡ first_stuck (basis_of placement.now pool.now) server }
{
    for number in 0..placement.config().shard_count() {
        let shard = ShardId::new(number);
        if !may_leave(placement, pool, server, shard) {
            return Some(shard);
        }
    }
    None
}

/// Returns the servers whose replica of a shard stays.
fn staying(
    alloc: Global,
    placement: &Placement,
    shard: ShardId,
    from: ServerId,
) -> Result<Vec<bool>, AllocError>
    requires shard { shard < length placement.now.setup.shards }
    requires from { from < length placement.now.setup.servers }
    ensures { IfOk result (λ has. AreStaying placement.now.setup (place_of placement.now) shard from has.items) }
{
    let mut has = vec![in alloc; false; placement.config().server_count() as usize]?;
    mark_replicas(placement, shard, &mut has);
    mark(&mut has, from.number() as usize, false);
    Ok(has)
}

/// Returns the regions in which the replicas of a shard lie that stay, if the shard is to lie in more than one region.
fn staying_regions(
    alloc: Global,
    placement: &Placement,
    regions: &[u32],
    shard: ShardId,
    from: ServerId,
) -> Result<Occupied, AllocError>
    requires regions { AreRegions placement.now.setup regions.now }
    requires shard { shard < length placement.now.setup.shards }
    requires from { from < length placement.now.setup.servers }
    ensures { IfOk result (λ kept. AreStayingRegions placement.now.setup
        (place_of placement.now) regions.now shard from kept.marks.items kept.count) }
{
    let config = placement.config();
    if config.shard(shard).spread <= 1 {
        return Ok(Occupied {
            marks: Vec::new(alloc),
            count: 0,
        });
    }
    let has = staying(alloc, placement, shard, from)?;
    let kept = occupied_by(alloc, config, regions, &has)?;
    Ok(kept)
}

/// Tells whether the shard's replicas lie in enough regions, with one at the target beside those that stay.
fn is_spread(placement: &Placement, regions: &[u32], staying: &Occupied, leaving: &Move) -> bool
    requires leaving { IsMoveOf placement.now.setup leaving.now }
    requires regions { AreRegions placement.now.setup regions.now }
    requires staying { AreStayingRegions placement.now.setup
        (place_of placement.now) regions.now leaving.now.shard leaving.now.from staying.now.marks.items
        staying.now.count }
    ensures { result ≡ nat_le (spread_of placement.now.setup leaving.now.shard)
        (region_count placement.now.setup (λ w. (w == leaving.now.to) ||
        (is_replica ((place_of placement.now).cells leaving.now.shard w) && not (w == leaving.now.from)))) }
{
    let config = placement.config();
    let spread = config.shard(leaving.shard).spread;
    // (the target lies in one region)
    if spread <= 1 {
        return true;
    }
    let region = regions[leaving.to.number() as usize] as usize;
    spread <= staying.count_with(region)
}

/// Tells whether the server is another one, up, with nothing of the shard and the right to its cell in the pool, and
/// has room for it.
fn is_open(placement: &Placement, pool: &Pool, room: &Amounts, leaving: &Move) -> bool
    requires { IsMoveOf placement.now.setup leaving.now }
    ensures { result ≡ (not (leaving.now.to == leaving.now.from) &&
        (not ((place_of placement.now).down leaving.now.to) &&
        (is_absent ((place_of placement.now).cells leaving.now.shard leaving.now.to) &&
        (is_cell PlainCell.Absent ((pool_hold pool.now).cells leaving.now.shard leaving.now.to) && nat_le
        (move_load placement.now.setup leaving.now) (slice_index room.now leaving.now.to))))) }
{
    let Move { shard, from, to } = *leaving;
    to != from
        && !placement.is_down(to)
        && is_absent(placement, shard, to)
        && has_absent(pool, shard, to)
        && u128::from(placement.config().load(shard)) <= room.at(to)
}

/// Tells whether the server may take the shard.
fn may_take(
    placement: &Placement,
    pool: &Pool,
    room: &Amounts,
    regions: &[u32],
    staying: &Occupied,
    leaving: &Move,
) -> bool
    requires leaving { IsMoveOf placement.now.setup leaving.now }
    requires regions { AreRegions placement.now.setup regions.now }
    requires staying { AreStayingRegions placement.now.setup
        (place_of placement.now) regions.now leaving.now.shard leaving.now.from staying.now.marks.items
        staying.now.count }
    ensures { result ≡ has_place (basis_of placement.now pool.now) leaving.now.from
        (slice_index room.now) leaving.now.shard leaving.now.to }
{
    is_open(placement, pool, room, leaving) && is_spread(placement, regions, staying, leaving)
}

/// Tells whether there is no target yet, or the server has more room left than it.
fn is_better(room: &Amounts, best: &Option<ServerId>, to: ServerId) -> bool
    ensures { MatchOption best.now (result ≡ true)
        (λ u. result ≡ nat_lt (slice_index room.now u) (slice_index room.now to)) }
{
    match best {
        Some(best) => room.at(*best) < room.at(to),
        None => true,
    }
}

/// Returns the target of the servers up to this one, if that of the lower ones is known.
#[tactic(auto, using(crate::proofs::Departing::most_here, crate::proofs::Departing::most_next, crate::proofs::Departing::most_stays))]
fn target_with(
    placement: &Placement,
    pool: &Pool,
    room: &Amounts,
    regions: &[u32],
    staying: &Occupied,
    leaving: &Move,
    best: Option<ServerId>,
) -> Option<ServerId>
    requires leaving { IsMoveOf placement.now.setup leaving.now }
    requires regions { AreRegions placement.now.setup regions.now }
    requires staying { AreStayingRegions placement.now.setup
        (place_of placement.now) regions.now leaving.now.shard leaving.now.from staying.now.marks.items
        staying.now.count }
    requires best { IsBestOf (has_place (basis_of placement.now pool.now) leaving.now.from
        (slice_index room.now) leaving.now.shard) (slice_index room.now) leaving.now.to best }
    ensures { IsBestOf (has_place (basis_of placement.now pool.now) leaving.now.from
        (slice_index room.now) leaving.now.shard) (slice_index room.now) (leaving.now.to + 1) result }
{
    let to = leaving.to;
    if is_better(room, &best, to) && may_take(placement, pool, room, regions, staying, leaving) {
        Some(to)
    } else {
        best
    }
}

/// Returns the server that takes the shard: the one with the most room left, of equals the lowest.
fn target(
    alloc: Global,
    placement: &Placement,
    pool: &Pool,
    room: &Amounts,
    regions: &[u32],
    shard: ShardId,
    from: ServerId,
) -> Result<Option<ServerId>, AllocError>
    requires regions { AreRegions placement.now.setup regions.now }
    requires shard { shard < length placement.now.setup.shards }
    requires from { from < length placement.now.setup.servers }
    ensures { IfOk result (IsBestOf (has_place (basis_of placement.now pool.now) from (slice_index room.now) shard)
        (slice_index room.now) (length placement.now.setup.servers)) }
{
    let staying = staying_regions(alloc, placement, regions, shard, from)?;
    let mut best = None;
    for number in 0..placement.config().server_count() {
        let to = ServerId::new(number);
        let leaving = Move { shard, from, to };
        best = target_with(placement, pool, room, regions, &staying, &leaving, best);
    }
    Ok(best)
}

/// Puts the move of a shard behind those of the lower ones, if the server has a replica of it, and takes the room of
/// its target. Returns false if it has none.
fn put_departure(
    alloc: Global,
    placement: &Placement,
    pool: &Pool,
    regions: &[u32],
    leaving: (ShardId, ServerId),
    room: &mut Amounts,
    moves: &mut Vec<Move>,
) -> Result<bool, AllocError>
    requires regions { AreRegions placement.now.setup regions.now }
    requires shard { leaving.0 < length placement.now.setup.shards }
    requires server { leaving.1 < length placement.now.setup.servers }
    requires known { All (IsMoveOf placement.now.setup) moves.old.items }
    requires before { AreLeaving (basis_of placement.now pool.now) leaving.1 leaving.0 moves.old.items }
    requires room { IsRoomBeside (basis_of placement.now pool.now) moves.old.items room.old }
    ensures known { OnOk result (All (IsMoveOf placement.now.setup) moves.new.items) }
    ensures room { OnOk result (IsRoomBeside (basis_of placement.now pool.now) moves.new.items room.new) }
    ensures left { IfOk result (λ goes. MatchBool goes
        (AreLeaving (basis_of placement.now pool.now) leaving.1 (leaving.0 + 1) moves.new.items)
        (IsStuck (basis_of placement.now pool.now) leaving.1 leaving.0 moves.new.items)) }
{
    let (shard, from) = leaving;
    if is_absent(placement, shard, from) {
        return Ok(true);
    }
    match target(alloc, placement, pool, room, regions, shard, from)? {
        Some(to) => {
            moves.push(Move { shard, from, to })?;
            room.take(to, u128::from(placement.config().load(shard)));
            Ok(true)
        }
        None => Ok(false),
    }
}

/// The moves that empty a server, by shard, as far as there is a target for each, and the first shard without one.
#[derive(Drop)]
pub(crate) struct Departures {
    pub(crate) moves: Vec<Move>,
    pub(crate) stuck: Option<ShardId>,
}

/// Returns the moves that empty a server, by shard.
fn targets_of(
    alloc: Global,
    placement: &Placement,
    pool: &Pool,
    server: ServerId,
) -> Result<Departures, AllocError>
    requires { server < length placement.now.setup.servers }
    ensures setup { OnOk result (IsSetup placement.now.setup) }
    ensures known { IfOk result (λ leaving. All (IsMoveOf placement.now.setup) leaving.moves.items) }
    ensures leaving { IfOk result (λ leaving. MatchOption leaving.stuck
        (AreLeaving (basis_of placement.now pool.now) server
        (length placement.now.setup.shards) leaving.moves.items)
        (λ s. IsStuck (basis_of placement.now pool.now) server s leaving.moves.items)) }
{
    let config = placement.config();
    let regions = regions_of(alloc, config)?;
    let mut room = Amounts::of_pool(alloc, config, pool)?;
    let mut moves = Vec::with_capacity(alloc, config.shard_count() as usize)?;
    for number in 0..config.shard_count() {
        let shard = ShardId::new(number);
        let leaving = (shard, server);
        if !put_departure(
            alloc, placement, pool, &regions, leaving, &mut room, &mut moves,
        )? {
            let stuck = Some(shard);
            return Ok(Departures { moves, stuck });
        }
    }
    Ok(Departures { moves, stuck: None })
}

/// Returns the moves that empty a server, or why it is not emptied.
pub(crate) fn leaving(
    alloc: Global,
    placement: &Placement,
    pool: &Pool,
    server: ServerId,
) -> Result<Vec<Move>, NoPlan>
    requires { server < length placement.now.setup.servers }
    ensures setup { OnOk result (IsSetup placement.now.setup) }
    ensures known { IfOk result (λ moves. All (IsMoveOf placement.now.setup) moves.items) }
    ensures leaving { IfOk result (λ moves. AreDepartures (basis_of placement.now pool.now) server moves.items) }
    ensures refused { IfErr result (IsNoDrainFor (basis_of placement.now pool.now) server) }
    ensures early { IfErr result (λ why. why ≡ NoPlan.NoMemory
        → drain_refusal (basis_of placement.now pool.now) server ≡ None) }
{
    if let Some(shard) = first_stuck(placement, pool, server) {
        return Err(NoPlan::Held { shard, server });
    }
    if placement.is_down(server) {
        return Err(NoPlan::ServerDown { server });
    }
    let Departures { moves, stuck } = targets_of(alloc, placement, pool, server)?;
    match stuck {
        Some(shard) => Err(NoPlan::NoPlace { shard }),
        None => Ok(moves),
    }
}
