//! Moves that are refused one by one, before any room is looked at.
ghost use Rattle.std.specs.Prelude.{◌≡◌, ◌<◌, All, length};
ghost use Rattle.sm_server.specs.Cell.{is_absent, is_primary, is_secondary};
ghost use Rattle.sm_placement.specs.Layout.{place_of};
ghost use Rattle.sm_reservation.specs.Amounts.{is_cell};
ghost use Rattle.sm_reservation.specs.Pool.{pool_hold};
ghost use Rattle.sm_planner.specs.Basis.{basis_of, is_replica, IsMoveOf};
ghost use Rattle.sm_planner.specs.Rights.{has_crown_at, has_rights, needs_cell, shares_right, is_forestalled};
ghost use Rattle.sm_planner.specs.Refusal.{is_open, first_not_there, first_held, first_down, end_down, first_refused};

use crate::refusal::NoPlan;
use sm_placement::{Lead, Placement};
use sm_plan_code::Move;
use sm_reservation::{PlainCell, Pool};
use sm_server::{Cell, ServerId, ShardId};

/// Tells whether the server has a primary of the shard.
pub(crate) fn is_primary(placement: &Placement, shard: ShardId, server: ServerId) -> bool
    requires shard { shard < length placement.now.setup.shards }
    requires server { server < length placement.now.setup.servers }
    ensures { result ≡ is_primary ((place_of placement.now).cells shard server) }
{
    matches!(placement.cell(shard, server), Cell::Primary)
}

/// Tells whether the server has a secondary of the shard.
pub(crate) fn is_secondary(placement: &Placement, shard: ShardId, server: ServerId) -> bool
    requires shard { shard < length placement.now.setup.shards }
    requires server { server < length placement.now.setup.servers }
    ensures { result ≡ is_secondary ((place_of placement.now).cells shard server) }
{
    matches!(placement.cell(shard, server), Cell::Secondary)
}

/// Tells whether the server has a replica of the shard.
pub(crate) fn is_replica(placement: &Placement, shard: ShardId, server: ServerId) -> bool
    requires shard { shard < length placement.now.setup.shards }
    requires server { server < length placement.now.setup.servers }
    ensures { result ≡ is_replica ((place_of placement.now).cells shard server) }
{
    matches!(
        placement.cell(shard, server),
        Cell::Primary | Cell::Secondary
    )
}

/// Tells whether the server has nothing of the shard.
pub(crate) fn is_absent(placement: &Placement, shard: ShardId, server: ServerId) -> bool
    requires shard { shard < length placement.now.setup.shards }
    requires server { server < length placement.now.setup.servers }
    ensures { result ≡ is_absent ((place_of placement.now).cells shard server) }
{
    matches!(placement.cell(shard, server), Cell::Absent)
}

/// Tells whether the pool has the right to a cell that is absent.
pub(crate) fn has_absent(pool: &Pool, shard: ShardId, server: ServerId) -> bool
    ensures { result ≡ is_cell PlainCell.Absent ((pool_hold pool.now).cells shard server) }
{
    matches!(pool.cell_right(shard, server), Some(PlainCell::Absent))
}

/// Tells whether the pool has the right to the cell of a secondary.
pub(crate) fn has_secondary(pool: &Pool, shard: ShardId, server: ServerId) -> bool
    ensures { result ≡ is_cell PlainCell.Secondary ((pool_hold pool.now).cells shard server) }
{
    matches!(pool.cell_right(shard, server), Some(PlainCell::Secondary))
}

/// Tells whether the pool has the crown of a shard whose primary stands at the server.
pub(crate) fn has_crown(
    placement: &Placement,
    pool: &Pool,
    shard: ShardId,
    server: ServerId,
) -> bool
    requires { shard < length placement.now.setup.shards }
    ensures { result ≡ has_crown_at (basis_of placement.now pool.now) shard server }
{
    match pool.crown(shard) {
        Some((lead, listed)) => lead == Lead::At(server) && listed == placement.listed(shard),
        None => false,
    }
}

/// Tells whether the pool has the rights that a move needs.
fn has_rights(placement: &Placement, pool: &Pool, wanted: &Move) -> bool
    requires { IsMoveOf placement.now.setup wanted.now }
    ensures { result ≡ has_rights (basis_of placement.now pool.now) wanted.now }
{
    let Move { shard, from, to } = *wanted;
    has_absent(pool, shard, to)
        && (!is_secondary(placement, shard, from) || has_secondary(pool, shard, from))
        && (!is_primary(placement, shard, from) || has_crown(placement, pool, shard, from))
}

/// Tells whether a move needs the right to its shard's cell at a server.
fn needs_cell(placement: &Placement, other: &Move, server: ServerId) -> bool
    requires { IsMoveOf placement.now.setup other.now }
    ensures { result ≡ needs_cell (place_of placement.now) other.now server }
{
    other.to == server || (other.from == server && is_secondary(placement, other.shard, other.from))
}

/// Tells whether there is a right that both moves need.
fn shares_right(placement: &Placement, wanted: &Move, other: &Move) -> bool
    requires wanted { IsMoveOf placement.now.setup wanted.now }
    requires other { IsMoveOf placement.now.setup other.now }
    ensures { result ≡ shares_right (place_of placement.now) wanted.now other.now }
{
    let Move { shard, from, to } = *wanted;
    other.shard == shard
        && (needs_cell(placement, other, to)
            || (is_secondary(placement, shard, from) && needs_cell(placement, other, from))
            || (is_primary(placement, shard, from)
                && is_primary(placement, other.shard, other.from)))
}

/// Tells whether one of the earlier moves needs a right that a move needs.
fn is_forestalled(placement: &Placement, earlier: &[Move], wanted: &Move) -> bool
    requires wanted { IsMoveOf placement.now.setup wanted.now }
    requires earlier { All (IsMoveOf placement.now.setup) earlier.now }
    ensures { result ≡ is_forestalled (place_of placement.now) earlier.now wanted.now }
{
    for other in earlier {
        if shares_right(placement, wanted, other) {
            return true;
        }
    }
    false
}

/// Tells whether the new cell of a move is absent, and its rights are in the pool and needed by no earlier move.
fn is_open(placement: &Placement, pool: &Pool, earlier: &[Move], wanted: &Move) -> bool
    requires wanted { IsMoveOf placement.now.setup wanted.now }
    requires earlier { All (IsMoveOf placement.now.setup) earlier.now }
    ensures { result ≡ is_open (basis_of placement.now pool.now) earlier.now wanted.now }
{
    is_absent(placement, wanted.shard, wanted.to)
        && has_rights(placement, pool, wanted)
        && !is_forestalled(placement, earlier, wanted)
}

/// Returns the first move that leaves a server without a replica.
pub(crate) fn first_not_there(placement: &Placement, moves: &[Move]) -> Option<NoPlan>
    requires { All (IsMoveOf placement.now.setup) moves.now }
    ensures { result ≡ first_not_there (place_of placement.now) moves.now }
{
    for wanted in moves {
        if !is_replica(placement, wanted.shard, wanted.from) {
            return Some(NoPlan::NotThere {
                shard: wanted.shard,
                server: wanted.from,
            });
        }
    }
    None
}

/// Returns the first move whose rights are not free.
pub(crate) fn first_held(placement: &Placement, pool: &Pool, moves: &[Move]) -> Option<NoPlan>
    requires { All (IsMoveOf placement.now.setup) moves.now }
    ensures { result ≡ first_held (basis_of placement.now pool.now) moves.now }
{
    for (i, wanted) in moves.iter().enumerate() {
        if !is_open(placement, pool, &moves[..i], wanted) {
            return Some(NoPlan::Held {
                shard: wanted.shard,
                server: wanted.to,
            });
        }
    }
    None
}

/// Returns the first move with a server that is down.
pub(crate) fn first_down(placement: &Placement, moves: &[Move]) -> Option<NoPlan>
    requires { All (IsMoveOf placement.now.setup) moves.now }
    ensures { result ≡ first_down (place_of placement.now) moves.now }
{
    for wanted in moves {
        if placement.is_down(wanted.from) || placement.is_down(wanted.to) {
            return Some(NoPlan::ServerDown {
                server: down_of(placement, wanted),
            });
        }
    }
    None
}

/// Returns the server that a move leaves if it is down, and otherwise the one to which it goes.
fn down_of(placement: &Placement, wanted: &Move) -> ServerId
    requires { IsMoveOf placement.now.setup wanted.now }
    ensures { result ≡ end_down (place_of placement.now) wanted.now }
{
    if placement.is_down(wanted.from) {
        wanted.from
    } else {
        wanted.to
    }
}

/// Returns why moves are refused one by one: the first reason, and of that one the first move.
pub(crate) fn first_refused(placement: &Placement, pool: &Pool, moves: &[Move]) -> Option<NoPlan>
    requires { All (IsMoveOf placement.now.setup) moves.now }
    ensures { result ≡ first_refused (basis_of placement.now pool.now) moves.now }
{
    if let Some(why) = first_not_there(placement, moves) {
        return Some(why);
    }
    if let Some(why) = first_held(placement, pool, moves) {
        return Some(why);
    }
    first_down(placement, moves)
}
