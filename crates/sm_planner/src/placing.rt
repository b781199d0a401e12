//! The order in which moves are placed.
ghost use Rattle.std.specs.Prelude.{◌≡◌, ◌<◌, ◌≤◌, ◌+◌, ◌^◌, ◌&&◌, ℕ, true, nat_le, All, IfOk, OnOk, IfSome, length};
ghost use Rattle.std.specs.Prelude.{◌++◌, ◌∷◌, [], false, slice_index, slice_index_or, slice_set};
ghost use Rattle.sm_placement.specs.Opening.{first_below};
ghost use Rattle.sm_planner.specs.Basis.{basis_of, IsMoveOf, move_at, move_load};
ghost use Rattle.sm_planner.specs.Placing.{IsPlacing, first_left};
ghost use Rattle.sm_planner.specs.Accounts.{is_next, is_left, room_after, awaited_with, ArePassedOver, IsStart};
ghost use Rattle.sm_planner.specs.Refusal.{in_placed_order};
ghost use Rattle.sm_placement.specs.declared.limits.TheConstants.{MOST_LOAD};

use crate::marks::{Amounts, is_marked, mark};
use sm_placement::{Config, Placement};
use sm_plan_code::Move;
use sm_reservation::Pool;
use sm_server::ServerId;
use std::alloc::{AllocError, Global};
use std::marker::Model;

/// For each server, whether a move waits for room there.
#[derive(Drop)]
struct Awaited {
    by_server: Vec<bool>,
}

impl Model for Awaited {
    ghost use Rattle.std.specs.Prelude.{Bool, List};

    ghost Value = { List Bool };

    ghost view = { λ a. a.by_server.items };
}

impl Awaited {
    /// Makes a list on which no move waits.
    fn none(alloc: Global, config: &Config) -> Result<Awaited, AllocError>
        ensures { IfOk result (λ awaited. length awaited ≡ length config.now.servers) }
    {
        let by_server = vec![in alloc; false; config.server_count() as usize]?;
        Ok(Awaited { by_server })
    }

    /// Tells whether a move waits for room at the server.
    fn at(&self, server: ServerId) -> bool
        ensures { result ≡ slice_index_or self.now server false }
    {
        is_marked(&self.by_server, server.number() as usize)
    }

    /// Enters whether a move waits for room at the server.
    fn set(&mut self, server: ServerId, waits: bool)
        ensures { self.new ≡ slice_set self.old server waits }
    {
        mark(&mut self.by_server, server.number() as usize, waits);
    }
}

/// Moves that are placed one after another.
pub(crate) struct Placing {
    /// The places in the list of the moves that are placed, the first placed first.
    pub(crate) placed: Vec<usize>,
    /// For each move of the list, whether it is placed.
    pub(crate) marks: Vec<bool>,
    /// The room of each server that is left.
    room: Amounts,
}

/// Drops everything in one call, instead of one call for each list.
impl Drop for Placing {
    fn drop(self) {
        let Placing {
            placed,
            marks,
            room,
        } = self;
        drop(placed);
        drop(marks);
        drop(room);
    }
}

impl Placing {
    /// Tells whether the move at a place of the list is not placed, and its load fits.
    fn is_next(&self, config: &Config, i: usize, wanted: &Move) -> bool
        requires { IsMoveOf config.now wanted.now }
        ensures { result ≡ (is_left self.now.marks.items i && nat_le (move_load config.now wanted.now)
            (slice_index self.now.room wanted.now.to)) }
    {
        if is_marked(&self.marks, i) {
            return false;
        }
        u128::from(config.load(wanted.shard)) <= self.room.at(wanted.to)
    }

    /// Passes over a move that is not next: if it is not placed, it waits for room at its server.
    fn pass_over(&self, i: usize, to: ServerId, awaited: &mut Awaited)
        ensures { awaited.new ≡ awaited_with self.now.marks.items i to awaited.old }
    {
        if !is_marked(&self.marks, i) {
            awaited.set(to, true);
        }
    }

    /// Returns the first move that is not placed and whose load fits. Those before a place of the list are known to be
    /// passed over.
    fn first_fit(
        &self,
        config: &Config,
        moves: &[Move],
        start: usize,
        awaited: &mut Awaited,
    ) -> Option<usize>
        requires known { All (IsMoveOf config.now) moves.now }
        requires wide { length awaited.old ≡ length config.now.servers }
        requires within { start ≤ length moves.now }
        requires before { ArePassedOver config.now moves.now self.now.marks.items self.now.room awaited.old start }
        ensures first { result ≡ first_below (length moves.now)
            (is_next config.now moves.now self.now.marks.items self.now.room) }
        ensures wide { length awaited.new ≡ length awaited.old }
        ensures within { IfSome result (λ i. i < length moves.now) }
        ensures before { IfSome result (ArePassedOver config.now moves.now self.now.marks.items self.now.room
            awaited.new) }
    {
        for i in start..moves.len() {
            let wanted = &moves[i];
            if self.is_next(config, i, wanted) {
                return Some(i);
            }
            self.pass_over(i, wanted.to, awaited);
        }
        None
    }

    /// Places a move: it takes room at its target, and then frees room at its source.
    fn place(&mut self, config: &Config, i: usize, moves: &[Move]) -> Result<(), AllocError>
        requires known { All (IsMoveOf config.now) moves.now }
        requires within { i < length moves.now }
        requires fits { (v : ℕ) → slice_index self.old.room v + MOST_LOAD < 2 ^ 128 }
        ensures placed { OnOk result (self.new.placed.items ≡ self.old.placed.items ++ i ∷ []) }
        ensures marks { self.new.marks.items ≡ slice_set self.old.marks.items i true }
        ensures room { self.new.room ≡ room_after config.now (move_at moves.now i) self.old.room }
        ensures load { move_load config.now (move_at moves.now i) ≤ MOST_LOAD }
    {
        let Move { shard, from, to } = moves[i];
        let load = u128::from(config.load(shard));
        self.room.take(to, load);
        self.room.put(from, load);
        mark(&mut self.marks, i, true);
        Ok(self.placed.push(i)?)
    }

    /// Returns the first move that is not placed.
    pub(crate) fn first_left(&self, moves: &[Move]) -> Option<usize>
        ensures first { result ≡ first_below (length moves.now) (is_left self.now.marks.items) }
        ensures within { IfSome result (λ i. i < length moves.now) }
    {
        for i in 0..moves.len() {
            if !is_marked(&self.marks, i) {
                return Some(i);
            }
        }
        None
    }

    /// Returns the placed moves in their order.
    pub(crate) fn in_order(&self, alloc: Global, moves: &[Move]) -> Result<Vec<Move>, AllocError>
        requires { All (λ i. i < length moves.now) self.now.placed.items }
        ensures { IfOk result (λ order. order.items ≡ in_placed_order moves.now self.now.placed.items) }
    {
        let mut order = Vec::with_capacity(alloc, self.placed.len())?;
        for i in self.placed.iter() {
            order.push(moves[*i])?;
        }
        Ok(order)
    }
}

/// Returns where to look for the next move once one is placed: behind it, or from the front if a move was passed over
/// that waits for the room that it freed.
fn start_after(i: usize, from: ServerId, awaited: &mut Awaited) -> usize
    requires { i + 1 < 2 ^ 64 }
    ensures wide { length awaited.new ≡ length awaited.old }
    ensures start { IsStart i from awaited.old awaited.new result }
{
    if awaited.at(from) {
        awaited.set(from, false);
        return 0;
    }
    i + 1
}

/// Places moves as long as one fits.
pub(crate) fn place_all(
    alloc: Global,
    placement: &Placement,
    pool: &Pool,
    moves: &[Move],
) -> Result<Placing, AllocError>
    requires { All (IsMoveOf placement.now.setup) moves.now }
    ensures placing { IfOk result (λ placing. IsPlacing
        (basis_of placement.now pool.now) moves.now placing.placed.items) }
    ensures left { IfOk result (λ placing. first_below (length moves.now) (is_left placing.marks.items)
        ≡ first_left moves.now placing.placed.items) }
    ensures few { IfOk result (λ placing. length placing.placed.items ≤ length moves.now) }
    ensures known { IfOk result (λ placing. All (λ i. i < length moves.now) placing.placed.items) }
{
    let config = placement.config();
    let mut placing = Placing {
        placed: Vec::new(alloc),
        marks: vec![in alloc; false; moves.len()]?,
        room: Amounts::of_pool(alloc, config, pool)?,
    };
    let mut awaited = Awaited::none(alloc, config)?;
    let mut start = 0;
    while let Some(i) = placing.first_fit(config, moves, start, &mut awaited) {
        placing.place(config, i, moves)?;
        start = start_after(i, moves[i].from, &mut awaited);
    }
    Ok(placing)
}
