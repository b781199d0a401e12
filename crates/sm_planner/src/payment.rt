//! Payment for the room that moves take.
ghost use Rattle.std.specs.Prelude.{◌≡◌, ◌≤◌, ◌<◌, ◌==◌, All, IfOk, OnOk, length, map, ◌++◌};
ghost use Rattle.std.specs.List.{flat_map, range_with_len};
ghost use Rattle.sm_placement.specs.Setup.{IsSetup};
ghost use Rattle.sm_planner.specs.Basis.{basis_of, IsMoveOf};
ghost use Rattle.sm_planner.specs.Payment.{overlap};
ghost use Rattle.sm_planner.specs.Stretches.{stretch, paid_from, is_paid_by, handed_to, IsFreedBehindPool};

use crate::marks::Amounts;
use sm_placement::Placement;
use sm_plan_code::{MOST_STREAMS, Move};
use sm_reservation::Pool;
use std::alloc::{AllocError, Global};

/// A placed move, with the stretches of room that it takes and frees.
#[derive(Clone, Copy, Debug, PartialEq, Eq)]
pub(crate) struct Placed {
    pub(crate) wanted: Move,
    load: u64,
    /// The pool's room of the server to which it goes.
    pool: u64,
    /// The number at which the stretches begin.
    takes_from: u128,
    frees_from: u128,
}

/// Room that one placed move hands on to another by a signal.
#[derive(Clone, Copy, Debug, PartialEq, Eq)]
pub(crate) struct HandedRoom {
    /// The place in the order of the move that pays with it.
    pub(crate) payer: usize,
    /// The place of the move that freed it.
    pub(crate) source: usize,
}

/// Returns how much of a stretch of `n` from `a` on lies in a stretch of `m` from `b` on.
fn overlap(a: u128, n: u64, b: u128, m: u64) -> u64
    ensures value { result ≡ overlap a n b m }
    ensures within { result ≤ n }
{
    let n = u128::from(n);
    let m = u128::from(m);
    if a <= b {
        n.saturating_sub(b - a).min(m) as u64
    } else {
        m.saturating_sub(a - b).min(n) as u64
    }
}

impl Placed {
    /// Returns the room of the pool that the move pays with.
    pub(crate) fn from_pool(&self) -> u64
        ensures value { result ≡ overlap self.now.takes_from self.now.load 0 self.now.pool }
        ensures within { result ≤ self.now.load }
    {
        overlap(self.takes_from, self.load, 0, self.pool)
    }

    /// Tells whether the move pays with room of the pool alone.
    fn is_paid_by_pool(&self) -> bool
        ensures { result ≡ (overlap self.now.takes_from self.now.load 0 self.now.pool == self.now.load) }
    {
        self.from_pool() == self.load
    }

    /// Returns the room, freed by an earlier one, that it pays with.
    pub(crate) fn from_move(&self, source: &Placed) -> u64
        ensures { result ≡ paid_from self.now source.now }
    {
        if source.wanted.from != self.wanted.to {
            return 0;
        }
        overlap(self.takes_from, self.load, source.frees_from, source.load)
    }
}

/// Returns the stretches of moves in the order in which they are placed.
pub(crate) fn stretches(
    alloc: Global,
    placement: &Placement,
    pool: &Pool,
    order: &[Move],
) -> Result<Vec<Placed>, AllocError>
    requires { All (IsMoveOf placement.now.setup) order.now }
    ensures setup { OnOk result (IsSetup placement.now.setup) }
    ensures placed { IfOk result (λ placed. placed.items
        ≡ map (stretch (basis_of placement.now pool.now) order.now) (range_with_len 0 (length order.now))) }
{
    let config = placement.config();
    let mut taken = Amounts::none(alloc, config)?;
    let mut freed = Amounts::of_pool(alloc, config, pool)?;
    let mut stretches = Vec::with_capacity(alloc, order.len())?;
    for wanted in order {
        let load = config.load(wanted.shard);
        stretches.push(Placed {
            wanted: *wanted,
            load,
            pool: pool.room(wanted.to),
            takes_from: taken.at(wanted.to),
            frees_from: freed.at(wanted.from),
        })?;
        taken.put(wanted.to, u128::from(load));
        freed.put(wanted.from, u128::from(load));
    }
    Ok(stretches)
}

/// Tells whether the k-th placed move pays with room of the j-th, which is of another stream.
fn is_paid_by(order: &[Placed], k: usize, j: usize) -> bool
    requires payer { k < length order.now }
    requires source { j < length order.now }
    ensures { result ≡ is_paid_by order.now k j }
{
    order[k].from_move(&order[j]) > 0 && k % MOST_STREAMS != j % MOST_STREAMS
}

/// Puts the room that is handed on to a placed move behind the signals so far.
fn put_handed(order: &[Placed], k: usize, signals: &mut Vec<HandedRoom>) -> Result<(), AllocError>
    requires place { k < length order.now }
    requires behind { IsFreedBehindPool order.now }
    ensures { OnOk result (signals.new.items ≡ signals.old.items ++ handed_to order.now k) }
{
    if order[k].is_paid_by_pool() {
        return Ok(());
    }
    for j in 0..k {
        if is_paid_by(order, k, j) {
            signals.push(HandedRoom {
                payer: k,
                source: j,
            })?;
        }
    }
    Ok(())
}

/// Returns the signals in their order.
pub(crate) fn signals(alloc: Global, order: &[Placed]) -> Result<Vec<HandedRoom>, AllocError>
    requires { IsFreedBehindPool order.now }
    ensures { IfOk result (λ signals. signals.items
        ≡ flat_map (handed_to order.now) (range_with_len 0 (length order.now))) }
{
    let mut signals = Vec::new(alloc);
    for k in 0..order.len() {
        put_handed(order, k, &mut signals)?;
    }
    Ok(signals)
}
