//! Declared rights that are not free.
ghost use Rattle.std.specs.Prelude.{◌≡◌, ℕ, IfSome, IfNone};
ghost use Rattle.sm_reservation.specs.declared.right.Key.{Key};
ghost use Rattle.sm_reservation.specs.Pool.{pool_hold};
ghost use Rattle.sm_verifier.specs.Finding.{is_free_cell, is_free_crown, first_cell, first_crown, IsFree};
ghost use Rattle.sm_verifier.specs.Admission.{IsFreeAt, AreFree, IsLowestKey, IsFirst};

use crate::declared::{is_cell_declared, is_crown_declared};
use sm_plan_code::Stream;
use sm_reservation::{CellRight, Crown, Key, Parcel, Pool};

/// Tells whether the pool has the cell right, and no earlier stream declares its key.
fn is_free_cell(pool: &Pool, earlier: &[Stream], right: &CellRight) -> bool
    ensures { result ≡ is_free_cell (pool_hold pool.now) earlier.now right.now }
{
    pool.cell_right(right.shard, right.server) == Some(right.state)
        && !is_cell_declared(earlier, right.shard, right.server)
}

/// Tells whether the pool has the crown, and no earlier stream declares it.
fn is_free_crown(pool: &Pool, earlier: &[Stream], crown: &Crown) -> bool
    ensures { result ≡ is_free_crown (pool_hold pool.now) earlier.now crown.now }
{
    pool.crown(crown.shard) == Some((crown.lead, crown.listed))
        && !is_crown_declared(earlier, crown.shard)
}

/// Returns the first right to a cell that is not free.
fn taken_cell(pool: &Pool, earlier: &[Stream], cells: &[CellRight]) -> Option<Key>
    ensures { result ≡ first_cell (is_free_cell (pool_hold pool.now) earlier.now) cells.now }
{
    for right in cells {
        if !is_free_cell(pool, earlier, right) {
            return Some(Key::CellRight {
                shard: right.shard,
                server: right.server,
            });
        }
    }
    None
}

/// Returns the first crown that is not free.
fn taken_crown(pool: &Pool, earlier: &[Stream], crowns: &[Crown]) -> Option<Key>
    ensures { result ≡ first_crown (is_free_crown (pool_hold pool.now) earlier.now) crowns.now }
{
    for crown in crowns {
        if !is_free_crown(pool, earlier, crown) {
            return Some(Key::Crown { shard: crown.shard });
        }
    }
    None
}

/// Returns the lowest key of a parcel that is not free.
fn taken_key(pool: &Pool, earlier: &[Stream], parcel: &Parcel) -> Option<Key>
    ensures lowest { IfSome result (IsLowestKey (IsFree (pool_hold pool.now) earlier.now parcel.now)) }
    ensures none { IfNone result ((key : Key) → IsFree (pool_hold pool.now) earlier.now parcel.now key) }
{
    if let Some(key) = taken_cell(pool, earlier, parcel.cells()) {
        return Some(key);
    }
    taken_crown(pool, earlier, parcel.crowns())
}

/// Returns the lowest key that is not free, in the first stream that declares such a key.
pub(crate) fn first_taken(pool: &Pool, streams: &[Stream]) -> Option<Key>
    ensures first { IfSome result (λ key. (i : ℕ) × IsFirst (IsFreeAt (pool_hold pool.now) streams.now) i key) }
    ensures none { IfNone result (AreFree (pool_hold pool.now) streams.now) }
{
    for (number, stream) in streams.iter().enumerate() {
        if let Some(key) = taken_key(pool, &streams[..number], &stream.holds) {
            return Some(key);
        }
    }
    None
}
