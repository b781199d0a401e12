//! Rows put in order, and rows of one key found among them.
ghost use Rattle.std.specs.Prelude.{◌≡◌, ◌<◌, ◌^◌, filter, nat_lt, IfOk};
ghost use Rattle.std.specs.List.{AllByRecursion};
ghost use Rattle.std.specs.List.Sorted.{IsPermutation};
ghost use Rattle.sm_reservation.specs.Rows.{Climbs, first_twin};

use crate::rows::{Amount, Row, is_same};
use std::alloc::{AllocError, Global};

/// Copies the rows in the order of their keys.
pub fn sorted_rows<T: Row>(alloc: Global, rows: &[T]) -> Result<Vec<T>, AllocError>
    ensures permutation { IfOk result (λ sorted. IsPermutation rows.now sorted.items) }
    ensures climbs { IfOk result (λ sorted. Climbs T.key sorted.items) }
{
    let mut sorted = Vec::from_slice(alloc, rows)?;
    sorted.sort_by_key(|row| row.key())?;
    Ok(sorted)
}

/// Returns the first key that two neighbours share.
pub fn first_twin<T: Row>(rows: &[T]) -> Option<(u32, u32)>
    ensures { result ≡ first_twin T.key rows.now }
{
    for i in 1..rows.len() {
        let key = rows[i].key();
        if is_same(rows[i - 1].key(), key) {
            return Some(key);
        }
    }
    None
}

/// Drops the rows whose amount is 0.
pub fn drop_empty<T: Amount>(rows: &mut Vec<T>)
    ensures kept { rows.new.items ≡ filter (λ row. nat_lt 0 (T.amount row)) rows.old.items }
    ensures bounded { AllByRecursion (λ row. T.amount row < 2 ^ 64) rows.new.items }
{
    rows.retain(|row| row.amount() > 0);
}
