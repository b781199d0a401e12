//! Declared rights that are not true of the placement.
ghost use Rattle.std.specs.Prelude.{◌≡◌, ◌<◌, ℕ, All, IfSome, IfNone, length};
ghost use Rattle.sm_placement.specs.Setup.{sizes_of};
ghost use Rattle.sm_placement.specs.Layout.{place_of};
ghost use Rattle.sm_reservation.specs.declared.right.Key.{Key};
ghost use Rattle.sm_reservation.specs.HoldOf.{hold_of};
ghost use Rattle.sm_reservation.specs.Amounts.{is_cell, plain_of};
ghost use Rattle.sm_reservation.specs.Pool.{true_rights};
ghost use Rattle.sm_plan_code.specs.Plan.{IsKnownCellRight, IsKnownCrown, IsKnownParcel, IsKnownStream};
ghost use Rattle.sm_verifier.specs.Finding.{holds_cell, holds_crown, first_cell, first_crown};
ghost use Rattle.sm_verifier.specs.Admission.{IsIn, IsTrueAt, AreTrue, IsLowestKey, IsFirst};

use sm_placement::Placement;
use sm_plan_code::Stream;
use sm_reservation::{CellRight, Crown, Key, Parcel, PlainCell};
use sm_server::Cell;

/// Tells whether the cell is as a right to it says.
fn is_as(cell: &Cell, state: PlainCell) -> bool
    ensures { result ≡ is_cell state (plain_of cell.now) }
{
    matches!(
        (cell, state),
        (Cell::Absent, PlainCell::Absent) | (Cell::Secondary, PlainCell::Secondary)
    )
}

/// Tells whether the cell right is true of the placement.
fn is_true_cell(placement: &Placement, right: &CellRight) -> bool
    requires { IsKnownCellRight (length placement.now.setup.shards) (length placement.now.setup.servers) right.now }
    ensures { result ≡ holds_cell (true_rights (sizes_of placement.now.setup) (place_of placement.now)) right.now }
{
    is_as(&placement.cell(right.shard, right.server), right.state)
}

/// Tells whether the crown is true of the placement.
fn is_true_crown(placement: &Placement, crown: &Crown) -> bool
    requires { IsKnownCrown (length placement.now.setup.shards) (length placement.now.setup.servers) crown.now }
    ensures { result ≡ holds_crown (true_rights (sizes_of placement.now.setup) (place_of placement.now)) crown.now }
{
    placement.lead(crown.shard) == Some(crown.lead) && crown.listed == placement.listed(crown.shard)
}

/// Returns the first right to a cell that is not true of the placement.
fn untrue_cell(placement: &Placement, cells: &[CellRight]) -> Option<Key>
    requires { All (IsKnownCellRight (length placement.now.setup.shards) (length placement.now.setup.servers))
        cells.now }
    ensures { result ≡ first_cell (holds_cell (true_rights (sizes_of placement.now.setup) (place_of placement.now)))
        cells.now }
{
    for right in cells {
        if !is_true_cell(placement, right) {
            return Some(Key::CellRight {
                shard: right.shard,
                server: right.server,
            });
        }
    }
    None
}

/// Returns the first crown that is not true of the placement.
fn untrue_crown(placement: &Placement, crowns: &[Crown]) -> Option<Key>
    requires { All (IsKnownCrown (length placement.now.setup.shards) (length placement.now.setup.servers)) crowns.now }
    ensures { result ≡ first_crown (holds_crown
        (true_rights (sizes_of placement.now.setup) (place_of placement.now))) crowns.now }
{
    for crown in crowns {
        if !is_true_crown(placement, crown) {
            return Some(Key::Crown { shard: crown.shard });
        }
    }
    None
}

/// Returns the lowest key of a parcel that is not true of the placement.
fn untrue_key(placement: &Placement, parcel: &Parcel) -> Option<Key>
    requires { IsKnownParcel (length placement.now.setup.shards) (length placement.now.setup.servers) parcel.now }
    ensures lowest { IfSome result (IsLowestKey
        (IsIn (hold_of parcel.now) (true_rights (sizes_of placement.now.setup) (place_of placement.now)))) }
    ensures none { IfNone result ((key : Key)
        → IsIn (hold_of parcel.now) (true_rights (sizes_of placement.now.setup) (place_of placement.now)) key) }
{
    if let Some(key) = untrue_cell(placement, parcel.cells()) {
        return Some(key);
    }
    untrue_crown(placement, parcel.crowns())
}

/// Returns the lowest key that is not true of the placement, in the first stream that declares such a key.
pub(crate) fn first_untrue(placement: &Placement, streams: &[Stream]) -> Option<Key>
    requires { All (IsKnownStream (length placement.now.setup.shards) (length placement.now.setup.servers))
        streams.now }
    ensures first { IfSome result (λ key. (i : ℕ)
        × IsFirst (IsTrueAt (sizes_of placement.now.setup) (place_of placement.now) streams.now) i key) }
    ensures none { IfNone result (AreTrue (sizes_of placement.now.setup) (place_of placement.now) streams.now) }
{
    for stream in streams {
        if let Some(key) = untrue_key(placement, &stream.holds) {
            return Some(key);
        }
    }
    None
}
