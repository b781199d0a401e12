//! Rights put in beside those that are there, and small changes of what is held.
ghost use Rattle.std.specs.Prelude.{◌≡◌, ◌+◌, None};
ghost use Rattle.sm_reservation.specs.Hold.{minus, plus};
ghost use Rattle.sm_reservation.specs.HoldOf.{hold_of};
ghost use Rattle.sm_reservation.specs.Amounts.{Right, count};
ghost use Rattle.sm_reservation.specs.Capacity.{IsLess, IsMore, HasCapacity};
ghost use Rattle.sm_reservation.specs.Key.{IsOrdered, lists};
ghost use Rattle.sm_reservation.specs.CanJoin.{CanJoin};
ghost use Rattle.sm_reservation.specs.Short.{first_short};
ghost use Rattle.sm_reservation.specs.Change.{portion_rights};

use crate::change::Portion;
use crate::hold::Hold;
use crate::moves::{put_rights, take_rights};
use crate::parcel::Parcel;
use crate::right::{CellRight, Crown, Room, Spare};

/// Puts rights of the four kinds in beside those that are there.
pub fn join_rights(
    hold: &mut Hold,
    cells: &[CellRight],
    crowns: &[Crown],
    rooms: &[Room],
    spares: &[Spare],
)
    requires order { IsOrdered (lists cells.now crowns.now rooms.now spares.now) }
    requires capacity { HasCapacity hold.old (lists cells.now crowns.now rooms.now spares.now) }
    requires fits { CanJoin (hold_of hold.old.rights) (hold_of (lists cells.now crowns.now rooms.now spares.now)) }
    ensures rights { hold_of hold.new.rights ≡ plus (hold_of hold.old.rights)
        (lists cells.now crowns.now rooms.now spares.now) }
    ensures sums { (r : Right) → count (hold_of hold.new.rights) r
        ≡ count (hold_of hold.old.rights) r + count (hold_of (lists cells.now crowns.now rooms.now spares.now)) r }
    ensures more { IsMore hold.old hold.new (lists cells.now crowns.now rooms.now spares.now) }
{
    put_rights(hold, cells, crowns, rooms, spares);
}

/// Puts a parcel's rights in beside those that are there.
pub fn join_parcel(hold: &mut Hold, parcel: &Parcel)
    requires capacity { HasCapacity hold.old parcel.now }
    requires fits { CanJoin (hold_of hold.old.rights) (hold_of parcel.now) }
    ensures rights { hold_of hold.new.rights ≡ plus (hold_of hold.old.rights) parcel.now }
    ensures sums { (r : Right) → count (hold_of hold.new.rights) r
        ≡ count (hold_of hold.old.rights) r + count (hold_of parcel.now) r }
    ensures more { IsMore hold.old hold.new parcel.now }
{
    join_rights(
        hold,
        parcel.cells(),
        parcel.crowns(),
        parcel.room(),
        parcel.spare(),
    );
}

/// Takes a portion's rights out.
pub fn take_portion(hold: &mut Hold, portion: &Portion)
    requires held { first_short (hold_of hold.old.rights) (portion_rights portion.now) ≡ None }
    ensures rights { hold_of hold.new.rights ≡ minus (hold_of hold.old.rights) (portion_rights portion.now) }
    ensures sums { (r : Right) → count (hold_of hold.new.rights) r + count (hold_of (portion_rights portion.now)) r
        ≡ count (hold_of hold.old.rights) r }
    ensures less { IsLess hold.old hold.new (portion_rights portion.now) }
{
    let cells = portion.cell.as_slice();
    let crowns = portion.crown.as_slice();
    let rooms = portion.room.as_slice();
    let spares = portion.spare.as_slice();
    take_rights(hold, cells, crowns, rooms, spares);
}

/// Puts a portion's rights in beside those that are there.
pub fn join_portion(hold: &mut Hold, portion: &Portion)
    requires capacity { HasCapacity hold.old (portion_rights portion.now) }
    requires fits { CanJoin (hold_of hold.old.rights) (hold_of (portion_rights portion.now)) }
    ensures rights { hold_of hold.new.rights ≡ plus (hold_of hold.old.rights) (portion_rights portion.now) }
    ensures sums { (r : Right) → count (hold_of hold.new.rights) r
        ≡ count (hold_of hold.old.rights) r + count (hold_of (portion_rights portion.now)) r }
    ensures more { IsMore hold.old hold.new (portion_rights portion.now) }
{
    let cells = portion.cell.as_slice();
    let crowns = portion.crown.as_slice();
    let rooms = portion.room.as_slice();
    let spares = portion.spare.as_slice();
    join_rights(hold, cells, crowns, rooms, spares);
}
