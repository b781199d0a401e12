//! Rights of the four kinds put into a hold or taken out of it.
#![tactic(auto, unfolding(crate::specs::HoldOf::hold_of))]

ghost use Rattle.std.specs.Prelude.{◌≡◌, ◌+◌, None};
ghost use Rattle.sm_reservation.specs.Hold.{minus, plus};
ghost use Rattle.sm_reservation.specs.Key.{IsOrdered, lists};
ghost use Rattle.sm_reservation.specs.Short.{first_short};
ghost use Rattle.sm_reservation.specs.Capacity.{IsLess, IsMore, HasCapacity, SumsFit};
ghost use Rattle.sm_reservation.specs.Amounts.{Right, count};
ghost use Rattle.sm_reservation.specs.HoldOf.{hold_of};

use crate::edits::{In, Out};
use crate::hold::Hold;
use crate::right::{CellRight, Crown, Room, Spare};

/// Takes rights of the four kinds out.
pub fn take_rights(
    hold: &mut Hold,
    cells: &[CellRight],
    crowns: &[Crown],
    rooms: &[Room],
    spares: &[Spare],
)
    requires order { IsOrdered (lists cells.now crowns.now rooms.now spares.now) }
    requires held { first_short (hold_of hold.old.rights) (lists cells.now crowns.now rooms.now spares.now) ≡ None }
    ensures rights { hold_of hold.new.rights ≡ minus (hold_of hold.old.rights)
        (lists cells.now crowns.now rooms.now spares.now) }
    ensures sums { (r : Right) → count (hold_of hold.new.rights) r + count
        (hold_of (lists cells.now crowns.now rooms.now spares.now)) r ≡ count (hold_of hold.old.rights) r }
    ensures less { IsLess hold.old hold.new (lists cells.now crowns.now rooms.now spares.now) }
{
    hold.cells.edit_all(cells, &Out);
    hold.crowns.edit_all(crowns, &Out);
    hold.room.edit_all(rooms, &Out);
    hold.spare.edit_all(spares, &Out);
}

/// Puts rights of the four kinds in.
pub fn put_rights(
    hold: &mut Hold,
    cells: &[CellRight],
    crowns: &[Crown],
    rooms: &[Room],
    spares: &[Spare],
)
    requires order { IsOrdered (lists cells.now crowns.now rooms.now spares.now) }
    requires capacity { HasCapacity hold.old (lists cells.now crowns.now rooms.now spares.now) }
    requires sums { SumsFit (hold_of hold.old.rights) (lists cells.now crowns.now rooms.now spares.now) }
    ensures rights { hold_of hold.new.rights ≡ plus (hold_of hold.old.rights)
        (lists cells.now crowns.now rooms.now spares.now) }
    ensures more { IsMore hold.old hold.new (lists cells.now crowns.now rooms.now spares.now) }
{
    hold.cells.edit_all(cells, &In);
    hold.crowns.edit_all(crowns, &In);
    hold.room.edit_all(rooms, &In);
    hold.spare.edit_all(spares, &In);
}
