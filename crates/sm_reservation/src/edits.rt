//! Edits of a right's row: what stands at its key once it is taken out of a list, or put into it.
ghost use Rattle.std.specs.Prelude.{◌≡◌};
ghost use Rattle.sm_reservation.specs.Rows.{amount_of};
ghost use Rattle.sm_reservation.specs.Edits.{room_of, spare_of};

use crate::merge::Edit;
use crate::right::{CellRight, Crown, Room, Spare};

/// Takes rights out.
pub struct Out;

/// Puts rights in: a cell right or a crown takes the place of one with the same key, and amounts are added up.
pub struct In;

fn room_of(room: &Room, amount: u64) -> Option<Room>
    ensures { result ≡ room_of room.now amount }
{
    if amount == 0 {
        return None;
    }
    Some(Room {
        server: room.server,
        amount,
    })
}

fn spare_of(spare: &Spare, amount: u64) -> Option<Spare>
    ensures { result ≡ spare_of spare.now amount }
{
    if amount == 0 {
        return None;
    }
    Some(Spare {
        shard: spare.shard,
        amount,
    })
}

fn room_held(held: Option<Room>) -> u64
    ensures { result ≡ amount_of (λ x. x.amount) held }
{
    match held {
        None => 0,
        Some(room) => room.amount,
    }
}

fn spare_held(held: Option<Spare>) -> u64
    ensures { result ≡ amount_of (λ x. x.amount) held }
{
    match held {
        None => 0,
        Some(spare) => spare.amount,
    }
}

impl Edit<CellRight> for Out {
    ghost use Rattle.std.specs.Prelude.{◌≡◌};
    ghost use Rattle.sm_reservation.specs.Edits.{row_out};

    ghost edit = { row_out };

    fn edit(&self, held: Option<CellRight>, row: &CellRight) -> Option<CellRight>
        ensures { result ≡ row_out held row.now }
    {
        None
    }
}

impl Edit<CellRight> for In {
    ghost use Rattle.std.specs.Prelude.{◌≡◌};
    ghost use Rattle.sm_reservation.specs.Edits.{row_in};

    ghost edit = { row_in };

    fn edit(&self, held: Option<CellRight>, row: &CellRight) -> Option<CellRight>
        ensures { result ≡ row_in held row.now }
    {
        Some(*row)
    }
}

impl Edit<Crown> for Out {
    ghost use Rattle.std.specs.Prelude.{◌≡◌};
    ghost use Rattle.sm_reservation.specs.Edits.{row_out};

    ghost edit = { row_out };

    fn edit(&self, held: Option<Crown>, row: &Crown) -> Option<Crown>
        ensures { result ≡ row_out held row.now }
    {
        None
    }
}

impl Edit<Crown> for In {
    ghost use Rattle.std.specs.Prelude.{◌≡◌};
    ghost use Rattle.sm_reservation.specs.Edits.{row_in};

    ghost edit = { row_in };

    fn edit(&self, held: Option<Crown>, row: &Crown) -> Option<Crown>
        ensures { result ≡ row_in held row.now }
    {
        Some(*row)
    }
}

impl Edit<Room> for Out {
    ghost use Rattle.std.specs.Prelude.{◌≡◌};
    ghost use Rattle.sm_reservation.specs.Edits.{room_row_out};

    ghost edit = { room_row_out };

    fn edit(&self, held: Option<Room>, row: &Room) -> Option<Room>
        ensures { result ≡ room_row_out held row.now }
    {
        room_of(row, room_held(held).saturating_sub(row.amount))
    }
}

// (where rights are put in, each sum is a u64)
impl Edit<Room> for In {
    ghost use Rattle.std.specs.Prelude.{◌≡◌};
    ghost use Rattle.sm_reservation.specs.Edits.{room_in_word};

    ghost edit = { room_in_word };

    fn edit(&self, held: Option<Room>, row: &Room) -> Option<Room>
        ensures { result ≡ room_in_word held row.now }
    {
        room_of(row, room_held(held).wrapping_add(row.amount))
    }
}

impl Edit<Spare> for Out {
    ghost use Rattle.std.specs.Prelude.{◌≡◌};
    ghost use Rattle.sm_reservation.specs.Edits.{spare_row_out};

    ghost edit = { spare_row_out };

    fn edit(&self, held: Option<Spare>, row: &Spare) -> Option<Spare>
        ensures { result ≡ spare_row_out held row.now }
    {
        spare_of(row, spare_held(held).saturating_sub(row.amount))
    }
}

impl Edit<Spare> for In {
    ghost use Rattle.std.specs.Prelude.{◌≡◌};
    ghost use Rattle.sm_reservation.specs.Edits.{spare_in_word};

    ghost edit = { spare_in_word };

    fn edit(&self, held: Option<Spare>, row: &Spare) -> Option<Spare>
        ensures { result ≡ spare_in_word held row.now }
    {
        spare_of(row, spare_held(held).wrapping_add(row.amount))
    }
}
