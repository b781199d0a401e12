//! The first key of which there is too little.
ghost use Rattle.std.specs.Prelude.{◌≡◌, ℕ, ◌<◌, ◌^◌};
ghost use Rattle.sm_reservation.specs.Hold.{Hold};
ghost use Rattle.sm_reservation.specs.Short.{cell_short, crown_short, room_short, spare_short, first_answer};
ghost use Rattle.sm_reservation.specs.Short.{first_short};

use crate::hold;
use crate::parcel::Parcel;
use crate::right::{CellRight, Crown, Key, PlainCell, Room, Short, Spare};
use sm_placement::Lead;
use sm_server::{ServerId, ShardId};

/// Rights that are read by their keys.
pub(crate) trait ByKey {
    ghost hold: { Self → Hold };

    /// Returns the state of the cell, if there is a right to it.
    fn cell_of(&self, shard: ShardId, server: ServerId) -> Option<PlainCell>
        ensures { result ≡ (hold self.now).cells shard server };

    /// Returns the lead and the listed server, if there is the shard's crown.
    fn crown_of(&self, shard: ShardId) -> Option<(Lead, Option<ServerId>)>
        ensures { result ≡ (hold self.now).crowns shard };

    /// Returns how much room of a server there is.
    fn room_of(&self, server: ServerId) -> u64
        ensures { result ≡ (hold self.now).room server };

    /// Returns how many spare replicas of a shard there are.
    fn spare_of(&self, shard: ShardId) -> u64
        ensures { result ≡ (hold self.now).spare shard };

    /// States that no amount is above what a u64 holds.
    fn amounts_fit(&self)
        ensures room { (v : ℕ) → (hold self.now).room v < 2 ^ 64 }
        ensures spare { (s : ℕ) → (hold self.now).spare s < 2 ^ 64 };
}

impl ByKey for hold::Hold {
    ghost use Rattle.sm_reservation.specs.HoldOf.{hold_of};

    ghost hold = { λ h. hold_of h.rights };

    fn cell_of(&self, shard: ShardId, server: ServerId) -> Option<PlainCell> {
        self.cell(shard, server)
    }

    fn crown_of(&self, shard: ShardId) -> Option<(Lead, Option<ServerId>)> {
        self.crown(shard)
    }

    fn room_of(&self, server: ServerId) -> u64 {
        self.room(server)
    }

    fn spare_of(&self, shard: ShardId) -> u64 {
        self.spare(shard)
    }

    fn amounts_fit(&self) {
        self.rights_in_order();
    }
}

/// Returns the first key of a parcel of which there is too little.
pub(crate) fn first_short<H: ByKey>(held: &H, parcel: &Parcel) -> Option<Short>
    ensures { result ≡ first_short (H.hold held.now) parcel.now }
{
    first_cell_short(held, parcel.cells())
        .or(first_crown_short(held, parcel.crowns()))
        .or(first_room_short(held, parcel.room()))
        .or(first_spare_short(held, parcel.spare()))
}

/// Returns what is lacking of a right to a cell.
fn cell_short<H: ByKey>(held: &H, right: &CellRight) -> Option<Short>
    ensures { result ≡ cell_short (H.hold held.now) right.now }
{
    if held.cell_of(right.shard, right.server) == Some(right.state) {
        return None;
    }
    Some(Short {
        key: Key::CellRight {
            shard: right.shard,
            server: right.server,
        },
        had: 0,
        asked: 1,
    })
}

/// Returns what is lacking of a crown.
fn crown_short<H: ByKey>(held: &H, crown: &Crown) -> Option<Short>
    ensures { result ≡ crown_short (H.hold held.now) crown.now }
{
    if held.crown_of(crown.shard) == Some((crown.lead, crown.listed)) {
        return None;
    }
    Some(Short {
        key: Key::Crown { shard: crown.shard },
        had: 0,
        asked: 1,
    })
}

/// Returns what is lacking of room.
fn room_short<H: ByKey>(held: &H, room: &Room) -> Option<Short>
    ensures { result ≡ room_short (H.hold held.now) room.now }
{
    let had = held.room_of(room.server);
    if room.amount <= had {
        return None;
    }
    Some(Short {
        key: Key::Room {
            server: room.server,
        },
        had,
        asked: room.amount,
    })
}

/// Returns what is lacking of spare replicas.
fn spare_short<H: ByKey>(held: &H, spare: &Spare) -> Option<Short>
    ensures { result ≡ spare_short (H.hold held.now) spare.now }
{
    let had = held.spare_of(spare.shard);
    if spare.amount <= had {
        return None;
    }
    Some(Short {
        key: Key::Spare { shard: spare.shard },
        had,
        asked: spare.amount,
    })
}

/// Returns the first right to a cell that is lacking.
fn first_cell_short<H: ByKey>(held: &H, rights: &[CellRight]) -> Option<Short>
    ensures { result ≡ first_answer (cell_short (H.hold held.now)) rights.now }
{
    for right in rights {
        if let Some(short) = cell_short(held, right) {
            return Some(short);
        }
    }
    None
}

/// Returns the first crown that is lacking.
fn first_crown_short<H: ByKey>(held: &H, crowns: &[Crown]) -> Option<Short>
    ensures { result ≡ first_answer (crown_short (H.hold held.now)) crowns.now }
{
    for crown in crowns {
        if let Some(short) = crown_short(held, crown) {
            return Some(short);
        }
    }
    None
}

/// Returns the first room that is lacking.
fn first_room_short<H: ByKey>(held: &H, rooms: &[Room]) -> Option<Short>
    ensures { result ≡ first_answer (room_short (H.hold held.now)) rooms.now }
{
    for room in rooms {
        if let Some(short) = room_short(held, room) {
            return Some(short);
        }
    }
    None
}

/// Returns the first spare replicas that are lacking.
fn first_spare_short<H: ByKey>(held: &H, spares: &[Spare]) -> Option<Short>
    ensures { result ≡ first_answer (spare_short (H.hold held.now)) spares.now }
{
    for spare in spares {
        if let Some(short) = spare_short(held, spare) {
            return Some(short);
        }
    }
    None
}
