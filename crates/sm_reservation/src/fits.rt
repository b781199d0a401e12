//! Tests whether a parcel can be put into a hold.
ghost use Rattle.std.specs.Prelude.{◌≡◌, ◌↔◌, ◌+◌, ◌<◌, ◌^◌, ◌&&◌, IsTrue, nat_lt, count_by};
ghost use Rattle.std.specs.List.{list_all};
ghost use Rattle.sm_reservation.specs.HoldOf.{hold_of};
ghost use Rattle.sm_reservation.specs.CanJoin.{CanJoin};
ghost use Rattle.sm_reservation.specs.Capacity.{HasCapacity};
ghost use Rattle.sm_reservation.specs.Key.{IsOrdered, lists};
ghost use Rattle.sm_reservation.specs.Pool.{IsKnownHold};
ghost use Rattle.sm_reservation.specs.Turns.{lacks_cell, lacks_crown, lacks_room, lacks_spare};

use crate::hold::Hold;
use crate::parcel::Parcel;
use crate::right::{CellRight, Crown, Room, Spare};
use crate::short::ByKey;

/// Tells whether rights of the four kinds can be put beside what is held.
pub(crate) fn can_join<H: ByKey>(
    held: &H,
    cells: &[CellRight],
    crowns: &[Crown],
    rooms: &[Room],
    spares: &[Spare],
) -> bool
    requires { IsOrdered (lists cells.now crowns.now rooms.now spares.now) }
    ensures { IsTrue result ↔ CanJoin (H.hold held.now) (hold_of (lists cells.now crowns.now rooms.now spares.now)) }
{
    held.amounts_fit();
    if !lacks_cells(held, cells) {
        return false;
    }
    if !lacks_crowns(held, crowns) {
        return false;
    }
    if !adds_rooms(held, rooms) {
        return false;
    }
    adds_spares(held, spares)
}

fn lacks_cells<H: ByKey>(held: &H, rights: &[CellRight]) -> bool
    ensures { result ≡ list_all (lacks_cell (H.hold held.now)) rights.now }
{
    rights
        .iter()
        .all(|right| held.cell_of(right.shard, right.server).is_none())
}

fn lacks_crowns<H: ByKey>(held: &H, crowns: &[Crown]) -> bool
    ensures { result ≡ list_all (lacks_crown (H.hold held.now)) crowns.now }
{
    crowns
        .iter()
        .all(|crown| held.crown_of(crown.shard).is_none())
}

fn adds_rooms<H: ByKey>(held: &H, rooms: &[Room]) -> bool
    ensures { result ≡ list_all (λ x. nat_lt ((H.hold held.now).room x.server + x.amount) (2 ^ 64)) rooms.now }
{
    rooms.iter().all(|room| held.room_of(room.server).checked_add(room.amount).is_some())
}

fn adds_spares<H: ByKey>(held: &H, spares: &[Spare]) -> bool
    ensures { result ≡ list_all (λ x. nat_lt ((H.hold held.now).spare x.shard + x.amount) (2 ^ 64)) spares.now }
{
    spares.iter().all(|spare| held
        .spare_of(spare.shard)
        .checked_add(spare.amount)
        .is_some())
}

/// Tells whether all rights of a hold are of known shards and servers: those below these numbers.
pub fn is_known_hold(hold: &Hold, shards: usize, servers: usize) -> bool
    ensures { IsTrue result ↔ IsKnownHold shards servers (hold_of hold.now.rights) }
{
    hold.rights_in_order();
    let cells = hold.cells();
    let crowns = hold.crowns();
    let rooms = hold.rooms();
    let spares = hold.spares();
    if !knows_cells(cells, shards, servers) {
        return false;
    }
    if !knows_crowns(crowns, shards) {
        return false;
    }
    if !knows_rooms(rooms, servers) {
        return false;
    }
    knows_spares(spares, shards)
}

fn knows_cells(rights: &[CellRight], shards: usize, servers: usize) -> bool
    ensures { result ≡ list_all (λ x. nat_lt x.shard shards && nat_lt x.server servers) rights.now }
{
    rights.iter().all(|right| {
        (right.shard.number() as usize) < shards && (right.server.number() as usize) < servers
    })
}

fn knows_crowns(crowns: &[Crown], shards: usize) -> bool
    ensures { result ≡ list_all (λ x. nat_lt x.shard shards) crowns.now }
{
    crowns
        .iter()
        .all(|crown| (crown.shard.number() as usize) < shards)
}

fn knows_rooms(rooms: &[Room], servers: usize) -> bool
    ensures { result ≡ list_all (λ x. nat_lt x.server servers) rooms.now }
{
    rooms
        .iter()
        .all(|room| (room.server.number() as usize) < servers)
}

fn knows_spares(spares: &[Spare], shards: usize) -> bool
    ensures { result ≡ list_all (λ x. nat_lt x.shard shards) spares.now }
{
    spares
        .iter()
        .all(|spare| (spare.shard.number() as usize) < shards)
}

/// Tells whether a hold has capacity for the keys of a parcel that are new in it.
pub fn has_capacity(hold: &Hold, parcel: &Parcel) -> bool
    ensures { IsTrue result ↔ HasCapacity hold.now parcel.now }
{
    let capacity = hold.capacity();
    new_cells(hold, parcel.cells()) <= capacity - hold.cells().len()
        && new_crowns(hold, parcel.crowns()) <= capacity - hold.crowns().len()
        && new_rooms(hold, parcel.room()) <= capacity - hold.rooms().len()
        && new_spares(hold, parcel.spare()) <= capacity - hold.spares().len()
}

fn new_cells(hold: &Hold, rights: &[CellRight]) -> usize
    ensures { result ≡ count_by (lacks_cell (hold_of hold.now.rights)) rights.now }
{
    rights
        .iter()
        .filter(|right| hold.cell(right.shard, right.server).is_none())
        .count()
}

fn new_crowns(hold: &Hold, crowns: &[Crown]) -> usize
    ensures { result ≡ count_by (lacks_crown (hold_of hold.now.rights)) crowns.now }
{
    crowns
        .iter()
        .filter(|crown| hold.crown(crown.shard).is_none())
        .count()
}

fn new_rooms(hold: &Hold, rooms: &[Room]) -> usize
    ensures { result ≡ count_by (lacks_room (hold_of hold.now.rights)) rooms.now }
{
    rooms
        .iter()
        .filter(|room| room.amount > 0 && hold.room(room.server) == 0)
        .count()
}

fn new_spares(hold: &Hold, spares: &[Spare]) -> usize
    ensures { result ≡ count_by (lacks_spare (hold_of hold.now.rights)) spares.now }
{
    spares
        .iter()
        .filter(|spare| spare.amount > 0 && hold.spare(spare.shard) == 0)
        .count()
}
