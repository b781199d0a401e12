//! Parcels: rights in order, each key once.
ghost use Rattle.std.specs.Prelude.{◌≡◌, ◌<◌, ◌^◌, IfOk, OnOk, IfErr};
ghost use Rattle.std.specs.List.{AllByRecursion};
ghost use Rattle.sm_reservation.specs.Rows.{Rises, HasPositive};
ghost use Rattle.sm_reservation.specs.Key.{key_of_cell, key_of_crown, key_of_room, key_of_spare, IsOnce, IsOrdered};
ghost use Rattle.sm_reservation.specs.Key.{IsPositive, AreU64, IsSortedFrom, IsInOrder, first_double};
ghost use Rattle.sm_reservation.specs.Key.{lists as rights_in};
ghost use Rattle.sm_reservation.specs.InOrder.{in_order};
ghost use Rattle.sm_reservation.specs.HoldOf.{hold_of};
ghost use Rattle.sm_reservation.specs.Lists.{rights_of};
ghost use Rattle.sm_reservation.specs.Fault.{IsParcelFault};

use crate::order::{drop_empty, first_twin, sorted_rows};
use crate::right::{CellRight, Crown, Key, PlainCell, Room, Spare};
use crate::rows::row_at;
use sm_placement::Lead;
use sm_server::{ServerId, ShardId};
use std::alloc::{AllocError, Global};
use std::marker::Model;
use thiserror::Error;

/// Rights of the four kinds, in any order.
#[derive(Drop)]
pub struct Lists {
    /// Rights to cells.
    pub cells: Vec<CellRight>,
    /// Crowns.
    pub crowns: Vec<Crown>,
    /// Room.
    pub room: Vec<Room>,
    /// Spare replicas.
    pub spare: Vec<Spare>,
}

/// Why four lists are no parcel.
#[derive(Clone, Copy, Debug, PartialEq, Eq, Error)]
pub enum ParcelFault {
    /// Memory was short.
    #[error("out of memory")]
    NoMemory,
    /// A key stands twice.
    #[error("{key} stands twice")]
    Double {
        /// The lowest such key.
        key: Key,
    },
}

impl From<AllocError> for ParcelFault {
    ghost use Rattle.sm_reservation.specs.declared.parcel.ParcelFault.TheVariants.{NoMemory};

    ghost from_gives = { λ _ fault. fault ≡ NoMemory };

    fn from(_error: AllocError) -> ParcelFault {
        ParcelFault::NoMemory
    }
}

/// Rights to be asked for or handed on: each key once, in the order of the keys, and no amount of 0.
pub struct Parcel {
    cells: Vec<CellRight>,
    crowns: Vec<Crown>,
    room: Vec<Room>,
    spare: Vec<Spare>,
}

/// Drops everything in one call, instead of one call for each list.
impl Drop for Parcel {
    fn drop(self) {
        let Parcel {
            cells,
            crowns,
            room,
            spare,
        } = self;
        drop(cells);
        drop(crowns);
        drop(room);
        drop(spare);
    }
}

impl Model for Parcel {
    ghost use Rattle.sm_reservation.specs.Rights.{Rights};

    ghost Value = { Rights };

    ghost use Rattle.sm_reservation.specs.Parcel.{parcel_of, IsParcel};

    ghost view = { parcel_of };

    ghost invariant = { IsParcel };
}

impl Parcel {
    /// Puts rights in order and leaves out amounts of 0.
    ///
    /// A key that stands twice is refused, whatever its amounts, states, leads or listed servers are. The lists come
    /// back with the fault.
    pub fn new(alloc: Global, lists: Lists) -> Result<Parcel, (Lists, ParcelFault)>
        ensures value { IfOk result (λ parcel. parcel ≡ in_order (rights_of lists)) }
        ensures sorted { IfOk result (λ parcel. IsSortedFrom (rights_of lists) parcel) }
        ensures order { IfOk result (λ parcel. IsOrdered parcel) }
        ensures once { OnOk result (IsOnce (rights_of lists)) }
        ensures lists { IfErr result (λ e. e.0 ≡ lists) }
        ensures fault { IfErr result (λ e. IsParcelFault (rights_of lists) e.1) }
    {
        match sorted_parcel(alloc, &lists) {
            Ok(parcel) => Ok(parcel),
            Err(fault) => Err((lists, fault)),
        }
    }

    /// Makes the parcel of lists that are in order, with no amount of 0.
    pub(crate) fn of_ordered(
        cells: Vec<CellRight>,
        crowns: Vec<Crown>,
        room: Vec<Room>,
        spare: Vec<Spare>,
    ) -> Parcel
        requires ordered { IsOrdered (rights_in cells.items crowns.items room.items spare.items) }
        requires positive { IsPositive (rights_in cells.items crowns.items room.items spare.items) }
        requires bounded { AreU64 (rights_in cells.items crowns.items room.items spare.items) }
        ensures { result ≡ rights_in cells.items crowns.items room.items spare.items }
    {
        Parcel {
            cells,
            crowns,
            room,
            spare,
        }
    }

    /// Returns the rights to cells.
    pub fn cells(&self) -> &[CellRight]
        ensures value { result.now ≡ self.now.cells }
        ensures order { Rises key_of_cell result.now }
    {
        self.cells.as_slice()
    }

    /// Returns the crowns.
    pub fn crowns(&self) -> &[Crown]
        ensures value { result.now ≡ self.now.crowns }
        ensures order { Rises key_of_crown result.now }
    {
        self.crowns.as_slice()
    }

    /// Returns the room.
    pub fn room(&self) -> &[Room]
        ensures value { result.now ≡ self.now.room }
        ensures order { Rises key_of_room result.now }
        ensures positive { HasPositive (λ x. x.amount) result.now }
        ensures bounded { AllByRecursion (λ x. x.amount < 2 ^ 64) result.now }
    {
        self.room.as_slice()
    }

    /// Returns the spare replicas.
    pub fn spare(&self) -> &[Spare]
        ensures value { result.now ≡ self.now.spare }
        ensures order { Rises key_of_spare result.now }
        ensures positive { HasPositive (λ x. x.amount) result.now }
        ensures bounded { AllByRecursion (λ x. x.amount < 2 ^ 64) result.now }
    {
        self.spare.as_slice()
    }

    /// Returns the state of a cell to which there is a right.
    #[tactic(auto, unfolding(crate::specs::HoldOf::hold_of))]
    pub fn cell(&self, shard: ShardId, server: ServerId) -> Option<PlainCell>
        ensures { result ≡ (hold_of self.now).cells shard server }
    {
        row_at(self.cells(), (shard.number(), server.number())).map(|right| right.state)
    }

    /// Returns the lead and the listed server of a shard's crown.
    #[tactic(auto, unfolding(crate::specs::HoldOf::hold_of))]
    pub fn crown(&self, shard: ShardId) -> Option<(Lead, Option<ServerId>)>
        ensures { result ≡ (hold_of self.now).crowns shard }
    {
        row_at(self.crowns(), (shard.number(), 0)).map(|crown| (crown.lead, crown.listed))
    }

    /// Returns how much room of a server there is.
    #[tactic(auto, unfolding(crate::specs::HoldOf::hold_of))]
    pub fn room_of(&self, server: ServerId) -> u64
        ensures { result ≡ (hold_of self.now).room server }
    {
        row_at(self.room(), (server.number(), 0)).map_or(0, |room| room.amount)
    }

    /// Returns how many spare replicas of a shard there are.
    #[tactic(auto, unfolding(crate::specs::HoldOf::hold_of))]
    pub fn spare_of(&self, shard: ShardId) -> u64
        ensures { result ≡ (hold_of self.now).spare shard }
    {
        row_at(self.spare(), (shard.number(), 0)).map_or(0, |spare| spare.amount)
    }
}

/// Makes the parcel of the rights of four lists.
fn sorted_parcel(alloc: Global, lists: &Lists) -> Result<Parcel, ParcelFault>
    ensures value { IfOk result (λ parcel. parcel ≡ in_order (rights_of lists.now)) }
    ensures sorted { IfOk result (λ parcel. IsSortedFrom (rights_of lists.now) parcel) }
    ensures once { OnOk result (IsOnce (rights_of lists.now)) }
    ensures order { IfOk result (λ parcel. IsOrdered parcel) }
    ensures fault { IfErr result (λ fault. IsParcelFault (rights_of lists.now) fault) }
{
    let mut sorted = sorted_lists(alloc, lists)?;
    if let Some(key) = first_double(&sorted) {
        return Err(ParcelFault::Double { key });
    }
    drop_empty(&mut sorted.room);
    drop_empty(&mut sorted.spare);
    let Lists {
        cells,
        crowns,
        room,
        spare,
    } = sorted;
    Ok(Parcel {
        cells,
        crowns,
        room,
        spare,
    })
}

/// Copies of the lists, each in the order of its keys.
fn sorted_lists(alloc: Global, lists: &Lists) -> Result<Lists, AllocError>
    ensures { IfOk result (λ sorted. IsInOrder (rights_of lists.now) (rights_of sorted)) }
{
    Ok(Lists {
        cells: sorted_rows(alloc, lists.cells.as_slice())?,
        crowns: sorted_rows(alloc, lists.crowns.as_slice())?,
        room: sorted_rows(alloc, lists.room.as_slice())?,
        spare: sorted_rows(alloc, lists.spare.as_slice())?,
    })
}

/// Returns the lowest key that two neighbours in a list share.
fn first_double(lists: &Lists) -> Option<Key>
    ensures { result ≡ first_double (rights_of lists.now) }
{
    let cell = first_twin(lists.cells.as_slice()).map(|(shard, server)| Key::CellRight {
        shard: ShardId::new(shard),
        server: ServerId::new(server),
    });
    let crown = first_twin(lists.crowns.as_slice()).map(|(shard, _)| Key::Crown {
        shard: ShardId::new(shard),
    });
    let room = first_twin(lists.room.as_slice()).map(|(server, _)| Key::Room {
        server: ServerId::new(server),
    });
    let spare = first_twin(lists.spare.as_slice()).map(|(shard, _)| Key::Spare {
        shard: ShardId::new(shard),
    });
    cell.or(crown).or(room).or(spare)
}
