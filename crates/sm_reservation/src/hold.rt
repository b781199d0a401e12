//! Holds: rights that are read and changed by their keys.
#![tactic(auto, unfolding(crate::specs::HoldOf::hold_of))]

ghost use Rattle.std.specs.Prelude.{◌≡◌, ◌↔◌, IsTrue, ◌+◌, ◌<◌, ◌≤◌, ◌==◌, ◌&&◌, ◌^◌, None, Some, nat_lt, is_none};
ghost use Rattle.std.specs.Prelude.{is_some, max, IsOk, IfOk, OnOk, OnErr, length};
ghost use Rattle.sm_placement.specs.Sums.{bit};
ghost use Rattle.sm_reservation.specs.Rights.{no_rights};
ghost use Rattle.std.specs.List.{AllByRecursion};
ghost use Rattle.sm_reservation.specs.Rows.{Rises, HasPositive};
ghost use Rattle.sm_reservation.specs.Key.{key_of_cell, key_of_crown, key_of_room, key_of_spare, IsOrdered, IsPositive};
ghost use Rattle.sm_reservation.specs.Key.{AreU64};
ghost use Rattle.sm_reservation.specs.CanJoin.{CanJoin};
ghost use Rattle.sm_reservation.specs.Short.{first_short};
ghost use Rattle.sm_reservation.specs.Capacity.{IsLess, IsMore, IsTraded, HasCapacity, HasCapacityAfter, most_keys};
ghost use Rattle.sm_reservation.specs.Capacity.{SumsFit, IsWithin, key_counts};
ghost use Rattle.sm_reservation.specs.Hold.{minus, plus, with_cell, with_crown, without_crown, get_room, pay_room};
ghost use Rattle.sm_reservation.specs.Hold.{get_spare, pay_spare};
ghost use Rattle.sm_reservation.specs.Amounts.{Right, count};
ghost use Rattle.sm_reservation.specs.HoldOf.{hold_of};
ghost use Rattle.sm_reservation.specs.Change.{portion_rights};

use crate::change::Change;
use crate::edits::{In, Out};
use crate::fits::{can_join, has_capacity};
use crate::moves::{put_rights, take_rights};
use crate::parcel::Parcel;
use crate::right::{CellRight, Crown, PlainCell, Room, Short, Spare};
use crate::rows::Rows;
use crate::short::first_short;
use crate::trades::{join_portion, take_portion};
use sm_placement::Lead;
use sm_server::{ServerId, ShardId};
use std::alloc::{AllocError, Global};
use std::marker::Model;

/// Rights that can be read and edited by their keys, with a capacity of a number of keys in each list.
///
/// A hold is a plain value: it says what is held, and nothing is held by having one.
pub struct Hold {
    pub(crate) cells: Rows<CellRight>,
    pub(crate) crowns: Rows<Crown>,
    pub(crate) room: Rows<Room>,
    pub(crate) spare: Rows<Spare>,
    capacity: usize,
}

/// Drops everything in one call, instead of one call for each list.
impl Drop for Hold {
    fn drop(self) {
        let Hold {
            cells,
            crowns,
            room,
            spare,
            capacity: _,
        } = self;
        drop(cells);
        drop(crowns);
        drop(room);
        drop(spare);
    }
}

impl Model for Hold {
    ghost use Rattle.sm_reservation.specs.Capacity.{HoldModel};

    ghost Value = { HoldModel };

    ghost use Rattle.sm_reservation.specs.HoldView.{hold_model, IsHold};

    ghost view = { hold_model };

    ghost invariant = { IsHold };
}

impl Hold {
    /// Makes a hold of no rights, with a capacity of this many keys in each list.
    pub fn empty(alloc: Global, capacity: u32) -> Result<Hold, AllocError>
        ensures { IfOk result (λ hold. hold ≡ record { rights = no_rights; capacity = capacity }) }
    {
        let capacity = capacity as usize;
        Ok(Hold {
            cells: Rows::empty(alloc, capacity)?,
            crowns: Rows::empty(alloc, capacity)?,
            room: Rows::empty(alloc, capacity)?,
            spare: Rows::empty(alloc, capacity)?,
            capacity,
        })
    }

    /// Makes a hold of a parcel's rights.
    pub fn of_parcel(alloc: Global, parcel: &Parcel) -> Result<Hold, AllocError>
        ensures rights { IfOk result (λ hold. hold.rights ≡ parcel.now) }
        ensures capacity { IfOk result (λ hold. hold.capacity ≡ most_keys parcel.now) }
    {
        let cells = parcel.cells();
        let crowns = parcel.crowns();
        let room = parcel.room();
        let spare = parcel.spare();
        let capacity = cells
            .len()
            .max(crowns.len())
            .max(room.len())
            .max(spare.len());
        Ok(Hold {
            cells: Rows::copied(alloc, cells, capacity)?,
            crowns: Rows::copied(alloc, crowns, capacity)?,
            room: Rows::copied(alloc, room, capacity)?,
            spare: Rows::copied(alloc, spare, capacity)?,
            capacity,
        })
    }

    /// Raises the capacity to this many keys in each list, if it is less.
    pub fn reserve(&mut self, capacity: u32) -> Result<(), AllocError>
        ensures rights { self.new.rights ≡ self.old.rights }
        ensures ok { OnOk result (self.new.capacity ≡ max self.old.capacity capacity) }
        ensures err { OnErr result (self.new.capacity ≡ self.old.capacity) }
        ensures there { capacity ≤ self.old.capacity → IsOk result }
    {
        let capacity = capacity as usize;
        if capacity <= self.capacity {
            return Ok(());
        }
        self.cells.reserve(capacity)?;
        self.crowns.reserve(capacity)?;
        self.room.reserve(capacity)?;
        self.spare.reserve(capacity)?;
        self.capacity = capacity;
        Ok(())
    }

    /// Returns the state of a cell to which there is a right.
    pub fn cell(&self, shard: ShardId, server: ServerId) -> Option<PlainCell>
        ensures { result ≡ (hold_of self.now.rights).cells shard server }
    {
        self.cells
            .at((shard.number(), server.number()))
            .map(|right| right.state)
    }

    /// Returns the lead and the listed server of a shard's crown.
    pub fn crown(&self, shard: ShardId) -> Option<(Lead, Option<ServerId>)>
        ensures { result ≡ (hold_of self.now.rights).crowns shard }
    {
        self.crowns
            .at((shard.number(), 0))
            .map(|crown| (crown.lead, crown.listed))
    }

    /// Returns the room of a server.
    pub fn room(&self, server: ServerId) -> u64
        ensures { result ≡ (hold_of self.now.rights).room server }
    {
        self.room
            .at((server.number(), 0))
            .map_or(0, |room| room.amount)
    }

    /// Returns the spare replicas of a shard.
    pub fn spare(&self, shard: ShardId) -> u64
        ensures { result ≡ (hold_of self.now.rights).spare shard }
    {
        self.spare
            .at((shard.number(), 0))
            .map_or(0, |spare| spare.amount)
    }

    /// Takes the right to a cell out, if there is one.
    pub fn take_cell(&mut self, shard: ShardId, server: ServerId)
        ensures rights { hold_of self.new.rights ≡ with_cell (hold_of self.old.rights) shard server None }
        ensures len { length self.new.rights.cells + bit (is_some ((hold_of self.old.rights).cells shard server))
            ≡ length self.old.rights.cells }
        ensures others { self.new ≡ record self.old
            { rights = record self.old.rights { cells = self.new.rights.cells } } }
    {
        let right = CellRight {
            shard,
            server,
            state: PlainCell::Absent,
        };
        self.cells.edit(&right, &Out);
    }

    /// Puts the right to a cell in, and takes out one to that cell in another state.
    pub fn put_cell(&mut self, right: CellRight)
        requires capacity { (hold_of self.old.rights).cells right.shard right.server ≡ None
            → length self.old.rights.cells < self.old.capacity }
        ensures rights { hold_of self.new.rights ≡ with_cell (hold_of self.old.rights) right.shard right.server
            (Some right.state) }
        ensures len { length self.new.rights.cells
            ≡ length self.old.rights.cells + bit (is_none
            ((hold_of self.old.rights).cells right.shard right.server)) }
        ensures others { self.new ≡ record self.old
            { rights = record self.old.rights { cells = self.new.rights.cells } } }
    {
        self.cells.edit(&right, &In);
    }

    /// Takes a shard's crown out, if there is one.
    pub fn take_crown(&mut self, shard: ShardId)
        ensures rights { hold_of self.new.rights ≡ without_crown (hold_of self.old.rights) shard }
        ensures len { length self.new.rights.crowns + bit (is_some ((hold_of self.old.rights).crowns shard))
            ≡ length self.old.rights.crowns }
        ensures others { self.new ≡ record self.old
            { rights = record self.old.rights { crowns = self.new.rights.crowns } } }
    {
        let crown = Crown {
            shard,
            lead: Lead::Gone,
            listed: None,
        };
        self.crowns.edit(&crown, &Out);
    }

    /// Puts a crown in, and takes out one of that shard.
    pub fn put_crown(&mut self, crown: Crown)
        requires capacity { (hold_of self.old.rights).crowns crown.shard ≡ None
            → length self.old.rights.crowns < self.old.capacity }
        ensures rights { hold_of self.new.rights ≡ with_crown
            (hold_of self.old.rights) crown.shard crown.lead crown.listed }
        ensures len { length self.new.rights.crowns
            ≡ length self.old.rights.crowns + bit (is_none ((hold_of self.old.rights).crowns crown.shard)) }
        ensures others { self.new ≡ record self.old
            { rights = record self.old.rights { crowns = self.new.rights.crowns } } }
    {
        self.crowns.edit(&crown, &In);
    }

    /// Takes room of a server out.
    pub fn take_room(&mut self, room: Room)
        requires enough { room.amount ≤ (hold_of self.old.rights).room room.server }
        ensures rights { hold_of self.new.rights ≡ pay_room (hold_of self.old.rights) room.server room.amount }
        ensures len { length self.new.rights.room + bit
            (nat_lt 0 room.amount && ((hold_of self.old.rights).room room.server == room.amount))
            ≡ length self.old.rights.room }
        ensures others { self.new ≡ record self.old
            { rights = record self.old.rights { room = self.new.rights.room } } }
    {
        self.room.edit(&room, &Out);
    }

    /// Puts room of a server in.
    pub fn put_room(&mut self, room: Room)
        requires capacity { 0 < room.amount → (hold_of self.old.rights).room room.server ≡ 0
            → length self.old.rights.room < self.old.capacity }
        requires fits { (hold_of self.old.rights).room room.server + room.amount < 2 ^ 64 }
        ensures rights { hold_of self.new.rights ≡ get_room (hold_of self.old.rights) room.server room.amount }
        ensures len { length self.new.rights.room
            ≡ length self.old.rights.room + bit (nat_lt 0 room.amount &&
            ((hold_of self.old.rights).room room.server == 0)) }
        ensures others { self.new ≡ record self.old
            { rights = record self.old.rights { room = self.new.rights.room } } }
    {
        self.room.edit(&room, &In);
    }

    /// Takes spare replicas of a shard out.
    pub fn take_spare(&mut self, spare: Spare)
        requires enough { spare.amount ≤ (hold_of self.old.rights).spare spare.shard }
        ensures rights { hold_of self.new.rights ≡ pay_spare (hold_of self.old.rights) spare.shard spare.amount }
        ensures len { length self.new.rights.spare + bit
            (nat_lt 0 spare.amount && ((hold_of self.old.rights).spare spare.shard == spare.amount))
            ≡ length self.old.rights.spare }
        ensures others { self.new ≡ record self.old
            { rights = record self.old.rights { spare = self.new.rights.spare } } }
    {
        self.spare.edit(&spare, &Out);
    }

    /// Puts spare replicas of a shard in.
    pub fn put_spare(&mut self, spare: Spare)
        requires capacity { 0 < spare.amount → (hold_of self.old.rights).spare spare.shard ≡ 0
            → length self.old.rights.spare < self.old.capacity }
        requires fits { (hold_of self.old.rights).spare spare.shard + spare.amount < 2 ^ 64 }
        ensures rights { hold_of self.new.rights ≡ get_spare (hold_of self.old.rights) spare.shard spare.amount }
        ensures len { length self.new.rights.spare
            ≡ length self.old.rights.spare + bit (nat_lt 0 spare.amount &&
            ((hold_of self.old.rights).spare spare.shard == 0)) }
        ensures others { self.new ≡ record self.old
            { rights = record self.old.rights { spare = self.new.rights.spare } } }
    {
        self.spare.edit(&spare, &In);
    }

    /// Returns the rights to cells.
    pub fn cells(&self) -> &[CellRight]
        ensures value { result.now ≡ self.now.rights.cells }
        ensures order { Rises key_of_cell result.now }
    {
        self.cells.as_slice()
    }

    /// Returns the crowns.
    pub fn crowns(&self) -> &[Crown]
        ensures value { result.now ≡ self.now.rights.crowns }
        ensures order { Rises key_of_crown result.now }
    {
        self.crowns.as_slice()
    }

    /// Returns all room.
    pub fn rooms(&self) -> &[Room]
        ensures value { result.now ≡ self.now.rights.room }
        ensures order { Rises key_of_room result.now }
        ensures positive { HasPositive (λ x. x.amount) result.now }
        ensures bounded { AllByRecursion (λ x. x.amount < 2 ^ 64) result.now }
    {
        self.room.as_slice()
    }

    /// Returns all spare replicas.
    pub fn spares(&self) -> &[Spare]
        ensures value { result.now ≡ self.now.rights.spare }
        ensures order { Rises key_of_spare result.now }
        ensures positive { HasPositive (λ x. x.amount) result.now }
        ensures bounded { AllByRecursion (λ x. x.amount < 2 ^ 64) result.now }
    {
        self.spare.as_slice()
    }

    /// Returns the first key of a parcel of which there is too little here.
    pub fn first_short(&self, parcel: &Parcel) -> Option<Short>
        ensures { result ≡ first_short (hold_of self.now.rights) parcel.now }
    {
        first_short(self, parcel)
    }

    /// Tells whether a parcel can be put beside what is here: no cell right and no crown would stand twice, and no sum
    /// would pass u64.
    pub fn can_join(&self, parcel: &Parcel) -> bool
        ensures { IsTrue result ↔ CanJoin (hold_of self.now.rights) (hold_of parcel.now) }
    {
        can_join(
            self,
            parcel.cells(),
            parcel.crowns(),
            parcel.room(),
            parcel.spare(),
        )
    }

    /// Tells whether there is capacity for the keys of a parcel that are new here.
    pub fn has_capacity(&self, parcel: &Parcel) -> bool
        ensures { IsTrue result ↔ HasCapacity self.now parcel.now }
    {
        has_capacity(self, parcel)
    }

    /// Tells whether there are no rights.
    pub fn is_empty(&self) -> bool
        ensures { IsTrue result ↔ (self.now.rights ≡ no_rights) }
    {
        self.cells.is_empty()
            && self.crowns.is_empty()
            && self.room.is_empty()
            && self.spare.is_empty()
    }

    /// States that the lists are in order, no amount is 0 or above what a u64 holds, and no list is longer than the
    /// capacity.
    pub fn rights_in_order(&self)
        ensures order { IsOrdered self.now.rights }
        ensures positive { IsPositive self.now.rights }
        ensures bounded { AreU64 self.now.rights }
        ensures within { IsWithin (key_counts self.now.rights) self.now.capacity }
    {
        let _ = self.cells.as_slice();
        let _ = self.crowns.as_slice();
        let _ = self.room.as_slice();
        let _ = self.spare.as_slice();
    }

    /// Returns the capacity: the number of keys that each list can take.
    pub fn capacity(&self) -> usize
        ensures capacity { result ≡ self.now.capacity }
        ensures within { IsWithin (key_counts self.now.rights) result }
    {
        self.capacity
    }

    /// Takes a parcel's rights out.
    pub fn take(&mut self, parcel: &Parcel)
        requires held { first_short (hold_of self.old.rights) parcel.now ≡ None }
        ensures rights { hold_of self.new.rights ≡ minus (hold_of self.old.rights) parcel.now }
        ensures sums { (r : Right) → count (hold_of self.new.rights) r + count (hold_of parcel.now) r
            ≡ count (hold_of self.old.rights) r }
        ensures less { IsLess self.old self.new parcel.now }
    {
        take_rights(
            self,
            parcel.cells(),
            parcel.crowns(),
            parcel.room(),
            parcel.spare(),
        );
    }

    /// Gives the rights of a small change up for those that it gets.
    pub fn exchange(&mut self, change: &Change)
        requires held { first_short (hold_of self.old.rights) (portion_rights change.now.out) ≡ None }
        requires fits { CanJoin (minus (hold_of self.old.rights) (portion_rights change.now.out))
            (hold_of (portion_rights change.now.got)) }
        requires capacity { HasCapacityAfter self.old (portion_rights change.now.out) (portion_rights change.now.got) }
        ensures rights { hold_of self.new.rights ≡ plus
            (minus (hold_of self.old.rights) (portion_rights change.now.out)) (portion_rights change.now.got) }
        ensures changed { (r : Right) → count (hold_of self.new.rights) r + count
            (hold_of (portion_rights change.now.out)) r
            ≡ count (hold_of self.old.rights) r + count (hold_of (portion_rights change.now.got)) r }
        ensures sizes { IsTraded self.old self.new (portion_rights change.now.out) (portion_rights change.now.got) }
    {
        take_portion(self, &change.out);
        join_portion(self, &change.got);
    }

    /// Puts a parcel's rights in.
    ///
    /// A cell right or a crown takes the place of one with the same key.
    pub fn put(&mut self, parcel: &Parcel)
        requires capacity { HasCapacity self.old parcel.now }
        requires sums { SumsFit (hold_of self.old.rights) parcel.now }
        ensures rights { hold_of self.new.rights ≡ plus (hold_of self.old.rights) parcel.now }
        ensures more { IsMore self.old self.new parcel.now }
    {
        put_rights(
            self,
            parcel.cells(),
            parcel.crowns(),
            parcel.room(),
            parcel.spare(),
        );
    }

    /// Returns the rights as a parcel.
    pub fn into_parcel(self) -> Parcel
        ensures { result ≡ self.rights }
    {
        let Hold {
            cells,
            crowns,
            room,
            spare,
            capacity: _,
        } = self;
        Parcel::of_ordered(
            cells.into_list(),
            crowns.into_list(),
            room.into_list(),
            spare.into_list(),
        )
    }
}
