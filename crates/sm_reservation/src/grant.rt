//! Grants: rights that must be spent.
ghost use Rattle.std.specs.Prelude.{◌≡◌, ◌↔◌, ◌+◌, ◌≤◌, IsTrue, ℕ, None, Some, max, IsOk, IfOk, OnOk, IfErr, OnErr};
ghost use Rattle.sm_reservation.specs.Rights.{no_rights};
ghost use Rattle.sm_reservation.specs.Hold.{minus, plus};
ghost use Rattle.sm_reservation.specs.HoldOf.{hold_of};
ghost use Rattle.sm_reservation.specs.Amounts.{Right, count};
ghost use Rattle.sm_reservation.specs.Capacity.{IsLess, IsMore, IsTraded, HasCapacity, HasCapacityAfter, IsWithin};
ghost use Rattle.sm_reservation.specs.Capacity.{key_counts};
ghost use Rattle.sm_reservation.specs.Key.{IsOrdered, IsPositive, AreU64};
ghost use Rattle.sm_reservation.specs.CanJoin.{CanJoin};
ghost use Rattle.sm_reservation.specs.Short.{first_short};
ghost use Rattle.sm_reservation.specs.Change.{portion_rights};
ghost use Rattle.sm_reservation.specs.Pool.{IsKnownHold};

use crate::change::Change;
use crate::hold::Hold;
use crate::parcel::Parcel;
use crate::right::{PlainCell, Short};
use crate::trades::{join_parcel, join_rights};
use sm_placement::Lead;
use sm_server::{ServerId, ShardId};
use std::alloc::{AllocError, Global};
use std::marker::Model;

/// Rights that must be spent: a grant can be neither copied nor dropped.
///
/// Rights come out of a pool, move between grants, and go back into the pool. All calls but `empty` and `reserve` take
/// no memory, and ask for capacity if a list gains a key that it did not have.
pub struct Grant {
    hold: Hold,
}

impl Model for Grant {
    ghost use Rattle.sm_reservation.specs.Capacity.{HoldModel};

    ghost Value = { HoldModel };

    ghost view = { λ grant. grant.hold };
}

impl Grant {
    /// Makes a grant of no rights, with a capacity of this many keys in each list.
    pub fn empty(alloc: Global, capacity: u32) -> Result<Grant, AllocError>
        ensures { IfOk result (λ grant. grant ≡ record { rights = no_rights; capacity = capacity }) }
    {
        Ok(Grant {
            hold: Hold::empty(alloc, capacity)?,
        })
    }

    /// Makes a grant of the rights of a hold.
    pub(crate) fn of_hold(hold: Hold) -> Grant
        ensures { result ≡ hold }
    {
        Grant { hold }
    }

    /// Returns the rights as a plain value, which spends the grant.
    pub(crate) fn into_hold(self) -> Hold
        ensures { result ≡ self }
    {
        let Grant { hold } = self;
        hold
    }

    /// Tells whether the grant holds nothing.
    pub fn is_empty(&self) -> bool
        ensures { IsTrue result ↔ (self.now.rights ≡ no_rights) }
    {
        self.hold.is_empty()
    }

    /// Ends a grant that holds nothing. Takes no memory.
    pub fn discard(self)
        requires { self.rights ≡ no_rights }
    {
        let _ = self.into_hold();
    }

    /// Ends a grant if it holds nothing. One that holds something comes back.
    pub fn try_discard(self) -> Result<(), Grant>
        ensures ok { OnOk result (self.rights ≡ no_rights) }
        ensures held { OnErr result (self.rights ≡ no_rights → ⊥) }
        ensures back { IfErr result (λ grant. grant ≡ self) }
    {
        if !self.is_empty() {
            return Err(self);
        }
        self.discard();
        Ok(())
    }

    /// States that the lists are in order, no amount is 0 or above what a u64 holds, and no list is longer than the
    /// capacity.
    pub fn rights_in_order(&self)
        ensures order { IsOrdered self.now.rights }
        ensures positive { IsPositive self.now.rights }
        ensures bounded { AreU64 self.now.rights }
        ensures within { IsWithin (key_counts self.now.rights) self.now.capacity }
    {
        self.hold.rights_in_order();
    }

    /// Returns the rights, to be read.
    pub fn hold(&self) -> &Hold
        ensures { result.now ≡ self.now }
    {
        &self.hold
    }

    /// Raises the capacity to this many keys in each list, if it is less.
    pub fn reserve(&mut self, capacity: u32) -> Result<(), AllocError>
        ensures rights { self.new.rights ≡ self.old.rights }
        ensures ok { OnOk result (self.new.capacity ≡ max self.old.capacity capacity) }
        ensures err { OnErr result (self.new.capacity ≡ self.old.capacity) }
        ensures there { capacity ≤ self.old.capacity → IsOk result }
    {
        self.hold.reserve(capacity)
    }

    /// Returns the state of a cell to which there is a right.
    pub fn cell(&self, shard: ShardId, server: ServerId) -> Option<PlainCell>
        ensures { result ≡ (hold_of self.now.rights).cells shard server }
    {
        self.hold.cell(shard, server)
    }

    /// Returns the lead and the listed server of a shard's crown.
    pub fn crown(&self, shard: ShardId) -> Option<(Lead, Option<ServerId>)>
        ensures { result ≡ (hold_of self.now.rights).crowns shard }
    {
        self.hold.crown(shard)
    }

    /// Returns the room of a server.
    pub fn room(&self, server: ServerId) -> u64
        ensures { result ≡ (hold_of self.now.rights).room server }
    {
        self.hold.room(server)
    }

    /// Returns the spare replicas of a shard.
    pub fn spare(&self, shard: ShardId) -> u64
        ensures { result ≡ (hold_of self.now.rights).spare shard }
    {
        self.hold.spare(shard)
    }

    /// Moves a parcel's rights into another grant.
    ///
    /// If there is too little of a key the first such key comes back, and neither grant changes.
    pub fn split(&mut self, into: &mut Grant, parcel: &Parcel) -> Result<(), Short>
        requires capacity { HasCapacity into.old parcel.now }
        requires fits { CanJoin (hold_of into.old.rights) (hold_of parcel.now) }
        ensures short { IfErr result (λ short. first_short (hold_of self.old.rights) parcel.now ≡ Some short) }
        ensures err { OnErr result ((self.new ≡ self.old) × (into.new ≡ into.old)) }
        ensures enough { OnOk result (first_short (hold_of self.old.rights) parcel.now ≡ None) }
        ensures taken { OnOk result (hold_of self.new.rights ≡ minus (hold_of self.old.rights) parcel.now) }
        ensures given { OnOk result (hold_of into.new.rights ≡ plus (hold_of into.old.rights) parcel.now) }
        ensures kept { OnOk result ((r : Right) → count (hold_of self.new.rights) r + count
            (hold_of into.new.rights) r ≡ count (hold_of self.old.rights) r + count (hold_of into.old.rights) r) }
        ensures less { OnOk result (IsLess self.old self.new parcel.now) }
        ensures more { OnOk result (IsMore into.old into.new parcel.now) }
        ensures below { OnOk result ((shards servers : ℕ) → IsKnownHold shards servers (hold_of self.old.rights)
            → IsKnownHold shards servers (hold_of parcel.now)) }
    {
        if let Some(short) = self.hold.first_short(parcel) {
            return Err(short);
        }
        self.hold.take(parcel);
        join_parcel(&mut into.hold, parcel);
        Ok(())
    }

    /// Takes all rights of another grant in.
    pub fn join(&mut self, grant: Grant)
        requires capacity { HasCapacity self.old grant.rights }
        requires fits { CanJoin (hold_of self.old.rights) (hold_of grant.rights) }
        ensures rights { hold_of self.new.rights ≡ plus (hold_of self.old.rights) grant.rights }
        ensures kept { (r : Right) → count (hold_of self.new.rights) r
            ≡ count (hold_of self.old.rights) r + count (hold_of grant.rights) r }
        ensures more { IsMore self.old self.new grant.rights }
    {
        let hold = grant.into_hold();
        join_rights(
            &mut self.hold,
            hold.cells(),
            hold.crowns(),
            hold.rooms(),
            hold.spares(),
        );
    }

    /// Puts in a parcel's rights, which come out of a pool.
    pub(crate) fn put(&mut self, parcel: &Parcel)
        requires capacity { HasCapacity self.old parcel.now }
        requires fits { CanJoin (hold_of self.old.rights) (hold_of parcel.now) }
        ensures rights { hold_of self.new.rights ≡ plus (hold_of self.old.rights) parcel.now }
        ensures sums { (r : Right) → count (hold_of self.new.rights) r
            ≡ count (hold_of self.old.rights) r + count (hold_of parcel.now) r }
        ensures more { IsMore self.old self.new parcel.now }
    {
        join_parcel(&mut self.hold, parcel);
    }

    /// Gives a parcel's rights up for those of another, together with the call that it is for.
    pub fn trade(&mut self, out: &Parcel, got: &Parcel)
        requires held { first_short (hold_of self.old.rights) out.now ≡ None }
        requires fits { CanJoin (minus (hold_of self.old.rights) out.now) (hold_of got.now) }
        requires capacity { HasCapacityAfter self.old out.now got.now }
        ensures rights { hold_of self.new.rights ≡ plus (minus (hold_of self.old.rights) out.now) got.now }
        ensures changed { (r : Right) → count (hold_of self.new.rights) r + count (hold_of out.now) r
            ≡ count (hold_of self.old.rights) r + count (hold_of got.now) r }
        ensures sizes { IsTraded self.old self.new out.now got.now }
    {
        self.hold.take(out);
        join_parcel(&mut self.hold, got);
    }

    /// Gives the rights of a small change up for those that it gets, together with the call that it is for.
    pub fn exchange(&mut self, change: &Change)
        requires held { first_short (hold_of self.old.rights) (portion_rights change.now.out) ≡ None }
        requires fits { CanJoin (minus (hold_of self.old.rights) (portion_rights change.now.out))
            (hold_of (portion_rights change.now.got)) }
        requires capacity { HasCapacityAfter self.old (portion_rights change.now.out) (portion_rights change.now.got) }
        ensures rights { hold_of self.new.rights ≡ plus
            (minus (hold_of self.old.rights) (portion_rights change.now.out)) (portion_rights change.now.got) }
        ensures changed { (r : Right) → count (hold_of self.new.rights) r + count
            (hold_of (portion_rights change.now.out)) r
            ≡ count (hold_of self.old.rights) r + count (hold_of (portion_rights change.now.got)) r }
        ensures sizes { IsTraded self.old self.new (portion_rights change.now.out) (portion_rights change.now.got) }
    {
        self.hold.exchange(change);
    }
}
