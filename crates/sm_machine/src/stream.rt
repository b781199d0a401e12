//! A stream that was begun: how far it has come, and what it holds.
ghost use Rattle.std.specs.Prelude.{◌≡◌, ◌<◌, Some, None, true, false, Ok, IfSome, length};
ghost use Rattle.sm_reservation.specs.Hold.{minus, plus};
ghost use Rattle.sm_reservation.specs.HoldOf.{hold_of};
ghost use Rattle.sm_reservation.specs.Capacity.{HasCapacity};
ghost use Rattle.sm_reservation.specs.CanJoin.{CanJoin};
ghost use Rattle.sm_reservation.specs.Short.{first_short};
ghost use Rattle.sm_reservation.specs.Change.{portion_rights};
ghost use Rattle.sm_reservation.specs.Rights.{no_rights};
ghost use Rattle.sm_reservation.specs.Amounts.{count};
ghost use Rattle.sm_reservation.specs.Pool.{pool_hold, SameSize};
ghost use Rattle.sm_placement.specs.Setup.{sizes_of};
ghost use Rattle.sm_plan_code.specs.Instr.{shard_of, IsOwn};
ghost use Rattle.sm_plan_code.specs.Table.{exchange_of};
ghost use Rattle.sm_protocol.specs.State.{fresh};
ghost use Rattle.sm_machine.specs.Trade.{CanTrade, IsTradedBy};
ghost use Rattle.sm_machine.specs.Starts.{CanFillAt, IsFilledBy};
ghost use Rattle.sm_machine.specs.Returns.{held_in_course, CanTakeBack, HasTakenBack};
ghost use Rattle.sm_machine.specs.Course.{hold_in, rights_in, capacity_in, HasCapacityIn, HasCapacityAfterIn, IsCourse};
ghost use Rattle.sm_machine.specs.Course.{IsGrantInOrder};

use crate::progress::Progress;
use sm_placement::Config;
use sm_plan_code::{Instr, change_of};
use sm_reservation::{Change, Grant, Parcel, Pool};
use std::marker::Model;

/// Gives a grant back to the pool, if there is one. Takes no memory.
pub(crate) fn give_back(grant: Option<Grant>, pool: &mut Pool)
    requires { CanTakeBack pool.old (count (hold_in grant)) }
    ensures { HasTakenBack pool.old pool.new (count (hold_in grant)) }
{
    match grant {
        Some(grant) => pool.give_back(grant),
        None => {}
    }
}

/// A stream that was begun.
pub(crate) struct Course {
    progress: Progress,
    /// The log's length behind its last step; None before its first.
    since: Option<u32>,
    /// The rights that it holds; None once it has finished.
    grant: Option<Grant>,
}

impl Model for Course {
    ghost use Rattle.sm_machine.specs.Course.{CourseModel, IsCourse};

    ghost Value = { CourseModel };

    ghost view = { λ c. record { progress = c.progress; since = c.since; grant = c.grant } };

    ghost invariant = { λ c. IsCourse (record { progress = c.progress; since = c.since; grant = c.grant }) };
}

impl Course {
    /// Makes a stream that has made nothing, with what it holds.
    pub fn new(grant: Grant) -> Course
        ensures { result ≡ record { progress = fresh; since = None; grant = Some grant } }
    {
        Course {
            progress: Progress::fresh(),
            since: None,
            grant: Some(grant),
        }
    }

    /// Returns how far it has come.
    pub fn progress(&self) -> Progress
        ensures value { result ≡ self.now.progress }
        ensures course { IsCourse self.now }
    {
        self.progress
    }

    /// Returns the log's length behind its last step, None before its first.
    pub fn since(&self) -> Option<u32>
        ensures { result ≡ self.now.since }
    {
        self.since
    }

    /// Sets the log's length behind its last step.
    pub fn set_since(&mut self, since: u32)
        ensures { self.new ≡ record self.old { since = Some since } }
    {
        self.since = Some(since);
    }

    /// States that what it holds is in order.
    pub fn in_order(&self)
        ensures order { IsGrantInOrder self.now.grant }
        ensures there { IsCourse self.now }
    {
        match &self.grant {
            Some(grant) => grant.rights_in_order(),
            None => {}
        }
    }

    /// Sets its progress.
    pub fn set_progress(&mut self, progress: Progress)
        requires { progress.done ≡ self.old.progress.done }
        ensures { self.new ≡ record self.old { progress = progress } }
    {
        self.progress = progress;
    }

    /// Gives the rights of a change up for those that it gets.
    fn exchange(&mut self, change: &Change)
        requires running { self.old.progress.done ≡ false }
        requires held { first_short (hold_in self.old.grant) (portion_rights change.now.out) ≡ None }
        requires fits { CanJoin (minus (hold_in self.old.grant) (portion_rights change.now.out))
            (hold_of (portion_rights change.now.got)) }
        requires capacity { HasCapacityAfterIn self.old.grant (portion_rights change.now.out)
            (portion_rights change.now.got) }
        ensures others { self.new ≡ record self.old { grant = self.new.grant } }
        ensures hold { hold_in self.new.grant ≡ plus
            (minus (hold_in self.old.grant) (portion_rights change.now.out)) (portion_rights change.now.got) }
        ensures capacity { capacity_in self.new.grant ≡ capacity_in self.old.grant }
    {
        match &mut self.grant {
            Some(grant) => grant.exchange(change),
            None => unreachable!(),
        }
    }

    /// Gives up what an instruction needs for what it gives: its line of the table of rights, which comes back.
    pub fn trade(&mut self, config: &Config, instr: &Instr) -> Change
        requires running { self.old.progress.done ≡ false }
        requires known { IfSome (shard_of instr.now) (λ s. s < length config.now.shards) }
        requires own { IsOwn instr.now }
        requires can { CanTrade (sizes_of config.now) instr.now self.old.grant }
        ensures others { self.new ≡ record self.old { grant = self.new.grant } }
        ensures traded { IsTradedBy (sizes_of config.now) instr.now self.old.grant self.new.grant }
        ensures change { result ≡ exchange_of (sizes_of config.now) instr.now (hold_in self.old.grant) }
    {
        let change = self.change_of(config, instr);
        self.exchange(&change);
        change
    }

    /// Returns the exchange that an instruction makes.
    fn change_of(&self, config: &Config, instr: &Instr) -> Change
        requires running { self.now.progress.done ≡ false }
        requires known { IfSome (shard_of instr.now) (λ s. s < length config.now.shards) }
        requires own { IsOwn instr.now }
        requires can { CanTrade (sizes_of config.now) instr.now self.now.grant }
        ensures change { result ≡ exchange_of (sizes_of config.now) instr.now (hold_in self.now.grant) }
        ensures held { first_short (hold_in self.now.grant) (portion_rights result.out) ≡ None }
    {
        match &self.grant {
            Some(grant) => match change_of(config, instr, grant.hold()) {
                Ok(change) => change,
                Err(_) => unreachable!(),
            },
            None => unreachable!(),
        }
    }

    /// Gives a parcel's rights up to another grant.
    pub fn split(&mut self, into: &mut Grant, parcel: &Parcel)
        requires running { self.old.progress.done ≡ false }
        requires held { first_short (hold_in self.old.grant) parcel.now ≡ None }
        requires capacity { HasCapacity into.old parcel.now }
        requires fits { CanJoin (hold_of into.old.rights) (hold_of parcel.now) }
        ensures others { self.new ≡ record self.old { grant = self.new.grant } }
        ensures left { hold_in self.new.grant ≡ minus (hold_in self.old.grant) parcel.now }
        ensures capacity { capacity_in self.new.grant ≡ capacity_in self.old.grant }
        ensures given { hold_of into.new.rights ≡ plus (hold_of into.old.rights) parcel.now }
    {
        match &mut self.grant {
            Some(grant) => match grant.split(into, parcel) {
                Ok(()) => {}
                Err(_) => unreachable!(),
            },
            None => unreachable!(),
        }
    }

    /// Takes all rights of another grant in.
    pub fn join(&mut self, other: Grant)
        requires running { self.old.progress.done ≡ false }
        requires fits { CanJoin (hold_in self.old.grant) (hold_of other.rights) }
        requires capacity { HasCapacityIn self.old.grant other.rights }
        ensures others { self.new ≡ record self.old { grant = self.new.grant } }
        ensures hold { hold_in self.new.grant ≡ plus (hold_in self.old.grant) other.rights }
        ensures capacity { capacity_in self.new.grant ≡ capacity_in self.old.grant }
    {
        match &mut self.grant {
            Some(grant) => grant.join(other),
            None => unreachable!(),
        }
    }

    /// Ends the stream, and returns what it held.
    pub fn end(&mut self) -> Grant
        requires { self.old.progress.done ≡ false }
        ensures grant { self.old.grant ≡ Some result }
        ensures after { self.new ≡ record self.old
            { progress = record self.old.progress { done = true }; grant = None } }
    {
        self.progress = self.progress.ended();
        match self.grant.take() {
            Some(grant) => grant,
            None => unreachable!(),
        }
    }

    /// Ends a stream that holds nothing.
    pub fn discard(self)
        requires { rights_in self.grant ≡ no_rights }
    {
        let Course {
            progress: _,
            since: _,
            grant,
        } = self;
        match grant {
            Some(grant) => grant.discard(),
            None => {}
        }
    }

    /// Takes what it declares out of a pool. Takes no memory.
    pub fn fill(&mut self, pool: &mut Pool, parcel: &Parcel)
        requires { CanFillAt (pool_hold pool.old) self.old parcel.now }
        ensures filled { IsFilledBy parcel.now self.old self.new }
        ensures taken { pool_hold pool.new ≡ minus (pool_hold pool.old) parcel.now }
        ensures size { SameSize pool.old pool.new }
    {
        match &mut self.grant {
            Some(grant) => match pool.fill(grant, parcel) {
                Ok(()) => {}
                Err(_) => unreachable!(),
            },
            None => unreachable!(),
        }
    }

    /// Ends the stream: what it holds goes back to the pool. Takes no memory.
    pub fn close(self, pool: &mut Pool)
        requires { CanTakeBack pool.old (λ r. held_in_course r self) }
        ensures { HasTakenBack pool.old pool.new (λ r. held_in_course r self) }
    {
        let Course {
            progress: _,
            since: _,
            grant,
        } = self;
        give_back(grant, pool);
    }
}
