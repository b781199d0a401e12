//! Signals of plans that were begun.
ghost use Rattle.std.specs.Prelude.{◌≡◌, ◌<◌, ◌-◌, not, is_some, Some, None, true, false};
ghost use Rattle.sm_reservation.specs.Hold.{minus, plus};
ghost use Rattle.sm_reservation.specs.HoldOf.{hold_of};
ghost use Rattle.sm_reservation.specs.CanJoin.{CanJoin};
ghost use Rattle.sm_reservation.specs.Short.{first_short};
ghost use Rattle.sm_reservation.specs.Rights.{no_rights};
ghost use Rattle.sm_machine.specs.Course.{hold_in, rights_in, capacity_in, HasCapacityIn, IsGrantInOrder};
ghost use Rattle.sm_machine.specs.Returns.{held_in_signal, CanTakeBack, HasTakenBack};

use crate::stream::{Course, give_back};
use sm_reservation::{Grant, Parcel, Pool};
use std::marker::Model;

/// A signal of a plan that was begun.
pub(crate) struct Carried {
    posted: bool,
    /// The rights that it carries; None once it was awaited.
    grant: Option<Grant>,
}

impl Model for Carried {
    ghost use Rattle.std.specs.Prelude.{is_none};
    ghost use Rattle.sm_machine.specs.Begun.{CarriedModel};

    ghost Value = { CarriedModel };

    ghost view = { λ c. record { mark = record { posted = c.posted; awaited = is_none c.grant }; grant = c.grant } };
}

impl Carried {
    /// Makes a signal that was not posted, with an empty grant that has capacity for its parcel.
    pub fn new(grant: Grant) -> Carried
        ensures { result ≡ record { mark = record { posted = false; awaited = false }; grant = Some grant } }
    {
        Carried {
            posted: false,
            grant: Some(grant),
        }
    }

    /// States that what it carries is in order.
    pub fn in_order(&self)
        ensures order { IsGrantInOrder self.now.grant }
        ensures there { is_some self.now.grant ≡ not self.now.mark.awaited }
    {
        match &self.grant {
            Some(grant) => grant.rights_in_order(),
            None => {}
        }
    }

    /// Tells whether the signal was posted.
    pub fn is_posted(&self) -> bool
        ensures { result ≡ self.now.mark.posted }
    {
        self.posted
    }

    /// Posts the signal: a stream gives its parcel up.
    pub fn post(&mut self, course: &mut Course, parcel: &Parcel)
        requires running { course.old.progress.done ≡ false }
        requires there { self.old.mark.awaited ≡ false }
        requires held { first_short (hold_in course.old.grant) parcel.now ≡ None }
        requires fits { CanJoin (hold_in self.old.grant) (hold_of parcel.now) }
        requires capacity { HasCapacityIn self.old.grant parcel.now }
        ensures others { self.new ≡ record { mark = record self.old.mark { posted = true }; grant = self.new.grant } }
        ensures hold { hold_in self.new.grant ≡ plus (hold_in self.old.grant) parcel.now }
        ensures course { course.new ≡ record course.old { grant = course.new.grant } }
        ensures left { hold_in course.new.grant ≡ minus (hold_in course.old.grant) parcel.now }
        ensures capacity { capacity_in course.new.grant ≡ capacity_in course.old.grant }
    {
        self.posted = true;
        match &mut self.grant {
            Some(grant) => course.split(grant, parcel),
            None => unreachable!(),
        }
    }

    /// Takes the signal: a stream gets its parcel.
    pub fn wait(&mut self, course: &mut Course)
        requires running { course.old.progress.done ≡ false }
        requires there { self.old.mark.awaited ≡ false }
        requires fits { CanJoin (hold_in course.old.grant) (hold_in self.old.grant) }
        requires capacity { HasCapacityIn course.old.grant (rights_in self.old.grant) }
        ensures value { self.new ≡ record { mark = record self.old.mark { awaited = true }; grant = None } }
        ensures course { course.new ≡ record course.old { grant = course.new.grant } }
        ensures hold { hold_in course.new.grant ≡ plus (hold_in course.old.grant) (rights_in self.old.grant) }
        ensures capacity { capacity_in course.new.grant ≡ capacity_in course.old.grant }
    {
        match self.grant.take() {
            Some(grant) => course.join(grant),
            None => unreachable!(),
        }
    }

    /// Ends a signal that carries nothing.
    pub fn discard(self)
        requires { rights_in self.grant ≡ no_rights }
    {
        let Carried { posted: _, grant } = self;
        match grant {
            Some(grant) => grant.discard(),
            None => {}
        }
    }

    /// Ends the signal: what it carries goes back to the pool. Takes no memory.
    pub fn close(self, pool: &mut Pool)
        requires { CanTakeBack pool.old (λ r. held_in_signal r self) }
        ensures { HasTakenBack pool.old pool.new (λ r. held_in_signal r self) }
    {
        let Carried { posted: _, grant } = self;
        give_back(grant, pool);
    }
}
