//! The protocol's promises about the machine that a guard lends.
ghost use Rattle.sm_protocol.specs.Safe.{IsSafe, SomeCanStep, SomeCanStepOrSpent};
ghost use Rattle.sm_protocol.specs.Laws.{IsReached, HasNoLost, NextIsServed, ExecutedServes};
ghost use Rattle.sm_executor.specs.Views.{state_in};

use crate::board::Guard;
use crate::names::Naming;
use std::sync::ledger::Ledger;

impl<'b, A: Ledger, B: Ledger, C: Ledger, N: Naming> Guard<'b, A, B, C, N> {
    /// States that events led to the state of the locked machine, that no event that fits is one of which a call is
    /// refused, and that the state is safe. Some stream of each plan that isn't done can step, or one that hasn't
    /// finished has spent its allowance. If no unfinished stream has a lost call in the log, some stream can step. A
    /// request is executed only by the one server that serves its shard.
    pub fn is_safe(&self)
        ensures reached { IsReached self.now.machine.placement.setup (state_in self.now) }
        ensures served { NextIsServed (state_in self.now) }
        ensures safe { IsSafe (state_in self.now) }
        ensures onward { SomeCanStepOrSpent (state_in self.now) }
        ensures unlost { HasNoLost (state_in self.now) → SomeCanStep (state_in self.now) }
        ensures executed { ExecutedServes (state_in self.now) }
    {
        let machine = self.machine();
        machine.is_reached();
        machine.is_safe();
    }
}
