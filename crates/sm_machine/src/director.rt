//! A machine under one who has all rights that it gives away.
ghost use Rattle.std.specs.Prelude.{◌≡◌, ◌≢◌, ◌≤◌, ◌<◌, ◌↔◌, ◌⊎◌, IfOk, OnOk, IfErr, OnErr, length};
ghost use Rattle.sm_placement.specs.Setup.{sizes_of};
ghost use Rattle.sm_placement.specs.Place.{down_count};
ghost use Rattle.sm_placement.specs.Layout.{place_of};
ghost use Rattle.sm_placement.specs.Lead.{IsSettled};
ghost use Rattle.sm_protocol.specs.declared.event.BeginFault.TheVariants as fault;
ghost use Rattle.sm_protocol.specs.declared.event.Played.TheVariants as played;
ghost use Rattle.sm_protocol.specs.Happens as happening;
ghost use Rattle.sm_protocol.specs.State.{opened};
ghost use Rattle.sm_protocol.specs.Log.{named};
ghost use Rattle.sm_machine.specs.State.{state_of};
ghost use Rattle.sm_machine.specs.Director.{CanDirect, IsDirected, IsDirectedIf};
ghost use Rattle.sm_machine.specs.declared.open_fault.OpenFault.TheVariants.{LogFull};
ghost use Rattle.sm_plan_code.specs.declared.limits.TheConstants.{MOST_PLACES};

use crate::machine::Machine;
use crate::open_fault::OpenFault;
use crate::permit::close_permits;
use crate::ready_plan::ReadyPlan;
use crate::token::close_tokens;
use sm_placement::Placement;
use sm_protocol::{BeginFault, Event, Played};
use std::alloc::Global;
use std::marker::Model;

/// A machine with all rights that it gives away: the token of each stream, the permit of each server that is down, and
/// the ticket of each pass. So what happens is asked for by names alone, and nothing is kept beside the machine. Nobody
/// halts it.
pub struct Director {
    machine: Machine,
}

impl Model for Director {
    ghost use Rattle.std.specs.Prelude.{◌≡◌, false};
    ghost use Rattle.sm_machine.specs.Machine.{MachineModel};
    ghost use Rattle.sm_machine.specs.State.{state_of};

    ghost Value = { MachineModel };

    ghost view = { λ d. d.machine };

    ghost invariant = { λ d. (state_of d.machine).halted ≡ false };
}

impl Director {
    /// Opens a machine over a settled placement, as `Machine::open` does.
    pub fn open(
        alloc: Global,
        placement: Placement,
        log_room: u32,
    ) -> Result<Director, (Placement, OpenFault)>
        requires { IsSettled (sizes_of placement.setup) (place_of placement) }
        ensures state { IfOk result (λ d. state_of d
            ≡ opened (sizes_of placement.setup) (place_of placement) log_room) }
        ensures setup { IfOk result (λ d. d.placement.setup ≡ placement.setup) }
        ensures fits { OnOk result ((log_room ≤ MOST_PLACES)
            × (down_count (sizes_of placement.setup) (place_of placement) ≤ log_room)) }
        ensures back { IfErr result (λ e. e.0 ≡ placement) }
        ensures full { IfErr result (λ e. (e.1 ≡ LogFull) ↔
            ((MOST_PLACES < log_room) ⊎ (log_room < down_count (sizes_of placement.setup)
            (place_of placement)))) }
    {
        let (machine, permits) = Machine::open(alloc, placement, log_room)?;
        close_permits(permits);
        Ok(Director { machine })
    }

    /// Returns the machine.
    pub fn machine(&self) -> &Machine
        ensures { result.now ≡ self.now }
    {
        &self.machine
    }

    /// Plays an event, for which all rights are there. An event that names nothing is Unknown, as is the end of a
    /// restart of an unknown server, and so is a start: `start` makes one.
    ///
    /// Takes no memory.
    pub fn play(&mut self, event: Event) -> Played
        requires { CanDirect (state_of self.old).sizes event }
        ensures { IsDirectedIf self.old (named (state_of self.old) event) result self.new }
    {
        self.machine.play_named(&event)
    }

    /// Starts a plan that is ready and was checked for the machine's configuration. It gets the next number. If it does
    /// not start, it comes back ready.
    pub fn start(&mut self, ready: ReadyPlan) -> Result<u32, (ReadyPlan, BeginFault)>
        requires { ready.setup ≡ self.old.placement.setup }
        ensures started { IfOk result (λ number. IsDirected self.old (happening.Begin ready.plan)
            (played.Begun number) self.new) }
        ensures latest { IfOk result (λ number. number ≡ length (state_of self.old).plans) }
        ensures refused { IfErr result (λ e. IsDirected self.old (happening.Begin ready.plan)
            (played.NotBegun e.1) self.new) }
        ensures memory { IfErr result (λ e. e.1 ≢ fault.NoMemory) }
        ensures unchanged { OnErr result (self.new ≡ self.old) }
        ensures back { IfErr result (λ e. e.0 ≡ ready) }
    {
        let number = self.machine.plan_count();
        match self.machine.start(ready) {
            Ok(tokens) => {
                close_tokens(tokens);
                Ok(number as u32)
            }
            Err((ready, why)) => Err((ready, why)),
        }
    }

    /// Ends the machine, with the rights to go on, and answers its placement as it stands. Takes no memory.
    pub fn give_up(self) -> Placement
        ensures place { place_of result ≡ (state_of self).place }
        ensures setup { result.setup ≡ self.placement.setup }
    {
        let Director { machine } = self;
        machine.into_placement()
    }
}
