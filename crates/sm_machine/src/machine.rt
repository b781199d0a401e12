//! Machines.
ghost use Rattle.std.specs.Prelude.{◌≡◌, ◌≢◌, ◌≤◌, ◌<◌, ◌↔◌, ◌⊎◌, IfOk, OnOk, IfErr, OnErr, length, true, false, ◌∷◌};
ghost use Rattle.std.specs.Prelude.{[], if◌then◌else◌, ◌+◌, Some};
ghost use Rattle.sm_placement.specs.Place.{down_count};
ghost use Rattle.sm_placement.specs.Lead.{IsSettled};
ghost use Rattle.sm_protocol.specs.State.{opened};
ghost use Rattle.sm_protocol.specs.Ticket.{is_open_ticket};
ghost use Rattle.sm_machine.specs.declared.open_fault.OpenFault.TheVariants.{LogFull};
ghost use Rattle.sm_placement.specs.Sums.{bit};
ghost use Rattle.sm_placement.specs.Setup.{sizes_of};
ghost use Rattle.sm_placement.specs.Layout.{place_of};
ghost use Rattle.sm_machine.specs.Permits.{filter_below};
ghost use Rattle.sm_protocol.specs.Steps.{Answered};
ghost use Rattle.sm_protocol.specs.Happens as happening;
ghost use Rattle.sm_protocol.specs.Happens.{happens};
ghost use Rattle.sm_protocol.specs.Safe.{IsSafe, SomeCanStep, SomeCanStepOrSpent};
ghost use Rattle.sm_protocol.specs.Laws.{IsReached, HasNoLost, NextIsServed, ExecutedServes};
ghost use Rattle.sm_machine.specs.State.{whole_of, state_of};
ghost use Rattle.sm_machine.specs.Played.{played_of};
ghost use Rattle.sm_protocol.specs.declared.event.BeginFault.TheVariants as fault;
ghost use Rattle.sm_protocol.specs.declared.event.Played.TheVariants as played;
ghost use Rattle.sm_machine.specs.Starts.{AreTokens};
ghost use Rattle.sm_machine.specs.Started.{IsNotStarted};
ghost use Rattle.sm_machine.specs.Requested.{played_by, tickets_in};
ghost use Rattle.sm_machine.specs.Restarted.{restart_of, approval_of};
ghost use Rattle.sm_protocol.specs.Hand.{tickets_of, spends};
ghost use Rattle.sm_machine.specs.Losses.{refill_answer, is_lost_answer, IsStepOver};
ghost use Rattle.sm_machine.specs.Retired.{has_ended, steps_at_end, made_in};
ghost use Rattle.sm_plan_code.specs.declared.limits.TheConstants.{MOST_CALLS, MOST_PLACES};

mod named;
mod readers;

use crate::answer::{Answer, answer_to, answer_with};
use crate::engine::Engine;
use crate::link::Link;
use crate::open_fault::OpenFault;
use crate::permit::{Permit, close_permits, permits_of};
use crate::ready_plan::{ReadyPlan, make_ready};
use crate::rooms::Rooms;
use crate::step::Step;
use crate::ticket::{Ticket, close_tickets};
use crate::token::{StreamToken, close_tokens};
use sm_placement::Placement;
use sm_plan_code::MOST_PLACES;
use sm_protocol::{BeginFault, Passage, RefillFault};
use sm_server::{ServerId, ShardId};
use sm_task_controller::Denied;
use sm_verifier::Checked;
use std::alloc::Global;
use std::marker::Model;

/// Plans that run over a placement, with the log of what has happened.
///
/// Events led to its state by the protocol, and nobody has a right that is not the state's.
pub struct Machine {
    engine: Engine,
}

impl Model for Machine {
    ghost use Rattle.sm_machine.specs.Machine.{MachineModel};
    ghost use Rattle.sm_machine.specs.State.{whole_of};
    ghost use Rattle.sm_machine.specs.Working.{IsWorking};

    ghost Value = { MachineModel };

    ghost view = { λ m. m.engine };

    ghost invariant = { λ m. IsWorking (whole_of m.engine) };
}

impl Machine {
    /// Opens a machine over a settled placement, with a log of `log_room` places: at most 1,048,576, and at least one
    /// for each server that is down. There is a permit for each of those, by their numbers. At a fault the placement
    /// comes back.
    pub fn open(
        alloc: Global,
        placement: Placement,
        log_room: u32,
    ) -> Result<(Machine, Vec<Permit>), (Placement, OpenFault)>
        requires { IsSettled (sizes_of placement.setup) (place_of placement) }
        ensures state { IfOk result (λ r. state_of r.0
            ≡ opened (sizes_of placement.setup) (place_of placement) log_room) }
        ensures setup { IfOk result (λ r. r.0.placement.setup ≡ placement.setup) }
        ensures permits { IfOk result (λ r. r.1.items
            ≡ filter_below (place_of placement).down (length placement.setup.servers)) }
        ensures fits { OnOk result ((log_room ≤ MOST_PLACES)
            × (down_count (sizes_of placement.setup) (place_of placement) ≤ log_room)) }
        ensures back { IfErr result (λ e. e.0 ≡ placement) }
        ensures full { IfErr result (λ e. (e.1 ≡ LogFull) ↔
            ((MOST_PLACES < log_room) ⊎ (log_room < down_count (sizes_of placement.setup)
            (place_of placement)))) }
    {
        let servers = placement.config().server_count();
        if log_room > MOST_PLACES || log_room < placement.down_count() {
            return Err((placement, OpenFault::LogFull));
        }
        let rooms = match Rooms::of(alloc, &placement, log_room) {
            Ok(rooms) => rooms,
            Err(_) => return Err((placement, OpenFault::NoMemory)),
        };
        let empty = match Vec::with_capacity(alloc, servers as usize) {
            Ok(empty) => empty,
            Err(_) => return Err((placement, OpenFault::NoMemory)),
        };
        let permits = permits_of(empty, &placement);
        let engine = Engine::of(alloc, placement, rooms, log_room);
        Ok((Machine { engine }, permits))
    }

    /// States that events led to the state of every machine from an opening of its own configuration, so that all laws
    /// of the protocol hold of it.
    pub fn is_reached(&self)
        ensures { IsReached self.now.placement.setup (state_of self.now) }
    {
        let _ = &self.engine;
    }

    /// States that no event that fits is one of which a call is refused, and the state is safe. Some stream of each
    /// plan that isn't done can step, or one that hasn't finished has spent its allowance. If no unfinished stream has
    /// a lost call in the log, some stream can step. A request is executed only by the one server that serves its
    /// shard.
    pub fn is_safe(&self)
        ensures served { NextIsServed (state_of self.now) }
        ensures safe { IsSafe (state_of self.now) }
        ensures onward { SomeCanStepOrSpent (state_of self.now) }
        ensures unlost { HasNoLost (state_of self.now) → SomeCanStep (state_of self.now) }
        ensures executed { ExecutedServes (state_of self.now) }
    {
        let _ = &self.engine;
    }

    /// Begins a plan that was checked for the machine's configuration: its streams have what they declare, and each has
    /// a token. If it does not begin, the checked plan comes back, and nothing changes.
    pub fn begin(
        &mut self,
        alloc: Global,
        checked: Checked,
    ) -> Result<Vec<StreamToken>, (Checked, BeginFault)>
        requires { checked.setup ≡ self.old.placement.setup }
        ensures answer { OnOk result ((happens (state_of self.old) (happening.Begin checked.plan)).0
            ≡ Answered (played.Begun (length (state_of self.old).plans))) }
        ensures state { OnOk result (state_of self.new
            ≡ (happens (state_of self.old) (happening.Begin checked.plan)).1) }
        ensures tokens { IfOk result (λ tokens. AreTokens (length (state_of self.old).plans)
            (length checked.plan.streams) tokens.items) }
        ensures fault { IfErr result (λ e. e.1 ≢ fault.NoMemory → IsNotStarted (state_of self.old) checked.plan e.1) }
        ensures unchanged { OnErr result (self.new ≡ self.old) }
        ensures back { IfErr result (λ e. e.0 ≡ checked) }
        ensures setup { self.new.placement.setup ≡ self.old.placement.setup }
    {
        let ready = match make_ready(alloc, checked) {
            Ok(ready) => ready,
            Err((checked, _)) => return Err((checked, BeginFault::NoMemory)),
        };
        match self.start(ready) {
            Ok(tokens) => Ok(tokens),
            Err((ready, why)) => Err((ready.back(), why)),
        }
    }

    /// Starts a plan that is ready and was checked for the machine's configuration: its streams have what they declare,
    /// and each has a token. If it does not start, it comes back ready, and nothing changes.
    ///
    /// Takes no memory.
    pub fn start(&mut self, ready: ReadyPlan) -> Result<Vec<StreamToken>, (ReadyPlan, BeginFault)>
        requires { ready.setup ≡ self.old.placement.setup }
        ensures answer { OnOk result ((happens (state_of self.old) (happening.Begin ready.plan)).0
            ≡ Answered (played.Begun (length (state_of self.old).plans))) }
        ensures state { OnOk result (state_of self.new ≡ (happens (state_of self.old) (happening.Begin ready.plan)).1) }
        ensures tokens { IfOk result (λ tokens. AreTokens (length (state_of self.old).plans)
            (length ready.plan.streams) tokens.items) }
        ensures fault { IfErr result (λ e. IsNotStarted (state_of self.old) ready.plan e.1) }
        ensures memory { IfErr result (λ e. e.1 ≢ fault.NoMemory) }
        ensures unchanged { OnErr result (self.new ≡ self.old) }
        ensures back { IfErr result (λ e. e.0 ≡ ready) }
        ensures setup { self.new.placement.setup ≡ self.old.placement.setup }
    {
        match self.engine.start_by(ready) {
            Ok((_, tokens)) => Ok(tokens),
            Err((ready, why)) => Err((ready, why)),
        }
    }

    /// Makes a stream's next step, if it can make one: its next instruction, or its end. No call is refused.
    ///
    /// Takes no memory.
    pub fn step(&mut self, token: &mut StreamToken) -> Step
        ensures answer { (happens (state_of self.old) (happening.Step token.old)).0 ≡ Answered (played_of result) }
        ensures state { state_of self.new ≡ (happens (state_of self.old) (happening.Step token.old)).1 }
        ensures token { token.new ≡ token.old }
        ensures setup { self.new.placement.setup ≡ self.old.placement.setup }
    {
        self.engine.step_by(token.id(), Passage::Through)
    }

    /// Makes a stream's next step over a link. If the step tries a call, the link is asked once, under the number of
    /// the try, and otherwise not at all. The answer is Lost exactly if the link's count of losses has risen.
    ///
    /// Takes no memory.
    pub fn step_over<L: Link>(&mut self, token: &mut StreamToken, link: &mut L) -> Step
        ensures over { IsStepOver L.asked link.old link.new (state_of self.old) token.old (played_of result)
            (state_of self.new) }
        ensures count { L.losses link.new ≡ L.losses link.old + bit (is_lost_answer (played_of result)) }
        ensures token { token.new ≡ token.old }
        ensures setup { self.new.placement.setup ≡ self.old.placement.setup }
    {
        let id = token.id();
        if !self.engine.makes_try(id) {
            return self.engine.step_by(id, Passage::Through);
        }
        let number = self.engine.try_number(id);
        let passage = link.passage(id, number);
        self.engine.step_by(id, passage)
    }

    /// Raises a stream's allowance of tries, by 262,144 at most at once.
    ///
    /// Takes no memory.
    pub fn refill(&mut self, token: &mut StreamToken, more: u32) -> Result<(), RefillFault>
        requires { more ≤ MOST_CALLS }
        ensures answer { (happens (state_of self.old) (happening.Refill token.old more)).0
            ≡ Answered (refill_answer result) }
        ensures state { state_of self.new ≡ (happens (state_of self.old) (happening.Refill token.old more)).1 }
        ensures token { token.new ≡ token.old }
        ensures setup { self.new.placement.setup ≡ self.old.placement.setup }
    {
        self.engine.refill(token.id(), more)
    }

    /// Asks a server for a shard.
    ///
    /// Takes no memory.
    pub fn arrive(&mut self, shard: ShardId, server: ServerId) -> Answer
        requires shard { shard < (state_of self.old).sizes.shards }
        requires server { server < (state_of self.old).sizes.servers }
        ensures answer { (happens (state_of self.old) (happening.Arrive shard server)).0 ≡ Answered (played_by result) }
        ensures state { state_of self.new ≡ (happens (state_of self.old) (happening.Arrive shard server)).1 }
        ensures tickets { tickets_in result ≡ tickets_of shard server (played_by result) }
        ensures setup { self.new.placement.setup ≡ self.old.placement.setup }
    {
        let reply = self.arrive_named(shard, server);
        answer_to(shard, server, reply)
    }

    /// Brings a request that was passed on to the server that it was passed to. Its ticket is spent by an answer of the
    /// server, and otherwise comes back.
    ///
    /// Takes no memory.
    pub fn pass_on(&mut self, ticket: Ticket) -> Answer
        ensures answer { (happens (state_of self.old) (happening.PassOn ticket)).0 ≡ Answered (played_by result) }
        ensures state { state_of self.new ≡ (happens (state_of self.old) (happening.PassOn ticket)).1 }
        ensures tickets { tickets_in result ≡ (if spends
            (played_by result) then tickets_of ticket.shard ticket.target (played_by result) else ticket ∷ []) }
        ensures setup { self.new.placement.setup ≡ self.old.placement.setup }
    {
        let reply = self.pass_on_named(ticket.parts());
        answer_with(ticket, reply)
    }

    /// Decides, for the cluster manager, whether a server may be restarted. If it may, it is down then, and the permit
    /// ends the restart.
    ///
    /// Takes no memory.
    pub fn approve(&mut self, server: ServerId) -> Result<Permit, Denied>
        requires { server < (state_of self.old).sizes.servers }
        ensures answer { (happens (state_of self.old) (happening.Approve server)).0 ≡ Answered (approval_of result) }
        ensures state { state_of self.new ≡ (happens (state_of self.old) (happening.Approve server)).1 }
        ensures permit { IfOk result (λ permit. permit ≡ server) }
        ensures setup { self.new.placement.setup ≡ self.old.placement.setup }
    {
        let engaged = self.engine.engaged(server);
        match self.engine.decide(server, engaged) {
            Ok(_) => {
                self.engine.start_restart(server);
                Ok(Permit::new(server))
            }
            Err(why) => Err(why),
        }
    }

    /// Ends a restart: the server of the permit is up. If it was not down, the permit comes back.
    ///
    /// Takes no memory.
    pub fn done(&mut self, permit: Permit) -> Result<(), Permit>
        ensures answer { (happens (state_of self.old) (happening.Done permit)).0 ≡ Answered (restart_of result) }
        ensures state { state_of self.new ≡ (happens (state_of self.old) (happening.Done permit)).1 }
        ensures back { IfErr result (λ p. p ≡ permit) }
        ensures setup { self.new.placement.setup ≡ self.old.placement.setup }
    {
        if !self.engine.is_down(permit.server()) {
            return Err(permit);
        }
        let server = permit.into_server();
        self.engine.end_restart(server);
        Ok(())
    }

    /// Halts the machine: it answers steps with Halted until it is resumed. This is no event.
    pub fn halt(&mut self)
        ensures state { state_of self.new ≡ record (state_of self.old) { halted = true } }
        ensures setup { self.new.placement.setup ≡ self.old.placement.setup }
    {
        self.engine.set_halted(true);
    }

    /// Lets a halted machine go on.
    pub fn resume(&mut self)
        ensures state { state_of self.new ≡ record (state_of self.old) { halted = false } }
        ensures setup { self.new.placement.setup ≡ self.old.placement.setup }
    {
        self.engine.set_halted(false);
    }

    /// Tells whether the log has just the pass of a ticket, and its request was not passed on yet.
    pub(crate) fn is_open(&self, ticket: &Ticket) -> bool
        ensures { result ≡ is_open_ticket (state_of self.now).log ticket.now }
    {
        self.engine.is_open(&ticket.parts())
    }

    /// Ends the token of a stream that has finished, and answers how many recorded steps the stream made: the tries of
    /// its calls, its other instructions, and its end, which are its steps and lost tries in the log. A token of any
    /// other stream comes back.
    pub fn retire(&self, token: StreamToken) -> Result<u64, StreamToken>
        ensures made { IfOk result (λ steps. steps ≡ steps_at_end (state_of self.now) token) }
        ensures logged { IfOk result (λ steps. steps ≡ made_in token (state_of self.now).log) }
        ensures done { OnOk result (has_ended (state_of self.now) token ≡ true) }
        ensures back { IfErr result (λ t. t ≡ token) }
        ensures unfinished { OnErr result (has_ended (state_of self.now) token ≡ false) }
    {
        let id = token.id();
        if !self.engine.is_begun(id) || !self.engine.progress(id).done {
            return Err(token);
        }
        let _ = token.into_id();
        Ok(self.engine.steps_made(id))
    }

    /// Ends the machine, with the rights to go on, and answers its placement as it stands. All that streams hold and
    /// signals carry goes back to the machine's pool, which ends with all rights. Takes no memory.
    pub fn give_up(
        self,
        tokens: Vec<StreamToken>,
        permits: Vec<Permit>,
        tickets: Vec<Ticket>,
    ) -> Placement
        ensures place { place_of result ≡ (state_of self).place }
        ensures sizes { sizes_of result.setup ≡ (state_of self).sizes }
        ensures setup { result.setup ≡ self.placement.setup }
    {
        close_tokens(tokens);
        close_permits(permits);
        close_tickets(tickets);
        self.into_placement()
    }

    /// Ends the machine, when all rights to go on have ended, and answers its placement as it stands. Takes no memory.
    pub(crate) fn into_placement(self) -> Placement
        ensures place { place_of result ≡ (state_of self).place }
        ensures sizes { sizes_of result.setup ≡ (state_of self).sizes }
        ensures setup { result.setup ≡ self.placement.setup }
    {
        let Machine { engine } = self;
        engine.into_placement()
    }
}
