//! The inside of the board's lock: the machine, the publisher's seat, and the books.
//!
//! Each method is one event at most, and changes the machine just as the machine's own call does. The books rise with
//! the log, and what a step publishes is stored in the words before the method returns.
ghost use Rattle.std.specs.Prelude.{◌≡◌, ◌≢◌, OnOk, OnErr, ◌<◌, ◌≤◌, ◌+◌, ◌*◌, ◌++◌, [], length, map, IfOk, IfErr};
ghost use Rattle.std.specs.Prelude.{IfSome, IfNone, true, false, vec_len, vec_capacity};
ghost use Rattle.sm_protocol.specs.State.{progress_of, is_running};
ghost use Rattle.sm_protocol.specs.Steps.{Answered};
ghost use Rattle.sm_protocol.specs.Happens as happening;
ghost use Rattle.sm_protocol.specs.Happens.{happens};
ghost use Rattle.sm_machine.specs.State.{state_of};
ghost use Rattle.sm_machine.specs.Played.{played_of};
ghost use Rattle.sm_machine.specs.Restarted.{approval_of, restart_of};
ghost use Rattle.sm_machine.specs.Losses.{refill_answer, is_lost_answer, IsStepOver};
ghost use Rattle.sm_machine.specs.Retired.{has_ended, made_in};
ghost use Rattle.sm_machine.specs.Started.{IsNotStarted};
ghost use Rattle.sm_placement.specs.Sums.{bit};
ghost use Rattle.sm_protocol.specs.declared.event.BeginFault.TheVariants as fault;
ghost use Rattle.sm_protocol.specs.declared.event.Played.TheVariants as played;
ghost use Rattle.sm_executor.specs.Closed.{IsBoardState};
ghost use Rattle.sm_executor.specs.Counting.{Counts};
ghost use Rattle.sm_executor.specs.Names.{IsLedgerOf};
ghost use Rattle.sm_executor.specs.Stepping.{HasStepped, is_waiting};
ghost use Rattle.sm_executor.specs.Tied.{IsPublished, IsBehind};
ghost use Rattle.sm_executor.specs.Views.{held_model, state_in, running, recorded_more, AreRunners, end_in};
ghost use Rattle.sm_plan_code.specs.declared.limits.TheConstants.{MOST_CALLS, MOST_STREAMS};

use crate::names::Naming;
use crate::runner::{Ended, Runner};
use crate::shares::fill_runners;
use sm_machine::{BeginFault, Link, Machine, Permit, ReadyPlan, Step, StreamToken};
use sm_map::{Publisher, Words};
use sm_protocol::RefillFault;
use sm_server::ServerId;
use sm_task_controller::Denied;
use std::marker::{Model, PhantomData};
use std::sync::ledger::{Blank, Book, Ledger, Share};

/// The machine, the publisher's seat, the books with the shares that nobody has, and the numbers of runners and callers
/// that were given out.
///
/// The publisher has stored what the machine has published since the board was opened, and the books are the counts of
/// its log since then.
pub(crate) struct Held<A: Ledger, B: Ledger, C: Ledger, N: Naming> {
    pub(crate) machine: Machine,
    pub(crate) publisher: Publisher,
    pub(crate) steps: Book<A>,
    pub(crate) executed: Book<B>,
    pub(crate) refused: Book<C>,
    pub(crate) free_steps: Share<A>,
    pub(crate) free_executed: Share<B>,
    pub(crate) free_refused: Share<C>,
    pub(crate) runners: u64,
    pub(crate) callers: u64,
    pub(crate) of: PhantomData<N>,
}

impl<A: Ledger, B: Ledger, C: Ledger, N: Naming> Model for Held<A, B, C, N> {
    ghost use Rattle.std.specs.Prelude.{◌≡◌, ◌≤◌, ◌+◌, ◌*◌, length};
    ghost use Rattle.sm_machine.specs.State.{state_of};
    ghost use Rattle.sm_executor.specs.Views.{HeldModel, held_model};
    ghost use Rattle.sm_executor.specs.Tied.{IsPublished};
    ghost use Rattle.sm_executor.specs.Counting.{IsBooked};
    ghost use Rattle.sm_executor.specs.Closed.{GoesOn};
    ghost use Rattle.sm_plan_code.specs.declared.limits.TheConstants.{MOST_STREAMS};
    ghost use Rattle.sm_executor.specs.declared.limits.TheConstants.{MOST_CALLERS, PARTS};

    ghost Value = { HeldModel };

    ghost view = { λ h. held_model h.machine h.runners h.callers };

    ghost invariant = { λ h.
        IsPublished N.words N.opened (state_of h.machine) h.publisher
        × IsBooked N.opened (state_of h.machine) h.steps.total h.executed.total h.refused.total
        × (h.free_steps.parts + h.runners ≡ A.parts) × (h.free_steps.amount ≡ 0) × (A.parts ≡ PARTS)
        × (h.free_executed.parts + h.callers ≡ B.parts) × (h.free_executed.amount ≡ 0) × (B.parts ≡ PARTS)
        × (h.free_refused.parts + h.callers ≡ C.parts) × (h.free_refused.amount ≡ 0) × (C.parts ≡ PARTS)
        × (h.callers ≤ MOST_CALLERS)
        × (h.machine.placement.setup ≡ N.setup)
        × (h.runners ≤ MOST_STREAMS * length (state_of h.machine).plans)
        × GoesOn N.opened (state_of h.machine) };
}

/// Stores the entry that was added behind the first `before`, if one was.
fn store_added<N: Naming>(
    words: &Words,
    publisher: &mut Publisher,
    machine: &Machine,
    before: usize,
)
    requires words { words.now ≡ N.words }
    requires before { before ≡ length (publisher.old.stores ++ N.opened.entries) }
    requires behind { IsBehind N.words N.opened (state_of machine.now) publisher.old }
    ensures { IsPublished N.words N.opened (state_of machine.now) publisher.new }
{
    let added = machine.entries();
    if before < added.len() {
        let (shard, entry) = added[before];
        words.store(publisher, shard, entry);
    }
}

impl<A: Ledger, B: Ledger, C: Ledger, N: Naming> Held<A, B, C, N> {
    /// Makes what lies behind the lock of a new board.
    pub fn open(
        machine: Machine,
        publisher: Publisher,
        steps: Blank,
        executed: Blank,
        refused: Blank,
    ) -> Held<A, B, C, N>
        requires opened { state_of machine ≡ N.opened }
        requires setup { machine.placement.setup ≡ N.setup }
        requires tied { IsPublished N.words N.opened N.opened publisher }
        requires steps { (steps.parts ≡ A.parts) × IsLedgerOf steps.name A.name A.parts }
        requires executed { (executed.parts ≡ B.parts) × IsLedgerOf executed.name B.name B.parts }
        requires refused { (refused.parts ≡ C.parts) × IsLedgerOf refused.name C.name C.parts }
        ensures { result ≡ held_model machine 0 0 }
    {
        let (steps, free_steps) = steps.open::<A>();
        let (executed, free_executed) = executed.open::<B>();
        let (refused, free_refused) = refused.open::<C>();
        Held {
            machine,
            publisher,
            steps,
            executed,
            refused,
            free_steps,
            free_executed,
            free_refused,
            runners: 0,
            callers: 0,
            of: PhantomData,
        }
    }

    /// States that the machine is at a state of the board, and its configuration is the board's, which has the words'
    /// numbers of shards and servers.
    pub fn is_of_board(&self)
        ensures state { IsBoardState N.setup N.opened (state_in self.now) }
        ensures setup { self.now.machine.placement.setup ≡ N.setup }
        ensures shards { length N.words.opening ≡ length N.setup.shards }
        ensures servers { N.words.servers ≡ length N.setup.servers }
    {
        self.machine.is_reached();
    }

    /// Returns the machine.
    pub fn machine(&self) -> &Machine
        ensures { result.now ≡ self.now.machine }
    {
        &self.machine
    }

    /// Makes a stream's next step over a link. An entry that it publishes is stored in the words.
    pub fn step_over<L: Link>(
        &mut self,
        words: &Words,
        runner: &mut Runner<A>,
        link: &mut L,
    ) -> Step
        requires { words.now ≡ N.words }
        ensures over { IsStepOver L.asked link.old link.new (state_in self.old) runner.old.stream (played_of result)
            (state_in self.new) }
        ensures lost { L.losses link.new ≡ L.losses link.old + bit (is_lost_answer (played_of result)) }
        ensures others { self.new ≡ held_model self.new.machine self.old.runners self.old.callers }
        ensures runner { runner.new ≡ running runner.old.stream
            (runner.old.steps + recorded_more (state_in self.old) (state_in self.new)) }
        ensures counts { Counts (progress_of (state_in self.old) runner.old.stream).done
            (played_of result) runner.old.steps runner.new.steps }
    {
        self.machine.is_reached();
        let recorded = self.machine.log().len();
        let added = self.machine.entries().len();
        let step = self.machine.step_over(&mut runner.token, link);
        self.machine.is_reached();
        let made = self.machine.log().len() - recorded;
        self.steps.add(&mut runner.share, made as u64);
        store_added::<N>(words, &mut self.publisher, &self.machine, added);
        step
    }

    /// Makes a stream's next step over a link, at some state that goes on from the opening. If it waits for a signal
    /// the link is not asked.
    pub fn make_step<L: Link>(
        &mut self,
        words: &Words,
        runner: &mut Runner<A>,
        link: &mut L,
    ) -> Step
        requires { words.now ≡ N.words }
        ensures over { IsStepOver L.asked link.old link.new (state_in self.old) runner.old.stream (played_of result)
            (state_in self.new) }
        ensures others { self.new ≡ held_model self.new.machine self.old.runners self.old.callers }
        ensures stream { runner.new.stream ≡ runner.old.stream }
        ensures at { HasStepped L.asked link.old link.new N.setup N.opened runner.old runner.new (played_of result) }
        ensures lost { L.losses link.new ≡ L.losses link.old + bit (is_lost_answer (played_of result)) }
        ensures unasked { is_waiting result ≡ true → link.new ≡ link.old }
        ensures waits { is_waiting result ≡ true → runner.new ≡ runner.old }
    {
        self.is_of_board();
        self.step_over(words, runner, link)
    }

    /// Gives runners to streams that began before the board was opened, for their tokens, in an empty list with room
    /// for them.
    pub fn take_on(&mut self, runners: &mut Vec<Runner<A>>, tokens: Vec<StreamToken>)
        requires none { runners.old.items ≡ [] }
        requires room { vec_len tokens ≤ vec_capacity runners.old }
        requires few { self.old.runners + length tokens.items ≤ MOST_STREAMS * length (state_in self.old).plans }
        ensures held { self.new ≡ held_model self.old.machine
            (self.old.runners + length tokens.items) self.old.callers }
        ensures runners { runners.new.items ≡ map (λ token. running token 0) tokens.items }
    {
        self.machine.is_reached();
        let count = tokens.len() as u64;
        fill_runners(runners, tokens, &mut self.free_steps);
        self.runners += count;
    }

    /// Begins a plan that is ready, as the machine starts it, and gives each of its streams a runner, in an empty list
    /// with room for them. If it does not begin it comes back, and nothing changes.
    ///
    /// Takes no memory.
    pub fn begin(
        &mut self,
        ready: ReadyPlan,
        into: &mut Vec<Runner<A>>,
    ) -> Result<(), (ReadyPlan, BeginFault)>
        requires setup { ready.setup ≡ N.setup }
        requires none { into.old.items ≡ [] }
        requires room { length ready.plan.streams ≤ vec_capacity into.old }
        ensures answer { OnOk result ((happens (state_in self.old) (happening.Begin ready.plan)).0
            ≡ Answered (played.Begun (length (state_in self.old).plans))) }
        ensures state { OnOk result (state_in self.new ≡ (happens (state_in self.old) (happening.Begin ready.plan)).1) }
        ensures others { OnOk result (self.new ≡ held_model self.new.machine
            (self.old.runners + length ready.plan.streams) self.old.callers) }
        ensures runners { OnOk result (AreRunners (length (state_in self.old).plans)
            (length ready.plan.streams) into.new.items) }
        ensures fault { IfErr result (λ e. IsNotStarted (state_in self.old) ready.plan e.1) }
        ensures memory { IfErr result (λ e. e.1 ≢ fault.NoMemory) }
        ensures unchanged { OnErr result (self.new ≡ self.old) }
        ensures back { IfErr result (λ e. e.0 ≡ ready) }
        ensures none { OnErr result (into.new.items ≡ []) }
    {
        let count = ready.checked().plan().streams().len() as u64;
        match self.machine.start(ready) {
            Ok(tokens) => {
                self.machine.is_reached();
                fill_runners(into, tokens, &mut self.free_steps);
                self.runners += count;
                Ok(())
            }
            Err(back) => Err(back),
        }
    }

    /// Returns the number of instructions that the runner's stream has made. None if it was not begun, or has finished.
    pub fn position(&self, runner: &Runner<A>) -> Option<usize>
        ensures some { IfSome result (λ at. (is_running (state_in self.now) runner.now.stream ≡ true)
            × (at ≡ (progress_of (state_in self.now) runner.now.stream).at)) }
        ensures none { IfNone result (is_running (state_in self.now) runner.now.stream ≡ false) }
    {
        let stream = runner.id();
        if self.machine.is_begun(stream) && !self.machine.is_done(stream) {
            Some(self.machine.position(stream))
        } else {
            None
        }
    }

    /// Returns the runner's end, if its stream has finished. Otherwise the runner comes back.
    pub fn retire(&self, runner: Runner<A>) -> Result<Ended<A>, Runner<A>>
        ensures ended { IfOk result (λ end. (has_ended (state_in self.now) runner.stream ≡ true)
            × (end ≡ end_in (state_in self.now) runner)) }
        ensures made { IfOk result (λ end. end.steps ≡ made_in end.stream (state_in self.now).log) }
        ensures back { IfErr result (λ r. (has_ended (state_in self.now) runner.stream ≡ false) × (r ≡ runner)) }
    {
        let Runner { token, share } = runner;
        let stream = token.id();
        match self.machine.retire(token) {
            Ok(steps) => Ok(Ended {
                stream,
                steps,
                calls: self.machine.calls(stream),
                budget: self.machine.allowance(stream),
                share,
            }),
            Err(token) => Err(Runner { token, share }),
        }
    }

    /// Decides, as the machine does, whether a server may be restarted.
    pub fn approve(&mut self, server: ServerId) -> Result<Permit, Denied>
        requires { server < N.words.servers }
        ensures answer { (happens (state_in self.old) (happening.Approve server)).0 ≡ Answered (approval_of result) }
        ensures state { state_in self.new ≡ (happens (state_in self.old) (happening.Approve server)).1 }
        ensures others { self.new ≡ held_model self.new.machine self.old.runners self.old.callers }
        ensures permit { IfOk result (λ permit. permit ≡ server) }
        ensures setup { self.new.machine.placement.setup ≡ self.old.machine.placement.setup }
    {
        self.machine.approve(server)
    }

    /// Ends a restart, as the machine does. If the permit's server was not down, the permit comes back.
    pub fn done(&mut self, permit: Permit) -> Result<(), Permit>
        ensures answer { (happens (state_in self.old) (happening.Done permit)).0 ≡ Answered (restart_of result) }
        ensures state { state_in self.new ≡ (happens (state_in self.old) (happening.Done permit)).1 }
        ensures others { self.new ≡ held_model self.new.machine self.old.runners self.old.callers }
        ensures back { IfErr result (λ p. p ≡ permit) }
        ensures setup { self.new.machine.placement.setup ≡ self.old.machine.placement.setup }
    {
        self.machine.is_reached();
        self.machine.done(permit)
    }

    /// Raises the allowance of a runner's stream, as the machine does.
    pub fn refill(&mut self, runner: &mut Runner<A>, more: u32) -> Result<(), RefillFault>
        requires { more ≤ MOST_CALLS }
        ensures answer { (happens (state_in self.old) (happening.Refill runner.old.stream more)).0
            ≡ Answered (refill_answer result) }
        ensures state { state_in self.new ≡ (happens (state_in self.old) (happening.Refill runner.old.stream more)).1 }
        ensures others { self.new ≡ held_model self.new.machine self.old.runners self.old.callers }
        ensures runner { runner.new ≡ runner.old }
        ensures setup { self.new.machine.placement.setup ≡ self.old.machine.placement.setup }
    {
        self.machine.refill(&mut runner.token, more)
    }

    /// Stops streams: their steps are answered with Halted.
    pub fn halt(&mut self)
        ensures state { state_in self.new ≡ record (state_in self.old) { halted = true } }
        ensures others { self.new ≡ held_model self.new.machine self.old.runners self.old.callers }
    {
        self.machine.halt();
    }

    /// Lets streams go on.
    pub fn resume(&mut self)
        ensures state { state_in self.new ≡ record (state_in self.old) { halted = false } }
        ensures others { self.new ≡ held_model self.new.machine self.old.runners self.old.callers }
    {
        self.machine.resume();
    }

    /// Ends with its board.
    pub fn give_up(self) -> Machine
        ensures { result ≡ self.machine }
    {
        let Held {
            machine,
            publisher: _,
            steps: _,
            executed: _,
            refused: _,
            free_steps: _,
            free_executed: _,
            free_refused: _,
            runners: _,
            callers: _,
            of: _,
        } = self;
        machine
    }
}
