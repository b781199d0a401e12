//! The board: a machine behind a lock, beside the map that is read without it.
//!
//! Each method takes the lock, makes one call of what lies behind it, and lets go. A contract can't name what lies
//! behind a lock, so it tells what the call does to the runner or the caller; what it does to the machine stands on the
//! call that it makes.
ghost use Rattle.std.specs.Prelude.{◌≡◌, ◌≢◌, ◌<◌, ◌≤◌, ◌+◌, ◌∷◌, [], length, IfOk, IfErr, if◌then◌else◌, vec_capacity};
ghost use Rattle.sm_placement.specs.Place.{entry_at};
ghost use Rattle.sm_map.specs.Entry.{IsInRange};
ghost use Rattle.sm_map.specs.History.{AllSameOrOlder};
ghost use Rattle.sm_protocol.specs.Steps.{Answered};
ghost use Rattle.sm_protocol.specs.declared.event.BeginFault.TheVariants as fault;
ghost use Rattle.sm_protocol.specs.Happens as happening;
ghost use Rattle.sm_protocol.specs.Happens.{happens};
ghost use Rattle.sm_protocol.specs.Hand.{tickets_of, spends};
ghost use Rattle.sm_machine.specs.Played.{played_of};
ghost use Rattle.sm_machine.specs.Requested.{played_by, tickets_in};
ghost use Rattle.sm_machine.specs.Restarted.{approval_of, restart_of};
ghost use Rattle.sm_machine.specs.Losses.{refill_answer, is_lost_answer};
ghost use Rattle.sm_placement.specs.Sums.{bit};
ghost use Rattle.sm_executor.specs.Answering.{HasAnswered};
ghost use Rattle.sm_executor.specs.Closed.{IsBoardState};
ghost use Rattle.sm_executor.specs.Counting.{executes, refuses};
ghost use Rattle.sm_executor.specs.Ending.{HasEnded, HasNotEnded};
ghost use Rattle.sm_executor.specs.Looking.{HasKnownMap, KnowsMap, KnowsSameOrOlder};
ghost use Rattle.sm_executor.specs.Starting.{HasBegun, HasNotBegun};
ghost use Rattle.sm_executor.specs.Stepping.{HasMadeStep, HasStepped, is_waiting};
ghost use Rattle.sm_executor.specs.Tied.{HasStood, IsMapOf};
ghost use Rattle.sm_executor.specs.Views.{held_model, state_in, calling, IsNewCaller};
ghost use Rattle.sm_plan_code.specs.declared.limits.TheConstants.{MOST_CALLS};
ghost use Rattle.sm_executor.specs.declared.limits.TheConstants.{MOST_UNFINISHED};

use crate::caller::{Caller, TooManyCallers};
use crate::held::Held;
use crate::names::Naming;
use crate::runner::{Ended, Runner};
use crate::sure::Sure;
use sm_machine::{Answer, BeginFault, Link, Machine, Permit, Step, Ticket, make_ready};
use sm_map::{Entry, Words};
use sm_placement::Config;
use sm_protocol::RefillFault;
use sm_reservation::StreamId;
use sm_server::{ServerId, ShardId};
use sm_task_controller::Denied;
use sm_verifier::Checked;
use std::alloc::Global;
use std::marker::Model;
use std::sync::ledger::Ledger;
use std::sync::{Condvar, Mutex, MutexGuard, Wait};

/// A machine that threads share.
pub struct Board<A: Ledger, B: Ledger, C: Ledger, N: Naming> {
    pub(crate) held: Mutex<Held<A, B, C, N>>,
    pub(crate) moved: Condvar,
    pub(crate) words: Words,
    pub(crate) config: Config,
    pub(crate) positions: Vec<(StreamId, u32)>,
    ghost named: { words ≡ N.words },
    ghost configured: { config ≡ N.setup },
    ghost shards: { length N.words.opening ≡ length N.setup.shards },
    ghost servers: { N.words.servers ≡ length N.setup.servers },
    ghost map: { IsMapOf N.words N.opened },
    ghost roomy: { MOST_UNFINISHED ≤ vec_capacity positions },
}

/// The locked machine. A contract sees what lies behind the lock.
#[derive(Drop)]
pub struct Guard<'b, A: Ledger, B: Ledger, C: Ledger, N: Naming> {
    held: MutexGuard<'b, Held<A, B, C, N>>,
}

impl<'b, A: Ledger, B: Ledger, C: Ledger, N: Naming> Model for Guard<'b, A, B, C, N> {
    ghost use Rattle.std.specs.Sync.Mutex.{mutex_guard_value};
    ghost use Rattle.sm_executor.specs.Views.{HeldModel};

    ghost Value = { HeldModel };

    ghost view = { λ g. mutex_guard_value g.held };
}

/// Tells whether the stream waits for a signal.
fn is_blocked(step: Step) -> bool
    ensures { result ≡ is_waiting step }
{
    match step {
        Step::Blocked { .. } => true,
        _ => false,
    }
}

impl<A: Ledger, B: Ledger, C: Ledger, N: Naming> Board<A, B, C, N> {
    /// Makes a board of what is to lie behind its lock, beside the words, the configuration, and room for the streams
    /// that have not finished.
    pub(crate) fn of(
        held: Held<A, B, C, N>,
        words: Words,
        config: Config,
        positions: Vec<(StreamId, u32)>,
    ) -> Board<A, B, C, N>
        requires words { words ≡ N.words }
        requires config { config ≡ N.setup }
        requires map { IsMapOf N.words N.opened }
        requires room { MOST_UNFINISHED ≤ vec_capacity positions }
    {
        held.is_of_board();
        Board {
            held: Mutex::new(held),
            moved: Condvar::new(),
            words,
            config,
            positions,
        }
    }

    /// Returns the configuration of the board's machine. The board's map was opened with the entries of that machine,
    /// one for each shard.
    pub fn config(&self) -> &Config
        ensures setup { result.now ≡ N.setup }
        ensures map { IsMapOf N.words N.opened }
        ensures shards { length N.words.opening ≡ length N.setup.shards }
        ensures servers { N.words.servers ≡ length N.setup.servers }
    {
        &self.config
    }

    /// Begins a plan that was checked for the board's configuration: each of its streams has a runner. If it does not
    /// begin, the checked plan comes back, and nothing changes. All memory is taken before the lock is.
    pub fn begin<R: Wait>(
        &self,
        rt: &R,
        alloc: Global,
        checked: Checked,
    ) -> Result<Vec<Runner<A>>, (Checked, BeginFault)>
        requires { checked.setup ≡ N.setup }
        ensures begun { IfOk result (λ runners. HasBegun N.setup N.opened checked.plan runners.items) }
        ensures refused { IfErr result (λ e. e.1 ≢ fault.NoMemory → HasNotBegun N.setup N.opened checked.plan e.1) }
        ensures back { IfErr result (λ e. e.0 ≡ checked) }
    {
        let count = checked.plan().streams().len();
        let ready = match make_ready(alloc, checked) {
            Ok(ready) => ready,
            Err((checked, _)) => return Err((checked, BeginFault::NoMemory)),
        };
        let Ok(mut runners) = Vec::with_capacity(alloc, count) else {
            return Err((ready.back(), BeginFault::NoMemory));
        };
        let begun = {
            let mut held = self.held.lock(rt);
            held.is_of_board();
            held.begin(ready, &mut runners)
        };
        match begun {
            Ok(()) => Ok(runners),
            Err((ready, why)) => {
                runners.destroy_empty();
                Err((ready.back(), why))
            }
        }
    }

    /// Returns the runner's end, if its stream has finished, with what the locked machine has of that stream. Otherwise
    /// the runner comes back.
    pub fn retire<R: Wait>(&self, rt: &R, runner: Runner<A>) -> Result<Ended<A>, Runner<A>>
        ensures ended { IfOk result (λ end. (end.stream ≡ runner.stream) × (end.counted ≡ runner.steps)) }
        ensures at { IfOk result (λ end. HasEnded N.setup N.opened end) }
        ensures unfinished { IfErr result (λ r. HasNotEnded N.setup N.opened r) }
        ensures back { IfErr result (λ r. r ≡ runner) }
    {
        let held = self.held.lock(rt);
        held.is_of_board();
        held.retire(runner)
    }

    /// Makes the runner's next step over a link, which is asked for the try of a call, under the board's lock. So the
    /// link must not call the board: it would wait for itself.
    pub fn step_over<R: Wait, L: Link>(&self, rt: &R, runner: &mut Runner<A>, link: &mut L) -> Step
        ensures stream { runner.new.stream ≡ runner.old.stream }
        ensures over { HasStepped L.asked link.old link.new N.setup N.opened runner.old runner.new (played_of result) }
        ensures lost { L.losses link.new ≡ L.losses link.old + bit (is_lost_answer (played_of result)) }
    {
        let mut held = self.held.lock(rt);
        let posts = held.is_before_signal(runner);
        let step = held.make_step(&self.words, runner, link);
        if posts {
            self.moved.notify_all();
        }
        step
    }

    /// Gives out a new caller, which has seen nothing and knows the entries of some state of the board. It is refused
    /// if the board has given out 4,096.
    pub fn caller<R: Wait>(&self, rt: &R) -> Result<Caller<B, C, N>, TooManyCallers>
        ensures new { IfOk result (λ caller. IsNewCaller caller) }
        ensures known { IfOk result (λ caller. HasKnownMap N.setup N.opened caller) }
    {
        let mut held = self.held.lock(rt);
        held.is_of_board();
        held.caller(&self.words)
    }

    /// Makes the runner's next step, and loses no call.
    #[tactic(auto, using(crate::proofs::SureSteps::made_surely))]
    pub fn step<R: Wait>(&self, rt: &R, runner: &mut Runner<A>) -> Step
        ensures stream { runner.new.stream ≡ runner.old.stream }
        ensures made { HasMadeStep N.setup N.opened runner.old runner.new (played_of result) }
    {
        self.step_over(rt, runner, &mut Sure)
    }

    /// Returns the number of instructions that the runner's stream has made. None if it was not begun, or has finished.
    pub(crate) fn position<R: Wait>(&self, rt: &R, runner: &Runner<A>) -> Option<usize> {
        self.held.lock(rt).position(runner)
    }

    /// Makes the runner's next step that is not Blocked, over a link: waits for the signal, and asks the link for that
    /// step alone.
    pub(crate) fn step_or_wait<R: Wait, L: Link>(
        &self,
        rt: &R,
        runner: &mut Runner<A>,
        link: &mut L,
    ) -> Step
        ensures stream { runner.new.stream ≡ runner.old.stream }
        ensures over { HasStepped L.asked link.old link.new N.setup N.opened runner.old runner.new (played_of result) }
        ensures lost { L.losses link.new ≡ L.losses link.old + bit (is_lost_answer (played_of result)) }
    {
        let mut held = self.held.lock(rt);
        for _ in rt.forever() {
            let posts = held.is_before_signal(runner);
            let answer = held.make_step(&self.words, runner, link);
            if posts {
                self.moved.notify_all();
            }
            if !is_blocked(answer) {
                return answer;
            }
            held = self.moved.wait(rt, held);
        }
        unreachable!()
    }

    /// Stops streams, and wakes those that wait: their steps are answered with Halted.
    pub fn halt<R: Wait>(&self, rt: &R) {
        self.held.lock(rt).halt();
        self.moved.notify_all();
    }

    /// Lets streams make steps again. Call it once every run that the halt stopped has come back. If a stream of such a
    /// run waits for a signal and gets the lock only after this call, it waits on, even for a stream whose thread has
    /// stopped.
    pub fn resume<R: Wait>(&self, rt: &R) {
        self.held.lock(rt).resume();
        self.moved.notify_all();
    }

    /// Returns the map's entry of a shard, by one load of its word and without the lock. It is no older than what the
    /// caller has seen, and than what it knows: the entry of the map when it was given out, or when it last looked
    /// behind the lock.
    pub fn look(&self, caller: &mut Caller<B, C, N>, shard: ShardId) -> Entry
        requires { shard < length N.words.opening }
        ensures seen { caller.new ≡ calling caller.old.known
            ((shard, result) ∷ caller.old.seen) caller.old.executed caller.old.refused }
        ensures not_older { AllSameOrOlder caller.old.seen shard result }
        ensures not_before { KnowsSameOrOlder caller.old shard result }
        ensures in_range { IsInRange N.words.servers result }
    {
        caller.look(&self.words, shard)
    }

    /// Asks a server for a shard. It answers as the protocol does at some state of the board.
    pub fn arrive<R: Wait>(
        &self,
        rt: &R,
        caller: &mut Caller<B, C, N>,
        shard: ShardId,
        server: ServerId,
    ) -> Answer
        requires shard { shard < length N.words.opening }
        requires server { server < N.words.servers }
        ensures at { HasAnswered N.setup N.opened (happening.Arrive shard server) (played_by result) }
        ensures tickets { tickets_in result ≡ tickets_of shard server (played_by result) }
        ensures caller { caller.new ≡ calling caller.old.known caller.old.seen
            (caller.old.executed + executes result) (caller.old.refused + refuses result) }
    {
        let mut held = self.held.lock(rt);
        held.is_of_board();
        held.arrive(caller, shard, server)
    }

    /// Brings a request that was passed on to the server that it was passed to. Its ticket is spent by an answer of the
    /// server, and otherwise comes back.
    pub fn pass_on<R: Wait>(&self, rt: &R, caller: &mut Caller<B, C, N>, ticket: Ticket) -> Answer
        ensures at { HasAnswered N.setup N.opened (happening.PassOn ticket) (played_by result) }
        ensures tickets { tickets_in result ≡ (if spends
            (played_by result) then tickets_of ticket.shard ticket.target (played_by result) else ticket ∷ []) }
        ensures caller { caller.new ≡ calling caller.old.known caller.old.seen
            (caller.old.executed + executes result) (caller.old.refused + refuses result) }
    {
        let mut held = self.held.lock(rt);
        held.is_of_board();
        held.pass_on(caller, ticket)
    }

    /// Returns the machine's entry of a shard, which the caller has then seen. The caller then knows the machine's
    /// entry of each shard. Each entry that the caller had seen is one of the machine's.
    pub fn look_held(
        &self,
        guard: &mut Guard<'_, A, B, C, N>,
        caller: &mut Caller<B, C, N>,
        shard: ShardId,
    ) -> Entry
        requires { shard < length N.words.opening }
        ensures entry { result ≡ entry_at (state_in guard.old).place shard }
        ensures same { guard.new ≡ guard.old }
        ensures stood { HasStood N.words N.opened (state_in guard.old) caller.old.seen }
        ensures known { KnowsMap (state_in guard.old) caller.new }
        ensures seen { caller.new ≡ calling caller.new.known
            ((shard, result) ∷ caller.old.seen) caller.old.executed caller.old.refused }
    {
        guard.held.look_held(&self.words, caller, shard)
    }

    /// Locks the machine, which is at a state of the board. As long as a thread has the guard it must not call what
    /// takes the lock: it would wait for itself. Looks take none.
    pub fn hold<R: Wait>(&self, rt: &R) -> Guard<'_, A, B, C, N>
        ensures state { IsBoardState N.setup N.opened (state_in result) }
        ensures setup { result.machine.placement.setup ≡ N.setup }
        ensures map { IsMapOf N.words N.opened }
        ensures shards { length N.words.opening ≡ length N.setup.shards }
        ensures servers { N.words.servers ≡ length N.setup.servers }
    {
        let held = self.held.lock(rt);
        held.is_of_board();
        Guard { held }
    }
}

impl<'b, A: Ledger, B: Ledger, C: Ledger, N: Naming> Guard<'b, A, B, C, N> {
    /// Makes the machine's call of the same name, on the locked machine.
    pub fn approve(&mut self, server: ServerId) -> Result<Permit, Denied>
        requires { server < N.words.servers }
        ensures answer { (happens (state_in self.old) (happening.Approve server)).0 ≡ Answered (approval_of result) }
        ensures state { state_in self.new ≡ (happens (state_in self.old) (happening.Approve server)).1 }
        ensures others { self.new ≡ held_model self.new.machine self.old.runners self.old.callers }
        ensures permit { IfOk result (λ permit. permit ≡ server) }
        ensures setup { self.new.machine.placement.setup ≡ self.old.machine.placement.setup }
    {
        self.held.approve(server)
    }

    /// Makes the machine's call of the same name, on the locked machine.
    pub fn done(&mut self, permit: Permit) -> Result<(), Permit>
        ensures answer { (happens (state_in self.old) (happening.Done permit)).0 ≡ Answered (restart_of result) }
        ensures state { state_in self.new ≡ (happens (state_in self.old) (happening.Done permit)).1 }
        ensures others { self.new ≡ held_model self.new.machine self.old.runners self.old.callers }
        ensures back { IfErr result (λ p. p ≡ permit) }
        ensures setup { self.new.machine.placement.setup ≡ self.old.machine.placement.setup }
    {
        self.held.done(permit)
    }

    /// Makes the machine's call of the same name, on the locked machine.
    pub fn refill(&mut self, runner: &mut Runner<A>, more: u32) -> Result<(), RefillFault>
        requires { more ≤ MOST_CALLS }
        ensures answer { (happens (state_in self.old) (happening.Refill runner.old.stream more)).0
            ≡ Answered (refill_answer result) }
        ensures state { state_in self.new ≡ (happens (state_in self.old) (happening.Refill runner.old.stream more)).1 }
        ensures others { self.new ≡ held_model self.new.machine self.old.runners self.old.callers }
        ensures runner { runner.new ≡ runner.old }
        ensures setup { self.new.machine.placement.setup ≡ self.old.machine.placement.setup }
    {
        self.held.refill(runner, more)
    }

    /// Returns the locked machine.
    pub fn machine(&self) -> &Machine
        ensures { result.now ≡ self.now.machine }
    {
        self.held.machine()
    }
}
