//! Callers behind the board's lock: their requests, and their looks at the map.
ghost use Rattle.std.specs.Prelude.{◌≡◌, ◌<◌, ◌+◌, ◌∷◌, [], length, IfOk, OnErr, if◌then◌else◌};
ghost use Rattle.sm_placement.specs.Place.{entry_at};
ghost use Rattle.sm_map.specs.History.{AllSameOrOlder};
ghost use Rattle.sm_protocol.specs.Steps.{Answered};
ghost use Rattle.sm_protocol.specs.Happens as happening;
ghost use Rattle.sm_protocol.specs.Happens.{happens};
ghost use Rattle.sm_protocol.specs.Hand.{tickets_of, spends};
ghost use Rattle.sm_machine.specs.Requested.{played_by, tickets_in};
ghost use Rattle.sm_executor.specs.Counting.{executes, refuses};
ghost use Rattle.sm_executor.specs.Looking.{KnowsMap};
ghost use Rattle.sm_executor.specs.Tied.{HasStood};
ghost use Rattle.sm_executor.specs.Views.{held_model, state_in, calling, IsNewCaller};
ghost use Rattle.sm_executor.specs.declared.limits.TheConstants.{MOST_CALLERS};

use crate::caller::{Caller, TooManyCallers};
use crate::held::Held;
use crate::limits::MOST_CALLERS;
use crate::names::Naming;
use sm_machine::{Answer, Ticket};
use sm_map::{Entry, Words};
use sm_server::{ServerId, ShardId};
use std::marker::PhantomData;
use std::sync::ledger::{Book, Ledger};

/// Counts the answer to a request of a caller.
fn count_answer<B: Ledger, C: Ledger, N: Naming>(
    executed: &mut Book<B>,
    refused: &mut Book<C>,
    caller: &mut Caller<B, C, N>,
    answer: &Answer,
)
    ensures executed { executed.new.total ≡ executed.old.total + executes answer.now }
    ensures refused { refused.new.total ≡ refused.old.total + refuses answer.now }
    ensures caller { caller.new ≡ calling caller.old.known caller.old.seen
        (caller.old.executed + executes answer.now) (caller.old.refused + refuses answer.now) }
{
    match answer {
        Answer::Executed { .. } => executed.add(&mut caller.executed, 1),
        Answer::NotOwner => refused.add(&mut caller.refused, 1),
        Answer::Unavailable => refused.add(&mut caller.refused, 1),
        Answer::Passed(_) => {}
        Answer::LogFull(_) => {}
        Answer::Unknown(_) => {}
    }
}

impl<A: Ledger, B: Ledger, C: Ledger, N: Naming> Held<A, B, C, N> {
    /// Gives out a new caller, which has seen nothing and knows the machine's entries. It is refused exactly if the
    /// board has given out 4,096.
    ///
    /// Takes no memory.
    pub fn caller(&mut self, words: &Words) -> Result<Caller<B, C, N>, TooManyCallers>
        requires { words.now ≡ N.words }
        ensures new { IfOk result (λ caller. IsNewCaller caller
            × (self.new ≡ held_model self.old.machine self.old.runners (self.old.callers + 1))) }
        ensures known { IfOk result (λ caller. KnowsMap (state_in self.old) caller) }
        ensures refused { OnErr result ((self.new ≡ self.old) × (self.old.callers ≡ MOST_CALLERS)) }
    {
        if self.callers >= MOST_CALLERS {
            return Err(TooManyCallers);
        }
        let pass = words.pass(&mut self.publisher);
        let executed = self.free_executed.split_off(1, 0);
        let refused = self.free_refused.split_off(1, 0);
        self.callers += 1;
        Ok(Caller {
            pass,
            executed,
            refused,
            of: PhantomData,
        })
    }

    /// Asks a server for a shard.
    pub fn arrive(
        &mut self,
        caller: &mut Caller<B, C, N>,
        shard: ShardId,
        server: ServerId,
    ) -> Answer
        requires shard { shard < length N.words.opening }
        requires server { server < N.words.servers }
        ensures answer { (happens (state_in self.old) (happening.Arrive shard server)).0 ≡ Answered (played_by result) }
        ensures state { state_in self.new ≡ (happens (state_in self.old) (happening.Arrive shard server)).1 }
        ensures tickets { tickets_in result ≡ tickets_of shard server (played_by result) }
        ensures others { self.new ≡ held_model self.new.machine self.old.runners self.old.callers }
        ensures caller { caller.new ≡ calling caller.old.known caller.old.seen
            (caller.old.executed + executes result) (caller.old.refused + refuses result) }
    {
        let answer = self.machine.arrive(shard, server);
        count_answer(&mut self.executed, &mut self.refused, caller, &answer);
        answer
    }

    /// Brings a request that was passed on to the server that it was passed to.
    pub fn pass_on(&mut self, caller: &mut Caller<B, C, N>, ticket: Ticket) -> Answer
        ensures answer { (happens (state_in self.old) (happening.PassOn ticket)).0 ≡ Answered (played_by result) }
        ensures state { state_in self.new ≡ (happens (state_in self.old) (happening.PassOn ticket)).1 }
        ensures tickets { tickets_in result ≡ (if spends
            (played_by result) then tickets_of ticket.shard ticket.target (played_by result) else ticket ∷ []) }
        ensures others { self.new ≡ held_model self.new.machine self.old.runners self.old.callers }
        ensures caller { caller.new ≡ calling caller.old.known caller.old.seen
            (caller.old.executed + executes result) (caller.old.refused + refuses result) }
    {
        let answer = self.machine.pass_on(ticket);
        count_answer(&mut self.executed, &mut self.refused, caller, &answer);
        answer
    }

    /// Returns the machine's entry of a shard, which the caller has then seen. The caller then knows the machine's
    /// entry of each shard. Each entry that the caller had seen is one with which the board was opened, or one that the
    /// machine has published since.
    pub fn look_held(
        &mut self,
        words: &Words,
        caller: &mut Caller<B, C, N>,
        shard: ShardId,
    ) -> Entry
        requires words { words.now ≡ N.words }
        requires shard { shard < length N.words.opening }
        ensures entry { result ≡ entry_at (state_in self.old).place shard }
        ensures same { self.new ≡ self.old }
        ensures stood { HasStood N.words N.opened (state_in self.old) caller.old.seen }
        ensures known { KnowsMap (state_in self.old) caller.new }
        ensures seen { caller.new ≡ calling caller.new.known
            ((shard, result) ∷ caller.old.seen) caller.old.executed caller.old.refused }
        ensures not_older { AllSameOrOlder caller.old.seen shard result }
    {
        words.meet_in(&mut self.publisher, &mut caller.pass, shard)
    }
}
