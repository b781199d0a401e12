//! Readers of a machine's state.
ghost use Rattle.std.specs.Prelude.{◌≡◌, ◌<◌, length, true, reverse, None};
ghost use Rattle.sm_placement.specs.Place.{entry_at};
ghost use Rattle.sm_protocol.specs.State.{is_begun, progress_of, allowance, free_places, stream_count, plan_at, pool};
ghost use Rattle.sm_protocol.specs.Next.{blocked_on, next_call_of, next_entry_of, since_of, unfinished_plans};
ghost use Rattle.sm_placement.specs.Setup.{sizes_of};
ghost use Rattle.sm_placement.specs.Layout.{place_of};
ghost use Rattle.sm_reservation.specs.Pool.{pool_hold, HasSize};
ghost use Rattle.sm_protocol.specs.Happens.{Begin, engaged, happens};
ghost use Rattle.sm_protocol.specs.Steps.{Answered};
ghost use Rattle.sm_machine.specs.State.{state_of};
ghost use Rattle.sm_machine.specs.Retired.{steps_at_end};
ghost use Rattle.sm_machine.specs.Started.{begin_answer};

use crate::machine::Machine;
use crate::places::places_of;
use sm_placement::{Config, Entry, Placement};
use sm_plan_code::{Plan, ServerCall};
use sm_protocol::{BeginFault, Logged};
use sm_reservation::{Pool, StreamId};
use sm_server::{ServerId, ShardId};
use sm_verifier::Checked;

impl Machine {
    /// Returns the placement as it stands.
    pub fn placement(&self) -> &Placement
        ensures place { place_of result.now ≡ (state_of self.now).place }
        ensures sizes { sizes_of result.now.setup ≡ (state_of self.now).sizes }
        ensures setup { result.now.setup ≡ self.now.placement.setup }
    {
        self.engine.placement()
    }

    /// Returns the configuration.
    pub fn config(&self) -> &Config
        ensures setup { result.now ≡ self.now.placement.setup }
        ensures sizes { sizes_of result.now ≡ (state_of self.now).sizes }
    {
        self.engine.placement().config()
    }

    /// Returns the rights that no stream holds and no parcel carries.
    pub fn pool(&self) -> &Pool
        ensures hold { pool_hold result.now ≡ pool (state_of self.now) }
        ensures size { HasSize (state_of self.now).sizes result.now }
    {
        self.engine.pool()
    }

    /// Returns the recorded events with their answers, the oldest first.
    pub fn log(&self) -> &[Logged]
        ensures { result.now ≡ (state_of self.now).log }
    {
        self.engine.log()
    }

    /// Returns the entries that publications have added to the published map, with their shards, the oldest first.
    pub fn entries(&self) -> &[(ShardId, Entry)]
        ensures { reverse result.now ≡ (state_of self.now).entries }
    {
        self.engine.entries()
    }

    /// Returns the published map's entry of a shard.
    pub fn entry(&self, shard: ShardId) -> Entry
        requires { shard < (state_of self.now).sizes.shards }
        ensures { result ≡ entry_at (state_of self.now).place shard }
    {
        self.engine.placement().entry(shard)
    }

    /// Returns the number of log places that are neither used nor set aside for what was begun.
    pub fn free_places(&self) -> u64
        ensures { result ≡ free_places (state_of self.now) }
    {
        self.engine.free()
    }

    /// The fault for which a plan that was checked for the machine's configuration would not begin now, if memory is
    /// there: None if it would.
    pub fn begin_fault(&self, checked: &Checked) -> Option<BeginFault>
        requires { checked.now.setup ≡ self.now.placement.setup }
        ensures { (happens (state_of self.now) (Begin checked.now.plan)).0
            ≡ Answered (begin_answer (state_of self.now) result) }
    {
        self.engine.start_fault(checked, places_of(checked.plan()))
    }

    /// Returns the number of plans that were begun.
    pub fn plan_count(&self) -> u64
        ensures { result ≡ length (state_of self.now).plans }
    {
        self.engine.plan_count() as u64
    }

    /// Returns the number of streams of a plan that was begun.
    pub fn stream_count(&self, plan: u32) -> u64
        requires { plan < length (state_of self.now).plans }
        ensures { result ≡ stream_count (state_of self.now) plan }
    {
        self.engine.stream_count(plan) as u64
    }

    /// Returns the plan with a number.
    pub fn plan(&self, plan: u32) -> &Plan
        requires { plan < length (state_of self.now).plans }
        ensures { result.now ≡ plan_at (state_of self.now) plan }
    {
        self.engine.plan(plan)
    }

    /// Tells whether the stream was begun by this machine.
    pub fn is_begun(&self, id: StreamId) -> bool
        ensures { result ≡ is_begun (state_of self.now) id }
    {
        self.engine.is_begun(id)
    }

    /// Tells whether the stream has finished.
    pub fn is_done(&self, id: StreamId) -> bool
        requires { is_begun (state_of self.now) id ≡ true }
        ensures { result ≡ (progress_of (state_of self.now) id).done }
    {
        self.engine.progress(id).done
    }

    /// Returns the number of instructions that a stream has made.
    pub fn position(&self, id: StreamId) -> usize
        requires { is_begun (state_of self.now) id ≡ true }
        ensures { result ≡ (progress_of (state_of self.now) id).at }
    {
        self.engine.progress(id).at
    }

    /// Returns the log's length when a stream came to its position: behind its last step, or at its plan's start if it
    /// has made none.
    pub fn since(&self, id: StreamId) -> u32
        requires { is_begun (state_of self.now) id ≡ true }
        ensures { result ≡ since_of (state_of self.now) id }
    {
        self.engine.since(id)
    }

    /// Returns the call that a running stream stands before, with the handover number that it carries. None if its next
    /// instruction is no call, at its end, and of any other stream.
    pub fn next_call(&self, id: StreamId) -> Option<ServerCall>
        ensures { result ≡ next_call_of (state_of self.now) id }
    {
        self.engine.next_call(id)
    }

    /// Returns the entry of the published map that a running stream stands before, with its shard and under its next
    /// version. None if its next instruction changes no entry, at its end, and of any other stream.
    pub fn next_entry(&self, id: StreamId) -> Option<(ShardId, Entry)>
        ensures { result ≡ next_entry_of (state_of self.now) id }
    {
        self.engine.next_entry(id)
    }

    /// Returns the signal that a running stream waits for, if it is not posted.
    pub fn blocked_on(&self, id: StreamId) -> Option<u32>
        ensures { result ≡ blocked_on (state_of self.now) id }
    {
        self.engine.blocked_on(id)
    }

    /// Returns the numbers of the plans that have a stream that has not finished, in the order of their starts.
    pub fn unfinished(&self) -> &[u32]
        ensures { result.now ≡ unfinished_plans (state_of self.now) }
    {
        self.engine.unfinished()
    }

    /// Returns the number of tries of calls that a stream has made.
    pub fn calls(&self, id: StreamId) -> u64
        requires { is_begun (state_of self.now) id ≡ true }
        ensures { result ≡ (progress_of (state_of self.now) id).tries }
    {
        self.engine.progress(id).tries
    }

    /// Returns the number of tries of calls that a stream may make: its budget, its retries and its refills.
    pub fn allowance(&self, id: StreamId) -> u64
        requires { is_begun (state_of self.now) id ≡ true }
        ensures { result ≡ allowance (state_of self.now) id }
    {
        self.engine.allowance(id)
    }

    /// Returns the number of recorded steps that a stream makes on its way: the tries of its calls so far, its other
    /// instructions, and its end, whether or not it has come to those. If the stream has finished, `retire` answers
    /// that number.
    pub fn steps_at_end(&self, id: StreamId) -> u64
        requires { is_begun (state_of self.now) id ≡ true }
        ensures { result ≡ steps_at_end (state_of self.now) id }
    {
        self.engine.steps_made(id)
    }

    /// Returns the lowest unfinished stream whose code mentions the server.
    pub fn engaged(&self, server: ServerId) -> Option<StreamId>
        ensures { result ≡ engaged (state_of self.now) server }
    {
        self.engine.engaged(server)
    }
}
