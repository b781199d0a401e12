#![tactic(auto, unfolding(crate::specs::State::whole_of))]
//! The plans of a machine, by their streams: how far those are, and what they hold.
ghost use Rattle.std.specs.Prelude.{◌≡◌, ◌<◌, ◌≤◌, ◌-◌, ◌==◌, if◌then◌else◌, not, is_some, None, true, false, length};
ghost use Rattle.sm_placement.specs.Sums.{put, put2};
ghost use Rattle.sm_plan_code.specs.Table.{exchange_of};
ghost use Rattle.sm_protocol.specs.State.{is_begun, progress_of, next_instruction, allowance, plan_at, stream_count};
ghost use Rattle.sm_protocol.specs.State.{signal_count, parcel_at, set_progress, recorded};
ghost use Rattle.sm_reservation.specs.Hold.{minus, plus};
ghost use Rattle.sm_reservation.specs.HoldOf.{hold_of};
ghost use Rattle.sm_reservation.specs.CanJoin.{CanJoin};
ghost use Rattle.sm_reservation.specs.Short.{first_short};
ghost use Rattle.sm_reservation.specs.Pool.{IsKnownHold};
ghost use Rattle.sm_machine.specs.Course.{hold_in, rights_in, capacity_in, HasCapacityIn, IsGrantInOrder};
ghost use Rattle.sm_machine.specs.State.{whole_of, state_of, grant_of, with_state, with_stream, with_signal};
ghost use Rattle.sm_machine.specs.Ready.{IsReadyToTrade};
ghost use Rattle.sm_machine.specs.Trade.{IsTradedBy};
ghost use Rattle.sm_protocol.specs.Next.{since_of};
ghost use Rattle.sm_reservation.specs.declared.stream_id.StreamId.{StreamId};
ghost use Rattle.sm_machine.specs.Retired.{steps_at_end};

use crate::engine::Engine;
use crate::lists::take_out;
use crate::progress::Progress;
use sm_plan_code::{Instr, Plan};
use sm_reservation::{Change, StreamId};

impl Engine {
    /// Tells whether the stream was begun.
    pub fn is_begun(&self, id: StreamId) -> bool
        ensures { result ≡ is_begun (state_of self.now) id }
    {
        let plan = id.plan as usize;
        if plan >= self.plans.len() {
            return false;
        }
        (id.stream as usize) < self.plans.at(plan).stream_count()
    }

    /// Returns how far a stream has come.
    pub fn progress(&self, id: StreamId) -> Progress
        requires { is_begun (state_of self.now) id ≡ true }
        ensures { result ≡ progress_of (state_of self.now) id }
    {
        self.plans.at(id.plan as usize).progress(id.stream as usize)
    }

    /// Returns the instruction that a stream makes next.
    pub fn next_instruction(&self, id: StreamId) -> Option<Instr>
        requires { is_begun (state_of self.now) id ≡ true }
        ensures { result ≡ next_instruction (state_of self.now) id }
    {
        self.plans
            .at(id.plan as usize)
            .next_instruction(id.stream as usize)
    }

    /// Returns the number of tries of calls that a stream may make.
    pub fn allowance(&self, id: StreamId) -> u64
        requires { is_begun (state_of self.now) id ≡ true }
        ensures { result ≡ allowance (state_of self.now) id }
    {
        self.plans
            .at(id.plan as usize)
            .allowance(id.stream as usize)
    }

    /// Returns the number of recorded steps that a stream makes on its way, with the tries that it has made.
    pub fn steps_made(&self, id: StreamId) -> u64
        requires begun { is_begun (state_of self.now) id ≡ true }
        requires tries { (progress_of (state_of self.now) id).tries ≤ allowance (state_of self.now) id }
        ensures { result ≡ steps_at_end (state_of self.now) id }
    {
        self.plans
            .at(id.plan as usize)
            .steps_made(id.stream as usize)
    }

    /// Sets a stream's progress.
    pub fn set_progress(&mut self, id: StreamId, progress: Progress)
        requires known { is_begun (state_of self.old) id ≡ true }
        requires done { progress.done ≡ (progress_of (state_of self.old) id).done }
        ensures { whole_of self.new ≡ with_state (whole_of self.old)
            (record (state_of self.old) { progress = set_progress (state_of self.old) id progress }) }
    {
        let plan = id.plan as usize;
        self.plans.swap(plan, &mut self.desk);
        self.desk.set_progress(id.stream as usize, progress);
        self.plans.swap(plan, &mut self.desk);
    }

    /// Returns the log's length when a stream came to its position.
    pub fn since(&self, id: StreamId) -> u32
        requires { is_begun (state_of self.now) id ≡ true }
        ensures { result ≡ since_of (state_of self.now) id }
    {
        self.plans.at(id.plan as usize).since(id.stream as usize)
    }

    /// Trades a stream's rights for an instruction: gives up those that it needs, gets those that it gives, and returns
    /// both.
    pub fn trade(&mut self, id: StreamId, instr: &Instr) -> Change
        requires { IsReadyToTrade (whole_of self.old) id instr.now }
        ensures whole { whole_of self.new ≡ record
            (whole_of self.old) {
              grants = put2 (whole_of self.old).grants id.plan id.stream
                  (grant_of self.new id);
            } }
        ensures traded { IsTradedBy (state_of self.old).sizes instr.now (grant_of self.old id) (grant_of self.new id) }
        ensures change { result ≡ exchange_of (state_of self.old).sizes instr.now (hold_in (grant_of self.old id)) }
    {
        let config = self.placement.config();
        let plan = id.plan as usize;
        self.plans.swap(plan, &mut self.desk);
        let change = self.desk.trade(id.stream as usize, config, instr);
        self.plans.swap(plan, &mut self.desk);
        change
    }

    /// Tells whether a signal was posted.
    pub fn is_posted(&self, id: StreamId, signal: u32) -> bool
        requires begun { is_begun (state_of self.now) id ≡ true }
        requires signal { signal < signal_count (state_of self.now) id.plan }
        ensures { result ≡ ((state_of self.now).marks id.plan signal).posted }
    {
        self.plans.at(id.plan as usize).is_posted(signal as usize)
    }

    /// States that what a stream holds is in order.
    pub fn held_in_order(&self, id: StreamId)
        requires { is_begun (state_of self.now) id ≡ true }
        ensures order { IsGrantInOrder (grant_of self.now id) }
        ensures there { is_some (grant_of self.now id) ≡ not (progress_of (state_of self.now) id).done }
    {
        self.plans
            .at(id.plan as usize)
            .held_in_order(id.stream as usize);
    }

    /// States that what a signal carries is in order.
    pub fn carried_in_order(&self, id: StreamId, signal: u32)
        requires begun { is_begun (state_of self.now) id ≡ true }
        requires signal { signal < signal_count (state_of self.now) id.plan }
        ensures order { IsGrantInOrder ((whole_of self.now).parcels id.plan signal) }
        ensures there { is_some ((whole_of self.now).parcels id.plan signal)
            ≡ not ((state_of self.now).marks id.plan signal).awaited }
    {
        self.plans
            .at(id.plan as usize)
            .carried_in_order(signal as usize);
    }

    /// Posts a signal: a stream gives its parcel up.
    pub fn post(&mut self, id: StreamId, signal: u32)
        requires begun { is_begun (state_of self.old) id ≡ true }
        requires signal { signal < signal_count (state_of self.old) id.plan }
        requires running { (progress_of (state_of self.old) id).done ≡ false }
        requires there { ((state_of self.old).marks id.plan signal).awaited ≡ false }
        requires held { first_short (hold_in (grant_of self.old id)) (parcel_at (state_of self.old) id.plan signal)
            ≡ None }
        requires fits { CanJoin (hold_in ((whole_of self.old).parcels id.plan signal))
            (hold_of (parcel_at (state_of self.old) id.plan signal)) }
        requires capacity { HasCapacityIn ((whole_of self.old).parcels id.plan signal)
            (parcel_at (state_of self.old) id.plan signal) }
        ensures whole { whole_of self.new ≡ with_signal
            (record (whole_of self.old) {
              grants = put2 (whole_of self.old).grants id.plan id.stream
                  (grant_of self.new id);
            }) id.plan signal (record
            ((state_of self.old).marks id.plan signal) { posted = true })
            ((whole_of self.new).parcels id.plan signal) }
        ensures sent { hold_in ((whole_of self.new).parcels id.plan signal)
            ≡ plus (hold_in ((whole_of self.old).parcels id.plan signal))
            (parcel_at (state_of self.old) id.plan signal) }
        ensures left { hold_in (grant_of self.new id)
            ≡ minus (hold_in (grant_of self.old id)) (parcel_at (state_of self.old) id.plan signal) }
        ensures capacity { capacity_in (grant_of self.new id) ≡ capacity_in (grant_of self.old id) }
    {
        let plan = id.plan as usize;
        self.plans.swap(plan, &mut self.desk);
        self.desk.post(id.stream as usize, signal as usize);
        self.plans.swap(plan, &mut self.desk);
    }

    /// Gives a stream the parcel of a signal that was posted.
    pub fn wait(&mut self, id: StreamId, signal: u32)
        requires begun { is_begun (state_of self.old) id ≡ true }
        requires signal { signal < signal_count (state_of self.old) id.plan }
        requires running { (progress_of (state_of self.old) id).done ≡ false }
        requires there { ((state_of self.old).marks id.plan signal).awaited ≡ false }
        requires fits { CanJoin (hold_in (grant_of self.old id))
            (hold_in ((whole_of self.old).parcels id.plan signal)) }
        requires capacity { HasCapacityIn (grant_of self.old id)
            (rights_in ((whole_of self.old).parcels id.plan signal)) }
        ensures whole { whole_of self.new ≡ with_signal
            (record (whole_of self.old) {
              grants = put2 (whole_of self.old).grants id.plan id.stream
                  (grant_of self.new id);
            }) id.plan signal (record
            ((state_of self.old).marks id.plan signal) { awaited = true }) None }
        ensures hold { hold_in (grant_of self.new id)
            ≡ plus (hold_in (grant_of self.old id)) (rights_in ((whole_of self.old).parcels id.plan signal)) }
        ensures capacity { capacity_in (grant_of self.new id) ≡ capacity_in (grant_of self.old id) }
    {
        let plan = id.plan as usize;
        self.plans.swap(plan, &mut self.desk);
        self.desk.wait(id.stream as usize, signal as usize);
        self.plans.swap(plan, &mut self.desk);
    }

    /// Gives back what a finishing stream holds.
    pub fn give_back(&mut self, id: StreamId)
        requires begun { is_begun (state_of self.old) id ≡ true }
        requires running { (progress_of (state_of self.old) id).done ≡ false }
        requires below { IsKnownHold (state_of self.old).sizes.shards (state_of self.old).sizes.servers
            (hold_in (grant_of self.old id)) }
        requires fits { CanJoin (whole_of self.old).pool (hold_in (grant_of self.old id)) }
        ensures { whole_of self.new ≡ record (with_stream (whole_of self.old) id
            (record (progress_of (state_of self.old) id) { done = true }) None)
            { pool = plus (whole_of self.old).pool (rights_in (grant_of self.old id)) } }
    {
        let plan = id.plan as usize;
        self.plans.swap(plan, &mut self.desk);
        let grant = self.desk.end(id.stream as usize);
        self.plans.swap(plan, &mut self.desk);
        self.pool.give_back(grant);
    }

    /// Counts one more stream of a plan as finished, and if it was the last, the plan too.
    pub fn finish_one(&mut self, id: StreamId)
        requires begun { is_begun (state_of self.old) id ≡ true }
        ensures { whole_of self.new ≡ record (whole_of self.old) {
          unfinished = put (whole_of self.old).unfinished id.plan
              ((whole_of self.old).unfinished id.plan - 1);
          running = if
              (whole_of self.old).unfinished id.plan == 1 then (whole_of self.old).running - 1 else
              (whole_of self.old).running;
        } }
    {
        let plan = id.plan as usize;
        self.plans.swap(plan, &mut self.desk);
        let last = self.desk.finish_one();
        self.plans.swap(plan, &mut self.desk);
        if last {
            self.running = self.running.saturating_sub(1);
            take_out(&mut self.unfinished, id.plan);
        }
    }

    /// Returns the number of plans that were begun.
    pub fn plan_count(&self) -> usize
        ensures { result ≡ length (state_of self.now).plans }
    {
        self.plans.len()
    }

    /// Returns the number of streams of a plan.
    pub fn stream_count(&self, plan: u32) -> usize
        requires { plan < length (state_of self.now).plans }
        ensures { result ≡ stream_count (state_of self.now) plan }
    {
        self.plans.at(plan as usize).stream_count()
    }

    /// Returns the plan with a number.
    pub fn plan(&self, plan: u32) -> &Plan
        requires { plan < length (state_of self.now).plans }
        ensures { result.now ≡ plan_at (state_of self.now) plan }
    {
        self.plans.at(plan as usize).plan()
    }
}
