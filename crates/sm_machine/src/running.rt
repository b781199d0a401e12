//! Steps of streams: the next instruction is made, or the end.
ghost use Rattle.std.specs.Prelude.{◌≡◌, ◌==◌, ◌<◌, ◌-◌, ◌^◌, IfSome, Some, None, false, true};
ghost use Rattle.sm_plan_code.specs.Instr.{is_call};
ghost use Rattle.sm_plan_code.specs.declared.instruction.Instr.TheVariants as instr;
ghost use Rattle.sm_protocol.specs.declared.event.Passage.{Passage};
ghost use Rattle.sm_protocol.specs.State.{progress_of, allowance};
ghost use Rattle.sm_protocol.specs.Steps.{step, call_to_make};
ghost use Rattle.sm_machine.specs.State.{whole_of, state_of};
ghost use Rattle.sm_machine.specs.Working.{IsWorking, IsAt, IsStepped};
ghost use Rattle.sm_machine.specs.Played.{played_of};

use crate::engine::Engine;
use crate::step::Step;
use sm_plan_code::{Instr, ServerCall, is_call};
use sm_protocol::Passage;
use sm_reservation::{Crown, StreamId};
use sm_server::{ServerId, ShardId};

/// Returns the server that a crown lists.
fn listed_in(crown: Option<Crown>) -> Option<ServerId>
    ensures { IfSome crown (λ c. result ≡ c.listed) }
{
    match crown {
        Some(crown) => crown.listed,
        None => None,
    }
}

impl Engine {
    /// Publishes the server that serves a shard, for a stream.
    fn make_publish(&mut self, id: StreamId, shard: ShardId) -> Step
        requires { IsAt (whole_of self.old) id (Some (instr.Publish shard)) }
        ensures { (p : Passage) → IsStepped (whole_of self.old) id p (played_of result) (whole_of self.new) }
    {
        self.held_in_order(id);
        let change = self.trade(id, &Instr::Publish { shard });
        let listed = listed_in(change.got.crown);
        self.step_publish(id, shard, listed);
        Step::Moved
    }

    /// Takes a shard's server out of the published map, for a stream.
    fn make_unlist(&mut self, id: StreamId, shard: ShardId) -> Step
        requires { IsAt (whole_of self.old) id (Some (instr.Unlist shard)) }
        ensures { (p : Passage) → IsStepped (whole_of self.old) id p (played_of result) (whole_of self.new) }
    {
        self.held_in_order(id);
        let _change = self.trade(id, &Instr::Unlist { shard });
        self.step_publish(id, shard, None);
        Step::Moved
    }

    /// Posts a signal, for a stream.
    fn make_signal(&mut self, id: StreamId, signal: u32) -> Step
        requires { IsAt (whole_of self.old) id (Some (instr.Signal signal)) }
        ensures { (p : Passage) → IsStepped (whole_of self.old) id p (played_of result) (whole_of self.new) }
    {
        self.held_in_order(id);
        self.step_signal(id, signal);
        Step::Moved
    }

    /// Gives a stream the parcel of a signal, if the signal was posted.
    fn make_wait(&mut self, id: StreamId, signal: u32) -> Step
        requires { IsAt (whole_of self.old) id (Some (instr.Wait signal)) }
        ensures { (p : Passage) → IsStepped (whole_of self.old) id p (played_of result) (whole_of self.new) }
    {
        if !self.is_posted(id, signal) {
            return Step::Blocked { signal };
        }
        self.held_in_order(id);
        self.carried_in_order(id, signal);
        self.step_wait(id, signal);
        Step::Moved
    }

    /// Ends a stream. The tries that it has left are free.
    fn make_end(&mut self, id: StreamId) -> Step
        requires { IsAt (whole_of self.old) id None }
        ensures { (p : Passage) → IsStepped (whole_of self.old) id p (played_of result) (whole_of self.new) }
    {
        self.held_in_order(id);
        let left = self.allowance(id).saturating_sub(self.progress(id).tries);
        let free = self.free().saturating_add(left);
        self.step_end(id, free);
        Step::Done
    }

    /// Tries a call of a stream.
    fn make_try(&mut self, id: StreamId, passage: Passage, instr: &Instr, call: &ServerCall) -> Step
        requires at { IsAt (whole_of self.old) id (Some instr.now) }
        requires call { is_call instr.now ≡ true }
        requires makes { call_to_make (state_of self.old) (progress_of (state_of self.old) id) instr.now
            ≡ Some call.now }
        requires unspent { ((progress_of (state_of self.old) id).tries == allowance (state_of self.old) id) ≡ false }
        requires few { (progress_of (state_of self.old) id).tries < 2 ^ 64 - 1 }
        ensures { IsStepped (whole_of self.old) id passage (played_of result) (whole_of self.new) }
    {
        self.held_in_order(id);
        match passage {
            Passage::Through => {
                let _fresh = self.call_through(id, instr, call);
                Step::Moved
            }
            Passage::LostBefore => {
                self.call_lost(id);
                Step::Lost
            }
            Passage::LostAfter => {
                let _fresh = self.call_unanswered(id, instr, call);
                Step::Lost
            }
        }
    }

    /// Tries a call of a stream, unless the stream has spent its allowance.
    fn make_call(&mut self, id: StreamId, passage: Passage, instr: &Instr) -> Step
        requires at { IsAt (whole_of self.old) id (Some instr.now) }
        requires call { is_call instr.now ≡ true }
        ensures { IsStepped (whole_of self.old) id passage (played_of result) (whole_of self.new) }
    {
        let progress = self.progress(id);
        let Some(call) = self.call_to_make(progress, instr) else {
            return Step::Unknown;
        };
        if progress.tries == self.allowance(id) {
            return Step::Spent;
        }
        self.make_try(id, passage, instr, &call)
    }

    /// Makes a stream's next instruction.
    fn make(&mut self, id: StreamId, passage: Passage, instr: &Instr) -> Step
        requires { IsAt (whole_of self.old) id (Some instr.now) }
        ensures { IsStepped (whole_of self.old) id passage (played_of result) (whole_of self.new) }
    {
        match *instr {
            Instr::Publish { shard } => self.make_publish(id, shard),
            Instr::Unlist { shard } => self.make_unlist(id, shard),
            Instr::Signal { signal } => self.make_signal(id, signal),
            Instr::Wait { signal } => self.make_wait(id, signal),
            Instr::PrepareAdd { .. }
            | Instr::PrepareDrop { .. }
            | Instr::Add { .. }
            | Instr::Drop { .. }
            | Instr::Change { .. } => self.make_call(id, passage, instr),
        }
    }

    /// Makes a stream's next step. If that tries a call, `passage` says whether the try gets through.
    pub fn step_by(&mut self, id: StreamId, passage: Passage) -> Step
        requires { IsWorking (whole_of self.old) }
        ensures { IsStepped (whole_of self.old) id passage (played_of result) (whole_of self.new) }
    {
        if self.is_halted() {
            return Step::Halted;
        }
        if !self.is_begun(id) {
            return Step::Unknown;
        }
        if self.progress(id).done {
            return Step::Done;
        }
        match self.next_instruction(id) {
            None => self.make_end(id),
            Some(instr) => self.make(id, passage, &instr),
        }
    }
}
