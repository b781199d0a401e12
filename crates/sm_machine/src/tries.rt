//! Tries of calls.
ghost use Rattle.std.specs.Prelude.{◌≡◌, ◌<◌, ◌+◌, ◌-◌, ◌^◌, ◌==◌, if◌then◌else◌, ℕ, Some, None, Ok, IfSome, true};
ghost use Rattle.std.specs.Prelude.{false};
ghost use Rattle.sm_placement.specs.Sums.{put2};
ghost use Rattle.sm_placement.specs.Place.{called_numbered};
ghost use Rattle.sm_plan_code.specs.Instr.{shard_of, IsOwn};
ghost use Rattle.sm_plan_code.specs.Acts.{numbers_after};
ghost use Rattle.sm_protocol.specs.State.{is_begun, progress_of, numbers_end};
ghost use Rattle.sm_protocol.specs.Steps.{call_number, number_after_try, call_to_make, served_try, call_lost};
ghost use Rattle.sm_protocol.specs.Steps.{behind_call, ahead_of_call};
ghost use Rattle.sm_protocol.specs.declared.event.Event.TheVariants as event;
ghost use Rattle.sm_protocol.specs.declared.event.Played.TheVariants as played;
ghost use Rattle.sm_machine.specs.State.{whole_of, state_of, grant_of, with_state};
ghost use Rattle.sm_machine.specs.Ready.{IsReadyToGo, IsReadyToCall};
ghost use Rattle.sm_machine.specs.Trade.{CanTradeUnless, IsTradedUnless, CanServe};

use crate::engine::Engine;
use crate::progress::Progress;
use sm_plan_code::{Instr, ServerCall, call_of};
use sm_protocol::{Event, Played};
use sm_reservation::StreamId;
use sm_server::ShardId;

/// Returns the shard that an instruction is of.
pub(crate) const fn shard_of(instr: &Instr) -> Option<ShardId>
    ensures { result ≡ shard_of instr.now }
{
    match *instr {
        Instr::PrepareAdd { shard, .. }
        | Instr::PrepareDrop { shard, .. }
        | Instr::Add { shard, .. }
        | Instr::Drop { shard, .. }
        | Instr::Change { shard, .. }
        | Instr::Publish { shard }
        | Instr::Unlist { shard } => Some(shard),
        Instr::Signal { .. } | Instr::Wait { .. } => None,
    }
}

impl Engine {
    /// Returns the call of a stream's next try, None if the instruction is no call.
    pub fn call_to_make(&self, progress: Progress, instr: &Instr) -> Option<ServerCall>
        requires shard { IfSome (shard_of instr.now) (λ s. s < (state_of self.now).sizes.shards) }
        requires numbers { (s : ℕ) → (state_of self.now).numbers s < numbers_end }
        ensures { result ≡ call_to_make (state_of self.now) progress instr.now }
    {
        if !progress.ahead {
            return self.call_at_numbers(instr);
        }
        match shard_of(instr) {
            None => None,
            Some(shard) => call_of(instr, self.number(shard)),
        }
    }

    /// Returns the number of a stream's next try.
    pub fn call_number(&self, progress: Progress) -> u64
        ensures { result ≡ call_number (state_of self.now) progress }
    {
        if progress.pending == 0 {
            self.next_number()
        } else {
            progress.pending
        }
    }

    /// Counts a try, which uses its number up.
    fn count_try(&mut self, progress: Progress)
        requires { (state_of self.old).next_number < numbers_end }
        ensures { whole_of self.new ≡ with_state (whole_of self.old)
            (record (state_of self.old) { next_number = number_after_try (state_of self.old) progress }) }
    {
        if progress.pending == 0 {
            let number = self.next_number();
            self.set_next_number(number + 1);
        }
    }

    /// Raises the highest handover numbers by an instruction.
    fn raise_numbers(&mut self, instr: &Instr)
        requires shard { IfSome (shard_of instr.now) (λ s. s < (state_of self.old).sizes.shards) }
        requires numbers { (s : ℕ) → (state_of self.old).numbers s < numbers_end }
        ensures { whole_of self.new ≡ with_state (whole_of self.old)
            (record (state_of self.old) { numbers = numbers_after (state_of self.old).numbers instr.now }) }
    {
        if let Instr::PrepareAdd { shard, .. } = *instr {
            let number = self.number(shard);
            self.set_number(shard, number + 1);
        }
    }

    /// Trades a stream's rights for a call, unless its effect came before.
    fn trade_unless(&mut self, id: StreamId, ahead: bool, instr: &Instr)
        requires begun { is_begun (state_of self.old) id ≡ true }
        requires running { (progress_of (state_of self.old) id).done ≡ false }
        requires known { IfSome (shard_of instr.now) (λ s. s < (state_of self.old).sizes.shards) }
        requires own { IsOwn instr.now }
        requires can { CanTradeUnless ahead (state_of self.old).sizes instr.now (grant_of self.old id) }
        ensures whole { whole_of self.new ≡ record
            (whole_of self.old) {
              grants = put2 (whole_of self.old).grants id.plan id.stream
                  (grant_of self.new id);
            } }
        ensures traded { IsTradedUnless ahead (state_of self.old).sizes instr.now (grant_of self.old id)
            (grant_of self.new id) }
    {
        if !ahead {
            let _change = self.trade(id, instr);
        }
    }

    /// Makes a try, which comes to its server. Returns whether it has its effect now.
    fn serve_try(
        &mut self,
        id: StreamId,
        progress: Progress,
        instr: &Instr,
        call: &ServerCall,
    ) -> bool
        requires begun { is_begun (state_of self.old) id ≡ true }
        requires running { (progress_of (state_of self.old) id).done ≡ false }
        requires known { IfSome (shard_of instr.now) (λ s. s < (state_of self.old).sizes.shards) }
        requires own { IsOwn instr.now }
        requires can { CanTradeUnless progress.ahead (state_of self.old).sizes instr.now (grant_of self.old id) }
        requires call { CanServe (state_of self.old) progress call.now }
        requires numbers { (s : ℕ) → (state_of self.old).numbers s < numbers_end }
        requires next { (state_of self.old).next_number < numbers_end }
        ensures effect { called_numbered (state_of self.old).sizes
            (state_of self.old).place call.now.shard call.now.server call.now.call
            (call_number (state_of self.old) progress)
            ≡ Ok (record { place = (state_of self.new).place; fresh = result }) }
        ensures whole { whole_of self.new ≡ record
            (whole_of self.old) {
              state = record (state_of self.old) {
                place = (state_of self.new).place;
                numbers = if result then numbers_after
                    (state_of self.old).numbers instr.now else
                    (state_of self.old).numbers;
                next_number = number_after_try (state_of self.old) progress;
              };
              grants =
                  put2 (whole_of self.old).grants id.plan id.stream (grant_of self.new id);
            } }
        ensures traded { IsTradedUnless progress.ahead (state_of self.old).sizes instr.now (grant_of self.old id)
            (grant_of self.new id) }
    {
        let number = self.call_number(progress);
        let fresh = self.serve(call, number);
        if fresh {
            self.raise_numbers(instr);
        }
        self.count_try(progress);
        self.trade_unless(id, progress.ahead, instr);
        fresh
    }

    /// Makes a call that comes to its server, and whose answer comes back. Returns whether it has its effect now.
    pub fn call_through(&mut self, id: StreamId, instr: &Instr, call: &ServerCall) -> bool
        requires { IsReadyToCall (whole_of self.old) id instr.now call.now }
        ensures effect { called_numbered (state_of self.old).sizes
            (state_of self.old).place call.now.shard call.now.server call.now.call
            (call_number (state_of self.old) (progress_of (state_of self.old) id))
            ≡ Ok (record { place = (state_of self.new).place; fresh = result }) }
        ensures whole { whole_of self.new ≡ record
            (whole_of self.old) {
              state = served_try (state_of self.old) id instr.now
                  (record { place = (state_of self.new).place; fresh = result })
                  (behind_call (progress_of (state_of self.old) id) result)
                  (event.Step id) played.Moved;
              grants = put2 (whole_of self.old).grants id.plan id.stream
                  (grant_of self.new id);
            } }
        ensures traded { IsTradedUnless (progress_of (state_of self.old) id).ahead
            (state_of self.old).sizes instr.now (grant_of self.old id) (grant_of self.new id) }
    {
        let progress = self.progress(id);
        let fresh = self.serve_try(id, progress, instr, call);
        self.set_progress(id, progress.behind_call(fresh));
        self.record_step(id, Played::Moved);
        fresh
    }

    /// Makes a call that comes to its server, and whose answer is lost. Returns whether it has its effect now.
    pub fn call_unanswered(&mut self, id: StreamId, instr: &Instr, call: &ServerCall) -> bool
        requires { IsReadyToCall (whole_of self.old) id instr.now call.now }
        ensures effect { called_numbered (state_of self.old).sizes
            (state_of self.old).place call.now.shard call.now.server call.now.call
            (call_number (state_of self.old) (progress_of (state_of self.old) id))
            ≡ Ok (record { place = (state_of self.new).place; fresh = result }) }
        ensures whole { whole_of self.new ≡ record
            (whole_of self.old) {
              state = served_try (state_of self.old) id instr.now
                  (record { place = (state_of self.new).place; fresh = result })
                  (ahead_of_call (state_of self.old) (progress_of (state_of self.old) id) result)
                  (event.Lose id true) played.Lost;
              grants = put2 (whole_of self.old).grants id.plan id.stream
                  (grant_of self.new id);
            } }
        ensures traded { IsTradedUnless (progress_of (state_of self.old) id).ahead
            (state_of self.old).sizes instr.now (grant_of self.old id) (grant_of self.new id) }
    {
        let progress = self.progress(id);
        let number = self.call_number(progress);
        let fresh = self.serve_try(id, progress, instr, call);
        self.set_progress(id, progress.ahead_of_call(number, fresh));
        let event = Event::Lose {
            stream: id,
            after: true,
        };
        self.record(event, Played::Lost);
        fresh
    }

    /// Makes a call that is lost on its way to its server.
    pub fn call_lost(&mut self, id: StreamId)
        requires go { IsReadyToGo (state_of self.old) id }
        requires next { (state_of self.old).next_number < numbers_end }
        requires tries { (progress_of (state_of self.old) id).tries < 2 ^ 64 - 1 }
        requires effects { (progress_of (state_of self.old) id).effects < numbers_end }
        ensures { whole_of self.new ≡ with_state (whole_of self.old) (call_lost (state_of self.old) id) }
    {
        let progress = self.progress(id);
        let number = self.call_number(progress);
        self.count_try(progress);
        self.set_progress(id, progress.call_lost(number));
        let event = Event::Lose {
            stream: id,
            after: false,
        };
        self.record(event, Played::Lost);
    }
}
