//! Refills: a stream may make more tries.
ghost use Rattle.std.specs.Prelude.{◌≡◌, ◌<◌, ◌≤◌, ◌+◌, ◌-◌, ◌^◌, Some, None, true, length};
ghost use Rattle.sm_protocol.specs.State.{is_begun, progress_of, free_places};
ghost use Rattle.sm_protocol.specs.Happens.{refill_fault, refilled};
ghost use Rattle.sm_protocol.specs.Happens as happening;
ghost use Rattle.sm_machine.specs.State.{whole_of, state_of};
ghost use Rattle.sm_machine.specs.Working.{IsWorking};
ghost use Rattle.sm_machine.specs.Losses.{refill_answer, HasHappened};
ghost use Rattle.sm_plan_code.specs.declared.limits.TheConstants.{MOST_CALLS};

use crate::engine::Engine;
use sm_plan_code::MOST_ALLOWANCE;
use sm_protocol::{Event, Played, RefillFault};
use sm_reservation::StreamId;

impl Engine {
    /// Returns why a stream's allowance is not raised by `more`.
    fn refill_fault(&self, id: StreamId, more: u32) -> Option<RefillFault>
        requires free { (whole_of self.now).free ≡ free_places (state_of self.now) }
        requires more { more ≤ MOST_CALLS }
        ensures { result ≡ refill_fault (state_of self.now) id more }
    {
        if !self.is_begun(id) {
            return Some(RefillFault::Ended);
        }
        if self.progress(id).done {
            return Some(RefillFault::Ended);
        }
        if self.allowance(id) > u64::from(MOST_ALLOWANCE) - u64::from(more) {
            return Some(RefillFault::TooMany);
        }
        if self.free() < u64::from(more) + 1 {
            return Some(RefillFault::LogFull);
        }
        None
    }

    /// Raises a stream's allowance, with a place of the log for each further try.
    fn raise_allowance(&mut self, id: StreamId, more: u32)
        requires begun { is_begun (state_of self.old) id ≡ true }
        requires small { (progress_of (state_of self.old) id).refills + more < 2 ^ 32 }
        requires places { more + 1 ≤ (whole_of self.old).free }
        requires room { length (state_of self.old).log < (state_of self.old).room }
        ensures { whole_of self.new ≡ record (whole_of self.old) {
          state = (refilled (state_of self.old) id more None).1;
          free = (whole_of self.old).free -
              (more + 1);
        } }
    {
        let progress = self.progress(id);
        self.set_progress(id, progress.refilled(more));
        let free = self.free();
        self.set_free(free - (u64::from(more) + 1));
        self.record(Event::Refill { stream: id, more }, Played::Refilled);
    }

    /// Raises a stream's allowance, unless there is a fault.
    pub fn refill(&mut self, id: StreamId, more: u32) -> Result<(), RefillFault>
        requires working { IsWorking (whole_of self.old) }
        requires more { more ≤ MOST_CALLS }
        ensures { HasHappened (whole_of self.old) (happening.Refill id more) (refill_answer result)
            (whole_of self.new) }
    {
        if let Some(fault) = self.refill_fault(id, more) {
            return Err(fault);
        }
        self.raise_allowance(id, more);
        Ok(())
    }
}
