//! Questions to a link: whether the next step tries a call, and under which number.
ghost use Rattle.std.specs.Prelude.{◌≡◌, true};
ghost use Rattle.sm_protocol.specs.State.{is_begun, progress_of};
ghost use Rattle.sm_protocol.specs.Steps.{call_number};
ghost use Rattle.sm_machine.specs.State.{state_of};
ghost use Rattle.sm_machine.specs.Losses.{makes_try};

use crate::engine::Engine;
use sm_plan_code::is_call;
use sm_reservation::StreamId;

impl Engine {
    /// Tells whether a stream's next step tries a call.
    pub fn makes_try(&self, id: StreamId) -> bool
        ensures { result ≡ makes_try (state_of self.now) id }
    {
        if self.is_halted() || !self.is_begun(id) {
            return false;
        }
        let progress = self.progress(id);
        if progress.done {
            return false;
        }
        match self.next_instruction(id) {
            None => false,
            Some(instr) => is_call(&instr) && progress.tries != self.allowance(id),
        }
    }

    /// Returns the number of a stream's next try.
    pub fn try_number(&self, id: StreamId) -> u64
        requires { is_begun (state_of self.now) id ≡ true }
        ensures { result ≡ call_number (state_of self.now) (progress_of (state_of self.now) id) }
    {
        self.call_number(self.progress(id))
    }
}
