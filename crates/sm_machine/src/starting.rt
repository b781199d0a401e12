//! Starts of plans.
ghost use Rattle.std.specs.Prelude.{◌≡◌, ◌≢◌, nat_lt, ◌≤◌, ◌<◌, ◌+◌, [], Some, None, IfOk, OnErr, IfErr, length};
ghost use Rattle.std.specs.Prelude.{vec_capacity};
ghost use Rattle.sm_plan_code.specs.declared.limits.TheConstants.{MOST_PLANS, MOST_STREAMS};
ghost use Rattle.sm_protocol.specs.State.{places_of};
ghost use Rattle.sm_protocol.specs.declared.event.BeginFault.TheVariants as fault;
ghost use Rattle.sm_machine.specs.State.{whole_of, state_of};
ghost use Rattle.sm_placement.specs.Sums.{bit};
ghost use Rattle.sm_machine.specs.Working.{IsWorking};
ghost use Rattle.sm_machine.specs.Starts.{AreTokens, begin_fault};
ghost use Rattle.sm_machine.specs.Started.{IsStarted, IsNotStarted};

use crate::engine::Engine;
use crate::places::places_of;
use crate::ready_plan::ReadyPlan;
use crate::token::StreamToken;
use sm_plan_code::{MOST_NUMBER, MOST_PLANS};
use sm_protocol::BeginFault;
use sm_reservation::StreamId;
use sm_verifier::Checked;

/// Makes the tokens of the first streams of a plan, in a list with room for them. Takes no memory.
fn fill_tokens(tokens: &mut Vec<StreamToken>, plan: u32, count: usize)
    requires none { tokens.old.items ≡ [] }
    requires room { count ≤ vec_capacity tokens.old }
    requires within { count ≤ MOST_STREAMS }
    ensures { AreTokens plan count tokens.new.items }
{
    for stream in 0..count {
        let id = StreamId {
            plan,
            stream: stream as u32,
        };
        tokens.push_reserved(StreamToken::new(id));
    }
}

impl Engine {
    /// The fault for which a checked plan that takes `places` places of the log does not start, if memory is there.
    pub fn start_fault(&self, checked: &Checked, places: u64) -> Option<BeginFault>
        requires setup { checked.now.setup ≡ self.now.placement.setup }
        requires places { places ≡ places_of checked.now.plan }
        requires working { IsWorking (whole_of self.now) }
        ensures { result ≡ begin_fault (whole_of self.now) checked.now.plan }
    {
        if let Some(why) = self.holding(checked) {
            return Some(BeginFault::Holding(why));
        }
        if self.free() < places {
            return Some(BeginFault::LogFull);
        }
        if self.running() >= MOST_PLANS as u32 || self.plan_count() > MOST_NUMBER as usize {
            return Some(BeginFault::TooManyPlans);
        }
        None
    }

    /// Counts another unfinished plan with this many streams, and sets the number of free places of the log.
    fn count_start(&mut self, free: u64, streams: usize)
        requires { (whole_of self.old).running < MOST_PLANS }
        ensures { whole_of self.new ≡ record (whole_of self.old)
            { free = free; running = (whole_of self.old).running + bit (nat_lt 0 streams) } }
    {
        self.set_free(free);
        if streams > 0 {
            let running = self.running();
            self.set_running(running + 1);
        }
    }

    /// Starts a plan that was checked for the machine's configuration. If it does not start, it comes back. Takes no
    /// memory.
    pub fn start_by(
        &mut self,
        ready: ReadyPlan,
    ) -> Result<(u32, Vec<StreamToken>), (ReadyPlan, BeginFault)>
        requires setup { ready.setup ≡ self.old.placement.setup }
        requires working { IsWorking (whole_of self.old) }
        ensures started { IfOk result (λ r. IsStarted (whole_of self.old) ready r.0 (whole_of self.new)) }
        ensures tokens { IfOk result (λ r. AreTokens r.0 (length ready.plan.streams) r.1.items) }
        ensures unchanged { OnErr result (self.new ≡ self.old) }
        ensures back { IfErr result (λ e. e.0 ≡ ready) }
        ensures fault { IfErr result (λ e. IsNotStarted (state_of self.old) ready.plan e.1) }
        ensures memory { IfErr result (λ e. e.1 ≢ fault.NoMemory) }
    {
        let checked = ready.checked();
        let places = places_of(checked.plan());
        let streams = checked.plan().streams().len();
        if let Some(fault) = self.start_fault(checked, places) {
            return Err((ready, fault));
        }
        let plan = self.plan_count() as u32;
        let free = self.free() - places;
        let mut tokens = self.add_plan(ready);
        fill_tokens(&mut tokens, plan, streams);
        self.count_start(free, streams);
        Ok((plan, tokens))
    }
}
