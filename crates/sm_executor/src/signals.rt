//! Steps that post signals, for which streams wait.

use crate::held::Held;
use crate::names::Naming;
use crate::runner::Runner;
use sm_plan_code::Instr;
use sm_reservation::StreamId;
use std::sync::ledger::Ledger;

impl<A: Ledger, B: Ledger, C: Ledger, N: Naming> Held<A, B, C, N> {
    /// Tells whether the runner's next step posts a signal, if it is made. No other step lets a stream go on that
    /// waits.
    pub fn is_before_signal(&self, runner: &Runner<A>) -> bool {
        let StreamId { plan, stream } = runner.id();
        let Some(at) = self.position(runner) else {
            return false;
        };
        let parts = &self.machine.plan(plan).streams()[stream as usize];
        match parts.code.get(at) {
            Some(Instr::Signal { .. }) => true,
            _ => false,
        }
    }
}
