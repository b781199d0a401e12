//! A plan that has begun on a machine and has no board yet.
ghost use Rattle.std.specs.Prelude.{◌≡◌, ◌≤◌, IfOk, [], vec_len, vec_capacity};

use crate::outstanding::Outstanding;
use sm_executor::Naming;
use sm_machine::{Machine, Permit, StreamToken};
use std::alloc::{AllocError, Global};
use std::sync::ledger::Ledger;

/// A plan that has begun on a machine, with what the machine has given out and what the report says of the plan so far.
pub struct Begun {
    /// The machine that the board is to stand over.
    pub machine: Machine,
    /// The rights to end the restarts that were under way. A run ends none.
    pub permits: Vec<Permit>,
    /// The tokens of the plan's streams, in their order.
    pub tokens: Vec<StreamToken>,
    /// The report's first line, which says that the plan is accepted.
    pub accepted: String,
}

impl Begun {
    /// Ends the machine, with all that it has given out.
    pub fn give_up(self, alloc: Global) {
        let Begun {
            machine,
            permits,
            tokens,
            accepted: _,
        } = self;
        machine.give_up(tokens, permits, Vec::new(alloc));
    }

    /// Makes room for what a board gives out for the plan and this many asks. If memory runs out, the plan is given up.
    pub fn with_room<A: Ledger, B: Ledger, C: Ledger, N: Naming>(
        self,
        alloc: Global,
        asks: usize,
    ) -> Result<(Begun, Outstanding<A, B, C, N>), AllocError>
        ensures begun { IfOk result (λ both. both.0 ≡ self) }
        ensures ended { IfOk result (λ both. both.1.ended.items ≡ []) }
        ensures clients { IfOk result (λ both. (both.1.clients.items ≡ []) × (asks ≤ vec_capacity both.1.clients)) }
        ensures callers { IfOk result (λ both. (both.1.callers.items ≡ []) × (asks ≤ vec_capacity both.1.callers)) }
        ensures tokens { IfOk result (λ both. (both.1.tokens.items ≡ [])
            × (vec_len self.tokens ≤ vec_capacity both.1.tokens)) }
    {
        match Outstanding::with_room(alloc, self.tokens.len(), asks) {
            Ok(given) => Ok((self, given)),
            Err(error) => {
                self.give_up(alloc);
                Err(error)
            }
        }
    }
}
