//! Lists of what a board has given out, and takes back at its end.
ghost use Rattle.std.specs.Prelude.{◌≡◌, ◌≤◌, ◌+◌, IfOk, [], length, map, vec_len, vec_capacity};
ghost use Rattle.sm_executor.specs.Stopped.{runners_back};
ghost use Rattle.sm_report.specs.RunStop.{IsOfRun};

use crate::run_stop::{NotFinished, RunStop};
use crate::stop::Stop;
use sm_executor::{Caller, Client, Ended, Naming, RunFault, take_tokens};
use sm_machine::StreamToken;
use std::alloc::{AllocError, Global};
use std::mem;
use std::sync::ledger::Ledger;

/// Lists of what a board has given out: the ends of streams, the clients of asks with its callers, and the tokens of
/// streams that came to no end. Each list has room for all, as nothing of this can be dropped.
pub struct Outstanding<A: Ledger, B: Ledger, C: Ledger, N: Naming> {
    pub ended: Vec<Ended<A>>,
    pub clients: Vec<Client<B, C, N>>,
    /// Those of the clients, once these have asked.
    pub callers: Vec<Caller<B, C, N>>,
    pub tokens: Vec<StreamToken>,
}

impl<A: Ledger, B: Ledger, C: Ledger, N: Naming> Outstanding<A, B, C, N> {
    /// Makes room for what a plan of this many streams, and this many asks, are given.
    pub fn with_room(alloc: Global, streams: usize, asks: usize) -> Result<Self, AllocError>
        ensures ended { IfOk result (λ given. given.ended.items ≡ []) }
        ensures clients { IfOk result (λ given. (given.clients.items ≡ []) × (asks ≤ vec_capacity given.clients)) }
        ensures callers { IfOk result (λ given. (given.callers.items ≡ []) × (asks ≤ vec_capacity given.callers)) }
        ensures tokens { IfOk result (λ given. (given.tokens.items ≡ []) × (streams ≤ vec_capacity given.tokens)) }
    {
        let clients = Vec::with_capacity(alloc, asks)?;
        let callers = match Vec::with_capacity(alloc, asks) {
            Ok(callers) => callers,
            Err(error) => {
                clients.destroy_empty();
                return Err(error);
            }
        };
        match Vec::with_capacity(alloc, streams) {
            Ok(tokens) => Ok(Outstanding {
                ended: Vec::new(alloc),
                clients,
                callers,
                tokens,
            }),
            Err(error) => {
                clients.destroy_empty();
                callers.destroy_empty();
                Err(error)
            }
        }
    }

    /// Ends lists that hold nothing.
    pub fn destroy_empty(self)
        requires { (self.ended.items ≡ []) × (self.clients.items ≡ []) × (self.callers.items ≡ [])
            × (self.tokens.items ≡ []) }
    {
        let Outstanding {
            ended,
            clients,
            callers,
            tokens,
        } = self;
        ended.destroy_empty();
        clients.destroy_empty();
        callers.destroy_empty();
        tokens.destroy_empty();
    }
}

/// Puts ends into the place of a list that has none.
pub fn keep_ends<A: Ledger>(kept: &mut Vec<Ended<A>>, ended: Vec<Ended<A>>)
    requires { kept.old.items ≡ [] }
    ensures { kept.new.items ≡ ended.items }
{
    mem::replace(kept, ended).destroy_empty();
}

/// Keeps what comes back of a run that has not come to the ends of all streams, and says why there is no report.
pub fn keep_back<A: Ledger>(
    kept: &mut Vec<Ended<A>>,
    tokens: &mut Vec<StreamToken>,
    back: RunFault<A>,
) -> RunStop
    requires none { kept.old.items ≡ [] }
    requires room { vec_len tokens.old + length (runners_back back) ≤ vec_capacity tokens.old }
    ensures { IsOfRun result }
{
    match back {
        RunFault::NoMemory { runners } => {
            take_tokens(runners, tokens);
            RunStop::Stop(Stop::NoMemory)
        }
        RunFault::NoThread { runners } => {
            take_tokens(runners, tokens);
            RunStop::NotFinished(NotFinished::NoThread)
        }
        RunFault::Halted { runners, ended } => {
            take_tokens(runners, tokens);
            keep_ends(kept, ended);
            RunStop::NotFinished(NotFinished::Halted)
        }
        RunFault::Spent { runners, ended } => {
            take_tokens(runners, tokens);
            keep_ends(kept, ended);
            RunStop::NotFinished(NotFinished::Spent)
        }
    }
}

/// Takes the callers of clients, in their order, into an empty list with room for all. Takes no memory.
pub fn take_callers<B: Ledger, C: Ledger, N: Naming>(
    mut clients: Vec<Client<B, C, N>>,
    callers: &mut Vec<Caller<B, C, N>>,
)
    requires none { callers.old.items ≡ [] }
    requires room { vec_len clients ≤ vec_capacity callers.old }
    ensures { callers.new.items ≡ map (λ client. client.caller) clients.items }
{
    clients.reverse();
    while let Some(client) = clients.pop() {
        callers.push_reserved(client.into_caller());
    }
    clients.destroy_empty();
}
