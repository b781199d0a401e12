//! Clients that ask at a board, each in a thread of its own, beside a run.
ghost use Rattle.std.specs.Prelude.{◌≡◌, ◌≢◌, ◌<◌, None, IfOk, IfErr, OnOk, All, length, true, vec_len};
ghost use Rattle.sm_executor.specs.Clients.{asking, AsksOnce, IsClient};
ghost use Rattle.sm_executor.specs.Ending.{HasEnded, HasNotEnded};
ghost use Rattle.sm_executor.specs.Stopped.{ComesBack, runners_back, ends_back, lacks_memory, may_have_stepped};
ghost use Rattle.sm_executor.specs.Views.{IsNewCaller, streams_ended, streams_run};

use crate::board::Board;
use crate::caller::Caller;
use crate::gate::Gate;
use crate::names::Naming;
use crate::runner::{Ended, Runner};
use crate::sure::Sure;
use crate::threads::{Lists, Ran, RunFault, run_all};
use sm_router::{Asked, ask};
use sm_server::ShardId;
use std::alloc::Global;
use std::marker::Model;
use std::sync::Wait;
use std::sync::ledger::Ledger;
use std::thread;
use std::thread::{Scope, Threads};

/// A client that asks once for a shard. It can be neither copied nor dropped.
///
/// A contract sees the shard, the answer, if it has asked, and what its caller has seen and counted.
pub struct Client<B: Ledger, C: Ledger, N: Naming> {
    caller: Caller<B, C, N>,
    shard: ShardId,
    asked: Option<Asked>,
}

impl<B: Ledger, C: Ledger, N: Naming> Model for Client<B, C, N> {
    ghost use Rattle.std.specs.Prelude.{◌<◌, length};
    ghost use Rattle.sm_executor.specs.Clients.{ClientModel, asking, IsClient};

    ghost Value = { ClientModel };

    ghost view = { λ c. asking c.shard c.asked c.caller };

    ghost invariant = { λ c. (c.shard < length N.words.opening) × IsClient N.setup N.opened (asking c.shard c.asked c.caller) };
}

impl<B: Ledger, C: Ledger, N: Naming> Client<B, C, N> {
    /// Makes a client that has not asked yet, with a caller that the board has given out.
    pub fn new(caller: Caller<B, C, N>, shard: ShardId) -> Client<B, C, N>
        requires shard { shard < length N.words.opening }
        requires new { IsNewCaller caller }
        ensures { result ≡ asking shard None caller }
    {
        Client {
            caller,
            shard,
            asked: None,
        }
    }

    /// Returns the shard that it asks for.
    pub fn shard(&self) -> ShardId
        ensures { result ≡ self.now.shard }
    {
        self.shard
    }

    /// Asks for its shard, if it has not asked yet.
    pub fn ask<A: Ledger, R: Wait>(&mut self, rt: &R, board: &Board<A, B, C, N>)
        ensures shard { self.new.shard ≡ self.old.shard }
        ensures asked { self.new.asked ≢ None }
        ensures once { AsksOnce N.setup N.opened self.old self.new }
    {
        if self.asked.is_none() {
            self.asked = Some(ask(rt, board, &mut self.caller, self.shard));
        }
    }

    /// Returns the answer that it got. None if it has not asked yet.
    pub fn asked(&self) -> Option<Asked>
        ensures answer { result ≡ self.now.asked }
        ensures way { IsClient N.setup N.opened self.now }
    {
        self.asked
    }

    /// Returns its caller.
    pub fn into_caller(self) -> Caller<B, C, N>
        ensures { result ≡ self.caller }
    {
        let Client {
            caller,
            shard: _,
            asked: _,
        } = self;
        caller
    }
}

/// Asks for each client that has not asked yet.
fn ask_all<A: Ledger, B: Ledger, C: Ledger, N: Naming, R: Wait>(
    rt: &R,
    board: &Board<A, B, C, N>,
    clients: &mut [Client<B, C, N>],
)
    ensures { All (λ client. client.asked ≢ None) clients.new }
{
    for client in clients.iter_mut() {
        client.ask(rt, board);
    }
}

/// Starts a thread for each client's ask. True only if all have started.
fn start_asks<
    's,
    'r: 's,
    A: Ledger + Send + Sync,
    B: Ledger + Send + Sync,
    C: Ledger + Send + Sync,
    N: Naming + Send + Sync,
    R: Threads + Wait + Sync,
>(
    scope: &'s Scope<'s, &'r ()>,
    rt: &'r R,
    board: &'r Board<A, B, C, N>,
    clients: &'r mut [Client<B, C, N>],
) -> bool {
    for client in clients.iter_mut() {
        if scope.spawn(move || client.ask(rt, board)).is_err() {
            return false;
        }
    }
    true
}

/// Loans to the threads of a run beside clients.
#[derive(Drop)]
struct Lent<'r, A: Ledger, B: Ledger, C: Ledger, N: Naming> {
    clients: &'r mut [Client<B, C, N>],
    runners: &'r mut [Runner<A>],
}

/// Starts a thread for each client, and then makes the steps of the runners' streams.
fn start_beside<
    's,
    'r: 's,
    A: Ledger + Send + Sync,
    B: Ledger + Send + Sync,
    C: Ledger + Send + Sync,
    N: Naming + Send + Sync,
    R: Threads + Wait + Sync,
    G: Gate + Sync,
>(
    scope: &'s Scope<'s, &'r ()>,
    rt: &'r R,
    board: &'r Board<A, B, C, N>,
    gate: &'r G,
    lent: Lent<'r, A, B, C, N>,
) -> Ran {
    let Lent { clients, runners } = lent;
    if start_asks(scope, rt, board, clients) {
        run_all::<A, B, C, N, Sure, R, G>(rt, board, runners, &[], gate)
    } else {
        Ran::NotAll
    }
}

/// Runs as `run_all` does, beside the clients.
fn run_all_beside<
    A: Ledger + Send + Sync,
    B: Ledger + Send + Sync,
    C: Ledger + Send + Sync,
    N: Naming + Send + Sync,
    R: Threads + Wait + Sync,
    G: Gate + Sync,
>(
    rt: &R,
    board: &Board<A, B, C, N>,
    runners: &mut [Runner<A>],
    clients: &mut [Client<B, C, N>],
    gate: &G,
) -> Ran {
    let lent = Lent {
        clients: &mut *clients,
        runners: &mut *runners,
    };
    thread::scope(thread::scope_env(), rt, move |scope| {
        start_beside(scope, rt, board, gate, lent)
    })
}

/// Makes all steps of the runners' streams beside the clients' asks, each stream and each client in a thread of its
/// own. The clients' threads start first. The answer is as that of `run`, NoThread if a client's thread can't be
/// started. With Ok each client has asked.
pub fn run_beside<
    A: Ledger + Send + Sync,
    B: Ledger + Send + Sync,
    C: Ledger + Send + Sync,
    N: Naming + Send + Sync,
    R: Threads + Wait + Sync,
    G: Gate + Sync,
>(
    rt: &R,
    alloc: Global,
    board: &Board<A, B, C, N>,
    runners: Vec<Runner<A>>,
    clients: &mut [Client<B, C, N>],
    gate: &G,
) -> Result<Vec<Ended<A>>, RunFault<A>>
    ensures ended { IfOk result (λ ended. streams_ended ended.items ≡ streams_run runners.items) }
    ensures at { IfOk result (λ ended. All (HasEnded N.setup N.opened) ended.items) }
    ensures back_at { IfErr result (λ back. All (HasEnded N.setup N.opened) (ends_back back)) }
    ensures unfinished { IfErr result (λ back. may_have_stepped back ≡ true
        → All (HasNotEnded N.setup N.opened) (runners_back back)) }
    ensures back { IfErr result (ComesBack (vec_len runners)) }
    ensures memory { IfErr result (λ back. lacks_memory back ≡ true → runners_back back ≡ runners.items) }
    ensures clients { length clients.new ≡ length clients.old }
    ensures asked { OnOk result (All (λ client. client.asked ≢ None) clients.new) }
{
    let (lists, mut runners) = Lists::beside(alloc, runners)?;
    let ran = run_all_beside(rt, board, runners.as_mut_slice(), clients, gate);
    // A thread does not tell what it did to its client.
    ask_all(rt, board, clients);
    lists.answer(rt, board, runners, ran)
}
