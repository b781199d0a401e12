//! Runs: one thread for each stream.
//!
//! The threads wait for each other before their first steps, so that no stream has stepped if one cannot be started. A
//! thread does not tell what it did to its runner. The locked machine says of each runner whether its stream has
//! finished, and the ends are compared with the streams that were noted before.
ghost use Rattle.std.specs.Prelude.{◌≡◌, ◌≤◌, ◌+◌, All, IfOk, IfErr, length, [], true, false, vec_len, vec_capacity};
ghost use Rattle.sm_executor.specs.Ending.{HasEnded, HasNotEnded};
ghost use Rattle.sm_executor.specs.Views.{streams_ended, streams_run};
ghost use Rattle.sm_executor.specs.Stopped.{ComesBack, runners_back, ends_back, lacks_memory, may_have_stepped};

use crate::board::Board;
use crate::gate::{Gate, Starter, drive_own};
use crate::names::Naming;
use crate::runner::{Ended, Runner};
use crate::sure::Sure;
use sm_machine::Link;
use sm_reservation::StreamId;
use std::alloc::{AllocError, Global};
use std::sync::ledger::Ledger;
use std::sync::{Mutex, Wait};
use std::thread;
use std::thread::{Scope, Threads};

/// Why a run has not come to the ends of all streams, with what comes back of it. It can be neither copied nor dropped.
pub enum RunFault<A: Ledger> {
    /// Memory ran out before a stream has stepped.
    NoMemory {
        /// All runners.
        runners: Vec<Runner<A>>,
    },
    /// A thread cannot be started, and no stream has stepped.
    NoThread {
        /// All runners.
        runners: Vec<Runner<A>>,
    },
    /// The board was halted.
    Halted {
        /// The runners whose streams have not finished.
        runners: Vec<Runner<A>>,
        /// The ends of the other streams.
        ended: Vec<Ended<A>>,
    },
    /// A stream has spent its allowance, so its thread has halted the board.
    Spent {
        /// The runners whose streams have not finished.
        runners: Vec<Runner<A>>,
        /// The ends of the other streams.
        ended: Vec<Ended<A>>,
    },
}

/// The outcome of a run's threads. All have ended.
#[derive(Clone, Copy, PartialEq, Eq)]
pub(crate) enum Ran {
    /// One of them cannot be started.
    NotAll,
    /// A stream has spent its allowance.
    Spent,
    /// None has.
    Through,
}

/// Returns how they have fared, by whether all have started.
fn outcome(all: bool, starter: Starter) -> Ran {
    if starter.has_spent() {
        Ran::Spent
    } else if all {
        Ran::Through
    } else {
        Ran::NotAll
    }
}

/// Loans to the threads of a run: the runners, and the links in their places.
#[derive(Drop)]
struct Lent<'r, A: Ledger, L: Link> {
    runners: &'r mut [Runner<A>],
    links: &'r [Mutex<L>],
}

/// Starts a thread for each runner's stream, over the link in the runner's place. Returns true only if all have
/// started, and all are told.
fn start_all<
    's,
    'r: 's,
    A: Ledger + Send + Sync,
    B: Ledger + Send + Sync,
    C: Ledger + Send + Sync,
    N: Naming + Send + Sync,
    L: Link + Send,
    R: Threads + Wait + Sync,
    G: Gate + Sync,
>(
    scope: &'s Scope<'s, &'r ()>,
    rt: &'r R,
    board: &'r Board<A, B, C, N>,
    starter: &'r Starter,
    gate: &'r G,
    lent: Lent<'r, A, L>,
) -> bool {
    let Lent { runners, links } = lent;
    for (i, runner) in runners.iter_mut().enumerate() {
        let link = links.get(i);
        if scope
            .spawn(move || drive_own(rt, board, starter, gate, runner, link))
            .is_err()
        {
            starter.tell(rt, false);
            return false;
        }
    }
    starter.tell(rt, true);
    true
}

/// Makes the steps of each runner's stream in a thread of its own, over the link in the runner's place.
pub(crate) fn run_all<
    A: Ledger + Send + Sync,
    B: Ledger + Send + Sync,
    C: Ledger + Send + Sync,
    N: Naming + Send + Sync,
    L: Link + Send,
    R: Threads + Wait + Sync,
    G: Gate + Sync,
>(
    rt: &R,
    board: &Board<A, B, C, N>,
    runners: &mut [Runner<A>],
    links: &[Mutex<L>],
    gate: &G,
) -> Ran {
    let starter = Starter::new();
    let start = &starter;
    let lent = Lent {
        runners: &mut *runners,
        links,
    };
    let all = thread::scope(thread::scope_env(), rt, move |scope| {
        start_all(scope, rt, board, start, gate, lent)
    });
    outcome(all, starter)
}

/// Returns the streams of runners.
fn streams_of<A: Ledger>(alloc: Global, runners: &[Runner<A>]) -> Result<Vec<StreamId>, AllocError>
    ensures { IfOk result (λ streams. streams.items ≡ streams_run runners.now) }
{
    let mut streams = Vec::new(alloc);
    for runner in runners {
        streams.push(runner.id())?;
    }
    Ok(streams)
}

/// Tells whether the ends are of these streams, in their order: true only if they are.
fn are_of<A: Ledger>(ended: &[Ended<A>], streams: &[StreamId]) -> bool
    ensures { result ≡ true → streams_ended ended.now ≡ streams.now }
{
    if ended.len() != streams.len() {
        return false;
    }
    for i in 0..ended.len() {
        if ended[i].stream() != streams[i] {
            return false;
        }
    }
    true
}

/// Puts the ends of the runners whose streams have finished, and the other runners, each into a list with room for all.
/// Takes no memory.
fn retire_all<A: Ledger, B: Ledger, C: Ledger, N: Naming, R: Wait>(
    rt: &R,
    board: &Board<A, B, C, N>,
    mut runners: Vec<Runner<A>>,
    ended: &mut Vec<Ended<A>>,
    left: &mut Vec<Runner<A>>,
)
    requires none { (ended.old.items ≡ []) × (left.old.items ≡ []) }
    requires ended { vec_len ended.old + vec_len runners ≤ vec_capacity ended.old }
    requires left { vec_len left.old + vec_len runners ≤ vec_capacity left.old }
    ensures at { All (HasEnded N.setup N.opened) ended.new.items }
    ensures unfinished { All (HasNotEnded N.setup N.opened) left.new.items }
    ensures all { vec_len left.new + vec_len ended.new ≡ vec_len left.old + vec_len ended.old + vec_len runners }
{
    runners.reverse();
    while let Some(runner) = runners.pop() {
        match board.retire(rt, runner) {
            Ok(end) => ended.push_reserved(end),
            Err(runner) => left.push_reserved(runner),
        }
    }
    runners.destroy_empty();
}

/// Lists for a run to use after its threads: the streams as they were before, and two empty lists with room for all
/// runners.
pub(crate) struct Lists<A: Ledger> {
    streams: Vec<StreamId>,
    ended: Vec<Ended<A>>,
    left: Vec<Runner<A>>,
    ghost none: { (ended.items ≡ []) × (left.items ≡ []) },
}

impl<A: Ledger> Lists<A> {
    /// Returns the streams of these runners, and two empty lists with room for all of them.
    fn new(alloc: Global, runners: &[Runner<A>]) -> Result<Lists<A>, AllocError>
        ensures streams { IfOk result (λ lists. lists.streams.items ≡ streams_run runners.now) }
        ensures room { IfOk result (λ lists. (length runners.now ≤ vec_capacity lists.ended)
            × (length runners.now ≤ vec_capacity lists.left)) }
    {
        let streams = streams_of(alloc, runners)?;
        let ended = Vec::with_capacity(alloc, runners.len())?;
        let Ok(left) = Vec::with_capacity(alloc, runners.len()) else {
            ended.destroy_empty();
            return Err(AllocError);
        };
        Ok(Lists {
            streams,
            ended,
            left,
        })
    }

    /// Makes what a run of these runners needs, beside the runners. If there is no memory they come back.
    pub fn beside(
        alloc: Global,
        runners: Vec<Runner<A>>,
    ) -> Result<(Lists<A>, Vec<Runner<A>>), RunFault<A>>
        ensures streams { IfOk result (λ r. r.0.streams.items ≡ streams_run runners.items) }
        ensures room { IfOk result (λ r. (vec_len runners ≤ vec_capacity r.0.ended)
            × (vec_len runners ≤ vec_capacity r.0.left)) }
        ensures runners { IfOk result (λ r. r.1 ≡ runners) }
        ensures memory { IfErr result (λ back. lacks_memory back ≡ true) }
        ensures back { IfErr result (λ back. (runners_back back ≡ runners.items) × (ends_back back ≡ [])) }
    {
        let Ok(lists) = Lists::new(alloc, runners.as_slice()) else {
            return Err(RunFault::NoMemory { runners });
        };
        Ok((lists, runners))
    }

    /// Returns the answer to a run, after its threads have ended so.
    pub fn answer<B: Ledger, C: Ledger, N: Naming, R: Wait>(
        self,
        rt: &R,
        board: &Board<A, B, C, N>,
        runners: Vec<Runner<A>>,
        ran: Ran,
    ) -> Result<Vec<Ended<A>>, RunFault<A>>
        requires room { (vec_len runners ≤ vec_capacity self.ended) × (vec_len runners ≤ vec_capacity self.left) }
        ensures ended { IfOk result (λ ended. streams_ended ended.items ≡ self.streams.items) }
        ensures at { IfOk result (λ ended. All (HasEnded N.setup N.opened) ended.items) }
        ensures back_at { IfErr result (λ back. All (HasEnded N.setup N.opened) (ends_back back)) }
        ensures unfinished { IfErr result (λ back. may_have_stepped back ≡ true
            → All (HasNotEnded N.setup N.opened) (runners_back back)) }
        ensures back { IfErr result (ComesBack (vec_len runners)) }
        ensures memory { IfErr result (λ back. lacks_memory back ≡ false) }
    {
        let Lists {
            streams,
            mut ended,
            mut left,
        } = self;
        if ran == Ran::NotAll {
            left.destroy_empty();
            ended.destroy_empty();
            return Err(RunFault::NoThread { runners });
        }
        retire_all(rt, board, runners, &mut ended, &mut left);
        if left.is_empty() && are_of(ended.as_slice(), streams.as_slice()) {
            left.destroy_empty();
            return Ok(ended);
        }
        let runners = left;
        Err(if ran == Ran::Spent {
            RunFault::Spent { runners, ended }
        } else {
            RunFault::Halted { runners, ended }
        })
    }
}

/// Makes all steps of the runners' streams, each in a thread of its own, over the link in its runner's place. If there
/// is no link in that place the stream loses no call. The answer is as that of `run`.
fn run_lent<
    A: Ledger + Send + Sync,
    B: Ledger + Send + Sync,
    C: Ledger + Send + Sync,
    N: Naming + Send + Sync,
    L: Link + Send,
    R: Threads + Wait + Sync,
    G: Gate + Sync,
>(
    rt: &R,
    alloc: Global,
    board: &Board<A, B, C, N>,
    runners: Vec<Runner<A>>,
    links: &[Mutex<L>],
    gate: &G,
) -> Result<Vec<Ended<A>>, RunFault<A>>
    ensures ended { IfOk result (λ ended. streams_ended ended.items ≡ streams_run runners.items) }
    ensures at { IfOk result (λ ended. All (HasEnded N.setup N.opened) ended.items) }
    ensures back_at { IfErr result (λ back. All (HasEnded N.setup N.opened) (ends_back back)) }
    ensures unfinished { IfErr result (λ back. may_have_stepped back ≡ true
        → All (HasNotEnded N.setup N.opened) (runners_back back)) }
    ensures back { IfErr result (ComesBack (vec_len runners)) }
    ensures memory { IfErr result (λ back. lacks_memory back ≡ true → runners_back back ≡ runners.items) }
{
    let (lists, mut runners) = Lists::beside(alloc, runners)?;
    let ran = run_all(rt, board, runners.as_mut_slice(), links, gate);
    lists.answer(rt, board, runners, ran)
}

/// Puts each link behind a lock of its own, since a scope can lend its threads only one list that they change.
fn behind_locks<L: Drop>(alloc: Global, links: Vec<L>) -> Result<Vec<Mutex<L>>, AllocError>
    ensures { IfOk result (λ locked. vec_len locked ≡ vec_len links) }
{
    links
        .into_iter()
        .map(|link| Mutex::new(link))
        .collect(alloc)
}

/// Makes all steps of the runners' streams, each in a thread of its own, over the link in its runner's place. It gives
/// the links up at its end. The answer is as that of `run`.
///
/// A link is asked under the board's lock, so it must not call the board: it would wait for itself.
pub fn run_over<
    A: Ledger + Send + Sync,
    B: Ledger + Send + Sync,
    C: Ledger + Send + Sync,
    N: Naming + Send + Sync,
    L: Link + Send + Drop,
    R: Threads + Wait + Sync,
    G: Gate + Sync,
>(
    rt: &R,
    alloc: Global,
    board: &Board<A, B, C, N>,
    runners: Vec<Runner<A>>,
    gate: &G,
    links: Vec<L>,
) -> Result<Vec<Ended<A>>, RunFault<A>>
    requires { vec_len links ≡ vec_len runners }
    ensures ended { IfOk result (λ ended. streams_ended ended.items ≡ streams_run runners.items) }
    ensures at { IfOk result (λ ended. All (HasEnded N.setup N.opened) ended.items) }
    ensures back_at { IfErr result (λ back. All (HasEnded N.setup N.opened) (ends_back back)) }
    ensures unfinished { IfErr result (λ back. may_have_stepped back ≡ true
        → All (HasNotEnded N.setup N.opened) (runners_back back)) }
    ensures back { IfErr result (ComesBack (vec_len runners)) }
    ensures memory { IfErr result (λ back. lacks_memory back ≡ true → runners_back back ≡ runners.items) }
{
    let Ok(links) = behind_locks(alloc, links) else {
        return Err(RunFault::NoMemory { runners });
    };
    run_lent(rt, alloc, board, runners, links.as_slice(), gate)
}

/// Makes all steps of the runners' streams, each in a thread of its own. With Ok there is an end for each runner, in
/// their order. Otherwise the runners and ends that come back are together as many as there were runners. With NoMemory
/// they are the runners as they were. If streams may have stepped, the runners that come back are of streams that have
/// not finished. Each end tells what the machine had of its stream once that had ended.
pub fn run<
    A: Ledger + Send + Sync,
    B: Ledger + Send + Sync,
    C: Ledger + Send + Sync,
    N: Naming + Send + Sync,
    R: Threads + Wait + Sync,
    G: Gate + Sync,
>(
    rt: &R,
    alloc: Global,
    board: &Board<A, B, C, N>,
    runners: Vec<Runner<A>>,
    gate: &G,
) -> Result<Vec<Ended<A>>, RunFault<A>>
    ensures ended { IfOk result (λ ended. streams_ended ended.items ≡ streams_run runners.items) }
    ensures at { IfOk result (λ ended. All (HasEnded N.setup N.opened) ended.items) }
    ensures back_at { IfErr result (λ back. All (HasEnded N.setup N.opened) (ends_back back)) }
    ensures unfinished { IfErr result (λ back. may_have_stepped back ≡ true
        → All (HasNotEnded N.setup N.opened) (runners_back back)) }
    ensures back { IfErr result (ComesBack (vec_len runners)) }
    ensures memory { IfErr result (λ back. lacks_memory back ≡ true → runners_back back ≡ runners.items) }
{
    run_lent::<A, B, C, N, Sure, R, G>(rt, alloc, board, runners, &[], gate)
}
