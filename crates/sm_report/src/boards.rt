//! A plan on a board: it begins on a machine, its streams run beside asks on a board over it, and the board is closed.
ghost use Rattle.std.specs.Prelude.{◌≡◌, ◌≢◌, ◌≤◌, ◌<◌, ◌++◌, [], All, IfErr, IfOk, OnOk, length, map, string_bytes};
ghost use Rattle.std.specs.Prelude.{true, vec_len, vec_capacity};
ghost use Rattle.sm_machine.specs.Starts.{AreTokens};
ghost use Rattle.sm_machine.specs.State.{state_of};
ghost use Rattle.sm_executor.specs.Clients.{IsClient};
ghost use Rattle.sm_executor.specs.Closed.{IsClosed};
ghost use Rattle.sm_executor.specs.Names.{IsLedgerOf};
ghost use Rattle.sm_executor.specs.Tied.{IsMapOf};
ghost use Rattle.sm_executor.specs.Views.{AreRunners};
ghost use Rattle.sm_protocol.specs.State.{State, plan_at, stream_count};
ghost use Rattle.sm_protocol.specs.declared.event.BeginFault.TheVariants as begin_fault;
ghost use Rattle.sm_report_text.specs.Checking.{accepted_line};
ghost use Rattle.sm_report_text.specs.Ending.{ending};
ghost use Rattle.sm_report_text.specs.EventLines.{not_begun_line};
ghost use Rattle.sm_report.specs.Report.{done, refused};
ghost use Rattle.sm_report.specs.RunLines.{end_lines, client_lines};
ghost use Rattle.sm_report.specs.Running.{HasRun, WasRunOrNot, IsStartedForRun, is_step_or_request};
ghost use Rattle.sm_report.specs.Running.{are_steps_and_requests};
ghost use Rattle.sm_report.specs.RunStop.{IfRan, IsOfRun};
ghost use Rattle.sm_plan_code.specs.declared.limits.TheConstants.{MOST_STREAMS};

use crate::begun::Begun;
use crate::made_report::MadeReport;
use crate::outstanding::{Outstanding, keep_back, keep_ends, take_callers};
use crate::run_lines::{push_clients, push_ends};
use crate::run_stop::{NotFinished, RunStop};
use crate::stop::Stop;
use sm_executor::{
    Board, Client, Ground, Naming, NotOpened, Open, Runner, run_beside, take_tokens,
};
use sm_machine::{BeginFault, Machine, Permit, StreamToken};
use sm_placement::Config;
use sm_protocol::{Event, Logged};
use sm_report_text::push_ending;
use sm_server::ShardId;
use sm_verifier::Checked;
use std::alloc::{AllocError, Global};
use std::marker::Brand;
use std::sync::Wait;
use std::sync::ledger::Ledger;
use std::thread::Threads;

/// Returns the report of a plan that does not begin; none if memory was short for its start.
fn not_begun(alloc: Global, config: &Config, fault: BeginFault) -> Result<MadeReport, AllocError>
    ensures { IfOk result (λ made. (fault ≢ begin_fault.NoMemory)
        × (made ≡ refused (not_begun_line config.now fault))) }
{
    if fault == BeginFault::NoMemory {
        return Err(AllocError);
    }
    MadeReport::not_begun(alloc, config, fault)
}

/// Makes a client for each ask, in an empty list with room for all. Returns false if the board gives out no more
/// callers.
fn make_clients<A: Ledger, B: Ledger, C: Ledger, N: Naming, R: Wait>(
    rt: &R,
    board: &Board<A, B, C, N>,
    asks: &[ShardId],
    clients: &mut Vec<Client<B, C, N>>,
) -> bool
    requires none { clients.old.items ≡ [] }
    requires room { length asks.now ≤ vec_capacity clients.old }
    requires known { All (λ shard. shard < length N.words.opening) asks.now }
    ensures most { vec_len clients.new ≤ length asks.now }
    ensures all { result ≡ true → length clients.new.items ≡ length asks.now }
{
    for shard in asks {
        match board.caller(rt) {
            Ok(caller) => clients.push_reserved(Client::new(caller, *shard)),
            Err(_) => return false,
        }
    }
    true
}

/// Tells whether each client is of the ask at its place, and there is one for each. A thread does not tell what it did
/// to its client, so the clients themselves are looked at.
fn are_of<B: Ledger, C: Ledger, N: Naming>(clients: &[Client<B, C, N>], asks: &[ShardId]) -> bool
    ensures { result ≡ true → map (λ client. client.shard) clients.now ≡ asks.now }
{
    if clients.len() != asks.len() {
        return false;
    }
    for (i, client) in clients.iter().enumerate() {
        if client.shard() != asks[i] {
            return false;
        }
    }
    true
}

/// Runs the streams of the plan that has begun beside asks.
fn run_begun<
    A: Ledger + Send + Sync,
    B: Ledger + Send + Sync,
    C: Ledger + Send + Sync,
    N: Naming + Send + Sync,
    R: Threads + Wait + Sync,
>(
    rt: &R,
    alloc: Global,
    board: &Board<A, B, C, N>,
    runners: Vec<Runner<A>>,
    asks: &[ShardId],
    given: &mut Outstanding<A, B, C, N>,
) -> Result<(), RunStop>
    requires none { (given.old.ended.items ≡ []) × (given.old.clients.items ≡ []) × (given.old.tokens.items ≡ []) }
    requires room { (length asks.now ≤ vec_capacity given.old.clients)
        × (vec_len runners ≤ vec_capacity given.old.tokens) }
    requires runners { AreRunners 0 (stream_count N.opened 0) runners.items }
    requires known { All (λ shard. shard < length N.words.opening) asks.now }
    ensures callers { given.new.callers ≡ given.old.callers }
    ensures most { vec_len given.new.clients ≤ length asks.now }
    ensures ran { OnOk result (HasRun (stream_count N.opened 0) given.new.ended.items given.new.clients.items) }
    ensures why { IfErr result IsOfRun }
{
    if !make_clients(rt, board, asks, &mut given.clients) {
        take_tokens(runners, &mut given.tokens);
        return Err(RunStop::NotFinished(NotFinished::NoCaller));
    }
    let clients = given.clients.as_mut_slice();
    match run_beside(rt, alloc, board, runners, clients, &Open) {
        Ok(ended) => {
            keep_ends(&mut given.ended, ended);
            Ok(())
        }
        Err(back) => Err(keep_back(&mut given.ended, &mut given.tokens, back)),
    }
}

/// Returns the lines of clients' answers, if each client is of the ask at its place.
fn tell_asks<B: Ledger, C: Ledger, N: Naming>(
    alloc: Global,
    config: &Config,
    clients: &[Client<B, C, N>],
    asks: &[ShardId],
) -> Result<String, RunStop>
    ensures shards { OnOk result (map (λ client. client.shard) clients.now ≡ asks.now) }
    ensures asked { IfOk result (λ asked. string_bytes asked ≡ client_lines config.now 0 clients.now) }
    ensures ways { OnOk result (All (IsClient N.setup N.opened) clients.now) }
    ensures why { IfErr result IsOfRun }
{
    if !are_of(clients, asks) {
        return Err(RunStop::NotFinished(NotFinished::OtherAsk));
    }
    let mut asked = String::new(alloc);
    push_clients(&mut asked, config, clients)?;
    Ok(asked)
}

/// Runs the streams of the plan that has begun beside asks, and tells what the asks came to.
fn run_told<
    A: Ledger + Send + Sync,
    B: Ledger + Send + Sync,
    C: Ledger + Send + Sync,
    N: Naming + Send + Sync,
    R: Threads + Wait + Sync,
>(
    rt: &R,
    alloc: Global,
    board: &Board<A, B, C, N>,
    runners: Vec<Runner<A>>,
    asks: &[ShardId],
    given: &mut Outstanding<A, B, C, N>,
) -> Result<String, RunStop>
    requires none { (given.old.ended.items ≡ []) × (given.old.clients.items ≡ []) × (given.old.tokens.items ≡ []) }
    requires room { (length asks.now ≤ vec_capacity given.old.clients)
        × (vec_len runners ≤ vec_capacity given.old.tokens) }
    requires runners { AreRunners 0 (stream_count N.opened 0) runners.items }
    requires known { All (λ shard. shard < length N.words.opening) asks.now }
    ensures callers { given.new.callers ≡ given.old.callers }
    ensures most { vec_len given.new.clients ≤ length asks.now }
    ensures ran { OnOk result (HasRun (stream_count N.opened 0) given.new.ended.items given.new.clients.items) }
    ensures shards { OnOk result (map (λ client. client.shard) given.new.clients.items ≡ asks.now) }
    ensures asked { IfOk result (λ asked. string_bytes asked ≡ client_lines N.setup 0 given.new.clients.items) }
    ensures ways { OnOk result (All (IsClient N.setup N.opened) given.new.clients.items) }
    ensures why { IfErr result IsOfRun }
{
    run_begun(rt, alloc, board, runners, asks, given)?;
    tell_asks(alloc, board.config(), given.clients.as_slice(), asks)
}

/// Tells whether an event is a step of a stream by which no call is lost, or a request.
fn is_step_or_request(event: &Event) -> bool
    ensures { result ≡ is_step_or_request event.now }
{
    matches!(
        event,
        Event::Step { .. } | Event::Arrive { .. } | Event::PassOn { .. }
    )
}

/// Tells whether all events of a log are steps by which no call is lost, and requests.
fn are_steps_and_requests(log: &[Logged]) -> bool
    ensures { result ≡ are_steps_and_requests log.now }
{
    log.iter().all(|line| is_step_or_request(&line.event))
}

/// Adds the lines of the streams of a machine's one plan. Threads do not tell what they did to a board. So it looks
/// whether another plan has begun, and whether the log has other events than the run's.
fn push_plan_ends(out: &mut String, machine: &Machine) -> Result<(), RunStop>
    ensures alone { OnOk result (length (state_of machine.now).plans ≡ 1) }
    ensures own { OnOk result (are_steps_and_requests (state_of machine.now).log ≡ true) }
    ensures lines { OnOk result (string_bytes out.new ≡ string_bytes out.old ++ end_lines (state_of machine.now) 0) }
    ensures why { IfErr result IsOfRun }
{
    if machine.plan_count() != 1 || !are_steps_and_requests(machine.log()) {
        return Err(RunStop::NotFinished(NotFinished::OtherEvents));
    }
    push_ends(out, machine)?;
    Ok(())
}

/// Returns the report of a plan that was run on the board that this machine is from.
fn report_machine(
    alloc: Global,
    machine: Machine,
    tokens: Vec<StreamToken>,
    permits: Vec<Permit>,
    accepted: String,
    asked: String,
) -> Result<MadeReport, RunStop>
    ensures alone { OnOk result (length (state_of machine).plans ≡ 1) }
    ensures own { OnOk result (are_steps_and_requests (state_of machine).log ≡ true) }
    ensures text { IfOk result (λ made. made ≡ done
        (string_bytes accepted ++ end_lines (state_of machine) 0 ++ string_bytes asked
        ++ ending machine.placement.setup (state_of machine).place)) }
    ensures why { IfErr result IsOfRun }
{
    let mut text = accepted;
    let ends = push_plan_ends(&mut text, &machine);
    let placement = machine.give_up(tokens, permits, Vec::new(alloc));
    ends?;
    text.push_str(asked.as_str())?;
    push_ending(&mut text, &placement)?;
    Ok(MadeReport::done(text))
}

/// Closes a board, and returns the report of the plan that was run on it.
fn report_ran<A: Ledger, B: Ledger, C: Ledger, N: Naming>(
    alloc: Global,
    board: Board<A, B, C, N>,
    given: Outstanding<A, B, C, N>,
    permits: Vec<Permit>,
    accepted: String,
    asked: String,
) -> Result<MadeReport, RunStop>
    requires none { given.callers.items ≡ [] }
    requires room { vec_len given.clients ≤ vec_capacity given.callers }
    ensures told { IfOk result (λ made. (now : State)
        × IsClosed N.setup N.opened now given.ended.items (map (λ client. client.caller) given.clients.items)
        × (length now.plans ≡ 1)
        × (are_steps_and_requests now.log ≡ true)
        × (made ≡ done (string_bytes accepted ++ end_lines now 0 ++ string_bytes asked ++ ending N.setup now.place))) }
    ensures why { IfErr result IsOfRun }
{
    let Outstanding {
        ended,
        clients,
        mut callers,
        tokens,
    } = given;
    take_callers(clients, &mut callers);
    match board.close(ended, callers) {
        Ok(machine) => report_machine(alloc, machine, tokens, permits, accepted, asked),
        Err(refused) => {
            let (board, ended, callers) = refused.back();
            let machine = board.give_up(ended, callers);
            machine.give_up(tokens, permits, Vec::new(alloc));
            Err(RunStop::NotFinished(NotFinished::NotClosed))
        }
    }
}

/// Gives a board up with all that it has given out.
fn give_up<A: Ledger, B: Ledger, C: Ledger, N: Naming>(
    alloc: Global,
    board: Board<A, B, C, N>,
    given: Outstanding<A, B, C, N>,
    permits: Vec<Permit>,
)
    requires none { given.callers.items ≡ [] }
    requires room { vec_len given.clients ≤ vec_capacity given.callers }
{
    let Outstanding {
        ended,
        clients,
        mut callers,
        tokens,
    } = given;
    take_callers(clients, &mut callers);
    let machine = board.give_up(ended, callers);
    machine.give_up(tokens, permits, Vec::new(alloc));
}

/// Runs the plan that has begun on a board, with lists for what the board gives out, and returns its report.
fn report_given<
    A: Ledger + Send + Sync,
    B: Ledger + Send + Sync,
    C: Ledger + Send + Sync,
    N: Naming + Send + Sync,
    R: Threads + Wait + Sync,
>(
    rt: &R,
    alloc: Global,
    board: Board<A, B, C, N>,
    mut given: Outstanding<A, B, C, N>,
    permits: Vec<Permit>,
    runners: Vec<Runner<A>>,
    accepted: String,
    asks: &[ShardId],
) -> Result<MadeReport, RunStop>
    requires none { (given.ended.items ≡ []) × (given.clients.items ≡ []) × (given.callers.items ≡ [])
        × (given.tokens.items ≡ []) }
    requires room { (length asks.now ≤ vec_capacity given.clients) × (length asks.now ≤ vec_capacity given.callers)
        × (vec_len runners ≤ vec_capacity given.tokens) }
    requires one { length N.opened.plans ≡ 1 }
    requires runners { AreRunners 0 (stream_count N.opened 0) runners.items }
    requires accepted { string_bytes accepted ≡ accepted_line (plan_at N.opened 0) }
    requires known { All (λ shard. shard < length N.words.opening) asks.now }
    ensures { IfRan result (WasRunOrNot N.opened N.setup asks.now) }
{
    match run_told(rt, alloc, &board, runners, asks, &mut given) {
        Ok(asked) => report_ran(alloc, board, given, permits, accepted, asked),
        Err(why) => {
            give_up(alloc, board, given, permits);
            Err(why)
        }
    }
}

/// Runs the plan that has begun on a machine on a board over the machine, on this ground of it, and returns its report.
fn report_on_ground<
    A: Ledger + Send + Sync,
    B: Ledger + Send + Sync,
    C: Ledger + Send + Sync,
    N: Naming + Send + Sync,
    R: Threads + Wait + Sync,
>(
    rt: &R,
    alloc: Global,
    begun: Begun,
    ground: Ground,
    asks: &[ShardId],
) -> Result<MadeReport, RunStop>
    requires map { IsMapOf ground.words (state_of begun.machine) }
    requires setup { ground.setup ≡ begun.machine.placement.setup }
    requires names { (ground.words ≡ N.words) × (ground.setup ≡ N.setup) × (state_of begun.machine ≡ N.opened) }
    requires steps { IsLedgerOf ground.steps A.name A.parts }
    requires executed { IsLedgerOf ground.executed B.name B.parts }
    requires refused { IsLedgerOf ground.refused C.name C.parts }
    requires one { length (state_of begun.machine).plans ≡ 1 }
    requires tokens { AreTokens 0 (stream_count (state_of begun.machine) 0) begun.tokens.items }
    requires few { length begun.tokens.items ≤ MOST_STREAMS }
    requires accepted { string_bytes begun.accepted ≡ accepted_line (plan_at (state_of begun.machine) 0) }
    requires known { All (λ shard. shard < length N.words.opening) asks.now }
    ensures { IfRan result (WasRunOrNot N.opened N.setup asks.now) }
{
    let (begun, given) = begun.with_room(alloc, asks.len())?;
    let Begun {
        machine,
        permits,
        tokens,
        accepted,
    } = begun;
    match Board::<A, B, C, N>::open_running(alloc, machine, ground, tokens) {
        Ok((board, runners)) => {
            report_given(rt, alloc, board, given, permits, runners, accepted, asks)
        }
        Err(
            NotOpened {
                machine,
                ground: _,
                tokens,
            },
        ) => {
            given.destroy_empty();
            machine.give_up(tokens, permits, Vec::new(alloc));
            Err(RunStop::Stop(Stop::NoMemory))
        }
    }
}

/// Runs the plan that has begun on a machine on a board over the machine, beside asks, and returns its report.
fn report_on_board<R: Threads + Wait + Sync>(
    rt: &R,
    alloc: Global,
    begun: Begun,
    asks: &[ShardId],
) -> Result<MadeReport, RunStop>
    requires one { length (state_of begun.machine).plans ≡ 1 }
    requires tokens { AreTokens 0 (stream_count (state_of begun.machine) 0) begun.tokens.items }
    requires accepted { string_bytes begun.accepted ≡ accepted_line (plan_at (state_of begun.machine) 0) }
    requires known { All (λ shard. shard < length begun.machine.placement.setup.shards) asks.now }
    ensures { IfRan result (WasRunOrNot (state_of begun.machine) begun.machine.placement.setup asks.now) }
{
    // (a plan has 64 streams at most)
    begun.machine.is_reached();
    match Ground::new(alloc, &begun.machine) {
        Ok(ground) => {
            report_on_ground::<Brand, Brand, Brand, Brand, R>(rt, alloc, begun, ground, asks)
        }
        Err(error) => {
            begun.give_up(alloc);
            Err(RunStop::from(error))
        }
    }
}

/// Begins a checked plan on a machine which has begun none, and which has these permits, runs it beside asks, and
/// returns its report. Its first line says that the plan is accepted.
pub fn report_started<R: Threads + Wait + Sync>(
    rt: &R,
    alloc: Global,
    mut machine: Machine,
    permits: Vec<Permit>,
    checked: Checked,
    accepted: String,
    asks: &[ShardId],
) -> Result<MadeReport, RunStop>
    requires none { (state_of machine).plans ≡ [] }
    requires setup { checked.setup ≡ machine.placement.setup }
    requires accepted { string_bytes accepted ≡ accepted_line checked.plan }
    requires known { All (λ shard. shard < length machine.placement.setup.shards) asks.now }
    ensures { IfRan result (IsStartedForRun (state_of machine) machine.placement.setup checked.plan asks.now) }
{
    match machine.begin(alloc, checked) {
        Ok(tokens) => {
            let begun = Begun {
                machine,
                permits,
                tokens,
                accepted,
            };
            report_on_board(rt, alloc, begun, asks)
        }
        Err((_back, fault)) => {
            let made = not_begun(alloc, machine.config(), fault);
            machine.give_up(Vec::new(alloc), permits, Vec::new(alloc));
            Ok(made?)
        }
    }
}
