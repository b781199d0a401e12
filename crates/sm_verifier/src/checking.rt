//! The check of a plan: its budget, its signals, its streams, and an order of their steps.
ghost use Rattle.std.specs.Prelude.{◌≡◌, ◌≢◌, ◌≤◌, ◌<◌, ◌+◌, IfOk, IfErr, OnOk, length, sum_by};
ghost use Rattle.sm_placement.specs.Setup.{Sizes, sizes_of};
ghost use Rattle.sm_plan_code.specs.Plan.{IsKnownPlan};
ghost use Rattle.sm_verifier.specs.Order.{IsOrder};
ghost use Rattle.sm_verifier.specs.Plan.{KeepsBudget, AreUsedOnce, AreGood, IsSound, IsFault};
ghost use Rattle.sm_verifier.specs.Checked.{AreFinals, ArePeaks, checked_model, IsChecked};
ghost use Rattle.sm_verifier.specs.Fault.{fault_of};
ghost use Rattle.sm_plan_code.specs.declared.limits.TheConstants.{MOST_STREAMS};

use crate::checked::{Checked, Findings};
use crate::following::{Bad, End, follow_to_end};
use crate::order::order_of;
use crate::signals::first_misuse;
use sm_placement::Config;
use sm_plan_code::{Plan, Stream, Why};
use sm_reservation::Parcel;
use std::alloc::{AllocError, Global};
use thiserror::Error;

/// Why a plan does not pass the check.
#[derive(Debug, Drop, PartialEq, Eq, Error)]
pub enum Fault {
    /// Memory was short.
    #[error("out of memory")]
    NoMemory,
    /// The streams' budgets and retries add up to more than the plan's budget.
    #[error("the streams may make {streams} calls and retries, and the plan {plan}")]
    Budget {
        /// The number of calls and retries that the streams have together.
        streams: u64,
        /// The plan's budget.
        plan: u32,
    },
    /// A signal is not posted once and waited for once.
    #[error("signal {signal} is posted {posts} times and waited for {waits} times")]
    SignalNotOnce {
        /// The lowest such signal.
        signal: u32,
        /// The number of its posts.
        posts: u32,
        /// The number of its waits.
        waits: u32,
    },
    /// A stream breaks off.
    #[error("stream {stream} at {at}: {why}")]
    Stream {
        /// The lowest such stream.
        stream: u32,
        /// The position of the instruction, or the length of the code at the stream's end.
        at: u32,
        /// Why the instruction may not be made, or the stream may not end.
        why: Why,
    },
    /// The streams wait for one another.
    #[error("the streams wait for one another")]
    Stuck {
        /// The greatest position that each stream gets to.
        positions: Vec<u32>,
    },
}

impl From<AllocError> for Fault {
    ghost use Rattle.sm_verifier.specs.declared.checking.Fault.TheVariants.{NoMemory};

    ghost from_gives = { λ _ fault. fault ≡ NoMemory };

    fn from(_error: AllocError) -> Fault {
        Fault::NoMemory
    }
}

/// The ends of the streams: what each holds there, and the greatest number of keys that one list of its hold had.
#[derive(Drop)]
struct Ends {
    finals: Vec<Parcel>,
    peaks: Vec<u32>,
}

/// Returns the number of calls and retries that streams have together.
fn total_budget(streams: &[Stream]) -> u64
    requires { length streams.now ≤ MOST_STREAMS }
    ensures { result ≡ sum_by (λ stream. stream.budget + stream.retries) streams.now }
{
    let mut total = 0;
    for stream in streams {
        total += u64::from(stream.budget) + u64::from(stream.retries);
    }
    total
}

/// Tests the budget. Takes no memory.
fn check_budget(plan: &Plan) -> Result<(), Fault>
    ensures kept { OnOk result (KeepsBudget plan.now) }
    ensures fault { IfErr result (λ fault. (c : Sizes) → IsFault c plan.now fault) }
    ensures early { IfErr result (λ fault. fault ≢ Fault.NoMemory) }
{
    let streams = total_budget(plan.streams());
    let plan = plan.budget();
    if u64::from(plan) < streams {
        return Err(Fault::Budget { streams, plan });
    }
    Ok(())
}

/// Tests the signals.
fn check_signals(alloc: Global, plan: &Plan) -> Result<(), Fault>
    requires budget { KeepsBudget plan.now }
    ensures once { OnOk result (AreUsedOnce plan.now (length plan.now.signals)) }
    ensures fault { IfErr result (λ fault. (c : Sizes) → IsFault c plan.now fault) }
{
    match first_misuse(alloc, plan)? {
        Some(misuse) => Err(Fault::SignalNotOnce {
            signal: misuse.signal,
            posts: misuse.posts,
            waits: misuse.waits,
        }),
        None => Ok(()),
    }
}

/// Returns a stream's fault with the stream's number.
fn fault_of(stream: u32, bad: Bad) -> Fault
    ensures { result ≡ fault_of stream bad }
{
    match bad {
        Bad::NoMemory => Fault::NoMemory,
        Bad::At { at, why } => Fault::Stream { stream, at, why },
    }
}

/// Follows all streams to their ends.
fn follow_all(alloc: Global, config: &Config, plan: &Plan) -> Result<Ends, Fault>
    requires fits { IsKnownPlan (length config.now.shards) (length config.now.servers) plan.now }
    requires budget { KeepsBudget plan.now }
    requires signals { AreUsedOnce plan.now (length plan.now.signals) }
    ensures good { OnOk result (AreGood (sizes_of config.now) plan.now (length plan.now.streams)) }
    ensures finals { IfOk result (λ ends. AreFinals (sizes_of config.now) plan.now
        (length plan.now.streams) ends.finals.items) }
    ensures peaks { IfOk result (λ ends. ArePeaks (sizes_of config.now) plan.now
        (length plan.now.streams) ends.peaks.items) }
    ensures fault { IfErr result (λ fault. IsFault (sizes_of config.now) plan.now fault) }
{
    let count = plan.streams().len() as u32;
    let mut finals = Vec::new(alloc);
    let mut peaks = Vec::new(alloc);
    for stream in 0..count {
        match follow_to_end(alloc, config, plan, stream) {
            Ok(End { parcel, peak }) => {
                finals.push(parcel).map_err(|_| AllocError)?;
                peaks.push(peak).map_err(|_| AllocError)?;
            }
            Err(bad) => return Err(fault_of(stream, bad)),
        }
    }
    Ok(Ends { finals, peaks })
}

/// Finds an order.
fn find_order(alloc: Global, plan: &Plan) -> Result<Vec<(u32, u32)>, Fault>
    requires budget { KeepsBudget plan.now }
    requires signals { AreUsedOnce plan.now (length plan.now.signals) }
    ensures order { IfOk result (λ order. IsOrder plan.now order.items) }
    ensures fault { IfErr result (λ fault. (c : Sizes) → AreGood c plan.now (length plan.now.streams)
        → IsFault c plan.now fault) }
{
    match order_of(alloc, plan)? {
        Ok(order) => Ok(order),
        Err(positions) => Err(Fault::Stuck { positions }),
    }
}

/// Makes all tests of a plan.
fn examine(alloc: Global, config: &Config, plan: &Plan) -> Result<Findings, Fault>
    requires fits { IsKnownPlan (length config.now.shards) (length config.now.servers) plan.now }
    ensures config { IfOk result (λ found. found.config ≡ config.now) }
    ensures checked { IfOk result (λ found. IsChecked
        (checked_model config.now plan.now found.order.items found.finals.items found.peaks.items)) }
    ensures fault { IfErr result (λ fault. IsFault (sizes_of config.now) plan.now fault) }
    ensures early { IfErr result (λ fault. fault ≡ Fault.NoMemory → KeepsBudget plan.now) }
{
    check_budget(plan)?;
    check_signals(alloc, plan)?;
    let Ends { finals, peaks } = follow_all(alloc, config, plan)?;
    let order = find_order(alloc, plan)?;
    Ok(Findings {
        config: config.copy(alloc)?,
        order,
        finals,
        peaks,
    })
}

/// Checks a plan: the budgets of its streams, its signals, each stream, and whether there is an order of their steps.
///
/// A plan that does not pass comes back with its first fault, in the order of `Fault`. If memory is short, the plan
/// comes back too, and nothing is said of it but that it keeps its budget.
pub fn check(alloc: Global, config: &Config, plan: Plan) -> Result<Checked, (Plan, Fault)>
    requires fits { IsKnownPlan (length config.now.shards) (length config.now.servers) plan }
    ensures setup { IfOk result (λ checked. checked.setup ≡ config.now) }
    ensures checked { IfOk result (λ checked. checked.plan ≡ plan) }
    ensures sound { OnOk result (IsSound (sizes_of config.now) plan) }
    ensures plan { IfErr result (λ e. e.0 ≡ plan) }
    ensures fault { IfErr result (λ e. IsFault (sizes_of config.now) plan e.1) }
    ensures unsound { IfErr result (λ e. e.1 ≢ Fault.NoMemory → ¬ IsSound (sizes_of config.now) plan) }
    ensures early { IfErr result (λ e. e.1 ≡ Fault.NoMemory → KeepsBudget plan) }
{
    match examine(alloc, config, &plan) {
        Ok(findings) => Ok(Checked::new(plan, findings)),
        Err(fault) => Err((plan, fault)),
    }
}
