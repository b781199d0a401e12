//! A stream followed through its code.
ghost use Rattle.std.specs.Prelude.{◌≡◌, ◌≢◌, true, ◌≤◌, ◌<◌, ◌+◌, ◌^◌, ◌↔◌, IsTrue, All, IfOk, IfErr, OnOk, length};
ghost use Rattle.sm_placement.specs.Lead.{is_at_rest};
ghost use Rattle.sm_placement.specs.Setup.{sizes_of};
ghost use Rattle.sm_reservation.specs.HoldOf.{hold_of};
ghost use Rattle.sm_plan_code.specs.After.{after};
ghost use Rattle.sm_plan_code.specs.Plan.{KnowsSignal, IsSmallParcel, IsSmallStream, IsKnownInstr, IsKnownStream};
ghost use Rattle.sm_plan_code.specs.Plan.{IsKnownPlan};
ghost use Rattle.sm_verifier.specs.Step.{parcels_of, IsAnswer, IsAtMost, Grows};
ghost use Rattle.sm_verifier.specs.Stream.{course, course_of, stream_at, final_hold, HasCrownsAtRest, IsGood};
ghost use Rattle.sm_verifier.specs.Stream.{within_budget};
ghost use Rattle.sm_verifier.specs.Bad.{bad_at, IsBad};
ghost use Rattle.sm_verifier.specs.Peak.{IsPeak};
ghost use Rattle.sm_plan_code.specs.declared.limits.TheConstants.{MOST_RIGHTS, MOST_AMOUNT, MOST_INSTRUCTIONS};

use crate::steps::{StepFault, longest_list, step};
use sm_placement::{Config, Lead};
use sm_plan_code::{Instr, Plan, Stream, Why, is_call};
use sm_reservation::{Crown, Hold, Parcel};
use std::alloc::{AllocError, Global};
use thiserror::Error;

/// Why a stream cannot be followed to its end.
#[derive(Clone, Copy, Debug, PartialEq, Eq, Error)]
pub enum Bad {
    /// Memory was short.
    #[error("out of memory")]
    NoMemory,
    /// The stream breaks off.
    #[error("at {at}: {why}")]
    At {
        /// The position of the instruction, or the length of the code at the stream's end.
        at: u32,
        /// Why the instruction may not be made, or the stream may not end.
        why: Why,
    },
}

impl From<AllocError> for Bad {
    ghost use Rattle.sm_verifier.specs.declared.following.Bad.TheVariants.{NoMemory};

    ghost from_gives = { λ _ bad. bad ≡ NoMemory };

    fn from(_error: AllocError) -> Bad {
        Bad::NoMemory
    }
}

/// Returns a step's fault with the step's position.
fn bad_at(at: u32, fault: StepFault) -> Bad
    ensures { result ≡ bad_at at fault }
{
    match fault {
        StepFault::NoMemory => Bad::NoMemory,
        StepFault::Refused(why) => Bad::At { at, why },
    }
}

/// Tells whether no handover is under way.
fn is_at_rest(lead: &Lead) -> bool
    ensures { result ≡ is_at_rest lead.now }
{
    match lead {
        Lead::Gone | Lead::At(_) => true,
        Lead::Ready(_, _) | Lead::Handing(_, _) | Lead::Handed(_, _) => false,
    }
}

/// Tells whether every crown is at rest.
fn are_at_rest(crowns: &[Crown]) -> bool
    ensures { IsTrue result ↔ All (λ x. is_at_rest x.lead ≡ true) crowns.now }
{
    crowns.iter().all(|crown| is_at_rest(&crown.lead))
}

/// Tells whether every crown that is held is at rest.
fn is_settled(hold: &Hold) -> bool
    ensures { IsTrue result ↔ HasCrownsAtRest (hold_of hold.now.rights) }
{
    are_at_rest(hold.crowns())
}

/// Makes an instruction of a stream that has made `calls` calls before it.
fn follow_one(
    config: &Config,
    signals: &[Parcel],
    budget: u32,
    calls: u32,
    instr: &Instr,
    hold: &mut Hold,
) -> Result<(), StepFault>
    requires fits { IsKnownInstr (length config.now.shards) (length config.now.servers) instr.now }
    requires signal { KnowsSignal (length signals.now) instr.now }
    requires small { All IsSmallParcel signals.now }
    requires amounts { IsAtMost (2 ^ 63) (hold_of hold.old.rights) }
    requires few { hold.old.capacity + MOST_RIGHTS < 2 ^ 32 }
    ensures answer { IsAnswer result (hold_of hold.new.rights)
        (within_budget budget calls instr.now (after (sizes_of config.now) (parcels_of signals.now) instr.now
        (hold_of hold.old.rights))) }
    ensures grows { Grows MOST_AMOUNT (hold_of hold.old.rights) (hold_of hold.new.rights) }
    ensures capacity { hold.new.capacity ≤ hold.old.capacity + MOST_RIGHTS }
{
    if is_call(instr) && budget <= calls {
        return Err(StepFault::Refused(Why::OverBudget));
    }
    step(config, signals, instr, hold)
}

/// Follows a code from the hold before it, which becomes the hold after it: the most keys that one of its lists had.
fn follow_code(
    config: &Config,
    signals: &[Parcel],
    budget: u32,
    hold: &mut Hold,
    code: &[Instr],
) -> Result<u32, Bad>
    requires fits { All (IsKnownInstr (length config.now.shards) (length config.now.servers)) code.now }
    requires known { All (KnowsSignal (length signals.now)) code.now }
    requires small { All IsSmallParcel signals.now }
    requires short { length code.now ≤ MOST_INSTRUCTIONS }
    requires amounts { IsAtMost MOST_AMOUNT (hold_of hold.old.rights) }
    requires capacity { hold.old.capacity ≤ MOST_RIGHTS }
    ensures good { OnOk result (IsGood (course (sizes_of config.now) signals.now budget hold.old.rights code.now)) }
    ensures hold { OnOk result (hold_of hold.new.rights
        ≡ final_hold (course (sizes_of config.now) signals.now budget hold.old.rights code.now)) }
    ensures peak { IfOk result (λ peak. IsPeak
        (course (sizes_of config.now) signals.now budget hold.old.rights code.now) peak) }
    ensures bad { IfErr result (λ bad. IsBad (course
        (sizes_of config.now) signals.now budget hold.old.rights code.now) bad) }
{
    let mut calls = 0;
    let mut at = 0;
    let mut peak = longest_list(hold);
    for instr in code {
        if let Err(fault) = follow_one(config, signals, budget, calls, instr, hold) {
            return Err(bad_at(at, fault));
        }
        if is_call(instr) {
            calls += 1;
        }
        at += 1;
        peak = peak.max(longest_list(hold));
    }
    if !is_settled(hold) {
        return Err(Bad::At {
            at,
            why: Why::Unsettled,
        });
    }
    Ok(peak as u32)
}

/// The end of a stream.
#[derive(Drop)]
pub(crate) struct End {
    /// The rights that the stream holds.
    pub parcel: Parcel,
    /// The most keys that one list of its hold had on the way.
    pub peak: u32,
}

/// Follows a stream of a plan with these signals.
fn follow_stream(
    alloc: Global,
    config: &Config,
    signals: &[Parcel],
    stream: &Stream,
) -> Result<End, Bad>
    requires fits { IsKnownStream (length config.now.shards) (length config.now.servers) stream.now }
    requires known { All (KnowsSignal (length signals.now)) stream.now.code }
    requires small { All IsSmallParcel signals.now }
    requires short { IsSmallStream stream.now }
    ensures good { OnOk result (IsGood (course_of (sizes_of config.now) signals.now stream.now)) }
    ensures hold { IfOk result (λ end. hold_of end.parcel
        ≡ final_hold (course_of (sizes_of config.now) signals.now stream.now)) }
    ensures peak { IfOk result (λ end. IsPeak (course_of (sizes_of config.now) signals.now stream.now) end.peak) }
    ensures bad { IfErr result (λ bad. IsBad (course_of (sizes_of config.now) signals.now stream.now) bad) }
{
    let mut hold = Hold::of_parcel(alloc, &stream.holds)?;
    let peak = follow_code(
        config,
        signals,
        stream.budget,
        &mut hold,
        stream.code.as_slice(),
    )?;
    Ok(End {
        parcel: hold.into_parcel(),
        peak,
    })
}

/// Follows the stream of a plan at a number to its end.
pub(crate) fn follow_to_end(
    alloc: Global,
    config: &Config,
    plan: &Plan,
    stream: u32,
) -> Result<End, Bad>
    requires fits { IsKnownPlan (length config.now.shards) (length config.now.servers) plan.now }
    requires stream { stream < length plan.now.streams }
    ensures good { OnOk result (IsGood (stream_at (sizes_of config.now) plan.now stream)) }
    ensures hold { IfOk result (λ end. hold_of end.parcel
        ≡ final_hold (stream_at (sizes_of config.now) plan.now stream)) }
    ensures peak { IfOk result (λ end. IsPeak (stream_at (sizes_of config.now) plan.now stream) end.peak) }
    ensures bad { IfErr result (λ bad. IsBad (stream_at (sizes_of config.now) plan.now stream) bad) }
    ensures not_good { IfErr result (λ bad. bad ≢ Bad.NoMemory
        → ¬ IsGood (stream_at (sizes_of config.now) plan.now stream)) }
{
    follow_stream(
        alloc,
        config,
        plan.signals(),
        &plan.streams()[stream as usize],
    )
}

/// Follows the stream of a plan at a number, with its declared rights, through its whole code, and returns what it
/// holds at the end.
///
/// Any `Err` but `NoMemory` says that the stream is not good, and where and why it first may not go on. A call that is
/// over the budget is refused as `OverBudget`, whatever else stands against it. Retries do not count.
pub fn follow(alloc: Global, config: &Config, plan: &Plan, stream: u32) -> Result<Parcel, Bad>
    requires fits { IsKnownPlan (length config.now.shards) (length config.now.servers) plan.now }
    requires stream { stream < length plan.now.streams }
    ensures good { OnOk result (IsGood (stream_at (sizes_of config.now) plan.now stream)) }
    ensures hold { IfOk result (λ parcel. hold_of parcel
        ≡ final_hold (stream_at (sizes_of config.now) plan.now stream)) }
    ensures bad { IfErr result (λ bad. IsBad (stream_at (sizes_of config.now) plan.now stream) bad) }
    ensures not_good { IfErr result (λ bad. bad ≢ Bad.NoMemory
        → ¬ IsGood (stream_at (sizes_of config.now) plan.now stream)) }
{
    let End { parcel, peak: _ } = follow_to_end(alloc, config, plan, stream)?;
    Ok(parcel)
}
