//! One instruction of a stream, made with the hold before it.
ghost use Rattle.std.specs.Prelude.{◌≡◌, ◌≤◌, ◌<◌, ◌+◌, ◌^◌, ℕ, is_none, All, OnOk, OnErr, length};
ghost use Rattle.std.specs.List.{list_all};
ghost use Rattle.sm_placement.specs.Setup.{sizes_of};
ghost use Rattle.sm_reservation.specs.Rights.{Rights};
ghost use Rattle.sm_reservation.specs.Hold.{plus};
ghost use Rattle.sm_reservation.specs.HoldOf.{hold_of};
ghost use Rattle.sm_reservation.specs.Capacity.{most_keys};
ghost use Rattle.sm_plan_code.specs.Plan.{KnowsSignal, IsSmallParcel, IsKnownInstr};
ghost use Rattle.sm_plan_code.specs.Instr.{IsOwn};
ghost use Rattle.sm_plan_code.specs.After.{after, decided, signal_line, wait_line};
ghost use Rattle.sm_verifier.specs.Step.{outcome, IsAnswer, HasCapacityFor, keys_added, parcels_of, IsAtMost, Grows};
ghost use Rattle.sm_verifier.specs.Peak.{IsListing};
ghost use Rattle.sm_plan_code.specs.declared.limits.TheConstants.{MOST_RIGHTS, MOST_AMOUNT};

use sm_placement::Config;
use sm_plan_code::{Instr, Why, change_of};
use sm_reservation::{CellRight, Crown, Hold, Parcel};
use std::alloc::AllocError;
use thiserror::Error;

/// Why an instruction is not made.
#[derive(Clone, Copy, Debug, PartialEq, Eq, Error)]
pub(crate) enum StepFault {
    /// Memory was short.
    #[error("out of memory")]
    NoMemory,
    /// The stream may not make the instruction.
    #[error("{0}")]
    Refused(Why),
}

impl From<AllocError> for StepFault {
    ghost use Rattle.sm_verifier.specs.declared.steps.StepFault.TheVariants.{NoMemory};

    ghost from_gives = { λ _ fault. fault ≡ NoMemory };

    fn from(_error: AllocError) -> StepFault {
        StepFault::NoMemory
    }
}

impl From<Why> for StepFault {
    ghost use Rattle.sm_verifier.specs.declared.steps.StepFault.TheVariants.{Refused};

    ghost from_gives = { λ why fault. fault ≡ Refused why };

    fn from(why: Why) -> StepFault {
        StepFault::Refused(why)
    }
}

/// Makes an instruction that is neither a signal nor a wait: gives up what it needs, and gets what it gives.
fn make_own(config: &Config, instr: &Instr, hold: &mut Hold) -> Result<(), Why>
    requires fits { IsKnownInstr (length config.now.shards) (length config.now.servers) instr.now }
    requires own { IsOwn instr.now }
    requires capacity { HasCapacityFor 1 hold.old }
    requires amounts { IsAtMost (2 ^ 63) (hold_of hold.old.rights) }
    ensures answer { (signals : ℕ → Rights) → outcome result (hold_of hold.new.rights)
        ≡ after (sizes_of config.now) signals instr.now (hold_of hold.old.rights) }
    ensures kept { OnErr result (hold.new ≡ hold.old) }
    ensures grows { Grows MOST_AMOUNT (hold_of hold.old.rights) (hold_of hold.new.rights) }
    ensures capacity { hold.new.capacity ≡ hold.old.capacity }
{
    match change_of(config, instr, hold) {
        Ok(change) => {
            hold.exchange(&change);
            Ok(())
        }
        Err(why) => Err(why),
    }
}

/// Posts a signal, which takes its parcel.
fn signal(hold: &mut Hold, parcel: &Parcel) -> Result<(), Why>
    ensures answer { outcome result (hold_of hold.new.rights)
        ≡ decided (signal_line parcel.now (hold_of hold.old.rights)) }
    ensures kept { OnErr result (hold.new ≡ hold.old) }
    ensures grows { Grows MOST_AMOUNT (hold_of hold.old.rights) (hold_of hold.new.rights) }
    ensures capacity { hold.new.capacity ≡ hold.old.capacity }
{
    if hold.first_short(parcel).is_some() {
        return Err(Why::NotCarried);
    }
    hold.take(parcel);
    Ok(())
}

/// Tells whether no right to one of these cells is held.
fn are_cells_apart(hold: &Hold, cells: &[CellRight]) -> bool
    ensures { result ≡ list_all (λ x. is_none ((hold_of hold.now.rights).cells x.shard x.server)) cells.now }
{
    cells
        .iter()
        .all(|right| hold.cell(right.shard, right.server).is_none())
}

/// Tells whether none of these crowns is held.
fn are_crowns_apart(hold: &Hold, crowns: &[Crown]) -> bool
    ensures { result ≡ list_all (λ x. is_none ((hold_of hold.now.rights).crowns x.shard)) crowns.now }
{
    crowns.iter().all(|crown| hold.crown(crown.shard).is_none())
}

/// Waits for a signal, which puts its parcel in.
fn wait(hold: &mut Hold, parcel: &Parcel) -> Result<(), Why>
    requires small { IsSmallParcel parcel.now }
    requires capacity { HasCapacityFor (most_keys parcel.now) hold.old }
    requires amounts { IsAtMost (2 ^ 63) (hold_of hold.old.rights) }
    ensures answer { outcome result (hold_of hold.new.rights)
        ≡ decided (wait_line parcel.now (hold_of hold.old.rights)) }
    ensures kept { OnErr result (hold.new ≡ hold.old) }
    ensures grows { Grows MOST_AMOUNT (hold_of hold.old.rights) (hold_of hold.new.rights) }
    ensures capacity { hold.new.capacity ≡ hold.old.capacity }
{
    if !are_cells_apart(hold, parcel.cells()) || !are_crowns_apart(hold, parcel.crowns()) {
        return Err(Why::Twice);
    }
    put_parcel(hold, parcel);
    Ok(())
}

/// Puts a parcel in.
fn put_parcel(hold: &mut Hold, parcel: &Parcel)
    requires small { IsSmallParcel parcel.now }
    requires capacity { HasCapacityFor (most_keys parcel.now) hold.old }
    requires amounts { IsAtMost (2 ^ 63) (hold_of hold.old.rights) }
    ensures rights { hold_of hold.new.rights ≡ plus (hold_of hold.old.rights) parcel.now }
    ensures grows { Grows MOST_AMOUNT (hold_of hold.old.rights) (hold_of hold.new.rights) }
    ensures capacity { hold.new.capacity ≡ hold.old.capacity }
{
    let _room = parcel.room();
    let _spare = parcel.spare();
    hold.put(parcel);
}

/// Returns the number of keys of the longest list of a parcel.
fn longest_of(parcel: &Parcel) -> usize
    requires small { IsSmallParcel parcel.now }
    ensures count { result ≡ most_keys parcel.now }
    ensures bound { result ≤ MOST_RIGHTS }
{
    let cells = parcel.cells().len();
    let crowns = parcel.crowns().len();
    let room = parcel.room().len();
    let spare = parcel.spare().len();
    cells.max(crowns).max(room).max(spare)
}

/// Returns the greatest number of keys that an instruction adds to a list.
fn keys_added(signals: &[Parcel], instr: &Instr) -> usize
    requires signal { KnowsSignal (length signals.now) instr.now }
    requires small { All IsSmallParcel signals.now }
    ensures count { result ≡ keys_added (parcels_of signals.now) instr.now }
    ensures bound { result ≤ MOST_RIGHTS }
{
    match *instr {
        Instr::Wait { signal } => longest_of(&signals[signal as usize]),
        _ => 1,
    }
}

/// Returns the number of keys of the longest list of a hold.
pub(crate) fn longest_list(hold: &Hold) -> usize
    ensures count { result ≡ most_keys hold.now.rights }
    ensures listing { IsListing hold.now.rights (hold_of hold.now.rights) }
    ensures within { result ≤ hold.now.capacity }
    ensures bound { result < 2 ^ 63 }
{
    let _capacity = hold.capacity();
    let cells = hold.cells().len();
    let crowns = hold.crowns().len();
    let room = hold.rooms().len();
    let spare = hold.spares().len();
    cells.max(crowns).max(room).max(spare)
}

/// Makes capacity for `more` keys in each list.
fn reserve(hold: &mut Hold, more: usize) -> Result<(), AllocError>
    requires few { hold.old.capacity + more < 2 ^ 32 }
    ensures rights { hold.new.rights ≡ hold.old.rights }
    ensures capacity { OnOk result (HasCapacityFor more hold.new) }
    ensures grows { hold.new.capacity ≤ hold.old.capacity + more }
{
    hold.reserve((longest_list(hold) + more) as u32)
}

/// Makes an instruction with a hold that has capacity for what it adds.
fn make(config: &Config, signals: &[Parcel], instr: &Instr, hold: &mut Hold) -> Result<(), Why>
    requires fits { IsKnownInstr (length config.now.shards) (length config.now.servers) instr.now }
    requires signal { KnowsSignal (length signals.now) instr.now }
    requires small { All IsSmallParcel signals.now }
    requires capacity { HasCapacityFor (keys_added (parcels_of signals.now) instr.now) hold.old }
    requires amounts { IsAtMost (2 ^ 63) (hold_of hold.old.rights) }
    ensures answer { outcome result (hold_of hold.new.rights)
        ≡ after (sizes_of config.now) (parcels_of signals.now) instr.now (hold_of hold.old.rights) }
    ensures kept { OnErr result (hold.new ≡ hold.old) }
    ensures grows { Grows MOST_AMOUNT (hold_of hold.old.rights) (hold_of hold.new.rights) }
    ensures capacity { hold.new.capacity ≡ hold.old.capacity }
{
    match *instr {
        Instr::Signal { signal: number } => signal(hold, &signals[number as usize]),
        Instr::Wait { signal: number } => wait(hold, &signals[number as usize]),
        _ => make_own(config, instr, hold),
    }
}

/// Makes an instruction: the hold becomes the one after it. If the instruction is not made, the rights stay as they
/// are.
pub(crate) fn step(
    config: &Config,
    signals: &[Parcel],
    instr: &Instr,
    hold: &mut Hold,
) -> Result<(), StepFault>
    requires fits { IsKnownInstr (length config.now.shards) (length config.now.servers) instr.now }
    requires signal { KnowsSignal (length signals.now) instr.now }
    requires small { All IsSmallParcel signals.now }
    requires amounts { IsAtMost (2 ^ 63) (hold_of hold.old.rights) }
    requires few { hold.old.capacity + MOST_RIGHTS < 2 ^ 32 }
    ensures answer { IsAnswer result (hold_of hold.new.rights)
        (after (sizes_of config.now) (parcels_of signals.now) instr.now (hold_of hold.old.rights)) }
    ensures kept { OnErr result (hold.new.rights ≡ hold.old.rights) }
    ensures grows { Grows MOST_AMOUNT (hold_of hold.old.rights) (hold_of hold.new.rights) }
    ensures capacity { hold.new.capacity ≤ hold.old.capacity + MOST_RIGHTS }
{
    reserve(hold, keys_added(signals, instr))?;
    Ok(make(config, signals, instr, hold)?)
}
