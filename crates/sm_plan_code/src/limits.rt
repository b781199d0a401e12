//! The limits of a plan, and which signals it knows.
ghost use Rattle.std.specs.Prelude.{◌↔◌, ◌≤◌, IsTrue, All};
ghost use Rattle.sm_plan_code.specs.Plan.{IsSmallParcel, IsSmallStream, IsSmallPlan, IsOrderedParcel};
ghost use Rattle.sm_plan_code.specs.Plan.{HasOrderedParcels, KnowsSignal, KnowsSignals};
ghost use Rattle.sm_plan_code.specs.Parts.{parts_of};

use crate::Instr;
use crate::plan::{Parts, Stream};
use sm_placement::MOST_LOAD;
use sm_reservation::{Parcel, Room, Spare};

/// The greatest number of streams of a plan.
pub const MOST_STREAMS: usize = 64;

/// The greatest number of signals of a plan.
pub const MOST_SIGNALS: usize = 256;

/// The greatest number of instructions of a stream.
pub const MOST_INSTRUCTIONS: usize = 4_096;

/// The greatest budget, of a plan and of a stream, and the most retries of a stream.
pub const MOST_CALLS: u32 = 262_144;

/// The greatest number of entries in each list of a parcel.
pub const MOST_RIGHTS: usize = 4_096;

/// The greatest amount of room or of spare replicas. An amount of room can be as great as a server's room.
pub const MOST_AMOUNT: u64 = MOST_LOAD;

/// The greatest number of plans that run at a time.
pub const MOST_PLANS: usize = 16;

/// The greatest number of moves that are planned at once.
pub const MOST_MOVES: usize = 4_096;

/// The greatest number of tries that a stream's budget, its retries and its refills allow together.
pub const MOST_ALLOWANCE: u32 = 524_288;

/// The greatest number of places of a log.
pub const MOST_PLACES: u32 = 1_048_576;

/// The greatest number of a plan, a stream, a handover or a place that a document may name.
pub const MOST_NUMBER: u32 = u32::MAX;

/// Tells whether each amount of room is within its limit.
fn is_small_room(room: &[Room]) -> bool
    ensures { IsTrue result ↔ All (λ x. x.amount ≤ MOST_AMOUNT) room.now }
{
    room.iter().all(|x| x.amount <= MOST_AMOUNT)
}

/// Tells whether each amount of spare replicas is within its limit.
fn is_small_spare(spare: &[Spare]) -> bool
    ensures { IsTrue result ↔ All (λ x. x.amount ≤ MOST_AMOUNT) spare.now }
{
    spare.iter().all(|x| x.amount <= MOST_AMOUNT)
}

/// Tells whether each list of a parcel and each amount is within its limit.
fn is_small_parcel(parcel: &Parcel) -> bool
    ensures small { IsTrue result ↔ IsSmallParcel parcel.now }
    ensures order { IsTrue result → IsOrderedParcel parcel.now }
{
    parcel.cells().len() <= MOST_RIGHTS
        && parcel.crowns().len() <= MOST_RIGHTS
        && parcel.room().len() <= MOST_RIGHTS
        && parcel.spare().len() <= MOST_RIGHTS
        && is_small_room(parcel.room())
        && is_small_spare(parcel.spare())
}

/// Tells whether a stream's numbers, its parcel and its code are within their limits.
fn is_small_stream(stream: &Stream) -> bool
    ensures small { IsTrue result ↔ IsSmallStream stream.now }
    ensures order { IsTrue result → IsOrderedParcel stream.now.holds }
{
    stream.budget <= MOST_CALLS
        && stream.retries <= MOST_CALLS
        && is_small_parcel(&stream.holds)
        && stream.code.len() <= MOST_INSTRUCTIONS
}

/// Tells whether each of the streams is within the limits.
fn are_small_streams(streams: &[Stream]) -> bool
    ensures small { IsTrue result ↔ All IsSmallStream streams.now }
    ensures order { IsTrue result → All (λ s. IsOrderedParcel s.holds) streams.now }
{
    streams.iter().all(is_small_stream)
}

/// Tells whether each of the parcels is within the limits.
fn are_small_parcels(parcels: &[Parcel]) -> bool
    ensures small { IsTrue result ↔ All IsSmallParcel parcels.now }
    ensures order { IsTrue result → All IsOrderedParcel parcels.now }
{
    parcels.iter().all(is_small_parcel)
}

/// Tells whether the parts of a plan are within the limits.
pub(crate) fn is_small_plan(parts: &Parts) -> bool
    ensures small { IsTrue result ↔ IsSmallPlan (parts_of parts.now) }
    ensures order { IsTrue result → HasOrderedParcels (parts_of parts.now) }
{
    parts.budget <= MOST_CALLS
        && parts.streams.len() <= MOST_STREAMS
        && parts.signals.len() <= MOST_SIGNALS
        && are_small_streams(parts.streams.as_slice())
        && are_small_parcels(parts.signals.as_slice())
}

/// Tells whether the signal of an instruction is one of the first `signals`.
fn knows_signal(instr: &Instr, signals: usize) -> bool
    ensures { IsTrue result ↔ KnowsSignal signals instr.now }
{
    match *instr {
        Instr::Signal { signal } | Instr::Wait { signal } => (signal as usize) < signals,
        Instr::PrepareAdd { .. }
        | Instr::PrepareDrop { .. }
        | Instr::Add { .. }
        | Instr::Drop { .. }
        | Instr::Change { .. }
        | Instr::Publish { .. }
        | Instr::Unlist { .. } => true,
    }
}

/// Tells whether each signal of a stream's code is one of the first `signals`.
fn knows_signals_of(stream: &Stream, signals: usize) -> bool
    ensures { IsTrue result ↔ All (KnowsSignal signals) stream.now.code }
{
    stream.code.iter().all(|instr| knows_signal(instr, signals))
}

/// Tells whether each signal that is posted or waited for has a parcel.
pub(crate) fn knows_signals(parts: &Parts) -> bool
    ensures { IsTrue result ↔ KnowsSignals (parts_of parts.now) }
{
    let signals = parts.signals.len();
    parts
        .streams
        .iter()
        .all(|stream| knows_signals_of(stream, signals))
}
