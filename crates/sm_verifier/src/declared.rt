//! The rights that streams declare: looked up in their parcels, and added up.
ghost use Rattle.std.specs.Prelude.{◌≡◌, ◌≤◌, All, is_some, length};
ghost use Rattle.std.specs.List.{list_any};
ghost use Rattle.sm_reservation.specs.HoldOf.{hold_of};
ghost use Rattle.sm_plan_code.specs.Plan.{IsSmallStream, IsSmallParcel};
ghost use Rattle.sm_verifier.specs.Admission.{declared_room, declared_spare};
ghost use Rattle.sm_plan_code.specs.declared.limits.TheConstants.{MOST_AMOUNT, MOST_STREAMS};

use sm_plan_code::Stream;
use sm_reservation::Parcel;
use sm_server::{ServerId, ShardId};

/// Tells whether one of the streams declares the right to a cell.
pub(crate) fn is_cell_declared(streams: &[Stream], shard: ShardId, server: ServerId) -> bool
    ensures { result ≡ list_any (λ stream. is_some ((hold_of stream.holds).cells shard server)) streams.now }
{
    streams
        .iter()
        .any(|stream| stream.holds.cell(shard, server).is_some())
}

/// Tells whether one of the streams declares the crown of a shard.
pub(crate) fn is_crown_declared(streams: &[Stream], shard: ShardId) -> bool
    ensures { result ≡ list_any (λ stream. is_some ((hold_of stream.holds).crowns shard)) streams.now }
{
    streams
        .iter()
        .any(|stream| stream.holds.crown(shard).is_some())
}

/// Returns how much room of a server a parcel has.
fn room_of(parcel: &Parcel, server: ServerId) -> u64
    requires { IsSmallParcel parcel.now }
    ensures value { result ≡ (hold_of parcel.now).room server }
    ensures bound { result ≤ MOST_AMOUNT }
{
    parcel.room_of(server)
}

/// Returns how many spare replicas of a shard a parcel has.
fn spare_of(parcel: &Parcel, shard: ShardId) -> u64
    requires { IsSmallParcel parcel.now }
    ensures value { result ≡ (hold_of parcel.now).spare shard }
    ensures bound { result ≤ MOST_AMOUNT }
{
    parcel.spare_of(shard)
}

/// Returns how much room of a server the streams declare together.
pub(crate) fn declared_room(streams: &[Stream], server: ServerId) -> u64
    requires few { length streams.now ≤ MOST_STREAMS }
    requires small { All IsSmallStream streams.now }
    ensures { result ≡ declared_room streams.now server }
{
    let mut sum = 0;
    for stream in streams {
        sum += room_of(&stream.holds, server);
    }
    sum
}

/// Returns how many spare replicas of a shard the streams declare together.
pub(crate) fn declared_spare(streams: &[Stream], shard: ShardId) -> u64
    requires few { length streams.now ≤ MOST_STREAMS }
    requires small { All IsSmallStream streams.now }
    ensures { result ≡ declared_spare streams.now shard }
{
    let mut sum = 0;
    for stream in streams {
        sum += spare_of(&stream.holds, shard);
    }
    sum
}
