//! Orders, and what a server makes of them.
ghost use Rattle.std.specs.Prelude.{◌≡◌};
ghost use Rattle.sm_agent.specs.Order.{turned_away, judged_by_slot, judged, published};

use crate::base::Base;
use crate::slot::{Slot, is_at_work};
use sm_server::{Call, Refusal, serve};

/// The part of an order to a server that an order to the owner of the published map has too.
#[derive(Clone, Copy, Debug, PartialEq, Eq)]
pub struct Stamp {
    pub journal: u64,
    /// The number of the journal's last reopening.
    pub fence: u64,
    /// The order's number; of a publication it is the version.
    pub number: u64,
}

/// An order, as its server sees it: one call for one shard.
#[derive(Clone, Copy, Debug, PartialEq, Eq)]
pub struct Order {
    pub stamp: Stamp,
    pub call: Call,
    /// The shard's load.
    pub load: u64,
    /// The server's room.
    pub room: u64,
}

/// The verdict of a server on an order.
#[derive(Clone, Copy, Debug, PartialEq, Eq)]
pub enum Verdict {
    /// Its work is to begin.
    Begin,
    /// Its work has begun, and is not committed yet.
    Working,
    /// It has had its effect, and gets the same answer again.
    Again,
    /// It has no effect any more, and is not answered.
    Old,
    /// It is of another journal.
    Foreign,
    /// The server is Unknown or fenced.
    NotReady,
    /// Its call cannot be made.
    Refused(Refusal),
}

/// Returns why an order is turned away, whatever the server has of its shard.
pub(crate) fn turn_away(base: &Base, stamp: &Stamp) -> Option<Verdict>
    ensures { result ≡ turned_away base.now stamp.now }
{
    if base.is_unknown() {
        Some(Verdict::NotReady)
    } else if stamp.journal != base.journal {
        Some(Verdict::Foreign)
    } else if base.fenced || base.number < stamp.fence {
        Some(Verdict::NotReady)
    } else if stamp.number <= base.number {
        Some(Verdict::Old)
    } else {
        None
    }
}

/// Returns what the shard's slot says of an order that is not turned away.
fn judge_by_slot(slot: &Slot, used: u64, order: &Order) -> Verdict
    ensures { result ≡ judged_by_slot slot.now used order.now }
{
    let Stamp { number, .. } = order.stamp;
    if number < slot.last {
        return Verdict::Old;
    }
    if number == slot.last {
        return Verdict::Again;
    }
    let free_room = order.room.saturating_sub(used);
    match serve(slot.cell, free_room, order.load, true, order.call) {
        Err(why) => Verdict::Refused(why),
        Ok(_) if is_at_work(slot.at_work, number) => Verdict::Working,
        Ok(_) => Verdict::Begin,
    }
}

/// Decides what a server makes of an order. `used` is the sum of the loads of the server's slots that are not absent.
pub fn judge(base: &Base, slot: &Slot, used: u64, order: &Order) -> Verdict
    ensures { result ≡ judged base.now slot.now used order.now }
{
    match turn_away(base, &order.stamp) {
        Some(verdict) => verdict,
        None => judge_by_slot(slot, used, order),
    }
}

/// Decides what the owner of the published map makes of a publication, if it shows the version `shown` of the shard:
/// the new entry is shown from now on (`Begin`), or is only answered (`Again`), or it is turned away. Entry and version
/// change in one act.
pub fn publish(base: &Base, shown: u64, publication: &Stamp) -> Verdict
    ensures { result ≡ published base.now shown publication.now }
{
    match turn_away(base, publication) {
        Some(verdict) => verdict,
        None if shown < publication.number => Verdict::Begin,
        None => Verdict::Again,
    }
}
