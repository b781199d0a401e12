//! The slot that a server keeps of a shard, and how work on it begins and ends.
ghost use Rattle.std.specs.Prelude.{◌≡◌};
ghost use Rattle.sm_server.specs.Call.{led_to};
ghost use Rattle.sm_agent.specs.Order.{is_at_work, is_filled, is_done, cut_by, cell_load, begun_slot, abandoned};
ghost use Rattle.sm_agent.specs.Order.{sealed, placed, may_commit, committed, vacant, may_delete};

use crate::base::Base;
use crate::order::{Order, turn_away};
use sm_server::{Call, Cell, Role, serve};

/// The slot that a server keeps of a shard, as durably as the shard's data.
#[derive(Clone, Copy, Debug, PartialEq, Eq)]
pub struct Slot {
    /// The server's cell of the shard; a handover's other party and number are in it.
    pub cell: Cell,
    /// The number of the last order that had its effect, 0 for none.
    pub last: u64,
    /// The number of the order at work.
    pub at_work: Option<u64>,
    /// The shard's load at this server, 0 if it has nothing of the shard.
    pub load: u64,
    /// The position of the shard's writes at which its old owner stopped executing. The new owner has to apply all
    /// writes up to it.
    pub cut: Option<u64>,
}

/// Returns the cell that a call leads to, whatever room there is: a call without load needs none.
fn next_cell(call: Call, cell: Cell) -> Option<Cell>
    ensures { result ≡ led_to call cell }
{
    serve(cell, 0, 0, true, call).ok()
}

/// Tells whether the order's work has begun.
pub(crate) const fn is_at_work(at_work: Option<u64>, number: u64) -> bool
    ensures { result ≡ is_at_work at_work number }
{
    match at_work {
        None => false,
        Some(at_work) => at_work == number,
    }
}

/// Tells whether the shard's writes are applied up to the old owner's cut, which is known.
const fn is_filled(cut: Option<u64>, applied: u64) -> bool
    ensures { result ≡ is_filled cut applied }
{
    match cut {
        None => false,
        Some(cut) => cut <= applied,
    }
}

/// Tells whether the work is done as far as the slot can tell: a new owner takes over once it is filled.
const fn is_done(call: Call, cell: Cell, cut: Option<u64>, at: u64) -> bool
    ensures { result ≡ is_done call cell cut at }
{
    match (call, cell) {
        (Call::Add(Role::Primary), Cell::Prepared { .. }) => is_filled(cut, at),
        _ => true,
    }
}

/// Returns an old owner's cut, which is the position at which it stops executing.
const fn cut_by(call: Call, at: u64) -> Option<u64>
    ensures { result ≡ cut_by call at }
{
    match call {
        Call::PrepareDrop { .. } => Some(at),
        _ => None,
    }
}

/// Returns the load of a cell.
const fn load_of(cell: &Cell, load: u64) -> u64
    ensures { result ≡ cell_load cell.now load }
{
    if cell.is_absent() { 0 } else { load }
}

/// Tells whether the order may have its effect now: it is not turned away, it is new, its work has begun and is done.
fn may_commit(base: &Base, slot: &Slot, order: &Order, at: u64) -> bool
    ensures { result ≡ may_commit base.now slot.now order.now at }
{
    turn_away(base, &order.stamp).is_none()
        && slot.last < order.stamp.number
        && is_at_work(slot.at_work, order.stamp.number)
        && is_done(order.call, slot.cell, slot.cut, at)
}

/// Returns the slot once an order's work has begun. It is to be stored before the work begins.
pub const fn begin(slot: &Slot, order: &Order) -> Slot
    ensures { result ≡ begun_slot slot.now order.now }
{
    Slot {
        at_work: Some(order.stamp.number),
        ..*slot
    }
}

/// Returns the slot once the work of an order is committed, with the shard's writes applied up to `at`. The slot is to
/// be stored in one act with the work, and the order is answered afterwards. None if the work is to be thrown away, or
/// its cut is not reached yet.
pub fn commit(base: &Base, slot: &Slot, order: &Order, at: u64) -> Option<Slot>
    ensures { result ≡ committed base.now slot.now order.now at }
{
    if !may_commit(base, slot, order, at) {
        return None;
    }
    let cell = next_cell(order.call, slot.cell)?;
    let load = load_of(&cell, order.load);
    Some(Slot {
        cell,
        last: order.stamp.number,
        at_work: None,
        load,
        cut: cut_by(order.call, at),
    })
}

/// Returns the slot once its work is given up: at each start of the server, and whenever a fence is taken. An order
/// given up comes again.
pub const fn abandon(slot: &Slot) -> Slot
    ensures { result ≡ abandoned slot.now }
{
    let at_work = None;
    Slot { at_work, ..*slot }
}

/// Returns a new owner's slot once it knows the old one's cut, by which the old one ends its stream of writes.
pub const fn seal(slot: &Slot, handover: u64, cut: u64) -> Slot
    ensures { result ≡ sealed slot.now handover cut }
{
    match slot.cell {
        Cell::Prepared { number, .. } if number == handover => Slot {
            cut: Some(cut),
            ..*slot
        },
        _ => *slot,
    }
}

/// Returns a slot as a settle or a restore brings it.
pub const fn place(slot: &Slot, cell: Cell, load: u64) -> Slot
    ensures { result ≡ placed slot.now cell load }
{
    let load = load_of(&cell, load);
    Slot {
        cell,
        last: slot.last,
        at_work: None,
        load,
        cut: None,
    }
}

/// Returns the slot of a shard of which the server has never had anything.
pub const fn vacant() -> Slot
    ensures { result ≡ vacant }
{
    Slot {
        cell: Cell::Absent,
        last: 0,
        at_work: None,
        load: 0,
        cut: None,
    }
}

/// Tells whether a slot may be deleted: the server has nothing of the shard, and its base alone turns away all that the
/// slot would. The shard's slot is `vacant` from then on.
pub fn may_delete(base: &Base, slot: &Slot) -> bool
    ensures { result ≡ may_delete base.now slot.now }
{
    slot.cell.is_absent() && slot.at_work.is_none() && slot.last <= base.number
}

/// Tells whether a new owner has applied all writes up to the old one's cut, which it knows. The answer to a fence has
/// this of each slot.
pub const fn has_reached_cut(slot: &Slot, applied: u64) -> bool
    ensures { result ≡ is_filled slot.now.cut applied }
{
    is_filled(slot.cut, applied)
}
