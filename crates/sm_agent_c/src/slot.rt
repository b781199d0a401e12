//! Slots as C has them, and the functions that change one.
ghost use Rattle.std.specs.Prelude.{◌≡◌};
ghost use Rattle.sm_agent_c.specs.Slot.{raw_cell, cell_kind, cell_party, cell_handover, slot_of, written_slot};
ghost use Rattle.sm_agent_c.specs.Slot.{answer_of, begun_answer, raw_begun, raw_abandoned, raw_sealed, reached_answer};
ghost use Rattle.sm_agent.specs.Order.{vacant};
ghost use Rattle.sm_agent_c.specs.Order.{raw_order};

use crate::code;
use crate::order::{RawOrder, read_order};
use sm_agent::{Slot, abandon, begin, has_reached_cut, seal, vacant};
use sm_server::{Cell, ServerId};

/// A slot. Zeros are that of an Unknown server.
#[repr(C)]
#[derive(Clone, Copy)]
pub struct RawSlot {
    pub cell: u32,
    pub party: u32,
    pub handover: u64,
    pub last: u64,
    pub at_work: u64,
    pub load: u64,
    pub cut: u64,
    pub has_cut: u32,
    pub reserved: u32,
}

/// The slot that a slot of C stands for.
#[derive(Clone, Copy)]
pub(crate) enum Reading {
    /// A kind is out of range.
    Bad,
    /// The slot of an Unknown server.
    Unknown,
    Known(Slot),
}

/// Returns the cell of a kind.
pub(crate) fn read_cell(kind: u32, party: u32, handover: u64) -> Option<Cell>
    ensures { result ≡ raw_cell kind party handover }
{
    match kind {
        code::ABSENT => Some(Cell::Absent),
        code::PREPARED => Some(Cell::Prepared {
            from: ServerId::new(party),
            number: handover,
        }),
        code::SECONDARY => Some(Cell::Secondary),
        code::PRIMARY => Some(Cell::Primary),
        code::FORWARDING => Some(Cell::Forwarding {
            to: ServerId::new(party),
            number: handover,
        }),
        _ => None,
    }
}

/// Returns the kind of a cell.
fn cell_kind(cell: &Cell) -> u32
    ensures { result ≡ cell_kind cell.now }
{
    match cell {
        Cell::Absent => code::ABSENT,
        Cell::Prepared { .. } => code::PREPARED,
        Cell::Secondary => code::SECONDARY,
        Cell::Primary => code::PRIMARY,
        Cell::Forwarding { .. } => code::FORWARDING,
    }
}

/// Returns the handover's other server, 0 outside one.
fn cell_party(cell: &Cell) -> u32
    ensures { result ≡ cell_party cell.now }
{
    match cell {
        Cell::Prepared { from, .. } => from.number(),
        Cell::Forwarding { to, .. } => to.number(),
        _ => 0,
    }
}

/// Returns the handover's number, 0 outside one.
fn cell_handover(cell: &Cell) -> u64
    ensures { result ≡ cell_handover cell.now }
{
    match cell {
        Cell::Prepared { number, .. } | Cell::Forwarding { number, .. } => *number,
        _ => 0,
    }
}

/// Returns the slot that a slot of C stands for.
pub(crate) fn read_slot(raw: &RawSlot) -> Reading
    ensures { result ≡ slot_of raw.now }
{
    if raw.cell == code::UNKNOWN {
        return Reading::Unknown;
    }
    if !code::is_flag(raw.has_cut) {
        return Reading::Bad;
    }
    match read_cell(raw.cell, raw.party, raw.handover) {
        None => Reading::Bad,
        Some(cell) => Reading::Known(Slot {
            cell,
            last: raw.last,
            at_work: code::number_if(raw.at_work, raw.at_work),
            load: raw.load,
            cut: code::number_if(u64::from(raw.has_cut), raw.cut),
        }),
    }
}

/// Returns a slot in C's form.
pub(crate) fn write_slot(slot: &Slot) -> RawSlot
    ensures { result ≡ written_slot slot.now }
{
    RawSlot {
        cell: cell_kind(&slot.cell),
        party: cell_party(&slot.cell),
        handover: cell_handover(&slot.cell),
        last: slot.last,
        at_work: slot.at_work.unwrap_or(0),
        load: slot.load,
        cut: slot.cut.unwrap_or(0),
        has_cut: code::flag_of(slot.cut.is_some()),
        reserved: 0,
    }
}

/// Returns `SM_DONE` for a slot that is known.
fn answer_to(reading: &Reading) -> u32
    ensures { result ≡ answer_of reading.now }
{
    match reading {
        Reading::Bad => code::BAD,
        Reading::Unknown => code::NOT_READY,
        Reading::Known(_) => code::DONE,
    }
}

/// Makes the slot that of a shard of which the server has never had anything.
#[unsafe(no_mangle)]
pub extern "C" fn sm_vacant(slot: &mut RawSlot)
    ensures { slot.new ≡ written_slot vacant }
{
    *slot = write_slot(&vacant());
}

/// Begins an order's work.
#[unsafe(no_mangle)]
pub extern "C" fn sm_begin(slot: &mut RawSlot, order: &RawOrder) -> u32
    ensures answer { result ≡ begun_answer (slot_of slot.old) (raw_order order.now) }
    ensures slot { slot.new ≡ raw_begun slot.old (slot_of slot.old) (raw_order order.now) }
{
    let Some(order) = read_order(order) else {
        return code::BAD;
    };
    let reading = read_slot(slot);
    if let Reading::Known(known) = &reading {
        *slot = write_slot(&begin(known, &order));
    }
    answer_to(&reading)
}

/// Gives an order's work up.
#[unsafe(no_mangle)]
pub extern "C" fn sm_abandon(slot: &mut RawSlot) -> u32
    ensures answer { result ≡ answer_of (slot_of slot.old) }
    ensures slot { slot.new ≡ raw_abandoned slot.old (slot_of slot.old) }
{
    let reading = read_slot(slot);
    if let Reading::Known(known) = &reading {
        *slot = write_slot(&abandon(known));
    }
    answer_to(&reading)
}

/// Tells a new owner's slot the old one's cut.
#[unsafe(no_mangle)]
pub extern "C" fn sm_seal(slot: &mut RawSlot, handover: u64, cut: u64) -> u32
    ensures answer { result ≡ answer_of (slot_of slot.old) }
    ensures slot { slot.new ≡ raw_sealed slot.old (slot_of slot.old) handover cut }
{
    let reading = read_slot(slot);
    if let Reading::Known(known) = &reading {
        *slot = write_slot(&seal(known, handover, cut));
    }
    answer_to(&reading)
}

/// Tells whether a new owner has applied all writes up to the old one's cut.
#[unsafe(no_mangle)]
pub extern "C" fn sm_has_reached_cut(slot: &RawSlot, applied: u64) -> u32
    ensures { result ≡ reached_answer (slot_of slot.now) applied }
{
    match read_slot(slot) {
        Reading::Bad => code::BAD,
        Reading::Unknown => code::NOT_READY,
        Reading::Known(known) => code::done_if(has_reached_cut(&known, applied)),
    }
}
