//! A server's account of its slots, as a reopening takes it.
ghost use Rattle.std.specs.List.{list_all};
ghost use Rattle.std.specs.Prelude.{◌≡◌, ◌==◌, ◌<◌, ℕ, IfOk, OnOk, Some, if◌then◌else◌, length, nat_lt, true};
ghost use Rattle.laws_network.specs.Reopening.{Unknown};
ghost use Rattle.sm_reopening.specs.States.{fits_told, net_inventory, shards_in, slot_of, told_copy};
ghost use Rattle.smpland_reopening_lines.specs.Slots.{cell_told, copy_said, is_text_of, party_told, slot_by, slot_told};
ghost use Rattle.smpland_reopening_lines.specs.Taken.{BeganBelow};
ghost use Rattle.smpland_reopening_lines.specs.Told.{HasEachSlot};

use sm_copies::ToldCopy;
use sm_placement::Config;
use sm_reopening::{FoundSlot, FoundSlots, Inventory};
use sm_server::{Cell, ServerId};
use smpland_lines::{CellKind, CommandMember, LinePart, PartyText, SlotText};
use std::alloc::{AllocError, Global};

/// A server's account: slots of shards that have numbers, and the names of other shards that it has.
#[derive(Drop)]
pub(crate) struct Told {
    pub inventory: Inventory,
    pub unknown_shards: Vec<String>,
}

/// Returns the number of the other party of a handover: one that no server has for a name that nobody knows.
fn party_of(numbering: &Config, party: PartyText<'_>) -> ServerId
    ensures { result ≡ party_told numbering.now party.entry }
{
    let unknown = ServerId::new(u32::MAX);
    match party {
        PartyText::Name(name) => match numbering.server_named(name) {
            Some(server) => server,
            None => unknown,
        },
        PartyText::Null | PartyText::Missing => unknown,
    }
}

/// The cell that a slot tells.
fn cell_told(numbering: &Config, slot: &SlotText<'_>) -> Cell
    ensures { result ≡ cell_told numbering.now slot.now }
{
    let number = slot.handover.unwrap_or(0);
    match slot.cell {
        CellKind::Absent => Cell::Absent,
        CellKind::Secondary => Cell::Secondary,
        CellKind::Primary => Cell::Primary,
        CellKind::Prepared => Cell::Prepared {
            from: party_of(numbering, slot.party),
            number,
        },
        CellKind::Forwarding => Cell::Forwarding {
            to: party_of(numbering, slot.party),
            number,
        },
    }
}

/// The copy that a slot tells.
fn copy_said(slot: &SlotText<'_>) -> ToldCopy
    ensures { result ≡ copy_said slot.now }
{
    ToldCopy {
        view: slot.view.unwrap_or(0),
        position: slot.position.unwrap_or(0),
    }
}

/// The slot that a row tells: its cell, its copy, and whether the cut is reached.
fn slot_told(numbering: &Config, slot: &SlotText<'_>) -> FoundSlot
    ensures { result ≡ slot_told numbering.now slot.now }
{
    FoundSlot {
        cell: cell_told(numbering, slot),
        copy: copy_said(slot),
        reached: slot.reached.unwrap_or(false),
    }
}

/// Takes a slot: of a shard that has a number as it is told, and of any other the name, if the server has something
/// of it.
fn take_slot(
    alloc: Global,
    numbering: &Config,
    slot: &SlotText<'_>,
    found: &mut FoundSlots,
    unknown_shards: &mut Vec<String>,
) -> Result<(), AllocError>
    requires { shards_in found.old ≡ length numbering.now.shards }
    ensures count { OnOk result (shards_in found.new ≡ shards_in found.old) }
    ensures slots { OnOk result ((s : ℕ) → slot_of found.new s
        ≡ (if is_text_of numbering.now s slot.now then slot_told numbering.now slot.now else slot_of found.old s)) }
{
    match numbering.shard_named(slot.shard) {
        Some(shard) => found.put(shard, slot_told(numbering, slot))?,
        None if slot.cell == CellKind::Absent => {}
        None => unknown_shards.push(String::from_str(alloc, slot.shard)?)?,
    }
    Ok(())
}

/// Returns what a server tells by these slots.
pub(crate) fn told_by_slots(
    alloc: Global,
    numbering: &Config,
    slots: &[SlotText<'_>],
) -> Result<Told, AllocError>
    ensures fits { IfOk result (λ told. fits_told (length numbering.now.shards) (Some told.inventory) ≡ true) }
    ensures slots { IfOk result (λ told. HasEachSlot (slot_by numbering.now slots.now) told.inventory) }
{
    let mut found = FoundSlots::nothing(alloc, numbering.shard_count())?;
    let mut unknown_shards = Vec::new(alloc);
    for slot in slots {
        take_slot(alloc, numbering, slot, &mut found, &mut unknown_shards)?;
    }
    Ok(Told {
        inventory: Inventory::Slots(found),
        unknown_shards,
    })
}

/// Whether each copy that slots tell began below a reopening's base.
pub(crate) fn began_below(slots: &[SlotText<'_>], base: u64) -> bool
    ensures { result ≡ list_all (λ slot. nat_lt (copy_said slot).view base) slots.now }
{
    slots.iter().all(|slot| copy_said(slot).view < base)
}

/// The first slot whose copy did not begin below a base, as a part of its line.
pub(crate) fn first_later(slots: &[SlotText<'_>], base: u64) -> LinePart {
    for (place, slot) in slots.iter().enumerate() {
        if copy_said(slot).view >= base {
            return LinePart::Entry(CommandMember::Slots, place);
        }
    }
    LinePart::Line
}

/// Returns what a server tells that has lost its slots.
pub(crate) fn told_unknown(alloc: Global, nonce: u64) -> Told
    ensures fits { (shards : ℕ) → fits_told shards (Some result.inventory) ≡ true }
    ensures nonce { net_inventory result.inventory ≡ Unknown nonce }
    ensures below { (base s : ℕ) → BeganBelow base (told_copy (Some result.inventory) s) }
{
    Told {
        inventory: Inventory::Unknown { nonce },
        unknown_shards: Vec::new(alloc),
    }
}
