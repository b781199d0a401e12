//! A slot against a cell, and against the orders that this journal has sent.
ghost use Rattle.std.specs.Prelude.{◌≡◌, ◌<◌, None, false, option_map};
ghost use Rattle.std.specs.List.{list_any};
ghost use Rattle.std.specs.Option.{option_map_or};
ghost use Rattle.sm_driver.specs.Driver.{record_of};
ghost use Rattle.sm_driver.specs.Orders.{net_order};
ghost use Rattle.smpland_state.specs.Audit.{cell_after, has_number, is_of_kind, is_party_named, is_slot_ahead};
ghost use Rattle.smpland_state.specs.Audit.{recorded_cell, tells_cell, tells_handover, tells_something};

use sm_driver::{Driver, StreamOrder};
use sm_placement::Config;
use sm_server::{Cell, ServerId, ShardId, serve};
use smpland_lines::{CellKind, PartyText, SlotText};

/// Whether the other party of a handover is told as this server.
fn is_party_named(config: &Config, party: PartyText<'_>, server: ServerId) -> bool
    ensures { result ≡ is_party_named config.now party.entry server }
{
    match party {
        PartyText::Name(name) => match config.server_named(name) {
            Some(named) => named == server,
            None => false,
        },
        PartyText::Null | PartyText::Missing => false,
    }
}

/// Whether a slot tells of the handover with this party and number.
fn tells_handover(config: &Config, slot: SlotText<'_>, party: ServerId, number: u64) -> bool
    ensures { result ≡ tells_handover config.now slot.entry party number }
{
    match slot.handover {
        Some(told) => is_party_named(config, slot.party, party) && told == number,
        None => false,
    }
}

/// Whether a cell is the one that a slot tells of.
fn is_of_kind(config: &Config, slot: SlotText<'_>, cell: Cell) -> bool
    ensures { result ≡ is_of_kind config.now slot.entry slot.entry.cell cell }
{
    match (slot.cell, cell) {
        (CellKind::Absent, Cell::Absent) => true,
        (CellKind::Secondary, Cell::Secondary) => true,
        (CellKind::Primary, Cell::Primary) => true,
        (CellKind::Prepared, Cell::Prepared { from, number }) => {
            tells_handover(config, slot, from, number)
        }
        (CellKind::Forwarding, Cell::Forwarding { to, number }) => {
            tells_handover(config, slot, to, number)
        }
        _ => false,
    }
}

/// Whether a slot tells this cell: no slot tells that there is nothing.
pub fn tells_cell(config: &Config, slot: &Option<SlotText<'_>>, cell: &Cell) -> bool
    ensures { result ≡ tells_cell config.now slot.now cell.now }
{
    match slot {
        Some(slot) => is_of_kind(config, *slot, *cell),
        None => cell.is_absent(),
    }
}

/// Whether the present order has this number.
fn has_number(order: Option<StreamOrder>, number: u64) -> bool
    ensures { result ≡ has_number (option_map net_order order) number }
{
    match order {
        Some(order) => order.number == number,
        None => false,
    }
}

/// Whether the last order of a slot is none that this journal has sent.
pub fn is_slot_ahead(driver: &Driver, order: Option<StreamOrder>, slot: SlotText<'_>) -> bool
    ensures { result ≡ is_slot_ahead driver.now (option_map net_order order) slot.entry }
{
    let used = driver.machine().log().len() as u64;
    let highest = driver.base().saturating_add(used);
    let last = slot.last.unwrap_or(0);
    highest < last && !has_number(order, last)
}

/// The cell that the present order leads to, if there is one.
pub fn cell_after(order: Option<StreamOrder>, cell: &Cell) -> Option<Cell>
    ensures { result ≡ cell_after (option_map net_order order) cell.now }
{
    match order {
        Some(order) => serve(*cell, u64::MAX, 0, true, order.call.call).ok(),
        None => None,
    }
}

/// Whether a slot tells this cell, if there is one.
pub fn tells_if_some(config: &Config, slot: &Option<SlotText<'_>>, cell: &Option<Cell>) -> bool
    ensures { result ≡ option_map_or (tells_cell config.now slot.now) cell.now false }
{
    match cell {
        Some(cell) => tells_cell(config, slot, cell),
        None => false,
    }
}

/// The recorded cell of a shard at a server, with the base in a handover's number.
pub fn recorded_cell(driver: &Driver, shard: ShardId, server: ServerId) -> Cell
    requires { server < (record_of driver.now).sizes.servers }
    ensures { result ≡ recorded_cell driver.now shard server }
{
    if shard.number() >= driver.machine().placement().config().shard_count() {
        return Cell::Absent;
    }
    driver.cell(shard, server)
}

/// Whether a slot tells something.
pub fn tells_something(slot: SlotText<'_>) -> bool
    ensures { result ≡ tells_something slot.entry }
{
    match slot.cell {
        CellKind::Absent => false,
        CellKind::Prepared | CellKind::Secondary | CellKind::Primary | CellKind::Forwarding => true,
    }
}

/// Whether some slot tells something.
pub fn some_tell(slots: &[SlotText<'_>]) -> bool
    ensures { result ≡ list_any tells_something slots.now }
{
    let mut found = false;
    for slot in slots {
        found = found || tells_something(*slot);
    }
    found
}

/// Whether the last order of some slot is none that this journal has sent, and none is present.
pub fn some_ahead(driver: &Driver, slots: &[SlotText<'_>]) -> bool
    ensures { result ≡ list_any (is_slot_ahead driver.now None) slots.now }
{
    let mut found = false;
    for slot in slots {
        found = found || is_slot_ahead(driver, None, *slot);
    }
    found
}
