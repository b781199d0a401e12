//! Cells in replies.
ghost use Rattle.std.specs.Prelude.{◌≡◌, ◌<◌, ◌++◌, OnOk, length, slice_get};
ghost use Rattle.std.specs.List.{flat_map, range_with_len};
ghost use Rattle.smpland_state.specs.Cells.{cell_members, party_members, slot_at, slot_members, slot_text};
ghost use Rattle.smpland_state.specs.Cells.{slots_member, word_of_cell};

use crate::calls::write_handover;
use sm_placement::Config;
use sm_server::{Cell, ShardId};
use smpland_lines::{Writer, shard_name, write_number, write_text};
use std::alloc::AllocError;

/// The word for what a server has of a shard.
fn cell_word(cell: &Cell) -> &'static str
    ensures { result.now ≡ word_of_cell cell.now }
{
    match cell {
        Cell::Absent => "absent",
        Cell::Prepared { .. } => "prepared",
        Cell::Secondary => "secondary",
        Cell::Primary => "primary",
        Cell::Forwarding { .. } => "forwarding",
    }
}

/// Writes, of a cell in a handover, the other server and the handover's number.
fn write_party(writer: &mut Writer, config: &Config, cell: &Cell) -> Result<(), AllocError>
    ensures { OnOk result (writer.new.tokens ≡ writer.old.tokens ++ party_members config.now cell.now) }
{
    match cell {
        Cell::Absent | Cell::Secondary | Cell::Primary => Ok(()),
        Cell::Prepared { from, number } => write_handover(writer, config, "party", *from, *number),
        Cell::Forwarding { to, number } => write_handover(writer, config, "party", *to, *number),
    }
}

/// Writes a cell as members of an object: its word under this name, and in a handover the other server and the
/// handover's number.
pub fn write_cell(
    writer: &mut Writer,
    config: &Config,
    name: &str,
    cell: Cell,
) -> Result<(), AllocError>
    ensures { OnOk result (writer.new.tokens ≡ writer.old.tokens ++ cell_members config.now name.now cell) }
{
    write_text(writer, name, cell_word(&cell))?;
    write_party(writer, config, &cell)?;
    Ok(())
}

/// Writes the members of a shard's slot of a server.
fn write_slot_members(
    writer: &mut Writer,
    config: &Config,
    shard: ShardId,
    cell: Cell,
) -> Result<(), AllocError>
    requires { shard < length config.now.shards }
    ensures { OnOk result (writer.new.tokens ≡ writer.old.tokens ++ slot_members config.now shard cell) }
{
    write_text(writer, "shard", shard_name(config, shard))?;
    write_cell(writer, config, "cell", cell)?;
    write_number(writer, "load", config.load(shard))?;
    Ok(())
}

/// Writes a shard's slot of a server, unless the server has nothing of the shard.
fn write_slot(
    writer: &mut Writer,
    config: &Config,
    shard: ShardId,
    cell: Cell,
) -> Result<(), AllocError>
    requires { shard < length config.now.shards }
    ensures { OnOk result (writer.new.tokens ≡ writer.old.tokens ++ slot_text config.now shard cell) }
{
    if !cell.is_absent() {
        writer.begin_object()?;
        write_slot_members(writer, config, shard, cell)?;
        writer.end_object()?;
    }
    Ok(())
}

/// What a server has of a shard, by its cells, if they tell.
fn cell_at(cells: &[Cell], shard: ShardId) -> Option<Cell>
    ensures { result ≡ slice_get cells.now shard }
{
    cells.get(shard.number() as usize).copied()
}

/// Writes the slot of a shard, by a server's cells.
fn write_slot_in(
    writer: &mut Writer,
    config: &Config,
    cells: &[Cell],
    shard: ShardId,
) -> Result<(), AllocError>
    requires { shard < length config.now.shards }
    ensures { OnOk result (writer.new.tokens ≡ writer.old.tokens ++ slot_at config.now cells.now shard) }
{
    match cell_at(cells, shard) {
        Some(cell) => write_slot(writer, config, shard, cell),
        None => Ok(()),
    }
}

/// Writes the slots of all shards, by a server's cells.
fn write_each_slot(writer: &mut Writer, config: &Config, cells: &[Cell]) -> Result<(), AllocError>
    ensures { OnOk result (writer.new.tokens
        ≡ writer.old.tokens ++ flat_map (slot_at config.now cells.now) (range_with_len 0 (length config.now.shards))) }
{
    for number in 0..config.shard_count() {
        write_slot_in(writer, config, cells, ShardId::new(number))?;
    }
    Ok(())
}

/// Writes, as a member, the slots of a server that are not absent, by the shards' numbers.
pub fn write_slots(writer: &mut Writer, config: &Config, cells: &[Cell]) -> Result<(), AllocError>
    ensures { OnOk result (writer.new.tokens ≡ writer.old.tokens ++ slots_member config.now cells.now) }
{
    writer.key("slots")?;
    writer.begin_array()?;
    write_each_slot(writer, config, cells)?;
    writer.end_array()?;
    Ok(())
}
