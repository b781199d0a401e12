//! The shards, with their cells and their entries in the map: all, or one in a reply of its own.
ghost use Rattle.std.specs.Prelude.{◌≡◌, ◌<◌, ◌∷◌, ◌++◌, OnOk, codes, length};
ghost use Rattle.std.specs.List.{flat_map, range_with_len};
ghost use Rattle.json.specs.Token.{key};
ghost use Rattle.smpland_state.specs.Audit.{recorded_cell};
ghost use Rattle.smpland_state.specs.State.{cell_row, cell_row_members, cell_rows, shard_head, shard_state};
ghost use Rattle.smpland_state.specs.State.{shard_state_member, shard_state_members, shard_state_reply, shards_state};

use crate::cells::write_cell;
use crate::holders::write_listed;
use crate::journal_state::JournalState;
use crate::published::recorded_entry;
use sm_driver::Driver;
use sm_placement::{Config, Entry};
use sm_server::{Cell, ServerId, ShardId};
use smpland_lines::{
    BadLine, CommandMember, LinePart, Writer, server_name, shard_name, write_bad, write_number,
    write_text,
};
use std::alloc::{AllocError, Global};

/// Writes the members of what a server has of a shard.
fn write_cell_members(
    writer: &mut Writer,
    config: &Config,
    server: ServerId,
    cell: Cell,
) -> Result<(), AllocError>
    ensures { OnOk result (writer.new.tokens ≡ writer.old.tokens ++ cell_row_members config.now server cell) }
{
    write_text(writer, "server", server_name(config, server))?;
    write_cell(writer, config, "state", cell)?;
    Ok(())
}

/// Writes what a server has of a shard, unless it has nothing of it.
fn write_cell_row(
    writer: &mut Writer,
    config: &Config,
    server: ServerId,
    cell: Cell,
) -> Result<(), AllocError>
    ensures { OnOk result (writer.new.tokens ≡ writer.old.tokens ++ cell_row config.now server cell) }
{
    if !cell.is_absent() {
        writer.begin_object()?;
        write_cell_members(writer, config, server, cell)?;
        writer.end_object()?;
    }
    Ok(())
}

/// Writes what all servers have of a shard.
fn write_each_cell(
    opened: &JournalState,
    writer: &mut Writer,
    shard: ShardId,
) -> Result<(), AllocError>
    requires { shard < length opened.now.driver.machine.placement.setup.shards }
    ensures { OnOk result (writer.new.tokens ≡ writer.old.tokens
        ++ flat_map (λ v. cell_row opened.now.driver.machine.placement.setup v
        (recorded_cell opened.now.driver shard v))
        (range_with_len 0 (length opened.now.driver.machine.placement.setup.servers))) }
{
    let config = opened.driver.machine().config();
    for number in 0..config.server_count() {
        let server = ServerId::new(number);
        write_cell_row(writer, config, server, opened.driver.cell(shard, server))?;
    }
    Ok(())
}

/// Writes it, as a member.
fn write_cells(opened: &JournalState, writer: &mut Writer, shard: ShardId) -> Result<(), AllocError>
    requires { shard < length opened.now.driver.machine.placement.setup.shards }
    ensures { OnOk result (writer.new.tokens ≡ writer.old.tokens ++ cell_rows opened.now.driver shard) }
{
    writer.key("cells")?;
    writer.begin_array()?;
    write_each_cell(opened, writer, shard)?;
    writer.end_array()?;
    Ok(())
}

/// Writes a shard's numbers, and its entry in the map.
fn write_shard_head(
    writer: &mut Writer,
    driver: &Driver,
    shard: ShardId,
    live: u32,
    entry: Entry,
) -> Result<(), AllocError>
    requires { shard < length driver.now.machine.placement.setup.shards }
    ensures { OnOk result (writer.new.tokens ≡ writer.old.tokens ++ shard_head driver.now shard live entry) }
{
    let config = driver.machine().config();
    write_text(writer, "shard", shard_name(config, shard))?;
    write_number(writer, "load", config.load(shard))?;
    write_number(writer, "live", u64::from(live))?;
    write_number(writer, "floor", u64::from(config.floor(shard)))?;
    write_number(writer, "copies", u64::from(driver.copies(shard)))?;
    write_listed(writer, config, "listed", entry.server)?;
    write_number(writer, "version", entry.version)?;
    Ok(())
}

/// Writes the members of a shard.
fn write_shard_members(
    opened: &JournalState,
    writer: &mut Writer,
    shard: ShardId,
) -> Result<(), AllocError>
    requires { shard < length opened.now.driver.machine.placement.setup.shards }
    ensures { OnOk result (writer.new.tokens ≡ writer.old.tokens ++ shard_state_members opened.now.driver shard) }
{
    let live = opened.driver.machine().placement().live(shard);
    let entry = recorded_entry(&opened.driver, shard);
    write_shard_head(writer, &opened.driver, shard, live, entry)?;
    write_cells(opened, writer, shard)?;
    Ok(())
}

/// Writes a shard: its cells, and its entry in the map.
fn write_shard(opened: &JournalState, writer: &mut Writer, shard: ShardId) -> Result<(), AllocError>
    requires { shard < length opened.now.driver.machine.placement.setup.shards }
    ensures { OnOk result (writer.new.tokens ≡ writer.old.tokens ++ shard_state opened.now.driver shard) }
{
    writer.begin_object()?;
    write_shard_members(opened, writer, shard)?;
    writer.end_object()?;
    Ok(())
}

/// Writes all shards.
fn write_each_shard(opened: &JournalState, writer: &mut Writer) -> Result<(), AllocError>
    ensures { OnOk result (writer.new.tokens ≡ writer.old.tokens ++ flat_map (shard_state opened.now.driver)
        (range_with_len 0 (length opened.now.driver.machine.placement.setup.shards))) }
{
    for number in 0..opened.driver.machine().config().shard_count() {
        write_shard(opened, writer, ShardId::new(number))?;
    }
    Ok(())
}

/// Writes them, as a member.
pub fn write_shards(opened: &JournalState, writer: &mut Writer) -> Result<(), AllocError>
    ensures { OnOk result (writer.new.tokens ≡ writer.old.tokens ++ shards_state opened.now.driver) }
{
    writer.key("shards")?;
    writer.begin_array()?;
    write_each_shard(opened, writer)?;
    writer.end_array()?;
    Ok(())
}

/// Writes, as a member, a shard.
fn write_shard_member(
    opened: &JournalState,
    writer: &mut Writer,
    shard: ShardId,
) -> Result<(), AllocError>
    requires { shard < length opened.now.driver.machine.placement.setup.shards }
    ensures { OnOk result (writer.new.tokens
        ≡ writer.old.tokens ++ (key (codes "shard") ∷ shard_state opened.now.driver shard)) }
{
    writer.key("shard")?;
    write_shard(opened, writer, shard)?;
    Ok(())
}

/// Writes, as a member of a reply, the state of a shard.
fn write_shard_state(
    opened: &JournalState,
    writer: &mut Writer,
    shard: ShardId,
) -> Result<(), AllocError>
    requires { shard < length opened.now.driver.machine.placement.setup.shards }
    ensures { OnOk result (writer.new.tokens ≡ writer.old.tokens ++ shard_state_member opened.now.driver shard) }
{
    writer.key("state")?;
    writer.begin_object()?;
    write_shard_member(opened, writer, shard)?;
    writer.end_object()?;
    Ok(())
}

/// Writes, as a member of a reply, all that is recorded of the shard with a name.
pub fn write_shard_of(
    opened: &JournalState,
    alloc: Global,
    writer: &mut Writer,
    name: &str,
) -> Result<(), AllocError>
    ensures { OnOk result (writer.new.tokens ≡ writer.old.tokens ++ shard_state_reply opened.now.driver name.now) }
{
    match opened.driver.machine().config().shard_named(name) {
        Some(shard) => write_shard_state(opened, writer, shard),
        None => write_bad(
            writer,
            alloc,
            BadLine::UnknownName(LinePart::Line, CommandMember::Shard),
        ),
    }
}
