//! The published map, as it is recorded.
ghost use Rattle.std.specs.Prelude.{◌≡◌, ◌<◌, ◌+◌, ◌++◌, OnOk, length};
ghost use Rattle.std.specs.List.{flat_map, range_with_len};
ghost use Rattle.sm_driver.specs.Driver.{base, record_of};
ghost use Rattle.smpland_state.specs.Published.{map_entry_members, entry_text, map_member, recorded_entry};

use crate::holders::write_listed;
use crate::journal_state::JournalState;
use sm_driver::Driver;
use sm_placement::{Config, Entry};
use sm_server::ShardId;
use smpland_lines::{Writer, shard_name, write_number, write_text};
use std::alloc::AllocError;

/// The version of a shard's entry, with the base added.
fn version_of(driver: &Driver, shard: ShardId) -> u64
    requires { shard < length driver.now.machine.placement.setup.shards }
    ensures { result ≡ base driver.now + (record_of driver.now).place.version shard }
{
    let machine = driver.machine();
    machine.is_reached();
    driver.base() + machine.placement().version(shard)
}

/// The entry of a shard that is recorded, with the base added to its version.
pub fn recorded_entry(driver: &Driver, shard: ShardId) -> Entry
    requires { shard < length driver.now.machine.placement.setup.shards }
    ensures { result ≡ recorded_entry driver.now shard }
{
    Entry {
        server: driver.machine().placement().listed(shard),
        version: version_of(driver, shard),
    }
}

/// Writes the members of an entry.
fn write_entry_members(
    writer: &mut Writer,
    config: &Config,
    shard: ShardId,
    entry: Entry,
) -> Result<(), AllocError>
    ensures { OnOk result (writer.new.tokens ≡ writer.old.tokens ++ map_entry_members config.now shard entry) }
{
    write_text(writer, "shard", shard_name(config, shard))?;
    write_listed(writer, config, "to", entry.server)?;
    write_number(writer, "version", entry.version)?;
    Ok(())
}

/// Writes the entry of a shard.
pub fn write_entry(
    opened: &JournalState,
    writer: &mut Writer,
    shard: ShardId,
) -> Result<(), AllocError>
    requires { shard < length opened.now.driver.machine.placement.setup.shards }
    ensures { OnOk result (writer.new.tokens ≡ writer.old.tokens ++ entry_text opened.now.driver shard) }
{
    let config = opened.driver.machine().config();
    let entry = recorded_entry(&opened.driver, shard);
    writer.begin_object()?;
    write_entry_members(writer, config, shard, entry)?;
    writer.end_object()?;
    Ok(())
}

/// Writes the entries of all shards.
fn write_each_entry(opened: &JournalState, writer: &mut Writer) -> Result<(), AllocError>
    ensures { OnOk result (writer.new.tokens ≡ writer.old.tokens ++ flat_map (entry_text opened.now.driver)
        (range_with_len 0 (length opened.now.driver.machine.placement.setup.shards))) }
{
    for number in 0..opened.driver.machine().config().shard_count() {
        write_entry(opened, writer, ShardId::new(number))?;
    }
    Ok(())
}

/// Writes, as a member of a reply, the published map.
pub fn write_map(opened: &JournalState, writer: &mut Writer) -> Result<(), AllocError>
    ensures { OnOk result (writer.new.tokens ≡ writer.old.tokens ++ map_member opened.now.driver) }
{
    writer.key("map")?;
    writer.begin_array()?;
    write_each_entry(opened, writer)?;
    writer.end_array()?;
    Ok(())
}
