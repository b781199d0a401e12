//! All that is recorded.
ghost use Rattle.std.specs.Prelude.{◌≡◌, ◌++◌, OnOk, codes};
ghost use Rattle.sm_driver.specs.Driver.{record_of};
ghost use Rattle.smpland_lines.specs.Members.{number_member, object_member};
ghost use Rattle.smpland_state.specs.State.{free_now, log_members, recorded_members, rows_members};

mod plans;
mod servers;
mod shards;

use crate::journal_state::JournalState;
pub use plans::write_plan_of;
use plans::write_plans;
use servers::write_servers;
pub use shards::write_shard_of;
use shards::write_shards;
use smpland_lines::{Writer, write_number};
use std::alloc::AllocError;

/// The number of places of the log that are neither used nor set aside: of plans that a reopening has broken off
/// nothing is set aside.
fn free_now(opened: &JournalState, is_reopening: bool) -> u64
    ensures { result ≡ free_now opened.now is_reopening }
{
    let machine = opened.driver.machine();
    if !is_reopening {
        return machine.free_places();
    }
    let used = machine.log().len() as u64;
    let restarts = u64::from(machine.placement().down_count());
    u64::from(opened.log_room)
        .saturating_sub(used)
        .saturating_sub(restarts)
}

/// Writes the members of the log.
fn write_log_members(
    opened: &JournalState,
    is_reopening: bool,
    writer: &mut Writer,
) -> Result<(), AllocError>
    ensures { OnOk result (writer.new.tokens ≡ writer.old.tokens ++ log_members opened.now is_reopening) }
{
    let used = opened.driver.machine().log().len() as u64;
    write_number(writer, "places", u64::from(opened.log_room))?;
    write_number(writer, "used", used)?;
    write_number(writer, "free", free_now(opened, is_reopening))?;
    Ok(())
}

/// Writes, as a member, the places of the log.
fn write_log(
    opened: &JournalState,
    is_reopening: bool,
    writer: &mut Writer,
) -> Result<(), AllocError>
    ensures { OnOk result (writer.new.tokens
        ≡ writer.old.tokens ++ object_member (codes "log") (log_members opened.now is_reopening)) }
{
    writer.key("log")?;
    writer.begin_object()?;
    write_log_members(opened, is_reopening, writer)?;
    writer.end_object()?;
    Ok(())
}

/// Writes, as a member, how many servers may be down at once.
fn write_limit(opened: &JournalState, writer: &mut Writer) -> Result<(), AllocError>
    ensures { OnOk result (writer.new.tokens
        ≡ writer.old.tokens ++ number_member (codes "limit") (record_of opened.now.driver).place.limit) }
{
    let limit = opened.driver.machine().placement().limit();
    write_number(writer, "limit", u64::from(limit))
}

/// Writes, as members, the servers, the shards and the plans.
fn write_rows(
    opened: &JournalState,
    is_reopening: bool,
    writer: &mut Writer,
) -> Result<(), AllocError>
    ensures { OnOk result (writer.new.tokens ≡ writer.old.tokens ++ rows_members opened.now is_reopening) }
{
    write_servers(opened, is_reopening, writer)?;
    write_shards(opened, writer)?;
    write_plans(opened, is_reopening, writer)?;
    Ok(())
}

/// Writes, as members, all that is recorded.
pub fn write_recorded(
    opened: &JournalState,
    is_reopening: bool,
    writer: &mut Writer,
) -> Result<(), AllocError>
    ensures { OnOk result (writer.new.tokens ≡ writer.old.tokens ++ recorded_members opened.now is_reopening) }
{
    write_limit(opened, writer)?;
    write_log(opened, is_reopening, writer)?;
    write_rows(opened, is_reopening, writer)?;
    Ok(())
}
