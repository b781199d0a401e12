//! Notices to servers that were carried over.
ghost use Rattle.std.specs.Prelude.{◌≡◌, ◌++◌, OnOk, false, length, slice_index_or};
ghost use Rattle.std.specs.List.{flat_map, range_with_len};
ghost use Rattle.smpland_state.specs.Notices.{carried_member, carried_text, notice_members};

use crate::bits::write_bits;
use crate::journal_state::JournalState;
use sm_server::ServerId;
use smpland_lines::{Writer, write_number, write_text};
use std::alloc::{AllocError, Global};

/// Writes the members of the notice to a server.
fn write_notice_members(
    opened: &JournalState,
    alloc: Global,
    writer: &mut Writer,
    server: ServerId,
) -> Result<(), AllocError>
    ensures { OnOk result (writer.new.tokens
        ≡ writer.old.tokens ++ notice_members opened.now.driver server) }
{
    write_text(writer, "server", opened.name_of(server))?;
    write_bits(writer, alloc, "journal", opened.driver.journal())?;
    write_number(writer, "fence", opened.driver.fence())?;
    Ok(())
}

/// Whether a server was carried over, and has not come up since.
pub fn is_carried(opened: &JournalState, server: ServerId) -> bool
    ensures { result ≡ slice_index_or opened.now.driver.carried server false }
{
    match opened.driver.carried().get(server.number() as usize) {
        Some(is_carried) => *is_carried,
        None => false,
    }
}

/// Writes the notice to a server, if it was carried over and has not come up since.
fn write_notice(
    opened: &JournalState,
    alloc: Global,
    writer: &mut Writer,
    server: ServerId,
) -> Result<(), AllocError>
    ensures { OnOk result (writer.new.tokens
        ≡ writer.old.tokens ++ carried_text opened.now.driver server) }
{
    if is_carried(opened, server) {
        writer.begin_object()?;
        write_notice_members(opened, alloc, writer, server)?;
        writer.end_object()?;
    }
    Ok(())
}

/// Writes the notices to the servers that were carried over and have not come up since.
fn write_each_notice(
    opened: &JournalState,
    alloc: Global,
    writer: &mut Writer,
) -> Result<(), AllocError>
    ensures { OnOk result (writer.new.tokens ≡ writer.old.tokens ++ flat_map (carried_text opened.now.driver)
        (range_with_len 0 (length opened.now.driver.machine.placement.setup.servers))) }
{
    for number in 0..opened.driver.machine().config().server_count() {
        write_notice(opened, alloc, writer, ServerId::new(number))?;
    }
    Ok(())
}

/// Writes them, as a member.
pub fn write_notices(
    opened: &JournalState,
    alloc: Global,
    writer: &mut Writer,
) -> Result<(), AllocError>
    ensures { OnOk result (writer.new.tokens ≡ writer.old.tokens ++ carried_member opened.now.driver) }
{
    writer.key("notice")?;
    writer.begin_array()?;
    write_each_notice(opened, alloc, writer)?;
    writer.end_array()?;
    Ok(())
}
