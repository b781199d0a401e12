//! The servers, with their room and the permits under which they are down.
ghost use Rattle.std.specs.Prelude.{◌≡◌, ◌<◌, ◌++◌, OnOk, length};
ghost use Rattle.std.specs.List.{flat_map, range_with_len};
ghost use Rattle.sm_placement.specs.Config.{server_row as row_of_server};
ghost use Rattle.smpland_state.specs.State.{held_room, maybe_number, server_state, server_state_members};
ghost use Rattle.smpland_state.specs.State.{servers_state};

use crate::document::write_flag;
use crate::journal_state::JournalState;
use crate::notices::is_carried;
use sm_placement::Server;
use sm_server::ServerId;
use smpland_lines::{Writer, write_name, write_number, write_text};
use std::alloc::AllocError;

/// How a server stands: its load, the room that streams hold, the permit under which it is down, and whether it was
/// carried over.
#[derive(Clone, Copy)]
struct ServerStanding {
    load: u64,
    held: u64,
    permit: Option<u64>,
    is_carried: bool,
}

/// Writes a member that is a number, or null for none.
fn write_optional(writer: &mut Writer, name: &str, found: Option<u64>) -> Result<(), AllocError>
    ensures { OnOk result (writer.new.tokens ≡ writer.old.tokens ++ maybe_number name.now found) }
{
    match found {
        Some(number) => write_number(writer, name, number),
        None => write_name(writer, name, None),
    }
}

/// The room of a server that streams hold: none, if a reopening has broken them off.
fn held_room(opened: &JournalState, is_reopening: bool, server: ServerId) -> u64
    requires { server < length opened.now.driver.machine.placement.setup.servers }
    ensures { result ≡ held_room opened.now.driver is_reopening server }
{
    if is_reopening {
        return 0;
    }
    let machine = opened.driver.machine();
    let placement = machine.placement();
    let used = placement
        .load(server)
        .saturating_add(machine.pool().room(server));
    placement.config().room(server).saturating_sub(used)
}

/// Writes the members of a server.
fn write_server_members(
    writer: &mut Writer,
    server: &Server,
    standing: ServerStanding,
) -> Result<(), AllocError>
    ensures { OnOk result (writer.new.tokens ≡ writer.old.tokens
        ++ server_state_members (row_of_server server.now) standing.load standing.held standing.permit
        standing.is_carried) }
{
    write_text(writer, "server", server.name.as_str())?;
    write_text(writer, "region", server.region.as_str())?;
    write_number(writer, "room", server.room)?;
    write_number(writer, "load", standing.load)?;
    write_number(writer, "held", standing.held)?;
    write_optional(writer, "permit", standing.permit)?;
    write_flag(writer, "carried", standing.is_carried)?;
    Ok(())
}

/// Writes a server: its room, its load, the room that streams hold, and the permit under which it is down.
fn write_server(
    opened: &JournalState,
    is_reopening: bool,
    writer: &mut Writer,
    server: ServerId,
) -> Result<(), AllocError>
    requires { server < length opened.now.driver.machine.placement.setup.servers }
    ensures { OnOk result (writer.new.tokens
        ≡ writer.old.tokens ++ server_state opened.now.driver is_reopening server) }
{
    let row = opened.driver.machine().config().server(server);
    let load = opened.driver.machine().placement().load(server);
    let held = held_room(opened, is_reopening, server);
    let permit = opened.permit_of(server);
    let is_carried = is_carried(opened, server);
    let standing = ServerStanding {
        load,
        held,
        permit,
        is_carried,
    };
    writer.begin_object()?;
    write_server_members(writer, row, standing)?;
    writer.end_object()?;
    Ok(())
}

/// Writes all servers.
fn write_each_server(
    opened: &JournalState,
    is_reopening: bool,
    writer: &mut Writer,
) -> Result<(), AllocError>
    ensures { OnOk result (writer.new.tokens ≡ writer.old.tokens
        ++ flat_map (server_state opened.now.driver is_reopening)
        (range_with_len 0 (length opened.now.driver.machine.placement.setup.servers))) }
{
    for number in 0..opened.driver.machine().config().server_count() {
        write_server(opened, is_reopening, writer, ServerId::new(number))?;
    }
    Ok(())
}

/// Writes them, as a member.
pub fn write_servers(
    opened: &JournalState,
    is_reopening: bool,
    writer: &mut Writer,
) -> Result<(), AllocError>
    ensures { OnOk result (writer.new.tokens ≡ writer.old.tokens ++ servers_state opened.now.driver is_reopening) }
{
    writer.key("servers")?;
    writer.begin_array()?;
    write_each_server(opened, is_reopening, writer)?;
    writer.end_array()?;
    Ok(())
}
