//! The lines of a placement at the end of a report.
ghost use Rattle.std.specs.Prelude.{◌≡◌, ◌++◌, ◌<◌, OnOk, string_bytes, length};
ghost use Rattle.sm_placement.specs.Layout.{place_of};
ghost use Rattle.sm_report_text.specs.Ending.{server_line, shard_line, cell_lines, server_lines, all_shard_lines};
ghost use Rattle.sm_report_text.specs.Ending.{ending, replica_line, handover_line, cell_line, state_word, listed_name};

use sm_placement::{Config, Placement};
use sm_refusals::{server_name, shard_name};
use sm_server::{Cell, ServerId, ShardId};
use std::alloc::AllocError;

/// Returns the word for a server that is up or down.
fn state_word(down: bool) -> &'static str
    ensures { result.now ≡ state_word down }
{
    if down { "down" } else { "up" }
}

/// Returns the name of the server that the published map names.
fn listed_name<'a>(config: &'a Config, listed: Option<ServerId>) -> &'a str
    ensures { result.now ≡ listed_name config.now listed }
{
    match listed {
        Some(server) => server_name(config, server),
        None => "none",
    }
}

fn push_replica(out: &mut String, server: &str, role: &str) -> Result<(), AllocError>
    ensures { OnOk result (string_bytes out.new ≡ string_bytes out.old ++ replica_line server.now role.now) }
{
    writeln!(out, "  {server} {role}")
}

fn push_handover(
    out: &mut String,
    server: &str,
    way: &str,
    other: &str,
    number: u64,
) -> Result<(), AllocError>
    ensures { OnOk result (string_bytes out.new
        ≡ string_bytes out.old ++ handover_line server.now way.now other.now number) }
{
    writeln!(out, "  {server} {way} {other} number {number}")
}

/// Adds the line of what a server has of a shard, if it has something.
fn push_cell(
    out: &mut String,
    config: &Config,
    server: ServerId,
    cell: Cell,
) -> Result<(), AllocError>
    ensures { OnOk result (string_bytes out.new ≡ string_bytes out.old ++ cell_line config.now server cell) }
{
    let name = server_name(config, server);
    match cell {
        Cell::Absent => Ok(()),
        Cell::Primary => push_replica(out, name, "primary"),
        Cell::Secondary => push_replica(out, name, "secondary"),
        Cell::Prepared { from, number } => {
            push_handover(
                out,
                name,
                "prepared from",
                server_name(config, from),
                number,
            )
        }
        Cell::Forwarding { to, number } => {
            push_handover(out, name, "forwarding to", server_name(config, to), number)
        }
    }
}

/// Adds the line of a server.
fn push_server(out: &mut String, placement: &Placement, server: ServerId) -> Result<(), AllocError>
    requires { server < length placement.now.setup.servers }
    ensures { OnOk result (string_bytes out.new
        ≡ string_bytes out.old ++ server_line placement.now.setup (place_of placement.now) server) }
{
    let config = placement.config();
    let name = server_name(config, server);
    let room = config.room(server);
    let load = placement.load(server);
    let state = state_word(placement.is_down(server));
    writeln!(out, "server {name} room {room} load {load} {state}")
}

/// Adds the line of a shard.
fn push_shard(out: &mut String, placement: &Placement, shard: ShardId) -> Result<(), AllocError>
    requires { shard < length placement.now.setup.shards }
    ensures { OnOk result (string_bytes out.new
        ≡ string_bytes out.old ++ shard_line placement.now.setup (place_of placement.now) shard) }
{
    let config = placement.config();
    let name = shard_name(config, shard);
    let live = placement.live(shard);
    let floor = config.floor(shard);
    let listed = listed_name(config, placement.listed(shard));
    let version = placement.version(shard);
    writeln!(
        out,
        "shard {name} live {live} floor {floor} listed {listed} version {version}"
    )
}

/// Adds the lines of a shard's cells, by server.
fn push_cells(out: &mut String, placement: &Placement, shard: ShardId) -> Result<(), AllocError>
    requires { shard < length placement.now.setup.shards }
    ensures { OnOk result (string_bytes out.new
        ≡ string_bytes out.old ++ cell_lines placement.now.setup (place_of placement.now) shard) }
{
    let config = placement.config();
    for number in 0..config.server_count() {
        let server = ServerId::new(number);
        push_cell(out, config, server, placement.cell(shard, server))?;
    }
    Ok(())
}

/// Adds the lines of the servers.
fn push_servers(out: &mut String, placement: &Placement) -> Result<(), AllocError>
    ensures { OnOk result (string_bytes out.new
        ≡ string_bytes out.old ++ server_lines placement.now.setup (place_of placement.now)) }
{
    for number in 0..placement.config().server_count() {
        push_server(out, placement, ServerId::new(number))?;
    }
    Ok(())
}

/// Adds the lines of the shards, each with those of its cells.
fn push_shards(out: &mut String, placement: &Placement) -> Result<(), AllocError>
    ensures { OnOk result (string_bytes out.new
        ≡ string_bytes out.old ++ all_shard_lines placement.now.setup (place_of placement.now)) }
{
    for number in 0..placement.config().shard_count() {
        let shard = ShardId::new(number);
        push_shard(out, placement, shard)?;
        push_cells(out, placement, shard)?;
    }
    Ok(())
}

/// Adds the lines of a placement.
pub fn push_ending(out: &mut String, placement: &Placement) -> Result<(), AllocError>
    ensures { OnOk result (string_bytes out.new
        ≡ string_bytes out.old ++ ending placement.now.setup (place_of placement.now)) }
{
    push_servers(out, placement)?;
    push_shards(out, placement)
}
