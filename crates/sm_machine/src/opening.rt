//! The placement that a machine was opened with, as rows: what is Absent takes no memory.
ghost use Rattle.std.specs.Prelude.{◌≡◌, ◌<◌, ◌+◌, IfOk, OnOk, length};
ghost use Rattle.sm_placement.specs.Place.{forget_numbers};
ghost use Rattle.sm_placement.specs.Layout.{place_of};
ghost use Rattle.sm_machine.specs.Opening.{place_of_rows, cells_of_rows, down_of_rows, AreCellsBefore};

use sm_placement::Placement;
use sm_server::{Cell, ServerId, ShardId};
use std::alloc::{AllocError, Global};
use std::marker::Model;

/// The cells that are not Absent, the servers that are down, the published map's entry of each shard, and the number of
/// servers that may be down at once.
pub(crate) struct Opening {
    cells: Vec<(ShardId, ServerId, Cell)>,
    listed: Vec<Option<ServerId>>,
    versions: Vec<u64>,
    down: Vec<ServerId>,
    limit: u32,
}

impl Drop for Opening {
    fn drop(self) {
        let Opening {
            cells,
            listed,
            versions,
            down,
            limit: _,
        } = self;
        drop(cells);
        drop(listed);
        drop(versions);
        drop(down);
    }
}

impl Model for Opening {
    ghost use Rattle.sm_machine.specs.Opening.{OpeningRows};

    ghost Value = { OpeningRows };

    ghost view = { λ o. record { cells = o.cells.items; listed = o.listed.items; versions = o.versions.items; down = o.down.items; limit = o.limit } };
}

/// Adds a shard's cells that are not Absent to those of the shards before it.
fn push_cells(
    rows: &mut Vec<(ShardId, ServerId, Cell)>,
    placement: &Placement,
    shard: ShardId,
) -> Result<(), AllocError>
    requires shard { shard < length placement.now.setup.shards }
    requires before { AreCellsBefore rows.old.items (place_of placement.now).cells shard 0 }
    ensures { OnOk result (AreCellsBefore rows.new.items (place_of placement.now).cells (shard + 1) 0) }
{
    for number in 0..placement.config().server_count() {
        let server = ServerId::new(number);
        match placement.cell(shard, server) {
            Cell::Absent => {}
            cell => rows.push((shard, server, cell))?,
        }
    }
    Ok(())
}

/// Returns the cells that are not Absent.
fn cells_of(
    alloc: Global,
    placement: &Placement,
) -> Result<Vec<(ShardId, ServerId, Cell)>, AllocError>
    ensures { IfOk result (λ rows. cells_of_rows rows.items ≡ (place_of placement.now).cells) }
{
    let mut rows = Vec::new(alloc);
    for number in 0..placement.config().shard_count() {
        push_cells(&mut rows, placement, ShardId::new(number))?;
    }
    Ok(rows)
}

/// Returns the servers that are down.
fn down_of(alloc: Global, placement: &Placement) -> Result<Vec<ServerId>, AllocError>
    ensures { IfOk result (λ rows. down_of_rows rows.items ≡ (place_of placement.now).down) }
{
    let mut rows = Vec::new(alloc);
    for number in 0..placement.config().server_count() {
        let server = ServerId::new(number);
        if placement.is_down(server) {
            rows.push(server)?;
        }
    }
    Ok(rows)
}

impl Opening {
    /// Copies a placement as it stands, without the numbers of its calls.
    pub fn of(alloc: Global, placement: &Placement) -> Result<Opening, AllocError>
        ensures { IfOk result (λ opening. place_of_rows opening ≡ forget_numbers (place_of placement.now)) }
    {
        Ok(Opening {
            cells: cells_of(alloc, placement)?,
            listed: Vec::from_slice(alloc, placement.listed_servers())?,
            versions: Vec::from_slice(alloc, placement.versions())?,
            down: down_of(alloc, placement)?,
            limit: placement.limit(),
        })
    }
}
