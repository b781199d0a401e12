//! Opening a placement.
ghost use Rattle.std.specs.Prelude.{◌≡◌, ◌≢◌, ◌↔◌, false, All, IsTrue, Some, None, OnOk, IfErr, ◌≤◌, ◌<◌, ◌+◌, ◌*◌};
ghost use Rattle.std.specs.Prelude.{◌||◌, ◌==◌, not, nat_lt, length, IfOk, count_by};
ghost use Rattle.std.specs.List.{list_any};
ghost use Rattle.sm_server.specs.Cell.{is_primary};
ghost use Rattle.sm_placement.specs.Setup.{sizes_of};
ghost use Rattle.sm_placement.specs.Sums.{bit, first_from};
ghost use Rattle.sm_placement.specs.Layout.{grid_of, entries_of, place_of};
ghost use Rattle.sm_placement.specs.Grid.{cells_of, lasts_of, down_of};
ghost use Rattle.sm_placement.specs.Opening.{is_of, is_unknown, is_unknown_cell, AreKnown, IsNamedOnce, first_below};
ghost use Rattle.sm_placement.specs.Opening.{double_of, is_handing, lead_cells, put_all, cell_named, opened_place};
ghost use Rattle.sm_placement.specs.Opening.{has_bad_lead, is_wrong_size, has_unknown_id, first_fault, list_faults};
ghost use Rattle.sm_placement.specs.Opening.{standing_faults, open_fault, unpublished};

use crate::config::Config;
use crate::faults;
use crate::limits::MOST_CELLS;
use crate::placement::Placement;
use crate::table::Table;
use sm_server::{Cell, ServerId, ShardId};
use std::alloc::{AllocError, Global};
use thiserror::Error;

/// Why a placement is not opened.
#[derive(Clone, Copy, Debug, PartialEq, Eq, Error)]
pub enum OpenFault {
    /// There was no memory for the tables of the placement.
    #[error("out of memory")]
    NoMemory,
    /// More cells are named than a placement may have, or the list of listed servers has not one entry for each shard.
    #[error("more than 1048576 cells, or not one listed server for each shard")]
    TooMany,
    /// A cell, a listed server or a server that is down has a number that is not below the configuration's count.
    #[error("a shard or server is not in the configuration")]
    UnknownName,
    /// The shard's cell at the server is named twice, whatever is said of it.
    #[error("the cell of {shard} at {server} is named twice")]
    DoubleCell { shard: ShardId, server: ServerId },
    /// The shard has two primaries, or a cell of it is prepared or forwards.
    #[error("{shard} has two primaries, or a handover is under way")]
    BadLead { shard: ShardId },
    /// A server is listed for the shard that is not its primary.
    #[error("the listed server of {shard} is not its primary")]
    BadListing { shard: ShardId },
    /// The loads of the shards that the server has a cell of add up to more than its room.
    #[error("the load of {server} is above its room")]
    OverRoom { server: ServerId },
    /// Fewer replicas of the shard stand at servers that are up than its want less its cap.
    #[error("{shard} has fewer live replicas than its floor")]
    Short { shard: ShardId },
    /// More servers are down than may be at once.
    #[error("more servers are down than the limit")]
    TooManyDown,
}

impl From<AllocError> for OpenFault {
    ghost use Rattle.sm_placement.specs.declared.opening.OpenFault.TheVariants.{NoMemory};

    ghost from_gives = { λ _ why. why ≡ NoMemory };

    fn from(_error: AllocError) -> Self {
        OpenFault::NoMemory
    }
}

/// Tells whether a shard or a server of the cells is not in the configuration.
fn has_unknown_cell(config: &Config, cells: &[(ShardId, ServerId, Cell)]) -> bool
    ensures { result ≡ list_any (is_unknown_cell (length config.now.shards) (length config.now.servers)) cells.now }
{
    let shards = config.shard_count();
    let servers = config.server_count();
    cells.iter().any(|named| named.0.number() >= shards || named.1.number() >= servers)
}

/// Tells whether a listed server is not in the configuration.
fn has_unknown_listing(config: &Config, listed: &[Option<ServerId>]) -> bool
    ensures { result ≡ list_any (is_unknown (length config.now.servers)) listed.now }
{
    let servers = config.server_count();
    listed.iter().any(|server| match server {
        Some(server) => server.number() >= servers,
        None => false,
    })
}

/// Tells whether a server that is down is not in the configuration.
fn has_unknown_server(config: &Config, down: &[ServerId]) -> bool
    ensures { result ≡ list_any (λ v. not (nat_lt v (length config.now.servers))) down.now }
{
    let servers = config.server_count();
    down.iter().any(|server| server.number() >= servers)
}

/// Tells whether the cells name each pair once at most.
fn is_named_once(
    alloc: Global,
    config: &Config,
    cells: &[(ShardId, ServerId, Cell)],
) -> Result<bool, AllocError>
    requires { AreKnown (length config.now.shards) (length config.now.servers) cells.now }
    ensures { IfOk result (λ once. IsTrue once ↔ IsNamedOnce cells.now) }
{
    let shards = config.shard_count() as usize;
    let servers = config.server_count() as usize;
    let mut named = vec![in alloc; false; shards * servers]?;
    for (shard, server, _) in cells {
        let slot = shard.number() as usize * servers + server.number() as usize;
        if named[slot] {
            return Ok(false);
        }
        named[slot] = true;
    }
    Ok(true)
}

/// Counts how often the cells name each pair, shard after shard.
fn count_pairs(
    alloc: Global,
    config: &Config,
    cells: &[(ShardId, ServerId, Cell)],
) -> Result<Vec<u32>, AllocError>
    requires few { length cells.now ≤ MOST_CELLS }
    requires known { AreKnown (length config.now.shards) (length config.now.servers) cells.now }
    ensures len { IfOk result (λ counts. length counts.items ≡ length config.now.shards * length config.now.servers) }
    ensures counts { IfOk result (λ counts. grid_of (length config.now.servers) 0 counts.items
        ≡ (λ s v. count_by (is_of s v) cells.now)) }
{
    let shards = config.shard_count() as usize;
    let servers = config.server_count() as usize;
    let mut counts = vec![in alloc; 0; shards * servers]?;
    for (shard, server, _) in cells {
        counts[shard.number() as usize * servers + server.number() as usize] += 1;
    }
    Ok(counts)
}

/// Tells whether a pair is counted more than once.
fn is_counted_twice(
    counts: &[u32],
    shard: ShardId,
    server: ServerId,
    shards: u32,
    servers: u32,
) -> bool
    requires shard { shard < shards }
    requires server { server < servers }
    requires len { length counts.now ≡ shards * servers }
    ensures { result ≡ nat_lt 1 (grid_of servers 0 counts.now shard server) }
{
    let slot = shard.number() as usize * servers as usize + server.number() as usize;
    counts[slot] > 1
}

/// Returns the lowest server whose pair with a shard is counted more than once.
#[tactic(auto, using(crate::proofs::Searches::find_range_more))]
fn first_double_of(counts: &[u32], shard: ShardId, shards: u32, servers: u32) -> Option<ServerId>
    requires shard { shard < shards }
    requires len { length counts.now ≡ shards * servers }
    ensures { result ≡ first_below servers (λ v. nat_lt 1 (grid_of servers 0 counts.now shard v)) }
{
    for server in 0..servers {
        if is_counted_twice(counts, shard, ServerId::new(server), shards, servers) {
            return Some(ServerId::new(server));
        }
    }
    None
}

/// Returns the lowest shard, and its lowest server, whose pair the cells name more than once. Counts the pairs only if
/// there is one.
fn first_double(
    alloc: Global,
    config: &Config,
    cells: &[(ShardId, ServerId, Cell)],
) -> Result<Option<OpenFault>, AllocError>
    requires few { length cells.now ≤ MOST_CELLS }
    requires known { AreKnown (length config.now.shards) (length config.now.servers) cells.now }
    ensures { IfOk result (λ fault. fault ≡ first_from 0 (length config.now.shards)
        (double_of (length config.now.servers) cells.now)) }
{
    if is_named_once(alloc, config, cells)? {
        return Ok(None);
    }
    let counts = count_pairs(alloc, config, cells)?;
    let shards = config.shard_count();
    let servers = config.server_count();
    for number in 0..shards {
        let shard = ShardId::new(number);
        if let Some(server) = first_double_of(&counts, shard, shards, servers) {
            return Ok(Some(OpenFault::DoubleCell { shard, server }));
        }
    }
    Ok(None)
}

/// The number of a shard's cells that are primaries, and of those that have a part in a handover.
#[derive(Clone, Copy)]
struct LeadCells {
    primaries: u32,
    handing: u32,
}

impl LeadCells {
    /// Counts one cell more.
    fn add(&mut self, cell: &Cell)
        requires primaries { self.old.primaries < MOST_CELLS }
        requires handing { self.old.handing < MOST_CELLS }
        ensures primaries { self.new.primaries ≡ self.old.primaries + bit (is_primary cell.now) }
        ensures handing { self.new.handing ≡ self.old.handing + bit (is_handing cell.now) }
    {
        match cell {
            Cell::Primary => self.primaries += 1,
            Cell::Prepared { .. } | Cell::Forwarding { .. } => self.handing += 1,
            Cell::Absent | Cell::Secondary => {}
        }
    }

    /// Tells whether there are two primaries, or a handover is under way.
    fn is_bad(&self) -> bool
        ensures { result ≡ (nat_lt 1 self.now.primaries || nat_lt 0 self.now.handing) }
    {
        self.primaries > 1 || self.handing > 0
    }
}

/// Counts, for each shard, the cells that have a part in its lead.
fn count_leads(
    alloc: Global,
    config: &Config,
    cells: &[(ShardId, ServerId, Cell)],
) -> Result<Vec<LeadCells>, AllocError>
    requires few { length cells.now ≤ MOST_CELLS }
    requires known { AreKnown (length config.now.shards) (length config.now.servers) cells.now }
    ensures len { IfOk result (λ counts. length counts.items ≡ length config.now.shards) }
    ensures counts { IfOk result (λ counts. entries_of (record { primaries = 0; handing = 0 }) counts.items
        ≡ lead_cells cells.now) }
{
    let none = LeadCells {
        primaries: 0,
        handing: 0,
    };
    let mut counts = vec![in alloc; none; config.shard_count() as usize]?;
    for (shard, _, cell) in cells {
        let count = &mut counts[shard.number() as usize];
        count.add(cell);
    }
    Ok(counts)
}

/// Returns the lowest shard with a bad lead among the cells.
fn first_bad_lead(
    alloc: Global,
    config: &Config,
    cells: &[(ShardId, ServerId, Cell)],
) -> Result<Option<ShardId>, AllocError>
    requires few { length cells.now ≤ MOST_CELLS }
    requires known { AreKnown (length config.now.shards) (length config.now.servers) cells.now }
    requires once { IsNamedOnce cells.now }
    ensures { IfOk result (λ shard. shard ≡ first_below (length config.now.shards)
        (λ s. has_bad_lead (length config.now.servers) (cell_named cells.now s))) }
{
    let counts = count_leads(alloc, config, cells)?;
    for number in 0..config.shard_count() {
        if counts[number as usize].is_bad() {
            return Ok(Some(ShardId::new(number)));
        }
    }
    Ok(None)
}

/// Puts each of the cells into the table.
fn put_cells(table: &mut Table, cells: &[(ShardId, ServerId, Cell)])
    requires known { AreKnown (length table.old.setup.shards) (length table.old.setup.servers) cells.now }
    requires resting { All (λ named. is_handing named.2 ≡ false) cells.now }
    ensures cells { cells_of table.new ≡ put_all cells.now (cells_of table.old) }
    ensures lasts { lasts_of table.new ≡ lasts_of table.old }
    ensures down { table.new.down ≡ table.old.down }
    ensures setup { table.new.setup ≡ table.old.setup }
{
    for (shard, server, cell) in cells {
        table.set_cell(*shard, *server, *cell);
    }
}

/// Sets each of the servers down.
fn put_down(table: &mut Table, down: &[ServerId])
    requires { list_any (λ v. not (nat_lt v (length table.old.setup.servers))) down.now ≡ false }
    ensures down { down_of table.new ≡ (λ v. down_of table.old v || list_any (λ x. x == v) down.now) }
    ensures cells { table.new.cells ≡ table.old.cells }
    ensures lasts { table.new.lasts ≡ table.old.lasts }
    ensures setup { table.new.setup ≡ table.old.setup }
{
    for server in down {
        if !table.is_down(*server) {
            table.set_down(*server, true);
        }
    }
}

/// Makes a table with these cells, in which these servers are down.
fn placed(
    alloc: Global,
    config: &Config,
    cells: &[(ShardId, ServerId, Cell)],
    down: &[ServerId],
) -> Result<Table, AllocError>
    requires known { AreKnown (length config.now.shards) (length config.now.servers) cells.now }
    requires resting { All (λ named. is_handing named.2 ≡ false) cells.now }
    requires servers { list_any (λ v. not (nat_lt v (length config.now.servers))) down.now ≡ false }
    ensures cells { IfOk result (λ table. cells_of table ≡ put_all cells.now (λ s v. Cell.Absent)) }
    ensures lasts { IfOk result (λ table. lasts_of table ≡ (λ s v. 0)) }
    ensures down { IfOk result (λ table. down_of table ≡ (λ v. list_any (λ x. x == v) down.now)) }
    ensures setup { IfOk result (λ table. table.setup ≡ config.now) }
{
    let mut table = Table::new(alloc, config)?;
    put_cells(&mut table, cells);
    put_down(&mut table, down);
    Ok(table)
}

/// Returns what is wrong with the lists themselves.
fn check_lists(
    alloc: Global,
    config: &Config,
    cells: &[(ShardId, ServerId, Cell)],
    listed: &[Option<ServerId>],
    down: &[ServerId],
    limit: u32,
) -> Result<(), OpenFault>
    ensures ok { OnOk result (first_fault (list_faults (sizes_of config.now)
        (record { cells = cells.now; listed = listed.now; down = down.now; limit = limit })) ≡ None) }
    ensures refused { IfErr result (λ why. why ≢ OpenFault.NoMemory
        → first_fault (list_faults (sizes_of config.now)
        (record { cells = cells.now; listed = listed.now; down = down.now; limit = limit })) ≡ Some why) }
    ensures early { IfErr result (λ why. why ≡ OpenFault.NoMemory
        → (is_wrong_size (sizes_of config.now) (record
        { cells = cells.now; listed = listed.now; down = down.now; limit = limit }) ≡ false)
        × (has_unknown_id (sizes_of config.now) (record
        { cells = cells.now; listed = listed.now; down = down.now; limit = limit }) ≡ false)) }
{
    if cells.len() > MOST_CELLS || listed.len() != config.shard_count() as usize {
        return Err(OpenFault::TooMany);
    }
    if has_unknown_cell(config, cells)
        || has_unknown_listing(config, listed)
        || has_unknown_server(config, down)
    {
        return Err(OpenFault::UnknownName);
    }
    if let Some(fault) = first_double(alloc, config, cells)? {
        return Err(fault);
    }
    if let Some(shard) = first_bad_lead(alloc, config, cells)? {
        return Err(OpenFault::BadLead { shard });
    }
    Ok(())
}

/// Returns what is wrong with the placement of a table's cells.
fn standing_fault(table: &Table, listed: &[Option<ServerId>], limit: u32) -> Option<OpenFault>
    requires len { length listed.now ≡ length table.now.setup.shards }
    requires known { list_any (is_unknown (length table.now.setup.servers)) listed.now ≡ false }
    ensures { result ≡ first_fault (standing_faults (sizes_of table.now.setup)
        (unpublished table.now listed.now limit)) }
{
    if let Some(shard) = faults::first_bad_listing(table, listed) {
        return Some(OpenFault::BadListing { shard });
    }
    if let Some(server) = faults::first_over_room(table) {
        return Some(OpenFault::OverRoom { server });
    }
    if let Some(shard) = faults::first_short(table) {
        return Some(OpenFault::Short { shard });
    }
    if table.down_count() > limit {
        return Some(OpenFault::TooManyDown);
    }
    None
}

/// Makes the placement of a table's cells. Nothing of it has been published.
fn stand(
    alloc: Global,
    table: Table,
    listed: &[Option<ServerId>],
    limit: u32,
) -> Result<Placement, OpenFault>
    requires len { length listed.now ≡ length table.setup.shards }
    requires known { list_any (is_unknown (length table.setup.servers)) listed.now ≡ false }
    ensures ok { IfOk result (λ p. place_of p ≡ unpublished table listed.now limit) }
    ensures setup { IfOk result (λ p. p.setup ≡ table.setup) }
    ensures valid { OnOk result (first_fault (standing_faults (sizes_of table.setup)
        (unpublished table listed.now limit)) ≡ None) }
    ensures refused { IfErr result (λ why. why ≢ OpenFault.NoMemory
        → first_fault (standing_faults (sizes_of table.setup) (unpublished table listed.now limit)) ≡ Some why) }
{
    if let Some(fault) = standing_fault(&table, listed, limit) {
        return Err(fault);
    }
    let shards = table.config().shard_count() as usize;
    let versions = vec![in alloc; 0; shards]?;
    let listed = Vec::from_slice(alloc, listed)?;
    Ok(Placement::from_parts(table, listed, versions, limit))
}

impl Placement {
    ghost use Rattle.sm_placement.specs.Lead.{IsSettled};

    /// Opens a placement with these cells, listed servers and servers down, and no other cell. A refusal is the first
    /// that applies in the order of the faults; of one fault it names the lowest shard, then the lowest server. Want of
    /// memory may come before any other, but for `TooMany` and `UnknownName`.
    pub fn open(
        alloc: Global,
        config: &Config,
        cells: &[(ShardId, ServerId, Cell)],
        listed: &[Option<ServerId>],
        down: &[ServerId],
        limit: u32,
    ) -> Result<Placement, OpenFault>
        ensures ok { IfOk result (λ p. place_of p
            ≡ opened_place (record { cells = cells.now; listed = listed.now; down = down.now; limit = limit })) }
        ensures setup { IfOk result (λ p. p.setup ≡ config.now) }
        ensures valid { OnOk result (open_fault (sizes_of config.now)
            (record { cells = cells.now; listed = listed.now; down = down.now; limit = limit }) ≡ None) }
        ensures settled { IfOk result (λ p. IsSettled (sizes_of config.now) (place_of p)) }
        ensures refused { IfErr result (λ why. why ≢ OpenFault.NoMemory
            → open_fault (sizes_of config.now) (record
            { cells = cells.now; listed = listed.now; down = down.now; limit = limit }) ≡ Some why) }
        ensures early { IfErr result (λ why. why ≡ OpenFault.NoMemory
            → (is_wrong_size (sizes_of config.now) (record
            { cells = cells.now; listed = listed.now; down = down.now; limit = limit }) ≡ false)
            × (has_unknown_id (sizes_of config.now) (record
            { cells = cells.now; listed = listed.now; down = down.now; limit = limit }) ≡ false)) }
    {
        check_lists(alloc, config, cells, listed, down, limit)?;
        let table = placed(alloc, config, cells, down)?;
        stand(alloc, table, listed, limit)
    }
}
