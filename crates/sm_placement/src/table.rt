//! The cells of a configuration, one after another, with running totals.
ghost use Rattle.std.specs.Prelude.{◌≡◌, ◌<◌, ◌≤◌, ◌+◌, ◌*◌, ◌^◌, ◌&&◌, false, length, replicate, IfOk};
ghost use Rattle.sm_server.specs.Cell.{is_forwarding};
ghost use Rattle.sm_placement.specs.Sums.{put};
ghost use Rattle.sm_placement.specs.Rows.{IsKnownCell};
ghost use Rattle.sm_placement.specs.Place.{weight};
ghost use Rattle.sm_placement.specs.Layout.{grid_of};
ghost use Rattle.sm_placement.specs.Counts.{CanToggle, AreToggled};
ghost use Rattle.sm_placement.specs.Replicas.{replicas_by};
ghost use Rattle.sm_placement.specs.declared.limits.TheConstants.{MOST_SERVERS};

use crate::cells::{Cells, Row};
use crate::config::Config;
use crate::lasts::Lasts;
use crate::replicas::Replicas;
use crate::row::{self, Counts};
use sm_server::{Cell, ServerId, ShardId};
use std::alloc::{AllocError, Global};
use std::marker::Model;

/// The cells of a configuration shard after shard, the number of the last call that had an effect on each, the servers
/// that are down, and the totals of all these.
pub struct Table {
    config: Config,
    cells: Cells,
    lasts: Lasts,
    down: Vec<bool>,
    down_count: u32,
    loads: Vec<u64>,
    lives: Vec<u32>,
    servings: Vec<u32>,
    replicas: Replicas,
}

/// Drops everything in one call, instead of one call for each list.
impl Drop for Table {
    fn drop(self) {
        let Table {
            config,
            cells,
            lasts,
            down,
            down_count: _,
            loads,
            lives,
            servings,
            replicas,
        } = self;
        drop(config);
        drop(cells);
        drop(lasts);
        drop(down);
        drop(loads);
        drop(lives);
        drop(servings);
        drop(replicas);
    }
}

impl Model for Table {
    ghost use Rattle.sm_placement.specs.Grid.{TableModel, IsCounted};

    ghost Value = { TableModel };

    ghost view = { λ t. record { setup = t.config; cells = t.cells; lasts = t.lasts; down = t.down.items } };

    ghost invariant = { λ t. IsCounted (record { setup = t.config; cells = t.cells; lasts = t.lasts; down = t.down.items }) (record { loads = t.loads.items; lives = t.lives.items; servings = t.servings.items; replicas = t.replicas; down = t.down_count }) };
}

/// Returns the load that a cell puts on its server.
const fn weight(cell: &Cell, load: u64) -> u64
    ensures { result ≡ weight cell.now load }
{
    if cell.is_absent() { 0 } else { load }
}

/// Corrects the counts of live replicas, once a server that is down comes up, or one that is up goes down.
fn toggle_lives(lives: &mut [u32], replicas: &Replicas, server: ServerId, down: bool)
    requires shards { length lives.old ≡ replicas.now.shards }
    requires server { server * replicas.now.shards + replicas.now.shards ≤ length replicas.now.held }
    requires lives { CanToggle lives.old down (replicas_by replicas.now server) }
    ensures { AreToggled lives.old lives.new down (replicas_by replicas.now server) }
{
    for shard in 0..lives.len() {
        let has_replica = replicas.get(server.number() as usize, shard);
        lives[shard] = row::live_toggled(lives[shard], has_replica, down);
    }
}

/// Makes the lists with an entry for each server, with no server down and no load.
fn blank_by_server(alloc: Global, servers: usize) -> Result<(Vec<bool>, Vec<u64>), AllocError>
    ensures down { IfOk result (λ lists. lists.0.items ≡ replicate servers false) }
    ensures loads { IfOk result (λ lists. lists.1.items ≡ replicate servers 0) }
{
    let down = vec![in alloc; false; servers]?;
    Ok((down, vec![in alloc; 0; servers]?))
}

/// Makes the lists with an entry for each shard, with no replica live or serving.
fn blank_by_shard(alloc: Global, shards: usize) -> Result<(Vec<u32>, Vec<u32>), AllocError>
    ensures lives { IfOk result (λ lists. lists.0.items ≡ replicate shards 0) }
    ensures servings { IfOk result (λ lists. lists.1.items ≡ replicate shards 0) }
{
    let lives = vec![in alloc; 0; shards]?;
    Ok((lives, vec![in alloc; 0; shards]?))
}

/// Copies the lists with an entry for each server.
fn copied_by_server(
    alloc: Global,
    down: &[bool],
    loads: &[u64],
) -> Result<(Vec<bool>, Vec<u64>), AllocError>
    ensures down { IfOk result (λ lists. lists.0.items ≡ down.now) }
    ensures loads { IfOk result (λ lists. lists.1.items ≡ loads.now) }
{
    let down = Vec::from_slice(alloc, down)?;
    Ok((down, Vec::from_slice(alloc, loads)?))
}

/// Copies the lists with an entry for each shard.
fn copied_by_shard(
    alloc: Global,
    lives: &[u32],
    servings: &[u32],
) -> Result<(Vec<u32>, Vec<u32>), AllocError>
    ensures lives { IfOk result (λ lists. lists.0.items ≡ lives.now) }
    ensures servings { IfOk result (λ lists. lists.1.items ≡ servings.now) }
{
    let lives = Vec::from_slice(alloc, lives)?;
    Ok((lives, Vec::from_slice(alloc, servings)?))
}

impl Table {
    ghost use Rattle.std.specs.Prelude.{◌≡◌, ◌<◌, ◌≤◌, ◌+◌, ◌*◌, ◌^◌, ◌&&◌, false, length, IfOk};
    ghost use Rattle.sm_placement.specs.Setup.{sizes_of};
    ghost use Rattle.sm_placement.specs.Rows.{serves, is_live, live_in, serving_in, IsKnownCell};
    ghost use Rattle.sm_placement.specs.Layout.{entries_of};
    ghost use Rattle.sm_server.specs.Cell.{is_forwarding};
    ghost use Rattle.sm_placement.specs.Sums.{put, put2, count_below};
    ghost use Rattle.sm_placement.specs.Place.{load_of};
    ghost use Rattle.sm_placement.specs.Lead.{has_part};
    ghost use Rattle.sm_placement.specs.Counts.{has_replica};
    ghost use Rattle.sm_placement.specs.Grid.{cells_of, lasts_of, down_of, IsGrid};

    /// Makes a table with nothing in each cell.
    pub fn new(alloc: Global, config: &Config) -> Result<Table, AllocError>
        ensures setup { IfOk result (λ t. t.setup ≡ config.now) }
        ensures cells { IfOk result (λ t. cells_of t ≡ (λ s v. Cell.Absent)) }
        ensures lasts { IfOk result (λ t. lasts_of t ≡ (λ s v. 0)) }
        ensures down { IfOk result (λ t. down_of t ≡ (λ v. false)) }
    {
        let servers = config.server_count() as usize;
        let shards = config.shard_count() as usize;
        let config = config.copy(alloc)?;
        let cells = Cells::new(alloc, shards * servers)?;
        let lasts = Lasts::new(alloc, shards * servers)?;
        let (down, loads) = blank_by_server(alloc, servers)?;
        let (lives, servings) = blank_by_shard(alloc, shards)?;
        let replicas = Replicas::new(alloc, servers, shards)?;
        Ok(Table {
            config,
            cells,
            lasts,
            down,
            down_count: 0,
            loads,
            lives,
            servings,
            replicas,
        })
    }

    /// Copies the table.
    pub fn copy(&self, alloc: Global) -> Result<Table, AllocError>
        ensures { IfOk result (λ t. t ≡ self.now) }
    {
        let config = self.config.copy(alloc)?;
        let cells = self.cells.copy(alloc)?;
        let lasts = self.lasts.copy(alloc)?;
        let (down, loads) = copied_by_server(alloc, &self.down, &self.loads)?;
        let (lives, servings) = copied_by_shard(alloc, &self.lives, &self.servings)?;
        let replicas = self.replicas.copy(alloc)?;
        Ok(Table {
            config,
            cells,
            lasts,
            down,
            down_count: self.down_count,
            loads,
            lives,
            servings,
            replicas,
        })
    }

    /// Returns the configuration whose cells these are.
    pub fn config(&self) -> &Config
        ensures setup { result.now ≡ self.now.setup }
        ensures layout { IsGrid self.now }
    {
        &self.config
    }

    /// Returns the slot of a pair in the lists of cells and of last numbers.
    #[inline]
    fn slot(&self, shard: ShardId, server: ServerId) -> usize
        requires shard { shard < length self.now.setup.shards }
        requires server { server < length self.now.setup.servers }
        ensures { result ≡ shard * length self.now.setup.servers + server }
    {
        shard.number() as usize * self.down.len() + server.number() as usize
    }

    /// Returns what a server has of a shard.
    #[inline]
    pub fn cell(&self, shard: ShardId, server: ServerId) -> Cell
        requires shard { shard < length self.now.setup.shards }
        requires server { server < length self.now.setup.servers }
        ensures { result ≡ cells_of self.now shard server }
    {
        self.cells.get(self.slot(shard, server))
    }

    /// Tells whether a server has a part in the lead of a shard.
    #[inline]
    pub fn has_part(&self, shard: ShardId, server: ServerId) -> bool
        requires shard { shard < length self.now.setup.shards }
        requires server { server < length self.now.setup.servers }
        ensures { result ≡ has_part (cells_of self.now shard server) }
    {
        self.cells.has_part(self.slot(shard, server))
    }

    /// Returns the number of the last call that had an effect on the cell, and 0 for none.
    pub fn last(&self, shard: ShardId, server: ServerId) -> u64
        requires shard { shard < length self.now.setup.shards }
        requires server { server < length self.now.setup.servers }
        ensures { result ≡ lasts_of self.now shard server }
    {
        self.lasts.get(self.slot(shard, server))
    }

    /// Tells whether a server is down.
    pub fn is_down(&self, server: ServerId) -> bool
        requires { server < length self.now.setup.servers }
        ensures { result ≡ down_of self.now server }
    {
        self.down[server.number() as usize]
    }

    /// Returns the number of servers that are down.
    pub fn down_count(&self) -> u32
        ensures { result ≡ count_below (length self.now.setup.servers) (down_of self.now) }
    {
        self.down_count
    }

    /// Returns the load of a server.
    pub fn load(&self, server: ServerId) -> u64
        requires { server < length self.now.setup.servers }
        ensures load { result ≡ load_of (sizes_of self.now.setup) (cells_of self.now) server }
        ensures fits { result < 2 ^ 45 }
    {
        self.loads[server.number() as usize]
    }

    /// Returns the number of live replicas of a shard.
    pub fn live(&self, shard: ShardId) -> u32
        requires { shard < length self.now.setup.shards }
        ensures live { result ≡ live_in (length self.now.setup.servers) (cells_of self.now shard) (down_of self.now) }
        ensures bound { result ≤ MOST_SERVERS }
    {
        self.lives[shard.number() as usize]
    }

    /// Returns the number of servers that serve a shard, up or down.
    pub fn serving_count(&self, shard: ShardId) -> u32
        requires { shard < length self.now.setup.shards }
        ensures { result ≡ serving_in (length self.now.setup.servers) (cells_of self.now shard) }
    {
        self.servings[shard.number() as usize]
    }

    /// Returns the cells of a shard, by server.
    #[inline]
    fn row_of(&self, shard: ShardId) -> Row<'_>
        requires { shard < length self.now.setup.shards }
        ensures { grid_of result.servers Cell.Absent result.cells.now result.shard ≡ cells_of self.now shard }
    {
        self.cells.row(shard.number() as usize, self.down.len())
    }

    /// Tells whether a server serves a shard.
    #[inline]
    pub fn serves(&self, shard: ShardId, server: ServerId) -> bool
        requires { shard < length self.now.setup.shards }
        ensures { result ≡ serves (cells_of self.now shard) server }
    {
        row::serves(self.row_of(shard), server)
    }

    /// Tells whether a server has a replica of a shard that is live while the server is up.
    fn has_replica(&self, shard: ShardId, server: ServerId) -> bool
        requires shard { shard < length self.now.setup.shards }
        requires server { server < length self.now.setup.servers }
        ensures { result ≡ has_replica (cells_of self.now shard) server }
    {
        self.replicas
            .get(server.number() as usize, shard.number() as usize)
    }

    /// Tells whether a server counts as live for a shard.
    pub fn is_live(&self, shard: ShardId, server: ServerId) -> bool
        requires shard { shard < length self.now.setup.shards }
        requires server { server < length self.now.setup.servers }
        ensures { result ≡ is_live (cells_of self.now shard) (down_of self.now) server }
    {
        !self.is_down(server) && self.has_replica(shard, server)
    }

    /// Sets a cell, and corrects the totals of its server and its shard.
    pub fn set_cell(&mut self, shard: ShardId, server: ServerId, cell: Cell)
        requires shard { shard < length self.old.setup.shards }
        requires server { server < length self.old.setup.servers }
        requires known { IsKnownCell (length self.old.setup.servers) cell }
        requires one_forwards { (is_forwarding (cells_of self.old shard server) && is_forwarding cell) ≡ false }
        ensures cells { cells_of self.new ≡ put2 (cells_of self.old) shard server cell }
        ensures lasts { lasts_of self.new ≡ lasts_of self.old }
        ensures down { self.new.down ≡ self.old.down }
        ensures setup { self.new.setup ≡ self.old.setup }
    {
        let load = self.config.load(shard);
        let removed = weight(&self.cell(shard, server), load);
        let row = shard.number() as usize;
        let counts = Counts {
            live: self.lives[row],
            serving: self.servings[row],
        };
        let counts = row::set_cell(
            &mut self.cells,
            &mut self.replicas,
            &self.down,
            shard,
            server,
            cell,
            counts,
        );
        self.lives[row] = counts.live;
        self.servings[row] = counts.serving;
        let column = server.number() as usize;
        self.loads[column] = self.loads[column] + weight(&cell, load) - removed;
    }

    /// Sets whether a server is down, and corrects the totals of the shards with a replica there. Takes no memory.
    pub fn set_down(&mut self, server: ServerId, down: bool)
        requires { server < length self.old.setup.servers }
        ensures down { down_of self.new ≡ put (down_of self.old) server down }
        ensures cells { self.new.cells ≡ self.old.cells }
        ensures lasts { self.new.lasts ≡ self.old.lasts }
        ensures setup { self.new.setup ≡ self.old.setup }
    {
        if self.is_down(server) == down {
            return;
        }
        toggle_lives(self.lives.as_mut_slice(), &self.replicas, server, down);
        self.down[server.number() as usize] = down;
        if down {
            self.down_count += 1;
        } else {
            self.down_count -= 1;
        }
    }

    /// Sets the number of the last call that had an effect on a cell.
    pub fn set_last(&mut self, shard: ShardId, server: ServerId, number: u64)
        requires shard { shard < length self.old.setup.shards }
        requires server { server < length self.old.setup.servers }
        ensures lasts { lasts_of self.new ≡ put2 (lasts_of self.old) shard server number }
        ensures cells { self.new.cells ≡ self.old.cells }
        ensures down { self.new.down ≡ self.old.down }
        ensures setup { self.new.setup ≡ self.old.setup }
    {
        let slot = self.slot(shard, server);
        self.lasts.set(slot, number);
    }

    /// Forgets the numbers of all calls. Takes no memory.
    pub fn forget_lasts(&mut self)
        ensures lasts { lasts_of self.new ≡ (λ s v. 0) }
        ensures cells { self.new.cells ≡ self.old.cells }
        ensures down { self.new.down ≡ self.old.down }
        ensures setup { self.new.setup ≡ self.old.setup }
    {
        self.lasts.forget();
    }
}
