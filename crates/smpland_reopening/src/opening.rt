//! From roles to a settled placement.
ghost use Rattle.std.specs.Prelude.{◌≡◌, ◌≤◌, ◌<◌, ◌+◌, ◌==◌, ℕ, IfOk, OnOk, true, length, map, max};
ghost use Rattle.std.specs.List.{list_all, list_any, range_with_len};
ghost use Rattle.sm_placement.specs.Config.{server_row, shard_names, shard_row};
ghost use Rattle.sm_placement.specs.Setup.{is_good_shard, names_of_servers, names_of_shards, sizes_of};
ghost use Rattle.sm_placement.specs.Layout.{place_of};
ghost use Rattle.sm_placement.specs.Lead.{IsSettled};
ghost use Rattle.sm_placement.specs.Opening.{cell_named};
ghost use Rattle.smpland_reopening.specs.Eased.{AreEasedBelow, IsEased, IsEasedShard};
ghost use Rattle.smpland_reopening.specs.Roles.{NamesRoles, cell_by_role, is_down_in};
ghost use Rattle.smpland_reopening.specs.RoleGrids.{role_at};
ghost use Rattle.smpland_reopening.specs.Settled.{IsPlacedBy, down_among, live_by, primary_by, setup_met};
ghost use Rattle.smpland_reopening.specs.Settled.{shard_met, shard_with_live};

use crate::roles::{Roles, cell_of};
use sm_placement::{Config, ConfigFault, MOST_LOAD, MOST_REPLICAS, OpenFault, Placement, Shard};
use sm_server::{Cell, Role, ServerId, ShardId};
use std::alloc::{AllocError, Global};

/// Returns whether a server is down.
pub(crate) fn is_down(down: &[bool], server: u32) -> bool
    ensures { result ≡ is_down_in down.now server }
{
    match down.get(server as usize) {
        Some(is_down) => *is_down,
        None => false,
    }
}

impl Roles {
    /// Returns how many servers that are up have a replica of a shard.
    #[tactic(auto, using(crate::proofs::Settled::live_more, crate::proofs::Settled::live_same))]
    pub fn live(&self, shard: ShardId, down: &[bool]) -> u32
        ensures { result ≡ live_by self.now.servers (role_at self.now) (is_down_in down.now) shard }
    {
        let mut live = 0;
        for number in 0..self.servers {
            if !is_down(down, number) && self.get(shard.number(), number).is_some() {
                live += 1;
            }
        }
        live
    }

    /// Returns the first server that is a shard's primary.
    #[tactic(auto, using(sm_placement::proofs::Searches::find_range_more))]
    fn primary(&self, shard: u32) -> Option<ServerId>
        ensures { result ≡ primary_by self.now.servers (role_at self.now) shard }
    {
        for number in 0..self.servers {
            if self.get(shard, number) == Some(Role::Primary) {
                return Some(ServerId::new(number));
            }
        }
        None
    }

    /// Names the cell of a pair if it holds something.
    #[tactic(auto, using(crate::proofs::Naming::names_some, crate::proofs::Naming::names_none))]
    fn name_cell(
        &self,
        cells: &mut Vec<(ShardId, ServerId, Cell)>,
        shard: u32,
        server: u32,
    ) -> Result<(), AllocError>
        requires { NamesRoles (role_at self.now) shard server cells.old.items }
        ensures { OnOk result (NamesRoles (role_at self.now) shard (server + 1) cells.new.items) }
    {
        if let Some(role) = self.get(shard, server) {
            cells.push((ShardId::new(shard), ServerId::new(server), cell_of(role)))?;
        }
        Ok(())
    }

    /// Names the cells of a shard that hold something.
    #[tactic(auto, using(crate::proofs::Naming::names_row))]
    fn name_cells(
        &self,
        cells: &mut Vec<(ShardId, ServerId, Cell)>,
        shard: u32,
    ) -> Result<(), AllocError>
        requires { NamesRoles (role_at self.now) shard 0 cells.old.items }
        ensures { OnOk result (NamesRoles (role_at self.now) (shard + 1) 0 cells.new.items) }
    {
        for number in 0..self.servers {
            self.name_cell(cells, shard, number)?;
        }
        Ok(())
    }

    /// Returns the cells that hold something.
    #[tactic(auto, using(crate::proofs::Naming::names_nothing, crate::proofs::Naming::names_all))]
    fn cells(&self, alloc: Global) -> Result<Vec<(ShardId, ServerId, Cell)>, AllocError>
        ensures { IfOk result (λ cells. (s v : ℕ) → cell_named cells.items s v ≡ cell_by_role (role_at self.now s v)) }
    {
        let mut cells = Vec::new(alloc);
        for shard in 0..self.shards {
            self.name_cells(&mut cells, shard)?;
        }
        Ok(cells)
    }

    /// Returns the shards' primaries.
    #[tactic(auto, using(crate::proofs::Lists::pushed_more))]
    fn primaries(&self, alloc: Global) -> Result<Vec<Option<ServerId>>, AllocError>
        ensures { IfOk result (λ primaries. primaries.items
            ≡ map (primary_by self.now.servers (role_at self.now)) (range_with_len 0 self.now.shards)) }
    {
        let mut primaries = Vec::new(alloc);
        for shard in 0..self.shards {
            primaries.push(self.primary(shard))?;
        }
        Ok(primaries)
    }
}

/// Returns which of the first `servers` servers are down.
#[tactic(auto, using(crate::proofs::Marking::kept_pushed, crate::proofs::Marking::kept_passed))]
fn servers_down(alloc: Global, down: &[bool], servers: u32) -> Result<Vec<ServerId>, AllocError>
    ensures down { IfOk result (λ list. (v : ℕ) → v < servers
        → list_any (λ x. x == v) list.items ≡ is_down_in down.now v) }
    ensures few { IfOk result (λ list. length list.items ≤ servers) }
    ensures list { IfOk result (λ list. list.items ≡ down_among servers (is_down_in down.now)) }
{
    let mut list = Vec::new(alloc);
    for number in 0..servers {
        if is_down(down, number) {
            list.push(ServerId::new(number))?;
        }
    }
    Ok(list)
}

/// Returns a shard whose floor is not above its live replicas.
#[tactic(auto, using(crate::proofs::Eased::eased_shard))]
fn floored(shard: &Shard, live: u32) -> Result<Shard, AllocError>
    requires load { shard.now.load ≤ MOST_LOAD }
    requires want { shard.now.want ≤ MOST_REPLICAS }
    requires cap { shard.now.cap ≤ shard.now.want }
    requires spread { shard.now.spread ≤ MOST_REPLICAS }
    ensures name { IfOk result (λ row. (shard_row row).name ≡ (shard_row shard.now).name) }
    ensures eased { IfOk result (λ row. IsEasedShard (shard_row shard.now) (shard_row row)) }
    ensures good { IfOk result (λ row. is_good_shard (shard_row row) ≡ true) }
    ensures row { IfOk result (λ row. shard_row row ≡ shard_with_live (shard_row shard.now) live) }
{
    let away = shard.want.saturating_sub(live);
    Ok(Shard {
        name: shard.name.clone()?,
        load: shard.load,
        want: shard.want,
        cap: if shard.cap < away { away } else { shard.cap },
        spread: shard.spread,
    })
}

/// Returns the shards of a configuration with no floor above their live replicas.
#[tactic(auto, using(crate::proofs::Numbers::shard_names_next, crate::proofs::Floors::good_more, crate::proofs::Eased::eased_next))]
fn floored_shards(
    alloc: Global,
    config: &Config,
    roles: &Roles,
    down: &[bool],
) -> Result<Vec<Shard>, AllocError>
    requires { roles.now.servers ≡ length config.now.servers }
    ensures names { IfOk result (λ rows. shard_names rows.items ≡ names_of_shards config.now) }
    ensures good { IfOk result (λ rows. list_all is_good_shard (map shard_row rows.items) ≡ true) }
    ensures eased { IfOk result (λ rows. AreEasedBelow (length config.now.shards) config.now.shards
        (map shard_row rows.items)) }
    ensures met { IfOk result (λ rows. map shard_row rows.items
        ≡ (setup_met config.now (role_at roles.now) (is_down_in down.now)).shards) }
{
    let mut rows = Vec::new(alloc);
    for number in 0..config.shard_count() {
        let shard = ShardId::new(number);
        rows.push(floored(config.shard(shard), roles.live(shard, down))?)?;
    }
    Ok(rows)
}

/// Returns a configuration whose shards have no floor above their live replicas.
#[tactic(auto, using(crate::proofs::Floors::floored_fine, crate::proofs::Eased::eased_config))]
fn floored_config(
    alloc: Global,
    config: &Config,
    roles: &Roles,
    down: &[bool],
) -> Result<Config, AllocError>
    requires { roles.now.servers ≡ length config.now.servers }
    ensures servers { IfOk result (λ floored. names_of_servers floored ≡ names_of_servers config.now) }
    ensures shards { IfOk result (λ floored. names_of_shards floored ≡ names_of_shards config.now) }
    ensures eased { IfOk result (λ floored. IsEased config.now floored) }
    ensures met { IfOk result (λ floored. floored ≡ setup_met config.now (role_at roles.now) (is_down_in down.now)) }
{
    let shards = floored_shards(alloc, config, roles, down)?;
    config.server_count();
    match Config::new(alloc, config.servers(), &shards) {
        Ok(config) => Ok(config),
        Err(ConfigFault::NoMemory) => Err(AllocError),
        Err(_) => unreachable!(),
    }
}

/// Returns the placement of roles, whose floors are those that are met: each primary is listed.
pub(crate) fn settled_placement(
    alloc: Global,
    config: &Config,
    roles: &Roles,
    down: &[bool],
    limit: u32,
) -> Result<Placement, OpenFault>
    requires shards { roles.now.shards ≡ length config.now.shards }
    requires servers { roles.now.servers ≡ length config.now.servers }
    ensures settled { IfOk result (λ p. IsSettled (sizes_of p.setup) (place_of p)) }
    ensures servers { IfOk result (λ p. names_of_servers p.setup ≡ names_of_servers config.now) }
    ensures shards { IfOk result (λ p. names_of_shards p.setup ≡ names_of_shards config.now) }
    ensures eased { IfOk result (λ p. IsEased config.now p.setup) }
    ensures cells { IfOk result (λ p. (s v : ℕ) → (place_of p).cells s v ≡ cell_by_role (role_at roles.now s v)) }
    ensures down { IfOk result (λ p. (v : ℕ) → v < length config.now.servers
        → (place_of p).down v ≡ is_down_in down.now v) }
    ensures placed { IfOk result (IsPlacedBy config.now (role_at roles.now) (is_down_in down.now) limit) }
{
    let floored = floored_config(alloc, config, roles, down)?;
    let cells = roles.cells(alloc)?;
    let primaries = roles.primaries(alloc)?;
    let down = servers_down(alloc, down, config.server_count())?;
    let limit = limit.max(down.len() as u32);
    Placement::open(alloc, &floored, &cells, &primaries, &down, limit)
}
