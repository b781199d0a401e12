//! The roles of servers for shards, shard after shard, with one for each number of a server.
ghost use Rattle.std.specs.Prelude.{◌≡◌, ◌<◌, ◌*◌, ℕ, IfOk, None, Some, length, slice_get, slice_index_or};
ghost use Rattle.sm_placement.specs.Sums.{put2};
ghost use Rattle.smpland_reopening.specs.Roles.{cell_by_role, role_by_cell};

use crate::choice::Choice;
use sm_server::{Cell, Role, ServerId, ShardId};
use std::alloc::{AllocError, Global};

/// Returns the role that a cell of a settled placement gives.
pub(crate) fn role_of(cell: &Cell) -> Option<Role>
    ensures { result ≡ role_by_cell cell.now }
{
    match cell {
        Cell::Primary => Some(Role::Primary),
        Cell::Secondary => Some(Role::Secondary),
        _ => None,
    }
}

/// Returns the cell of a role.
pub(crate) fn cell_of(role: Role) -> Cell
    ensures { result ≡ cell_by_role (Some role) }
{
    match role {
        Role::Primary => Cell::Primary,
        Role::Secondary => Cell::Secondary,
    }
}

/// Roles under the numbers of servers and shards.
#[derive(Drop)]
pub(crate) struct Roles {
    pub shards: u32,
    pub servers: u32,
    pub list: Vec<Option<Role>>,
    ghost full: { length list.items ≡ shards * servers },
}

impl Roles {
    ghost use Rattle.smpland_reopening.specs.Chosen.{given_too, role_assigned, role_given, roles_with};
    ghost use Rattle.smpland_reopening.specs.RoleGrids.{role_at};

    /// Returns no roles.
    pub fn none(alloc: Global, shards: u32, servers: u32) -> Result<Roles, AllocError>
        ensures shards { IfOk result (λ roles. roles.shards ≡ shards) }
        ensures servers { IfOk result (λ roles. roles.servers ≡ servers) }
        ensures nothing { IfOk result (λ roles. (s v : ℕ) → role_at roles s v ≡ None) }
    {
        Ok(Roles {
            shards,
            servers,
            list: vec![in alloc; None; shards as usize * servers as usize]?,
        })
    }

    /// Returns the role at a place of the list.
    fn at(&self, place: usize) -> Option<Role>
        ensures { result ≡ slice_index_or self.now.list.items place None }
    {
        match self.list.get(place) {
            Some(role) => *role,
            None => None,
        }
    }

    /// Returns the role of a server for a shard.
    pub fn get(&self, shard: u32, server: u32) -> Option<Role>
        ensures { result ≡ role_at self.now shard server }
    {
        if server >= self.servers {
            return None;
        }
        self.at(shard as usize * self.servers as usize + server as usize)
    }

    /// Gives a server a role for a shard, or none.
    pub fn set(&mut self, shard: u32, server: u32, role: Option<Role>)
        requires shard { shard < self.old.shards }
        requires server { server < self.old.servers }
        ensures roles { role_at self.new ≡ put2 (role_at self.old) shard server role }
        ensures shards { self.new.shards ≡ self.old.shards }
        ensures servers { self.new.servers ≡ self.old.servers }
    {
        let place = shard as usize * self.servers as usize + server as usize;
        self.list[place] = role;
    }

    /// Gives a server a role for a shard, or none, if both have numbers.
    pub fn assign(&mut self, shard: ShardId, server: ServerId, role: Option<Role>)
        ensures roles { (s v : ℕ) → s < self.old.shards → v < self.old.servers
            → role_at self.new s v ≡ role_assigned (role_at self.old) shard server role s v }
        ensures shards { self.new.shards ≡ self.old.shards }
        ensures servers { self.new.servers ≡ self.old.servers }
    {
        if shard.number() < self.shards && server.number() < self.servers {
            self.set(shard.number(), server.number(), role);
        }
    }

    /// Takes all roles of a shard away.
    fn clear(&mut self, shard: ShardId)
        ensures roles { (s v : ℕ) → s < self.old.shards → v < self.old.servers
            → role_at self.new s v ≡ roles_with (role_at self.old) (Some shard) (λ v. None) s v }
        ensures shards { self.new.shards ≡ self.old.shards }
        ensures servers { self.new.servers ≡ self.old.servers }
    {
        for number in 0..self.servers {
            self.assign(shard, ServerId::new(number), None);
        }
    }

    /// Gives a server, by a document's number, a role for a shard.
    fn give(&mut self, shard: ShardId, servers: &[ServerId], server: ServerId, role: Role)
        ensures roles { (s v : ℕ) → s < self.old.shards → v < self.old.servers
            → role_at self.new s v ≡ given_too (role_at self.old) shard (slice_get servers.now server) role s v }
        ensures shards { self.new.shards ≡ self.old.shards }
        ensures servers { self.new.servers ≡ self.old.servers }
    {
        if let Some(number) = servers.get(server.number() as usize) {
            self.assign(shard, *number, Some(role));
        }
    }

    /// Gives a shard these replicas, by a document's numbers of servers.
    fn fill(&mut self, shard: ShardId, servers: &[ServerId], replicas: &[(ServerId, Role)])
        ensures roles { (s v : ℕ) → s < self.old.shards → v < self.old.servers → role_at self.new s v
            ≡ roles_with (role_at self.old) (Some shard) (role_given servers.now replicas.now) s v }
        ensures shards { self.new.shards ≡ self.old.shards }
        ensures servers { self.new.servers ≡ self.old.servers }
    {
        self.clear(shard);
        for (server, role) in replicas {
            self.give(shard, servers, *server, *role);
        }
    }

    /// Gives a shard of a document other replicas, whose servers and shards have these numbers.
    pub fn choose(&mut self, choice: &Choice, shards: &[ShardId], servers: &[ServerId])
        ensures roles { (s v : ℕ) → s < self.old.shards → v < self.old.servers → role_at self.new s v
            ≡ roles_with (role_at self.old) (slice_get shards.now choice.now.shard)
            (role_given servers.now choice.now.replicas.items) s v }
        ensures shards { self.new.shards ≡ self.old.shards }
        ensures servers { self.new.servers ≡ self.old.servers }
    {
        if let Some(shard) = shards.get(choice.shard.number() as usize) {
            self.fill(*shard, servers, &choice.replicas);
        }
    }
}
