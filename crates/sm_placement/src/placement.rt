//! The places of the replicas, and the calls that move them.
ghost use Rattle.std.specs.Prelude.{◌≡◌, ◌<◌, ◌≤◌, ◌↔◌, length, IsTrue, All};
ghost use Rattle.sm_placement.specs.declared.limits.TheConstants.{MOST_SERVERS, VERSIONS_END};

use crate::config::Config;
use crate::entry::Entry;
use crate::faults;
use crate::lead::{Lead, lead_of};
use crate::limits::MOST_VERSION;
use crate::table::Table;
use sm_server::{Call, Cell, Refusal, Served, ServerId, ShardId, serve, serve_numbered};
use std::alloc::{AllocError, Global};
use std::marker::Model;

/// The servers that serve a shard: execute requests for it, as a primary, or as a prepared server to which the owner
/// forwards.
#[derive(Clone, Copy, Debug, PartialEq, Eq)]
pub enum Serving {
    /// No server does.
    Nobody,
    /// This server does, and no other.
    One(ServerId),
    /// This number of servers do, two or more.
    Several(u32),
}

/// A placement: each server's cell of each shard, the servers that are down, and the published map.
pub struct Placement {
    table: Table,
    listed: Vec<Option<ServerId>>,
    versions: Vec<u64>,
    limit: u32,
}

/// Drops everything in one call, instead of one call for each list.
impl Drop for Placement {
    fn drop(self) {
        let Placement {
            table,
            listed,
            versions,
            limit: _,
        } = self;
        drop(table);
        drop(listed);
        drop(versions);
    }
}

impl Model for Placement {
    ghost use Rattle.std.specs.Prelude.{◌≡◌, length};
    ghost use Rattle.sm_placement.specs.Setup.{sizes_of};
    ghost use Rattle.sm_placement.specs.Layout.{PlacementModel, place_of, IsPlacement};

    ghost Value = { PlacementModel };

    ghost view = { λ p. record { setup = p.table.setup; cells = p.table.cells; lasts = p.table.lasts; down = p.table.down; listed = p.listed.items; versions = p.versions.items; limit = p.limit } };

    ghost invariant = { λ p. record { listed_length : length p.listed.items ≡ length p.table.setup.shards; versions_length : length p.versions.items ≡ length p.table.setup.shards; placement : IsPlacement (sizes_of p.table.setup) (place_of (record { setup = p.table.setup; cells = p.table.cells; lasts = p.table.lasts; down = p.table.down; listed = p.listed.items; versions = p.versions.items; limit = p.limit })) } };
}

/// Tells whether no version is above that of a settled placement.
fn are_low(versions: &[u64]) -> bool
    ensures { IsTrue result ↔ All (λ version. version ≤ MOST_VERSION) versions.now }
{
    versions.iter().all(|version| *version <= MOST_VERSION)
}

impl Placement {
    ghost use Rattle.std.specs.Prelude.{◌≤◌, ◌-◌, ◌&&◌, ◌↔◌, true, false, IsTrue, IfSome, IfOk, OnOk, OnErr, IfErr, Ok};
    ghost use Rattle.std.specs.Prelude.{Err};
    ghost use Rattle.sm_server.specs.Cell.{is_forwarding};
    ghost use Rattle.sm_placement.specs.Setup.{sizes_of};
    ghost use Rattle.sm_placement.specs.Rows.{IsKnownCall, serves, serving_in, serving_of};
    ghost use Rattle.sm_placement.specs.Place.{entry_at, load_at, is_live_at, live_at, down_count, set_cell, set_last};
    ghost use Rattle.sm_placement.specs.Place.{answer_at, numbered_answer_at, set_down, publish, forget_numbers};
    ghost use Rattle.sm_placement.specs.Place.{called, called_numbered};
    ghost use Rattle.sm_placement.specs.Layout.{PlacementModel, place_of, IsPlacement};
    ghost use Rattle.std.specs.Option.{ForSome};
    ghost use Rattle.sm_placement.specs.Lead.{IsSettled, lead_of};
    ghost use Rattle.sm_placement.specs.Opening.{first_below};

    /// Makes the placement of a table's cells, with an entry of the map for each shard.
    pub(crate) fn from_parts(
        table: Table,
        listed: Vec<Option<ServerId>>,
        versions: Vec<u64>,
        limit: u32,
    ) -> Placement
        requires listed { length listed.items ≡ length table.setup.shards }
        requires versions { length versions.items ≡ length table.setup.shards }
        requires placement { IsPlacement (sizes_of table.setup)
            (place_of (record {
              setup = table.setup;
              cells = table.cells;
              lasts = table.lasts;
              down =
                  table.down;
              listed = listed.items;
              versions = versions.items;
              limit = limit;
            })) }
        ensures { result ≡ record {
          setup = table.setup;
          cells = table.cells;
          lasts = table.lasts;
          down =
              table.down;
          listed = listed.items;
          versions = versions.items;
          limit = limit;
        } }
    {
        Placement {
            table,
            listed,
            versions,
            limit,
        }
    }

    /// Returns the configuration: the servers and shards of the placement.
    pub fn config(&self) -> &Config
        ensures setup { result.now ≡ self.now.setup }
        ensures placement { IsPlacement (sizes_of self.now.setup) (place_of self.now) }
    {
        self.table.config()
    }

    /// Returns how many servers may be down at once.
    pub const fn limit(&self) -> u32
        ensures { result ≡ self.now.limit }
    {
        self.limit
    }

    /// Returns what a server has of a shard.
    #[inline]
    pub fn cell(&self, shard: ShardId, server: ServerId) -> Cell
        requires shard { shard < length self.now.setup.shards }
        requires server { server < length self.now.setup.servers }
        ensures { result ≡ (place_of self.now).cells shard server }
    {
        self.table.cell(shard, server)
    }

    /// Returns the number of the last numbered call that had an effect on the cell, 0 for none.
    pub fn last(&self, shard: ShardId, server: ServerId) -> u64
        requires shard { shard < length self.now.setup.shards }
        requires server { server < length self.now.setup.servers }
        ensures { result ≡ (place_of self.now).last shard server }
    {
        self.table.last(shard, server)
    }

    /// Tells whether a server is down, so that it refuses every call.
    pub fn is_down(&self, server: ServerId) -> bool
        requires { server < length self.now.setup.servers }
        ensures { result ≡ (place_of self.now).down server }
    {
        self.table.is_down(server)
    }

    /// Returns the number of servers that are down.
    pub fn down_count(&self) -> u32
        ensures { result ≡ down_count (sizes_of self.now.setup) (place_of self.now) }
    {
        self.table.down_count()
    }

    /// Returns the load of a server, which is never above its room.
    pub fn load(&self, server: ServerId) -> u64
        requires { server < length self.now.setup.servers }
        ensures load { result ≡ load_at (sizes_of self.now.setup) (place_of self.now) server }
        ensures within { result ≤ (sizes_of self.now.setup).room server }
    {
        self.table.load(server)
    }

    /// Returns the number of live replicas of a shard.
    pub fn live(&self, shard: ShardId) -> u32
        requires { shard < length self.now.setup.shards }
        ensures live { result ≡ live_at (sizes_of self.now.setup) (place_of self.now) shard }
        ensures bound { result ≤ MOST_SERVERS }
    {
        self.table.live(shard)
    }

    /// Tells whether the server counts as live for a shard: it is up, and has a secondary or serves.
    pub fn is_live(&self, shard: ShardId, server: ServerId) -> bool
        requires shard { shard < length self.now.setup.shards }
        requires server { server < length self.now.setup.servers }
        ensures { result ≡ is_live_at (place_of self.now) shard server }
    {
        self.table.is_live(shard, server)
    }

    /// Returns the server that the published map names for a shard.
    pub fn listed(&self, shard: ShardId) -> Option<ServerId>
        requires { shard < length self.now.setup.shards }
        ensures listed { result ≡ (place_of self.now).listed shard }
        ensures known { IfSome result (λ server. server < length self.now.setup.servers) }
    {
        self.listed[shard.number() as usize]
    }

    /// Returns how often the map's entry of a shard has changed.
    pub fn version(&self, shard: ShardId) -> u64
        requires { shard < length self.now.setup.shards }
        ensures { result ≡ (place_of self.now).version shard }
    {
        self.versions[shard.number() as usize]
    }

    /// Returns the servers that the published map names, by shard.
    pub fn listed_servers(&self) -> &[Option<ServerId>]
        ensures { result.now ≡ self.now.listed }
    {
        self.listed.as_slice()
    }

    /// Returns how often the map's entries have changed, by shard.
    pub fn versions(&self) -> &[u64]
        ensures { result.now ≡ self.now.versions }
    {
        self.versions.as_slice()
    }

    /// Returns the map's entry of a shard.
    pub fn entry(&self, shard: ShardId) -> Entry
        requires { shard < length self.now.setup.shards }
        ensures { result ≡ entry_at (place_of self.now) shard }
    {
        Entry {
            server: self.listed(shard),
            version: self.version(shard),
        }
    }

    /// Returns the lowest server that serves a shard.
    #[tactic(auto, using(crate::proofs::Searches::find_range_more))]
    fn first_serving(&self, shard: ShardId) -> Option<ServerId>
        requires { shard < length self.now.setup.shards }
        ensures { result ≡ first_below (length self.now.setup.servers) (serves ((place_of self.now).cells shard)) }
    {
        for number in 0..self.config().server_count() {
            if self.table.serves(shard, ServerId::new(number)) {
                return Some(ServerId::new(number));
            }
        }
        None
    }

    /// Returns the one server that serves a shard. The listed server is asked first, and mostly it is the one.
    fn only_serving(&self, shard: ShardId) -> Option<ServerId>
        requires shard { shard < length self.now.setup.shards }
        requires one { serving_in (length self.now.setup.servers) ((place_of self.now).cells shard) ≡ 1 }
        ensures { result ≡ first_below (length self.now.setup.servers) (serves ((place_of self.now).cells shard)) }
    {
        if let Some(server) = self.listed(shard) {
            if self.table.serves(shard, server) {
                return Some(server);
            }
        }
        self.first_serving(shard)
    }

    /// Returns the number of servers that serve a shard, up or down.
    fn serving_count(&self, shard: ShardId) -> u32
        requires { shard < length self.now.setup.shards }
        ensures { result ≡ serving_in (length self.now.setup.servers) ((place_of self.now).cells shard) }
    {
        self.table.serving_count(shard)
    }

    /// Returns which servers serve a shard, up or down.
    pub fn serving(&self, shard: ShardId) -> Serving
        requires { shard < length self.now.setup.shards }
        ensures { result ≡ serving_of (length self.now.setup.servers) ((place_of self.now).cells shard) }
    {
        let count = self.serving_count(shard);
        if count == 0 {
            return Serving::Nobody;
        }
        if count > 1 {
            return Serving::Several(count);
        }
        match self.only_serving(shard) {
            Some(server) => Serving::One(server),
            None => Serving::Nobody,
        }
    }

    /// Returns the lead that describes a shard's cells under some handover number. Takes no memory.
    pub fn lead(&self, shard: ShardId) -> Option<Lead>
        requires { shard < length self.now.setup.shards }
        ensures { result ≡ lead_of (length self.now.setup.servers) ((place_of self.now).cells shard) }
    {
        lead_of(&self.table, shard)
    }

    /// Tells whether the placement is settled: each shard's lead is at rest, each listed server is its shard's primary,
    /// no shard is below its floor, no more servers are down than the limit, and no version is above 2^40.
    pub fn settled(&self) -> bool
        ensures { IsTrue result ↔ IsSettled (sizes_of self.now.setup) (place_of self.now) }
    {
        if faults::first_bad_lead(&self.table).is_some() {
            return false;
        }
        if faults::first_bad_listing(&self.table, &self.listed).is_some() {
            return false;
        }
        if faults::first_short(&self.table).is_some() {
            return false;
        }
        if self.table.down_count() > self.limit {
            return false;
        }
        are_low(&self.versions)
    }

    /// Returns the room that a server has left.
    fn free_room(&self, server: ServerId) -> u64
        requires { server < length self.now.setup.servers }
        ensures { result ≡ (sizes_of self.now.setup).room server - load_at (sizes_of self.now.setup)
            (place_of self.now) server }
    {
        let room = self.table.config().room(server);
        room.saturating_sub(self.table.load(server))
    }

    /// Returns what a server answers to a call.
    fn answer(&self, server: ServerId, shard: ShardId, call: Call) -> Result<Cell, Refusal>
        requires server { server < length self.now.setup.servers }
        requires shard { shard < length self.now.setup.shards }
        requires party { IsKnownCall (length self.now.setup.servers) call }
        ensures answer { result ≡ answer_at (sizes_of self.now.setup) (place_of self.now) shard server call }
        ensures kept { IfOk result (λ next. IsPlacement (sizes_of self.now.setup)
            (set_cell (place_of self.now) shard server next)) }
        ensures forwards { IfOk result (λ next. (is_forwarding
            ((place_of self.now).cells shard server) && is_forwarding next) ≡ false) }
    {
        let cell = self.table.cell(shard, server);
        let load = self.table.config().load(shard);
        let up = !self.table.is_down(server);
        serve(cell, self.free_room(server), load, up, call)
    }

    /// Changes one cell.
    fn set_cell(&mut self, shard: ShardId, server: ServerId, cell: Cell)
        requires shard { shard < length self.old.setup.shards }
        requires server { server < length self.old.setup.servers }
        requires forwards { (is_forwarding ((place_of self.old).cells shard server) && is_forwarding cell) ≡ false }
        requires kept { IsPlacement (sizes_of self.old.setup) (set_cell (place_of self.old) shard server cell) }
        ensures place { place_of self.new ≡ set_cell (place_of self.old) shard server cell }
        ensures setup { self.new.setup ≡ self.old.setup }
    {
        self.table.set_cell(shard, server, cell);
    }

    /// Makes a call at a server.
    pub fn call(&mut self, server: ServerId, shard: ShardId, call: Call) -> Result<(), Refusal>
        requires server { server < length self.old.setup.servers }
        requires shard { shard < length self.old.setup.shards }
        requires party { IsKnownCall (length self.old.setup.servers) call }
        ensures ok { OnOk result (called (sizes_of self.old.setup) (place_of self.old) shard server call
            ≡ Ok (place_of self.new)) }
        ensures refused { IfErr result (λ why. called (sizes_of self.old.setup)
            (place_of self.old) shard server call ≡ Err why) }
        ensures setup { self.new.setup ≡ self.old.setup }
        ensures unchanged { OnErr result (self.new ≡ self.old) }
    {
        let next = self.answer(server, shard, call)?;
        self.set_cell(shard, server, next);
        Ok(())
    }

    /// Returns what a server answers to a numbered call.
    fn numbered_answer(
        &self,
        server: ServerId,
        shard: ShardId,
        call: Call,
        number: u64,
    ) -> Result<Served, Refusal>
        requires server { server < length self.now.setup.servers }
        requires shard { shard < length self.now.setup.shards }
        requires party { IsKnownCall (length self.now.setup.servers) call }
        requires number { 1 ≤ number }
        ensures answer { result ≡ numbered_answer_at (sizes_of self.now.setup)
            (place_of self.now) shard server call number }
        ensures kept { IfOk result (λ served. IsTrue served.fresh
            → IsPlacement (sizes_of self.now.setup) (set_cell (place_of self.now) shard server served.cell)) }
        ensures forwards { IfOk result (λ served. IsTrue served.fresh
            → (is_forwarding ((place_of self.now).cells shard server) && is_forwarding served.cell) ≡ false) }
        ensures again { IfOk result (λ served. served.fresh ≡ false
            → set_last (set_cell (place_of self.now) shard server served.cell) shard server served.last
            ≡ place_of self.now) }
    {
        let cell = self.table.cell(shard, server);
        let last = self.table.last(shard, server);
        let load = self.table.config().load(shard);
        let up = !self.table.is_down(server);
        serve_numbered(cell, last, number, self.free_room(server), load, up, call)
    }

    /// Changes the number of the last call that had an effect on a cell.
    fn set_last(&mut self, shard: ShardId, server: ServerId, number: u64)
        requires shard { shard < length self.old.setup.shards }
        requires server { server < length self.old.setup.servers }
        ensures place { place_of self.new ≡ set_last (place_of self.old) shard server number }
        ensures setup { self.new.setup ≡ self.old.setup }
    {
        self.table.set_last(shard, server, number);
    }

    /// Makes a call that is tried until its answer comes. A number that had its effect on the cell as the last one has
    /// none again; the answer says whether the call had its effect now.
    pub fn call_numbered(
        &mut self,
        server: ServerId,
        shard: ShardId,
        call: Call,
        number: u64,
    ) -> Result<bool, Refusal>
        requires server { server < length self.old.setup.servers }
        requires shard { shard < length self.old.setup.shards }
        requires party { IsKnownCall (length self.old.setup.servers) call }
        requires number { 1 ≤ number }
        ensures ok { IfOk result (λ fresh. called_numbered (sizes_of self.old.setup)
            (place_of self.old) shard server call number
            ≡ Ok (record { place = place_of self.new; fresh = fresh })) }
        ensures refused { IfErr result (λ why. called_numbered (sizes_of self.old.setup)
            (place_of self.old) shard server call number ≡ Err why) }
        ensures setup { self.new.setup ≡ self.old.setup }
        ensures unchanged { OnErr result (self.new ≡ self.old) }
    {
        let served = self.numbered_answer(server, shard, call, number)?;
        if served.fresh {
            self.set_cell(shard, server, served.cell);
            self.set_last(shard, server, served.last);
        }
        Ok(served.fresh)
    }

    /// Forgets the numbers of all numbered calls, as if none had been made.
    pub fn forget_numbers(&mut self)
        ensures place { place_of self.new ≡ forget_numbers (place_of self.old) }
        ensures setup { self.new.setup ≡ self.old.setup }
    {
        self.table.forget_lasts();
    }

    /// Changes the map's entry of a shard, to a server or to none.
    pub fn publish(&mut self, shard: ShardId, listed: Option<ServerId>)
        requires shard { shard < length self.old.setup.shards }
        requires known { ForSome listed (λ server. server < length self.old.setup.servers) }
        requires version { (place_of self.old).version shard < VERSIONS_END }
        ensures place { place_of self.new ≡ publish (place_of self.old) shard listed }
        ensures setup { self.new.setup ≡ self.old.setup }
    {
        let slot = shard.number() as usize;
        self.listed[slot] = listed;
        self.versions[slot] += 1;
    }

    /// Takes a server down. Nothing changes if it is down.
    pub fn set_down(&mut self, server: ServerId)
        requires { server < length self.old.setup.servers }
        ensures place { place_of self.new ≡ set_down (place_of self.old) server true }
        ensures setup { self.new.setup ≡ self.old.setup }
    {
        self.table.set_down(server, true);
    }

    /// Brings a server up. Nothing changes if it is up.
    pub fn set_up(&mut self, server: ServerId)
        requires { server < length self.old.setup.servers }
        ensures place { place_of self.new ≡ set_down (place_of self.old) server false }
        ensures setup { self.new.setup ≡ self.old.setup }
    {
        self.table.set_down(server, false);
    }

    /// Copies the placement.
    pub fn copy(&self, alloc: Global) -> Result<Placement, AllocError>
        ensures { IfOk result (λ placement. placement ≡ self.now) }
    {
        Ok(Placement {
            table: self.table.copy(alloc)?,
            listed: Vec::from_slice(alloc, &self.listed)?,
            versions: Vec::from_slice(alloc, &self.versions)?,
            limit: self.limit,
        })
    }
}
