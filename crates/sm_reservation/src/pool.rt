//! The rights that no grant has.
ghost use Rattle.std.specs.Prelude.{ℕ, ◌≡◌, ◌↔◌, IsTrue, ◌<◌, ◌≤◌, ◌+◌, ◌*◌, ◌^◌, Some, None, IfOk, OnOk, IfErr, OnErr};
ghost use Rattle.std.specs.Prelude.{IfSome, IfNone};
ghost use Rattle.sm_placement.specs.Layout.{entries_of};
ghost use Rattle.sm_reservation.specs.Hold.{no_hold, minus, plus, with_cell, with_crown, without_crown, pay_room};
ghost use Rattle.sm_reservation.specs.Hold.{get_room, pay_spare, get_spare};
ghost use Rattle.sm_reservation.specs.HoldOf.{hold_of};
ghost use Rattle.sm_reservation.specs.Capacity.{HasCapacity, most_keys, IsMore};
ghost use Rattle.sm_reservation.specs.Short.{first_short};
ghost use Rattle.sm_reservation.specs.TakeFault.{short_of};
ghost use Rattle.sm_reservation.specs.CanJoin.{CanJoin};
ghost use Rattle.sm_reservation.specs.Pool.{pool_hold, IsKnownHold, SameSize, true_rights, leads_of, IsKnownRight};
ghost use Rattle.sm_reservation.specs.Pool.{one_spare};

use crate::fits::{can_join, is_known_hold};
use crate::grant::Grant;
use crate::hold::Hold;
use crate::opening::{put_cells, put_crowns, put_rooms, put_spares};
use crate::parcel::Parcel;
use crate::pool_moves;
use crate::right::{CellRight, Crown, PlainCell, Room, Short, Spare};
use crate::short::{ByKey, first_short};
use sm_placement::{Lead, Placement};
use sm_server::{ServerId, ShardId};
use std::alloc::{AllocError, Global};
use std::marker::Model;
use thiserror::Error;

/// Why a pool gives no grant.
#[derive(Clone, Copy, Debug, PartialEq, Eq, Error)]
pub enum TakeFault {
    /// Memory was short.
    #[error("out of memory")]
    NoMemory,
    /// There is too little of a key.
    #[error("the pool is short of {0}")]
    Short(Short),
}

impl From<AllocError> for TakeFault {
    ghost use Rattle.sm_reservation.specs.declared.pool.TakeFault.TheVariants.{NoMemory};

    ghost from_gives = { λ _ fault. fault ≡ NoMemory };

    fn from(_error: AllocError) -> TakeFault {
        TakeFault::NoMemory
    }
}

/// The rights that no grant has.
pub struct Pool {
    cells: Vec<Option<PlainCell>>,
    crowns: Vec<Option<(Lead, Option<ServerId>)>>,
    room: Vec<u64>,
    spare: Vec<u64>,
}

/// Drops everything in one call, instead of one call for each list.
impl Drop for Pool {
    fn drop(self) {
        let Pool {
            cells,
            crowns,
            room,
            spare,
        } = self;
        drop(cells);
        drop(crowns);
        drop(room);
        drop(spare);
    }
}

impl Model for Pool {
    ghost use Rattle.std.specs.Prelude.{length};
    ghost use Rattle.sm_reservation.specs.Pool.{PoolModel, IsStocked};

    ghost Value = { PoolModel };

    ghost view = { λ p. record { shards = length p.spare.items; servers = length p.room.items; cells = p.cells.items; crowns = p.crowns.items; room = p.room.items; spare = p.spare.items } };

    ghost invariant = { λ p. IsStocked (record { shards = length p.spare.items; servers = length p.room.items; cells = p.cells.items; crowns = p.crowns.items; room = p.room.items; spare = p.spare.items }) };
}

/// States that no entry of a list is above what a u64 holds.
fn entries_fit(entries: &[u64])
    ensures { (k : ℕ) → entries_of 0 entries.now k < 2 ^ 64 }
{}

impl Pool {
    ghost use Rattle.std.specs.Prelude.{length};
    ghost use Rattle.sm_placement.specs.Setup.{sizes_of};
    ghost use Rattle.sm_placement.specs.Lead.{IsSettled};
    ghost use Rattle.sm_placement.specs.Layout.{place_of};
    ghost use Rattle.sm_reservation.specs.Amounts.{Right, count, bound, stock};
    ghost use Rattle.sm_reservation.specs.Truth.{IsTrueOf};

    /// Makes a pool for this many shards and servers, with nothing in it.
    fn empty(alloc: Global, shards: u32, servers: u32) -> Result<Pool, AllocError>
        ensures hold { IfOk result (λ pool. pool_hold pool ≡ no_hold) }
        ensures shards { IfOk result (λ pool. pool.shards ≡ shards) }
        ensures servers { IfOk result (λ pool. pool.servers ≡ servers) }
    {
        let rows = shards as usize;
        let columns = servers as usize;
        Ok(Pool {
            cells: vec![in alloc; None; rows * columns]?,
            crowns: vec![in alloc; None; rows]?,
            room: vec![in alloc; 0; columns]?,
            spare: vec![in alloc; 0; rows]?,
        })
    }

    /// Opens a pool of all rights true of a placement.
    pub fn open(alloc: Global, placement: &Placement) -> Result<Pool, AllocError>
        requires { IsSettled (sizes_of placement.now.setup) (place_of placement.now) }
        ensures rights { IfOk result (λ pool. pool_hold pool
            ≡ true_rights (sizes_of placement.now.setup) (place_of placement.now)) }
        ensures shards { IfOk result (λ pool. pool.shards ≡ length placement.now.setup.shards) }
        ensures servers { IfOk result (λ pool. pool.servers ≡ length placement.now.setup.servers) }
        ensures whole { let c = sizes_of placement.now.setup in let p = place_of placement.now in IfOk result
            (λ pool. (r : Right) → IsKnownRight c r → count (pool_hold pool) r + bound c p r
            ≡ stock c p (leads_of c p) r) }
        ensures truth { let c = sizes_of placement.now.setup in let p = place_of placement.now in IfOk result
            (λ pool. IsTrueOf c p (leads_of c p) (pool_hold pool)) }
    {
        let shards = placement.config().shard_count();
        let servers = placement.config().server_count();
        let mut pool = Pool::empty(alloc, shards, servers)?;
        put_cells(&mut pool, placement);
        put_crowns(&mut pool, placement);
        put_rooms(&mut pool, placement);
        put_spares(&mut pool, placement);
        Ok(pool)
    }

    /// Returns the number of shards of the pool.
    pub fn shard_count(&self) -> usize
        ensures count { result ≡ self.now.shards }
        ensures within { IsKnownHold self.now.shards self.now.servers (pool_hold self.now) }
    {
        self.spare.len()
    }

    /// Returns the number of servers of the pool.
    pub fn server_count(&self) -> usize
        ensures { result ≡ self.now.servers }
    {
        self.room.len()
    }

    /// Returns the slot of a pair in the list of cells.
    fn slot(&self, shard: ShardId, server: ServerId) -> Option<usize>
        ensures known { IfSome result (λ slot. (shard < self.now.shards) × (server < self.now.servers)
            × (slot ≡ shard * self.now.servers + server)) }
        ensures unknown { IfNone result (shard < self.now.shards → self.now.servers ≤ server) }
    {
        let row = shard.number() as usize;
        let column = server.number() as usize;
        let servers = self.room.len();
        if row < self.spare.len() && column < servers {
            Some(row * servers + column)
        } else {
            None
        }
    }

    /// Returns the state of a cell to which the pool has the right.
    pub fn cell_right(&self, shard: ShardId, server: ServerId) -> Option<PlainCell>
        ensures { result ≡ (pool_hold self.now).cells shard server }
    {
        match self.slot(shard, server) {
            Some(slot) => self.cells[slot],
            None => None,
        }
    }

    /// Returns the lead and the listed server of a shard whose crown the pool has.
    pub fn crown(&self, shard: ShardId) -> Option<(Lead, Option<ServerId>)>
        ensures { result ≡ (pool_hold self.now).crowns shard }
    {
        let slot = shard.number() as usize;
        self.crowns.get(slot).copied().flatten()
    }

    /// Returns how much room of a server the pool has.
    pub fn room(&self, server: ServerId) -> u64
        ensures { result ≡ (pool_hold self.now).room server }
    {
        let slot = server.number() as usize;
        self.room.get(slot).copied().unwrap_or(0)
    }

    /// Returns how many spare replicas of a shard the pool has.
    pub fn spare(&self, shard: ShardId) -> u64
        ensures { result ≡ (pool_hold self.now).spare shard }
    {
        let slot = shard.number() as usize;
        self.spare.get(slot).copied().unwrap_or(0)
    }

    /// Takes one spare replica of a shard out, since it goes down.
    pub fn less(&mut self, shard: ShardId)
        requires { 1 ≤ (pool_hold self.old).spare shard }
        ensures hold { pool_hold self.new ≡ pay_spare (pool_hold self.old) shard 1 }
        ensures sums { (r : Right) → count (pool_hold self.new) r + one_spare shard r ≡ count (pool_hold self.old) r }
        ensures size { SameSize self.old self.new }
    {
        self.take_spare(Spare { shard, amount: 1 });
    }

    /// Puts one spare replica of a shard in, since it is up again.
    pub fn more(&mut self, shard: ShardId)
        requires shard { shard < self.old.shards }
        requires fits { (pool_hold self.old).spare shard + 1 < 2 ^ 64 }
        ensures hold { pool_hold self.new ≡ get_spare (pool_hold self.old) shard 1 }
        ensures sums { (r : Right) → count (pool_hold self.new) r ≡ count (pool_hold self.old) r + one_spare shard r }
        ensures size { SameSize self.old self.new }
    {
        self.put_spare(Spare { shard, amount: 1 });
    }

    /// Takes a parcel's rights out of the pool.
    ///
    /// If the pool has too little of a key the fault is the first such key, whether or not there is memory. At a fault
    /// the pool is as it was.
    pub fn take(&mut self, alloc: Global, parcel: &Parcel) -> Result<Grant, TakeFault>
        ensures enough { OnOk result (first_short (pool_hold self.old) parcel.now ≡ None) }
        ensures taken { OnOk result (pool_hold self.new ≡ minus (pool_hold self.old) parcel.now) }
        ensures given { IfOk result (λ grant. grant.rights ≡ parcel.now) }
        ensures capacity { IfOk result (λ grant. grant.capacity ≡ most_keys parcel.now) }
        ensures kept { IfOk result (λ grant. (r : Right)
            → count (pool_hold self.new) r + count (hold_of grant.rights) r ≡ count (pool_hold self.old) r) }
        ensures below { IfOk result (λ grant. IsKnownHold self.new.shards self.new.servers (hold_of grant.rights)) }
        ensures fits { IfOk result (λ grant. CanJoin (pool_hold self.new) (hold_of grant.rights)) }
        ensures refused { IfErr result (λ why. first_short (pool_hold self.old) parcel.now ≡ short_of why) }
        ensures err { OnErr result (self.new ≡ self.old) }
        ensures size { SameSize self.old self.new }
    {
        if let Some(short) = first_short(self, parcel) {
            return Err(TakeFault::Short(short));
        }
        let hold = Hold::of_parcel(alloc, parcel)?;
        self.take_parcel(parcel);
        Ok(Grant::of_hold(hold))
    }

    /// Takes a parcel's rights out of the pool into a grant that is there. Takes no memory.
    ///
    /// If the pool has too little of a key the first such key comes back, and neither changes.
    pub fn fill(&mut self, grant: &mut Grant, parcel: &Parcel) -> Result<(), Short>
        requires capacity { HasCapacity grant.old parcel.now }
        requires fits { CanJoin (hold_of grant.old.rights) (hold_of parcel.now) }
        ensures enough { OnOk result (first_short (pool_hold self.old) parcel.now ≡ None) }
        ensures taken { OnOk result (pool_hold self.new ≡ minus (pool_hold self.old) parcel.now) }
        ensures given { OnOk result (hold_of grant.new.rights ≡ plus (hold_of grant.old.rights) parcel.now) }
        ensures kept { OnOk result ((r : Right) → count (pool_hold self.new) r + count (hold_of grant.new.rights) r
            ≡ count (pool_hold self.old) r + count (hold_of grant.old.rights) r) }
        ensures more { OnOk result (IsMore grant.old grant.new parcel.now) }
        ensures below { OnOk result (IsKnownHold self.new.shards self.new.servers (hold_of parcel.now)) }
        ensures short { IfErr result (λ short. first_short (pool_hold self.old) parcel.now ≡ Some short) }
        ensures err { OnErr result ((self.new ≡ self.old) × (grant.new ≡ grant.old)) }
        ensures size { SameSize self.old self.new }
    {
        if let Some(short) = first_short(self, parcel) {
            return Err(short);
        }
        self.take_parcel(parcel);
        grant.put(parcel);
        Ok(())
    }

    /// Tells whether a grant can be given back: its shards and servers are known, and it can be put beside what is
    /// here.
    pub fn can_join(&self, grant: &Grant) -> bool
        ensures { IsTrue result ↔ (IsKnownHold self.now.shards self.now.servers (hold_of grant.now.rights)
            × CanJoin (pool_hold self.now) (hold_of grant.now.rights)) }
    {
        let hold = grant.hold();
        hold.rights_in_order();
        let cells = hold.cells();
        let crowns = hold.crowns();
        let rooms = hold.rooms();
        let spares = hold.spares();
        is_known_hold(hold, self.shard_count(), self.server_count())
            && can_join(self, cells, crowns, rooms, spares)
    }

    /// Takes all rights of a grant back. Takes no memory.
    pub fn give_back(&mut self, grant: Grant)
        requires below { IsKnownHold self.old.shards self.old.servers (hold_of grant.rights) }
        requires fits { CanJoin (pool_hold self.old) (hold_of grant.rights) }
        ensures hold { pool_hold self.new ≡ plus (pool_hold self.old) grant.rights }
        ensures kept { (r : Right) → count (pool_hold self.new) r
            ≡ count (pool_hold self.old) r + count (hold_of grant.rights) r }
        ensures size { SameSize self.old self.new }
    {
        let parcel = grant.into_hold().into_parcel();
        self.put_parcel(&parcel);
    }

    /// States that no amount is above what a u64 holds.
    fn entries_are_u64(&self)
        ensures room { (v : ℕ) → (pool_hold self.now).room v < 2 ^ 64 }
        ensures spare { (s : ℕ) → (pool_hold self.now).spare s < 2 ^ 64 }
    {
        entries_fit(&self.room);
        entries_fit(&self.spare);
    }

    /// Takes out a parcel's rights.
    fn take_parcel(&mut self, parcel: &Parcel)
        requires { first_short (pool_hold self.old) parcel.now ≡ None }
        ensures hold { pool_hold self.new ≡ minus (pool_hold self.old) parcel.now }
        ensures sums { (r : Right) → count (pool_hold self.new) r + count (hold_of parcel.now) r
            ≡ count (pool_hold self.old) r }
        ensures below { IsKnownHold self.new.shards self.new.servers (hold_of parcel.now) }
        ensures fits { CanJoin (pool_hold self.new) (hold_of parcel.now) }
        ensures size { SameSize self.old self.new }
    {
        self.entries_are_u64();
        let _ = self.shard_count();
        pool_moves::take_cells(self, parcel.cells());
        pool_moves::take_crowns(self, parcel.crowns());
        pool_moves::take_rooms(self, parcel.room());
        pool_moves::take_spares(self, parcel.spare());
    }

    /// Puts in a parcel's rights.
    fn put_parcel(&mut self, parcel: &Parcel)
        requires below { IsKnownHold self.old.shards self.old.servers (hold_of parcel.now) }
        requires fits { CanJoin (pool_hold self.old) (hold_of parcel.now) }
        ensures hold { pool_hold self.new ≡ plus (pool_hold self.old) parcel.now }
        ensures sums { (r : Right) → count (pool_hold self.new) r
            ≡ count (pool_hold self.old) r + count (hold_of parcel.now) r }
        ensures size { SameSize self.old self.new }
    {
        let cells = parcel.cells();
        let crowns = parcel.crowns();
        let rooms = parcel.room();
        let spares = parcel.spare();
        pool_moves::put_cells(self, cells);
        pool_moves::put_crowns(self, crowns);
        pool_moves::put_rooms(self, rooms);
        pool_moves::put_spares(self, spares);
    }

    /// Takes out the right to a cell.
    pub(crate) fn take_cell(&mut self, shard: ShardId, server: ServerId)
        ensures hold { pool_hold self.new ≡ with_cell (pool_hold self.old) shard server None }
        ensures size { SameSize self.old self.new }
    {
        if let Some(slot) = self.slot(shard, server) {
            self.cells[slot] = None;
        }
    }

    /// Puts in the right to a cell.
    pub(crate) fn put_cell(&mut self, right: CellRight)
        requires shard { right.shard < self.old.shards }
        requires server { right.server < self.old.servers }
        ensures hold { pool_hold self.new ≡ with_cell (pool_hold self.old) right.shard right.server (Some right.state) }
        ensures size { SameSize self.old self.new }
    {
        if let Some(slot) = self.slot(right.shard, right.server) {
            self.cells[slot] = Some(right.state);
        }
    }

    /// Takes out a crown.
    pub(crate) fn take_crown(&mut self, shard: ShardId)
        ensures hold { pool_hold self.new ≡ without_crown (pool_hold self.old) shard }
        ensures size { SameSize self.old self.new }
    {
        let slot = shard.number() as usize;
        if slot < self.shard_count() {
            self.crowns[slot] = None;
        }
    }

    /// Puts in a crown.
    pub(crate) fn put_crown(&mut self, crown: Crown)
        requires { crown.shard < self.old.shards }
        ensures hold { pool_hold self.new ≡ with_crown (pool_hold self.old) crown.shard crown.lead crown.listed }
        ensures size { SameSize self.old self.new }
    {
        let slot = crown.shard.number() as usize;
        self.crowns[slot] = Some((crown.lead, crown.listed));
    }

    /// Takes out room.
    pub(crate) fn take_room(&mut self, room: Room)
        ensures hold { pool_hold self.new ≡ pay_room (pool_hold self.old) room.server room.amount }
        ensures size { SameSize self.old self.new }
    {
        let slot = room.server.number() as usize;
        if slot < self.server_count() {
            self.room[slot] = self.room[slot].saturating_sub(room.amount);
        }
    }

    /// Puts in room.
    pub(crate) fn put_room(&mut self, room: Room)
        requires server { room.server < self.old.servers }
        requires fits { (pool_hold self.old).room room.server + room.amount < 2 ^ 64 }
        ensures hold { pool_hold self.new ≡ get_room (pool_hold self.old) room.server room.amount }
        ensures size { SameSize self.old self.new }
    {
        let slot = room.server.number() as usize;
        self.room[slot] += room.amount;
    }

    /// Takes out spare replicas.
    pub(crate) fn take_spare(&mut self, spare: Spare)
        ensures hold { pool_hold self.new ≡ pay_spare (pool_hold self.old) spare.shard spare.amount }
        ensures size { SameSize self.old self.new }
    {
        let slot = spare.shard.number() as usize;
        if slot < self.shard_count() {
            self.spare[slot] = self.spare[slot].saturating_sub(spare.amount);
        }
    }

    /// Puts in spare replicas.
    pub(crate) fn put_spare(&mut self, spare: Spare)
        requires shard { spare.shard < self.old.shards }
        requires fits { (pool_hold self.old).spare spare.shard + spare.amount < 2 ^ 64 }
        ensures hold { pool_hold self.new ≡ get_spare (pool_hold self.old) spare.shard spare.amount }
        ensures size { SameSize self.old self.new }
    {
        let slot = spare.shard.number() as usize;
        self.spare[slot] += spare.amount;
    }
}

impl ByKey for Pool {
    ghost use Rattle.sm_reservation.specs.Pool.{pool_hold};

    ghost hold = { pool_hold };

    fn cell_of(&self, shard: ShardId, server: ServerId) -> Option<PlainCell> {
        self.cell_right(shard, server)
    }

    fn crown_of(&self, shard: ShardId) -> Option<(Lead, Option<ServerId>)> {
        self.crown(shard)
    }

    fn room_of(&self, server: ServerId) -> u64 {
        self.room(server)
    }

    fn spare_of(&self, shard: ShardId) -> u64 {
        self.spare(shard)
    }

    fn amounts_fit(&self) {
        self.entries_are_u64();
    }
}
