//! Faults of a table's cells, listings, loads and live replicas.
ghost use Rattle.std.specs.Prelude.{◌≡◌, ◌<◌, ℕ, length, Some, None};
ghost use Rattle.sm_placement.specs.Setup.{sizes_of};
ghost use Rattle.sm_placement.specs.Layout.{entries_of};
ghost use Rattle.sm_placement.specs.Grid.{cells_of, down_of};
ghost use Rattle.sm_placement.specs.Opening.{first_below, has_bad_lead, has_bad_listing, is_over_room, is_short};

use crate::table::Table;
use sm_server::{Cell, ServerId, ShardId};

/// Tells whether the shard has two primaries, or a handover is under way.
fn has_bad_lead(table: &Table, shard: ShardId) -> bool
    requires { shard < length table.now.setup.shards }
    ensures { result ≡ has_bad_lead (length table.now.setup.servers) (cells_of table.now shard) }
{
    let mut primaries: u32 = 0;
    for number in 0..table.config().server_count() {
        match table.cell(shard, ServerId::new(number)) {
            Cell::Primary => primaries += 1,
            Cell::Prepared { .. } | Cell::Forwarding { .. } => return true,
            Cell::Absent | Cell::Secondary => {}
        }
    }
    primaries > 1
}

/// Returns the lowest shard with a bad lead.
#[tactic(auto, using(crate::proofs::Searches::find_range_more))]
pub fn first_bad_lead(table: &Table) -> Option<ShardId>
    ensures { result ≡ first_below (length table.now.setup.shards)
        (λ s. has_bad_lead (length table.now.setup.servers) (cells_of table.now s)) }
{
    for number in 0..table.config().shard_count() {
        if has_bad_lead(table, ShardId::new(number)) {
            return Some(ShardId::new(number));
        }
    }
    None
}

/// Tells whether the listed server is not the shard's primary.
fn has_bad_listing(table: &Table, shard: ShardId, listed: Option<ServerId>) -> bool
    requires shard { shard < length table.now.setup.shards }
    requires listed { (v : ℕ) → listed ≡ Some v → v < length table.now.setup.servers }
    ensures { result ≡ has_bad_listing (cells_of table.now shard) listed }
{
    match listed {
        Some(server) => table.cell(shard, server) != Cell::Primary,
        None => false,
    }
}

/// Returns the lowest shard whose listed server is not its primary.
#[tactic(auto, using(crate::proofs::Searches::find_range_more))]
pub fn first_bad_listing(table: &Table, listed: &[Option<ServerId>]) -> Option<ShardId>
    requires len { length listed.now ≡ length table.now.setup.shards }
    requires known { (s v : ℕ) → entries_of None listed.now s ≡ Some v → v < length table.now.setup.servers }
    ensures { result ≡ first_below (length table.now.setup.shards)
        (λ s. has_bad_listing (cells_of table.now s) (entries_of None listed.now s)) }
{
    for number in 0..table.config().shard_count() {
        if has_bad_listing(table, ShardId::new(number), listed[number as usize]) {
            return Some(ShardId::new(number));
        }
    }
    None
}

/// Tells whether the server's load is above its room.
fn is_over_room(table: &Table, server: ServerId) -> bool
    requires { server < length table.now.setup.servers }
    ensures { result ≡ is_over_room (sizes_of table.now.setup) (cells_of table.now) server }
{
    table.config().room(server) < table.load(server)
}

/// Returns the lowest server whose load is above its room.
#[tactic(auto, using(crate::proofs::Searches::find_range_more))]
pub fn first_over_room(table: &Table) -> Option<ServerId>
    ensures { result ≡ first_below (length table.now.setup.servers)
        (is_over_room (sizes_of table.now.setup) (cells_of table.now)) }
{
    for number in 0..table.config().server_count() {
        if is_over_room(table, ServerId::new(number)) {
            return Some(ServerId::new(number));
        }
    }
    None
}

/// Tells whether the shard has fewer live replicas than its floor.
fn is_short(table: &Table, shard: ShardId) -> bool
    requires { shard < length table.now.setup.shards }
    ensures { result ≡ is_short (sizes_of table.now.setup) (cells_of table.now) (down_of table.now) shard }
{
    table.live(shard) < table.config().floor(shard)
}

/// Returns the lowest shard with fewer live replicas than its floor.
#[tactic(auto, using(crate::proofs::Searches::find_range_more))]
pub fn first_short(table: &Table) -> Option<ShardId>
    ensures { result ≡ first_below (length table.now.setup.shards)
        (is_short (sizes_of table.now.setup) (cells_of table.now) (down_of table.now)) }
{
    for number in 0..table.config().shard_count() {
        if is_short(table, ShardId::new(number)) {
            return Some(ShardId::new(number));
        }
    }
    None
}
