//! One shard's cells, by server: who serves it, who is live, and how many.
ghost use Rattle.std.specs.Prelude.{◌≡◌, ◌<◌, ◌≤◌, ◌+◌, ◌*◌, ◌&&◌, ℕ, false, not, length, slice_set};
ghost use Rattle.sm_server.specs.Cell.{is_forwarding};
ghost use Rattle.sm_placement.specs.Sums.{put, put2, bit};
ghost use Rattle.sm_placement.specs.Rows.{IsKnownCell, forwards, serves, is_live};
ghost use Rattle.sm_placement.specs.Layout.{grid_of, entries_of};
ghost use Rattle.sm_placement.specs.Replicas.{replicas_by};

use crate::cells::{Cells, Row};
use crate::replicas::Replicas;
use sm_server::{Cell, ServerId, ShardId};

/// The number of servers of a row that are live, and of those that serve.
#[derive(Clone, Copy)]
pub struct Counts {
    pub live: u32,
    pub serving: u32,
}

ghost use Rattle.sm_placement.specs.Counts.{counts_in, counts_at, has_replica, part_of, target_of, party_of};
ghost use Rattle.sm_placement.specs.Counts.{CanCorrect, corrected};
ghost use Rattle.sm_placement.specs.declared.limits.TheConstants.{MOST_SERVERS};

/// Tells whether the cell forwards to the server under the number.
fn forwards(cell: &Cell, server: ServerId, number: u64) -> bool
    ensures { result ≡ forwards cell.now server number }
{
    match cell {
        Cell::Forwarding { to, number: own } => *to == server && *own == number,
        _ => false,
    }
}

/// Returns the cell of a server. Beyond the row it is absent.
#[inline]
fn cell_at(row: Row<'_>, server: ServerId) -> Cell
    ensures { result ≡ grid_of row.entry.servers Cell.Absent row.entry.cells.now row.entry.shard server }
{
    let column = server.number() as usize;
    if column >= row.servers {
        return Cell::Absent;
    }
    row.cells.get(row.shard * row.servers + column)
}

/// Tells whether the server serves the shard of the row: a primary does, and a prepared server to which the owner
/// forwards.
#[inline]
pub fn serves(row: Row<'_>, server: ServerId) -> bool
    ensures { result ≡ serves (grid_of row.entry.servers Cell.Absent row.entry.cells.now row.entry.shard) server }
{
    match cell_at(row, server) {
        Cell::Primary => true,
        Cell::Prepared { from, number } => forwards(&cell_at(row, from), server, number),
        _ => false,
    }
}

/// Tells whether the server has a replica that is live while the server is up.
fn has_replica(row: Row<'_>, server: ServerId) -> bool
    ensures { result ≡ has_replica (grid_of row.entry.servers Cell.Absent row.entry.cells.now row.entry.shard) server }
{
    match cell_at(row, server) {
        Cell::Secondary => true,
        _ => serves(row, server),
    }
}

/// Returns the number of a row's live replicas, once a server goes down or comes up that has one or not.
pub fn live_toggled(live: u32, has_replica: bool, down: bool) -> u32
    requires part { part_of (not down) has_replica ≤ live }
    requires bound { live ≤ MOST_SERVERS }
    ensures { result + part_of (not down) has_replica ≡ live + part_of down has_replica }
{
    if !has_replica {
        live
    } else if down {
        live - 1
    } else {
        live + 1
    }
}

/// Returns the server to which the cell forwards.
fn target(cell: &Cell) -> Option<ServerId>
    ensures { result ≡ target_of cell.now }
{
    match cell {
        Cell::Forwarding { to, .. } => Some(*to),
        _ => None,
    }
}

/// Returns what one server adds to the counts of a row.
#[tactic(auto, unfolding(crate::specs::Layout::entries_of))]
fn counts_at_one(row: Row<'_>, down: &[bool], server: ServerId) -> Counts
    requires { server < length down.now }
    ensures live { result.live ≡ bit (is_live
        (grid_of row.entry.servers Cell.Absent row.entry.cells.now row.entry.shard)
        (entries_of false down.now) server) }
    ensures serving { result.serving ≡ bit (serves
        (grid_of row.entry.servers Cell.Absent row.entry.cells.now row.entry.shard) server) }
{
    let is_up = !down[server.number() as usize];
    Counts {
        live: u32::from(is_up && has_replica(row, server)),
        serving: u32::from(serves(row, server)),
    }
}

/// Returns the other server whose part in a row may change with the cell of a server. It is the one to which the old or
/// the new cell forwards, or the server itself if neither does.
fn party_of(old: &Cell, next: &Cell, server: ServerId) -> ServerId
    ensures { result ≡ party_of old.now next.now server }
{
    target(old).or(target(next)).unwrap_or(server)
}

/// Returns what two servers, which may be one, add to the counts of a row.
fn counts_at(row: Row<'_>, down: &[bool], server: ServerId, other: ServerId) -> Counts
    requires server { server < length down.now }
    requires other { other < length down.now }
    ensures { result ≡ counts_at (grid_of row.entry.servers Cell.Absent row.entry.cells.now row.entry.shard)
        (entries_of false down.now) server other }
{
    let own = counts_at_one(row, down, server);
    if other == server {
        return own;
    }
    let more = counts_at_one(row, down, other);
    Counts {
        live: own.live + more.live,
        serving: own.serving + more.serving,
    }
}

/// Returns the counts after one part of them, which was `before`, is `after`.
fn corrected(counts: Counts, before: Counts, after: Counts) -> Counts
    requires { CanCorrect counts before after }
    ensures { result ≡ corrected counts before after }
{
    Counts {
        live: counts.live + after.live - before.live,
        serving: counts.serving + after.serving - before.serving,
    }
}

/// Sets the entries of two servers, which may be one, for the shard of a row.
fn set_replicas(replicas: &mut Replicas, row: Row<'_>, server: ServerId, other: ServerId)
    requires shard { row.shard < replicas.old.shards }
    requires server { server * replicas.old.shards + row.shard < length replicas.old.held }
    requires other { other * replicas.old.shards + row.shard < length replicas.old.held }
    ensures held { replicas_by replicas.new ≡ put2
        (put2 (replicas_by replicas.old) server row.entry.shard
        (has_replica (grid_of row.entry.servers Cell.Absent row.entry.cells.now row.entry.shard) server)) other
        row.entry.shard (has_replica (grid_of row.entry.servers Cell.Absent row.entry.cells.now row.entry.shard)
        other) }
    ensures length { length replicas.new.held ≡ length replicas.old.held }
    ensures shards { replicas.new.shards ≡ replicas.old.shards }
{
    replicas.set(
        server.number() as usize,
        row.shard,
        has_replica(row, server),
    );
    replicas.set(other.number() as usize, row.shard, has_replica(row, other));
}

/// Sets the cell of a server and a shard whose row has these counts, with the entries that change with it, and says
/// what the counts are then.
pub fn set_cell(
    cells: &mut Cells,
    replicas: &mut Replicas,
    down: &[bool],
    shard: ShardId,
    server: ServerId,
    cell: Cell,
    counts: Counts,
) -> Counts
    requires bound { length down.now ≤ MOST_SERVERS }
    requires shard { shard * length down.now + length down.now ≤ length cells.old }
    requires server { server < length down.now }
    requires known { IsKnownCell (length down.now) (grid_of (length down.now) Cell.Absent cells.old shard server) }
    requires next { IsKnownCell (length down.now) cell }
    requires one_forwards { (is_forwarding (grid_of (length down.now) Cell.Absent cells.old shard server) &&
        is_forwarding cell) ≡ false }
    requires counts { counts ≡ counts_in (length down.now) (grid_of (length down.now) Cell.Absent cells.old shard)
        (entries_of false down.now) }
    requires replicas_shard { shard < replicas.old.shards }
    requires replicas_length { length replicas.old.held ≡ length down.now * replicas.old.shards }
    requires replicas { (v : ℕ) → replicas_by replicas.old v shard
        ≡ has_replica (grid_of (length down.now) Cell.Absent cells.old shard) v }
    ensures cells { cells.new ≡ slice_set cells.old (shard * length down.now + server) cell }
    ensures counts { result ≡ counts_in (length down.now)
        (put (grid_of (length down.now) Cell.Absent cells.old shard) server cell) (entries_of false down.now) }
    ensures replicas { replicas_by replicas.new
        ≡ (λ v. put (replicas_by replicas.old v) shard
        (has_replica (put (grid_of (length down.now) Cell.Absent cells.old shard) server cell) v)) }
    ensures replicas_length { length replicas.new.held ≡ length replicas.old.held }
    ensures replicas_shards { replicas.new.shards ≡ replicas.old.shards }
{
    let servers = down.len();
    let row = cells.row(shard.number() as usize, servers);
    let other = party_of(&cell_at(row, server), &cell, server);
    let before = counts_at(row, down, server, other);
    cells.set(
        shard.number() as usize * servers + server.number() as usize,
        cell,
    );
    let row = cells.row(shard.number() as usize, servers);
    let after = counts_at(row, down, server, other);
    set_replicas(replicas, row, server, other);
    corrected(counts, before, after)
}
