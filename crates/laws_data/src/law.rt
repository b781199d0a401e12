//! The laws.
ghost use Rattle.laws_data.specs.Laws.{AcknowledgedWritesStay, EnoughHaveThem, GreatestHasAll};
ghost use Rattle.laws_data.specs.Naming.{UnnamedIsWhole};
ghost use Rattle.laws_data.specs.Plays.{ComesWithoutPrimary, LeavesWithoutPrimary, OutlivesItsPrimary};
ghost use Rattle.laws_data.specs.Plays.{SucceedsItsPrimary};

/// States that the primary, if there is one and it has a whole copy, has every write that was ever acknowledged,
/// whatever happened since, unless a reopening has named the shard as lost.
pub fn acknowledged_writes_stay()
    ensures { AcknowledgedWritesStay }
{}

/// States that at each moment at least as many replicas as are asked for have all acknowledged writes, or have lost
/// their whole copy.
pub fn enough_replicas_have_them()
    ensures { EnoughHaveThem }
{}

/// States that if fewer replicas than are asked for are gone or silent, the greatest copy of those that were told has
/// all acknowledged writes.
pub fn greatest_copy_has_all()
    ensures { GreatestHasAll }
{}

/// States that the premises of the laws can be met: in a worked play a write outlives its primary, with nothing named.
pub fn a_write_outlives_its_primary()
    ensures { OutlivesItsPrimary }
{}

/// States that a secondary can become primary by the former primary's copy, where too few others are left: so it does
/// in a worked play.
pub fn a_secondary_succeeds_its_primary()
    ensures { SucceedsItsPrimary }
{}

/// States that a replica can go without a primary, by leave of one that has all that it has: so it does in a worked
/// play.
pub fn a_replica_leaves_without_a_primary()
    ensures { LeavesWithoutPrimary }
{}

/// States that a replica can come without a primary, by the copy of another one: so it does in a worked play, and keeps
/// the write.
pub fn a_replica_comes_without_a_primary()
    ensures { ComesWithoutPrimary }
{}

/// States that if a reopening does not name a shard whose primary is gone, the server that inherits the shard has all
/// acknowledged writes, as long as no more copies of the shard are kept than each of them had.
pub fn unnamed_shards_are_whole()
    ensures { UnnamedIsWhole }
{}
