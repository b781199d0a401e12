//! Laws of data: a write that is acknowledged stays with the shard's primary, whatever is lost, unless the shard was
//! named as lost.
#![tactic(auto)]

mod law;

pub use law::{
    a_replica_comes_without_a_primary, a_replica_leaves_without_a_primary,
    a_secondary_succeeds_its_primary, a_write_outlives_its_primary, acknowledged_writes_stay,
    enough_replicas_have_them, greatest_copy_has_all, unnamed_shards_are_whole,
};
