//! Copies of acknowledged writes.
ghost use Rattle.std.specs.Prelude.{◌≡◌, ◌<◌, ℕ, IfOk, length, replicate, slice_index_or, slice_set};

use sm_server::ShardId;
use std::alloc::{AllocError, Global};
use std::marker::Model;

/// The effect of copies that are told of a shard.
#[derive(Clone, Copy, Debug, PartialEq, Eq)]
pub enum CopiesEffect {
    /// They are recorded now.
    Noted,
    /// They were told to another journal, or before its last reopening, or as many are recorded already.
    Old,
    /// They are more than the replicas that the shard wants.
    AboveWant,
}

/// The copies that are told of a shard: the number of its replicas that have each acknowledged write, and will have
/// each later one before it is acknowledged.
#[derive(Clone, Copy, Debug, PartialEq, Eq)]
pub struct ToldCopies {
    /// The journal to which they are told.
    pub journal: u64,
    /// The fence of the journal's last reopening, as who tells them knows it.
    pub fence: u64,
    /// The number of replicas.
    pub copies: u32,
}

/// The copies that are recorded, by the shards' numbers.
#[derive(Drop)]
pub(crate) struct Copies {
    counts: Vec<u32>,
}

impl Model for Copies {
    ghost use Rattle.std.specs.Prelude.{ℕ, List};

    ghost Value = { List ℕ };

    ghost view = { λ c. c.counts.items };
}

impl Copies {
    /// The copies at an opening with a number of shards: 1 of each shard.
    pub fn at_opening(alloc: Global, shards: u32) -> Result<Copies, AllocError>
        ensures { IfOk result (λ copies. copies ≡ replicate shards 1) }
    {
        let counts = vec![in alloc; 1; shards as usize]?;
        Ok(Copies { counts })
    }

    /// The copies of a shard.
    pub fn get(&self, shard: ShardId) -> u32
        requires { shard < length self.now }
        ensures { result ≡ slice_index_or self.now shard 1 }
    {
        self.counts[shard.number() as usize]
    }

    /// Notes the copies of a shard.
    pub fn set(&mut self, shard: ShardId, copies: u32)
        requires { shard < length self.old }
        ensures { self.new ≡ slice_set self.old shard copies }
    {
        self.counts[shard.number() as usize] = copies;
    }
}
