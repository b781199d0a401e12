//! The copies by which a reopening counts.
ghost use Rattle.std.specs.Prelude.{◌≡◌, IfOk};
ghost use Rattle.smpland_reopening.specs.Kept.{kept_of, kept_on};

use crate::reopening::DocumentReopening;
use sm_server::ShardId;
use std::alloc::{AllocError, Global};

/// What a reopening keeps of the record beside its placement.
#[derive(Drop)]
pub(crate) struct KeptRecord {
    /// The permits of the recorded servers that are down.
    pub permits: Vec<Option<u64>>,
    /// Of each shard, how many copies each acknowledged write surely has.
    pub copies: Vec<u32>,
}

impl DocumentReopening {
    /// How many copies each acknowledged write of a shard surely has: one, if no more are kept.
    pub(crate) fn kept_of(&self, shard: ShardId) -> u32
        ensures { result ≡ kept_of self.now shard }
    {
        match self.kept.get(shard.number() as usize) {
            Some(copies) => *copies,
            None => 1,
        }
    }

    /// The copies by which the reopening counts that replaces this one.
    pub(crate) fn kept_on(&self, alloc: Global) -> Result<Vec<u32>, AllocError>
        ensures { IfOk result (λ kept. kept.items ≡ kept_on self.now) }
    {
        if self.is_confirmed() {
            Ok(Vec::new(alloc))
        } else {
            Vec::from_slice(alloc, &self.kept)
        }
    }
}
