//! The servers that have replicas: an entry for each server and shard.
ghost use Rattle.std.specs.Prelude.{◌≡◌, ◌<◌, ◌+◌, ◌*◌, ◌^◌, false, length, replicate, IfOk};
ghost use Rattle.sm_placement.specs.Sums.{put2};
ghost use Rattle.sm_placement.specs.Replicas.{replicas_by};

use std::alloc::{AllocError, Global};
use std::marker::Model;

/// For each server and shard, whether the server has a replica of the shard that is live while the server is up. The
/// entries of a server stand side by side, because whoever asks for one of a server asks for all of them.
#[derive(Drop)]
pub struct Replicas {
    held: Vec<bool>,
    shards: usize,
}

impl Model for Replicas {
    ghost use Rattle.sm_placement.specs.Replicas.{ReplicasModel};

    ghost Value = { ReplicasModel };

    ghost view = { λ r. record { held = r.held.items; shards = r.shards } };
}

impl Replicas {
    /// Makes an entry for each of these servers and shards, with no replica.
    pub fn new(alloc: Global, servers: usize, shards: usize) -> Result<Replicas, AllocError>
        requires { servers * shards < 2 ^ 32 }
        ensures { IfOk result (λ replicas. replicas
            ≡ record { held = replicate (servers * shards) false; shards = shards }) }
    {
        Ok(Replicas {
            held: vec![in alloc; false; servers * shards]?,
            shards,
        })
    }

    /// Copies the entries.
    pub fn copy(&self, alloc: Global) -> Result<Replicas, AllocError>
        ensures { IfOk result (λ replicas. replicas ≡ self.now) }
    {
        Ok(Replicas {
            held: Vec::from_slice(alloc, &self.held)?,
            shards: self.shards,
        })
    }

    /// Returns the entry of a server and a shard.
    pub fn get(&self, server: usize, shard: usize) -> bool
        requires shard { shard < self.now.shards }
        requires within { server * self.now.shards + shard < length self.now.held }
        ensures { result ≡ replicas_by self.now server shard }
    {
        self.held[server * self.shards + shard]
    }

    /// Sets the entry of a server and a shard. Takes no memory.
    pub fn set(&mut self, server: usize, shard: usize, has_replica: bool)
        requires shard { shard < self.old.shards }
        requires within { server * self.old.shards + shard < length self.old.held }
        ensures held { replicas_by self.new ≡ put2 (replicas_by self.old) server shard has_replica }
        ensures length { length self.new.held ≡ length self.old.held }
        ensures shards { self.new.shards ≡ self.old.shards }
    {
        self.held[server * self.shards + shard] = has_replica;
    }
}
