//! Moves, for which plans are made.
ghost use Rattle.std.specs.Prelude.{◌↔◌, IsTrue, length};
ghost use Rattle.sm_plan_code.specs.Move.{IsKnownMove};

use sm_placement::Config;
use sm_server::{ServerId, ShardId};

/// A replica of a shard that is to go from one server to another.
#[derive(Clone, Copy, Debug, PartialEq, Eq)]
pub struct Move {
    /// The shard.
    pub shard: ShardId,
    /// The server that has the replica.
    pub from: ServerId,
    /// The server that is to have it.
    pub to: ServerId,
}

impl Move {
    /// Tells whether the shard and both servers are in the configuration, as they have to be for each move of a plan.
    pub fn fits(&self, config: &Config) -> bool
        ensures { IsTrue result ↔ IsKnownMove (length config.now.shards) (length config.now.servers) self.now }
    {
        self.shard.number() < config.shard_count()
            && self.from.number() < config.server_count()
            && self.to.number() < config.server_count()
    }
}
