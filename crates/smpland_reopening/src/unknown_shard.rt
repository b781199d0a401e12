//! Shards that a server has and nobody knows.
use sm_server::ServerId;

/// A shard that a server has told of, and that has no number.
#[derive(Debug, Drop)]
pub struct UnknownShard {
    pub server: ServerId,
    /// The name of the shard.
    pub shard: String,
}
