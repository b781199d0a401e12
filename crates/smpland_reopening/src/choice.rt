//! An operator's choices in place of what is proposed.
use sm_server::{Role, ServerId, ShardId};

/// The replicas that a shard of the document is to have, all by the document's own numbers.
#[derive(Debug, Drop)]
pub struct Choice {
    pub shard: ShardId,
    pub replicas: Vec<(ServerId, Role)>,
}
