//! The published map's entry of a shard.
use sm_server::ServerId;

/// The server at which a shard is listed, and how often that has changed.
#[derive(Clone, Copy, Debug, PartialEq, Eq)]
pub struct Entry {
    pub server: Option<ServerId>,
    pub version: u64,
}
