//! The limits of configurations and placements, each named once.

/// The greatest number of servers of a configuration.
pub const MOST_SERVERS: usize = 1_024;

/// The greatest number of shards of a configuration.
pub const MOST_SHARDS: usize = 4_096;

/// The greatest number of bytes of a name.
pub const MOST_NAME_BYTES: usize = 32;

/// The greatest load of a replica, and the greatest room of a server.
pub const MOST_LOAD: u64 = 4_294_967_295;

/// The greatest want, cap and spread of a shard.
pub const MOST_REPLICAS: u32 = 1_024;

/// The greatest number of cells that may be named when a placement is opened.
pub const MOST_CELLS: usize = 1_048_576;

/// The greatest version of an entry in a settled placement.
pub const MOST_VERSION: u64 = 1 << 40;

/// Above each version of an entry of the published map.
pub const VERSIONS_END: u64 = 1 << 47;
