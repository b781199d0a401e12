//! The limit of an ask.

/// The greatest number of hops of an ask. Each request that comes to a server is a hop, directly or passed on.
pub const MOST_HOPS: u32 = 8;
