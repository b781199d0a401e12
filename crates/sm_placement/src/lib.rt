//! The places of each shard's replicas: names and sizes, cells and their sums, and what the published map says.
#![tactic(auto)]

mod cells;
mod config;
mod entry;
mod faults;
mod lasts;
mod laws;
mod lead;
mod limits;
mod opening;
mod parties;
mod placement;
mod replicas;
mod row;
mod table;

pub use config::{Config, ConfigFault, Server, Shard, is_name};
pub use entry::Entry;
pub use laws::{
    answered_where_allowed, lead_where_described, live_moves, numbered_as_called, serving_by_lead,
    sizes_are_small,
};
pub use lead::Lead;
pub use limits::{
    MOST_CELLS, MOST_LOAD, MOST_NAME_BYTES, MOST_REPLICAS, MOST_SERVERS, MOST_SHARDS, MOST_VERSION,
    VERSIONS_END,
};
pub use opening::OpenFault;
pub use placement::{Placement, Serving};
