//! One server's part: what it has of a shard, the five calls that change it, and the typed handover of a primary.
#![tactic(auto)]

mod call;
mod handover;
mod server_id;
mod shard_id;

pub use call::{
    Call, Cell, Refusal, Role, Served, leads_where_led, serve, serve_numbered, served_once,
    served_where_allowed,
};
pub use handover::{Handed, Handing, HandoverCells, Ready, Steady};
pub use server_id::ServerId;
pub use shard_id::ShardId;
