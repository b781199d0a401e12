//! A client's way to ask for a shard: it finds the server by the published map, and follows the request if servers pass
//! it on.
#![tactic(auto)]

mod asking;
mod desk;
mod limits;

pub use asking::{Asked, ask};
pub use desk::Desk;
pub use limits::MOST_HOPS;
