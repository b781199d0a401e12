//! Decisions on the record: a controller that waits for answers decides on restarts and starts by what it has recorded,
//! although servers and the map's owner may be ahead of it. It would decide alike if it knew.
#![tactic(auto)]

mod law;

pub use law::{approves_alike, effects_are_told, starts_alike};
