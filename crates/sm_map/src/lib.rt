//! The published map of shards, one word for each shard.
//!
//! One publisher stores the words, and clients load them without a lock. A client never sees an older entry than it has
//! seen, or than had been stored when its pass was made.
#![tactic(auto)]

mod entry;
mod map;
mod rule;

pub use entry::{entry_of, word_of};
pub use map::{Pass, Publisher, Words};
pub use sm_placement::Entry;
