//! Laws that a reopening can end: what was told can be settled, and all can take it.
#![tactic(auto)]

mod law;
mod play;

pub use law::{can_settle, can_tell, reopening_can_end};
pub use play::{carried_blocks, has_end};
