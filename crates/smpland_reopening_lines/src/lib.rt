//! The lines of a reopening: what servers tell and operators choose, and the replies.
#![tactic(auto)]

mod fences;
mod law;
mod outcome;
mod progress;
mod proposed;
mod refused;
mod settles;
mod taken;
mod told;

pub use fences::write_fences;
pub use law::settles_bring_all;
pub use outcome::ReopeningOutcome;
pub use progress::write_progress;
pub use refused::{refuse_confirm, refuse_reopen};
pub use settles::write_settles;
pub use taken::{take_confirm, take_fenced, take_settled};
