//! A reopening under a document: who takes part in it by names, what is proposed and chosen, and the driver that
//! comes of it. It reads and writes no text.
#![tactic(auto)]

mod answers;
mod beginning;
mod choice;
mod confirming;
mod fault;
mod force;
mod kept;
mod marks;
mod members;
mod numbering;
mod opening;
mod proposal;
mod reopening;
mod roles;
mod unknown_shard;
mod waiting;

pub use choice::Choice;
pub use fault::{ConfirmRefusal, ReopenFault};
pub use proposal::{Proposal, ShortFloor};
pub use reopening::DocumentReopening;
pub use unknown_shard::UnknownShard;
pub use waiting::Stage;
