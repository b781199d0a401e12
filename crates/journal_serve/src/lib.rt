//! A session over a journal: each line that comes is applied, and what changed something is on the disk before its
//! reply is written.
#![tactic(auto)]

mod applies;
mod fault;
mod journal;
mod law;
mod pending;
mod recovery;
mod replay;
mod resuming;
mod session;
mod turn;
mod writing;

pub use applies::{Applied, Applies};
pub use fault::{RecoverFault, ServeFault};
pub use journal::Journal;
pub use law::lines_determine_exchanges;
pub use recovery::recover;
pub use resuming::{ResumeFault, resume, safe_lines_stay};
pub use session::{serve, serve_unkept};
