//! A controller of real servers: which orders to send now, and what their answers make of what is recorded. It has no
//! handle, reads no file and writes none.
#![tactic(auto)]

mod carried;
mod copies;
mod driver;
mod epoch;
mod law;
mod local_steps;
mod order;
mod ordering;
mod permits;
mod restart;
mod restores;

pub use copies::{CopiesEffect, ToldCopies};
pub use driver::{AnswerEffect, Driver, EPOCH_STEP};
pub use epoch::EpochFault;
pub use law::drivers_go_alike;
pub use local_steps::is_free;
pub use order::{StreamMessage, StreamOrder, StreamPublication};
pub use ordering::{awaiting, awaits, message_of, order_of, publication_of};
pub use permits::are_earlier_permits;
pub use restart::RestartEffect;
pub use restores::{RestoreFault, ServerRestore};
