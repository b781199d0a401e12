//! The board: a machine that threads share, beside the published map that is read without its lock.
#![tactic(auto)]

mod as_desk;
mod board;
mod caller;
mod clients;
mod closing;
mod gate;
mod ground;
mod guard_law;
mod held;
mod limits;
mod names;
mod requests;
mod runner;
mod shares;
mod signals;
mod sure;
mod threads;
mod unfinished;

pub use board::{Board, Guard};
pub use caller::{Caller, TooManyCallers};
pub use clients::{Client, run_beside};
pub use closing::{CloseFault, NotClosed};
pub use gate::{Gate, Open};
pub use ground::{Ground, NotOpened};
pub use limits::PARTS;
pub use names::Naming;
pub use runner::{Ended, Runner, take_tokens};
pub use sure::Sure;
pub use threads::{RunFault, run, run_over};
