//! The session of `smpland`: a driver under commands that are lines of JSON, each of which has one reply.
#![tactic(auto)]

mod answering;
mod approving;
mod beginning;
mod changing;
mod closed;
mod command_context;
mod copied;
mod decline;
mod driver_outcome;
mod lost;
mod next_epoch;
mod opening;
mod outcome;
mod planning;
mod reading;
mod reopen_line;
mod reopen_outcome;
mod reopening;
mod replaying;
mod restarting;
mod restoring;
mod session;
mod telling;
mod under_way;

pub use session::{LineEffect, Session};
