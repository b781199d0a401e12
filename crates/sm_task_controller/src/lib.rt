//! Restarts: whether a server may be taken down now.
#![tactic(auto)]

mod decision;

pub use decision::{Approved, Denied, decide};
