//! The verifier of plans: what a stream holds after each of its instructions, why it may not make one, which plans pass
//! the check, and which of them may start.
#![tactic(auto)]

mod admission;
mod amounts;
mod checked;
mod checking;
mod declared;
mod downs;
mod following;
mod free;
mod laws;
mod next;
mod order;
mod signals;
mod steps;
mod truth;
mod verdict;

pub use admission::{Holding, admit, admit_from_true_pool};
pub use checked::Checked;
pub use checking::{Fault, check};
pub use following::{Bad, follow};
pub use laws::{
    admitted_is_within, good_streams_go_on, instrs_are_reachable, signals_stand_once, some_goes_on,
};
pub use verdict::{finds_fault, finds_holding, one_fault, one_holding};
