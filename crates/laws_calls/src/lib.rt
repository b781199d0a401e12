//! Laws of the tries of calls: if a try is lost, the next one is the same call.
#![tactic(auto)]

mod law;

pub use law::{calls_stay, further_tries_repeat, tries_leave_numbers};
