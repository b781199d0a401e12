//! Laws that join the lines of a session to the laws of the network: what a line changes is what a command of the
//! driver does. Laws of replays: the same lines make sessions that are alike.
#![tactic(auto)]

mod law;
mod replays;

pub use law::{changes_are_commands, changes_are_turns};
pub use replays::{
    alike_is_equivalence, answer_is_an_entry, entries_go_alike, next_epoch_is_an_entry,
    reopenings_go_alike, replays_agree, replays_stay_alike,
};
