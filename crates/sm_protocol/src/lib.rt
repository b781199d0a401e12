//! The protocol of the machine, as definitions and laws over them: what starts of plans, their steps, requests,
//! restarts and lost calls do to a state.
#![tactic(auto)]

mod event;
mod law;

pub use event::{BeginFault, Event, Logged, Passage, Played, RefillFault};
pub use law::{
    approved_where_reserved, begun_is_known, begun_where_accepted, effects_are_counted,
    effects_once, ends_are_reached, executed_serves, headline, log_replays, map_follows_entries,
    numbers_stay_small, plays_are_runs, plays_are_safe, refusals_come, room_is_conserved,
    runs_are_safe, tickets_once, tries_are_allowed, unlost_is_unspent, unrecorded_changes_nothing,
    with_losses,
};
