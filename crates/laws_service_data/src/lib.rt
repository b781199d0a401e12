//! Laws of a service's data: the server that executes requests of a shard has each write that was acknowledged.
#![tactic(auto)]

mod law;
mod play;

pub use law::{
    cut_ends_writes, cut_is_told_as_made, duties_suffice, executes_as_settled,
    executes_over_reopenings, executes_with_all, in_force_is_settled, joined_opens,
    lead_numbers_rise, numbers_are_later, opens_anew, reached_cut_has_all, rules_suffice,
    serving_server_leads, settled_server_leads, settled_suffices, takes_over_with_all,
};
pub use play::{
    former_serves_again, handover_cuts_at_end, handover_keeps_writes, lead_moves,
    primary_serves_on, restart_keeps_writes, secondary_is_chosen,
};
