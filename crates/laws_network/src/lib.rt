//! The protocol over a network, as definitions and laws over them: real servers, orders and answers that are late,
//! lost, doubled or out of order, and a controller that holds no lock while calls are under way.
#![tactic(auto)]

mod delivery;
mod fleet_law;
mod fleet_play;
mod law;
mod map_owner;
mod reopening_law;
mod reopening_play;

pub use delivery::{Delivery, deliver};
pub use fleet_law::{
    beginnings_are_harmless, commits_once_per_number, commits_where_up, executes_at_one_server,
    fleet_can_finish, fleet_is_reached, fleet_is_safe, fleet_opens, map_is_right,
    map_never_goes_back, no_letter_is_refused, only_present_commits, permits_end_once,
    present_is_heard, servers_are_at_ends, servers_are_near, servers_are_recorded,
    some_fleet_can_go_on,
};
pub use fleet_play::{
    crashes_are_harmless, crossing_is_harmless, late_restore_is_harmless, lost_answer_is_harmless,
    old_messages_are_harmless, unchecked_plan_is_refused,
};
pub use law::{
    can_finish, can_finish_onward, can_reopen, can_reopen_onward, executes_where_serving,
    follows_net, is_once, net_is_reached, none_is_refused, real_is_at_ends, real_is_near,
    real_is_recorded, real_is_safe, record_is_reached, serves_where_up, shown_is_near,
    shown_is_recorded, shown_is_right, shown_never_goes_back, some_can_go_on, some_can_go_onward,
};
pub use map_owner::entry_after;
pub use reopening_law::{
    agents_do_so, can_begin, can_begin_again, executes_safely, fleet_can_reopen,
    fleet_opens_in_force, loads_fit, opens_with_past, refuses_none, sends_from_beginnings,
    settles_fairly, shown_executes, told_is_had,
};
pub use reopening_play::{
    asks_newcomers, brings_back, carries_none_settled, moves_no_primary, takes_no_old_settle,
    takes_no_settle_twice,
};
