//! Laws that hold across reopenings: floors, restarts by permits and effects of orders; and that there is a fleet which
//! opens on a settlement.
#![tactic(auto)]

mod adopt;
mod in_force;
mod late;
mod law;
mod play;
mod versions;

pub use adopt::settles_without_record;
pub use in_force::{fleet_is_there_as, fleet_opens_as, numbers_may_stay};
pub use late::{
    carried_executes_safely, heard_is_settled, late_changes_nothing, late_fence_forgets,
    late_is_overtaken, overtaken_commits_nothing,
};
pub use law::{
    can_open, floors_remain, floors_stay, laws_hold, old_orders_rest, order_acts_once,
    permit_ends_once, rules_keep_floors, service_is_safe,
};
pub use play::keeps_two;
pub use versions::versions_never_go_back;
