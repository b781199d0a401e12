//! A server's side of moving shards: what it makes of orders, requests, fences, settles and restores.
#![tactic(auto)]

mod assignment;
mod base;
mod law;
mod order;
mod request;
mod slot;

pub use assignment::{Assignment, Incomplete, Part, ShardSlot, assign, take};
pub use base::{Base, Reception, Reopening, Restoration, Settlement, fence, forget, heed};
pub use law::{
    commits_call, commits_in_order, commits_once, deleted_says_the_same, executes_at_owner,
    fenced_commits_nothing, has_its_part, heeds_reopenings, leaves_the_rest, map_goes_on,
    old_has_no_effect, passes_on_at_cut, requests_wait, restores_once, settles_once,
    takes_over_at_cut, takes_whole, unknown_does_nothing, work_goes_on,
};
pub use order::{Order, Stamp, Verdict, judge, publish};
pub use request::{Relay, Request, Routing, route};
pub use slot::{Slot, abandon, begin, commit, has_reached_cut, may_delete, seal, vacant};
