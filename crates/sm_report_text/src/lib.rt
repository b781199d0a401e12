//! The lines of `smplan`'s reports: what it says of placements, plans, calls and events, and why it refuses one.
#![tactic(auto)]

mod answer_lines;
mod bad_input;
mod ending;
mod event_lines;
mod opening;
mod plan_lines;
mod refusal_line;
mod verdict;

pub use answer_lines::{push_made, push_refused};
pub use bad_input::{push_text_fault, push_too_long};
pub use ending::push_ending;
pub use event_lines::{
    push_at, push_begun, push_blocked, push_denied, push_done, push_event_front, push_executed,
    push_not_begun, push_passed, push_plan_front, push_refill_fault, push_stream_text,
    push_waiting, push_word,
};
pub use opening::push_open_fault;
pub use plan_lines::push_no_plan;
pub use sm_refusals::{server_name, shard_name};
pub use verdict::{call_count, push_accepted, push_fault, push_holding};
