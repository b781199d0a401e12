//! Plans as code: instructions, and what each of them does to the rights of the stream that makes it.
#![tactic(auto)]

mod call;
mod change;
mod fits;
mod instruction;
mod law;
mod limits;
mod moves;
mod plan;

pub use call::{ServerCall, call_of, number_after};
pub use change::{change_of, listed_under};
pub use fits::is_known_instr;
pub use instruction::{Instr, NamedServers, Why, is_call, names};
pub use law::{
    has_effects, has_numbered_effects, holds_stay_known, lasts_are_unseen, lines_exchange,
    reach_is_exclusive, signal_gives, stays_reachable, wait_takes,
};
pub use limits::{
    MOST_ALLOWANCE, MOST_AMOUNT, MOST_CALLS, MOST_INSTRUCTIONS, MOST_MOVES, MOST_NUMBER,
    MOST_PLACES, MOST_PLANS, MOST_RIGHTS, MOST_SIGNALS, MOST_STREAMS,
};
pub use moves::Move;
pub use plan::{Parts, Plan, PlanFault, Stream};
