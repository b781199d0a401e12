//! The planner: from moves that are wanted, or a server that is to be emptied, to a plan that the machine accepts.
#![tactic(auto)]

mod draining;
mod entry;
mod held;
mod laws;
mod marks;
mod payment;
mod placing;
mod planner;
mod refusal;
mod region_numbers;
mod spread;
mod writing;

pub use entry::{drain, moves};
pub use laws::{
    drains_empty, drains_have_plans, plans_are_orderly, plans_are_usable, plans_move, plans_spread,
    rule_answers_once,
};
pub use refusal::NoPlan;
