//! Laws of bounded liveness: plans end in as many rounds as their streams have steps left.
#![tactic(auto)]

mod law;
mod play;

pub use law::{round_can_come, rounds_end_plans};
pub use play::ends_in_six_rounds;
