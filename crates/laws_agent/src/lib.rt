//! Laws of agents in a reopening: what they do, the model of reopenings does, message by message.
#![tactic(auto)]

mod law;
mod play;

pub use law::{
    agents_are_simulated, clusters_are_reached, clusters_open, have_settlement, one_agent_executes,
    stand_for_reached,
};
pub use play::serves_again;
