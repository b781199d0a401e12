//! Laws that join the driver to the laws of the network: it is their controller, whatever commands it takes.
#![tactic(auto)]

mod control;
mod driven;
mod first;
mod replicas;
mod taking;

pub use control::{answers_have_entries, commands_are_entries};
pub use driven::{
    commands_are_events, driven_is_controlled, driven_is_safe, drivers_open, fleet_driven_is_safe,
    opened_controls, sends_as_driven,
};
pub use first::open_with_fleet;
pub use replicas::{replicas_open_alike, replicas_stay_alike};
pub use taking::{answered, approve, begin, copied, new_epoch, restarted, restore};
