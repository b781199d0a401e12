//! Laws that join the driver to the laws of the service: it is their controller over all epochs and reopenings,
//! whatever commands it takes.
#![tactic(auto)]

mod law;

pub use law::{
    controlled_is_safe, controlled_opens, driver_can_open, driver_can_reopen,
    service_is_controlled, versions_stay_below,
};
