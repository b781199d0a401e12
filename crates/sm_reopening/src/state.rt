//! The state that a reopening keeps of a server, and what was confirmed.
use crate::party::{Inventory, Membership};
use sm_placement::Placement;

/// A server of a reopening.
#[derive(Drop)]
pub(crate) struct ServerState {
    pub membership: Membership,
    /// Its first answer to the fence.
    pub told: Option<Inventory>,
    /// It has taken its settle.
    pub settled: bool,
    /// A reopening that was replaced has sent it a settle.
    pub promised: bool,
}

/// The settlement that was confirmed.
#[derive(Drop)]
pub(crate) struct Confirmed {
    pub placement: Placement,
    pub log_room: u32,
}
