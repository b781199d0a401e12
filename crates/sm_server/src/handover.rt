//! The graceful handover of a primary, with a type for each of its states.
//!
//! A state is consumed by its change and can't be copied, so a change can't be made twice or out of order.
//! A state may be let go: the servers then stay as its cells say.
mod handed;
mod handing;
mod ready;
mod steady;

use crate::call::Cell;
pub use handed::Handed;
pub use handing::Handing;
pub use ready::Ready;
pub use steady::Steady;

/// The cells of a handover's two servers.
#[derive(Clone, Copy, Debug, PartialEq, Eq)]
pub struct HandoverCells {
    pub owner: Cell,
    pub new_server: Cell,
}
