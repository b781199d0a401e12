//! A reopening under way: a controller fences the servers and the owner of the published map, takes what each of them
//! tells, proposes what may be settled, and settles all of them anew. It has no text and no handle.
#![tactic(auto)]

mod faults;
mod fencing;
mod losses;
mod ongoing;
mod party;
mod proposal;
mod settling;
mod slots;
mod state;
mod states;
mod survivors;

pub use faults::ConfirmFault;
pub use fencing::FencedEffect;
pub use ongoing::OngoingReopening;
pub use party::{FoundSlot, Inventory, Membership, Party};
pub use settling::{Settle, SettledEffect};
pub use slots::FoundSlots;
pub use survivors::Standing;
