//! Rights: what a stream of a plan may do is what it holds.
#![tactic(auto)]

pub mod change;
pub mod conservation;
mod edits;
mod fits;
pub mod grant;
pub mod hold;
pub mod laws;
mod merge;
mod moves;
mod opening;
mod order;
pub mod parcel;
mod pool;
mod pool_moves;
pub mod right;
mod rows;
mod short;
pub mod stream_id;
mod trades;

pub use crate::change::{Change, Portion};
pub use crate::conservation::{rights_add_up, rights_keep_one_holder};
pub use crate::grant::Grant;
pub use crate::hold::Hold;
pub use crate::laws::{
    a_spent_grant_has_nothing, capacity_by_hold, joins_in_placement, no_rights_are_no_hold,
    not_short_is_covered, rights_stay_known,
};
pub use crate::parcel::{Lists, Parcel, ParcelFault};
pub use crate::pool::{Pool, TakeFault};
pub use crate::right::{CellRight, Crown, Key, PlainCell, Room, Short, Spare};
pub use crate::stream_id::StreamId;
pub use sm_placement::Lead;
