//! Changes of what a grant holds, small enough to be made without memory.
use crate::right::{CellRight, Crown, Room, Spare};

/// At most one right of each kind.
#[derive(Clone, Copy, Debug, Default, PartialEq, Eq)]
pub struct Portion {
    /// A right to a cell.
    pub cell: Option<CellRight>,
    /// A crown.
    pub crown: Option<Crown>,
    /// Room of a server.
    pub room: Option<Room>,
    /// Spare replicas of a shard.
    pub spare: Option<Spare>,
}

/// A trade of rights: the part of a grant that an instruction needs, and the part that comes of it, together with the
/// instruction's call.
#[derive(Clone, Copy, Debug, Default, PartialEq, Eq)]
pub struct Change {
    /// The rights that leave the grant.
    pub out: Portion,
    /// The rights that come into it.
    pub got: Portion,
}
