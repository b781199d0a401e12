//! The parties of a reopening, and what each tells.
use crate::slots::FoundSlots;
use sm_copies::ToldCopy;
use sm_server::{Cell, ServerId};

/// A party that is fenced and settled.
#[derive(Clone, Copy, Debug, PartialEq, Eq)]
pub enum Party {
    Server(ServerId),
    /// The owner of the published map.
    MapOwner,
}

/// The part that the document of a reopening gives a server.
#[derive(Clone, Copy, Debug, PartialEq, Eq)]
pub enum Membership {
    /// The document has the server.
    Member,
    /// The document leaves the server out. It is asked, and may have nothing left.
    LeftOut,
    /// The server is lost for good, and is not asked.
    Lost,
}

/// The copy of a server that has none, or tells of none.
pub(crate) const NO_COPY: ToldCopy = ToldCopy {
    view: 0,
    position: 0,
};

/// A server's account of one shard.
#[derive(Clone, Copy, Debug, PartialEq, Eq)]
pub struct FoundSlot {
    pub cell: Cell,
    /// How far the server has the shard's writes.
    pub copy: ToldCopy,
    /// A prepared server has all writes up to the cut of its handover.
    pub reached: bool,
}

impl FoundSlot {
    ghost use Rattle.std.specs.Prelude.{◌≡◌};
    ghost use Rattle.sm_reopening.specs.States.{no_slot};

    /// The account of a server that has nothing of the shard.
    pub const fn absent() -> FoundSlot
        ensures { result ≡ no_slot }
    {
        FoundSlot {
            cell: Cell::Absent,
            copy: NO_COPY,
            reached: false,
        }
    }
}

/// A server's account once it is fenced.
#[derive(Debug, Drop)]
pub enum Inventory {
    Slots(FoundSlots),
    /// It has lost its slots, and asks for them under this nonce.
    Unknown { nonce: u64 },
}
