//! The kinds of rights, and their keys.

use crate::rows::{Amount, Row};
use sm_placement::Lead;
use sm_server::{ServerId, ShardId};
use std::fmt;
use thiserror::Error;

/// A cell with no part in its shard's lead: there are rights to such cells alone.
#[derive(Clone, Copy, Debug, PartialEq, Eq)]
pub enum PlainCell {
    /// The server has nothing of the shard.
    Absent,
    /// The server has a secondary of the shard.
    Secondary,
}

/// The right to change one cell, which is as `state` says.
#[derive(Clone, Copy, Debug, PartialEq, Eq)]
pub struct CellRight {
    /// The cell's shard.
    pub shard: ShardId,
    /// The cell's server.
    pub server: ServerId,
    /// The cell's state.
    pub state: PlainCell,
}

/// The right to change a shard's lead and the entry of the published map.
#[derive(Clone, Copy, Debug, PartialEq, Eq)]
pub struct Crown {
    /// The shard.
    pub shard: ShardId,
    /// The place of the primary.
    pub lead: Lead,
    /// The server that the published map names.
    pub listed: Option<ServerId>,
}

/// Room of a server that its holder may use, in units of load.
#[derive(Clone, Copy, Debug, PartialEq, Eq)]
pub struct Room {
    /// The server.
    pub server: ServerId,
    /// The amount.
    pub amount: u64,
}

/// Live replicas of a shard above its floor, which its holder may take down.
#[derive(Clone, Copy, Debug, PartialEq, Eq)]
pub struct Spare {
    /// The shard.
    pub shard: ShardId,
    /// The number of replicas.
    pub amount: u64,
}

/// The object of a right, without its state or amount. Keys go by their kind in this order, then by shard, then by
/// server.
#[derive(Clone, Copy, Debug, PartialEq, Eq, PartialOrd, Ord)]
pub enum Key {
    /// A right to a cell.
    CellRight {
        /// The cell's shard.
        shard: ShardId,
        /// The cell's server.
        server: ServerId,
    },
    /// A crown.
    Crown {
        /// Its shard.
        shard: ShardId,
    },
    /// Room.
    Room {
        /// Its server.
        server: ServerId,
    },
    /// Spare replicas.
    Spare {
        /// Their shard.
        shard: ShardId,
    },
}

/// The object of the right, as an error text names it.
impl fmt::Display for Key {
    ghost use Rattle.std.specs.Prelude.{Some};
    ghost use Rattle.sm_reservation.specs.Key.{shown_key};

    ghost output = { λ key. Some (shown_key key) };

    fn fmt<W: fmt::Write>(&self, f: &mut fmt::Formatter<W>) -> fmt::Result {
        match self {
            Key::CellRight { shard, server } => write!(f, "the cell of {shard} at {server}"),
            Key::Crown { shard } => write!(f, "the crown of {shard}"),
            Key::Room { server } => write!(f, "room of {server}"),
            Key::Spare { shard } => write!(f, "spare replicas of {shard}"),
        }
    }
}

/// A key of which there was too little.
///
/// A cell right or a crown that is absent or in another state has `had` 0 and `asked` 1.
#[derive(Clone, Copy, Debug, PartialEq, Eq, Error)]
#[error("{key}: {had} there, and {asked} asked for")]
pub struct Short {
    /// The key.
    pub key: Key,
    /// The amount that was there.
    pub had: u64,
    /// The amount that was asked for.
    pub asked: u64,
}

impl Row for CellRight {
    ghost key = { λ x. (x.shard, x.server) };

    fn key(&self) -> (u32, u32) {
        (self.shard.number(), self.server.number())
    }
}

impl Row for Crown {
    ghost key = { λ x. (x.shard, 0) };

    fn key(&self) -> (u32, u32) {
        (self.shard.number(), 0)
    }
}

impl Row for Room {
    ghost key = { λ x. (x.server, 0) };

    fn key(&self) -> (u32, u32) {
        (self.server.number(), 0)
    }
}

impl Row for Spare {
    ghost key = { λ x. (x.shard, 0) };

    fn key(&self) -> (u32, u32) {
        (self.shard.number(), 0)
    }
}

impl Amount for Room {
    ghost amount = { λ x. x.amount };

    fn amount(&self) -> u64 {
        self.amount
    }
}

impl Amount for Spare {
    ghost amount = { λ x. x.amount };

    fn amount(&self) -> u64 {
        self.amount
    }
}
