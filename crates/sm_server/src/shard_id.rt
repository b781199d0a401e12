//! The ids of shards: their positions in the configuration.
ghost use Rattle.std.specs.Prelude.{◌≡◌};

use std::fmt;
use std::marker::Model;

/// A shard, by its position in the configuration.
#[derive(Clone, Copy, Debug, PartialEq, Eq, PartialOrd, Ord, Hash)]
pub struct ShardId {
    number: u32,
}

impl Model for ShardId {
    ghost use Rattle.std.specs.Prelude.{ℕ};

    ghost Value = { ℕ };

    ghost view = { λ id. id.number };

    ghost inverse = { λ n. record { number = n } };
}

impl ShardId {
    /// Returns the shard at a position.
    pub const fn new(number: u32) -> Self
        ensures { result ≡ number }
    {
        ShardId { number }
    }

    /// Returns the shard's position.
    pub const fn number(self) -> u32
        ensures { result ≡ self }
    {
        self.number
    }
}

/// As an error text names it: `shard 3`.
impl fmt::Display for ShardId {
    ghost use Rattle.std.specs.Prelude.{◌++◌, codes, decimal, Some};

    ghost output = { λ id. Some (codes "shard " ++ decimal id) };

    fn fmt<W: fmt::Write>(&self, f: &mut fmt::Formatter<W>) -> fmt::Result {
        write!(f, "shard {}", self.number)
    }
}
