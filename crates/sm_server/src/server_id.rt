//! The ids of servers: their positions in the configuration.
ghost use Rattle.std.specs.Prelude.{◌≡◌};

use std::fmt;
use std::marker::Model;

/// A server, by its position in the configuration.
#[derive(Clone, Copy, Debug, PartialEq, Eq, PartialOrd, Ord, Hash)]
pub struct ServerId {
    number: u32,
}

impl Model for ServerId {
    ghost use Rattle.std.specs.Prelude.{ℕ};

    ghost Value = { ℕ };

    ghost view = { λ id. id.number };

    ghost inverse = { λ n. record { number = n } };
}

impl ServerId {
    /// Returns the server at a position.
    pub const fn new(number: u32) -> Self
        ensures { result ≡ number }
    {
        ServerId { number }
    }

    /// Returns the server's position.
    pub const fn number(self) -> u32
        ensures { result ≡ self }
    {
        self.number
    }
}

/// As an error text names it: `server 3`.
impl fmt::Display for ServerId {
    ghost use Rattle.std.specs.Prelude.{◌++◌, codes, decimal, Some};

    ghost output = { λ id. Some (codes "server " ++ decimal id) };

    fn fmt<W: fmt::Write>(&self, f: &mut fmt::Formatter<W>) -> fmt::Result {
        write!(f, "server {}", self.number)
    }
}
