//! How copies compare.
ghost use Rattle.std.specs.Prelude.{◌≡◌};
ghost use Rattle.std.specs.Ordering.{MatchOrdering};
ghost use Rattle.sm_copies.specs.Order.{IsLesser};

use std::cmp::Ordering;

/// What a server tells of its copy of a shard. It tells of a whole copy alone, and of what is durable.
#[repr(C)]
#[derive(Clone, Copy, Debug, PartialEq, Eq)]
pub struct ToldCopy {
    /// The number of what made its list's primary.
    pub view: u64,
    /// How many writes it has.
    pub position: u64,
}

/// Compares two copies: the one of the later view is greater, then the longer one.
pub fn compare(one: &ToldCopy, other: &ToldCopy) -> Ordering
    ensures { MatchOrdering result (IsLesser one.now other.now) (one.now ≡ other.now) (IsLesser other.now one.now) }
{
    match one.view.cmp(&other.view) {
        Ordering::Equal => one.position.cmp(&other.position),
        of_views => of_views,
    }
}
