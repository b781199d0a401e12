//! Streams of plans.
use std::fmt;

/// A stream of a plan, both by their positions. Streams go by their plan first.
#[derive(Clone, Copy, Debug, PartialEq, Eq, PartialOrd, Ord)]
pub struct StreamId {
    /// The plan's place among the plans begun.
    pub plan: u32,
    /// The stream's place in the plan.
    pub stream: u32,
}

/// As an error text names it: `stream 2 of plan 1`.
impl fmt::Display for StreamId {
    ghost use Rattle.std.specs.Prelude.{◌++◌, codes, decimal, Some};

    ghost output = { λ id. Some (codes "stream " ++ decimal id.stream ++ codes " of plan " ++ decimal id.plan) };

    fn fmt<W: fmt::Write>(&self, f: &mut fmt::Formatter<W>) -> fmt::Result {
        write!(f, "stream {} of plan {}", self.stream, self.plan)
    }
}
